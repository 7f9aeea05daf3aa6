//! What is told of records that are no run, and of threads that gave none. No input of the program brings it about.

use gq_desk::Name;
use gq_inspect::Mismatch;
use gq_live::LiveFault;
use gq_runs::{LiveRunFault, NamedMismatch, RequestFault};
use std::alloc::Global;
use std::test::Fail;

// What is told of it, of a tenant of that name.
fn told(alloc: Global, mismatch: Mismatch, name: Option<Name>) -> Result<String, Fail> {
    let fault = LiveRunFault::Mismatch(NamedMismatch { mismatch, name });
    Ok(format!(in alloc; "{fault}")?)
}

fn answer() -> Mismatch {
    Mismatch::Answer {
        tenant: 2,
        session: 1,
        at: 9,
    }
}

#[test]
fn prints_a_mismatch(rt: HostRuntime) -> Result<(), Fail> {
    let receipt = Mismatch::Receipt {
        server: 3,
        place: 7,
    };
    let reply = Mismatch::Reply {
        server: 3,
        place: 7,
    };
    for (mismatch, name, text) in [
        (Mismatch::Shape, None, "mismatch shape"),
        (Mismatch::Stamp, None, "mismatch stamp"),
        (reply, None, "mismatch reply 3 7"),
        (receipt, None, "mismatch receipt 3 7"),
        (answer(), None, "mismatch answer 2 1 9"),
        (answer(), Name::new(b"ann"), "mismatch answer ann 1 9"),
    ] {
        assert!(rt; told(rt.alloc(), mismatch, name)?.as_str() == text);
    }
    Ok(())
}

#[test]
fn prints_a_fault_of_threads_and_ends_with_its_status(rt: HostRuntime) -> Result<(), Fail> {
    for (fault, text, status) in [
        (LiveFault::Thread, "thread fault", 3),
        (LiveFault::Gate, "gate", 4),
        (LiveFault::Stamps, "stamps", 4),
        (LiveFault::Volume(2), "volume 2", 1),
        (LiveFault::Letter, "letter", 4),
    ] {
        let fault = RequestFault::Live(LiveRunFault::Live(fault));
        assert!(rt; fault.status() == status, "{text}");
        let told = format!(in rt.alloc(); "{fault}")?;
        assert!(rt; told.as_str() == text);
    }
    Ok(())
}

#[test]
fn ends_with_the_status_of_a_mismatch(rt: HostRuntime) {
    let mismatch = NamedMismatch {
        mismatch: answer(),
        name: None,
    };
    assert!(rt; RequestFault::Live(LiveRunFault::Mismatch(mismatch)).status() == 4);
}
