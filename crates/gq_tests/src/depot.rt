//! The chunks of two tenants over a shelf in memory: each call where memory and the shelf refuse nothing, and a start from the facts.

use bytes::Bytes;
use gq_depot::{
    Answered, ChunkAnswer, ChunkFact, ChunkRequest, Cleaner, Depot, Depots, Scrub, Spot, Sweep,
};
use gq_memory::{GrowBytes, GrowVec, filled};
use gq_shelf::{Extent, MemoryShelf, Place};
use gq_stock::{CHUNK_CHARGE, Found, Keeping, MOST_FRESH, Run, Source};
use std::alloc::Global;
use std::process::Abort;
use std::test::Fail;

const LOSSES: u64 = 3;

// Room for two chunks of twelve bytes together.
const ROOM: u64 = 12 + 2 * CHUNK_CHARGE;

fn content(rt: &impl Abort, alloc: Global, text: &str) -> Bytes {
    match Bytes::copy_from_slice(alloc, text.as_bytes()) {
        Ok(bytes) => bytes,
        Err(_) => panic!(rt; "out of memory"),
    }
}

fn keep(rt: &impl Abort, alloc: Global, number: u64, text: &str) -> ChunkRequest {
    ChunkRequest::Keep {
        session: 1,
        number,
        bytes: content(rt, alloc, text),
    }
}

fn get(number: u64) -> ChunkRequest {
    ChunkRequest::Get {
        session: 1,
        number,
        from: 0,
        length: 9,
    }
}

// Two tenants, who have a session each, and the second one lacks chunks.
fn two_depots(alloc: Global) -> Result<Depots<MemoryShelf>, Fail> {
    let mut depots = Vec::new(alloc);
    depots.grow(Depot::new(alloc, 1, ROOM, false)?)?;
    depots.grow(Depot::new(alloc, 1, ROOM, true)?)?;
    Ok(Depots {
        shelf: MemoryShelf::new(alloc),
        depots,
        losses: LOSSES,
    })
}

fn answered(
    rt: &impl Abort,
    alloc: Global,
    depots: &mut Depots<MemoryShelf>,
    tenant: usize,
    request: ChunkRequest,
) -> Answered {
    assert!(rt; tenant < depots.depots.len());
    match depots.answer(alloc, tenant, request) {
        Ok(answered) => answered,
        Err(_) => panic!(rt; "refused"),
    }
}

fn answer_to(
    rt: &impl Abort,
    alloc: Global,
    depots: &mut Depots<MemoryShelf>,
    tenant: usize,
    request: ChunkRequest,
) -> ChunkAnswer {
    let Answered { answer, fact } = answered(rt, alloc, depots, tenant, request);
    drop(fact);
    answer
}

fn keeps(
    rt: &impl Abort,
    alloc: Global,
    depots: &mut Depots<MemoryShelf>,
    tenant: usize,
    number: u64,
    text: &str,
) -> Keeping {
    match answer_to(rt, alloc, depots, tenant, keep(rt, alloc, number, text)) {
        ChunkAnswer::Kept { told, losses, .. } => {
            assert!(rt; losses == LOSSES);
            told
        }
        _ => panic!(rt; "another answer"),
    }
}

fn has(
    rt: &impl Abort,
    alloc: Global,
    depots: &mut Depots<MemoryShelf>,
    tenant: usize,
    number: u64,
    text: &str,
) -> bool {
    match answer_to(rt, alloc, depots, tenant, get(number)) {
        ChunkAnswer::Found {
            found: Found::There(bytes),
            ..
        } => bytes.as_slice() == text.as_bytes(),
        _ => false,
    }
}

fn lacks(
    rt: &impl Abort,
    alloc: Global,
    depots: &mut Depots<MemoryShelf>,
    tenant: usize,
    number: u64,
) -> bool {
    matches!(
        answer_to(rt, alloc, depots, tenant, get(number)),
        ChunkAnswer::Found {
            found: Found::Nothing,
            lacks: true,
            ..
        }
    )
}

// Whether the first tenant has such a fact.
fn is_recalled(
    rt: &impl Abort,
    alloc: Global,
    depots: &mut Depots<MemoryShelf>,
    fact: ChunkFact,
) -> bool {
    assert!(rt; depots.depots.len() == 2);
    match depots.depots[0].recall(alloc, fact) {
        Ok(is_read) => is_read,
        Err(_) => panic!(rt; "out of memory"),
    }
}

#[test]
fn two_tenants_have_chunks_of_one_number(rt: HostRuntime) -> Result<(), Fail> {
    let alloc = rt.alloc();
    let mut depots = two_depots(alloc)?;
    assert!(&rt; keeps(&rt, alloc, &mut depots, 0, 1, "ann's") == Keeping::New);
    assert!(&rt; keeps(&rt, alloc, &mut depots, 1, 1, "bob's") == Keeping::New);
    assert!(&rt; keeps(&rt, alloc, &mut depots, 0, 1, "bob's") == Keeping::Differs);
    assert!(&rt; has(&rt, alloc, &mut depots, 0, 1, "ann's"));
    assert!(&rt; lacks(&rt, alloc, &mut depots, 1, 1));
    Ok(())
}

#[test]
fn a_start_has_again_what_was_kept(rt: HostRuntime) -> Result<(), Fail> {
    let alloc = rt.alloc();
    let mut depots = two_depots(alloc)?;
    let kept = answered(&rt, alloc, &mut depots, 0, keep(&rt, alloc, 7, "kept"));
    let forgot = answered(
        &rt,
        alloc,
        &mut depots,
        0,
        ChunkRequest::Forget {
            session: 1,
            floor: 5,
            run: Run { first: 1, last: 5 },
        },
    );
    assert!(&rt; matches!(forgot.answer, ChunkAnswer::Forgot { floor: 5, .. }));
    let mut again = two_depots(alloc)?;
    for fact in [kept.fact, forgot.fact, Some(ChunkFact::Filled)] {
        if let Some(fact) = fact {
            assert!(&rt; is_recalled(&rt, alloc, &mut again, fact));
        }
    }
    assert!(&rt; has(&rt, alloc, &mut again, 0, 7, "kept"));
    assert!(&rt; keeps(&rt, alloc, &mut again, 0, 5, "low") == Keeping::Below);
    let strange = ChunkFact::Forgot {
        session: 2,
        floor: 5,
        run: Run { first: 1, last: 5 },
    };
    assert!(&rt; !is_recalled(&rt, alloc, &mut again, strange));
    Ok(())
}

#[test]
fn numbers_and_room_are_told(rt: HostRuntime) -> Result<(), Fail> {
    let alloc = rt.alloc();
    let mut depots = two_depots(alloc)?;
    assert!(&rt; keeps(&rt, alloc, &mut depots, 0, 4, "four") == Keeping::New);
    assert!(&rt; keeps(&rt, alloc, &mut depots, 0, 9, "nine") == Keeping::New);
    let list = ChunkRequest::List {
        session: 1,
        after: 4,
    };
    match answer_to(&rt, alloc, &mut depots, 0, list) {
        ChunkAnswer::Listed { chunks, is_all, .. } => {
            assert!(&rt; is_all && chunks.len() == 1);
            assert!(&rt; chunks.len() == 1 && chunks[0].number == 9 && chunks[0].size == 4);
        }
        _ => panic!(&rt; "another answer"),
    }
    let room = answer_to(&rt, alloc, &mut depots, 0, ChunkRequest::Room);
    assert!(&rt;
        matches!(
            room,
            ChunkAnswer::Room {
                used,
                allowed: ROOM,
                losses: LOSSES,
                lacks: false
            } if used == ROOM - 4
        )
    );
    Ok(())
}

// A chunk lies in its segment until it is forgotten.
#[test]
fn segments_of_chunks_are_known(rt: HostRuntime) -> Result<(), Fail> {
    let alloc = rt.alloc();
    let mut depots = two_depots(alloc)?;
    let extent = Extent {
        segment: 3,
        at: 0,
        len: 5,
        sum: 0,
    };
    let put = ChunkFact::Put {
        session: 1,
        number: 7,
        is_sure: true,
        place: Place::Shelved(extent),
    };
    assert!(&rt; is_recalled(&rt, alloc, &mut depots, put));
    assert!(&rt; depots.lies_in(3) && !depots.lies_in(2));
    assert!(&rt; matches!(depots.remove(3), Ok(false)));
    assert!(&rt; matches!(depots.remove(2), Ok(false)));
    let mut sweep = Sweep::new(alloc);
    for _ in 0..9 {
        assert!(&rt; matches!(depots.sweep(&mut sweep), Ok(None)));
    }
    let forgot = ChunkFact::Forgot {
        session: 1,
        floor: 7,
        run: Run { first: 7, last: 7 },
    };
    assert!(&rt; is_recalled(&rt, alloc, &mut depots, forgot));
    assert!(&rt; !depots.lies_in(3));
    Ok(())
}

// Moves the chunk, and looks for it.
fn moves(rt: &impl Abort, alloc: Global, depots: &mut Depots<MemoryShelf>) {
    assert!(rt; !depots.depots.is_empty());
    assert!(rt;
        matches!(
            depots.shelve(0, 1, 7, &Source::Shelf),
            Ok(Some(ChunkFact::Put {
                session: 1,
                number: 7,
                is_sure: true,
                place: Place::Shelved(Extent { len: 5, .. }),
            }))
        )
    );
    assert!(rt; matches!(depots.make_sure(), Ok(())));
    let request = ChunkRequest::Get {
        session: 1,
        number: 7,
        from: 0,
        length: 9,
    };
    let told = answered(rt, alloc, depots, 0, request);
    assert!(rt;
        matches!(
            told.answer,
            ChunkAnswer::Found {
                found: Found::There(_),
                ..
            }
        )
    );
}

// All contents on the shelf are read, and then they are read anew.
fn reads_all(rt: &impl Abort, depots: &mut Depots<MemoryShelf>) {
    assert!(rt; !depots.depots.is_empty());
    assert!(rt; matches!(depots.check(0, 1, 7), Ok(false)));
    assert!(rt; !depots.depots.is_empty());
    assert!(rt; matches!(depots.check(0, 9, 7), Ok(false)));
    let mut scrub = Scrub::new(1);
    depots.begin_scrub(&mut scrub);
    assert!(rt;
        matches!(
            depots.next_to_read(&mut scrub),
            Some(Spot {
                tenant: 0,
                session: 1,
                number: 7,
                bytes: 5
            })
        )
    );
    assert!(rt; depots.next_to_read(&mut scrub).is_none());
    assert!(rt; scrub.rounds() == 1);
    let mut never = Scrub::new(0);
    depots.begin_scrub(&mut never);
    assert!(rt; depots.next_to_read(&mut never).is_none());
}

// A chunk that is moved is told as before, and its fact says where it lies.
#[test]
fn a_moved_chunk_is_told_as_before(rt: HostRuntime) -> Result<(), Fail> {
    let alloc = rt.alloc();
    let mut depots = two_depots(alloc)?;
    let request = keep(&rt, alloc, 7, "moved");
    let _told = answered(&rt, alloc, &mut depots, 0, request);
    assert!(&rt; !depots.depots.is_empty());
    assert!(&rt; matches!(depots.shelve(0, 1, 8, &Source::Shelf), Ok(None)));
    assert!(&rt; !depots.depots.is_empty());
    assert!(&rt; matches!(depots.shelve(0, 9, 7, &Source::Shelf), Ok(None)));
    moves(&rt, alloc, &mut depots);
    moves(&rt, alloc, &mut depots);
    reads_all(&rt, &mut depots);
    // a shelf in memory has one segment, which is the last: nothing is to be moved
    let mut cleaner = Cleaner::new(alloc);
    for _ in 0..9 {
        cleaner.begin_part();
        assert!(&rt; matches!(depots.next_spot(alloc, &mut cleaner), Ok(None)));
    }
    cleaner.rest();
    assert!(&rt; matches!(depots.next_spot(alloc, &mut cleaner), Ok(None)));
    Ok(())
}

// A journal of before may tell of more short contents than memory is to have.
#[test]
fn a_start_reads_more_than_memory_is_to_have(rt: HostRuntime) -> Result<(), Fail> {
    let alloc = rt.alloc();
    let mut depots = two_depots(alloc)?;
    let bytes = filled(alloc, 7u8, MOST_FRESH)?;
    let short = Bytes::copy_from_slice(alloc, bytes.as_slice())?;
    for number in 1..=257u64 {
        let fact = ChunkFact::Put {
            session: 1,
            number,
            is_sure: true,
            place: Place::Fresh(short.share()?),
        };
        assert!(&rt; is_recalled(&rt, alloc, &mut depots, fact));
    }
    assert!(&rt; depots.depots.len() == 2);
    assert!(&rt; keeps(&rt, alloc, &mut depots, 0, 300, "more") == Keeping::Full);
    assert!(&rt; depots.depots.len() == 2);
    depots.depots[0].stock.allowed = 100_000_000;
    let kept = answered(&rt, alloc, &mut depots, 0, keep(&rt, alloc, 300, "more"));
    assert!(&rt;
        matches!(
            kept.fact,
            Some(ChunkFact::Put {
                place: Place::Shelved(_),
                ..
            })
        )
    );
    Ok(())
}
