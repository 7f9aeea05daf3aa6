//! A machine of one register.

ghost use Rattle.std.specs.Prelude.{◌≡◌, ◌&&◌, ◌++◌, [], length, true, not, refl, OnOk};
ghost use Rattle.gq_journal.specs.Batches.{ended_line, is_batch_line};
ghost use Rattle.gq_keeper.specs.Plans.{is_head};
ghost use Rattle.gq_keeper_tests.specs.Registers.{is_fact};

use gq_journal::is_batch_line;
use gq_keeper::{Fault, Lasting, Machine, Unread};
use gq_memory::{GrowCopies, GrowVec, OutOfMemory};
use std::alloc::Global;
use std::marker::Model;

/// A register: of the lines that may be facts it holds the last one. It tells each of them.
#[derive(Drop)]
pub struct Register {
    text: Vec<u8>,
}

// Its line with the newline that ends it, or nothing at first.
impl Model for Register {
    ghost use Rattle.std.specs.Prelude.{List, ℕ};
    ghost use Rattle.gq_keeper_tests.specs.Registers.{IsHeld};

    ghost Value = { List ℕ };

    ghost view = { λ r. r.text.items };

    ghost invariant = { λ r. IsHeld r.text.items };
}

impl Register {
    /// One that holds no line.
    pub fn new(alloc: Global) -> Register
        ensures { result ≡ [] }
    {
        Register {
            text: Vec::new(alloc),
        }
    }

    /// The line that it holds, with its newline.
    pub fn text(&self) -> &[u8]
        ensures { result.now ≡ self.now }
    {
        self.text.as_slice()
    }

    // Holds the line.
    fn hold(&mut self, line: &[u8]) -> Result<(), OutOfMemory>
        requires { is_fact line.now ≡ true }
        ensures { OnOk result (self.new ≡ ended_line line.now) }
    {
        let mut text = Vec::new(*self.text.allocator());
        put_line(&mut text, line)?;
        self.text = text;
        Ok(())
    }
}

// Whether the line may be one of facts.
fn is_fact(line: &[u8]) -> bool
    ensures { result ≡ is_fact line.now }
{
    is_batch_line(line) && !is_head(line)
}

// Whether a plan begins with the line.
fn is_head(line: &[u8]) -> bool
    ensures { result ≡ is_head line.now }
{
    line.len() >= 5 && &line[..5] == b"node ".as_slice()
}

// Appends the line and a newline.
fn put_line(out: &mut Vec<u8>, line: &[u8]) -> Result<(), OutOfMemory>
    ensures { OnOk result (out.new.items ≡ out.old.items ++ ended_line line.now) }
{
    out.grow_by(line)?;
    out.grow(b'\n')
}

impl Machine for Register {
    ghost use Rattle.gq_keeper_tests.specs.Registers.{StepsTo, RecallsTo, is_fact};

    ghost steps = { StepsTo };

    ghost recalls = { RecallsTo };

    ghost readable = { λ machine line. is_fact line };

    fn recall(&mut self, line: &[u8]) -> Result<(), Unread> {
        if !is_fact(line) {
            return Err(Unread::Strange);
        }
        Ok(self.hold(line)?)
    }

    ghost reads_on = { λ old line new other recalled. refl };

    fn take(&mut self, line: &[u8], facts: &mut Vec<u8>, told: &mut Vec<u8>) -> Result<(), Fault> {
        if !is_fact(line) {
            return Ok(());
        }
        put_line(facts, line)?;
        put_line(told, line)?;
        self.hold(line)?;
        Ok(())
    }
}

impl Lasting for Register {
    ghost use Rattle.gq_keeper_tests.specs.Registers.{gives_facts, gives_readable, keeps_rest, reads_again, starts_again};

    ghost blank = { λ plan machine first. first ≡ [] };

    ghost is_of = { λ plan machine. Unit {0} };

    ghost rests = { λ machine again. again ≡ machine };

    ghost contents = { λ machine. length machine };

    fn content_bytes(&self) -> usize {
        self.text.len()
    }

    fn put_needed(&self, facts: &mut Vec<u8>) -> Result<(), Fault> {
        Ok(facts.grow_by(self.text.as_slice())?)
    }

    ghost gives_facts = { gives_facts };

    ghost gives_readable = { λ plan old line facts told new other step begins. gives_readable old line facts told new step };

    ghost keeps_blank = { λ plan old line facts told new other step begins. begins };

    ghost keeps_plan = { λ plan old line facts told new step is. is };

    ghost recalls_plan = { λ plan old line new recalled is. is };

    ghost keeps_rest = { keeps_rest };

    ghost reads_again = { λ plan first last new lines begins recalled again. reads_again first last lines recalled };

    ghost starts_again = { λ plan. starts_again };
}
