//! What a node gives.

ghost use Rattle.std.specs.Prelude.{◌≡◌, ◌++◌, [], None, Some, IfOk, OnOk, map, option_map, unwrap_or};
ghost use Rattle.gq_node.specs.Needing.{begun_facts, number_facts};
ghost use Rattle.gq_node.specs.Tables.{fact_of};
ghost use Rattle.gq_node.specs.Heard.{HeardGives};
ghost use Rattle.gq_node.specs.Local.{ended, refused_with};

use gq_desk::VolumeRows;
use gq_memory::{GrowVec, OutOfMemory};
use gq_model::Refusal;
use gq_phase::{Heard, Messages, Outcome, Row};
use gq_tag::{FileId, Message, StoredCopy};
use std::alloc::Global;
use std::marker::Model;

/// What a tenant has.
#[derive(Drop)]
pub struct Holding {
    /// How many servers the grid has.
    pub servers: u8,
    /// The place of the grid at which the home of its first session stands.
    pub home: u8,
    /// How many sessions it has.
    pub sessions: u32,
    /// How many blocks of each server its volumes may take.
    pub share: u32,
    /// The most blocks of a file.
    pub most_blocks: u32,
    /// Its open volumes in order.
    pub volumes: VolumeRows,
    /// The nodes that took the place of others, which were lost, in rising order.
    pub nodes: NodeNumbers,
}

/// Numbers of nodes.
#[derive(Drop)]
pub struct NodeNumbers {
    pub items: Vec<u16>,
}

impl Model for NodeNumbers {
    ghost use Rattle.std.specs.Prelude.{List, ℕ};

    ghost Value = { List ℕ };

    ghost view = { λ n. n.items.items };
}

/// What a node's server has of the files of a volume.
#[derive(Drop)]
pub struct Look {
    /// The number that the tenant gave the question.
    pub mark: u64,
    pub volume: u32,
    /// How many nodes were lost, as the node's plan says.
    pub losses: usize,
    pub rows: HeldRows,
}

/// Of each file of a volume, from file 0 on, the length and the tag of the server's copy; nothing where the server lacks the file.
#[derive(Drop)]
pub struct HeldRows {
    pub items: Vec<Option<Row>>,
}

impl Model for HeldRows {
    ghost use Rattle.std.specs.Prelude.{List, Option};
    ghost use Rattle.gq_phase.specs.declared.Row.{Row};

    ghost Value = { List (Option Row) };

    ghost view = { λ r. r.items.items };
}

/// What a node tells a tenant. Each answer to a request names the session and the number of the operation that it is of.
#[derive(Drop)]
pub enum Answer {
    /// An operation is done.
    Done(Outcome),
    /// The node does not know how the operation ended: it was given up, or the node was started again since.
    Gone {
        session: u32,
        op: u32,
    },
    /// The request is refused.
    Refused {
        session: u32,
        op: u32,
        refusal: Refusal,
    },
    /// The number is below that of the session's last operation, or 0.
    Old {
        session: u32,
        op: u32,
        last: u32,
    },
    /// The number is above that of the session's next operation, or that of the next one where one is to be given up.
    Early {
        session: u32,
        op: u32,
        last: u32,
    },
    /// The number is that of the session's next operation, and the last one goes on.
    Busy {
        session: u32,
        op: u32,
        last: u32,
    },
    /// The session's home is another node, `home`.
    Away {
        session: u32,
        op: u32,
        home: u16,
    },
    /// What the tenant has.
    Has(Holding),
    /// What the server has of a volume.
    Looked(Look),
    /// There is no such volume to look at.
    NotLooked {
        mark: u64,
        volume: u32,
    },
    /// The line is no request.
    Bad,
}

/// What the number of a request alone decides.
#[derive(Drop)]
pub(crate) enum Admission {
    /// The tenant is told this.
    Tells(Answer),
    /// The request is passed over.
    Passes,
    /// It is the model's to answer.
    Goes,
}

/// What must not be forgotten. A session's numbers are reserved ahead, a run of them by one fact, and a start goes on behind all that
/// are reserved, used or not.
#[derive(Drop)]
pub enum Fact {
    /// The session's operations may have the numbers up to this one.
    Began {
        tenant: u8,
        session: u8,
        op: u32,
    },
    /// The tags of the session's writes may have the numbers up to this one.
    Numbered {
        tenant: u8,
        session: u8,
        number: u64,
    },
    /// This is the server's copy of the file.
    Kept {
        file: FileId,
        copy: StoredCopy,
    },
    /// The server was given this copy of the file, which it lacked.
    Had {
        file: FileId,
        copy: StoredCopy,
    },
}

/// What goes between a new node and a node of its column, so that the new one gets the files that its server lacks.
#[derive(Drop)]
pub enum Transfer {
    /// The node `to` is asked for its copy of the file.
    Wants {
        to: u16,
        file: FileId,
    },
    /// The node `to` is given this one's copy.
    Brings {
        to: u16,
        file: FileId,
        copy: StoredCopy,
    },
}

/// What a step gives: what the tenant is told, the letters and the transfer that go out, and what must not be forgotten. What
/// goes out rests on the fact: nothing of it may leave before the fact is safe.
#[derive(Drop)]
pub struct Output {
    pub answer: Option<Answer>,
    pub letters: Vec<Message>,
    pub transfer: Option<Transfer>,
    pub fact: Option<Fact>,
}

impl Output {
    // Nothing.
    pub(crate) fn nothing(alloc: Global) -> Output
        ensures answer { result.answer ≡ None }
        ensures letters { result.letters.items ≡ [] }
        ensures transfer { result.transfer ≡ None }
        ensures fact { result.fact ≡ None }
    {
        Output {
            answer: None,
            letters: Vec::new(alloc),
            transfer: None,
            fact: None,
        }
    }

    // The transfer alone goes out.
    pub(crate) fn sent(alloc: Global, transfer: Transfer) -> Output
        ensures answer { result.answer ≡ None }
        ensures letters { result.letters.items ≡ [] }
        ensures transfer { result.transfer ≡ Some transfer }
        ensures fact { result.fact ≡ None }
    {
        Output {
            answer: None,
            letters: Vec::new(alloc),
            transfer: Some(transfer),
            fact: None,
        }
    }

    // The tenant is told this alone.
    pub(crate) fn told(alloc: Global, answer: Answer) -> Output
        ensures answer { result.answer ≡ Some answer }
        ensures letters { result.letters.items ≡ [] }
        ensures transfer { result.transfer ≡ None }
        ensures fact { result.fact ≡ None }
    {
        Output {
            answer: Some(answer),
            letters: Vec::new(alloc),
            transfer: None,
            fact: None,
        }
    }
}

// How a request is refused, whose session's last operation has that number.
pub(crate) fn refused_answer(session: u32, op: u32, last: u32, refusal: Refusal) -> Answer
    ensures { result ≡ refused_with session op last refusal }
{
    match refusal {
        Refusal::Busy => Answer::Busy { session, op, last },
        refusal => Answer::Refused {
            session,
            op,
            refusal,
        },
    }
}

// How the session's last operation ended, of which this is known.
pub(crate) fn ended(session: u32, op: u32, outcome: &Option<Outcome>) -> Result<Answer, OutOfMemory>
    ensures { IfOk result (λ answer. answer ≡ ended session op outcome.now) }
{
    match outcome {
        Some(outcome) => Ok(Answer::Done(outcome.share()?)),
        None => Ok(Answer::Gone { session, op }),
    }
}

// The letters one by one.
pub(crate) fn letters_of(
    alloc: Global,
    messages: Option<Messages>,
) -> Result<Vec<Message>, OutOfMemory>
    ensures { IfOk result (λ letters. letters.items ≡ unwrap_or messages []) }
{
    match messages {
        Some(messages) => messages.to_vec(alloc),
        None => Ok(Vec::new(alloc)),
    }
}

// The fact by which the numbers of the session's operations are reserved up to this one, if they are.
pub(crate) fn begun_fact(tenant: u8, session: u8, run: Option<u32>) -> Option<Fact>
    ensures { result ≡ option_map (Fact.Began tenant session) run }
{
    run.map(|op| Fact::Began {
        tenant,
        session,
        op,
    })
}

// And the numbers of its tags.
fn numbered_fact(tenant: u8, session: u8, run: Option<u64>) -> Option<Fact>
    ensures { result ≡ option_map (Fact.Numbered tenant session) run }
{
    run.map(|number| Fact::Numbered {
        tenant,
        session,
        number,
    })
}

// What is given where an operation of the session said this, and a run of numbers of tags was reserved for it up to that one, if
// it was.
pub(crate) fn heard_output(
    alloc: Global,
    tenant: u8,
    session: u8,
    run: Option<u64>,
    heard: Heard,
) -> Result<Output, OutOfMemory>
    ensures { IfOk result (λ out. HeardGives tenant session run heard out) }
{
    match heard {
        Heard::Stale => Ok(Output::nothing(alloc)),
        Heard::Noted => Ok(Output::nothing(alloc)),
        Heard::Next { messages, .. } => {
            let letters = messages.to_vec(alloc)?;
            Ok(Output {
                answer: None,
                letters,
                transfer: None,
                fact: numbered_fact(tenant, session, run),
            })
        }
        Heard::Done(outcome) => Ok(Output::told(alloc, Answer::Done(outcome))),
    }
}

/// Why it can't be told what a start needs.
#[derive(Drop)]
pub enum NeedRefused {
    /// Memory was wanting.
    Memory(OutOfMemory),
    /// A start would not take a copy again. No letter brings such a copy.
    Unreadable,
}

impl From<OutOfMemory> for NeedRefused {
    ghost use Rattle.gq_node.specs.declared.output.NeedRefused.TheVariants.{Memory as OfMemory};

    ghost from_gives = { λ m e. e ≡ OfMemory m };

    fn from(refused: OutOfMemory) -> NeedRefused {
        NeedRefused::Memory(refused)
    }
}

// Appends that the numbers of the session's operations are reserved up to this one, if any are.
pub(crate) fn put_begun(
    tenant: u8,
    session: u8,
    op: u32,
    facts: &mut Vec<Fact>,
) -> Result<(), OutOfMemory>
    ensures { OnOk result (facts.new.items ≡ facts.old.items ++ map (fact_of tenant) (begun_facts session op)) }
{
    if op == 0 {
        return Ok(());
    }
    facts.grow(Fact::Began {
        tenant,
        session,
        op,
    })
}

// Appends that the numbers of the session's tags are reserved up to this one, if any are, or if it is a new node's own session.
pub(crate) fn put_number(
    own: bool,
    tenant: u8,
    session: u8,
    number: u64,
    facts: &mut Vec<Fact>,
) -> Result<(), OutOfMemory>
    ensures { OnOk result (facts.new.items ≡ facts.old.items ++ map (fact_of tenant) (number_facts own session number)) }
{
    if number == 0 && !own {
        return Ok(());
    }
    facts.grow(Fact::Numbered {
        tenant,
        session,
        number,
    })
}
