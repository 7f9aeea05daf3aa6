//! The events so far, in a world that answered them.

ghost use Rattle.std.specs.Prelude.{◌≡◌, ◌++◌, ◌∷◌, [], ℕ, ◌<◌, length, Some, true, IfOk, IfSome, OnSome, OnOk};
ghost use Rattle.gq_model.specs.Events.{IsIn, answer_to};
ghost use Rattle.gq_model.specs.Shown.{shown};
ghost use Rattle.gq_world.specs.Tables.{Stands};
ghost use Rattle.gq_inspect.specs.Replay.{Names, sent_by, message_after};
ghost use Rattle.gq_inspect.specs.Tapes.{before_of, listed};

use crate::equality::is_message;
use crate::steps::Step;
use gq_cell::Letter;
use gq_desk::Plan;
use gq_memory::{GrowVec, OutOfMemory};
use gq_model::{Answer, Event};
use gq_tag::Message;
use gq_world::{Ended, World};
use std::alloc::Global;

/// The messages that a step sent: its stamp and place, its tenant, the number of the first message, and how many they are.
#[derive(Clone, Copy)]
pub struct First {
    pub stamp: u64,
    pub place: usize,
    pub tenant: u8,
    pub first: u64,
    pub count: u32,
}

/// The events so far, what their steps sent, in order of the steps, and the world that they leave.
#[derive(Drop)]
pub struct Tape {
    pub world: World,
    pub events: Vec<Event>,
    pub firsts: Vec<First>,
}

// What the tenant's step sent, where it was answered so.
fn sent_by(step: Step, tenant: u8, answer: &Answer) -> Option<First>
    ensures { listed result ≡ sent_by step tenant (shown answer.now) }
{
    let (first, count) = match answer {
        Answer::Began { first, count, .. }
        | Answer::Round { first, count, .. }
        | Answer::Resent { first, count } => (*first, *count),
        Answer::Reply { number } => (*number, 1),
        _ => return None,
    };
    Some(First {
        stamp: step.stamp,
        place: step.place,
        tenant,
        first,
        count,
    })
}

// Whether the step that sent these stood before the one of that stamp and place.
fn is_earlier(first: &First, stamp: u64, place: u32) -> bool {
    first.stamp < stamp || first.stamp == stamp && first.place < place as usize
}

// Where the step of that stamp and place stands, if it does: by halves, since they rise.
fn place_of(firsts: &[First], stamp: u64, place: u32) -> usize {
    let mut low = 0;
    let mut high = firsts.len();
    for _ in 0..usize::BITS {
        if low >= high {
            break;
        }
        let middle = low + (high - low) / 2;
        let Some(first) = firsts.get(middle) else {
            break;
        };
        if is_earlier(first, stamp, place) {
            low = middle + 1;
        } else {
            high = middle;
        }
    }
    low
}

// Whether the letter says one of the messages.
fn sends(first: &First, letter: &Letter) -> bool
    ensures stamp { result ≡ true → first.now.stamp ≡ letter.now.stamp }
    ensures place { result ≡ true → first.now.place ≡ letter.now.place }
    ensures tenant { result ≡ true → first.now.tenant ≡ letter.now.message.tenant }
    ensures within { result ≡ true → letter.now.index < first.now.count }
{
    first.stamp == letter.stamp
        && first.place == letter.place as usize
        && first.tenant == letter.message.tenant
        && letter.index < first.count
}

impl Tape {
    // No events, in the world of the plan.
    pub(crate) fn new(alloc: Global, plan: &Plan) -> Result<Tape, OutOfMemory>
        ensures plan { IfOk result (λ tape. tape.world.tables.plan ≡ plan.now) }
        ensures stands { IfOk result (λ tape. Stands tape.world.tables []) }
        ensures events { IfOk result (λ tape. tape.events.items ≡ []) }
        ensures firsts { IfOk result (λ tape. tape.firsts.items ≡ []) }
    {
        Ok(Tape {
            world: World::new(alloc, plan.copy()?)?,
            events: Vec::new(alloc),
            firsts: Vec::new(alloc),
        })
    }

    // How many tenants there are.
    pub(crate) fn tenants(&self) -> usize
        ensures { result ≡ length self.now.world.tables.plan.rows }
    {
        self.world.plan().tenants()
    }

    // The event is the next.
    pub(crate) fn play(&mut self, event: Event) -> Result<Answer, OutOfMemory>
        requires tenant { IsIn self.old.world.tables.plan event }
        requires stands { Stands self.old.world.tables self.old.events.items }
        ensures answer { IfOk result (λ answer. shown answer ≡ answer_to self.old.world.tables.plan self.old.events.items event) }
        ensures events { OnOk result (self.new.events.items ≡ self.old.events.items ++ event ∷ []) }
        ensures stands { OnOk result (Stands self.new.world.tables self.new.events.items) }
        ensures plan { self.new.world.tables.plan ≡ self.old.world.tables.plan }
        ensures firsts { self.new.firsts ≡ self.old.firsts }
    {
        let answer = match self.world.step(&event) {
            Ok(answer) => answer,
            Err(Ended(refused)) => return Err(refused),
        };
        self.events.grow(event)?;
        Ok(answer)
    }

    // The tenant's step sent what it was answered.
    pub(crate) fn note(
        &mut self,
        step: Step,
        tenant: u8,
        answer: &Answer,
    ) -> Result<(), OutOfMemory>
        ensures firsts { OnOk result (self.new.firsts.items ≡ self.old.firsts.items ++ sent_by step tenant (shown answer.now)) }
        ensures events { self.new.events ≡ self.old.events }
        ensures world { self.new.world ≡ self.old.world }
    {
        if let Some(first) = sent_by(step, tenant, answer) {
            self.firsts.grow(first)?;
        }
        Ok(())
    }

    // The number of the message that the letter says, where that message was sent.
    pub(crate) fn number_of(&self, letter: &Letter) -> Option<u32>
        requires stands { Stands self.now.world.tables self.now.events.items }
        ensures names { IfSome result (λ number. Names self.now.world.tables.plan (before_of self.now) letter.now number) }
        ensures tenant { OnSome result (letter.now.message.tenant < length self.now.world.tables.plan.rows) }
    {
        let at = place_of(self.firsts.as_slice(), letter.stamp, letter.place);
        let first = self.firsts.get(at)?;
        if !sends(first, letter) {
            return None;
        }
        let number = first.first.checked_add(u64::from(letter.index))?;
        if !self.has(number, &letter.message) {
            return None;
        }
        u32::try_from(number).ok()
    }

    // Whether that is the message of this number of its tenant.
    pub(crate) fn has(&self, number: u64, message: &Message) -> bool
        requires stands { Stands self.now.world.tables self.now.events.items }
        ensures message { result ≡ true → message_after self.now.world.tables.plan self.now.events.items message.now.tenant number ≡ Some message.now }
        ensures tenant { result ≡ true → message.now.tenant < length self.now.world.tables.plan.rows }
    {
        if message.tenant as usize >= self.world.plan().tenants() {
            return false;
        }
        match self.world.message(message.tenant, number) {
            None => false,
            Some(sent) => is_message(&sent, message),
        }
    }

    // The events.
    pub(crate) fn close(self) -> Vec<Event>
        ensures { result ≡ self.events }
    {
        let Tape { events, .. } = self;
        events
    }
}
