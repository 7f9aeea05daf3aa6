//! The machine of a node.

ghost use Rattle.std.specs.Prelude.{◌≡◌, ◌≢◌, ℕ, ◌<◌, ◌++◌, [], ◌∷◌, true, false, length, map, Some, None, OnOk, IfErr, IfSome, All};
ghost use Rattle.std.specs.List.{flat_map};
ghost use Rattle.std.specs.Option.{option_to_list};
ghost use Rattle.gq_tag.specs.Tag.{own_message, file_place};
ghost use Rattle.gq_desk.specs.CheckedPlan.{row_at};
ghost use Rattle.gq_journal.specs.Batches.{lines_text};
ghost use Rattle.gq_node.specs.Inputs.{Asked, AskedPlan, AskedLook, Brought, Ticked, Looked, Fetching, Fetched as WasFetched};
ghost use Rattle.gq_node.specs.Joining.{hears_joined};
ghost use Rattle.gq_node.specs.Recalling.{tenant_of};
ghost use Rattle.gq_grid.specs.declared.TheConstants.{MOST_SERVERS};
ghost use Rattle.gq_replace.specs.Plans.{node_at, place_of as node_place};
ghost use Rattle.gq_node.specs.Sites.{session_at, plan_in};
ghost use Rattle.gq_node.specs.Tables.{AllStand, LeadsAll};
ghost use Rattle.gq_wire.specs.declared.incoming.Incoming.TheVariants.{Tick};
ghost use Rattle.gq_wire.specs.Incoming.{FitsPlan};
ghost use Rattle.gq_facts.specs.Facts.{fact_text};
ghost use Rattle.gq_facts.specs.Laws.{FitsFact};
ghost use Rattle.gq_node.specs.Shorts.{own_short};
ghost use Rattle.gq_parts.specs.Inputs.{session_ticks, lane_ticks, lanes_at, ticks_of};
ghost use Rattle.gq_parts.specs.Within.{is_once_more};
ghost use Rattle.gq_parts.specs.Texts.{answer_text, sent_line, reply_text, transfer_text, step_text, joins_text, joined_text, greeting_at, greeting_text};
ghost use Rattle.gq_parts.specs.Steps.{AskedToJoin, fact_lines, HasAddress, IsAddressed, IsOfPlan, IsOfTenant, goes_home, going_home, table_form, table_line, table_lines, told_letters, Appended, TookHop, TookOwn, PutAll, TookOf, TookShort, TookAll, TookIncoming, some_lacks, all_lacked};

use crate::ranges::{fact_fits, plan_is_sound};
use gq_facts::{put_fact, read_fact};
use gq_grid::MOST_SERVERS;
use gq_keeper::{Fault, Lasting, Machine, Unread};
use gq_memory::{GrowVec, OutOfMemory};
use gq_model::Line;
use gq_node::{
    Answer, Ended, Fact, LANES, NeedRefused, Node, Output, Short, ShortBody, Transfer, place_of,
};
use gq_parts::laws::MOST_HOPS;
use gq_tag::{Body, FileId, Message, StoredCopy};
use gq_wire::{
    Incoming, LINE_FORM, put_joined, put_joins, put_letter, put_short, put_speaks, put_told,
    put_transfer, read_incoming,
};
use std::alloc::Global;

/// A node that takes lines. After an `Err` of any call it is given up: a part of what a step gives may have been appended, and where
/// memory was wanting the node takes no further line.
#[derive(Drop)]
pub struct NodeMachine {
    alloc: Global,
    node: Node,
    // for each place the form of lines that the node there told last, if it told one
    forms: [Option<u32>; MOST_SERVERS],
    /// How many lines of a journal it read.
    pub facts: u64,
}

// Memory was wanting for the node.
fn no_memory(ended: Ended) -> OutOfMemory {
    let Ended(refused) = ended;
    refused
}

// Whether a short letter makes a store go out once more.
fn is_once_more(body: ShortBody) -> bool
    ensures { result ≡ is_once_more body }
{
    matches!(body, ShortBody::Confirm(_) | ShortBody::Want)
}

impl NodeMachine {
    ghost use Rattle.gq_machine.specs.Machines.{tables_of, form_at, is_other};

    /// The machine of a node, which read no line yet.
    pub fn new(alloc: Global, node: Node) -> NodeMachine
        ensures node { tables_of result ≡ node.tables }
        ensures forms { (place : ℕ) → place < MOST_SERVERS → form_at result place ≡ None }
        ensures facts { result.facts ≡ 0 }
    {
        NodeMachine {
            alloc,
            node,
            forms: [None; MOST_SERVERS],
            facts: 0,
        }
    }

    // That memory was never wanting: the node has a part for each tenant.
    fn has_memory(&self) -> Result<(), OutOfMemory>
        ensures { OnOk result (AllStand self.now.node.tables) }
    {
        self.node.has_memory().map_err(no_memory)
    }

    // Appends the line to the tenant, if it is told something.
    fn put_answer(
        &self,
        tenant: u8,
        asked: &Line,
        answer: &Option<Answer>,
        told: &mut Vec<u8>,
    ) -> Result<(), OutOfMemory>
        requires { tenant < length self.now.node.tables.plan.rows }
        ensures { OnOk result (told.new.items ≡ told.old.items ++ answer_text self.now.node.tables.plan self.now.node.tables.here tenant asked.now answer.now) }
    {
        match answer {
            Some(answer) => put_told(
                told,
                self.node.plan(),
                self.node.number(),
                tenant,
                asked,
                answer,
            ),
            None => Ok(()),
        }
    }

    // Appends the line of a letter that goes whole.
    fn put_whole(&self, letter: &Message, told: &mut Vec<u8>) -> Result<(), OutOfMemory>
        requires { HasAddress self.now.node.tables.plan letter.now }
        ensures { OnOk result (told.new.items ≡ told.old.items ++ sent_line self.now.node.tables.plan self.now.node.tables.here letter.now) }
    {
        put_letter(
            told,
            self.node.plan(),
            self.node.address(letter),
            self.node.number(),
            letter,
        )
    }

    // The short form of a letter, if it goes in one: what goes out once more goes whole.
    fn form(&self, letter: &Message, again: bool) -> Option<Short>
        requires { IsAddressed self.now.node.tables.plan letter.now }
        ensures { result ≡ table_form again self.now.node.tables letter.now }
    {
        if again {
            return None;
        }
        self.node.short_of(letter)
    }

    // Appends the line of a letter, in its short form where it goes in one.
    fn put_line(&self, letter: &Message, again: bool, told: &mut Vec<u8>) -> Result<(), OutOfMemory>
        requires { IsAddressed self.now.node.tables.plan letter.now }
        ensures { OnOk result (told.new.items ≡ told.old.items ++ table_line again self.now.node.tables.plan self.now.node.tables.here self.now.node.tables letter.now) }
    {
        match self.form(letter, again) {
            Some(short) => put_short(
                told,
                self.node.plan(),
                self.node.address(letter),
                self.node.number(),
                &short,
            ),
            None => self.put_whole(letter, told),
        }
    }

    // Appends the line of a short reply, if there is one.
    fn put_reply(&self, reply: &Option<Short>, told: &mut Vec<u8>) -> Result<(), OutOfMemory>
        requires { IfSome reply.now (λ s. s.tenant < length self.now.node.tables.plan.rows) }
        ensures { OnOk result (told.new.items ≡ told.old.items ++ reply_text self.now.node.tables.plan self.now.node.tables.here reply.now) }
    {
        match reply {
            Some(short) => put_short(
                told,
                self.node.plan(),
                self.node.address(&short.plain()),
                self.node.number(),
                short,
            ),
            None => Ok(()),
        }
    }

    // Appends the lines of the letters, each in its form.
    fn put_lines(&self, letters: &[Message], told: &mut Vec<u8>) -> Result<(), OutOfMemory>
        requires { All (IsAddressed self.now.node.tables.plan) letters.now }
        ensures { OnOk result (told.new.items ≡ told.old.items ++ table_lines false self.now.node.tables.plan self.now.node.tables.here self.now.node.tables letters.now) }
    {
        for letter in letters {
            self.put_line(letter, false, told)?;
        }
        Ok(())
    }

    // Whether the node takes the letter itself, within the line that it now takes: it goes to this node, and is no store that other servers
    // of the column have to sync too, unless it goes out once more.
    fn is_own(&self, letter: &Message, again: bool) -> bool
        requires { HasAddress self.now.node.tables.plan letter.now }
        ensures { result ≡ goes_home again self.now.node.tables.plan self.now.node.tables.here letter.now }
    {
        let is_shared_store = matches!(&letter.body, Body::Store(_))
            && self.node.plan().grid().rows() > 1;
        (again || !is_shared_store) && self.node.address(letter) == self.node.number()
    }

    // Appends the line of the letter, or puts it behind the node's own ones where the node takes it itself.
    fn put_letter(
        &self,
        letter: &Message,
        again: bool,
        own: &mut Vec<Message>,
        told: &mut Vec<u8>,
    ) -> Result<(), OutOfMemory>
        requires { IsAddressed self.now.node.tables.plan letter.now }
        ensures told { OnOk result (told.new.items ≡ told.old.items ++ told_letters again self.now.node.tables.plan self.now.node.tables.here self.now.node.tables (letter.now ∷ [])) }
        ensures own { OnOk result (own.new.items ≡ own.old.items ++ going_home again self.now.node.tables.plan self.now.node.tables.here (letter.now ∷ [])) }
    {
        if !self.is_own(letter, again) {
            return self.put_line(letter, again, told);
        }
        let shared = letter.share()?;
        own.grow(shared)
    }

    // Appends the lines of the letters. Those that the node takes itself are put behind its own ones.
    fn put_letters(
        &self,
        letters: &[Message],
        again: bool,
        own: &mut Vec<Message>,
        told: &mut Vec<u8>,
    ) -> Result<(), OutOfMemory>
        requires { All (IsAddressed self.now.node.tables.plan) letters.now }
        ensures told { OnOk result (told.new.items ≡ told.old.items ++ told_letters again self.now.node.tables.plan self.now.node.tables.here self.now.node.tables letters.now) }
        ensures own { OnOk result (own.new.items ≡ own.old.items ++ going_home again self.now.node.tables.plan self.now.node.tables.here letters.now) }
    {
        for letter in letters {
            self.put_letter(letter, again, own, told)?;
        }
        Ok(())
    }

    // Appends the line of the transfer, if there is one.
    fn put_transfer(
        &self,
        transfer: &Option<Transfer>,
        told: &mut Vec<u8>,
    ) -> Result<(), OutOfMemory>
        requires { IsOfPlan self.now.node.tables.plan transfer.now }
        ensures { OnOk result (told.new.items ≡ told.old.items ++ transfer_text self.now.node.tables.plan self.now.node.tables.here transfer.now) }
    {
        match transfer {
            Some(transfer) => put_transfer(told, self.node.plan(), self.node.number(), transfer),
            None => Ok(()),
        }
    }

    // Appends the line of the fact, if there is one.
    fn put_fact(&self, fact: &Option<Fact>, facts: &mut Vec<u8>) -> Result<(), OutOfMemory>
        requires { IfSome fact.now (λ fact. tenant_of fact < length self.now.node.tables.plan.rows) }
        ensures kept { OnOk result (facts.new.items ≡ facts.old.items ++ lines_text (fact_lines self.now.node.tables.plan (option_to_list fact.now))) }
        ensures fit { OnOk result (All (FitsFact self.now.node.tables.plan) (option_to_list fact.now)) }
    {
        match fact {
            Some(fact) => {
                fact_fits(fact);
                put_fact(facts, self.node.plan(), fact)
            }
            None => Ok(()),
        }
    }

    // Appends the lines of the facts.
    fn put_facts(&self, needed: &[Fact], facts: &mut Vec<u8>) -> Result<(), OutOfMemory>
        requires { All (λ fact. tenant_of fact < length self.now.node.tables.plan.rows) needed.now }
        ensures facts { OnOk result (facts.new.items ≡ facts.old.items ++ flat_map (fact_text self.now.node.tables.plan) needed.now) }
        ensures fit { OnOk result (All (FitsFact self.now.node.tables.plan) needed.now) }
    {
        for fact in needed {
            fact_fits(fact);
            put_fact(facts, self.node.plan(), fact)?;
        }
        Ok(())
    }

    // Appends what a step gives for the tenant, whose request, if it is one, was this. The letters that the node takes itself are put behind its own ones.
    fn put_step(
        &self,
        tenant: u8,
        asked: &Line,
        out: &Output,
        again: bool,
        own: &mut Vec<Message>,
        facts: &mut Vec<u8>,
        told: &mut Vec<u8>,
    ) -> Result<(), OutOfMemory>
        requires tenant { tenant < length self.now.node.tables.plan.rows }
        requires fact { IfSome out.now.fact (λ fact. tenant_of fact < length self.now.node.tables.plan.rows) }
        requires letters { All (IsOfTenant tenant) out.now.letters.items }
        requires transfer { IsOfPlan self.now.node.tables.plan out.now.transfer }
        ensures appended { OnOk result (Appended self.now.node.tables.plan (option_to_list out.now.fact) (step_text self.now.node.tables.plan self.now.node.tables.here tenant asked.now out.now.answer (told_letters again self.now.node.tables.plan self.now.node.tables.here self.now.node.tables out.now.letters.items) out.now.transfer) facts.old.items facts.new.items told.old.items told.new.items) }
        ensures own { OnOk result (own.new.items ≡ own.old.items ++ going_home again self.now.node.tables.plan self.now.node.tables.here out.now.letters.items) }
        ensures fit { OnOk result (All (FitsFact self.now.node.tables.plan) (option_to_list out.now.fact)) }
    {
        self.put_fact(&out.fact, facts)?;
        self.put_answer(tenant, asked, &out.answer, told)?;
        self.put_letters(out.letters.as_slice(), again, own, told)?;
        self.put_transfer(&out.transfer, told)
    }

    // Takes a letter of the tenant from this node to itself. Those that this gives, and that the node takes itself, are put behind its own ones.
    fn take_letter(
        &mut self,
        tenant: u8,
        letter: &Message,
        own: &mut Vec<Message>,
        facts: &mut Vec<u8>,
        told: &mut Vec<u8>,
    ) -> Result<(), OutOfMemory>
        requires tenant { tenant < length self.old.node.tables.plan.rows }
        requires letter { IsOfTenant tenant letter.now }
        ensures { OnOk result (TookHop self.old.node.tables tenant (own_message letter.now ∷ []) own.old.items own.new.items facts.old.items facts.new.items told.old.items told.new.items self.new.node.tables) }
    {
        self.has_memory()?;
        let here = self.node.number();
        match self.node.letter(here, letter) {
            Ok(out) => Ok(self.put_step(tenant, &Line::Bad, &out, false, own, facts, told)?),
            Err(ended) => Err(no_memory(ended)),
        }
    }

    // Takes a hop: these letters of the tenant from this node to itself, one after another.
    fn take_hop(
        &mut self,
        tenant: u8,
        letters: &[Message],
        own: &mut Vec<Message>,
        facts: &mut Vec<u8>,
        told: &mut Vec<u8>,
    ) -> Result<(), OutOfMemory>
        requires tenant { tenant < length self.old.node.tables.plan.rows }
        requires letters { All (IsOfTenant tenant) letters.now }
        ensures { OnOk result (TookHop self.old.node.tables tenant (map own_message letters.now) own.old.items own.new.items facts.old.items facts.new.items told.old.items told.new.items self.new.node.tables) }
    {
        for letter in letters {
            self.take_letter(tenant, letter, own, facts, told)?;
        }
        Ok(())
    }

    // Takes these letters of the tenant from this node to itself, and hop by hop those that they give. What is left behind the most hops goes by lines.
    fn take_own(
        &mut self,
        tenant: u8,
        first: Vec<Message>,
        facts: &mut Vec<u8>,
        told: &mut Vec<u8>,
    ) -> Result<(), OutOfMemory>
        requires tenant { tenant < length self.old.node.tables.plan.rows }
        requires letters { All (IsOfTenant tenant) first.items }
        ensures { OnOk result (TookOwn MOST_HOPS self.old.node.tables tenant (map own_message first.items) facts.old.items facts.new.items told.old.items told.new.items self.new.node.tables) }
    {
        let mut own = first;
        for _hop in 0..MOST_HOPS {
            let mut next = Vec::new(self.alloc);
            self.take_hop(tenant, own.as_slice(), &mut next, facts, told)?;
            own = next;
        }
        self.put_lines(own.as_slice(), told)
    }

    // Appends what a step gives for the tenant, whose request, if it is one, was this, and takes the letters that it gives this node.
    fn put(
        &mut self,
        tenant: u8,
        asked: &Line,
        out: &Output,
        again: bool,
        facts: &mut Vec<u8>,
        told: &mut Vec<u8>,
    ) -> Result<(), OutOfMemory>
        requires tenant { tenant < length self.old.node.tables.plan.rows }
        requires fact { IfSome out.now.fact (λ fact. tenant_of fact < length self.old.node.tables.plan.rows) }
        requires letters { All (IsOfTenant tenant) out.now.letters.items }
        requires transfer { IsOfPlan self.old.node.tables.plan out.now.transfer }
        ensures { OnOk result (PutAll self.old.node.tables tenant asked.now again out.now facts.old.items facts.new.items told.old.items told.new.items self.new.node.tables) }
    {
        let mut own = Vec::new(self.alloc);
        self.put_step(tenant, asked, out, again, &mut own, facts, told)?;
        self.take_own(tenant, own, facts, told)
    }

    // A request comes to the tenant.
    fn request(
        &mut self,
        tenant: u8,
        op: u32,
        line: &Line,
        facts: &mut Vec<u8>,
        told: &mut Vec<u8>,
    ) -> Result<(), OutOfMemory>
        requires { tenant < length self.old.node.tables.plan.rows }
        ensures { OnOk result (TookOf self.old.node.tables tenant (Asked op line.now ∷ []) facts.old.items facts.new.items told.old.items told.new.items self.new.node.tables) }
    {
        self.has_memory()?;
        match self.node.request(tenant, op, line) {
            Ok(out) => Ok(self.put(tenant, line, &out, false, facts, told)?),
            Err(ended) => Err(no_memory(ended)),
        }
    }

    // The tenant asks what it has.
    fn question(
        &mut self,
        tenant: u8,
        facts: &mut Vec<u8>,
        told: &mut Vec<u8>,
    ) -> Result<(), OutOfMemory>
        requires { tenant < length self.old.node.tables.plan.rows }
        ensures { OnOk result (TookOf self.old.node.tables tenant (AskedPlan ∷ []) facts.old.items facts.new.items told.old.items told.new.items self.new.node.tables) }
    {
        self.has_memory()?;
        match self.node.holding(tenant) {
            Ok(out) => Ok(self.put(tenant, &Line::Bad, &out, false, facts, told)?),
            Err(ended) => Err(no_memory(ended)),
        }
    }

    // The tenant asks what the server has of a volume.
    fn look_at(
        &mut self,
        tenant: u8,
        mark: u64,
        volume: u32,
        facts: &mut Vec<u8>,
        told: &mut Vec<u8>,
    ) -> Result<(), OutOfMemory>
        requires { tenant < length self.old.node.tables.plan.rows }
        ensures { OnOk result (TookOf self.old.node.tables tenant (AskedLook mark volume ∷ []) facts.old.items facts.new.items told.old.items told.new.items self.new.node.tables) }
    {
        self.has_memory()?;
        match self.node.look_at(tenant, mark, volume) {
            Ok(out) => Ok(self.put(tenant, &Line::Bad, &out, false, facts, told)?),
            Err(ended) => Err(no_memory(ended)),
        }
    }

    // A letter comes.
    fn letter(
        &mut self,
        from: u16,
        message: &Message,
        facts: &mut Vec<u8>,
        told: &mut Vec<u8>,
    ) -> Result<(), OutOfMemory>
        requires tenant { message.now.tenant < length self.old.node.tables.plan.rows }
        requires own { message.now.file.tenant ≡ message.now.tenant }
        ensures { OnOk result (TookOf self.old.node.tables message.now.tenant (Brought from (own_message message.now) ∷ []) facts.old.items facts.new.items told.old.items told.new.items self.new.node.tables) }
    {
        self.has_memory()?;
        match self.node.letter(from, message) {
            Ok(out) => Ok(self.put(message.tenant, &Line::Bad, &out, false, facts, told)?),
            Err(ended) => Err(no_memory(ended)),
        }
    }

    // A letter comes in a short form.
    fn short(
        &mut self,
        from: u16,
        short: &Short,
        facts: &mut Vec<u8>,
        told: &mut Vec<u8>,
    ) -> Result<(), OutOfMemory>
        requires tenant { short.now.tenant < length self.old.node.tables.plan.rows }
        requires own { short.now.file.tenant ≡ short.now.tenant }
        ensures { OnOk result (TookShort self.old.node.tables short.now.tenant from (own_short short.now) facts.old.items facts.new.items told.old.items told.new.items self.new.node.tables) }
    {
        self.has_memory()?;
        match self.node.short(from, short) {
            Ok(given) => {
                self.put_reply(&given.short, told)?;
                let again = is_once_more(short.body);
                Ok(self.put(short.tenant, &Line::Bad, &given.out, again, facts, told)?)
            }
            Err(ended) => Err(no_memory(ended)),
        }
    }

    // A node of this one's column asks for its copy of the file.
    fn fetch(
        &mut self,
        from: u16,
        file: FileId,
        facts: &mut Vec<u8>,
        told: &mut Vec<u8>,
    ) -> Result<(), OutOfMemory>
        requires { file.tenant < length self.old.node.tables.plan.rows }
        ensures { OnOk result (TookOf self.old.node.tables file.tenant (Fetching from (file_place file) ∷ []) facts.old.items facts.new.items told.old.items told.new.items self.new.node.tables) }
    {
        self.has_memory()?;
        match self.node.fetch(from, file) {
            Ok(out) => Ok(self.put(file.tenant, &Line::Bad, &out, false, facts, told)?),
            Err(ended) => Err(no_memory(ended)),
        }
    }

    // A node of this one's column gives its copy of the file.
    fn fetched(
        &mut self,
        from: u16,
        file: FileId,
        copy: &StoredCopy,
        facts: &mut Vec<u8>,
        told: &mut Vec<u8>,
    ) -> Result<(), OutOfMemory>
        requires { file.tenant < length self.old.node.tables.plan.rows }
        ensures { OnOk result (TookOf self.old.node.tables file.tenant (WasFetched from (file_place file) copy.now ∷ []) facts.old.items facts.new.items told.old.items told.new.items self.new.node.tables) }
    {
        self.has_memory()?;
        let shared = copy.share()?;
        match self.node.fetched(from, file, shared) {
            Ok(out) => Ok(self.put(file.tenant, &Line::Bad, &out, false, facts, told)?),
            Err(ended) => Err(no_memory(ended)),
        }
    }

    // A tick comes to the session at that place of the tenant's.
    fn tick_session(
        &mut self,
        tenant: u8,
        place: usize,
        facts: &mut Vec<u8>,
        told: &mut Vec<u8>,
    ) -> Result<(), OutOfMemory>
        requires tenant { tenant < length self.old.node.tables.plan.rows }
        requires place { place < (row_at self.old.node.tables.plan tenant).sessions }
        ensures { OnOk result (TookOf self.old.node.tables tenant (Ticked (session_at self.old.node.tables.plan self.old.node.tables.here tenant place) ∷ []) facts.old.items facts.new.items told.old.items told.new.items self.new.node.tables) }
    {
        self.has_memory()?;
        match self.node.tick(tenant, place) {
            Ok(out) => Ok(self.put(tenant, &Line::Bad, &out, true, facts, told)?),
            Err(ended) => Err(no_memory(ended)),
        }
    }

    // A tick comes to each session of the tenant, in order.
    fn tick_sessions(
        &mut self,
        tenant: u8,
        facts: &mut Vec<u8>,
        told: &mut Vec<u8>,
    ) -> Result<(), OutOfMemory>
        requires { tenant < length self.old.node.tables.plan.rows }
        ensures { OnOk result (TookOf self.old.node.tables tenant (session_ticks self.old.node.tables.plan self.old.node.tables.here tenant) facts.old.items facts.new.items told.old.items told.new.items self.new.node.tables) }
    {
        let sessions = self.node.plan().row(tenant).sessions;
        for place in 0..sessions {
            self.tick_session(tenant, place as usize, facts, told)?;
        }
        Ok(())
    }

    // A tick comes to the lane of the tenant behind those of its sessions: a file that the server lacks may be asked for.
    fn look(
        &mut self,
        tenant: u8,
        lane: u32,
        facts: &mut Vec<u8>,
        told: &mut Vec<u8>,
    ) -> Result<(), OutOfMemory>
        requires { tenant < length self.old.node.tables.plan.rows }
        ensures { OnOk result (TookOf self.old.node.tables tenant (Looked lane ∷ []) facts.old.items facts.new.items told.old.items told.new.items self.new.node.tables) }
    {
        self.has_memory()?;
        match self.node.look(tenant, lane) {
            Ok(out) => Ok(self.put(tenant, &Line::Bad, &out, false, facts, told)?),
            Err(ended) => Err(no_memory(ended)),
        }
    }

    // In how many lanes files of the tenant are asked for.
    fn lanes(&self, tenant: u8) -> u32
        requires { tenant < length self.now.node.tables.plan.rows }
        ensures { result ≡ lanes_at self.now.node.tables.plan tenant }
    {
        let row = self.node.plan().row(tenant);
        row.most_volumes.min(LANES).max(1)
    }

    // A tick comes to each lane of the tenant, in order. Where the server lacks no file, it does nothing at those behind the first.
    fn look_lanes(
        &mut self,
        tenant: u8,
        facts: &mut Vec<u8>,
        told: &mut Vec<u8>,
    ) -> Result<(), OutOfMemory>
        requires { tenant < length self.old.node.tables.plan.rows }
        ensures { OnOk result (TookOf self.old.node.tables tenant (lane_ticks self.old.node.tables.plan tenant) facts.old.items facts.new.items told.old.items told.new.items self.new.node.tables) }
    {
        self.look(tenant, 0, facts, told)?;
        if !self.node.lacks_some(tenant) {
            return Ok(());
        }
        let lanes = self.lanes(tenant);
        for lane in 1..lanes {
            self.look(tenant, lane, facts, told)?;
        }
        Ok(())
    }

    // A tick comes to the tenant.
    fn tick_tenant(
        &mut self,
        tenant: u8,
        facts: &mut Vec<u8>,
        told: &mut Vec<u8>,
    ) -> Result<(), OutOfMemory>
        requires { tenant < length self.old.node.tables.plan.rows }
        ensures { OnOk result (TookOf self.old.node.tables tenant (ticks_of self.old.node.tables.plan self.old.node.tables.here tenant) facts.old.items facts.new.items told.old.items told.new.items self.new.node.tables) }
    {
        self.tick_sessions(tenant, facts, told)?;
        self.look_lanes(tenant, facts, told)
    }

    // A tick comes to each tenant, in plan order.
    fn tick_tenants(&mut self, facts: &mut Vec<u8>, told: &mut Vec<u8>) -> Result<(), OutOfMemory>
        ensures { OnOk result (TookAll self.old.node.tables (ticks_of self.old.node.tables.plan self.old.node.tables.here) facts.old.items facts.new.items told.old.items told.new.items self.new.node.tables) }
    {
        let tenants = self.node.plan().tenants();
        for place in 0..tenants {
            self.tick_tenant(place as u8, facts, told)?;
        }
        Ok(())
    }

    /// Whether the server lacks a file of some tenant. It asks each volume once, however many files it was given.
    pub fn lacks_some(&self) -> bool
        ensures { result ≡ some_lacks (tables_of self.now) }
    {
        let tenants = self.node.plan().tenants();
        for place in 0..tenants {
            if self.node.lacks_some(place as u8) {
                return true;
            }
        }
        false
    }

    /// How many files the server lacks, of all tenants. It looks at each file.
    pub fn lacked(&self) -> usize
        ensures { result ≡ all_lacked (tables_of self.now) }
    {
        let mut lacked = 0;
        let tenants = self.node.plan().tenants();
        for place in 0..tenants {
            lacked += self.node.lacked(place as u8);
        }
        lacked
    }

    // Appends the question to each of these nodes whether its plan has this one.
    fn put_joins(&self, nodes: &[u16], told: &mut Vec<u8>) -> Result<(), OutOfMemory>
        ensures { OnOk result (told.new.items ≡ told.old.items ++ joins_text self.now.node.tables.plan self.now.node.tables.here nodes.now) }
    {
        let losses = self.node.lost().places().len();
        for node in nodes {
            put_joins(told, *node, self.node.number(), losses as u64)?;
        }
        Ok(())
    }

    // While the server lacks a file, appends the question to the nodes that have not joined.
    fn ask_to_join(&self, told: &mut Vec<u8>) -> Result<(), OutOfMemory>
        ensures { OnOk result (AskedToJoin self.now.node.tables told.old.items told.new.items) }
    {
        if !self.lacks_some() {
            return Ok(());
        }
        let nodes = self.node.awaited()?;
        self.put_joins(nodes.as_slice(), told)
    }

    // A tick comes.
    fn tick(&mut self, facts: &mut Vec<u8>, told: &mut Vec<u8>) -> Result<(), OutOfMemory>
        ensures { OnOk result (TookIncoming self.old.node.tables Tick facts.old.items facts.new.items told.old.items told.new.items self.new.node.tables) }
    {
        self.tick_tenants(facts, told)?;
        Ok(self.ask_to_join(told)?)
    }

    // The node of that number, which is new, asks whether this one's plan has it, and so many losses or more.
    fn asked_to_join(&self, from: u16, losses: u32, told: &mut Vec<u8>) -> Result<(), OutOfMemory>
        ensures { OnOk result (told.new.items ≡ told.old.items ++ joined_text self.now.node.tables.plan self.now.node.tables.here from losses) }
    {
        if !self.node.tells_joined(from, losses) {
            return Ok(());
        }
        Ok(put_joined(told, from, self.node.number(), losses)?)
    }

    // The node of that number tells that its plan has this one.
    fn joined(&mut self, from: u16, losses: u32) -> Result<(), OutOfMemory>
        ensures { OnOk result (LeadsAll self.old.node.tables (hears_joined from losses) self.new.node.tables) }
    {
        self.node.hear_joined(from, losses).map_err(no_memory)
    }

    // Appends which forms of lines this node speaks, to the node that stands at the place, if that is another.
    fn greet_at(&self, place: usize, told: &mut Vec<u8>) -> Result<(), OutOfMemory>
        requires { place < MOST_SERVERS }
        ensures { OnOk result (told.new.items ≡ told.old.items ++ greeting_at self.now.node.tables.plan self.now.node.tables.here place) }
    {
        let node = self.node.lost().node_at(place);
        if node == self.node.number() {
            return Ok(());
        }
        Ok(put_speaks(told, node, self.node.number(), LINE_FORM)?)
    }

    // Appends which forms of lines this node speaks, to each other node of its plan.
    fn greet(&self, told: &mut Vec<u8>) -> Result<(), OutOfMemory>
        ensures { OnOk result (told.new.items ≡ told.old.items ++ greeting_text self.now.node.tables.plan self.now.node.tables.here) }
    {
        let servers = self.node.plan().grid().servers();
        for place in 0..servers {
            self.greet_at(place, told)?;
        }
        Ok(())
    }

    // Whether the plan has a node of that number, which is another than this.
    fn is_other(&self, node: u16) -> bool
        ensures { result ≡ is_other (tables_of self.now) node }
    {
        let place = place_of(node) as usize;
        place < self.node.plan().grid().servers()
            && self.node.lost().node_at(place) == node
            && node != self.node.number()
    }

    // The node of that number tells that it speaks all forms of lines up to this one.
    fn speaks(&mut self, from: u16, form: u32)
        ensures told { is_other (tables_of self.old) from ≡ true → form_at self.new (node_place from) ≡ Some form }
        ensures others { (place : ℕ) → place ≢ node_place from → form_at self.new place ≡ form_at self.old place }
        ensures strange { is_other (tables_of self.old) from ≡ false → self.new ≡ self.old }
        ensures node { self.new.node ≡ self.old.node }
    {
        if self.is_other(from) {
            self.forms[place_of(from) as usize] = Some(form);
        }
    }

    /// The form of lines that the node at the place told last, if it told one.
    pub fn form_at(&self, place: usize) -> Option<u32>
        requires { place < MOST_SERVERS }
        ensures { result ≡ form_at self.now place }
    {
        self.forms[place]
    }

    /// The number of the node that stands at the place.
    pub fn node_at(&self, place: usize) -> u16
        requires { place < MOST_SERVERS }
        ensures { result ≡ node_at (plan_in (tables_of self.now).here.lost) place }
    {
        self.node.lost().node_at(place)
    }

    // Takes what came.
    fn take_incoming(
        &mut self,
        incoming: &Incoming,
        facts: &mut Vec<u8>,
        told: &mut Vec<u8>,
    ) -> Result<(), OutOfMemory>
        requires { FitsPlan self.old.node.tables.plan incoming.now }
        ensures { OnOk result (TookIncoming self.old.node.tables incoming.now facts.old.items facts.new.items told.old.items told.new.items self.new.node.tables) }
    {
        match incoming {
            Incoming::Request { tenant, op, line } => self.request(*tenant, *op, line, facts, told),
            Incoming::Plan { tenant } => self.question(*tenant, facts, told),
            Incoming::Look {
                tenant,
                mark,
                volume,
            } => self.look_at(*tenant, *mark, *volume, facts, told),
            Incoming::Bad { tenant } => self.request(*tenant, 0, &Line::Bad, facts, told),
            Incoming::Letter { from, message } => self.letter(*from, message, facts, told),
            Incoming::ShortLetter { from, short } => self.short(*from, short, facts, told),
            Incoming::Joins { from, losses } => self.asked_to_join(*from, *losses, told),
            Incoming::Joined { from, losses } => self.joined(*from, *losses),
            Incoming::Speaks { from, form } => {
                self.speaks(*from, *form);
                Ok(())
            }
            Incoming::Fetch { from, file } => self.fetch(*from, *file, facts, told),
            Incoming::Fetched { from, file, copy } => {
                self.fetched(*from, *file, copy, facts, told)
            }
            Incoming::Tick => self.tick(facts, told),
            Incoming::Greet => self.greet(told),
            Incoming::Nothing => Ok(()),
        }
    }
}

impl Machine for NodeMachine {
    ghost use Rattle.gq_machine.specs.Machines.{MachineSteps, MachineRecalls, machine_reads, reads_on};
    ghost use Rattle.gq_machine.specs.Faults.{IsMemory};
    ghost use Rattle.gq_keeper.specs.Runs.{Takes};

    ghost steps = { MachineSteps };

    ghost recalls = { MachineRecalls };

    ghost readable = { machine_reads };

    fn recall(&mut self, line: &[u8]) -> Result<(), Unread> {
        let Some(fact) = read_fact(self.alloc, line, self.node.plan())? else {
            return Err(Unread::Strange);
        };
        if !self.node.recall(&fact) {
            return Err(Unread::Strange);
        }
        self.facts = self.facts.saturating_add(1);
        Ok(())
    }

    ghost reads_on = { reads_on };

    fn take(&mut self, line: &[u8], facts: &mut Vec<u8>, told: &mut Vec<u8>) -> Result<(), Fault>
        ensures takes { OnOk result (Takes MachineSteps self.old line.now facts.old.items facts.new.items told.old.items told.new.items self.new) }
        ensures memory { IfErr result (λ fault. IsMemory fault) }
    {
        plan_is_sound(self.node.plan());
        self.has_memory()?;
        let incoming = read_incoming(self.alloc, line, self.node.plan(), self.node.number())?;
        Ok(self.take_incoming(&incoming, facts, told)?)
    }
}

impl Lasting for NodeMachine {
    ghost use Rattle.gq_node.specs.Bounds.{content_bytes};
    ghost use Rattle.gq_machine.specs.Machines.{MachineIsBlank, MachineIsOf, MachineRests, gives_facts, gives_readable, keeps_blank, keeps_plan, recalls_plan, keeps_rest, reads_again, starts_again};

    ghost blank = { MachineIsBlank };

    ghost is_of = { MachineIsOf };

    ghost rests = { MachineRests };

    ghost contents = { λ machine. content_bytes machine.node.tables };

    fn content_bytes(&self) -> usize {
        self.node.content_bytes()
    }

    fn put_needed(&self, facts: &mut Vec<u8>) -> Result<(), Fault> {
        plan_is_sound(self.node.plan());
        self.has_memory()?;
        match self.node.needed() {
            Ok(needed) => Ok(self.put_facts(needed.as_slice(), facts)?),
            Err(NeedRefused::Memory(refused)) => Err(Fault::Memory(refused)),
            Err(NeedRefused::Unreadable) => Err(Fault::JournalWrite),
        }
    }

    ghost gives_facts = { gives_facts };

    ghost gives_readable = { gives_readable };

    ghost keeps_blank = { keeps_blank };

    ghost keeps_plan = { keeps_plan };

    ghost recalls_plan = { recalls_plan };

    ghost keeps_rest = { keeps_rest };

    ghost reads_again = { reads_again };

    ghost starts_again = { starts_again };
}
