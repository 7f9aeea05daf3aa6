//! An operation in its round.

ghost use Rattle.std.specs.Prelude.{◌≡◌, ◌↔◌, ◌+◌, ◌*◌, ◌<◌, ◌≤◌, [], true, false, None, ◌&&◌, not, nat_lt, IfOk, IfErr, IfSome, OnOk, OnErr, IsErrOf, is_some, unwrap_or, map, option_map, if◌then◌else◌};
ghost use Rattle.gq_grid.specs.declared.TheConstants.{MOST_SERVERS};
ghost use Rattle.gq_grid.specs.Grid.{Servers, no_servers, rising, with_server};
ghost use Rattle.gq_grid.specs.Sets.{servers};
ghost use Rattle.gq_tag.specs.declared.TheConstants.{MOST_FILES};
ghost use Rattle.gq_tag.specs.Tag.{first_copy, file_place};
ghost use Rattle.gq_tag.specs.View.{body_of};
ghost use Rattle.gq_round.specs.Round.{addressed, apart, sent_to};
ghost use Rattle.gq_phase.specs.Best.{copied_number, best_with, givers_with, tag_in};
ghost use Rattle.gq_phase.specs.Quorums.{collect_quorum, store_quorum};
ghost use Rattle.gq_phase.specs.Phase.{Writing, Reading, Listing, listed_row};
ghost use Rattle.gq_phase.specs.Standing.{first_ask, rows_with};

use crate::best::Best;
use crate::course::Course;
use crate::quorums::{collect_quorum, ends_collect, ends_store, store_quorum};
use crate::{BeginRefused, Heard, Outcome, ResendRefused, Row, Rows};
use bytes::Bytes;
use gq_grid::{Grid, ServerSet};
use gq_memory::{GrowBytes, GrowVec, OutOfMemory};
use gq_round::{Messages, RoundMessage, Who};
use gq_tag::{Body, BodyView, FileId, Message, MessageView, StoredCopy, Tag};
use std::alloc::Global;
use std::mem;

// What the session was asked to do.
#[derive(Debug, Drop)]
enum Task {
    Write(Bytes),
    Read,
    List,
}

/// The operation of a session: which round it is in, and what it has to know of what was heard. Its size does not
/// grow with what it hears, but for one row for each file that a listing has collected.
#[derive(Drop)]
#[derive_where(Debug)]
pub struct Operation {
    #[derive_where(skip)]
    alloc: Global,
    grid: Grid,
    who: Who,
    task: Task,
    // the file of the round
    file: FileId,
    course: Course,
    // the servers heard in the round, and the greatest copy heard
    heard: ServerSet,
    best: Best,
    // the servers that told its tag
    givers: ServerSet,
    // the last copy collected, and of a listing the row of each copy collected
    stored: StoredCopy,
    rows: Rows,
    floor: u64,
    done: bool,
}

// Of a listing, adds the copy's row.
fn keep_row(task: &Task, rows: &mut Rows, copy: &StoredCopy) -> Result<(), OutOfMemory>
    ensures ok { OnOk result (rows.new ≡ rows_with task.now (listed_row copy.now) rows.old) }
    ensures err { OnErr result (rows.new ≡ rows.old) }
{
    if let Task::List = task {
        rows.items.grow(Row {
            length: copy.bytes.len() as u64,
            tag: copy.tag,
        })?;
    }
    Ok(())
}

// The rows, of which none are left.
fn take_rows(alloc: Global, rows: &mut Rows) -> Rows
    ensures value { result ≡ rows.old }
    ensures rest { rows.new ≡ [] }
{
    mem::replace(
        rows,
        Rows {
            items: Vec::new(alloc),
        },
    )
}

impl Operation {
    ghost use Rattle.gq_phase.specs.Standing.{floor_of, is_collecting, heard_of, its_file, IsGoing, IsDone, Begins, HearsAs, HearsTag, takes_as, stored_as, StoresNow, RaisesFloor, EndsAs, ResendsAs, RefusesAs, IsFresh, is_current_as, quorum_as, ends_as, message_as, decided_as, floor_with, outcome_as, is_list, reads, skips_as, next_file, store_message, next_ask, ask_after, BeginsStore, BeginsCollect, SkipsOn};

    /// Begins a write of the content: round 1, which asks the least full row of the servers of `up` for their copies.
    /// `floor` is the session's own last number. Answers the operation and the asks in rising server number.
    #[inline(always)]
    pub fn write(
        alloc: Global,
        grid: &Grid,
        who: Who,
        floor: u64,
        file: FileId,
        bytes: &Bytes,
        up: ServerSet,
    ) -> Result<(Operation, Messages), BeginRefused>
        requires own { file.tenant ≡ who.tenant }
        ensures ok { IfOk result (λ began. Begins grid.now who (Writing (file_place file) bytes.now) floor
            (servers up) began.0 began.1) }
        ensures going { IfOk result (λ began. IsGoing began.0) }
        ensures floor { IfOk result (λ began. floor_of began.0 ≡ floor) }
        ensures none { IsErrOf result BeginRefused.NoQuorum ↔ (collect_quorum grid.now (servers up) ≡ None) }
    {
        let quorum = collect_quorum(grid, up).ok_or(BeginRefused::NoQuorum)?;
        let task = Task::Write(bytes.share()?);
        Ok(Operation::begin(alloc, grid, who, task, 1, file, floor, quorum))
    }

    /// Begins a read: round 1, which asks the least full row of the servers of `up` for their copies. `floor` is the
    /// session's own last number, which a read keeps. Answers the operation and the asks in rising server number.
    pub fn read(
        alloc: Global,
        grid: &Grid,
        who: Who,
        floor: u64,
        file: FileId,
        up: ServerSet,
    ) -> Result<(Operation, Messages), BeginRefused>
        requires own { file.tenant ≡ who.tenant }
        ensures ok { IfOk result (λ began. Begins grid.now who (Reading (file_place file)) floor
            (servers up) began.0 began.1) }
        ensures going { IfOk result (λ began. IsGoing began.0) }
        ensures floor { IfOk result (λ began. floor_of began.0 ≡ floor) }
        ensures none { IsErrOf result BeginRefused.NoQuorum ↔ (collect_quorum grid.now (servers up) ≡ None) }
    {
        let quorum = collect_quorum(grid, up).ok_or(BeginRefused::NoQuorum)?;
        Ok(Operation::begin(alloc, grid, who, Task::Read, 1, file, floor, quorum))
    }

    /// Begins a listing of a volume of so many files: round 1, which asks the least full row of the servers of `up` for
    /// their copies of file 0. `floor` is the session's own last number, which a listing keeps. Answers the operation
    /// and the asks in rising server number.
    pub fn list(
        alloc: Global,
        grid: &Grid,
        who: Who,
        floor: u64,
        volume: u32,
        files: u32,
        up: ServerSet,
    ) -> Result<(Operation, Messages), BeginRefused>
        requires some { 0 < files }
        requires bound { files ≤ MOST_FILES }
        ensures ok { IfOk result (λ began. Begins grid.now who (Listing volume files) floor
            (servers up) began.0 began.1) }
        ensures going { IfOk result (λ began. IsGoing began.0) }
        ensures floor { IfOk result (λ began. floor_of began.0 ≡ floor) }
        ensures none { IsErrOf result BeginRefused.NoQuorum ↔ (collect_quorum grid.now (servers up) ≡ None) }
    {
        let quorum = collect_quorum(grid, up).ok_or(BeginRefused::NoQuorum)?;
        let file = FileId {
            tenant: who.tenant,
            volume,
            file: 0,
        };
        Ok(Operation::begin(alloc, grid, who, Task::List, files, file, floor, quorum))
    }

    // The operation in its first round, and its asks.
    fn begin(
        alloc: Global,
        grid: &Grid,
        who: Who,
        task: Task,
        files: u32,
        file: FileId,
        floor: u64,
        quorum: ServerSet,
    ) -> (Operation, Messages)
        requires some { 0 < files }
        requires bound { files ≤ MOST_FILES }
        ensures fresh { IsFresh result.0 grid.now who task files file floor }
        ensures asks { result.1 ≡ sent_to grid.now (Some (servers quorum)) (first_ask who file) }
    {
        prove!(0 < grid.servers());
        let ask = RoundMessage {
            who,
            round: 1,
            file,
            body: Body::Ask,
        };
        let messages = Messages::to_quorum(ask, grid, Some(quorum));
        let operation = Operation {
            alloc,
            grid: *grid,
            who,
            task,
            file,
            course: Course::new(files),
            heard: ServerSet::empty(),
            best: Best::none(),
            givers: ServerSet::empty(),
            stored: StoredCopy::first(),
            rows: Rows {
                items: Vec::new(alloc),
            },
            floor,
            done: false,
        };
        (operation, messages)
    }

    /// What the operation says to a message of its session, where the servers of `up` are up. A reply of its round is
    /// noted, once; where the servers heard end the round, the next round begins or the operation is done. A read or a
    /// listing leaves out a file's store round where the servers that told the copy's tag would end it. The store
    /// round of a write has a tag of its session with a number above all numbers heard and above the session's own
    /// last one, which it then is. After `OutOfMemory` nothing has changed; after `Done` every message is stale.
    pub fn hear(&mut self, message: &Message, up: ServerSet) -> Result<Heard, OutOfMemory>
        requires server { message.now.server < MOST_SERVERS }
        requires number { copied_number message.now.body < u64.MAX }
        requires floor { floor_of self.old < u64.MAX }
        ensures hears { IfOk result (λ heard. HearsAs self.old self.new (servers up) message.now heard) }
        ensures tags { IfOk result (λ heard. HearsTag self.old self.new (servers up) message.now heard) }
        ensures floor { IfOk result (λ heard. RaisesFloor self.old self.new heard) }
        ensures ends { IfOk result (λ heard. EndsAs self.old self.new heard) }
        ensures done { IsDone self.old → IfOk result (λ heard. heard ≡ Heard.Stale) }
        ensures stays { IsDone self.old → self.new ≡ self.old }
        ensures err { OnErr result (self.new ≡ self.old) }
    {
        self.hear_view(&MessageView::of(message), up)
    }

    /// What the operation says to a message whose copy is lent, as [`Operation::hear`]. The copy is cloned where it
    /// becomes the greatest that was heard.
    #[inline(always)]
    pub fn hear_view(
        &mut self,
        message: &MessageView<'_>,
        up: ServerSet,
    ) -> Result<Heard, OutOfMemory>
        requires server { message.now.server < MOST_SERVERS }
        requires number { copied_number message.now.body < u64.MAX }
        requires floor { floor_of self.old < u64.MAX }
        ensures hears { IfOk result (λ heard. HearsAs self.old self.new (servers up) message.now heard) }
        ensures tags { IfOk result (λ heard. HearsTag self.old self.new (servers up) message.now heard) }
        ensures floor { IfOk result (λ heard. RaisesFloor self.old self.new heard) }
        ensures ends { IfOk result (λ heard. EndsAs self.old self.new heard) }
        ensures done { IsDone self.old → IfOk result (λ heard. heard ≡ Heard.Stale) }
        ensures stays { IsDone self.old → self.new ≡ self.old }
        ensures err { OnErr result (self.new ≡ self.old) }
    {
        if !self.is_current(message) {
            return Ok(Heard::Stale);
        }
        let server = message.server as usize;
        let mut heard = self.heard;
        heard.insert(server);
        let givers = self.best.givers_with(self.givers, server, message.body);
        if !self.ends(heard) {
            self.note(message.body, heard, givers)?;
            return Ok(Heard::Noted);
        }
        self.hear_last(message, heard, givers, up)
    }

    // What the operation says to a reply that ends the round: these servers are heard with it, and these told the greatest tag.
    // It is a call of its own since it makes room for much, and few replies end a round.
    #[inline(never)]
    fn hear_last(
        &mut self,
        message: &MessageView<'_>,
        heard: ServerSet,
        givers: ServerSet,
        up: ServerSet,
    ) -> Result<Heard, OutOfMemory>
        requires number { copied_number message.now.body < u64.MAX }
        requires floor { floor_of self.old < u64.MAX }
        requires current { is_current_as self.old message.now ≡ true }
        requires heard { servers heard ≡ with_server message.now.server (servers self.old.heard) }
        requires givers { servers givers ≡ givers_with self.old.best (servers self.old.givers) message.now.server message.now.body }
        requires over { ends_as self.old (servers heard) ≡ true }
        ensures hears { IfOk result (λ said. HearsAs self.old self.new (servers up) message.now said) }
        ensures tags { IfOk result (λ said. HearsTag self.old self.new (servers up) message.now said) }
        ensures floor { IfOk result (λ said. RaisesFloor self.old self.new said) }
        ensures ends { IfOk result (λ said. EndsAs self.old self.new said) }
        ensures err { OnErr result (self.new ≡ self.old) }
    {
        if self.course.collects() {
            let copy = self.decided(message.body)?;
            if !self.skips(givers) {
                self.begin_store(copy, up)
            } else if self.goes_on_after() {
                self.skip_on(copy, up)
            } else {
                self.skip_done(copy)
            }
        } else if self.goes_on() {
            Ok(self.begin_collect(up))
        } else {
            self.finish()
        }
    }

    /// Notes a message whose copy is lent, where it is a reply of the round that does not end it, and answers whether it is
    /// one. That is what [`Operation::hear_view`] does with it, whatever servers are up, but makes less room. To any other
    /// message, and where memory is wanting, the operation stays as it is.
    #[inline(always)]
    pub fn notes(&mut self, message: &MessageView<'_>) -> Result<bool, OutOfMemory>
        requires server { message.now.server < MOST_SERVERS }
        requires number { copied_number message.now.body < u64.MAX }
        ensures hears { IfOk result (λ noted. noted ≡ true → (up : Servers) → HearsAs self.old self.new up message.now Heard.Noted) }
        ensures stays { IfOk result (λ noted. noted ≡ false → self.new ≡ self.old) }
        ensures floor { floor_of self.new ≡ floor_of self.old }
        ensures err { OnErr result (self.new ≡ self.old) }
    {
        if !self.is_current(message) {
            return Ok(false);
        }
        let server = message.server as usize;
        let mut heard = self.heard;
        heard.insert(server);
        if self.ends(heard) {
            return Ok(false);
        }
        let givers = self.best.givers_with(self.givers, server, message.body);
        self.note(message.body, heard, givers)?;
        Ok(true)
    }

    /// Sends the round's message once more, to those servers that were not heard in the round of the least full row of
    /// `up`, or in a store round of the least full column, in rising number: one at least, since the servers heard do
    /// not end the round. The operation stays as it is.
    pub fn resend(&mut self, up: ServerSet) -> Result<Messages, ResendRefused>
        requires going { IsGoing self.old }
        ensures ok { IfOk result (λ messages. ResendsAs self.old (servers up) messages) }
        ensures err { IfErr result (λ e. RefusesAs self.old (servers up) e) }
        ensures same { self.new ≡ self.old }
    {
        let quorum = self.quorum(up).ok_or(ResendRefused::NoQuorum)?;
        let messages = self.messages_to(quorum)?;
        Ok(messages)
    }

    /// The session's own last number: that of the last tag that it made, 0 before the first.
    pub fn floor(&self) -> u64
        ensures { result ≡ floor_of self.now }
    {
        self.floor
    }

    /// Whether the operation's round collects copies. If it does not, it stores one.
    pub fn collects(&self) -> bool
        ensures { result ≡ is_collecting self.now }
    {
        self.course.collects()
    }

    /// Whether a reply of this server was heard in the operation's round.
    pub fn has_heard(&self, server: u8) -> bool
        requires { server < MOST_SERVERS }
        ensures { result ≡ heard_of self.now server }
    {
        self.heard.has(server as usize)
    }

    /// The file of the operation's round. A listing goes from one file to the next.
    pub fn file(&self) -> FileId
        ensures { result ≡ its_file self.now }
    {
        self.file
    }

    /// Whether the operation is a write: its collect round uses the tags that it hears alone.
    pub fn writes(&self) -> bool
        ensures { result ≡ not (reads self.now.task) }
    {
        matches!(&self.task, Task::Write(_))
    }

    /// The greatest tag that was heard in the operation's round, if one was.
    pub fn best_tag(&self) -> Option<Tag>
        ensures { result ≡ tag_in self.now.best }
    {
        self.best.tag()
    }

    /// Whether a tag, without the content, says as much to the operation as the copy would: to a write always, else where a copy of
    /// this tag or a greater one was heard, or it is the first one, whose content is empty.
    pub fn takes_tag(&self, tag: Tag) -> bool
        ensures { result ≡ takes_as self.now tag }
    {
        if !self.course.collects() {
            return false;
        }
        match (&self.task, self.best.tag()) {
            (Task::Write(_), _) => true,
            (_, Some(best)) => tag <= best,
            (_, None) => false,
        }
    }

    /// The servers that told the greatest copy's tag, with what the message says.
    pub fn givers_after(&self, message: &Message) -> ServerSet
        requires { message.now.server < MOST_SERVERS }
        ensures { servers result ≡ (if is_current_as self.now message.now then givers_with self.now.best (servers self.now.givers) message.now.server message.now.body else servers self.now.givers) }
    {
        let view = MessageView::of(message);
        if !self.is_current(&view) {
            return self.givers;
        }
        self.best
            .givers_with(self.givers, message.server as usize, view.body)
    }

    /// The copy that the operation's round stores, where that is the round of this number of the operation of that number, and of
    /// this file.
    pub fn stored_in(
        &self,
        op: u32,
        round: u32,
        file: FileId,
    ) -> Result<Option<StoredCopy>, OutOfMemory>
        ensures value { IfOk result (λ copy. copy ≡ stored_as self.now op round file) }
        ensures sent { IfOk result (λ copy. IfSome copy (StoresNow self.now op round file)) }
    {
        if !self.stores(op, round, file) {
            return Ok(None);
        }
        Ok(Some(self.stored.share()?))
    }

    // Whether the operation's round is that of this number of the operation of that number, of this file, and stores.
    #[tactic(auto, using(crate::proofs::Saying::stores_now))]
    fn stores(&self, op: u32, round: u32, file: FileId) -> bool
        ensures is { result ≡ is_some (stored_as self.now op round file) }
        ensures now { result ≡ true → StoresNow self.now op round file self.now.stored }
    {
        !self.done
            && (!self.course.collects()
                && (op == self.who.op
                    && (round == self.course.round()
                        && (file.volume == self.file.volume && file.file == self.file.file))))
    }

    /// Ends the operation without an answer. Answers the session's own last number, which the session's next operation
    /// begins with, so that no tag is given twice.
    pub fn abandon(self) -> u64
        ensures { result ≡ floor_of self }
    {
        self.floor()
    }

    // The servers that the round asks or sends to.
    fn quorum(&self, up: ServerSet) -> Option<ServerSet>
        ensures { option_map servers result ≡ quorum_as self.now (servers up) }
    {
        if self.course.collects() {
            collect_quorum(&self.grid, up)
        } else {
            store_quorum(&self.grid, up)
        }
    }

    /// Whether the message is of the operation's round, and the operation is not done.
    pub fn is_current(&self, message: &MessageView<'_>) -> bool
        ensures { result ≡ is_current_as self.now message.now }
    {
        !self.done && message.op == self.who.op && message.round == self.course.round()
    }

    // Notes the reply: these servers are heard now, and these told the greatest tag.
    #[inline(always)]
    fn note(
        &mut self,
        body: BodyView<'_>,
        heard: ServerSet,
        givers: ServerSet,
    ) -> Result<(), OutOfMemory>
        requires { copied_number (body_of body) < u64.MAX }
        ensures ok { OnOk result (self.new
            ≡ record self.old { heard = heard; best = best_with self.old.best (body_of body.entry); givers = givers }) }
        ensures err { OnErr result (self.new ≡ self.old) }
    {
        self.best.note(body)?;
        self.heard = heard;
        self.givers = givers;
        Ok(())
    }

    // Whether the round ends where these servers were heard.
    #[inline(always)]
    fn ends(&self, heard: ServerSet) -> bool
        ensures { result ≡ ends_as self.now (servers heard) }
    {
        if self.course.collects() {
            ends_collect(&self.grid, heard)
        } else {
            ends_store(&self.grid, heard)
        }
    }

    // The round's message.
    fn message(&self) -> Result<RoundMessage, OutOfMemory>
        ensures { IfOk result (λ message. message ≡ message_as self.now) }
    {
        Ok(RoundMessage {
            who: self.who,
            round: self.course.round(),
            file: self.file,
            body: if self.course.collects() {
                Body::Ask
            } else {
                Body::Store(self.stored.share()?)
            },
        })
    }

    // The round's message to each server of the set that was not heard in the round.
    fn messages_to(&self, set: ServerSet) -> Result<Messages, OutOfMemory>
        ensures { IfOk result (λ messages. messages ≡ map (addressed (message_as self.now))
            (rising self.now.grid (apart (servers set) (servers self.now.heard)))) }
    {
        Ok(Messages {
            message: self.message()?,
            grid: self.grid,
            to: set,
            except: self.heard,
        })
    }

    // The copy with which the collect round ends at this reply.
    fn decided(&self, body: BodyView<'_>) -> Result<StoredCopy, OutOfMemory>
        requires number { copied_number (body_of body) < u64.MAX }
        requires floor { self.now.floor < u64.MAX }
        ensures { IfOk result (λ decided. decided ≡ decided_as self.now.task self.now.who.session
            self.now.floor (unwrap_or (best_with self.now.best (body_of body.entry)) first_copy)) }
    {
        let best = self.best.with(body);
        match &self.task {
            Task::Write(content) => {
                let greatest = best.map_or(0, |copy| copy.tag.number);
                Ok(StoredCopy {
                    tag: Tag::after(greatest.max(self.floor), self.who.session),
                    bytes: content.share()?,
                })
            }
            Task::Read | Task::List => match best {
                Some(copy) => copy.share(),
                None => Ok(StoredCopy::first()),
            },
        }
    }

    // The store round of the copy begins.
    fn begin_store(&mut self, copy: StoredCopy, up: ServerSet) -> Result<Heard, OutOfMemory>
        requires { self.old.course.collecting ≡ true }
        ensures ok { IfOk result (λ heard. heard ≡ Heard.Next (2 * (self.old.course.collected + 1)) (Some copy.tag)
            (sent_to self.old.grid (store_quorum self.old.grid (servers up)) (store_message self.old copy))) }
        ensures new { OnOk result (BeginsStore self.old self.new copy) }
        ensures err { OnErr result (self.new ≡ self.old) }
    {
        let round = self.course.next_store();
        let message = RoundMessage {
            who: self.who,
            round,
            file: self.file,
            body: Body::Store(copy.share()?),
        };
        let quorum = store_quorum(&self.grid, up);
        let messages = Messages::to_quorum(message, &self.grid, quorum);
        let tag = copy.tag;
        let floor = self.next_floor(tag);
        keep_row(&self.task, &mut self.rows, &copy)?;
        self.course.store();
        self.forget_heard();
        self.stored = copy;
        self.floor = floor;
        Ok(Heard::Next {
            round,
            tag: Some(tag),
            messages,
        })
    }

    // Nothing was heard in the round that begins.
    fn forget_heard(&mut self)
        ensures heard { servers self.new.heard ≡ no_servers }
        ensures givers { servers self.new.givers ≡ no_servers }
        ensures others { self.new ≡ record self.old { heard = self.new.heard; best = None; givers = self.new.givers } }
    {
        self.heard = ServerSet::empty();
        self.best = Best::none();
        self.givers = ServerSet::empty();
    }

    // Whether the file's store round is left out where these servers told the greatest tag.
    fn skips(&self, givers: ServerSet) -> bool
        ensures { result ≡ skips_as self.now (servers givers) }
    {
        match &self.task {
            Task::Write(_) => false,
            Task::Read | Task::List => ends_store(&self.grid, givers),
        }
    }

    // The collect round of a listing's file after this one begins, without a store round of the copy.
    fn skip_on(&mut self, copy: StoredCopy, up: ServerSet) -> Result<Heard, OutOfMemory>
        requires collects { self.old.course.collecting ≡ true }
        requires more { self.old.course.collected + 1 < self.old.course.files }
        ensures ok { IfOk result (λ heard. heard ≡ Heard.Next (2 * (self.old.course.collected + 1) + 1) None
            (sent_to self.old.grid (collect_quorum self.old.grid (servers up)) (ask_after self.old))) }
        ensures new { OnOk result (SkipsOn self.old self.new copy) }
        ensures err { OnErr result (self.new ≡ self.old) }
    {
        keep_row(&self.task, &mut self.rows, &copy)?;
        self.course.store();
        self.stored = copy;
        Ok(self.begin_collect(up))
    }

    // A read or a listing is done with the copy, without a store round of it.
    fn skip_done(&mut self, copy: StoredCopy) -> Result<Heard, OutOfMemory>
        ensures ok { IfOk result (λ heard. heard ≡ Heard.Done (outcome_as self.old.task self.old.who copy
            (rows_with self.old.task (listed_row copy) self.old.rows))) }
        ensures floor { self.new.floor ≡ self.old.floor }
        ensures done { OnOk result (self.new.done ≡ true) }
        ensures err { OnErr result (self.new ≡ self.old) }
    {
        keep_row(&self.task, &mut self.rows, &copy)?;
        Ok(Heard::Done(self.end(copy)))
    }

    // The session's own last number once a round stores the tag.
    fn next_floor(&self, tag: Tag) -> u64
        ensures { result ≡ floor_with self.now.task tag self.now.floor }
    {
        match &self.task {
            Task::Write(_) => tag.number,
            Task::Read | Task::List => self.floor,
        }
    }

    // Whether the operation is a listing with files left to collect after this one.
    fn goes_on_after(&self) -> bool
        requires { self.now.course.collecting ≡ true }
        ensures { result ≡ (is_list self.now.task && nat_lt (self.now.course.collected + 1) self.now.course.files) }
    {
        match &self.task {
            Task::List => self.course.more_after(),
            _ => false,
        }
    }

    // Whether the operation is a listing with files left to collect.
    fn goes_on(&self) -> bool
        ensures { result ≡ (is_list self.now.task && nat_lt self.now.course.collected self.now.course.files) }
    {
        match &self.task {
            Task::List => self.course.more(),
            _ => false,
        }
    }

    // The collect round of a listing's next file begins.
    fn begin_collect(&mut self, up: ServerSet) -> Heard
        requires more { self.old.course.collected < self.old.course.files }
        ensures value { result ≡ Heard.Next (2 * self.old.course.collected + 1) None
            (sent_to self.old.grid (collect_quorum self.old.grid (servers up)) (next_ask self.old)) }
        ensures new { BeginsCollect self.old self.new }
    {
        let place = self.course.collected();
        let round = 2 * place + 1;
        let file = FileId {
            tenant: self.file.tenant,
            volume: self.file.volume,
            file: place,
        };
        let ask = RoundMessage {
            who: self.who,
            round,
            file,
            body: Body::Ask,
        };
        let quorum = collect_quorum(&self.grid, up);
        let messages = Messages::to_quorum(ask, &self.grid, quorum);
        self.course.collect();
        self.file = file;
        self.forget_heard();
        Heard::Next {
            round,
            tag: None,
            messages,
        }
    }

    // The operation is done with the copy stored.
    fn finish(&mut self) -> Result<Heard, OutOfMemory>
        ensures ok { IfOk result (λ heard. heard
            ≡ Heard.Done (outcome_as self.old.task self.old.who self.old.stored self.old.rows)) }
        ensures floor { self.new.floor ≡ self.old.floor }
        ensures done { OnOk result (self.new.done ≡ true) }
        ensures err { OnErr result (self.new ≡ self.old) }
    {
        let copy = self.stored.share()?;
        Ok(Heard::Done(self.end(copy)))
    }

    // The operation is done with this copy, and the rows of a listing.
    fn end(&mut self, copy: StoredCopy) -> Outcome
        ensures value { result ≡ outcome_as self.old.task self.old.who copy self.old.rows }
        ensures floor { self.new.floor ≡ self.old.floor }
        ensures done { self.new.done ≡ true }
    {
        self.done = true;
        let session = self.who.session;
        let op = self.who.op;
        match &self.task {
            Task::Write(_) => Outcome::Wrote {
                session,
                op,
                tag: copy.tag,
            },
            Task::Read => Outcome::Gave { session, op, copy },
            Task::List => Outcome::Listed {
                session,
                op,
                rows: take_rows(self.alloc, &mut self.rows),
            },
        }
    }
}
