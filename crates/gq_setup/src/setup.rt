//! A plan, the volumes that are opened at each start, the nodes that were lost, and the tenants that are gone.
//!
//! A tenant has one line `chunks`, and never with 0. Two lines could be meant as a sum, or as one in place of the other; a
//! line with 0 would say what no line says.

ghost use Rattle.std.specs.Prelude.{◌≡◌, ◌++◌, ◌∷◌, ◌+◌, ◌<◌, ◌≤◌, ◌^◌, true, length, map, is_none, is_some, Ok, Some, [], IfOk, IfErr, IfSome, OnOk, OnErr, ◌*◌, false};
ghost use Rattle.std.specs.List.{All, flat_map};
ghost use Rattle.gq_desk.specs.Volumes.{account_at, free_of};
ghost use Rattle.gq_desk.specs.declared.limits.TheConstants.{MOST_VOLUMES};
ghost use Rattle.gq_model.specs.Events.{IsIn};
ghost use Rattle.gq_lines.specs.Words.{number_of};
ghost use Rattle.gq_lines.specs.Lines.{lines_of};
ghost use Rattle.gq_lines.specs.Written.{Extends};
ghost use Rattle.gq_grid.specs.declared.TheConstants.{MOST_SERVERS};
ghost use Rattle.gq_replace.specs.Plans.{times};
ghost use Rattle.gq_node.specs.declared.lost.TheConstants.{MOST_TIMES};
ghost use Rattle.gq_node.specs.Sites.{plan_in};
ghost use Rattle.gq_setup.specs.Setups.{setup_of, accounts_of, holdings, CanOpen, CanHave, CanLose, CanGo, can_have, can_lose, can_go, is_gone, has_node, kib_of, plan_alone, after_has, after_opens, after_opens_many, after_loses, after_goes, after_line, after_lines};
ghost use Rattle.gq_setup.specs.declared.openings.TheConstants.{MOST_LOSSES, MOST_GONE};
ghost use Rattle.gq_setup.specs.Faults.{IsFirstFault};
ghost use Rattle.gq_setup.specs.GoingOn.{goes_on, come_first, row_goes_on, account_goes_on, holdings_left, rooms_go_on};
ghost use Rattle.gq_setup.specs.Leaving.{without};
ghost use Rattle.gq_setup.specs.NotKept.{TellsVolume, TellsRoom, IsNotKept};
ghost use Rattle.gq_setup.specs.Texts.{opening_event, loss_line, gone_line, room_line, behind_text, setup_text};

use crate::going_on::{
    NotKept, accounts_not_kept, gone_not_kept, losses_not_kept, rooms_not_kept, rows_not_kept,
    servers_not_kept,
};
use crate::leaving::{open_all, openings_left, rooms_left};
use crate::openings::{
    ChunkRoom, MOST_GONE, MOST_LOSSES, Opening, SetupFault, is_gone, kib_of, many_told,
    read_opening, room_told, word_behind,
};
use gq_desk::{Desk, Name, OpenRefused, Plan, VolumeRow};
use gq_grid::MOST_SERVERS;
use gq_lines::{first_line, number};
use gq_memory::{GrowCopies, GrowVec, OutOfMemory, RoomInVec, slice_copied};
use gq_model::{Event, Line};
use gq_node::{Lost, LostRefused, MOST_TIMES};
use gq_text::{Piece, PlanText, put_words, read_plan, write_script};
use std::alloc::Global;
use std::marker::Model;

/// What a node starts with: a plan, the volumes that are opened at each start, each behind those before it, the room that tenants have for
/// chunks, the nodes that were lost, and the tenants that are gone.
#[derive(Drop)]
pub struct Setup {
    plan: Plan,
    openings: Vec<Opening>,
    // what the tenants have then
    desk: Desk,
    rooms: Vec<ChunkRoom>,
    lost: Lost,
    gone: Vec<Name>,
}

impl Model for Setup {
    ghost use Rattle.std.specs.Prelude.{◌≡◌, []};
    ghost use Rattle.gq_setup.specs.Setups.{Setup as TheSetup, accounts_of, after_openings, CanOpen, CanHave, CanLose, CanGo};

    ghost Value = { TheSetup };

    ghost view = { λ s. record { plan = s.plan; openings = s.openings.items; rooms = s.rooms.items; lost = s.lost; gone = s.gone.items } };

    ghost invariant = { λ s.
        (s.desk ≡ after_openings (accounts_of s.plan) s.openings.items) × CanOpen (accounts_of s.plan) s.openings.items × CanHave s.plan [] s.rooms.items × CanLose s.plan [] s.lost × CanGo s.plan [] s.gone.items };
}

/// The setup that a text tells: a plan, and behind `go` lines that open volumes, give room for chunks, tell losses or tell which tenants are
/// gone, and nothing else. Else the first line at fault is told; want of memory may come before it is found.
pub fn read_setup(alloc: Global, text: &[u8]) -> Result<Setup, SetupFault>
    ensures ok { IfOk result (λ setup. setup_of text.now ≡ Ok setup) }
    ensures fault { IfErr result (λ e. IsFirstFault e (setup_of text.now)) }
{
    let (plan, end) = match read_plan(alloc, text) {
        Ok(read) => read,
        Err(PlanText::Fault { line, fault }) => return Err(SetupFault::Plan { line, fault }),
        Err(PlanText::Memory(refused)) => return Err(SetupFault::Memory(refused)),
    };
    let first = plan.tenants() as u64 + 4;
    let mut setup = Setup::plan_alone(alloc, plan)?;
    setup.take_lines(alloc, &text[end..], first)?;
    Ok(setup)
}

impl Setup {
    // The plan alone.
    fn plan_alone(alloc: Global, plan: Plan) -> Result<Setup, OutOfMemory>
        ensures { IfOk result (λ setup. setup ≡ plan_alone plan) }
    {
        let desk = Desk::new(alloc, &plan)?;
        let lost = Lost::none(alloc)?;
        Ok(Setup {
            plan,
            openings: Vec::new(alloc),
            desk,
            rooms: Vec::new(alloc),
            lost,
            gone: Vec::new(alloc),
        })
    }

    /// What is left of it without tenants of these names: their volumes are not opened, and they have no room for chunks.
    pub fn without(&self, alloc: Global, gone: &[Name]) -> Result<Setup, OutOfMemory>
        ensures { IfOk result (λ setup. setup ≡ without gone.now self.now) }
    {
        let openings = openings_left(alloc, gone, &self.plan, self.openings.as_slice())?;
        let mut desk = Desk::new(alloc, &self.plan)?;
        open_all(&mut desk, openings.as_slice())?;
        Ok(Setup {
            plan: self.plan.copy()?,
            openings,
            desk,
            rooms: rooms_left(alloc, gone, &self.plan, self.rooms.as_slice())?,
            lost: self.lost.copy(alloc)?,
            gone: slice_copied(alloc, self.gone.as_slice())?,
        })
    }

    // Opens the volume too, by line `number`.
    fn open(&mut self, opening: Opening, number: u64) -> Result<(), SetupFault>
        requires { opening.tenant < length self.old.plan.rows }
        ensures ok { OnOk result (after_opens number self.old (Some opening) ≡ Ok self.new) }
        ensures fault { IfErr result (λ e. IsFirstFault e (after_opens number self.old (Some opening))) }
    {
        self.openings.make_room(1)?;
        match self
            .desk
            .open_volume(opening.tenant, opening.files, opening.blocks)
        {
            Ok(_) => {}
            Err(OpenRefused::Memory(refused)) => return Err(SetupFault::Memory(refused)),
            Err(OpenRefused::Size) => return Err(SetupFault::OpenSize(number)),
            Err(OpenRefused::Volumes) => return Err(SetupFault::OpenVolumes(number)),
            Err(OpenRefused::Share { free }) => {
                return Err(SetupFault::OpenShare { line: number, free });
            }
        }
        self.openings.push_reserved(opening);
        Ok(())
    }

    // Opens so many volumes alike, one after another, by line `number`.
    fn open_many(&mut self, opening: Opening, times: u32, number: u64) -> Result<(), SetupFault>
        requires { opening.tenant < length self.old.plan.rows }
        ensures ok { OnOk result (after_opens_many number self.old opening times ≡ Ok self.new) }
        ensures fault { IfErr result (λ e. IsFirstFault e (after_opens_many number self.old opening times)) }
    {
        for _time in 0..times {
            self.open(opening, number)?;
        }
        Ok(())
    }

    // Whether the tenant may have that room for chunks too.
    fn can_have(&self, room: &ChunkRoom) -> bool
        ensures can { result ≡ can_have self.now.rooms room.now }
        ensures low { room.now.kib < 2 ^ 32 }
    {
        room.kib > 0 && kib_of(self.rooms.as_slice(), room.tenant) == 0
    }

    // A tenant has that room for chunks too, by line `number`.
    fn give_room(&mut self, told: Option<ChunkRoom>, number: u64) -> Result<(), SetupFault>
        requires { IfSome told (λ room. room.tenant < length self.old.plan.rows) }
        ensures ok { OnOk result (after_has number self.old told ≡ Ok self.new) }
        ensures fault { IfErr result (λ e. IsFirstFault e (after_has number self.old told)) }
    {
        let Some(room) = told else {
            return Err(SetupFault::Chunks(number));
        };
        if !self.can_have(&room) {
            return Err(SetupFault::Chunks(number));
        }
        self.rooms.make_room(1)?;
        self.rooms.push_reserved(room);
        Ok(())
    }

    // Whether the node at the place may be lost too.
    fn can_lose(&self, place: u32) -> bool
        ensures can { result ≡ can_lose self.now.plan self.now.lost place }
        ensures within { result ≡ true → place < MOST_SERVERS }
    {
        let grid = self.plan.grid();
        if place as usize >= grid.servers() || grid.rows() <= 1 {
            return false;
        }
        self.lost.places().len() < MOST_LOSSES && self.lost.times(place as usize) < MOST_TIMES
    }

    // The node at the place that the word tells is lost too, by line `number`.
    fn lose(&mut self, word: &[u8], line: u64) -> Result<(), SetupFault>
        ensures ok { OnOk result (after_loses line self.old (number_of word.now) ≡ Ok self.new) }
        ensures fault { IfErr result (λ e. IsFirstFault e (after_loses line self.old (number_of word.now))) }
    {
        let Some(place) = number(word) else {
            return Err(SetupFault::Replace(line));
        };
        if !self.can_lose(place) {
            return Err(SetupFault::Replace(line));
        }
        add_loss(&mut self.lost, place as u8)?;
        Ok(())
    }

    // The name that the word tells, if a tenant of it may be gone too.
    fn name_to_go(&self, word: &[u8]) -> Option<Name>
        ensures can { is_some result ≡ can_go self.now.plan self.now.gone word.now }
        ensures name { IfSome result (λ name. name ≡ word.now) }
    {
        if self.plan.find_word(word).is_some() || self.is_gone(word) {
            return None;
        }
        if self.gone.len() >= MOST_GONE {
            return None;
        }
        Name::new(word)
    }

    // The tenant of the name that the word tells is gone too, by line `number`.
    fn let_go(&mut self, word: &[u8], number: u64) -> Result<(), SetupFault>
        ensures ok { OnOk result (after_goes number self.old word.now ≡ Ok self.new) }
        ensures fault { IfErr result (λ e. IsFirstFault e (after_goes number self.old word.now)) }
    {
        let Some(name) = self.name_to_go(word) else {
            return Err(SetupFault::Gone(number));
        };
        self.gone.make_room(1)?;
        self.gone.push_reserved(name);
        Ok(())
    }

    // Takes what line `number` says.
    fn take_line(&mut self, alloc: Global, line: &[u8], number: u64) -> Result<(), SetupFault>
        ensures ok { OnOk result (after_line number self.old line.now ≡ Ok self.new) }
        ensures fault { IfErr result (λ e. IsFirstFault e (after_line number self.old line.now)) }
    {
        if let Some(word) = word_behind(b"replace", line) {
            return self.lose(word, number);
        }
        if let Some(word) = word_behind(b"gone", line) {
            return self.let_go(word, number);
        }
        if let Some(room) = room_told(&self.plan, line) {
            return self.give_room(room, number);
        }
        if let Some((opening, times)) = many_told(&self.plan, line) {
            return self.open_many(opening, times, number);
        }
        match read_opening(alloc, &self.plan, line)? {
            Some(opening) => self.open(opening, number),
            None => Err(SetupFault::Live(number)),
        }
    }

    // Takes what the lines say, of which the first has that number.
    fn take_lines(&mut self, alloc: Global, text: &[u8], first: u64) -> Result<(), SetupFault>
        requires { first + length text.now < 2 ^ 64 }
        ensures ok { OnOk result (after_lines first self.old (lines_of text.now) ≡ Ok self.new) }
        ensures fault { IfErr result (λ e. IsFirstFault e (after_lines first self.old (lines_of text.now))) }
    {
        let mut rest = text;
        let mut number = first;
        while !rest.is_empty() {
            let (line, after) = first_line(rest);
            self.take_line(alloc, line, number)?;
            rest = after;
            number += 1;
        }
        Ok(())
    }

    /// The plan.
    pub fn plan(&self) -> &Plan
        ensures { result.now ≡ self.now.plan }
    {
        &self.plan
    }

    /// What is opened, in order: each can be opened behind those before it.
    pub fn openings(&self) -> &[Opening]
        ensures openings { result.now ≡ self.now.openings }
        ensures can { CanOpen (accounts_of self.now.plan) result.now }
    {
        self.openings.as_slice()
    }

    /// Whether some tenant has room for chunks.
    pub fn has_chunks(&self) -> bool
        ensures some { result ≡ true → 0 < length self.now.rooms }
        ensures none { result ≡ false → self.now.rooms ≡ [] }
    {
        !self.rooms.is_empty()
    }

    /// How many KiB of chunks the tenant may have at each server.
    pub fn chunk_kib(&self, tenant: u8) -> u32
        ensures { result ≡ kib_of self.now.rooms tenant }
    {
        kib_of(self.rooms.as_slice(), tenant)
    }

    /// How many bytes of chunks the tenant may have at each server: less than 2^42.
    pub fn chunk_bytes(&self, tenant: u8) -> u64
        ensures { result ≡ kib_of self.now.rooms tenant * 1024 }
    {
        u64::from(self.chunk_kib(tenant)) * 1024
    }

    /// The nodes that were lost, in order: each may be lost where those before it were.
    pub fn lost(&self) -> &Lost
        ensures lost { result.now ≡ self.now.lost }
        ensures can { CanLose self.now.plan [] result.now }
        ensures few { length result.now ≤ MOST_LOSSES }
    {
        &self.lost
    }

    /// How many nodes were lost.
    pub fn losses(&self) -> u16
        ensures { result ≡ length self.now.lost }
    {
        self.lost().places().len() as u16
    }

    /// The names of the tenants that are gone, in order: no tenant of the plan has one.
    pub fn gone(&self) -> &[Name]
        ensures gone { result.now ≡ self.now.gone }
        ensures can { CanGo self.now.plan [] result.now }
    {
        self.gone.as_slice()
    }

    /// Whether a tenant of this name is gone.
    pub fn is_gone(&self, name: &[u8]) -> bool
        ensures { result ≡ is_gone self.now.gone name.now }
    {
        is_gone(self.gone.as_slice(), name)
    }

    /// Whether it is a node of the plan.
    pub fn has_node(&self, number: u32) -> bool
        ensures { result ≡ has_node self.now number }
    {
        let place = number as usize % MOST_SERVERS;
        place < self.plan.grid().servers() && u32::from(self.lost.node_at(place)) == number
    }

    /// The tenant's volumes, in order.
    pub fn volume_rows(&self, tenant: u8) -> &[VolumeRow]
        requires { tenant < length self.now.plan.rows }
        ensures volumes { result.now ≡ (account_at (holdings self.now) tenant).volumes }
        ensures few { length result.now ≤ MOST_VOLUMES }
    {
        self.desk.volumes(tenant)
    }

    /// The blocks of the tenant's share that none of its volumes takes.
    pub fn free(&self, tenant: u8) -> u32
        requires { tenant < length self.now.plan.rows }
        ensures { result ≡ free_of (account_at (holdings self.now) tenant) }
    {
        self.desk.free(tenant)
    }

    /// How many volumes the tenant has once all are opened.
    pub fn volumes(&self, tenant: u8) -> usize
        requires { tenant < length self.now.plan.rows }
        ensures count { result ≡ length (account_at (holdings self.now) tenant).volumes }
        ensures few { result ≤ MOST_VOLUMES }
    {
        self.volume_rows(tenant).len()
    }

    // Appends the lines behind the script, of rooms for chunks, of losses, and of tenants that are gone.
    fn put_behind(&self, out: &mut Vec<u8>) -> Result<(), OutOfMemory>
        ensures ok { OnOk result (out.new.items ≡ out.old.items ++ behind_text self.now) }
        ensures err { OnErr result (Extends out.old.items out.new.items) }
    {
        put_rooms(out, &self.plan, self.rooms.as_slice())?;
        self.put_end(out)
    }

    // Appends the lines of losses, and of tenants that are gone.
    fn put_end(&self, out: &mut Vec<u8>) -> Result<(), OutOfMemory>
        ensures ok { OnOk result (out.new.items ≡ out.old.items ++ (flat_map loss_line self.now.lost ++ flat_map gone_line self.now.gone)) }
        ensures err { OnErr result (Extends out.old.items out.new.items) }
    {
        put_losses(out, self.lost.places())?;
        put_gone(out, self.gone.as_slice())
    }

    // Appends the lines of the canonical text.
    fn put_lines(&self, alloc: Global, out: &mut Vec<u8>) -> Result<(), OutOfMemory>
        ensures ok { OnOk result (out.new.items ≡ out.old.items ++ setup_text self.now) }
        ensures back { OnOk result (setup_of (setup_text self.now) ≡ Ok self.now) }
        ensures err { OnErr result (Extends out.old.items out.new.items) }
    {
        let events = events_of(alloc, self.openings.as_slice())?;
        write_script(&self.plan, events.as_slice(), out)?;
        self.put_behind(out)
    }

    /// Appends the canonical text, which tells the setup again, or nothing where memory is wanting.
    pub fn put_text(&self, alloc: Global, out: &mut Vec<u8>) -> Result<(), OutOfMemory>
        ensures ok { OnOk result (out.new.items ≡ out.old.items ++ setup_text self.now) }
        ensures back { OnOk result (setup_of (setup_text self.now) ≡ Ok self.now) }
        ensures err { OnErr result (out.new.items ≡ out.old.items) }
    {
        let start = out.len();
        let done = self.put_lines(alloc, out);
        if done.is_err() {
            out.truncate(start);
        }
        done
    }

    // What of the old volumes is not kept.
    fn volumes_not_kept(&self, old: &Setup) -> Option<NotKept>
        requires { come_first (row_goes_on self.now.gone) old.now.plan.rows self.now.plan.rows ≡ true }
        ensures kept { is_none result ≡ come_first account_goes_on (holdings_left self.now.gone old.now) (holdings self.now) }
        ensures told { IfSome result (TellsVolume (holdings_left self.now.gone old.now) (holdings self.now)) }
    {
        accounts_not_kept(self.gone.as_slice(), old.plan.rows(), &old.desk, &self.desk)
    }

    // What of the old rooms for chunks is not kept.
    fn rooms_not_kept(&self, old: &Setup) -> Option<NotKept>
        ensures kept { is_none result ≡ rooms_go_on self.now.gone old.now.plan old.now.rooms self.now.rooms }
        ensures told { IfSome result (TellsRoom self.now.gone old.now.plan old.now.rooms self.now.rooms) }
    {
        rooms_not_kept(
            self.gone.as_slice(),
            &old.plan,
            old.rooms.as_slice(),
            self.rooms.as_slice(),
        )
    }

    /// What of the old setup this one does not keep, of the first thing that it does not: the grid, the blocks of a server, the losses in
    /// order, those who were gone in order, the tenants in order with their names, sessions and shares, their volumes in order, and their room
    /// for chunks. Of a tenant that is gone by this one only the sessions count. None where this one goes on from the old one.
    pub fn not_kept(&self, old: &Setup) -> Option<NotKept>
        ensures none { is_none result ≡ goes_on old.now self.now }
        ensures told { IfSome result (IsNotKept old.now self.now) }
    {
        if let Some(what) = servers_not_kept(&old.plan, &self.plan) {
            return Some(what);
        }
        if let Some(what) = losses_not_kept(old.lost.places(), self.lost.places()) {
            return Some(what);
        }
        if let Some(what) = gone_not_kept(old.gone.as_slice(), self.gone.as_slice()) {
            return Some(what);
        }
        if let Some(what) = rows_not_kept(self.gone.as_slice(), old.plan.rows(), self.plan.rows()) {
            return Some(what);
        }
        if let Some(what) = self.volumes_not_kept(old) {
            return Some(what);
        }
        self.rooms_not_kept(old)
    }

    /// Whether a node of the old setup may start with this one: it has the same grid and no fewer blocks of a server, the old losses and those
    /// who were gone first, and the old tenants first, with as many sessions and no smaller shares, of each its old volumes first, and no less
    /// room for chunks. At the place of a tenant that is gone there may be another one, with as many sessions.
    pub fn goes_on_from(&self, old: &Setup) -> bool
        ensures { result ≡ goes_on old.now self.now }
    {
        self.not_kept(old).is_none()
    }
}

// The lines that open the volumes.
fn events_of(alloc: Global, openings: &[Opening]) -> Result<Vec<Event>, OutOfMemory>
    ensures { IfOk result (λ events. events.items ≡ map opening_event openings.now) }
{
    let mut events = Vec::new(alloc);
    for opening in openings {
        events.grow(Event::Tenant {
            tenant: opening.tenant,
            line: Line::NewVolume {
                files: opening.files,
                blocks: opening.blocks,
            },
        })?;
    }
    Ok(events)
}

// The node at the place is lost too, where not too many were.
fn add_loss(lost: &mut Lost, place: u8) -> Result<(), OutOfMemory>
    requires within { place < MOST_SERVERS }
    requires few { times (plan_in lost.old) place < MOST_TIMES }
    ensures added { OnOk result (lost.new ≡ lost.old ++ place ∷ []) }
    ensures same { OnErr result (lost.new ≡ lost.old) }
{
    match lost.add(place) {
        Ok(()) => Ok(()),
        Err(LostRefused::TooOften) => unreachable!(),
        Err(LostRefused::Memory(refused)) => Err(refused),
    }
}

// Appends the line of a room for chunks.
fn put_room(out: &mut Vec<u8>, plan: &Plan, room: ChunkRoom) -> Result<(), OutOfMemory>
    requires { room.tenant < length plan.now.rows }
    ensures ok { OnOk result (out.new.items ≡ out.old.items ++ room_line plan.now room) }
    ensures err { OnErr result (Extends out.old.items out.new.items) }
{
    out.grow_by(plan.row(room.tenant).name.as_bytes())?;
    put_words(
        out,
        &[Piece::Text(b"chunks"), Piece::Number(u64::from(room.kib))],
    )
}

// Appends the lines of rooms for chunks.
fn put_rooms(out: &mut Vec<u8>, plan: &Plan, rooms: &[ChunkRoom]) -> Result<(), OutOfMemory>
    requires { All (λ room. room.tenant < length plan.now.rows) rooms.now }
    ensures ok { OnOk result (out.new.items ≡ out.old.items ++ flat_map (room_line plan.now) rooms.now) }
    ensures err { OnErr result (Extends out.old.items out.new.items) }
{
    for room in rooms {
        put_room(out, plan, *room)?;
    }
    Ok(())
}

// Appends the line of a loss.
fn put_loss(out: &mut Vec<u8>, place: u8) -> Result<(), OutOfMemory>
    ensures ok { OnOk result (out.new.items ≡ out.old.items ++ loss_line place) }
    ensures err { OnErr result (Extends out.old.items out.new.items) }
{
    out.grow_by(b"replace")?;
    put_words(out, &[Piece::Number(u64::from(place))])
}

// Appends the lines of losses.
fn put_losses(out: &mut Vec<u8>, places: &[u8]) -> Result<(), OutOfMemory>
    ensures ok { OnOk result (out.new.items ≡ out.old.items ++ flat_map loss_line places.now) }
    ensures err { OnErr result (Extends out.old.items out.new.items) }
{
    for place in places {
        put_loss(out, *place)?;
    }
    Ok(())
}

// Appends the line of a tenant that is gone.
fn put_one_gone(out: &mut Vec<u8>, name: &Name) -> Result<(), OutOfMemory>
    ensures ok { OnOk result (out.new.items ≡ out.old.items ++ gone_line name.now) }
    ensures err { OnErr result (Extends out.old.items out.new.items) }
{
    out.grow_by(b"gone")?;
    put_words(out, &[Piece::Text(name.as_bytes())])
}

// Appends the lines of tenants that are gone.
fn put_gone(out: &mut Vec<u8>, gone: &[Name]) -> Result<(), OutOfMemory>
    ensures ok { OnOk result (out.new.items ≡ out.old.items ++ flat_map gone_line gone.now) }
    ensures err { OnErr result (Extends out.old.items out.new.items) }
{
    for name in gone {
        put_one_gone(out, name)?;
    }
    Ok(())
}
