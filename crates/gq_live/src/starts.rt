//! What the threads of a live run start with.
ghost use Rattle.std.specs.Prelude.{◌≡◌, ◌≢◌, ◌<◌, All, IfOk, IfErr, OnOk, Some, None, true, length};
ghost use Rattle.std.specs.List.{list_all};
ghost use Rattle.gq_desk.specs.Volumes.{is_sized};
ghost use Rattle.gq_desk.specs.declared.limits.TheConstants.{MOST_FILE_BLOCKS};
ghost use Rattle.gq_session.specs.Faults.{NoGate};
ghost use Rattle.gq_session.specs.Fitting.{IsRequest, IsTenants};
ghost use Rattle.gq_live.specs.Openings.{TellsOfVolume, desk_with, opening_fault, place_if, refused_volume};

use crossbeam_channel::{Receiver, Sender};
use gq_cell::Letter;
use gq_desk::{Desk, OpenRefused, Plan, VolumeRow};
use gq_memory::{
    GrowVec, OutOfMemory, RoomInVec, channel, room_for, send, sender_copied, slice_copied,
};
use gq_model::Line;
use gq_session::{Gate, Lines, LiveFault, Opening, Schedule};
use std::alloc::Global;
use std::sync::{Mutex, Wait};

// Sends a letter or a note to a mailbox. To one that is closed it is dropped.
pub(crate) fn post<T: Drop, R: Wait>(rt: &R, to: &Sender<T>, sent: T) -> Result<(), LiveFault>
    ensures { NoGate result }
{
    send(rt, to, sent)?;
    Ok(())
}

// ---- servers

/// The next change of the list is to be done. It is done, or given up, once `done` is heard or dropped.
#[derive(Drop)]
pub(crate) struct Order {
    pub done: Sender<()>,
}

/// The ends of channels that a server owns.
#[derive(Drop)]
pub(crate) struct ServerInbox {
    pub letters: Receiver<Letter>,
    pub orders: Receiver<Order>,
}

/// What a server's threads share.
#[derive(Drop)]
pub(crate) struct Site<'a, G: Gate> {
    pub server: u8,
    pub plan: &'a Plan,
    pub volumes: &'a [Opening],
    pub gate: &'a G,
    pub schedule: &'a Mutex<Schedule>,
    pub mailboxes: &'a Mailboxes,
}

/// All ends of the servers' channels: to send letters, to send orders, and what each server owns.
#[derive(Drop)]
pub(crate) struct ServerChannels {
    pub letters: Vec<Sender<Letter>>,
    pub orders: Vec<Sender<Order>>,
    pub inboxes: Vec<ServerInbox>,
}

impl ServerChannels {
    // The channels of so many servers.
    pub(crate) fn new(alloc: Global, servers: usize) -> Result<ServerChannels, OutOfMemory> {
        let mut all = ServerChannels {
            letters: Vec::new(alloc),
            orders: Vec::new(alloc),
            inboxes: Vec::new(alloc),
        };
        for _ in 0..servers {
            let (letter, letters) = channel(alloc)?;
            let (order, orders) = channel(alloc)?;
            all.letters.grow(letter)?;
            all.orders.grow(order)?;
            all.inboxes.grow(ServerInbox { letters, orders })?;
        }
        Ok(all)
    }
}

// A site for each server.
pub(crate) fn sites<'x, G: Gate>(
    alloc: Global,
    plan: &'x Plan,
    volumes: &'x [Opening],
    gate: &'x G,
    schedule: &'x Mutex<Schedule>,
    mailboxes: &'x Mailboxes,
) -> Result<Vec<Site<'x, G>>, OutOfMemory> {
    let mut all = Vec::new(alloc);
    for server in 0..plan.grid().servers() {
        all.grow(Site {
            server: server as u8,
            plan,
            volumes,
            gate,
            schedule,
            mailboxes,
        })?;
    }
    Ok(all)
}

// ---- sessions

/// What comes to a session.
#[derive(Drop)]
pub(crate) enum Note {
    /// A reply.
    Letter(Letter),
    /// Its own letter, which a server that is down returned.
    Returned(Letter),
    /// The run is over.
    Quit,
}

/// The mailboxes of the sessions, tenant by tenant.
#[derive(Drop)]
pub(crate) struct Mailboxes {
    pub tenants: Vec<Vec<Sender<Note>>>,
}

impl Mailboxes {
    // The mailbox of the tenant's session of that number, from 1.
    pub(crate) fn of(&self, tenant: u8, session: u8) -> Option<&Sender<Note>> {
        if session == 0 {
            return None;
        }
        let sessions = self.tenants.get(tenant as usize)?;
        sessions.get(session as usize - 1)
    }

    // Tells every session to quit. A mailbox with notes in it takes one more as far as memory lasts.
    pub(crate) fn quit<R: Wait>(&self, rt: &R) {
        for sessions in &self.tenants {
            for to in sessions {
                let _ = post(rt, to, Note::Quit);
            }
        }
    }
}

/// What a session's thread owns: its place among all sessions, its tenant with the tenant's volumes, its number among the
/// tenant's, its requests, its mailbox, and the servers' mailboxes.
#[derive(Drop)]
pub(crate) struct SessionState {
    pub place: usize,
    pub tenant: u8,
    pub number: u8,
    pub volumes: Vec<VolumeRow>,
    pub lines: Vec<Line>,
    pub inbox: Receiver<Note>,
    pub servers: Vec<Sender<Letter>>,
    pub ghost sized: { list_all (is_sized MOST_FILE_BLOCKS) volumes.items ≡ true },
    pub ghost requests: { All IsRequest lines.items },
}

/// The session states of all sessions, and their mailboxes.
#[derive(Drop)]
pub(crate) struct SessionStates {
    pub session_states: Vec<SessionState>,
    pub mailboxes: Mailboxes,
}

// Copies the ends of channels.
fn copy_senders(
    alloc: Global,
    ends: &[Sender<Letter>],
) -> Result<Vec<Sender<Letter>>, OutOfMemory> {
    let mut all = Vec::new(alloc);
    for end in ends {
        all.grow(sender_copied(end)?)?;
    }
    Ok(all)
}

// Copies requests.
fn copy_lines(alloc: Global, lines: &[Line]) -> Result<Vec<Line>, OutOfMemory>
    ensures { IfOk result (λ copy. copy.items ≡ lines.now) }
{
    let mut all = room_for(alloc, lines.len())?;
    for line in lines {
        all.grow(line.share()?)?;
    }
    Ok(all)
}

// Opens the volume at that place.
fn open_one(desk: &mut Desk, opening: Opening, place: usize) -> Result<(), LiveFault>
    requires { opening.tenant < length desk.old }
    ensures ok { OnOk result (opening_fault desk.old opening ≡ None) }
    ensures desk { OnOk result (desk.new ≡ desk_with desk.old opening) }
    ensures fault { IfErr result (λ fault. fault ≢ LiveFault.Memory tt → place_if place (opening_fault desk.old opening) ≡ Some place) }
    ensures volume { IfErr result (λ fault. fault ≢ LiveFault.Memory tt → fault ≡ LiveFault.Volume place) }
{
    match desk.open_volume(opening.tenant, opening.files, opening.blocks) {
        Ok(_) => Ok(()),
        Err(OpenRefused::Memory(refused)) => Err(LiveFault::Memory(refused)),
        Err(_) => Err(LiveFault::Volume(place)),
    }
}

// Opens all volumes, in order.
pub(crate) fn open_all(alloc: Global, plan: &Plan, volumes: &[Opening]) -> Result<Desk, LiveFault>
    requires { IsTenants (length plan.now.rows) volumes.now }
    ensures tenants { IfOk result (λ desk. length desk ≡ length plan.now.rows) }
    ensures opens { OnOk result (refused_volume plan.now volumes.now ≡ None) }
    ensures volume { IfErr result (TellsOfVolume plan.now volumes.now) }
    ensures gate { NoGate result }
{
    let mut desk = Desk::new(alloc, plan)?;
    for place in 0..volumes.len() {
        open_one(&mut desk, volumes[place], place)?;
    }
    Ok(desk)
}

// A mailbox that had a note keeps room for one: a session that waits can be told to quit where memory is wanting.
fn make_room<R: Wait>(rt: &R, to: &Sender<Note>, inbox: &Receiver<Note>) -> Result<(), LiveFault>
    ensures { NoGate result }
{
    post(rt, to, Note::Quit)?;
    match inbox.recv(rt) {
        Ok(_) => Ok(()),
        Err(_) => Err(LiveFault::Letter),
    }
}

// A session state for a session of the tenant, and its mailbox.
fn make_session_state<R: Wait>(
    rt: &R,
    alloc: Global,
    desk: &Desk,
    place: usize,
    tenant: u8,
    number: u8,
    program: &Lines,
    servers: &[Sender<Letter>],
) -> Result<(SessionState, Sender<Note>), LiveFault>
    requires desk { tenant < length desk.now }
    requires requests { All IsRequest program.now }
    ensures { NoGate result }
{
    let (to, inbox) = channel(alloc)?;
    make_room(rt, &to, &inbox)?;
    let volumes = slice_copied(alloc, desk.volumes(tenant))?;
    let lines = copy_lines(alloc, program.items.as_slice())?;
    let servers = copy_senders(alloc, servers)?;
    let session_state = SessionState {
        place,
        tenant,
        number,
        volumes,
        lines,
        inbox,
        servers,
    };
    Ok((session_state, to))
}

// Adds a session state for each session of the tenant, and their mailboxes.
fn add_session_states<R: Wait>(
    rt: &R,
    alloc: Global,
    plan: &Plan,
    desk: &Desk,
    tenant: u8,
    programs: &[Lines],
    servers: &[Sender<Letter>],
    all: &mut SessionStates,
) -> Result<(), LiveFault>
    requires plan { tenant < length plan.now.rows }
    requires desk { tenant < length desk.now }
    requires requests { All (All IsRequest) programs.now }
    ensures { NoGate result }
{
    let mut mailboxes = Vec::new(alloc);
    for number in 1..=plan.row(tenant).sessions {
        let place = all.session_states.len();
        let Ok(number) = u8::try_from(number) else {
            return Err(LiveFault::Letter);
        };
        if place >= programs.len() {
            return Err(LiveFault::Letter);
        }
        mailboxes.make_room(1)?;
        all.session_states.make_room(1)?;
        let (session_state, to) = make_session_state(
            rt,
            alloc,
            desk,
            place,
            tenant,
            number,
            &programs[place],
            servers,
        )?;
        mailboxes.push_reserved(to);
        all.session_states.push_reserved(session_state);
    }
    all.mailboxes.tenants.make_room(1)?;
    all.mailboxes.tenants.push_reserved(mailboxes);
    Ok(())
}

// A session state for each session of the plan, and their mailboxes.
pub(crate) fn all_session_states<R: Wait>(
    rt: &R,
    alloc: Global,
    plan: &Plan,
    desk: &Desk,
    programs: &[Lines],
    servers: &[Sender<Letter>],
) -> Result<SessionStates, LiveFault>
    requires desk { length desk.now ≡ length plan.now.rows }
    requires requests { All (All IsRequest) programs.now }
    ensures { NoGate result }
{
    let mut all = SessionStates {
        session_states: Vec::new(alloc),
        mailboxes: Mailboxes {
            tenants: Vec::new(alloc),
        },
    };
    for tenant in 0..plan.tenants() {
        add_session_states(
            rt,
            alloc,
            plan,
            desk,
            tenant as u8,
            programs,
            servers,
            &mut all,
        )?;
    }
    Ok(all)
}
