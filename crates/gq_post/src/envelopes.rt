//! Envelopes: messages as they lie in channels, their copies apart. What those of a round have in common lies once.

ghost use Rattle.std.specs.Prelude.{◌≡◌, ◌<◌, ◌≤◌, ◌+◌, ◌*◌, ◌++◌, ◌∷◌, [], Some, length, map, slice_get, slice_set, vec_len, vec_capacity, IfSome, IfNone, IfOk, OnOk, OnErr, IsSome};
ghost use Rattle.gq_grid.specs.Grid.{rising};
ghost use Rattle.gq_grid.specs.Sets.{servers};
ghost use Rattle.gq_grid.specs.declared.TheConstants.{MOST_SERVERS};
ghost use Rattle.gq_round.specs.Round.{apart};
ghost use Rattle.gq_tag.specs.View.{body_of};
ghost use Rattle.gq_post.specs.Envelopes.{says_of, says_lost, names_copy, with_body, envelope_of, to_other, answering, lost, envelopes_at, envelope_at};
ghost use Rattle.gq_post.specs.declared.envelopes.Envelope.{Envelope};
ghost use Rattle.gq_post.specs.Slips.{heading_of, slip_of, slip_to, opened};

use gq_grid::{Grid, ServerSet};
use gq_memory::{GrowPlaces, OutOfMemory, RoomInVec};
use gq_tag::{Body, BodyView, FileId, Message, MessageView};
use std::alloc::Global;
use std::marker::Model;

// What an envelope says.
#[derive(Clone, Copy)]
pub(crate) enum Says {
    Lost,
    Ask,
    Copy,
    Store,
    Stored,
}

impl Says {
    pub(crate) fn of(body: &Body) -> Says
        ensures { result ≡ says_of body.now }
    {
        match body {
            Body::Ask => Says::Ask,
            Body::Copy(_) => Says::Copy,
            Body::Store(_) => Says::Store,
            Body::Stored => Says::Stored,
        }
    }

    fn is_lost(self) -> bool
        ensures { result ≡ says_lost self }
    {
        matches!(self, Says::Lost)
    }

    pub(crate) fn names_copy(self) -> bool
        ensures { result ≡ names_copy self }
    {
        matches!(self, Says::Copy | Says::Store)
    }
}

// A message without its copy.
#[derive(Clone, Copy)]
pub(crate) struct Envelope {
    pub(crate) op: u32,
    pub(crate) round: u32,
    pub(crate) volume: u32,
    pub(crate) file: u32,
    // where the copy lies, if it says one
    pub(crate) place: u32,
    pub(crate) tenant: u8,
    pub(crate) file_tenant: u8,
    pub(crate) session: u8,
    pub(crate) server: u8,
    pub(crate) says: Says,
}

impl Envelope {
    // The message's envelope, its copy at the place.
    pub(crate) fn of(message: &Message, place: u32) -> Envelope
        ensures { result ≡ envelope_of message.now place }
    {
        Envelope {
            op: message.op,
            round: message.round,
            volume: message.file.volume,
            file: message.file.file,
            place,
            tenant: message.tenant,
            file_tenant: message.file.tenant,
            session: message.session,
            server: message.server,
            says: Says::of(&message.body),
        }
    }

    // The message that says this.
    #[inline(always)]
    pub(crate) fn with_body<'a>(&self, body: BodyView<'a>) -> MessageView<'a>
        ensures { result ≡ with_body self.now (body_of body.entry) }
    {
        MessageView {
            tenant: self.tenant,
            session: self.session,
            op: self.op,
            round: self.round,
            server: self.server,
            file: FileId {
                tenant: self.file_tenant,
                volume: self.volume,
                file: self.file,
            },
            body,
        }
    }
}

// What the envelopes of a round, and the answers to them, have in common. It takes 20 bytes.
#[derive(Clone, Copy)]
pub(crate) struct Heading {
    pub(crate) op: u32,
    pub(crate) round: u32,
    pub(crate) volume: u32,
    pub(crate) file: u32,
    pub(crate) tenant: u8,
    pub(crate) file_tenant: u8,
    pub(crate) session: u8,
}

impl Heading {
    fn of(envelope: Envelope) -> Heading
        ensures { result ≡ heading_of envelope }
    {
        Heading {
            op: envelope.op,
            round: envelope.round,
            volume: envelope.volume,
            file: envelope.file,
            tenant: envelope.tenant,
            file_tenant: envelope.file_tenant,
            session: envelope.session,
        }
    }
}

// An envelope as it lies in its channel: what is its own, and the place of its heading. It takes 12 bytes.
#[derive(Clone, Copy)]
pub(crate) struct Slip {
    pub(crate) heading: u32,
    pub(crate) place: u32,
    pub(crate) server: u8,
    pub(crate) says: Says,
}

impl Slip {
    // The envelope's slip under the heading at the place.
    fn of(envelope: Envelope, heading: u32) -> Slip
        ensures { result ≡ slip_of envelope heading }
    {
        Slip {
            heading,
            place: envelope.place,
            server: envelope.server,
            says: envelope.says,
        }
    }
}

// The envelope of the slip.
#[inline(always)]
fn opened(headings: &[Heading], slip: Slip) -> Envelope
    requires { slip.heading < length headings.now }
    ensures { result ≡ opened headings.now slip }
{
    let heading = headings[slip.heading as usize];
    Envelope {
        op: heading.op,
        round: heading.round,
        volume: heading.volume,
        file: heading.file,
        place: slip.place,
        tenant: heading.tenant,
        file_tenant: heading.file_tenant,
        session: heading.session,
        server: slip.server,
        says: slip.says,
    }
}

// The slip to each server of the grid that is in the one set and not in the other; answers to how many.
fn push_slips(
    slips: &mut Vec<Slip>,
    slip: Slip,
    grid: &Grid,
    to: ServerSet,
    except: ServerSet,
) -> usize
    requires { vec_len slips.old + grid.now.rows * grid.now.cols ≤ vec_capacity slips.old }
    ensures count { result ≡ length (rising grid.now (apart (servers to) (servers except))) }
    ensures few { result ≤ MOST_SERVERS }
    ensures pushed { slips.new.items ≡ slips.old.items ++ map (slip_to slip) (rising grid.now (apart (servers to) (servers except))) }
{
    let mut count = 0;
    for server in 0..grid.servers() {
        if to.has(server) && !except.has(server) {
            slips.push_reserved(Slip {
                server: server as u8,
                ..slip
            });
            count += 1;
        }
    }
    count
}

// The envelopes of a tenant in order of sending, lost ones included.
#[derive(Drop)]
pub(crate) struct Envelopes {
    headings: Vec<Heading>,
    slips: Vec<Slip>,
}

impl Model for Envelopes {
    ghost use Rattle.std.specs.Prelude.{List, map};
    ghost use Rattle.gq_post.specs.declared.envelopes.Envelope.{Envelope};
    ghost use Rattle.gq_post.specs.Slips.{opened, HaveHeadings};

    ghost Value = { List Envelope };

    ghost view = { λ l. map (opened l.headings.items) l.slips.items };

    ghost invariant = { λ l. HaveHeadings l.headings.items l.slips.items };
}

impl Envelopes {
    pub(crate) fn new(alloc: Global) -> Envelopes
        ensures { result ≡ [] }
    {
        Envelopes {
            headings: Vec::new(alloc),
            slips: Vec::new(alloc),
        }
    }

    pub(crate) fn count(&self) -> usize
        ensures { result ≡ length self.now }
    {
        self.slips.len()
    }

    // The envelope of this number, or none where it was never sent or is lost.
    #[inline(always)]
    pub(crate) fn envelope(&self, number: u64) -> Option<Envelope>
        ensures { result ≡ envelope_at self.now number }
    {
        let slip = self.slips.get(number as usize).copied()?;
        if slip.says.is_lost() {
            return None;
        }
        Some(opened(self.headings.as_slice(), slip))
    }

    // Sends an envelope under a heading of its own.
    fn push(&mut self, envelope: Envelope) -> Result<(), OutOfMemory>
        ensures ok { OnOk result (self.new ≡ self.old ++ envelope ∷ []) }
        ensures err { OnErr result (self.new ≡ self.old) }
    {
        self.slips.make_room(1)?;
        let heading = self.headings.grow_place(Heading::of(envelope))?;
        self.slips.push_reserved(Slip::of(envelope, heading));
        Ok(())
    }

    // Sends an answer to the envelope of this number, under the same heading.
    #[inline(always)]
    fn push_answer(&mut self, number: u64, says: Says, place: u32) -> Result<(), OutOfMemory>
        requires { number < length self.old }
        ensures ok { OnOk result ((asked : Envelope) → slice_get self.old number ≡ Some asked → self.new ≡ self.old ++ answering asked says place ∷ []) }
        ensures err { OnErr result (self.new ≡ self.old) }
    {
        self.slips.make_room(1)?;
        let asked = self.slips[number as usize];
        self.slips.push_reserved(Slip {
            place,
            says,
            ..asked
        });
        Ok(())
    }

    // The envelope to each server of the grid that is in the one set and not in the other; answers to how many.
    fn push_round(
        &mut self,
        envelope: Envelope,
        grid: &Grid,
        to: ServerSet,
        except: ServerSet,
    ) -> Result<usize, OutOfMemory>
        ensures count { IfOk result (λ count. count ≡ length (rising grid.now (apart (servers to) (servers except)))) }
        ensures few { IfOk result (λ count. count ≤ MOST_SERVERS) }
        ensures ok { OnOk result (self.new ≡ self.old ++ map (to_other envelope) (rising grid.now (apart (servers to) (servers except)))) }
        ensures err { OnErr result (self.new ≡ self.old) }
    {
        self.slips.make_room(grid.servers())?;
        let heading = self.headings.grow_place(Heading::of(envelope))?;
        let slip = Slip::of(envelope, heading);
        Ok(push_slips(&mut self.slips, slip, grid, to, except))
    }

    // Loses the envelope of this number, if there is one, and answers it.
    fn lose(&mut self, number: u64) -> Option<Envelope>
        ensures envelope { result ≡ envelope_at self.old number }
        ensures some { IfSome result (λ envelope. self.new ≡ slice_set self.old number (lost envelope)) }
        ensures none { IfNone result (self.new ≡ self.old) }
    {
        let slip = self.slips.get(number as usize).copied()?;
        if slip.says.is_lost() {
            return None;
        }
        self.slips[number as usize] = Slip {
            says: Says::Lost,
            ..slip
        };
        Some(opened(self.headings.as_slice(), slip))
    }
}

// Sends the tenant's envelope, and answers its number.
pub(crate) fn push(
    channels: &mut Vec<Envelopes>,
    tenant: u8,
    envelope: Envelope,
) -> Result<u64, OutOfMemory>
    requires { tenant < length channels.old.items }
    ensures number { IfOk result (λ number. number ≡ length (envelopes_at channels.old.items tenant)) }
    ensures ok { OnOk result (channels.new.items ≡ slice_set channels.old.items tenant (envelopes_at channels.old.items tenant ++ envelope ∷ [])) }
    ensures err { OnErr result (channels.new.items ≡ channels.old.items) }
{
    let channel = &mut channels[tenant as usize];
    let number = channel.count();
    channel.push(envelope)?;
    Ok(number as u64)
}

// Sends the tenant's envelope to each server of the grid that is in the one set and not in the other; answers to how many.
pub(crate) fn push_round(
    channels: &mut Vec<Envelopes>,
    tenant: u8,
    envelope: Envelope,
    grid: &Grid,
    to: ServerSet,
    except: ServerSet,
) -> Result<usize, OutOfMemory>
    requires { tenant < length channels.old.items }
    ensures count { IfOk result (λ count. count ≡ length (rising grid.now (apart (servers to) (servers except)))) }
    ensures few { IfOk result (λ count. count ≤ MOST_SERVERS) }
    ensures ok { OnOk result (channels.new.items ≡ slice_set channels.old.items tenant (envelopes_at channels.old.items tenant ++ map (to_other envelope) (rising grid.now (apart (servers to) (servers except))))) }
    ensures err { OnErr result (channels.new.items ≡ channels.old.items) }
{
    channels[tenant as usize].push_round(envelope, grid, to, except)
}

// Sends an answer to the tenant's envelope of this number, and answers the number of the answer.
#[inline(always)]
pub(crate) fn push_answer(
    channels: &mut Vec<Envelopes>,
    tenant: u8,
    number: u64,
    says: Says,
    place: u32,
) -> Result<u64, OutOfMemory>
    requires tenant { tenant < length channels.old.items }
    requires there { IsSome (envelope_at (envelopes_at channels.old.items tenant) number) }
    ensures number { IfOk result (λ number. number ≡ length (envelopes_at channels.old.items tenant)) }
    ensures ok { OnOk result ((asked : Envelope) → envelope_at (envelopes_at channels.old.items tenant) number ≡ Some asked →
        channels.new.items ≡ slice_set channels.old.items tenant (envelopes_at channels.old.items tenant ++ answering asked says place ∷ [])) }
    ensures err { OnErr result (channels.new.items ≡ channels.old.items) }
{
    let channel = &mut channels[tenant as usize];
    let count = channel.count();
    channel.push_answer(number, says, place)?;
    Ok(count as u64)
}

// Loses the tenant's envelope of this number; none where it was never sent or is lost already.
pub(crate) fn lose(channels: &mut Vec<Envelopes>, tenant: u8, number: u64) -> Option<Envelope>
    requires { tenant < length channels.old.items }
    ensures envelope { result ≡ envelope_at (envelopes_at channels.old.items tenant) number }
    ensures some { IfSome result (λ envelope. channels.new.items ≡ slice_set channels.old.items tenant (slice_set (envelopes_at channels.old.items tenant) number (lost envelope))) }
    ensures none { IfNone result (channels.new.items ≡ channels.old.items) }
{
    channels[tenant as usize].lose(number)
}
