//! Messages in channels, one channel for each tenant, and their copies in one slab for all.

ghost use Rattle.std.specs.Prelude.{◌≡◌, ◌<◌, ◌++◌, ◌∷◌, [], Some, None, false, is_some, length, map, replicate, slice_set, slice_index_or, IsSome, IfOk, IfErr, OnOk, OnErr};
ghost use Rattle.gq_tag.specs.declared.Message.{Message};
ghost use Rattle.gq_tag.specs.declared.Body.TheVariants as Body;
ghost use Rattle.gq_post.specs.Channels.{channel_at, message_at};

use crate::copies::{self, SharedCopy};
use crate::envelopes::{self, Envelope, Envelopes, Says};
use bytes::Bytes;
use gq_memory::{GrowSlab, GrowVec, OutOfMemory, copied_bytes};
use gq_round::{Messages, RoundMessage};
use gq_tag::{Body, Message, MessageView, StoredCopy, Tag};
use slab::Slab;
use std::alloc::Global;
use std::marker::Model;
use thiserror::Error;

/// Memory is wanting, and the message was not sent. It comes back.
#[derive(Debug, Drop, Error)]
#[error("out of memory")]
pub struct Unsent {
    pub message: Message,
    pub refused: OutOfMemory,
}

/// A reply that was sent: its number, and a hint at where its copy lies.
#[derive(Clone, Copy)]
pub struct CopySent {
    pub number: u64,
    pub hint: u32,
}

/// Messages of a round that were sent: the number of the first, and how many they are.
#[derive(Clone, Copy)]
pub struct RoundSent {
    pub first: u64,
    pub count: u32,
}

/// The messages of all tenants: for each tenant a channel of its messages in order of sending, numbered from 0. A message stays
/// until it is lost; its number is then nobody's. Messages may share a copy, whose place serves the next message of any
/// tenant once the last of them is lost.
#[derive(Drop)]
pub struct Post {
    copies: Slab<SharedCopy>,
    channels: Vec<Envelopes>,
    alloc: Global,
}

impl Model for Post {
    ghost use Rattle.std.specs.Prelude.{List, map};
    ghost use Rattle.gq_post.specs.Channels.{Channel};
    ghost use Rattle.gq_post.specs.Copies.{Counted, channel_of};

    ghost Value = { List Channel };

    ghost view = { λ p. map (channel_of p.copies.slots) p.channels.items };

    ghost invariant = { λ p. Counted p.copies.slots p.channels.items };
}

impl Post {
    /// The post of so many tenants, each with an empty channel.
    pub fn new(alloc: Global, tenants: usize) -> Result<Post, OutOfMemory>
        ensures { IfOk result (λ post. post ≡ replicate tenants []) }
    {
        let copies = Slab::new(alloc);
        let mut channels = Vec::new(alloc);
        for _tenant in 0..tenants {
            channels.grow(Envelopes::new(alloc))?;
        }
        Ok(Post {
            copies,
            channels,
            alloc,
        })
    }

    /// Sends a message of the tenant, and answers its number, which is how many the tenant sent before. Where memory is
    /// wanting nothing changes.
    pub fn send(&mut self, tenant: u8, message: Message) -> Result<u64, Unsent>
        requires { tenant < length self.old }
        ensures number { IfOk result (λ number. number ≡ length (channel_at self.old tenant)) }
        ensures sent { OnOk result (self.new ≡ slice_set self.old tenant (channel_at self.old tenant ++ Some message ∷ [])) }
        ensures back { IfErr result (λ unsent. unsent.message ≡ message) }
        ensures same { OnErr result (self.new ≡ self.old) }
    {
        let place = match self.copies.make_place() {
            Ok(place) => place,
            Err(refused) => return Err(Unsent { message, refused }),
        };
        let envelope = Envelope::of(&message, place);
        let number = match envelopes::push(&mut self.channels, tenant, envelope) {
            Ok(number) => number,
            Err(refused) => return Err(Unsent { message, refused }),
        };
        copies::keep(&mut self.copies, message.body, 1);
        Ok(number)
    }

    /// Sends a round's messages of the tenant in order, and answers the number of the first, and how many they are. Their
    /// copy is there once. Where memory is wanting nothing changes.
    pub fn send_all(&mut self, tenant: u8, messages: Messages) -> Result<RoundSent, OutOfMemory>
        requires { tenant < length self.old }
        ensures first { IfOk result (λ sent. sent.first ≡ length (channel_at self.old tenant)) }
        ensures count { IfOk result (λ sent. sent.count ≡ length messages) }
        ensures sent { OnOk result (self.new ≡ slice_set self.old tenant (channel_at self.old tenant ++ map Some messages)) }
        ensures same { OnErr result (self.new ≡ self.old) }
    {
        let Messages {
            message,
            grid,
            to,
            except,
        } = messages;
        let RoundMessage {
            who,
            round,
            file,
            body,
        } = message;
        let place = self.copies.make_place()?;
        let envelope = Envelope {
            op: who.op,
            round,
            volume: file.volume,
            file: file.file,
            place,
            tenant: who.tenant,
            file_tenant: file.tenant,
            session: who.session,
            server: 0,
            says: Says::of(&body),
        };
        let first = self.channels[tenant as usize].count();
        let users = envelopes::push_round(&mut self.channels, tenant, envelope, &grid, to, except)?;
        copies::keep(&mut self.copies, body, users);
        Ok(RoundSent {
            first: first as u64,
            count: users as u32,
        })
    }

    /// Sends the answer `stored` to the tenant's message of this number, in the same round, and answers the number of
    /// the answer. Where memory is wanting nothing changes.
    #[inline(always)]
    pub fn reply_stored(&mut self, tenant: u8, number: u64) -> Result<u64, OutOfMemory>
        requires tenant { tenant < length self.old }
        requires there { IsSome (message_at (channel_at self.old tenant) number) }
        ensures number { IfOk result (λ sent. sent ≡ length (channel_at self.old tenant)) }
        ensures sent { OnOk result ((message : Message) → message_at (channel_at self.old tenant) number ≡ Some message → self.new ≡ slice_set self.old tenant (channel_at self.old tenant ++ Some (record message { body = Body.Stored }) ∷ [])) }
        ensures same { OnErr result (self.new ≡ self.old) }
    {
        let number = envelopes::push_answer(&mut self.channels, tenant, number, Says::Stored, 0)?;
        Ok(number)
    }

    /// Sends the tenant's message of this number the answer with a copy of that tag and content, in the same round.
    /// `hint` is where an equal copy may lie: it is looked at, and shared where it is equal. Where memory is wanting
    /// nothing changes.
    #[inline(always)]
    pub fn reply_copy(
        &mut self,
        tenant: u8,
        number: u64,
        tag: Tag,
        bytes: &[u8],
        hint: u32,
    ) -> Result<CopySent, OutOfMemory>
        requires tenant { tenant < length self.old }
        requires there { IsSome (message_at (channel_at self.old tenant) number) }
        ensures number { IfOk result (λ sent. sent.number ≡ length (channel_at self.old tenant)) }
        ensures sent { OnOk result ((message : Message) → message_at (channel_at self.old tenant) number ≡ Some message → self.new ≡ slice_set self.old tenant (channel_at self.old tenant ++ Some (record message { body = Body.Copy (record { tag = tag; bytes = bytes.now }) }) ∷ [])) }
        ensures same { OnErr result (self.new ≡ self.old) }
    {
        if copies::can_share(&self.copies, hint, tag, bytes) {
            let number = envelopes::push_answer(
                &mut self.channels,
                tenant,
                number,
                Says::Copy,
                hint,
            )?;
            copies::add_user(&mut self.copies, hint);
            return Ok(CopySent { number, hint });
        }
        self.reply_own_copy(tenant, number, tag, bytes)
    }

    // The same, with a copy that is made for it.
    fn reply_own_copy(
        &mut self,
        tenant: u8,
        number: u64,
        tag: Tag,
        bytes: &[u8],
    ) -> Result<CopySent, OutOfMemory>
        requires tenant { tenant < length self.old }
        requires there { IsSome (message_at (channel_at self.old tenant) number) }
        ensures number { IfOk result (λ sent. sent.number ≡ length (channel_at self.old tenant)) }
        ensures sent { OnOk result ((message : Message) → message_at (channel_at self.old tenant) number ≡ Some message → self.new ≡ slice_set self.old tenant (channel_at self.old tenant ++ Some (record message { body = Body.Copy (record { tag = tag; bytes = bytes.now }) }) ∷ [])) }
        ensures same { OnErr result (self.new ≡ self.old) }
    {
        let bytes = copied_bytes(self.alloc, bytes)?;
        let hint = self.copies.make_place()?;
        let number = envelopes::push_answer(&mut self.channels, tenant, number, Says::Copy, hint)?;
        copies::keep(&mut self.copies, Body::Copy(StoredCopy { tag, bytes }), 1);
        Ok(CopySent { number, hint })
    }

    /// The tenant's message of this number, or none where it was never sent or is lost. Its copy is lent.
    #[inline(always)]
    pub fn get(&self, tenant: u8, number: u64) -> Option<MessageView<'_>>
        requires { tenant < length self.now }
        ensures { result ≡ message_at (channel_at self.now tenant) number }
    {
        let envelope = self.channels[tenant as usize].envelope(number)?;
        let body = copies::body_said(&self.copies, envelope)?;
        Some(envelope.with_body(body))
    }

    /// A hint at where the message's copy lies, for `reply_copy`; any number where it has none.
    pub fn hint(&self, tenant: u8, number: u64) -> u32
        requires { tenant < length self.now }
    {
        match self.channels[tenant as usize].envelope(number) {
            Some(envelope) => envelope.place,
            None => 0,
        }
    }

    /// Loses the tenant's message of this number, and answers whether there was one to lose.
    pub fn lose(&mut self, tenant: u8, number: u64) -> bool
        requires { tenant < length self.old }
        ensures was { result ≡ is_some (message_at (channel_at self.old tenant) number) }
        ensures lost { self.new ≡ slice_set self.old tenant (slice_set (channel_at self.old tenant) number None) }
        ensures none { result ≡ false → self.new ≡ self.old }
    {
        let Some(envelope) = envelopes::lose(&mut self.channels, tenant, number) else {
            return false;
        };
        if envelope.says.names_copy() {
            copies::remove_user(&mut self.copies, envelope.place);
        }
        true
    }

    /// How many messages the tenant sent, lost ones included: the number of its next one.
    pub fn sent(&self, tenant: u8) -> u64
        requires { tenant < length self.now }
        ensures { result ≡ length (channel_at self.now tenant) }
    {
        self.channels[tenant as usize].count() as u64
    }
}
