//! What a round of an operation sends: one message, to each server of a quorum.
#![tactic(auto)]

ghost use Rattle.std.specs.Prelude.{◌≡◌, ◌≤◌, [], IfOk, length, map, option_map};
ghost use Rattle.gq_grid.specs.declared.TheConstants.{MOST_SERVERS};
ghost use Rattle.gq_grid.specs.Sets.{servers};
ghost use Rattle.gq_round.specs.Round.{sent_to};

use gq_grid::{Grid, ServerSet};
use gq_memory::{GrowVec, OutOfMemory};
use gq_tag::{Body, FileId, Message};
use std::alloc::Global;
use std::marker::Model;

/// Whose operation it is: the tenant's place in the plan (from 0), the number of the tenant's session (from 1), and
/// the number of the session's operation (from 1).
#[derive(Clone, Copy, Debug, PartialEq, Eq)]
pub struct Who {
    pub tenant: u8,
    pub session: u8,
    pub op: u32,
}

/// What the messages of a round have in common: all but the server that each goes to. Rounds are numbered from 1.
#[derive(Debug, Drop)]
pub struct RoundMessage {
    pub who: Who,
    pub round: u32,
    pub file: FileId,
    pub body: Body,
}

/// A round's messages: its message to each server of the grid that is in one set and not in another. Contracts see the
/// messages, in rising number of their servers; what they have in common is there once.
#[derive(Debug, Drop)]
pub struct Messages {
    pub message: RoundMessage,
    pub grid: Grid,
    pub to: ServerSet,
    pub except: ServerSet,
}

impl Model for Messages {
    ghost use Rattle.std.specs.Prelude.{List, map};
    ghost use Rattle.gq_grid.specs.Grid.{rising};
    ghost use Rattle.gq_grid.specs.Sets.{servers};
    ghost use Rattle.gq_tag.specs.declared.Message.{Message};
    ghost use Rattle.gq_round.specs.Round.{addressed, apart};

    ghost Value = { List Message };

    ghost view = { λ b. map (addressed b.message) (rising b.grid (apart (servers b.to) (servers b.except))) };
}

impl Messages {
    /// No messages.
    pub fn none(grid: &Grid) -> Messages
        ensures { result ≡ [] }
    {
        let who = Who {
            tenant: 0,
            session: 0,
            op: 0,
        };
        let file = FileId {
            tenant: 0,
            volume: 0,
            file: 0,
        };
        let message = RoundMessage {
            who,
            round: 0,
            file,
            body: Body::Ask,
        };
        Messages::to_quorum(message, grid, None)
    }

    /// The message to each server of the quorum; no message where there is no quorum.
    pub fn to_quorum(message: RoundMessage, grid: &Grid, quorum: Option<ServerSet>) -> Messages
        ensures { result ≡ sent_to grid.now (option_map servers quorum) message }
    {
        let to = match quorum {
            Some(set) => set,
            None => ServerSet::empty(),
        };
        Messages {
            message,
            grid: *grid,
            to,
            except: ServerSet::empty(),
        }
    }

    /// How many messages there are, at most one for each server of a grid.
    pub fn len(&self) -> usize
        ensures len { result ≡ length self.now }
        ensures bound { result ≤ MOST_SERVERS }
    {
        let mut count = 0;
        for server in 0..self.grid.servers() {
            if self.to.has(server) && !self.except.has(server) {
                count += 1;
            }
        }
        count
    }

    /// The messages one by one. They share one content.
    pub fn to_vec(&self, alloc: Global) -> Result<Vec<Message>, OutOfMemory>
        ensures { IfOk result (λ messages. messages.items ≡ self.now) }
    {
        let common = &self.message;
        let mut messages = Vec::new(alloc);
        for server in 0..self.grid.servers() {
            if self.to.has(server) && !self.except.has(server) {
                messages.grow(Message {
                    tenant: common.who.tenant,
                    session: common.who.session,
                    op: common.who.op,
                    round: common.round,
                    server: server as u8,
                    file: common.file,
                    body: common.body.share()?,
                })?;
            }
        }
        Ok(messages)
    }
}
