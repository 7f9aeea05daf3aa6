//! What an operation says to a message, and what it sends then.

ghost use Rattle.std.specs.Prelude.{◌≡◌, ◌<◌, length, IfOk, OnOk};
ghost use Rattle.gq_post.specs.Channels.{channel_at};
ghost use Rattle.gq_model.specs.Shown.{shown};
ghost use Rattle.gq_phase.specs.Standing.{messages_of};
ghost use Rattle.gq_world.specs.Saying.{with_sent, heard_told};

use gq_memory::OutOfMemory;
use gq_model::Answer;
use gq_phase::Heard;
use gq_post::Post;

/// Sends what an operation of the tenant says, and tells it.
#[inline(always)]
pub(crate) fn answer_heard(post: &mut Post, tenant: u8, heard: Heard) -> Result<Answer, OutOfMemory>
    requires { tenant < length post.old }
    ensures answer { IfOk result (λ answer. shown answer ≡ heard_told (length (channel_at post.old tenant)) heard) }
    ensures sent { OnOk result (post.new ≡ with_sent post.old tenant (messages_of heard)) }
    ensures tenants { length post.new ≡ length post.old }
{
    match heard {
        Heard::Stale => Ok(Answer::Stale),
        Heard::Noted => Ok(Answer::Noted),
        Heard::Next {
            round,
            tag,
            messages,
        } => {
            let sent = post.send_all(tenant, messages)?;
            Ok(Answer::Round {
                round,
                tag,
                first: sent.first,
                count: sent.count,
            })
        }
        Heard::Done(outcome) => Ok(Answer::Done(outcome)),
    }
}
