//! A message comes to a server, by parts: what the store does with it, and the answer in the post.

ghost use Rattle.std.specs.Prelude.{◌≡◌, ◌≢◌, ◌<◌, ◌∷◌, [], length, None, Some, IsSome, IfOk, OnOk};
ghost use Rattle.gq_tag.specs.declared.FileId.{FileId};
ghost use Rattle.gq_tag.specs.declared.Message.{Message};
ghost use Rattle.gq_tag.specs.Tag.{answer_body};
ghost use Rattle.gq_post.specs.Channels.{channel_at, message_at};
ghost use Rattle.gq_store.specs.Copies.{copy_at, file_limit, store_accounts};
ghost use Rattle.gq_store.specs.Serving.{held_after, serve_fault};
ghost use Rattle.gq_world.specs.Saying.{with_sent};
ghost use Rattle.gq_world.specs.Response.{body_in};

use gq_memory::OutOfMemory;
use gq_post::Post;
use gq_store::{Put, ServerStore};
use gq_tag::{BodyView, FileId, MessageView, Tag};

/// What a server answers: that it stored, or its copy of this tag, of which the content is elsewhere.
#[derive(Clone, Copy)]
pub(crate) enum Response {
    Stored(Put),
    Copy(Tag),
}

/// What the server's store does with a message that it does not refuse: a store is put, and of an ask the content of the
/// file's copy is read into `content`. The message then waits for that answer.
#[inline(always)]
pub(crate) fn serve(
    store: &mut ServerStore,
    content: &mut Vec<u8>,
    message: &MessageView<'_>,
) -> Result<Response, OutOfMemory>
    requires { serve_fault store.old message.now ≡ None }
    ensures response { IfOk result (λ response. body_in content.new.items response ≡ answer_body (copy_at store.old message.now.file) message.now.body) }
    ensures held { OnOk result (copy_at store.new message.now.file ≡ held_after (copy_at store.old message.now.file) message.now.body) }
    ensures others { (other : FileId) → other ≢ message.now.file → copy_at store.new other ≡ copy_at store.old other }
    ensures accounts { store_accounts store.new ≡ store_accounts store.old }
    ensures blocks { store.new.blocks ≡ store.old.blocks }
{
    match message.body {
        BodyView::Store(copy) => {
            let put = store.put(message.file, copy.tag, copy.bytes.as_slice());
            Ok(Response::Stored(put))
        }
        _ => {
            let tag = store.read(message.file, content)?;
            Ok(Response::Copy(tag))
        }
    }
}

/// Sends the answer to the tenant's message of this number, and answers its number. The store and the post leave each other
/// a hint at equal copies.
#[inline(always)]
pub(crate) fn answer(
    post: &mut Post,
    store: &mut ServerStore,
    content: &[u8],
    tenant: u8,
    number: u64,
    file: FileId,
    response: Response,
) -> Result<u64, OutOfMemory>
    requires tenant { tenant < length post.old }
    requires message { IsSome (message_at (channel_at post.old tenant) number) }
    requires file { IsSome (file_limit store.old file) }
    ensures number { IfOk result (λ sent. sent ≡ length (channel_at post.old tenant)) }
    ensures sent { OnOk result ((message : Message) → message_at (channel_at post.old tenant) number ≡ Some message → post.new ≡ with_sent post.old tenant (record message { body = body_in content.now response } ∷ [])) }
    ensures tenants { length post.new ≡ length post.old }
    ensures store { store.new ≡ store.old }
{
    match response {
        Response::Stored(put) => {
            if put == Put::Kept {
                store.leave_hint(file, post.hint(tenant, number));
            }
            post.reply_stored(tenant, number)
        }
        Response::Copy(tag) => {
            let sent = post.reply_copy(tenant, number, tag, content, store.hint(file))?;
            store.leave_hint(file, sent.hint);
            Ok(sent.number)
        }
    }
}
