//! Copies: one slab for the messages of all tenants, each copy once with the number of its users.

ghost use Rattle.std.specs.Prelude.{◌≡◌, ◌↔◌, ◌+◌, ◌<◌, ℕ, Some, None, option_map, IsTrue, IsSomeAnd};
ghost use Rattle.slab.specs.Slab.{get, HasRoomFor, Updates};
ghost use Rattle.gq_tag.specs.View.{body_of};
ghost use Rattle.gq_tag.specs.declared.StoredCopy.{StoredCopy};
ghost use Rattle.gq_post.specs.Envelopes.{said_body, body_copy};
ghost use Rattle.gq_post.specs.Copies.{slot_copy, with_users, one_less};

use crate::envelopes::{Envelope, Says};
use gq_tag::{Body, BodyView, StoredCopy, Tag};
use slab::Slab;

// A copy, and how many envelopes name its place.
#[derive(Drop)]
pub(crate) struct SharedCopy {
    pub(crate) copy: StoredCopy,
    pub(crate) users: usize,
}

// What the envelope says, its copy lent.
#[inline(always)]
pub(crate) fn body_said(copies: &Slab<SharedCopy>, envelope: Envelope) -> Option<BodyView<'_>>
    ensures { option_map body_of result ≡ said_body envelope.says (slot_copy copies.now.slots envelope.place) }
{
    match envelope.says {
        Says::Lost => None,
        Says::Ask => Some(BodyView::Ask),
        Says::Copy => Some(BodyView::Copy(&copies.get(envelope.place as usize)?.copy)),
        Says::Store => Some(BodyView::Store(&copies.get(envelope.place as usize)?.copy)),
        Says::Stored => Some(BodyView::Stored),
    }
}

// Whether there is an equal copy at the place, and room for one user more.
#[inline(always)]
pub(crate) fn can_share(copies: &Slab<SharedCopy>, place: u32, tag: Tag, bytes: &[u8]) -> bool
    ensures { IsTrue result ↔ IsSomeAnd (get copies.now place) (λ shared. (shared.copy ≡ record { tag = tag; bytes = bytes.now }) × (shared.users < usize.MAX)) }
{
    match copies.get(place as usize) {
        Some(shared) => {
            shared.users < usize::MAX
                && shared.copy.tag == tag
                && shared.copy.bytes.as_slice() == bytes
        }
        None => false,
    }
}

fn copy_in(body: Body) -> Option<StoredCopy>
    ensures { result ≡ body_copy body }
{
    match body {
        Body::Copy(copy) => Some(copy),
        Body::Store(copy) => Some(copy),
        Body::Ask => None,
        Body::Stored => None,
    }
}

// Keeps the body's copy for so many users under the vacant key. No copy, or no user, takes no place.
pub(crate) fn keep(copies: &mut Slab<SharedCopy>, body: Body, users: usize)
    requires { HasRoomFor copies.old 1 }
    ensures none { body_copy body ≡ None → copies.new ≡ copies.old }
    ensures nobody { users ≡ 0 → copies.new ≡ copies.old }
    ensures vacant { 0 < users → (copy : StoredCopy) → body_copy body ≡ Some copy → get copies.old copies.old.vacant_key ≡ None }
    ensures kept { 0 < users → (copy : StoredCopy) → body_copy body ≡ Some copy → Updates copies.old copies.new copies.old.vacant_key (Some (record { copy = copy; users = users })) }
{
    if users == 0 {
        return;
    }
    if let Some(copy) = copy_in(body) {
        copies.insert_reserved(SharedCopy { copy, users });
    }
}

// Gives the copy at the place so many users.
#[inline(always)]
fn set_users(copies: &mut Slab<SharedCopy>, place: u32, users: usize)
    ensures { Updates copies.old copies.new place (with_users users (get copies.old place)) }
{
    if let Some(shared) = copies.get_mut(place as usize) {
        shared.users = users;
    }
}

// Gives the copy at the place one user more.
#[inline(always)]
pub(crate) fn add_user(copies: &mut Slab<SharedCopy>, place: u32)
    requires { IsSomeAnd (get copies.old place) (λ shared. shared.users < usize.MAX) }
    ensures { IsSomeAnd (get copies.old place) (λ shared. Updates copies.old copies.new place (Some (record shared { users = shared.users + 1 }))) }
{
    let users = match copies.get(place as usize) {
        Some(shared) => shared.users,
        None => unreachable!(),
    };
    set_users(copies, place, users + 1);
}

// Takes one user from the copy at the place, and the copy out with its last.
pub(crate) fn remove_user(copies: &mut Slab<SharedCopy>, place: u32)
    ensures { Updates copies.old copies.new place (one_less (get copies.old place)) }
{
    let users = match copies.get(place as usize) {
        Some(shared) => shared.users,
        None => 0,
    };
    if 1 < users {
        set_users(copies, place, users - 1);
    } else {
        copies.try_remove(place as usize);
    }
}
