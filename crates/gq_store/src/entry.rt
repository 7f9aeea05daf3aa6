//! A file's copy, its content in a chain of blocks.
ghost use Rattle.std.specs.Prelude.{◌≡◌, ◌+◌, ◌^◌, ◌<◌, ◌≤◌, length};
ghost use Rattle.gq_pool.specs.Blocks.{blocks_for};

use gq_pool::{Chain, Pool};
use gq_tag::Tag;
use std::marker::Model;
use std::mem;

/// A file's copy, in 32 bytes. So the tag's number and session are fields: a [`Tag`] has the length of two words, and the hint
/// would want a third. The hint is a number that was left with the file, which no contract sees.
pub(crate) struct Entry {
    number: u64,
    chain: Chain,
    hint: u32,
    session: u8,
}

impl Model for Entry {
    ghost use Rattle.gq_tag.specs.declared.StoredCopy.{StoredCopy};

    ghost Value = { StoredCopy };

    ghost view = { λ e. record { tag = record { number = e.number; session = e.session }; bytes = e.chain } };
}

impl Entry {
    ghost use Rattle.gq_tag.specs.Tag.{first_copy};
    ghost use Rattle.gq_store.specs.Copies.{taken};

    // A copy with no hint.
    fn new(tag: Tag, chain: Chain) -> Entry
        ensures { result ≡ record { tag = tag; bytes = chain } }
    {
        Entry {
            number: tag.number,
            chain,
            hint: 0,
            session: tag.session,
        }
    }

    // The first copy.
    pub(crate) fn first() -> Entry
        ensures { result ≡ first_copy }
    {
        Entry::new(Tag::first(), Chain::empty())
    }

    pub(crate) fn tag(&self) -> Tag
        ensures { result ≡ self.now.tag }
    {
        Tag {
            number: self.number,
            session: self.session,
        }
    }

    #[inline]
    pub(crate) fn hint(&self) -> u32 {
        self.hint
    }

    #[inline]
    pub(crate) fn leave_hint(&mut self, hint: u32)
        ensures { self.new ≡ self.old }
    {
        self.hint = hint;
    }

    pub(crate) fn len(&self) -> usize
        ensures { result ≡ length self.now.bytes }
    {
        self.chain.len()
    }

    pub(crate) fn read(&self, out: &mut [u8])
        requires { length out.old ≡ length self.now.bytes }
        ensures { out.new ≡ self.now.bytes }
    {
        self.chain.read(out);
    }

    // Gives the blocks of the old content back and takes those of the new one.
    #[inline(always)]
    pub(crate) fn put(&mut self, pool: &mut Pool, tag: Tag, bytes: &[u8])
        requires fits { pool.old + taken self.old < 2 ^ 64 }
        requires room { blocks_for (length bytes.now) ≤ pool.old + taken self.old }
        ensures copy { self.new ≡ record { tag = tag; bytes = bytes.now } }
        ensures free { pool.new + taken self.new ≡ pool.old + taken self.old }
    {
        refill(pool, &mut self.chain, bytes);
        self.number = tag.number;
        self.session = tag.session;
    }

    // Puts the first copy, with no hint, in this one's place, and gives the blocks back.
    pub(crate) fn lose(&mut self, pool: &mut Pool)
        requires { pool.old + taken self.old < 2 ^ 64 }
        ensures copy { self.new ≡ first_copy }
        ensures free { pool.new ≡ pool.old + taken self.old }
    {
        let old = mem::replace(self, Entry::first());
        old.spend(pool);
    }

    // Puts the peer's copy, with no hint, in this one's place: takes blocks for it, and gives those of the old one back.
    pub(crate) fn take_from(&mut self, pool: &mut Pool, peer: &Entry)
        requires fits { pool.old + taken self.old < 2 ^ 64 }
        requires room { taken peer.now ≤ pool.old }
        ensures copy { self.new ≡ peer.now }
        ensures free { pool.new + taken peer.now ≡ pool.old + taken self.old }
    {
        let new = Entry::new(peer.tag(), pool.copy(&peer.chain));
        let old = mem::replace(self, new);
        old.spend(pool);
    }

    // Gives the blocks back.
    pub(crate) fn spend(self, pool: &mut Pool)
        requires { pool.old + taken self < 2 ^ 64 }
        ensures { pool.new ≡ pool.old + taken self }
    {
        let Entry {
            number: _,
            chain,
            hint: _,
            session: _,
        } = self;
        pool.drain(chain);
    }
}

// Gives the blocks of the chain's content back, and fills it anew.
fn refill(pool: &mut Pool, chain: &mut Chain, bytes: &[u8])
    requires fits { pool.old + blocks_for (length chain.old) < 2 ^ 64 }
    requires room { blocks_for (length bytes.now) ≤ pool.old + blocks_for (length chain.old) }
    ensures content { chain.new ≡ bytes.now }
    ensures free { pool.new + blocks_for (length bytes.now) ≡ pool.old + blocks_for (length chain.old) }
{
    let old = mem::replace(chain, Chain::empty());
    pool.drain(old);
    match pool.fill(bytes) {
        Ok(new) => {
            let none = mem::replace(chain, new);
            pool.drain(none);
        }
        Err(_) => unreachable!(),
    }
}
