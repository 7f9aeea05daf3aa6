//! A pool of blocks, and a chain of them that holds a content.
ghost use Rattle.std.specs.Prelude.{◌≡◌, ℕ, ◌+◌, ◌*◌, ◌^◌, ◌<◌, ◌≤◌, ◌↔◌, List, [], length, IfOk, IfErr, OnOk, OnErr, IsErr};
ghost use Rattle.gq_pool.specs.Blocks.{blocks_for, content_of};

use crate::stack::{Block, Stack};
use gq_memory::OutOfMemory;
use gq_tag::BLOCK_BYTES;
use std::alloc::Global;
use std::marker::Model;
use thiserror::Error;

/// Too few blocks are free for a content: `free` is the number of free blocks. The pool is as it was.
#[derive(Debug, Drop, Error)]
#[error("{free} blocks are free")]
pub struct Short {
    pub free: usize,
}

/// Free blocks, which contracts see as their number.
///
/// The blocks are taken from memory once, by `new`, and go back to it by `close`; between the two they move to chains
/// and back with no request for memory. A pool isn't let go by itself: it is closed.
pub struct Pool {
    alloc: Global,
    free: Stack,
    count: usize,
}

impl Model for Pool {
    ghost Value = { ℕ };

    ghost view = { λ p. p.count };

    ghost invariant = { λ p. length p.free ≡ p.count };
}

/// A content in blocks of its own, which contracts see as the content's bytes.
///
/// No other chain and no pool has these blocks. A chain isn't let go by itself: it is drained into a pool.
pub struct Chain {
    blocks: Stack,
    len: usize,
}

impl Model for Chain {
    ghost Value = { List ℕ };

    ghost view = { λ c. content_of c.len c.blocks };

    ghost invariant = { λ c. (length c.blocks ≡ blocks_for c.len) × (length (content_of c.len c.blocks) ≡ c.len) };
}

impl Chain {
    /// The chain of no bytes. It takes no block.
    pub fn empty() -> Chain
        ensures { result ≡ [] }
    {
        Chain {
            blocks: Stack::new(),
            len: 0,
        }
    }

    /// The number of bytes of the content.
    pub fn len(&self) -> usize
        ensures { result ≡ length self.now }
    {
        self.len
    }

    /// The number of blocks that the content takes: one for each [`BLOCK_BYTES`] bytes, and one for the rest where there
    /// is a rest.
    pub fn blocks(&self) -> usize
        ensures { result ≡ blocks_for (length self.now) }
    {
        self.len.div_ceil(BLOCK_BYTES)
    }

    /// Writes the content into `out`, which has as many bytes: just the bytes that the chain was filled with.
    pub fn read(&self, out: &mut [u8])
        requires { length out.old ≡ length self.now }
        ensures { out.new ≡ self.now }
    {
        self.blocks.read(out);
    }
}

impl Pool {
    /// A pool of `n` free blocks, each taken from memory now, by one request.
    ///
    /// `OutOfMemory` is want of memory: the blocks that were taken until then were given back.
    pub fn new(alloc: Global, n: usize) -> Result<Pool, OutOfMemory>
        ensures { IfOk result (λ pool. pool ≡ n) }
    {
        let mut free = Stack::new();
        for count in 0..n {
            match Block::new(alloc) {
                Ok(block) => free.push(block),
                Err(error) => {
                    let pool = Pool { alloc, free, count };
                    pool.close();
                    return Err(error);
                }
            }
        }
        Ok(Pool {
            alloc,
            free,
            count: n,
        })
    }

    /// The number of free blocks.
    pub fn free(&self) -> usize
        ensures { result ≡ self.now }
    {
        self.count
    }

    /// A chain of these bytes, in blocks that were free: `free` falls by one for each [`BLOCK_BYTES`] bytes, and by one
    /// for the rest where there is a rest. It takes no memory.
    ///
    /// `Short` comes exactly where fewer blocks are free than the bytes take; the pool is then as it was.
    pub fn fill(&mut self, bytes: &[u8]) -> Result<Chain, Short>
        ensures short { IsErr result ↔ (self.old < blocks_for (length bytes.now)) }
        ensures filled { IfOk result (λ chain. chain ≡ bytes.now) }
        ensures taken { OnOk result (self.new + blocks_for (length bytes.now) ≡ self.old) }
        ensures told { IfErr result (λ short. short.free ≡ self.old) }
        ensures unchanged { OnErr result (self.new ≡ self.old) }
    {
        let len = bytes.len();
        let need = len.div_ceil(BLOCK_BYTES);
        if self.count < need {
            return Err(Short { free: self.count });
        }
        let mut blocks = Stack::new();
        let mut i = need;
        while i > 0 {
            i -= 1;
            let start = i * BLOCK_BYTES;
            let end = len.min(start + BLOCK_BYTES);
            let mut block = self.free.pop(self.alloc);
            block.write(&bytes[start..end]);
            blocks.push(block);
        }
        self.count -= need;
        Ok(Chain { blocks, len })
    }

    /// A chain of the same content as that one, in blocks that were free, as by [`Pool::fill`] with the content's bytes. It
    /// takes no memory.
    pub fn copy(&mut self, chain: &Chain) -> Chain
        requires { blocks_for (length chain.now) ≤ self.old }
        ensures copied { result ≡ chain.now }
        ensures taken { self.new + blocks_for (length chain.now) ≡ self.old }
    {
        let count = chain.blocks();
        let blocks = chain.blocks.copy(count, &mut self.free, self.alloc);
        self.count -= count;
        Chain {
            blocks,
            len: chain.len,
        }
    }

    /// Takes the chain's blocks back: `free` rises by them. It takes no memory.
    pub fn drain(&mut self, chain: Chain)
        requires { self.old + blocks_for (length chain) < 2 ^ 64 }
        ensures { self.new ≡ self.old + blocks_for (length chain) }
    {
        let count = chain.blocks();
        let Chain { mut blocks, len: _ } = chain;
        for _ in 0..count {
            let block = blocks.pop(self.alloc);
            self.free.push(block);
        }
        blocks.close();
        self.count += count;
    }

    /// Gives all free blocks back to memory.
    pub fn close(self) {
        let Pool {
            alloc,
            mut free,
            count,
        } = self;
        for _ in 0..count {
            let block = free.pop(alloc);
            block.free();
        }
        free.close();
    }
}
