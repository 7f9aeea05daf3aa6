//! A block, and a list of blocks with the pointer to its first.
ghost use Rattle.std.specs.Prelude.{◌≡◌, ℕ, ◌+◌, ◌*◌, ◌<◌, ◌≤◌, List, [], ◌∷◌, length, map, take, IfOk};
ghost use Rattle.gq_pool.specs.Linked.{first_place};
ghost use Rattle.gq_pool.specs.Blocks.{content_of};

use crate::node::{Link, Node};
use crate::nodes::Nodes;
use gq_memory::{OutOfMemory, boxed};
use gq_tag::BLOCK_BYTES;
use std::alloc::Global;
use std::marker::Model;
use std::ptr;

/// A block on no list; contracts see its bytes. It is no `Drop`: it is put on a list, or given back by `free`.
pub struct Block {
    node: Box<Node>,
}

impl Model for Block {
    ghost Value = { List ℕ };

    ghost view = { λ b. b.node.value.bytes };
}

/// A list of blocks, the last that was pushed first; contracts see the bytes of each. It is as large as a pointer, so who holds
/// one knows how many blocks it has. It is emptied and then closed.
pub struct Stack {
    head: Link,
    nodes: Nodes,
}

impl Model for Stack {
    ghost Value = { List (List ℕ) };

    ghost view = { λ s. map (λ n. n.1) s.nodes.nodes };

    ghost invariant = { λ s. s.head.ptr ≡ first_place s.nodes.nodes };
}

impl Block {
    // A block of zeros, taken from memory.
    pub(crate) fn new(alloc: Global) -> Result<Block, OutOfMemory> {
        let node = boxed(
            alloc,
            Node {
                next: ptr::null_mut(),
                bytes: [0; BLOCK_BYTES],
            },
        )?;
        Ok(Block { node })
    }

    // Writes the bytes, at most a block, at its start.
    pub(crate) fn write(&mut self, bytes: &[u8])
        requires { length bytes.now ≤ BLOCK_BYTES }
        ensures { take (length bytes.now) self.new ≡ bytes.now }
    {
        self.node.bytes[..bytes.len()].copy_from_slice(bytes);
    }

    // Writes the bytes over all of the block.
    pub(crate) fn set(&mut self, bytes: &[u8; BLOCK_BYTES])
        ensures { self.new ≡ bytes.now }
    {
        self.node.bytes = *bytes;
    }

    // Gives the block back to memory. No other function does.
    pub(crate) fn free(self) {
        let Block { node } = self;
        drop(node);
    }
}

impl Stack {
    // No blocks.
    pub(crate) fn new() -> Stack
        ensures { result ≡ [] }
    {
        Stack {
            head: Link {
                ptr: ptr::null_mut(),
            },
            nodes: Nodes::new(),
        }
    }

    // Puts the block before the others.
    pub(crate) fn push(&mut self, block: Block)
        ensures { self.new ≡ block ∷ self.old }
    {
        let Block { mut node } = block;
        node.next = self.head.ptr;
        self.head = self.nodes.push(node);
    }

    // Takes the first block.
    pub(crate) fn pop(&mut self, alloc: Global) -> Block
        requires { 0 < length self.old }
        ensures { self.old ≡ result ∷ self.new }
    {
        let node = self.nodes.pop(self.head, alloc);
        self.head = Link { ptr: node.next };
        Block { node }
    }

    // Writes the bytes of the blocks, one after another, until `out` is full.
    pub(crate) fn read(&self, out: &mut [u8])
        requires { length out.old ≤ BLOCK_BYTES * length self.now }
        ensures { out.new ≡ content_of (length out.old) self.now }
    {
        let len = out.len();
        let mut at = self.head;
        let mut i = 0;
        let mut start = 0;
        while start < len {
            let node = self.nodes.read(at, i);
            let end = len.min(start + BLOCK_BYTES);
            out[start..end].copy_from_slice(&node.bytes[..end - start]);
            at = Link { ptr: node.next };
            start = end;
            i += 1;
        }
    }

    // A list of the same bytes, which are those of `count` blocks, in blocks that are taken off `free`. The blocks come on a list
    // with the last first, and from there in order.
    pub(crate) fn copy(&self, count: usize, free: &mut Stack, alloc: Global) -> Stack
        requires count { count ≡ length self.now }
        requires room { length self.now ≤ length free.old }
        ensures copied { result ≡ self.now }
        ensures taken { length free.new + length self.now ≡ length free.old }
    {
        let mut turned = Stack::new();
        let mut place = self.head;
        for i in 0..count {
            let node = self.nodes.read(place, i);
            let mut block = free.pop(alloc);
            block.set(&node.bytes);
            turned.push(block);
            place = Link { ptr: node.next };
        }
        let mut blocks = Stack::new();
        for _ in 0..count {
            blocks.push(turned.pop(alloc));
        }
        turned.close();
        blocks
    }

    // Lets the empty list go.
    pub(crate) fn close(self)
        requires { self ≡ [] }
    {
        let Stack { head: _, nodes } = self;
        nodes.close();
    }
}
