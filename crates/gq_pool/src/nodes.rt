//! The owner of a list of nodes: the five functions that carry the pointers.
ghost use Rattle.std.specs.Prelude.{◌≡◌, ℕ, ◌+◌, ◌<◌, List, [], ◌∷◌, length, drop};
ghost use denote.RawPtr.{Ptr};
ghost use Rattle.gq_pool.specs.Linked.{first_place, bytes_at};
ghost use Rattle.gq_pool.specs.Ownership.{nodes_owns, nodes_shares};

use crate::node::{Link, Node};
use std::alloc::Global;
use std::marker::{Model, PhantomData, Send, Sync};

/// The nodes of a list, in order, each by where it lies and its bytes. It takes no space: who holds it has the pointer
/// to the first.
pub struct Nodes {
    mark: PhantomData<*mut Node>,
    ghost nodes: { List (Ptr × List ℕ) },
}

impl Model for Nodes {
    ghost also_owns = { λ n. nodes_owns n.nodes };

    ghost also_shares = { λ n _ κ. nodes_shares n.nodes κ };
}

unsafe impl Send for Nodes {}

unsafe impl Sync for Nodes {}

impl Nodes {
    // No nodes.
    pub(crate) fn new() -> Nodes
        ensures { result.nodes ≡ [] }
    {
        Nodes { mark: PhantomData }
    }

    // Puts the node, which points to the first, before it, and says where it lies.
    pub(crate) fn push(&mut self, node: Box<Node>) -> Link
        requires { node.value.next ≡ first_place self.old.nodes }
        ensures { self.new.nodes ≡ (result.ptr, node.value.bytes) ∷ self.old.nodes }
    {
        Link {
            ptr: Box::into_raw(node),
        }
    }

    // Takes the first node, which lies at `at`, off the list.
    pub(crate) fn pop(&mut self, at: Link, alloc: Global) -> Box<Node>
        requires some { 0 < length self.old.nodes }
        requires place { at.ptr ≡ first_place self.old.nodes }
        ensures removed { self.old.nodes ≡ (at.ptr, result.value.bytes) ∷ self.new.nodes }
        ensures next { result.value.next ≡ first_place self.new.nodes }
    {
        unsafe { Box::from_raw(alloc, at.ptr) }
    }

    // The i-th node, which lies at `at`.
    pub(crate) fn read(&self, at: Link, i: usize) -> &Node
        requires within { i < length self.now.nodes }
        requires place { at.ptr ≡ first_place (drop i self.now.nodes) }
        ensures next { result.now.next ≡ first_place (drop (i + 1) self.now.nodes) }
        ensures bytes { result.now.bytes ≡ bytes_at i self.now.nodes }
    {
        unsafe { &*at.ptr }
    }

    // Lets the empty list go.
    pub(crate) fn close(self)
        requires { self.nodes ≡ [] }
    {
        let Nodes { mark: _ } = self;
    }
}
