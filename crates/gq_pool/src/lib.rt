//! Blocks of [`gq_tag::BLOCK_BYTES`] bytes: a pool owns the free ones, a chain owns those of its content.
//!
//! Blocks are raw nodes on intrusive lists, as in an allocator with a free list: the pointer that links a block stands
//! in the block, so that filling and draining a chain asks for no memory. `Nodes` has the few functions that carry
//! pointers; all above it is safe code.
//!
//! Neither a block, a list of blocks, a chain nor a pool is `Drop`, so none is let go or forgotten: a block ends on a
//! list or in `Block::free`, a list is closed once it is empty, a chain is drained, and a pool closed.
//!
//! Each block is a request to the allocator: blocks of one large request can be given back only together, while these lie in
//! chains that any pool may drain. `Option<Box<Node>>` would take 96 bytes in place of 80. A content is the chain's own, so
//! each clause names one file. With a table of blocks, that none is in two places would be an invariant over all files.
#![tactic(auto)]

mod node;
mod nodes;
mod pool;
mod spent;
mod stack;

pub use pool::{Chain, Pool, Short};
