//! What is promised of all that a node's process writes.

ghost use Rattle.gq_chunks.specs.Having.{chunks_of};
ghost use Rattle.gq_service.specs.Promises.{IsDurableBySome};

use gq_keeper::Promise;
use gq_shelf::Shelf;
use std::marker::PhantomData;

/// At each write: all that was written is what a node told by steps whose facts are synced, so that a start reads the node which they
/// left. The node keeps registers alone, or chunks as well, on such a shelf.
#[derive(Drop)]
pub struct Durable<S: Shelf> {
    of: PhantomData<S>,
}

impl<S: Shelf> Promise for Durable<S> {
    ghost allows = { IsDurableBySome (chunks_of S.noted) };
}
