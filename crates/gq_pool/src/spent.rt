//! That blocks, lists of blocks, chains and pools are spent: none of them can be let go or forgotten, since none is `Drop`.

use crate::nodes::Nodes;
use crate::pool::{Chain, Pool};
use crate::stack::{Block, Stack};

/// A type that is `Drop` can't have an `impl Spent` of its own: the two impls would overlap, and the crate not compile.
/// So none of these is let go or forgotten, for `mem::forget`, `Box::into_raw` and their like take what is `Drop` alone.
trait Spent {}

impl<T: Drop> Spent for T {}

impl Spent for Pool {}

impl Spent for Chain {}

impl Spent for Stack {}

impl Spent for Nodes {}

impl Spent for Block {}
