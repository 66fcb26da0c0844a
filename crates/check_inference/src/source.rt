//! What a walk goes over.

use std::alloc::Global;
use typed_tree::Typed;

/// A typed program, and where memory comes from.
#[derive(Clone, Copy)]
pub struct Source<'a> {
    pub typed: &'a Typed,
    pub alloc: Global,
}
