//! What texts touch and call (9.10.1), as it is found and judged.

use ada_base::Items;
use std::alloc::Global;

/// What a path goes on by: a component of a record by its number, a static index, the parameter of the parallel loop that
/// is judged or its chunk parameter, with a distance from it that is 0 for the parameter itself, or any other index.
#[derive(Clone, Copy)]
pub enum Selector {
    Field(u32),
    Fixed(i64),
    Loop(i64),
    Chunk(i64),
    Any,
}

/// A variable, by its object's number, and how the path goes on to a part of it.
#[derive(Drop)]
pub struct Path {
    pub object: u32,
    pub selectors: Items<Selector>,
}

/// What is done with a variable: it is read, it is written, or both.
#[derive(Clone, Copy)]
pub enum Access {
    Read,
    Write,
    Update,
}

/// A name of a variable, at its first token. In a parallel block `arm` is the number of the arm, from 0; elsewhere it is
/// 0.
#[derive(Drop)]
pub struct Touch {
    pub arm: u32,
    pub at: u32,
    pub access: Access,
    pub path: Path,
}

/// A call of a subprogram by its number, or its use as a reducer (4.5.10), at the first token of its name; `arm` as in a
/// touch.
#[derive(Clone, Copy)]
pub struct Call {
    pub arm: u32,
    pub at: u32,
    pub sub: u32,
}

/// What a text touches and what it calls. Variables that are declared in the text itself are left out.
#[derive(Drop)]
pub struct Uses {
    pub touches: Items<Touch>,
    pub calls: Items<Call>,
}

/// A parallel construct: the number of its site in the typed program; whether it is a parallel block, of which two threads
/// run two arms; what its chunk specification, range or number of chunks uses; and what its threads use.
#[derive(Drop)]
pub struct SiteEffects {
    pub site: u32,
    pub block: bool,
    pub front: Uses,
    pub threads: Uses,
}

/// The effects of a typed program: for each subprogram by its number what its body uses, of variables those of the main
/// procedure alone; and all parallel constructs.
#[derive(Drop)]
pub struct Effects {
    pub subs: Items<Uses>,
    pub sites: Items<SiteEffects>,
}

/// What a thread does with a variable, at the token of the name or of the call that leads there; in a parallel block by
/// the arm, elsewhere of any arm.
#[derive(Clone, Copy)]
pub struct Effect<'a> {
    pub arm: u64,
    pub at: u32,
    pub access: Access,
    pub path: &'a Path,
}
