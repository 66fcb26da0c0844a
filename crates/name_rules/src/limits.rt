//! The limits of size.

/// How many objects a program may have.
pub const MOST_OBJECTS: u32 = 4096;

/// How many cells all objects of a program may have, each of which holds one scalar.
pub const MOST_CELLS: u64 = 4_194_304;

/// How many arms a parallel block may have (5.6.1).
pub const MOST_ARMS: u32 = 4096;

/// How many dimensions an array type may have (3.6).
pub const MOST_DIMENSIONS: usize = 4;
