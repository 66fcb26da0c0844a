//! The limit of depth.

/// How deep a token of a program may stand: in how many levels of statements and brackets.
pub const DEPTH_LIMIT: u32 = 64;
