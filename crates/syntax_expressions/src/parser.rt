//! What the functions of the parser work on.

use syntax_nodes::Parts;
use syntax_readers::Cursor;

/// The tokens that are left, and the parts of what was read.
#[derive(Drop)]
pub struct Parser<'a> {
    /// The tokens that are left.
    pub tokens: Cursor<'a>,
    /// The parts of what was read, which are joined from the latest on.
    pub out: Parts,
}
