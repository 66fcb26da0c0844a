//! What is found at a place.
use ada_base::Kind;

/// What is found where a token begins: an integer literal by its value, which is 2^127 where it is more
/// than that, or another kind.
#[derive(Clone, Copy, Debug, PartialEq, Eq)]
pub enum Found {
    Number(u128),
    Other(Kind),
}
