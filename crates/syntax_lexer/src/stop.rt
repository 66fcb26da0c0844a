//! Where the lexer stops.
/// Why there are no more tokens, with the byte at which the characters stop that are read.
#[derive(Clone, Copy, Debug, PartialEq, Eq)]
pub enum Stop {
    BadToken { at: usize },
    WideLiteral { at: usize },
    TooLong { at: usize },
    OutOfMemory,
}
