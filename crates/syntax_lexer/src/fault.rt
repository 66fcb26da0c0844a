//! Lexical faults.
use ada_base::Place;
use thiserror::Error;

/// The first lexical fault of a text, in the order of the checks.
#[derive(Clone, Copy, Debug, PartialEq, Eq, Error)]
pub enum LexFault {
    /// The text has more than 1,048,576 bytes, this many.
    #[error("the text has {bytes} bytes")]
    TooBig { bytes: u64 },
    /// No UTF-8 character begins at the byte with this number, counted from 0.
    #[error("no character begins at byte {at}")]
    NotUtf8 { at: u32 },
    /// No token begins here (2.2).
    #[error("no token begins at {}:{}", .at.line, .at.column)]
    BadToken { at: Place },
    /// An integer literal is above 2^127 - 1.
    #[error("the literal at {}:{} is too wide", .at.line, .at.column)]
    WideLiteral { at: Place },
    /// The token with the number 200,000, counted from 0, isn't the end of the text. The count includes it.
    #[error("the text has more than 200,000 tokens")]
    TooLong { count: u32, at: Place },
    #[error("out of memory")]
    OutOfMemory,
}
