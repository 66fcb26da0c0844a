ghost use Rattle.ada_base.specs.Input.{Nothing};
ghost use Rattle.std.specs.Prelude.{◌≡◌, []};
ghost use Rattle.ada_io.specs.Gets.{Gets};

use crate::asking::{Looked, look};
use crate::phases::{Next, Phase, step};
use ada_base::Reason;
use ada_port::{Log, Source};
use std::marker::Model;

/// How a Get ends (A.10.8).
#[derive(Clone, Copy)]
pub enum GetEnd {
    /// A value of Integer was read.
    Number { value: i64 },
    /// `EndError` where the input ended before a sign or digit, and else `DataError`.
    Raise { reason: Reason },
    /// The source failed.
    ReadFault,
    /// All turns were taken and one more is needed.
    Spent,
}

/// What comes of a Get: how it ends, how often it asked the source, and how many bytes came. The asking that met the end of
/// the input and one that failed count too.
#[derive(Clone, Copy)]
pub struct Got {
    pub end: GetEnd,
    pub took: u64,
    pub came: u64,
}

// What a Get left for the next one: nothing, or the byte or end that it looked at last.
#[derive(Clone, Copy)]
pub(crate) enum Holding {
    Nothing,
    Symbol(Option<u8>),
}

/// Reads integers from a source, one after the other. Contracts see what it holds for the next Get: nothing, or the byte
/// or end of the input that was looked at last; and all the bytes that came so far.
#[derive(Drop)]
pub struct Reader {
    held: Holding,
    log: Log,
}

impl Model for Reader {
    ghost use Rattle.ada_io.specs.Gets.{ReaderState};
    ghost use Rattle.ada_io.specs.Phases.{held_of};

    ghost Value = { ReaderState };

    ghost view = { λ reader. record { held = held_of reader.held; came = reader.log.bytes } };
}

impl Reader {
    /// A reader that holds nothing yet, and to which nothing came.
    pub fn new() -> Reader
        ensures { result ≡ record { held = Nothing; came = [] } }
    {
        Reader {
            held: Holding::Nothing,
            log: Log::new(),
        }
    }

    /// Reads an integer as Get does (A.10.8): blanks, a sign if there is one, and the longest run of digits with single
    /// underscores between them. What ends the run is held for the next Get. Each asking of the source takes a turn. Once
    /// the end was met it stays held, and no later Get asks the source. `ReadFault` comes only where the source's count of
    /// faults rose, and `Spent` exactly where `turns_left` turns were taken and one more is needed; both leave what is
    /// held. The bytes that come are added to those that came before.
    pub fn get<S: Source>(&mut self, source: &mut S, turns_left: u64) -> Got
        ensures { Gets (S.state source.old) (S.state source.new) self.old self.new turns_left result }
    {
        let mut phase = Phase::Blanks;
        let mut at = self.held;
        let mut took = 0;
        let mut came = 0;
        loop {
            match look(at, source, turns_left, &mut took, &mut came, &mut self.log) {
                Looked::At(symbol) => match step(phase, symbol) {
                    Next::Asks(later) => {
                        phase = later;
                        at = Holding::Nothing;
                    }
                    Next::Gives(value) => {
                        self.held = Holding::Symbol(symbol);
                        return Got {
                            end: GetEnd::Number { value },
                            took,
                            came,
                        };
                    }
                    Next::Raises(reason) => {
                        self.held = Holding::Symbol(symbol);
                        return Got {
                            end: GetEnd::Raise { reason },
                            took,
                            came,
                        };
                    }
                },
                Looked::ReadFault => return Got {
                    end: GetEnd::ReadFault,
                    took,
                    came,
                },
                Looked::Spent => return Got {
                    end: GetEnd::Spent,
                    took,
                    came,
                },
            }
        }
    }
}
