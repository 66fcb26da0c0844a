// The asking of a source, and its turns.
ghost use Rattle.std.specs.Prelude.{◌≤◌};
ghost use Rattle.ada_io.specs.Looks.{Looks};

use crate::input::Holding;
use ada_port::{Log, Source};

pub(crate) enum Looked {
    At(Option<u8>),
    ReadFault,
    Spent,
}

// What is held, or else what the source gives, for which a turn is taken. A byte that comes is added to the log.
pub(crate) fn look<S: Source>(
    held: Holding,
    source: &mut S,
    turns_left: u64,
    took: &mut u64,
    came: &mut u64,
    log: &mut Log,
) -> Looked
    requires turns { took.old ≤ turns_left }
    requires bytes { came.old ≤ took.old }
    ensures { Looks (S.state source.old) (S.state source.new) held turns_left took.old took.new came.old came.new log.old.bytes log.new.bytes result }
{
    if let Holding::Symbol(symbol) = held {
        return Looked::At(symbol);
    }
    if *took == turns_left {
        return Looked::Spent;
    }
    *took += 1;
    match source.next() {
        Ok(Some(byte)) => {
            *came += 1;
            *log = log.with(&[byte]);
            Looked::At(Some(byte))
        }
        Ok(None) => Looked::At(None),
        Err(_) => Looked::ReadFault,
    }
}
