//! The outside of a run: its input and its output.

ghost use Rattle.std.specs.Prelude.{◌≡◌, ℕ, List};
ghost use Rattle.ada_port.specs.Ports.{IsTold};
ghost use Rattle.run_outside.specs.Outside.{HasGot, HasPut, Leaves, Outside, fresh};

use ada_io::{Got, Reader};
use ada_port::{Failed, Log, Sink, Source};
use std::marker::Model;
use std::snapshot::Snapshot;

/// Where the input of a run comes from, and where its output goes.
pub trait Port {
    // Which bytes may be the whole input, where so much of it came.
    ghost Tells: { List ℕ → Outside → Type 0 };

    ghost outside: { Self → Outside };

    /// Reads an integer (A.10.8), where so many turns are left.
    fn get(&mut self, turns_left: u64) -> Got
        ensures { HasGot Tells turns_left result (outside self.old) (outside self.new) };

    /// Puts a piece of output out.
    fn put(&mut self, piece: &[u8]) -> Result<(), Failed>
        ensures { HasPut Tells piece.now result (outside self.old) (outside self.new) };
}

/// A source and a sink. Contracts see what came and what was put, also where the source and the sink tell nothing.
#[derive(Drop)]
pub struct Ports<In: Source + Drop, Out: Sink + Drop> {
    source: In,
    reader: Reader,
    sink: Out,
    // the sink as it was at the outset
    begun: Snapshot<Out>,
    // the pieces that were put, one after the other
    pieces: Log,
}

impl<In: Source + Drop, Out: Sink + Drop> Model for Ports<In, Out> {
    ghost use Rattle.std.specs.Prelude.{◌≡◌, [], true};
    ghost use Rattle.ada_io.specs.Gets.{met_end};
    ghost use Rattle.ada_port.specs.Ports.{IsTold, bytes_of};
    ghost use Rattle.run_outside.specs.Outside.{Outside, opened};

    ghost Value = { Outside };

    ghost view = { λ p. opened p.reader (In.state p.source) (Out.state p.begun.value) (Out.state p.sink) p.pieces.bytes };

    // a sink that told what it held tells it still, and a source that told its end has nothing left
    ghost invariant = { λ p. (IsTold (Out.state p.begun.value) → IsTold (Out.state p.sink)) × (((s : In) → IsTold (In.state s)) → met_end p.reader.held ≡ true → bytes_of (In.state p.source) ≡ []) };
}

impl<In: Source + Drop, Out: Sink + Drop> Port for Ports<In, Out> {
    ghost use Rattle.ada_port.specs.Ports.{IsTold};
    ghost use Rattle.run_outside.specs.Outside.{MayBe};

    ghost Tells = { MayBe ((s : In) → IsTold (In.state s)) };

    ghost outside = { λ p. p };

    fn get(&mut self, turns_left: u64) -> Got {
        self.reader.get(&mut self.source, turns_left)
    }

    fn put(&mut self, piece: &[u8]) -> Result<(), Failed> {
        self.sink.put(piece)?;
        self.pieces = self.pieces.with(piece);
        Ok(())
    }
}

impl<In: Source + Drop, Out: Sink + Drop> Ports<In, Out> {
    /// A source of which nothing was looked at, and a sink.
    pub fn new(source: In, sink: Out) -> Ports<In, Out>
        ensures { result ≡ fresh (In.state source) (Out.state sink) }
    {
        let begun = Snapshot::of(&sink);
        Ports {
            source,
            reader: Reader::new(),
            sink,
            begun,
            pieces: Log::new(),
        }
    }

    /// The source and the sink, where the run left them.
    pub fn into_parts(self) -> (In, Out)
        ensures { Leaves ((s : In) → IsTold (In.state s)) ((s : Out) → IsTold (Out.state s)) self (In.state result.0) (Out.state result.1) }
    {
        (self.source, self.sink)
    }
}
