ghost use Rattle.std.specs.Prelude.{◌≡◌};
ghost use Rattle.ada_port.specs.Counts.{counted};
ghost use Rattle.ada_port.specs.Ports.{Puts, Takes};
ghost use Rattle.ada_port.specs.Streams.{Writes};

use crate::counts::raise;
use crate::ports::{Failed, Sink, Source};
use std::io::{Read, Stderr, Stdin, Stdout, Write};
use std::marker::Model;

const BUFFER_BYTES: usize = 4096;

/// The standard input, made as `StdSource::new(rt.stdin())`. It tells nothing of what it has left.
pub type StdSource = StreamSource<Stdin>;

/// The standard output, made as `StdSink::new(rt.stdout())`. It tells nothing of what it holds.
pub type StdSink = StreamSink<Stdout>;

/// The standard error, made as `ErrSink::new(rt.stderr())`. It tells nothing of what it holds.
pub type ErrSink = StreamSink<Stderr>;

/// Input that comes from a reader, which is asked for a few thousand bytes at a time, and only where
/// none of these are left. It tells what it has left where the reader does.
#[derive(Drop)]
pub struct StreamSource<R: Read + Drop> {
    from: R,
    buffer: [u8; BUFFER_BYTES],
    start: usize,
    end: usize,
    faults: u64,
}

impl<R: Read + Drop> Model for StreamSource<R> {
    ghost use Rattle.std.specs.Prelude.{◌≤◌, length, slice_range};
    ghost use Rattle.std.specs.Io.KnownBytes.{prepend_known};
    ghost use Rattle.ada_port.specs.Ports.{Stream};

    ghost Value = { Stream };

    ghost view = { λ s. record {
      told = prepend_known (slice_range s.buffer s.start s.end) (R.remaining s.from);
      faults = s.faults;
    } };

    ghost invariant = { λ s. (s.start ≤ s.end) × (s.end ≤ length s.buffer) };
}

impl<R: Read + Drop> StreamSource<R> {
    /// A source that asks this reader, and has not failed yet.
    pub fn new(from: R) -> StreamSource<R>
        ensures { result ≡ record { told = R.remaining from; faults = 0 } }
    {
        StreamSource {
            from,
            buffer: [0; BUFFER_BYTES],
            start: 0,
            end: 0,
            faults: 0,
        }
    }
}

impl<R: Read + Drop> Source for StreamSource<R> {
    ghost state = { λ s. s };

    /// Takes the next byte. `Failed` comes where the reader fails, and each is counted.
    fn next(&mut self) -> Result<Option<u8>, Failed>
        ensures takes { Takes self.old self.new result }
        ensures count { self.new.faults ≡ counted result self.old.faults }
    {
        if self.start < self.end {
            let byte = self.buffer[self.start];
            self.start += 1;
            return Ok(Some(byte));
        }
        match self.from.read(&mut self.buffer) {
            Ok(0) => Ok(None),
            Ok(count) => {
                self.start = 1;
                self.end = count;
                Ok(Some(self.buffer[0]))
            }
            Err(_) => {
                self.faults = raise(self.faults);
                Err(Failed)
            }
        }
    }

    fn faults(&self) -> u64 {
        self.faults
    }
}

/// Output that goes to a writer. It tells what it holds where the writer does.
#[derive(Drop)]
pub struct StreamSink<W: Write + Drop> {
    to: W,
    faults: u64,
}

impl<W: Write + Drop> Model for StreamSink<W> {
    ghost use Rattle.ada_port.specs.Ports.{Stream};

    ghost Value = { Stream };

    ghost view = { λ s. record { told = W.contents s.to; faults = s.faults } };
}

impl<W: Write + Drop> StreamSink<W> {
    /// A sink that writes to this writer, and has not failed yet.
    pub fn new(to: W) -> StreamSink<W>
        ensures { result ≡ record { told = W.contents to; faults = 0 } }
    {
        StreamSink { to, faults: 0 }
    }
}

impl<W: Write + Drop> Sink for StreamSink<W> {
    ghost state = { λ s. s };

    /// Writes a piece. `Failed` comes where the writer fails or takes no further byte of it, and each is
    /// counted.
    fn put(&mut self, piece: &[u8]) -> Result<(), Failed>
        ensures puts { Puts self.old self.new piece.now result }
        ensures count { self.new.faults ≡ counted result self.old.faults }
    {
        let written = write_through(&mut self.to, piece);
        if written.is_err() {
            self.faults = raise(self.faults);
        }
        written
    }

    fn faults(&self) -> u64 {
        self.faults
    }
}

// Writes all of a piece before it answers, also where a program puts a million small ones: a buffer
// would answer `Ok` for bytes that may still be refused.
fn write_through<W: Write>(to: &mut W, piece: &[u8]) -> Result<(), Failed>
    ensures { Writes (W.contents to.old) (W.contents to.new) piece.now result }
{
    let mut rest = piece;
    while !rest.is_empty() {
        match to.write(rest) {
            Ok(0) | Err(_) => return Err(Failed),
            Ok(written) => rest = &rest[written..],
        }
    }
    match to.flush() {
        Ok(()) => Ok(()),
        Err(_) => Err(Failed),
    }
}
