ghost use Rattle.std.specs.Prelude.{◌≡◌, ◌↔◌, ◌+◌, ◌-◌, ◌^◌, ◌≤◌, ◌++◌, min, [], length, IfOk, IsErr, IsOk, IsTrue};
ghost use Rattle.ada_port.specs.Ports.{Puts};
ghost use Rattle.ada_port.specs.Sinks.{after_growth, after_put, entry_of, grown_of, held_of, is_too_long, passing_part, put_fails, sure_sink};

use crate::counts::raise;
use crate::ports::{Failed, Sink};
use std::alloc::{AllocError, Global};
use std::marker::Model;

/// A put that fails, and how much of its piece is appended all the same.
#[derive(Clone, Copy)]
pub struct SinkFail {
    /// The number of the call, counted from 0.
    pub call: u64,
    /// How many bytes of the piece pass: all of them where it has fewer.
    pub pass: u64,
}

/// Output that is kept in memory that was reserved before. A put fails exactly where the number of its
/// call is listed or its piece doesn't fit.
#[derive(Drop)]
pub struct MemSink {
    bytes: Vec<u8>,
    room: u64,
    fails: Vec<SinkFail>,
    calls: u64,
    faults: u64,
}

impl Model for MemSink {
    ghost use Rattle.std.specs.Prelude.{◌≤◌, vec_capacity};
    ghost use Rattle.ada_port.specs.Sinks.{SinkState};

    ghost Value = { SinkState };

    ghost view = { λ s. record {
      held = s.bytes.items;
      room = s.room;
      fails = s.fails.items;
      calls = s.calls;
      faults = s.faults;
    } };

    ghost invariant = { λ s. s.room ≤ vec_capacity s.bytes };
}

impl MemSink {
    /// An empty sink with room for so many bytes, whose listed puts fail. Of two entries for one call
    /// the first counts.
    pub fn new(alloc: Global, room: u64, fails: Vec<SinkFail>) -> Result<MemSink, AllocError>
        ensures { IfOk result (λ sink. sink ≡ record { held = []; room = room; fails = fails.items; calls = 0; faults = 0 }) }
    {
        let bytes = Vec::with_capacity(alloc, room as usize)?;
        Ok(MemSink {
            bytes,
            room,
            fails,
            calls: 0,
            faults: 0,
        })
    }

    /// The bytes that were appended so far.
    pub fn bytes(&self) -> &[u8]
        ensures { result.now ≡ self.now.held }
    {
        self.bytes.as_slice()
    }

    // The entry of the next call.
    fn entry(&self) -> Option<SinkFail>
        ensures { result ≡ entry_of self.now }
    {
        let mut rest = self.fails.as_slice();
        while let Some((fail, others)) = rest.split_first() {
            if fail.call == self.calls {
                return Some(*fail);
            }
            rest = others;
        }
        None
    }

    // Whether a piece is longer than the room that is left.
    fn is_too_long(&self, piece: &[u8]) -> bool
        ensures { result ≡ is_too_long self.now piece.now }
    {
        self.room < (self.bytes.len() + piece.len()) as u64
    }

    // Appends bytes for which there is room.
    fn append(&mut self, bytes: &[u8])
        requires { length self.old.held + length bytes.now ≤ self.old.room }
        ensures { self.new ≡ record self.old { held = self.old.held ++ bytes.now } }
    {
        let _ = self.bytes.extend_from_slice(bytes);
    }
}

impl Sink for MemSink {
    ghost state = { held_of };

    /// Appends a piece. `Failed` comes exactly where the call is listed or the piece doesn't fit. Of a
    /// listed piece that fits as many bytes are appended as its entry says; of one that doesn't fit
    /// none are.
    fn put(&mut self, piece: &[u8]) -> Result<(), Failed>
        ensures puts { Puts (held_of self.old) (held_of self.new) piece.now result }

        // The sink in memory says more: exactly when a put fails, and all that the call changes.
        ensures fails { IsErr result ↔ IsTrue (put_fails self.old piece.now) }
        ensures state { self.new ≡ after_put self.old piece.now result }
    {
        let entry = self.entry();
        let fits = !self.is_too_long(piece);
        self.calls = raise(self.calls);
        if fits {
            self.append(passing_part(entry, piece));
            if entry.is_none() {
                return Ok(());
            }
        }
        self.faults = raise(self.faults);
        Err(Failed)
    }

    fn faults(&self) -> u64 {
        self.faults
    }
}

// What passes of a piece.
fn passing_part(entry: Option<SinkFail>, piece: &[u8]) -> &[u8]
    ensures { result.now ≡ passing_part entry piece.now }
{
    match entry {
        None => piece,
        Some(fail) => {
            let pass = fail.pass.min(piece.len() as u64) as usize;
            &piece[..pass]
        }
    }
}

/// Output that is kept in room that grows. A put fails where there is no memory for its piece, and then
/// appends nothing.
#[derive(Drop)]
pub struct HeldSink {
    bytes: Vec<u8>,
    faults: u64,
}

impl Model for HeldSink {
    ghost use Rattle.ada_port.specs.Sinks.{GrownState};

    ghost Value = { GrownState };

    ghost view = { λ s. record { held = s.bytes.items; faults = s.faults } };
}

impl HeldSink {
    /// An empty sink, which takes its room from this allocator.
    pub fn new(alloc: Global) -> HeldSink
        ensures { result ≡ record { held = []; faults = 0 } }
    {
        HeldSink {
            bytes: Vec::new(alloc),
            faults: 0,
        }
    }

    /// The bytes that were appended so far.
    pub fn bytes(&self) -> &[u8]
        ensures { result.now ≡ self.now.held }
    {
        self.bytes.as_slice()
    }
}

impl Sink for HeldSink {
    ghost state = { grown_of };

    /// Appends a piece, all of it or with a fault nothing.
    fn put(&mut self, piece: &[u8]) -> Result<(), Failed>
        ensures puts { Puts (grown_of self.old) (grown_of self.new) piece.now result }
        ensures state { self.new ≡ after_growth self.old piece.now result }
    {
        match self.bytes.extend_from_slice(piece) {
            Ok(()) => Ok(()),
            Err(_) => {
                self.faults = raise(self.faults);
                Err(Failed)
            }
        }
    }

    fn faults(&self) -> u64 {
        self.faults
    }
}

/// Output of which only the number of bytes is kept, which never fails. Contracts see that number,
/// which stands still at the greatest u64.
#[derive(Drop)]
pub struct SureSink {
    count: u64,
}

impl Model for SureSink {
    ghost use Rattle.std.specs.Prelude.{ℕ};

    ghost Value = { ℕ };

    ghost view = { λ s. s.count };
}

impl SureSink {
    /// A sink to which nothing was put.
    pub fn new() -> SureSink
        ensures { result ≡ 0 }
    {
        SureSink { count: 0 }
    }

    /// How many bytes were put, up to the greatest number.
    pub fn count(&self) -> u64
        ensures { result ≡ self.now }
    {
        self.count
    }
}

impl Sink for SureSink {
    ghost state = { λ _. sure_sink };

    /// Counts the bytes of a piece. It never fails.
    fn put(&mut self, piece: &[u8]) -> Result<(), Failed>
        ensures puts { Puts sure_sink sure_sink piece.now result }
        ensures never { IsOk result }
        ensures count { self.new ≡ min (self.old + length piece.now) (2 ^ 64 - 1) }
    {
        self.count = self.count.saturating_add(piece.len() as u64);
        Ok(())
    }

    fn faults(&self) -> u64 {
        0
    }
}
