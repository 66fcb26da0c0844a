ghost use Rattle.std.specs.Prelude.{◌≡◌, ◌↔◌, IsErr, IsOk, IsTrue};
ghost use Rattle.ada_port.specs.Ports.{Takes};
ghost use Rattle.ada_port.specs.Sources.{after_next, left_of, next_fails, sure_left};

use crate::counts::raise;
use crate::ports::{Failed, Source};
use std::marker::Model;

/// Input in memory. A call fails exactly where its number is listed.
#[derive(Drop)]
pub struct MemSource {
    bytes: SureSource,
    fails: Vec<u64>,
    calls: u64,
    faults: u64,
}

impl Model for MemSource {
    ghost use Rattle.ada_port.specs.Sources.{SourceState};

    ghost Value = { SourceState };

    ghost view = { λ s. record {
      left = s.bytes;
      fails = s.fails.items;
      calls = s.calls;
      faults = s.faults;
    } };
}

impl MemSource {
    /// A source that has these bytes left, whose calls with the listed numbers, counted from 0, fail.
    pub fn new(bytes: Vec<u8>, fails: Vec<u64>) -> MemSource
        ensures { result ≡ record { left = bytes.items; fails = fails.items; calls = 0; faults = 0 } }
    {
        MemSource {
            bytes: SureSource::new(bytes),
            fails,
            calls: 0,
            faults: 0,
        }
    }
}

impl Source for MemSource {
    ghost state = { left_of };

    /// Takes the first byte that is left. `Failed` comes exactly where the call is listed. Every call
    /// counts.
    fn next(&mut self) -> Result<Option<u8>, Failed>
        ensures takes { Takes (left_of self.old) (left_of self.new) result }

        // The source in memory says more: exactly when a call fails, and all that the call changes.
        ensures fails { IsErr result ↔ IsTrue (next_fails self.old) }
        ensures state { self.new ≡ after_next self.old result }
    {
        let fails = self.fails.contains(&self.calls);
        self.calls = raise(self.calls);
        if fails {
            self.faults = raise(self.faults);
            return Err(Failed);
        }
        self.bytes.next()
    }

    fn faults(&self) -> u64 {
        self.faults
    }
}

/// Input in memory that never fails. Contracts see the bytes that are left.
#[derive(Drop)]
pub struct SureSource {
    bytes: Vec<u8>,
    taken: usize,
}

impl Model for SureSource {
    ghost use Rattle.std.specs.Prelude.{ℕ, List, drop, ◌≤◌, vec_len};

    ghost Value = { List ℕ };

    ghost view = { λ s. drop s.taken s.bytes.items };

    ghost invariant = { λ s. s.taken ≤ vec_len s.bytes };
}

impl SureSource {
    /// A source that has these bytes left.
    pub fn new(bytes: Vec<u8>) -> SureSource
        ensures { result ≡ bytes.items }
    {
        SureSource { bytes, taken: 0 }
    }
}

impl Source for SureSource {
    ghost state = { sure_left };

    /// Takes the first byte that is left. It never fails.
    fn next(&mut self) -> Result<Option<u8>, Failed>
        ensures takes { Takes (sure_left self.old) (sure_left self.new) result }
        ensures never { IsOk result }
    {
        match self.bytes.get(self.taken) {
            Some(byte) => {
                let byte = *byte;
                self.taken += 1;
                Ok(Some(byte))
            }
            None => Ok(None),
        }
    }

    fn faults(&self) -> u64 {
        0
    }
}
