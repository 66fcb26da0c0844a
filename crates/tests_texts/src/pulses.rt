//! Programs whose threads tell each other that they began, so that their runs show which threads ran at the same time.

use crate::programs::{outcome, program_of};
use ada_port::Pulse;
use std::alloc::{AllocError, Global};
use std::sync::atomic::Ordering::SeqCst;
use std::sync::atomic::{AtomicBool, AtomicU64};
use std::thread::{Threads, yield_now};

// A thread that waits for another looks so often, and lets others run after each look.
const LOOKS: u32 = 1_000_000;

// Whether the flag comes to be set.
fn comes(flag: &AtomicBool) -> bool {
    for _ in 0..LOOKS {
        if flag.load(SeqCst) {
            return true;
        }
        yield_now();
    }
    false
}

/// The first three threads of a construct, each of which looks for a beginning of the one that is named for it.
#[derive(Drop)]
struct Meeting {
    partners: [u32; 3],
    begun: [AtomicBool; 3],
    met: AtomicU64,
}

impl Pulse for Meeting {
    fn begins(&self, thread: u32) {
        if let Some(flag) = self.begun.get(thread as usize) {
            flag.store(true, SeqCst);
        }
        if let Some(partner) = self.partners.get(thread as usize)
            && let Some(flag) = self.begun.get(*partner as usize)
            && comes(flag)
        {
            self.met.fetch_add(1, SeqCst);
        }
    }
}

fn digit(digits: &str, at: usize) -> u32 {
    match digits.as_bytes().get(at) {
        Some(byte) => u32::from(byte.wrapping_sub(b'0')),
        None => 3,
    }
}

fn meeting_of(digits: &str) -> Meeting {
    Meeting {
        partners: [digit(digits, 0), digit(digits, 1), digit(digits, 2)],
        begun: [
            AtomicBool::new(false),
            AtomicBool::new(false),
            AtomicBool::new(false),
        ],
        met: AtomicU64::new(0),
    }
}

/// Two threads that go on once both have begun, of which one is held long enough for the other to leave.
#[derive(Drop)]
struct Holding {
    held: u32,
    held_begun: AtomicBool,
    other_begun: AtomicBool,
}

impl Pulse for Holding {
    fn begins(&self, thread: u32) {
        if thread != self.held {
            self.other_begun.store(true, SeqCst);
            comes(&self.held_begun);
            return;
        }
        self.held_begun.store(true, SeqCst);
        if comes(&self.other_begun) {
            for _ in 0..LOOKS {
                yield_now();
            }
        }
    }
}

fn holding_of(digits: &str) -> Holding {
    Holding {
        held: digit(digits, 0),
        held_begun: AtomicBool::new(false),
        other_begun: AtomicBool::new(false),
    }
}

/// What comes of a program whose threads meet, where it isn't what is to come. In front of the program's fields stand three
/// digits, the threads that the first three look for; behind what is to come of it, how many of them saw theirs.
pub fn meeting_difference<R: Threads + Sync>(
    rt: &R,
    alloc: Global,
    fields: &str,
) -> Result<Option<String>, AllocError> {
    let (digits, rest) = fields.split_once('~').unwrap_or((fields, ""));
    let row = program_of(rest);
    let pulse = meeting_of(digits);
    let line = outcome(rt, alloc, &row, &pulse)?;
    let line = format!(in alloc; "{line}~{}", pulse.met.load(SeqCst))?;
    Ok((line.as_str() != row.wanted).then_some(line))
}

/// What comes of a program one of whose two threads is held, where it isn't what is to come. In front of the program's fields
/// stands the number of that thread.
pub fn holding_difference<R: Threads + Sync>(
    rt: &R,
    alloc: Global,
    fields: &str,
) -> Result<Option<String>, AllocError> {
    let (digits, rest) = fields.split_once('~').unwrap_or((fields, ""));
    let row = program_of(rest);
    let pulse = holding_of(digits);
    let line = outcome(rt, alloc, &row, &pulse)?;
    Ok((line.as_str() != row.wanted).then_some(line))
}
