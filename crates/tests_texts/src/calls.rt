//! Calls of the program's top call on objects in memory, which may fail.

use ada_port::{MemShelf, MemSink, MemSource, Pulse, ShelfText, SinkFail};
use std::alloc::{AllocError, Global};
use std::thread::Threads;
use top_call::run_words;

// The bytes for which out and err have room.
const ROOM: u64 = 65_536;

/// The words behind the program's name, the text that the shelf has as `t.ada`, and the input.
#[derive(Clone, Copy)]
pub struct Call<'a> {
    pub words: &'a str,
    pub text: &'a [u8],
    pub input: &'a [u8],
}

/// Which calls of the devices fail.
#[derive(Drop)]
pub struct Faults {
    shelf: Vec<u64>,
    input: Vec<u64>,
    out: Vec<SinkFail>,
    err: Vec<SinkFail>,
}

impl Faults {
    /// No call fails.
    pub fn none(alloc: Global) -> Faults {
        Faults {
            shelf: Vec::new(alloc),
            input: Vec::new(alloc),
            out: Vec::new(alloc),
            err: Vec::new(alloc),
        }
    }

    /// The faults of a field: for each a word `DEVICE:CALL`, and for one of out or err `DEVICE:CALL+BYTES`, where a call has the
    /// number of those before it, and so many bytes of its piece are put.
    pub fn of(alloc: Global, field: &str) -> Result<Faults, AllocError> {
        let mut faults = Faults::none(alloc);
        for word in field.split_whitespace() {
            let (device, place) = word.split_once(':').unwrap_or((word, ""));
            let (call, bytes) = place.split_once('+').unwrap_or((place, "0"));
            let call = call.parse().unwrap_or(0);
            let pass = bytes.parse().unwrap_or(0);
            match device {
                "shelf" => faults.shelf.push(call)?,
                "input" => faults.input.push(call)?,
                "out" => faults.out.push(SinkFail { call, pass })?,
                _ => faults.err.push(SinkFail { call, pass })?,
            }
        }
        Ok(faults)
    }
}

fn words_of(alloc: Global, line: &str) -> Result<Vec<String>, AllocError> {
    let mut words = Vec::new(alloc);
    for word in line.split_whitespace() {
        words.push(String::from_str(alloc, word)?)?;
    }
    Ok(words)
}

fn shelf_of(alloc: Global, text: &[u8], fails: Vec<u64>) -> Result<MemShelf, AllocError> {
    let text = ShelfText {
        name: String::from_str(alloc, "t.ada")?,
        bytes: Vec::from_slice(alloc, text)?,
    };
    Ok(MemShelf::new(vec![in alloc; text]?, fails))
}

/// A byte of a field, where a bar stands for the end of a line and the end of a line for a bar.
pub fn swapped(byte: u8) -> u8 {
    match byte {
        b'|' => b'\n',
        b'\n' => b'|',
        other => other,
    }
}

/// Some bytes, as fields have them.
fn push_field(line: &mut String, bytes: &[u8]) -> Result<(), AllocError> {
    for byte in bytes {
        line.push(char::from(swapped(*byte)))?;
    }
    Ok(())
}

/// What came of a call, as fields have it: the status, and what was put to out and to err. The pulse is told of the threads
/// that begin.
pub fn came<R: Threads + Sync, P: Pulse + Sync>(
    rt: &R,
    alloc: Global,
    call: Call<'_>,
    faults: Faults,
    pulse: &P,
) -> Result<String, AllocError> {
    let words = words_of(alloc, call.words)?;
    let mut shelf = shelf_of(alloc, call.text, faults.shelf)?;
    let input = MemSource::new(Vec::from_slice(alloc, call.input)?, faults.input);
    let out = MemSink::new(alloc, ROOM, faults.out)?;
    let mut err = MemSink::new(alloc, ROOM, faults.err)?;
    let finished = run_words(rt, alloc, &words, &mut shelf, input, out, &mut err, pulse);
    let mut line = format!(in alloc; "{}~", finished.status)?;
    push_field(&mut line, finished.out.bytes())?;
    line.push('~')?;
    push_field(&mut line, err.bytes())?;
    Ok(line)
}
