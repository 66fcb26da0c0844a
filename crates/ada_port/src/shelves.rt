ghost use Rattle.std.specs.Prelude.{◌≡◌, ◌↔◌, IfErr, IfOk, IfSome, IsTrue, map, option_copied};
ghost use Rattle.ada_port.specs.Ports.{Fetches, fetched};
ghost use Rattle.ada_port.specs.Shelves.{after_fetch, fetch_fails, named_text, one_text, text_of, texts_of};

use crate::counts::raise;
use crate::ports::{MOST_BYTES, Shelf, ShelfFault};
use std::alloc::Global;
use std::marker::Model;

/// One text on a shelf.
#[derive(Drop)]
pub struct ShelfText {
    /// The name that it is fetched by.
    pub name: String,
    /// Its bytes, which need not be text.
    pub bytes: Vec<u8>,
}

/// Texts in memory, of which each has a name. A fetch fails exactly where the number of its call is
/// listed or no text has the name.
#[derive(Drop)]
pub struct MemShelf {
    texts: Vec<ShelfText>,
    fails: Vec<u64>,
    calls: u64,
    faults: u64,
}

impl Model for MemShelf {
    ghost use Rattle.std.specs.Prelude.{map};
    ghost use Rattle.ada_port.specs.Shelves.{ShelfState, named_text};

    ghost Value = { ShelfState };

    ghost view = { λ s. record {
      texts = map named_text s.texts.items;
      fails = s.fails.items;
      calls = s.calls;
      faults = s.faults;
    } };
}

impl MemShelf {
    /// A shelf with these texts, whose calls with the listed numbers, counted from 0, fail. Of two
    /// texts with one name the first counts.
    pub fn new(texts: Vec<ShelfText>, fails: Vec<u64>) -> MemShelf
        ensures { result ≡ record { texts = map named_text texts.items; fails = fails.items; calls = 0; faults = 0 } }
    {
        MemShelf {
            texts,
            fails,
            calls: 0,
            faults: 0,
        }
    }

    // The answer of the next call.
    fn answer(&self, alloc: Global, name: &str) -> Result<Vec<u8>, ShelfFault>
        ensures fails { (result ≡ Err ShelfFault.Failed) ↔ IsTrue (fetch_fails self.now name.now) }
        ensures bytes { IfOk result (λ bytes. IfSome (text_of self.now.texts name.now) (λ told. bytes.items ≡ fetched told)) }
    {
        if self.fails.contains(&self.calls) {
            return Err(ShelfFault::Failed);
        }
        match text_of(&self.texts, name) {
            Some(text) => copy_of(alloc, text),
            None => Err(ShelfFault::Failed),
        }
    }
}

impl Shelf for MemShelf {
    ghost state = { texts_of };

    /// Fetches the text of a name. `Failed` comes exactly where the call is listed or no text has the
    /// name. Every call counts, also one that runs out of memory.
    fn fetch(&mut self, alloc: Global, name: &str) -> Result<Vec<u8>, ShelfFault>
        ensures fetches { Fetches (texts_of self.old) (texts_of self.new) name.now result }

        // The shelf in memory says more: exactly when a fetch fails, and all that the call changes.
        ensures fails { (result ≡ Err ShelfFault.Failed) ↔ IsTrue (fetch_fails self.old name.now) }
        ensures state { self.new ≡ after_fetch self.old result }
    {
        let answer = self.answer(alloc, name);
        self.calls = raise(self.calls);
        if matches!(answer, Err(ShelfFault::Failed)) {
            self.faults = raise(self.faults);
        }
        answer
    }

    fn faults(&self) -> u64 {
        self.faults
    }
}

/// One text in memory for every name, which never fails. Contracts see its bytes.
#[derive(Drop)]
pub struct SureShelf {
    text: Vec<u8>,
}

impl Model for SureShelf {
    ghost use Rattle.std.specs.Prelude.{List, ℕ};

    ghost Value = { List ℕ };

    ghost view = { λ s. s.text.items };
}

impl SureShelf {
    /// A shelf that has this text for every name.
    pub fn new(text: Vec<u8>) -> SureShelf
        ensures { result ≡ text.items }
    {
        SureShelf { text }
    }
}

impl Shelf for SureShelf {
    ghost state = { one_text };

    /// Fetches the text. It fails for want of memory alone.
    fn fetch(&mut self, alloc: Global, name: &str) -> Result<Vec<u8>, ShelfFault>
        ensures fetches { Fetches (one_text self.old) (one_text self.new) name.now result }
        ensures memory { IfErr result (λ fault. fault ≡ ShelfFault.OutOfMemory) }
        ensures same { self.new ≡ self.old }
    {
        copy_of(alloc, &self.text)
    }

    fn faults(&self) -> u64 {
        0
    }
}

// The text of a name: of two entries for it the first counts.
fn text_of<'a>(texts: &'a [ShelfText], name: &str) -> Option<&'a [u8]>
    ensures { option_copied result ≡ text_of (map named_text texts.now) name.now }
{
    let mut rest = texts;
    while let Some((text, others)) = rest.split_first() {
        if text.name.as_str() == name {
            return Some(&text.bytes);
        }
        rest = others;
    }
    None
}

// All the bytes of a text, or as many as a fetch gives.
fn copy_of(alloc: Global, text: &[u8]) -> Result<Vec<u8>, ShelfFault>
    ensures bytes { IfOk result (λ bytes. bytes.items ≡ fetched text.now) }
    ensures memory { IfErr result (λ fault. fault ≡ ShelfFault.OutOfMemory) }
{
    let most = MOST_BYTES.min(text.len());
    Ok(Vec::from_slice(alloc, &text[..most])?)
}
