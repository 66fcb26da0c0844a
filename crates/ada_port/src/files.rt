ghost use Rattle.std.specs.Prelude.{◌≡◌, ◌≤◌, IfOk, IfSome, vec_len};
ghost use Rattle.ada_port.specs.Ports.{Fetches, fetched};
ghost use Rattle.ada_port.specs.Shelves.{fetch_counted, untold};

use crate::counts::raise;
use crate::ports::{MOST_BYTES, Shelf, ShelfFault};
use std::alloc::Global;
use std::fs::File;
use std::io::Read;
use std::marker::Model;
use std::rt::Files;

/// The files of the system, each fetched by its path. Contracts see the count of faults and nothing of
/// what a file holds.
#[derive(Drop)]
pub struct FileShelf<R: Files + Drop> {
    files: R,
    faults: u64,
}

impl<R: Files + Drop> Model for FileShelf<R> {
    ghost use Rattle.std.specs.Prelude.{ℕ};

    ghost Value = { ℕ };

    ghost view = { λ s. s.faults };
}

impl<R: Files + Drop> FileShelf<R> {
    /// A shelf of these files.
    pub fn new(files: R) -> FileShelf<R>
        ensures { result ≡ 0 }
    {
        FileShelf { files, faults: 0 }
    }
}

impl<R: Files + Drop> Shelf for FileShelf<R> {
    ghost state = { untold };

    /// Reads the file of that path. `Failed` comes where the system can't open or read it, and each is
    /// counted; `OutOfMemory` where it or the allocator has no memory left.
    fn fetch(&mut self, alloc: Global, name: &str) -> Result<Vec<u8>, ShelfFault>
        ensures fetches { Fetches (untold self.old) (untold self.new) name.now result }
        ensures count { self.new ≡ fetch_counted result self.old }

        // Of what the file holds nothing is told, but that no more than this is given.
        ensures most { IfOk result (λ text. vec_len text ≤ MOST_BYTES) }
    {
        let text = read_file(&self.files, alloc, name);
        if matches!(text, Err(ShelfFault::Failed)) {
            self.faults = raise(self.faults);
        }
        text
    }

    fn faults(&self) -> u64 {
        self.faults
    }
}

// What of a file is fetched.
fn read_file<R: Files>(files: &R, alloc: Global, name: &str) -> Result<Vec<u8>, ShelfFault>
    ensures { IfOk result (λ text. vec_len text ≤ MOST_BYTES) }
{
    let file = File::open(files, name)?;
    read_text(file, alloc)
}

/// All the bytes that a reader has left, or as many as a fetch gives. `Failed` comes where it can't be read, and
/// `OutOfMemory` where it or the allocator has no memory left.
pub fn read_text<F: Read + Drop>(file: F, alloc: Global) -> Result<Vec<u8>, ShelfFault>
    ensures most { IfOk result (λ text. vec_len text ≤ MOST_BYTES) }
    ensures bytes { IfOk result (λ text. IfSome (F.remaining file) (λ left. text.items ≡ fetched left)) }
{
    let mut text = Vec::new(alloc);
    let mut front = file.take(MOST_BYTES as u64);
    front.read_to_end(&mut text)?;

    // Of a reader that tells nothing no contract says that so many bytes come.
    text.truncate(MOST_BYTES);
    Ok(text)
}
