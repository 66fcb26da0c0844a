//! Devices over files, readers and writers, and those that never fail. The source in memory that fails is tested by the
//! Gets in integers.rt, the shelf and the sink in memory by rows of tests_texts.
ghost use Rattle.std.specs.Prelude.{◌≡◌, IfOk};

use ada_port::files::read_text;
use ada_port::{
    ErrSink, FileShelf, Shelf, ShelfFault, Sink, Source, StdSink, StdSource, StreamSink,
    StreamSource, SureShelf, SureSink,
};
use std::alloc::{AllocError, Global};
use std::io;
use std::io::{ErrorKind, Read, Write};

#[test]
fn shelf_of_files_fails_where_there_is_none(rt: HostRuntime) {
    let alloc = rt.alloc();
    let mut shelf = FileShelf::new(rt);
    let failed = matches!(shelf.fetch(alloc, "absent.ada"), Err(ShelfFault::Failed));
    assert!(rt; failed && shelf.faults() == 1);
}

// Whether the next byte is this one.
fn gives<S: Source>(source: &mut S, byte: u8) -> bool {
    match source.next() {
        Ok(Some(next)) => next == byte,
        _ => false,
    }
}

// Whether the sink takes the piece.
fn takes<S: Sink>(sink: &mut S, piece: &str) -> bool {
    sink.put(piece.as_bytes()).is_ok()
}

#[test]
fn devices_that_are_sure_give_and_take_all(rt: HostRuntime) -> Result<(), AllocError> {
    let alloc = rt.alloc();
    let mut shelf = SureShelf::new(Vec::from_slice(alloc, b"one")?);
    let mut sink = SureSink::new();
    let given = match shelf.fetch(alloc, "any name") {
        Ok(text) => text.as_slice() == "one".as_bytes(),
        Err(_) => false,
    };
    let taken = takes(&mut sink, "abc") && takes(&mut sink, "d");
    assert!(rt; given && taken && sink.count() == 4);
    Ok(())
}

// A test is run on empty input.
#[test]
fn standard_ports_are_asked(rt: HostRuntime) {
    let ended = matches!(StdSource::new(rt.stdin()).next(), Ok(None));
    let put = takes(&mut StdSink::new(rt.stdout()), "a piece\n");
    let told = takes(&mut ErrSink::new(rt.stderr()), "a piece\n");
    assert!(rt; ended && put && told);
}

// Gives two bytes at a time and takes one, so often; then it gives this answer once, and after that it goes on. So it is
// seen whether a call that failed is made again.
#[derive(Drop)]
struct Halting {
    left: usize,
    halt: Result<usize, ErrorKind>,
}

impl Halting {
    fn halt(&mut self) -> io::Result<usize>
        ensures { IfOk result (λ count. count ≡ 0) }
    {
        self.left = 100;
        match self.halt {
            Ok(_) => Ok(0),
            Err(kind) => Err(io::Error::from(kind)),
        }
    }
}

impl Read for Halting {
    fn read(&mut self, buf: &mut [u8]) -> io::Result<usize> {
        if self.left == 0 || buf.len() < 2 {
            return self.halt();
        }
        self.left -= 1;
        buf[0] = b'a';
        buf[1] = b'b';
        Ok(2)
    }
}

impl Write for Halting {
    fn write(&mut self, buf: &[u8]) -> io::Result<usize> {
        if self.left == 0 || buf.is_empty() {
            return self.halt();
        }
        self.left -= 1;
        Ok(1)
    }

    // What was taken can be lost where none more is.
    fn flush(&mut self) -> io::Result<()> {
        match self.halt {
            Err(kind) if self.left == 0 => Err(io::Error::from(kind)),
            _ => Ok(()),
        }
    }
}

// How many bytes are read of six and what comes then.
fn read_of(halt: Result<usize, ErrorKind>, alloc: Global) -> Result<usize, ShelfFault> {
    let text = read_text(Halting { left: 3, halt }, alloc)?;
    Ok(text.len())
}

#[test]
fn reading_ends_as_the_reader_does(rt: HostRuntime) {
    let alloc = rt.alloc();
    let all = matches!(read_of(Ok(0), alloc), Ok(6));
    let broken = matches!(
        read_of(Err(ErrorKind::BrokenPipe), alloc),
        Err(ShelfFault::Failed)
    );
    let lacking = matches!(
        read_of(Err(ErrorKind::OutOfMemory), alloc),
        Err(ShelfFault::OutOfMemory)
    );
    assert!(rt; all && broken && lacking);
}

#[test]
fn source_over_a_reader_fails_where_it_does(rt: HostRuntime) {
    for (halt, faults) in [(Ok(0), 0), (Err(ErrorKind::Interrupted), 1)] {
        let mut source = StreamSource::new(Halting { left: 2, halt });
        for byte in [b'a', b'b', b'a', b'b'] {
            assert!(rt; gives(&mut source, byte));
        }
        let halted = match source.next() {
            Ok(None) => faults == 0,
            Err(_) => faults == 1,
            Ok(Some(_)) => false,
        };
        assert!(rt; halted && source.faults() == faults && gives(&mut source, b'a'));
    }
}

#[test]
fn writing_fails_where_no_byte_is_taken(rt: HostRuntime) {
    for (left, halt, faults) in [
        (4, Ok(0), 0),
        (3, Ok(0), 1),
        (3, Err(ErrorKind::Interrupted), 1),
        (4, Err(ErrorKind::BrokenPipe), 1),
    ] {
        let mut sink = StreamSink::new(Halting { left, halt });
        let is_right = takes(&mut sink, "abcd") == (faults == 0);
        assert!(rt; is_right && sink.faults() == faults);
    }
}
