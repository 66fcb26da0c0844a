//! The outside as the compiler and the programs that it runs see it: where texts are fetched, where
//! input comes from, where output goes, and who is told that a thread begins.
#![tactic(auto)]

mod counts;
pub mod files;
pub mod log;
pub mod ports;
pub mod pulses;
pub mod shelves;
pub mod sinks;
pub mod sources;
pub mod streams;

pub use files::FileShelf;
pub use log::Log;
pub use ports::{Failed, Pulse, Shelf, ShelfFault, Sink, Source};
pub use pulses::Quiet;
pub use shelves::{MemShelf, ShelfText, SureShelf};
pub use sinks::{HeldSink, MemSink, SinkFail, SureSink};
pub use sources::{MemSource, SureSource};
pub use streams::{ErrSink, StdSink, StdSource, StreamSink, StreamSource};
