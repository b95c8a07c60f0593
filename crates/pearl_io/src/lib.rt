//! The outside: shelves that files are fetched from, sinks that bytes are put into, of each two
//! that live in memory, and a sink that keeps nothing.
//!
//! All code above reads and writes through [`Shelf`] and [`Sink`] alone, whatever stands behind
//! them. [`fetch_all`] reads a whole file and [`put_all`] writes a whole piece.
#![tactic(auto)]

mod fetch;
mod files;
mod memory;
mod outside;
mod put;
mod sure;

pub use fetch::{Fetched, fetch_all};
pub use files::File;
pub use memory::{MemoryShelf, MemorySink};
pub use outside::{Failed, Shelf, Sink, WriteFault};
pub use put::put_all;
pub use sure::{SureShelf, SureSink, VoidSink};
