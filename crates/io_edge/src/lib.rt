//! The edge to the world: shelves that files are read from, and sinks that bytes are sent to.
#![tactic(auto)]

mod calls;
mod files;
mod memory_shelf;
mod memory_sink;
mod read;
mod shelf;
mod sink;
mod std_shelf;
mod std_sink;
mod sure_shelf;
mod sure_sink;
mod write;

pub use memory_shelf::MemoryShelf;
pub use memory_sink::MemorySink;
pub use read::{ReadStop, read_source};
pub use shelf::{Got, Picked, Shelf};
pub use sink::{Put, Sink};
pub use std_shelf::StdShelf;
pub use std_sink::StdSink;
pub use sure_shelf::SureShelf;
pub use sure_sink::SureSink;
pub use write::{WriteFault, put_all};

#[cfg(test)]
mod tests;
