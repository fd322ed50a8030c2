//! Sources and sinks of bytes, over memory and over the standard streams. Each counts its own faults.
//!
//! The standard streams tell nothing of their bytes, so no clause ties what they move to the stream: an
//! input that is always at its end would keep its contract. They are only tried by tests and programs.
#![tactic(auto)]

mod input;
mod memory_sink;
mod memory_source;
mod output;
mod read_ahead;
mod retry;
mod sink;
mod source;

pub use input::InputSource;
pub use memory_sink::MemorySink;
pub use memory_source::MemorySource;
pub use output::OutputSink;
pub use read_ahead::ReadAhead;
pub use sink::{Sink, write_all};
pub use source::{Source, read_most};
pub use wire_spec::Failed;

#[cfg(test)]
mod tests;
