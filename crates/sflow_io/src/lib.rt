//! Captures over sources and sinks of bytes, read and written entry by entry.
#![tactic(auto)]

mod capture;
mod capture_header;
mod capture_reader;
mod capture_writer;
mod capture_writer2;
mod entry_reader;
mod item_reader;
mod item_writer;
mod part;
mod sender;

pub use byte_ends::{
    Failed, InputSource, MemorySink, MemorySource, OutputSink, ReadAhead, Sink, Source, read_most,
    write_all,
};
pub use capture::{Memory, Next, ReadRefusal, Stage, WriteFault};
pub use capture_reader::CaptureReader;
pub use capture_spec::CaptureVersion;
pub use capture_writer::CaptureWriter;
pub use capture_writer2::CaptureWriter2;
pub use sender::Sender;
pub use wire_spec::InputKind;

#[cfg(test)]
mod tests;
