//! Datagrams of sFlow Version 5 (section 5), their samples and their records: read from borrowed bytes, and written into
//! borrowed room, piece by piece or anew as they were read.
#![tactic(auto)]

mod check;
mod datagram;
mod head;
mod laws;
mod record;
mod record_writing;
mod records;
mod rewriting;
mod sample;
mod sample_head;
mod samples;
mod writer;
mod writer_parts;

pub use datagram::Datagram;
pub use head::DatagramHead;
pub use laws::{datagrams_over_all_records, written_datagrams_are_read};
pub use records::{Record, RecordKind, Records};
pub use rewriting::{RoomTooShort, write_anew};
pub use sample::Sample;
pub use sample_head::SampleHead;
pub use samples::Samples;
pub use writer::DatagramWriter;

#[cfg(test)]
mod tests;
