//! Classic pcap files, packet by packet, and the payloads that their packets carry to a collector.
#![tactic(auto)]

mod header;
mod packet_reader;
mod payload;
mod pcap_reader;
mod reading;

pub use capture_spec::{ByteOrder, Passed};
pub use payload::{Payload, read_payload};
pub use pcap_reader::PcapReader;
pub use reading::{PcapNext, PcapStage};
pub use sflow_io::{Memory, ReadRefusal, Sender, Source};
pub use wire_spec::InputKind;

#[cfg(test)]
mod tests;
