//! Captures of both versions, classic pcap files and what their packets carry as definitions, and their laws.
//!
//! The definitions stand in `specs/`. A function here has no body: its contract is a law of theirs.
#![tactic(auto)]

mod byte_order;
mod capture_version;
mod passed;
mod payload_laws;
mod pcap_laws;
mod pcap_output;
mod version_laws;

pub use byte_order::ByteOrder;
pub use capture_version::CaptureVersion;
pub use passed::Passed;
pub use payload_laws::{payload_is_a_range, payload_rows, payload_rules};
pub use pcap_laws::{one_pcap_reading, pcap_reading_is_the_file, pcap_rows};
pub use pcap_output::PcapOutput;
pub use version_laws::{item_is_read, one_capture, received_reading_is_the_capture, version_rows};
