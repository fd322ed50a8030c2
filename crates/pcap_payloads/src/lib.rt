//! The payloads of a pcap file on their way into a capture of version 2, or how many of its packets have one.
#![tactic(auto)]

mod packet_counts;
mod packets;
mod sent_items;

pub use capture_spec::PcapOutput;
pub use packet_counts::PacketCounts;
pub use packets::{WalkStop, put_last, take_packets};
pub use sent_items::{put_end_item, put_item, put_padded};
