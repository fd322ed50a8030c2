// What is made of a pcap file.

/// What is written of a pcap file.
#[derive(Clone, Copy, Debug, PartialEq, Eq)]
pub enum PcapOutput {
    /// A capture of the payloads.
    Capture,
    /// One line, which counts the packets by what became of them.
    Counts,
}
