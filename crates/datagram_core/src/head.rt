use data_format::Address;

/// What stands before the samples of a datagram (sFlow Version 5, section 5).
#[derive(Clone, Copy, Debug, PartialEq, Eq)]
pub struct DatagramHead {
    /// The address of the agent.
    pub agent: Address,
    /// Which sub-agent of the agent sends.
    pub sub_agent: u32,
    /// The number of the datagram among those of the sub-agent, which wraps.
    pub sequence: u32,
    /// The uptime of the sub-agent in ms, which wraps.
    pub uptime: u32,
}
