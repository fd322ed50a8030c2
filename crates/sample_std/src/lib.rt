//! Samples in the compact form (sFlow Version 5, section 5): a source and a port are one word each.
#![tactic(auto)]

mod counters;
mod flow;

pub use counters::CountersSample;
pub use flow::FlowSample;

/// The compact form of heads. `compact` of each source and port that is written answers a word.
#[derive(Clone, Copy, Drop)]
pub struct CompactForm;
