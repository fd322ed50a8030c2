//! Samples in the expanded form (sFlow Version 5, section 5): a source and a port are two words each.
#![tactic(auto)]

mod counters;
mod flow;

pub use counters::CountersSampleX;
pub use flow::FlowSampleX;

/// The expanded form of heads. Each source and port has a spelling in it.
#[derive(Clone, Copy, Drop)]
pub struct ExpandedForm;
