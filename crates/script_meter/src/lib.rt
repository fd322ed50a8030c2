//! The meter of a script: what the counters of its sources stand at, by the packets that its lines say.
#![tactic(auto)]

mod meter;

pub use agent_poller::Meter;
pub use meter::{CountedRow, ScriptMeter, Tally};
