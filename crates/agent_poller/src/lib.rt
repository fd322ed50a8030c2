//! The polls of a counter source: when one is due, the sequence number that it takes, and the meter that it reads
//! (sFlow Version 5, section 5).
#![tactic(auto)]

pub mod laws;
mod list_meter;
mod meter;
mod poller;
#[cfg(test)]
mod tests;

pub use data_format::{Failed, SourceId};
pub use list_meter::ListMeter;
pub use meter::Meter;
pub use poller::{MeterFault, Polled, Poller};
pub use rec_counters::IfCounters;
