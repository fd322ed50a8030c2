//! The tables of a collector: the streams and the sources that are listed, in order of first arrival, each with what
//! is kept of it, in room that is taken at the opening (sFlow Version 5, section 5).
#![tactic(auto)]

mod keys;
mod sources;
mod streams;

pub use keys::{SampleKind, SourceKey, StreamKey};
pub use sources::{EnteredAt, SourceTable};
pub use streams::{StreamTable, TakenAt};

#[cfg(test)]
mod tests;
