//! The sampler of a source of flow samples: which packets are marked for a sample, and the sequence number, the
//! sample pool and the drops that a sample shows (sFlow Version 5, section 5).
#![tactic(auto)]

pub mod laws;
mod sampler;
mod skips;
#[cfg(test)]
mod tests;

pub use sampler::{Marks, Sampler, Verdict};
pub use skips::{MAX_SKIPS, Skips};
