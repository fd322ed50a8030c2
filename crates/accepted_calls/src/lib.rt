//! What the calls of a sub-agent take is what a history of agents may hold, so that what is sent is read as it was meant.
//!
//! The functions have nothing to do: each stands for what its contract states of the definitions.
#![tactic(auto)]

pub mod laws;
