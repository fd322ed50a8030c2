//! What an agent samples, polls and sends, as definitions in `specs`, and their laws.
//!
//! The functions have nothing to do: each stands for what its contract states of the definitions.
//! Every list in a contract has the latest first.
#![tactic(auto)]

pub mod laws;
pub mod rows;
pub mod sending;
