//! A script as a history and what is delivered of it: what its sub-agents are and what happened to each, boot by boot, and
//! which of their datagrams arrive.
//!
//! The functions have nothing to do: each stands for what its contract states of the definitions.
#![tactic(auto)]

pub mod laws;
pub mod rows;
