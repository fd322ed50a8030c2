//! What a trial of a history is asked: whether the premises hold of what was delivered of it, found out item by item; and the
//! made run, a history and its deliveries from a seed.
//!
//! The functions have nothing to do: each stands for what its contract states of the definitions.
#![tactic(auto)]

pub mod laws;
pub mod rows;
