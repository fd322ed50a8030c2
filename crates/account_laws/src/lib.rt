//! That the books of a collector are the account of what was delivered, where the premises hold.
//!
//! The functions have nothing to do: each stands for what its contract states of the definitions.
//! Every list in a contract has the latest first, unless it says otherwise.
#![tactic(auto)]

pub mod laws;
pub mod rows;
