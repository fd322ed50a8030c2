//! What a collector is to show of agents, by the agents' own counts: the account of a history and of what was delivered
//! of it, and what is assumed so that the books of a collector are the account. Definitions stand in `specs`.
//!
//! The functions have nothing to do: each stands for what its contract states of the definitions.
//! Every list in a contract has the latest first, unless it says otherwise.
#![tactic(auto)]

pub mod rows;
