//! What was sent by an agent is what is read: from the bytes of an entry to the datagram that was delivered.
//!
//! The functions have nothing to do: each stands for what its contract states of the definitions.
#![tactic(auto)]

pub mod header_rows;
pub mod laws;
pub mod rows;
pub mod whole;
