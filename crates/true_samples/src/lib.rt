//! What the sub-agents of a device truly counted: the numbers, pools and drops of their samples, which never wrap, and which
//! samples each datagram took.
//!
//! A device shows words of 32 bits. Beside each of its sub-agents stands one account, which is told what the sub-agent did
//! and counts along.
#![tactic(auto)]

mod boots;
mod calls;
mod counts;
mod opening;
mod polling;
pub mod rows;
mod samples;
mod sending;
mod sub_agent;

pub use agent_outlets::Put;
pub use agent_setups::Setup;
pub use calls::Seen;
pub use samples::{IssuedSample, SentDatagram};
pub use sub_agent::{Totals, TrueSubAgent};

#[cfg(test)]
mod tests;
