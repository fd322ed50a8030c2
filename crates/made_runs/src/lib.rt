//! The made run as it goes on: its packets, and what becomes of each datagram that is sent. Whoever drives it holds the
//! device, its true counts and the bytes of its datagrams.
#![tactic(auto)]

mod arrivals;
mod draws;
pub mod laws;
mod packets;
pub mod rows;
mod run;
mod script;
mod setups;
mod turns;

pub use arrivals::{Arrival, Arrivals};
pub use packets::MadePacket;
pub use run::MadeRun;
pub use script::MadeScript;
pub use setups::setup;
pub use turns::{is_last_of_boot, is_sent};

#[cfg(test)]
mod tests;
