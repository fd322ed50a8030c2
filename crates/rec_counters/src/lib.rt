//! Counter records of the standard (sFlow Version 5, section 5): each is read from a frame's body and written as one.
#![tactic(auto)]

mod ethernet;
mod interface;
mod vlan;

pub use ethernet::EthernetCounters;
pub use interface::IfCounters;
pub use vlan::VlanCounters;

#[cfg(test)]
mod tests;
