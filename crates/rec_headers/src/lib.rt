//! Flow records of packet headers (sFlow Version 5, section 5): each is read from a frame's body and written as one.
#![tactic(auto)]

mod array;
mod ethernet;
mod ipv4;
mod ipv6;
mod raw;

pub use ethernet::EthernetRec;
pub use ipv4::Ipv4Rec;
pub use ipv6::Ipv6Rec;
pub use raw::RawHeader;

#[cfg(test)]
mod tests;
