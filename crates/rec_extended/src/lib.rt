//! Flow records of switches and routes (sFlow Version 5, section 5): each is read from a frame's body and written as one.
//! Lists are read from the borrowed bytes.
#![tactic(auto)]

mod gateway;
mod router;
mod switch;

pub use as_paths::{AsPath, Segment, Words};
pub use gateway::{GatewayHead, GatewayRec};
pub use router::RouterRec;
pub use switch::SwitchRec;

#[cfg(test)]
mod tests;
