//! The sub-agents of a sampling agent: packets are observed and counters polled, and samples wait in a stage for a
//! datagram (sFlow Version 5, section 5).
#![tactic(auto)]

mod device;
mod device_calls;
pub mod laws;
mod observing;
mod opening;
mod packet;
mod polling;
mod resetting;
mod sending;
mod sources;
mod staged;
mod sub_agent;
mod writing;

pub use agent_outlets::{ListOutlet, Outlet, OutletFault, Put};
pub use agent_setups::{CounterSetup, FlowSetup, OpenRefusal, Setup};
pub use data_format::{Address, Failed, Form, Port, SourceId};
pub use device::Device;
pub use packet::{ObserveRefusal, Packet, Seen};
pub use polling::PollRefusal;
pub use resetting::NoSource;
pub use sub_agent::SubAgent;
