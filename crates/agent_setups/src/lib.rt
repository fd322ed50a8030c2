//! How the sub-agents of a sampling agent are set up, and what is wrong with a set-up (sFlow Version 5, its MIB).
#![tactic(auto)]

mod faults;
mod ids;
mod lists;
mod setup;

pub use faults::fault;
pub use ids::place_of;
pub use lists::{form_for, list_fault};
pub use setup::{CounterSetup, FlowSetup, OpenRefusal, Setup};
