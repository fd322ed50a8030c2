//! What the lines of a script have set up and sent, in tables, and which line may follow them.
#![tactic(auto)]

mod going_on;
mod laws;
mod rows;
mod search;
mod setups;
mod tables;

pub use agent_setups::{CounterSetup, FlowSetup, Setup};
pub use laws::{one_form, setups_are_accepted};
pub use rows::{BootRow, SourceRow, SubPlace, SubRow};
pub use setups::ScriptSetups;
pub use tables::ScriptTables;

#[cfg(test)]
mod tests;
