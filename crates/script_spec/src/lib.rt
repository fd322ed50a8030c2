//! What a script of an agent says, as definitions in `specs`, and their laws.
//!
//! The functions have nothing to do: each stands for what its contract states of the definitions.
#![tactic(auto)]

mod laws;
mod rows;
mod sending;

pub use laws::{one_script, reading_goes_on, script_reading_is_the_script};
pub use rows::{byte_rows, line_rows, number_rows, rule_rows, script_rows, shapeless_rows};
pub use sending::{count_rows, delivery_rows, poll_rows, sent_rows};
