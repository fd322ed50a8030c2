//! What holds of the lines of a script: each is said by exactly one text, and what they make happen may happen.
//!
//! The functions have nothing to do: each stands for what its contract states of the definitions.
#![tactic(auto)]

mod laws;

pub use laws::{
    boots_may_happen, lines_are_given, lines_are_written, scripts_are_lawful, scripts_are_read,
    scripts_go_on,
};
