//! What a collector counts of 32-bit sequence numbers, as definitions in `specs`, and their laws.
//!
//! The functions have nothing to do: each stands for what its contract states of the definitions.
//! Every list in a contract has the latest first.
#![tactic(auto)]

mod entered;
pub mod laws;
pub mod rows;
mod stretch_place;

pub use entered::{Entered, Place};
pub use stretch_place::StretchPlace;
