//! Whether the premises hold of what is delivered of a history, found out delivery by delivery.
#![tactic(auto)]

mod boots;
mod by_index;
mod delivered;
mod ends;
mod newest;
mod places;
mod premises;
pub mod rows;
mod sources;
mod streams;
mod window;

pub use books_spec::Limits;
pub use delivered::{TrueDatagram, TrueSample};
pub use premises::{Premises, roomy};

#[cfg(test)]
mod tests;
