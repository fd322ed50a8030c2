//! The words of a line of a script, read from the first one on: numbers, sources, addresses, headers and skip numbers.
#![tactic(auto)]

mod addresses;
mod hex;
mod numbers;
mod values;
mod words;

pub use addresses::address_in;
pub use agent_sampler::Skips;
pub use arrayvec::ArrayVec;
pub use data_format::{Address, SourceId};
pub use words::Words;
