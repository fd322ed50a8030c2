//! Scripts of an agent, read line by line.
#![tactic(auto)]

mod forms;
mod line;
mod place;
mod reader;
mod step;
mod text;

pub use agent_sampler::Skips;
pub use byte_ends::Source;
pub use data_format::{Address, SourceId};
pub use line::ScriptLine;
pub use place::Place;
pub use reader::ScriptReader;
pub use sflow_io::{Memory, ReadRefusal};

#[cfg(test)]
mod tests;
