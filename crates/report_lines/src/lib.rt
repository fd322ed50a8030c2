//! The lines of the report of a collector, which go through a page to a sink.
#![tactic(auto)]

mod class_line;
mod ending;
pub mod header_rows;
mod interface;
pub mod interface_rows;
pub mod rows;
mod source;
mod stream;
mod tap_lines;
mod trial_lines;
pub mod trial_rows;

pub use class_line::put_classes;
pub use ending::{put_end, put_first_fault, put_total};
pub use interface::put_interface;
pub use source::put_source;
pub use stream::put_stream;
pub use tap_lines::put_taps;
pub use trial_lines::{TrialPremises, put_agent_line, put_premises_line};
