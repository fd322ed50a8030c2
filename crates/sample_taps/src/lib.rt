//! Consumers of sampled headers: each takes briefs until it is done, and is then let go.
#![tactic(auto)]

mod brief;
mod briefing;
mod class_totals;
mod count_tap;
pub mod laws;
mod length_tap;
pub mod rows;
mod tap;
mod taps;
mod top_port_tap;

pub use brief::{Brief, Sampled};
pub use briefing::Briefing;
pub use class_totals::ClassTotals;
pub use count_tap::CountTap;
pub use header_lanes::{Address, HeaderFacts, Kind};
pub use length_tap::LengthTap;
pub use tap::{Line, Tap};
pub use taps::Taps;
pub use top_port_tap::TopPortTap;

#[cfg(test)]
mod tests;
