//! A collector: datagrams and faults in order of arrival into the figures of each stream and each source, in tables
//! whose room is taken at the opening, and the sampled headers to consumers (sFlow Version 5, section 5).
#![tactic(auto)]

mod books;
mod collector;
mod first;
mod headers;
mod interfaces;
pub mod laws;
mod refusal;
mod samples;
mod shown;

pub use books::Seeds;
pub use collector::Collector;
pub use collector_views::{FirstFault, IfView, LedgerView, Limits, SourceView, StreamView, Totals};
pub use refusal::OpenRefusal;
pub use sample_taps::{ClassTotals, Tap, Taps};
pub use stream_books::Taken;

#[cfg(test)]
mod tests;
