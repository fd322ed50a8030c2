//! What a collector keeps of one stream and of one source: of a stream its boots, told apart by arrival and uptime,
//! and its datagram numbers; of a source its sample numbers over generations, and of a source of flow samples the pool,
//! the drops and the rate (sFlow Version 5, section 5).
#![tactic(auto)]

pub mod laws;
mod place;
mod source;
mod stream;
mod taken;

pub use books_spec::{Booked, LedgerView, SamplePlace, SampleReading, SourceLedgerView, Taken};
pub use late_window::Entered;
pub use source::SourceRecord;
pub use stream::StreamRecord;
pub use taken::Receipt;

#[cfg(test)]
mod tests;
