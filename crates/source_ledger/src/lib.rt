//! Ledgers over the boots of a stream: of its datagram numbers, and of the sample numbers of its sources with
//! the sample pool, the drops and the sampling rate (sFlow Version 5, section 5). A ledger of a source parts each boot
//! into generations, at the resets of the source.
//!
//! A ledger keeps a window for the boot or generation that was entered last, the values at its least and its greatest
//! number, and sums. It is told of a boot by the number of the boot, from 1 on.
#![tactic(auto)]

mod boots;
mod flow;
mod generations;
pub mod laws;
mod marks;
mod places;
mod rise;

pub use books_spec::{Booked, LedgerView, SamplePlace};
pub use boots::BootLedger;
pub use flow::FlowLedger;
pub use generations::GenerationLedger;
pub use late_window::{Entered, Place};

/// The datagram numbers of a stream over its boots.
pub type StreamLedger = BootLedger;

/// The sample numbers of a source of counters samples, over the generations of the boots of its stream.
pub type CounterLedger = GenerationLedger;
