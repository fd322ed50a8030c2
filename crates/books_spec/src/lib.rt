//! What the books of a collector show: of a stream or a source over the boots of its stream, and of a whole list of
//! entries, as definitions in `specs`, and their laws. The values of which both the definitions and the program speak
//! are declared here: limits, what a sample shows, answers, views and totals.
//!
//! The laws have nothing to do: each stands for what its contract states of the definitions.
//! Every list in a contract has the latest first, unless it says otherwise.
#![tactic(auto)]

pub mod book_laws;
pub mod book_rows;
mod booked;
pub mod generation_laws;
pub mod generation_rows;
pub mod laws;
mod ledger_view;
mod limits;
pub mod parting_laws;
mod reading;
pub mod rows;
mod sample_place;
mod source_view;
mod taken;
mod totals;

pub use booked::Booked;
pub use ledger_view::LedgerView;
pub use limits::Limits;
pub use reading::SampleReading;
pub use sample_place::SamplePlace;
pub use source_view::{IfView, SourceLedgerView};
pub use taken::Taken;
pub use totals::{FirstFault, Totals};
