//! What a collector shows: the views of streams and of sources, as plain values (sFlow Version 5, section 5).
#![tactic(auto)]

mod views;

pub use books_spec::{FirstFault, IfView, LedgerView, Limits, Totals};
pub use data_format::{Address, Fault, SourceId};
pub use views::{SourceView, StreamView};
