//! What the first bytes of a sampled packet say: its kind, VLAN, addresses, ports and flags.
#![tactic(auto)]

mod batch;
mod columns;
mod header;
mod holding;
mod internet;
mod lanes;
mod laws;
mod placing;
mod rows;
mod scanner;
mod slot;

pub use batch::{Batch, BatchFull};
pub use data_format::Address;
pub use header::{HeaderFacts, Kind};
pub use laws::{
    each_header_has_its_kind, each_kind_has_its_facts, ninety_six_bytes_tell,
    what_is_told_stands_there,
};
pub use rows::worked_headers;
pub use scanner::scan_one;
