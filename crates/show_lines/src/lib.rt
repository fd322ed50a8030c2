//! The lines that show an entry of a capture: its datagram with the samples and records, or the fault of its bytes.
#![tactic(auto)]

mod counters;
mod entry;
mod extended;
mod further;
mod headers;
mod laws;
mod lines;
mod parts;
mod path;
mod record;
mod sample;

pub use entry::{put_entry, put_received, show_entry};
pub use laws::{shown_as_the_grammar_says, worked_entries, worked_further_records, worked_records};

#[cfg(test)]
mod tests;
