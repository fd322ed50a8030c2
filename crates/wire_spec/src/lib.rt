//! The wire formats, captures and texts of sFlow as definitions, and their laws.
//!
//! The definitions stand in `specs/`. A function here has no body: its contract is a law of theirs.
#![tactic(auto)]

mod captures;
mod examples;
mod failed;
mod fault;
mod further_examples;
mod further_formats;
mod grammar_laws;
mod input_kind;
mod limits;
mod pad;
mod spelling_laws;

pub use captures::{
    capture_grows, capture_rows, capture_walk, fault_is_within, front_is_read, one_capture_reading,
    reading_is_the_capture,
};
pub use examples::{datagrams_with_samples, datagrams_without_samples};
pub use failed::Failed;
pub use fault::{Fault, FaultKind};
pub use further_examples::datagrams_with_further_records;
pub use further_formats::{datagrams_without_further_records, other_formats_are_read_as_before};
pub use grammar_laws::{
    faults_stand_within_the_bytes, one_head_of_a_datagram, one_reading_of_a_datagram,
    one_reading_of_a_front, one_reading_of_a_whole, reading_finds_what_is_there,
};
pub use input_kind::InputKind;
pub use limits::{MAX_DATAGRAM, MAX_ENTRIES};
pub use pad::Pad;
pub use spelling_laws::{
    free_padding_takes_zero_padding, lawful_values_are_spelled, one_spelling_with_zero_padding,
    spelling_and_reading_are_inverse, spellings_have_one_length,
};
