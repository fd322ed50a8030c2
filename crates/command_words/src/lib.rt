//! The words of the command line, and the command that they ask for.
//!
//! Whether words are lawful, and their numbers within their ranges, is decided by the definitions of `specs/`, before
//! any memory is taken. Lawful words are then read by `clap`, and the values of a command come from its matches.
#![tactic(auto)]

mod arguments;
mod asking;
mod collection;
mod command;
mod examples;
mod laws;
mod limits;
mod matching;
mod meaning;
mod number;
mod place;
mod reading;
mod relay_words;
mod trial_runs;
mod trial_words;
mod words_of_links;

pub use arguments::{CommandName, Form};
pub use capture_spec::PcapOutput;
pub use collection::Collection;
pub use collector_views::Limits;
pub use command::{CanonVersion, Command, WordsRefusal, read_words};
pub use examples::{words_of_commands, words_of_limits, words_with_options};
pub use laws::{
    commands_are_spelled, lawful_words_have_one_reading, limits_are_lawful, numbers_are_decimal,
};
pub use place::Place;
pub use relay_out::Routes;
pub use relay_words::{words_of_relay, words_with_receivers};
pub use trial_words::{words_of_made_trial, words_of_trial};
pub use words_of_links::{words_of_collect, words_of_send};

#[cfg(test)]
mod tests;
