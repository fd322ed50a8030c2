// The limits of a collector, from the texts of their options.
ghost use Rattle.std.specs.Prelude.{◌≡◌, List, option_map};
ghost use Rattle.std.specs.Prelude.{Some, map, string_bytes};
ghost use Rattle.clap.specs.Words.{first_value, found_of};
ghost use Rattle.command_words.specs.Arguments.{rules_in};
ghost use Rattle.command_words.specs.Limits.{limits_asked, number_or as number, texts_by, texts_in};
ghost use Rattle.command_words.specs.Pieces.{Piece, text_of};
ghost use Rattle.command_words.specs.Reading.{pieces_from};

use crate::arguments::Argument;
use crate::number::number_in;
use crate::reading::text;
use clap::ArgMatches;
use collector_views::Limits;

// The texts of the options that are given.
#[derive(Clone, Copy, Debug)]
pub(crate) struct LimitTexts<'a> {
    streams: Option<&'a str>,
    sources: Option<&'a str>,
    datagram_width: Option<&'a str>,
    sample_width: Option<&'a str>,
    boot_slack: Option<&'a str>,
}

impl<'a> LimitTexts<'a> {
    // Those among the words, by our own reading.
    pub(crate) fn in_words(arguments: &[Argument], words: &'a [String]) -> LimitTexts<'a>
        ensures { (pieces : List Piece)
            → pieces_from (rules_in arguments.now) None (map string_bytes words.entry.now) ≡ Some pieces
            → texts_in result ≡ texts_by (λ name. text_of name pieces) }
    {
        LimitTexts {
            streams: text(arguments, words, "streams"),
            sources: text(arguments, words, "sources"),
            datagram_width: text(arguments, words, "datagram-width"),
            sample_width: text(arguments, words, "sample-width"),
            boot_slack: text(arguments, words, "boot-slack"),
        }
    }

    // Those that `clap` has read.
    pub(crate) fn in_matches(matches: &ArgMatches<'a>) -> LimitTexts<'a>
        ensures { texts_in result ≡ texts_by (first_value (found_of matches.now)) }
    {
        LimitTexts {
            streams: matches.get_str("streams"),
            sources: matches.get_str("sources"),
            datagram_width: matches.get_str("datagram-width"),
            sample_width: matches.get_str("sample-width"),
            boot_slack: matches.get_str("boot-slack"),
        }
    }

    // The limits that they ask for, or None where a text is no number or a number is out of its range.
    pub(crate) fn limits(&self) -> Option<Limits>
        ensures { result ≡ limits_asked (texts_in self.now) }
    {
        let usual = Limits::usual();
        let limits = Limits {
            streams: number_or(usual.streams, self.streams)?,
            sources: number_or(usual.sources, self.sources)?,
            datagram_width: number_or(usual.datagram_width, self.datagram_width)?,
            sample_width: number_or(usual.sample_width, self.sample_width)?,
            boot_slack: number_or(usual.boot_slack, self.boot_slack)?,
        };
        match limits.refused() {
            None => Some(limits),
            Some(_) => None,
        }
    }
}

// The number that the text writes, or the usual one where there is no text.
fn number_or(usual: u32, text: Option<&str>) -> Option<u32>
    ensures { result ≡ number usual (option_map (λ t. t.now) text.entry) }
{
    match text {
        Some(text) => number_in(text),
        None => Some(usual),
    }
}
