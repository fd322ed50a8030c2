// Whether words are lawful under the rules of a command. Nothing here takes memory.
ghost use Rattle.std.specs.Prelude.{◌≡◌, List, Some, false, is_some, map, option_map, string_bytes};
ghost use Rattle.std.specs.List.{list_all};
ghost use Rattle.std.specs.Option.{option_map_or};
ghost use Rattle.command_words.specs.Arguments.{rule_in, rules_in};
ghost use Rattle.command_words.specs.Pieces.{Piece as ReadPiece, count_of, text_of};
ghost use Rattle.command_words.specs.Reading.{is_counted, is_count, lawful_pieces, pieces_from};

use crate::arguments::{Argument, Form};
use crate::meaning::{Meaning, read_word};

// How many of the pieces have the name, or None where the words aren't made of pieces.
fn count(arguments: &[Argument], words: &[String], name: &str) -> Option<usize>
    ensures { result ≡ option_map (count_of name.now)
        (pieces_from (rules_in arguments.now) None (map string_bytes words.now)) }
{
    let mut count = 0;
    let mut waiting = None;
    for word in words {
        match read_word(arguments, waiting, word.as_str()) {
            Meaning::Whole(piece) => {
                waiting = None;
                if piece.name() == name {
                    count += 1;
                }
            }
            Meaning::Opens(option) => waiting = Some(option),
            Meaning::Nothing => return None,
        }
    }
    match waiting {
        Some(_) => None,
        None => Some(count),
    }
}

// The text of the option, where the words are made of pieces and it is among them.
pub(crate) fn text<'a>(arguments: &[Argument], words: &'a [String], name: &str) -> Option<&'a str>
    ensures { (pieces : List ReadPiece)
        → pieces_from (rules_in arguments.now) None (map string_bytes words.entry.now) ≡ Some pieces
        → option_map (λ t. t.now) result ≡ text_of name.now pieces }
{
    let mut waiting = None;
    for word in words {
        match read_word(arguments, waiting, word.as_str()) {
            Meaning::Whole(piece) => {
                waiting = None;
                if piece.name() == name {
                    return piece.text();
                }
            }
            Meaning::Opens(option) => waiting = Some(option),
            Meaning::Nothing => return None,
        }
    }
    None
}

fn may_stand(form: Form, count: usize) -> bool
    ensures { result ≡ is_count form count }
{
    match form {
        Form::Flag | Form::Optional => count <= 1,
        Form::Required => count == 1,
    }
}

// Whether the argument stands as often as it may.
fn stands(arguments: &[Argument], words: &[String], argument: &Argument) -> bool
    ensures { result ≡ option_map_or (λ pieces. is_counted pieces (rule_in argument.now))
        (pieces_from (rules_in arguments.now) None (map string_bytes words.now)) false }
{
    match count(arguments, words, argument.name) {
        Some(count) => may_stand(argument.form, count),
        None => false,
    }
}

fn all_stand(arguments: &[Argument], words: &[String]) -> bool
    ensures { result ≡ list_all (λ argument. option_map_or (λ pieces. is_counted pieces (rule_in argument))
        (pieces_from (rules_in arguments.now) None (map string_bytes words.now)) false) arguments.now }
{
    arguments
        .iter()
        .all(|argument| stands(arguments, words, argument))
}

/// Whether the words are lawful under the rules.
pub(crate) fn are_lawful(arguments: &[Argument], words: &[String]) -> bool
    ensures { result ≡ is_some (lawful_pieces (rules_in arguments.now) (map string_bytes words.now)) }
{
    if arguments.is_empty() {
        words.is_empty()
    } else {
        all_stand(arguments, words)
    }
}
