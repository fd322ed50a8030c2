ghost use Rattle.std.specs.Prelude.{◌≡◌, bytes_eq, find, option_map};
ghost use Rattle.command_words.specs.Arguments.{rules_in};
ghost use Rattle.command_words.specs.Meanings.{shown};
ghost use Rattle.command_words.specs.Pieces.{is_text};
ghost use Rattle.command_words.specs.Reading.{after_hyphen, after_hyphens, joined_meaning, long_meaning, meaning_of, named_meaning, opening_meaning};
ghost use Rattle.command_words.specs.Rules.{form_named};

use crate::arguments::{Argument, Form};

/// A piece, with its name and its text.
#[derive(Clone, Copy, Debug)]
pub(crate) enum Piece<'a> {
    /// `--name=TEXT`
    Joined(&'a str, &'a str),
    /// `--name` `TEXT`
    Apart(&'a str, &'a str),
    /// `--name`, a flag.
    Alone(&'a str),
}

impl<'a> Piece<'a> {
    ghost use Rattle.command_words.specs.Meanings.{piece_of};
    ghost use Rattle.command_words.specs.Pieces.{name_in, text_in};

    pub(crate) fn name(self) -> &'a str
        ensures { result.now ≡ name_in (piece_of self.entry) }
    {
        match self {
            Piece::Joined(name, _) | Piece::Apart(name, _) | Piece::Alone(name) => name,
        }
    }

    pub(crate) fn text(self) -> Option<&'a str>
        ensures { option_map (λ t. t.now) result ≡ text_in (piece_of self.entry) }
    {
        match self {
            Piece::Joined(_, text) | Piece::Apart(_, text) => Some(text),
            Piece::Alone(_) => None,
        }
    }
}

/// What a word is.
#[derive(Clone, Copy, Debug)]
pub(crate) enum Meaning<'a> {
    /// A piece, or the end of one.
    Whole(Piece<'a>),
    /// The name of an option, whose text is the next word.
    Opens(&'a str),
    Nothing,
}

fn argument_of<'a>(arguments: &'a [Argument], name: &str) -> Option<&'a Argument>
    ensures { option_map (λ a. a.now) result ≡ find (λ a. bytes_eq a.name.now name.now) arguments.entry.now }
{
    arguments.iter().find(|argument| argument.name == name)
}

// The form of the option or flag of this name.
fn form_of(arguments: &[Argument], name: &str) -> Option<Form>
    ensures { result ≡ form_named (rules_in arguments.now) name.now }
{
    Some(argument_of(arguments, name)?.form)
}

// Whether it can be the text of an option.
pub(crate) fn can_be_text(word: &str) -> bool
    ensures { result ≡ is_text word.now }
{
    !word.is_empty() && !word.starts_with('-')
}

fn without_hyphen(word: &str) -> Option<&str>
    ensures { option_map (λ rest. rest.now) result ≡ after_hyphen word.entry.now }
{
    word.strip_prefix('-')
}

// What follows the two hyphens at the front of the word.
fn long_part(word: &str) -> Option<&str>
    ensures { option_map (λ rest. rest.now) result ≡ after_hyphens word.entry.now }
{
    without_hyphen(without_hyphen(word)?)
}

// `--name=TEXT`
fn joined<'a>(arguments: &[Argument], name: &'a str, text: &'a str) -> Meaning<'a>
    ensures { shown result ≡ joined_meaning (rules_in arguments.now) name.entry.now text.entry.now }
{
    match form_of(arguments, name) {
        Some(Form::Optional | Form::Required) if can_be_text(text) => {
            Meaning::Whole(Piece::Joined(name, text))
        }
        _ => Meaning::Nothing,
    }
}

// `--name`
fn named<'a>(arguments: &[Argument], name: &'a str) -> Meaning<'a>
    ensures { shown result ≡ named_meaning (form_named (rules_in arguments.now) name.entry.now) name.entry.now }
{
    match form_of(arguments, name) {
        Some(Form::Flag) => Meaning::Whole(Piece::Alone(name)),
        Some(Form::Optional | Form::Required) => Meaning::Opens(name),
        None => Meaning::Nothing,
    }
}

fn long<'a>(arguments: &[Argument], rest: &'a str) -> Meaning<'a>
    ensures { shown result ≡ long_meaning (rules_in arguments.now) rest.entry.now }
{
    match rest.split_once('=') {
        Some((name, text)) => joined(arguments, name, text),
        None => named(arguments, rest),
    }
}

// A word where no option waits for its text.
fn opening<'a>(arguments: &[Argument], word: &'a str) -> Meaning<'a>
    ensures { shown result ≡ opening_meaning (rules_in arguments.now) word.entry.now }
{
    match long_part(word) {
        Some(rest) => long(arguments, rest),
        None => Meaning::Nothing,
    }
}

/// What the word is where the option `waiting`, if any, waits for its text.
pub(crate) fn read_word<'a>(
    arguments: &[Argument],
    waiting: Option<&'a str>,
    word: &'a str,
) -> Meaning<'a>
    ensures { shown result
        ≡ meaning_of (rules_in arguments.now) (option_map (λ name. name.now) waiting.entry) word.entry.now }
{
    match waiting {
        Some(name) if can_be_text(word) => Meaning::Whole(Piece::Apart(name, word)),
        Some(_) => Meaning::Nothing,
        None => opening(arguments, word),
    }
}
