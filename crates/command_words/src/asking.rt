// Whether words ask for a command. Nothing here takes memory.
ghost use Rattle.std.specs.Prelude.{◌≡◌, List, is_some, None, Some, map, string_bytes};
ghost use Rattle.command_words.specs.declared.command.Command.{Command};
ghost use Rattle.command_words.specs.Commands.{collection_of, command_named, named_for, receivers_needed, relay_of, route_count_of, trial_of};
ghost use Rattle.command_words.specs.Pieces.{Piece};
ghost use Rattle.command_words.specs.Arguments.{rules_in};
ghost use Rattle.command_words.specs.Reading.{pieces_from};

use crate::arguments::{Argument, CommandName};
use crate::collection::{routes_in, turns_in};
use crate::limits::LimitTexts;
use crate::reading::{are_lawful, text};
use crate::trial_runs::Run;

// Whether the limits and the number of receives are within their ranges.
fn can_collect(arguments: &[Argument], words: &[String]) -> bool
    ensures { (pieces : List Piece)
        → pieces_from (rules_in arguments.now) None (map string_bytes words.now) ≡ Some pieces
        → result ≡ is_some (collection_of pieces) }
{
    LimitTexts::in_words(arguments, words).limits().is_some()
        && turns_in(text(arguments, words, "turns")).is_some()
}

// Whether that is so, and the routes are routes.
fn can_relay(arguments: &[Argument], words: &[String]) -> bool
    ensures { (pieces : List Piece)
        → pieces_from (rules_in arguments.now) None (map string_bytes words.now) ≡ Some pieces
        → result ≡ is_some (relay_of pieces) }
{
    can_collect(arguments, words) && routes_in(text(arguments, words, "routes")).is_some()
}

// Whether the limits of `trial` are within their ranges, and its texts say what it runs.
fn can_try(arguments: &[Argument], words: &[String]) -> bool
    ensures { (pieces : List Piece)
        → pieces_from (rules_in arguments.now) None (map string_bytes words.now) ≡ Some pieces
        → result ≡ is_some (trial_of pieces) }
{
    LimitTexts::in_words(arguments, words).limits().is_some()
        && Run::asked(
            text(arguments, words, "made"),
            text(arguments, words, "packets"),
        )
        .is_some()
}

// How many routes the words say; none where they say no routes.
fn route_count(arguments: &[Argument], words: &[String]) -> usize
    ensures { (pieces : List Piece)
        → pieces_from (rules_in arguments.now) None (map string_bytes words.now) ≡ Some pieces
        → result ≡ route_count_of pieces }
{
    match routes_in(text(arguments, words, "routes")) {
        Some(routes) => routes.len(),
        None => 0,
    }
}

// How many receivers the command of this name needs, where the words ask for it.
fn receivers_of(name: CommandName, words: &[String]) -> usize
    ensures { (c : Command) → command_named (map string_bytes words.now) name ≡ Some c → result ≡ receivers_needed c }
{
    match name {
        CommandName::Relay => route_count(name.arguments(), words),
        _ => 0,
    }
}

// Whether the words ask for the command of this name. This takes no memory.
fn asks(name: CommandName, words: &[String]) -> bool
    ensures { result ≡ is_some (command_named (map string_bytes words.now) name) }
{
    let arguments = name.arguments();
    are_lawful(arguments, words)
        && match name {
            CommandName::Replay => LimitTexts::in_words(arguments, words).limits().is_some(),
            CommandName::Collect => can_collect(arguments, words),
            CommandName::Relay => can_relay(arguments, words),
            CommandName::Trial => can_try(arguments, words),
            CommandName::Show
            | CommandName::Check
            | CommandName::Canon
            | CommandName::Pcap
            | CommandName::Send
            | CommandName::Agent => true,
        }
}

// Whether they do, and there are as many receivers as it needs.
pub(crate) fn asks_for(name: CommandName, words: &[String], receivers: usize) -> bool
    ensures { result ≡ is_some (named_for receivers (map string_bytes words.now) name) }
{
    asks(name, words) && receivers_of(name, words) <= receivers
}
