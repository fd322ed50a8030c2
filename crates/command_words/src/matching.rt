// Lawful words, as `clap` reads them.
ghost use Rattle.std.specs.Prelude.{◌≡◌, ℕ, List, Some, IfOk, IfErr, IsTrue, false, is_some, map, string_bytes};
ghost use Rattle.clap.specs.Words.{app_of, first_value, found_of, kind_of, one_text, rule_of};
ghost use Rattle.command_words.specs.Arguments.{rule_in, rules_in};
ghost use Rattle.command_words.specs.Matching.{Holds, app_with, clap_rule};
ghost use Rattle.command_words.specs.Pieces.{Piece, are_rules, flag_text, text_of};
ghost use Rattle.command_words.specs.Reading.{lawful_pieces};
ghost use Rattle.command_words.specs.Rules.{has_flag, has_option};

use crate::arguments::{Argument, Form};
use clap::error::ErrorKind;
use clap::{Arg, ArgAction, ArgMatches, Command, Error};
use std::alloc::{AllocError, Global};

fn arg_of(alloc: Global, argument: &Argument) -> Arg<'static>
    ensures rule { rule_of result ≡ clap_rule (rule_in argument.now) }
    ensures own { result.global ≡ false }
{
    let arg = Arg::new(alloc, argument.name).long(argument.name);
    match argument.form {
        Form::Flag => arg.action(ArgAction::SetTrue),
        Form::Optional => arg.action(ArgAction::Set),
        Form::Required => arg.action(ArgAction::Set).required(true),
    }
}

fn clap_command<'a>(
    alloc: Global,
    name: &'a str,
    arguments: &[Argument],
) -> Result<Command<'a>, AllocError>
    ensures { IfOk result (λ command. app_of command ≡ app_with name.entry.now (rules_in arguments.now)) }
{
    let mut command = Command::new(alloc, name)
        .no_binary_name(true)
        .disable_help_flag(true)
        .disable_version_flag(true);
    for argument in arguments {
        command = command.arg(arg_of(alloc, argument))?;
    }
    Ok(command)
}

/// The matches of lawful words. Only want of memory refuses them.
pub(crate) fn matches_in<'a>(
    alloc: Global,
    name: &'a str,
    arguments: &[Argument],
    words: &'a [String],
) -> Result<ArgMatches<'a>, Error>
    requires rules { IsTrue (are_rules (rules_in arguments.now)) }
    requires lawful { IsTrue (is_some (lawful_pieces (rules_in arguments.now) (map string_bytes words.now))) }
    ensures memory { IfErr result (λ error. kind_of error ≡ ErrorKind.OutOfMemory) }
    ensures matches { IfOk result (λ matches. (pieces : List Piece)
        → lawful_pieces (rules_in arguments.now) (map string_bytes words.entry.now) ≡ Some pieces
        → Holds (found_of matches) (rules_in arguments.now) pieces) }
{
    clap_command(alloc, name, arguments)?.try_get_matches_from(words)
}
