ghost use Rattle.std.specs.Prelude.{◌≡◌, ◌≤◌, ◌↔◌, Bool, List, codes, if◌then◌else◌, IfOk, None, Some, Err, map, string_bytes};
ghost use Rattle.clap.specs.Words.{found_of, kind_of, one_text};
ghost use Rattle.command_words.specs.Commands.{HasLawfulLength, HasLawfulLimits, collection_of, command_for, command_with, limits_of, listen_of, named_for, receivers_needed, relay_of, rules_of, run_of, to_of, trial_of, trial_with, with_limits};
ghost use Rattle.command_words.specs.declared.arguments.CommandName.TheVariants as name_is;
ghost use Rattle.command_words.specs.Matching.{Holds};
ghost use Rattle.command_words.specs.Pieces.{Piece};
ghost use Rattle.command_words.specs.Rules.{Rule};

use crate::arguments::CommandName;
use crate::asking::asks_for;
use crate::collection::{Collection, routes_in, turns_in};
use crate::limits::LimitTexts;
use crate::matching::matches_in;
use crate::place::Place;
use crate::trial_runs::Run;
use capture_spec::PcapOutput;
use clap::error::ErrorKind;
use clap::{ArgMatches, Error};
use collector_views::Limits;
use relay_out::Routes;
use std::alloc::Global;
use wire_spec::Pad;

/// What the words of the command line ask for.
#[derive(Drop)]
pub enum Command<'a> {
    /// Reads a capture and reports its streams and sources, under the limits of a collector, and with a line for each
    /// interface where that is asked for.
    Replay {
        limits: Limits,
        interfaces: bool,
    },
    /// Reads a capture and shows each of its entries.
    Show,
    /// Reads a capture and names its faulty entries, under a reading of padding.
    Check {
        pad: Pad,
    },
    /// Reads a capture and writes it anew, each datagram with zero padding.
    Canon {
        version: CanonVersion,
    },
    /// Reads a pcap file and writes a capture of its payloads, or how many of its packets have one.
    Pcap {
        output: PcapOutput,
    },
    /// Listens at a place, receives so often, and reports the streams and sources of the datagrams that came.
    Collect {
        asked: Collection<'a>,
    },
    /// Reads a capture and sends the bytes of each entry to a place.
    Send {
        to: Place<'a>,
    },
    /// Collects, and passes each datagram on that is the first of its number.
    Relay {
        asked: Collection<'a>,
        routes: Routes,
    },
    /// Reads a script and writes a capture of the datagrams that its sub-agents send.
    Agent,
    /// Reads a script, delivers the datagrams that its sub-agents send to a collector under these limits, and reports what
    /// it collected and what was true, with a line for each interface where that is asked for.
    Trial {
        limits: Limits,
        interfaces: bool,
    },
    /// Reads nothing, and does the same with the run that is made from a seed, of 1 to 10,000,000 packets.
    TrialMade {
        limits: Limits,
        interfaces: bool,
        seed: u64,
        packets: u32,
    },
}

// The places where no text names one: sFlow's UDP port is 6343.
const LISTEN: &str = "0.0.0.0:6343";

const TO: &str = "127.0.0.1:6343";

/// The version of the capture that is written anew.
#[derive(Clone, Copy, Debug, PartialEq, Eq)]
pub enum CanonVersion {
    /// That of the capture which was read.
    Same,
    /// Version 2.
    Two,
}

/// Why there is no command.
#[derive(Clone, Copy, Debug, PartialEq, Eq)]
pub enum WordsRefusal {
    /// The words ask for no command.
    Usage,
    /// Memory was lacking.
    Memory,
}

fn refusal_of(error: &Error) -> WordsRefusal
    ensures { kind_of error.now ≡ ErrorKind.OutOfMemory → result ≡ WordsRefusal.Memory }
{
    match error.kind() {
        ErrorKind::OutOfMemory => WordsRefusal::Memory,
        _ => WordsRefusal::Usage,
    }
}

// Zero where the flag is set.
fn pad_in(matches: &ArgMatches) -> Pad
    ensures { (given : Bool)
        → one_text (found_of matches.now) (codes "zero") ≡ Some (if given then codes "true" else codes "false")
        → result ≡ (if given then Pad.Zero else Pad.Any) }
{
    if matches.get_flag("zero") {
        Pad::Zero
    } else {
        Pad::Any
    }
}

// Whether the lines of interfaces are asked for.
fn interfaces_in(matches: &ArgMatches) -> bool
    ensures { (given : Bool)
        → one_text (found_of matches.now) (codes "interfaces") ≡ Some (if given then codes "true" else codes "false")
        → result ≡ given }
{
    matches.get_flag("interfaces")
}

// Version 2 where the flag is set.
fn version_in(matches: &ArgMatches) -> CanonVersion
    ensures { (given : Bool)
        → one_text (found_of matches.now) (codes "migrate") ≡ Some (if given then codes "true" else codes "false")
        → result ≡ (if given then CanonVersion.Two else CanonVersion.Same) }
{
    if matches.get_flag("migrate") {
        CanonVersion::Two
    } else {
        CanonVersion::Same
    }
}

// The counts where the flag is set.
fn output_in(matches: &ArgMatches) -> PcapOutput
    ensures { (given : Bool)
        → one_text (found_of matches.now) (codes "count") ≡ Some (if given then codes "true" else codes "false")
        → result ≡ (if given then PcapOutput.Counts else PcapOutput.Capture) }
{
    if matches.get_flag("count") {
        PcapOutput::Counts
    } else {
        PcapOutput::Capture
    }
}

// The limits of a collector.
fn limits_in(matches: &ArgMatches) -> Option<Limits>
    ensures { (more : List Rule) (pieces : List Piece) → Holds (found_of matches.now) (with_limits more) pieces
        → result ≡ limits_of pieces }
{
    LimitTexts::in_matches(matches).limits()
}

// Where the link listens.
fn listen_in<'a>(matches: &ArgMatches<'a>) -> Place<'a>
    ensures collect { (pieces : List Piece) → Holds (found_of matches.now) (rules_of name_is.Collect) pieces
        → result ≡ listen_of pieces }
    ensures relay { (pieces : List Piece) → Holds (found_of matches.now) (rules_of name_is.Relay) pieces
        → result ≡ listen_of pieces }
{
    Place::or(LISTEN, matches.get_str("listen"))
}

// Where the datagrams go.
fn to_in<'a>(matches: &ArgMatches<'a>) -> Place<'a>
    ensures { (pieces : List Piece) → Holds (found_of matches.now) (rules_of name_is.Send) pieces
        → result ≡ to_of pieces }
{
    Place::or(TO, matches.get_str("to"))
}

// What is collected.
fn collection_in<'a>(matches: &ArgMatches<'a>) -> Option<Collection<'a>>
    ensures collect { (pieces : List Piece) → Holds (found_of matches.now) (rules_of name_is.Collect) pieces
        → result ≡ collection_of pieces }
    ensures relay { (pieces : List Piece) → Holds (found_of matches.now) (rules_of name_is.Relay) pieces
        → result ≡ collection_of pieces }
{
    let Some(limits) = limits_in(matches) else {
        return None;
    };
    let Some(turns) = turns_in(matches.get_str("turns")) else {
        return None;
    };
    Some(Collection {
        turns,
        listen: listen_in(matches),
        limits,
        interfaces: interfaces_in(matches),
    })
}

// What `relay` is asked for.
fn relay_in<'a>(matches: &ArgMatches<'a>) -> Option<Command<'a>>
    ensures { (pieces : List Piece) → Holds (found_of matches.now) (rules_of name_is.Relay) pieces
        → result ≡ relay_of pieces }
{
    let Some(asked) = collection_in(matches) else {
        return None;
    };
    let Some(routes) = routes_in(matches.get_str("routes")) else {
        return None;
    };
    Some(Command::Relay { asked, routes })
}

// What `trial` runs.
fn run_in(matches: &ArgMatches) -> Option<Run>
    ensures { (pieces : List Piece) → Holds (found_of matches.now) (rules_of name_is.Trial) pieces
        → result ≡ run_of pieces }
{
    Run::asked(matches.get_str("made"), matches.get_str("packets"))
}

// What `trial` does with what it runs.
fn trial_over<'a>(limits: Limits, interfaces: bool, run: Run) -> Command<'a>
    ensures { result ≡ trial_with limits interfaces run }
{
    match run {
        Run::Script => Command::Trial { limits, interfaces },
        Run::Made { seed, packets } => Command::TrialMade {
            limits,
            interfaces,
            seed,
            packets,
        },
    }
}

// What `trial` is asked for.
fn trial_in<'a>(matches: &ArgMatches<'a>) -> Option<Command<'a>>
    ensures { (pieces : List Piece) → Holds (found_of matches.now) (rules_of name_is.Trial) pieces
        → result ≡ trial_of pieces }
{
    let Some(limits) = limits_in(matches) else {
        return None;
    };
    let Some(run) = run_in(matches) else {
        return None;
    };
    Some(trial_over(limits, interfaces_in(matches), run))
}

// The command of this name, from what `clap` has read.
fn command_in<'a>(name: CommandName, matches: &ArgMatches<'a>) -> Option<Command<'a>>
    ensures { (pieces : List Piece) → Holds (found_of matches.now) (rules_of name) pieces
        → result ≡ command_with name pieces }
{
    match name {
        CommandName::Replay => {
            let Some(limits) = limits_in(matches) else {
                return None;
            };
            Some(Command::Replay {
                limits,
                interfaces: interfaces_in(matches),
            })
        }
        CommandName::Show => Some(Command::Show),
        CommandName::Check => Some(Command::Check {
            pad: pad_in(matches),
        }),
        CommandName::Canon => Some(Command::Canon {
            version: version_in(matches),
        }),
        CommandName::Pcap => Some(Command::Pcap {
            output: output_in(matches),
        }),
        CommandName::Collect => match collection_in(matches) {
            Some(asked) => Some(Command::Collect { asked }),
            None => None,
        },
        CommandName::Send => Some(Command::Send { to: to_in(matches) }),
        CommandName::Relay => relay_in(matches),
        CommandName::Agent => Some(Command::Agent),
        CommandName::Trial => trial_in(matches),
    }
}

// The command of this name, from the words after it.
fn read_command<'a>(
    alloc: Global,
    name: CommandName,
    words: &'a [String],
    receivers: usize,
) -> Result<Command<'a>, WordsRefusal>
    ensures usage { (result ≡ Err WordsRefusal.Usage) ↔ (named_for receivers (map string_bytes words.entry.now) name ≡ None) }
    ensures command { IfOk result (λ c. named_for receivers (map string_bytes words.entry.now) name ≡ Some c) }
    ensures lawful { IfOk result (λ c. HasLawfulLimits c) }
    ensures length { IfOk result (λ c. HasLawfulLength c) }
    ensures enough { IfOk result (λ c. receivers_needed c ≤ receivers) }
{
    if !asks_for(name, words, receivers) {
        return Err(WordsRefusal::Usage);
    }
    match matches_in(alloc, name.word(), name.arguments(), words) {
        Ok(matches) => match command_in(name, &matches) {
            Some(command) => Ok(command),
            None => Err(WordsRefusal::Usage),
        },
        Err(error) => Err(refusal_of(&error)),
    }
}

/// The command that the words after the program's name ask for, where so many receivers are handed in. `Usage` comes
/// exactly where they ask for none or for more routes than there are receivers, and before any memory is taken. `Memory`
/// may come wherever they ask for one.
pub fn read_words<'a>(
    alloc: Global,
    words: &'a [String],
    receivers: usize,
) -> Result<Command<'a>, WordsRefusal>
    ensures usage { (result ≡ Err WordsRefusal.Usage) ↔ (command_for receivers (map string_bytes words.entry.now) ≡ None) }
    ensures command { IfOk result (λ c. command_for receivers (map string_bytes words.entry.now) ≡ Some c) }
    ensures lawful { IfOk result (λ c. HasLawfulLimits c) }
    ensures length { IfOk result (λ c. HasLawfulLength c) }
    ensures enough { IfOk result (λ c. receivers_needed c ≤ receivers) }
{
    match words {
        [first, rest @ ..] => match CommandName::named(first.as_str()) {
            Some(name) => read_command(alloc, name, rest, receivers),
            None => Err(WordsRefusal::Usage),
        },
        [] => Err(WordsRefusal::Usage),
    }
}
