// Worked examples: words and their readings.
ghost use Rattle.std.specs.Prelude.{◌≡◌, [], ◌∷◌, None, Some, codes, false, true};
ghost use Rattle.books_spec.specs.Limits.{usual_limits};
ghost use Rattle.command_words.specs.Commands.{command_of};
ghost use Rattle.command_words.specs.Examples.{example_rules};
ghost use Rattle.command_words.specs.Pieces.{alone, apart, joined};
ghost use Rattle.command_words.specs.Reading.{lawful_pieces};

use crate::command::{CanonVersion, Command};
use capture_spec::PcapOutput;
use wire_spec::Pad;

/// The words of the commands.
pub fn words_of_commands()
    ensures replay { command_of (codes "replay" ∷ []) ≡ Some (Command.Replay usual_limits false) }
    ensures interfaces { command_of (codes "replay" ∷ codes "--interfaces" ∷ [])
        ≡ Some (Command.Replay usual_limits true) }
    ensures interfaces_twice { command_of (codes "replay" ∷ codes "--interfaces" ∷ codes "--interfaces" ∷ []) ≡ None }
    ensures interfaces_of_show { command_of (codes "show" ∷ codes "--interfaces" ∷ []) ≡ None }
    ensures show { command_of (codes "show" ∷ []) ≡ Some Command.Show }
    ensures agent { command_of (codes "agent" ∷ []) ≡ Some Command.Agent }
    ensures agent_more { command_of (codes "agent" ∷ codes "x" ∷ []) ≡ None }
    ensures check { command_of (codes "check" ∷ []) ≡ Some (Command.Check Pad.Any) }
    ensures check_zero { command_of (codes "check" ∷ codes "--zero" ∷ []) ≡ Some (Command.Check Pad.Zero) }

    ensures no_words { command_of [] ≡ None }
    ensures empty_word { command_of ([] ∷ []) ≡ None }
    ensures upper_case { command_of (codes "Check" ∷ []) ≡ None }
    ensures flag_first { command_of (codes "--zero" ∷ codes "check" ∷ []) ≡ None }
    ensures canon { command_of (codes "canon" ∷ []) ≡ Some (Command.Canon CanonVersion.Same) }
    ensures canon_migrate { command_of (codes "canon" ∷ codes "--migrate" ∷ [])
        ≡ Some (Command.Canon CanonVersion.Two) }
    ensures canon_more { command_of (codes "canon" ∷ codes "--zero" ∷ []) ≡ None }
    ensures more_words { command_of (codes "replay" ∷ codes "extra" ∷ []) ≡ None }
    ensures hyphens { command_of (codes "replay" ∷ codes "--" ∷ []) ≡ None }
    ensures other_flag { command_of (codes "replay" ∷ codes "--zero" ∷ []) ≡ None }
    ensures flag_twice { command_of (codes "check" ∷ codes "--zero" ∷ codes "--zero" ∷ []) ≡ None }
    ensures flag_with_equals { command_of (codes "check" ∷ codes "--zero=" ∷ []) ≡ None }
    ensures flag_with_text { command_of (codes "check" ∷ codes "--zero=1" ∷ []) ≡ None }
    ensures one_letter { command_of (codes "check" ∷ codes "-z" ∷ []) ≡ None }
    ensures pcap { command_of (codes "pcap" ∷ []) ≡ Some (Command.Pcap PcapOutput.Capture) }
    ensures pcap_count { command_of (codes "pcap" ∷ codes "--count" ∷ []) ≡ Some (Command.Pcap PcapOutput.Counts) }
    ensures pcap_zero { command_of (codes "pcap" ∷ codes "--zero" ∷ []) ≡ None }
    ensures help { command_of (codes "check" ∷ codes "--help" ∷ []) ≡ None }
{}

/// The limits of `replay`: each in its range, the usual one where it isn't given.
pub fn words_of_limits()
    ensures joined { command_of (codes "replay" ∷ codes "--streams=2" ∷ [])
        ≡ Some (Command.Replay (record usual_limits { streams = 2 }) false) }
    ensures apart { command_of (codes "replay" ∷ codes "--streams" ∷ codes "2" ∷ [])
        ≡ Some (Command.Replay (record usual_limits { streams = 2 }) false) }
    ensures split { command_of (codes "replay" ∷ codes "--boot-slack=6" ∷ codes "00" ∷ []) ≡ None }
    ensures any_order { command_of (codes "replay" ∷ codes "--boot-slack=105" ∷ codes "--sample-width" ∷ codes "4"
        ∷ codes "--datagram-width=3" ∷ codes "--sources" ∷ codes "20" ∷ codes "--streams=10" ∷ [])
        ≡ Some (Command.Replay (record {
          streams = 10;
          sources = 20;
          datagram_width = 3;
          sample_width = 4;
          boot_slack = 105;
        }) false) }
    ensures least { command_of (codes "replay" ∷ codes "--streams=1" ∷ codes "--sources=1"
        ∷ codes "--datagram-width=1" ∷ codes "--sample-width=1" ∷ codes "--boot-slack=100" ∷ [])
        ≡ Some (Command.Replay (record {
          streams = 1;
          sources = 1;
          datagram_width = 1;
          sample_width = 1;
          boot_slack = 100;
        }) false) }
    ensures most { command_of (codes "replay" ∷ codes "--streams=4096" ∷ codes "--sources=65536"
        ∷ codes "--datagram-width=8192" ∷ codes "--sample-width=8192" ∷ codes "--boot-slack=1073741824" ∷ [])
        ≡ Some (Command.Replay (record {
          streams = 4096;
          sources = 65536;
          datagram_width = 8192;
          sample_width = 8192;
          boot_slack = 1073741824;
        }) false) }

    ensures no_streams { command_of (codes "replay" ∷ codes "--streams" ∷ codes "0" ∷ []) ≡ None }
    ensures many_streams { command_of (codes "replay" ∷ codes "--streams=4097" ∷ []) ≡ None }
    ensures no_sources { command_of (codes "replay" ∷ codes "--sources=0" ∷ []) ≡ None }
    ensures many_sources { command_of (codes "replay" ∷ codes "--sources" ∷ codes "65537" ∷ []) ≡ None }
    ensures no_width { command_of (codes "replay" ∷ codes "--datagram-width=0" ∷ []) ≡ None }
    ensures wide { command_of (codes "replay" ∷ codes "--datagram-width=8193" ∷ []) ≡ None }
    ensures no_sample_width { command_of (codes "replay" ∷ codes "--sample-width=0" ∷ []) ≡ None }
    ensures wide_samples { command_of (codes "replay" ∷ codes "--sample-width=8193" ∷ []) ≡ None }
    ensures short_slack { command_of (codes "replay" ∷ codes "--boot-slack" ∷ codes "99" ∷ []) ≡ None }
    ensures long_slack { command_of (codes "replay" ∷ codes "--boot-slack=1073741825" ∷ []) ≡ None }

    ensures leading_zero { command_of (codes "replay" ∷ codes "--streams=02" ∷ []) ≡ None }
    ensures plus { command_of (codes "replay" ∷ codes "--streams=+5" ∷ []) ≡ None }
    ensures minus { command_of (codes "replay" ∷ codes "--streams=-5" ∷ []) ≡ None }
    ensures space { command_of (codes "replay" ∷ codes "--streams= 5" ∷ []) ≡ None }
    ensures letters { command_of (codes "replay" ∷ codes "--streams=5x" ∷ []) ≡ None }
    ensures empty { command_of (codes "replay" ∷ codes "--streams=" ∷ []) ≡ None }
    ensures empty_word { command_of (codes "replay" ∷ codes "--streams" ∷ [] ∷ []) ≡ None }
    ensures no_text { command_of (codes "replay" ∷ codes "--streams" ∷ []) ≡ None }
    ensures too_long { command_of (codes "replay" ∷ codes "--streams=4294967298" ∷ []) ≡ None }
    ensures twice { command_of (codes "replay" ∷ codes "--streams=2" ∷ codes "--streams=2" ∷ []) ≡ None }
    ensures one_name { command_of (codes "replay" ∷ codes "--stream=2" ∷ []) ≡ None }
    ensures under_line { command_of (codes "replay" ∷ codes "--datagram_width=2" ∷ []) ≡ None }
    ensures of_another { command_of (codes "show" ∷ codes "--streams=2" ∷ []) ≡ None }
{}

/// Options and flags in any order, each once, and those that aren't lawful.
pub fn words_with_options()
    ensures joined { lawful_pieces example_rules (codes "--turns=5" ∷ [])
        ≡ Some (joined (codes "turns") (codes "5") ∷ []) }
    ensures apart { lawful_pieces example_rules (codes "--turns" ∷ codes "5" ∷ [])
        ≡ Some (apart (codes "turns") (codes "5") ∷ []) }
    ensures all { lawful_pieces example_rules
        (codes "--count" ∷ codes "--listen=a=b" ∷ codes "--turns" ∷ codes "=" ∷ [])
        ≡ Some (alone (codes "count") ∷ joined (codes "listen") (codes "a=b")
        ∷ apart (codes "turns") (codes "=") ∷ []) }

    ensures left_out { lawful_pieces example_rules (codes "--count" ∷ []) ≡ None }
    ensures twice { lawful_pieces example_rules (codes "--turns=5" ∷ codes "--turns" ∷ codes "6" ∷ []) ≡ None }
    ensures option_as_text { lawful_pieces example_rules (codes "--listen" ∷ codes "--turns=5" ∷ []) ≡ None }
    ensures no_text { lawful_pieces example_rules (codes "--turns" ∷ []) ≡ None }
    ensures empty_text { lawful_pieces example_rules (codes "--turns=" ∷ []) ≡ None }
    ensures empty_word { lawful_pieces example_rules (codes "--turns" ∷ [] ∷ []) ≡ None }
    ensures hyphen { lawful_pieces example_rules (codes "--turns=-5" ∷ []) ≡ None }
    ensures hyphen_apart { lawful_pieces example_rules (codes "--turns" ∷ codes "-5" ∷ []) ≡ None }
    ensures hyphens { lawful_pieces example_rules (codes "--turns=5" ∷ codes "--" ∷ []) ≡ None }
    ensures flag_with_text { lawful_pieces example_rules (codes "--turns=5" ∷ codes "--count=1" ∷ []) ≡ None }
    ensures one_hyphen { lawful_pieces example_rules (codes "-turns=5" ∷ []) ≡ None }
    ensures no_hyphens { lawful_pieces example_rules (codes "turns=5" ∷ []) ≡ None }
    ensures unknown { lawful_pieces example_rules (codes "--turns=5" ∷ codes "--other=1" ∷ []) ≡ None }
{}
