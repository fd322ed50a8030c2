// Worked examples: the words of `trial`.
ghost use Rattle.std.specs.Prelude.{◌≡◌, [], ◌∷◌, None, Some, codes, false, true};
ghost use Rattle.books_spec.specs.Limits.{usual_limits};
ghost use Rattle.command_words.specs.Commands.{command_of};

use crate::command::Command;

/// The words of `trial` over a script: limits may stand, and the flag for the lines of interfaces.
pub fn words_of_trial()
    ensures usual { command_of (codes "trial" ∷ []) ≡ Some (Command.Trial usual_limits false) }
    ensures interfaces { command_of (codes "trial" ∷ codes "--interfaces" ∷ [])
        ≡ Some (Command.Trial usual_limits true) }
    ensures all { command_of (codes "trial" ∷ codes "--boot-slack=105" ∷ codes "--sample-width" ∷ codes "4"
        ∷ codes "--interfaces" ∷ codes "--datagram-width=3" ∷ codes "--sources" ∷ codes "20" ∷ codes "--streams=10" ∷ [])
        ≡ Some (Command.Trial (record {
          streams = 10;
          sources = 20;
          datagram_width = 3;
          sample_width = 4;
          boot_slack = 105;
        }) true) }

    ensures more_words { command_of (codes "trial" ∷ codes "extra" ∷ []) ≡ None }
    ensures flag_with_text { command_of (codes "trial" ∷ codes "--interfaces=yes" ∷ []) ≡ None }
    ensures flag_twice { command_of (codes "trial" ∷ codes "--interfaces" ∷ codes "--interfaces" ∷ []) ≡ None }
    ensures no_streams { command_of (codes "trial" ∷ codes "--streams=0" ∷ []) ≡ None }
    ensures many_sources { command_of (codes "trial" ∷ codes "--sources=65537" ∷ []) ≡ None }
    ensures short_slack { command_of (codes "trial" ∷ codes "--boot-slack" ∷ codes "99" ∷ []) ≡ None }
    ensures of_another { command_of (codes "trial" ∷ codes "--turns=5" ∷ []) ≡ None }
{}

/// The words of `trial` over a made run: the seed and the number of packets stand together, and what may stand besides is
/// the same.
pub fn words_of_made_trial()
    ensures usual { command_of (codes "trial" ∷ codes "--made" ∷ codes "7" ∷ codes "--packets" ∷ codes "1000000" ∷ [])
        ≡ Some (Command.TrialMade usual_limits false 7 1000000) }
    ensures least { command_of (codes "trial" ∷ codes "--packets=1" ∷ codes "--made=0" ∷ [])
        ≡ Some (Command.TrialMade usual_limits false 0 1) }
    ensures most { command_of (codes "trial" ∷ codes "--made=18446744073709551615" ∷ codes "--packets=10000000" ∷ [])
        ≡ Some (Command.TrialMade usual_limits false 18446744073709551615 10000000) }
    ensures all { command_of (codes "trial" ∷ codes "--boot-slack=105" ∷ codes "--packets" ∷ codes "64"
        ∷ codes "--sample-width" ∷ codes "4" ∷ codes "--interfaces" ∷ codes "--made=7" ∷ codes "--datagram-width=3"
        ∷ codes "--sources" ∷ codes "20" ∷ codes "--streams=10" ∷ [])
        ≡ Some (Command.TrialMade (record {
          streams = 10;
          sources = 20;
          datagram_width = 3;
          sample_width = 4;
          boot_slack = 105;
        }) true 7 64) }

    ensures made_alone { command_of (codes "trial" ∷ codes "--made=7" ∷ []) ≡ None }
    ensures made_alone_apart { command_of (codes "trial" ∷ codes "--made" ∷ codes "7" ∷ []) ≡ None }
    ensures packets_alone { command_of (codes "trial" ∷ codes "--packets=5" ∷ []) ≡ None }
    ensures with_limits_alone { command_of (codes "trial" ∷ codes "--made=7" ∷ codes "--streams=2" ∷ []) ≡ None }
    ensures wide_seed { command_of (codes "trial" ∷ codes "--made=18446744073709551616" ∷ codes "--packets=5" ∷ [])
        ≡ None }
    ensures seed_with_zero { command_of (codes "trial" ∷ codes "--made=07" ∷ codes "--packets=5" ∷ []) ≡ None }
    ensures packets_with_zero { command_of (codes "trial" ∷ codes "--made=7" ∷ codes "--packets=05" ∷ []) ≡ None }
    ensures no_packets { command_of (codes "trial" ∷ codes "--made=7" ∷ codes "--packets=0" ∷ []) ≡ None }
    ensures many_packets { command_of (codes "trial" ∷ codes "--made=7" ∷ codes "--packets=10000001" ∷ []) ≡ None }
    ensures packets_too_long { command_of (codes "trial" ∷ codes "--made=7" ∷ codes "--packets=4294967297" ∷ []) ≡ None }
    ensures made_twice { command_of (codes "trial" ∷ codes "--made=7" ∷ codes "--made=7" ∷ codes "--packets=5" ∷ [])
        ≡ None }
    ensures packets_twice { command_of (codes "trial" ∷ codes "--made=7" ∷ codes "--packets=5" ∷ codes "--packets=5" ∷ [])
        ≡ None }
    ensures seed_of_letters { command_of (codes "trial" ∷ codes "--made" ∷ codes "x" ∷ codes "--packets=5" ∷ []) ≡ None }
    ensures packets_of_letters { command_of (codes "trial" ∷ codes "--made=7" ∷ codes "--packets=x" ∷ []) ≡ None }
    ensures empty_seed { command_of (codes "trial" ∷ codes "--made=" ∷ codes "--packets=5" ∷ []) ≡ None }
    ensures empty_seed_word { command_of (codes "trial" ∷ codes "--made" ∷ [] ∷ codes "--packets=5" ∷ []) ≡ None }
    ensures empty_packets { command_of (codes "trial" ∷ codes "--made=7" ∷ codes "--packets=" ∷ []) ≡ None }
    ensures hyphen { command_of (codes "trial" ∷ codes "--made=-7" ∷ codes "--packets=5" ∷ []) ≡ None }
    ensures no_text { command_of (codes "trial" ∷ codes "--made" ∷ codes "--packets=5" ∷ []) ≡ None }
    ensures no_streams { command_of (codes "trial" ∷ codes "--made=7" ∷ codes "--packets=5" ∷ codes "--streams=0" ∷ [])
        ≡ None }
    ensures of_none { command_of (codes "agent" ∷ codes "--made=7" ∷ codes "--packets=5" ∷ []) ≡ None }
{}
