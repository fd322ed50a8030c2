// Worked examples: the words of the commands that use a link.
ghost use Rattle.std.specs.Prelude.{◌≡◌, [], ◌∷◌, None, Some, codes, false, true};
ghost use Rattle.books_spec.specs.Limits.{usual_limits};
ghost use Rattle.command_words.specs.Commands.{command_of};

use crate::command::Command;

/// The words of `send`: a place may be named.
pub fn words_of_send()
    ensures usual { command_of (codes "send" ∷ []) ≡ Some (Command.Send (codes "127.0.0.1:6343")) }
    ensures joined { command_of (codes "send" ∷ codes "--to=[::1]:7000" ∷ [])
        ≡ Some (Command.Send (codes "[::1]:7000")) }
    ensures apart { command_of (codes "send" ∷ codes "--to" ∷ codes "a=b" ∷ []) ≡ Some (Command.Send (codes "a=b")) }
    ensures no_text { command_of (codes "send" ∷ codes "--to" ∷ []) ≡ None }
    ensures empty { command_of (codes "send" ∷ codes "--to=" ∷ []) ≡ None }
    ensures empty_word { command_of (codes "send" ∷ codes "--to" ∷ [] ∷ []) ≡ None }
    ensures hyphen { command_of (codes "send" ∷ codes "--to=-a" ∷ []) ≡ None }
    ensures twice { command_of (codes "send" ∷ codes "--to=a" ∷ codes "--to=a" ∷ []) ≡ None }
    ensures of_another { command_of (codes "send" ∷ codes "--listen=a" ∷ []) ≡ None }
    ensures no_option { command_of (codes "send" ∷ codes "127.0.0.1:6343" ∷ []) ≡ None }
    ensures of_none { command_of (codes "replay" ∷ codes "--to=a" ∷ []) ≡ None }
{}

/// The words of `collect`: how many receives there are must stand; a place and limits may.
pub fn words_of_collect()
    ensures usual { command_of (codes "collect" ∷ codes "--turns=5" ∷ []) ≡ Some (Command.Collect (record {
      turns = 5;
      listen = codes "0.0.0.0:6343";
      limits = usual_limits;
      interfaces = false;
    })) }
    ensures all { command_of (codes "collect" ∷ codes "--interfaces" ∷ codes "--listen" ∷ codes "[::]:7000"
        ∷ codes "--boot-slack=105" ∷ codes "--sample-width" ∷ codes "4" ∷ codes "--datagram-width=3"
        ∷ codes "--sources=20" ∷ codes "--streams=10" ∷ codes "--turns" ∷ codes "4294967295" ∷ [])
        ≡ Some (Command.Collect (record {
          turns = 4294967295;
          listen = codes "[::]:7000";
          limits = record {
            streams = 10;
            sources = 20;
            datagram_width = 3;
            sample_width = 4;
            boot_slack = 105;
          };
          interfaces = true;
        })) }
    ensures no_turns { command_of (codes "collect" ∷ []) ≡ None }
    ensures place_alone { command_of (codes "collect" ∷ codes "--listen=a" ∷ []) ≡ None }
    ensures none { command_of (codes "collect" ∷ codes "--turns=0" ∷ []) ≡ None }
    ensures too_many { command_of (codes "collect" ∷ codes "--turns=4294967296" ∷ []) ≡ None }
    ensures leading_zero { command_of (codes "collect" ∷ codes "--turns=05" ∷ []) ≡ None }
    ensures twice { command_of (codes "collect" ∷ codes "--turns=5" ∷ codes "--turns=5" ∷ []) ≡ None }
    ensures empty_place { command_of (codes "collect" ∷ codes "--turns=5" ∷ codes "--listen=" ∷ []) ≡ None }
    ensures hyphen { command_of (codes "collect" ∷ codes "--turns=5" ∷ codes "--listen" ∷ codes "-a" ∷ []) ≡ None }
    ensures no_streams { command_of (codes "collect" ∷ codes "--turns=5" ∷ codes "--streams=0" ∷ []) ≡ None }
    ensures of_another { command_of (codes "collect" ∷ codes "--turns=5" ∷ codes "--to=a" ∷ []) ≡ None }
    ensures of_none { command_of (codes "replay" ∷ codes "--turns=5" ∷ []) ≡ None }
{}
