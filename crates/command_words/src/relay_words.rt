// Worked examples: the words of `relay`.
ghost use Rattle.std.specs.Prelude.{◌≡◌, [], ◌∷◌, None, Some, codes, false, true};
ghost use Rattle.books_spec.specs.Limits.{usual_limits};
ghost use Rattle.wire_spec.specs.Heads.{ipv4};
ghost use Rattle.command_words.specs.Commands.{command_for, command_of};

use crate::command::Command;

/// The words of `relay`: how many receives there are and the routes must stand; a place and limits may.
pub fn words_of_relay()
    ensures usual { command_of (codes "relay" ∷ codes "--turns=5" ∷ codes "--routes" ∷ codes "10.0.0.1=a;any=b" ∷ [])
        ≡ Some (Command.Relay (record {
          turns = 5;
          listen = codes "0.0.0.0:6343";
          limits = usual_limits;
          interfaces = false;
        }) (record { agent = Some (ipv4 (10 ∷ 0 ∷ 0 ∷ 1 ∷ [])); place = codes "a" }
        ∷ record { agent = None; place = codes "b" } ∷ [])) }
    ensures all { command_of (codes "relay" ∷ codes "--routes=any=[::1]:6343" ∷ codes "--interfaces" ∷ codes "--listen"
        ∷ codes "[::]:7000" ∷ codes "--boot-slack=105" ∷ codes "--sample-width" ∷ codes "4" ∷ codes "--datagram-width=3"
        ∷ codes "--sources=20" ∷ codes "--streams=10" ∷ codes "--turns" ∷ codes "4294967295" ∷ [])
        ≡ Some (Command.Relay (record {
          turns = 4294967295;
          listen = codes "[::]:7000";
          limits = record {
            streams = 10;
            sources = 20;
            datagram_width = 3;
            sample_width = 4;
            boot_slack = 105;
          };
          interfaces = true;
        }) (record { agent = None; place = codes "[::1]:6343" } ∷ [])) }
    ensures no_turns { command_of (codes "relay" ∷ codes "--routes=any=a" ∷ []) ≡ None }
    ensures no_routes { command_of (codes "relay" ∷ codes "--turns=5" ∷ []) ≡ None }
    ensures none { command_of (codes "relay" ∷ codes "--turns=0" ∷ codes "--routes=any=a" ∷ []) ≡ None }
    ensures no_place { command_of (codes "relay" ∷ codes "--turns=5" ∷ codes "--routes=10.0.0.1" ∷ []) ≡ None }
    ensures empty { command_of (codes "relay" ∷ codes "--turns=5" ∷ codes "--routes=" ∷ []) ≡ None }
    ensures nine { command_of (codes "relay" ∷ codes "--turns=5"
        ∷ codes "--routes=any=a;any=a;any=a;any=a;any=a;any=a;any=a;any=a;any=a" ∷ []) ≡ None }
    ensures twice { command_of (codes "relay" ∷ codes "--turns=5" ∷ codes "--routes=any=a" ∷ codes "--routes=any=a" ∷ [])
        ≡ None }
    ensures no_streams { command_of (codes "relay" ∷ codes "--turns=5" ∷ codes "--routes=any=a" ∷ codes "--streams=0" ∷ [])
        ≡ None }
    ensures of_another { command_of (codes "relay" ∷ codes "--turns=5" ∷ codes "--routes=any=a" ∷ codes "--to=a" ∷ [])
        ≡ None }
    ensures of_none { command_of (codes "collect" ∷ codes "--turns=5" ∷ codes "--routes=any=a" ∷ []) ≡ None }
{}

/// Two routes take two receivers; other commands take none.
pub fn words_with_receivers()
    ensures enough { command_for 2 (codes "relay" ∷ codes "--turns=5" ∷ codes "--routes" ∷ codes "any=a;any=b" ∷ [])
        ≡ command_of (codes "relay" ∷ codes "--turns=5" ∷ codes "--routes" ∷ codes "any=a;any=b" ∷ []) }
    ensures too_few { command_for 1 (codes "relay" ∷ codes "--turns=5" ∷ codes "--routes" ∷ codes "any=a;any=b" ∷ [])
        ≡ None }
    ensures none_needed { command_for 0 (codes "show" ∷ []) ≡ Some Command.Show }
{}
