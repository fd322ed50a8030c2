//! Worked rows of texts of routes and of whole runs, computed by the check.
ghost use Rattle.std.specs.Prelude.{◌≡◌, ◌++◌, [], ◌∷◌, None, Some, true, false, codes, replicate};
ghost use Rattle.wire_spec.specs.Heads.{ipv4, ipv6};
ghost use Rattle.relay_out.specs.Lines.{relay_text};
ghost use Rattle.relay_out.specs.Routes.{by_route, routes_in};
ghost use Rattle.relay_out.specs.RunRows.{WentSo, came, so_far, to_a, to_b, used};
ghost use Rattle.relay_out.specs.Runs.{firsts};

/// Texts that are routes: an agent's and any agent's; an IPv6 address; all behind the first `=` is the place; one of 64
/// bytes; the same route twice; eight routes.
pub fn lawful_texts()
    ensures two { routes_in (codes "10.0.0.1=a;any=b") ≡ Some (
        record { agent = Some (ipv4 (10 ∷ 0 ∷ 0 ∷ 1 ∷ [])); place = codes "a" } ∷
        record { agent = None; place = codes "b" } ∷ []) }
    ensures groups { routes_in (codes "2001:0db8:0000:0000:0000:0000:0000:000a=[::1]:6343") ≡ Some (
        record { agent = Some (ipv6 (32 ∷ 1 ∷ 13 ∷ 184 ∷ replicate 11 0 ++ 10 ∷ [])); place = codes "[::1]:6343" } ∷ []) }
    ensures equals_in_place { routes_in (codes "any=a=b") ≡ Some (record { agent = None; place = codes "a=b" } ∷ []) }
    ensures longest_place { routes_in (codes "any=" ++ replicate 64 97) ≡ Some (record { agent = None; place = replicate 64 97 } ∷ []) }
    ensures alike { routes_in (codes "any=a;any=a") ≡ Some (replicate 2 (record { agent = None; place = codes "a" })) }
    ensures eight { routes_in (codes "any=a;any=a;any=a;any=a;any=a;any=a;any=a;any=a")
        ≡ Some (replicate 8 (record { agent = None; place = codes "a" })) }
{}

/// Texts that break one rule each.
pub fn unlawful_texts()
    ensures nothing { routes_in [] ≡ None }
    ensures no_equals { routes_in (codes "10.0.0.1") ≡ None }
    ensures no_agent { routes_in (codes "=a") ≡ None }
    ensures no_place { routes_in (codes "any=") ≡ None }
    ensures long_place { routes_in (codes "any=" ++ replicate 65 97) ≡ None }
    ensures nine { routes_in (codes "any=a;any=a;any=a;any=a;any=a;any=a;any=a;any=a;any=a") ≡ None }
    ensures empty_route { routes_in (codes "any=a;;any=b") ≡ None }
    ensures closed { routes_in (codes "any=a;") ≡ None }
    ensures second_broken { routes_in (codes "any=a;10.0.0.1") ≡ None }
    ensures unknown { routes_in (codes "unknown=a") ≡ None }
    ensures front_of_any { routes_in (codes "an=a") ≡ None }
    ensures behind_any { routes_in (codes "anyone=a") ≡ None }
    ensures capitals { routes_in (codes "ANY=a") ≡ None }
    ensures space { routes_in (codes "any =a") ≡ None }
    ensures leading_zero { routes_in (codes "10.0.0.01=a") ≡ None }
    ensures large_number { routes_in (codes "10.0.0.256=a") ≡ None }
    ensures three_numbers { routes_in (codes "10.0.0=a") ≡ None }
    ensures five_numbers { routes_in (codes "10.0.0.1.1=a") ≡ None }
    ensures short_groups { routes_in (codes "::1=a") ≡ None }
    ensures capital_digits { routes_in (codes "2001:0DB8:0000:0000:0000:0000:0000:000a=a") ≡ None }
{}

/// What goes on to a receiver of one agent and to one of any: of four datagrams the second is a repeat, and the third is of
/// another agent.
pub fn worked_routes()
    ensures one_agent { by_route to_a (firsts came) ≡ (1 ∷ []) ∷ (2 ∷ []) ∷ [] }
    ensures any_agent { by_route to_b (firsts came) ≡ (1 ∷ []) ∷ (1 ∷ 2 ∷ []) ∷ (2 ∷ []) ∷ [] }
{}

/// How it can go with the receiver of one agent: it took both; its second pass failed; its aim failed. It can't be that it
/// missed one without a fault, that it was passed one of another agent, or that it counts one more than it took.
pub fn worked_receivers()
    ensures whole { WentSo (codes "a") (by_route to_a (firsts came)) (used (codes "a") ((1 ∷ []) ∷ (2 ∷ []) ∷ []) 0) (so_far 2 false) }
    ensures second_failed { WentSo (codes "a") (by_route to_a (firsts came)) (used (codes "a") ((1 ∷ []) ∷ []) 1) (so_far 1 true) }
    ensures aim_failed { WentSo (codes "a") (by_route to_a (firsts came)) (record { told = Some (record { place = None; taken = [] }); faults = 1 }) (so_far 0 true) }
    ensures no_fault { WentSo (codes "a") (by_route to_a (firsts came)) (used (codes "a") ((1 ∷ []) ∷ []) 0) (so_far 1 false) → ⊥ }
    ensures other_agent { WentSo (codes "a") (by_route to_a (firsts came)) (used (codes "a") ((1 ∷ []) ∷ (1 ∷ 2 ∷ []) ∷ (2 ∷ []) ∷ []) 0) (so_far 3 false) → ⊥ }
    ensures counted { WentSo (codes "a") (by_route to_a (firsts came)) (used (codes "a") ((1 ∷ []) ∷ []) 1) (so_far 2 true) → ⊥ }
{}

/// The lines of two routes whose receivers took all, and of two of which the first failed at its second datagram.
pub fn worked_lines()
    ensures all { relay_text (to_a ∷ to_b ∷ []) (so_far 2 false ∷ so_far 3 false ∷ [])
        ≡ codes "relay 1 place a passed 2 stopped no\nrelay 2 place b passed 3 stopped no\n" }
    ensures one_stopped { relay_text (to_a ∷ to_b ∷ []) (so_far 1 true ∷ so_far 3 false ∷ [])
        ≡ codes "relay 1 place a passed 1 stopped yes\nrelay 2 place b passed 3 stopped no\n" }
    ensures one_route { relay_text (to_b ∷ []) (so_far 18446744073709551615 false ∷ so_far 7 true ∷ [])
        ≡ codes "relay 1 place b passed 18446744073709551615 stopped no\n" }
{}
