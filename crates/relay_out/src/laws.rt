// What the definitions say of whole runs and of texts. Each is a function with nothing to do, whose contract is the law.
ghost use Rattle.std.specs.Prelude.{◌≡◌, ◌↔◌, ◌++◌, [], ◌∷◌, ◌≤◌, ℕ, List, length, true, false, Some, option_map};
ghost use Rattle.byte_ends.specs.Seen.{Rose};
ghost use Rattle.datagram_links.specs.Receivers.{ReceiverSeen};
ghost use Rattle.script_spec.specs.Words.{Text};
ghost use Rattle.relay_out.specs.declared.progress.Progress.{Progress};
ghost use Rattle.relay_out.specs.Routes.{AgentDatagram, Route, routes_in};
ghost use Rattle.relay_out.specs.Runs.{Arrival, HasServed, firsts, took_of};
ghost use Rattle.relay_out.specs.Spelled.{SaysRoutes};

/// Of what comes, a datagram that is the first of its number goes on behind those before it, and any other one changes
/// nothing.
pub fn only_first_ones_go_on()
    ensures first { (arrivals : List Arrival) (d : AgentDatagram)
        → firsts (arrivals ++ record { datagram = d; is_first = true } ∷ []) ≡ firsts arrivals ++ d ∷ [] }
    ensures others { (arrivals : List Arrival) (d : AgentDatagram)
        → firsts (arrivals ++ record { datagram = d; is_first = false } ∷ []) ≡ firsts arrivals }
{}

/// A receiver whose count of faults didn't rise in a run took all that was to go to it. It is stopped only where its own
/// count rose. Its number is never above how many were to go to it.
pub fn receivers_miss_only_by_their_own_faults()
    ensures all { (place : Text) (due : List (List ℕ)) (x y : ReceiverSeen) (now : Progress) → HasServed (λ s. s) place due x y now
        → (Rose x.faults y.faults → ⊥) → took_of y ≡ option_map (λ before. before ++ due) (took_of x) }
    ensures stopped { (place : Text) (due : List (List ℕ)) (x y : ReceiverSeen) (now : Progress) → HasServed (λ s. s) place due x y now
        → now.stopped ≡ true → Rose x.faults y.faults }
    ensures number { (place : Text) (due : List (List ℕ)) (x y : ReceiverSeen) (now : Progress) → HasServed (λ s. s) place due x y now
        → now.passed ≤ length due }
{}

/// A text reads as routes exactly where it is their texts, joined by semicolons; and of no two lists of routes it is that.
pub fn routes_are_joined()
    ensures exact { (text : Text) (routes : List Route) → (routes_in text ≡ Some routes) ↔ SaysRoutes text routes }
    ensures one { (text : Text) (routes others : List Route) → SaysRoutes text routes → SaysRoutes text others → routes ≡ others }
{}
