//! What holds of the samples of an agent, whatever happens to it.

ghost use Rattle.std.specs.Prelude.{◌≡◌, ◌↔◌, ℕ, ◌<◌, ◌≤◌, true, List, length};
ghost use Rattle.std.specs.List.{AllByRecursion};
ghost use Rattle.agent_spec.specs.Sources.{Source, Turn, FlowSetup};
ghost use Rattle.agent_spec.specs.Samples.{Setup};
ghost use Rattle.agent_spec.specs.Events.{Event, generation_after};
ghost use Rattle.agent_spec.specs.Marks.{IsMarked, is_marked};
ghost use Rattle.agent_spec.specs.Boots.{happened, seen_in, issued_in, dropped_in, last_poll, MayHappen};
ghost use Rattle.agent_spec.specs.Orders.{samples_in, AreNumberedFrom, NeverFall, HasFirst, IsOnlySetup, HasOneSetup};

/// The test finds exactly the packets that are marked.
pub fn marks_are_sums()
    ensures { (skips : List ℕ) (j : ℕ) → AllByRecursion (λ (n : ℕ). 1 ≤ n) skips → 1 ≤ length skips
        → (is_marked skips j ≡ true) ↔ IsMarked skips j }
{}

/// In a generation the numbers of a source go up by one in order of issue, from its first number on.
pub fn numbers_follow()
    ensures { (s : Setup) (events : List Event) (turn : Turn) (first : ℕ)
        → HasFirst turn.source first s events
        → AreNumberedFrom first (samples_in turn (happened s events)) }
{}

/// In a generation the pool of a flow source rises from sample to sample, and its drops never fall.
pub fn counts_never_fall()
    ensures { (s : Setup) (f : FlowSetup) (events : List Event) (generation : ℕ) → IsOnlySetup f s events
        → NeverFall (samples_in (record { source = f.source; generation = generation }) (happened s events)) }
{}

/// Before a source enters a generation nothing was counted in it.
pub fn generations_begin_empty()
    ensures seen { (s : Setup) (events : List Event) (turn : Turn)
        → generation_after turn.source events < turn.generation → seen_in turn (happened s events) ≡ 0 }
    ensures issued { (s : Setup) (events : List Event) (turn : Turn)
        → generation_after turn.source events < turn.generation → issued_in turn (happened s events) ≡ 0 }
    ensures dropped { (s : Setup) (events : List Event) (turn : Turn)
        → generation_after turn.source events < turn.generation → dropped_in turn (happened s events) ≡ 0 }
    ensures polled { (s : Setup) (events : List Event) (turn : Turn)
        → generation_after turn.source events < turn.generation
        → last_poll turn (happened s events).polled ≡ 0 }
{}

/// Of a source with one setup each packet belongs to it, and its numbers begin there.
pub fn setups_are_known()
    ensures only { (f : FlowSetup) (s : Setup) (events : List Event) → HasOneSetup f s → MayHappen s events
        → IsOnlySetup f s events }
    ensures first { (f : FlowSetup) (s : Setup) (events : List Event) → HasOneSetup f s → MayHappen s events
        → HasFirst f.source f.first s events }
{}

/// The stage never holds more samples than it has places.
pub fn stage_has_room()
    ensures { (s : Setup) (events : List Event) → MayHappen s events → length (happened s events).staged ≤ s.stage }
{}
