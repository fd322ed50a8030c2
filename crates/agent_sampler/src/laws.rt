//! The counts for which a sampler stands, event by event of a boot. Each list of events has the latest first.

ghost use Rattle.std.specs.Prelude.{◌≡◌, ℕ, ◌+◌, false, List, ◌∷◌};
ghost use Rattle.std.specs.List.{AllByRecursion};
ghost use Rattle.wire_spec.specs.Shapes.{Tree};
ghost use Rattle.agent_spec.specs.Sources.{Source, same_source, FlowSetup, CounterSetup};
ghost use Rattle.agent_spec.specs.Samples.{Packet, Setup};
ghost use Rattle.agent_spec.specs.Events.{Event, Observe, Poll, Send, Reset};
ghost use Rattle.agent_spec.specs.Marks.{is_marked};
ghost use Rattle.agent_sampler.specs.Following.{FlowCounts, counts_after, has_place, with_packet, none_yet};

/// A packet of the source is counted; where it is marked, it is issued or dropped. A reset of the source begins
/// with no counts.
pub fn counts_follow_the_source()
    ensures packet { (s : Setup) (f : FlowSetup) (packet : Packet) (events : List Event)
        → counts_after s f.source (Observe f packet ∷ events)
        ≡ with_packet (is_marked f.skips (1 + (counts_after s f.source events).packets)) (has_place s events)
        (counts_after s f.source events) }
    ensures reset { (s : Setup) (source : Source) (events : List Event)
        → counts_after s source (Reset source ∷ events) ≡ none_yet }
{}

/// What happens to others leaves the counts of a source as they are.
pub fn counts_stay_with_others()
    ensures packet { (s : Setup) (source : Source) (f : FlowSetup) (packet : Packet) (events : List Event)
        → same_source source f.source ≡ false
        → counts_after s source (Observe f packet ∷ events) ≡ counts_after s source events }
    ensures poll { (s : Setup) (source : Source) (now : ℕ) (readings : List Tree) (events : List Event)
        → AllByRecursion (λ (c : CounterSetup). same_source source c.source ≡ false) s.counters
        → counts_after s source (Poll now readings ∷ events) ≡ counts_after s source events }
    ensures send { (s : Setup) (source : Source) (now count : ℕ) (events : List Event)
        → counts_after s source (Send now count ∷ events) ≡ counts_after s source events }
    ensures reset { (s : Setup) (source other : Source) (events : List Event)
        → same_source source other ≡ false
        → counts_after s source (Reset other ∷ events) ≡ counts_after s source events }
{}
