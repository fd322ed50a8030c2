//! The counts for which a poller stands, event by event of a boot. Each list of events has the latest first.

ghost use Rattle.std.specs.Prelude.{◌≡◌, ℕ, ◌+◌, false, List, [], ◌∷◌};
ghost use Rattle.wire_spec.specs.Shapes.{Tree};
ghost use Rattle.agent_spec.specs.Sources.{Source, Turn, same_source, same_turn, FlowSetup, CounterSetup};
ghost use Rattle.agent_spec.specs.Samples.{Packet, Setup};
ghost use Rattle.agent_spec.specs.Events.{Event, Observe, Send, Reset, turn_after};
ghost use Rattle.agent_spec.specs.Boots.{Boot, after_poll};
ghost use Rattle.agent_poller.specs.Following.{PollCounts, counts_in, counts_after, none_yet, after_one};

/// A poll is one of each source in turn. It counts a sample of its own source, at its uptime, and of no other.
pub fn polls_go_one_by_one()
    ensures none { (now : ℕ) (events : List Event) (due : List CounterSetup) (b : Boot)
        → after_poll now events due [] b ≡ b }
    ensures next { (now : ℕ) (events : List Event) (c : CounterSetup) (due : List CounterSetup) (reading : Tree)
        (more : List Tree) (b : Boot)
        → after_poll now events (c ∷ due) (reading ∷ more) b
        ≡ after_poll now events due more (after_one c (turn_after c.source events) now reading b) }
    ensures own { (c : CounterSetup) (turn : Turn) (now : ℕ) (reading : Tree) (b : Boot)
        → counts_in turn (after_one c turn now reading b)
        ≡ record { issued = 1 + (counts_in turn b).issued; last = now } }
    ensures others { (c : CounterSetup) (turn own : Turn) (now : ℕ) (reading : Tree) (b : Boot)
        → same_turn turn own ≡ false → counts_in turn (after_one c own now reading b) ≡ counts_in turn b }
{}

/// A reset of the source begins with no counts; what happens to others leaves them as they are, and a send does.
pub fn counts_follow_the_source()
    ensures reset { (s : Setup) (source : Source) (events : List Event)
        → counts_after s source (Reset source ∷ events) ≡ none_yet }
    ensures other_reset { (s : Setup) (source other : Source) (events : List Event)
        → same_source source other ≡ false
        → counts_after s source (Reset other ∷ events) ≡ counts_after s source events }
    ensures packet { (s : Setup) (source : Source) (f : FlowSetup) (packet : Packet) (events : List Event)
        → same_source source f.source ≡ false
        → counts_after s source (Observe f packet ∷ events) ≡ counts_after s source events }
    ensures send { (s : Setup) (source : Source) (now count : ℕ) (events : List Event)
        → counts_after s source (Send now count ∷ events) ≡ counts_after s source events }
{}
