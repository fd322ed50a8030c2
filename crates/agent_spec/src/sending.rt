//! What holds of the datagrams of an agent.

ghost use Rattle.std.specs.Prelude.{◌≡◌, ℕ, ◌<◌, ◌≤◌, ◌++◌, [], ◌∷◌, Bool, true, false, List, length, take, nat_le};
ghost use Rattle.std.specs.List.{AllByRecursion};
ghost use Rattle.agent_spec.specs.Samples.{Sample, Datagram, Setup};
ghost use Rattle.agent_spec.specs.Events.{Event};
ghost use Rattle.agent_spec.specs.Packing.{joined, longest, cut};
ghost use Rattle.agent_spec.specs.Boots.{happened};
ghost use Rattle.agent_spec.specs.Sending.{samples_sent, AreCountedFrom};
ghost use Rattle.agent_spec.specs.Spelled.{Sender, sent_bytes, fits_in};
ghost use Rattle.agent_spec.specs.Rows.{small_sender, all_counters, counter_reading, flow_at};

/// Samples cut into longest prefixes are all of them, in their order.
pub fn prefixes_are_the_whole()
    ensures { (fits : List Sample → Bool) (samples : List Sample) → joined (cut fits samples) ≡ samples }
{}

/// A longest prefix of more than one sample fits, and none that is longer does.
pub fn prefixes_are_longest()
    ensures fits { (fits : List Sample → Bool) (samples : List Sample) (most : ℕ)
        → 1 < longest fits samples most → fits (take (longest fits samples most) samples) ≡ true }
    ensures no_longer { (fits : List Sample → Bool) (samples : List Sample) (most size : ℕ)
        → longest fits samples most < size → size ≤ most → fits (take size samples) ≡ false }
{}

/// Where each sample fits a datagram alone, each datagram fits.
pub fn datagrams_fit()
    ensures { (fits : List Sample → Bool) (samples : List Sample)
        → AllByRecursion (λ (s : Sample). fits (s ∷ []) ≡ true) samples
        → AllByRecursion (λ (d : List Sample). fits d ≡ true) (cut fits samples) }
{}

/// Whether a datagram has room for its samples doesn't depend on its number and its uptime.
pub fn room_for_samples()
    ensures { (sender : Sender) (d : Datagram)
        → fits_in sender d.samples ≡ nat_le (length (sent_bytes sender d)) sender.max_datagram }
{}

/// In a boot each sample that was issued is staged or was sent, once and in order of issue.
pub fn nothing_is_lost()
    ensures { (s : Setup) (events : List Event)
        → (happened s events).issued ≡ (happened s events).staged ++ samples_sent (happened s events).sent }
{}

/// The numbers of the datagrams of a boot go up by one, from the first number on.
pub fn datagrams_count_up()
    ensures { (s : Setup) (events : List Event) → AreCountedFrom s.first (happened s events).sent }
{}

/// The bytes of datagrams: with one reading of an interface 144, with one packet whose header has no bytes 92.
pub fn size_rows()
    ensures counters { length (sent_bytes small_sender (record { number = 1; uptime = 0; samples = counter_reading ∷ [] })) ≡ 144 }
    ensures packet { length (sent_bytes small_sender (record { number = 1; uptime = 0; samples = flow_at 1 1 3 0 ∷ [] })) ≡ 92 }
    ensures fits { fits_in small_sender (counter_reading ∷ []) ≡ true }
    ensures both_do_not { fits_in small_sender (counter_reading ∷ flow_at 1 1 3 0 ∷ []) ≡ false }
{}
