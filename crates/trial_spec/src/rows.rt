//! Worked rows, computed by the check. Deliveries have the latest first.

ghost use Rattle.std.specs.Prelude.{◌≡◌, true, false, [], ◌∷◌, map, take};
ghost use Rattle.agent_spec.specs.Events.{Observe, Poll, Send};
ghost use Rattle.account_spec.specs.Rows.{usual, all_happens, all_delivered, hidden_restart, after_hidden_restart, hidden_reset, after_hidden_reset, two_sub_agents, of_two_sub_agents, one_stream};
ghost use Rattle.account_spec.specs.FarRows.{many_sent, two_far_apart};
ghost use Rattle.trial_spec.specs.PremiseTests.{visible, close, roomy, apparent};
ghost use Rattle.trial_spec.specs.Made.{made_flow, made, made_deliveries, boots_made};
ghost use Rattle.trial_spec.specs.MadeRows.{first_of, first_packet, second_packet};

/// A history in which all happens that may happen: each test is true.
pub fn all_happens_tests()
    ensures visible { visible usual all_happens all_delivered ≡ true }
    ensures close { close usual all_happens all_delivered ≡ true }
    ensures roomy { roomy usual all_delivered ≡ true }
    ensures apparent { apparent usual all_happens all_delivered ≡ true }
{}

/// A restart within the slack, two datagrams 2^31 numbers apart, room for one sub-agent of two, and a reset whose first
/// datagram comes before all others: one test is false each.
pub fn single_tests()
    ensures not_visible { visible usual hidden_restart after_hidden_restart ≡ false }
    ensures not_close { close usual many_sent two_far_apart ≡ false }
    ensures not_roomy { roomy one_stream of_two_sub_agents ≡ false }
    ensures not_apparent { apparent usual hidden_reset after_hidden_reset ≡ false }
    ensures other_visible { visible usual hidden_reset after_hidden_reset ≡ true }
    ensures other_close { close one_stream two_sub_agents of_two_sub_agents ≡ true }
    ensures other_roomy { roomy usual two_far_apart ≡ true }
    ensures other_apparent { apparent usual hidden_restart after_hidden_restart ≡ true }
{}

/// The made run of the seed 78 with two packets: each is the first of its boot and marked, since the first skip number is
/// 1. The datagram of the first boot is held, and arrives when its boot ends; that of the second arrives once.
#[tactic(auto, unfolding(script_spec::specs::Agents::poll_at, script_spec::specs::Agents::send_at))]
pub fn made_row()
    ensures skips { take 4 (made_flow 78).skips ≡ 1 ∷ 12 ∷ 11 ∷ 8 ∷ [] }
    ensures boots { boots_made (made 78 2)
        ≡ (Send 10 1 ∷ Poll 10 [] ∷ Observe (made_flow 78) first_packet ∷ [])
        ∷ (Send 10 1 ∷ Poll 10 [] ∷ Observe (made_flow 78) second_packet ∷ []) ∷ [] }
    ensures deliveries { made_deliveries 78 2
        ≡ first_of 2 1060032 second_packet ∷ first_of 1 1000026 first_packet ∷ [] }
{}

/// Of the seed 6197 the first boot's datagram never arrives, and the second's twice.
#[tactic(auto, unfolding(script_spec::specs::Agents::poll_at, script_spec::specs::Agents::send_at))]
pub fn made_copies_row()
    ensures arrivals { map (λ d. d.arrival) (made_deliveries 6197 2) ≡ 1060021 ∷ 1060044 ∷ [] }
    ensures boots { map (λ d. d.boot) (made_deliveries 6197 2) ≡ 2 ∷ 2 ∷ [] }
{}
