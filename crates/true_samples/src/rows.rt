//! Worked rows, computed by the check. Lists of events and of boots have the latest first.

ghost use Rattle.std.specs.Prelude.{◌≡◌, Some, None, [], ◌∷◌};
ghost use Rattle.agent_spec.specs.Events.{Send, Reset};
ghost use Rattle.agent_spec.specs.Spelled.{sent_bytes};
ghost use Rattle.agent_spec.specs.Rows.{small_sender, counter_reading, flow_at, flow, sub_agent, sampled, packets};
ghost use Rattle.true_samples.specs.Words.{count_in};
ghost use Rattle.true_samples.specs.Counts.{flow_counts, seen_of};
ghost use Rattle.true_samples.specs.declared.calls.Seen.TheVariants.{Passed, Issued, Dropped};
ghost use Rattle.true_samples.specs.Standing.{sent_at};
ghost use Rattle.agent_spec.specs.Boots.{happened};

/// How many samples the bytes of a datagram say.
pub fn count_rows()
    ensures none { count_in [] ≡ 0 }
    ensures one { count_in (sent_bytes small_sender (record { number = 1; uptime = 0; samples = counter_reading ∷ [] })) ≡ 1 }
    ensures two { count_in (sent_bytes small_sender (record { number = 1; uptime = 0; samples = flow_at 1 1 3 0 ∷ counter_reading ∷ [] })) ≡ 2 }
{}

/// Skips of 3 and 2 packets, and a stage of one sample: the third packet is issued, and the fifth finds no place. A reset
/// begins the second generation.
pub fn packet_rows()
    ensures passed { seen_of (sub_agent 1) sampled (packets 1 []) ≡ Passed }
    ensures issued { seen_of (sub_agent 1) sampled (packets 2 []) ≡ Issued }
    ensures dropped { seen_of (sub_agent 1) sampled (packets 4 []) ≡ Dropped }
    ensures counts { flow_counts (packets 5 []) (happened (sub_agent 1) (packets 5 [])) sampled ≡ record {
      first = 1;
      pool = 0;
      drops = 0;
      generation = 1;
      packets = 5;
      issued = 1;
      dropped = 1;
    } }
    ensures reset { flow_counts (Reset flow ∷ packets 5 []) (happened (sub_agent 1) (Reset flow ∷ packets 5 [])) sampled ≡ record {
      first = 1;
      pool = 0;
      drops = 0;
      generation = 2;
      packets = 0;
      issued = 0;
      dropped = 0;
    } }
{}

/// A boot that sent a datagram, and a boot behind it that sent none.
pub fn sent_rows()
    ensures sent { sent_at (sub_agent 1) ([] ∷ (Send 500 1 ∷ packets 5 []) ∷ []) 1 1
        ≡ Some (record { number = 1; uptime = 500; samples = flow_at 1 1 3 0 ∷ [] }) }
    ensures no_second { sent_at (sub_agent 1) ([] ∷ (Send 500 1 ∷ packets 5 []) ∷ []) 1 2 ≡ None }
    ensures no_number { sent_at (sub_agent 1) ([] ∷ (Send 500 1 ∷ packets 5 []) ∷ []) 1 0 ≡ None }
    ensures later_boot { sent_at (sub_agent 1) ([] ∷ (Send 500 1 ∷ packets 5 []) ∷ []) 2 1 ≡ None }
    ensures no_boot { sent_at (sub_agent 1) ([] ∷ (Send 500 1 ∷ packets 5 []) ∷ []) 0 1 ≡ None }
{}
