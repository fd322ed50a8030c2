//! Worked rows, computed by the check. Each list has the latest first.

ghost use Rattle.std.specs.Prelude.{◌≡◌, ℕ, true, false, List, [], ◌∷◌, map};
ghost use Rattle.agent_spec.specs.Marks.{is_marked, sum_of_skips};
ghost use Rattle.agent_spec.specs.Polls.{is_due_after};
ghost use Rattle.agent_spec.specs.Packing.{cut};
ghost use Rattle.agent_spec.specs.Samples.{Datagram};
ghost use Rattle.agent_spec.specs.Events.{Poll, Send, Reset};
ghost use Rattle.agent_spec.specs.Rows.{flow, counter, packets, sent, issued, staged, due, flow_at, reading_at, any_reading, up_to_five};

/// Which packets are marked, with the skip numbers 3 and 2.
pub fn mark_rows()
    ensures before { is_marked (3 ∷ 2 ∷ []) 2 ≡ false }
    ensures first { is_marked (3 ∷ 2 ∷ []) 3 ≡ true }
    ensures between { is_marked (3 ∷ 2 ∷ []) 4 ≡ false }
    ensures second { is_marked (3 ∷ 2 ∷ []) 5 ≡ true }
    ensures the_list_begins_again { is_marked (3 ∷ 2 ∷ []) 8 ≡ true }
    ensures fourth { is_marked (3 ∷ 2 ∷ []) 10 ≡ true }
    ensures each { is_marked (1 ∷ []) 7 ≡ true }
    ensures none { is_marked (1 ∷ []) 0 ≡ false }
    ensures sum { sum_of_skips (3 ∷ 2 ∷ []) 5 ≡ 13 }
{}

/// A full stage drops a marked packet; a dropped one has no number, but counts in the pool and in the drops.
pub fn sample_rows()
    ensures issued { issued 2 (packets 8 []) ≡ flow_at 1 2 5 0 ∷ flow_at 1 1 3 0 ∷ [] }
    ensures dropped { issued 2 (packets 2 (Send 500 1 ∷ packets 8 []))
        ≡ flow_at 1 3 10 1 ∷ flow_at 1 2 5 0 ∷ flow_at 1 1 3 0 ∷ [] }
    ensures sent { sent 2 (Send 600 1 ∷ packets 2 (Send 500 1 ∷ packets 8 []))
        ≡ record { number = 2; uptime = 600; samples = flow_at 1 3 10 1 ∷ [] }
        ∷ record { number = 1; uptime = 500; samples = flow_at 1 1 3 0 ∷ flow_at 1 2 5 0 ∷ [] } ∷ [] }
    ensures not_all_sent { staged 4 (Send 500 1 ∷ packets 8 []) ≡ flow_at 1 3 8 0 ∷ [] }
    ensures failed_send { staged 2 (Send 500 0 ∷ packets 8 []) ≡ flow_at 1 2 5 0 ∷ flow_at 1 1 3 0 ∷ [] }
{}

/// A reset begins number, pool, drops and skip numbers again; what is staged stays.
pub fn reset_rows()
    ensures begins { issued 2 (packets 3 (Reset flow ∷ Send 500 1 ∷ packets 8 []))
        ≡ flow_at 2 1 3 0 ∷ flow_at 1 2 5 0 ∷ flow_at 1 1 3 0 ∷ [] }
    ensures stage_stays { staged 2 (Reset flow ∷ packets 5 []) ≡ flow_at 1 2 5 0 ∷ flow_at 1 1 3 0 ∷ [] }
    ensures of_another { issued 2 (packets 2 (Reset (counter 1) ∷ packets 3 []))
        ≡ flow_at 1 2 5 0 ∷ flow_at 1 1 3 0 ∷ [] }
{}

/// Polls of two sources, each due every 1,000 ms, with a stage of one sample.
pub fn poll_rows()
    ensures none_yet { due 1 999 [] ≡ [] }
    ensures both { due 1 1000 [] ≡ 1 ∷ 2 ∷ [] }
    ensures the_other { due 1 1000 (Send 1000 1 ∷ Poll 1000 (any_reading ∷ []) ∷ []) ≡ 2 ∷ [] }
    ensures each_once { issued 1 (Poll 1000 (any_reading ∷ []) ∷ Send 1000 1 ∷ Poll 1000 (any_reading ∷ []) ∷ [])
        ≡ reading_at 2 1 1 ∷ reading_at 1 1 1 ∷ [] }
    ensures again { issued 3 (Poll 2000 (any_reading ∷ []) ∷ Poll 1000 (any_reading ∷ any_reading ∷ []) ∷ [])
        ≡ reading_at 1 1 2 ∷ reading_at 2 1 1 ∷ reading_at 1 1 1 ∷ [] }
    ensures failed { due 1 1000 (Poll 1000 [] ∷ []) ≡ 1 ∷ 2 ∷ [] }
    ensures reset { due 3 1500 (Reset (counter 2) ∷ Poll 1000 (any_reading ∷ any_reading ∷ []) ∷ []) ≡ 2 ∷ [] }
    ensures through_a_wrap { is_due_after 1000 4294967295 999 ≡ true }
    ensures just_before_it { is_due_after 1000 4294967295 998 ≡ false }
    ensures uptime_of_zero { is_due_after 1 0 0 ≡ false }
{}

/// A list in longest prefixes whose sum is at most 5.
pub fn packing_rows()
    ensures none { cut up_to_five [] ≡ [] }
    ensures last_fits { cut up_to_five (2 ∷ 3 ∷ 1 ∷ []) ≡ (2 ∷ 3 ∷ []) ∷ (1 ∷ []) ∷ [] }
    ensures in_order { cut up_to_five (4 ∷ 2 ∷ 1 ∷ 5 ∷ []) ≡ (4 ∷ []) ∷ (2 ∷ 1 ∷ []) ∷ (5 ∷ []) ∷ [] }
{}
