// Worked rows of what is sent, computed by the check. A list of lines has the latest first.

ghost use Rattle.std.specs.Prelude.{◌≡◌, true, false, [], ◌∷◌};
ghost use Rattle.script_spec.specs.Lines.{DeliverLine, RestartLine};
ghost use Rattle.script_spec.specs.Rules.{may_follow};
ghost use Rattle.script_spec.specs.Sent.{samples_issued, packets_dropped, datagrams_sent};
ghost use Rattle.script_spec.specs.Rows.{sends, sends_after_reset, sizes, delivery, polled_once, polled_twice};

/// The arrivals and lengths of the datagrams that are sent.
#[tactic(auto, unfolding(crate::specs::Agents::setup_of, crate::specs::Agents::poll_at, crate::specs::Agents::send_at, crate::specs::Agents::boots_of, crate::specs::Sent::all_sent))]
pub fn sent_rows()
    ensures compact { sizes (sends 5) ≡ (1500, 156) ∷ (1600, 92) ∷ [] }
    ensures greatest_compact { sizes (sends 16777215) ≡ (1500, 156) ∷ (1600, 92) ∷ [] }
    ensures expanded { sizes (sends 16777216) ≡ (1500, 180) ∷ (1600, 104) ∷ [] }
    ensures reset { sizes sends_after_reset ≡ (1500, 156) ∷ (1600, 92) ∷ [] }
{}

/// What was sent, issued and dropped in all.
#[tactic(auto, unfolding(crate::specs::Agents::setup_of, crate::specs::Agents::poll_at, crate::specs::Agents::send_at, crate::specs::Agents::boots_of))]
pub fn count_rows()
    ensures datagrams { datagrams_sent (sends 5) ≡ 2 }
    ensures samples { samples_issued (sends 5) ≡ 3 }
    ensures drops { packets_dropped (sends 5) ≡ 1 }
{}

/// A datagram is delivered once it was sent.
#[tactic(auto, unfolding(crate::specs::Agents::setup_of, crate::specs::Agents::poll_at, crate::specs::Agents::send_at, crate::specs::Agents::boots_of, crate::specs::Agents::delivered, crate::specs::Rules::may_follow))]
pub fn delivery_rows()
    ensures last { may_follow (sends 5) (DeliverLine (delivery 1 2)) ≡ true }
    ensures not_sent { may_follow (sends 5) (DeliverLine (delivery 1 3)) ≡ false }
    ensures no_number { may_follow (sends 5) (DeliverLine (delivery 1 0)) ≡ false }
    ensures no_boot { may_follow (sends 5) (DeliverLine (delivery 0 1)) ≡ false }
    ensures later_boot { may_follow (sends 5) (DeliverLine (delivery 2 1)) ≡ false }
    ensures earlier_boot { may_follow (RestartLine 1 9000 ∷ sends 5) (DeliverLine (delivery 1 2)) ≡ true }
    ensures empty_boot { may_follow (RestartLine 1 9000 ∷ sends 5) (DeliverLine (delivery 2 1)) ≡ false }
{}

/// Counters samples are sent with the flow samples before them; a source for which the stage has no place stays due.
#[tactic(auto, unfolding(crate::specs::Agents::setup_of, crate::specs::Agents::poll_at, crate::specs::Agents::send_at, crate::specs::Agents::boots_of, crate::specs::Sent::all_sent))]
pub fn poll_rows()
    ensures with_packets { sizes polled_once ≡ (2000, 1324) ∷ (2000, 360) ∷ [] }
    ensures one_by_one { sizes polled_twice ≡ (2000, 144) ∷ (2000, 144) ∷ [] }
{}
