//! Worked rows, computed by the check. A list of lines or deliveries has the latest first.

ghost use Rattle.std.specs.Prelude.{◌≡◌, [], ◌∷◌};
ghost use Rattle.script_laws.specs.Lawful.{AreLawful};
ghost use Rattle.script_histories.specs.Histories.{history_of, deliveries_of};
ghost use Rattle.script_histories.specs.Rows.{restarted, both_sent, nobody_there, sub_agent, sent_at, arrival};

/// A sub-agent that restarts, and a datagram of each of its boots.
#[tactic(auto, unfolding(script_spec::specs::Agents::setup_of, script_spec::specs::Agents::send_at, script_spec::specs::Agents::boots_of, script_spec::specs::Agents::delivered, script_spec::specs::Rules::may_follow))]
pub fn restart_row()
    ensures lawful { AreLawful restarted }
    ensures history { history_of restarted ≡ sub_agent 1 (sent_at 1 500 [] ∷ sent_at 1 700 [] ∷ []) ∷ [] }
    ensures deliveries { deliveries_of restarted ≡ arrival 1 1 500 9900 ∷ arrival 1 2 700 9800 ∷ [] }
{}

/// Two sub-agents, and a datagram of each.
#[tactic(auto, unfolding(script_spec::specs::Agents::setup_of, script_spec::specs::Agents::send_at, script_spec::specs::Agents::boots_of, script_spec::specs::Agents::delivered, script_spec::specs::Rules::may_follow))]
pub fn two_sub_agents_row()
    ensures lawful { AreLawful both_sent }
    ensures history { history_of both_sent
        ≡ sub_agent 1 (sent_at 1 600 (sent_at 1 400 []) ∷ []) ∷ sub_agent 2 (sent_at 2 500 [] ∷ []) ∷ [] }
    ensures deliveries { deliveries_of both_sent ≡ arrival 2 1 500 3000 ∷ arrival 1 1 400 2000 ∷ [] }
{}

/// Without sub-agents there is nothing.
#[tactic(auto, unfolding(script_spec::specs::Rules::may_follow))]
pub fn nobody_row()
    ensures lawful { AreLawful nobody_there }
    ensures history { history_of nobody_there ≡ [] }
    ensures deliveries { deliveries_of nobody_there ≡ [] }
{}
