//! Worked lines of a trial, computed by the check.

ghost use Rattle.std.specs.Prelude.{◌≡◌, true, false, codes};
ghost use Rattle.report_lines.specs.TrialLines.{agent_text, premises_text};

/// What was true, and which premises hold.
pub fn worked_trial_lines()
    ensures two_datagrams { agent_text 2 3 1 ≡ codes "agent datagrams 2 samples 3 drops 1\n" }
    ensures none { agent_text 0 0 0 ≡ codes "agent datagrams 0 samples 0 drops 0\n" }
    ensures all_hold { premises_text (record { visible = true; close = true; roomy = true; apparent = true })
        ≡ codes "premises visible yes close yes roomy yes apparent yes\n" }
    ensures one_does_not { premises_text (record { visible = true; close = true; roomy = true; apparent = false })
        ≡ codes "premises visible yes close yes roomy yes apparent no\n" }
    ensures in_their_order { premises_text (record { visible = false; close = true; roomy = false; apparent = true })
        ≡ codes "premises visible no close yes roomy no apparent yes\n" }
{}
