//! The laws. Deliveries have the latest first.

ghost use Rattle.std.specs.Prelude.{◌≡◌, ℕ, true, List};
ghost use Rattle.std.specs.Bool.{Decides};
ghost use Rattle.books_spec.specs.declared.limits.Limits.{Limits};
ghost use Rattle.account_spec.specs.Histories.{SubAgent, IsHistory};
ghost use Rattle.account_spec.specs.Deliveries.{Delivery, AreSent};
ghost use Rattle.account_spec.specs.Premises.{Visible, Close, Roomy, Apparent, Premises};
ghost use Rattle.trial_spec.specs.PremiseTests.{visible, close, roomy, apparent};
ghost use Rattle.trial_spec.specs.Made.{made_history, made_deliveries};

/// Each premise has a test, which is true exactly where the premise holds.
pub fn premises_have_tests()
    ensures visible { (l : Limits) (history : List SubAgent) (deliveries : List Delivery)
        → Decides (visible l history deliveries) (Visible l history deliveries) }
    ensures close { (l : Limits) (history : List SubAgent) (deliveries : List Delivery)
        → Decides (close l history deliveries) (Close l history deliveries) }
    ensures roomy { (l : Limits) (deliveries : List Delivery) → Decides (roomy l deliveries) (Roomy l deliveries) }
    ensures apparent { (l : Limits) (history : List SubAgent) (deliveries : List Delivery)
        → Decides (apparent l history deliveries) (Apparent l history deliveries) }
{}

/// Whatever the seed and the number of packets, what a made run says is a history, and what it delivers was sent.
pub fn made_runs_are_histories()
    ensures history { (seed packets : ℕ) → IsHistory (made_history seed packets) }
    ensures sent { (seed packets : ℕ) → AreSent (made_history seed packets) (made_deliveries seed packets) }
{}

/// Of a history and what was sent of it, the premises hold where the four tests are true.
pub fn four_tests_are_the_premises()
    ensures { (l : Limits) (history : List SubAgent) (deliveries : List Delivery) → IsHistory history
        → AreSent history deliveries → visible l history deliveries ≡ true → close l history deliveries ≡ true
        → roomy l deliveries ≡ true → apparent l history deliveries ≡ true → Premises l history deliveries }
{
    premises_have_tests();
}
