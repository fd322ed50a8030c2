//! A worked row that meets all that is asked of a history and its deliveries, part by part. Deliveries have the latest
//! first.

ghost use Rattle.std.specs.Prelude.{◌≡◌, map};
ghost use Rattle.account_spec.specs.Histories.{IsHistory};
ghost use Rattle.account_spec.specs.Deliveries.{AreSent, entry_of};
ghost use Rattle.account_spec.specs.Accounts.{account};
ghost use Rattle.account_spec.specs.Premises.{Visible, Close, Apparent, Roomy};
ghost use Rattle.account_spec.specs.Rows.{usual};
ghost use Rattle.delivered_items.specs.Accepted.{AreAccepted};
ghost use Rattle.delivered_items.specs.WholeRows.{whole_history, whole_deliveries, whole_account};
ghost use Rattle.delivered_items.specs.WholeEntries.{whole_entries};

/// The agent's calls take it, and it is a history.
pub fn whole_history_row()
    ensures accepted { AreAccepted whole_history }
    ensures history { IsHistory whole_history }
{}

/// Each datagram that is delivered was sent.
pub fn whole_deliveries_row()
    ensures { AreSent whole_history whole_deliveries }
{}

/// The four premises hold.
pub fn whole_premises_row()
    ensures visible { Visible usual whole_history whole_deliveries }
    ensures close { Close usual whole_history whole_deliveries }
    ensures roomy { Roomy usual whole_deliveries }
    ensures apparent { Apparent usual whole_history whole_deliveries }
{}

/// What a collector is to show of it.
#[tactic(auto, unfolding(count_spec::specs::Parts::between))]
pub fn whole_account_row()
    ensures { account usual whole_history whole_deliveries ≡ whole_account }
{}

/// The bytes that arrive, word by word.
pub fn whole_entries_row()
    ensures { map (entry_of whole_history) whole_deliveries ≡ whole_entries }
{}
