//! A worked row, computed by the check. Deliveries have the latest first.

ghost use Rattle.std.specs.Prelude.{◌≡◌, map};
ghost use Rattle.books_spec.specs.WholeBooks.{whole_books};
ghost use Rattle.account_spec.specs.Rows.{usual};
ghost use Rattle.account_spec.specs.Deliveries.{item};
ghost use Rattle.account_spec.specs.Premises.{Premises};
ghost use Rattle.account_spec.specs.Truths.{IsSlow};
ghost use Rattle.account_laws.specs.Rises.{true_interfaces};
ghost use Rattle.account_laws.specs.RiseRows.{two_polls, both_delivered, the_source, what_was, two_samples};
ghost use Rattle.account_laws.specs.Distinct.{distinct_samples, AreAllInTime};

/// Two readings of an interface, between which the number of the sample and two counters, one of 64 bits and one of 32,
/// begin again at 0: what truly was rises slowly, and is shown. Both samples are in time.
#[tactic(auto, unfolding(count_spec::specs::Parts::between))]
pub fn two_polls_row()
    ensures premises { Premises usual two_polls both_delivered }
    ensures slow { IsSlow what_was usual two_polls both_delivered }
    ensures shown { (whole_books usual (map item both_delivered)).interfaces ≡ two_samples }
    ensures all_in_time { AreAllInTime usual two_polls both_delivered the_source }
    ensures distinct { distinct_samples the_source.id both_delivered ≡ 2 }
    ensures truth { true_interfaces what_was usual both_delivered ≡ two_samples }
{}
