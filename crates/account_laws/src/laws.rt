//! The laws. Deliveries have the latest first.

ghost use Rattle.std.specs.Prelude.{◌≡◌, true, List, map};
ghost use Rattle.std.specs.List.{AllByRecursion};
ghost use Rattle.books_spec.specs.declared.limits.Limits.{Limits};
ghost use Rattle.books_spec.specs.Items.{Source};
ghost use Rattle.books_spec.specs.Listing.{same_source, among};
ghost use Rattle.books_spec.specs.WholeBooks.{SourceLine, source_line, whole_books};
ghost use Rattle.account_spec.specs.Histories.{SubAgent};
ghost use Rattle.account_spec.specs.Deliveries.{Delivery, deliveries_of, item};
ghost use Rattle.account_spec.specs.Accounts.{account, delivered_sources};
ghost use Rattle.account_spec.specs.Premises.{Premises};
ghost use Rattle.account_spec.specs.Truths.{Truth, IsSlow};
ghost use Rattle.account_laws.specs.Found.{LesserPremises};
ghost use Rattle.account_laws.specs.Rises.{true_interfaces};
ghost use Rattle.account_laws.specs.Distinct.{distinct_samples, AreAllInTime};

/// What a collector shows is the account, for every history and every list of deliveries of it, with any of the
/// datagrams lost, repeated or out of order, where restarts show in uptime, resets in numbers and their order, fewer
/// than 2^31 numbers separate receipts, and all streams and sources are listed.
pub fn books_are_the_account()
    ensures { (l : Limits) (history : List SubAgent) (deliveries : List Delivery) → Premises l history deliveries
        → whole_books l (map item deliveries) ≡ account l history deliveries }
{}

/// Of what comes from an earlier boot or generation than one delivered before it, less is needed.
pub fn what_is_stale_needs_less()
    ensures implied { (l : Limits) (history : List SubAgent) (deliveries : List Delivery) → Premises l history deliveries
        → LesserPremises l history deliveries }
    ensures enough { (l : Limits) (history : List SubAgent) (deliveries : List Delivery) → LesserPremises l history deliveries
        → whole_books l (map item deliveries) ≡ account l history deliveries }
{}

/// Each sample counts once.
pub fn no_source_has_repeats()
    ensures { (l : Limits) (history : List SubAgent) (deliveries : List Delivery) → LesserPremises l history deliveries
        → AllByRecursion (λ (line : SourceLine). line.view.ledger.repeated ≡ 0) (whole_books l (map item deliveries)).sources }
{}

/// Where nothing is stale or late, a source's received is how many distinct samples the delivered datagrams hold.
pub fn distinct_samples_are_received()
    ensures { (l : Limits) (history : List SubAgent) (deliveries : List Delivery) (source : Source)
        → LesserPremises l history deliveries → AreAllInTime l history deliveries source
        → among same_source (delivered_sources l.datagram_width deliveries) source ≡ true
        → (source_line l (map item deliveries) source).view.ledger.received
        ≡ distinct_samples source.id (deliveries_of source.stream deliveries) }
{}

/// Whatever interface counters truly were, where they don't fall and rise by less than their moduli from one reading
/// delivered in time to the next: each shows the true value at the newest reading less that at the least, summed over
/// generations and boots.
pub fn interface_counters_rise_as_they_did()
    ensures { (truth : Truth) (l : Limits) (history : List SubAgent) (deliveries : List Delivery)
        → LesserPremises l history deliveries → IsSlow truth l history deliveries
        → (whole_books l (map item deliveries)).interfaces ≡ true_interfaces truth l deliveries }
{}
