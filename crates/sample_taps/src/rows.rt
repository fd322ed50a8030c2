//! Worked rows of headers, computed by the check. Items have the latest first.
ghost use Rattle.std.specs.Prelude.{◌≡◌, None, [], ◌∷◌, replicate};
ghost use Rattle.header_lanes.specs.Rows.{tagged_facts};
ghost use Rattle.books_spec.specs.BookRows.{limits_of};
ghost use Rattle.sample_taps.specs.Classes.{classes, no_classes};
ghost use Rattle.sample_taps.specs.BookBriefs.{book_briefs, book_classes};
ghost use Rattle.sample_taps.specs.BookRows.{sampled_at, arp_brief, empty_brief};

/// The classes of headers: of seventeen alike, and of none.
pub fn worked_classes()
    ensures seventeen { classes (replicate 17 (tagged_facts None None None)) ≡ record no_classes { ipv4 = 17; tagged = 17; tcp = 17 } }
    ensures none { book_classes (limits_of 256) [] ≡ no_classes }
{}

/// The headers of a sample go once, however often its datagram comes, and not where its number came before with a later
/// datagram; those of a sample that begins a generation go. They go in order of arrival.
pub fn worked_briefs()
    ensures three_times { let f = sampled_at 1 (1 ∷ []) in
        book_briefs (limits_of 256) (f ∷ f ∷ f ∷ []) ≡ arp_brief ∷ empty_brief ∷ [] }
    ensures came_before { book_briefs (limits_of 256) (sampled_at 2 (2 ∷ []) ∷ sampled_at 3 (2 ∷ []) ∷ sampled_at 1 (1 ∷ []) ∷ [])
        ≡ arp_brief ∷ empty_brief ∷ arp_brief ∷ empty_brief ∷ [] }
    ensures new_generation { book_briefs (limits_of 256) (sampled_at 1 (2 ∷ 1 ∷ []) ∷ [])
        ≡ arp_brief ∷ empty_brief ∷ arp_brief ∷ empty_brief ∷ [] }
    ensures counted { book_classes (limits_of 256) (sampled_at 1 (1 ∷ []) ∷ []) ≡ record no_classes { unscanned = 1; arp = 1 } }
{}
