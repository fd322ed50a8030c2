//! Laws of whole books. Items have the latest first.

ghost use Rattle.std.specs.Prelude.{◌≡◌, ℕ, ◌+◌, ◌≤◌, true, List, length};
ghost use Rattle.std.specs.List.{count_by, sum_by};
ghost use Rattle.books_spec.specs.Items.{Item, Stream, Source};
ghost use Rattle.books_spec.specs.declared.limits.Limits.{Limits};
ghost use Rattle.books_spec.specs.Listing.{AreDistinct, same_stream, same_source, among};
ghost use Rattle.books_spec.specs.Books.{own, stream_boots, stale_of, sources_of, source_boots, listed_streams, listed_sources, stream_books, source_books, entered, totals};

/// The streams that are listed are distinct, and no more than the limit; so are the sources.
pub fn what_is_listed_is_distinct()
    ensures streams { (l : Limits) (items : List Item) → AreDistinct same_stream (listed_streams l items) }
    ensures few_streams { (l : Limits) (items : List Item) → length (listed_streams l items) ≤ l.streams }
    ensures sources { (l : Limits) (items : List Item) → AreDistinct same_source (listed_sources l items) }
    ensures few_sources { (l : Limits) (items : List Item) → length (listed_sources l items) ≤ l.sources }
{}

/// In each view the numbers issued were received, are pending, or are lost.
pub fn issued_is_conserved_in_books()
    ensures streams { (l : Limits) (items : List Item) (stream : Stream) →
        let v = (stream_books l items stream).view in v.issued ≡ v.received + v.pending + v.lost }
    ensures sources { (l : Limits) (items : List Item) (source : Source) →
        let v = (source_books l items source).view in v.issued ≡ v.received + v.pending + v.lost }
{}

/// The readings of a source over the boots of a listed stream are as many as its samples that were entered.
pub fn readings_are_what_was_entered()
    ensures { (l : Limits) (items : List Item) (source : Source) →
        among same_stream (listed_streams l items) source.stream ≡ true
        → sum_by length (source_boots l source items) ≡ count_by (same_source source) (sources_of l items) }
{}

/// Each entry is a fault, or a datagram of a stream that isn't listed, or one of a listed stream. Each datagram of a
/// stream is in one boot, or stale.
pub fn entries_add_up()
    ensures entries { (l : Limits) (items : List Item) → let t = totals l items in
        t.entries ≡ t.malformed + t.unlisted + sum_by (λ s. length (own s items)) (listed_streams l items) }
    ensures boots { (l : Limits) (items : List Item) (stream : Stream) →
        length (own stream items)
        ≡ sum_by length (stream_boots l stream items) + length (stale_of l stream items) }
{}

/// Each sample that is entered is of another format, or of a source that isn't listed, or of a listed one.
pub fn samples_add_up()
    ensures { (l : Limits) (items : List Item) → let t = totals l items in
        length (entered l items) ≡ t.other + t.unlisted_samples
        + sum_by (λ s. count_by (same_source s) (sources_of l items)) (listed_sources l items) }
{}
