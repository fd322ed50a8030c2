//! What the datagram of an entry is, and what its headers feed.

ghost use Rattle.std.specs.Prelude.{◌≡◌, ℕ, ◌*◌, ◌≤◌, List, ◌∷◌, ◌++◌, length, map};
ghost use Rattle.wire_spec.specs.Bytes.{AreBytes};
ghost use Rattle.data_format.specs.Trees.{frame_trees};
ghost use Rattle.datagram_core.specs.Heads.{DatagramView};
ghost use Rattle.datagram_core.specs.Tables.{samples_read};
ghost use Rattle.datagram_core.specs.Trees.{tree_of};
ghost use Rattle.books_spec.specs.declared.limits.Limits.{Limits};
ghost use Rattle.books_spec.specs.Books.{most_entries};
ghost use Rattle.books_spec.specs.SampledHeaders.{HeaderedItem, items_within};
ghost use Rattle.sample_taps.specs.Briefs.{facts_in};
ghost use Rattle.sample_taps.specs.BookBriefs.{book_briefs, book_classes};
ghost use Rattle.sample_taps.specs.Classes.{headers_counted, with_headers};
ghost use Rattle.flow_collector.specs.Headers.{AreFewHeaders, briefs_now, header_count, headered_entry};
ghost use Rattle.flow_collector.specs.Items.{datagram_in, samples_in};

/// The datagram of a value that was read has its arrival, its head, and its samples in their order.
pub fn datagrams_are_their_values()
    ensures { (at : ℕ) (d : DatagramView) → datagram_in at (tree_of d)
        ≡ record { arrival = at; head = d.head; samples = samples_in (frame_trees samples_read d.samples) } }
{}

/// The briefs of one item more come behind those of the items before it, and so are its headers counted.
pub fn briefs_come_in_turn()
    ensures briefs { (l : Limits) (i : HeaderedItem) (before : List HeaderedItem)
        → book_briefs l (i ∷ before) ≡ book_briefs l before ++ briefs_now l (items_within before) i }
    ensures classes { (l : Limits) (i : HeaderedItem) (before : List HeaderedItem)
        → with_headers (book_classes l before) (map facts_in (briefs_now l (items_within before) i)) ≡ book_classes l (i ∷ before) }
{}

/// An entry has at most 65,535 headers, so the classes of up to 2^48 entries are exact.
pub fn headers_are_few()
    ensures entry { (arrival : ℕ) (bytes : List ℕ) → AreBytes bytes
        → header_count (headered_entry arrival bytes).headers ≤ 65535 }
    ensures run { (l : Limits) (items : List HeaderedItem) → AreFewHeaders items
        → length (book_briefs l items) ≤ 65535 * length items }
    ensures exact { (l : Limits) (items : List HeaderedItem) → AreFewHeaders items → length items ≤ most_entries
        → headers_counted (book_classes l items) ≡ length (book_briefs l items) }
{}
