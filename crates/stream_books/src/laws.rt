//! Laws of what is kept of a source. Boots are a list with the current boot first.

ghost use Rattle.std.specs.Prelude.{◌≡◌, ◌≤◌, List, [], ◌∷◌, length};
ghost use Rattle.std.specs.List.{sum_by};
ghost use Rattle.books_spec.specs.SourceViews.{PlacedReading};
ghost use Rattle.stream_books.specs.declared.source.SourceRecord.{SourceRecord as Record};
ghost use Rattle.stream_books.specs.Sources.{StandsFor, boot_of, entered_count};

/// Boots may come in which the source has no sample: what is kept stands for them as it is.
pub fn boots_may_pass()
    ensures { (s : Record) (boots : List (List PlacedReading)) → StandsFor s boots
        → StandsFor s ([] ∷ boots) }
{}

/// As many samples were entered as there are in the boots that it stands for, in no later boot than theirs.
pub fn readings_are_counted()
    ensures entered { (s : Record) (boots : List (List PlacedReading)) → StandsFor s boots
        → entered_count s ≡ sum_by length boots }
    ensures boot { (s : Record) (boots : List (List PlacedReading)) → StandsFor s boots
        → boot_of s ≤ length boots }
{}
