//! Laws of the generations of a source and of the views over them. Samples have the latest first, and generations and
//! boots the current one first.

ghost use Rattle.std.specs.Prelude.{◌≡◌, ℕ, ◌+◌, ◌≤◌, Bool, true, false, cond, List, [], ◌∷◌, length, map, nat_le};
ghost use Rattle.std.specs.List.{count_by, sum_by, AllByRecursion};
ghost use Rattle.count_spec.specs.Windows.{answer, counted, is_first};
ghost use Rattle.count_spec.specs.declared.stretch_place.StretchPlace.TheVariants.{Stale};
ghost use Rattle.books_spec.specs.declared.sample_place.SamplePlace.{SamplePlace};
ghost use Rattle.books_spec.specs.declared.booked.Booked.TheVariants.{Entered, Past};
ghost use Rattle.books_spec.specs.declared.limits.Limits.{Limits};
ghost use Rattle.books_spec.specs.Items.{Item, Source};
ghost use Rattle.books_spec.specs.Listing.{same_stream, same_source, among};
ghost use Rattle.books_spec.specs.Books.{listed_streams, sources_of, source_books};
ghost use Rattle.books_spec.specs.Generations.{is_before, later, greatest_place, first_places, opening_place, opens, is_before_opening, generation_place, generations, stale_samples, booked};
ghost use Rattle.books_spec.specs.SourceViews.{joined, source_stretches, generation_count, stale_count, PlacedReading, place_in, placed_mark, mark_at, source_view};
ghost use Rattle.books_spec.specs.PlacedSamples.{placed_boots, InterfaceSample, interface_boots};
ghost use Rattle.books_spec.specs.WholeBooks.{source_line, place_seen, mark_seen};

/// One sample more opens the next generation, or is stale, or is in the current one. The first sample opens the first.
pub fn a_sample_has_its_place<T>()
    ensures first { (place : T → SamplePlace) (mark : T → ℕ) (width : ℕ) (x : T) →
        generations place mark width (x ∷ []) ≡ (x ∷ []) ∷ [] }
    ensures opens { (place : T → SamplePlace) (mark : T → ℕ) (width : ℕ) (x : T) (before current : List T) (closed : List (List T))
        → generations place mark width before ≡ current ∷ closed → opens place mark width current x ≡ true
        → generations place mark width (x ∷ before) ≡ (x ∷ []) ∷ current ∷ closed }
    ensures stale { (place : T → SamplePlace) (mark : T → ℕ) (width : ℕ) (x : T) (before current : List T) (closed : List (List T))
        → generations place mark width before ≡ current ∷ closed → opens place mark width current x ≡ false
        → is_before_opening place mark current closed x ≡ true
        → generations place mark width (x ∷ before) ≡ current ∷ closed }
    ensures stays { (place : T → SamplePlace) (mark : T → ℕ) (width : ℕ) (x : T) (before current : List T) (closed : List (List T))
        → generations place mark width before ≡ current ∷ closed → opens place mark width current x ≡ false
        → is_before_opening place mark current closed x ≡ false
        → generations place mark width (x ∷ before) ≡ (x ∷ current) ∷ closed }
{}

/// What a sample is answered: its generation's own window answers, or it is past.
pub fn a_sample_is_answered<T>()
    ensures first { (place : T → SamplePlace) (mark : T → ℕ) (width : ℕ) (x : T) →
        booked place mark width [] x ≡ Entered (answer width [] (mark x)) }
    ensures opens { (place : T → SamplePlace) (mark : T → ℕ) (width : ℕ) (x : T) (before current : List T) (closed : List (List T))
        → generations place mark width before ≡ current ∷ closed → opens place mark width current x ≡ true
        → booked place mark width before x ≡ Entered (answer width [] (mark x)) }
    ensures stale { (place : T → SamplePlace) (mark : T → ℕ) (width : ℕ) (x : T) (before current : List T) (closed : List (List T))
        → generations place mark width before ≡ current ∷ closed → opens place mark width current x ≡ false
        → is_before_opening place mark current closed x ≡ true
        → booked place mark width before x ≡ Past }
    ensures stays { (place : T → SamplePlace) (mark : T → ℕ) (width : ℕ) (x : T) (before current : List T) (closed : List (List T))
        → generations place mark width before ≡ current ∷ closed → opens place mark width current x ≡ false
        → is_before_opening place mark current closed x ≡ false
        → booked place mark width before x ≡ Entered (answer width (counted width (map mark current)) (mark x)) }
{}

/// What a rule needs to know of the current generation moves with each sample that is in it: the greatest place of its
/// First samples, and the place of the one that opened it.
pub fn places_move<T>()
    ensures greatest { (place : T → SamplePlace) (mark : T → ℕ) (width : ℕ) (x y : T) (more : List T) →
        greatest_place (first_places place mark width (x ∷ y ∷ more))
        ≡ cond (is_first (answer width (counted width (map mark (y ∷ more))) (mark x)))
        (later (place x) (greatest_place (first_places place mark width (y ∷ more))))
        (greatest_place (first_places place mark width (y ∷ more))) }
    ensures greatest_of_one { (place : T → SamplePlace) (mark : T → ℕ) (width : ℕ) (x : T) →
        greatest_place (first_places place mark width (x ∷ [])) ≡ place x }
    ensures opening { (place : T → SamplePlace) (mark : T → ℕ) (x y : T) (more : List T) →
        opening_place place mark (x ∷ y ∷ more) ≡ opening_place place mark (y ∷ more) }
    ensures opening_of_one { (place : T → SamplePlace) (mark : T → ℕ) (x : T) → opening_place place mark (x ∷ []) ≡ place x }
{}

/// A sample of a closed generation changes nothing but the number of stale ones.
pub fn past_samples_change_nothing<T>()
    ensures generations { (place : T → SamplePlace) (mark : T → ℕ) (width : ℕ) (x : T) (before : List T) (closed : List (List T))
        → generation_place place mark width (generations place mark width before) x ≡ Stale
        → source_stretches place mark width ((x ∷ before) ∷ closed) ≡ source_stretches place mark width (before ∷ closed) }
    ensures counted { (place : T → SamplePlace) (mark : T → ℕ) (width : ℕ) (x : T) (before : List T) (closed : List (List T))
        → generation_place place mark width (generations place mark width before) x ≡ Stale
        → stale_count place mark width ((x ∷ before) ∷ closed) ≡ stale_count place mark width (before ∷ closed) + 1 }
    ensures answered { (place : T → SamplePlace) (mark : T → ℕ) (width : ℕ) (x : T) (before : List T)
        → generation_place place mark width (generations place mark width before) x ≡ Stale
        → booked place mark width before x ≡ Past }
{}

/// The stretches over which a view sums: a boot without samples puts an empty one in front, the first sample of a
/// boot goes into it, a sample that opens a generation begins a stretch, and one of the current generation goes on
/// with the first.
pub fn stretches_go_on<T>()
    ensures new_boot { (place : T → SamplePlace) (mark : T → ℕ) (width : ℕ) (x : T) (before : List T) (closed : List (List T))
        → source_stretches place mark width ([] ∷ (x ∷ before) ∷ closed)
        ≡ [] ∷ source_stretches place mark width ((x ∷ before) ∷ closed) }
    ensures passed_boot { (place : T → SamplePlace) (mark : T → ℕ) (width : ℕ) (closed : List (List T))
        → source_stretches place mark width ([] ∷ [] ∷ closed) ≡ source_stretches place mark width ([] ∷ closed) }
    ensures first { (place : T → SamplePlace) (mark : T → ℕ) (width : ℕ) (x : T) (closed : List (List T)) →
        (source_stretches place mark width ([] ∷ closed) ≡ [] ∷ joined (map (generations place mark width) closed))
        × (source_stretches place mark width ((x ∷ []) ∷ closed)
        ≡ (x ∷ []) ∷ joined (map (generations place mark width) closed)) }
    ensures opens { (place : T → SamplePlace) (mark : T → ℕ) (width : ℕ) (x : T) (before current : List T)
        (gone : List (List T)) (closed : List (List T))
        → generations place mark width before ≡ current ∷ gone → opens place mark width current x ≡ true
        → source_stretches place mark width ((x ∷ before) ∷ closed)
        ≡ (x ∷ []) ∷ source_stretches place mark width (before ∷ closed) }
    ensures stays { (place : T → SamplePlace) (mark : T → ℕ) (width : ℕ) (x : T) (before current : List T)
        (gone : List (List T)) (closed : List (List T))
        → generations place mark width before ≡ current ∷ gone → opens place mark width current x ≡ false
        → is_before_opening place mark current gone x ≡ false
        → (rest : List (List T)) × (source_stretches place mark width (before ∷ closed) ≡ current ∷ rest)
        × (source_stretches place mark width ((x ∷ before) ∷ closed) ≡ (x ∷ current) ∷ rest) }
{}

/// There are as many generations as before a sample, or one more.
pub fn generations_grow_by_one<T>()
    ensures from { (place : T → SamplePlace) (mark : T → ℕ) (width : ℕ) (x : T) (before : List T) →
        length (generations place mark width before) ≤ length (generations place mark width (x ∷ before)) }
    ensures to { (place : T → SamplePlace) (mark : T → ℕ) (width : ℕ) (x : T) (before : List T) →
        length (generations place mark width (x ∷ before)) ≤ length (generations place mark width before) + 1 }
{}

/// Each sample is in one generation, or stale: of the samples that pass any test, each is counted in one of the two.
pub fn samples_are_conserved<T>()
    ensures passing { (place : T → SamplePlace) (mark : T → ℕ) (width : ℕ) (test : T → Bool) (boots : List (List T)) →
        sum_by (count_by test) (source_stretches place mark width boots)
        + sum_by (λ boot. count_by test (stale_samples place mark width boot)) boots
        ≡ sum_by (count_by test) boots }
    ensures all { (place : T → SamplePlace) (mark : T → ℕ) (width : ℕ) (boots : List (List T)) →
        sum_by length (source_stretches place mark width boots) + stale_count place mark width boots ≡ sum_by length boots }
{}

/// In each view over generations the numbers issued were received, are pending, or are lost; each sample is received,
/// or a Repeat, or Late, or stale; and nothing is pending where the current boot has no sample.
pub fn numbers_are_conserved()
    ensures issued { (flow : Bool) (width : ℕ) (boots : List (List PlacedReading)) → let v = (source_view flow width boots).ledger in
        v.issued ≡ v.received + v.pending + v.lost }
    ensures samples { (flow : Bool) (width : ℕ) (boots : List (List PlacedReading)) → let v = source_view flow width boots in
        v.ledger.received + v.ledger.repeated + v.ledger.late + v.stale ≡ sum_by length boots }
    ensures closed { (flow : Bool) (width : ℕ) (closed : List (List PlacedReading)) →
        (source_view flow width ([] ∷ closed)).ledger.pending ≡ 0 }
{}

/// Where no boot has a second generation, what is shown of a source is what its boots alone show: a history without
/// resets has the figures that it had before there were generations.
pub fn without_resets_boots_are_shown()
    ensures view { (l : Limits) (items : List Item) (source : Source)
        → AllByRecursion (λ boot. length (generations place_in placed_mark l.sample_width boot) ≤ 1) (placed_boots l source items)
        → (source_line l items source).view.ledger ≡ (source_books l items source).view }
    ensures generations { (width : ℕ) (boots : List (List PlacedReading))
        → AllByRecursion (λ boot. length (generations place_in placed_mark width boot) ≤ 1) boots
        → generation_count place_in placed_mark width boots ≡ count_by (λ boot. nat_le 1 (length boot)) boots }
    ensures none_stale { (width : ℕ) (boots : List (List PlacedReading))
        → AllByRecursion (λ boot. length (generations place_in placed_mark width boot) ≤ 1) boots
        → stale_count place_in placed_mark width boots ≡ 0 }
{}

/// Of a source of a listed stream, each sample that was entered is in one generation, or stale.
pub fn entered_samples_are_conserved()
    ensures { (l : Limits) (items : List Item) (source : Source) →
        among same_stream (listed_streams l items) source.stream ≡ true
        → sum_by length (source_stretches place_in placed_mark l.sample_width (placed_boots l source items))
        + (source_line l items source).view.stale ≡ count_by (same_source source) (sources_of l items) }
{}

/// Generations depend on the places and the marks of samples alone, whatever else a sample has.
pub fn only_places_and_marks_matter<T, U>()
    ensures generations { (f : T → U) (place : U → SamplePlace) (mark : U → ℕ) (width : ℕ) (samples : List T) →
        generations place mark width (map f samples)
        ≡ map (map f) (generations (λ x. place (f x)) (λ x. mark (f x)) width samples) }
    ensures stale { (f : T → U) (place : U → SamplePlace) (mark : U → ℕ) (width : ℕ) (samples : List T) →
        stale_samples place mark width (map f samples)
        ≡ map f (stale_samples (λ x. place (f x)) (λ x. mark (f x)) width samples) }
    ensures stretches { (f : T → U) (place : U → SamplePlace) (mark : U → ℕ) (width : ℕ) (boots : List (List T)) →
        source_stretches place mark width (map (map f) boots)
        ≡ map (map f) (source_stretches (λ x. place (f x)) (λ x. mark (f x)) width boots) }
    ensures count { (f : T → U) (place : U → SamplePlace) (mark : U → ℕ) (width : ℕ) (boots : List (List T)) →
        generation_count place mark width (map (map f) boots)
        ≡ generation_count (λ x. place (f x)) (λ x. mark (f x)) width boots }
    ensures stale_count { (f : T → U) (place : U → SamplePlace) (mark : U → ℕ) (width : ℕ) (boots : List (List T)) →
        stale_count place mark width (map (map f) boots)
        ≡ stale_count (λ x. place (f x)) (λ x. mark (f x)) width boots }
{}

/// Places stand in one order, and the greatest of some is before none of them.
pub fn places_stand_in_order()
    ensures not_before_itself { (p : SamplePlace) → is_before p p ≡ false }
    ensures in_turn { (p q r : SamplePlace) → is_before p q ≡ true → is_before q r ≡ true → is_before p r ≡ true }
    ensures one_of_two { (p q : SamplePlace) → is_before p q ≡ false → is_before q p ≡ false → p ≡ q }
    ensures greatest { (p : SamplePlace) (more : List SamplePlace) →
        AllByRecursion (λ q. is_before (greatest_place (p ∷ more)) q ≡ false) (p ∷ more) }
{}

/// The interface counters of a source are summed over the generations that its view has: sample by sample they have the
/// same places and marks.
pub fn interface_counters_share_the_generations()
    ensures { (l : Limits) (width : ℕ) (source : Source) (items : List Item) →
        map (map (λ (s : InterfaceSample). mark_at s.place s.mark))
        (source_stretches place_seen mark_seen width (interface_boots l source items))
        ≡ map (map (λ (r : PlacedReading). mark_at r.place r.reading.sequence))
        (source_stretches place_in placed_mark width (placed_boots l source items)) }
{}
