//! The laws. Each list has the latest first.

ghost use Rattle.std.specs.Prelude.{◌≡◌, ◌↔◌, ℕ, ◌+◌, ◌-◌, ◌%◌, ◌*◌, ◌^◌, ◌<◌, ◌≤◌, ◌&&◌, Bool, true, false, cond, List, [], ◌∷◌, length, map, ℤ, pos, ◌+ℤ◌, ◌-ℤ◌, ◌*ℤ◌, ◌<ℤ◌, ◌≤ℤ◌, int_lt, unsigned_abs, nat_le};
ghost use Rattle.std.specs.Int.{int_max};
ghost use Rattle.std.specs.List.{count_by, sum_by, list_all, AllByRecursion};
ghost use Rattle.count_spec.specs.Windows.{near, mark_of, greatest, least, has, AreDistinct, answer, counted, is_newest, repeat_count, late_count};
ghost use Rattle.count_spec.specs.declared.entered.Place.{Place};
ghost use Rattle.count_spec.specs.declared.entered.Place.TheVariants.{Only, Newest, Inside, Least};
ghost use Rattle.count_spec.specs.declared.entered.Entered.TheVariants.{First};
ghost use Rattle.count_spec.specs.Parts.{parts, between};
ghost use Rattle.count_spec.specs.Stretches.{placed, stretches, with_stale, stale_among};
ghost use Rattle.count_spec.specs.TrueStretches.{true_stretches, past_items, true_place};
ghost use Rattle.count_spec.specs.declared.stretch_place.StretchPlace.{StretchPlace};
ghost use Rattle.count_spec.specs.Boots.{Stamp, boot_mark, sequences, newest_boot_mark, is_near_multiple};
ghost use Rattle.count_spec.specs.CounterRise.{counter_rise};
ghost use Rattle.count_spec.specs.TrueRise.{AreMonotone, RiseByLess, shown_by};
ghost use Rattle.count_spec.specs.Rise.{NumberedValue, numbers, value_at_greatest, value_at_least, rise_between, rise, first_values, shown, AreSlow};

/// A mark stands for one number: the one from `top - 2^31` up to and without `top + 2^31` that shows it.
pub fn near_is_the_one_number()
    ensures shows_the_mark { (mark : ℕ) (top : ℤ) → mark < 2 ^ 32 → mark_of (near mark top) ≡ mark }
    ensures from { (mark : ℕ) (top : ℤ) → (top -ℤ pos 2147483648) ≤ℤ near mark top }
    ensures below { (mark : ℕ) (top : ℤ) → near mark top <ℤ (top +ℤ pos 2147483648) }
    ensures found_again { (n top : ℤ) → (top -ℤ pos 2147483648) ≤ℤ n → n <ℤ (top +ℤ pos 2147483648)
        → near (mark_of n) top ≡ n }
{}

/// What is counted is a set, whose greatest and least numbers are what they are called.
pub fn counted_numbers_are_a_set()
    ensures no_number_twice { (width : ℕ) (marks : List ℕ) → AreDistinct (counted width marks) }
    ensures one_at_least { (width mark : ℕ) (before : List ℕ) → 0 < length (counted width (mark ∷ before)) }
    ensures greatest_is_there { (n : ℤ) (more : List ℤ) → has (n ∷ more) (greatest (n ∷ more)) ≡ true }
    ensures none_is_greater { (n : ℤ) (more : List ℤ) (k : ℤ) → has (n ∷ more) k ≡ true
        → k ≤ℤ greatest (n ∷ more) }
    ensures least_is_there { (n : ℤ) (more : List ℤ) → has (n ∷ more) (least (n ∷ more)) ≡ true }
    ensures none_is_less { (n : ℤ) (more : List ℤ) (k : ℤ) → has (n ∷ more) k ≡ true
        → least (n ∷ more) ≤ℤ k }
{}

/// The place of a First number beside the numbers counted before it: there are none, or all are below it, or
/// some on each side, or all above it.
pub fn places_are_exact()
    ensures new { (width : ℕ) (set : List ℤ) (mark : ℕ) (p : Place) (n : ℤ)
        → answer width set mark ≡ First p n → has set n ≡ false }
    ensures only { (width : ℕ) (set : List ℤ) (mark : ℕ) (n : ℤ)
        → answer width set mark ≡ First Only n → set ≡ [] }
    ensures newest { (width : ℕ) (set : List ℤ) (mark : ℕ) (n : ℤ)
        → answer width set mark ≡ First Newest n → greatest set <ℤ n }
    ensures inside { (width : ℕ) (set : List ℤ) (mark : ℕ) (n : ℤ)
        → answer width set mark ≡ First Inside n → (least set <ℤ n) × (n <ℤ greatest set) }
    ensures least { (width : ℕ) (set : List ℤ) (mark : ℕ) (n : ℤ)
        → answer width set mark ≡ First Least n → n <ℤ least set }
{}

/// After a further mark the greatest counted number is the greater of the one before and the mark's own.
pub fn greatest_never_falls()
    ensures { (width mark last : ℕ) (before : List ℕ) →
        let top = greatest (counted width (last ∷ before)) in
        greatest (counted width (mark ∷ last ∷ before)) ≡ int_max (near mark top) top }
{}

/// Each mark is counted, or a Repeat, or Late.
pub fn marks_are_conserved()
    ensures { (width : ℕ) (marks : List ℕ) →
        length (counted width marks) + repeat_count width marks + late_count width marks ≡ length marks }
{}

/// Each number issued from the least to the greatest counted one was received, is pending, or is lost.
pub fn issued_is_conserved()
    ensures { (width : ℕ) (marks : List ℕ) →
        let p = parts width (counted width marks) in p.issued ≡ p.received + p.pending + p.lost }
{}

/// No more numbers are received than marks came.
pub fn received_is_bounded()
    ensures { (width : ℕ) (marks : List ℕ) → (parts width (counted width marks)).received ≤ length marks }
{}

/// Fewer numbers are pending than the window is wide.
pub fn pending_is_bounded()
    ensures { (width : ℕ) (marks : List ℕ) → 1 ≤ width → (parts width (counted width marks)).pending < width }
{}

/// No number is lost while all that were issued lie in the window.
pub fn nothing_in_the_window_is_lost()
    ensures { (width : ℕ) (marks : List ℕ) →
        let p = parts width (counted width marks) in p.issued ≤ width → p.lost ≡ 0 }
{}

/// The numbers among which the missing ones are counted are those strictly between two, each once.
pub fn between_is_exact()
    ensures members { (low high n : ℤ) → low ≤ℤ high
        → has (between low high) n ≡ (int_lt low n && int_lt n high) }
    ensures each_once { (low high : ℤ) → AreDistinct (between low high) }
{}

/// Each item is in one stretch, or stale: of the items that pass any test, each is counted in one of the two.
pub fn items_are_conserved<T>()
    ensures { (place : List (List T) → T → StretchPlace) (items : List T) (test : T → Bool) →
        sum_by (count_by test) (stretches place items) + count_by test (stale_among place items)
        ≡ count_by test items }
{}

/// No stretch is empty.
pub fn stretches_have_items<T>()
    ensures { (place : List (List T) → T → StretchPlace) (items : List T) →
        list_all (λ stretch. nat_le 1 (length stretch)) (stretches place items) ≡ true }
{}

/// A difference of boot marks counts as none exactly where it is within the slack of a multiple of 2^32.
pub fn wraps_of_the_uptime_are_allowed_for()
    ensures { (slack : ℕ) (d : ℤ) →
        (is_near_multiple slack d ≡ true) ↔
        ((k : ℤ) × (unsigned_abs (d -ℤ (k *ℤ pos 4294967296)) ≤ slack)) }
{}

/// The newest boot mark becomes an item's own where the item brings a number above all before it, or the only
/// one, and stays else.
pub fn newest_boot_mark_moves<T>()
    ensures { (stamp : T → Stamp) (width : ℕ) (item : T) (before : List T) →
        newest_boot_mark stamp width (item ∷ before)
        ≡ cond (is_newest (answer width (counted width (sequences stamp before)) (stamp item).sequence))
        (boot_mark (stamp item)) (newest_boot_mark stamp width before) }
{}

/// One step of a rise is the one number below 2^32 that leads from the old value to the new one mod 2^32.
pub fn rise_between_is_exact()
    ensures below { (old new : ℕ) → rise_between old new < 2 ^ 32 }
    ensures leads { (old new : ℕ) → (old + rise_between old new) % 2 ^ 32 ≡ new % 2 ^ 32 }
{}

/// A rise is at most 2^32 for each value after the first.
pub fn rise_is_bounded()
    ensures { (first : NumberedValue) (before : List NumberedValue)
        → rise (first ∷ before) ≤ 2 ^ 32 * length before }
{}

/// The First samples carry the counted numbers.
pub fn first_values_are_counted<T>()
    ensures { (mark value : T → ℕ) (width : ℕ) (samples : List T) →
        numbers (first_values mark value width samples) ≡ counted width (map mark samples) }
{}

/// Where the true values rise by less than 2^32 from each greatest number to the next, and from each new
/// least to the least before, the rise of their lowest 32 bits is the true value at the greatest number less
/// that at the least.
pub fn rise_is_the_true_difference()
    ensures { (values : List NumberedValue) → AreDistinct (numbers values) → AreSlow values →
        rise (map shown values) + value_at_least values ≡ value_at_greatest values }
{}

/// The rise of a 32-bit value is that of a counter of 32 bits.
pub fn counters_rise_alike()
    ensures { (values : List NumberedValue) → counter_rise (2 ^ 32) values ≡ rise values }
{}

/// Values rise slowly exactly where they don't fall and rise by less than 2^32.
pub fn slowly_is_without_a_fall()
    ensures { (values : List NumberedValue) → AreSlow values ↔ (AreMonotone values × RiseByLess (2 ^ 32) values) }
{}

/// Where the true values of a counter don't fall, and rise by less than its modulus, the rise of what is shown of them
/// is the true value at the greatest number less that at the least: for counters of 32 bits, and for those of 64.
pub fn counter_rise_is_the_true_difference()
    ensures of_32_bits { (values : List NumberedValue) → AreDistinct (numbers values) → AreMonotone values
        → RiseByLess (2 ^ 32) values
        → counter_rise (2 ^ 32) (map (shown_by (2 ^ 32)) values) + value_at_least values ≡ value_at_greatest values }
    ensures of_64_bits { (values : List NumberedValue) → AreDistinct (numbers values) → AreMonotone values
        → RiseByLess (2 ^ 64) values
        → counter_rise (2 ^ 64) (map (shown_by (2 ^ 64)) values) + value_at_least values ≡ value_at_greatest values }
{}

/// Stretches by the true indexes of items, counted from 1, are cut item by item: each belongs to the current stretch,
/// begins the next, or is past.
pub fn true_stretches_go_on<T>()
    ensures stretches { (index : T → ℕ) (x : T) (before : List T) → AllByRecursion (λ y. 1 ≤ index y) (x ∷ before)
        → true_stretches index (x ∷ before) ≡ placed (true_place index before x) x (true_stretches index before) }
    ensures past { (index : T → ℕ) (x : T) (before : List T) →
        past_items index (x ∷ before) ≡ with_stale (true_place index before x) x (past_items index before) }
{}
