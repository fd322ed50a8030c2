//! Worked rows, computed by the check. Each list has the latest first.

ghost use Rattle.std.specs.Prelude.{◌≡◌, ℕ, ◌^◌, List, [], ◌∷◌, map, ℤ, pos, negsuc};
ghost use Rattle.count_spec.specs.Windows.{answers};
ghost use Rattle.count_spec.specs.declared.entered.Entered.TheVariants.{First, Repeat, Late};
ghost use Rattle.count_spec.specs.declared.entered.Place.TheVariants.{Only, Newest, Inside, Least};
ghost use Rattle.count_spec.specs.Rows.{parts_of_marks, figures, datagram, boots_of, stale_of, at_number};
ghost use Rattle.count_spec.specs.Boots.{boot_mark};
ghost use Rattle.count_spec.specs.Rise.{rise};
ghost use Rattle.count_spec.specs.CounterRise.{counter_rise};
ghost use Rattle.count_spec.specs.TrueStretches.{true_stretches, past_items};

/// What a window answers to marks, from the first on: a first number, a repeat, or a number too late.
pub fn answer_rows()
    ensures least_still_in_the_window { answers 64 (37 ∷ 100 ∷ [])
        ≡ First Least (pos 37) ∷ First Only (pos 100) ∷ [] }
    ensures just_below_the_window { answers 64 (36 ∷ 100 ∷ []) ≡ Late ∷ First Only (pos 100) ∷ [] }
    ensures again { answers 64 (37 ∷ 37 ∷ 100 ∷ [])
        ≡ Repeat ∷ First Least (pos 37) ∷ First Only (pos 100) ∷ [] }
    ensures counted_but_below_the_window { answers 64 (10 ∷ 200 ∷ 10 ∷ [])
        ≡ Late ∷ First Newest (pos 200) ∷ First Only (pos 10) ∷ [] }
    ensures between_two { answers 64 (6 ∷ 7 ∷ 5 ∷ [])
        ≡ First Inside (pos 6) ∷ First Newest (pos 7) ∷ First Only (pos 5) ∷ [] }
    ensures wraps_up { answers 64 (0 ∷ 4294967295 ∷ [])
        ≡ First Newest (pos 4294967296) ∷ First Only (pos 4294967295) ∷ [] }
    ensures wraps_down { answers 64 (4294967290 ∷ 3 ∷ []) ≡ First Least (negsuc 5) ∷ First Only (pos 3) ∷ [] }
    ensures farthest_ahead { answers 64 (2147483647 ∷ 0 ∷ [])
        ≡ First Newest (pos 2147483647) ∷ First Only (pos 0) ∷ [] }
    ensures half_way_round_is_behind { answers 64 (2147483648 ∷ 0 ∷ []) ≡ Late ∷ First Only (pos 0) ∷ [] }
{}

/// The figures that marks leave: issued, received, pending and lost.
#[tactic(auto, unfolding(crate::specs::Parts::between))]
pub fn parts_rows()
    ensures none { parts_of_marks 64 [] ≡ figures 0 0 0 0 }
    ensures through_a_wrap { parts_of_marks 64 (1 ∷ 0 ∷ 4294967295 ∷ []) ≡ figures 3 3 0 0 }
    ensures one_missing { parts_of_marks 64 (7 ∷ 5 ∷ []) ≡ figures 3 2 1 0 }
    ensures the_missing_one_comes { parts_of_marks 64 (6 ∷ 7 ∷ 5 ∷ []) ≡ figures 3 3 0 0 }
    ensures one_before_the_first { parts_of_marks 64 (3 ∷ 5 ∷ []) ≡ figures 3 2 1 0 }
    ensures least_still_in_the_window { parts_of_marks 64 (37 ∷ 100 ∷ []) ≡ figures 64 2 62 0 }
    ensures just_below_the_window { parts_of_marks 64 (36 ∷ 100 ∷ []) ≡ figures 1 1 0 0 }
    ensures again { parts_of_marks 64 (37 ∷ 37 ∷ 100 ∷ []) ≡ figures 64 2 62 0 }
    ensures a_long_gap { parts_of_marks 64 (200 ∷ 10 ∷ []) ≡ figures 191 2 63 126 }
    ensures one_of_the_gap_comes { parts_of_marks 64 (150 ∷ 200 ∷ 10 ∷ []) ≡ figures 191 3 62 126 }
    ensures half_way_round_is_behind { parts_of_marks 64 (2147483648 ∷ 0 ∷ []) ≡ figures 1 1 0 0 }
{}

/// The figures of two numbers as far apart as two marks can tell: all between them but the last 63 are lost.
pub fn far_row()
    ensures { parts_of_marks 64 (2147483647 ∷ 0 ∷ []) ≡ figures 2147483648 2 63 2147483583 }
{}

/// The rise of a 32-bit value over numbers.
pub fn rise_rows()
    ensures twice_half_way_round { rise (at_number 3 0 ∷ at_number 2 2147483648 ∷ at_number 1 0 ∷ [])
        ≡ 4294967296 }
    ensures through_a_wrap { rise (at_number 2 16 ∷ at_number 1 4294967280 ∷ []) ≡ 32 }
    ensures drops_through_a_wrap { rise (at_number 2 0 ∷ at_number 1 4294967295 ∷ []) ≡ 1 }
    ensures out_of_order { rise (at_number 1 4294967280 ∷ at_number 2 16 ∷ []) ≡ 32 }
    ensures inside_adds_nothing { rise (at_number 2 7 ∷ at_number 3 9 ∷ at_number 1 4 ∷ []) ≡ 5 }
    ensures one_alone { rise (at_number 1 4294967280 ∷ []) ≡ 0 }
{}

/// In which boot a datagram falls: the sequence words of the boots, the current one first, and of the stale
/// datagrams. A datagram is written as its arrival, its uptime and its sequence word.
#[tactic(auto, unfolding(crate::specs::Parts::between))]
pub fn boot_rows()
    ensures boot_mark { boot_mark (datagram 130000 1000 1) ≡ pos 129000 }
    ensures boot_mark_below_zero { boot_mark (datagram 10000 90000 5) ≡ negsuc 79999 }
    ensures first { boots_of (datagram 100000 90000 5 ∷ []) ≡ (5 ∷ []) ∷ [] }
    ensures later_by_the_slack { boots_of (datagram 105000 90000 6 ∷ datagram 100000 90000 5 ∷ [])
        ≡ (6 ∷ 5 ∷ []) ∷ [] }
    ensures later_by_more { boots_of (datagram 105001 90000 6 ∷ datagram 100000 90000 5 ∷ [])
        ≡ (6 ∷ []) ∷ (5 ∷ []) ∷ [] }
    ensures earlier_by_the_slack { boots_of (datagram 95000 90000 6 ∷ datagram 100000 90000 5 ∷ [])
        ≡ (6 ∷ 5 ∷ []) ∷ [] }
    ensures earlier_by_more { boots_of (datagram 94999 90000 6 ∷ datagram 100000 90000 5 ∷ [])
        ≡ (5 ∷ []) ∷ [] }
    ensures earlier_by_more_is_stale { stale_of (datagram 94999 90000 6 ∷ datagram 100000 90000 5 ∷ [])
        ≡ 6 ∷ [] }
    ensures restart_after_thirty_days { boots_of (datagram 3000060000 10000 1
        ∷ datagram 3000000000 2592000000 5 ∷ [])
        ≡ (1 ∷ []) ∷ (5 ∷ []) ∷ [] }
    ensures uptime_wraps { boots_of (datagram 5000000396 100 6 ∷ datagram 5000000000 4294967000 5 ∷ [])
        ≡ (6 ∷ 5 ∷ []) ∷ [] }
    ensures restart { boots_of (datagram 130000 1000 1
        ∷ datagram 100010 90010 7 ∷ datagram 100000 90000 5 ∷ [])
        ≡ (1 ∷ []) ∷ (7 ∷ 5 ∷ []) ∷ [] }
    ensures figures_of_the_boots { map (parts_of_marks 64) ((1 ∷ []) ∷ (7 ∷ 5 ∷ []) ∷ [])
        ≡ figures 1 1 0 0 ∷ figures 3 2 1 0 ∷ [] }
    ensures closed_boot_stays_closed { boots_of (datagram 131000 120000 8 ∷ datagram 130000 1000 1
        ∷ datagram 100010 90010 7 ∷ datagram 100000 90000 5 ∷ [])
        ≡ (1 ∷ []) ∷ (7 ∷ 5 ∷ []) ∷ [] }
    ensures from_the_closed_boot_is_stale { stale_of (datagram 131000 120000 8 ∷ datagram 130000 1000 1
        ∷ datagram 100010 90010 7 ∷ datagram 100000 90000 5 ∷ [])
        ≡ 8 ∷ [] }
    ensures measured_from_the_greatest_number { boots_of (datagram 109030 90030 8 ∷ datagram 100020 90020 6
        ∷ datagram 104010 90010 7 ∷ datagram 100000 90000 5 ∷ [])
        ≡ (8 ∷ 6 ∷ 7 ∷ 5 ∷ []) ∷ [] }
    ensures measured_from_its_first_receipt { boots_of (datagram 109031 90030 8 ∷ datagram 108020 90020 7
        ∷ datagram 104010 90010 7 ∷ datagram 100000 90000 5 ∷ [])
        ≡ (8 ∷ []) ∷ (7 ∷ 7 ∷ 5 ∷ []) ∷ [] }
{}

/// The rise of a counter with its own modulus.
pub fn counter_rise_rows()
    ensures of_64_bits { counter_rise (2 ^ 64) (at_number 2 16 ∷ at_number 1 18446744073709551600 ∷ []) ≡ 32 }
    ensures of_64_bits_above_32 { counter_rise (2 ^ 64) (at_number 2 4294967306 ∷ at_number 1 5 ∷ []) ≡ 4294967301 }
    ensures of_32_bits { counter_rise (2 ^ 32) (at_number 2 3 ∷ at_number 1 4294967294 ∷ []) ≡ 5 }
    ensures out_of_order { counter_rise (2 ^ 64) (at_number 1 18446744073709551600 ∷ at_number 2 16 ∷ []) ≡ 32 }
{}

/// Stretches by the index that each item shows.
pub fn true_stretch_rows()
    ensures each_in_turn { true_stretches (λ (i : ℕ). i) (3 ∷ 2 ∷ 2 ∷ 1 ∷ []) ≡ (3 ∷ []) ∷ (2 ∷ 2 ∷ []) ∷ (1 ∷ []) ∷ [] }
    ensures past { true_stretches (λ (i : ℕ). i) (2 ∷ 3 ∷ 1 ∷ 2 ∷ 1 ∷ []) ≡ (3 ∷ []) ∷ (2 ∷ []) ∷ (1 ∷ []) ∷ [] }
    ensures past_ones { past_items (λ (i : ℕ). i) (2 ∷ 3 ∷ 1 ∷ 2 ∷ 1 ∷ []) ≡ 2 ∷ 1 ∷ [] }
    ensures one_is_missing { true_stretches (λ (i : ℕ). i) (3 ∷ 1 ∷ []) ≡ (3 ∷ []) ∷ (1 ∷ []) ∷ [] }
{}
