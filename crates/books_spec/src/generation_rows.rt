//! Worked rows of the generations of a source, computed by the check. Lists have the latest first, and boots the
//! current boot first.

ghost use Rattle.std.specs.Prelude.{◌≡◌, false, [], ◌∷◌, map};
ghost use Rattle.books_spec.specs.Views.{view_with};
ghost use Rattle.books_spec.specs.Rows.{figures, reading};
ghost use Rattle.books_spec.specs.Items.{Other, flow_sample, counters_sample, interface_sample};
ghost use Rattle.books_spec.specs.BookRows.{limits_of, datagram_of, empty_at, stream_line, sound_totals};
ghost use Rattle.books_spec.specs.GenerationRows.{sample_at, alone_in, view_of_boots, shows, with_flow, flow_line, counters_line, octets_and_ucast, two_rises};
ghost use Rattle.books_spec.specs.WholeBooks.{whole_books};

/// Resets: a sample that stands behind all before it, and whose number doesn't rise, opens a generation.
#[tactic(auto, unfolding(count_spec::specs::Parts::between))]
pub fn resets()
    ensures none_yet { view_of_boots ([] ∷ [])
        ≡ record { generations = 0; ledger = view_with (figures 0 0 0 0 0 0) 0 0 0; stale = 0 } }
    ensures numbers_that_rise { view_of_boots ((alone_in 3 7 700 ∷ alone_in 2 6 600 ∷ alone_in 1 5 500 ∷ []) ∷ [])
        ≡ shows 1 (figures 3 3 0 0 0 0) 200 0 }
    ensures one { view_of_boots ((alone_in 3 1 10 ∷ alone_in 2 6 600 ∷ alone_in 1 5 500 ∷ []) ∷ [])
        ≡ shows 2 (figures 3 3 0 0 0 0) 100 0 }
    ensures from_before_it { view_of_boots ((alone_in 2 6 600 ∷ alone_in 3 1 10 ∷ alone_in 1 5 500 ∷ []) ∷ [])
        ≡ shows 2 (figures 2 2 0 0 0 0) 0 1 }
    ensures seen_late { view_of_boots (
        (alone_in 3 1 10 ∷ alone_in 4 2 30 ∷ alone_in 2 6 600 ∷ alone_in 1 5 500 ∷ []) ∷ [])
        ≡ shows 2 (figures 3 3 0 0 0 0) 100 1 }
    ensures one_lost_whole { view_of_boots ((alone_in 6 2 20 ∷ alone_in 2 6 600 ∷ alone_in 1 5 500 ∷ []) ∷ [])
        ≡ shows 2 (figures 3 3 0 0 0 0) 100 0 }
    ensures two_in_one_datagram { view_of_boots (
        (sample_at 2 2 1 9 ∷ sample_at 2 1 1 7 ∷ sample_at 2 0 6 600 ∷ alone_in 1 5 500 ∷ []) ∷ [])
        ≡ shows 3 (figures 4 4 0 0 0 0) 100 0 }
    ensures begins_with_a_number_seen { view_of_boots ((alone_in 2 5 4 ∷ alone_in 1 5 500 ∷ []) ∷ [])
        ≡ shows 2 (figures 2 2 0 0 0 0) 0 0 }
    ensures begins_below_the_window { view_of_boots ((alone_in 2 1 4 ∷ alone_in 1 500 500 ∷ []) ∷ [])
        ≡ shows 2 (figures 2 2 0 0 0 0) 0 0 }
    ensures half_way_round { view_of_boots ((alone_in 2 2147483648 4 ∷ alone_in 1 0 500 ∷ []) ∷ [])
        ≡ shows 2 (figures 2 2 0 0 0 0) 0 0 }
    ensures twice { view_of_boots (
        (alone_in 4 1 3 ∷ alone_in 3 2 9 ∷ alone_in 2 1 5 ∷ alone_in 1 5 500 ∷ []) ∷ [])
        ≡ shows 3 (figures 4 4 0 0 0 0) 4 0 }
{}

/// Samples that belong to the current generation though their numbers don't rise.
#[tactic(auto, unfolding(count_spec::specs::Parts::between))]
pub fn no_resets()
    ensures out_of_order { view_of_boots ((alone_in 2 5 10 ∷ alone_in 3 6 20 ∷ alone_in 1 4 4 ∷ []) ∷ [])
        ≡ shows 1 (figures 3 3 0 0 0 0) 16 0 }
    ensures again_from_before { view_of_boots ((alone_in 2 4 10 ∷ alone_in 3 6 20 ∷ alone_in 1 4 4 ∷ []) ∷ [])
        ≡ shows 1 (figures 3 2 1 0 1 0) 16 0 }
    ensures late_in_the_first { view_of_boots ((alone_in 1 1 4 ∷ alone_in 2 500 20 ∷ []) ∷ [])
        ≡ shows 1 (figures 1 1 0 0 0 1) 0 0 }
    ensures before_the_first_of_the_boot { view_of_boots ((alone_in 1 4 4 ∷ alone_in 2 5 20 ∷ []) ∷ [])
        ≡ shows 1 (figures 2 2 0 0 0 0) 16 0 }
    ensures by_the_datagram_first { view_of_boots ((sample_at 2 5 5 10 ∷ sample_at 3 0 6 20 ∷ alone_in 1 4 4 ∷ []) ∷ [])
        ≡ shows 1 (figures 3 3 0 0 0 0) 16 0 }
    ensures into_a_gap { view_of_boots (
        (alone_in 3 499 19 ∷ alone_in 4 500 20 ∷ alone_in 2 1 4 ∷ alone_in 1 0 2 ∷ []) ∷ [])
        ≡ shows 1 (figures 501 4 62 435 0 0) 18 0 }
    ensures through_a_wrap { view_of_boots (
        (alone_in 3 1 16 ∷ alone_in 2 0 4294967295 ∷ alone_in 1 4294967295 4294967280 ∷ []) ∷ [])
        ≡ shows 1 (figures 3 3 0 0 0 0) 32 0 }
    ensures through_a_wrap_after_a_reset { view_of_boots (
        (alone_in 3 0 16 ∷ alone_in 2 4294967295 4294967280 ∷ alone_in 1 5 500 ∷ []) ∷ [])
        ≡ shows 2 (figures 3 3 0 0 0 0) 32 0 }
{}

/// A generation is closed by the next one, and by a boot: its gap is lost.
#[tactic(auto, unfolding(count_spec::specs::Parts::between))]
pub fn closed_generations()
    ensures gap_of_the_current { view_of_boots ((alone_in 2 7 600 ∷ alone_in 1 5 500 ∷ []) ∷ [])
        ≡ shows 1 (figures 3 2 1 0 0 0) 100 0 }
    ensures gap_of_a_closed { view_of_boots ((alone_in 3 1 10 ∷ alone_in 2 7 600 ∷ alone_in 1 5 500 ∷ []) ∷ [])
        ≡ shows 2 (figures 4 3 0 1 0 0) 100 0 }
    ensures none_in_the_current_boot { view_of_boots ([] ∷ (alone_in 3 3 30 ∷ alone_in 2 1 10 ∷ alone_in 1 5 500 ∷ []) ∷ [])
        ≡ shows 2 (figures 4 3 0 1 0 0) 20 0 }
    ensures of_two_boots { view_of_boots ((alone_in 1 3 8 ∷ [])
        ∷ (alone_in 3 1 10 ∷ alone_in 2 7 600 ∷ alone_in 1 5 500 ∷ []) ∷ [])
        ≡ shows 3 (figures 5 4 0 1 0 0) 100 0 }
    ensures first_of_the_next_boot { view_of_boots ((alone_in 1 4 8 ∷ alone_in 2 5 9 ∷ [])
        ∷ (alone_in 3 1 10 ∷ alone_in 2 7 600 ∷ alone_in 1 5 500 ∷ []) ∷ [])
        ≡ shows 3 (figures 6 5 0 1 0 0) 101 0 }
{}

/// Whole books with resets.
#[tactic(auto, unfolding(count_spec::specs::Parts::between))]
pub fn books_with_resets()
    ensures one { whole_books (limits_of 256) (with_flow 3 1 10 ∷ with_flow 2 6 600 ∷ with_flow 1 5 500 ∷ [])
        ≡ record {
          totals = sound_totals 3 0 0 0;
          streams = stream_line (figures 3 3 0 0 0 0) 1 0 ∷ [];
          sources = flow_line (shows 2 (figures 3 3 0 0 0 0) 100 0) ∷ [];
          interfaces = [];
        } }
    ensures from_before_it { whole_books (limits_of 256) (with_flow 2 6 600 ∷ with_flow 3 1 10 ∷ with_flow 1 5 500 ∷ [])
        ≡ record {
          totals = sound_totals 3 0 0 0;
          streams = stream_line (figures 3 3 0 0 0 0) 1 0 ∷ [];
          sources = flow_line (shows 2 (figures 2 2 0 0 0 0) 0 1) ∷ [];
          interfaces = [];
        } }
    ensures within_a_datagram { (whole_books (limits_of 256) (
        datagram_of 0 1000 1000 1 (Other ∷ counters_sample 0 5 9 ∷ counters_sample 0 5 2 ∷ counters_sample 0 5 3 ∷ []) ∷ [])).sources
        ≡ counters_line 2 (figures 3 3 0 0 0 0) 0 ∷ [] }
    ensures over_a_restart { (whole_books (limits_of 256) (datagram_of 0 130000 1000 1 (flow_sample 0 5 (reading 1 4 0 256) ∷ [])
        ∷ datagram_of 0 100010 90010 7 (flow_sample 0 5 (reading 3 9 0 256) ∷ [])
        ∷ datagram_of 0 100000 90000 5 (flow_sample 0 5 (reading 1 2 0 256) ∷ []) ∷ [])).sources
        ≡ flow_line (shows 2 (figures 4 3 0 1 0 0) 7 0) ∷ [] }
    ensures none_after_a_restart { (whole_books (limits_of 256) (empty_at 130000 1000 1
        ∷ datagram_of 0 100010 90010 7 (flow_sample 0 5 (reading 3 9 0 256) ∷ [])
        ∷ datagram_of 0 100000 90000 5 (flow_sample 0 5 (reading 1 2 0 256) ∷ []) ∷ [])).sources
        ≡ flow_line (shows 1 (figures 3 2 0 1 0 0) 7 0) ∷ [] }
{}

/// By how much the counters of an interface rose.
#[tactic(auto, unfolding(count_spec::specs::Parts::between))]
pub fn interfaces()
    ensures through_wraps { whole_books (limits_of 256) (
        datagram_of 0 1000 1000 2 (interface_sample 0 5 2 (octets_and_ucast 16 3) ∷ [])
        ∷ datagram_of 0 1000 1000 1 (interface_sample 0 5 1 (octets_and_ucast 18446744073709551600 4294967294) ∷ []) ∷ [])
        ≡ record {
          totals = sound_totals 2 0 0 0;
          streams = stream_line (figures 2 2 0 0 0 0) 1 0 ∷ [];
          sources = counters_line 1 (figures 2 2 0 0 0 0) 0 ∷ [];
          interfaces = record {
            stream = 1;
            id = record { flow = false; class = 0; index = 5 };
            view = record { samples = 2; rises = two_rises 32 5 };
          } ∷ [];
        } }
    ensures above_32_bits { map (λ line. line.view) (whole_books (limits_of 256) (
        datagram_of 0 1000 1000 2 (interface_sample 0 5 2 (octets_and_ucast 4294967306 10) ∷ [])
        ∷ datagram_of 0 1000 1000 1 (interface_sample 0 5 1 (octets_and_ucast 5 5) ∷ []) ∷ [])).interfaces
        ≡ record { samples = 2; rises = two_rises 4294967301 5 } ∷ [] }
    ensures of_each_generation { map (λ line. line.view) (whole_books (limits_of 256) (
        datagram_of 0 1000 1000 4 (interface_sample 0 5 2 (octets_and_ucast 40 4) ∷ [])
        ∷ datagram_of 0 1000 1000 3 (interface_sample 0 5 1 (octets_and_ucast 10 1) ∷ [])
        ∷ datagram_of 0 1000 1000 2 (interface_sample 0 5 9 (octets_and_ucast 900 90) ∷ [])
        ∷ datagram_of 0 1000 1000 1 (interface_sample 0 5 8 (octets_and_ucast 800 80) ∷ []) ∷ [])).interfaces
        ≡ record { samples = 4; rises = two_rises 130 13 } ∷ [] }
    ensures only_first_ones_that_carry { map (λ line. line.view) (whole_books (limits_of 256) (
        datagram_of 0 1000 1000 5 (interface_sample 0 5 5 (octets_and_ucast 30 3) ∷ [])
        ∷ datagram_of 0 1000 1000 3 (interface_sample 0 5 2 (octets_and_ucast 99 9) ∷ [])
        ∷ datagram_of 0 1000 1000 4 (counters_sample 0 5 4 ∷ [])
        ∷ datagram_of 0 1000 1000 2 (interface_sample 0 5 2 (octets_and_ucast 20 2) ∷ []) ∷ [])).interfaces
        ≡ record { samples = 2; rises = two_rises 10 1 } ∷ [] }
    ensures none_carried { (whole_books (limits_of 256) (datagram_of 0 1000 1000 1 (counters_sample 0 5 4 ∷ []) ∷ [])).interfaces ≡ [] }
{}
