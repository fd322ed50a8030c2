//! Worked rows of whole books, computed by the check. Items have the latest first.

ghost use Rattle.std.specs.Prelude.{◌≡◌, true, false, Some, List, [], ◌∷◌};
ghost use Rattle.books_spec.specs.Rows.{figures, reading};
ghost use Rattle.books_spec.specs.Items.{SourceId, Other, flow_sample, counters_sample, Malformed};
ghost use Rattle.books_spec.specs.Books.{books, taken};
ghost use Rattle.books_spec.specs.BookRows.{limits_of, sub, datagram_of, empty_at, stream_line, source_line, sound_totals};
ghost use Rattle.books_spec.specs.declared.taken.Taken.TheVariants.{First, Repeat, Late, Stale, Unlisted, Malformed as MalformedEntry};
ghost use Rattle.wire_spec.specs.Fails.{short};

/// Datagrams and samples that come again, too late, or in another order: the samples of a datagram are entered once.
#[tactic(auto, unfolding(count_spec::specs::Parts::between))]
pub fn repeats_and_late()
    ensures three_times { let f = datagram_of 0 1000 1000 1 (flow_sample 0 5 (reading 1 7 3 256) ∷ []) in
        books (limits_of 256) (f ∷ f ∷ f ∷ [])
        ≡ record {
          totals = sound_totals 3 0 0 0;
          streams = stream_line (figures 1 1 0 0 2 0) 1 0 ∷ [];
          sources = source_line (record { flow = true; class = 0; index = 5 }) (figures 1 1 0 0 0 0) 0 0 256 ∷ [];
        } }
    ensures answers { let f = datagram_of 0 1000 1000 100 [] in
        (taken (limits_of 256) [] f ≡ First) × (taken (limits_of 256) (f ∷ []) f ≡ Repeat)
        × (taken (limits_of 256) (f ∷ []) (empty_at 1000 1000 36) ≡ Late)
        × (taken (limits_of 256) (f ∷ []) (empty_at 1000 1000 37) ≡ First) }
    ensures late { books (limits_of 256) (datagram_of 0 1000 1000 36 (flow_sample 0 5 (reading 1 7 3 256) ∷ [])
        ∷ empty_at 1000 1000 100 ∷ [])
        ≡ record {
          totals = sound_totals 2 0 0 0;
          streams = stream_line (figures 1 1 0 0 0 1) 1 0 ∷ [];
          sources = [];
        } }
    ensures wider_for_samples { books (limits_of 256) (datagram_of 0 1000 1000 2 (flow_sample 0 5 (reading 101 9 3 256) ∷ [])
        ∷ datagram_of 0 1000 1000 1 (flow_sample 0 5 (reading 1 7 3 256) ∷ []) ∷ [])
        ≡ record {
          totals = sound_totals 2 0 0 0;
          streams = stream_line (figures 2 2 0 0 0 0) 1 0 ∷ [];
          sources = source_line (record { flow = true; class = 0; index = 5 }) (figures 101 2 99 0 0 0) 2 0 256 ∷ [];
        } }
    ensures pool_and_drops { books (limits_of 256) (
        datagram_of 0 1000 1000 2 (flow_sample 0 5 (reading 2 16 0 256) ∷ [])
        ∷ datagram_of 0 1000 1000 1 (flow_sample 0 5 (reading 1 4294967280 4294967295 256) ∷ []) ∷ [])
        ≡ record {
          totals = sound_totals 2 0 0 0;
          streams = stream_line (figures 2 2 0 0 0 0) 1 0 ∷ [];
          sources = source_line (record { flow = true; class = 0; index = 5 }) (figures 2 2 0 0 0 0) 32 1 256 ∷ [];
        } }
    ensures kinds_are_apart { books (limits_of 256) (datagram_of 0 1000 1000 1
        (counters_sample 0 5 9 ∷ Other ∷ flow_sample 0 5 (reading 1 4 0 256) ∷ counters_sample 0 5 7 ∷ []) ∷ [])
        ≡ record {
          totals = sound_totals 1 0 0 1;
          streams = stream_line (figures 1 1 0 0 0 0) 1 0 ∷ [];
          sources = source_line (record { flow = false; class = 0; index = 5 }) (figures 3 2 1 0 0 0) 0 0 0
              ∷ source_line (record { flow = true; class = 0; index = 5 }) (figures 1 1 0 0 0 0) 0 0 256 ∷ [];
        } }
{}

/// Restarts: what was pending is lost, and what comes from an earlier boot is stale.
#[tactic(auto, unfolding(count_spec::specs::Parts::between))]
pub fn restarts()
    ensures a_restart { books (limits_of 256) (empty_at 130000 1000 1 ∷ empty_at 100010 90010 7 ∷ empty_at 100000 90000 5 ∷ [])
        ≡ record {
          totals = sound_totals 3 0 0 0;
          streams = stream_line (figures 4 3 0 1 0 0) 2 0 ∷ [];
          sources = [];
        } }
    ensures stale { books (limits_of 256) (empty_at 131000 120000 8 ∷ empty_at 130000 1000 1 ∷ empty_at 100010 90010 7
        ∷ empty_at 100000 90000 5 ∷ [])
        ≡ record {
          totals = sound_totals 4 0 0 0;
          streams = stream_line (figures 4 3 0 1 0 0) 2 1 ∷ [];
          sources = [];
        } }
    ensures stale_answer { taken (limits_of 256) (empty_at 130000 1000 1 ∷ empty_at 100010 90010 7 ∷ empty_at 100000 90000 5 ∷ [])
        (empty_at 131000 120000 8) ≡ Stale }
    ensures slack_after { (books (limits_of 256) (empty_at 105000 90000 6 ∷ empty_at 100000 90000 5 ∷ [])).streams
        ≡ stream_line (figures 2 2 0 0 0 0) 1 0 ∷ [] }
    ensures behind_slack_after { (books (limits_of 256) (empty_at 105001 90000 6 ∷ empty_at 100000 90000 5 ∷ [])).streams
        ≡ stream_line (figures 2 2 0 0 0 0) 2 0 ∷ [] }
    ensures slack_before { (books (limits_of 256) (empty_at 95000 90000 6 ∷ empty_at 100000 90000 5 ∷ [])).streams
        ≡ stream_line (figures 2 2 0 0 0 0) 1 0 ∷ [] }
    ensures behind_slack_before { (books (limits_of 256) (empty_at 94999 90000 6 ∷ empty_at 100000 90000 5 ∷ [])).streams
        ≡ stream_line (figures 1 1 0 0 0 0) 1 1 ∷ [] }
    ensures after_thirty_days { (books (limits_of 256) (empty_at 3000060000 10000 1 ∷ empty_at 3000000000 2592000000 5 ∷ [])).streams
        ≡ stream_line (figures 2 2 0 0 0 0) 2 0 ∷ [] }
    ensures a_wrap_of_the_uptime { (books (limits_of 256) (empty_at 5000000396 100 6 ∷ empty_at 5000000000 4294967000 5 ∷ [])).streams
        ≡ stream_line (figures 2 2 0 0 0 0) 1 0 ∷ [] }
    ensures samples_of_stale_ones { (books (limits_of 256) (datagram_of 0 131000 120000 8 (flow_sample 0 5 (reading 1 4 0 256) ∷ [])
        ∷ empty_at 130000 1000 1 ∷ empty_at 100000 90000 5 ∷ [])).sources ≡ [] }
    ensures samples_over_a_restart { (books (limits_of 256) (datagram_of 0 130000 1000 1 (flow_sample 0 5 (reading 1 4 0 512) ∷ [])
        ∷ datagram_of 0 100010 90010 7 (flow_sample 0 5 (reading 3 9 0 256) ∷ [])
        ∷ datagram_of 0 100000 90000 5 (flow_sample 0 5 (reading 1 2 0 256) ∷ []) ∷ [])).sources
        ≡ source_line (record { flow = true; class = 0; index = 5 }) (figures 4 3 0 1 0 0) 7 0 512 ∷ [] }
{}

/// Streams that find no place, and entries that are no datagrams.
#[tactic(auto, unfolding(count_spec::specs::Parts::between))]
pub fn unlisted_and_malformed()
    ensures third_stream { books (limits_of 2) (datagram_of 0 1000 1000 2 [] ∷ datagram_of 2 1000 1000 1 [] ∷ datagram_of 1 1000 1000 1 []
        ∷ datagram_of 0 1000 1000 1 [] ∷ [])
        ≡ record {
          totals = sound_totals 4 1 0 0;
          streams = stream_line (figures 2 2 0 0 0 0) 1 0
              ∷ record (stream_line (figures 1 1 0 0 0 0) 1 0) { stream = sub 1 } ∷ [];
          sources = [];
        } }
    ensures samples_of_unlisted_ones { books (limits_of 1) (datagram_of 1 1000 1000 1 (flow_sample 0 5 (reading 1 7 3 256) ∷ [])
        ∷ datagram_of 0 1000 1000 1 [] ∷ [])
        ≡ record {
          totals = sound_totals 2 1 0 0;
          streams = stream_line (figures 1 1 0 0 0 0) 1 0 ∷ [];
          sources = [];
        } }
    ensures answer { taken (limits_of 1) (datagram_of 0 1000 1000 1 [] ∷ []) (datagram_of 1 1000 1000 1 []) ≡ Unlisted }
    ensures first_of_two_faults { books (limits_of 2) (Malformed (short 8 4 0) ∷ empty_at 1000 1000 1 ∷ Malformed (short 24 4 3)
        ∷ empty_at 1000 1000 1 ∷ [])
        ≡ record {
          totals = record (sound_totals 4 0 0 0) {
            malformed = 2;
            first_fault = Some (record { entry = 2; fault = short 24 4 3 });
          };
          streams = stream_line (figures 1 1 0 0 1 0) 1 0 ∷ [];
          sources = [];
        } }
    ensures fault_answer { taken (limits_of 2) [] (Malformed (short 24 4 3)) ≡ MalformedEntry }
    ensures second_source { books (record (limits_of 2) { sources = 1 }) (datagram_of 0 1000 1000 1 (counters_sample 0 5 9
        ∷ counters_sample 0 6 9 ∷ counters_sample 0 5 10 ∷ []) ∷ [])
        ≡ record {
          totals = sound_totals 1 0 1 0;
          streams = stream_line (figures 1 1 0 0 0 0) 1 0 ∷ [];
          sources = source_line (record { flow = false; class = 0; index = 5 }) (figures 2 2 0 0 0 0) 0 0 0 ∷ [];
        } }
{}
