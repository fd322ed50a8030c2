//! Worked rows of the report, computed by the check. Items have the latest first.

ghost use Rattle.std.specs.Prelude.{◌≡◌, [], ◌∷◌, ◌++◌, codes};
ghost use Rattle.books_spec.specs.Items.{Other, flow_sample, counters_sample, Malformed};
ghost use Rattle.books_spec.specs.WholeBooks.{whole_books};
ghost use Rattle.books_spec.specs.BookRows.{limits_of, datagram_of, empty_at};
ghost use Rattle.books_spec.specs.Rows.{reading};
ghost use Rattle.wire_spec.specs.Fails.{short};
ghost use Rattle.report_lines.specs.Reports.{report_text};

/// Reports of streams, of faults and of totals.
pub fn worked_streams()
    ensures no_entry { report_text (whole_books (limits_of 256) [])
        ≡ codes "total entries 0 malformed 0 unlisted 0 unlisted_samples 0 other 0 taps_ended 0\n" }
    ensures one_datagram { report_text (whole_books (limits_of 256) (empty_at 1000 1000 1 ∷ []))
        ≡ codes "stream 1 agent 10.0.0.1 sub 0 boots 1 issued 1 received 1 pending 0 lost 0 repeated 0 late 0 stale 0\n"
        ++ codes "total entries 1 malformed 0 unlisted 0 unlisted_samples 0 other 0 taps_ended 0\n" }
    ensures one_is_pending { report_text (whole_books (limits_of 256) (empty_at 1000 1000 7 ∷ empty_at 1000 1000 5 ∷ []))
        ≡ codes "stream 1 agent 10.0.0.1 sub 0 boots 1 issued 3 received 2 pending 1 lost 0 repeated 0 late 0 stale 0\n"
        ++ codes "total entries 2 malformed 0 unlisted 0 unlisted_samples 0 other 0 taps_ended 0\n" }
    ensures a_restart { report_text (whole_books (limits_of 256) (empty_at 131000 120000 8 ∷ empty_at 130000 1000 1
        ∷ empty_at 100010 90010 7 ∷ empty_at 100000 90000 5 ∷ []))
        ≡ codes "stream 1 agent 10.0.0.1 sub 0 boots 2 issued 4 received 3 pending 0 lost 1 repeated 0 late 0 stale 1\n"
        ++ codes "total entries 4 malformed 0 unlisted 0 unlisted_samples 0 other 0 taps_ended 0\n" }
    ensures third_stream { report_text (whole_books (limits_of 2) (datagram_of 0 1000 1000 2 [] ∷ datagram_of 2 1000 1000 1 []
        ∷ datagram_of 1 1000 1000 1 [] ∷ datagram_of 0 1000 1000 1 [] ∷ []))
        ≡ codes "stream 1 agent 10.0.0.1 sub 0 boots 1 issued 2 received 2 pending 0 lost 0 repeated 0 late 0 stale 0\n"
        ++ codes "stream 2 agent 10.0.0.1 sub 1 boots 1 issued 1 received 1 pending 0 lost 0 repeated 0 late 0 stale 0\n"
        ++ codes "total entries 4 malformed 0 unlisted 1 unlisted_samples 0 other 0 taps_ended 0\n" }
    ensures a_fault { report_text (whole_books (limits_of 256) (Malformed (short 24 4 3) ∷ []))
        ≡ codes "fault entry 1 at 24 kind short\n"
        ++ codes "total entries 1 malformed 1 unlisted 0 unlisted_samples 0 other 0 taps_ended 0\n" }
    ensures first_of_two_faults { report_text (whole_books (limits_of 256) (Malformed (short 0 4 0) ∷ Malformed (short 24 4 3)
        ∷ empty_at 1000 1000 1 ∷ []))
        ≡ codes "stream 1 agent 10.0.0.1 sub 0 boots 1 issued 1 received 1 pending 0 lost 0 repeated 0 late 0 stale 0\n"
        ++ codes "fault entry 2 at 24 kind short\n"
        ++ codes "total entries 3 malformed 2 unlisted 0 unlisted_samples 0 other 0 taps_ended 0\n" }
{}

/// Reports of sources.
pub fn worked_sources()
    ensures three_times { let f = datagram_of 0 1000 1000 1 (flow_sample 0 5 (reading 1 7 3 256) ∷ []) in
        report_text (whole_books (limits_of 256) (f ∷ f ∷ f ∷ []))
        ≡ codes "stream 1 agent 10.0.0.1 sub 0 boots 1 issued 1 received 1 pending 0 lost 0 repeated 2 late 0 stale 0\n"
        ++ codes "source 1 flow 0:5 generations 1 issued 1 received 1 pending 0 lost 0 repeated 0 late 0 stale 0 pool 0 drops 0 rate 256\n"
        ++ codes "total entries 3 malformed 0 unlisted 0 unlisted_samples 0 other 0 taps_ended 0\n" }
    ensures pool_and_drops { report_text (whole_books (limits_of 256) (
        datagram_of 0 1000 1000 2 (flow_sample 0 5 (reading 2 16 0 256) ∷ [])
        ∷ datagram_of 0 1000 1000 1 (flow_sample 0 5 (reading 1 4294967280 4294967295 256) ∷ []) ∷ []))
        ≡ codes "stream 1 agent 10.0.0.1 sub 0 boots 1 issued 2 received 2 pending 0 lost 0 repeated 0 late 0 stale 0\n"
        ++ codes "source 1 flow 0:5 generations 1 issued 2 received 2 pending 0 lost 0 repeated 0 late 0 stale 0 pool 32 drops 1 rate 256\n"
        ++ codes "total entries 2 malformed 0 unlisted 0 unlisted_samples 0 other 0 taps_ended 0\n" }
    ensures kinds_are_apart { report_text (whole_books (limits_of 256) (datagram_of 0 1000 1000 1
        (counters_sample 0 5 9 ∷ Other ∷ flow_sample 0 5 (reading 1 4 0 256) ∷ counters_sample 0 5 7 ∷ []) ∷ []))
        ≡ codes "stream 1 agent 10.0.0.1 sub 0 boots 1 issued 1 received 1 pending 0 lost 0 repeated 0 late 0 stale 0\n"
        ++ codes "source 1 counters 0:5 generations 2 issued 2 received 2 pending 0 lost 0 repeated 0 late 0 stale 0\n"
        ++ codes "source 1 flow 0:5 generations 1 issued 1 received 1 pending 0 lost 0 repeated 0 late 0 stale 0 pool 0 drops 0 rate 256\n"
        ++ codes "total entries 1 malformed 0 unlisted 0 unlisted_samples 0 other 1 taps_ended 0\n" }
    ensures of_the_second_stream { report_text (whole_books (limits_of 256) (
        datagram_of 1 1000 1000 1 (counters_sample 0 5 9 ∷ []) ∷ empty_at 1000 1000 1 ∷ []))
        ≡ codes "stream 1 agent 10.0.0.1 sub 0 boots 1 issued 1 received 1 pending 0 lost 0 repeated 0 late 0 stale 0\n"
        ++ codes "stream 2 agent 10.0.0.1 sub 1 boots 1 issued 1 received 1 pending 0 lost 0 repeated 0 late 0 stale 0\n"
        ++ codes "source 2 counters 0:5 generations 1 issued 1 received 1 pending 0 lost 0 repeated 0 late 0 stale 0\n"
        ++ codes "total entries 2 malformed 0 unlisted 0 unlisted_samples 0 other 0 taps_ended 0\n" }
    ensures a_reset { report_text (whole_books (limits_of 256) (
        datagram_of 0 1000 1000 3 (flow_sample 0 5 (reading 1 10 0 256) ∷ [])
        ∷ datagram_of 0 1000 1000 2 (flow_sample 0 5 (reading 6 600 0 256) ∷ [])
        ∷ datagram_of 0 1000 1000 1 (flow_sample 0 5 (reading 5 500 0 256) ∷ []) ∷ []))
        ≡ codes "stream 1 agent 10.0.0.1 sub 0 boots 1 issued 3 received 3 pending 0 lost 0 repeated 0 late 0 stale 0\n"
        ++ codes "source 1 flow 0:5 generations 2 issued 3 received 3 pending 0 lost 0 repeated 0 late 0 stale 0 pool 100 drops 0 rate 256\n"
        ++ codes "total entries 3 malformed 0 unlisted 0 unlisted_samples 0 other 0 taps_ended 0\n" }
    ensures one_from_before_it { report_text (whole_books (limits_of 256) (
        datagram_of 0 1000 1000 2 (flow_sample 0 5 (reading 6 600 0 256) ∷ [])
        ∷ datagram_of 0 1000 1000 3 (flow_sample 0 5 (reading 1 10 0 256) ∷ [])
        ∷ datagram_of 0 1000 1000 1 (flow_sample 0 5 (reading 5 500 0 256) ∷ []) ∷ []))
        ≡ codes "stream 1 agent 10.0.0.1 sub 0 boots 1 issued 3 received 3 pending 0 lost 0 repeated 0 late 0 stale 0\n"
        ++ codes "source 1 flow 0:5 generations 2 issued 2 received 2 pending 0 lost 0 repeated 0 late 0 stale 1 pool 0 drops 0 rate 256\n"
        ++ codes "total entries 3 malformed 0 unlisted 0 unlisted_samples 0 other 0 taps_ended 0\n" }
{}
