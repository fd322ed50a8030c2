//! Worked rows of the report with lines of interfaces, computed by the check. Items have the latest first.

ghost use Rattle.std.specs.Prelude.{◌≡◌, true, false, [], ◌∷◌, ◌++◌, codes};
ghost use Rattle.books_spec.specs.Items.{interface_sample};
ghost use Rattle.books_spec.specs.WholeBooks.{WholeBooks, whole_books};
ghost use Rattle.books_spec.specs.BookRows.{limits_of, datagram_of};
ghost use Rattle.books_spec.specs.GenerationRows.{octets_and_ucast};
ghost use Rattle.sample_taps.specs.Classes.{no_classes};
ghost use Rattle.report_lines.specs.HeaderLines.{no_taps};
ghost use Rattle.report_lines.specs.InterfaceLines.{report_with};
ghost use Rattle.report_lines.specs.Reports.{report_text};

/// Where no lines of interfaces are asked for, no header counts and no consumer is there, the report is that of streams
/// and sources alone.
pub fn without_interfaces_the_report_is_the_same()
    ensures { (b : WholeBooks) → report_with false b no_classes no_taps ≡ report_text b }
{}

/// A report of an interface whose counters went on from their greatest values to 0.
pub fn worked_interfaces()
    ensures through_wraps { report_with true (whole_books (limits_of 256) (
        datagram_of 0 1000 1000 2 (interface_sample 0 5 2 (octets_and_ucast 16 3) ∷ [])
        ∷ datagram_of 0 1000 1000 1 (interface_sample 0 5 1 (octets_and_ucast 18446744073709551600 4294967294) ∷ []) ∷ [])) no_classes no_taps
        ≡ codes "stream 1 agent 10.0.0.1 sub 0 boots 1 issued 2 received 2 pending 0 lost 0 repeated 0 late 0 stale 0\n"
        ++ codes "source 1 counters 0:5 generations 1 issued 2 received 2 pending 0 lost 0 repeated 0 late 0 stale 0\n"
        ++ codes "if 1 0:5 samples 2 in 32 5 0 0 0 0 0 out 0 0 0 0 0 0\n"
        ++ codes "total entries 2 malformed 0 unlisted 0 unlisted_samples 0 other 0 taps_ended 0\n" }
{}
