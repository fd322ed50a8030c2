//! Worked lines of headers and consumers, computed by the check.

ghost use Rattle.std.specs.Prelude.{◌≡◌, false, [], ◌∷◌, ◌++◌, codes};
ghost use Rattle.sample_taps.specs.Classes.{no_classes};
ghost use Rattle.books_spec.specs.WholeBooks.{whole_books};
ghost use Rattle.books_spec.specs.BookRows.{limits_of};
ghost use Rattle.report_lines.specs.HeaderLines.{class_text, tap_texts};
ghost use Rattle.report_lines.specs.InterfaceLines.{report_with};

/// The line of seventeen tagged headers of TCP over IPv4; none where no header was counted; and two consumers.
pub fn worked_header_lines()
    ensures seventeen { class_text (record no_classes { ipv4 = 17; tagged = 17; tcp = 17 })
        ≡ codes "headers unscanned 0 short 0 length 0 undefined 0 arp 0 ipv4 17 ipv6 0 other 0 badip 0 tagged 17 tcp 17 udp 0\n" }
    ensures none { class_text no_classes ≡ [] }
    ensures consumers { tap_texts (λ text. text) (codes "tap port none" ∷ codes "tap headers 0" ∷ [])
        ≡ codes "tap port none\n" ++ codes "tap headers 0\n" }
{}

/// The report of no entry, with three headers that were too short, a consumer that is held and one that was done.
pub fn worked_report_of_headers()
    ensures { report_with false (whole_books (limits_of 256) []) (record no_classes { short = 3 })
        (record { lines = codes "tap port none\n"; ended = 1 })
        ≡ codes "headers unscanned 0 short 3 length 0 undefined 0 arp 0 ipv4 0 ipv6 0 other 0 badip 0 tagged 0 tcp 0 udp 0\n"
        ++ codes "tap port none\n"
        ++ codes "total entries 0 malformed 0 unlisted 0 unlisted_samples 0 other 0 taps_ended 1\n" }
{}
