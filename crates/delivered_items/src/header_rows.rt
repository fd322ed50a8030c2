//! Worked rows of the headers that count, computed by the check: by the books of what arrives, and by the account of what was
//! sent. Deliveries have the latest first.

ghost use Rattle.std.specs.Prelude.{◌≡◌, [], ◌∷◌, map};
ghost use Rattle.books_spec.specs.SampledHeaders.{first_headers};
ghost use Rattle.account_spec.specs.Rows.{usual};
ghost use Rattle.sample_taps.specs.Classes.{no_classes};
ghost use Rattle.sample_taps.specs.BookBriefs.{book_classes};
ghost use Rattle.delivered_items.specs.PacketHeaders.{headered};
ghost use Rattle.delivered_items.specs.AccountHeaders.{account_headers, account_classes};
ghost use Rattle.delivered_items.specs.WholeRows.{whole_deliveries};
ghost use Rattle.delivered_items.specs.HeaderRows.{kinds_delivered, narrow, udp_front, header_shown, three_headers};

/// Of two datagrams that come twice, the later one first, each header goes once, in order of arrival: UDP, TCP and ARP. A
/// counters sample has none, and of a header 128 bytes are shown.
pub fn headers_of_kinds_row()
    ensures books { first_headers usual (map headered kinds_delivered) ≡ three_headers }
    ensures account { account_headers usual kinds_delivered ≡ three_headers }
    ensures classes { account_classes usual kinds_delivered
        ≡ record no_classes { arp = 1; ipv4 = 1; ipv6 = 1; tagged = 1; tcp = 1; udp = 1 } }
{}

/// Where the samples of the first datagram come too late behind that of the second, its headers don't count.
pub fn late_headers_row()
    ensures books { first_headers narrow (map headered kinds_delivered) ≡ header_shown 158 udp_front ∷ [] }
    ensures account { account_headers narrow kinds_delivered ≡ header_shown 158 udp_front ∷ [] }
    ensures classes { account_classes narrow kinds_delivered ≡ record no_classes { ipv6 = 1; udp = 1 } }
{}

/// Of the worked history seven flow samples count, each of a packet of whose header nothing is known.
pub fn whole_classes_row()
    ensures books { book_classes usual (map headered whole_deliveries) ≡ record no_classes { short = 7 } }
    ensures account { account_classes usual whole_deliveries ≡ record no_classes { short = 7 } }
{}
