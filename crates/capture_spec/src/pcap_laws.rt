// The laws of pcap files. Each is a function with nothing to do, whose contract is the law.
ghost use Rattle.std.specs.Prelude.{◌≡◌, ◌↔◌, ℕ, List, [], ◌∷◌, ◌++◌, take, Ok, Err};
ghost use Rattle.wire_spec.specs.declared.input_kind.InputKind.{InputKind};
ghost use Rattle.wire_spec.specs.declared.input_kind.InputKind.TheVariants.{Magic, Version, Link, Long, Cut};
ghost use Rattle.capture_spec.specs.PcapFiles.{Packet, PcapFile, PcapFault, HasOneReading};
ghost use Rattle.capture_spec.specs.PcapReading.{pcap_reading};
ghost use Rattle.capture_spec.specs.PayloadRows.{whole};
ghost use Rattle.capture_spec.specs.PcapRows.{low_header, low_words, low_file, high_header, high_words, high_file, packet_of, nanosecond_magic, pcapng_magic, other_version, mixed_version, other_link, long_packet};

/// Bytes are a pcap file of exactly one list of packets and have no fault, or they have exactly one
/// fault, of one kind and at one offset, and are a file of no packets.
pub fn one_pcap_reading()
    ensures { (bytes : List ℕ) → HasOneReading bytes }
{}

/// The reading gives packets exactly where the bytes are a file of them, and a fault exactly where
/// the bytes have it.
pub fn pcap_reading_is_the_file()
    ensures packets { (bytes : List ℕ) (packets : List Packet)
        → (pcap_reading bytes ≡ Ok packets) ↔ PcapFile bytes packets }
    ensures fault { (bytes : List ℕ) (offset : ℕ) (kind : InputKind)
        → (pcap_reading bytes ≡ Err (offset, kind)) ↔ PcapFault bytes offset kind }
{}

/// Worked files and faults, each computed by the check.
#[tactic(auto, unfolding(crate::specs::PcapReading::pcap_reading, crate::specs::PcapReading::reading_in, crate::specs::PcapReading::packets_reading, crate::specs::PcapFiles::front_of, crate::specs::PcapFiles::front_of_packet, crate::specs::PcapFiles::front_of_bytes))]
pub fn pcap_rows()
    ensures low_first { pcap_reading low_file ≡ Ok (packet_of whole ∷ []) }
    ensures high_first { pcap_reading high_file ≡ Ok (packet_of whole ∷ []) }
    ensures two { pcap_reading (low_file ++ low_words 0) ≡ Ok (packet_of whole ∷ packet_of [] ∷ []) }
    ensures no_packets { pcap_reading low_header ≡ Ok [] }
    ensures no_bytes { pcap_reading [] ≡ Err (0, Magic) }
    ensures nanoseconds { pcap_reading nanosecond_magic ≡ Err (0, Magic) }
    ensures pcapng { pcap_reading pcapng_magic ≡ Err (0, Magic) }
    ensures cut_magic { pcap_reading (take 3 low_header) ≡ Err (0, Magic) }
    ensures version { pcap_reading other_version ≡ Err (4, Version) }
    ensures mixed_orders { pcap_reading mixed_version ≡ Err (4, Version) }
    ensures cut_version { pcap_reading (take 7 low_header) ≡ Err (4, Version) }
    ensures link { pcap_reading other_link ≡ Err (20, Link) }
    ensures cut_link { pcap_reading (take 23 high_header) ≡ Err (20, Link) }
    ensures cut_bytes { pcap_reading (take 109 low_file) ≡ Err (24, Cut) }
    ensures cut_words { pcap_reading (low_file ++ take 15 (low_words 70)) ≡ Err (110, Cut) }
    ensures cut_length { pcap_reading (high_file ++ take 11 (high_words 4 1)) ≡ Err (110, Cut) }
    ensures long { pcap_reading long_packet ≡ Err (118, Long) }
{}
