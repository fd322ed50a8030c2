// The laws of captures of both versions. Each is a function with nothing to do, whose contract is the law.
ghost use Rattle.std.specs.Prelude.{◌≡◌, ◌↔◌, ℕ, List, [], ◌∷◌, ◌++◌, None, Ok, Err};
ghost use Rattle.wire_spec.specs.declared.input_kind.InputKind.{InputKind};
ghost use Rattle.wire_spec.specs.declared.input_kind.InputKind.TheVariants.{Magic, Version, Cut, Long, Padding, Item, Address, Port, Count, After};
ghost use Rattle.wire_spec.specs.Bytes.{AreBytes};
ghost use Rattle.wire_spec.specs.CaptureRows.{one_second, datagram, cut_datagram, whole_capture, long_capture};
ghost use Rattle.capture_spec.specs.declared.capture_version.CaptureVersion.{CaptureVersion};
ghost use Rattle.capture_spec.specs.declared.capture_version.CaptureVersion.TheVariants.{One, Two};
ghost use Rattle.capture_spec.specs.Items.{Received, sent_by};
ghost use Rattle.capture_spec.specs.VersionedCaptures.{HasOneCapture, ReceivedAll, ReceivedFault};
ghost use Rattle.capture_spec.specs.ItemReading.{Front, IsFrontAt, front_in, received_reading};
ghost use Rattle.capture_spec.specs.VersionedRows.{header, item, no_sender, some_sender, whole, end_word, number, opened, capture, from_nobody, from_host};

/// Bytes are a capture of exactly one version and one list of entries and have no fault, or they have
/// exactly one fault, of one kind and at one offset, and are a capture of nothing.
pub fn one_capture()
    ensures { (bytes : List ℕ) → AreBytes bytes → HasOneCapture bytes }
{}

/// The reading gives a version and entries exactly where the bytes are a capture of them, and a fault
/// exactly where the bytes have it.
pub fn received_reading_is_the_capture()
    ensures entries { (bytes : List ℕ) (v : CaptureVersion) (entries : List Received) → AreBytes bytes
        → (received_reading bytes ≡ Ok (v, entries)) ↔ ReceivedAll v entries bytes }
    ensures fault { (bytes : List ℕ) (offset : ℕ) (kind : InputKind) → AreBytes bytes
        → (received_reading bytes ≡ Err (offset, kind)) ↔ ReceivedFault bytes offset kind }
{}

/// What is read behind some entries stands there, and what stands there is read.
pub fn item_is_read()
    ensures stands { (v : CaptureVersion) (count : ℕ) (rest : List ℕ) → AreBytes rest
        → IsFrontAt v count rest (front_in v count rest) }
    ensures read { (v : CaptureVersion) (count : ℕ) (rest : List ℕ) (front : Front)
        → IsFrontAt v count rest front → front_in v count rest ≡ front }
{}

/// Worked captures and faults, each computed by the check.
#[tactic(auto, unfolding(crate::specs::ItemReading::received_reading, crate::specs::ItemReading::all_reading, crate::specs::ItemReading::front_of_item, crate::specs::ItemReading::front_of_end, crate::specs::ItemReading::front_of_head, crate::specs::ItemReading::front_of_address, crate::specs::ItemReading::front_of_port, crate::specs::ItemReading::front_of_tail, crate::specs::Items::hyper, crate::specs::Items::word, crate::specs::Items::sent_bytes, crate::specs::Items::item_front, crate::specs::Items::item_head, crate::specs::Items::datagram_bytes, wire_spec::specs::CaptureReading::front_of, wire_spec::specs::CaptureReading::front_of_entry, wire_spec::specs::CaptureReading::front_of_body, wire_spec::specs::CaptureReading::front_of_padding))]
pub fn version_rows()
    ensures one_entry { received_reading capture ≡ Ok (Two, from_nobody datagram ∷ []) }
    ensures one_sender { received_reading (header ++ (item ++ (some_sender ++ (whole ++ (end_word ++ number 1)))))
        ≡ Ok (Two, from_host datagram ∷ []) }
    ensures no_entries { received_reading (header ++ (end_word ++ number 0)) ≡ Ok (Two, []) }
    ensures first_version { received_reading whole_capture
        ≡ Ok (One, record { arrival = 1000; sender = None; bytes = datagram } ∷ []) }
    ensures magic { received_reading (0 ∷ header) ≡ Err (0, Magic) }
    ensures version { received_reading (0x53 ∷ 0x46 ∷ 0x4c ∷ 0x43 ∷ 0 ∷ 0 ∷ 0 ∷ 3 ∷ []) ≡ Err (4, Version) }
    ensures no_items { received_reading header ≡ Err (8, Cut) }
    ensures no_end { received_reading opened ≡ Err (60, Cut) }
    ensures cut_end { received_reading (opened ++ (end_word ++ 0 ∷ [])) ≡ Err (60, Cut) }
    ensures cut_sender { received_reading (header ++ (item ++ 0 ∷ 0 ∷ 0 ∷ 2 ∷ number 9)) ≡ Err (8, Cut) }
    ensures other_item { received_reading (opened ++ 0 ∷ 0 ∷ 0 ∷ 2 ∷ number 1) ≡ Err (60, Item) }
    ensures other_address { received_reading (header ++ (item ++ 0 ∷ 0 ∷ 0 ∷ 3 ∷ 0 ∷ 0 ∷ 0 ∷ 0 ∷ whole)) ≡ Err (20, Address) }
    ensures long_port { received_reading (header ++ (item ++ 0 ∷ 0 ∷ 0 ∷ 0 ∷ 0 ∷ 1 ∷ 0 ∷ 0 ∷ whole)) ≡ Err (24, Port) }
    ensures long_length { received_reading (header ++ (item ++ (some_sender ++ 0 ∷ 1 ∷ 0 ∷ 0 ∷ []))) ≡ Err (32, Long) }
    ensures stray_padding { received_reading (header ++ (item ++ (no_sender ++ 0 ∷ 0 ∷ 0 ∷ 1 ∷ 7 ∷ 0 ∷ 9 ∷ [])))
        ≡ Err (34, Padding) }
    ensures other_count { received_reading (opened ++ (end_word ++ number 2)) ≡ Err (64, Count) }
    ensures goes_on { received_reading (capture ++ 0 ∷ []) ≡ Err (72, After) }
    ensures count_before_after { received_reading (opened ++ (end_word ++ (number 2 ++ 0 ∷ []))) ≡ Err (64, Count) }
{}
