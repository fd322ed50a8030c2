// The laws of captures. Each is a function with nothing to do, whose contract is the law.
ghost use Rattle.std.specs.Prelude.{◌≡◌, ◌↔◌, ℕ, ◌+◌, ◌≤◌, List, [], ◌∷◌, ◌++◌, length};
ghost use Rattle.wire_spec.specs.declared.input_kind.InputKind.{InputKind};
ghost use Rattle.wire_spec.specs.declared.input_kind.InputKind.TheVariants.{Magic, Version, Cut, Long, Padding};
ghost use Rattle.wire_spec.specs.Bytes.{AreBytes};
ghost use Rattle.wire_spec.specs.Captures.{Entry, Capture, CaptureFault, CaptureThen, HasOneReading, capture_bytes, capture_header, entry_bytes};
ghost use Rattle.wire_spec.specs.CaptureReading.{Front, IsFront, Stops, Holds, Breaks, front_of, capture_reading, entry_length};
ghost use Rattle.wire_spec.specs.CaptureRows.{other_magic, other_version, cut_version, empty_capture, cut_capture, cut_length, cut_padding, cut_bad_padding, long_capture, badly_padded_capture, padded_capture, whole_capture, datagram, cut_datagram, entry_of};

/// Bytes are a capture of exactly one list of entries and have no fault, or they have exactly one
/// fault, of one kind and at one offset, and are a capture of no entries.
pub fn one_capture_reading()
    ensures { (bytes : List ℕ) → AreBytes bytes → HasOneReading bytes }
{}

/// The reading gives entries exactly where the bytes are a capture of them, and a fault exactly
/// where the bytes have it.
pub fn reading_is_the_capture()
    ensures entries { (bytes : List ℕ) (entries : List Entry) → AreBytes bytes
        → (capture_reading bytes ≡ Ok entries) ↔ Capture entries bytes }
    ensures fault { (bytes : List ℕ) (offset : ℕ) (kind : InputKind) → AreBytes bytes
        → (capture_reading bytes ≡ Err (offset, kind)) ↔ CaptureFault bytes offset kind }
{}

/// The offset of a fault is that of a byte, or that of the end.
pub fn fault_is_within()
    ensures { (bytes : List ℕ) (offset : ℕ) (kind : InputKind) → CaptureFault bytes offset kind
        → offset ≤ length bytes }
{}

/// What is read at the front of some bytes stands there, and what stands there is read.
pub fn front_is_read()
    ensures stands { (rest : List ℕ) → AreBytes rest → IsFront rest (front_of rest) }
    ensures read { (rest : List ℕ) (front : Front) → IsFront rest front → front_of rest ≡ front }
{}

/// Entry after entry, from the header on: an entry at the front joins those before it, at the end of
/// the input they are all, and a broken entry is the fault.
pub fn capture_walk()
    ensures begins { (rest : List ℕ) → CaptureThen [] rest (capture_header 1 ++ rest) }
    ensures goes_on { (entries : List Entry) (e : Entry) (rest more bytes : List ℕ) → AreBytes bytes
        → CaptureThen entries rest bytes → front_of rest ≡ Holds e more
        → CaptureThen (entries ++ e ∷ []) more bytes }
    ensures stops { (entries : List Entry) (rest bytes : List ℕ) → AreBytes bytes
        → CaptureThen entries rest bytes → front_of rest ≡ Stops → Capture entries bytes }
    ensures breaks { (entries : List Entry) (rest bytes : List ℕ) (within : ℕ) (kind : InputKind)
        → AreBytes bytes → CaptureThen entries rest bytes → front_of rest ≡ Breaks within kind
        → CaptureFault bytes (length (capture_bytes entries) + within) kind }
{}

/// A capture grows by the bytes of each further entry. An entry has twelve bytes, its own bytes and
/// their padding.
pub fn capture_grows()
    ensures header { capture_bytes [] ≡ capture_header 1 }
    ensures grows { (entries : List Entry) (e : Entry)
        → capture_bytes (entries ++ e ∷ []) ≡ capture_bytes entries ++ entry_bytes e }
    ensures number { (e : Entry) → length (entry_bytes e) ≡ entry_length e }
{}

/// Worked captures and faults, each computed by the check.
pub fn capture_rows()
    ensures wrong_magic { CaptureFault other_magic 0 Magic }
    ensures wrong_version { CaptureFault other_version 4 Version }
    ensures half_version { CaptureFault cut_version 4 Version }
    ensures no_bytes { CaptureFault [] 0 Magic }
    ensures cut_arrival { CaptureFault cut_capture 8 Cut }
    ensures half_length { CaptureFault cut_length 8 Cut }
    ensures half_padding { CaptureFault cut_padding 8 Cut }
    ensures stray_before_end { CaptureFault cut_bad_padding 22 Padding }
    ensures long_length { CaptureFault long_capture 16 Long }
    ensures stray_padding { CaptureFault badly_padded_capture 47 Padding }
    ensures no_entries { Capture [] empty_capture }
    ensures one_entry { Capture (entry_of datagram ∷ []) whole_capture }
    ensures padded_entry { Capture (entry_of cut_datagram ∷ []) padded_capture }
{}
