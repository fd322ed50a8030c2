// What holds of the grammar: bytes are read in one way.
ghost use Rattle.std.specs.Prelude.{◌≡◌, ℕ, List, Ok, Err};
ghost use Rattle.wire_spec.specs.declared.pad.Pad.{Pad};
ghost use Rattle.wire_spec.specs.declared.fault.Fault.{Fault};
ghost use Rattle.wire_spec.specs.Bytes.{AreBytes};
ghost use Rattle.wire_spec.specs.Exactly.{OneOfEither};
ghost use Rattle.wire_spec.specs.Shapes.{Shape, Tree, Trees};
ghost use Rattle.wire_spec.specs.Heads.{Head, datagram_tree};
ghost use Rattle.wire_spec.specs.Fails.{Remaining, Fails, IsWithin};
ghost use Rattle.wire_spec.specs.Whole.{from_start, SpellsWhole, FailsWhole, SpellsFront, whole_reading};
ghost use Rattle.wire_spec.specs.Tables.{datagram};

/// Bytes from any place on begin with exactly one value of a shape and have no fault, or they have exactly one
/// fault and no value.
pub fn one_reading_of_a_front()
    ensures { (p : Pad) (s : Shape) (b : Remaining) → AreBytes b.bytes
        → OneOfEither (SpellsFront p s b.bytes) (Fails p s b) }
{}

/// The same of bytes that are one value as a whole.
pub fn one_reading_of_a_whole()
    ensures { (p : Pad) (s : Shape) (bytes : List ℕ) → AreBytes bytes
        → OneOfEither (SpellsWhole p s bytes) (FailsWhole p s bytes) }
{}

/// The same of a datagram: the bytes are exactly one datagram, or have exactly one first fault.
pub fn one_reading_of_a_datagram()
    ensures { (p : Pad) (bytes : List ℕ) → AreBytes bytes
        → OneOfEither (SpellsWhole p datagram bytes) (FailsWhole p datagram bytes) }
{}

/// A datagram has one head and one list of samples.
pub fn one_head_of_a_datagram()
    ensures { (p : Pad) (bytes : List ℕ) (g h : Head) (s t : Trees)
        → SpellsWhole p datagram bytes (datagram_tree g s) → SpellsWhole p datagram bytes (datagram_tree h t)
        → (g ≡ h) × (s ≡ t) }
{}

/// A fault stands within the bytes or right behind them, and what is short has fewer bytes left than it needs.
pub fn faults_stand_within_the_bytes()
    ensures front { (p : Pad) (s : Shape) (b : Remaining) (f : Fault) → Fails p s b f → IsWithin b f }
    ensures whole { (p : Pad) (s : Shape) (bytes : List ℕ) (f : Fault) → FailsWhole p s bytes f
        → IsWithin (from_start bytes) f }
{}

/// Reading from the front on finds that value or that fault.
pub fn reading_finds_what_is_there()
    ensures value { (p : Pad) (s : Shape) (bytes : List ℕ) (t : Tree) → SpellsWhole p s bytes t
        → whole_reading p s bytes ≡ Ok t }
    ensures fault { (p : Pad) (s : Shape) (bytes : List ℕ) (f : Fault) → FailsWhole p s bytes f
        → whole_reading p s bytes ≡ Err f }
    ensures spelled { (p : Pad) (s : Shape) (bytes : List ℕ) (t : Tree) → AreBytes bytes
        → whole_reading p s bytes ≡ Ok t → SpellsWhole p s bytes t }
    ensures fails { (p : Pad) (s : Shape) (bytes : List ℕ) (f : Fault) → AreBytes bytes
        → whole_reading p s bytes ≡ Err f → FailsWhole p s bytes f }
{}
