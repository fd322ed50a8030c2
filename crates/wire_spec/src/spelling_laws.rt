// What holds of spellings: each lawful value has one with zero padding, and is read from it again.
ghost use Rattle.std.specs.Prelude.{◌≡◌, ◌≤◌, ℕ, List, Ok, length};
ghost use Rattle.wire_spec.specs.declared.pad.Pad.{Pad};
ghost use Rattle.wire_spec.specs.declared.pad.Pad.TheVariants.{Any, Zero};
ghost use Rattle.wire_spec.specs.Bytes.{AreBytes};
ghost use Rattle.wire_spec.specs.Shapes.{Shape, Tree};
ghost use Rattle.wire_spec.specs.Spells.{Spells};
ghost use Rattle.wire_spec.specs.Spelling.{spell, IsLawful};
ghost use Rattle.wire_spec.specs.Whole.{SpellsWhole, whole_reading};

/// A value is lawful exactly where bytes spell it; then its spelling does, under both readings of padding.
pub fn lawful_values_are_spelled()
    ensures spelled { (p : Pad) (s : Shape) (t : Tree) → IsLawful s t → Spells p s t (spell t) }
    ensures lawful { (p : Pad) (s : Shape) (t : Tree) (bytes : List ℕ) → Spells p s t bytes → IsLawful s t }
{}

/// With zero padding a value has one spelling.
pub fn one_spelling_with_zero_padding()
    ensures { (s : Shape) (t : Tree) (bytes : List ℕ) → Spells Zero s t bytes → bytes ≡ spell t }
{}

/// All spellings of a value have the same length.
pub fn spellings_have_one_length()
    ensures { (p : Pad) (s : Shape) (t : Tree) (bytes : List ℕ) → Spells p s t bytes
        → length bytes ≡ length (spell t) }
{}

/// What is spelled with zero padding is spelled also where padding is free.
pub fn free_padding_takes_zero_padding()
    ensures { (p : Pad) (s : Shape) (t : Tree) (bytes : List ℕ) → Spells p s t bytes → Spells Any s t bytes }
{}

/// A lawful value is read from its spelling, and with zero padding what was read is spelled as it was.
pub fn spelling_and_reading_are_inverse()
    ensures read_again { (p : Pad) (s : Shape) (t : Tree) → IsLawful s t → length (spell t) ≤ 65535
        → whole_reading p s (spell t) ≡ Ok t }
    ensures spelled_again { (s : Shape) (bytes : List ℕ) (t : Tree) → SpellsWhole Zero s bytes t → spell t ≡ bytes }
{}
