ghost use Rattle.std.specs.Prelude.{ℕ, List};
ghost use Rattle.wire_spec.specs.Bytes.{AreBytes};
ghost use Rattle.wire_spec.specs.Exactly.{OneOfEither};
ghost use Rattle.as_paths.specs.Paths.{SpellsSegments, FailsSegments};

/// Bytes are so many segments of one value each, or have one first fault, and not both.
pub fn one_path_or_one_fault()
    ensures { (n : ℕ) (bytes : List ℕ) → AreBytes bytes → OneOfEither (SpellsSegments n bytes) (FailsSegments n bytes) }
{}
