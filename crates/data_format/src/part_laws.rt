ghost use Rattle.std.specs.Prelude.{ℕ, ◌+◌, List};
ghost use Rattle.data_format.specs.Ranges.{IsRange};

/// A part of a body that is a range of some bytes is a range of these bytes itself.
pub fn parts_within_ranges()
    ensures { (whole body part : List ℕ) (at place : ℕ) → IsRange whole at body → IsRange body place part
        → IsRange whole (at + place) part }
{}
