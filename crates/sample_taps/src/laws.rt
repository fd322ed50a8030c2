//! Laws of the totals and of the briefs of a run.
ghost use Rattle.std.specs.Prelude.{◌≡◌, ◌<◌, ◌^◌, Bool, List, ◌++◌, length};
ghost use Rattle.std.specs.List.{count_by};
ghost use Rattle.header_lanes.specs.declared.header.HeaderFacts.{HeaderFacts};
ghost use Rattle.sample_taps.specs.Classes.{counted, classes, headers_counted, with_headers};

/// Up to 2^64 - 1 headers each total is how many headers are of its class, and each header is of exactly one kind.
/// Headers may be counted one after the other.
pub fn classes_are_counts()
    ensures exact { (test : HeaderFacts → Bool) (headers : List HeaderFacts) → length headers < 2 ^ 64
        → counted test headers ≡ count_by test headers }
    ensures one_kind { (headers : List HeaderFacts) → length headers < 2 ^ 64
        → headers_counted (classes headers) ≡ length headers }
    ensures in_turn { (before after : List HeaderFacts) → with_headers (classes before) after ≡ classes (before ++ after) }
{}
