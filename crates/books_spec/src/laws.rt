//! The laws. Each list has the latest first, and boots the current boot first.

ghost use Rattle.std.specs.Prelude.{◌≡◌, ℕ, ◌+◌, ◌*◌, ◌^◌, ◌≤◌, List, [], ◌∷◌, length};
ghost use Rattle.std.specs.List.{sum_by};
ghost use Rattle.books_spec.specs.Views.{figures_of, closing, closed_figures, figures_over, rise_over, last_value};

/// Each number issued over all boots was received, is pending, or is lost.
pub fn issued_is_conserved()
    ensures { (width : ℕ) (boots : List (List ℕ)) →
        let f = figures_over width boots in f.issued ≡ f.received + f.pending + f.lost }
{}

/// Each mark is received, or a Repeat, or Late.
pub fn marks_are_conserved()
    ensures { (width : ℕ) (boots : List (List ℕ)) →
        let f = figures_over width boots in f.received + f.repeated + f.late ≡ sum_by length boots }
{}

/// Nothing is pending but in the current boot.
pub fn only_the_current_boot_has_pending()
    ensures { (width : ℕ) (current : List ℕ) (closed : List (List ℕ)) →
        (figures_over width (current ∷ closed)).pending ≡ (figures_of width current).pending }
{}

/// A boot without items, after the others, makes lost what was pending, and changes nothing else.
pub fn a_new_boot_closes_the_last()
    ensures closes { (width : ℕ) (boots : List (List ℕ)) →
        figures_over width ([] ∷ boots) ≡ closing (figures_over width boots) }
    ensures closed { (width : ℕ) (boots : List (List ℕ)) →
        figures_over width ([] ∷ boots) ≡ closed_figures width boots }
{}

/// A boot without items has no rise, and leaves the last value as it is.
pub fn a_new_boot_has_no_values<T>()
    ensures rise { (mark value : T → ℕ) (width : ℕ) (boots : List (List T)) →
        rise_over mark value width ([] ∷ boots) ≡ rise_over mark value width boots }
    ensures last { (mark value : T → ℕ) (width : ℕ) (boots : List (List T)) →
        last_value mark value width ([] ∷ boots) ≡ last_value mark value width boots }
{}

/// A rise over boots is at most 2^32 for each item.
pub fn rise_is_bounded<T>()
    ensures { (mark value : T → ℕ) (width : ℕ) (boots : List (List T)) →
        rise_over mark value width boots ≤ 2 ^ 32 * sum_by length boots }
{}
