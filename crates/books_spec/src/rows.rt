//! Worked rows, computed by the check, under windows of width 64. Each list has the latest first, and boots the
//! current boot first.

ghost use Rattle.std.specs.Prelude.{◌≡◌, [], ◌∷◌};
ghost use Rattle.books_spec.specs.Views.{figures_over, view_with};
ghost use Rattle.books_spec.specs.Rows.{figures, reading, view_of};

/// The figures of marks over boots: issued, received, pending, lost, repeated and late.
#[tactic(auto, unfolding(count_spec::specs::Parts::between))]
pub fn figures_rows()
    ensures none { figures_over 64 [] ≡ figures 0 0 0 0 0 0 }
    ensures three_times { figures_over 64 ((1 ∷ 1 ∷ 1 ∷ []) ∷ []) ≡ figures 1 1 0 0 2 0 }
    ensures late { figures_over 64 ((36 ∷ 100 ∷ []) ∷ []) ≡ figures 1 1 0 0 0 1 }
    ensures one_is_pending { figures_over 64 ((7 ∷ 5 ∷ []) ∷ []) ≡ figures 3 2 1 0 0 0 }
    ensures and_lost_after_a_restart { figures_over 64 ((1 ∷ []) ∷ (7 ∷ 5 ∷ []) ∷ []) ≡ figures 4 3 0 1 0 0 }
    ensures before_any_mark { figures_over 64 ([] ∷ (7 ∷ 5 ∷ []) ∷ []) ≡ figures 3 2 0 1 0 0 }
    ensures boots_without_marks { figures_over 64 ((9 ∷ []) ∷ [] ∷ [] ∷ (7 ∷ 5 ∷ []) ∷ []) ≡ figures 4 3 0 1 0 0 }
{}

/// The views of flow samples over boots.
#[tactic(auto, unfolding(count_spec::specs::Parts::between))]
pub fn view_rows()
    ensures through_a_wrap { view_of ((reading 2 16 0 256 ∷ reading 1 4294967280 4294967295 256 ∷ []) ∷ [])
        ≡ view_with (figures 2 2 0 0 0 0) 32 1 256 }
    ensures twice_half_way_round { view_of ((reading 3 0 0 256 ∷ reading 2 2147483648 0 256 ∷ reading 1 0 0 256 ∷ [])
        ∷ [])
        ≡ view_with (figures 3 3 0 0 0 0) 4294967296 0 256 }
    ensures rate_of_the_greatest { view_of ((reading 1 4 0 100 ∷ reading 2 9 0 200 ∷ []) ∷ [])
        ≡ view_with (figures 2 2 0 0 0 0) 5 0 200 }
    ensures a_repeat_shows_nothing { view_of ((reading 2 99 7 300 ∷ reading 2 9 3 200 ∷ reading 1 4 3 200 ∷ []) ∷ [])
        ≡ view_with (figures 2 2 0 0 1 0) 5 0 200 }
    ensures each_boot_for_itself { view_of ((reading 2 8 0 50 ∷ reading 1 3 0 50 ∷ [])
        ∷ (reading 9 100 5 20 ∷ reading 8 90 2 20 ∷ []) ∷ [])
        ≡ view_with (figures 4 4 0 0 0 0) 15 3 50 }
    ensures rate_of_the_last_with_a_sample { view_of ([] ∷ [] ∷ (reading 9 100 5 20 ∷ []) ∷ (reading 9 1 1 70 ∷ [])
        ∷ [])
        ≡ view_with (figures 2 2 0 0 0 0) 0 0 20 }
{}
