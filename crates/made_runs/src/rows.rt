//! Worked rows, computed by the check.

ghost use Rattle.std.specs.Prelude.{◌≡◌, [], ◌∷◌, take};
ghost use Rattle.trial_spec.specs.Made.{made_flow, made_packet, next_state, begun};
ghost use Rattle.trial_spec.specs.MadeRows.{packet_of};

/// The first draws of the seed 7, which are skip numbers.
pub fn skip_rows()
    ensures state { next_state 7 ≡ 9098160460397411210 }
    ensures skips { take 8 (made_flow 7).skips ≡ 19 ∷ 6 ∷ 18 ∷ 12 ∷ 6 ∷ 16 ∷ 13 ∷ 14 ∷ [] }
    ensures behind { (begun 7).state ≡ 8088116284089946183 }
{}

/// The first packet of the seed 7.
pub fn packet_row()
    ensures { made_packet (begun 7).state ≡ packet_of 144 (
        137 ∷ 212 ∷ 179 ∷ 120 ∷ 162 ∷ 169 ∷ 38 ∷ 70 ∷ 3 ∷ 136 ∷ 205 ∷ 70 ∷ 245 ∷ 82 ∷ 182 ∷ 168 ∷ 239 ∷ 96
        ∷ 80 ∷ 17 ∷ 63 ∷ 34 ∷ 211 ∷ 175 ∷ 3 ∷ 189 ∷ 161 ∷ 93 ∷ 66 ∷ 88 ∷ 6 ∷ 99 ∷ []) }
{}
