// Numbers that are drawn from the state of a linear congruential generator of 64 bits.
ghost use Rattle.std.specs.Prelude.{◌≡◌, ◌<◌, length};
ghost use Rattle.trial_spec.specs.Made.{next_state, drawn, all_drawn, state_after};

const FACTOR: u128 = 6_364_136_223_846_793_005;

const STEP: u128 = 1_442_695_040_888_963_407;

/// The draws from a seed on.
#[derive(Clone, Copy, Drop)]
pub(crate) struct Draws {
    pub(crate) state: u64,
}

impl Draws {
    /// The next number below `count`.
    pub(crate) fn below(&mut self, count: u64) -> u64
        requires { 0 < count }
        ensures state { self.new.state ≡ next_state self.old.state }
        ensures number { result ≡ drawn count (next_state self.old.state) }
        ensures below { result < count }
    {
        let next = (self.state as u128 * FACTOR + STEP) % 18_446_744_073_709_551_616;
        self.state = next as u64;
        self.state / 8_589_934_592 % count
    }

    /// Draws a byte for each place.
    pub(crate) fn fill(&mut self, bytes: &mut [u8])
        ensures state { self.new.state ≡ state_after (length bytes.old) self.old.state }
        ensures bytes { bytes.new ≡ all_drawn (length bytes.old) 256 self.old.state }
    {
        for place in 0..bytes.len() {
            bytes[place] = self.below(256) as u8;
        }
    }
}
