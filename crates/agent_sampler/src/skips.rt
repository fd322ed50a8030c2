ghost use Rattle.std.specs.Prelude.{◌≡◌, ◌↔◌, ◌⊎◌, ◌<◌, ◌≤◌, ◌%◌, ℕ, suc, length, get_or, Contains, IsNone, IfSome};
ghost use Rattle.agent_sampler.specs.declared.skips.TheConstants.{MAX_SKIPS};

use arrayvec::ArrayVec;
use std::marker::Model;

/// How many skip numbers a list has at most.
pub const MAX_SKIPS: usize = 1024;

/// Skip numbers, which are taken cyclically: each is the number of packets from one mark to the next.
#[derive(Drop)]
pub struct Skips {
    numbers: ArrayVec<u32, MAX_SKIPS>,
}

impl Model for Skips {
    ghost use Rattle.std.specs.Prelude.{List, ℕ};

    ghost Value = { List ℕ };

    ghost use Rattle.agent_sampler.specs.Skips.{AreSkips};

    ghost view = { λ s. s.numbers.items };

    ghost invariant = { λ s. AreSkips s.numbers.items };
}

impl Skips {
    /// The skip numbers of a list; `None` exactly where it is empty, has more than `MAX_SKIPS` numbers, or has a 0.
    pub fn new(list: &[u32]) -> Option<Skips>
        ensures none { IsNone result ↔
            ((length list.now ≡ 0) ⊎ (MAX_SKIPS < length list.now) ⊎ Contains list.now 0) }
        ensures some { IfSome result (λ s. s ≡ list.now) }
    {
        if list.is_empty() || list.len() > MAX_SKIPS || list.contains(&0) {
            return None;
        }
        let mut numbers = ArrayVec::new();
        if numbers.try_extend_from_slice(list).is_err() {
            return None;
        }
        Some(Skips { numbers })
    }

    /// The number in this place, counted from 0.
    pub(crate) fn number(&self, place: usize) -> u32
        requires { place < length self.now }
        ensures value { result ≡ get_or self.now place 0 }
        ensures some { 1 ≤ result }
    {
        self.numbers[place]
    }

    /// The place behind this one; the first one stands behind the last.
    pub(crate) fn behind(&self, place: usize) -> usize
        requires { place < length self.now }
        ensures in_list { result < length self.now }
        ensures cyclic { (k : ℕ) → place ≡ k % length self.now → result ≡ suc k % length self.now }
    {
        let last = self.numbers.len() - 1;
        if place < last { place + 1 } else { 0 }
    }
}
