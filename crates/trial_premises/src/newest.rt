ghost use Rattle.std.specs.Prelude.{◌≡◌, ◌<◌, ◌≤◌, ◌==◌, ◌&&◌, ℕ, cond, length, Some, None, pos, ◌+ℤ◌, int_lt, IfOk, []};
ghost use Rattle.trial_spec.specs.Newest.{is_close_to};
ghost use Rattle.trial_premises.specs.ByIndex.{kept};
ghost use Rattle.trial_premises.specs.Newest.{as_int, newer_of};

use crate::by_index::ByIndex;
use std::alloc::{AllocError, Global};

/// The newest number of each index, as of each boot, or of each generation of a source.
#[derive(Drop)]
pub struct NewestNumbers {
    numbers: ByIndex<u128>,
}

impl NewestNumbers {
    /// No index has a number.
    pub fn new(alloc: Global) -> NewestNumbers
        ensures { result.numbers.slots.items ≡ [] }
    {
        NewestNumbers {
            numbers: ByIndex::new(alloc),
        }
    }

    /// Makes room for this index. Where there is no memory, each index keeps its number too.
    pub fn reserve(&mut self, index: u64) -> Result<(), AllocError>
        ensures same { (i : ℕ) → kept self.new.numbers.slots.items i ≡ kept self.old.numbers.slots.items i }
        ensures room { IfOk result (λ _. index < length self.new.numbers.slots.items) }
        ensures more { length self.old.numbers.slots.items ≤ length self.new.numbers.slots.items }
    {
        self.numbers.reserve(index)
    }

    /// Whether a number is less than 2^31 from the newest of its index, if there is one.
    pub fn is_close(&self, index: u64, number: u128) -> bool
        ensures { result ≡ is_close_to (as_int (kept self.now.numbers.slots.items index)) (pos number) }
    {
        is_close(self.numbers.get(index), number)
    }

    /// Enters a number of an index for which there is room.
    pub fn enter(&mut self, index: u64, number: u128)
        requires { index < length self.old.numbers.slots.items }
        ensures values { (i : ℕ) → kept self.new.numbers.slots.items i
            ≡ cond (index == i) (Some (newer_of (kept self.old.numbers.slots.items index) number))
            (kept self.old.numbers.slots.items i) }
        ensures room { length self.new.numbers.slots.items ≡ length self.old.numbers.slots.items }
    {
        let newest = newer(self.numbers.get(index), number);
        self.numbers.set(index, newest);
    }

    /// No index has a number any more; the room stays.
    pub fn clear(&mut self)
        ensures values { (i : ℕ) → kept self.new.numbers.slots.items i ≡ None }
        ensures room { length self.new.numbers.slots.items ≡ length self.old.numbers.slots.items }
    {
        self.numbers.clear();
    }
}

// Numbers that are this far apart, or farther, aren't told apart by 32 bits.
const HALF: u128 = 1 << 31;

// Whether a number is less than 2^31 from that one, if there is one.
fn is_close(newest: Option<u128>, number: u128) -> bool
    ensures { result ≡ is_close_to (as_int newest) (pos number) }
{
    match newest {
        Some(newest) => is_less_ahead(number, newest) && is_less_ahead(newest, number),
        None => true,
    }
}

// Whether a number is less than 2^31 ahead of another.
#[tactic(auto, using(crate::proofs::Numbers::less_ahead))]
fn is_less_ahead(number: u128, from: u128) -> bool
    ensures { result ≡ int_lt (pos number) (pos from +ℤ pos 2147483648) }
{
    number.saturating_sub(from) < HALF
}

/// The newer one of a number and that one, if there is one.
pub fn newer(newest: Option<u128>, number: u128) -> u128
    ensures { result ≡ newer_of newest number }
{
    match newest {
        Some(newest) => { if newest < number { number } else { newest } }
        None => number,
    }
}

/// Both of two answers that were found already.
pub fn both(first: bool, second: bool) -> bool
    ensures { result ≡ (first && second) }
{
    first && second
}
