ghost use Rattle.std.specs.Prelude.{◌≡◌, ◌<◌, ◌≤◌, ◌&&◌, ◌%◌, not, true, false, length, List, [], ◌∷◌, ℤ, Some, None, pos, IfOk};
ghost use Rattle.count_spec.specs.Windows.{has};
ghost use Rattle.account_spec.specs.TrueNumbers.{is_late, in_time};
ghost use Rattle.trial_premises.specs.Window.{StandsFor, is_behind, is_kept};

use crate::by_index::ByIndex;
use crate::newest::newer;
use std::alloc::{AllocError, Global};
use std::marker::Model;

/// Which datagrams of the current boot are delivered in time for the first time: a window over their true numbers.
///
/// A number above the newest less the width was counted exactly where its slot, that of its remainder by the width, has
/// it: of two numbers with one slot the less is too late once the greater was counted.
#[derive(Drop)]
pub struct TrueWindow {
    /// How wide it is, from 1 on.
    width: u32,
    /// The newest number, if there is one.
    newest: Option<u128>,
    /// The number that was counted last in each slot.
    slots: ByIndex<u128>,
}

impl Model for TrueWindow {
    ghost use Rattle.std.specs.Prelude.{◌≤◌, length};
    ghost use Rattle.trial_premises.specs.Window.{WindowState};

    ghost Value = { WindowState };

    ghost view = { λ w. record { width = w.width; newest = w.newest; slots = w.slots.slots.items } };

    ghost invariant = { λ w. (1 ≤ w.width) × (w.width ≤ length w.slots.slots.items) };
}

impl TrueWindow {
    /// No number was counted.
    pub fn open(alloc: Global, width: u32) -> Result<TrueWindow, AllocError>
        requires { 1 ≤ width }
        ensures { IfOk result (λ w. (w.width ≡ width) × StandsFor w []) }
    {
        let mut slots = ByIndex::new(alloc);
        slots.reserve(width as u64)?;
        Ok(TrueWindow {
            width,
            newest: None,
            slots,
        })
    }

    // A boot begins: no number was counted.
    fn clear(&mut self)
        ensures stands { StandsFor self.new [] }
        ensures width { self.new.width ≡ self.old.width }
    {
        self.newest = None;
        self.slots.clear();
    }

    /// Enters a number of the current boot, or where `begins` is true of one that begins with it, and answers whether it
    /// came in time for the first time.
    pub fn enter_in_boot(&mut self, begins: bool, number: u128) -> bool
        ensures stands { (numbers : List ℤ) → (begins ≡ true → numbers ≡ []) → (begins ≡ false → StandsFor self.old numbers)
            → StandsFor self.new (pos number ∷ numbers) }
        ensures answer { (numbers : List ℤ) → (begins ≡ true → numbers ≡ []) → (begins ≡ false → StandsFor self.old numbers)
            → result ≡ (not (is_late self.old.width numbers (pos number))
            && not (has (in_time self.old.width numbers) (pos number))) }
        ensures width { self.new.width ≡ self.old.width }
    {
        self.begin_if(begins);
        self.enter(number)
    }

    // Where this is true a boot begins.
    fn begin_if(&mut self, begins: bool)
        ensures stands { (numbers : List ℤ) → (begins ≡ true → numbers ≡ []) → (begins ≡ false → StandsFor self.old numbers)
            → StandsFor self.new numbers }
        ensures width { self.new.width ≡ self.old.width }
    {
        if begins {
            self.clear();
        }
    }

    // Enters a number, and answers whether it came in time for the first time.
    fn enter(&mut self, number: u128) -> bool
        ensures stands { (numbers : List ℤ) → StandsFor self.old numbers → StandsFor self.new (pos number ∷ numbers) }
        ensures answer { (numbers : List ℤ) → StandsFor self.old numbers
            → result ≡ (not (is_late self.old.width numbers (pos number))
            && not (has (in_time self.old.width numbers) (pos number))) }
        ensures width { self.new.width ≡ self.old.width }
    {
        if self.is_late(number) {
            return false;
        }
        let slot = self.slot(number);
        let is_new = !has_counted(self.slots.get(slot), number);
        self.slots.set(slot, number);
        self.newest = Some(newer(self.newest, number));
        is_new
    }

    // Whether a number is at most the newest less the width.
    fn is_late(&self, number: u128) -> bool
        ensures { result ≡ is_behind self.now.width self.now.newest number }
    {
        match self.newest {
            Some(newest) => number <= newest && newest - number >= self.width as u128,
            None => false,
        }
    }

    // The slot of a number.
    fn slot(&self, number: u128) -> u64
        ensures value { result ≡ number % self.now.width }
        ensures room { result < length self.now.slots }
    {
        (number % self.width as u128) as u64
    }
}

fn has_counted(slot: Option<u128>, number: u128) -> bool
    ensures { result ≡ is_kept slot number }
{
    match slot {
        Some(counted) => counted == number,
        None => false,
    }
}
