ghost use Rattle.std.specs.Prelude.{◌≡◌, ◌<◌, ◌≤◌, ◌==◌, ℕ, cond, length, Some, None, [], IfOk};
ghost use Rattle.trial_premises.specs.ByIndex.{kept};

use std::alloc::{AllocError, Global};

/// A value for some indexes, in room that grows to the greatest index.
#[derive(Drop)]
pub struct ByIndex<T: Copy> {
    slots: Vec<Option<T>>,
}

impl<T: Copy> ByIndex<T> {
    /// No index has a value.
    pub fn new(alloc: Global) -> ByIndex<T>
        ensures { result.slots.items ≡ [] }
    {
        ByIndex {
            slots: Vec::new(alloc),
        }
    }

    /// The value of an index, if it has one.
    pub fn get(&self, index: u64) -> Option<T>
        ensures { result ≡ kept self.now.slots.items index }
    {
        if (index as usize) < self.slots.len() {
            self.slots[index as usize]
        } else {
            None
        }
    }

    /// Makes room for this index. Where there is no memory, each index keeps its value too.
    pub fn reserve(&mut self, index: u64) -> Result<(), AllocError>
        ensures same { (i : ℕ) → kept self.new.slots.items i ≡ kept self.old.slots.items i }
        ensures room { IfOk result (λ _. index < length self.new.slots.items) }
        ensures more { length self.old.slots.items ≤ length self.new.slots.items }
    {
        while self.slots.len() <= index as usize {
            self.slots.push(None)?;
        }
        Ok(())
    }

    /// An index for which there is room has this value from now on.
    pub fn set(&mut self, index: u64, value: T)
        requires { index < length self.old.slots.items }
        ensures values { (i : ℕ) → kept self.new.slots.items i ≡ cond (index == i) (Some value) (kept self.old.slots.items i) }
        ensures room { length self.new.slots.items ≡ length self.old.slots.items }
    {
        self.slots[index as usize] = Some(value);
    }

    /// No index has a value any more; the room stays.
    pub fn clear(&mut self)
        ensures values { (i : ℕ) → kept self.new.slots.items i ≡ None }
        ensures room { length self.new.slots.items ≡ length self.old.slots.items }
    {
        for index in 0..self.slots.len() {
            self.slots[index] = None;
        }
    }
}
