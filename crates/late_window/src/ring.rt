ghost use Rattle.std.specs.Prelude.{◌≡◌, ℕ, ◌+◌, ◌-◌, ◌*◌, ◌%◌, ◌^◌, ◌<◌, ◌≤◌, ◌==◌, ◌&&◌, ◌||◌, ◌⊎◌, nat_le, not, false};
ghost use Rattle.late_window.specs.Distances.{count_below};
ghost use Rattle.late_window.specs.Ring.{bit_of_slot, slot_below, bit_below};
ghost use Rattle.late_window.specs.declared.TheConstants.{MAX_WIDTH};
ghost use Rattle.late_window.specs.declared.ring.TheConstants.{WORDS};

use crate::MAX_WIDTH;

/// How many words have a bit for each number of the greatest width.
const WORDS: usize = MAX_WIDTH as usize / 64;

/// Whether the newest number and those below it were counted, a bit for each. The bits lie in a ring: the next number
/// has the next slot, so that a bit stays where it is while newer numbers come. The ring has as many whole words as
/// its width needs, so that a small one stays in one place.
///
/// ```text
///   slot      .. head-2    head-1    head    head+1              ..   modulo the number of slots
///   number    .. newest-2  newest-1  newest  newest-(slots-1)    ..
/// ```
#[derive(Debug, Drop)]
pub struct Ring {
    /// How many slots there are.
    slots: usize,
    /// The slot of the newest number.
    head: usize,
    /// Those behind the slots stay 0.
    words: [u64; WORDS],
    ghost in_words: { slots ≤ 64 * WORDS },
    ghost whole_words: { slots % 64 ≡ 0 },
    ghost in_ring: { head < slots },
}

impl Ring {
    /// No number was counted. There are slots for so many numbers at least.
    pub fn empty(width: u32) -> Ring
        requires from { 1 ≤ width }
        requires to { width ≤ MAX_WIDTH }
        ensures none { (k : ℕ) → k < result.slots → bit_below result.words result.slots result.head k ≡ false }
        ensures room { width ≤ result.slots }
    {
        Ring {
            slots: (width as usize + 63) / 64 * 64,
            head: 0,
            words: [0; WORDS],
        }
    }

    /// The slot of the number so far below the newest.
    fn slot(&self, back: usize) -> usize
        requires { back < self.now.slots }
        ensures value { result ≡ slot_below self.now.slots self.now.head back }
        ensures in_ring { result < self.now.slots }
    {
        if back <= self.head {
            self.head - back
        } else {
            self.head + self.slots - back
        }
    }

    /// Whether the number so far below the newest was counted.
    pub fn has(&self, back: usize) -> bool
        requires { back < self.now.slots }
        ensures { result ≡ bit_below self.now.words self.now.slots self.now.head back }
    {
        let slot = self.slot(back);
        self.words[slot / 64] >> (slot % 64) & 1 == 1
    }

    /// The number so far below the newest is counted.
    pub fn add(&mut self, back: usize)
        requires { back < self.old.slots }
        ensures added { (k : ℕ) → k < self.old.slots → bit_below self.new.words self.new.slots self.new.head k
            ≡ (k == back || bit_below self.old.words self.old.slots self.old.head k) }
        ensures slots { self.new.slots ≡ self.old.slots }
    {
        let slot = self.slot(back);
        self.words[slot / 64] = self.words[slot / 64] | 1 << (slot % 64);
    }

    /// The number so far above the newest is the newest, and isn't counted, nor those that are passed.
    pub fn advance(&mut self, step: usize)
        ensures moved { (k : ℕ) → k < self.old.slots → bit_below self.new.words self.new.slots self.new.head k
            ≡ (nat_le step k && bit_below self.old.words self.old.slots self.old.head (k - step)) }
        ensures slots { self.new.slots ≡ self.old.slots }
    {
        let mut left = step;
        while left > 0 {
            left -= self.advance_some(left);
        }
    }

    /// The newest number moves on by `most` at most, as far as its slots can be cleared at once. None of the numbers on
    /// the way is counted. Answers how far.
    fn advance_some(&mut self, most: usize) -> usize
        requires { 1 ≤ most }
        ensures from { 1 ≤ result }
        ensures to { result ≤ most }
        ensures moved { (k : ℕ) → k < self.old.slots → bit_below self.new.words self.new.slots self.new.head k
            ≡ (nat_le result k && bit_below self.old.words self.old.slots self.old.head (k - result)) }
        ensures slots { self.new.slots ≡ self.old.slots }
    {
        let next = self.head + 1;
        let slot = if next == self.slots { 0 } else { next };
        let step = self.clear_some(slot, most);
        self.head = slot + step - 1;
        step
    }

    /// Clears the bits of slots from this one on, `most` at most: whole words as far as they go, else those of its word.
    /// Answers how many.
    fn clear_some(&mut self, slot: usize, most: usize) -> usize
        requires in_ring { slot < self.old.slots }
        requires some { 1 ≤ most }
        ensures from { 1 ≤ result }
        ensures to { result ≤ most }
        ensures in_ring { slot + result ≤ self.old.slots }
        ensures cleared { (s : ℕ) → slot ≤ s → s < slot + result → bit_of_slot self.new.words s ≡ false }
        ensures others { (s : ℕ) → (s < slot) ⊎ (slot + result ≤ s)
            → bit_of_slot self.new.words s ≡ bit_of_slot self.old.words s }
        ensures slots { self.new.slots ≡ self.old.slots }
    {
        if most == 1 {
            self.words[slot / 64] = self.words[slot / 64] & !(1 << (slot % 64));
            return 1;
        }
        if slot % 64 == 0 && most >= 64 {
            return self.clear_words(slot, most);
        }
        let count = most.min(64 - slot % 64);
        self.words[slot / 64] = self.words[slot / 64] & !ones_from(slot % 64, count);
        count
    }

    /// Clears whole words from this slot on, as far as `most` slots and the ring go. Answers how many slots.
    fn clear_words(&mut self, slot: usize, most: usize) -> usize
        requires in_ring { slot < self.old.slots }
        requires whole { slot % 64 ≡ 0 }
        requires some { 64 ≤ most }
        ensures from { 1 ≤ result }
        ensures to { result ≤ most }
        ensures in_ring { slot + result ≤ self.old.slots }
        ensures cleared { (s : ℕ) → slot ≤ s → s < slot + result → bit_of_slot self.new.words s ≡ false }
        ensures others { (s : ℕ) → (s < slot) ⊎ (slot + result ≤ s)
            → bit_of_slot self.new.words s ≡ bit_of_slot self.old.words s }
        ensures slots { self.new.slots ≡ self.old.slots }
    {
        let first = slot / 64;
        let count = (most / 64).min(self.slots / 64 - first);
        for word in first..first + count {
            self.words[word] = 0;
        }
        count * 64
    }

    /// How many of the numbers from `from` up to and without `to` below the newest weren't counted.
    pub fn missing(&self, from: usize, to: usize) -> u32
        requires order { from ≤ to }
        requires in_ring { to ≤ self.now.slots }
        ensures { result ≡ count_below (λ k. not (bit_below self.now.words self.now.slots self.now.head (from + k)))
            (to - from) }
    {
        if to - from == 1 {
            return if self.has(from) { 0 } else { 1 };
        }
        let mut missing = 0;
        let mut back = from;
        while back < to {
            let slot = self.slot(back);
            let left = to - back;
            if slot % 64 == 63 && left >= 64 {
                let words = (left / 64).min(slot / 64 + 1);
                missing += self.missing_in_words(slot / 64 + 1 - words, words);
                back += words * 64;
            } else {
                let count = left.min(slot % 64 + 1);
                missing += self.missing_in_word(slot, count);
                back += count;
            }
        }
        missing
    }

    /// How many of the slots of so many words have no bit.
    fn missing_in_words(&self, first: usize, count: usize) -> u32
        requires { first + count ≤ WORDS }
        ensures { result ≡ count_below (λ k. not (bit_of_slot self.now.words ((first + count) * 64 - 1 - k)))
            (count * 64) }
    {
        let mut missing = 0;
        for word in first..first + count {
            missing += (!self.words[word]).count_ones();
        }
        missing
    }

    /// How many of so many slots, this one and those below it in its word, have no bit.
    fn missing_in_word(&self, slot: usize, count: usize) -> u32
        requires in_ring { slot < self.now.slots }
        requires from { 1 ≤ count }
        requires in_word { count ≤ slot % 64 + 1 }
        ensures { result ≡ count_below (λ k. not (bit_of_slot self.now.words (slot - k))) count }
    {
        let ones = ones_from(slot % 64 + 1 - count, count);
        (!self.words[slot / 64] & ones).count_ones()
    }
}

/// A word with so many ones, from this bit up.
fn ones_from(low: usize, count: usize) -> u64
    requires from { 1 ≤ count }
    requires in_word { low + count ≤ 64 }
    ensures { result ≡ 2 ^ (low + count) - 2 ^ low }
{
    u64::MAX >> (64 - count) << low
}
