ghost use Rattle.std.specs.Prelude.{◌≡◌, ◌↔◌, ℕ, ◌+◌, ◌-◌, ◌*◌, ◌^◌, ◌<◌, ◌≤◌, ◌==◌, ◌&&◌, ◌||◌, nat_le, not, min, false, List, [], ◌∷◌, length, pos, ◌-ℤ◌, int_le, IsNone};
ghost use Rattle.count_spec.specs.Windows.{answer, counted, near, greatest};
ghost use Rattle.late_window.specs.Distances.{count_below};
ghost use Rattle.late_window.specs.Ring.{bit_below};
ghost use Rattle.late_window.specs.Settled.{IsSettled};
ghost use Rattle.late_window.specs.States.{StandsFor, is_recent, issued_count, pending_count, parts_of, newest_mark_of};
ghost use Rattle.late_window.specs.Steps.{Begins, Advances, Fills, Passes};
ghost use Rattle.late_window.specs.declared.TheConstants.{MAX_WIDTH};

use crate::ring::Ring;
use crate::side::{Side, nearest, side_of};
use count_spec::{Entered, Place};
use std::marker::Model;

/// The numbers that 32-bit marks stand for, under a window of fixed width.
///
/// The first mark stands for itself. Each later one stands for the number congruent to it mod 2^32 that is
/// nearest to the greatest number counted so far, and is then
///
/// ```text
///      late          repeat, or first: inside or least     newest
///   ------------|----------------------------------------|--------->  numbers
///      greatest - width                               greatest
/// ```
#[derive(Debug, Drop)]
pub struct Window {
    /// How many numbers below the greatest, itself among them, may still be counted.
    width: u32,
    /// How many marks were entered.
    entered: u64,
    /// How many numbers were counted.
    received: u64,
    /// How many numbers between the least and the greatest weren't counted, and still may be.
    pending: u32,
    /// The greatest counted number; it moves on where a mark brings a greater one. 0 where none was counted.
    newest: i128,
    /// The greatest counted number less the least.
    span: u128,
    /// Which of the numbers from the greatest down were counted.
    recent: Ring,
}

impl Model for Window {
    ghost use Rattle.late_window.specs.States.{WindowState};

    ghost Value = { WindowState };

    ghost use Rattle.late_window.specs.Fields.{window_state, IsWindow};

    ghost view = { window_state };

    ghost invariant = { IsWindow };
}

impl Window {
    /// An empty window. The width is from 1 to `MAX_WIDTH`.
    pub fn open(width: u32) -> Window
        requires width_from { 1 ≤ width }
        requires width_to { width ≤ MAX_WIDTH }
        ensures stands { StandsFor result [] }
        ensures width { result.width ≡ width }
        ensures entered { result.entered ≡ 0 }
    {
        Window {
            width,
            entered: 0,
            received: 0,
            pending: 0,
            newest: 0,
            span: 0,
            recent: Ring::empty(width),
        }
    }

    /// Enters a mark, of fewer than 2^62 entered before. The number that it stands for is counted where the
    /// answer is `First`.
    #[inline(always)]
    pub fn enter(&mut self, mark: u32) -> Entered
        requires few { self.old.entered < 2 ^ 62 }
        ensures stands { (marks : List ℕ) → StandsFor self.old marks → StandsFor self.new (mark ∷ marks) }
        ensures answer { (marks : List ℕ) → StandsFor self.old marks
            → result ≡ answer self.old.width (counted self.old.width marks) mark }
        ensures width { self.new.width ≡ self.old.width }
        ensures entered { self.new.entered ≡ self.old.entered + 1 }
    {
        if self.received == 0 {
            return self.begin(mark);
        }
        match side_of(mark, self.newest) {
            Side::Above(step) => self.advance(step),
            Side::Below(back) if back >= self.width => self.pass(Entered::Late),
            Side::Below(back) if self.recent.has(back as usize) => self.pass(Entered::Repeat),
            Side::Below(back) if back as u128 > self.span => self.extend(back),
            Side::Below(back) => self.fill(back),
        }
    }

    /// How many numbers were issued: from the least to the greatest counted one. 0 where none was counted.
    pub fn issued(&self) -> u128
        ensures value { result ≡ issued_count self.now }
        ensures part { (marks : List ℕ) → StandsFor self.now marks
            → result ≡ (parts_of self.now.width marks).issued }
        ensures few { result ≤ 2 ^ 32 * self.now.entered }
    {
        if self.received == 0 { 0 } else { self.span + 1 }
    }

    /// How many numbers were counted.
    pub fn received(&self) -> u64
        ensures value { result ≡ self.now.received }
        ensures part { (marks : List ℕ) → StandsFor self.now marks
            → result ≡ (parts_of self.now.width marks).received }
        ensures few { result ≤ self.now.entered }
    {
        self.received
    }

    /// How many numbers between the least and the greatest counted one weren't counted, and are above the
    /// greatest less the width: these may still come.
    pub fn pending(&self) -> u32
        ensures value { result ≡ pending_count self.now }
        ensures part { (marks : List ℕ) → StandsFor self.now marks
            → result ≡ (parts_of self.now.width marks).pending }
        ensures few { result < self.now.width }
    {
        self.pending
    }

    /// How many others between them weren't counted.
    pub fn lost(&self) -> u128
        ensures part { (marks : List ℕ) → StandsFor self.now marks
            → result ≡ (parts_of self.now.width marks).lost }
        ensures conserved { issued_count self.now ≡ self.now.received + pending_count self.now + result }
    {
        self.issued() - self.received as u128 - self.pending as u128
    }

    /// The mark of the greatest counted number. None exactly where no mark was entered.
    pub fn newest_mark(&self) -> Option<u32>
        ensures mark { (marks : List ℕ) → StandsFor self.now marks
            → result ≡ newest_mark_of (counted self.now.width marks) }
        ensures none { IsNone result ↔ (self.now.entered ≡ 0) }
    {
        if self.received == 0 {
            return None;
        }
        Some(self.newest.rem_euclid(4294967296) as u32)
    }

    /// Whether the number that a mark stands for is the greatest counted one or below it.
    pub fn is_behind(&self, mark: u32) -> bool
        ensures { (marks : List ℕ) → StandsFor self.now marks
            → let top = greatest (counted self.now.width marks) in result ≡ int_le (near mark top) top }
    {
        nearest(mark, self.newest) <= self.newest
    }

    /// How many marks were entered.
    pub fn entered(&self) -> u64
        ensures value { result ≡ self.now.entered }
        ensures marks { (marks : List ℕ) → StandsFor self.now marks → result ≡ length marks }
    {
        self.entered
    }

    // The first mark stands for itself.
    fn begin(&mut self, mark: u32) -> Entered
        requires few { self.old.entered < 2 ^ 62 }
        requires none { self.old.received ≡ 0 }
        ensures begins { Begins self.old self.new mark }
        ensures answer { result ≡ Entered.First Place.Only (pos mark) }
    {
        self.recent.add(0);
        self.newest = mark as i128;
        self.entered += 1;
        self.received = 1;
        Entered::First {
            place: Place::Only,
            number: mark as i128,
        }
    }

    // The mark's number is so far above the newest.
    #[inline(always)]
    fn advance(&mut self, step: u32) -> Entered
        requires few { self.old.entered < 2 ^ 62 }
        requires some { 0 < self.old.received }
        requires ahead { 0 < step }
        requires near { step < 2 ^ 31 }
        ensures advances { Advances self.old self.new step }
        ensures answer { result ≡ Entered.First Place.Newest self.new.newest }
    {
        self.pending = move_on(&mut self.recent, self.width, self.span, self.pending, step);
        self.newest += step as i128;
        self.span += step as u128;
        self.entered += 1;
        self.received += 1;
        Entered::First {
            place: Place::Newest,
            number: self.newest,
        }
    }

    // The mark's number is so far below the newest, and below the least.
    fn extend(&mut self, back: u32) -> Entered
        requires few { self.old.entered < 2 ^ 62 }
        requires some { 0 < self.old.received }
        requires within { back < self.old.width }
        requires beyond { self.old.span < back }
        ensures fills { Fills self.old self.new back back }
        ensures answer { result ≡ Entered.First Place.Least (self.old.newest -ℤ pos back) }
    {
        self.recent.add(back as usize);
        self.pending += back - self.span as u32 - 1;
        self.span = back as u128;
        self.entered += 1;
        self.received += 1;
        Entered::First {
            place: Place::Least,
            number: self.newest - back as i128,
        }
    }

    // The mark's number is so far below the newest, between the least and the newest, and wasn't counted.
    fn fill(&mut self, back: u32) -> Entered
        requires few { self.old.entered < 2 ^ 62 }
        requires some { 0 < self.old.received }
        requires within { back < self.old.width }
        requires between { back ≤ self.old.span }
        requires new { is_recent self.old back ≡ false }
        ensures fills { Fills self.old self.new back self.old.span }
        ensures answer { result ≡ Entered.First Place.Inside (self.old.newest -ℤ pos back) }
    {
        self.recent.add(back as usize);
        self.pending -= 1;
        self.entered += 1;
        self.received += 1;
        Entered::First {
            place: Place::Inside,
            number: self.newest - back as i128,
        }
    }

    // The mark's number isn't counted.
    fn pass(&mut self, answer: Entered) -> Entered
        requires few { self.old.entered < 2 ^ 62 }
        requires some { 0 < self.old.received }
        ensures passes { Passes self.old self.new }
        ensures answer { result ≡ answer }
    {
        self.entered += 1;
        answer
    }
}

// Moves the bits on to a number so far above the newest, which is counted, and answers what is pending then.
// What is passed is missing now. What was missing and falls out of the width is lost and no longer pending; where
// the step is the width or more, that is all of it.
//
//                  |<------------ width ------------>|              before
//                  |<- step ->|<------------ width ------------>|   after
//     -------------+----------+----------------------+----------+---> numbers
//        newest - width                           newest   newest + step
//                    falls out        stays            passed
#[inline(always)]
fn move_on(recent: &mut Ring, width: u32, span: u128, pending: u32, step: u32) -> u32
    requires width_from { 1 ≤ width }
    requires width_to { width ≤ MAX_WIDTH }
    requires room { width ≤ recent.old.slots }
    requires ahead { 0 < step }
    requires near { step < 2 ^ 31 }
    requires settled { IsSettled (bit_below recent.old.words recent.old.slots recent.old.head) width span pending }
    ensures bits { (k : ℕ) → k < width → bit_below recent.new.words recent.new.slots recent.new.head k
        ≡ (k == 0 || (nat_le step k && bit_below recent.old.words recent.old.slots recent.old.head (k - step))) }
    ensures slots { recent.new.slots ≡ recent.old.slots }
    ensures pending { result ≡ count_below (λ k. not (bit_below recent.new.words recent.new.slots recent.new.head k))
        (min (span + step) width) }
    ensures few { result + 1 ≤ pending + step }
{
    if step >= width {
        recent.advance(width as usize);
        recent.add(0);
        return width - 1;
    }
    let reach = span.min(width as u128) as usize;
    let kept = reach.min((width - step) as usize);
    let lost = recent.missing(kept, reach);
    recent.advance(step as usize);
    recent.add(0);
    pending + (step - 1) - lost
}
