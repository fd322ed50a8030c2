ghost use Rattle.std.specs.Prelude.{◌≡◌, ℕ, ◌+◌, ◌^◌, ◌<◌, ◌≤◌, cond, int_le, List, [], ◌∷◌, length};
ghost use Rattle.std.specs.List.{sum_by};
ghost use Rattle.count_spec.specs.Windows.{answer, counted, near, greatest, is_repeat, is_late};
ghost use Rattle.books_spec.specs.Views.{plain_view};
ghost use Rattle.source_ledger.specs.Marks.{StandsFor};

use books_spec::LedgerView;
use late_window::{Entered, Window};
use std::marker::Model;

/// The marks of one stream or source over stretches: a window for the current stretch, and sums over the closed ones.
#[derive(Debug, Drop)]
pub struct MarkLedger {
    /// The width of each stretch's window.
    width: u32,
    /// How many marks were entered.
    entered: u64,
    /// How many marks of all stretches brought a number once more.
    repeated: u64,
    /// How many marks of all stretches came too late.
    late: u64,
    /// The numbers of the current stretch.
    window: Window,
    /// How many numbers were issued in the closed stretches.
    issued: u128,
    /// How many of them were received.
    received: u64,
    /// How many of them are lost, with those that were pending when their stretch was closed.
    lost: u128,
}

impl Model for MarkLedger {
    ghost use Rattle.source_ledger.specs.Marks.{MarksState};

    ghost Value = { MarksState };

    ghost use Rattle.source_ledger.specs.Fields.{marks_state, IsMarkLedger};

    ghost view = { marks_state };

    ghost invariant = { IsMarkLedger };
}

impl MarkLedger {
    /// Nothing was entered. The width is from 1 to 8,192.
    pub fn open(width: u32) -> MarkLedger
        requires width_from { 1 ≤ width }
        requires width_to { width ≤ 8192 }
        ensures stands { StandsFor result [] }
        ensures width { result.width ≡ width }
        ensures entered { result.entered ≡ 0 }
    {
        MarkLedger {
            width,
            entered: 0,
            repeated: 0,
            late: 0,
            window: Window::open(width),
            issued: 0,
            received: 0,
            lost: 0,
        }
    }

    /// Enters a mark into the current stretch, of fewer than 2^62 entered before.
    #[inline(always)]
    pub fn enter(&mut self, mark: u32) -> Entered
        requires few { self.old.entered < 2 ^ 62 }
        ensures stands { (current : List ℕ) (closed : List (List ℕ)) → StandsFor self.old (current ∷ closed)
            → StandsFor self.new ((mark ∷ current) ∷ closed) }
        ensures answer { (current : List ℕ) (closed : List (List ℕ)) → StandsFor self.old (current ∷ closed)
            → result ≡ answer self.old.width (counted self.old.width current) mark }
        ensures width { self.new.width ≡ self.old.width }
        ensures entered { self.new.entered ≡ self.old.entered + 1 }
    {
        let answer = self.window.enter(mark);
        self.repeated += repeats(answer);
        self.late += lates(answer);
        self.entered += 1;
        answer
    }

    /// Whether the number that a mark stands for in the current stretch is the greatest counted one or below it.
    pub fn is_behind(&self, mark: u32) -> bool
        ensures { (current : List ℕ) (closed : List (List ℕ)) → StandsFor self.now (current ∷ closed)
            → let top = greatest (counted self.now.width current) in result ≡ int_le (near mark top) top }
    {
        self.window.is_behind(mark)
    }

    /// Closes the current stretch: what was pending is lost, and an empty stretch is the current one.
    pub fn close(&mut self)
        ensures stands { (stretches : List (List ℕ)) → StandsFor self.old stretches
            → StandsFor self.new ([] ∷ stretches) }
        ensures width { self.new.width ≡ self.old.width }
        ensures entered { self.new.entered ≡ self.old.entered }
    {
        self.issued += self.window.issued();
        self.received += self.window.received();
        self.lost += self.window.lost() + self.window.pending() as u128;
        self.window = Window::open(self.width);
    }

    /// How many marks were entered.
    pub fn entered(&self) -> u64
        ensures value { result ≡ self.now.entered }
        ensures marks { (stretches : List (List ℕ)) → StandsFor self.now stretches
            → result ≡ sum_by length stretches }
    {
        self.entered
    }

    /// Sums over all stretches, the current one of which may go on. Pool, drops and rate are 0.
    pub fn view(&self) -> LedgerView
        ensures view { (stretches : List (List ℕ)) → StandsFor self.now stretches
            → result ≡ plain_view self.now.width stretches }
        ensures conserved { result.issued ≡ result.received + result.pending + result.lost }
    {
        LedgerView {
            issued: self.issued + self.window.issued(),
            received: self.received + self.window.received(),
            pending: self.window.pending(),
            lost: self.lost + self.window.lost(),
            repeated: self.repeated,
            late: self.late,
            pool: 0,
            drops: 0,
            rate: 0,
        }
    }

    /// What `view` would show after `close`.
    pub fn closed_view(&self) -> LedgerView
        ensures view { (stretches : List (List ℕ)) → StandsFor self.now stretches
            → result ≡ plain_view self.now.width ([] ∷ stretches) }
        ensures conserved { result.issued ≡ result.received + result.pending + result.lost }
    {
        let view = self.view();
        LedgerView {
            pending: 0,
            lost: view.lost + view.pending as u128,
            ..view
        }
    }
}

// 1 for a Repeat, and else 0.
fn repeats(answer: Entered) -> u64
    ensures { result ≡ cond (is_repeat answer) 1 0 }
{
    match answer {
        Entered::Repeat => 1,
        _ => 0,
    }
}

// 1 where the mark was Late, and else 0.
fn lates(answer: Entered) -> u64
    ensures { result ≡ cond (is_late answer) 1 0 }
{
    match answer {
        Entered::Late => 1,
        _ => 0,
    }
}
