ghost use Rattle.std.specs.Prelude.{◌≡◌, ℕ, ◌+◌, ◌^◌, ◌<◌, ◌≤◌, List, [], ◌∷◌, length};
ghost use Rattle.std.specs.List.{sum_by};
ghost use Rattle.count_spec.specs.Windows.{answer, counted};
ghost use Rattle.books_spec.specs.Views.{plain_view};
ghost use Rattle.source_ledger.specs.Boots.{StandsFor, entered_boots};
ghost use Rattle.source_ledger.specs.Marks as marks;

use crate::marks::MarkLedger;
use books_spec::LedgerView;
use late_window::Entered;
use std::marker::Model;

/// The numbers of a stream's datagrams, or of a source's counters samples, over the boots of the stream.
#[derive(Debug, Drop)]
pub struct BootLedger {
    /// The number of the boot that was entered last; 0 where there is none.
    boot: u64,
    /// The marks of the boots up to that one.
    marks: MarkLedger,
}

impl Model for BootLedger {
    ghost use Rattle.source_ledger.specs.Boots.{BootsState};

    ghost Value = { BootsState };

    ghost use Rattle.source_ledger.specs.Fields.{boots_state};

    ghost view = { boots_state };
}

impl BootLedger {
    /// An empty ledger, of boot 0. The width of its windows is from 1 to 8,192.
    pub fn open(width: u32) -> BootLedger
        requires width_from { 1 ≤ width }
        requires width_to { width ≤ 8192 }
        ensures stands { StandsFor result [] }
        ensures width { result.marks.width ≡ width }
        ensures boot { result.boot ≡ 0 }
        ensures entered { result.marks.entered ≡ 0 }
    {
        BootLedger {
            boot: 0,
            marks: MarkLedger::open(width),
        }
    }

    /// Enters a mark of this boot, which is `boot()` or a later one; a later one closes the last. Fewer than 2^62
    /// marks were entered before.
    pub fn enter(&mut self, boot: u64, mark: u32) -> Entered
        requires boot_from { self.old.boot ≤ boot }
        requires boot_counts { 1 ≤ boot }
        requires few { self.old.marks.entered < 2 ^ 62 }
        ensures stands { (current : List ℕ) (closed : List (List ℕ)) → length closed + 1 ≡ boot
            → StandsFor self.old (current ∷ closed) → StandsFor self.new ((mark ∷ current) ∷ closed) }
        ensures answer { (current : List ℕ) (closed : List (List ℕ)) → length closed + 1 ≡ boot
            → StandsFor self.old (current ∷ closed)
            → result ≡ answer self.old.marks.width (counted self.old.marks.width current) mark }
        ensures width { self.new.marks.width ≡ self.old.marks.width }
        ensures boot { self.new.boot ≡ boot }
        ensures entered { self.new.marks.entered ≡ self.old.marks.entered + 1 }
    {
        self.begin(boot);
        self.marks.enter(mark)
    }

    /// The number of the boot that was entered last; 0 where there is none.
    pub fn boot(&self) -> u64
        ensures value { result ≡ self.now.boot }
        ensures boots { (boots : List (List ℕ)) → StandsFor self.now boots → result ≡ length (entered_boots boots) }
    {
        self.boot
    }

    /// How many marks were entered.
    pub fn entered(&self) -> u64
        ensures value { result ≡ self.now.marks.entered }
        ensures marks { (boots : List (List ℕ)) → StandsFor self.now boots → result ≡ sum_by length boots }
    {
        self.marks.entered()
    }

    /// Sums over all boots up to this one, which is `boot()` or a later one; a later one closes the last. Pool,
    /// drops and rate are 0.
    pub fn view(&self, boot: u64) -> LedgerView
        requires { self.now.boot ≤ boot }
        ensures view { (boots : List (List ℕ)) → length boots ≡ boot → StandsFor self.now boots
            → result ≡ plain_view self.now.marks.width boots }
        ensures conserved { result.issued ≡ result.received + result.pending + result.lost }
    {
        if boot > self.boot {
            self.marks.closed_view()
        } else {
            self.marks.view()
        }
    }

    // This boot is the last from now on. The one before is closed where this is a later one.
    fn begin(&mut self, boot: u64)
        requires boot_from { self.old.boot ≤ boot }
        ensures stands { (current : List ℕ) (closed : List (List ℕ)) → length closed + 1 ≡ boot
            → StandsFor self.old (current ∷ closed) → marks.StandsFor self.new.marks (current ∷ closed) }
        ensures width { self.new.marks.width ≡ self.old.marks.width }
        ensures boot { self.new.boot ≡ boot }
        ensures entered { self.new.marks.entered ≡ self.old.marks.entered }
    {
        if boot > self.boot {
            self.marks.close();
            self.boot = boot;
        }
    }
}
