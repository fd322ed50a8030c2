ghost use Rattle.std.specs.Prelude.{◌≡◌, ℕ, ◌+◌, ◌-◌, ◌^◌, ◌<◌, ◌≤◌, cond, List, [], ◌∷◌, length, map, pos, ◌-ℤ◌, ◌+ℤ◌, ◌≤ℤ◌};
ghost use Rattle.count_spec.specs.Boots.{sequences, boot_mark, boot_place, boots, stale_items};
ghost use Rattle.count_spec.specs.Windows.{answer, counted, is_newest};
ghost use Rattle.books_spec.specs.Views.{plain_view};
ghost use Rattle.books_spec.specs.Items.{Datagram, stamp_of};
ghost use Rattle.stream_books.specs.Receipts.{receipt_of, receipt_in};
ghost use Rattle.stream_books.specs.Streams.{StandsFor, ShowsStream, IsAt, place_after};

use crate::place::place_of;
use crate::taken::{Receipt, receipt_by};
use books_spec::{LedgerView, Taken};
use count_spec::StretchPlace;
use late_window::{Entered, Place};
use source_ledger::StreamLedger;
use std::marker::Model;

/// What a collector keeps of one stream.
#[derive(Debug, Drop)]
pub struct StreamRecord {
    /// The datagram numbers over the boots.
    ledger: StreamLedger,
    /// The boot mark, arrival less uptime, of the datagram with the greatest number of the current boot, in ms.
    newest: i128,
    /// How many datagrams came from earlier boots.
    stale: u64,
}

impl Model for StreamRecord {
    ghost use Rattle.stream_books.specs.Streams.{StreamState, stream_state, IsStream};

    ghost Value = { StreamState };

    ghost view = { stream_state };

    ghost invariant = { IsStream };
}

impl StreamRecord {
    /// Nothing came yet. The width of the windows over datagram numbers is from 1 to 8,192.
    pub fn open(width: u32) -> StreamRecord
        requires width_from { 1 ≤ width }
        requires width_to { width ≤ 8192 }
        ensures stands { (slack : ℕ) → StandsFor slack result [] }
        ensures width { result.ledger.marks.width ≡ width }
        ensures entered { result.ledger.marks.entered ≡ 0 }
        ensures stale { result.stale ≡ 0 }
    {
        StreamRecord {
            ledger: StreamLedger::open(width),
            newest: 0,
            stale: 0,
        }
    }

    /// Takes a datagram of the stream, with its arrival and its uptime in ms and its sequence word; the boot marks of
    /// one boot may differ by the slack, in ms. Fewer than 2^62 datagrams were taken before.
    pub fn take(&mut self, slack: u32, arrival: u64, uptime: u32, sequence: u32) -> Receipt
        requires few { self.old.ledger.marks.entered + self.old.stale < 2 ^ 62 }
        ensures stands { (d : Datagram) (ds : List Datagram) → IsAt d arrival uptime sequence
            → StandsFor slack self.old ds → StandsFor slack self.new (d ∷ ds) }
        ensures answer { (d : Datagram) (ds : List Datagram) → IsAt d arrival uptime sequence
            → StandsFor slack self.old ds
            → result ≡ receipt_in slack self.old.ledger.marks.width
            (boots stamp_of slack self.old.ledger.marks.width ds) d }
        ensures width { self.new.ledger.marks.width ≡ self.old.ledger.marks.width }
        ensures taken { self.new.ledger.marks.entered + self.new.stale ≡ self.old.ledger.marks.entered + self.old.stale + 1 }
    {
        let start = arrival as i128 - uptime as i128;
        match self.place(slack, start) {
            StretchPlace::Current => self.enter(start, sequence),
            StretchPlace::Next => self.begin(start, sequence),
            StretchPlace::Stale => self.pass(),
        }
    }

    /// How many boots there were.
    pub fn boots(&self) -> u64
        ensures value { result ≡ self.now.ledger.boot }
        ensures boots { (slack : ℕ) (ds : List Datagram) → StandsFor slack self.now ds
            → result ≡ length (boots stamp_of slack self.now.ledger.marks.width ds) }
    {
        self.ledger.boot()
    }

    /// How many datagrams came from earlier boots.
    pub fn stale(&self) -> u64
        ensures value { result ≡ self.now.stale }
        ensures items { (slack : ℕ) (ds : List Datagram) → StandsFor slack self.now ds
            → result ≡ length (stale_items stamp_of slack self.now.ledger.marks.width ds) }
    {
        self.stale
    }

    /// The datagram numbers over all boots.
    pub fn view(&self) -> LedgerView
        ensures view { (slack : ℕ) (ds : List Datagram) → StandsFor slack self.now ds
            → result ≡ plain_view self.now.ledger.marks.width
            (map (sequences stamp_of) (boots stamp_of slack self.now.ledger.marks.width ds)) }
        ensures conserved { result.issued ≡ result.received + result.pending + result.lost }
    {
        self.ledger.view(self.ledger.boot())
    }

    // Where a datagram with this boot mark belongs.
    fn place(&self, slack: u32, start: i128) -> StretchPlace
        requires from { pos 0 ≤ℤ (start +ℤ pos (2 ^ 32)) }
        requires to { start ≤ℤ pos (2 ^ 64) }
        ensures { result ≡ place_after slack self.now start }
    {
        if self.ledger.boot() == 0 {
            return StretchPlace::Next;
        }
        place_of(slack, start - self.newest)
    }

    // A datagram of the current boot.
    fn enter(&mut self, start: i128, sequence: u32) -> Receipt
        requires few { self.old.ledger.marks.entered + self.old.stale < 2 ^ 62 }
        requires begun { 1 ≤ self.old.ledger.boot }
        requires from { pos 0 ≤ℤ (start +ℤ pos (2 ^ 32)) }
        requires to { start ≤ℤ pos (2 ^ 64) }
        ensures stands { (d : Datagram) (current : List Datagram) (closed : List (List Datagram)) (stale : List Datagram)
            → boot_mark (stamp_of d) ≡ start → d.head.sequence ≡ sequence
            → ShowsStream self.old (current ∷ closed) stale → ShowsStream self.new ((d ∷ current) ∷ closed) stale }
        ensures answer { (current : List Datagram) (closed : List (List Datagram)) (stale : List Datagram)
            → ShowsStream self.old (current ∷ closed) stale
            → result ≡ receipt_of (answer self.old.ledger.marks.width
            (counted self.old.ledger.marks.width (sequences stamp_of current)) sequence) }
        ensures width { self.new.ledger.marks.width ≡ self.old.ledger.marks.width }
        ensures taken { self.new.ledger.marks.entered + self.new.stale ≡ self.old.ledger.marks.entered + self.old.stale + 1 }
    {
        let boot = self.ledger.boot();
        let entered = self.ledger.enter(boot, sequence);
        self.newest = newest_of(entered, start, self.newest);
        receipt_by(entered)
    }

    // A datagram that begins a boot.
    fn begin(&mut self, start: i128, sequence: u32) -> Receipt
        requires few { self.old.ledger.marks.entered + self.old.stale < 2 ^ 62 }
        requires from { pos 0 ≤ℤ (start +ℤ pos (2 ^ 32)) }
        requires to { start ≤ℤ pos (2 ^ 64) }
        ensures stands { (d : Datagram) (bs : List (List Datagram)) (stale : List Datagram)
            → boot_mark (stamp_of d) ≡ start → d.head.sequence ≡ sequence
            → ShowsStream self.old bs stale → ShowsStream self.new ((d ∷ []) ∷ bs) stale }
        ensures answer { result ≡ record { taken = Taken.First; number = pos sequence } }
        ensures width { self.new.ledger.marks.width ≡ self.old.ledger.marks.width }
        ensures taken { self.new.ledger.marks.entered + self.new.stale ≡ self.old.ledger.marks.entered + self.old.stale + 1 }
    {
        let boot = self.ledger.boot() + 1;
        self.ledger.enter(boot, sequence);
        self.newest = start;
        Receipt {
            taken: Taken::First,
            number: sequence as i128,
        }
    }

    // A datagram of an earlier boot.
    fn pass(&mut self) -> Receipt
        requires few { self.old.ledger.marks.entered + self.old.stale < 2 ^ 62 }
        ensures stands { (d : Datagram) (bs : List (List Datagram)) (stale : List Datagram)
            → ShowsStream self.old bs stale → ShowsStream self.new bs (d ∷ stale) }
        ensures answer { result ≡ record { taken = Taken.Stale; number = pos 0 } }
        ensures width { self.new.ledger.marks.width ≡ self.old.ledger.marks.width }
        ensures taken { self.new.ledger.marks.entered + self.new.stale ≡ self.old.ledger.marks.entered + self.old.stale + 1 }
    {
        self.stale += 1;
        Receipt {
            taken: Taken::Stale,
            number: 0,
        }
    }
}

// The boot mark of the datagram with the greatest number, after this answer to one whose boot mark is `start`.
fn newest_of(entered: Entered, start: i128, newest: i128) -> i128
    ensures { result ≡ cond (is_newest entered) start newest }
{
    match entered {
        Entered::First {
            place: Place::Only | Place::Newest,
            ..
        } => start,
        Entered::First { .. } | Entered::Repeat | Entered::Late => newest,
    }
}
