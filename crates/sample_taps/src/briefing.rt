// Headers on their way to the consumers: sixteen are scanned together.
ghost use Rattle.std.specs.Prelude.{◌≡◌, ◌+◌, ◌<◌, ◌^◌, [], ◌∷◌, ◌++◌, length, take, vec_len};
ghost use Rattle.header_lanes.specs.Facts.{facts};
ghost use Rattle.sample_taps.specs.Briefs.{brief_of, facts_in, briefs_with};
ghost use Rattle.sample_taps.specs.Classes.{no_classes, with_headers};
ghost use Rattle.sample_taps.specs.Passing.{Passes};

use crate::brief::{Brief, Sampled};
use crate::class_totals::ClassTotals;
use crate::tap::Tap;
use crate::taps::Taps;
use header_lanes::{Batch, HeaderFacts};
use std::marker::Model;

/// At most sixteen headers that wait to be scanned, with how each was sampled, and the totals of those that were
/// scanned. Contracts see the briefs of the headers that wait, and the totals.
#[derive(Debug, Drop)]
pub struct Briefing {
    batch: Batch,
    rows: [Sampled; 16],
    totals: ClassTotals,
}

impl Model for Briefing {
    ghost use Rattle.std.specs.Prelude.{◌≡◌, ◌≤◌, length};
    ghost use Rattle.sample_taps.specs.Briefs.{briefs_with};
    ghost use Rattle.sample_taps.specs.Passing.{BriefingState};

    ghost Value = { BriefingState };

    ghost view = { λ b. record { pending = briefs_with b.rows b.batch; totals = b.totals } };

    ghost invariant = { λ b. (length b.rows ≡ 16) × (length b.batch ≤ 16) };
}

impl Briefing {
    /// No header waits, and none is counted.
    pub fn new() -> Briefing
        ensures pending { result.pending ≡ [] }
        ensures totals { result.totals ≡ no_classes }
    {
        let nothing = Sampled {
            stream: 0,
            class: 0,
            index: 0,
            rate: 0,
            frame_length: 0,
        };
        Briefing {
            batch: Batch::new(),
            rows: [nothing; 16],
            totals: ClassTotals::none(),
        }
    }

    /// Takes the next header, of which the first 128 bytes are looked at, by its header protocol (sFlow Version 5,
    /// section 5). Where sixteen wait, these are scanned and counted and go to the consumers before.
    pub fn push(&mut self, taps: &mut Taps, sampled: &Sampled, protocol: u32, header: &[u8])
        requires { taps.old.ended + vec_len taps.old.held < 2 ^ 64 }
        ensures passes { Passes (λ x b y. (v : _) × (y ≡ record x { value = v }) × (⟦<dyn Tap as Tap>⟧ x.vtable).step x.value b v)
            (λ x. (⟦<dyn Tap as Tap>⟧ x.vtable).ended x.value) self.old taps.old.held.items
            (brief_of sampled.now (facts protocol header.now) ∷ []) self.new taps.new.held.items }
        ensures ended { taps.new.ended + vec_len taps.new.held ≡ taps.old.ended + vec_len taps.old.held }
    {
        self.make_room(taps);
        self.hold(sampled, protocol, header);
    }

    /// Scans and counts the headers that wait, if any, and gives them to the consumers, in order. Then none waits.
    pub fn finish(&mut self, taps: &mut Taps)
        requires { taps.old.ended + vec_len taps.old.held < 2 ^ 64 }
        ensures passes { Passes (λ x b y. (v : _) × (y ≡ record x { value = v }) × (⟦<dyn Tap as Tap>⟧ x.vtable).step x.value b v)
            (λ x. (⟦<dyn Tap as Tap>⟧ x.vtable).ended x.value) self.old taps.old.held.items
            [] self.new taps.new.held.items }
        ensures pending { self.new.pending ≡ [] }
        ensures ended { taps.new.ended + vec_len taps.new.held ≡ taps.old.ended + vec_len taps.old.held }
    {
        if self.batch.len() > 0 {
            self.send(taps);
        }
    }

    // Scans and counts the headers that wait, and gives them to the consumers, in order.
    #[inline(never)]
    fn send(&mut self, taps: &mut Taps)
        requires { taps.old.ended + vec_len taps.old.held < 2 ^ 64 }
        ensures passes { Passes (λ x b y. (v : _) × (y ≡ record x { value = v }) × (⟦<dyn Tap as Tap>⟧ x.vtable).step x.value b v)
            (λ x. (⟦<dyn Tap as Tap>⟧ x.vtable).ended x.value) self.old taps.old.held.items
            [] self.new taps.new.held.items }
        ensures pending { self.new.pending ≡ [] }
        ensures ended { taps.new.ended + vec_len taps.new.held ≡ taps.old.ended + vec_len taps.old.held }
    {
        let briefs = self.briefs();
        let briefs = &briefs[..self.batch.len()];
        self.totals.count_all(briefs);
        taps.feed_all(briefs);
        self.batch.clear();
    }

    // Sees to it that fewer than sixteen headers wait.
    fn make_room(&mut self, taps: &mut Taps)
        requires { taps.old.ended + vec_len taps.old.held < 2 ^ 64 }
        ensures passes { Passes (λ x b y. (v : _) × (y ≡ record x { value = v }) × (⟦<dyn Tap as Tap>⟧ x.vtable).step x.value b v)
            (λ x. (⟦<dyn Tap as Tap>⟧ x.vtable).ended x.value) self.old taps.old.held.items
            [] self.new taps.new.held.items }
        ensures room { length self.new.pending < 16 }
        ensures ended { taps.new.ended + vec_len taps.new.held ≡ taps.old.ended + vec_len taps.old.held }
    {
        if self.batch.len() == 16 {
            self.send(taps);
        }
    }

    // Lets one more header wait.
    fn hold(&mut self, sampled: &Sampled, protocol: u32, header: &[u8])
        requires { length self.old.pending < 16 }
        ensures pending { self.new.pending ≡ self.old.pending ++ brief_of sampled.now (facts protocol header.now) ∷ [] }
        ensures totals { self.new.totals ≡ self.old.totals }
    {
        let place = self.batch.len();
        if self.batch.push(protocol, header).is_ok() {
            self.rows[place] = *sampled;
        }
    }

    // The briefs of the headers that wait, and others behind them.
    fn briefs(&self) -> [Brief; 16]
        ensures pending { take (length self.now.pending) result ≡ self.now.pending }
        ensures sixteen { length result ≡ 16 }
    {
        let mut facts = [HeaderFacts::none(); 16];
        self.batch.scan(&mut facts);
        briefs_of(&self.rows, &facts)
    }

    /// How many headers of each class were scanned.
    pub fn totals(&self) -> ClassTotals
        ensures { result ≡ self.now.totals }
    {
        self.totals
    }
}

// Each header as it was sampled, with what it says.
fn briefs_of(rows: &[Sampled; 16], facts: &[HeaderFacts; 16]) -> [Brief; 16]
    ensures { result ≡ briefs_with rows.now facts.now }
{
    let mut briefs = [rows[0].brief(&facts[0]); 16];
    for k in 0..16 {
        briefs[k] = rows[k].brief(&facts[k]);
    }
    briefs
}
