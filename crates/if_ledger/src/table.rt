ghost use Rattle.std.specs.Prelude.{◌≡◌, ◌+◌, ◌^◌, ◌≤◌, ◌<◌, ◌++◌, [], ◌∷◌, length, IfOk, IfNone, IfSome, Some, slice_get, slice_set};
ghost use Rattle.if_ledger.specs.Boots.{Takes};
ghost use Rattle.if_ledger.specs.Ledgers.{IfState, StandsFor};
ghost use Rattle.if_ledger.specs.Records.{counters_in};

use crate::IfLedger;
use rec_counters::IfCounters;
use std::alloc::{AllocError, Global};
use std::marker::Model;

/// The ledgers of the interfaces of sources, by the places of the sources, in room that was taken at the opening.
#[derive(Drop)]
pub struct IfTable {
    ledgers: Vec<IfLedger>,
    /// How many there are at most.
    limit: u32,
}

impl Model for IfTable {
    ghost use Rattle.std.specs.Prelude.{◌≤◌};
    ghost use Rattle.std.specs.Vec.{vec_len, vec_capacity};
    ghost use Rattle.if_ledger.specs.Tables.{Ledgers};

    ghost Value = { Ledgers };

    ghost view = { λ t. record { ledgers = t.ledgers.items; limit = t.limit } };

    // The room was taken at the opening, and no more are listed.
    ghost invariant = { λ t. (t.limit ≤ vec_capacity t.ledgers) × (vec_len t.ledgers ≤ t.limit) };
}

impl IfTable {
    /// No source has a ledger; there is room for so many.
    pub fn open(alloc: Global, limit: u32) -> Result<IfTable, AllocError>
        ensures { IfOk result (λ t. (t.ledgers ≡ []) × (t.limit ≡ limit)) }
    {
        let ledgers = Vec::with_capacity(alloc, limit as usize)?;
        Ok(IfTable { ledgers, limit })
    }

    /// Opens the ledger of the source at this place, the next one, unless it is there.
    pub fn list(&mut self, place: u32)
        requires next { place ≤ length self.old.ledgers }
        requires room { place < self.old.limit }
        ensures known { place < length self.old.ledgers → self.new ≡ self.old }
        ensures new { place ≡ length self.old.ledgers → (opened : IfState) × (opened.run ≡ 0) × StandsFor opened []
            × (self.new.ledgers ≡ self.old.ledgers ++ opened ∷ []) }
        ensures limit { self.new.limit ≡ self.old.limit }
    {
        if place as usize == self.ledgers.len() {
            self.ledgers.push(IfLedger::open()).unwrap();
        }
    }

    /// Enters the counters that the sample of this number shows into the ledger at a place, in this run, which is the
    /// ledger's or a later one, from 1 on. Fewer than 2^62 samples were entered there before.
    pub fn enter(&mut self, place: u32, run: u64, number: i128, counters: &IfCounters<'_>)
        requires place { place < length self.old.ledgers }
        requires run_counts { 1 ≤ run }
        requires ready { (was : IfState) → slice_get self.old.ledgers place ≡ Some was → (was.run ≤ run) × (was.samples < 2 ^ 62) }
        ensures now { (was : IfState) → slice_get self.old.ledgers place ≡ Some was
            → (now : IfState) × (self.new.ledgers ≡ slice_set self.old.ledgers place now)
            × Takes run (record { number = number; counters = counters_in counters.now }) was now }
        ensures limit { self.new.limit ≡ self.old.limit }
    {
        self.ledgers[place as usize].enter(run, number, counters);
    }

    /// The ledger at a place; `None` exactly past the end.
    pub fn get(&self, place: usize) -> Option<&IfLedger>
        ensures some { IfSome result (λ s. slice_get self.now.ledgers place ≡ Some s.now) }
        ensures none { IfNone result (length self.now.ledgers ≤ place) }
    {
        self.ledgers.get(place)
    }
}
