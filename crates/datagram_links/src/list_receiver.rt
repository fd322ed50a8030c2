ghost use Rattle.std.specs.Prelude.{◌≡◌, ◌↔◌, ◌⊎◌, [], ◌∷◌, ◌++◌, map, None, Some, IsErr, OnOk, OnErr, MatchResult};
ghost use Rattle.byte_ends.specs.Seen.{next_count};
ghost use Rattle.datagram_links.specs.Receivers.{Does, aimed_at, passed_one, shown};
ghost use Rattle.datagram_links.specs.Memory.{ReceiverRefuses, receiver_seen, receiver_called, receiver_failed, receiver_lacked};

use crate::Receiver;
use std::alloc::{AllocError, Global};
use std::marker::Model;
use wire_spec::Failed;

/// A receiver over memory, which shows what it took. Chosen calls fail, so that a fault can be tried.
#[derive(Drop)]
pub struct ListReceiver {
    alloc: Global,
    place: Option<Vec<u8>>,
    taken: Vec<Vec<u8>>,
    fails: Vec<u64>,
    calls: u64,
    faults: u64,
    lacked: u64,
}

impl Model for ListReceiver {
    ghost use Rattle.std.specs.Prelude.{map};
    ghost use Rattle.std.specs.Option.{option_map};
    ghost use Rattle.datagram_links.specs.Memory.{ReceiverState};

    ghost Value = { ReceiverState };

    ghost view = { λ r. record {
      place = option_map (λ v. v.items) r.place;
      taken = map (λ v. v.items) r.taken.items;
      fails = r.fails.items;
      calls = r.calls;
      faults = r.faults;
      lacked = r.lacked;
    } };
}

impl ListReceiver {
    /// A receiver that took nothing yet and has no place.
    /// `fails` holds the numbers of the calls that fail, counted from 1 over all calls of `aim` and `pass`; a number
    /// stays at 2^64 - 1.
    pub fn new(alloc: Global, fails: Vec<u64>) -> ListReceiver
        ensures { result ≡ record { place = None; taken = []; fails = fails.items; calls = 0; faults = 0; lacked = 0 } }
    {
        ListReceiver {
            alloc,
            place: None,
            taken: Vec::new(alloc),
            fails,
            calls: 0,
            faults: 0,
            lacked: 0,
        }
    }

    /// How many calls failed for want of memory, up to 2^64 - 1.
    pub fn lacked(&self) -> u64
        ensures { result ≡ self.now.lacked }
    {
        self.lacked
    }

    // Counts a call, which fails where its number is one of those that fail.
    fn call(&mut self) -> Result<(), Failed>
        ensures fails { IsErr result ↔ ReceiverRefuses self.old }
        ensures after { MatchResult result (λ _. self.new ≡ receiver_called self.old) (λ _. self.new ≡ receiver_failed self.old) }
    {
        self.calls = self.calls.saturating_add(1);
        if self.fails.contains(&self.calls) {
            self.faults = self.faults.saturating_add(1);
            return Err(Failed);
        }
        Ok(())
    }

    // Memory was lacking.
    fn lack(&mut self) -> Failed
        ensures { self.new ≡ record self.old {
          faults = next_count self.old.faults;
          lacked = next_count self.old.lacked;
        } }
    {
        self.faults = self.faults.saturating_add(1);
        self.lacked = self.lacked.saturating_add(1);
        Failed
    }

    // Keeps the place.
    fn keep_place(&mut self, place: &str) -> Result<(), AllocError>
        ensures kept { OnOk result (self.new ≡ record self.old { place = Some place.now }) }
        ensures unchanged { OnErr result (self.new ≡ self.old) }
    {
        self.place = Some(Vec::from_slice(self.alloc, place.as_bytes())?);
        Ok(())
    }

    // Keeps a datagram.
    fn keep(&mut self, bytes: &[u8]) -> Result<(), AllocError>
        ensures kept { OnOk result (self.new ≡ record self.old { taken = self.old.taken ++ bytes.now ∷ [] }) }
        ensures unchanged { OnErr result (self.new ≡ self.old) }
    {
        let copy = Vec::from_slice(self.alloc, bytes)?;
        self.taken.push(copy)?;
        Ok(())
    }
}

impl Receiver for ListReceiver {
    ghost seen = { receiver_seen };

    fn aim(&mut self, place: &str) -> Result<(), Failed>
        ensures does { Does (receiver_seen self.old) (aimed_at place.now (receiver_seen self.old)) (receiver_seen self.new) result }
        ensures after { OnOk result (self.new ≡ record (receiver_called self.old) { place = Some place.now }) }

        // It fails where its number is one of those that fail, and else only for want of memory.
        ensures refused { ReceiverRefuses self.old → IsErr result × (self.new ≡ receiver_failed self.old) }
        ensures lacked { OnErr result (ReceiverRefuses self.old ⊎ (self.new ≡ receiver_lacked self.old)) }
    {
        self.call()?;
        match self.keep_place(place) {
            Ok(()) => Ok(()),
            Err(_) => Err(self.lack()),
        }
    }

    fn pass(&mut self, bytes: &[u8]) -> Result<(), Failed>
        ensures does { Does (receiver_seen self.old) (passed_one bytes.now (receiver_seen self.old)) (receiver_seen self.new) result }
        ensures after { OnOk result (self.new ≡ record (receiver_called self.old) { taken = self.old.taken ++ bytes.now ∷ [] }) }

        ensures refused { ReceiverRefuses self.old → IsErr result × (self.new ≡ receiver_failed self.old) }
        ensures lacked { OnErr result (ReceiverRefuses self.old ⊎ (self.new ≡ receiver_lacked self.old)) }
    {
        self.call()?;
        match self.keep(bytes) {
            Ok(()) => Ok(()),
            Err(_) => Err(self.lack()),
        }
    }

    fn taken(&self) -> &[Vec<u8>]
        ensures shows { map (λ v. v.items) result.now ≡ shown (receiver_seen self.now).told }
    {
        &self.taken
    }
}
