ghost use Rattle.std.specs.Prelude.{◌≡◌, ◌↔◌, ◌⊎◌, [], ◌∷◌, ◌++◌, drop, map, Contains, None, Some, IsErr, IfOk, IfSome, OnOk, OnErr, MatchResult};
ghost use Rattle.byte_ends.specs.Seen.{next_count};
ghost use Rattle.datagram_links.specs.Links.{Makes, FitsRoom, GivesNext, listening, aimed, received_one, sent_one};
ghost use Rattle.datagram_links.specs.Memory.{LinkRefuses, item_view, link_seen, link_called, link_failed, link_lacked};

use crate::{Link, LinkItem, Received};
use std::alloc::{AllocError, Global};
use std::marker::Model;
use wire_spec::Failed;

/// A link over memory: it gives a list of items and shows what it took. Chosen calls fail, so that a fault can be tried
/// in mid-stream.
#[derive(Drop)]
pub struct MemoryLink {
    alloc: Global,
    items: Vec<LinkItem>,
    at: usize,
    listens: Option<Vec<u8>>,
    aims: Option<Vec<u8>>,
    sent: Vec<Vec<u8>>,
    fails: Vec<u64>,
    calls: u64,
    faults: u64,
    lacked: u64,
}

impl Model for MemoryLink {
    ghost use Rattle.std.specs.Prelude.{◌≤◌, drop, map, vec_len};
    ghost use Rattle.std.specs.Option.{option_map};
    ghost use Rattle.datagram_links.specs.Memory.{LinkState, item_view};

    ghost Value = { LinkState };

    ghost view = { λ l. record {
      items = drop l.at (map item_view l.items.items);
      listens = option_map (λ v. v.items) l.listens;
      aims = option_map (λ v. v.items) l.aims;
      sent = map (λ v. v.items) l.sent.items;
      fails = l.fails.items;
      calls = l.calls;
      faults = l.faults;
      lacked = l.lacked;
    } };

    ghost invariant = { λ l. l.at ≤ vec_len l.items };
}

// The first bytes of a datagram go into the room, as many as it has.
fn give_item(item: &LinkItem, room: &mut [u8]) -> Received
    ensures bound { FitsRoom result room.new }
    ensures gives { GivesNext (item_view item.now ∷ []) result room.new }
{
    match item {
        LinkItem::Got { at, bytes } => {
            let len = bytes.len().min(room.len());
            room[..len].copy_from_slice(&bytes[..len]);
            Received::Got { len, at: *at }
        }
        LinkItem::Quiet => Received::Quiet,
    }
}

impl MemoryLink {
    /// A link that gives these items and took nothing yet, without places.
    /// `fails` holds the numbers of the calls that fail, counted from 1 over all calls of the link; a number stays at
    /// 2^64 - 1.
    pub fn new(alloc: Global, items: Vec<LinkItem>, fails: Vec<u64>) -> MemoryLink
        ensures { result ≡ record {
          items = map item_view items.items;
          listens = None;
          aims = None;
          sent = [];
          fails = fails.items;
          calls = 0;
          faults = 0;
          lacked = 0;
        } }
    {
        MemoryLink {
            alloc,
            items,
            at: 0,
            listens: None,
            aims: None,
            sent: Vec::new(alloc),
            fails,
            calls: 0,
            faults: 0,
            lacked: 0,
        }
    }

    /// The datagrams that it took to send, in order.
    pub fn sent(&self) -> &[Vec<u8>]
        ensures { map (λ v. v.items) result.now ≡ self.now.sent }
    {
        &self.sent
    }

    /// How many calls failed for want of memory, up to 2^64 - 1.
    pub fn lacked(&self) -> u64
        ensures { result ≡ self.now.lacked }
    {
        self.lacked
    }

    // Counts a call, which fails where its number is one of those that fail.
    fn call(&mut self) -> Result<(), Failed>
        ensures fails { IsErr result ↔ LinkRefuses self.old }
        ensures after { MatchResult result (λ _. self.new ≡ link_called self.old) (λ _. self.new ≡ link_failed self.old) }
    {
        self.calls = self.calls.saturating_add(1);
        if self.fails.contains(&self.calls) {
            self.faults = self.faults.saturating_add(1);
            return Err(Failed);
        }
        Ok(())
    }

    // Memory was lacking.
    fn lack(&mut self) -> Failed
        ensures { self.new ≡ record self.old {
          faults = next_count self.old.faults;
          lacked = next_count self.old.lacked;
        } }
    {
        self.faults = self.faults.saturating_add(1);
        self.lacked = self.lacked.saturating_add(1);
        Failed
    }

    // The next item, which leaves the list.
    fn next(&mut self, room: &mut [u8]) -> Received
        ensures bound { FitsRoom result room.new }
        ensures gives { GivesNext self.old.items result room.new }
        ensures after { self.new ≡ record self.old { items = drop 1 self.old.items } }
    {
        if self.at == self.items.len() {
            return Received::Quiet;
        }
        let received = give_item(&self.items[self.at], room);
        self.at += 1;
        received
    }

    // Keeps the place that it listens at.
    fn keep_listens(&mut self, place: &str) -> Result<(), AllocError>
        ensures kept { OnOk result (self.new ≡ record self.old { listens = Some place.now }) }
        ensures unchanged { OnErr result (self.new ≡ self.old) }
    {
        self.listens = Some(Vec::from_slice(self.alloc, place.as_bytes())?);
        Ok(())
    }

    // Keeps the place that it is aimed at.
    fn keep_aims(&mut self, place: &str) -> Result<(), AllocError>
        ensures kept { OnOk result (self.new ≡ record self.old { aims = Some place.now }) }
        ensures unchanged { OnErr result (self.new ≡ self.old) }
    {
        self.aims = Some(Vec::from_slice(self.alloc, place.as_bytes())?);
        Ok(())
    }

    // Keeps a datagram.
    fn keep_sent(&mut self, bytes: &[u8]) -> Result<(), AllocError>
        ensures kept { OnOk result (self.new ≡ record self.old { sent = self.old.sent ++ bytes.now ∷ [] }) }
        ensures unchanged { OnErr result (self.new ≡ self.old) }
    {
        let copy = Vec::from_slice(self.alloc, bytes)?;
        self.sent.push(copy)?;
        Ok(())
    }
}

impl Link for MemoryLink {
    ghost seen = { link_seen };

    fn listen(&mut self, place: &str) -> Result<(), Failed>
        ensures makes { Makes (link_seen self.old) (listening place.now (link_seen self.old)) (link_seen self.new) result }
        ensures after { OnOk result (self.new ≡ record (link_called self.old) { listens = Some place.now }) }

        // It fails where its number is one of those that fail, and else only for want of memory.
        ensures refused { LinkRefuses self.old → IsErr result × (self.new ≡ link_failed self.old) }
        ensures lacked { OnErr result (LinkRefuses self.old ⊎ (self.new ≡ link_lacked self.old)) }
    {
        self.call()?;
        match self.keep_listens(place) {
            Ok(()) => Ok(()),
            Err(_) => Err(self.lack()),
        }
    }

    fn aim(&mut self, place: &str) -> Result<(), Failed>
        ensures makes { Makes (link_seen self.old) (aimed place.now (link_seen self.old)) (link_seen self.new) result }
        ensures after { OnOk result (self.new ≡ record (link_called self.old) { aims = Some place.now }) }

        ensures refused { LinkRefuses self.old → IsErr result × (self.new ≡ link_failed self.old) }
        ensures lacked { OnErr result (LinkRefuses self.old ⊎ (self.new ≡ link_lacked self.old)) }
    {
        self.call()?;
        match self.keep_aims(place) {
            Ok(()) => Ok(()),
            Err(_) => Err(self.lack()),
        }
    }

    fn receive(&mut self, room: &mut [u8]) -> Result<Received, Failed>
        ensures bound { IfOk result (λ r. FitsRoom r room.new) }
        ensures moves { Makes (link_seen self.old) (received_one (link_seen self.old)) (link_seen self.new) result }
        ensures gives { IfOk result (λ r. IfSome (link_seen self.old).told (λ told. GivesNext told.items r room.new)) }

        // It fails exactly where its number is one of those that fail.
        ensures fails { IsErr result ↔ LinkRefuses self.old }
        ensures after { MatchResult result
            (λ _. self.new ≡ record (link_called self.old) { items = drop 1 self.old.items })
            (λ _. self.new ≡ link_failed self.old) }
    {
        self.call()?;
        Ok(self.next(room))
    }

    fn send(&mut self, bytes: &[u8]) -> Result<(), Failed>
        ensures makes { Makes (link_seen self.old) (sent_one bytes.now (link_seen self.old)) (link_seen self.new) result }
        ensures after { OnOk result (self.new ≡ record (link_called self.old) { sent = self.old.sent ++ bytes.now ∷ [] }) }

        ensures refused { LinkRefuses self.old → IsErr result × (self.new ≡ link_failed self.old) }
        ensures lacked { OnErr result (LinkRefuses self.old ⊎ (self.new ≡ link_lacked self.old)) }
    {
        self.call()?;
        match self.keep_sent(bytes) {
            Ok(()) => Ok(()),
            Err(_) => Err(self.lack()),
        }
    }
}
