ghost use Rattle.std.specs.Prelude.{◌≡◌, ℕ, ◌+◌, ◌^◌, ◌≤◌, ◌<◌, ◌++◌, true, false, List, [], ◌∷◌, IfOk, IfNone, IfSome, IsTrue, ◌↔◌, Some, slice_get, length};
ghost use Rattle.indexmap.specs.IndexMap.{set_value_at};
ghost use Rattle.books_spec.specs.Items.{Datagram, Item, Got, stream_of};
ghost use Rattle.books_spec.specs.declared.limits.Limits.{Limits};
ghost use Rattle.books_spec.specs.Books.{taken_now, stream_boots};
ghost use Rattle.books_spec.specs.Listing.{same_stream, among};
ghost use Rattle.stream_books.specs.Receipts.{receipt_in};
ghost use Rattle.stream_books.specs.Streams.{StreamState, StandsFor, IsAt};
ghost use Rattle.collector_tables.specs.declared.keys.StreamKey.{StreamKey};
ghost use Rattle.collector_tables.specs.Listed.{StreamsStand};
ghost use Rattle.collector_tables.specs.Takes.{Takes};
ghost use Rattle.collector_tables.specs.Answers.{answer_in_books};
ghost use Rattle.collector_tables.specs.Keys.{stream_in};
ghost use Rattle.collector_tables.specs.Tables.{keys_in};

use crate::keys::StreamKey;
use indexmap::IndexMap;
use std::alloc::{AllocError, Global};
use std::hash::RandomState;
use std::marker::Model;
use stream_books::{Receipt, StreamRecord};

/// What was answered to a datagram, and where.
#[derive(Clone, Copy, Debug)]
pub struct TakenAt {
    /// The answer of what is kept of its stream.
    pub receipt: Receipt,
    /// The place of its stream among those listed, from 0 on in order of first arrival.
    pub place: u32,
    /// How many boots its stream had by then: the number of the current one.
    pub boot: u64,
}

/// The streams that are listed, in order of first arrival, in room that was taken at the opening.
#[derive(Drop)]
pub struct StreamTable {
    map: IndexMap<StreamKey, StreamRecord, RandomState>,
    /// How many streams are listed at most.
    limit: u32,
}

impl Model for StreamTable {
    ghost use Rattle.std.specs.Prelude.{◌+◌, ◌≤◌};
    ghost use Rattle.indexmap.specs.IndexMap.{index_map_len, spare};
    ghost use Rattle.collector_tables.specs.declared.keys.StreamKey.{StreamKey};
    ghost use Rattle.stream_books.specs.Streams.{StreamState};
    ghost use Rattle.collector_tables.specs.Tables.{Table};

    ghost Value = { Table StreamKey StreamState };

    ghost view = { λ t. record { entries = t.map.entries; limit = t.limit } };

    // The room was taken at the opening, and no more are listed.
    ghost invariant = { λ t. (t.limit ≤ index_map_len t.map + spare t.map) × (index_map_len t.map ≤ t.limit) };
}

impl StreamTable {
    /// No stream is listed; there is room for so many.
    pub fn open(alloc: Global, limit: u32, seed: RandomState) -> Result<StreamTable, AllocError>
        ensures { IfOk result (λ t. (t.entries ≡ []) × (t.limit ≡ limit)) }
    {
        let map = IndexMap::with_capacity_and_hasher(alloc, limit as usize, seed)?;
        Ok(StreamTable { map, limit })
    }

    // Whether all streams that may be listed are.
    fn is_full(&self) -> bool
        ensures { IsTrue result ↔ (self.now.limit ≤ length self.now.entries) }
    {
        self.map.len() >= self.limit as usize
    }

    // How many there is room for in all.
    #[cfg(test)]
    pub(crate) fn room(&self) -> usize {
        self.map.capacity()
    }

    /// How many streams are listed.
    pub fn len(&self) -> usize
        ensures { result ≡ length self.now.entries }
    {
        self.map.len()
    }

    /// The stream at a place, and what is kept of it; `None` exactly past the end.
    pub fn get(&self, place: usize) -> Option<(&StreamKey, &StreamRecord)>
        ensures some { IfSome result (λ r. slice_get self.now.entries place ≡ Some (r.0.now, r.1.now)) }
        ensures none { IfNone result (length self.now.entries ≤ place) }
    {
        self.map.get_index(place)
    }

    // The place of a stream, if it is listed.
    fn place(&self, key: &StreamKey) -> Option<usize>
        ensures some { IfSome result (λ p. (k : StreamKey) × (v : StreamState)
            × (slice_get self.now.entries p ≡ Some (k, v)) × (stream_in k ≡ stream_in key.now)) }
        ensures none { IfNone result
            (among same_stream (keys_in stream_in self.now.entries) (stream_in key.now) ≡ false) }
    {
        self.map.get_index_of(key)
    }

    // Lists a stream behind the others, where there is room and it isn't listed yet.
    fn add(&mut self, key: StreamKey, stream: StreamRecord)
        requires room { length self.old.entries < self.old.limit }
        requires new { among same_stream (keys_in stream_in self.old.entries) (stream_in key) ≡ false }
        ensures entries { self.new.entries ≡ self.old.entries ++ (key, stream) ∷ [] }
        ensures limit { self.new.limit ≡ self.old.limit }
    {
        self.map.insert(key, stream).unwrap();
    }

    // Takes a datagram of the stream at a place.
    fn take_at(
        &mut self,
        place: usize,
        slack: u32,
        arrival: u64,
        uptime: u32,
        sequence: u32,
    ) -> TakenAt
        requires place { place < length self.old.entries }
        requires few { (k : StreamKey) (was : StreamState) → slice_get self.old.entries place ≡ Some (k, was)
            → was.ledger.marks.entered + was.stale < 2 ^ 62 }
        ensures now { (k : StreamKey) (was : StreamState) → slice_get self.old.entries place ≡ Some (k, was)
            → (now : StreamState) × (self.new.entries ≡ set_value_at self.old.entries place now)
            × Takes slack arrival uptime sequence was now result.receipt
            × (result.boot ≡ now.ledger.boot) }
        ensures place { result.place ≡ place }
        ensures limit { self.new.limit ≡ self.old.limit }
    {
        let stream = &mut self.map[place];
        let receipt = stream.take(slack, arrival, uptime, sequence);
        TakenAt {
            receipt,
            place: place as u32,
            boot: stream.boots(),
        }
    }

    /// Takes a datagram of a stream, with its arrival and its uptime in ms and its sequence number: `None` exactly
    /// where the stream is new and there is no room, else what is answered of it, its place, its boot and its number.
    /// The windows have this width, from 1 to 8,192; the boot marks of one boot may differ by the slack, in ms. Fewer
    /// than 2^62 datagrams of each stream were taken before.
    pub fn take(
        &mut self,
        key: StreamKey,
        width: u32,
        slack: u32,
        arrival: u64,
        uptime: u32,
        sequence: u32,
    ) -> Option<TakenAt>
        requires width_from { 1 ≤ width }
        requires width_to { width ≤ 8192 }
        requires few { (p : ℕ) (k : StreamKey) (was : StreamState) → slice_get self.old.entries p ≡ Some (k, was)
            → was.ledger.marks.entered + was.stale < 2 ^ 62 }
        ensures stands { (l : Limits) (items : List Item) (d : Datagram) → l.streams ≡ self.old.limit
            → l.datagram_width ≡ width → l.boot_slack ≡ slack → stream_in key ≡ stream_of d
            → IsAt d arrival uptime sequence → StreamsStand l self.old.entries items
            → StreamsStand l self.new.entries (Got d ∷ items) }
        ensures answer { (l : Limits) (items : List Item) (d : Datagram) → l.streams ≡ self.old.limit
            → l.datagram_width ≡ width → l.boot_slack ≡ slack → stream_in key ≡ stream_of d
            → IsAt d arrival uptime sequence → StreamsStand l self.old.entries items
            → answer_in_books result ≡ taken_now l items (Got d) }
        ensures number { (l : Limits) (items : List Item) (d : Datagram) → l.streams ≡ self.old.limit
            → l.datagram_width ≡ width → l.boot_slack ≡ slack → stream_in key ≡ stream_of d
            → IsAt d arrival uptime sequence → StreamsStand l self.old.entries items
            → IfSome result (λ r. r.receipt.number
            ≡ (receipt_in l.boot_slack l.datagram_width (stream_boots l (stream_of d) items) d).number) }
        ensures place { IfSome result (λ r. (k : StreamKey) × (now : StreamState)
            × (slice_get self.new.entries r.place ≡ Some (k, now)) × (stream_in k ≡ stream_in key)
            × (r.boot ≡ now.ledger.boot)) }
        ensures limit { self.new.limit ≡ self.old.limit }
    {
        if let Some(place) = self.place(&key) {
            return Some(self.take_at(place, slack, arrival, uptime, sequence));
        }
        if self.is_full() {
            return None;
        }
        Some(self.take_new(key, width, slack, arrival, uptime, sequence))
    }

    // Takes a datagram of a stream that isn't listed yet, where there is room.
    fn take_new(
        &mut self,
        key: StreamKey,
        width: u32,
        slack: u32,
        arrival: u64,
        uptime: u32,
        sequence: u32,
    ) -> TakenAt
        requires width_from { 1 ≤ width }
        requires width_to { width ≤ 8192 }
        requires room { length self.old.entries < self.old.limit }
        requires new { among same_stream (keys_in stream_in self.old.entries) (stream_in key) ≡ false }
        ensures now { (was : StreamState) × (now : StreamState)
            × (self.new.entries ≡ self.old.entries ++ (key, now) ∷ [])
            × (was.ledger.marks.width ≡ width) × ((slack : ℕ) → StandsFor slack was [])
            × Takes slack arrival uptime sequence was now result.receipt
            × (result.boot ≡ now.ledger.boot) }
        ensures place { result.place ≡ length self.old.entries }
        ensures limit { self.new.limit ≡ self.old.limit }
    {
        let place = self.map.len() as u32;
        let mut stream = StreamRecord::open(width);
        let receipt = stream.take(slack, arrival, uptime, sequence);
        let boot = stream.boots();
        self.add(key, stream);
        TakenAt {
            receipt,
            place,
            boot,
        }
    }
}
