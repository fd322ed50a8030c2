ghost use Rattle.std.specs.Prelude.{◌≡◌, ℕ, ◌+◌, ◌^◌, ◌≤◌, ◌<◌, ◌++◌, false, List, [], ◌∷◌, IfOk, IfNone, IfSome, IsTrue, ◌↔◌, Some, slice_get, length, is_some, if◌then◌else◌};
ghost use Rattle.indexmap.specs.IndexMap.{set_value_at};
ghost use Rattle.books_spec.specs.Items.{Stream, Source};
ghost use Rattle.books_spec.specs.Generations.{booked};
ghost use Rattle.books_spec.specs.SourceViews.{PlacedReading, place_in, placed_mark};
ghost use Rattle.books_spec.specs.Listing.{same_source, among, first_arrivals, unlisted};
ghost use Rattle.stream_books.specs.Sources.{StandsFor, is_flow, width_of, boot_of, entered_count};
ghost use Rattle.collector_tables.specs.declared.keys.SourceKey.{SourceKey};
ghost use Rattle.collector_tables.specs.Kinds.{is_flow_kind};
ghost use Rattle.collector_tables.specs.Keys.{source_in, same_key, IsPlaced};
ghost use Rattle.collector_tables.specs.Tables.{keys_in};
ghost use Rattle.collector_tables.specs.Sources.{AreEmpty, after_reading, SourcesStand};
ghost use Rattle.collector_tables.specs.Enters.{Enters};

use crate::keys::{SampleKind, SourceKey};
use indexmap::IndexMap;
use std::alloc::{AllocError, Global};
use std::hash::RandomState;
use std::marker::Model;
use stream_books::{Booked, SamplePlace, SampleReading, SourceRecord};

/// Where a sample was entered, and what was answered.
#[derive(Clone, Copy, Debug)]
pub struct EnteredAt {
    /// The place of its source among those listed, from 0 on in order of first arrival.
    pub place: u32,
    /// The answer of the ledger of its source.
    pub booked: Booked,
}

/// The sources that are listed, in order of first arrival, in room that was taken at the opening.
#[derive(Drop)]
pub struct SourceTable {
    map: IndexMap<SourceKey, SourceRecord, RandomState>,
    /// How many sources are listed at most.
    limit: u32,
}

impl Model for SourceTable {
    ghost use Rattle.std.specs.Prelude.{◌+◌, ◌≤◌};
    ghost use Rattle.indexmap.specs.IndexMap.{index_map_len, spare};
    ghost use Rattle.collector_tables.specs.declared.keys.SourceKey.{SourceKey};
    ghost use Rattle.stream_books.specs.declared.source.SourceRecord.{SourceRecord};
    ghost use Rattle.collector_tables.specs.Tables.{Table};

    ghost Value = { Table SourceKey SourceRecord };

    ghost view = { λ t. record { entries = t.map.entries; limit = t.limit } };

    // The room was taken at the opening, and no more are listed.
    ghost invariant = { λ t. (t.limit ≤ index_map_len t.map + spare t.map) × (index_map_len t.map ≤ t.limit) };
}

impl SourceTable {
    ghost use Rattle.stream_books.specs.declared.source.SourceRecord.{SourceRecord};

    /// No source is listed; there is room for so many.
    pub fn open(alloc: Global, limit: u32, seed: RandomState) -> Result<SourceTable, AllocError>
        ensures { IfOk result (λ t. (t.entries ≡ []) × (t.limit ≡ limit)) }
    {
        let map = IndexMap::with_capacity_and_hasher(alloc, limit as usize, seed)?;
        Ok(SourceTable { map, limit })
    }

    // Whether all sources that may be listed are.
    fn is_full(&self) -> bool
        ensures { IsTrue result ↔ (self.now.limit ≤ length self.now.entries) }
    {
        self.map.len() >= self.limit as usize
    }

    // How many there is room for in all.
    #[cfg(test)]
    pub(crate) fn room(&self) -> usize {
        self.map.capacity()
    }

    /// How many sources are listed.
    pub fn len(&self) -> usize
        ensures { result ≡ length self.now.entries }
    {
        self.map.len()
    }

    /// The source at a place, and what is kept of it; `None` exactly past the end.
    pub fn get(&self, place: usize) -> Option<(&SourceKey, &SourceRecord)>
        ensures some { IfSome result (λ r. slice_get self.now.entries place ≡ Some (r.0.now, r.1.now)) }
        ensures none { IfNone result (length self.now.entries ≤ place) }
    {
        self.map.get_index(place)
    }

    // The place of a source, if it is listed.
    fn place(&self, key: &SourceKey) -> Option<usize>
        ensures some { IfSome result (λ p. (v : SourceRecord) × (slice_get self.now.entries p ≡ Some (key.now, v))) }
        ensures none { IfNone result (among same_key (keys_in (λ (k : SourceKey). k) self.now.entries) key.now ≡ false) }
    {
        self.map.get_index_of(key)
    }

    // Lists a source behind the others, where there is room and it isn't listed yet.
    fn add(&mut self, key: SourceKey, source: SourceRecord)
        requires room { length self.old.entries < self.old.limit }
        requires new { among same_key (keys_in (λ (k : SourceKey). k) self.old.entries) key ≡ false }
        ensures entries { self.new.entries ≡ self.old.entries ++ (key, source) ∷ [] }
        ensures limit { self.new.limit ≡ self.old.limit }
    {
        self.map.insert(key, source).unwrap();
    }

    // Enters what a sample of this boot shows into the source at a place.
    #[inline(always)]
    fn enter_at(
        &mut self,
        place: usize,
        boot: u64,
        at: SamplePlace,
        reading: SampleReading,
    ) -> EnteredAt
        requires place { place < length self.old.entries }
        requires boot_counts { 1 ≤ boot }
        requires ready { (k : SourceKey) (was : SourceRecord) → slice_get self.old.entries place ≡ Some (k, was)
            → (boot_of was ≤ boot) × (entered_count was < 2 ^ 62) }
        ensures now { (k : SourceKey) (was : SourceRecord) → slice_get self.old.entries place ≡ Some (k, was)
            → (now : SourceRecord) × (self.new.entries ≡ set_value_at self.old.entries place now)
            × Enters boot (record { place = at; reading = reading }) was now result.booked }
        ensures place { result.place ≡ place }
        ensures limit { self.new.limit ≡ self.old.limit }
    {
        let source = &mut self.map[place];
        let booked = source.enter(boot, at, reading);
        EnteredAt {
            place: place as u32,
            booked,
        }
    }

    /// Enters what a sample of a source shows that stands at this place in this boot of its stream, which is that of
    /// the last sample or a later one; `None` exactly where the source is new and there is no room. The windows have
    /// this width, from 1 to 8,192. Fewer than 2^62 samples of each source were entered before.
    #[inline(always)]
    pub fn enter(
        &mut self,
        key: SourceKey,
        width: u32,
        boot: u64,
        at: SamplePlace,
        reading: SampleReading,
    ) -> Option<EnteredAt>
        requires width_from { 1 ≤ width }
        requires width_to { width ≤ 8192 }
        requires boot_counts { 1 ≤ boot }
        requires ready { (p : ℕ) (was : SourceRecord) → slice_get self.old.entries p ≡ Some (key, was)
            → (boot_of was ≤ boot) × (entered_count was < 2 ^ 62) }
        ensures stands { (streams : List Stream) (arrived : List Source) (boots_of : Source → List (List PlacedReading))
            (current : List PlacedReading) (closed : List (List PlacedReading)) → IsPlaced streams key
            → boots_of (source_in streams key) ≡ current ∷ closed → length closed + 1 ≡ boot
            → (among same_source (first_arrivals same_source arrived) (source_in streams key) ≡ false
            → AreEmpty (current ∷ closed))
            → SourcesStand streams self.old.limit width self.old.entries arrived boots_of
            → SourcesStand streams self.old.limit width self.new.entries (source_in streams key ∷ arrived)
            (after_reading (source_in streams key) (record { place = at; reading = reading }) boots_of) }
        ensures answer { (streams : List Stream) (arrived : List Source) (boots_of : Source → List (List PlacedReading))
            (current : List PlacedReading) (closed : List (List PlacedReading)) → IsPlaced streams key
            → boots_of (source_in streams key) ≡ current ∷ closed → length closed + 1 ≡ boot
            → (among same_source (first_arrivals same_source arrived) (source_in streams key) ≡ false
            → AreEmpty (current ∷ closed))
            → SourcesStand streams self.old.limit width self.old.entries arrived boots_of
            → IfSome result (λ r. r.booked
            ≡ booked place_in placed_mark width current (record { place = at; reading = reading })) }
        ensures counted { (streams : List Stream) (arrived : List Source) (boots_of : Source → List (List PlacedReading))
            → IsPlaced streams key → SourcesStand streams self.old.limit width self.old.entries arrived boots_of
            → unlisted same_source self.old.limit (source_in streams key ∷ arrived)
            ≡ unlisted same_source self.old.limit arrived + (if is_some result then 0 else 1) }
        ensures place { IfSome result (λ r. (now : SourceRecord) × (slice_get self.new.entries r.place ≡ Some (key, now))) }
        ensures limit { self.new.limit ≡ self.old.limit }
    {
        if let Some(place) = self.place(&key) {
            return Some(self.enter_at(place, boot, at, reading));
        }
        if self.is_full() {
            return None;
        }
        Some(self.enter_new(key, width, boot, at, reading))
    }

    // Enters what a sample of this boot shows into a source that isn't listed yet, where there is room.
    fn enter_new(
        &mut self,
        key: SourceKey,
        width: u32,
        boot: u64,
        at: SamplePlace,
        reading: SampleReading,
    ) -> EnteredAt
        requires width_from { 1 ≤ width }
        requires width_to { width ≤ 8192 }
        requires boot_counts { 1 ≤ boot }
        requires room { length self.old.entries < self.old.limit }
        requires new { among same_key (keys_in (λ (k : SourceKey). k) self.old.entries) key ≡ false }
        ensures now { (was : SourceRecord) × (now : SourceRecord)
            × (self.new.entries ≡ self.old.entries ++ (key, now) ∷ [])
            × (is_flow was ≡ is_flow_kind key.kind) × (width_of was ≡ width) × StandsFor was []
            × Enters boot (record { place = at; reading = reading }) was now result.booked }
        ensures place { result.place ≡ length self.old.entries }
        ensures limit { self.new.limit ≡ self.old.limit }
    {
        let place = self.map.len() as u32;
        let mut source = opened(key.kind, width);
        let booked = source.enter(boot, at, reading);
        self.add(key, source);
        EnteredAt { place, booked }
    }
}

// Nothing came yet from a source of this kind.
fn opened(kind: SampleKind, width: u32) -> SourceRecord
    requires width_from { 1 ≤ width }
    requires width_to { width ≤ 8192 }
    ensures stands { StandsFor result [] }
    ensures kind { is_flow result ≡ is_flow_kind kind }
    ensures width { width_of result ≡ width }
    ensures boot { boot_of result ≡ 0 }
    ensures entered { entered_count result ≡ 0 }
{
    match kind {
        SampleKind::Flow => SourceRecord::open_flow(width),
        SampleKind::Counters => SourceRecord::open_counters(width),
    }
}
