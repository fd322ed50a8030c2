// Sixteen headers, scanned together.
ghost use Rattle.std.specs.Prelude.{◌≡◌, ◌↔◌, ◌+◌, ◌-◌, ◌<◌, ◌≤◌, [], ◌∷◌, ◌++◌, length, replicate, IfOk, IfErr, IsErr};
ghost use Rattle.header_lanes.specs.declared.header.Kind.TheVariants.{Unscanned};
ghost use Rattle.header_lanes.specs.Numbers.{bare};
ghost use Rattle.header_lanes.specs.Facts.{facts};

use crate::columns::{Columns, outline_of};
use crate::header::HeaderFacts;
use crate::slot::Slot;
use std::marker::Model;

/// Sixteen headers are held.
#[derive(Debug, Clone, Copy, PartialEq, Eq)]
pub struct BatchFull;

/// At most sixteen headers, and the facts that are owed for them, in the order in which they came.
#[derive(Debug, Drop)]
pub struct Batch {
    held: usize,
    slots: [Slot; 16],
    columns: Columns,
}

impl Model for Batch {
    ghost use Rattle.std.specs.Prelude.{◌≡◌, ◌≤◌, List, length, map, take};
    ghost use Rattle.header_lanes.specs.declared.header.HeaderFacts.{HeaderFacts};
    ghost use Rattle.header_lanes.specs.Slots.{AreColumns, owed};

    ghost Value = { List HeaderFacts };

    ghost view = { λ b. take b.held (map owed b.slots) };

    ghost invariant = { λ b. (b.held ≤ 16) × (length b.slots ≡ 16) × AreColumns b.columns b.slots };
}

impl Batch {
    /// No header.
    pub fn new() -> Batch
        ensures { result ≡ [] }
    {
        Batch {
            held: 0,
            slots: [Slot {
                protocol: 0,
                len: 0,
                bytes: [0; 96],
            }; 16],
            columns: Columns::new(),
        }
    }

    /// How many headers are held, at most 16.
    pub fn len(&self) -> usize
        ensures length { result ≡ length self.now }
        ensures most { result ≤ 16 }
    {
        self.held
    }

    /// Lets all headers go.
    pub fn clear(&mut self)
        ensures { self.new ≡ [] }
    {
        self.held = 0;
    }

    /// Takes a header, of which at most the first 128 bytes count. `BatchFull` exactly where 16 are held; then the batch stays as it was.
    pub fn push(&mut self, protocol: u32, header: &[u8]) -> Result<(), BatchFull>
        ensures taken { IfOk result (λ _. self.new ≡ self.old ++ facts protocol header.now ∷ []) }
        ensures kept { IfErr result (λ _. self.new ≡ self.old) }
        ensures full { IsErr result ↔ (length self.old ≡ 16) }
    {
        if self.held == 16 {
            return Err(BatchFull);
        }
        self.slots[self.held].fill(protocol, header);
        self.columns.put(self.held, protocol, header);
        self.held += 1;
        Ok(())
    }

    /// The facts of the headers held, in order, and none behind them.
    pub fn scan(&self, facts: &mut [HeaderFacts; 16])
        ensures { facts.new ≡ self.now ++ replicate (16 - length self.now) (bare Unscanned) }
    {
        let told = outline_of(&self.slots, &self.columns);
        *facts = [HeaderFacts::none(); 16];
        for k in 0..self.held {
            self.slots[k].tell(
                &mut facts[k],
                told.paths[k],
                told.bases[k],
                told.vlans[k],
                told.types[k],
            );
        }
    }
}
