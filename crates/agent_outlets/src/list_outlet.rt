ghost use Rattle.std.specs.Prelude.{◌≡◌, ◌⊎◌, ◌++◌, [], ◌∷◌, map, Contains, IsErr, OnOk, OnErr};
ghost use Rattle.agent_spec.specs.Counting.{next_count};
ghost use Rattle.agent_outlets.specs.Outlets.{Took, put_view, outlet_taken, outlet_faults, outlet_put, outlet_failed, outlet_lacked};

use crate::outlet::Outlet;
use data_format::Failed;
use std::alloc::{AllocError, Global};
use std::marker::Model;

/// A datagram that was put.
#[derive(Debug, Drop)]
pub struct Put {
    /// The number of its boot, counted from 1.
    pub boot: u64,
    /// Its own number in the boot, counted from 1.
    pub number: u64,
    /// Its bytes.
    pub bytes: Vec<u8>,
}

/// An outlet over memory, which shows what it took. Chosen puts fail, so that a fault can be tried.
#[derive(Drop)]
pub struct ListOutlet {
    alloc: Global,
    puts: Vec<Put>,
    fails: Vec<u64>,
    calls: u64,
    faults: u64,
    lacked: u64,
}

impl Model for ListOutlet {
    ghost use Rattle.std.specs.Prelude.{map};
    ghost use Rattle.agent_outlets.specs.Outlets.{OutletState, put_view};

    ghost Value = { OutletState };

    ghost view = { λ o. record {
      taken = map put_view o.puts.items;
      fails = o.fails.items;
      calls = o.calls;
      faults = o.faults;
      lacked = o.lacked;
    } };
}

impl ListOutlet {
    /// An outlet that took nothing yet. `fails` holds the numbers of the puts that fail, counted from 1; a number stays
    /// at 2^64 - 1.
    pub fn new(alloc: Global, fails: Vec<u64>) -> ListOutlet
        ensures { result ≡ record { taken = []; fails = fails.items; calls = 0; faults = 0; lacked = 0 } }
    {
        ListOutlet {
            alloc,
            puts: Vec::new(alloc),
            fails,
            calls: 0,
            faults: 0,
            lacked: 0,
        }
    }

    /// The datagrams that were taken, in order.
    pub fn puts(&self) -> &[Put]
        ensures { map put_view result.now ≡ self.now.taken }
    {
        &self.puts
    }

    /// How many puts failed for want of memory, up to 2^64 - 1.
    pub fn lacked(&self) -> u64
        ensures { result ≡ self.now.lacked }
    {
        self.lacked
    }

    // One more put failed.
    fn fault(&mut self) -> Failed
        ensures { self.new ≡ record self.old { faults = next_count self.old.faults } }
    {
        self.faults = self.faults.saturating_add(1);
        Failed
    }

    // Keeps a datagram.
    fn keep(&mut self, boot: u64, number: u64, bytes: &[u8]) -> Result<(), AllocError>
        ensures kept { OnOk result (self.new ≡ record self.old {
          taken = self.old.taken ++ record { boot = boot; number = number; bytes = bytes.now } ∷ [];
        }) }
        ensures unchanged { OnErr result (self.new ≡ self.old) }
    {
        let mut copy = Vec::new(self.alloc);
        copy.extend_from_slice(bytes)?;
        self.puts.push(Put {
            boot,
            number,
            bytes: copy,
        })?;
        Ok(())
    }
}

impl Outlet for ListOutlet {
    ghost taken = { outlet_taken };

    ghost faults = { outlet_faults };

    fn put(&mut self, boot: u64, number: u64, bytes: &[u8]) -> Result<(), Failed>
        ensures taken { OnOk result (Took (outlet_taken self.old) (outlet_taken self.new)
            (record { boot = boot; number = number; bytes = bytes.now } ∷ [])) }
        ensures unchanged { OnErr result (outlet_taken self.new ≡ outlet_taken self.old) }
        ensures kept { OnOk result (outlet_faults self.new ≡ outlet_faults self.old) }
        ensures failed { OnErr result (outlet_faults self.new ≡ next_count (outlet_faults self.old)) }

        ensures after { OnOk result (self.new ≡ outlet_put (record { boot = boot; number = number; bytes = bytes.now }) self.old) }

        // It fails where its number is one of those that fail, and else only for want of memory.
        ensures refused { Contains self.old.fails (next_count self.old.calls) → IsErr result × (self.new ≡ outlet_failed self.old) }
        ensures lacked { OnErr result (Contains self.old.fails (next_count self.old.calls) ⊎ (self.new ≡ outlet_lacked self.old)) }
    {
        self.calls = self.calls.saturating_add(1);
        if self.fails.contains(&self.calls) {
            return Err(self.fault());
        }
        if self.keep(boot, number, bytes).is_err() {
            self.lacked = self.lacked.saturating_add(1);
            return Err(self.fault());
        }
        Ok(())
    }
}
