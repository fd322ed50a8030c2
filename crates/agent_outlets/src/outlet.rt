ghost use Rattle.std.specs.Prelude.{◌≡◌, [], ◌∷◌, OnOk, OnErr};
ghost use Rattle.agent_spec.specs.Counting.{next_count};
ghost use Rattle.agent_outlets.specs.Outlets.{Took};

use data_format::Failed;

/// What takes the datagrams of an agent.
pub trait Outlet {
    ghost use Rattle.std.specs.Prelude.{ℕ, List, Option};
    ghost use Rattle.agent_outlets.specs.Outlets.{PutView};

    /// The datagrams that it took, or None where it doesn't tell them.
    ghost taken: { Self → Option (List PutView) };

    /// How many puts have failed, up to 2^64 - 1.
    ghost faults: { Self → ℕ };

    /// Takes a datagram: the number of its boot, counted from 1, its own number in the boot, counted from 1, and its
    /// bytes. `Failed` comes only where the count of faults rose in this call; then nothing was taken.
    fn put(&mut self, boot: u64, number: u64, bytes: &[u8]) -> Result<(), Failed>
        ensures taken { OnOk result (Took (taken self.old) (taken self.new) (record { boot = boot; number = number; bytes = bytes.now } ∷ [])) }
        ensures unchanged { OnErr result (taken self.new ≡ taken self.old) }
        ensures kept { OnOk result (faults self.new ≡ faults self.old) }
        ensures failed { OnErr result (faults self.new ≡ next_count (faults self.old)) };
}

/// The outlet failed: its count of faults rose.
#[derive(Clone, Copy, Debug, PartialEq, Eq)]
pub struct OutletFault;
