ghost use Rattle.std.specs.Prelude.{◌≡◌};

use wire_spec::{Fault, FaultKind};

/// What is wrong with one item. Places count bytes from the datagram's first byte on.
#[derive(Clone, Copy, Debug, PartialEq, Eq)]
pub enum XdrFault {
    /// The item at `at` takes `need` bytes with its padding, and only `left` are left.
    Short { at: usize, need: u64, left: u64 },
    /// The padding byte at `at` isn't zero, and is the first such byte of the item.
    Pad { at: usize },
}

impl From<XdrFault> for Fault {
    ghost use Rattle.std.specs.Prelude.{◌≡◌};
    ghost use Rattle.xdr_words.specs.Items.{fault_of};

    ghost from_gives = { λ x f. f ≡ fault_of x };

    fn from(x: XdrFault) -> Fault {
        match x {
            XdrFault::Short { at, need, left } => Fault {
                at,
                kind: FaultKind::Short { need, left },
            },
            XdrFault::Pad { at } => Fault {
                at,
                kind: FaultKind::Pad,
            },
        }
    }
}
