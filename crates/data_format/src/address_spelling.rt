ghost use Rattle.std.specs.Prelude.{◌≡◌, ◌≤◌, ◌++◌, length};
ghost use Rattle.std.specs.Int.{w32, to_be_bytes};
ghost use Rattle.wire_spec.specs.Heads.{address_tree};
ghost use Rattle.wire_spec.specs.Spelling.{spell, padded, IsLawful};
ghost use Rattle.wire_spec.specs.Tables.{agent_address};
ghost use Rattle.data_format.specs.Addresses.{address_of};

use crate::Address;

/// The word that says the kind of an address, and its bytes.
#[derive(Clone, Copy)]
pub struct AddressParts<'a> {
    pub kind: u32,
    pub bytes: &'a [u8],
}

/// The parts that an address is written as.
pub fn address_parts(address: &Address) -> AddressParts<'_>
    ensures spelled { to_be_bytes w32 result.kind ++ padded result.bytes.now ≡ spell (address_tree (address_of address.now)) }
    ensures lawful { IsLawful agent_address (address_tree (address_of address.now)) }
    ensures most { length result.bytes.now ≤ 16 }
{
    match address {
        Address::Unknown => AddressParts {
            kind: 0,
            bytes: &[],
        },
        Address::V4(bytes) => AddressParts {
            kind: 1,
            bytes: array(bytes),
        },
        Address::V6(bytes) => AddressParts {
            kind: 2,
            bytes: array(bytes),
        },
    }
}

// The bytes of an array.
fn array<const N: usize>(bytes: &[u8; N]) -> &[u8]
    ensures same { result.now ≡ bytes.now }
    ensures length { length bytes.now ≡ N }
{
    let _ = bytes.len();
    bytes
}
