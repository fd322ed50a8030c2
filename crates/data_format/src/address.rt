ghost use Rattle.std.specs.Prelude.{◌≡◌, ◌≤◌, ◌%◌, length, IfOk, IfErr};
ghost use Rattle.wire_spec.specs.Spells.{Spells};
ghost use Rattle.wire_spec.specs.Fails.{Fails};
ghost use Rattle.wire_spec.specs.Heads.{address_tree};
ghost use Rattle.wire_spec.specs.Reading.{reading};
ghost use Rattle.wire_spec.specs.Spelling.{spell};
ghost use Rattle.wire_spec.specs.Tables.{agent_address};
ghost use Rattle.xdr_words.specs.Readers.{Reads, Passes, remaining};
ghost use Rattle.xdr_words.specs.Written.{Puts};

use wire_spec::{Fault, FaultKind};
use xdr_words::{Cursor, Out, OutFull};

/// The address of an agent (sFlow Version 5, section 5).
#[derive(Clone, Copy, Debug, PartialEq, Eq, Hash)]
pub enum Address {
    /// No address is given.
    Unknown,
    /// Four bytes, in the order of the network (RFC 791).
    V4([u8; 4]),
    /// Sixteen bytes, in the order of the network (RFC 8200).
    V6([u8; 16]),
}

impl Address {
    ghost use Rattle.data_format.specs.Addresses.{address_of};

    /// A word, and the address that it says: 0 none, 1 IPv4, 2 IPv6. `Short` at the item that isn't all there;
    /// `AddressType` at the word where it is above 2. A fault leaves the cursor as it was.
    pub fn read(cursor: &mut Cursor<'_>) -> Result<Address, Fault>
        ensures spelled { IfOk result (λ a. Passes (Spells cursor.old.pad agent_address (address_tree (address_of a))) cursor.old cursor.new) }
        ensures fault { IfErr result (λ f. Fails cursor.old.pad agent_address (remaining cursor.old) f) }
        ensures exact { Reads (λ a. address_tree (address_of a)) (λ f. f) cursor.old cursor.new result
            (reading cursor.old.pad agent_address (remaining cursor.old)) }
    {
        let at = cursor.at();
        Address::take(cursor, at)
    }

    // The address at this place, where the cursor stands.
    fn take(cursor: &mut Cursor<'_>, at: usize) -> Result<Address, Fault>
        requires { at ≡ cursor.old.at }
        ensures { Reads (λ a. address_tree (address_of a)) (λ f. f) cursor.old cursor.new result
            (reading cursor.old.pad agent_address (remaining cursor.old)) }
    {
        let mut next = cursor.fork();
        let address = match next.word()? {
            0 => Address::Unknown,
            1 => {
                let mut bytes = [0; 4];
                bytes.copy_from_slice(next.fixed(4)?);
                Address::V4(bytes)
            }
            2 => {
                let mut bytes = [0; 16];
                bytes.copy_from_slice(next.fixed(16)?);
                Address::V6(bytes)
            }
            found => {
                return Err(Fault {
                    at,
                    kind: FaultKind::AddressType { found },
                });
            }
        };
        *cursor = next;
        Ok(address)
    }

    /// How many bytes its spelling has.
    #[inline(always)]
    pub fn length(&self) -> usize
        ensures exact { result ≡ length (spell (address_tree (address_of self.now))) }
        ensures words { result % 4 ≡ 0 }
        ensures least { 4 ≤ result }
        ensures most { result ≤ 20 }
    {
        match self {
            Address::Unknown => 4,
            Address::V4(bytes) => 4 + size_of_array(bytes),
            Address::V6(bytes) => 4 + size_of_array(bytes),
        }
    }

    /// Its spelling, whole or not at all: the word that says its kind, and its bytes.
    pub fn write(&self, out: &mut Out<'_>) -> Result<(), OutFull>
        ensures { Puts out.old out.new result (spell (address_tree (address_of self.now))) }
    {
        let need = self.length();
        let room = out.left();
        if room < need {
            return Err(OutFull { need, room });
        }
        match self {
            Address::Unknown => out.put_word(0),
            Address::V4(bytes) => {
                out.put_word(1)?;
                out.put_fixed(bytes)
            }
            Address::V6(bytes) => {
                out.put_word(2)?;
                out.put_fixed(bytes)
            }
        }
    }
}

// How many bytes an array has.
fn size_of_array<const N: usize>(bytes: &[u8; N]) -> usize
    ensures size { result ≡ N }
    ensures length { length bytes.now ≡ N }
{
    bytes.len()
}
