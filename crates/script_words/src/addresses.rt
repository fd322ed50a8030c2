// Words that are addresses.
ghost use Rattle.std.specs.Prelude.{◌≡◌, option_map};
ghost use Rattle.data_format.specs.Addresses.{address_of};
ghost use Rattle.wire_spec.specs.Heads.{ipv4, ipv6};
ghost use Rattle.script_spec.specs.Parts.{one};
ghost use Rattle.script_spec.specs.Values.{address, dotted, four_bytes, group, grouped, sixteen_bytes};
ghost use Rattle.script_words.specs.Taken.{Reads, Takes};

use crate::hex::hex_byte;
use crate::words::Words;
use data_format::Address;

// Four numbers with a dot between each two.
fn dotted_in(word: &[u8]) -> Option<Address>
    ensures { option_map address_of result ≡ option_map (λ x. ipv4 (four_bytes x)) (dotted.read word.now) }
{
    let mut words = Words::new(word, b'.');
    let a = words.number(0, 255)? as u8;
    let b = words.number(0, 255)? as u8;
    let c = words.number(0, 255)? as u8;
    let d = words.number(0, 255)? as u8;
    words.end()?;
    Some(Address::V4([a, b, c, d]))
}

// Four hexadecimal digits.
fn group_in(word: &[u8]) -> Option<(u8, u8)>
    ensures { Reads (λ x. x) group word.now result }
{
    if word.len() != 4 {
        return None;
    }
    let first = hex_byte(word[0], word[1])?;
    let second = hex_byte(word[2], word[3])?;
    Some((first, second))
}

// Eight groups with a colon between each two.
fn grouped_in(word: &[u8]) -> Option<Address>
    ensures { option_map address_of result ≡ option_map (λ x. ipv6 (sixteen_bytes x)) (grouped.read word.now) }
{
    let mut words = Words::new(word, b':');
    let a = words.group()?;
    let b = words.group()?;
    let c = words.group()?;
    let d = words.group()?;
    let e = words.group()?;
    let f = words.group()?;
    let g = words.group()?;
    let h = words.group()?;
    words.end()?;
    Some(Address::V6([
        a.0, a.1, b.0, b.1, c.0, c.1, d.0, d.1, e.0, e.1, f.0, f.1, g.0, g.1, h.0, h.1,
    ]))
}

/// The address that the word writes: an IPv4 address (RFC 791) in its dotted form, or one of IPv6 (RFC 8200) in eight
/// groups of four hexadecimal digits. None for any other word.
pub fn address_in(word: &[u8]) -> Option<Address>
    ensures { option_map address_of result ≡ address.read word.now }
{
    match dotted_in(word) {
        Some(address) => Some(address),
        None => grouped_in(word),
    }
}

impl<'a> Words<'a> {
    fn group(&mut self) -> Option<(u8, u8)>
        ensures { Takes (λ x. x) (one group) self.old self.new result }
    {
        group_in(self.next()?)
    }

    /// An address.
    pub fn address(&mut self) -> Option<Address>
        ensures { Takes address_of (one address) self.old self.new result }
    {
        address_in(self.next()?)
    }
}
