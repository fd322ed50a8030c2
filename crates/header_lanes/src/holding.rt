// How a header is held, and what is made of it by what the lanes tell.
ghost use Rattle.std.specs.Prelude.{◌≡◌, take};
ghost use Rattle.header_lanes.specs.Slots.{head, owed, flag, has_type, has_vlan, path, base, slot_vlan, slot_type, kind_of_path};

use crate::header::{HeaderFacts, Kind, only};
use crate::internet::{number, read_ipv4, read_ipv6};
use crate::slot::Slot;

// The kind that goes with what follows a type.
fn kind_by(follows: u8) -> Kind
    ensures { result ≡ kind_of_path follows }
{
    match follows {
        0 => Kind::Unscanned,
        1 => Kind::Short,
        2 => Kind::Length,
        3 => Kind::Undefined,
        4 => Kind::Arp,
        5 => Kind::Ipv4,
        6 => Kind::Ipv6,
        _ => Kind::OtherType,
    }
}

impl Slot {
    /// Holds a header.
    pub fn fill(&mut self, protocol: u32, header: &[u8])
        ensures head { head self.new ≡ take 96 header.now }
        ensures protocol { self.new.protocol ≡ protocol }
    {
        self.protocol = protocol;
        if header.len() < 96 {
            self.len = header.len();
            self.bytes[..header.len()].copy_from_slice(header);
        } else {
            self.len = 96;
            self.bytes.copy_from_slice(&header[..96]);
        }
    }

    // The VLAN, where its flag is set.
    fn vlan(&self, tagged: u8) -> Option<u16>
        requires { tagged ≡ flag (has_vlan self.now) }
        ensures { result ≡ slot_vlan self.now }
    {
        if tagged == 255 {
            Some(number(&self.bytes, 14) % 4096)
        } else {
            None
        }
    }

    // The type, which stands before the place of an IP header, where its flag is set.
    fn ethertype(&self, start: u8, typed: u8) -> Option<u16>
        requires start { start ≡ base self.now }
        requires typed { typed ≡ flag (has_type self.now) }
        ensures { result ≡ slot_type self.now }
    {
        if typed == 255 {
            Some(number(&self.bytes, usize::from(start).saturating_sub(2)))
        } else {
            None
        }
    }

    /// The facts, where the lanes tell what follows, where it stands, and which facts a frame has.
    pub fn tell(&self, facts: &mut HeaderFacts, follows: u8, start: u8, tagged: u8, typed: u8)
        requires follows { follows ≡ path self.now }
        requires start { start ≡ base self.now }
        requires tagged { tagged ≡ flag (has_vlan self.now) }
        requires typed { typed ≡ flag (has_type self.now) }
        ensures { facts.new ≡ owed self.now }
    {
        *facts = only(Kind::Short);
        facts.vlan = self.vlan(tagged);
        facts.ethertype = self.ethertype(start, typed);
        let header = &self.bytes[..self.len.min(self.bytes.len())];
        match follows {
            5 => read_ipv4(facts, usize::from(start), header),
            6 => read_ipv6(facts, usize::from(start), header),
            _ => facts.kind = kind_by(follows),
        }
    }
}
