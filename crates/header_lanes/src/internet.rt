// IP headers and what stands behind them.
ghost use Rattle.std.specs.Prelude.{◌≡◌, ◌+◌, ◌≤◌, length, slice_range};
ghost use Rattle.header_lanes.specs.Numbers.{number_at};
ghost use Rattle.header_lanes.specs.Internet.{with_transport, behind_ipv4, ipv4_at, ipv6_at};

use crate::header::{HeaderFacts, Kind};
use data_format::Address;

/// Two bytes, big-endian.
pub fn number(header: &[u8], at: usize) -> u16
    requires { at + 2 ≤ length header.now }
    ensures { result ≡ number_at header.now at }
{
    u16::from(header[at]) * 256 + u16::from(header[at + 1])
}

fn ipv4_address(header: &[u8], at: usize) -> [u8; 4]
    requires { at + 4 ≤ length header.now }
    ensures { result ≡ slice_range header.now at (at + 4) }
{
    let mut address = [0; 4];
    address.copy_from_slice(&header[at..at + 4]);
    address
}

fn ipv6_address(header: &[u8], at: usize) -> [u8; 16]
    requires { at + 16 ≤ length header.now }
    ensures { result ≡ slice_range header.now at (at + 16) }
{
    let mut address = [0; 16];
    address.copy_from_slice(&header[at..at + 16]);
    address
}

/// The ports and flags of the transport header at `at`.
#[tactic(auto, unfolding(crate::specs::Internet::with_transport))]
fn read_transport(facts: &mut HeaderFacts, proto: u8, at: usize, header: &[u8])
    requires { at ≤ 82 }
    ensures { facts.new ≡ with_transport facts.old proto at header.now }
{
    let has_ports = (proto == 6 || proto == 17) && at + 4 <= header.len();
    facts.src_port = if has_ports {
        Some(number(header, at))
    } else {
        None
    };
    facts.dst_port = if has_ports {
        Some(number(header, at + 2))
    } else {
        None
    };
    facts.tcp_flags = if proto == 6 && at + 14 <= header.len() {
        Some(header[at + 13])
    } else {
        None
    };
}

#[tactic(auto, unfolding(crate::specs::Internet::behind_ipv4))]
fn read_behind_ipv4(facts: &mut HeaderFacts, base: usize, header: &[u8])
    requires base { base ≤ 22 }
    requires room { base + 20 ≤ length header.now }
    ensures { facts.new ≡ behind_ipv4 facts.old base header.now }
{
    if number(header, base + 6) % 8192 == 0 {
        read_transport(
            facts,
            header[base + 9],
            base + 4 * usize::from(header[base] % 16),
            header,
        );
    }
}

/// The IPv4 header at `base`, and the transport header behind it.
#[tactic(auto, unfolding(crate::specs::Internet::ipv4_at, crate::specs::Internet::with_ipv4))]
pub fn read_ipv4(facts: &mut HeaderFacts, base: usize, header: &[u8])
    requires { base ≤ 22 }
    ensures { facts.new ≡ ipv4_at facts.old base header.now }
{
    if header.len() < base + 20 {
        facts.kind = Kind::Short;
        return;
    }
    let first = header[base];
    if first / 16 != 4 || first % 16 < 5 {
        facts.kind = Kind::BadIp;
        return;
    }
    facts.kind = Kind::Ipv4;
    facts.proto = Some(header[base + 9]);
    facts.src = Address::V4(ipv4_address(header, base + 12));
    facts.dst = Address::V4(ipv4_address(header, base + 16));
    read_behind_ipv4(facts, base, header);
}

/// The IPv6 header at `base`, and the transport header behind it.
#[tactic(auto, unfolding(crate::specs::Internet::ipv6_at, crate::specs::Internet::with_ipv6))]
pub fn read_ipv6(facts: &mut HeaderFacts, base: usize, header: &[u8])
    requires { base ≤ 22 }
    ensures { facts.new ≡ ipv6_at facts.old base header.now }
{
    if header.len() < base + 40 {
        facts.kind = Kind::Short;
        return;
    }
    if header[base] / 16 != 6 {
        facts.kind = Kind::BadIp;
        return;
    }
    let proto = header[base + 6];
    facts.kind = Kind::Ipv6;
    facts.proto = Some(proto);
    facts.src = Address::V6(ipv6_address(header, base + 8));
    facts.dst = Address::V6(ipv6_address(header, base + 24));
    read_transport(facts, proto, base + 40, header);
}
