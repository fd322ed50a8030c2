ghost use Rattle.std.specs.Prelude.{◌≡◌, ◌+◌, ◌*◌, ◌<◌, ◌≤◌, length, slice_range, IfOk, IfSome};
ghost use Rattle.wire_spec.specs.Heads.{ipv4, ipv6};
ghost use Rattle.data_format.specs.Addresses.{address_of};
ghost use Rattle.capture_spec.specs.Payloads.{payload_of, pair, is_tag, type_place, payload_behind, typed_payload, ipv4_payload, ipv6_payload, udp_payload};
ghost use Rattle.pcap_file.specs.Taken.{outcome_of};

use capture_spec::Passed;
use data_format::Address;
use sflow_io::Sender;

// The port of sFlow.
const PORT: u16 = 6343;

/// The payload of a UDP datagram, at most 65,527 bytes of the packet that holds it, and its sender: the source
/// address of IP (RFC 791, RFC 8200), and the source port of UDP (RFC 768).
#[derive(Clone, Copy, Debug)]
pub struct Payload<'a> {
    pub sender: Sender,
    pub bytes: &'a [u8],
}

// The number of the two bytes at a place, the higher first.
fn pair_at(frame: &[u8], at: usize) -> u16
    requires { at + 2 ≤ length frame.now }
    ensures { result ≡ pair frame.now at }
{
    u16::from(frame[at]) * 256 + u16::from(frame[at + 1])
}

fn says_tag(word: u16) -> bool
    ensures { result ≡ is_tag word }
{
    word == 0x8100 || word == 0x88a8
}

fn four_at(frame: &[u8], at: usize) -> [u8; 4]
    requires { at + 4 ≤ length frame.now }
    ensures { result ≡ slice_range frame.now at (at + 4) }
{
    let mut bytes = [0; 4];
    bytes.copy_from_slice(&frame[at..at + 4]);
    bytes
}

fn sixteen_at(frame: &[u8], at: usize) -> [u8; 16]
    requires { at + 16 ≤ length frame.now }
    ensures { result ≡ slice_range frame.now at (at + 16) }
{
    let mut bytes = [0; 16];
    bytes.copy_from_slice(&frame[at..at + 16]);
    bytes
}

// The place of the type behind at most two tags (IEEE 802.1Q).
#[tactic(auto, unfolding(capture_spec::specs::Payloads::type_place))]
fn find_type(frame: &[u8]) -> Option<usize>
    ensures is { result ≡ type_place 2 12 frame.now }
    ensures inside { IfSome result (λ at. (at + 2 ≤ length frame.now) × (at ≤ 20)) }
{
    if frame.len() < 14 {
        return None;
    }
    if !says_tag(pair_at(frame, 12)) {
        return Some(12);
    }
    if frame.len() < 18 {
        return None;
    }
    if !says_tag(pair_at(frame, 16)) {
        return Some(16);
    }
    if frame.len() < 22 { None } else { Some(20) }
}

// The payload of the UDP datagram at this place, in a packet that ends here by its own lengths.
#[tactic(auto, unfolding(capture_spec::specs::Payloads::udp_payload))]
fn read_udp(frame: &[u8], address: Address, at: usize, end: usize) -> Result<Payload<'_>, Passed>
    requires { (at < 1000) × (end < 100000) }
    ensures outcome { outcome_of result ≡ udp_payload frame.now (address_of address) at end }
    ensures short { IfOk result (λ payload. length payload.bytes.now ≤ 65527) }
{
    if end < at + 8 {
        return Err(Passed::BadLen);
    }
    if frame.len() < at + 8 {
        return Err(Passed::Cut);
    }
    if pair_at(frame, at + 2) != PORT {
        return Err(Passed::Port);
    }
    let length = usize::from(pair_at(frame, at + 4));
    if length < 8 || end < at + length {
        return Err(Passed::BadLen);
    }
    if frame.len() < at + length {
        return Err(Passed::Cut);
    }
    let port = pair_at(frame, at);
    Ok(Payload {
        sender: Sender { address, port },
        bytes: &frame[at + 8..at + length],
    })
}

#[tactic(auto, unfolding(capture_spec::specs::Payloads::ipv4_payload))]
fn read_ipv4(frame: &[u8], at: usize) -> Result<Payload<'_>, Passed>
    requires { at < 100 }
    ensures outcome { outcome_of result ≡ ipv4_payload frame.now at }
    ensures short { IfOk result (λ payload. length payload.bytes.now ≤ 65527) }
{
    if frame.len() < at + 20 {
        return Err(Passed::Short);
    }
    let header = 4 * usize::from(frame[at] % 16);
    let total = usize::from(pair_at(frame, at + 2));
    if frame[at] / 16 != 4 || frame[at] % 16 < 5 || total < header {
        return Err(Passed::BadIp);
    }
    if pair_at(frame, at + 6) % 0x4000 != 0 {
        return Err(Passed::Fragment);
    }
    if frame[at + 9] != 17 {
        return Err(Passed::NotUdp);
    }
    let source = Address::V4(four_at(frame, at + 12));
    read_udp(frame, source, at + header, at + total)
}

#[tactic(auto, unfolding(capture_spec::specs::Payloads::ipv6_payload))]
fn read_ipv6(frame: &[u8], at: usize) -> Result<Payload<'_>, Passed>
    requires { at < 100 }
    ensures outcome { outcome_of result ≡ ipv6_payload frame.now at }
    ensures short { IfOk result (λ payload. length payload.bytes.now ≤ 65527) }
{
    if frame.len() < at + 40 {
        return Err(Passed::Short);
    }
    if frame[at] / 16 != 6 {
        return Err(Passed::BadIp);
    }
    if frame[at + 6] != 17 {
        return Err(Passed::NotUdp);
    }
    let source = Address::V6(sixteen_at(frame, at + 8));
    let behind = usize::from(pair_at(frame, at + 4));
    read_udp(frame, source, at + 40, at + 40 + behind)
}

#[tactic(auto, unfolding(capture_spec::specs::Payloads::typed_payload))]
fn read_typed(frame: &[u8], word: u16, at: usize) -> Result<Payload<'_>, Passed>
    requires { at < 100 }
    ensures outcome { outcome_of result ≡ typed_payload frame.now word at }
    ensures short { IfOk result (λ payload. length payload.bytes.now ≤ 65527) }
{
    match word {
        0x0800 => read_ipv4(frame, at),
        0x86dd => read_ipv6(frame, at),
        _ => Err(Passed::NotIp),
    }
}

/// The payload of a UDP datagram to port 6343 in an Ethernet frame, whole or captured in part: a range of the
/// frame, without the padding of Ethernet. Else why the frame is passed over, by the first rule that applies.
///
/// At most two tags of IEEE 802.1Q may stand before the type, and options behind the fixed header of IPv4
/// (RFC 791, section 3.1). Fragments aren't joined, and extension headers of IPv6 aren't passed. Checksums aren't
/// tested.
#[tactic(auto, unfolding(capture_spec::specs::Payloads::payload_of, capture_spec::specs::Payloads::payload_behind))]
pub fn read_payload(frame: &[u8]) -> Result<Payload<'_>, Passed>
    ensures outcome { outcome_of result ≡ payload_of frame.now }
    ensures short { IfOk result (λ payload. length payload.bytes.now ≤ 65527) }
{
    let Some(at) = find_type(frame) else {
        return Err(Passed::Short);
    };
    read_typed(frame, pair_at(frame, at), at + 2)
}
