ghost use Rattle.std.specs.Prelude.{◌≤◌, ◌+◌, ◌<◌, ◌^◌, length};

use crate::{EthernetRec, Ipv4Rec, Ipv6Rec, RawHeader};
use data_format::{Fault, FaultKind, Format, Frame, Mac, RecordBody};
use std::test::Fail;
use wire_spec::Pad;

// Protocol 1, 64 bytes, 4 of them stripped, a header of 65 bytes, its padding; each body has a tail of 4 bytes.
const RAW: [u8; 88] = [
    0, 0, 0, 1, 0, 0, 0, 64, 0, 0, 0, 4, 0, 0, 0, 65, 1, 2, 3, 4, 5, 6, 7, 8, 9, 10, 11, 12, 13,
    14, 15, 16, 17, 18, 19, 20, 21, 22, 23, 24, 25, 26, 27, 28, 29, 30, 31, 32, 33, 34, 35, 36, 37,
    38, 39, 40, 41, 42, 43, 44, 45, 46, 47, 48, 49, 50, 51, 52, 53, 54, 55, 56, 57, 58, 59, 60, 61,
    62, 63, 64, 65, 0, 0, 0, 222, 173, 190, 239,
];

// 64 bytes, two addresses, type 0x0800.
const ETHERNET: [u8; 28] = [
    0, 0, 0, 64, 2, 0, 0, 0, 0, 1, 0, 0, 2, 0, 0, 0, 0, 2, 0, 0, 0, 0, 8, 0, 222, 173, 190, 239,
];

// 60 bytes of TCP from 10.0.0.1, port 8080, to 10.0.0.2, port 443.
const IPV4: [u8; 36] = [
    0, 0, 0, 60, 0, 0, 0, 6, 10, 0, 0, 1, 10, 0, 0, 2, 0, 0, 31, 144, 0, 0, 1, 187, 0, 0, 0, 18, 0,
    0, 0, 7, 222, 173, 190, 239,
];

// 60 bytes of UDP from 2001:db8::1, port 53, to 2001:db8::2, port 5353.
const IPV6: [u8; 60] = [
    0, 0, 0, 60, 0, 0, 0, 17, 32, 1, 13, 184, 0, 0, 0, 0, 0, 0, 0, 0, 0, 0, 0, 1, 32, 1, 13, 184,
    0, 0, 0, 0, 0, 0, 0, 0, 0, 0, 0, 2, 0, 0, 0, 53, 0, 0, 20, 233, 0, 0, 0, 1, 0, 0, 0, 7, 222,
    173, 190, 239,
];

// A frame whose body stands behind the head of a datagram with one sample.
fn frame(body: &[u8]) -> Frame<'_>
    requires { length body.now ≤ 88 }
    ensures { result.at + length result.body.now < 2 ^ 32 }
{
    Frame {
        format: Format {
            enterprise: 0,
            number: 1,
        },
        body,
        at: 76,
    }
}

#[test]
fn headers_as_they_stand(rt: HostRuntime) -> Result<(), Fail> {
    let raw = RawHeader::read(frame(&RAW), Pad::Zero)?;
    assert_eq!(rt; [raw.protocol, raw.frame_length, raw.stripped], [1, 64, 4]);
    assert_eq!(rt; raw.header, &RAW[16..81]);
    assert_eq!(rt; raw.tail, [222, 173, 190, 239].as_slice());
    let ethernet = EthernetRec::read(frame(&ETHERNET), Pad::Zero)?;
    assert_eq!(rt; [ethernet.length, ethernet.ethertype], [64, 0x800]);
    let macs = [ethernet.src_mac, ethernet.dst_mac];
    assert_eq!(rt; macs, [Mac([2, 0, 0, 0, 0, 1]), Mac([2, 0, 0, 0, 0, 2])]);
    let ipv4 = Ipv4Rec::read(frame(&IPV4), Pad::Zero)?;
    assert_eq!(rt; [ipv4.src, ipv4.dst], [[10, 0, 0, 1], [10, 0, 0, 2]]);
    let numbers = [ipv4.protocol, ipv4.src_port, ipv4.dst_port, ipv4.tos];
    assert_eq!(rt; numbers, [6, 8080, 443, 7]);
    let ipv6 = Ipv6Rec::read(frame(&IPV6), Pad::Zero)?;
    assert_eq!(rt;
        [ipv6.src.as_slice(), ipv6.dst.as_slice()],
        [&IPV6[8..24], &IPV6[24..40]]
    );
    let numbers = [ipv6.protocol, ipv6.src_port, ipv6.dst_port, ipv6.priority];
    assert_eq!(rt; numbers, [17, 53, 5353, 7]);
    let mut stray = RAW;
    stray[82] = 1;
    let fault = Fault {
        at: 158,
        kind: FaultKind::Pad,
    };
    assert_eq!(rt;
        RawHeader::read(frame(&stray), Pad::Zero).err(),
        Some(fault)
    );
    Ok(())
}
