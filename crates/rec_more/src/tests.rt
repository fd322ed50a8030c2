ghost use Rattle.std.specs.Prelude.{◌≤◌, ◌+◌, ◌<◌, ◌^◌, length};

use crate::{MplsRec, NatRec, ProcessorCounters, UrlRec, UserRec};
use data_format::{Address, Fault, FaultKind, Format, Frame, RecordBody};
use std::test::Fail;
use wire_spec::Pad;

// `abc` in character set 3, no name in character set 4, and a tail.
const USER: [u8; 24] = [
    0, 0, 0, 3, 0, 0, 0, 3, 97, 98, 99, 0, 0, 0, 0, 4, 0, 0, 0, 0, 222, 173, 190, 239,
];

// `/a?b` at `x.y`, for the destination.
const URL: [u8; 20] = [
    0, 0, 0, 2, 0, 0, 0, 4, 47, 97, 63, 98, 0, 0, 0, 3, 120, 46, 121, 0,
];

// Next hop 10.0.0.9, two labels that came in, one that went out.
const MPLS: [u8; 28] = [
    0, 0, 0, 1, 10, 0, 0, 9, 0, 0, 0, 2, 0, 1, 35, 69, 0, 0, 0, 16, 0, 0, 0, 1, 0, 0, 0, 17,
];

// From 10.0.0.1 to 192.0.2.1.
const NAT: [u8; 16] = [0, 0, 0, 1, 10, 0, 0, 1, 0, 0, 0, 1, 192, 0, 2, 1];

// Seven words, which are numbered from 1.
const PROCESSOR: [u8; 28] = [
    0, 0, 0, 1, 0, 0, 0, 2, 0, 0, 0, 3, 0, 0, 0, 4, 0, 0, 0, 5, 0, 0, 0, 6, 0, 0, 0, 7,
];

// A frame whose body stands behind the head of a datagram with one sample.
fn frame(body: &[u8]) -> Frame<'_>
    requires { length body.now ≤ 28 }
    ensures { result.at + length result.body.now < 2 ^ 32 }
{
    Frame {
        format: Format {
            enterprise: 0,
            number: 1,
        },
        body,
        at: 76,
    }
}

#[test]
fn records_as_they_stand(rt: HostRuntime) -> Result<(), Fail> {
    let user = UserRec::read(frame(&USER), Pad::Zero)?;
    assert_eq!(rt; [user.src_charset, user.dst_charset], [3, 4]);
    assert_eq!(rt; user.src_user, b"abc".as_slice());
    assert_eq!(rt; user.tail, [222, 173, 190, 239].as_slice());
    let url = UrlRec::read(frame(&URL), Pad::Zero)?;
    assert_eq!(rt; url.url, b"/a?b".as_slice());
    assert_eq!(rt; url.host, b"x.y".as_slice());
    let mpls = MplsRec::read(frame(&MPLS), Pad::Zero)?;
    assert_eq!(rt;
        [
            mpls.in_stack.get(0),
            mpls.in_stack.get(1),
            mpls.out_stack.get(0)
        ],
        [Some(74565), Some(16), Some(17)]
    );
    let nat = NatRec::read(frame(&NAT), Pad::Zero)?;
    assert_eq!(rt; nat.dst, Address::V4([192, 0, 2, 1]));
    let processor = ProcessorCounters::read(frame(&PROCESSOR), Pad::Zero)?;
    assert_eq!(rt; processor.free_memory, 25769803783);
    let fault = Fault {
        at: 96,
        kind: FaultKind::Short { need: 8, left: 7 },
    };
    assert_eq!(rt;
        ProcessorCounters::read(frame(&PROCESSOR[..27]), Pad::Any).err(),
        Some(fault)
    );
    Ok(())
}
