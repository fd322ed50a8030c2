ghost use Rattle.std.specs.Prelude.{◌≤◌, ◌+◌, ◌<◌, ◌^◌, length};

use crate::{AsPath, GatewayHead, GatewayRec, RouterRec, SwitchRec, Words};
use data_format::{Address, Fault, FaultKind, Format, Frame, RecordBody};
use std::test::Fail;
use wire_spec::Pad;
use xdr_words::Out;

// Next hop 10.0.0.9, AS 65000, source AS 65001, its peer 65002, the set 65003, 65004, the sequence 65010, no
// communities, preference 100; each body has a tail of 4 bytes.
const GATEWAY: [u8; 64] = [
    0, 0, 0, 1, 10, 0, 0, 9, 0, 0, 253, 232, 0, 0, 253, 233, 0, 0, 253, 234, 0, 0, 0, 2, 0, 0, 0,
    1, 0, 0, 0, 2, 0, 0, 253, 235, 0, 0, 253, 236, 0, 0, 0, 2, 0, 0, 0, 1, 0, 0, 253, 242, 0, 0, 0,
    0, 0, 0, 0, 100, 222, 173, 190, 239,
];

// Next hop 2001:db8::9, masks of 24 and 16 bits.
const ROUTER: [u8; 32] = [
    0, 0, 0, 2, 32, 1, 13, 184, 0, 0, 0, 0, 0, 0, 0, 0, 0, 0, 0, 9, 0, 0, 0, 24, 0, 0, 0, 16, 222,
    173, 190, 239,
];

// From VLAN 100 with priority 1 to VLAN 200 with priority 2.
const SWITCH: [u8; 20] = [
    0, 0, 0, 100, 0, 0, 0, 1, 0, 0, 0, 200, 0, 0, 0, 2, 222, 173, 190, 239,
];

// A frame whose body stands behind the head of a datagram with one sample.
fn frame(body: &[u8]) -> Frame<'_>
    requires { length body.now ≤ 64 }
    ensures { result.at + length result.body.now < 2 ^ 32 }
{
    Frame {
        format: Format {
            enterprise: 0,
            number: 1,
        },
        body,
        at: 76,
    }
}

#[test]
fn routes_as_they_stand(rt: HostRuntime) -> Result<(), Fail> {
    let gateway = GatewayRec::read(frame(&GATEWAY), Pad::Zero)?;
    assert_eq!(rt; gateway.nexthop, Address::V4([10, 0, 0, 9]));
    let numbers = [gateway.as_number, gateway.src_as, gateway.src_peer_as];
    assert_eq!(rt; numbers, [65000, 65001, 65002]);
    assert_eq!(rt; [gateway.localpref, gateway.communities().len()], [100, 0]);
    assert_eq!(rt; gateway.tail, [222, 173, 190, 239].as_slice());
    let mut path = gateway.path();
    let set = path.next().ok_or("no set")?;
    assert_eq!(rt; set.ordered, false);
    assert_eq!(rt;
        [set.numbers.get(0), set.numbers.get(1)],
        [Some(65003), Some(65004)]
    );
    let sequence = path.next().ok_or("no sequence")?;
    assert_eq!(rt; sequence.ordered, true);
    assert_eq!(rt; sequence.numbers.get(0), Some(65010));
    assert!(rt; path.next().is_none());
    let router = RouterRec::read(frame(&ROUTER), Pad::Zero)?;
    assert_eq!(rt; [router.src_mask, router.dst_mask], [24, 16]);
    let switch = SwitchRec::read(frame(&SWITCH), Pad::Zero)?;
    assert_eq!(rt;
        [switch.src_vlan, switch.dst_vlan, switch.dst_priority],
        [100, 200, 2]
    );
    let fault = Fault {
        at: 80,
        kind: FaultKind::Short { need: 16, left: 15 },
    };
    assert_eq!(rt;
        RouterRec::read(frame(&ROUTER[..19]), Pad::Any).err(),
        Some(fault)
    );
    Ok(())
}

#[test]
fn a_gateway_that_is_made(rt: HostRuntime) -> Result<(), Fail> {
    let path = AsPath::over(&GATEWAY[24..52], 2)?;
    let head = GatewayHead {
        nexthop: Address::V4([10, 0, 0, 9]),
        as_number: 65000,
        src_as: 65001,
        src_peer_as: 65002,
        localpref: 100,
    };
    assert!(rt; path.bytes().len() <= 28);
    let none = Words::over(&[]);
    assert!(rt; none.bytes().len() == 0);
    let gateway = GatewayRec::make(head, path, none, &GATEWAY[60..]);
    let mut room = [1; 64];
    gateway.write(&mut Out::new(&mut room))?;
    assert_eq!(rt; room, GATEWAY);
    Ok(())
}
