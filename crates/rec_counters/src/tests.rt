ghost use Rattle.std.specs.Prelude.{◌≤◌, ◌+◌, ◌<◌, ◌^◌, length};

use crate::{EthernetCounters, IfCounters, VlanCounters};
use data_format::{Fault, FaultKind, Format, Frame, RecordBody};
use std::test::Fail;
use wire_spec::Pad;

// 22 words, which are numbered from 1, and the bytes of a tail.
const BODY: [u8; 92] = [
    0, 0, 0, 1, 0, 0, 0, 2, 0, 0, 0, 3, 0, 0, 0, 4, 0, 0, 0, 5, 0, 0, 0, 6, 0, 0, 0, 7, 0, 0, 0, 8,
    0, 0, 0, 9, 0, 0, 0, 10, 0, 0, 0, 11, 0, 0, 0, 12, 0, 0, 0, 13, 0, 0, 0, 14, 0, 0, 0, 15, 0, 0,
    0, 16, 0, 0, 0, 17, 0, 0, 0, 18, 0, 0, 0, 19, 0, 0, 0, 20, 0, 0, 0, 21, 0, 0, 0, 22, 222, 173,
    190, 239,
];

// A frame whose body stands behind the head of a datagram with one sample.
fn frame(body: &[u8]) -> Frame<'_>
    requires { length body.now ≤ 92 }
    ensures { result.at + length result.body.now < 2 ^ 32 }
{
    Frame {
        format: Format {
            enterprise: 0,
            number: 1,
        },
        body,
        at: 76,
    }
}

#[test]
fn counters_as_they_stand(rt: HostRuntime) -> Result<(), Fail> {
    let interface = IfCounters::read(frame(&BODY), Pad::Zero)?;
    let hypers = [interface.speed, interface.in_octets, interface.out_octets];
    assert_eq!(rt; hypers, [12884901892, 30064771080, 64424509456]);
    let came_in = [
        interface.in_ucast,
        interface.in_discards,
        interface.in_unknown,
    ];
    assert_eq!(rt; came_in, [9, 12, 14]);
    assert_eq!(rt; [interface.out_errors, interface.promiscuous], [21, 22]);
    assert_eq!(rt; interface.tail, [222, 173, 190, 239].as_slice());
    let ethernet = EthernetCounters::read(frame(&BODY), Pad::Zero)?;
    assert_eq!(rt; [ethernet.sqe_errors, ethernet.symbol_errors], [5, 13]);
    let vlan = VlanCounters::read(frame(&BODY), Pad::Zero)?;
    assert_eq!(rt; vlan.octets, 8589934595);
    assert_eq!(rt; [vlan.vlan, vlan.discards], [1, 7]);
    let fault = Fault {
        at: 80,
        kind: FaultKind::Short { need: 8, left: 7 },
    };
    assert_eq!(rt;
        VlanCounters::read(frame(&BODY[..11]), Pad::Any).err(),
        Some(fault)
    );
    Ok(())
}
