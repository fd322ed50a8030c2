use crate::PortWatch;
use sample_taps::{Brief, HeaderFacts, Tap, Taps};
use std::test::Fail;

// One is held, is fed a header to each of two ports, and has counted the one that is above.
#[test]
fn counts_ports_above(rt: HostRuntime) -> Result<(), Fail> {
    let mut boxes: Vec<Box<dyn Tap>> = Vec::new(rt.alloc());
    let watch = PortWatch {
        threshold: 1023,
        count: 0,
    };
    boxes.push(Box::new(rt.alloc(), watch)?)?;
    let mut taps = Taps::new(boxes);
    for port in [443, 8080] {
        let brief = Brief {
            stream: 1,
            class: 0,
            index: 5,
            rate: 1000,
            frame_length: 64,
            facts: HeaderFacts {
                dst_port: Some(port),
                ..HeaderFacts::none()
            },
        };
        if taps.len() == 1 && taps.ended() == 0 {
            taps.feed(&brief);
        }
    }
    assert!(rt; taps.len() == 1);
    if taps.len() == 1 {
        assert!(rt; taps.line(0).as_str() == "tap above 1023 count 1");
    }
    Ok(())
}
