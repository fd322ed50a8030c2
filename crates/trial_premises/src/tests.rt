use crate::{Limits, Premises, TrueDatagram, TrueSample, roomy};
use std::alloc::AllocError;

// A delivery of one sub-agent, 10 ms after the uptime, with one sample of its source.
fn deliver(
    premises: &mut Premises,
    boot: u32,
    number: u128,
    uptime: u32,
    generation: u64,
    sample: u128,
) -> Result<(), AllocError> {
    let datagram = TrueDatagram {
        boot: boot as u64,
        number,
        uptime,
        arrival: 100_000 * boot as u64 + uptime as u64 + 10,
    };
    let samples = [TrueSample {
        source: 0,
        generation,
        number: sample,
        pool: sample,
        drops: 0,
    }];
    premises.deliver(0, datagram, &samples)
}

// The answers themselves are proved: this runs once what was built of them, through a reset and a restart.
#[test]
fn through_a_reset_and_a_restart(rt: HostRuntime) -> Result<(), AllocError> {
    let mut premises = Premises::open(rt.alloc(), Limits::usual(), &[1])?;
    deliver(&mut premises, 1, 2, 200, 1, 2)?;
    deliver(&mut premises, 1, 1, 100, 1, 1)?;
    deliver(&mut premises, 1, 3, 300, 2, 1)?;
    deliver(&mut premises, 2, 1, 100, 1, 1)?;
    assert!(rt; premises.visible() && premises.close() && premises.apparent());
    deliver(&mut premises, 2, 4, 400, 3, 9)?;
    assert!(rt; premises.visible() && premises.close() && !premises.apparent());
    deliver(&mut premises, 2, 5 + (1 << 31), 500, 3, 10)?;
    assert!(rt; premises.visible() && !premises.close());
    Ok(())
}

// A sub-agent and a source that aren't there change nothing.
#[test]
fn places_that_are_not_there(rt: HostRuntime) -> Result<(), AllocError> {
    let mut premises = Premises::open(rt.alloc(), Limits::usual(), &[0])?;
    deliver(&mut premises, 1, 1, 100, 1, 1)?;
    deliver(&mut premises, 1, 2, 200, 3, 1 << 40)?;
    assert!(rt; premises.visible() && premises.close() && premises.apparent());
    assert!(rt; roomy(0, 0) && !roomy(1, 0) && !roomy(0, 1));
    Ok(())
}
