use crate::{Address, Receiver, Receivers, Routes};
use datagram_links::ListReceiver;
use std::test::Fail;

// What a datagram is made of plays no part.
const FIRST: &[u8] = b"first";

const SECOND: &[u8] = b"second";

const NEAR: Address = Address::V4([10, 0, 0, 1]);

const FAR: Address = Address::V4([10, 0, 0, 2]);

// Aims at the routes and passes four datagrams, of which the third is of another agent.
fn relay(receivers: &mut Receivers, routes: &Routes) {
    if routes.len() > receivers.len() {
        return;
    }
    receivers.aim(routes);
    for (agent, bytes) in [(NEAR, FIRST), (NEAR, FIRST), (FAR, FIRST), (NEAR, SECOND)] {
        if routes.len() <= receivers.len() && receivers.can_pass() {
            receivers.pass(routes, &agent, bytes);
        }
    }
}

// Whether the receiver at this place is so far, and took so many.
fn is_at(receivers: &Receivers, place: usize, passed: u64, stopped: bool) -> bool {
    place < receivers.len()
        && receivers.passed(place) == passed
        && receivers.stopped(place) == stopped
        && receivers.taken(place).len() as u64 == passed
}

// Each receiver takes what its route takes; one without a route is as before.
#[test]
fn datagrams_go_by_their_routes(rt: HostRuntime) -> Result<(), Fail> {
    let mut boxes: Vec<Box<dyn Receiver>> = Vec::new(rt.alloc());
    for _ in 0..3 {
        let receiver = ListReceiver::new(rt.alloc(), Vec::new(rt.alloc()));
        boxes.push(Box::new(rt.alloc(), receiver)?)?;
    }
    let mut receivers = Receivers::new(boxes);
    match Routes::read("10.0.0.1=a;any=b") {
        Some(routes) => {
            relay(&mut receivers, &routes);
            assert!(rt; routes.len() == 2);
        }
        None => assert!(rt; false),
    }
    assert!(rt; is_at(&receivers, 0, 3, false) && is_at(&receivers, 1, 4, false));
    assert!(rt; is_at(&receivers, 2, 0, false));
    Ok(())
}

// One that fails takes nothing more, and the others go on. Its first call is its aim.
#[test]
fn a_failed_receiver_is_stopped_alone(rt: HostRuntime) -> Result<(), Fail> {
    let mut boxes: Vec<Box<dyn Receiver>> = Vec::new(rt.alloc());
    let failing = ListReceiver::new(rt.alloc(), Vec::from_slice(rt.alloc(), &[3u64])?);
    boxes.push(Box::new(rt.alloc(), failing)?)?;
    let whole = ListReceiver::new(rt.alloc(), Vec::new(rt.alloc()));
    boxes.push(Box::new(rt.alloc(), whole)?)?;
    let unaimed = ListReceiver::new(rt.alloc(), Vec::from_slice(rt.alloc(), &[1u64])?);
    boxes.push(Box::new(rt.alloc(), unaimed)?)?;
    let mut receivers = Receivers::new(boxes);
    match Routes::read("10.0.0.1=a;any=b;any=c") {
        Some(routes) => relay(&mut receivers, &routes),
        None => assert!(rt; false),
    }
    assert!(rt; is_at(&receivers, 0, 1, true) && is_at(&receivers, 1, 4, false));
    assert!(rt; is_at(&receivers, 2, 0, true));
    Ok(())
}
