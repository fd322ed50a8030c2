use crate::{
    Link, LinkItem, ListClock, ListReceiver, MemoryLink, Received, Receiver, UdpLink, UdpReceiver,
};
use std::alloc::{AllocError, Global};
use std::test::Fail;
use wire_spec::Failed;

// A datagram without samples, of sequence number 1.
const DATAGRAM: [u8; 28] = [
    0, 0, 0, 5, 0, 0, 0, 1, 10, 0, 0, 1, 0, 0, 0, 0, 0, 0, 0, 1, 0, 0, 0, 9, 0, 0, 0, 0,
];

// A clock that stands at 7.
fn clock(alloc: Global) -> Result<ListClock, AllocError> {
    let values = Vec::from_slice(alloc, &[7u64])?;
    if values.len() > 0 {
        Ok(ListClock::new(values))
    } else {
        Err(AllocError)
    }
}

// Over the loopback of the machine what one socket sends another one receives, whole and with the clock's time.
// A machine that refuses sockets answers Failed at the first call, and the test then ends: it says nothing of sockets
// there. A receive ends after a second, so that the test ends even where a datagram is lost.
#[test]
fn a_datagram_comes_over_a_socket(rt: HostRuntime) -> Result<(), Fail> {
    let mut near = UdpLink::new(rt, clock(rt.alloc())?);
    let mut far = UdpLink::new(rt, clock(rt.alloc())?);
    let mut room = [0u8; 40];
    assert_eq!(rt; near.receive(&mut room), Err(Failed));
    assert_eq!(rt; far.send(&DATAGRAM), Err(Failed));
    if near.listen("127.0.0.1:16343").is_err() {
        return Ok(());
    }
    assert_eq!(rt; far.aim("127.0.0.1:16343"), Ok(()));
    assert_eq!(rt; far.send(&DATAGRAM), Ok(()));
    assert_eq!(rt;
        near.receive(&mut room),
        Ok(Received::Got { len: 28, at: 7 })
    );
    assert!(rt; room.starts_with(&DATAGRAM));
    assert_eq!(rt; near.receive(&mut room), Ok(Received::Quiet));
    Ok(())
}

// A receiver over a socket hands on to a link what it is passed, and tells nothing.
#[test]
fn a_receiver_passes_over_a_socket(rt: HostRuntime) -> Result<(), Fail> {
    let mut near = UdpLink::new(rt, clock(rt.alloc())?);
    let mut receiver = UdpReceiver::new(rt);
    let mut room = [0u8; 28];
    assert_eq!(rt; receiver.pass(&DATAGRAM), Err(Failed));
    if near.listen("127.0.0.1:16344").is_err() {
        return Ok(());
    }
    assert_eq!(rt; receiver.aim("127.0.0.1:16344"), Ok(()));
    assert_eq!(rt; receiver.pass(&DATAGRAM), Ok(()));
    assert_eq!(rt;
        near.receive(&mut room),
        Ok(Received::Got { len: 28, at: 7 })
    );
    assert!(rt; room.starts_with(&DATAGRAM) && receiver.taken().is_empty());
    Ok(())
}

// The numbers of the calls that fail go over all calls of the link, and behind its items it is quiet.
#[test]
fn a_link_over_memory_fails_by_its_calls(rt: HostRuntime) -> Result<(), Fail> {
    let mut items = Vec::new(rt.alloc());
    items.push(LinkItem::Got {
        at: 5,
        bytes: Vec::from_slice(rt.alloc(), &DATAGRAM)?,
    })?;
    let mut link = MemoryLink::new(rt.alloc(), items, Vec::from_slice(rt.alloc(), &[2u64, 5])?);
    let mut room = [0u8; 40];
    assert_eq!(rt; link.listen("a"), Ok(()));
    assert_eq!(rt; link.receive(&mut room), Err(Failed));
    assert_eq!(rt;
        link.receive(&mut room),
        Ok(Received::Got { len: 28, at: 5 })
    );
    assert!(rt; room.starts_with(&DATAGRAM));
    assert_eq!(rt; link.receive(&mut room), Ok(Received::Quiet));
    assert_eq!(rt; link.send(b"lost"), Err(Failed));
    assert_eq!(rt; link.aim("b"), Ok(()));
    assert_eq!(rt; link.send(&DATAGRAM), Ok(()));
    assert!(rt; link.sent().len() == 1 && link.lacked() == 0);
    if link.sent().len() == 1 {
        assert!(rt; link.sent()[0].starts_with(&DATAGRAM));
    }
    Ok(())
}

// A receiver over memory fails by its calls too, and shows what it took.
#[test]
fn a_receiver_over_memory_shows_what_it_took(rt: HostRuntime) -> Result<(), Fail> {
    let mut receiver = ListReceiver::new(rt.alloc(), Vec::from_slice(rt.alloc(), &[1u64, 3])?);
    assert_eq!(rt; receiver.aim("a"), Err(Failed));
    assert_eq!(rt; receiver.aim("a"), Ok(()));
    assert_eq!(rt; receiver.pass(b"lost"), Err(Failed));
    assert_eq!(rt; receiver.pass(&DATAGRAM), Ok(()));
    assert!(rt; receiver.taken().len() == 1 && receiver.lacked() == 0);
    if receiver.taken().len() == 1 {
        assert!(rt; receiver.taken()[0].starts_with(&DATAGRAM));
    }
    Ok(())
}
