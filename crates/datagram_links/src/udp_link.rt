ghost use Rattle.std.specs.Prelude.{◌≡◌, ◌≤◌, length, None, IfSome, IfOk};
ghost use Rattle.byte_ends.specs.Seen.{next_count};

use crate::sockets::{aimed_socket, listening_socket, sent};
use crate::{Clock, Link, Received};
use std::io::{self, ErrorKind};
use std::net::{Net, UdpSocket};
use wire_spec::Failed;

/// A link over UDP sockets (RFC 768), one that listens and one that sends. It tells nothing of what comes and goes.
///
/// A place is an IPv4 or an IPv6 address or the name of a host, with a port, as `127.0.0.1:6343` or `[::1]:6343`. A
/// receive waits at most 1,000 ms and is `Quiet` then; it fails before the first `listen`, and where the clock fails. A
/// send fails before the first `aim`.
#[derive(Drop)]
pub struct UdpLink<R: Net + Drop, C: Clock + Drop> {
    rt: R,
    clock: C,
    listens: Option<UdpSocket>,
    aims: Option<UdpSocket>,
    faults: u64,
}

impl<R: Net + Drop, C: Clock + Drop> UdpLink<R, C> {
    /// A link of the runtime that `main` is given. The clock tells the arrivals.
    pub fn new(rt: R, clock: C) -> UdpLink<R, C>
        ensures { ⟦<UdpLink<R, C> as Link>⟧.seen result ≡ record { told = None; faults = 0 } }
    {
        UdpLink {
            rt,
            clock,
            listens: None,
            aims: None,
            faults: 0,
        }
    }

    fn fault(&mut self) -> Failed
        ensures { self.new.faults ≡ next_count self.old.faults }
    {
        self.faults = self.faults.saturating_add(1);
        Failed
    }
}

// How many bytes came, or None where nothing came in time.
fn waited(socket: &Option<UdpSocket>, room: &mut [u8]) -> io::Result<Option<usize>>
    ensures { IfOk result (λ len. IfSome len (λ n. n ≤ length room.new)) }
{
    let Some(socket) = socket else {
        return Err(ErrorKind::NotConnected.into());
    };
    match socket.recv_from(room) {
        Ok((len, _)) => Ok(Some(len)),
        Err(error) => match error.kind() {
            ErrorKind::WouldBlock | ErrorKind::TimedOut | ErrorKind::Interrupted => Ok(None),
            _ => Err(error),
        },
    }
}

impl<R: Net + Drop, C: Clock + Drop> Link for UdpLink<R, C> {
    ghost seen = { λ s. record { told = None; faults = s.faults } };

    fn listen(&mut self, place: &str) -> Result<(), Failed> {
        match listening_socket(&self.rt, place) {
            Ok(socket) => {
                self.listens = Some(socket);
                Ok(())
            }
            Err(_) => Err(self.fault()),
        }
    }

    fn aim(&mut self, place: &str) -> Result<(), Failed> {
        match aimed_socket(&self.rt, place) {
            Ok(socket) => {
                self.aims = Some(socket);
                Ok(())
            }
            Err(_) => Err(self.fault()),
        }
    }

    fn receive(&mut self, room: &mut [u8]) -> Result<Received, Failed> {
        match waited(&self.listens, room) {
            Ok(Some(len)) => match self.clock.now() {
                Ok(at) => Ok(Received::Got { len, at }),
                Err(_) => Err(self.fault()),
            },
            Ok(None) => Ok(Received::Quiet),
            Err(_) => Err(self.fault()),
        }
    }

    fn send(&mut self, bytes: &[u8]) -> Result<(), Failed> {
        if sent(&self.aims, bytes) {
            Ok(())
        } else {
            Err(self.fault())
        }
    }
}
