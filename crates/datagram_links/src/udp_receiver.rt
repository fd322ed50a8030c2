ghost use Rattle.std.specs.Prelude.{◌≡◌, None};
ghost use Rattle.byte_ends.specs.Seen.{next_count};

use crate::Receiver;
use crate::sockets::{aimed_socket, sent};
use std::net::{Net, UdpSocket};
use wire_spec::Failed;

/// A receiver over a UDP socket (RFC 768), at places as those of `UdpLink`. It tells nothing of what it took. A pass
/// fails before the first `aim`.
#[derive(Drop)]
pub struct UdpReceiver<R: Net + Drop> {
    rt: R,
    aims: Option<UdpSocket>,
    faults: u64,
}

impl<R: Net + Drop> UdpReceiver<R> {
    /// A receiver of the runtime that `main` is given.
    pub fn new(rt: R) -> UdpReceiver<R>
        ensures { ⟦<UdpReceiver<R> as Receiver>⟧.seen result ≡ record { told = None; faults = 0 } }
    {
        UdpReceiver {
            rt,
            aims: None,
            faults: 0,
        }
    }

    fn fault(&mut self) -> Failed
        ensures { self.new.faults ≡ next_count self.old.faults }
    {
        self.faults = self.faults.saturating_add(1);
        Failed
    }
}

impl<R: Net + Drop> Receiver for UdpReceiver<R> {
    ghost seen = { λ s. record { told = None; faults = s.faults } };

    fn aim(&mut self, place: &str) -> Result<(), Failed> {
        match aimed_socket(&self.rt, place) {
            Ok(socket) => {
                self.aims = Some(socket);
                Ok(())
            }
            Err(_) => Err(self.fault()),
        }
    }

    fn pass(&mut self, bytes: &[u8]) -> Result<(), Failed> {
        if sent(&self.aims, bytes) {
            Ok(())
        } else {
            Err(self.fault())
        }
    }

    fn taken(&self) -> &[Vec<u8>] {
        &[]
    }
}
