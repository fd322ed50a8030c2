// A sub-agent sends what is staged.
ghost use Rattle.std.specs.Prelude.{◌≡◌, ◌<◌, ◌≤◌, ◌+◌, ◌^◌, List, ◌∷◌, length, map, OnOk};
ghost use Rattle.agent_spec.specs.Samples.{Setup};
ghost use Rattle.agent_spec.specs.Events.{Event, Send};
ghost use Rattle.agent_spec.specs.Boots.{happened, MayHappen};
ghost use Rattle.agent_spec.specs.Spelled.{Sender, sent_bytes};
ghost use Rattle.true_samples.specs.Words.{HasAddress, word_in, address_size, count_in};
ghost use Rattle.true_samples.specs.Sends.{bytes_of, leaving};
ghost use Rattle.true_samples.specs.Standing.{StandsFor};
ghost use Rattle.true_samples.specs.Moves.{with_datagram};

use crate::samples::SentDatagram;
use crate::sub_agent::TrueSubAgent;
use agent_outlets::Put;
use byteorder::{BigEndian, ByteOrder};
use std::alloc::{AllocError, Global};
use std::mem;

/// How many bytes of a datagram stand before the address of its agent, and the type of that address.
const FRONT: usize = 4;

/// How many bytes stand between the address and the number of samples: the sub-agent, the number and the uptime.
const BETWEEN: usize = 12;

// The number of four bytes.
fn word_at(bytes: &[u8], place: usize) -> u32
    requires { place + 4 ≤ length bytes.now }
    ensures { result ≡ word_in bytes.now place }
{
    BigEndian::read_u32(&bytes[place..])
}

// How many bytes an address of this type has.
fn address_size(kind: u32) -> usize
    ensures value { result ≡ address_size kind }
    ensures most { result ≤ 16 }
{
    match kind {
        1 => 4,
        2 => 16,
        _ => 0,
    }
}

// How many samples a datagram has; 0 where the bytes are none.
fn sample_count(bytes: &[u8]) -> usize
    ensures { result ≡ count_in bytes.now }
{
    if bytes.len() < FRONT + 4 {
        return 0;
    }
    let place = FRONT + 4 + address_size(word_at(bytes, FRONT)) + BETWEEN;
    if bytes.len() < place + 4 {
        return 0;
    }
    word_at(bytes, place) as usize
}

impl TrueSubAgent {
    /// The sub-agent sent at this uptime, in ms, all that was staged, in these datagrams.
    pub fn send(&mut self, alloc: Global, uptime: u32, puts: &[Put]) -> Result<(), AllocError>
        ensures { OnOk result ((sender : Sender) (s : Setup) (events : List Event) (earlier : List (List Event))
            → HasAddress sender.agent → map bytes_of puts.now ≡ map (sent_bytes sender) (leaving s uptime (happened s events)) → s.stage < 2 ^ 32
            → MayHappen s events → StandsFor sender s self.old events earlier
            → StandsFor sender s self.new (Send uptime (length puts.now) ∷ events) earlier) }
    {
        for put in puts {
            self.send_one(alloc, uptime, &put.bytes)?;
        }
        Ok(())
    }

    // One datagram takes its samples from the front of what is staged.
    fn send_one(&mut self, alloc: Global, uptime: u32, bytes: &[u8]) -> Result<(), AllocError>
        ensures { OnOk result (self.new ≡ with_datagram uptime bytes.now self.old) }
    {
        let count = sample_count(bytes).min(self.staged.len());
        let rest = self.staged.split_off(count)?;
        let samples = mem::replace(&mut self.staged, rest);
        let number = self.first as u128 + self.current.datagrams.len() as u128;
        let bytes = Vec::from_slice(alloc, bytes)?;
        self.current.datagrams.push(SentDatagram {
            number,
            uptime,
            samples,
            bytes,
        })?;
        Ok(())
    }
}
