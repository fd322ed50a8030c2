ghost use Rattle.std.specs.Prelude.{◌≡◌, ℕ, Some, None};
ghost use Rattle.agent_spec.specs.Samples.{Datagram};
ghost use Rattle.trial_spec.specs.Made as made;
ghost use Rattle.trial_spec.specs.Made.{Made, begun, boot_number, observed, made_packet, state_after, arrives_times, times_of, released, restarted, decided, decided_by};
ghost use Rattle.made_runs.specs.Packets.{packet_as};
ghost use Rattle.made_runs.specs.Runs.{Naming, StandsFor, IsShort, Goes, Adds, arrived, arrived_once, after_arrival, arrival_at};

use crate::arrivals::{Arrival, Arrivals};
use crate::draws::Draws;
use crate::packets::MadePacket;
use crate::setups::SKIPS;
use data_format::Port;
use std::marker::Model;

/// A frame between two Ethernet addresses with the type of IPv4 and the first two bytes of its header, and room for 32 bytes.
const FRAME: [u8; 48] = [
    255, 255, 255, 255, 255, 255, 2, 0, 0, 0, 0, 1, 8, 0, 69, 0, 0, 0, 0, 0, 0, 0, 0, 0, 0, 0, 0,
    0, 0, 0, 0, 0, 0, 0, 0, 0, 0, 0, 0, 0, 0, 0, 0, 0, 0, 0, 0, 0,
];

/// The made run, at a packet or between the datagrams behind one. It takes no memory.
///
/// What it says holds for runs of at most 10,000,000 packets.
#[derive(Drop)]
pub struct MadeRun {
    draws: Draws,
    /// The arrival in ms of the uptime 0 of this boot.
    base: u64,
    /// The packets of this boot.
    packets: u32,
    /// This boot, counted from 1.
    boot: u64,
    /// The datagram of this boot that is held back, counted from 1.
    held: Option<u64>,
}

impl Model for MadeRun {
    ghost use Rattle.made_runs.specs.Runs.{RunState};

    ghost Value = { RunState };

    ghost view = { λ r. record { state = r.draws.state; base = r.base; packets = r.packets; boot = r.boot; held = r.held } };
}

impl MadeRun {
    /// The run of a seed before its first packet: the skip numbers are drawn.
    pub fn begin(seed: u64) -> MadeRun
        ensures { (names : Naming) → StandsFor names result (begun seed) }
    {
        let mut draws = Draws { state: seed };
        for place in 0..SKIPS {
            draws.below(19);
        }
        MadeRun {
            draws,
            base: 1_000_000,
            packets: 0,
            boot: 1,
            held: None,
        }
    }

    /// The next packet.
    pub fn packet(&mut self) -> MadePacket
        ensures packet { (names : Naming) (m : Made) → StandsFor names self.old m → packet_as result ≡ made_packet m.state }
        ensures stands { (names : Naming) (m : Made) (seed : ℕ) → IsShort m → StandsFor names self.old m
            → StandsFor names self.new (observed seed m) }
    {
        self.packets = self.packets.wrapping_add(1);
        self.draw_packet()
    }

    /// The uptime of the boot in ms: a packet is seen each 10 ms.
    pub fn uptime(&self) -> u32
        ensures { (names : Naming) (m : Made) → IsShort m → StandsFor names self.now m → result ≡ made.uptime m }
    {
        self.packets.wrapping_mul(10)
    }

    /// How many packets of the boot there were.
    pub fn packets(&self) -> u32
        ensures { result ≡ self.now.packets }
    {
        self.packets
    }

    /// The arrival in ms of the uptime 0 of the boot.
    pub fn base(&self) -> u64
        ensures { result ≡ self.now.base }
    {
        self.base
    }

    /// The boot, counted from 1.
    pub fn boot(&self) -> u64
        ensures { result ≡ self.now.boot }
    {
        self.boot
    }

    /// What becomes of the datagram of this number of the boot, counted from 1, which was sent.
    pub fn decide(&mut self, number: u64) -> Arrivals
        ensures { (names : Naming) (m : Made) (d : Datagram) → IsShort m → names (boot_number m) number ≡ Some d
            → StandsFor names self.old m
            → Goes names (arrived result) self.new m (decided (boot_number m, d) m) }
    {
        let choice = self.draws.below(16);
        self.decide_by(choice, number)
    }

    /// The boot ends: what is held arrives, and the next boot begins a minute after this one's uptime.
    pub fn restart(&mut self) -> Option<Arrival>
        ensures stands { (names : Naming) (m : Made) → IsShort m → StandsFor names self.old m
            → StandsFor names self.new (restarted (released m)) }
        ensures arrival { (names : Naming) (m : Made) → IsShort m → StandsFor names self.old m
            → Adds names (arrived_once result) m.deliveries (released m).deliveries }
    {
        let held = self.release();
        self.begin_boot();
        held
    }

    /// The run ends: what is held arrives.
    pub fn end(&mut self) -> Option<Arrival>
        ensures { (names : Naming) (m : Made) → IsShort m → StandsFor names self.old m
            → Goes names (arrived_once result) self.new m (released m) }
    {
        self.release()
    }

    // The length is drawn before the bytes.
    fn draw_packet(&mut self) -> MadePacket
        ensures packet { packet_as result ≡ made_packet self.old.state }
        ensures state { self.new ≡ record self.old { state = state_after 33 self.old.state } }
    {
        let length = self.draws.below(1455);
        let mut header = FRAME;
        self.draws.fill(&mut header[16..]);
        MadePacket {
            input: Port { form: 0, value: 1 },
            output: Port { form: 0, value: 2 },
            frame_length: 64 + length as u32,
            header,
        }
    }

    // What becomes of it by this draw.
    fn decide_by(&mut self, choice: u64, number: u64) -> Arrivals
        ensures { (names : Naming) (m : Made) (d : Datagram) → IsShort m → names (boot_number m) number ≡ Some d
            → StandsFor names self.old m
            → Goes names (arrived result) self.new m (decided_by choice (boot_number m, d) m) }
    {
        if choice == 2 && self.held.is_none() {
            self.held = Some(number);
            return Arrivals {
                first: None,
                second: None,
                held: None,
            };
        }
        self.deliver(choice, number)
    }

    // It arrives as often as the draw says, and then what is held.
    fn deliver(&mut self, choice: u64, number: u64) -> Arrivals
        ensures { (names : Naming) (m : Made) (d : Datagram) → IsShort m → names (boot_number m) number ≡ Some d
            → StandsFor names self.old m
            → Goes names (arrived result) self.new m (released (arrives_times (times_of choice) (boot_number m, d) m)) }
    {
        match choice {
            0 => Arrivals {
                first: None,
                second: None,
                held: self.release(),
            },
            1 => Arrivals {
                first: Some(self.arrive(number)),
                second: Some(self.arrive(number)),
                held: self.release(),
            },
            _ => Arrivals {
                first: Some(self.arrive(number)),
                second: None,
                held: self.release(),
            },
        }
    }

    // What is held arrives.
    fn release(&mut self) -> Option<Arrival>
        ensures { (names : Naming) (m : Made) → IsShort m → StandsFor names self.old m
            → Goes names (arrived_once result) self.new m (released m) }
    {
        let Some(number) = self.held else {
            return None;
        };
        self.held = None;
        Some(self.arrive(number))
    }

    // The datagram of this number of the boot arrives, by one draw.
    fn arrive(&mut self, number: u64) -> Arrival
        ensures state { self.new ≡ after_arrival self.old }
        ensures arrival { result ≡ arrival_at self.old number }
    {
        let late = self.draws.below(50);
        Arrival {
            boot: self.boot,
            number,
            at: self
                .base
                .wrapping_add(self.packets.wrapping_mul(10) as u64)
                .wrapping_add(late),
        }
    }

    // A minute after the uptime of this boot the next one begins.
    pub(crate) fn begin_boot(&mut self)
        ensures { (names : Naming) (m : Made) → IsShort m → StandsFor names self.old m → self.old.held ≡ None
            → StandsFor names self.new (restarted m) }
    {
        let lasted = self.packets.wrapping_mul(10) as u64;
        self.base = self.base.wrapping_add(lasted.wrapping_add(60_000));
        self.packets = 0;
        self.boot = self.boot.wrapping_add(1);
    }
}
