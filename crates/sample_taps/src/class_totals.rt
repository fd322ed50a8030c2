// How many headers there were of each class.
ghost use Rattle.std.specs.Prelude.{◌≡◌, map};
ghost use Rattle.sample_taps.specs.Briefs.{facts_in};
ghost use Rattle.sample_taps.specs.Classes.{no_classes, headers_counted, with_kind, with_vlan, with_protocol, with_header, with_headers};

use crate::brief::Brief;
use header_lanes::{HeaderFacts, Kind};

/// How many headers there were of each class. Each count stays at 2^64 - 1 once it reaches it, which headers of 2^48
/// datagrams can't bring about.
#[derive(Debug, Clone, Copy, PartialEq, Eq)]
pub struct ClassTotals {
    /// Of kind `Unscanned`.
    pub unscanned: u64,
    /// Of kind `Short`.
    pub short: u64,
    /// Of kind `Length`.
    pub length: u64,
    /// Of kind `Undefined`.
    pub undefined: u64,
    /// Of kind `Arp`.
    pub arp: u64,
    /// Of kind `Ipv4`.
    pub ipv4: u64,
    /// Of kind `Ipv6`.
    pub ipv6: u64,
    /// Of kind `OtherType`.
    pub other: u64,
    /// Of kind `BadIp`.
    pub bad_ip: u64,
    /// With a VLAN, of whatever kind.
    pub tagged: u64,
    /// With protocol 6 in an IP header.
    pub tcp: u64,
    /// With protocol 17 in an IP header.
    pub udp: u64,
}

impl ClassTotals {
    /// None is counted.
    pub fn none() -> ClassTotals
        ensures { result ≡ no_classes }
    {
        ClassTotals {
            unscanned: 0,
            short: 0,
            length: 0,
            undefined: 0,
            arp: 0,
            ipv4: 0,
            ipv6: 0,
            other: 0,
            bad_ip: 0,
            tagged: 0,
            tcp: 0,
            udp: 0,
        }
    }

    /// Counts a header by what it says: by its kind, and besides by its VLAN and by its protocol.
    pub fn count(&mut self, facts: &HeaderFacts)
        ensures { self.new ≡ with_header self.old facts.now }
    {
        self.count_kind(facts.kind);
        self.count_vlan(facts.vlan);
        self.count_protocol(facts.proto);
    }

    /// Counts headers, one after the other.
    pub fn count_all(&mut self, briefs: &[Brief])
        ensures { self.new ≡ with_headers self.old (map facts_in briefs.now) }
    {
        for brief in briefs {
            self.count(&brief.facts);
        }
    }

    /// How many headers were counted, of whatever kind.
    pub fn headers(&self) -> u128
        ensures { result ≡ headers_counted self.now }
    {
        self.unscanned as u128
            + self.short as u128
            + self.length as u128
            + self.undefined as u128
            + self.arp as u128
            + self.ipv4 as u128
            + self.ipv6 as u128
            + self.other as u128
            + self.bad_ip as u128
    }

    fn count_kind(&mut self, kind: Kind)
        ensures { self.new ≡ with_kind self.old kind }
    {
        match kind {
            Kind::Unscanned => self.unscanned = self.unscanned.saturating_add(1),
            Kind::Short => self.short = self.short.saturating_add(1),
            Kind::Length => self.length = self.length.saturating_add(1),
            Kind::Undefined => self.undefined = self.undefined.saturating_add(1),
            Kind::Arp => self.arp = self.arp.saturating_add(1),
            Kind::Ipv4 => self.ipv4 = self.ipv4.saturating_add(1),
            Kind::Ipv6 => self.ipv6 = self.ipv6.saturating_add(1),
            Kind::OtherType => self.other = self.other.saturating_add(1),
            Kind::BadIp => self.bad_ip = self.bad_ip.saturating_add(1),
        }
    }

    fn count_vlan(&mut self, vlan: Option<u16>)
        ensures { self.new ≡ with_vlan self.old vlan }
    {
        if vlan.is_some() {
            self.tagged = self.tagged.saturating_add(1);
        }
    }

    fn count_protocol(&mut self, protocol: Option<u8>)
        ensures { self.new ≡ with_protocol self.old protocol }
    {
        match protocol {
            Some(6) => self.tcp = self.tcp.saturating_add(1),
            Some(17) => self.udp = self.udp.saturating_add(1),
            _ => {}
        }
    }
}
