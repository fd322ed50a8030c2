// How many packets of a pcap file became what.
ghost use Rattle.std.specs.Prelude.{◌≡◌, ◌<◌, ◌^◌, [], Ok, Err};
ghost use Rattle.capture_spec.specs.Payloads.{Payload as Found};
ghost use Rattle.text_lines.specs.Pages.{Prints};

use byte_ends::{Failed, Sink};
use pcap_file::Passed;
use text_lines::{Page, Piece};

/// How many packets have a payload, and how many are passed over by each rule.
#[derive(Clone, Copy, Debug, PartialEq, Eq)]
pub struct PacketCounts {
    pub taken: u64,
    pub short: u64,
    pub not_ip: u64,
    pub bad_ip: u64,
    pub fragment: u64,
    pub not_udp: u64,
    pub port: u64,
    pub bad_len: u64,
    pub cut: u64,
}

impl PacketCounts {
    ghost use Rattle.pcap_payloads.specs.Outcomes.{counts_line, counts_of, counts_text, total_of, with_outcome};

    // Those of no packets.
    #[tactic(auto, unfolding(crate::specs::Outcomes::counts_of))]
    pub(crate) fn none() -> PacketCounts
        ensures { result ≡ counts_of [] }
    {
        PacketCounts {
            taken: 0,
            short: 0,
            not_ip: 0,
            bad_ip: 0,
            fragment: 0,
            not_udp: 0,
            port: 0,
            bad_len: 0,
            cut: 0,
        }
    }

    // A further packet has a payload.
    pub(crate) fn take(&mut self)
        requires few { total_of self.old < 2 ^ 48 }
        ensures { (payload : Found) → self.new ≡ with_outcome (Ok payload) self.old }
    {
        self.taken += 1;
    }

    // A further packet is passed over.
    pub(crate) fn pass(&mut self, reason: Passed)
        requires few { total_of self.old < 2 ^ 48 }
        ensures { self.new ≡ with_outcome (Err reason) self.old }
    {
        match reason {
            Passed::Short => self.short += 1,
            Passed::NotIp => self.not_ip += 1,
            Passed::BadIp => self.bad_ip += 1,
            Passed::Fragment => self.fragment += 1,
            Passed::NotUdp => self.not_udp += 1,
            Passed::Port => self.port += 1,
            Passed::BadLen => self.bad_len += 1,
            Passed::Cut => self.cut += 1,
        }
    }

    // How many packets there are.
    fn total(&self) -> u64
        requires few { total_of self.now < 2 ^ 63 }
        ensures { result ≡ total_of self.now }
    {
        self.taken
            + self.short
            + self.not_ip
            + self.bad_ip
            + self.fragment
            + self.not_udp
            + self.port
            + self.bad_len
            + self.cut
    }

    // The line of the counts.
    pub(crate) fn put<K: Sink>(&self, page: &mut Page, sink: &mut K) -> Result<(), Failed>
        requires few { total_of self.now < 2 ^ 63 }
        ensures { Prints (K.seen sink.old) (K.seen sink.new) page.old page.new result (counts_line self.now) }
    {
        self.put_line(page, sink, self.total())
    }

    #[tactic(auto, unfolding(crate::specs::Outcomes::counts_text))]
    fn put_line<K: Sink>(&self, page: &mut Page, sink: &mut K, total: u64) -> Result<(), Failed>
        ensures { Prints (K.seen sink.old) (K.seen sink.new) page.old page.new result (counts_text total self.now) }
    {
        let pieces = [
            Piece::Text("pcap packets "),
            Piece::Number(total as u128),
            Piece::Text(" taken "),
            Piece::Number(self.taken as u128),
            Piece::Text(" short "),
            Piece::Number(self.short as u128),
            Piece::Text(" notip "),
            Piece::Number(self.not_ip as u128),
            Piece::Text(" badip "),
            Piece::Number(self.bad_ip as u128),
            Piece::Text(" fragment "),
            Piece::Number(self.fragment as u128),
            Piece::Text(" notudp "),
            Piece::Number(self.not_udp as u128),
            Piece::Text(" port "),
            Piece::Number(self.port as u128),
            Piece::Text(" badlen "),
            Piece::Number(self.bad_len as u128),
            Piece::Text(" cut "),
            Piece::Number(self.cut as u128),
            Piece::Text("\n"),
        ];
        page.put_line(sink, &pieces)
    }
}
