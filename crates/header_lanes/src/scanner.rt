// One header.
ghost use Rattle.std.specs.Prelude.{◌≡◌};
ghost use Rattle.header_lanes.specs.Facts.{facts};

use crate::batch::Batch;
use crate::header::HeaderFacts;

/// What a header says, of which the first 128 bytes are looked at. The header protocol is that of a sampled header record
/// (sFlow Version 5, section 5): 1 Ethernet (IEEE 802.3 and 802.1Q), 11 IPv4 (RFC 791), 12 IPv6 (RFC 8200). It is a batch
/// of one: whoever has more headers scans up to sixteen in the same time.
pub fn scan_one(protocol: u32, header: &[u8]) -> HeaderFacts
    ensures { result ≡ facts protocol header.now }
{
    let mut batch = Batch::new();
    let mut facts = [HeaderFacts::none(); 16];
    if batch.push(protocol, header).is_ok() {
        batch.scan(&mut facts);
    }
    facts[0]
}
