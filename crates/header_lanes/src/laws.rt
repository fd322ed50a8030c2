ghost use Rattle.std.specs.Prelude.{◌≡◌, ◌≢◌, ℕ, ◌≤◌, List, take};
ghost use Rattle.header_lanes.specs.Facts.{facts, facts_in};
ghost use Rattle.header_lanes.specs.Kinds.{HasFactsOf};
ghost use Rattle.header_lanes.specs.KindsOf.{kind_in};
ghost use Rattle.header_lanes.specs.Places.{AreThere, ip_place};
ghost use Rattle.header_lanes.specs.Rows.{tagged_header};

/// The first 96 bytes tell all: two tags behind the addresses, an IPv4 header of 60 bytes, and the 14 bytes of TCP up to
/// the control bits. Fewer don't.
pub fn ninety_six_bytes_tell()
    ensures any_more { (n protocol : ℕ) (header : List ℕ) → 96 ≤ n
        → facts_in protocol (take n header) ≡ facts_in protocol header }
    ensures facts { (protocol : ℕ) (header : List ℕ) → facts protocol header ≡ facts_in protocol (take 96 header) }
    ensures no_fewer { facts 1 (take 95 (tagged_header 0)) ≢ facts 1 (tagged_header 0) }
{}

/// A VLAN, an address, a port or the flags that are told stand in the header, at the place that IEEE 802.1Q, RFC 791,
/// RFC 8200, RFC 9293 and RFC 768 give them.
pub fn what_is_told_stands_there()
    ensures { (protocol : ℕ) (header : List ℕ) →
        let h = take 128 header in
        AreThere (ip_place protocol h) h (facts protocol header) }
{}

/// Which headers are of which kind: each header is of exactly one, by its protocol, by the type of its frame, and by the
/// length and the first byte of the IP header that should follow.
pub fn each_header_has_its_kind()
    ensures { (protocol : ℕ) (header : List ℕ) → (facts protocol header).kind ≡ kind_in protocol (take 128 header) }
{}

/// The kind says which facts there are: those of an IP header with `Ipv4` and `Ipv6` alone, no type with a length or an
/// undefined type, and no VLAN and no type where nothing was read.
pub fn each_kind_has_its_facts()
    ensures { (protocol : ℕ) (header : List ℕ) →
        let f = facts protocol header in
        HasFactsOf f.kind f }
{}
