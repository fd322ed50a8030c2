ghost use Rattle.std.specs.Prelude.{◌≡◌, ◌++◌, Some, None, length, replicate, take};
ghost use Rattle.header_lanes.specs.Facts.{facts};
ghost use Rattle.header_lanes.specs.Rows.{tagged_header, tagged_facts};

/// Worked headers: a doubly tagged frame with IPv4 and TCP, whole, cut within the ports, as a later fragment, and
/// followed by bytes that aren't read.
pub fn worked_headers()
    ensures ninety_six { length (tagged_header 0) ≡ 96 }
    ensures whole { facts 1 (tagged_header 0) ≡ tagged_facts (Some 8080) (Some 443) (Some 0x12) }
    ensures cut { facts 1 (take 85 (tagged_header 0)) ≡ tagged_facts None None None }
    ensures later_fragment { facts 1 (tagged_header 1) ≡ tagged_facts None None None }
    ensures followed { facts 1 (tagged_header 0 ++ replicate 104 0xff) ≡ tagged_facts (Some 8080) (Some 443) (Some 0x12) }
{}
