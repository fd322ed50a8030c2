// The laws of payloads. Each is a function with nothing to do, whose contract is the law.
ghost use Rattle.std.specs.Prelude.{◌≡◌, ℕ, List, take, Ok, Err};
ghost use Rattle.capture_spec.specs.declared.passed.Passed.TheVariants.{Short, NotIp, BadIp, Fragment, NotUdp, BadLen, Cut, Port};
ghost use Rattle.capture_spec.specs.Payloads.{Payload, IsWithin, payload_of};
ghost use Rattle.capture_spec.specs.PayloadRows.{taken, taken6, whole, padded, with_options, tagged, tagged_twice, tagged_thrice, whole6, other_version, short_header, short_total, more_fragments, later_fragment, not_to_be_cut, of_tcp, no_room, other_port, short_datagram, long_datagram, other_version6};

/// The bytes of a payload stand in the frame one after the other.
pub fn payload_is_a_range()
    ensures { (frame : List ℕ) (payload : Payload) → payload_of frame ≡ Ok payload → IsWithin frame payload.bytes }
{}

/// Worked frames whose payload is taken, each computed by the check.
#[tactic(auto, unfolding(crate::specs::Payloads::payload_of, crate::specs::Payloads::payload_behind, crate::specs::Payloads::typed_payload, crate::specs::Payloads::type_place, crate::specs::Payloads::ipv4_payload, crate::specs::Payloads::ipv6_payload, crate::specs::Payloads::udp_payload))]
pub fn payload_rows()
    ensures whole { payload_of whole ≡ taken }
    ensures padding { payload_of padded ≡ taken }
    ensures options { payload_of with_options ≡ taken }
    ensures tag { payload_of tagged ≡ taken }
    ensures two_tags { payload_of tagged_twice ≡ taken }
    ensures unfragmented { payload_of not_to_be_cut ≡ taken }
    ensures ipv6 { payload_of whole6 ≡ taken6 }
{}

/// Worked frames that are passed over, each computed by the check.
#[tactic(auto, unfolding(crate::specs::Payloads::payload_of, crate::specs::Payloads::payload_behind, crate::specs::Payloads::typed_payload, crate::specs::Payloads::type_place, crate::specs::Payloads::ipv4_payload, crate::specs::Payloads::ipv6_payload, crate::specs::Payloads::udp_payload))]
pub fn payload_rules()
    ensures cut_type { payload_of (take 13 whole) ≡ Err Short }
    ensures cut_tag { payload_of (take 17 tagged) ≡ Err Short }
    ensures cut_second_tag { payload_of (take 21 tagged_twice) ≡ Err Short }
    ensures third_tag { payload_of tagged_thrice ≡ Err NotIp }
    ensures cut_ipv4 { payload_of (take 33 whole) ≡ Err Short }
    ensures cut_ipv6 { payload_of (take 53 whole6) ≡ Err Short }
    ensures version { payload_of other_version ≡ Err BadIp }
    ensures version6 { payload_of other_version6 ≡ Err BadIp }
    ensures header { payload_of short_header ≡ Err BadIp }
    ensures total { payload_of short_total ≡ Err BadIp }
    ensures first_fragment { payload_of more_fragments ≡ Err Fragment }
    ensures later_fragment { payload_of later_fragment ≡ Err Fragment }
    ensures protocol { payload_of of_tcp ≡ Err NotUdp }
    ensures no_header { payload_of no_room ≡ Err BadLen }
    ensures cut_header { payload_of (take 41 whole) ≡ Err Cut }
    ensures port { payload_of other_port ≡ Err Port }
    ensures short_length { payload_of short_datagram ≡ Err BadLen }
    ensures long_length { payload_of long_datagram ≡ Err BadLen }
    ensures cut_datagram { payload_of (take 69 whole) ≡ Err Cut }
{}
