// Worked rows, computed by the check. A list of lines has the latest first, but what a script reads as has the first first.

ghost use Rattle.std.specs.Prelude.{◌≡◌, ℕ, ◌++◌, true, false, List, [], ◌∷◌, length, map, replicate, codes, Some, None, Ok, Err};
ghost use Rattle.wire_spec.specs.Heads.{ipv4, ipv6};
ghost use Rattle.script_spec.specs.Words.{number32, number64, header, vlan};
ghost use Rattle.script_spec.specs.Values.{place, skip_list, address};
ghost use Rattle.script_spec.specs.Lines.{MaxLine, SubLine, FlowLine, CounterLine, PacketLine, PollLine, SendLine, RestartLine, ResetLine, DeliverLine, flow_at, counter_at};
ghost use Rattle.script_spec.specs.Forms.{line_in};
ghost use Rattle.script_spec.specs.Texts.{texts_in};
ghost use Rattle.script_spec.specs.Rules.{may_follow};
ghost use Rattle.script_spec.specs.Scripts.{script_reading};
ghost use Rattle.script_spec.specs.Rows.{text_of, at_place, agent, sampled, polled, packet, packets, set_up, sends, sends_after_reset, sizes, delivery};

/// Numbers, sources and skip numbers.
pub fn number_rows()
    ensures zero { number32.read (codes "0") ≡ Some 0 }
    ensures greatest { number32.read (codes "4294967295") ≡ Some 4294967295 }
    ensures too_great { number32.read (codes "4294967296") ≡ None }
    ensures long { number64.read (codes "18446744073709551616") ≡ None }
    ensures leading_zero { number32.read (codes "01") ≡ None }
    ensures no_digits { number32.read [] ≡ None }
    ensures sign { number32.read (codes "+1") ≡ None }
    ensures source { place.read (codes "255:4294967295") ≡ Some (record { class = 255; index = 4294967295 }) }
    ensures class { place.read (codes "256:0") ≡ None }
    ensures index { place.read (codes "0:4294967296") ≡ None }
    ensures no_index { place.read (codes "5") ≡ None }
    ensures third { place.read (codes "0:5:6") ≡ None }
    ensures skips { skip_list.read (codes "3,2") ≡ Some (3 ∷ 2 ∷ []) }
    ensures no_skip { skip_list.read (codes "3,0") ≡ None }
    ensures open_list { skip_list.read (codes "3,") ≡ None }
{}

/// Addresses, headers and VLANs.
pub fn byte_rows()
    ensures dotted { address.read (codes "10.0.0.255") ≡ Some (ipv4 (10 ∷ 0 ∷ 0 ∷ 255 ∷ [])) }
    ensures great { address.read (codes "10.0.0.256") ≡ None }
    ensures three { address.read (codes "10.0.0") ≡ None }
    ensures groups { address.read (codes "2001:0db8:0000:0000:0000:0000:0000:000a")
        ≡ Some (ipv6 (0x20 ∷ 1 ∷ 0x0d ∷ 0xb8 ∷ 0 ∷ 0 ∷ 0 ∷ 0 ∷ 0 ∷ 0 ∷ 0 ∷ 0 ∷ 0 ∷ 0 ∷ 0 ∷ 10 ∷ [])) }
    ensures shortened { address.read (codes "2001:db8:0:0:0:0:0:a") ≡ None }
    ensures upper_case { address.read (codes "2001:0DB8:0000:0000:0000:0000:0000:000a") ≡ None }
    ensures bytes { header.read (codes "00ff7a") ≡ Some (0 ∷ 255 ∷ 0x7a ∷ []) }
    ensures none { header.read (codes "-") ≡ Some [] }
    ensures no_text { header.read [] ≡ None }
    ensures half { header.read (codes "00f") ≡ None }
    ensures great_digit { header.read (codes "FF") ≡ None }
    ensures untagged { vlan.read (codes "-") ≡ Some None }
    ensures tagged { vlan.read (codes "4095") ≡ Some (Some 4095) }
    ensures long_tag { vlan.read (codes "4096") ≡ None }
{}

/// Lines of each kind.
#[tactic(auto, unfolding(crate::specs::Forms::line_in))]
pub fn line_rows()
    ensures max { line_in (codes "max 512") ≡ Some (MaxLine 512) }
    ensures sub { line_in (codes "sub 1 10.0.0.1 first 1 at 1000 stage 2") ≡ Some (SubLine (agent 1 2)) }
    ensures flow { line_in (codes "flow 1 0:5 rate 3 first 1 pool 0 drops 0 skips 3,2") ≡ Some (FlowLine 1 (sampled 5)) }
    ensures counter { line_in (codes "counter 1 0:5 every 1000 first 1") ≡ Some (CounterLine 1 (polled 5)) }
    ensures packet { line_in (codes "packet 0:5 in 5 out 6 vlan - length 64 -") ≡ Some (PacketLine (at_place 5) packet) }
    ensures poll { line_in (codes "poll 1 1000") ≡ Some (PollLine 1 1000) }
    ensures send { line_in (codes "send 1 500") ≡ Some (SendLine 1 500) }
    ensures restart { line_in (codes "restart 1 at 9223372036854775807") ≡ Some (RestartLine 1 9223372036854775807) }
    ensures reset_flow { line_in (codes "reset flow 0:5") ≡ Some (ResetLine (flow_at (at_place 5))) }
    ensures reset_counter { line_in (codes "reset counter 0:5") ≡ Some (ResetLine (counter_at (at_place 5))) }
    ensures deliver { line_in (codes "deliver 1 1 2 3000") ≡ Some (DeliverLine (delivery 1 2)) }
{}

/// Lines of no kind: words, spaces and ranges.
#[tactic(auto, unfolding(crate::specs::Forms::line_in))]
pub fn shapeless_rows()
    ensures unknown { line_in (codes "pause 1") ≡ None }
    ensures two_spaces { line_in (codes "send  1 500") ≡ None }
    ensures leading_space { line_in (codes " send 1 500") ≡ None }
    ensures trailing_space { line_in (codes "send 1 500 ") ≡ None }
    ensures missing { line_in (codes "send 1") ≡ None }
    ensures further { line_in (codes "send 1 500 6") ≡ None }
    ensures other_name { line_in (codes "restart 1 on 5") ≡ None }
    ensures short { line_in (codes "max 511") ≡ None }
    ensures long { line_in (codes "max 65536") ≡ None }
    ensures no_stage { line_in (codes "sub 1 10.0.0.1 first 1 at 1000 stage 0") ≡ None }
    ensures late { line_in (codes "restart 1 at 9223372036854775808") ≡ None }
    ensures port { line_in (codes "packet 0:5 in 1073741824 out 6 vlan - length 64 -") ≡ None }
{}

/// What bytes are as a script.
#[tactic(auto, unfolding(crate::specs::Forms::line_in, crate::specs::Texts::texts_in, crate::specs::Texts::shape_of, crate::specs::Rules::may_follow, crate::specs::Scripts::behind_text, crate::specs::Scripts::script_reading))]
pub fn script_rows()
    ensures no_bytes { script_reading [] ≡ Err 1 }
    ensures comment { script_reading (codes "#a") ≡ Err 2 }
    ensures ended_comment { script_reading (text_of (codes "#a" ∷ [])) ≡ Err 2 }
    ensures line_feed { script_reading (10 ∷ []) ≡ Err 2 }
    ensures no_lines { script_reading (codes "sflow-script 1") ≡ Ok [] }
    ensures other_version { script_reading (codes "sflow-script 2") ≡ Err 1 }
    ensures skipped { script_reading (text_of ([] ∷ codes "#x" ∷ codes "sflow-script 1" ∷ [] ∷ codes "max 600" ∷ []))
        ≡ Ok (MaxLine 600 ∷ []) }
    ensures no_line_feed { script_reading (text_of (codes "sflow-script 1" ∷ []) ++ codes "max 600")
        ≡ Ok (MaxLine 600 ∷ []) }
    ensures twice { script_reading (text_of (codes "sflow-script 1" ∷ codes "max 600" ∷ codes "#" ∷ codes "max 600" ∷ []))
        ≡ Err 4 }
    ensures unknown { script_reading (text_of (codes "sflow-script 1" ∷ codes "send 1 5" ∷ [])) ≡ Err 2 }
{}

/// Which line may follow which.
#[tactic(auto, unfolding(crate::specs::Rules::may_follow))]
pub fn rule_rows()
    ensures max_after_sub { may_follow (SubLine (agent 1 2) ∷ []) (MaxLine 600) ≡ false }
    ensures other_sub { may_follow (SubLine (agent 1 2) ∷ []) (SubLine (agent 2 2)) ≡ true }
    ensures same_sub { may_follow (SubLine (agent 1 2) ∷ []) (SubLine (agent 1 3)) ≡ false }
    ensures flow_of_nobody { may_follow (SubLine (agent 1 2) ∷ []) (FlowLine 2 (sampled 5)) ≡ false }
    ensures flow_twice { may_follow (set_up 5) (FlowLine 1 (sampled 5)) ≡ false }
    ensures other_flow { may_follow (set_up 5) (FlowLine 1 (sampled 6)) ≡ true }
    ensures flow_of_another { may_follow (SubLine (agent 2 2) ∷ set_up 5) (FlowLine 2 (sampled 5)) ≡ false }
    ensures counter_too { may_follow (set_up 5) (CounterLine 1 (polled 5)) ≡ true }
    ensures counter_of_another { may_follow (SubLine (agent 2 2) ∷ set_up 5) (CounterLine 2 (polled 5)) ≡ false }
    ensures counter_twice { may_follow (CounterLine 1 (polled 5) ∷ set_up 5) (CounterLine 1 (polled 5)) ≡ false }
    ensures set_up_ended { may_follow (SendLine 1 5 ∷ set_up 5) (FlowLine 1 (sampled 6)) ≡ false }
    ensures packet_of_source { may_follow (set_up 5) (PacketLine (at_place 5) packet) ≡ true }
    ensures packet_of_none { may_follow (set_up 5) (PacketLine (at_place 6) packet) ≡ false }
    ensures packet_of_counter { may_follow (CounterLine 1 (polled 6) ∷ set_up 5) (PacketLine (at_place 6) packet) ≡ false }
    ensures reset_of_source { may_follow (set_up 5) (ResetLine (flow_at (at_place 5))) ≡ true }
    ensures reset_of_other_kind { may_follow (set_up 5) (ResetLine (counter_at (at_place 5))) ≡ false }
    ensures poll_of_nobody { may_follow (set_up 5) (PollLine 2 5) ≡ false }
{}
