ghost use Rattle.std.specs.Prelude.{◌≡◌};
ghost use Rattle.wire_spec.specs.Heads.{AgentAddress, Head, address_tree, datagram_tree};
ghost use Rattle.wire_spec.specs.Shapes.{Table, Trees};
ghost use Rattle.data_format.specs.declared.format.Format.{Format};
ghost use Rattle.data_format.specs.declared.heads.CountersHead.{CountersHead};
ghost use Rattle.data_format.specs.declared.heads.FlowHead.{FlowHead};
ghost use Rattle.data_format.specs.declared.heads.Form.{Form};
ghost use Rattle.data_format.specs.Samples.{SampleView, IsFlowHead, IsCountersHead, flow_tree, counters_tree};
ghost use Rattle.data_format.specs.Trees.{frame_trees};
ghost use Rattle.data_format.specs.Values.{address_in, behind_version, counter_records_in, counters_head_in, flow_head_in, flow_records_in, format_of, head_in, members_of, samples_behind};
ghost use Rattle.data_format.specs.Views.{IsFormat, format_word};

/// A value of the grammar has the parts that it was made of: a datagram its head and its samples, a sample its head and
/// its records, an address and a format themselves.
pub fn values_have_their_parts()
    ensures address { (a : AgentAddress) → address_in (address_tree a) ≡ a }
    ensures format { (f : Format) → IsFormat f → format_of (format_word f) ≡ f }
    ensures head { (h : Head) (samples : Trees) → head_in (behind_version (datagram_tree h samples)) ≡ h }
    ensures samples { (h : Head) (samples : Trees) → samples_behind (behind_version (datagram_tree h samples)) ≡ samples }
    ensures flow_head { (form : Form) (T : Table) (s : SampleView FlowHead) → IsFlowHead form s.head
        → flow_head_in form (members_of (flow_tree form T s)) ≡ s.head }
    ensures flow_records { (form : Form) (T : Table) (s : SampleView FlowHead)
        → flow_records_in form (members_of (flow_tree form T s)) ≡ frame_trees T s.frames }
    ensures counters_head { (form : Form) (T : Table) (s : SampleView CountersHead) → IsCountersHead form s.head
        → counters_head_in form (members_of (counters_tree form T s)) ≡ s.head }
    ensures counter_records { (form : Form) (T : Table) (s : SampleView CountersHead)
        → counter_records_in form (members_of (counters_tree form T s)) ≡ frame_trees T s.frames }
{}
