// What holds of samples and frames. Each is a function with nothing to do, whose contract is the law.
ghost use Rattle.std.specs.Prelude.{◌≡◌, ℕ, ◌+◌, ◌-◌, List, length};
ghost use Rattle.wire_spec.specs.Tables.{flow_table, counter_table, flow_sample, counters_sample, expanded_flow_sample, expanded_counters_sample};
ghost use Rattle.data_format.specs.declared.heads.Form.TheVariants.{Compact, Expanded};
ghost use Rattle.data_format.specs.declared.heads.FlowHead.{FlowHead};
ghost use Rattle.data_format.specs.declared.heads.CountersHead.{CountersHead};
ghost use Rattle.data_format.specs.Ranges.{IsRange, AreRanges, StandIn, EndsWith};
ghost use Rattle.data_format.specs.Samples.{flow_over, counters_over, flow_trees, counters_trees, IsFlowHead, IsCountersHead};
ghost use Rattle.data_format.specs.Views.{FrameView, body_of};

/// Over the tables of all records the samples are those of the standard.
pub fn samples_over_all_records()
    ensures flow { flow_over Compact flow_table ≡ flow_sample }
    ensures counters { counters_over Compact counter_table ≡ counters_sample }
    ensures expanded_flow { flow_over Expanded flow_table ≡ expanded_flow_sample }
    ensures expanded_counters { counters_over Expanded counter_table ≡ expanded_counters_sample }
{}

/// A sample has one head: values are those of one head of their form.
pub fn one_head_of_a_sample()
    ensures flow { (g h : FlowHead) → IsFlowHead Compact g → IsFlowHead Compact h
        → flow_trees Compact g ≡ flow_trees Compact h → g ≡ h }
    ensures counters { (g h : CountersHead) → IsCountersHead Compact g → IsCountersHead Compact h
        → counters_trees Compact g ≡ counters_trees Compact h → g ≡ h }
    ensures expanded_flow { (g h : FlowHead) → flow_trees Expanded g ≡ flow_trees Expanded h → g ≡ h }
    ensures expanded_counters { (g h : CountersHead) → counters_trees Expanded g ≡ counters_trees Expanded h → g ≡ h }
{}

/// What stands in the body of a frame that is a range of some bytes is a range of these bytes itself, and so is the rest
/// of the body behind it.
pub fn ranges_within_ranges()
    ensures frames { (whole : List ℕ) (f : FrameView) (records : List FrameView) → IsRange whole f.at f.body
        → StandIn (body_of f) records → AreRanges whole records }
    ensures tail { (whole : List ℕ) (f : FrameView) (tail : List ℕ) → IsRange whole f.at f.body
        → EndsWith f.body tail → IsRange whole (f.at + (length f.body - length tail)) tail }
{}
