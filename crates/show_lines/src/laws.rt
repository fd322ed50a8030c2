// What the lines say. A function here has nothing to do: its contract is the law.
ghost use Rattle.std.specs.Prelude.{◌≡◌, ◌++◌, ℕ, length, None, Some};
ghost use Rattle.wire_spec.specs.declared.fault.Fault.{Fault};
ghost use Rattle.wire_spec.specs.declared.pad.Pad.TheVariants.{Any};
ghost use Rattle.wire_spec.specs.Captures.{Entry};
ghost use Rattle.capture_spec.specs.Items.{Sender, sent_by};
ghost use Rattle.wire_spec.specs.RecordExamples.{flow_record_trees, counter_record_trees};
ghost use Rattle.wire_spec.specs.Shapes.{Tree};
ghost use Rattle.wire_spec.specs.Whole.{SpellsWhole, FailsWhole};
ghost use Rattle.datagram_core.specs.Tables.{datagram_read};
ghost use Rattle.datagram_core.specs.declared.records.RecordKind.TheVariants.{Flow, Counters};
ghost use Rattle.show_lines.specs.Joined.{texts_of};
ghost use Rattle.show_lines.specs.Lines.{entry_line, fault_line, sent_line};
ghost use Rattle.show_lines.specs.Shown.{entry_text, received_text, outcome_of, outcome_text, datagram_text, record_text};
ghost use Rattle.show_lines.specs.Worked.{flow_entry, flow_lines, expanded_entry, expanded_lines, cut_entry, cut_lines, tail_entry, tail_lines, other_entry, other_lines};
ghost use Rattle.show_lines.specs.WorkedRecords.{flow_record_lines, counter_record_lines, switch_entry, switch_lines, gateway_entry, gateway_lines, no_path_entry, no_path_lines, interface_entry, interface_lines};
ghost use Rattle.show_lines.specs.WorkedFurther.{user_entry, user_lines, user_tail_entry, user_tail_lines, url_tail_entry, url_tail_lines, cut_url_entry, cut_url_lines, mpls_entry, mpls_lines, nat_entry, nat_lines, other_nat_lines, processor_entry, processor_lines};

/// An entry is shown with the line of a fault exactly where its bytes have this fault in the grammar, and else with
/// the lines of the one datagram that they are.
pub fn shown_as_the_grammar_says()
    ensures fault { (number : ℕ) (e : Entry) (f : Fault) → FailsWhole Any datagram_read e.bytes f
        → entry_text number e ≡ entry_line number e.arrival (length e.bytes) ++ fault_line f }
    ensures datagram { (number : ℕ) (e : Entry) (t : Tree) → SpellsWhole Any datagram_read e.bytes t
        → entry_text number e ≡ entry_line number e.arrival (length e.bytes) ++ datagram_text t }

    // Without a sender an entry of either version is shown as one of version 1; with one only the first line differs.
    ensures unsent { (number : ℕ) (e : Entry) → received_text number (sent_by None e) ≡ entry_text number e }
    ensures sent { (number : ℕ) (e : Entry) (from : Sender) → received_text number (sent_by (Some from) e)
        ≡ sent_line number e.arrival from (length e.bytes) ++ outcome_text (outcome_of e.bytes) }

    // No lines of a datagram are the line of a fault.
    ensures apart { (t : Tree) (f : Fault) → ¬ (datagram_text t ≡ fault_line f) }
{}

/// Worked entries: flow samples in both forms, bytes that are no datagram, a tail, and formats outside of the
/// tables.
pub fn worked_entries()
    ensures flow { entry_text 1 flow_entry ≡ flow_lines }
    ensures expanded { entry_text 1 expanded_entry ≡ expanded_lines }
    ensures cut { entry_text 2 cut_entry ≡ cut_lines }
    ensures tail { entry_text 1 tail_entry ≡ tail_lines }
    ensures other { entry_text 1 other_entry ≡ other_lines }
{}

/// Worked records: one of each format of the two tables; and entries with a tail and a record outside of the tables, a
/// BGP route with its path and without one, and the counters of an interface.
pub fn worked_records()
    ensures flows { texts_of (record_text Flow) flow_record_trees ≡ flow_record_lines }
    ensures counters { texts_of (record_text Counters) counter_record_trees ≡ counter_record_lines }
    ensures switch { entry_text 1 switch_entry ≡ switch_lines }
    ensures gateway { entry_text 1 gateway_entry ≡ gateway_lines }
    ensures no_path { entry_text 1 no_path_entry ≡ no_path_lines }
    ensures interface { entry_text 1 interface_entry ≡ interface_lines }
{}

/// Entries with users, URLs, label stacks, translated addresses and the load of a processor: with a tail and without one,
/// and with a fault.
pub fn worked_further_records()
    ensures user { entry_text 1 user_entry ≡ user_lines }
    ensures user_tail { entry_text 1 user_tail_entry ≡ user_tail_lines }
    ensures url_tail { entry_text 1 url_tail_entry ≡ url_tail_lines }
    ensures url_fault { entry_text 1 cut_url_entry ≡ cut_url_lines }
    ensures mpls { entry_text 1 mpls_entry ≡ mpls_lines }
    ensures nat { entry_text 1 (nat_entry 1) ≡ nat_lines }
    ensures nat_fault { entry_text 1 (nat_entry 3) ≡ other_nat_lines }
    ensures processor { entry_text 1 processor_entry ≡ processor_lines }
{}
