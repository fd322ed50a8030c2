// What holds of the tables that are read, and of datagrams that are written. The functions have nothing to do: their
// contracts are the laws.
ghost use Rattle.std.specs.Prelude.{◌≡◌, ◌≤◌, Ok, length};
ghost use Rattle.wire_spec.specs.declared.pad.Pad.{Pad};
ghost use Rattle.wire_spec.specs.Heads.{Head, datagram_tree};
ghost use Rattle.wire_spec.specs.Shapes.{Trees};
ghost use Rattle.wire_spec.specs.Spelling.{spell, IsLawful};
ghost use Rattle.wire_spec.specs.Tables.{flow_table, counter_table, sample_table, datagram};
ghost use Rattle.wire_spec.specs.Whole.{whole_reading};
ghost use Rattle.datagram_core.specs.Tables.{flow_records_read, counter_records_read, samples_read, datagram_read};

/// What is read is the whole grammar: its flow records, its counter records, its samples and its datagrams.
pub fn datagrams_over_all_records()
    ensures flows { flow_records_read ≡ flow_table }
    ensures counters { counter_records_read ≡ counter_table }
    ensures samples { samples_read ≡ sample_table }
    ensures datagrams { datagram_read ≡ datagram }
{}

/// A datagram whose numbers, counts and lengths fit their words is read from its spelling, however padding is read. A
/// writer leaves this spelling.
pub fn written_datagrams_are_read()
    ensures { (p : Pad) (h : Head) (samples : Trees) → IsLawful datagram_read (datagram_tree h samples)
        → length (spell (datagram_tree h samples)) ≤ 65535
        → whole_reading p datagram_read (spell (datagram_tree h samples)) ≡ Ok (datagram_tree h samples) }
{}
