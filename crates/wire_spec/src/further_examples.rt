// Worked examples: records of the formats 1004 to 1007 of flow records and 1001 of counter records.
ghost use Rattle.std.specs.Prelude.{[]};
ghost use Rattle.wire_spec.specs.declared.pad.Pad.TheVariants.{Any, Zero};
ghost use Rattle.wire_spec.specs.Shapes.{address};
ghost use Rattle.wire_spec.specs.Fails.{short, bad_padding, unknown_word};
ghost use Rattle.wire_spec.specs.Whole.{SpellsWhole, FailsWhole};
ghost use Rattle.wire_spec.specs.Tables.{datagram};
ghost use Rattle.wire_spec.specs.FurtherExamples.{tail_bytes, user_record, user_with_tail, user_tree, url_record, url_with_tail, url_tree, mpls_record, mpls_with_tail, mpls_tree, nat_record, nat_with_tail, nat_tree, processor_with_tail, cut_processor, processor_tree};

/// Each of these records as it stands, with a tail, and with a fault.
pub fn datagrams_with_further_records()
    ensures user { SpellsWhole Zero datagram (user_record 0x61626300) (user_tree []) }
    ensures user_tail { SpellsWhole Zero datagram user_with_tail (user_tree tail_bytes) }

    // Padding other than zero behind a name.
    ensures user_padding_is_free { SpellsWhole Any datagram (user_record 0x61626301) (user_tree []) }
    ensures user_padding_is_zero { FailsWhole Zero datagram (user_record 0x61626301) (bad_padding 87) }

    ensures url { SpellsWhole Zero datagram (url_record 3) (url_tree []) }
    ensures url_tail { SpellsWhole Zero datagram url_with_tail (url_tree tail_bytes) }

    // A host of eight bytes, of which four are there.
    ensures url_fault { FailsWhole Any datagram (url_record 8) (short 92 8 4) }

    ensures mpls { SpellsWhole Zero datagram (mpls_record 1) (mpls_tree []) }
    ensures mpls_tail { SpellsWhole Zero datagram mpls_with_tail (mpls_tree tail_bytes) }

    // Three labels, of which two are there.
    ensures mpls_fault { FailsWhole Any datagram (mpls_record 3) (short 96 4 0) }

    ensures nat { SpellsWhole Zero datagram (nat_record 1) (nat_tree []) }
    ensures nat_tail { SpellsWhole Zero datagram nat_with_tail (nat_tree tail_bytes) }

    // An address of a third kind.
    ensures nat_fault { FailsWhole Any datagram (nat_record 3) (unknown_word address 76 3) }

    ensures processor_tail { SpellsWhole Zero datagram processor_with_tail (processor_tree tail_bytes) }

    // The free memory has four of its eight bytes.
    ensures processor_fault { FailsWhole Any datagram cut_processor (short 76 8 4) }
{}
