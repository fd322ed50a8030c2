// Worked examples: which bytes are datagrams, and what is wrong with the others.
ghost use Rattle.std.specs.Prelude.{[], ◌∷◌, ◌++◌, take};
ghost use Rattle.wire_spec.specs.declared.pad.Pad.TheVariants.{Any, Zero};
ghost use Rattle.wire_spec.specs.Shapes.{none, ◌&◌, version, address, segment};
ghost use Rattle.wire_spec.specs.Fails.{short, bad_padding, unknown_word};
ghost use Rattle.wire_spec.specs.Whole.{trailing, SpellsWhole, FailsWhole};
ghost use Rattle.wire_spec.specs.Heads.{datagram_tree};
ghost use Rattle.wire_spec.specs.Tables.{datagram};
ghost use Rattle.wire_spec.specs.Examples.{words, example_head, empty_datagram, flow_tree, flow_datagram, cut_record, padded_header, padded_header_tree, gateway_datagram};
ghost use Rattle.wire_spec.specs.RecordExamples.{every_record, every_record_tree};

/// Datagrams without samples.
pub fn datagrams_without_samples()
    ensures whole { SpellsWhole Zero datagram (empty_datagram 1) (datagram_tree (example_head 1) none) }
    ensures cut { FailsWhole Any datagram (take 27 (empty_datagram 1)) (short 24 4 3) }
    ensures no_bytes { FailsWhole Any datagram [] (short 0 4 0) }
    ensures other_version { FailsWhole Any datagram (words (4 ∷ 1 ∷ 0x0a000001 ∷ 0 ∷ 1 ∷ 1000 ∷ 0 ∷ []))
        (unknown_word version 0 4) }
    ensures other_address { FailsWhole Any datagram (words (5 ∷ 3 ∷ 0x0a000001 ∷ 0 ∷ 1 ∷ 1000 ∷ 0 ∷ []))
        (unknown_word address 4 3) }
    ensures more_bytes { FailsWhole Any datagram (empty_datagram 1 ++ 0 ∷ 0 ∷ 0 ∷ 0 ∷ []) (trailing 28 4) }
{}

/// Datagrams with samples and records.
pub fn datagrams_with_samples()
    ensures flow { SpellsWhole Zero datagram flow_datagram (datagram_tree (example_head 1) (flow_tree none & none)) }

    // Each record of the tables, samples in both forms, a tail, and formats outside of the tables.
    ensures every_record { SpellsWhole Zero datagram every_record every_record_tree }

    // An item is bounded by the innermost body, also where the datagram goes on.
    ensures cut_in_a_body { FailsWhole Any datagram cut_record (short 76 8 0) }

    // Padding other than zero, deep in a record, is free under one reading and a fault under the other.
    ensures padding_is_free { SpellsWhole Any datagram padded_header padded_header_tree }
    ensures padding_is_zero { FailsWhole Zero datagram padded_header (bad_padding 157) }

    // The fault of a path segment stands at its own word.
    ensures segment_kind { FailsWhole Any datagram (gateway_datagram 3) (unknown_word segment 100 3) }
{}
