// What the formats 1004 to 1007 of flow records and 1001 of counter records change: the reading of bytes that have such
// a record, and no other.
ghost use Rattle.std.specs.Prelude.{◌≡◌, ◌↔◌, ℕ, List};
ghost use Rattle.wire_spec.specs.declared.pad.Pad.{Pad};
ghost use Rattle.wire_spec.specs.declared.fault.Fault.{Fault};
ghost use Rattle.wire_spec.specs.Bytes.{AreBytes};
ghost use Rattle.wire_spec.specs.Shapes.{Tree};
ghost use Rattle.wire_spec.specs.Tables.{flow_table, counter_table, datagram};
ghost use Rattle.wire_spec.specs.declared.pad.Pad.TheVariants.{Any};
ghost use Rattle.wire_spec.specs.Examples.{gateway_datagram};
ghost use Rattle.wire_spec.specs.FurtherExamples.{nat_record};
ghost use Rattle.wire_spec.specs.FurtherFormats.{datagram_with, datagram_without, LacksFurther};
ghost use Rattle.wire_spec.specs.Whole.{SpellsWhole, FailsWhole, whole_reading};

/// Bytes in which no record has one of these formats have the same value, or the same first fault, over the tables with
/// them and without them.
pub fn other_formats_are_read_as_before()
    ensures tables { datagram_with flow_table counter_table ≡ datagram }
    ensures reading { (p : Pad) (bytes : List ℕ) → LacksFurther p bytes
        → whole_reading p datagram bytes ≡ whole_reading p datagram_without bytes }
    ensures value { (p : Pad) (bytes : List ℕ) (t : Tree) → AreBytes bytes → LacksFurther p bytes
        → (SpellsWhole p datagram bytes t ↔ SpellsWhole p datagram_without bytes t) }
    ensures fault { (p : Pad) (bytes : List ℕ) (f : Fault) → AreBytes bytes → LacksFurther p bytes
        → (FailsWhole p datagram bytes f ↔ FailsWhole p datagram_without bytes f) }
{}

/// A datagram with a BGP route has none of these records, also where its path has a fault; one with translated addresses
/// has.
pub fn datagrams_without_further_records()
    ensures sound { LacksFurther Any (gateway_datagram 1) }
    ensures faulty { LacksFurther Any (gateway_datagram 3) }
    ensures has_one { ¬ LacksFurther Any (nat_record 1) }
{}
