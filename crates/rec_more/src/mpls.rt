ghost use Rattle.std.specs.Prelude.{◌≤◌, ◌+◌, ◌<◌, ◌^◌, length};
ghost use Rattle.wire_spec.specs.Bytes.{AreBytes};
ghost use Rattle.wire_spec.specs.Tables.{extended_mpls};
ghost use Rattle.xdr_words.specs.Readers.{Gives};
ghost use Rattle.data_format.specs.Records.{AreFieldsOf, record_reading};
ghost use Rattle.rec_more.specs.Contents.{mpls_content, AreShortStacks, HasStacks};

use as_paths::Words;
use data_format::{Address, Fault, RecordBody, address_parts};
use wire_spec::Pad;
use xdr_words::{Cursor, Item, Out, OutFull, length_of_run, write_run};

/// The MPLS label stacks of a sampled packet, flow record format 1006 of the standard (sFlow Version 5, section 5). An
/// entry of a stack is a word of the label, the traffic class, the bottom bit and the time to live (RFC 3032 section
/// 2.1); the top of the stack comes first.
#[derive(Drop)]
pub struct MplsRec<'a> {
    /// The address of the next hop.
    pub nexthop: Address,
    /// The label stack that the packet came in with.
    pub in_stack: Words<'a>,
    /// The label stack that the packet went out with.
    pub out_stack: Words<'a>,
    /// The bytes behind the fields.
    pub tail: &'a [u8],
}

impl<'a> RecordBody<'a> for MplsRec<'a> {
    ghost shape = { extended_mpls };

    ghost content = { mpls_content };

    ghost are_short = { AreShortStacks };

    ghost has_slices = { HasStacks };

    fn within(body: &'a [u8], at: usize, pad: Pad) -> Result<MplsRec<'a>, Fault> {
        MplsRec::fields(body, at, pad)
    }

    fn length(&self) -> usize {
        length_of_run(&self.items(), self.tail)
    }

    fn put(&self, out: &mut Out<'_>) -> Result<(), OutFull> {
        write_run(out, &self.items(), self.tail)
    }
}

impl<'a> MplsRec<'a> {
    // The fields, one after the other, and the tail.
    fn fields(body: &'a [u8], at: usize, pad: Pad) -> Result<MplsRec<'a>, Fault>
        requires { at + length body.now < 2 ^ 32 }
        ensures exact { Gives mpls_content (λ f. f) result (record_reading pad extended_mpls (record { at = at; bytes = body.now })) }
        ensures bytes { AreBytes body.now }
    {
        let mut cursor = Cursor::within(body, pad, at);
        Ok(MplsRec {
            nexthop: Address::read(&mut cursor)?,
            in_stack: Words::read(&mut cursor)?,
            out_stack: Words::read(&mut cursor)?,
            tail: cursor.rest(),
        })
    }

    // The fields in the order of the wire.
    fn items(&self) -> [Item<'_>; 6]
        requires { AreShortStacks self.now }
        ensures { AreFieldsOf extended_mpls (mpls_content self.now) result }
    {
        let nexthop = address_parts(&self.nexthop);
        let came_in = self.in_stack.len();
        let in_stack = self.in_stack.bytes();
        let went_out = self.out_stack.len();
        let out_stack = self.out_stack.bytes();
        [
            Item::Word(nexthop.kind),
            Item::Fixed(nexthop.bytes),
            Item::Word(came_in),
            Item::Fixed(in_stack),
            Item::Word(went_out),
            Item::Fixed(out_stack),
        ]
    }
}
