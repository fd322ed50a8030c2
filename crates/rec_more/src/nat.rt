ghost use Rattle.wire_spec.specs.Tables.{extended_nat};
ghost use Rattle.data_format.specs.Records.{AreFieldsOf};
ghost use Rattle.rec_more.specs.Contents.{nat_content};

use data_format::{Address, Fault, RecordBody, address_parts};
use wire_spec::Pad;
use xdr_words::{Cursor, Item, Out, OutFull, length_of_run, write_run};

/// The addresses of a sampled packet as they were translated, flow record format 1007 of the standard (sFlow Version 5,
/// section 5; RFC 3022).
#[derive(Clone, Copy, Debug, Drop)]
pub struct NatRec<'a> {
    /// The source address.
    pub src: Address,
    /// The destination address.
    pub dst: Address,
    /// The bytes behind the fields.
    pub tail: &'a [u8],
}

impl<'a> RecordBody<'a> for NatRec<'a> {
    ghost shape = { extended_nat };

    ghost content = { nat_content };

    fn within(body: &'a [u8], at: usize, pad: Pad) -> Result<NatRec<'a>, Fault> {
        let mut cursor = Cursor::within(body, pad, at);
        Ok(NatRec {
            src: Address::read(&mut cursor)?,
            dst: Address::read(&mut cursor)?,
            tail: cursor.rest(),
        })
    }

    #[inline(always)]
    fn length(&self) -> usize {
        length_of_run(&self.items(), self.tail)
    }

    fn put(&self, out: &mut Out<'_>) -> Result<(), OutFull> {
        write_run(out, &self.items(), self.tail)
    }
}

impl<'a> NatRec<'a> {
    // The fields in the order of the wire.
    #[inline(always)]
    fn items(&self) -> [Item<'_>; 4]
        ensures { AreFieldsOf extended_nat (nat_content self.now) result }
    {
        let source = address_parts(&self.src);
        let destination = address_parts(&self.dst);
        [
            Item::Word(source.kind),
            Item::Fixed(source.bytes),
            Item::Word(destination.kind),
            Item::Fixed(destination.bytes),
        ]
    }
}
