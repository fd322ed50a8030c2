ghost use Rattle.wire_spec.specs.Tables.{extended_router};
ghost use Rattle.data_format.specs.Records.{AreFieldsOf};
ghost use Rattle.rec_extended.specs.RouteContents.{router_content};

use data_format::{Address, Fault, RecordBody, address_parts};
use wire_spec::Pad;
use xdr_words::{Cursor, Item, Out, OutFull, length_of_run, write_run};

/// The route of a sampled packet, flow record format 1002 of the standard (sFlow Version 5, section 5).
#[derive(Clone, Copy, Debug, Drop)]
pub struct RouterRec<'a> {
    /// The address of the next router.
    pub nexthop: Address,
    /// How many bits of the source address are its network.
    pub src_mask: u32,
    /// How many bits of the destination address are its network.
    pub dst_mask: u32,
    /// The bytes behind the fields.
    pub tail: &'a [u8],
}

impl<'a> RecordBody<'a> for RouterRec<'a> {
    ghost shape = { extended_router };

    ghost content = { router_content };

    #[inline(always)]
    fn within(body: &'a [u8], at: usize, pad: Pad) -> Result<RouterRec<'a>, Fault> {
        let mut cursor = Cursor::within(body, pad, at);
        Ok(RouterRec {
            nexthop: Address::read(&mut cursor)?,
            src_mask: cursor.word()?,
            dst_mask: cursor.word()?,
            tail: cursor.rest(),
        })
    }

    #[inline(always)]
    fn length(&self) -> usize {
        length_of_run(&self.items(), self.tail)
    }

    fn put(&self, out: &mut Out<'_>) -> Result<(), OutFull> {
        write_run(out, &self.items(), self.tail)
    }
}

impl<'a> RouterRec<'a> {
    // The fields in the order of the wire.
    #[inline(always)]
    fn items(&self) -> [Item<'_>; 4]
        ensures { AreFieldsOf extended_router (router_content self.now) result }
    {
        let nexthop = address_parts(&self.nexthop);
        [
            Item::Word(nexthop.kind),
            Item::Fixed(nexthop.bytes),
            Item::Word(self.src_mask),
            Item::Word(self.dst_mask),
        ]
    }
}
