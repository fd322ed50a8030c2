ghost use Rattle.wire_spec.specs.Tables.{ethernet_frame};
ghost use Rattle.data_format.specs.Records.{AreFieldsOf};
ghost use Rattle.rec_headers.specs.Contents.{ethernet_content};

use crate::array::{fixed, take_array};
use data_format::{Fault, Mac, RecordBody};
use wire_spec::Pad;
use xdr_words::{Cursor, Item, Out, OutFull, length_of_run, write_run};

/// The Ethernet header of a sampled packet, flow record format 2 of the standard (sFlow Version 5, section 5; IEEE
/// 802.3).
#[derive(Clone, Copy, Debug, Drop)]
pub struct EthernetRec<'a> {
    /// The length of the packet in bytes, without the bytes below the MAC layer.
    pub length: u32,
    /// The source address.
    pub src_mac: Mac,
    /// The destination address.
    pub dst_mac: Mac,
    /// The type of the packet.
    pub ethertype: u32,
    /// The bytes behind the fields.
    pub tail: &'a [u8],
}

impl<'a> RecordBody<'a> for EthernetRec<'a> {
    ghost shape = { ethernet_frame };

    ghost content = { ethernet_content };

    #[inline(always)]
    fn within(body: &'a [u8], at: usize, pad: Pad) -> Result<EthernetRec<'a>, Fault> {
        let mut cursor = Cursor::within(body, pad, at);
        Ok(EthernetRec {
            length: cursor.word()?,
            src_mac: Mac(take_array(&mut cursor)?),
            dst_mac: Mac(take_array(&mut cursor)?),
            ethertype: cursor.word()?,
            tail: cursor.rest(),
        })
    }

    #[inline(always)]
    fn length(&self) -> usize {
        length_of_run(&self.items(), self.tail)
    }

    fn put(&self, out: &mut Out<'_>) -> Result<(), OutFull> {
        write_run(out, &self.items(), self.tail)
    }
}

impl<'a> EthernetRec<'a> {
    // The fields in the order of the wire.
    #[inline(always)]
    fn items(&self) -> [Item<'_>; 4]
        ensures { AreFieldsOf ethernet_frame (ethernet_content self.now) result }
    {
        [
            Item::Word(self.length),
            fixed(&self.src_mac.0),
            fixed(&self.dst_mac.0),
            Item::Word(self.ethertype),
        ]
    }
}
