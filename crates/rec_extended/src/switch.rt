ghost use Rattle.wire_spec.specs.Tables.{extended_switch};
ghost use Rattle.data_format.specs.Records.{AreFieldsOf};
ghost use Rattle.rec_extended.specs.Contents.{switch_content};

use data_format::{Fault, RecordBody};
use wire_spec::Pad;
use xdr_words::{Cursor, Item, Out, OutFull, length_of_run, write_run};

/// The VLANs of a sampled packet, flow record format 1001 of the standard (sFlow Version 5, section 5; IEEE 802.1Q).
#[derive(Clone, Copy, Debug, Drop)]
pub struct SwitchRec<'a> {
    /// The VLAN that the packet came in on.
    pub src_vlan: u32,
    /// Its priority (IEEE 802.1p).
    pub src_priority: u32,
    /// The VLAN that the packet went out on.
    pub dst_vlan: u32,
    /// Its priority (IEEE 802.1p).
    pub dst_priority: u32,
    /// The bytes behind the fields.
    pub tail: &'a [u8],
}

impl<'a> RecordBody<'a> for SwitchRec<'a> {
    ghost shape = { extended_switch };

    ghost content = { switch_content };

    #[inline(always)]
    fn within(body: &'a [u8], at: usize, pad: Pad) -> Result<SwitchRec<'a>, Fault> {
        let mut cursor = Cursor::within(body, pad, at);
        Ok(SwitchRec {
            src_vlan: cursor.word()?,
            src_priority: cursor.word()?,
            dst_vlan: cursor.word()?,
            dst_priority: cursor.word()?,
            tail: cursor.rest(),
        })
    }

    #[inline(always)]
    fn length(&self) -> usize {
        length_of_run(&self.items(), self.tail)
    }

    fn put(&self, out: &mut Out<'_>) -> Result<(), OutFull> {
        write_run(out, &self.items(), self.tail)
    }
}

impl<'a> SwitchRec<'a> {
    // The fields in the order of the wire.
    #[inline(always)]
    fn items(&self) -> [Item<'_>; 4]
        ensures { AreFieldsOf extended_switch (switch_content self.now) result }
    {
        [
            Item::Word(self.src_vlan),
            Item::Word(self.src_priority),
            Item::Word(self.dst_vlan),
            Item::Word(self.dst_priority),
        ]
    }
}
