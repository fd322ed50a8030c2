ghost use Rattle.wire_spec.specs.Tables.{vlan_counters};
ghost use Rattle.data_format.specs.Records.{AreFieldsOf};
ghost use Rattle.rec_counters.specs.Contents.{vlan_content};

use data_format::{Fault, RecordBody};
use wire_spec::Pad;
use xdr_words::{Cursor, Item, Out, OutFull, length_of_run, write_run};

/// The counters of a VLAN, counter record format 5 of the standard (sFlow Version 5, section 5): 28 bytes before the
/// tail. Each wraps.
#[derive(Clone, Copy, Debug, Drop)]
pub struct VlanCounters<'a> {
    /// The VLAN (IEEE 802.1Q).
    pub vlan: u32,
    /// Bytes.
    pub octets: u64,
    /// Unicast packets.
    pub ucast: u32,
    /// Multicast packets.
    pub multicast: u32,
    /// Broadcast packets.
    pub broadcast: u32,
    /// Packets that were discarded.
    pub discards: u32,
    /// The bytes behind the fields.
    pub tail: &'a [u8],
}

impl<'a> RecordBody<'a> for VlanCounters<'a> {
    ghost shape = { vlan_counters };

    ghost content = { vlan_content };

    fn within(body: &'a [u8], at: usize, pad: Pad) -> Result<VlanCounters<'a>, Fault> {
        let mut cursor = Cursor::within(body, pad, at);
        Ok(VlanCounters {
            vlan: cursor.word()?,
            octets: cursor.hyper()?,
            ucast: cursor.word()?,
            multicast: cursor.word()?,
            broadcast: cursor.word()?,
            discards: cursor.word()?,
            tail: cursor.rest(),
        })
    }

    #[inline(always)]
    fn length(&self) -> usize {
        length_of_run(&self.items(), self.tail)
    }

    fn put(&self, out: &mut Out<'_>) -> Result<(), OutFull> {
        write_run(out, &self.items(), self.tail)
    }
}

impl<'a> VlanCounters<'a> {
    // The fields in the order of the wire.
    #[inline(always)]
    fn items(&self) -> [Item<'_>; 6]
        ensures { AreFieldsOf vlan_counters (vlan_content self.now) result }
    {
        [
            Item::Word(self.vlan),
            Item::Hyper(self.octets),
            Item::Word(self.ucast),
            Item::Word(self.multicast),
            Item::Word(self.broadcast),
            Item::Word(self.discards),
        ]
    }
}
