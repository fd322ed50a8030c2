ghost use Rattle.wire_spec.specs.Tables.{interface_counters};
ghost use Rattle.data_format.specs.Records.{AreFieldsOf};
ghost use Rattle.rec_counters.specs.Contents.{interface_content};

use data_format::{Fault, RecordBody};
use wire_spec::Pad;
use xdr_words::{Cursor, Item, Out, OutFull, length_of_run, write_run};

/// The counters of an interface, counter record format 1 of the standard (sFlow Version 5, section 5): 88 bytes before
/// the tail. Each counts from the start of the interface, and wraps.
#[derive(Clone, Copy, Debug, Drop)]
pub struct IfCounters<'a> {
    /// The index of the interface (ifIndex).
    pub index: u32,
    /// Its type (ifType).
    pub if_type: u32,
    /// Its speed in bits a second (ifSpeed).
    pub speed: u64,
    /// 0 unknown, 1 full duplex, 2 half duplex, 3 in, 4 out.
    pub direction: u32,
    /// Bit 0 is set where it is up by intent (ifAdminStatus), bit 1 where it is up (ifOperStatus).
    pub status: u32,
    /// Bytes that came in.
    pub in_octets: u64,
    /// Unicast packets that came in.
    pub in_ucast: u32,
    /// Multicast packets that came in.
    pub in_multicast: u32,
    /// Broadcast packets that came in.
    pub in_broadcast: u32,
    /// Packets that came in and were discarded.
    pub in_discards: u32,
    /// Packets that came in with errors.
    pub in_errors: u32,
    /// Packets of unknown protocols that came in.
    pub in_unknown: u32,
    /// Bytes that went out.
    pub out_octets: u64,
    /// Unicast packets that went out.
    pub out_ucast: u32,
    /// Multicast packets that went out.
    pub out_multicast: u32,
    /// Broadcast packets that went out.
    pub out_broadcast: u32,
    /// Packets to go out that were discarded.
    pub out_discards: u32,
    /// Packets that did not go out for errors.
    pub out_errors: u32,
    /// 1 in promiscuous mode, 2 otherwise (ifPromiscuousMode).
    pub promiscuous: u32,
    /// The bytes behind the fields.
    pub tail: &'a [u8],
}

impl<'a> RecordBody<'a> for IfCounters<'a> {
    ghost shape = { interface_counters };

    ghost content = { interface_content };

    fn within(body: &'a [u8], at: usize, pad: Pad) -> Result<IfCounters<'a>, Fault> {
        let mut cursor = Cursor::within(body, pad, at);
        Ok(IfCounters {
            index: cursor.word()?,
            if_type: cursor.word()?,
            speed: cursor.hyper()?,
            direction: cursor.word()?,
            status: cursor.word()?,
            in_octets: cursor.hyper()?,
            in_ucast: cursor.word()?,
            in_multicast: cursor.word()?,
            in_broadcast: cursor.word()?,
            in_discards: cursor.word()?,
            in_errors: cursor.word()?,
            in_unknown: cursor.word()?,
            out_octets: cursor.hyper()?,
            out_ucast: cursor.word()?,
            out_multicast: cursor.word()?,
            out_broadcast: cursor.word()?,
            out_discards: cursor.word()?,
            out_errors: cursor.word()?,
            promiscuous: cursor.word()?,
            tail: cursor.rest(),
        })
    }

    #[inline(always)]
    fn length(&self) -> usize {
        length_of_run(&self.items(), self.tail)
    }

    fn put(&self, out: &mut Out<'_>) -> Result<(), OutFull> {
        write_run(out, &self.items(), self.tail)
    }
}

impl<'a> IfCounters<'a> {
    // The fields in the order of the wire.
    #[inline(always)]
    fn items(&self) -> [Item<'_>; 19]
        ensures { AreFieldsOf interface_counters (interface_content self.now) result }
    {
        [
            Item::Word(self.index),
            Item::Word(self.if_type),
            Item::Hyper(self.speed),
            Item::Word(self.direction),
            Item::Word(self.status),
            Item::Hyper(self.in_octets),
            Item::Word(self.in_ucast),
            Item::Word(self.in_multicast),
            Item::Word(self.in_broadcast),
            Item::Word(self.in_discards),
            Item::Word(self.in_errors),
            Item::Word(self.in_unknown),
            Item::Hyper(self.out_octets),
            Item::Word(self.out_ucast),
            Item::Word(self.out_multicast),
            Item::Word(self.out_broadcast),
            Item::Word(self.out_discards),
            Item::Word(self.out_errors),
            Item::Word(self.promiscuous),
        ]
    }
}
