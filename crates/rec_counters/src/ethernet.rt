ghost use Rattle.wire_spec.specs.Tables.{ethernet_counters};
ghost use Rattle.data_format.specs.Records.{AreFieldsOf};
ghost use Rattle.rec_counters.specs.Contents.{ethernet_content};

use data_format::{Fault, RecordBody};
use wire_spec::Pad;
use xdr_words::{Cursor, Item, Out, OutFull, length_of_run, write_run};

/// The counters of an Ethernet interface, counter record format 2 of the standard (sFlow Version 5, section 5; the
/// dot3Stats objects of RFC 3635, in their order): 52 bytes before the tail. Each wraps.
#[derive(Clone, Copy, Debug, Drop)]
pub struct EthernetCounters<'a> {
    /// Frames of no whole number of bytes.
    pub alignment_errors: u32,
    /// Frames with a wrong frame check sequence.
    pub fcs_errors: u32,
    /// Frames sent after one collision.
    pub single_collisions: u32,
    /// Frames sent after more than one collision.
    pub multiple_collisions: u32,
    /// SQE test errors.
    pub sqe_errors: u32,
    /// Frames whose first transmission was delayed.
    pub deferred: u32,
    /// Late collisions.
    pub late_collisions: u32,
    /// Frames given up for too many collisions.
    pub excessive_collisions: u32,
    /// Frames given up for errors of the MAC layer.
    pub mac_transmit_errors: u32,
    /// Losses of the carrier.
    pub carrier_errors: u32,
    /// Frames that are too long.
    pub too_long: u32,
    /// Frames not received for errors of the MAC layer.
    pub mac_receive_errors: u32,
    /// Invalid symbols.
    pub symbol_errors: u32,
    /// The bytes behind the fields.
    pub tail: &'a [u8],
}

impl<'a> RecordBody<'a> for EthernetCounters<'a> {
    ghost shape = { ethernet_counters };

    ghost content = { ethernet_content };

    fn within(body: &'a [u8], at: usize, pad: Pad) -> Result<EthernetCounters<'a>, Fault> {
        let mut cursor = Cursor::within(body, pad, at);
        Ok(EthernetCounters {
            alignment_errors: cursor.word()?,
            fcs_errors: cursor.word()?,
            single_collisions: cursor.word()?,
            multiple_collisions: cursor.word()?,
            sqe_errors: cursor.word()?,
            deferred: cursor.word()?,
            late_collisions: cursor.word()?,
            excessive_collisions: cursor.word()?,
            mac_transmit_errors: cursor.word()?,
            carrier_errors: cursor.word()?,
            too_long: cursor.word()?,
            mac_receive_errors: cursor.word()?,
            symbol_errors: cursor.word()?,
            tail: cursor.rest(),
        })
    }

    #[inline(always)]
    fn length(&self) -> usize {
        length_of_run(&self.items(), self.tail)
    }

    fn put(&self, out: &mut Out<'_>) -> Result<(), OutFull> {
        write_run(out, &self.items(), self.tail)
    }
}

impl<'a> EthernetCounters<'a> {
    // The fields in the order of the wire.
    #[inline(always)]
    fn items(&self) -> [Item<'_>; 13]
        ensures { AreFieldsOf ethernet_counters (ethernet_content self.now) result }
    {
        [
            Item::Word(self.alignment_errors),
            Item::Word(self.fcs_errors),
            Item::Word(self.single_collisions),
            Item::Word(self.multiple_collisions),
            Item::Word(self.sqe_errors),
            Item::Word(self.deferred),
            Item::Word(self.late_collisions),
            Item::Word(self.excessive_collisions),
            Item::Word(self.mac_transmit_errors),
            Item::Word(self.carrier_errors),
            Item::Word(self.too_long),
            Item::Word(self.mac_receive_errors),
            Item::Word(self.symbol_errors),
        ]
    }
}
