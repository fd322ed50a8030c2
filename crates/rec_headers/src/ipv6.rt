ghost use Rattle.wire_spec.specs.Tables.{ipv6_header};
ghost use Rattle.data_format.specs.Records.{AreFieldsOf};
ghost use Rattle.rec_headers.specs.Contents.{ipv6_content};

use crate::array::{fixed, take_array};
use data_format::{Fault, RecordBody};
use wire_spec::Pad;
use xdr_words::{Cursor, Item, Out, OutFull, length_of_run, write_run};

/// The IPv6 header of a sampled packet, flow record format 4 of the standard (sFlow Version 5, section 5; RFC 8200).
#[derive(Clone, Copy, Debug, Drop)]
pub struct Ipv6Rec<'a> {
    /// The length of the packet in bytes, without the layers below IP.
    pub length: u32,
    /// The next protocol: 6 TCP, 17 UDP, and others.
    pub protocol: u32,
    /// The source address, in the order of the network.
    pub src: [u8; 16],
    /// The destination address, in the order of the network.
    pub dst: [u8; 16],
    /// The source port of TCP or UDP.
    pub src_port: u32,
    /// The destination port of TCP or UDP.
    pub dst_port: u32,
    /// The flags of TCP.
    pub tcp_flags: u32,
    /// The traffic class.
    pub priority: u32,
    /// The bytes behind the fields.
    pub tail: &'a [u8],
}

impl<'a> RecordBody<'a> for Ipv6Rec<'a> {
    ghost shape = { ipv6_header };

    ghost content = { ipv6_content };

    #[inline(always)]
    fn within(body: &'a [u8], at: usize, pad: Pad) -> Result<Ipv6Rec<'a>, Fault> {
        let mut cursor = Cursor::within(body, pad, at);
        Ok(Ipv6Rec {
            length: cursor.word()?,
            protocol: cursor.word()?,
            src: take_array(&mut cursor)?,
            dst: take_array(&mut cursor)?,
            src_port: cursor.word()?,
            dst_port: cursor.word()?,
            tcp_flags: cursor.word()?,
            priority: cursor.word()?,
            tail: cursor.rest(),
        })
    }

    #[inline(always)]
    fn length(&self) -> usize {
        length_of_run(&self.items(), self.tail)
    }

    fn put(&self, out: &mut Out<'_>) -> Result<(), OutFull> {
        write_run(out, &self.items(), self.tail)
    }
}

impl<'a> Ipv6Rec<'a> {
    // The fields in the order of the wire.
    #[inline(always)]
    fn items(&self) -> [Item<'_>; 8]
        ensures { AreFieldsOf ipv6_header (ipv6_content self.now) result }
    {
        [
            Item::Word(self.length),
            Item::Word(self.protocol),
            fixed(&self.src),
            fixed(&self.dst),
            Item::Word(self.src_port),
            Item::Word(self.dst_port),
            Item::Word(self.tcp_flags),
            Item::Word(self.priority),
        ]
    }
}
