ghost use Rattle.std.specs.Prelude.{◌≤◌, length};
ghost use Rattle.wire_spec.specs.Tables.{raw_header};
ghost use Rattle.data_format.specs.Ranges.{IsRange};
ghost use Rattle.data_format.specs.Records.{AreFieldsOf};
ghost use Rattle.rec_headers.specs.Contents.{raw_content};

use data_format::{Fault, RecordBody};
use wire_spec::Pad;
use xdr_words::{Cursor, Item, Out, OutFull, length_of_run, write_run};

/// The first bytes of a sampled packet, flow record format 1 of the standard (sFlow Version 5, section 5).
#[derive(Clone, Copy, Debug, Drop)]
pub struct RawHeader<'a> {
    /// The protocol of the header: 1 Ethernet, 11 IPv4, 12 IPv6, and others.
    pub protocol: u32,
    /// The length of the packet in bytes before sampling.
    pub frame_length: u32,
    /// How many bytes were taken from the end of the packet before the header was cut out.
    pub stripped: u32,
    /// The first bytes of the packet.
    pub header: &'a [u8],
    /// The bytes behind the fields.
    pub tail: &'a [u8],
}

impl<'a> RecordBody<'a> for RawHeader<'a> {
    ghost shape = { raw_header };

    ghost content = { raw_content };

    ghost are_short = { λ r. length r.header.now ≤ 65535 };

    ghost has_slices = { λ body r. IsRange body 16 r.header.now };

    #[inline(always)]
    fn within(body: &'a [u8], at: usize, pad: Pad) -> Result<RawHeader<'a>, Fault> {
        let mut cursor = Cursor::within(body, pad, at);
        Ok(RawHeader {
            protocol: cursor.word()?,
            frame_length: cursor.word()?,
            stripped: cursor.word()?,
            header: cursor.opaque()?,
            tail: cursor.rest(),
        })
    }

    #[inline(always)]
    fn length(&self) -> usize {
        length_of_run(&self.items(), self.tail)
    }

    fn put(&self, out: &mut Out<'_>) -> Result<(), OutFull> {
        write_run(out, &self.items(), self.tail)
    }
}

impl<'a> RawHeader<'a> {
    // The fields in the order of the wire.
    #[inline(always)]
    fn items(&self) -> [Item<'_>; 4]
        requires { length self.now.header.now ≤ 65535 }
        ensures { AreFieldsOf raw_header (raw_content self.now) result }
    {
        [
            Item::Word(self.protocol),
            Item::Word(self.frame_length),
            Item::Word(self.stripped),
            Item::Opaque(self.header),
        ]
    }
}
