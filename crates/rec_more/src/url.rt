ghost use Rattle.std.specs.Prelude.{◌≤◌, ◌+◌, ◌<◌, ◌^◌, length};
ghost use Rattle.wire_spec.specs.Bytes.{AreBytes};
ghost use Rattle.wire_spec.specs.Tables.{extended_url};
ghost use Rattle.xdr_words.specs.Readers.{Gives};
ghost use Rattle.data_format.specs.Records.{AreFieldsOf, record_reading};
ghost use Rattle.rec_more.specs.Contents.{url_content, AreShortTexts, HasTexts};

use data_format::{Fault, RecordBody};
use wire_spec::Pad;
use xdr_words::{Cursor, Item, Out, OutFull, length_of_run, write_run};

/// The URL that a sampled packet is about, flow record format 1005 of the standard (sFlow Version 5, section 5; RFC
/// 3986).
#[derive(Clone, Copy, Debug, Drop)]
pub struct UrlRec<'a> {
    /// 1 where the URL belongs to the source address, 2 where it belongs to the destination address.
    pub direction: u32,
    /// The URL, as it stands in the request.
    pub url: &'a [u8],
    /// The host that the request names.
    pub host: &'a [u8],
    /// The bytes behind the fields.
    pub tail: &'a [u8],
}

impl<'a> RecordBody<'a> for UrlRec<'a> {
    ghost shape = { extended_url };

    ghost content = { url_content };

    ghost are_short = { AreShortTexts };

    ghost has_slices = { HasTexts };

    fn within(body: &'a [u8], at: usize, pad: Pad) -> Result<UrlRec<'a>, Fault> {
        UrlRec::fields(body, at, pad)
    }

    #[inline(always)]
    fn length(&self) -> usize {
        length_of_run(&self.items(), self.tail)
    }

    fn put(&self, out: &mut Out<'_>) -> Result<(), OutFull> {
        write_run(out, &self.items(), self.tail)
    }
}

impl<'a> UrlRec<'a> {
    // The fields, one after the other, and the tail.
    #[inline(always)]
    fn fields(body: &'a [u8], at: usize, pad: Pad) -> Result<UrlRec<'a>, Fault>
        requires { at + length body.now < 2 ^ 32 }
        ensures exact { Gives url_content (λ f. f) result (record_reading pad extended_url (record { at = at; bytes = body.now })) }
        ensures bytes { AreBytes body.now }
    {
        let mut cursor = Cursor::within(body, pad, at);
        Ok(UrlRec {
            direction: cursor.word()?,
            url: cursor.opaque()?,
            host: cursor.opaque()?,
            tail: cursor.rest(),
        })
    }

    // The fields in the order of the wire.
    #[inline(always)]
    fn items(&self) -> [Item<'_>; 3]
        requires { AreShortTexts self.now }
        ensures { AreFieldsOf extended_url (url_content self.now) result }
    {
        [
            Item::Word(self.direction),
            Item::Opaque(self.url),
            Item::Opaque(self.host),
        ]
    }
}
