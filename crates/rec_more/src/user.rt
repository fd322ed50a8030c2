ghost use Rattle.std.specs.Prelude.{◌≤◌, ◌+◌, ◌<◌, ◌^◌, length};
ghost use Rattle.wire_spec.specs.Bytes.{AreBytes};
ghost use Rattle.wire_spec.specs.Tables.{extended_user};
ghost use Rattle.xdr_words.specs.Readers.{Gives};
ghost use Rattle.data_format.specs.Records.{AreFieldsOf, record_reading};
ghost use Rattle.rec_more.specs.Contents.{user_content, AreShortNames, HasNames};

use data_format::{Fault, RecordBody};
use wire_spec::Pad;
use xdr_words::{Cursor, Item, Out, OutFull, length_of_run, write_run};

/// The users that sent and receive a sampled packet, flow record format 1004 of the standard (sFlow Version 5,
/// section 5). A character set is the number that IANA gives it (MIBenum); a user who isn't known has no bytes.
#[derive(Clone, Copy, Debug, Drop)]
pub struct UserRec<'a> {
    /// The character set of the source user.
    pub src_charset: u32,
    /// The source user.
    pub src_user: &'a [u8],
    /// The character set of the destination user.
    pub dst_charset: u32,
    /// The destination user.
    pub dst_user: &'a [u8],
    /// The bytes behind the fields.
    pub tail: &'a [u8],
}

impl<'a> RecordBody<'a> for UserRec<'a> {
    ghost shape = { extended_user };

    ghost content = { user_content };

    ghost are_short = { AreShortNames };

    ghost has_slices = { HasNames };

    fn within(body: &'a [u8], at: usize, pad: Pad) -> Result<UserRec<'a>, Fault> {
        UserRec::fields(body, at, pad)
    }

    #[inline(always)]
    fn length(&self) -> usize {
        length_of_run(&self.items(), self.tail)
    }

    fn put(&self, out: &mut Out<'_>) -> Result<(), OutFull> {
        write_run(out, &self.items(), self.tail)
    }
}

impl<'a> UserRec<'a> {
    // The fields, one after the other, and the tail.
    #[inline(always)]
    fn fields(body: &'a [u8], at: usize, pad: Pad) -> Result<UserRec<'a>, Fault>
        requires { at + length body.now < 2 ^ 32 }
        ensures exact { Gives user_content (λ f. f) result (record_reading pad extended_user (record { at = at; bytes = body.now })) }
        ensures bytes { AreBytes body.now }
    {
        let mut cursor = Cursor::within(body, pad, at);
        Ok(UserRec {
            src_charset: cursor.word()?,
            src_user: cursor.opaque()?,
            dst_charset: cursor.word()?,
            dst_user: cursor.opaque()?,
            tail: cursor.rest(),
        })
    }

    // The fields in the order of the wire.
    #[inline(always)]
    fn items(&self) -> [Item<'_>; 4]
        requires { AreShortNames self.now }
        ensures { AreFieldsOf extended_user (user_content self.now) result }
    {
        [
            Item::Word(self.src_charset),
            Item::Opaque(self.src_user),
            Item::Word(self.dst_charset),
            Item::Opaque(self.dst_user),
        ]
    }
}
