ghost use Rattle.std.specs.Prelude.{◌≡◌, ◌+◌, ◌<◌, ◌≤◌, ◌^◌, ◌++◌, length, replicate, take, drop, IsOkAnd};
ghost use Rattle.std.specs.Int.{w32, w64, to_be_bytes};
ghost use Rattle.xdr_words.specs.ItemTrees.{AllFit, run_bytes};

use crate::Item;
use crate::item::write_each;
use byteorder::{BigEndian, ByteOrder};

/// A piece of `need` bytes doesn't fit in the `room` bytes that are left. Nothing of it is written.
#[derive(Clone, Copy, Debug, PartialEq, Eq)]
pub struct OutFull {
    /// How many bytes the piece has, with its padding.
    pub need: usize,
    /// How many bytes are left.
    pub room: usize,
}

/// A writer into borrowed room, from the front on (RFC 4506). What it has written stands at the start of the room, and
/// it keeps this room until it is gone. Each call appends a whole piece, or answers `OutFull` exactly where the piece
/// doesn't fit, and then the room is as it was. The bytes behind what is written are never touched.
#[derive(Drop)]
pub struct Out<'b> {
    room: &'b mut [u8],
    len: usize,
    ghost within: { len ≤ length room.now },
}

impl<'b> Out<'b> {
    ghost use Rattle.wire_spec.specs.Padding.{padding_of};
    ghost use Rattle.wire_spec.specs.Spelling.{padded, counted};
    ghost use Rattle.xdr_words.specs.Written.{written, behind, room_left, Begins, Resumes, Appends, Puts, Patches};

    /// A writer that has written nothing into this room.
    #[inline(always)]
    pub fn new(room: &'b mut [u8]) -> Out<'b>
        ensures { Begins room.entry result }
    {
        Out { room, len: 0 }
    }

    /// A writer that goes on behind the first `len` bytes of this room, which count as written.
    #[inline(always)]
    pub fn resume(room: &'b mut [u8], len: usize) -> Out<'b>
        requires { len ≤ length room.old }
        ensures { Resumes room.entry len result }
    {
        Out { room, len }
    }

    /// How many bytes were written.
    #[inline(always)]
    pub fn len(&self) -> usize
        ensures { result ≡ length (written self.now) }
    {
        self.len
    }

    /// How many bytes still fit.
    #[inline(always)]
    pub fn left(&self) -> usize
        ensures { result ≡ room_left self.now }
    {
        self.room.len() - self.len
    }

    /// Four bytes, the most significant first (section 4.2).
    #[inline(always)]
    pub fn put_word(&mut self, value: u32) -> Result<(), OutFull>
        ensures { Puts self.old self.new result (to_be_bytes w32 value) }
    {
        let mut bytes = [0; 4];
        BigEndian::write_u32(&mut bytes, value);
        self.put_raw(&bytes)
    }

    /// Four bytes, the most significant first, where there is room for them.
    #[inline(always)]
    pub(crate) fn append_word(&mut self, value: u32)
        requires { 4 ≤ room_left self.old }
        ensures { Appends self.old self.new (to_be_bytes w32 value) }
    {
        let mut bytes = [0; 4];
        BigEndian::write_u32(&mut bytes, value);
        let at = self.len;
        self.room[at..at + 4].copy_from_slice(&bytes);
        self.len += 4;
    }

    /// Eight bytes, the most significant first (section 4.5).
    pub fn put_hyper(&mut self, value: u64) -> Result<(), OutFull>
        ensures { Puts self.old self.new result (to_be_bytes w64 value) }
    {
        let mut bytes = [0; 8];
        BigEndian::write_u64(&mut bytes, value);
        self.put_raw(&bytes)
    }

    /// The bytes, fewer than 2^32, and zero padding up to a multiple of four (section 4.9).
    pub fn put_fixed(&mut self, bytes: &[u8]) -> Result<(), OutFull>
        requires { length bytes.now < 2 ^ 32 }
        ensures { Puts self.old self.new result (padded bytes.now) }
    {
        let need = bytes.len() + (4 - bytes.len() % 4) % 4;
        let room = self.left();
        if room < need {
            return Err(OutFull { need, room });
        }
        self.put_raw(bytes)?;
        self.put_padding(bytes.len())
    }

    /// A length word, the bytes, at most 65,535, and zero padding up to a multiple of four (section 4.10).
    pub fn put_opaque(&mut self, bytes: &[u8]) -> Result<(), OutFull>
        requires { length bytes.now ≤ 65535 }
        ensures { Puts self.old self.new result (counted bytes.now) }
    {
        let need = 4 + bytes.len() + (4 - bytes.len() % 4) % 4;
        let room = self.left();
        if room < need {
            return Err(OutFull { need, room });
        }
        self.put_word(bytes.len() as u32)?;
        self.put_fixed(bytes)
    }

    /// The bytes alone.
    #[inline(always)]
    pub fn put_raw(&mut self, bytes: &[u8]) -> Result<(), OutFull>
        ensures { Puts self.old self.new result bytes.now }
    {
        let need = bytes.len();
        if need == 0 {
            return Ok(());
        }
        let room = self.left();
        if room < need {
            return Err(OutFull { need, room });
        }
        let at = self.len;
        self.room[at..at + need].copy_from_slice(bytes);
        self.len += need;
        Ok(())
    }

    /// A run of items and the bytes behind it, for which there is room. There are at most 65,535 of either.
    // The length is kept beside the room while they are written, and not behind a pointer.
    #[inline(always)]
    pub(crate) fn put_run(&mut self, items: &[Item<'_>], tail: &[u8]) -> Result<(), OutFull>
        requires items { length items.now ≤ 65535 }
        requires fit { AllFit items.now }
        requires tail { length tail.now ≤ 65535 }
        requires room { length (run_bytes items.now tail.now) ≤ room_left self.old }
        ensures { Puts self.old self.new result (run_bytes items.now tail.now) }
    {
        self.len = put_behind(self.room, self.len, items, tail)?;
        Ok(())
    }

    /// The zero padding of a body of `length` bytes.
    pub fn put_padding(&mut self, length: usize) -> Result<(), OutFull>
        ensures { Puts self.old self.new result (replicate (padding_of length) 0) }
    {
        let zeros: [u8; 3] = [0, 0, 0];
        self.put_raw(&zeros[..(4 - length % 4) % 4])
    }

    /// Overwrites four bytes that were written, from `place` bytes behind the room's start on, by this word. They were
    /// all written before.
    #[inline(always)]
    pub fn patch_word(&mut self, place: usize, value: u32)
        requires { place + 4 ≤ length (written self.old) }
        ensures patches { Patches self.old self.new place (to_be_bytes w32 value) }
        ensures behind { behind self.new ≡ behind self.old }
    {
        let mut bytes = [0; 4];
        BigEndian::write_u32(&mut bytes, value);
        self.room[place..place + 4].copy_from_slice(&bytes);
    }
}

// A run of items and the bytes behind it, behind the first `len` bytes of a room that has room for them: how many bytes
// stand there then.
#[inline(always)]
fn put_behind(
    room: &mut [u8],
    len: usize,
    items: &[Item<'_>],
    tail: &[u8],
) -> Result<usize, OutFull>
    requires items { length items.now ≤ 65535 }
    requires fit { AllFit items.now }
    requires tail { length tail.now ≤ 65535 }
    requires len { len + length (run_bytes items.now tail.now) ≤ length room.old }
    ensures len { IsOkAnd result (λ n. n ≡ len + length (run_bytes items.now tail.now)) }
    ensures size { length room.new ≡ length room.old }
    ensures whole { IsOkAnd result (λ n. take n room.new ≡ take len room.old ++ run_bytes items.now tail.now) }
    ensures behind { IsOkAnd result (λ n. drop n room.new ≡ drop n room.old) }
{
    let mut out = Out::resume(room, len);
    write_each(&mut out, items);
    out.put_raw(tail)?;
    Ok(out.len())
}
