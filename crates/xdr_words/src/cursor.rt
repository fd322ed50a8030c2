ghost use Rattle.std.specs.Prelude.{◌≡◌, ◌+◌, ◌<◌, ◌≤◌, ◌^◌, length, take, IfOk, IfErr};
ghost use Rattle.std.specs.Prelude as list;
ghost use Rattle.std.specs.Int.{w32, w64, from_be_bytes, to_be_bytes};
ghost use Rattle.wire_spec.specs.Bodies.{IsCounted, FailsCounted, IsPaddingOf, counted_body_at};
ghost use Rattle.wire_spec.specs.Bytes.{AreBytes};
ghost use Rattle.wire_spec.specs.Fails.{FailsItem, FailsFixed, FailsPadding, Fails};
ghost use Rattle.wire_spec.specs.Padding.{padding_of};
ghost use Rattle.wire_spec.specs.Reading.{word_at, hyper_at, fixed_at, opaque_at, padding_at, body_end_at};
ghost use Rattle.wire_spec.specs.Shapes.{opaque};
ghost use Rattle.wire_spec.specs.Spells.{IsWord, IsHyper, IsFixed, IsOpaque};
ghost use Rattle.xdr_words.specs.Readers.{Reader, Reads, Passes, Tests, remaining};
ghost use Rattle.xdr_words.specs.Bodies.{inside_of};
ghost use Rattle.xdr_words.specs.Items.{fault_of};

use crate::{Body, XdrFault};
use byteorder::{BigEndian, ByteOrder};
use std::marker::Model;
use wire_spec::Pad;

/// A reader over borrowed bytes, from the front on (RFC 4506). It knows the place of its next byte.
#[derive(Drop)]
pub struct Cursor<'a> {
    bytes: &'a [u8],
    at: usize,
    // 1 where padding has to be zero, else 0. It is as wide as a place: a narrower field would leave bytes behind it
    // that are copied with each cursor, and slowly.
    zeros: usize,
}

impl<'a> Model for Cursor<'a> {
    ghost use Rattle.std.specs.Prelude.{◌<◌, ◌+◌, ◌^◌, length};
    ghost use Rattle.wire_spec.specs.Bytes.{AreBytes};
    ghost use Rattle.xdr_words.specs.Readers.{Reader, pad_by};

    ghost Value = { Reader };

    ghost view = { λ c. record { pad = pad_by c.zeros; at = c.at; bytes = c.bytes.now } };

    ghost invariant = { λ c. (c.at + length c.bytes.now < 2 ^ 32) × AreBytes c.bytes.now };
}

impl<'a> Cursor<'a> {
    /// A cursor at place 0 of at most 2^32 - 1 bytes.
    #[inline(always)]
    pub fn new(bytes: &'a [u8], pad: Pad) -> Cursor<'a>
        requires { length bytes.now < 2 ^ 32 }
        ensures { result ≡ record { pad = pad; at = 0; bytes = bytes.now } }
    {
        Cursor::within(bytes, pad, 0)
    }

    /// A cursor whose first byte has the place `at`, in bytes. The place behind the last byte is below 2^32.
    #[inline(always)]
    pub fn within(bytes: &'a [u8], pad: Pad, at: usize) -> Cursor<'a>
        requires { at + length bytes.now < 2 ^ 32 }
        ensures { result ≡ record { pad = pad; at = at; bytes = bytes.now } }
    {
        let zeros = match pad {
            Pad::Any => 0,
            Pad::Zero => 1,
        };
        Cursor { bytes, at, zeros }
    }

    // How padding is read.
    #[inline(always)]
    fn pad(&self) -> Pad
        ensures { result ≡ self.now.pad }
    {
        if self.zeros == 0 { Pad::Any } else { Pad::Zero }
    }

    // Past so many bytes, behind which this is left.
    #[inline(always)]
    fn advance(&mut self, count: usize, rest: &'a [u8])
        requires { self.old.at + count + length rest.now < 2 ^ 32 }
        ensures { self.new ≡ record self.old { at = self.old.at + count; bytes = rest.now } }
    {
        self.at += count;
        self.bytes = rest;
    }

    /// The same cursor once more.
    #[inline(always)]
    pub fn fork(&self) -> Cursor<'a>
        ensures { result ≡ self.now }
    {
        Cursor {
            bytes: self.bytes,
            at: self.at,
            zeros: self.zeros,
        }
    }

    /// The place of the next byte. What is left are bytes, and the place behind the last of them is below 2^32.
    #[inline(always)]
    pub fn at(&self) -> usize
        ensures place { result ≡ self.now.at }
        ensures bytes { AreBytes self.now.bytes }
        ensures end { self.now.at + length self.now.bytes < 2 ^ 32 }
    {
        self.at
    }

    /// How many bytes are left.
    #[inline(always)]
    pub fn left(&self) -> usize
        ensures { result ≡ length self.now.bytes }
    {
        self.bytes.len()
    }

    /// The bytes that are left.
    #[inline(always)]
    pub fn rest(&self) -> &'a [u8]
        ensures { result.now ≡ self.now.bytes }
    {
        self.bytes
    }

    /// Four bytes, the most significant first (section 4.2). `Short` where fewer are left.
    #[inline(always)]
    pub fn word(&mut self) -> Result<u32, XdrFault>
        ensures spelled { IfOk result (λ n. Passes (IsWord n) self.old self.new) }
        ensures fault { IfErr result (λ e. FailsItem 4 (remaining self.old) (fault_of e)) }
        ensures exact { Reads (λ n. n) fault_of self.old self.new result (word_at (remaining self.old)) }
    {
        if self.bytes.len() < 4 {
            return Err(self.short(4));
        }
        let (front, rest) = self.bytes.split_at(4);
        let value = word_of(front);
        self.advance(4, rest);
        Ok(value)
    }

    /// Eight bytes as one item, the most significant first (section 4.5). `Short` where fewer are left.
    #[inline(always)]
    pub fn hyper(&mut self) -> Result<u64, XdrFault>
        ensures spelled { IfOk result (λ n. Passes (IsHyper n) self.old self.new) }
        ensures fault { IfErr result (λ e. FailsItem 8 (remaining self.old) (fault_of e)) }
        ensures exact { Reads (λ n. n) fault_of self.old self.new result (hyper_at (remaining self.old)) }
    {
        if self.bytes.len() < 8 {
            return Err(self.short(8));
        }
        let (front, rest) = self.bytes.split_at(8);
        let value = hyper_of(front);
        self.advance(8, rest);
        Ok(value)
    }

    /// `n` bytes and their padding as one item (section 4.9). `Short` where they aren't all there; else `Pad` at
    /// the first padding byte that isn't zero, where zeros are asked for.
    #[inline(always)]
    pub fn fixed(&mut self, n: usize) -> Result<&'a [u8], XdrFault>
        requires { n < 2 ^ 32 }
        ensures spelled { IfOk result (λ v. Passes (IsFixed self.old.pad n v.now) self.old self.new) }
        ensures fault { IfErr result (λ e. FailsFixed self.old.pad n (remaining self.old) (fault_of e)) }
        ensures exact { Reads (λ v. v.now) fault_of self.old self.new result (fixed_at self.old.pad n (remaining self.old)) }
    {
        let _ = &self.bytes;
        self.take_fixed(n)
    }

    /// A length word, and then that many bytes with their padding as the next item (section 4.10). `Short` at the
    /// item that isn't all there; `Pad` as for `fixed`.
    #[inline(always)]
    pub fn opaque(&mut self) -> Result<&'a [u8], XdrFault>
        ensures spelled { IfOk result (λ v. Passes (IsOpaque self.old.pad v.now) self.old self.new) }
        ensures fault { IfErr result (λ e. Fails self.old.pad opaque (remaining self.old) (fault_of e)) }
        ensures exact { Reads (λ v. v.now) fault_of self.old self.new result (opaque_at self.old.pad (remaining self.old)) }
    {
        let _ = &self.bytes;
        self.take_opaque()
    }

    /// The count word of an array: how many values follow (section 4.13). `Short` where four bytes aren't left.
    #[inline(always)]
    pub fn list_count(&mut self) -> Result<u32, XdrFault>
        ensures spelled { IfOk result (λ n. Passes (IsWord n) self.old self.new) }
        ensures fault { IfErr result (λ e. FailsItem 4 (remaining self.old) (fault_of e)) }
        ensures exact { Reads (λ n. n) fault_of self.old self.new result (word_at (remaining self.old)) }
    {
        self.word()
    }

    /// A length word, and then that many bytes. It stops before their padding, which is there. `Short` at the length
    /// word, or behind it at the bytes with their padding, where that item isn't all there.
    #[inline(always)]
    pub fn body(&mut self) -> Result<Body<'a>, XdrFault>
        ensures spelled { IfOk result (λ b. Passes (IsCounted b.bytes.now) self.old self.new) }
        ensures place { IfOk result (λ b. b.at ≡ self.old.at + 4) }
        ensures end { IfOk result (λ b. b.at + length b.bytes.now < 2 ^ 32) }
        ensures padding { IfOk result (λ b. padding_of (length b.bytes.now) ≤ length self.new.bytes) }
        ensures fault { IfErr result (λ e. FailsCounted (remaining self.old) (fault_of e)) }
        ensures exact { Reads inside_of fault_of self.old self.new result (counted_body_at (remaining self.old)) }
    {
        let _ = &self.bytes;
        self.take_body()
    }

    /// The padding of a body of `length` bytes, which was read before it and is all there. `Pad` at the first padding
    /// byte that isn't zero, where zeros are asked for.
    #[inline(always)]
    pub fn body_end(&mut self, length: usize) -> Result<(), XdrFault>
        requires below { length < 2 ^ 32 }
        requires there { padding_of length ≤ list.length self.old.bytes }
        ensures spelled { IfOk result (λ u. Passes (IsPaddingOf self.old.pad length) self.old self.new) }
        ensures fault { IfErr result (λ e. FailsPadding self.old.pad self.old.at (take (padding_of length) self.old.bytes) (fault_of e)) }
        ensures exact { Reads (λ u. tt) fault_of self.old self.new result (body_end_at self.old.pad length (remaining self.old)) }
    {
        let _ = &self.bytes;
        self.take_padding(length)
    }

    #[inline(always)]
    fn take_body(&mut self) -> Result<Body<'a>, XdrFault>
        ensures end { IfOk result (λ b. b.at + length b.bytes.now < 2 ^ 32) }
        ensures exact { Reads inside_of fault_of self.old self.new result (counted_body_at (remaining self.old)) }
    {
        let mut next = self.fork();
        let n = next.word()? as usize;
        let need = n + (4 - n % 4) % 4;
        if next.bytes.len() < need {
            return Err(next.short(need));
        }
        let (bytes, rest) = next.bytes.split_at(n);
        let at = next.at;
        self.advance(4 + n, rest);
        Ok(Body { bytes, at })
    }

    #[inline(always)]
    fn take_padding(&mut self, length: usize) -> Result<(), XdrFault>
        requires below { length < 2 ^ 32 }
        requires there { padding_of length ≤ list.length self.old.bytes }
        ensures { Reads (λ u. tt) fault_of self.old self.new result (body_end_at self.old.pad length (remaining self.old)) }
    {
        let padding = (4 - length % 4) % 4;
        let (filler, rest) = self.bytes.split_at(padding);
        check_padding(self.pad(), self.at, filler)?;
        self.advance(padding, rest);
        Ok(())
    }

    #[inline(always)]
    fn take_fixed(&mut self, n: usize) -> Result<&'a [u8], XdrFault>
        requires { n < 2 ^ 32 }
        ensures { Reads (λ v. v.now) fault_of self.old self.new result (fixed_at self.old.pad n (remaining self.old)) }
    {
        let padding = (4 - n % 4) % 4;
        if self.bytes.len() < n + padding {
            return Err(self.short(n + padding));
        }
        let (value, behind) = self.bytes.split_at(n);
        let (filler, rest) = behind.split_at(padding);
        check_padding(self.pad(), self.at + n, filler)?;
        self.advance(n + padding, rest);
        Ok(value)
    }

    #[inline(always)]
    fn take_opaque(&mut self) -> Result<&'a [u8], XdrFault>
        ensures { Reads (λ v. v.now) fault_of self.old self.new result (opaque_at self.old.pad (remaining self.old)) }
    {
        let mut next = self.fork();
        let n = next.word()?;
        let value = next.fixed(n as usize)?;
        *self = next;
        Ok(value)
    }

    // An item of so many bytes, more than are left.
    fn short(&self, need: usize) -> XdrFault
        ensures { result ≡ XdrFault.Short self.now.at need (length self.now.bytes) }
    {
        XdrFault::Short {
            at: self.at,
            need: need as u64,
            left: self.bytes.len() as u64,
        }
    }
}

/// The number of four bytes, which are the bytes of that number.
#[inline(always)]
fn word_of(bytes: &[u8]) -> u32
    requires { length bytes.now ≡ 4 }
    ensures value { result ≡ from_be_bytes w32 bytes.now }
    ensures bytes { bytes.now ≡ to_be_bytes w32 result }
{
    BigEndian::read_u32(bytes)
}

/// The number of eight bytes, which are the bytes of that number.
#[inline(always)]
fn hyper_of(bytes: &[u8]) -> u64
    requires { length bytes.now ≡ 8 }
    ensures value { result ≡ from_be_bytes w64 bytes.now }
    ensures bytes { bytes.now ≡ to_be_bytes w64 result }
{
    BigEndian::read_u64(bytes)
}

/// Where padding is zero, that each of these bytes is; the first of them stands at `at`.
#[inline(always)]
fn check_padding(pad: Pad, at: usize, bytes: &[u8]) -> Result<(), XdrFault>
    requires { at + length bytes.now < 2 ^ 32 }
    ensures { Tests fault_of result (padding_at pad at bytes.now) }
{
    match pad {
        Pad::Any => Ok(()),
        Pad::Zero => {
            for (i, byte) in bytes.iter().enumerate() {
                if *byte != 0 {
                    return Err(XdrFault::Pad { at: at + i });
                }
            }
            Ok(())
        }
    }
}
