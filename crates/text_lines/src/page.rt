ghost use Rattle.std.specs.Prelude.{◌≡◌, ◌≤◌, ◌+◌, [], ◌++◌, length, decimal};
ghost use Rattle.data_format.specs.Addresses.{address_of};
ghost use Rattle.wire_spec.specs.Texts.{address_text, hex};
ghost use Rattle.text_lines.specs.Bytes.{hex_or_dash, mac_text};
ghost use Rattle.text_lines.specs.Pages.{Prints, Flushes};

use crate::Piece;
use crate::address::{dotted, grouped};
use crate::hex::{colons, eight_pairs, pair};
use crate::piece::kind_name;
use byte_ends::{Failed, Sink, write_all};
use data_format::{Address, Mac};
use itoa::Buffer;
use std::marker::Model;

const ROOM: usize = 16_384;

/// Text that is gathered and not yet written, up to 16,384 bytes, so that a line isn't many small
/// writes. A contract sees the bytes that it holds.
#[derive(Debug, Drop)]
pub struct Page {
    room: [u8; ROOM],
    len: usize,
}

impl Model for Page {
    ghost use Rattle.std.specs.Prelude.{◌≤◌, ℕ, List, take};

    ghost Value = { List ℕ };

    ghost view = { λ p. take p.len p.room };

    ghost invariant = { λ p. p.len ≤ 16384 };
}

impl Page {
    /// An empty page.
    pub fn new() -> Page
        ensures { result ≡ [] }
    {
        Page {
            room: [0; ROOM],
            len: 0,
        }
    }

    /// Writes what the page holds, and empties it.
    /// `Failed` is the sink's own; then the sink has taken a prefix of it, the call that failed was the last, and the
    /// page is as before.
    pub fn flush<K: Sink>(&mut self, sink: &mut K) -> Result<(), Failed>
        ensures { Flushes (K.seen sink.old) (K.seen sink.new) self.old self.new result }
    {
        write_all(sink, &self.room[..self.len])?;
        self.len = 0;
        Ok(())
    }

    // Gathers bytes for which there is room.
    fn gather(&mut self, bytes: &[u8])
        requires { length self.old + length bytes.now ≤ 16384 }
        ensures { self.new ≡ self.old ++ bytes.now }
    {
        let end = self.len + bytes.len();
        self.room[self.len..end].copy_from_slice(bytes);
        self.len = end;
    }

    /// Gathers bytes. Where they don't fit beside what the page holds, that is written first, and then so are they if
    /// they fill more than a page. `Failed` is the sink's own.
    pub fn put<K: Sink>(&mut self, sink: &mut K, bytes: &[u8]) -> Result<(), Failed>
        ensures { Prints (K.seen sink.old) (K.seen sink.new) self.old self.new result bytes.now }
    {
        if bytes.len() > ROOM - self.len {
            self.flush(sink)?;
            if bytes.len() > ROOM {
                return write_all(sink, bytes);
            }
        }
        self.gather(bytes);
        Ok(())
    }

    fn put_number<K: Sink>(&mut self, sink: &mut K, number: u128) -> Result<(), Failed>
        ensures { Prints (K.seen sink.old) (K.seen sink.new) self.old self.new result
            (decimal number) }
    {
        let mut digits = Buffer::new();
        self.put(sink, digits.format(number).as_bytes())
    }

    fn put_address<K: Sink>(&mut self, sink: &mut K, address: &Address) -> Result<(), Failed>
        ensures { Prints (K.seen sink.old) (K.seen sink.new) self.old self.new result
            (address_text (address_of address.now)) }
    {
        match address {
            Address::Unknown => self.put(sink, b"unknown"),
            Address::V4(bytes) => self.put(sink, dotted(bytes).as_str().as_bytes()),
            Address::V6(bytes) => self.put(sink, &grouped(bytes)),
        }
    }

    fn put_hex<K: Sink>(&mut self, sink: &mut K, bytes: &[u8]) -> Result<(), Failed>
        ensures { Prints (K.seen sink.old) (K.seen sink.new) self.old self.new result
            (hex_or_dash bytes.now) }
    {
        if bytes.is_empty() {
            return self.put(sink, b"-");
        }
        self.put_pairs(sink, bytes)
    }

    // Eight bytes at a time: a byte alone costs as much as eight.
    fn put_pairs<K: Sink>(&mut self, sink: &mut K, bytes: &[u8]) -> Result<(), Failed>
        ensures { Prints (K.seen sink.old) (K.seen sink.new) self.old self.new result
            (hex bytes.now) }
    {
        let mut rest = bytes;
        while let [a, b, c, d, e, f, g, h, ..] = rest {
            self.put(sink, &eight_pairs([*a, *b, *c, *d, *e, *f, *g, *h]))?;
            rest = &rest[8..];
        }
        self.put_few_pairs(sink, rest)
    }

    fn put_few_pairs<K: Sink>(&mut self, sink: &mut K, bytes: &[u8]) -> Result<(), Failed>
        ensures { Prints (K.seen sink.old) (K.seen sink.new) self.old self.new result
            (hex bytes.now) }
    {
        for byte in bytes {
            self.put(sink, &pair(*byte))?;
        }
        Ok(())
    }

    fn put_mac<K: Sink>(&mut self, sink: &mut K, mac: &Mac) -> Result<(), Failed>
        ensures { Prints (K.seen sink.old) (K.seen sink.new) self.old self.new result
            (mac_text mac.now.0) }
    {
        self.put(sink, &colons(mac))
    }
}

impl Page {
    ghost use Rattle.text_lines.specs.Pieces.{piece_text, pieces_text};

    fn put_piece<K: Sink>(&mut self, sink: &mut K, piece: &Piece<'_>) -> Result<(), Failed>
        ensures { Prints (K.seen sink.old) (K.seen sink.new) self.old self.new result
            (piece_text piece.now) }
    {
        match piece {
            Piece::Text(text) => self.put(sink, text.as_bytes()),
            Piece::Number(number) => self.put_number(sink, *number),
            Piece::Address(address) => self.put_address(sink, address),
            Piece::Hex(bytes) => self.put_hex(sink, bytes),
            Piece::Mac(mac) => self.put_mac(sink, mac),
            Piece::Kind(kind) => self.put(sink, kind_name(kind).as_bytes()),
        }
    }

    /// Appends the pieces, one after the other, to the text that the sink took and the page holds. What
    /// the page has no room for goes on to the sink; a line feed is part of a piece.
    /// `Failed` is the sink's own; then the sink has taken a prefix of that text, and what the page holds
    /// is left open.
    pub fn put_line<K: Sink>(&mut self, sink: &mut K, pieces: &[Piece<'_>]) -> Result<(), Failed>
        ensures { Prints (K.seen sink.old) (K.seen sink.new) self.old self.new result
            (pieces_text pieces.now) }
    {
        for piece in pieces {
            self.put_piece(sink, piece)?;
        }
        Ok(())
    }
}
