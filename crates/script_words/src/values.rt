// Words that are sources, kinds, VLANs, headers and skip numbers.
ghost use Rattle.std.specs.Prelude.{◌≡◌, codes};
ghost use Rattle.script_spec.specs.Words.{header, is_dash as dash, kind, vlan};
ghost use Rattle.script_spec.specs.Parts.{named, one};
ghost use Rattle.script_spec.specs.Values.{place, skip_list};
ghost use Rattle.script_words.specs.Places.{place_of};
ghost use Rattle.script_words.specs.Taken.{Reads, Takes};

use crate::hex::hex_bytes_in;
use crate::numbers::number_in;
use crate::words::Words;
use agent_sampler::{MAX_SKIPS, Skips};
use arrayvec::ArrayVec;
use data_format::SourceId;

/// A class of at most 255 and an index.
fn place_in(word: &[u8]) -> Option<SourceId>
    ensures { Reads place_of place word.now result }
{
    let mut words = Words::new(word, b':');
    let class = words.number(0, 255)? as u32;
    let index = words.number32()?;
    words.end()?;
    Some(SourceId { class, index })
}

/// Flow, or counter.
fn kind_in(word: &[u8]) -> Option<bool>
    ensures { Reads (λ flow. flow) kind word.now result }
{
    if word == b"flow".as_slice() {
        Some(true)
    } else if word == b"counter".as_slice() {
        Some(false)
    } else {
        None
    }
}

fn is_dash(word: &[u8]) -> bool
    ensures { result ≡ dash word.now }
{
    word == b"-".as_slice()
}

/// A VLAN, or a dash for none.
fn vlan_in(word: &[u8]) -> Option<Option<u16>>
    ensures { Reads (λ id. id) vlan word.now result }
{
    if is_dash(word) {
        return Some(None);
    }
    Some(Some(number_in(word, 0, 4095)? as u16))
}

/// Up to 128 bytes, or a dash for none.
fn header_in(word: &[u8]) -> Option<ArrayVec<u8, 128>>
    ensures { Reads (λ bytes. bytes.items) header word.now result }
{
    if is_dash(word) {
        return Some(ArrayVec::new());
    }
    let bytes = hex_bytes_in(word)?;
    if bytes.is_empty() {
        return None;
    }
    Some(bytes)
}

/// Skip numbers.
fn skips_in(word: &[u8]) -> Option<Skips>
    ensures { Reads (λ skips. skips) skip_list word.now result }
{
    let mut numbers = ArrayVec::<u32, MAX_SKIPS>::new();
    let mut words = Words::new(word, b',');
    while let Some(text) = words.next() {
        let number = number_in(text, 1, 4_294_967_295)? as u32;
        if numbers.try_push(number).is_err() {
            return None;
        }
    }
    Skips::new(&numbers)
}

impl<'a> Words<'a> {
    /// A source: a class of at most 255, a colon and an index of 32 bits.
    pub fn place(&mut self) -> Option<SourceId>
        ensures { Takes place_of (one place) self.old self.new result }
    {
        place_in(self.next()?)
    }

    /// The word for a source of flow samples, as true, or of counters samples.
    pub fn kind(&mut self) -> Option<bool>
        ensures { Takes (λ flow. flow) (one kind) self.old self.new result }
    {
        kind_in(self.next()?)
    }

    /// The name, and then skip numbers.
    pub fn skips(&mut self) -> Option<Skips>
        ensures { Takes (λ skips. skips) (named (codes "skips") (one skip_list)) self.old self.new result }
    {
        self.name(b"skips")?;
        skips_in(self.next()?)
    }

    /// The name, and then a VLAN.
    pub fn vlan(&mut self) -> Option<Option<u16>>
        ensures { Takes (λ id. id) (named (codes "vlan") (one vlan)) self.old self.new result }
    {
        self.name(b"vlan")?;
        vlan_in(self.next()?)
    }

    /// Up to 128 bytes in pairs of hexadecimal digits, or a dash for none.
    pub fn header(&mut self) -> Option<ArrayVec<u8, 128>>
        ensures { Takes (λ bytes. bytes.items) (one header) self.old self.new result }
    {
        header_in(self.next()?)
    }
}
