ghost use Rattle.std.specs.Prelude.{◌≡◌, ◌+◌, ◌≤◌, ◌++◌, length};
ghost use Rattle.wire_spec.specs.Shapes.{Tree};
ghost use Rattle.std.specs.Int.{w64, to_be_bytes};
ghost use Rattle.wire_spec.specs.Spelling.{spell, spell_all, padded, counted};
ghost use Rattle.xdr_words.specs.ItemTrees.{item_tree, item_trees, Fits, AllFit, run_bytes};
ghost use Rattle.xdr_words.specs.Written.{Puts, Appends, room_left};

use crate::{Out, OutFull};

/// One item that is to be written.
#[derive(Clone, Copy, Debug)]
pub enum Item<'a> {
    /// Four bytes (section 4.2).
    Word(u32),
    /// Eight bytes (section 4.5).
    Hyper(u64),
    /// Bytes and their padding (section 4.9), at most 65,535 bytes.
    Fixed(&'a [u8]),
    /// A length word, bytes and their padding (section 4.10), at most 65,535 bytes.
    Opaque(&'a [u8]),
}

impl Item<'_> {
    /// How many bytes it has, with its padding.
    #[inline(always)]
    pub fn length(&self) -> usize
        requires { Fits self.now }
        ensures exact { result ≡ length (spell (item_tree self.now)) }
        ensures most { result ≤ 65543 }
    {
        match self {
            Item::Word(_) => 4,
            Item::Hyper(_) => 8,
            Item::Fixed(bytes) => padded_length(bytes),
            Item::Opaque(bytes) => 4 + padded_length(bytes),
        }
    }

    /// The item, whole or not at all.
    #[inline(always)]
    pub fn write(&self, out: &mut Out<'_>) -> Result<(), OutFull>
        requires { Fits self.now }
        ensures { Puts out.old out.new result (spell (item_tree self.now)) }
    {
        match self {
            Item::Word(value) => out.put_word(*value),
            Item::Hyper(value) => out.put_hyper(*value),
            Item::Fixed(bytes) => out.put_fixed(bytes),
            Item::Opaque(bytes) => out.put_opaque(bytes),
        }
    }
}

/// How many bytes a run of items has, with the bytes behind it. There are at most 65,535 of either.
#[inline(always)]
pub fn length_of_run(items: &[Item<'_>], tail: &[u8]) -> usize
    requires items { length items.now ≤ 65535 }
    requires fit { AllFit items.now }
    requires tail { length tail.now ≤ 65535 }
    ensures { result ≡ length (run_bytes items.now tail.now) }
{
    let mut all = tail.len();
    for item in items {
        all += item.length();
    }
    all
}

/// A run of items and the bytes behind it, whole or not at all. There are at most 65,535 of either.
#[inline(always)]
pub fn write_run(out: &mut Out<'_>, items: &[Item<'_>], tail: &[u8]) -> Result<(), OutFull>
    requires items { length items.now ≤ 65535 }
    requires fit { AllFit items.now }
    requires tail { length tail.now ≤ 65535 }
    ensures { Puts out.old out.new result (run_bytes items.now tail.now) }
{
    let need = length_of_run(items, tail);
    let room = out.left();
    if room < need {
        return Err(OutFull { need, room });
    }
    out.put_run(items, tail)
}

// Items that fit together.
#[inline(always)]
pub(crate) fn write_each(out: &mut Out<'_>, items: &[Item<'_>])
    requires fit { AllFit items.now }
    requires room { length (spell_all (item_trees items.now)) ≤ room_left out.old }
    ensures { Appends out.old out.new (spell_all (item_trees items.now)) }
{
    for item in items {
        append_item(out, item);
    }
}

// An item that fits. A word, of which there are most, is written in place.
#[inline(always)]
fn append_item(out: &mut Out<'_>, item: &Item<'_>)
    requires fits { Fits item.now }
    requires room { length (spell (item_tree item.now)) ≤ room_left out.old }
    ensures { Appends out.old out.new (spell (item_tree item.now)) }
{
    match item {
        Item::Word(value) => out.append_word(*value),
        Item::Hyper(value) => append_hyper(out, *value),
        Item::Fixed(bytes) => append_fixed(out, bytes),
        Item::Opaque(bytes) => append_opaque(out, bytes),
    }
}

#[inline(never)]
fn append_hyper(out: &mut Out<'_>, value: u64)
    requires room { length (to_be_bytes w64 value) ≤ room_left out.old }
    ensures { Appends out.old out.new (to_be_bytes w64 value) }
{
    match out.put_hyper(value) {
        Ok(()) => (),
        Err(_) => unreachable!(),
    }
}

#[inline(never)]
fn append_fixed(out: &mut Out<'_>, bytes: &[u8])
    requires most { length bytes.now ≤ 65535 }
    requires room { length (padded bytes.now) ≤ room_left out.old }
    ensures { Appends out.old out.new (padded bytes.now) }
{
    match out.put_fixed(bytes) {
        Ok(()) => (),
        Err(_) => unreachable!(),
    }
}

#[inline(never)]
fn append_opaque(out: &mut Out<'_>, bytes: &[u8])
    requires most { length bytes.now ≤ 65535 }
    requires room { length (counted bytes.now) ≤ room_left out.old }
    ensures { Appends out.old out.new (counted bytes.now) }
{
    match out.put_opaque(bytes) {
        Ok(()) => (),
        Err(_) => unreachable!(),
    }
}

#[inline(always)]
fn padded_length(bytes: &[u8]) -> usize
    requires { length bytes.now ≤ 65535 }
    ensures exact { result ≡ length (padded bytes.now) }
    ensures most { result ≤ 65539 }
{
    bytes.len() + (4 - bytes.len() % 4) % 4
}
