// Sixteen slots side by side: what is asked of each, as vectors with a lane for each slot.
ghost use Rattle.std.specs.Prelude.{◌≡◌, ◌+◌, map, length, min, slice_index, nat_le};
ghost use Rattle.header_lanes.specs.Slots.{AreColumns, head, flags, is_frame, has_tag, has_two_tags, type_at, base, holds_type, type_of, type_path, bare_path, has_vlan, has_type, path};

use crate::lanes::{at_least, equal, number_at_most, number_equal, pick, tag_types};
use crate::slot::Slot;
use std::simd::prelude::*;

/// Of sixteen slots the lengths, the header protocols as far as a byte goes, and the bytes of the type: where it stands
/// without a tag, behind one, and behind two.
#[derive(Debug, Clone, Copy)]
pub struct Columns {
    pub lengths: [u8; 16],
    pub protocols: [u8; 16],
    pub first_high: [u8; 16],
    pub first_low: [u8; 16],
    pub second_high: [u8; 16],
    pub second_low: [u8; 16],
    pub third_high: [u8; 16],
    pub third_low: [u8; 16],
}

// Which are frames.
fn frames(slots: &[Slot; 16], protocols: u8x16) -> u8x16
    requires { protocols ≡ map (λ s. min s.protocol 255) slots.now }
    ensures { result ≡ flags is_frame slots.now }
{
    equal(protocols, 1)
}

// Which tell a VLAN.
fn vlans(slots: &[Slot; 16], columns: &Columns, frames: u8x16, lengths: u8x16) -> u8x16
    requires columns { AreColumns columns.now slots.now }
    requires frames { frames ≡ flags is_frame slots.now }
    requires lengths { lengths ≡ map (λ s. length (head s)) slots.now }
    ensures { result ≡ flags has_vlan slots.now }
{
    let tags = tag_types(
        u8x16::from_array(columns.first_high),
        u8x16::from_array(columns.first_low),
    );
    frames & tags & at_least(lengths, 16)
}

// Which have a tag.
fn tagged(slots: &[Slot; 16], columns: &Columns, frames: u8x16, lengths: u8x16) -> u8x16
    requires columns { AreColumns columns.now slots.now }
    requires frames { frames ≡ flags is_frame slots.now }
    requires lengths { lengths ≡ map (λ s. length (head s)) slots.now }
    ensures { result ≡ flags has_tag slots.now }
{
    let tags = tag_types(
        u8x16::from_array(columns.first_high),
        u8x16::from_array(columns.first_low),
    );
    frames & tags & at_least(lengths, 14)
}

// Which have a second tag.
fn tagged_twice(slots: &[Slot; 16], columns: &Columns, once: u8x16, lengths: u8x16) -> u8x16
    requires columns { AreColumns columns.now slots.now }
    requires once { once ≡ flags has_tag slots.now }
    requires lengths { lengths ≡ map (λ s. length (head s)) slots.now }
    ensures { result ≡ flags has_two_tags slots.now }
{
    let tags = tag_types(
        u8x16::from_array(columns.second_high),
        u8x16::from_array(columns.second_low),
    );
    once & tags & at_least(lengths, 18)
}

// Of the bytes that stand so many behind the begin of the type, those that the tags choose.
fn behind_tags(
    slots: &[Slot; 16],
    once: u8x16,
    twice: u8x16,
    more: usize,
    none: u8x16,
    one: u8x16,
    two: u8x16,
) -> u8x16
    requires once { once ≡ flags has_tag slots.now }
    requires twice { twice ≡ flags has_two_tags slots.now }
    requires none { none ≡ map (λ s. slice_index (head s) (12 + more)) slots.now }
    requires one { one ≡ map (λ s. slice_index (head s) (16 + more)) slots.now }
    requires two { two ≡ map (λ s. slice_index (head s) (20 + more)) slots.now }
    ensures { result ≡ map (λ s. slice_index (head s) (type_at s + more)) slots.now }
{
    pick(twice, two, pick(once, one, none))
}

// Which reach beyond the type.
fn reaching(slots: &[Slot; 16], once: u8x16, twice: u8x16, lengths: u8x16) -> u8x16
    requires once { once ≡ flags has_tag slots.now }
    requires twice { twice ≡ flags has_two_tags slots.now }
    requires lengths { lengths ≡ map (λ s. length (head s)) slots.now }
    ensures { result ≡ flags holds_type slots.now }
{
    let none = at_least(lengths, 14);
    let one = at_least(lengths, 18);
    let two = at_least(lengths, 22);
    pick(twice, two, pick(once, one, none))
}

// Which tell a type.
fn types(slots: &[Slot; 16], frames: u8x16, reaching: u8x16, high: u8x16, low: u8x16) -> u8x16
    requires frames { frames ≡ flags is_frame slots.now }
    requires reaching { reaching ≡ flags holds_type slots.now }
    requires high { high ≡ map (λ s. slice_index (head s) (type_at s)) slots.now }
    requires low { low ≡ map (λ s. slice_index (head s) (type_at s + 1)) slots.now }
    ensures { result ≡ flags has_type slots.now }
{
    let untold = number_at_most(high, low, 5, 255);
    pick(untold, u8x16::splat(0), frames & reaching)
}

// Where an IP header would stand.
fn bases(slots: &[Slot; 16], frames: u8x16, once: u8x16, twice: u8x16) -> u8x16
    requires frames { frames ≡ flags is_frame slots.now }
    requires once { once ≡ flags has_tag slots.now }
    requires twice { twice ≡ flags has_two_tags slots.now }
    ensures { result ≡ map base slots.now }
{
    let bare = pick(frames, u8x16::splat(14), u8x16::splat(0));
    pick(twice, u8x16::splat(22), pick(once, u8x16::splat(18), bare))
}

// What follows a type.
fn type_paths(slots: &[Slot; 16], high: u8x16, low: u8x16) -> u8x16
    requires high { high ≡ map (λ s. slice_index (head s) (type_at s)) slots.now }
    requires low { low ≡ map (λ s. slice_index (head s) (type_at s + 1)) slots.now }
    ensures { result ≡ map (λ s. type_path (type_of s)) slots.now }
{
    let is_ipv6 = number_equal(high, low, 0x86, 0xdd);
    let is_ipv4 = number_equal(high, low, 0x08, 0x00);
    let is_arp = number_equal(high, low, 0x08, 0x06);
    let is_undefined = number_at_most(high, low, 5, 255);
    let is_length = number_at_most(high, low, 5, 220);
    let named = pick(is_ipv6, u8x16::splat(6), u8x16::splat(7));
    let ipv4 = pick(is_ipv4, u8x16::splat(5), named);
    let arp = pick(is_arp, u8x16::splat(4), ipv4);
    let undefined = pick(is_undefined, u8x16::splat(3), arp);
    pick(is_length, u8x16::splat(2), undefined)
}

// What follows without a frame.
fn bare_paths(slots: &[Slot; 16], protocols: u8x16) -> u8x16
    requires { protocols ≡ map (λ s. min s.protocol 255) slots.now }
    ensures { result ≡ map bare_path slots.now }
{
    let ipv6 = pick(equal(protocols, 12), u8x16::splat(6), u8x16::splat(0));
    pick(equal(protocols, 11), u8x16::splat(5), ipv6)
}

// What follows in each slot.
fn paths(slots: &[Slot; 16], frames: u8x16, reaching: u8x16, typed: u8x16, bare: u8x16) -> u8x16
    requires frames { frames ≡ flags is_frame slots.now }
    requires reaching { reaching ≡ flags holds_type slots.now }
    requires typed { typed ≡ map (λ s. type_path (type_of s)) slots.now }
    requires bare { bare ≡ map bare_path slots.now }
    ensures { result ≡ map path slots.now }
{
    let framed = pick(reaching, typed, u8x16::splat(1));
    pick(frames, framed, bare)
}

/// What the lanes tell of each slot.
#[derive(Debug, Clone, Copy)]
pub struct Outline {
    /// What follows.
    pub paths: [u8; 16],
    /// Where an IP header would stand.
    pub bases: [u8; 16],
    /// Whether a VLAN is told.
    pub vlans: [u8; 16],
    /// Whether a type is told.
    pub types: [u8; 16],
}

/// The rules of frames for sixteen slots at a time.
pub fn outline_of(slots: &[Slot; 16], columns: &Columns) -> Outline
    requires { AreColumns columns.now slots.now }
    ensures paths { result.paths ≡ map path slots.now }
    ensures bases { result.bases ≡ map base slots.now }
    ensures vlans { result.vlans ≡ flags has_vlan slots.now }
    ensures types { result.types ≡ flags has_type slots.now }
{
    let lengths = u8x16::from_array(columns.lengths);
    let protocols = u8x16::from_array(columns.protocols);
    let frames = frames(slots, protocols);
    let once = tagged(slots, columns, frames, lengths);
    let twice = tagged_twice(slots, columns, once, lengths);
    let high = behind_tags(
        slots,
        once,
        twice,
        0,
        u8x16::from_array(columns.first_high),
        u8x16::from_array(columns.second_high),
        u8x16::from_array(columns.third_high),
    );
    let low = behind_tags(
        slots,
        once,
        twice,
        1,
        u8x16::from_array(columns.first_low),
        u8x16::from_array(columns.second_low),
        u8x16::from_array(columns.third_low),
    );
    let reaching = reaching(slots, once, twice, lengths);
    let typed = type_paths(slots, high, low);
    let bare = bare_paths(slots, protocols);
    Outline {
        paths: paths(slots, frames, reaching, typed, bare).to_array(),
        bases: bases(slots, frames, once, twice).to_array(),
        vlans: vlans(slots, columns, frames, lengths).to_array(),
        types: types(slots, frames, reaching, high, low).to_array(),
    }
}
