// Bytes side by side, one of each slot. A test of them is a vector of flags: 255 where it holds, and else 0.
ghost use Rattle.std.specs.Prelude.{◌≡◌, ◌+◌, ◌*◌, map, nat_eq, nat_lt, nat_le};
ghost use lib.Lanes.{zip2, sel_l, top};
ghost use Rattle.header_lanes.specs.Ethernet.{is_tag};
ghost use Rattle.header_lanes.specs.Slots.{flag};

use std::simd::prelude::*;

/// Which bytes are `k`.
pub fn equal(bytes: u8x16, k: u8) -> u8x16
    ensures { result ≡ map (λ x. flag (nat_eq x k)) bytes }
{
    bytes
        .simd_eq(u8x16::splat(k))
        .select(u8x16::splat(255), u8x16::splat(0))
}

/// Which bytes are at least `k`.
pub fn at_least(bytes: u8x16, k: u8) -> u8x16
    ensures { result ≡ map (λ x. flag (nat_le k x)) bytes }
{
    bytes
        .simd_ge(u8x16::splat(k))
        .select(u8x16::splat(255), u8x16::splat(0))
}

/// Which bytes are at most `k`.
pub fn at_most(bytes: u8x16, k: u8) -> u8x16
    ensures { result ≡ map (λ x. flag (nat_le x k)) bytes }
{
    bytes
        .simd_le(u8x16::splat(k))
        .select(u8x16::splat(255), u8x16::splat(0))
}

/// Which bytes are below `k`.
pub fn below(bytes: u8x16, k: u8) -> u8x16
    ensures { result ≡ map (λ x. flag (nat_lt x k)) bytes }
{
    bytes
        .simd_lt(u8x16::splat(k))
        .select(u8x16::splat(255), u8x16::splat(0))
}

/// The bytes of `yes` where the flag is set, and else those of `no`.
pub fn pick(flags: u8x16, yes: u8x16, no: u8x16) -> u8x16
    ensures { result ≡ sel_l (map (top 7) flags) yes no }
{
    flags.simd_ge(u8x16::splat(128)).select(yes, no)
}

/// Which numbers of 16 bits are that of the bytes `a` and `b`.
pub fn number_equal(high: u8x16, low: u8x16, a: u8, b: u8) -> u8x16
    ensures { result ≡ zip2 (λ h l. flag (nat_eq (h * 256 + l) (a * 256 + b))) high low }
{
    equal(high, a) & equal(low, b)
}

/// Which numbers of 16 bits are at most that of the bytes `a` and `b`.
pub fn number_at_most(high: u8x16, low: u8x16, a: u8, b: u8) -> u8x16
    ensures { result ≡ zip2 (λ h l. flag (nat_le (h * 256 + l) (a * 256 + b))) high low }
{
    below(high, a) | (equal(high, a) & at_most(low, b))
}

/// Which numbers of 16 bits are the type of a tag.
pub fn tag_types(high: u8x16, low: u8x16) -> u8x16
    ensures { result ≡ zip2 (λ h l. flag (is_tag (h * 256 + l))) high low }
{
    (equal(high, 0x81) & equal(low, 0)) | (equal(high, 0x88) & equal(low, 0xa8))
}
