//! Runs of bytes, sixteen at a time.
ghost use Rattle.std.specs.Prelude.{◌≡◌, ◌+◌, ◌≤◌, length};
ghost use Rattle.toml_edit_model.specs.Spelling.{is_bare_byte, is_literal, is_plain};
ghost use Rattle.toml_edit_model.specs.Trivia.{is_visible};
ghost use Rattle.toml_edit_token.specs.Classes.{class_test};
ghost use Rattle.toml_edit_token.specs.Lanes.{PassesIn, first_set};

use crate::run::Class;
use std::simd::prelude::*;

/// The number of bytes that are looked at in one step.
pub(crate) const LANES: usize = 16;

/// The number of bytes that are looked at where fewer than `LANES` are left.
pub(crate) const HALF_LANES: usize = 8;

/// Returns the place of the lowest bit that is set, or the number of lanes.
#[inline(always)]
fn first_set(mask: u64, lanes: usize) -> usize
    ensures { result ≡ first_set mask lanes }
{
    if mask == 0 {
        lanes
    } else {
        mask.trailing_zeros() as usize
    }
}

/// Returns how many of the next bytes are visible, from the first on.
#[inline(always)]
fn visible_run(bytes: &[u8], at: usize) -> usize
    requires { at + LANES ≤ length bytes.now }
    ensures { PassesIn is_visible bytes.now at LANES result }
{
    let v = u8x16::from_slice(&bytes[at..]);
    let control = v.simd_lt(u8x16::splat(b' ')) & v.simd_ne(u8x16::splat(b'\t'));
    let stops = control | v.simd_eq(u8x16::splat(0x7F));
    first_set(stops.to_bitmask(), LANES)
}

/// Returns how many of the next bytes mean themselves between double quotes, from the first on.
#[inline(always)]
fn plain_run(bytes: &[u8], at: usize) -> usize
    requires { at + LANES ≤ length bytes.now }
    ensures { PassesIn is_plain bytes.now at LANES result }
{
    let v = u8x16::from_slice(&bytes[at..]);
    let control = v.simd_lt(u8x16::splat(b' ')) & v.simd_ne(u8x16::splat(b'\t'));
    let hidden = control | v.simd_eq(u8x16::splat(0x7F));
    let stops = hidden | v.simd_eq(u8x16::splat(b'"')) | v.simd_eq(u8x16::splat(b'\\'));
    first_set(stops.to_bitmask(), LANES)
}

/// Returns how many of the next bytes may be between single quotes, from the first on.
#[inline(always)]
fn literal_run(bytes: &[u8], at: usize) -> usize
    requires { at + LANES ≤ length bytes.now }
    ensures { PassesIn is_literal bytes.now at LANES result }
{
    let v = u8x16::from_slice(&bytes[at..]);
    let control = v.simd_lt(u8x16::splat(b' ')) & v.simd_ne(u8x16::splat(b'\t'));
    let hidden = control | v.simd_eq(u8x16::splat(0x7F));
    let stops = hidden | v.simd_eq(u8x16::splat(b'\''));
    first_set(stops.to_bitmask(), LANES)
}

/// Returns how many of the next bytes may be in a bare key, from the first on.
#[inline(always)]
fn bare_run(bytes: &[u8], at: usize) -> usize
    requires { at + LANES ≤ length bytes.now }
    ensures { PassesIn is_bare_byte bytes.now at LANES result }
{
    let v = u8x16::from_slice(&bytes[at..]);
    // a letter of either case counts from `a` on
    let from_a = (v | u8x16::splat(0x20)) - u8x16::splat(b'a');
    let from_zero = v - u8x16::splat(b'0');
    let other = from_a.simd_ge(u8x16::splat(26)) & from_zero.simd_ge(u8x16::splat(10));
    let stops = other & v.simd_ne(u8x16::splat(b'-')) & v.simd_ne(u8x16::splat(b'_'));
    first_set(stops.to_bitmask(), LANES)
}

/// Returns how many of the next eight bytes mean themselves between double quotes, from the first on.
#[inline(always)]
fn plain_run_half(bytes: &[u8], at: usize) -> usize
    requires { at + HALF_LANES ≤ length bytes.now }
    ensures { PassesIn is_plain bytes.now at HALF_LANES result }
{
    let v = u8x8::from_slice(&bytes[at..]);
    let control = v.simd_lt(u8x8::splat(b' ')) & v.simd_ne(u8x8::splat(b'\t'));
    let hidden = control | v.simd_eq(u8x8::splat(0x7F));
    let stops = hidden | v.simd_eq(u8x8::splat(b'"')) | v.simd_eq(u8x8::splat(b'\\'));
    first_set(stops.to_bitmask(), HALF_LANES)
}

/// Returns how many of the next eight bytes may be in a bare key, from the first on.
#[inline(always)]
fn bare_run_half(bytes: &[u8], at: usize) -> usize
    requires { at + HALF_LANES ≤ length bytes.now }
    ensures { PassesIn is_bare_byte bytes.now at HALF_LANES result }
{
    let v = u8x8::from_slice(&bytes[at..]);
    // a letter of either case counts from `a` on
    let from_a = (v | u8x8::splat(0x20)) - u8x8::splat(b'a');
    let from_zero = v - u8x8::splat(b'0');
    let other = from_a.simd_ge(u8x8::splat(26)) & from_zero.simd_ge(u8x8::splat(10));
    let stops = other & v.simd_ne(u8x8::splat(b'-')) & v.simd_ne(u8x8::splat(b'_'));
    first_set(stops.to_bitmask(), HALF_LANES)
}

/// Returns a number of next bytes that are of the class: all of those at the front in a class whose
/// runs are long, else 0.
#[inline(always)]
pub(crate) fn lanes_run(bytes: &[u8], at: usize, class: Class) -> usize
    requires { at + LANES ≤ length bytes.now }
    ensures { PassesIn (class_test class) bytes.now at LANES result }
{
    match class {
        Class::Visible => visible_run(bytes, at),
        Class::Plain => plain_run(bytes, at),
        Class::Literal => literal_run(bytes, at),
        Class::Bare => bare_run(bytes, at),
        Class::Blank | Class::Word => 0,
    }
}

/// Returns a number of next bytes that are of the class, as [`lanes_run`], where fewer are left.
#[inline(always)]
pub(crate) fn half_run(bytes: &[u8], at: usize, class: Class) -> usize
    requires { at + HALF_LANES ≤ length bytes.now }
    ensures { PassesIn (class_test class) bytes.now at HALF_LANES result }
{
    match class {
        Class::Plain => plain_run_half(bytes, at),
        Class::Bare => bare_run_half(bytes, at),
        Class::Blank | Class::Visible | Class::Literal | Class::Word => 0,
    }
}
