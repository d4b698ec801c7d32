//! Short texts, which are stored in place.
ghost use Rattle.std.specs.Prelude.{◌≡◌, ◌≤◌, ◌↔◌, ◌-◌, [], length, IsSome, IfSome};
ghost use Rattle.toml_edit_text.specs.Packed.{IsPart, part};

use std::marker::Model;
use std::str;

/// The most bytes that are stored in place.
const MOST: usize = 14;

/// A text of at most 14 bytes.
///
/// With the tag of its form it takes two words. (The kit's `ArrayString` takes three, as its length
/// is a word.)
#[derive(Drop)]
pub(crate) struct ShortText {
    len: u8,
    bytes: [u8; MOST],
}

impl Model for ShortText {
    ghost use Rattle.std.specs.Prelude.{◌≡◌, ◌≤◌, ℕ, List, length, take, IsUtf8};

    ghost Value = { List ℕ };

    ghost view = { λ s. take s.len s.bytes };

    ghost invariant = { λ s. (s.len ≤ 14) × (length s.bytes ≡ 14) × ∥ IsUtf8 (take s.len s.bytes) ∥₁ };
}

impl ShortText {
    /// Makes the empty text.
    #[inline(always)]
    pub(crate) fn empty() -> ShortText
        ensures { result ≡ [] }
    {
        ShortText {
            len: 0,
            bytes: [0; MOST],
        }
    }

    /// Returns a copy of the text, or `None` if it is too long.
    #[inline(always)]
    pub(crate) fn from_text(text: &str) -> Option<ShortText>
        ensures some { IsSome result ↔ (length text.now ≤ 14) }
        ensures same { IfSome result (λ short. short ≡ text.now) }
    {
        let len = text.len();
        if len > MOST {
            return None;
        }
        let mut bytes = [0; MOST];
        bytes[..len].copy_from_slice(text.as_bytes());
        Some(ShortText {
            len: len as u8,
            bytes,
        })
    }

    /// Returns a copy of the text from `start` up to `end`, or `None` if it is too long, or if the
    /// text ends before as many bytes as can be stored.
    ///
    /// So it copies a fixed number of bytes, which are two loads and two stores.
    #[inline(always)]
    pub(crate) fn from_inner_part(text: &str, start: usize, end: usize) -> Option<ShortText>
        requires { IsPart text.now start end }
        ensures { IfSome result (λ short. short ≡ part text.now start end) }
    {
        let len = end - start;
        if len > MOST || text.len() - start < MOST {
            return None;
        }
        let mut bytes = [0; MOST];
        let from = &text.as_bytes()[start..start + MOST];
        bytes[..8].copy_from_slice(&from[..8]);
        bytes[8..12].copy_from_slice(&from[8..12]);
        bytes[12..].copy_from_slice(&from[12..]);
        Some(ShortText {
            len: len as u8,
            bytes,
        })
    }

    /// Returns the text.
    #[inline(always)]
    pub(crate) fn as_str(&self) -> &str
        ensures { result.now ≡ self.now }
    {
        unsafe { str::from_utf8_unchecked(&self.bytes[..self.len as usize]) }
    }
}
