//! The text that is parsed, and how.
ghost use Rattle.std.specs.Prelude.{◌<◌, ◌↔◌, ◌^◌, IsTrue, length};

use std::alloc::Global;
use toml_edit_repr::Mode;
use toml_edit_syntax::Version;

/// A text that is parsed, and how: what every function that reads a statement is given.
#[derive(Clone, Copy)]
pub(crate) struct Reader<'a> {
    /// The allocator of the tree.
    pub(crate) alloc: Global,
    /// The text.
    pub(crate) source: &'a str,
    /// The version of TOML.
    pub(crate) version: Version,
    /// What happens to line endings.
    pub(crate) mode: Mode,
    // So the places of its spans take 56 bits.
    ghost short: { length source.now < 2 ^ 56 },
}

/// The greatest length of a text that is parsed. No machine has addresses for a longer one.
const MOST_BYTES: usize = 0xFF_FFFF_FFFF_FFFF;

/// Returns `true` if the text is no longer than one that is parsed.
#[inline(always)]
pub(crate) fn is_short(text: &str) -> bool
    ensures { IsTrue result ↔ (length text.now < 2 ^ 56) }
{
    text.len() <= MOST_BYTES
}
