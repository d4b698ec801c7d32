//! A text in a block of its own size, whose length is kept beside it.
ghost use Rattle.std.specs.Prelude.{◌≡◌, length, IfOk};
ghost use Rattle.toml_edit_text.specs.Block.{IsBlock};

use crate::deed::{Deed, release, reserve};
use crate::strip::Strip;
use std::alloc::{AllocError, Global};
use std::str;

/// A text in a block of its own size. It takes one word: the length is kept beside it.
pub(crate) struct Block {
    strip: Strip,
    deed: Deed,
    alloc: Global,
}

impl Block {
    /// Makes it of a copy of the text.
    pub(crate) fn from_text(alloc: Global, text: &str) -> Result<Block, AllocError>
        ensures text { IfOk result (λ block. block.strip.items ≡ text.now) }
        ensures whole { IfOk result (λ block. IsBlock block (length text.now)) }
    {
        let (mut slots, deed) = reserve(&alloc, text.len())?;
        slots.copy_in(0, text.as_bytes());
        let strip = Strip::of(slots);
        Ok(Block { strip, deed, alloc })
    }

    /// Returns the text, which has so many bytes.
    #[inline(always)]
    pub(crate) fn read(&self, len: usize) -> &str
        requires { IsBlock self.now len }
        ensures { result.now ≡ self.now.strip.items }
    {
        unsafe { str::from_utf8_unchecked(self.strip.read(len)) }
    }

    /// Frees the block, which has so many bytes.
    pub(crate) fn free(self, len: usize)
        requires { IsBlock self len }
    {
        let Block { strip, deed, alloc } = self;
        release(&alloc, strip.into_slots(len), deed);
    }
}
