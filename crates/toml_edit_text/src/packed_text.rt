//! Texts and spans of two words.
ghost use Rattle.std.specs.Prelude.{◌≡◌, ◌↔◌, ◌<◌, ◌^◌, [], IsTrue, IsOk, IfOk, IfErr, OnOk, OnErr, string_bytes, string_len};
ghost use Rattle.toml_edit_text.specs.Form.{joined};
ghost use Rattle.std.specs.Option.{option_copied};
ghost use Rattle.toml_edit_text.specs.RawView.{IsSet};
ghost use Rattle.toml_edit_text.specs.Packed.{held, span, unset, text_of, span_of, part, IsPart, LiesIn, despanned, is_short, is_free};

use crate::block::Block;
use crate::leaked::Leaked;
use crate::shared_text::{SharedText, part_of};
use crate::short_text::ShortText;
use std::alloc::{AllocError, Global};
use std::fmt;
use std::fmt::{Formatter, Write};
use std::marker::Model;
use std::mem::size_of;
use std::sync::Arc;

/// The forms. Each takes two words, with 7 bytes beside the mark of the form and a word.
enum Form {
    // Neither a text nor a span.
    Unset,
    // It takes no memory. Nearly all texts are short, and many are empty or one space.
    Short(ShortText),
    // A part of a text that is held in common: its length, and where it begins.
    Part(u16, u32, Arc<String>),
    Long(u32, Block),
    // A text of a `String`, or of 4 GiB and more.
    Whole(Box<String>),
    // The text of a `String`, if there was no memory for its box: the parts of its length.
    Kept(u8, u16, u32, Leaked),
    // The parts of where it begins, and where it ends.
    Span(u8, u16, u32, usize),
}

const _: () = prove!(size_of::<PackedText>() == 16);

/// A text, or a span of one, in two words; or neither, for what was never set.
///
/// A text of at most 14 bytes is stored in place.
pub struct PackedText {
    form: Form,
}

impl Drop for PackedText {
    // Inlined, so that dropping what takes no memory is one comparison.
    #[inline(always)]
    fn drop(self) {
        let PackedText { form } = self;
        match form {
            Form::Unset | Form::Short(_) | Form::Kept(_, _, _, _) | Form::Span(_, _, _, _) => {}
            Form::Part(_, _, source) => drop(source),
            Form::Long(len, block) => block.free(len as usize),
            Form::Whole(text) => drop(text),
        }
    }
}

impl Model for PackedText {
    ghost use Rattle.toml_edit_text.specs.Packed.{Packed};

    ghost Value = { Packed };

    ghost use Rattle.toml_edit_text.specs.Form.{packed_view, IsWhole};

    ghost view = { λ a. packed_view a.form };

    ghost invariant = { λ a. IsWhole a.form };
}

/// Returns the parts of a length or a place.
#[inline(always)]
fn split(number: usize) -> (u8, u16, u32)
    requires { number < 2 ^ 56 }
    ensures { joined result.0 result.1 result.2 ≡ number }
{
    let low = (number & 0xffff_ffff) as u32;
    let middle = (number >> 32 & 0xffff) as u16;
    let high = (number >> 48) as u8;
    (high, middle, low)
}

/// Returns the length or the place that has these parts.
#[inline(always)]
fn join(high: u8, middle: u16, low: u32) -> usize
    ensures { result ≡ joined high middle low }
{
    (high as usize) << 48 | (middle as usize) << 32 | low as usize
}

impl PackedText {
    /// Makes the empty text.
    #[inline(always)]
    pub fn empty() -> PackedText
        ensures { result ≡ held [] }
    {
        PackedText {
            form: Form::Short(ShortText::empty()),
        }
    }

    /// Makes what is neither a text nor a span.
    #[inline(always)]
    pub fn unset() -> PackedText
        ensures { result ≡ unset }
    {
        PackedText { form: Form::Unset }
    }

    /// Makes a span from `start` up to `end`.
    #[inline(always)]
    pub fn from_span(start: usize, end: usize) -> PackedText
        requires { start < 2 ^ 56 }
        ensures { result ≡ span start end }
    {
        let (high, middle, low) = split(start);
        PackedText {
            form: Form::Span(high, middle, low, end),
        }
    }

    /// Makes it of a copy of the text.
    ///
    /// # Errors
    ///
    /// Returns an `AllocError` if out of memory. A text of at most 14 bytes takes none.
    #[inline(always)]
    pub fn from_text(alloc: Global, text: &str) -> Result<PackedText, AllocError>
        ensures ok { IfOk result (λ packed. packed ≡ held text.now) }
        ensures free { IsTrue (is_short text.now) → IsOk result }
    {
        match ShortText::from_text(text) {
            Some(short) => Ok(PackedText {
                form: Form::Short(short),
            }),
            None => PackedText::from_long(alloc, text),
        }
    }

    /// Makes it of a copy of a text that is seldom short.
    #[inline(never)]
    fn from_long(alloc: Global, text: &str) -> Result<PackedText, AllocError>
        ensures { IfOk result (λ packed. packed ≡ held text.now) }
    {
        let len = text.len();
        if len > u32::MAX as usize {
            return PackedText::from_string(String::from_str(alloc, text)?);
        }
        let block = Block::from_text(alloc, text)?;
        Ok(PackedText {
            form: Form::Long(len as u32, block),
        })
    }

    /// Makes it of the text of the string, which is not copied if it is long.
    ///
    /// # Errors
    ///
    /// Returns an `AllocError` if out of memory, and drops the string. A text of at most 14 bytes
    /// takes none.
    pub fn from_string(text: String) -> Result<PackedText, AllocError>
        ensures ok { IfOk result (λ packed. packed ≡ held (string_bytes text)) }
        ensures free { IsTrue (is_short (string_bytes text)) → IsOk result }
    {
        match PackedText::try_string(text) {
            Ok(packed) => Ok(packed),
            Err(refused) => {
                drop(refused);
                Err(AllocError)
            }
        }
    }

    /// Makes it of the text of the string, or returns the string if memory runs out.
    fn try_string(text: String) -> Result<PackedText, String>
        ensures ok { IfOk result (λ packed. packed ≡ held (string_bytes text)) }
        ensures back { IfErr result (λ refused. refused ≡ text) }
        ensures free { IsTrue (is_short (string_bytes text)) → IsOk result }
    {
        if let Some(short) = ShortText::from_text(text.as_str()) {
            drop(text);
            return Ok(PackedText {
                form: Form::Short(short),
            });
        }
        let alloc = *text.allocator();
        match Box::new(alloc, text) {
            Ok(text) => Ok(PackedText {
                form: Form::Whole(text),
            }),
            Err(refused) => Err(refused.value),
        }
    }

    /// Makes it of the text of the string, also if memory runs out: a long text is then never freed.
    ///
    /// A text of 2^56 bytes, for which there is no memory, would be lost: no machine has as many
    /// addresses.
    pub fn of_string(text: String) -> PackedText
        ensures text { string_len text < 2 ^ 56 → result ≡ held (string_bytes text) }
        ensures set { IsSet result }
    {
        match PackedText::try_string(text) {
            Ok(packed) => packed,
            Err(refused) => PackedText::keep(refused),
        }
    }

    /// Makes it of the text of the string, which is never freed.
    #[cold]
    #[inline(never)]
    fn keep(text: String) -> PackedText
        ensures text { string_len text < 2 ^ 56 → result ≡ held (string_bytes text) }
        ensures set { IsSet result }
    {
        let len = text.len();
        if len >> 56 != 0 {
            drop(text);
            return PackedText::empty();
        }
        let (high, middle, low) = split(len);
        PackedText {
            form: Form::Kept(high, middle, low, Leaked::new(text)),
        }
    }

    /// Makes it of a part that is long, or near the end of the source.
    #[inline(never)]
    fn from_outer_part(
        alloc: Global,
        source: &SharedText,
        start: usize,
        end: usize,
    ) -> Result<PackedText, AllocError>
        requires { IsPart source.now start end }
        ensures ok { IfOk result (λ packed. packed ≡ held (part source.now start end)) }
        ensures free { IsTrue (is_short (part source.now start end)) → IsOk result }
    {
        match ShortText::from_text(&source.as_str()[start..end]) {
            Some(short) => Ok(PackedText {
                form: Form::Short(short),
            }),
            None => PackedText::from_long_part(alloc, source, start, end),
        }
    }

    /// Makes it of a part that is not short.
    fn from_long_part(
        alloc: Global,
        source: &SharedText,
        start: usize,
        end: usize,
    ) -> Result<PackedText, AllocError>
        requires { IsPart source.now start end }
        ensures { IfOk result (λ packed. packed ≡ held (part source.now start end)) }
    {
        let len = end - start;
        if len <= u16::MAX as usize && start <= u32::MAX as usize {
            if let Ok(text) = Arc::try_clone(&source.text) {
                return Ok(PackedText {
                    form: Form::Part(len as u16, start as u32, text),
                });
            }
        }
        PackedText::from_long(alloc, &source.as_str()[start..end])
    }

    /// Returns `true` if it is neither a text nor a span.
    #[inline(always)]
    pub fn is_unset(&self) -> bool
        ensures { IsTrue result ↔ (self.now ≡ unset) }
    {
        matches!(&self.form, Form::Unset)
    }

    /// Returns the text, or `None` if it is none.
    #[inline(always)]
    pub fn as_str(&self) -> Option<&str>
        ensures { option_copied result ≡ text_of self.now }
    {
        match &self.form {
            Form::Short(text) => Some(text.as_str()),
            Form::Part(len, start, source) => Some(part_of(source, *start as usize, *len as usize)),
            Form::Long(len, block) => Some(block.read(*len as usize)),
            Form::Whole(text) => Some(text.as_str()),
            Form::Kept(high, middle, low, text) => Some(text.read(join(*high, *middle, *low))),
            Form::Unset | Form::Span(_, _, _, _) => None,
        }
    }

    /// Returns where the span begins and ends, or `None` if it is none.
    #[inline(always)]
    pub fn span(&self) -> Option<(usize, usize)>
        ensures { result ≡ span_of self.now }
    {
        match &self.form {
            Form::Span(high, middle, low, end) => Some((join(*high, *middle, *low), *end)),
            _ => None,
        }
    }

    /// Returns an equal copy, which holds no part of a source.
    ///
    /// # Errors
    ///
    /// Returns an `AllocError` if out of memory. A text of at most 14 bytes takes none, nor does
    /// what is no text.
    pub fn clone(&self, alloc: Global) -> Result<PackedText, AllocError>
        ensures equal { IfOk result (λ copy. copy ≡ self.now) }
        ensures free { IsTrue (is_free self.now) → IsOk result }
    {
        match &self.form {
            Form::Unset => Ok(PackedText::unset()),
            Form::Span(high, middle, low, end) => Ok(PackedText {
                form: Form::Span(*high, *middle, *low, *end),
            }),
            Form::Short(text) => PackedText::from_text(alloc, text.as_str()),
            Form::Part(len, start, source) => {
                PackedText::from_text(alloc, part_of(source, *start as usize, *len as usize))
            }
            Form::Long(len, block) => PackedText::from_text(alloc, block.read(*len as usize)),
            Form::Whole(text) => PackedText::from_text(alloc, text.as_str()),
            Form::Kept(high, middle, low, text) => {
                PackedText::from_text(alloc, text.read(join(*high, *middle, *low)))
            }
        }
    }

    /// Becomes the text of the source that it covers, if it is a span. A long one is a part of the
    /// source.
    ///
    /// # Errors
    ///
    /// Returns an `AllocError` if out of memory, and then stays as it was.
    #[inline(always)]
    pub fn despan(&mut self, alloc: Global, source: &SharedText) -> Result<(), AllocError>
        requires { LiesIn source.now self.old }
        ensures ok { OnOk result (self.new ≡ despanned source.now self.old) }
        ensures err { OnErr result (self.new ≡ self.old) }
    {
        match self.span() {
            Some((start, end)) => self.become_part(alloc, source, start, end),
            None => Ok(()),
        }
    }

    /// Becomes the text of the source from `start` up to `end`.
    #[inline(always)]
    fn become_part(
        &mut self,
        alloc: Global,
        source: &SharedText,
        start: usize,
        end: usize,
    ) -> Result<(), AllocError>
        requires { IsPart source.now start end }
        ensures ok { OnOk result (self.new ≡ held (part source.now start end)) }
        ensures err { OnErr result (self.new ≡ self.old) }
    {
        match ShortText::from_inner_part(source.as_str(), start, end) {
            Some(short) => {
                *self = PackedText {
                    form: Form::Short(short),
                };
                Ok(())
            }
            None => self.become_outer_part(alloc, source, start, end),
        }
    }

    /// Becomes a part of the source that is long, or near the end of it.
    #[inline(never)]
    fn become_outer_part(
        &mut self,
        alloc: Global,
        source: &SharedText,
        start: usize,
        end: usize,
    ) -> Result<(), AllocError>
        requires { IsPart source.now start end }
        ensures ok { OnOk result (self.new ≡ held (part source.now start end)) }
        ensures err { OnErr result (self.new ≡ self.old) }
    {
        *self = PackedText::from_outer_part(alloc, source, start, end)?;
        Ok(())
    }

    /// Copies the text, if it is a part of a source, so that it does not keep the source.
    ///
    /// # Errors
    ///
    /// Returns an `AllocError` if out of memory, and then keeps the source.
    pub fn detach(&mut self, alloc: Global) -> Result<(), AllocError>
        ensures { self.new ≡ self.old }
    {
        if self.is_part() {
            *self = self.clone(alloc)?;
        }
        Ok(())
    }

    /// Returns `true` if it is a part of a source.
    fn is_part(&self) -> bool {
        matches!(&self.form, Form::Part(_, _, _))
    }
}

/// Writes a text as a `str` does, and a span as its two ends.
impl fmt::Debug for PackedText {
    fn fmt<W: Write>(&self, f: &mut Formatter<W>) -> fmt::Result {
        match self.as_str() {
            Some(text) => fmt::Debug::fmt(&text, f),
            None => fmt::Debug::fmt(&self.span(), f),
        }
    }
}
