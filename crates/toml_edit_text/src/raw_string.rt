//! Raw texts of a document: texts of their own, or spans of the source.
ghost use Rattle.std.specs.Prelude.{◌≡◌, ◌↔◌, ◌<◌, ◌^◌, [], Some, None, option_map, IsOk, IsSome, IsTrue, IfOk, IfSome, OnOk, OnErr, string_bytes, string_len};
ghost use Rattle.std.specs.Option.{option_copied};
ghost use Rattle.toml_edit_model.specs.Tree.{owned, span};
ghost use Rattle.toml_edit_text.specs.RawView.{raw_view, IsSet};
ghost use Rattle.toml_edit_model.specs.OwnedForm.{RawFits, OptionFits, cut_out, owned_raw};

use crate::packed_text::PackedText;
use crate::shared_text::SharedText;
use std::alloc::{AllocError, Global};
use std::hash::{Hash, Hasher};
use std::marker::Model;
use std::mem::size_of;
use std::ops::Range;

/// The result of a call that fails only when out of memory.
///
/// # Examples
///
/// ```rust,ignore
/// let version = Value::string(alloc, version)?;
/// ```
///
/// From `add_dependency` of the crate `example_calls`.
pub type Mem<T> = Result<T, AllocError>;

/// A raw piece of a TOML text, such as whitespace and comments, or a spelling.
///
/// It is either a text of its own or, in a `Document`, a span of the source in bytes. What is made
/// is a text; `Document::into_mut` turns spans into texts.
///
/// # Examples
///
/// ```rust,ignore
/// let prefix = RawString::from_string(format!(in alloc; "{comment}\n{indent}")?)?;
/// let end = RawString::from_text(alloc, "\n")?;
/// ```
///
/// From `push_line` of the crate `example_calls`.
#[derive(Debug)]
pub struct RawString {
    // It is never unset.
    text: PackedText,
}

// A slot of a table holds eight of them.
const _: () = prove!(size_of::<RawString>() == 16);

/// By hand, as for all that trees are made of: a crate that drops one then proves one call, and not
/// one for each part.
impl Drop for RawString {
    #[inline(always)]
    fn drop(self) {
        let RawString { text } = self;
        drop(text);
    }
}

impl Model for RawString {
    ghost use Rattle.toml_edit_model.specs.Tree.{Raw};
    ghost use Rattle.toml_edit_text.specs.RawView.{raw_view, IsSet};

    ghost Value = { Raw };

    ghost view = { λ a. raw_view a.text };

    ghost invariant = { λ a. IsSet a.text };
}

impl RawString {
    ghost use Rattle.toml_edit_text.specs.RawText.{text_of, range_of, is_free_raw};
    ghost use Rattle.toml_edit_text.specs.Packed.{is_short};

    /// Makes a raw text of a copy of the text.
    ///
    /// The text is not checked. Where it is used as decor, `DocumentMut::fits` tells whether it
    /// suits its place.
    ///
    /// # Errors
    ///
    /// Returns an `AllocError` if out of memory. A text of at most 14 bytes takes none.
    pub fn from_text(alloc: Global, text: &str) -> Mem<RawString>
        ensures ok { IfOk result (λ raw. raw ≡ owned text.now) }
        ensures free { IsTrue (is_short text.now) → IsOk result }
    {
        Ok(RawString {
            text: PackedText::from_text(alloc, text)?,
        })
    }

    /// Makes a raw text of the string, which is not copied if it takes more than 14 bytes.
    ///
    /// `RawString::from` does the same without an error: where there is no memory for the few bytes
    /// that this takes, the text is never freed.
    ///
    /// # Errors
    ///
    /// Returns an `AllocError` if out of memory, and drops the string. A text of at most 14 bytes
    /// takes none.
    pub fn from_string(text: String) -> Mem<RawString>
        ensures ok { IfOk result (λ raw. raw ≡ owned (string_bytes text)) }
        ensures free { IsTrue (is_short (string_bytes text)) → IsOk result }
    {
        Ok(RawString {
            text: PackedText::from_string(text)?,
        })
    }

    /// Makes a span of the bytes of the source from `start` up to `end`.
    pub fn from_span(start: usize, end: usize) -> RawString
        requires { start < 2 ^ 56 }
        ensures { result ≡ span start end }
    {
        RawString {
            text: PackedText::from_span(start, end),
        }
    }

    /// Returns the text, or `None` for a span.
    ///
    /// For a span see [`span`](Self::span). In a `DocumentMut` that was parsed, all are texts.
    #[inline(always)]
    pub fn as_str(&self) -> Option<&str>
        ensures { option_copied result ≡ text_of self.now }
    {
        self.text.as_str()
    }

    /// Returns an equal copy.
    ///
    /// # Errors
    ///
    /// Returns an `AllocError` if out of memory. A span and a text of at most 14 bytes take none.
    pub fn clone(&self, alloc: Global) -> Mem<RawString>
        ensures equal { IfOk result (λ copy. copy ≡ self.now) }
        ensures free { IsTrue (is_free_raw self.now) → IsOk result }
    {
        Ok(RawString {
            text: self.text.clone(alloc)?,
        })
    }

    /// Returns the bytes of the source that a span covers, or `None` for a text of its own.
    pub fn span(&self) -> Option<Range<usize>>
        ensures { result ≡ range_of self.now }
    {
        match self.text.span() {
            Some((start, end)) => Some(start..end),
            None => None,
        }
    }

    /// Returns the text: its own, or for a span the bytes of `source` that it covers.
    ///
    /// Returns `None` for a span that does not lie in `source`, or that begins or ends inside a
    /// character of it.
    pub fn text_in<'a>(&'a self, source: &'a str) -> Option<&'a str>
        ensures some { IsSome result ↔ RawFits source.now self.now }
        ensures text { IfSome result (λ text. owned text.now ≡ owned_raw source.now self.now) }
    {
        match self.text.span() {
            Some((start, end)) => covered_text(source, start, end),
            None => self.as_str(),
        }
    }

    /// Copies the text, if it is a part of a document's source, so that it does not keep the source.
    ///
    /// # Errors
    ///
    /// Returns an `AllocError` if out of memory, and then keeps the source.
    pub fn detach(&mut self, alloc: Global) -> Mem<()>
        ensures { self.new ≡ self.old }
    {
        self.text.detach(alloc)
    }

    /// Replaces a span of `source` by the text that it cuts. A long one is a part of the source.
    ///
    /// # Errors
    ///
    /// Returns an `AllocError` if out of memory, and then stays as it was.
    #[doc(hidden)]
    #[inline(always)]
    pub fn despan(&mut self, alloc: Global, source: &SharedText) -> Mem<()>
        requires { RawFits source.now self.old }
        ensures ok { OnOk result (self.new ≡ owned_raw source.now self.old) }
        ensures err { OnErr result (self.new ≡ self.old) }
    {
        self.text.despan(alloc, source)
    }
}

impl RawString {
    /// Returns what is packed, which is set.
    fn into_packed(self) -> PackedText
        ensures set { IsSet result }
        ensures same { raw_view result ≡ self }
    {
        let RawString { text } = self;
        text
    }
}

/// A raw text that may be unset. It takes as much room as one that is not.
pub struct Side {
    text: PackedText,
}

/// By hand, as for all that trees are made of.
impl Drop for Side {
    #[inline(always)]
    fn drop(self) {
        let Side { text } = self;
        drop(text);
    }
}

impl Model for Side {
    ghost use Rattle.std.specs.Prelude.{Option};
    ghost use Rattle.toml_edit_model.specs.Tree.{Raw};
    ghost use Rattle.toml_edit_text.specs.RawView.{side_view};

    ghost Value = { Option Raw };

    ghost view = { λ a. side_view a.text };
}

impl Side {
    /// Makes a side that is unset.
    pub fn unset() -> Side
        ensures { result ≡ None }
    {
        Side {
            text: PackedText::unset(),
        }
    }

    /// Makes a side of a raw text.
    #[inline(always)]
    pub fn of(raw: RawString) -> Side
        ensures { result ≡ Some raw }
    {
        Side {
            text: raw.into_packed(),
        }
    }

    /// Returns the raw text, or `None` if it is unset.
    #[inline(always)]
    pub fn get(&self) -> Option<&RawString>
        ensures { option_copied result ≡ self.now }
    {
        if self.text.is_unset() {
            None
        } else {
            Some(seen(self))
        }
    }

    /// Returns an equal copy.
    ///
    /// # Errors
    ///
    /// Returns an `AllocError` if out of memory.
    pub fn clone(&self, alloc: Global) -> Mem<Side>
        ensures { IfOk result (λ copy. copy ≡ self.now) }
    {
        Ok(Side {
            text: self.text.clone(alloc)?,
        })
    }

    /// Replaces a span of `source` by the text that it cuts. A long one is a part of the source.
    ///
    /// # Errors
    ///
    /// Returns an `AllocError` if out of memory, and then stays as it was.
    #[inline(always)]
    pub fn despan(&mut self, alloc: Global, source: &SharedText) -> Mem<()>
        requires { OptionFits source.now self.old }
        ensures ok { OnOk result (self.new ≡ option_map (owned_raw source.now) self.old) }
        ensures err { OnErr result (self.new ≡ self.old) }
    {
        self.text.despan(alloc, source)
    }

    /// Copies the text, if it is a part of a document's source, so that it does not keep the source.
    ///
    /// # Errors
    ///
    /// Returns an `AllocError` if out of memory, and then keeps the source.
    pub fn detach(&mut self, alloc: Global) -> Mem<()>
        ensures { self.new ≡ self.old }
    {
        self.text.detach(alloc)
    }
}

/// Returns the raw text of a side that is set. Both are one packed text.
#[inline(always)]
fn seen(side: &Side) -> &RawString
    requires { IsSome side.now }
    ensures { Some result.now ≡ side.now }
{
    unsafe { &*(side as *const Side as *const RawString) }
}

/// Returns the bytes of the source from `start` up to `end`, or `None` where they are no text.
fn covered_text(source: &str, start: usize, end: usize) -> Option<&str>
    ensures some { IsSome result ↔ RawFits source.now (span start end) }
    ensures text { IfSome result (λ text. text.now ≡ cut_out source.now start end) }
{
    // Not `get`, which promises nothing of where an empty range lies.
    if start <= end && source.is_char_boundary(start) && source.is_char_boundary(end) {
        Some(&source[start..end])
    } else {
        None
    }
}

/// Makes a raw text of the string, which is not copied if it takes more than 14 bytes.
impl From<String> for RawString {
    ghost from_gives = { λ text raw. string_len text < 2 ^ 56 → raw ≡ owned (string_bytes text) };

    fn from(text: String) -> RawString {
        RawString {
            text: PackedText::of_string(text),
        }
    }
}

/// Makes the empty raw text.
impl Default for RawString {
    ghost is_default = { λ raw. raw ≡ owned [] };

    fn default() -> RawString {
        RawString {
            text: PackedText::empty(),
        }
    }
}

/// Compares texts with texts, however they are kept, and spans with spans. A text never equals a
/// span.
impl PartialEq for RawString {
    ghost use Rattle.toml_edit_text.specs.RawText.{same_raw};
    ghost use Rattle.toml_edit_text.specs.RawTextLaws.{same_raw_partial_equiv};

    ghost eq = { same_raw };

    ghost laws = { same_raw_partial_equiv };

    fn eq(&self, other: &RawString) -> bool
        ensures answer { result ≡ same_raw self.now other.now }
        ensures exact { IsTrue result ↔ (self.now ≡ other.now) }
    {
        match (self.text.span(), other.text.span()) {
            (Some((start, end)), Some((from, to))) => start == from && end == to,
            _ => match (self.as_str(), other.as_str()) {
                (Some(text), Some(another)) => text == another,
                _ => false,
            },
        }
    }
}

impl Eq for RawString {
    ghost use Rattle.toml_edit_text.specs.RawTextLaws.{same_raw_equiv};

    ghost laws = { same_raw_equiv };
}

impl Hash for RawString {
    ghost use Rattle.toml_edit_text.specs.RawText.{raw_hash_input};
    ghost use Rattle.toml_edit_text.specs.RawTextLaws.{raw_hash_respects};

    ghost hash_input = { raw_hash_input };

    ghost respects_eq = { raw_hash_respects };

    fn hash<H: Hasher>(&self, state: &mut H) {
        match self.text.span() {
            Some((start, end)) => {
                state.write_u8(1);
                start.hash(state);
                end.hash(state);
            }
            None => {
                state.write_u8(0);
                self.as_str().unwrap_or("").hash(state);
            }
        }
    }
}
