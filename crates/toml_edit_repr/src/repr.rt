//! Spellings, decors, and scalars with their spelling and their decor.
ghost use Rattle.std.specs.Prelude.{◌≡◌, ◌↔◌, ◌<◌, ◌^◌, IsTrue, None, Some, IsSome, IsOkAnd, IfOk, OnOk, OnErr, option_map, option_and_then, string_bytes};
ghost use Rattle.std.specs.Option.{option_copied};
ghost use Rattle.std.specs.Cow.{cow_str_bytes, IsBorrowedStr};
ghost use Rattle.std.specs.Fmt.{WritesInCalls};
ghost use Rattle.toml_edit_model.specs.DefaultSpelling.{default_spelling};
ghost use Rattle.toml_edit_model.specs.Spelling.{SpellsInRange};
ghost use Rattle.toml_edit_model.specs.Tree.{owned, span, unset, HasTrueSpelling, scalar_text};
ghost use Rattle.toml_edit_model.specs.OwnedForm.{RawFits, OptionFits, DecorFits, owned_raw, owned_decor};

use crate::mode::Mode;
use crate::write::{put_scalar, put_side, spelling_text};
use std::alloc::Global;
use std::borrow::CowStr;
use std::fmt;
use std::fmt::{Formatter, Write};
use std::hash::{Hash, Hasher};
use std::marker::Model;
use std::mem::size_of;
use std::ops::Range;
use toml_edit_io::{Printed, Sink, print, show};
use toml_edit_text::{Mem, RawString, SharedText, Side};

/// The spelling of a scalar or a key: its representation in TOML, such as `0xFF` or `'a b'`.
///
/// It is a text, or a span of the source in a `Document`. [`as_raw`](Self::as_raw) tells which.
///
/// # Examples
///
/// ```rust,ignore
/// Value::Integer(number) => number.as_repr()?.as_raw().as_str(),
/// ```
///
/// From `spelling_of` of the crate `example_calls`.
#[derive(Debug, Drop)]
pub struct Repr {
    raw: RawString,
}

impl Model for Repr {
    ghost use Rattle.toml_edit_model.specs.Tree.{Raw};

    ghost Value = { Raw };

    ghost view = { λ a. a.raw };
}

impl Repr {
    ghost use Rattle.toml_edit_repr.specs.Views.{range_of};

    /// Makes a spelling of the raw text. The caller sees to it that it spells the value that it is
    /// kept with.
    pub fn new(raw: RawString) -> Repr
        ensures { result ≡ raw }
    {
        Repr { raw }
    }

    /// Returns an equal copy.
    ///
    /// # Errors
    ///
    /// Returns an `AllocError` if out of memory.
    pub fn clone(&self, alloc: Global) -> Mem<Repr>
        ensures { IfOk result (λ copy. copy ≡ self.now) }
    {
        Ok(Repr::new(self.raw.clone(alloc)?))
    }

    /// Replaces a span of `source` by the text that it cuts.
    ///
    /// # Errors
    ///
    /// Returns an `AllocError` if out of memory, and then stays as it was.
    #[doc(hidden)]
    #[inline(always)]
    pub fn despan(&mut self, alloc: Global, source: &SharedText) -> Mem<()>
        requires { RawFits source.now self.old }
        ensures ok { OnOk result (self.new ≡ owned_raw source.now self.old) }
        ensures err { OnErr result (self.new ≡ self.old) }
    {
        self.raw.despan(alloc, source)
    }

    /// Copies the text, if it is a part of a document's source, so that it does not keep the source.
    ///
    /// # Errors
    ///
    /// Returns an `AllocError` if out of memory, and then keeps the source.
    pub fn detach(&mut self, alloc: Global) -> Mem<()>
        ensures { self.new ≡ self.old }
    {
        self.raw.detach(alloc)
    }

    /// Returns the raw text or span.
    pub fn as_raw(&self) -> &RawString
        ensures { result.now ≡ self.now }
    {
        &self.raw
    }

    /// Returns the bytes of the source that the spelling covers, or `None` if it is a text.
    pub fn span(&self) -> Option<Range<usize>>
        ensures { result ≡ range_of self.now }
    {
        self.raw.span()
    }
}

/// Compares spellings as raw texts: text with text, span with span.
impl PartialEq for Repr {
    ghost use Rattle.toml_edit_repr.specs.Sameness.{same_raw};
    ghost use Rattle.toml_edit_repr.specs.SamenessLaws.{same_raw_partial_equiv};

    ghost eq = { same_raw };

    ghost laws = { same_raw_partial_equiv };

    fn eq(&self, other: &Repr) -> bool
        ensures answer { result ≡ same_raw self.now other.now }
        ensures exact { IsTrue result ↔ (self.now ≡ other.now) }
    {
        self.raw == other.raw
    }
}

impl Eq for Repr {
    ghost use Rattle.toml_edit_repr.specs.SamenessLaws.{same_raw_equiv};

    ghost laws = { same_raw_equiv };
}

impl Hash for Repr {
    ghost use Rattle.toml_edit_repr.specs.Sameness.{raw_hash_input};
    ghost use Rattle.toml_edit_repr.specs.SamenessLaws.{raw_hash_respects};

    ghost hash_input = { raw_hash_input };

    ghost respects_eq = { raw_hash_respects };

    fn hash<H: Hasher>(&self, state: &mut H) {
        self.raw.hash(state);
    }
}

/// The decor of a key, a value or a header: the whitespace and the comments before it (`prefix`)
/// and after it (`suffix`).
///
/// A side that is unset prints as the default for its place: one space on each side of `=`, between
/// the elements of an array, and inside the braces of an inline table; an empty line before a
/// header. A side that is set prints as it is, an empty one as nothing. In a document that was
/// parsed, the sides that print are set. (TOML, "Comment" and "Key/Value Pair".)
///
/// # Examples
///
/// ```rust,ignore
/// mem::swap(old.decor_mut(), value.decor_mut());
/// mem::swap(old, &mut value);
/// ```
///
/// From `replace_value` of the crate `example_calls`.
pub struct Decor {
    prefix: Side,
    suffix: Side,
}

// A slot of a table holds three of them.
const _: () = prove!(size_of::<Decor>() == 32);

impl Drop for Decor {
    fn drop(self) {
        let Decor { prefix, suffix } = self;
        drop(prefix);
        drop(suffix);
    }
}

impl Model for Decor {
    ghost use Rattle.toml_edit_model.specs.Tree.{Decor as DecorView};

    ghost Value = { DecorView };

    ghost view = { λ a. record { prefix = a.prefix; suffix = a.suffix } };
}

impl Decor {
    /// Makes a decor with both sides set.
    ///
    /// For one with neither, use `Decor::default`.
    pub fn new(prefix: RawString, suffix: RawString) -> Decor
        ensures { result ≡ record { prefix = Some prefix; suffix = Some suffix } }
    {
        Decor {
            prefix: Side::of(prefix),
            suffix: Side::of(suffix),
        }
    }

    /// Returns an equal copy.
    ///
    /// # Errors
    ///
    /// Returns an `AllocError` if out of memory.
    pub fn clone(&self, alloc: Global) -> Mem<Decor>
        ensures { IfOk result (λ copy. copy ≡ self.now) }
    {
        Ok(Decor {
            prefix: self.prefix.clone(alloc)?,
            suffix: self.suffix.clone(alloc)?,
        })
    }

    /// Unsets both sides, so that they print as the defaults for their place.
    pub fn clear(&mut self)
        ensures { self.new ≡ unset }
    {
        *self = Decor::default();
    }

    /// Returns the whitespace and the comments before the key, value or header, or `None` if unset.
    ///
    /// An unset side prints as the default for its place, an empty one as nothing. See
    /// [`set_prefix`](Self::set_prefix).
    pub fn prefix(&self) -> Option<&RawString>
        ensures { option_copied result ≡ self.now.prefix }
    {
        self.prefix.get()
    }

    /// Sets the whitespace and the comments before the key, value or header.
    ///
    /// The text is not checked here. If it does not suit its place, such as a comment with no
    /// newline before a key, `DocumentMut::fits` returns `false`.
    pub fn set_prefix(&mut self, prefix: RawString)
        ensures { self.new ≡ record self.old { prefix = Some prefix } }
    {
        self.prefix = Side::of(prefix);
    }

    /// Returns the whitespace and the comments after the key, value or header, or `None` if unset.
    ///
    /// An unset side prints as the default for its place, an empty one as nothing. See
    /// [`set_suffix`](Self::set_suffix).
    pub fn suffix(&self) -> Option<&RawString>
        ensures { option_copied result ≡ self.now.suffix }
    {
        self.suffix.get()
    }

    /// Sets the whitespace and the comments after the key, value or header.
    ///
    /// The text is not checked here. If it does not suit its place, such as a newline after a key,
    /// `DocumentMut::fits` returns `false`.
    pub fn set_suffix(&mut self, suffix: RawString)
        ensures { self.new ≡ record self.old { suffix = Some suffix } }
    {
        self.suffix = Side::of(suffix);
    }

    /// Replaces spans of `source` by the texts that they cut.
    ///
    /// # Errors
    ///
    /// Returns an `AllocError` if out of memory. Either side may still be a span then: drop the document.
    #[doc(hidden)]
    pub fn despan(&mut self, alloc: Global, source: &SharedText) -> Mem<()>
        requires { DecorFits source.now self.old }
        ensures { OnOk result (self.new ≡ owned_decor source.now self.old) }
    {
        self.prefix.despan(alloc, source)?;
        self.suffix.despan(alloc, source)
    }

    /// Copies the texts that are parts of a document's source, so that it does not keep the source.
    ///
    /// # Errors
    ///
    /// Returns an `AllocError` if out of memory, and then keeps the source.
    #[doc(hidden)]
    pub fn detach(&mut self, alloc: Global) -> Mem<()>
        ensures { self.new ≡ self.old }
    {
        self.prefix.detach(alloc)?;
        self.suffix.detach(alloc)
    }
}

/// Writes the sides as options, as they are read, and not as they are kept.
impl fmt::Debug for Decor {
    fn fmt<W: Write>(&self, f: &mut Formatter<W>) -> fmt::Result {
        f.debug_struct("Decor")
            .field("prefix", &self.prefix())
            .field("suffix", &self.suffix())
            .finish()
    }
}

/// Makes a decor with both sides unset.
impl Default for Decor {
    ghost is_default = { λ d. d ≡ unset };

    fn default() -> Decor {
        Decor {
            prefix: Side::unset(),
            suffix: Side::unset(),
        }
    }
}

/// Compares side by side. An unset side differs from an empty one.
impl PartialEq for Decor {
    ghost use Rattle.toml_edit_repr.specs.Sameness.{same_decor};
    ghost use Rattle.toml_edit_repr.specs.SamenessLaws.{same_decor_partial_equiv};

    ghost eq = { same_decor };

    ghost laws = { same_decor_partial_equiv };

    fn eq(&self, other: &Decor) -> bool
        ensures answer { result ≡ same_decor self.now other.now }
        ensures exact { IsTrue result ↔ (self.now ≡ other.now) }
    {
        self.prefix() == other.prefix() && self.suffix() == other.suffix()
    }
}

impl Eq for Decor {
    ghost use Rattle.toml_edit_repr.specs.SamenessLaws.{same_decor_equiv};

    ghost laws = { same_decor_equiv };
}

impl Hash for Decor {
    ghost use Rattle.toml_edit_repr.specs.Sameness.{decor_hash_input};
    ghost use Rattle.toml_edit_repr.specs.SamenessLaws.{decor_hash_respects};

    ghost hash_input = { decor_hash_input };

    ghost respects_eq = { decor_hash_respects };

    fn hash<H: Hasher>(&self, state: &mut H) {
        self.prefix().hash(state);
        self.suffix().hash(state);
    }
}

/// Replaces a spelling that is a span of `source` by the text that it cuts.
///
/// # Errors
///
/// Fails if memory runs out, and then leaves the spelling as it was.
#[doc(hidden)]
pub fn despan_spelling(alloc: Global, repr: &mut Option<Repr>, source: &SharedText) -> Mem<()>
    requires { OptionFits source.now repr.old }
    ensures ok { OnOk result (repr.new ≡ option_map (owned_raw source.now) repr.old) }
    ensures err { OnErr result (repr.new ≡ repr.old) }
{
    match repr {
        None => Ok(()),
        Some(repr) => repr.despan(alloc, source),
    }
}

/// Copies the spelling, if it is a part of a document's source, so that it does not keep the source.
///
/// # Errors
///
/// Returns an `AllocError` if out of memory, and then keeps the source.
#[doc(hidden)]
pub fn detach_spelling(alloc: Global, repr: &mut Option<Repr>) -> Mem<()>
    ensures { repr.new ≡ repr.old }
{
    match repr {
        None => Ok(()),
        Some(repr) => repr.detach(alloc),
    }
}

/// Returns an equal copy of the spelling, if there is one.
///
/// # Errors
///
/// Returns an `AllocError` if out of memory.
#[doc(hidden)]
pub fn clone_spelling(alloc: Global, repr: &Option<Repr>) -> Mem<Option<Repr>>
    ensures { IfOk result (λ copy. copy ≡ repr.now) }
{
    match repr {
        None => Ok(None),
        Some(repr) => Ok(Some(repr.clone(alloc)?)),
    }
}

/// A type whose values are TOML scalars: strings, integers, floats, booleans, dates and times.
///
/// It is what [`ValueRepr`] needs of a value: the scalar that it is, how that is spelled by
/// default, and how to copy it.
///
/// # Examples
///
/// A function for any scalar and any sink:
///
/// ```rust,ignore
/// pub fn put_default<T: ScalarValue, S: Sink>(scalar: &T, out: &mut S)
/// ```
///
/// From `put_default` of the crate `example_calls`.
pub trait ScalarValue: PartialEq {
    ghost use Rattle.toml_edit_model.specs.Scalars.{Scalar};

    // The scalar that the value is.
    ghost scalar: { Self → Scalar };

    /// Puts the default spelling of the value into the sink.
    ///
    /// Takes no memory but what the sink takes.
    fn put_default<S: Sink>(&self, out: &mut S)
        ensures { WritesInCalls S.puts out.old (default_spelling (scalar self.now)) out.new };

    /// Returns an equal copy.
    ///
    /// # Errors
    ///
    /// Returns an `AllocError` if out of memory.
    fn copy(&self, alloc: Global) -> Mem<Self>
        ensures scalar { IfOk result (λ copy. scalar copy ≡ scalar self.now) }
        ensures equal { IfOk result (λ copy. IsTrue (Self.eq copy self.now)) };
}

/// A type whose values can be spelled in TOML, and so be the value of a [`Formatted`].
///
/// It is implemented for `String`, `i64`, `bool`, `FloatText` and `Datetime`. An implementation for
/// another type proves which spellings its values have.
///
/// # Examples
///
/// A function that returns `scalar.default_repr(alloc)`:
///
/// ```rust,ignore
/// pub fn default_of<T: ValueRepr>(alloc: Global, scalar: &Formatted<T>) -> Mem<Repr>
/// ```
///
/// From `default_of` of the crate `example_calls`.
pub trait ValueRepr: ScalarValue {
    ghost use Rattle.std.specs.Prelude.{List, ℕ};

    // The text spells the value, and is in range.
    ghost spells: { List ℕ → Self → Type 0 };

    /// Returns the default spelling of the value, as a text that spells it.
    ///
    /// # Errors
    ///
    /// Returns an `AllocError` if out of memory.
    fn to_repr(&self, alloc: Global) -> Mem<Repr>
        ensures default { IfOk result
            (λ repr. repr ≡ owned (default_spelling (Self.scalar self.now))) }
        ensures spelled { ∥ spells (default_spelling (Self.scalar self.now)) self.now ∥₁ };

    // A text spells the value if it spells its scalar, in range.
    ghost spells_scalar: { (t : List ℕ) (x : Self) → spells t x ↔ SpellsInRange (Self.scalar x) t };
}

/// The default spelling of a value, to be put into a sink.
#[derive(Drop)]
struct Spelled<'a, T>(&'a T);

impl<T: ScalarValue> Printed for Spelled<'_, T> {
    ghost use Rattle.toml_edit_model.specs.DefaultSpelling.{default_spelling};

    ghost text = { λ spelled. default_spelling (T.scalar spelled.0.now) };

    fn put_into<S: Sink>(&self, out: &mut S) {
        self.0.put_default(out)
    }
}

/// Returns the default spelling of the value as a `String`.
fn default_text<T: ScalarValue>(alloc: Global, value: &T) -> Mem<String>
    ensures { IfOk result (λ text. string_bytes text ≡ default_spelling (T.scalar value.now)) }
{
    print(alloc, &Spelled(value))
}

/// Returns the default spelling as a spelling that is a text.
pub(crate) fn default_repr_of<T: ScalarValue>(alloc: Global, value: &T) -> Mem<Repr>
    ensures { IfOk result (λ repr. repr ≡ owned (default_spelling (T.scalar value.now))) }
{
    Ok(Repr::new(RawString::from_string(default_text(alloc, value)?)?))
}

/// A scalar value with its spelling and its decor.
///
/// A value that was parsed prints as it was spelled; one that was made, in its default spelling.
/// The spelling always spells the value, so a value is changed by putting a new `Formatted` in its
/// place.
///
/// # Examples
///
/// ```rust,ignore
/// if let Value::Integer(number) = value {
///     number.fmt();
/// }
/// ```
///
/// From `make_decimal` of the crate `example_calls`.
#[derive(Debug)]
pub struct Formatted<T: ValueRepr> {
    value: T,
    repr: Option<Repr>,
    decor: Decor,
}

impl<T: ValueRepr + Drop> Drop for Formatted<T> {
    fn drop(self) {
        let Formatted { value, repr, decor } = self;
        drop(value);
        drop(repr);
        drop(decor);
    }
}

impl<T: ValueRepr> Model for Formatted<T> {
    ghost use Rattle.toml_edit_model.specs.Tree.{HasTrueSpelling};
    ghost use Rattle.toml_edit_repr.specs.Views.{FormattedView};

    ghost Value = { FormattedView T };

    ghost view = { λ a. record { value = a.value; repr = a.repr; decor = a.decor } };

    ghost invariant = { λ a. ∥ HasTrueSpelling (λ t. T.spells t a.value) a.repr ∥₁ };
}

/// Compares values, spellings and decors: `0x1` and `1` differ.
impl<T: ValueRepr + PartialEq> PartialEq for Formatted<T> {
    ghost use Rattle.toml_edit_repr.specs.Sameness.{same_formatted};
    ghost use Rattle.toml_edit_repr.specs.SamenessLaws.{same_formatted_partial_equiv};

    ghost eq = { same_formatted T.eq };

    ghost laws = { same_formatted_partial_equiv T.laws };

    fn eq(&self, other: &Formatted<T>) -> bool {
        self.value == other.value && (self.repr == other.repr && self.decor == other.decor)
    }
}

impl<T: ValueRepr + Eq> Eq for Formatted<T> {
    ghost use Rattle.toml_edit_repr.specs.SamenessLaws.{same_formatted_equiv};

    ghost laws = { same_formatted_equiv T.Eq.laws };
}

impl<T: ValueRepr + Hash> Hash for Formatted<T> {
    ghost use Rattle.toml_edit_repr.specs.Sameness.{formatted_hash_input};
    ghost use Rattle.toml_edit_repr.specs.SamenessLaws.{formatted_hash_respects};

    ghost hash_input = { formatted_hash_input T.hash_input };

    ghost respects_eq = { formatted_hash_respects T.respects_eq };

    fn hash<H: Hasher>(&self, state: &mut H) {
        self.value.hash(state);
        self.repr.hash(state);
        self.decor.hash(state);
    }
}

/// Writes the spelling, or the default one if there is none that is a text, between the sides of
/// the decor. Sides that are unset or spans are empty.
///
/// Carriage returns (CR) of the decor are dropped. To get the spelling alone, use
/// [`display_repr`](Formatted::display_repr).
impl<T: ValueRepr> fmt::Display for Formatted<T> {
    ghost use Rattle.std.specs.Prelude.{Some};
    ghost use Rattle.toml_edit_repr.specs.Shown.{formatted_text};

    ghost output = { λ scalar. Some (formatted_text T.scalar scalar) };

    fn fmt<W: Write>(&self, f: &mut Formatter<W>) -> fmt::Result {
        show(f, self)
    }
}

impl<T: ValueRepr> Printed for Formatted<T> {
    ghost use Rattle.toml_edit_repr.specs.Shown.{formatted_text};

    ghost text = { formatted_text T.scalar };

    #[tactic(auto, using(toml_edit_io::proofs::Puts::put_steps))]
    fn put_into<S: Sink>(&self, out: &mut S) {
        put_side(out, Mode::Plain, self.decor.prefix(), "");
        put_scalar(out, self);
        put_side(out, Mode::Plain, self.decor.suffix(), "")
    }
}

impl<T: ValueRepr> Formatted<T> {
    ghost use Rattle.std.specs.Borrow.{sem};
    ghost use Rattle.toml_edit_repr.specs.LendingParts.{LendsDecor};
    ghost use Rattle.toml_edit_repr.specs.Sameness.{same_formatted};
    ghost use Rattle.toml_edit_repr.specs.Views.{range_of, text_of};

    /// Makes a scalar with its default spelling and no decor.
    pub fn new(value: T) -> Formatted<T>
        ensures { result ≡ record { value = value; repr = None; decor = unset } }
    {
        Formatted {
            value,
            repr: None,
            decor: Decor::default(),
        }
    }

    /// Makes a scalar that was parsed, spelled by the bytes of the source from `start` up to `end`.
    pub fn spanned(value: T, start: usize, end: usize, decor: Decor) -> Formatted<T>
        requires { start < 2 ^ 56 }
        ensures { result ≡ record { value = value; repr = Some (span start end); decor = decor } }
    {
        Formatted {
            value,
            repr: Some(Repr::new(RawString::from_span(start, end))),
            decor,
        }
    }

    /// Returns an equal copy, with its spelling and its decor.
    ///
    /// # Errors
    ///
    /// Returns an `AllocError` if out of memory.
    pub fn clone(&self, alloc: Global) -> Mem<Formatted<T>>
        ensures value { IfOk result (λ copy. T.scalar copy.value ≡ T.scalar self.now.value) }
        ensures repr { IfOk result (λ copy. copy.repr ≡ self.now.repr) }
        ensures decor { IfOk result (λ copy. copy.decor ≡ self.now.decor) }
        // Equal by `==`.
        ensures equal { IfOk result (λ copy. IsTrue (same_formatted T.eq copy self.now)) }
    {
        let repr = clone_spelling(alloc, &self.repr)?;
        let decor = self.decor.clone(alloc)?;
        // The value is copied last, since its type need not be one that can be dropped.
        let value = self.value.copy(alloc)?;
        Ok(Formatted { value, repr, decor })
    }

    /// Returns the value.
    pub fn value(&self) -> &T
        ensures value { result.now ≡ self.now.value }
        ensures spelled { ∥ HasTrueSpelling (λ t. T.spells t self.now.value) self.now.repr ∥₁ }
    {
        &self.value
    }

    /// Returns the value, and drops its spelling and its decor.
    pub fn into_value(self) -> T
        ensures { result ≡ self.value }
    {
        let Formatted { value, repr, decor } = self;
        drop(repr);
        drop(decor);
        value
    }

    /// Returns the value's own spelling, or `None` if it has none and prints in the default one.
    ///
    /// What was parsed has one, even where it is spelled by default. See
    /// [`display_repr`](Self::display_repr) for what prints.
    ///
    /// # Examples
    ///
    /// ```rust,ignore
    /// Value::Integer(number) => number.as_repr()?.as_raw().as_str(),
    /// ```
    ///
    /// From `spelling_of` of the crate `example_calls`.
    pub fn as_repr(&self) -> Option<&Repr>
        ensures { option_copied result ≡ self.now.repr }
    {
        self.repr.as_ref()
    }

    /// Returns the default spelling of the value, whatever its own one is.
    ///
    /// # Errors
    ///
    /// Returns an `AllocError` if out of memory.
    pub fn default_repr(&self, alloc: Global) -> Mem<Repr>
        ensures default { IfOk result
            (λ repr. repr ≡ owned (default_spelling (T.scalar self.now.value))) }
        ensures spelled { ∥ T.spells
            (default_spelling (T.scalar self.now.value)) self.now.value ∥₁ }
    {
        self.value.to_repr(alloc)
    }

    /// Returns the spelling that prints: the value's own one if it is a text, else the default one.
    ///
    /// # Errors
    ///
    /// Returns an `AllocError` if out of memory. A spelling of the value's own takes none.
    pub fn display_repr(&self, alloc: Global) -> Mem<CowStr<'_>>
        ensures text { IfOk result
            (λ text. cow_str_bytes text ≡ scalar_text (T.scalar self.now.value) self.now.repr) }
        ensures free { IsSome (option_and_then text_of self.now.repr)
            → IsOkAnd result IsBorrowedStr }
    {
        match spelling_text(self.as_repr()) {
            Some(text) => Ok(CowStr::Borrowed(text)),
            None => Ok(CowStr::Owned(default_text(alloc, &self.value)?)),
        }
    }

    /// Returns the bytes of the source that the spelling covers, or `None` if it is not a span.
    ///
    /// Only values of a `Document` have one, not those of a `DocumentMut`.
    pub fn span(&self) -> Option<Range<usize>>
        ensures { result ≡ option_and_then range_of self.now.repr }
    {
        self.as_repr()?.span()
    }

    /// Returns the whitespace and the comments around the value.
    pub fn decor(&self) -> &Decor
        ensures { result.now ≡ self.now.decor }
    {
        &self.decor
    }

    /// Returns a mutable reference to the whitespace and the comments around the value.
    pub fn decor_mut(&mut self) -> &mut Decor
        ensures* writes_back { sem 𝓛
            (LendsDecor T.row (record { spells = T.spells }) (record { scalar = T.scalar })
            (record { eq = T.eq }) self.entry result) }
        ensures decor { result.now ≡ self.old.decor }
    {
        &mut self.decor
    }

    /// Resets the value to its default spelling. Its decor stays.
    pub fn fmt(&mut self)
        ensures { self.new ≡ record self.old { repr = None } }
    {
        self.repr = None;
    }

    /// Replaces spans of `source` by the texts that they cut.
    ///
    /// # Errors
    ///
    /// Returns an `AllocError` if out of memory. Spans may be left then: drop the document.
    #[doc(hidden)]
    pub fn despan(&mut self, alloc: Global, source: &SharedText) -> Mem<()>
        requires spelling { OptionFits source.now self.old.repr }
        requires decor { DecorFits source.now self.old.decor }
        requires spelled { ∥ HasTrueSpelling (λ t. T.spells t self.old.value)
            (option_map (owned_raw source.now) self.old.repr) ∥₁ }
        ensures ok { OnOk result (self.new ≡ record self.old {
          repr = option_map (owned_raw source.now) self.old.repr;
          decor = owned_decor source.now self.old.decor;
        }) }
    {
        despan_spelling(alloc, &mut self.repr, source)?;
        self.decor.despan(alloc, source)
    }

    /// Copies the texts that are parts of a document's source, so that it does not keep the source.
    ///
    /// # Errors
    ///
    /// Returns an `AllocError` if out of memory, and then keeps the source.
    #[doc(hidden)]
    pub fn detach(&mut self, alloc: Global) -> Mem<()>
        ensures { self.new ≡ self.old }
    {
        detach_spelling(alloc, &mut self.repr)?;
        self.decor.detach(alloc)
    }
}
