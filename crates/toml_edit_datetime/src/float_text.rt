//! Floats, which are kept as their texts.
ghost use Rattle.std.specs.Prelude.{◌≡◌, ◌↔◌, false, if◌then◌else◌, IsTrue, IsOk, IfOk, IfErr, None, Some, IsSome, string_bytes, nat_eq};
ghost use Rattle.std.specs.Option.{option_copied};
ghost use Rattle.std.specs.Hash as fed;
ghost use Rattle.std.specs.Cmp.{partial_equiv_from_equiv};
ghost use Rattle.std.specs.Cmp.Lexicographic.{pointwise, nat_list_eq_equiv};
ghost use Rattle.std.specs.Cmp.Rules.{hashing};
ghost use Rattle.std.proofs.Common.{rules};
ghost use Rattle.toml_edit_model.specs.Spelling.{IsFloat};
ghost use Rattle.toml_edit_laws.specs.reading.FloatReading as spec;
ghost use Rattle.toml_edit_datetime.specs.HeldText.{held_text};

use arrayvec::ArrayString;
use std::alloc::{AllocError, Global};
use std::fmt;
use std::hash::{Hash, Hasher};
use std::marker::Model;

/// Returns the text after an optional sign.
fn without_sign(text: &[u8]) -> &[u8]
    ensures { result.now ≡ spec.without_sign text.now }
{
    match text {
        [b'+' | b'-', rest @ ..] => rest,
        _ => text,
    }
}

/// Returns the text after decimal digits with single underscores between them, or `None` if it does
/// not begin with such digits.
fn after_digits(text: &[u8]) -> Option<&[u8]>
    ensures { option_copied result ≡ spec.after_digits false text.now }
{
    let mut after_digit = false;
    'digits: for (index, byte) in text.iter().enumerate() {
        if byte.is_ascii_digit() {
            after_digit = true;
        } else if after_digit && *byte == b'_' {
            after_digit = false;
        } else if after_digit {
            return Some(&text[index..]);
        } else {
            return None;
        }
    }
    if after_digit { Some(&[]) } else { None }
}

/// Returns `true` if a 0 leads other digits.
fn leads_with_zero(text: &[u8]) -> bool
    ensures { result ≡ spec.leads_with_zero text.now }
{
    matches!(text, [b'0', b'0'..=b'9' | b'_', ..])
}

/// Returns `true` if the text is `e` or `E`, an optional sign and digits.
fn is_exponent(text: &[u8]) -> bool
    ensures { result ≡ spec.is_exponent text.now }
{
    match text {
        [b'e' | b'E', rest @ ..] => matches!(after_digits(without_sign(rest)), Some([])),
        _ => false,
    }
}

/// Returns `true` if the text is a point and digits, an exponent, or both.
fn is_fraction_or_exponent(text: &[u8]) -> bool
    ensures { result ≡ spec.is_fraction_or_exponent text.now }
{
    match text {
        [b'.', rest @ ..] => match after_digits(rest) {
            Some(end) => end.is_empty() || is_exponent(end),
            None => false,
        },
        _ => is_exponent(text),
    }
}

/// Returns `true` if the text is digits without a leading 0, and a fraction, an exponent or both.
fn is_decimal_float(text: &[u8]) -> bool
    ensures { result ≡ spec.is_decimal_float text.now }
{
    if leads_with_zero(text) {
        return false;
    }
    match after_digits(text) {
        Some(rest) => is_fraction_or_exponent(rest),
        None => false,
    }
}

/// Returns `true` if the text is `inf`, `nan` or a decimal float, without a sign.
fn is_unsigned_float(text: &[u8]) -> bool
    ensures { result ≡ spec.is_unsigned_float text.now }
{
    is_decimal_float(text) || text == b"inf".as_slice() || text == b"nan".as_slice()
}

/// Returns `true` if the text is a TOML float, whatever its magnitude.
///
/// That is decimal digits with a fraction, an exponent or both, or `inf` or `nan`, with an optional
/// sign. (TOML, "Float".)
#[tactic(auto, unfolding(toml_edit_laws::specs::reading::FloatReading::is_float_text))]
pub fn is_float(text: &str) -> bool
    ensures test { result ≡ spec.is_float_text text.now }
    ensures float { IsTrue result ↔ IsFloat text.now }
{
    is_unsigned_float(without_sign(text.as_bytes()))
}

/// The most bytes of a text that is stored in place.
const MOST: usize = 24;

/// A text, which takes no memory if it is short, as most floats are.
#[derive(Drop)]
enum HeldText {
    Short(ArrayString<MOST>),
    Long(String),
}

impl HeldText {
    /// Makes it of a copy of the text. Fails if out of memory.
    fn from_text(alloc: Global, text: &str) -> Result<HeldText, AllocError>
        ensures { IfOk result (λ held. held_text held ≡ text.now) }
    {
        match ArrayString::from(text) {
            Ok(short) => Ok(HeldText::Short(short)),
            Err(_) => Ok(HeldText::Long(String::from_str(alloc, text)?)),
        }
    }

    /// Returns the text.
    fn as_str(&self) -> &str
        ensures { result.now ≡ held_text self.now }
    {
        match self {
            HeldText::Short(text) => text.as_str(),
            HeldText::Long(text) => text.as_str(),
        }
    }
}

impl fmt::Debug for HeldText {
    fn fmt<W: fmt::Write>(&self, f: &mut fmt::Formatter<W>) -> fmt::Result {
        fmt::Debug::fmt(&self.as_str(), f)
    }
}

/// A float, kept as the text that spells it, such as `6.626e-34`, of any magnitude and never
/// rounded. (TOML, "Float".)
///
/// Floats are equal if their texts are: `1.0` and `1.00` differ. A contract sees a float as its
/// text.
///
/// # Examples
///
/// ```rust,ignore
/// match FloatText::from_text(alloc, text)? {
///     Some(float) => Ok(Some(Value::from(float))),
///     None => Ok(None),
/// }
/// ```
///
/// From `float_of` of the crate `example_calls`.
#[derive(Debug, Drop)]
pub struct FloatText {
    text: HeldText,
}

impl Model for FloatText {
    ghost use Rattle.std.specs.Prelude.{◌≡◌, true};
    ghost use Rattle.toml_edit_model.specs.Text.{Text};
    ghost use Rattle.toml_edit_laws.specs.reading.FloatReading.{is_float_text};
    ghost use Rattle.toml_edit_datetime.specs.HeldText.{held_text};

    ghost Value = { Text };

    ghost view = { λ a. held_text a.text };

    ghost invariant = { λ a. is_float_text (held_text a.text) ≡ true };
}

impl FloatText {
    /// Makes a float of the text that spells it.
    ///
    /// # Errors
    ///
    /// Returns the text if it spells no float.
    pub fn new(text: String) -> Result<FloatText, String>
        ensures cases { IsOk result ↔ IsFloat (string_bytes text) }
        ensures ok { IfOk result (λ float. float ≡ string_bytes text) }
        ensures err { IfErr result (λ back. back ≡ text) }
    {
        if is_float(text.as_str()) {
            Ok(FloatText {
                text: HeldText::Long(text),
            })
        } else {
            Err(text)
        }
    }

    /// Makes a float of a copy of the text that spells it, or returns `None` if the text spells
    /// none.
    ///
    /// # Errors
    ///
    /// Returns an `AllocError` if out of memory.
    pub fn from_text(alloc: Global, text: &str) -> Result<Option<FloatText>, AllocError>
        ensures float { IfOk result (λ o. IsSome o ↔ IsFloat text.now) }
        ensures same { IfOk result
            (λ o. o ≡ (if spec.is_float_text text.now then Some text.now else None)) }
    {
        if !is_float(text) {
            return Ok(None);
        }
        Ok(Some(FloatText {
            text: HeldText::from_text(alloc, text)?,
        }))
    }

    /// Returns the text that spells the float.
    pub fn as_str(&self) -> &str
        ensures text { result.now ≡ self.now }
        ensures float { IsFloat self.now }
    {
        self.text.as_str()
    }

    /// Returns an equal copy.
    ///
    /// # Errors
    ///
    /// Returns an `AllocError` if out of memory.
    pub fn clone(&self, alloc: Global) -> Result<FloatText, AllocError>
        ensures { IfOk result (λ copy. copy ≡ self.now) }
    {
        Ok(FloatText {
            text: HeldText::from_text(alloc, self.as_str())?,
        })
    }
}

/// Writes the text of the float.
impl fmt::Display for FloatText {
    ghost output = { λ float. Some float };

    fn fmt<W: fmt::Write>(&self, f: &mut fmt::Formatter<W>) -> fmt::Result {
        fmt::Display::fmt(&self.as_str(), f)
    }
}

impl PartialEq for FloatText {
    ghost eq = { pointwise nat_eq };

    ghost laws = { partial_equiv_from_equiv nat_list_eq_equiv };

    fn eq(&self, other: &FloatText) -> bool {
        self.as_str() == other.as_str()
    }
}

impl Eq for FloatText {
    ghost laws = { nat_list_eq_equiv };
}

impl Hash for FloatText {
    ghost hash_input = { fed.str };

    ghost respects_eq = { Prim.search (hashing, rules) };

    fn hash<H: Hasher>(&self, state: &mut H) {
        self.as_str().hash(state);
    }
}
