//! Decoding the spellings of keys and scalars.
ghost use Rattle.std.specs.Prelude.{◌≡◌, ℤ, false, None, Some, IfOk, IfSome, IsSomeAnd, MatchOption, option_map, string_bytes, slice_index};
ghost use Rattle.toml_edit_laws.specs.reading.Runs.{is_word_byte};
ghost use Rattle.std.specs.Cow.{cow_str_bytes};
ghost use Rattle.toml_edit_model.specs.Text.{Text};
ghost use Rattle.toml_edit_model.specs.Scalars as scalars;
ghost use Rattle.toml_edit_model.specs.Spelling.{SpellsKey, Spells, is_in_range};
ghost use Rattle.toml_edit_token.specs.Decoded.{scalar_view, IsSpelling};
ghost use Rattle.toml_edit_laws.specs.reading.ScalarReading as scalar;
ghost use Rattle.toml_edit_laws.specs.reading.DatetimeReading.{datetime_of};
ghost use Rattle.toml_edit_datetime.specs.DatetimeView.{datetime_view};
ghost use Rattle.toml_edit_laws.specs.reading.Tokens as spec;

use crate::block_string::read_block;
use crate::number;
use crate::run::{Class, first_byte, is_bare, is_word, split_run};
use crate::string::decode_string;
use crate::token::opens_block;
use std::alloc::{AllocError, Global};
use std::borrow::CowStr;
use std::str::FromStr;
use toml_edit_datetime::{Datetime, FloatText};

/// A scalar without its spelling.
#[derive(Debug, Drop)]
pub enum Scalar {
    String(String),
    Integer(i64),
    Float(FloatText),
    Boolean(bool),
    Datetime(Datetime),
}

/// Returns the name of the simple key that the text spells, or `None` if it spells none. Fails if
/// out of memory.
pub fn decode_key(alloc: Global, text: &str) -> Result<Option<String>, AllocError>
    ensures found { IfOk result (λ o. IfSome o (λ s. SpellsKey (string_bytes s) text.now)) }
    ensures only { IfOk result
        (λ o. (k : Text) → SpellsKey k text.now → IsSomeAnd o (λ s. k ≡ string_bytes s)) }
{
    read_key(alloc, text)
}

/// Returns the name of the simple key that the text spells, or `None` if it spells none. The name of
/// a bare key is the text itself, which is not copied. Fails if out of memory.
pub fn decode_name<'a>(alloc: Global, text: &'a str) -> Result<Option<CowStr<'a>>, AllocError>
    ensures found { IfOk result (λ o. IfSome o (λ n. SpellsKey (cow_str_bytes n) text.now)) }
    ensures only { IfOk result
        (λ o. (k : Text) → SpellsKey k text.now → IsSomeAnd o (λ n. k ≡ cow_str_bytes n)) }
{
    read_name(alloc, text)
}

/// Returns the scalar that the text spells, or an `AllocError` if out of memory.
///
/// Returns `None` if the text spells no scalar, or one out of range: an integer that 64 bits do not
/// hold, or a date, a time or an offset that does not exist.
pub fn decode_scalar(alloc: Global, text: &str) -> Result<Option<Scalar>, AllocError>
    ensures found { IfOk result (λ o. IfSome o (λ x. IsSpelling text.now (scalar_view x))) }
    // What the text spells is that scalar; if there is none, it is out of range.
    ensures only { IfOk result (λ o. (s : scalars.Scalar) → Spells s text.now
        → MatchOption o (is_in_range s text.now ≡ false) (λ x. s ≡ scalar_view x)) }
{
    read_scalar(alloc, text)
}

/// Does what [`decode_scalar`] does, for a text in which [`decode_integer`] found none.
pub fn decode_other(alloc: Global, text: &str) -> Result<Option<Scalar>, AllocError>
    requires no_integer { spec.fitting (spec.integer_of text.now) ≡ None }
    ensures found { IfOk result (λ o. IfSome o (λ x. IsSpelling text.now (scalar_view x))) }
    ensures only { IfOk result (λ o. (s : scalars.Scalar) → Spells s text.now
        → MatchOption o (is_in_range s text.now ≡ false) (λ x. s ≡ scalar_view x)) }
{
    read_other(alloc, text)
}

/// Returns the integer that the text spells, or `None` if it spells none, or one that 64 bits do
/// not hold.
pub fn decode_integer(text: &str) -> Option<i64>
    ensures found { IfSome result (λ z. IsSpelling text.now (scalars.integer z)) }
    // What the text spells is that integer; if there is none, it is no integer, or out of range.
    ensures only { (s : scalars.Scalar) → Spells s text.now
        → MatchOption result ((z : ℤ) → s ≡ scalars.integer z → is_in_range s text.now ≡ false)
        (λ z. s ≡ scalars.integer z) }
    ensures value { result ≡ spec.fitting (spec.integer_of text.now) }
{
    number::decode_integer(text.as_bytes())
}

/// Decodes a text that is a simple key.
#[tactic(auto, unfolding(toml_edit_laws::specs::reading::Tokens::key_at))]
fn read_key(alloc: Global, text: &str) -> Result<Option<String>, AllocError>
    ensures { IfOk result (λ o. option_map string_bytes o ≡ spec.whole (spec.key_at text.now)) }
{
    if !is_bare(first_byte(text)) {
        return decode_string(alloc, text);
    }
    let (name, rest) = split_run(text, Class::Bare);
    if rest.is_empty() {
        Ok(Some(String::from_str(alloc, name)?))
    } else {
        Ok(None)
    }
}

/// Decodes a text that is a simple key, without a copy of a bare one.
#[tactic(auto, unfolding(toml_edit_laws::specs::reading::Tokens::key_at))]
fn read_name<'a>(alloc: Global, text: &'a str) -> Result<Option<CowStr<'a>>, AllocError>
    ensures { IfOk result
        (λ o. option_map cow_str_bytes o ≡ spec.whole (spec.key_at text.now)) }
{
    if !is_bare(first_byte(text)) {
        return match decode_string(alloc, text)? {
            Some(name) => Ok(Some(CowStr::Owned(name))),
            None => Ok(None),
        };
    }
    let (name, rest) = split_run(text, Class::Bare);
    if rest.is_empty() {
        Ok(Some(CowStr::Borrowed(name)))
    } else {
        Ok(None)
    }
}

/// Decodes a text that is a scalar.
fn read_scalar(alloc: Global, text: &str) -> Result<Option<Scalar>, AllocError>
    ensures { IfOk result
        (λ o. option_map scalar_view o
        ≡ spec.ranged text.now (spec.whole (scalar.scalar_at text.now))) }
{
    match decode_integer(text) {
        Some(integer) => integer_read(integer),
        None => read_other(alloc, text),
    }
}

/// Decodes a text that is a scalar, and no integer in range.
#[tactic(auto, unfolding(toml_edit_laws::specs::reading::ScalarReading::scalar_at))]
fn read_other(alloc: Global, text: &str) -> Result<Option<Scalar>, AllocError>
    requires no_integer { spec.fitting (spec.integer_of text.now) ≡ None }
    ensures { IfOk result
        (λ o. option_map scalar_view o
        ≡ spec.ranged text.now (spec.whole (scalar.scalar_at text.now))) }
{
    if is_word(first_byte(text)) {
        return read_word(alloc, text);
    }
    read_string(alloc, text)
}

/// Decodes a text that is a string.
#[inline(never)]
#[tactic(auto, unfolding(toml_edit_laws::specs::reading::ScalarReading::scalar_at))]
fn read_string(alloc: Global, text: &str) -> Result<Option<Scalar>, AllocError>
    requires { is_word_byte (slice_index text.now 0) ≡ false }
    ensures { IfOk result
        (λ o. option_map scalar_view o
        ≡ spec.ranged text.now (spec.whole (scalar.scalar_at text.now))) }
{
    let value = if opens_block(text) {
        read_block(alloc, text)?
    } else {
        decode_string(alloc, text)?
    };
    match value {
        Some(value) => Ok(Some(Scalar::String(value))),
        None => Ok(None),
    }
}

/// Returns the result for this integer. A call writes it where the caller wants it, and spares the
/// copies that a value made in place has.
#[inline(never)]
fn integer_read(integer: i64) -> Result<Option<Scalar>, AllocError>
    ensures { IfOk result (λ o. option_map scalar_view o ≡ Some (scalars.integer integer)) }
{
    Ok(Some(Scalar::Integer(integer)))
}

/// Returns the result for this boolean, as [`integer_read`].
#[inline(never)]
fn boolean_read(boolean: bool) -> Result<Option<Scalar>, AllocError>
    ensures { IfOk result (λ o. option_map scalar_view o ≡ Some (scalars.boolean boolean)) }
{
    Ok(Some(Scalar::Boolean(boolean)))
}

/// Decodes a word that is a boolean, a float, a date or a time, if it is in range. It is apart from
/// strings because its locals are large.
#[inline(never)]
#[tactic(auto, unfolding(toml_edit_laws::specs::reading::ScalarReading::word_scalar))]
fn read_word(alloc: Global, word: &str) -> Result<Option<Scalar>, AllocError>
    requires no_integer { spec.fitting (spec.integer_of word.now) ≡ None }
    ensures { IfOk result
        (λ o. option_map scalar_view o ≡ spec.ranged word.now (scalar.word_scalar word.now)) }
{
    if let Some(float) = FloatText::from_text(alloc, word)? {
        return Ok(Some(Scalar::Float(float)));
    }
    if word == "true" {
        return boolean_read(true);
    }
    if word == "false" {
        return boolean_read(false);
    }
    match read_datetime(word) {
        Some(datetime) => Ok(Some(Scalar::Datetime(datetime))),
        None => Ok(None),
    }
}

/// Decodes a word that is a date or a time, if it is in range.
fn read_datetime(word: &str) -> Option<Datetime>
    ensures { option_map (λ d. scalars.datetime (datetime_view d)) result
        ≡ spec.ranged word.now (option_map (λ d. scalars.datetime d) (datetime_of word.now)) }
{
    Datetime::from_str(word).ok()
}
