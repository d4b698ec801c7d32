//! Strings of one line. (TOML, "String".)
ghost use Rattle.std.specs.Prelude.{◌≡◌, ℕ, Some, ◌<◌, ◌≤◌, length, string_bytes, option_map, IfOk, IfSome};
ghost use Rattle.toml_edit_laws.specs.reading.Tokens as spec;

use crate::run::{Class, first_byte, skip, split_run};
use std::alloc::{AllocError, Global};

/// Splits off a literal string, after its opening quote, and returns what it means.
#[tactic(auto, unfolding(toml_edit_laws::specs::reading::Tokens::literal_at))]
pub(crate) fn literal(s: &str) -> Option<(&str, &str)>
    ensures value { option_map (λ p. (p.0.now, p.1.now)) result ≡ spec.literal_at s.now }
    ensures within { IfSome result (λ p. length p.1.now ≤ length s.now) }
{
    let (value, rest) = split_run(s, Class::Literal);
    if first_byte(rest) == b'\'' {
        Some((value, skip(rest, 1)))
    } else {
        None
    }
}

/// Returns the text after a basic string whose opening quote is just before `s`.
fn after_basic(s: &str) -> Option<&str>
    ensures rest { (n : ℕ) → length s.now < n
        → option_map (λ r. r.now) result ≡ option_map (λ p. p.1) (spec.basic_at n s.now) }
    ensures within { IfSome result (λ r. length r.now ≤ length s.now) }
{
    let mut rest = s;
    'parts: loop {
        let (_, after) = split_run(rest, Class::Plain);
        let byte = first_byte(after);
        if byte == b'"' {
            return Some(skip(after, 1));
        }
        if byte != b'\\' {
            return None;
        }
        let (_, next) = escape(skip(after, 1))?;
        rest = next;
    }
}

/// Returns the text where a basic string cannot go on, whose opening quote is just before `s`:
/// before its closing quote, an escape that does not exist, a character that may not be in it, or
/// the end of the text.
pub(crate) fn basic_stop(s: &str) -> &str
    ensures within { length result.now ≤ length s.now }
{
    let mut rest = s;
    'parts: loop {
        let (_, after) = split_run(rest, Class::Plain);
        if first_byte(after) != b'\\' {
            return after;
        }
        match escape(skip(after, 1)) {
            Some((_, next)) => rest = next,
            None => return after,
        }
    }
}

/// Splits off an escape, after its backslash, and returns its character.
#[tactic(auto, unfolding(toml_edit_laws::specs::reading::Tokens::escape_at))]
pub(crate) fn escape(s: &str) -> Option<(char, &str)>
    ensures value { option_map (λ p. (p.0, p.1.now)) result ≡ spec.escape_at s.now }
    ensures within { IfSome result (λ p. length p.1.now ≤ length s.now) }
{
    let c = match first_byte(s) {
        b'x' => return hex(skip(s, 1), 2),
        b'u' => return hex(skip(s, 1), 4),
        b'U' => return hex(skip(s, 1), 8),
        b'b' => '\u{8}',
        b'e' => '\u{1b}',
        b'f' => '\u{c}',
        b'n' => '\n',
        b'r' => '\r',
        b't' => '\t',
        b'"' => '"',
        b'\\' => '\\',
        _ => return None,
    };
    Some((c, skip(s, 1)))
}

/// Splits off `len` hexadecimal digits, and returns the character of that number.
#[tactic(auto, unfolding(toml_edit_laws::specs::reading::Tokens::hex_at))]
fn hex(s: &str, len: usize) -> Option<(char, &str)>
    requires some { 0 < len }
    requires fits { len ≤ 8 }
    ensures value { option_map (λ p. (p.0, p.1.now)) result ≡ spec.hex_at len s.now }
    ensures within { IfSome result (λ p. length p.1.now ≤ length s.now) }
{
    let bytes = s.as_bytes();
    if bytes.len() < len {
        return None;
    }
    let value = hex_value(&bytes[..len])?;
    let c = char::from_u32(value)?;
    Some((c, skip(s, len)))
}

/// Returns the number that at most eight hexadecimal digits write.
fn hex_value(digits: &[u8]) -> Option<u32>
    requires { length digits.now ≤ 8 }
    ensures { result ≡ spec.hex_value digits.now }
{
    let mut value = 0u32;
    'digits: for byte in digits {
        let digit = char::from(*byte).to_digit(16)?;
        value = value * 16 + digit;
    }
    Some(value)
}

/// Returns the text after a basic or a literal string.
#[tactic(auto, unfolding(toml_edit_laws::specs::reading::Tokens::string_at))]
pub(crate) fn after_string(s: &str) -> Option<&str>
    ensures rest { option_map (λ r. r.now) result ≡ option_map (λ p. p.1) (spec.string_at s.now) }
    ensures within { IfSome result (λ r. length r.now ≤ length s.now) }
{
    match first_byte(s) {
        b'\'' => Some(literal(skip(s, 1))?.1),
        b'"' => after_basic(skip(s, 1)),
        _ => None,
    }
}

/// Returns what a basic string means that ends the text, and whose opening quote is just before
/// `s`.
#[inline(never)]
fn decode_basic(alloc: Global, s: &str) -> Result<Option<String>, AllocError>
    ensures { IfOk result
        (λ o. (n : ℕ) → length s.now < n
        → option_map string_bytes o ≡ spec.whole (spec.basic_at n s.now)) }
{
    // No escape means more bytes than it takes.
    let mut value = String::with_capacity(alloc, s.len())?;
    let mut rest = s;
    'parts: loop {
        let (plain, after) = split_run(rest, Class::Plain);
        value.push_str(plain)?;
        let byte = first_byte(after);
        if byte == b'"' {
            return Ok(if skip(after, 1).is_empty() {
                Some(value)
            } else {
                None
            });
        }
        if byte != b'\\' {
            return Ok(None);
        }
        let Some((c, next)) = escape(skip(after, 1)) else {
            return Ok(None);
        };
        value.push(c)?;
        rest = next;
    }
}

/// Returns what a basic string means that has no escape and ends the text, and whose opening quote
/// is just before `s`.
#[inline(always)]
fn plain_body(s: &str) -> Option<&str>
    ensures { IfSome result
        (λ v. (n : ℕ) → length s.now < n → Some v.now ≡ spec.whole (spec.basic_at n s.now)) }
{
    let (value, rest) = split_run(s, Class::Plain);
    if rest.len() == 1 && first_byte(rest) == b'"' {
        Some(value)
    } else {
        None
    }
}

/// Returns what a text means that is a basic or a literal string.
#[tactic(auto, unfolding(toml_edit_laws::specs::reading::Tokens::string_at))]
pub(crate) fn decode_string(alloc: Global, s: &str) -> Result<Option<String>, AllocError>
    ensures { IfOk result (λ o. option_map string_bytes o ≡ spec.whole (spec.string_at s.now)) }
{
    match first_byte(s) {
        b'\'' => match literal(skip(s, 1)) {
            Some((value, rest)) if rest.is_empty() => Ok(Some(String::from_str(alloc, value)?)),
            _ => Ok(None),
        },
        b'"' => match plain_body(skip(s, 1)) {
            Some(value) => Ok(Some(String::from_str(alloc, value)?)),
            None => decode_basic(alloc, skip(s, 1)),
        },
        _ => Ok(None),
    }
}
