//! What is wrong with a text that is outside the grammar.
ghost use Rattle.std.specs.Prelude.{◌≡◌, Contains};
ghost use Rattle.toml_edit_model.specs.Messages.{syntax_messages};
ghost use Rattle.toml_edit_syntax.specs.Faults.{syntax_message};

use toml_edit_token::run::{byte_at, first_byte};
use toml_edit_token::string_stop;

/// What is wrong where a text leaves the grammar.
#[derive(Clone, Copy, Debug, PartialEq, Eq)]
pub enum Mistake {
    /// A character that cannot be there.
    UnexpectedCharacter,
    /// A key is missing.
    ExpectedKey,
    /// The sign `=` after a key is missing.
    ExpectedEquals,
    /// A value is missing.
    ExpectedValue,
    /// A statement does not end with its line.
    ExpectedNewline,
    /// A string does not end.
    UnclosedString,
    /// An array does not end.
    UnclosedArray,
    /// An inline table does not end.
    UnclosedInlineTable,
    /// The brackets of a header are not closed.
    UnclosedHeader,
    /// An escape that does not exist.
    InvalidEscape,
    /// Digits that are not a number.
    InvalidNumber,
    /// Digits that begin as a date or a time does, and are not one.
    InvalidDateTime,
    /// A control character.
    ControlCharacter,
    /// A carriage return (CR) that no line feed (LF) follows.
    CarriageReturn,
}

impl Mistake {
    /// Returns the message of the error.
    pub fn message(self) -> &'static str
        ensures message { result.now ≡ syntax_message self }
        // It is one of the listed messages.
        ensures listed { Contains syntax_messages result.now }
    {
        match self {
            Mistake::UnexpectedCharacter => "unexpected character",
            Mistake::ExpectedKey => "expected a key",
            Mistake::ExpectedEquals => "expected =",
            Mistake::ExpectedValue => "expected a value",
            Mistake::ExpectedNewline => "expected a newline",
            Mistake::UnclosedString => "unclosed string",
            Mistake::UnclosedArray => "unclosed array",
            Mistake::UnclosedInlineTable => "unclosed inline table",
            Mistake::UnclosedHeader => "unclosed header",
            Mistake::InvalidEscape => "invalid escape",
            Mistake::InvalidNumber => "invalid number",
            Mistake::InvalidDateTime => "invalid date-time",
            Mistake::ControlCharacter => "control character",
            Mistake::CarriageReturn => "carriage return without line feed",
        }
    }
}

/// Returns what is wrong where `s` goes on: a character that is allowed nowhere, or else
/// `otherwise`.
#[inline(never)]
pub(crate) fn mistake_at(s: &str, otherwise: Mistake) -> Mistake {
    match first_byte(s) {
        _ if s.is_empty() => otherwise,
        b'\r' if byte_at(s, 1) != b'\n' => Mistake::CarriageReturn,
        0x00..=0x08 | 0x0B..=0x0C | 0x0E..=0x1F | 0x7F => Mistake::ControlCharacter,
        _ => otherwise,
    }
}

/// Returns what is wrong where `s` should go on with a key, and how many bytes are left there.
#[inline(never)]
pub(crate) fn no_key(s: &str) -> (Mistake, usize) {
    match first_byte(s) {
        b'"' | b'\'' => no_string(s),
        _ => (mistake_at(s, Mistake::ExpectedKey), s.len()),
    }
}

/// Returns what is wrong where `s` should go on with a scalar, and how many bytes are left there.
#[inline(never)]
pub(crate) fn no_scalar(s: &str) -> (Mistake, usize) {
    match first_byte(s) {
        b'"' | b'\'' => no_string(s),
        b'0'..=b'9' if is_dated(s) => (Mistake::InvalidDateTime, s.len()),
        b'0'..=b'9' | b'+' | b'-' => (Mistake::InvalidNumber, s.len()),
        _ => (mistake_at(s, Mistake::ExpectedValue), s.len()),
    }
}

/// Returns what is wrong where `rest` goes on after the value at the front of `value`, and how many
/// bytes are left there. A date with slashes is marked as a whole, since its year is read as a
/// number.
#[inline(never)]
pub(crate) fn behind_value(value: &str, rest: &str, otherwise: Mistake) -> (Mistake, usize) {
    if first_byte(rest) == b'/' && is_dated(value) {
        return (Mistake::InvalidDateTime, value.len());
    }
    (mistake_at(rest, otherwise), rest.len())
}

/// Returns `true` if `s` begins as a date does, by a year and `-` or `/`, or as a time does, by an
/// hour and `:`.
fn is_dated(s: &str) -> bool {
    let digits = s
        .as_bytes()
        .iter()
        .take_while(|b| b.is_ascii_digit())
        .count();
    match byte_at(s, digits) {
        b'-' | b'/' => digits == 4,
        b':' => digits == 1 || digits == 2,
        _ => false,
    }
}

/// Returns what is wrong in the string that opens at the front of `s`, and how many bytes are left
/// there. One that does not end is marked where it opens.
fn no_string(s: &str) -> (Mistake, usize) {
    let stop = string_stop(s);
    if first_byte(stop) == b'\\' {
        return (Mistake::InvalidEscape, stop.len());
    }
    match mistake_at(stop, Mistake::UnclosedString) {
        Mistake::UnclosedString => (Mistake::UnclosedString, s.len()),
        mistake => (mistake, stop.len()),
    }
}
