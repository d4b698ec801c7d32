//! Strings of several lines. (TOML, "String".)
ghost use Rattle.std.specs.Prelude.{◌≡◌, ℕ, ◌<◌, ◌≤◌, length, drop, option_map, string_bytes, IfOk, IfSome, MatchOption};
ghost use Rattle.toml_edit_laws.specs.reading.Tokens.{whole};
ghost use Rattle.toml_edit_laws.specs.reading.BlockReading as spec;
ghost use Rattle.toml_edit_token.specs.BlockPieces as pieces;

use crate::run::{Class, byte_at, first_byte, has_line_feed, is_blank, skip, split_run};
use crate::string::escape;
use std::alloc::{AllocError, Global};

/// The form of a string of several lines.
#[derive(Clone, Copy)]
enum Form {
    /// Between double quotes, with escapes.
    Basic,
    /// Between single quotes.
    Literal,
}

/// The next piece of a string of several lines.
#[derive(Drop)]
enum Piece<'a> {
    /// Text that means itself.
    Own(&'a str),
    /// A character, or nothing where a backslash drops whitespace and newlines.
    Escaped(Option<char>),
    /// Text that means itself, up to the closing quotes.
    Last(&'a str),
}

/// Returns the quote of the form.
fn delimiter(form: Form) -> u8
    ensures { result ≡ pieces.delimiter_of form }
{
    match form {
        Form::Basic => b'"',
        Form::Literal => b'\'',
    }
}

/// Returns the class of the bytes that mean themselves in the form.
fn class(form: Form) -> Class
    ensures { result ≡ pieces.class_of form }
{
    match form {
        Form::Basic => Class::Plain,
        Form::Literal => Class::Literal,
    }
}

/// Returns `true` if three of the delimiter are at the front.
fn has_three(s: &str, delimiter: u8) -> bool
    ensures { result ≡ spec.has_three delimiter s.now }
{
    first_byte(s) == delimiter && byte_at(s, 1) == delimiter && byte_at(s, 2) == delimiter
}

/// Returns the number of bytes of the newline at the front, or 0.
#[tactic(auto, unfolding(toml_edit_laws::specs::reading::BlockReading::newline_len))]
fn newline_len(s: &str) -> usize
    ensures { result ≡ spec.newline_len s.now }
{
    match first_byte(s) {
        b'\n' => 1,
        b'\r' if byte_at(s, 1) == b'\n' => 2,
        _ => 0,
    }
}

/// Returns the text after the newline at the front, or all of it.
fn behind_newline(s: &str) -> &str
    ensures rest { result.now ≡ drop (spec.newline_len s.now) s.now }
    ensures within { length result.now ≤ length s.now }
{
    let len = newline_len(s);
    if len > 0 { skip(s, len) } else { s }
}

/// Returns how many delimiters are at the front.
fn quote_len(bytes: &[u8], delimiter: u8) -> usize
    ensures { result ≡ spec.run_of delimiter bytes.now }
{
    bytes.iter().take_while(|b| **b == delimiter).count()
}

/// Returns `true` if `byte`, which `next` follows, is whitespace or part of a newline.
fn is_gap_byte(byte: u8, next: u8) -> bool
    ensures { result ≡ spec.is_gap_byte byte next }
{
    is_blank(byte) || byte == b'\n' || (byte == b'\r' && next == b'\n')
}

/// Returns how far whitespace and newlines go.
fn gap_len(s: &str) -> usize
    ensures len { result ≡ spec.gap_len s.now }
    ensures within { result ≤ length s.now }
{
    for i in 0..s.len() {
        if !is_gap_byte(byte_at(s, i), byte_at(s, i + 1)) {
            return i;
        }
    }
    s.len()
}

/// Splits off the opening of the string, with the newline after it, and returns the string's form.
#[tactic(auto, unfolding(crate::specs::BlockPieces::opening_at))]
fn split_opening(s: &str) -> Option<(Form, &str)>
    ensures value { option_map (λ p. (p.0, p.1.now)) result ≡ pieces.opening_at s.now }
    ensures within { IfSome result (λ p. length p.1.now < length s.now) }
{
    let form = if has_three(s, b'"') {
        Form::Basic
    } else if has_three(s, b'\'') {
        Form::Literal
    } else {
        return None;
    };
    Some((form, behind_newline(skip(s, 3))))
}

/// Splits off an escape, after its backslash. Returns its character, or nothing where it drops
/// whitespace and newlines.
#[tactic(auto, unfolding(toml_edit_laws::specs::reading::BlockReading::escaped_at))]
fn split_escape(s: &str) -> Option<(Option<char>, &str)>
    ensures value { option_map (λ p. (pieces.escaped_text p.0, p.1.now)) result
        ≡ spec.escaped_at s.now }
    ensures within { IfSome result (λ p. length p.1.now ≤ length s.now) }
{
    let len = gap_len(s);
    if has_line_feed(&s.as_bytes()[..len]) {
        return Some((None, skip(s, len)));
    }
    let (c, rest) = escape(s)?;
    Some((Some(c), rest))
}

/// Splits off the next piece of a string of this form, or returns `None` if no string goes on so.
///
/// A run of bytes is in one piece with the quotes or the newline behind it, since each piece is
/// looked for and copied by itself. Inlined, so that a piece is never moved.
#[inline(always)]
fn next_piece(form: Form, s: &str) -> Option<(Piece<'_>, &str)>
    ensures piece { (n : ℕ) → length s.now < n
        → MatchOption result (pieces.form_at form n s.now ≡ None)
        (λ p. pieces.ReadsPiece form (pieces.form_at form n s.now) p.0 p.1.now) }
    ensures within { IfSome result (λ p. length p.1.now < length s.now) }
{
    let (own, rest) = split_run(s, class(form));
    let quotes = quote_len(rest.as_bytes(), delimiter(form));
    if quotes >= 3 {
        let end = quotes.min(5);
        let (own, _) = s.split_at(own.len() + end - 3);
        return Some((Piece::Last(own), skip(rest, end)));
    }
    if quotes > 0 {
        let (own, rest) = s.split_at(own.len() + quotes);
        return Some((Piece::Own(own), rest));
    }
    let newline = newline_len(rest);
    if newline > 0 {
        let (own, rest) = s.split_at(own.len() + newline);
        return Some((Piece::Own(own), rest));
    }
    if !own.is_empty() {
        return Some((Piece::Own(own), rest));
    }
    if first_byte(s) != b'\\' {
        return None;
    }
    match form {
        Form::Literal => None,
        Form::Basic => {
            let (c, rest) = split_escape(skip(s, 1))?;
            Some((Piece::Escaped(c), rest))
        }
    }
}

/// Returns the text after the string of several lines at the front, or `None` if there is none.
pub(crate) fn after_block(s: &str) -> Option<&str>
    ensures rest { option_map (λ r. r.now) result ≡ option_map (λ p. p.1) (spec.block_at s.now) }
    ensures within { IfSome result (λ r. length r.now ≤ length s.now) }
{
    let (form, mut rest) = split_opening(s)?;
    'pieces: loop {
        let (piece, next) = next_piece(form, rest)?;
        if let Piece::Last(_) = piece {
            return Some(next);
        }
        rest = next;
    }
}

/// Returns the text where the string of several lines that opens here cannot go on: at an escape
/// that does not exist, at a character that may not be in it, after its closing quotes, or at the
/// end of the text.
pub(crate) fn block_stop(s: &str) -> &str
    ensures within { length result.now ≤ length s.now }
{
    let Some((form, mut rest)) = split_opening(s) else {
        return s;
    };
    'pieces: loop {
        match next_piece(form, rest) {
            Some((Piece::Last(_), next)) => return next,
            Some((_, next)) => rest = next,
            None => return rest,
        }
    }
}

/// Returns what a text means that is a string of several lines.
// Not inlined, so that the caller does not clear these locals for other scalars.
#[inline(never)]
pub(crate) fn read_block(alloc: Global, text: &str) -> Result<Option<String>, AllocError>
    ensures { IfOk result (λ o. option_map string_bytes o ≡ whole (spec.block_at text.now)) }
{
    let Some((form, mut rest)) = split_opening(text) else {
        return Ok(None);
    };
    // No piece means more bytes than it takes.
    let mut value = String::with_capacity(alloc, text.len())?;
    'pieces: loop {
        let Some((piece, next)) = next_piece(form, rest) else {
            return Ok(None);
        };
        match piece {
            Piece::Own(own) => value.push_str(own)?,
            Piece::Escaped(Some(c)) => value.push(c)?,
            Piece::Escaped(None) => {}
            Piece::Last(own) => {
                value.push_str(own)?;
                return Ok(if next.is_empty() { Some(value) } else { None });
            }
        }
        rest = next;
    }
}
