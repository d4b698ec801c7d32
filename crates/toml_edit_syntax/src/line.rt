//! Trivia (whitespace, newlines and comments), the sign `=`, and the end of a line.
ghost use Rattle.std.specs.Prelude.{◌≡◌, ℕ, None, true, false, ◌+◌, ◌<◌, ◌≤◌, if◌then◌else◌, length, option_map, IfOk, IfSome};
ghost use Rattle.std.specs.List.{prefix_len};
ghost use Rattle.std.specs.Str.{IsCharBoundary};
ghost use Rattle.toml_edit_model.specs.Trivia.{is_visible};
ghost use Rattle.toml_edit_syntax.specs.Gives.{Adds};
ghost use Rattle.toml_edit_syntax.specs.Scanning as spec;
ghost use Rattle.toml_edit_syntax.specs.Scanning.{turn};
ghost use Rattle.toml_edit_syntax.specs.StatementReading as read;

use crate::event::{Event, EventKind};
use crate::lexer::{Stop, new_event};
use crate::mistake::{Mistake, behind_value};
use toml_edit_token::run::{
    Class, byte_at, first_byte, is_blank, is_visible, run_len, skip, split_run,
};

/// Returns whether trivia is inside a comment after this byte, or `None` if the trivia ends before
/// it.
fn state_after(inside: bool, byte: u8, next: u8) -> Option<bool>
    ensures { result ≡ spec.turn inside byte next }
{
    if inside && is_visible(byte) || !inside && is_blank(byte) {
        Some(inside)
    } else if byte == b'\n' || (byte == b'\r' && next == b'\n') {
        Some(false)
    } else if !inside && byte == b'#' {
        Some(true)
    } else {
        None
    }
}

/// Returns how far a comment goes on, inside one.
fn comment_len(inside: bool, bytes: &[u8]) -> usize
    ensures len { result ≡ (if inside then prefix_len is_visible bytes.now else 0) }
    ensures within { result ≤ length bytes.now }
{
    if inside {
        run_len(bytes, Class::Visible)
    } else {
        0
    }
}

/// Returns `true` if no trivia begins with the byte.
pub(crate) fn is_solid(byte: u8) -> bool
    ensures { (next : ℕ) → result ≡ true → turn false byte next ≡ None }
{
    byte > b' ' && byte != b'#'
}

/// Returns how many bytes of trivia are at the front, and whether they stop inside a comment.
#[inline(always)]
pub(crate) fn trivia(s: &str) -> (usize, bool)
    ensures value { result ≡ spec.scan false s.now }
    ensures within { result.0 ≤ length s.now }
    ensures boundary { IsCharBoundary s.now result.0 }
{
    // Mostly there is none.
    if is_solid(first_byte(s)) {
        return (0, false);
    }
    long_trivia(s)
}

/// Returns the same as [`trivia`], byte by byte.
fn long_trivia(s: &str) -> (usize, bool)
    ensures value { result ≡ spec.scan false s.now }
    ensures within { result.0 ≤ length s.now }
    ensures boundary { IsCharBoundary s.now result.0 }
{
    let bytes = s.as_bytes();
    let mut at: usize = 0;
    let mut inside = false;
    'bytes: while at < bytes.len() {
        match state_after(inside, bytes[at], byte_at(s, at + 1)) {
            Some(state) => inside = state,
            None => return (at, inside),
        }
        at += 1;
        at += comment_len(inside, &bytes[at..]);
    }
    (bytes.len(), inside)
}

/// Splits off the whitespace before `=` and the whitespace after it.
#[tactic(auto, unfolding(crate::specs::Scanning::equals_at))]
pub(crate) fn equals(s: &str) -> Option<((&str, &str), &str)>
    ensures value { option_map (λ p. ((p.0.0.now, p.0.1.now), p.1.now)) result
        ≡ spec.equals_at s.now }
    ensures lens { IfSome result
        (λ p. length p.0.0.now + 1 + length p.0.1.now + length p.1.now ≡ length s.now) }
{
    let (before, rest) = split_run(s, Class::Blank);
    if first_byte(rest) != b'=' {
        return None;
    }
    let (after, rest) = split_run(skip(rest, 1), Class::Blank);
    Some(((before, after), rest))
}

/// Returns the text after whitespace and a comment.
#[tactic(auto, unfolding(crate::specs::Scanning::line_end_rest))]
#[inline(always)]
fn after_line_end(s: &str) -> &str
    ensures rest { result.now ≡ spec.line_end_rest s.now }
    ensures within { length result.now ≤ length s.now }
{
    let (_, rest) = split_run(s, Class::Blank);
    if first_byte(rest) == b'#' {
        split_run(skip(rest, 1), Class::Visible).1
    } else {
        rest
    }
}

/// Returns the text after a newline, or the empty one at the end, or `None` elsewhere.
#[tactic(auto, unfolding(crate::specs::Scanning::newline_rest))]
fn after_newline(s: &str) -> Option<&str>
    ensures value { option_map (λ r. r.now) result ≡ spec.newline_rest s.now }
    ensures within { IfSome result (λ r. length r.now ≤ length s.now) }
{
    if first_byte(s) == b'\n' {
        Some(skip(s, 1))
    } else if first_byte(s) == b'\r' && byte_at(s, 1) == b'\n' {
        Some(skip(s, 2))
    } else if s.is_empty() {
        Some(s)
    } else {
        None
    }
}

/// Adds what follows the value of a line, or the brackets of a header, which are at the front of
/// `value`.
#[inline(always)]
pub(crate) fn push_line_end<'a>(
    events: &mut Vec<Event>,
    whole: usize,
    value: &str,
    s: &'a str,
) -> Result<&'a str, Stop>
    requires { length s.now ≤ whole }
    ensures adds { Adds events.old.items events.new.items result (read.end_read whole s.now) }
    ensures within { IfOk result (λ r. length r.now ≤ length s.now) }
{
    let behind = after_line_end(s);
    let Some(rest) = after_newline(behind) else {
        let (mistake, left) = behind_value(value, behind, Mistake::ExpectedNewline);
        return Err(Stop::Before(mistake, left));
    };
    events.push(new_event(EventKind::LineEnd, whole - s.len(), whole - behind.len()))?;
    Ok(rest)
}
