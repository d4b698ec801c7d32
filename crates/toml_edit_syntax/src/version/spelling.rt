//! Late parts of spellings: escapes of strings and keys (TOML 1.1.0, "String"), and times without
//! seconds (TOML 1.1.0, "Local Time").
ghost use Rattle.std.specs.Prelude.{◌≡◌, ◌+◌, ◌<◌, ◌^◌, length};
ghost use Rattle.toml_edit_syntax.specs.LateSpellings as spec;

use crate::event::Span;
use toml_edit_datetime::is_datetime;

/// Returns the late escape whose backslash is at this byte, before these bytes, if it is one: `\e`,
/// or `\x` and two digits. If the second byte is ASCII, as each digit is, the escape ends where a
/// character does.
fn escape_at(at: usize, behind: &[u8]) -> Option<Span>
    requires { at + length behind.now + 1 < 2 ^ 64 }
    ensures { result ≡ spec.escape_at at behind.now }
{
    match behind {
        [b'e', ..] => Some(Span {
            start: at,
            end: at + 2,
        }),
        [b'x', _, digit, ..] if *digit < 128 => Some(Span {
            start: at,
            end: at + 4,
        }),
        _ => None,
    }
}

/// Returns the first late escape of these bytes, of which the first is at this byte.
fn first_escape(start: usize, bytes: &[u8]) -> Option<Span>
    requires { start + length bytes.now < 2 ^ 64 }
    ensures { result ≡ spec.first_escape start bytes.now }
{
    let mut at = start;
    let mut rest = bytes;
    'bytes: while let [first, tail @ ..] = rest {
        if *first == b'\\' {
            if let Some(span) = escape_at(at, tail) {
                return Some(span);
            }
            let [_, behind @ ..] = tail else {
                return None;
            };
            rest = behind;
            at += 2;
        } else {
            rest = tail;
            at += 1;
        }
    }
    None
}

/// Returns the first late escape of a string or a key whose spelling begins at this byte. Escapes
/// are in double quotes alone.
pub(crate) fn late_escape(start: usize, text: &str) -> Option<Span>
    requires { start + length text.now < 2 ^ 64 }
    ensures { result ≡ spec.late_escape start text.now }
{
    match text.as_bytes() {
        [b'"', inside @ ..] => first_escape(start + 1, inside),
        _ => None,
    }
}

/// Returns `true` if the time in this spelling of a date or a time has no seconds.
fn lacks_seconds(text: &[u8]) -> bool
    ensures { result ≡ spec.lacks_seconds text.now }
{
    let clock = match text {
        [_, _, b':', ..] => 0,
        _ => 11,
    };
    clock < text.len() && !matches!(text.get(clock + 5), Some(b':'))
}

/// Returns the late part of a scalar whose spelling begins at this byte.
pub(crate) fn late_in_scalar(start: usize, text: &str) -> Option<Span>
    requires { start + length text.now < 2 ^ 64 }
    ensures { result ≡ spec.late_in_scalar start text.now }
{
    if !is_datetime(text) {
        return late_escape(start, text);
    }
    if lacks_seconds(text.as_bytes()) {
        return Some(Span {
            start,
            end: start + text.len(),
        });
    }
    None
}
