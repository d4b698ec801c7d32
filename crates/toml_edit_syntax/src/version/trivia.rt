//! Late parts of the trivia of an inline table: newlines and comments (TOML 1.1.0, "Inline Table").
ghost use Rattle.std.specs.Prelude.{◌≡◌, ◌≤◌, ◌+◌, ◌<◌, ◌^◌, length};
ghost use Rattle.std.specs.List.{prefix_len};
ghost use Rattle.toml_edit_syntax.specs.LateTrivia as spec;

use crate::event::Span;

/// Returns the number of bytes before the first newline.
fn line_len(bytes: &[u8]) -> usize
    ensures len { result ≡ prefix_len spec.is_in_line bytes.now }
    ensures within { result ≤ length bytes.now }
{
    bytes
        .iter()
        .take_while(|byte| **byte != b'\n' && **byte != b'\r')
        .count()
}

/// Returns the first newline or comment of trivia that begins at this byte.
pub(crate) fn late_in_trivia(start: usize, text: &str) -> Option<Span>
    requires { start + length text.now < 2 ^ 64 }
    ensures { result ≡ spec.late_in_trivia start text.now }
{
    let mut at = start;
    let mut rest = text.as_bytes();
    'bytes: while let [first, tail @ ..] = rest {
        let size = match rest {
            [b'\n', ..] => 1,
            [b'\r', b'\n', ..] => 2,
            [b'#', body @ ..] => 1 + line_len(body),
            _ => 0,
        };
        if size > 0 {
            return Some(Span {
                start: at,
                end: at + size,
            });
        }
        rest = tail;
        at += 1;
    }
    None
}
