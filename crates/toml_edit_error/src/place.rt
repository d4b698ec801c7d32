//! Finding the line and the column of a place in a text, and what of the line is marked.
ghost use Rattle.std.specs.Prelude.{◌≡◌, ◌-◌, ◌≤◌, ◌==◌, max, min, suc, count_by, drop, length, take};
ghost use Rattle.std.specs.Str.{IsCharBoundary};
ghost use Rattle.toml_edit_model.specs.Excerpt.{characters, last_line_size, line_at, position_in};
ghost use Rattle.toml_edit_model.specs.Excerpt.{first_line as first_line_of};
ghost use Rattle.toml_edit_model.specs.Text.{line_feed};
ghost use Rattle.toml_edit_error.specs.Place.{cut_of};

use memchr::{memchr, memrchr};

/// The line that a span begins in, and the number of its characters that are marked.
#[derive(Drop)]
pub struct Place<'a> {
    /// The number of the line, from 1.
    pub line: usize,
    /// The number of the first marked character in its line, from 1.
    pub column: usize,
    /// The line without its newline.
    pub content: &'a str,
    /// The number of marked characters, at least one.
    pub marks: usize,
}

impl<'a> Place<'a> {
    /// Finds the line and the column of the bytes of the text from `start` up to `end`.
    pub fn new(text: &'a str, start: usize, end: usize) -> Place<'a>
        ensures line { result.line ≡ suc (position_in text.now start).line }
        ensures column { result.column ≡ suc (position_in text.now start).column }
        ensures content { result.content.now ≡ line_at (position_in text.now start).line text.now }
        ensures marks { let at = position_in text.now start in
            result.marks ≡ max 1 (min (characters (take (end - start) (drop start text.now)))
            (characters (line_at at.line text.now) - at.column)) }
    {
        let (line, column) = line_column(text, start);
        let content = line_around(text, start);
        let room = char_count(content).saturating_sub(column - 1);
        Place {
            line,
            column,
            content,
            marks: characters_between(text, start, end).min(room).max(1),
        }
    }
}

/// Returns the line and the column of a byte of the text, both from 1, columns in characters.
///
/// The end of the text is one column after its last character; a newline there belongs to the line
/// that it ends. A byte beyond the end counts as the end, one inside a character as the end of that
/// character. In the empty text each is at line 1, column 1.
pub fn line_column(text: &str, byte: usize) -> (usize, usize)
    ensures line { result.0 ≡ suc (position_in text.now byte).line }
    ensures column { result.1 ≡ suc (position_in text.now byte).column }
{
    let cut = byte_within(text, byte);
    let head = &text.as_bytes()[..cut];
    let before = &head[line_start(text, cut)..];
    // The end of the text is one column after the last character.
    let past = usize::from(cut < byte.min(text.len()));
    (newline_count(head) + 1, begun_count(before) + past + 1)
}

/// Returns the line that a byte is in, without its newline.
fn line_around(text: &str, byte: usize) -> &str
    ensures { result.now ≡ line_at (position_in text.now byte).line text.now }
{
    let start = line_start(text, byte_within(text, byte));
    first_line(&text[start..])
}

/// Returns the byte, or where the last character begins for the end of the text and beyond.
fn byte_within(text: &str, byte: usize) -> usize
    ensures within { result ≤ length text.now }
    ensures cut { result ≡ cut_of text.now byte }
{
    if byte < text.len() {
        byte
    } else {
        text.floor_char_boundary(text.len().saturating_sub(1))
    }
}

/// Returns where the line of a byte begins.
fn line_start(text: &str, byte: usize) -> usize
    requires { byte ≤ length text.now }
    ensures within { result ≤ byte }
    ensures boundary { IsCharBoundary text.now result }
    ensures start { result ≡ byte - last_line_size (take byte text.now) }
{
    match memrchr(b'\n', &text.as_bytes()[..byte]) {
        Some(newline) => newline + 1,
        None => 0,
    }
}

/// Returns the text before the first newline.
fn first_line(text: &str) -> &str
    ensures { result.now ≡ first_line_of text.now }
{
    match memchr(b'\n', text.as_bytes()) {
        Some(newline) => &text[..newline],
        None => text,
    }
}

/// Returns the number of newlines among the bytes.
fn newline_count(bytes: &[u8]) -> usize
    ensures { result ≡ count_by (λ c. c == line_feed) bytes.now }
{
    bytes.iter().filter(|byte| **byte == b'\n').count()
}

/// Returns the number of characters of a text.
fn char_count(text: &str) -> usize
    ensures { result ≡ characters text.now }
{
    text.chars().count()
}

/// Returns the number of characters that begin in the bytes, which may end inside one.
fn begun_count(bytes: &[u8]) -> usize
    ensures { result ≡ characters bytes.now }
{
    bytes
        .iter()
        .filter(|byte| !(**byte >= 0x80 && **byte < 0xC0))
        .count()
}

/// Returns the number of characters that begin in the bytes of the text from `start` up to `end`.
fn characters_between(text: &str, start: usize, end: usize) -> usize
    ensures { result ≡ characters (take (end - start) (drop start text.now)) }
{
    let end = end.min(text.len());
    let start = start.min(end);
    begun_count(&text.as_bytes()[start..end])
}
