//! Single bytes, classes of bytes and runs of them.
ghost use Rattle.std.specs.Prelude.{◌≡◌, ◌+◌, ◌-◌, ◌<◌, ◌≤◌, length, drop, slice_index};
ghost use Rattle.std.specs.List.{prefix_len};
ghost use Rattle.toml_edit_model.specs.Text.{line_feed, has_byte};
ghost use Rattle.toml_edit_model.specs.Trivia as trivia;
ghost use Rattle.toml_edit_model.specs.Spelling as spelling;
ghost use Rattle.toml_edit_laws.specs.reading.Runs.{is_word_byte, split_while};
ghost use Rattle.toml_edit_token.specs.Classes.{class_test};

use crate::lanes::{HALF_LANES, LANES, half_run, lanes_run};

/// Returns the byte at `index`, or 0 past the end.
pub(crate) fn byte_of(bytes: &[u8], index: usize) -> u8
    ensures { result ≡ slice_index bytes.now index }
{
    bytes.get(index).copied().unwrap_or(0)
}

/// Returns the byte at `index`, or 0 past the end.
pub fn byte_at(s: &str, index: usize) -> u8
    ensures { result ≡ slice_index s.now index }
{
    byte_of(s.as_bytes(), index)
}

/// Returns the first byte, or 0.
pub fn first_byte(s: &str) -> u8
    ensures { result ≡ slice_index s.now 0 }
{
    byte_at(s, 0)
}

/// Returns the text after the first `n` bytes, of which the last is ASCII.
pub fn skip(s: &str, n: usize) -> &str
    requires some { 0 < n }
    requires there { 0 < slice_index s.now (n - 1) }
    requires ascii { slice_index s.now (n - 1) < 128 }
    ensures rest { result.now ≡ drop n s.now }
    ensures len { length result.now + n ≡ length s.now }
{
    &s[n..]
}

/// Returns `true` if there is a line feed (LF) among the bytes.
pub(crate) fn has_line_feed(bytes: &[u8]) -> bool
    ensures { result ≡ has_byte line_feed bytes.now }
{
    bytes.iter().any(|b| *b == b'\n')
}

/// A set of bytes, to find a run of them.
#[derive(Clone, Copy)]
pub enum Class {
    /// Spaces and tabs.
    Blank,
    /// All but control characters, and tab.
    Visible,
    /// The bytes that need no escape between double quotes.
    Plain,
    /// The bytes that may be between single quotes.
    Literal,
    /// The bytes that may be in a bare key.
    Bare,
    /// The bytes that may be in a number, a boolean, a date or a time.
    Word,
}

/// Returns `true` for a space and a tab.
pub fn is_blank(byte: u8) -> bool
    ensures { result ≡ trivia.is_blank byte }
{
    byte == b' ' || byte == b'\t'
}

/// Returns `true` for all but control characters, and for tab.
pub fn is_visible(byte: u8) -> bool
    ensures { result ≡ trivia.is_visible byte }
{
    byte == b'\t' || (byte >= 0x20 && byte != 0x7F)
}

/// Returns `true` if the byte may be in a bare key.
pub fn is_bare(byte: u8) -> bool
    ensures { result ≡ spelling.is_bare_byte byte }
{
    is_in(Class::Bare, byte)
}

/// Returns `true` if the byte may be in a number, a boolean, a date or a time.
pub fn is_word(byte: u8) -> bool
    ensures { result ≡ is_word_byte byte }
{
    // digits first: most words are numbers
    byte.is_ascii_digit() || is_bare(byte) || byte == b'+' || byte == b'.' || byte == b':'
}

const BLANK: u8 = 1;

const VISIBLE: u8 = 2;

const PLAIN: u8 = 4;

const LITERAL: u8 = 8;

const BARE: u8 = 16;

const WORD: u8 = 32;

/// For each byte a letter, whose low six bits are the flags above.
static CLASSES: [u8; 256] = *b"\
    @@@@@@@@@O@@@@@@@@@@@@@@@@@@@@@@\
    ONJNNNNFNNNnN~nN~~~~~~~~~~nNNNNN\
    N~~~~~~~~~~~~~~~~~~~~~~~~~~NJNN~\
    N~~~~~~~~~~~~~~~~~~~~~~~~~~NNNN@\
    NNNNNNNNNNNNNNNNNNNNNNNNNNNNNNNN\
    NNNNNNNNNNNNNNNNNNNNNNNNNNNNNNNN\
    NNNNNNNNNNNNNNNNNNNNNNNNNNNNNNNN\
    NNNNNNNNNNNNNNNNNNNNNNNNNNNNNNNN";

/// Returns `true` if the byte is of the class. Looking into the table takes a third of the
/// instructions of comparisons.
fn is_in(class: Class, byte: u8) -> bool
    ensures { result ≡ class_test class byte }
{
    match class {
        Class::Blank => CLASSES[byte as usize] & BLANK != 0,
        Class::Visible => CLASSES[byte as usize] & VISIBLE != 0,
        Class::Plain => CLASSES[byte as usize] & PLAIN != 0,
        Class::Literal => CLASSES[byte as usize] & LITERAL != 0,
        Class::Bare => CLASSES[byte as usize] & BARE != 0,
        Class::Word => CLASSES[byte as usize] & WORD != 0,
    }
}

/// Returns how many bytes at the front are of the class.
pub fn run_len(bytes: &[u8], class: Class) -> usize
    ensures len { result ≡ prefix_len (class_test class) bytes.now }
    ensures within { result ≤ length bytes.now }
{
    let mut at: usize = 0;
    let mut run = LANES;
    'lanes: while run == LANES && bytes.len() - at >= LANES {
        run = lanes_run(bytes, at, class);
        at += run;
    }
    if run == LANES && bytes.len() - at >= HALF_LANES {
        at += half_run(bytes, at, class);
    }
    while at < bytes.len() && is_in(class, bytes[at]) {
        at += 1;
    }
    at
}

/// Returns how many spaces and tabs are at the front, where there are two or more.
#[inline(never)]
fn long_blank_len(bytes: &[u8]) -> usize
    ensures len { result ≡ prefix_len trivia.is_blank bytes.now }
    ensures within { result ≤ length bytes.now }
{
    run_len(bytes, Class::Blank)
}

/// Returns how many spaces and tabs are at the front, of which there is mostly none or one.
#[inline(always)]
fn blank_len(bytes: &[u8]) -> usize
    ensures len { result ≡ prefix_len trivia.is_blank bytes.now }
    ensures within { result ≤ length bytes.now }
{
    if !is_blank(byte_of(bytes, 0)) {
        return 0;
    }
    if !is_blank(byte_of(bytes, 1)) {
        return 1;
    }
    long_blank_len(bytes)
}

/// Returns the same as [`run_len`], and sooner where a class has short runs.
#[inline(always)]
fn short_run_len(bytes: &[u8], class: Class) -> usize
    ensures len { result ≡ prefix_len (class_test class) bytes.now }
    ensures within { result ≤ length bytes.now }
{
    match class {
        Class::Blank => blank_len(bytes),
        _ => run_len(bytes, class),
    }
}

/// Splits off the bytes of the class at the front.
#[inline(always)]
pub fn split_run(s: &str, class: Class) -> (&str, &str)
    ensures parts { (result.0.now, result.1.now) ≡ split_while (class_test class) s.now }
    ensures lens { length result.0.now + length result.1.now ≡ length s.now }
{
    s.split_at(short_run_len(s.as_bytes(), class))
}
