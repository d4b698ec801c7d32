//! Putting the default spellings of strings and keys into sinks.
#![tactic(auto, using(toml_edit_io::proofs::Puts::put_steps))]

ghost use Rattle.std.specs.Prelude.{◌≡◌, ◌+◌, ◌<◌, false, length, drop, slice_index};
ghost use Rattle.std.specs.Fmt.{WritesInCalls};
ghost use Rattle.std.specs.List.{list_all};
ghost use Rattle.toml_edit_model.specs.Text.{quote, one};
ghost use Rattle.toml_edit_model.specs.DefaultSpelling as spec;
ghost use Rattle.toml_edit_model.specs.Spelling.{is_plain};
ghost use Rattle.toml_edit_token.specs.Classes.{class_test};

use crate::run::{Class, first_byte, has_line_feed, split_run};
use toml_edit_io::Sink;

/// Puts the default spelling of a string.
///
/// It is in double quotes if it needs no escapes there, else in single quotes if it can be, else in
/// double quotes with escapes: on several lines if it has a newline.
pub fn put_string<S: Sink>(out: &mut S, value: &str)
    ensures { WritesInCalls S.puts out.old (spec.string_spelling value.now) out.new }
{
    if is_all(value, Class::Plain) {
        put_between(out, "\"", value)
    } else if is_all(value, Class::Literal) {
        put_between(out, "'", value)
    } else if has_line_feed(value.as_bytes()) {
        out.put("\"\"\"\n");
        put_escaped(out, value, true);
        out.put("\"\"\"")
    } else {
        put_basic(out, value)
    }
}

/// Puts the default spelling of a simple key: bare if it can be, else as a string on one line.
pub fn put_key<S: Sink>(out: &mut S, key: &str)
    ensures { WritesInCalls S.puts out.old (spec.key_spelling key.now) out.new }
{
    if !key.is_empty() && is_all(key, Class::Bare) {
        out.put(key)
    } else if is_all(key, Class::Plain) {
        put_between(out, "\"", key)
    } else if is_all(key, Class::Literal) {
        put_between(out, "'", key)
    } else {
        put_basic(out, key)
    }
}

/// Returns `true` if all bytes are of the class.
fn is_all(s: &str, class: Class) -> bool
    ensures { result ≡ list_all (class_test class) s.now }
{
    split_run(s, class).1.is_empty()
}

/// Puts the text between two delimiters, which are the same.
fn put_between<S: Sink>(out: &mut S, delimiter: &str, text: &str)
    ensures { WritesInCalls S.puts out.old (spec.between delimiter.now text.now) out.new }
{
    out.put(delimiter);
    out.put(text);
    out.put(delimiter)
}

/// Puts a basic string with escapes, on one line.
fn put_basic<S: Sink>(out: &mut S, text: &str)
    ensures { WritesInCalls S.puts out.old
        (spec.between (one quote) (spec.escaped false text.now)) out.new }
{
    out.put("\"");
    put_escaped(out, text, false);
    out.put("\"")
}

/// Puts the text with escapes and without quotes, run by run of the bytes that need no escape.
///
/// A line feed (LF) is put as it is if `many_lines` is set.
fn put_escaped<S: Sink>(out: &mut S, text: &str, many_lines: bool)
    ensures { WritesInCalls S.puts out.old (spec.escaped many_lines text.now) out.new }
{
    let mut rest = text;
    'runs: loop {
        let (plain, after) = split_run(rest, Class::Plain);
        out.put(plain);
        if after.is_empty() {
            return;
        }
        put_escape(out, first_byte(after), many_lines);
        rest = after_first(after);
    }
}

/// Returns the text after its first byte, which is ASCII.
fn after_first(s: &str) -> &str
    requires some { 0 < length s.now }
    requires ascii { slice_index s.now 0 < 128 }
    ensures rest { result.now ≡ drop 1 s.now }
    ensures len { length result.now + 1 ≡ length s.now }
{
    &s[1..]
}

/// Puts the escape of a byte that isn't plain, or a line feed (LF) if `many_lines` is set.
fn put_escape<S: Sink>(out: &mut S, byte: u8, many_lines: bool)
    requires { is_plain byte ≡ false }
    ensures { WritesInCalls S.puts out.old (spec.escaped_byte many_lines byte) out.new }
{
    match byte {
        b'\\' => out.put("\\\\"),
        b'"' => out.put("\\\""),
        0x08 => out.put("\\b"),
        0x0C => out.put("\\f"),
        b'\r' => out.put("\\r"),
        b'\n' => out.put(if many_lines { "\n" } else { "\\n" }),
        _ => put_numbered(out, byte),
    }
}

/// Puts the byte as `\u00` and two hexadecimal digits.
#[tactic(auto, using(toml_edit_io::proofs::Puts::put_steps, std::proofs::lemmas::Grind::common_steps))]
fn put_numbered<S: Sink>(out: &mut S, byte: u8)
    requires { byte < 128 }
    ensures { WritesInCalls S.puts out.old (spec.numbered_escape byte) out.new }
{
    out.put("\\u00");
    out.put_char(capital_digit(byte / 16));
    out.put_char(capital_digit(byte % 16))
}

/// Returns the hexadecimal digit as a capital.
fn capital_digit(digit: u8) -> char
    requires { digit < 16 }
    ensures value { result ≡ spec.capital_digit digit }
    ensures ascii { result < 128 }
{
    char::from(if digit < 10 {
        b'0' + digit
    } else {
        b'A' - 10 + digit
    })
}
