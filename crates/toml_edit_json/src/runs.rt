//! Texts of which some bytes are written in another way.
#![tactic(auto, using(toml_edit_io::proofs::Puts::put_steps))]

ghost use Rattle.std.specs.Prelude.{◌≡◌, ◌+◌, ◌/◌, ◌%◌, ◌<◌, ◌≤◌, false, length, drop, codes, [], ◌∷◌, ◌++◌};
ghost use Rattle.std.specs.Char.{digit_char};
ghost use Rattle.std.specs.Fmt.{WritesInCalls};
ghost use Rattle.std.specs.List.{prefix_len};
ghost use Rattle.toml_edit_laws.specs.reading.Runs.{first, split_while};
ghost use Rattle.json.specs.Print.{escape_byte};
ghost use Rattle.toml_edit_json.specs.Texts as spec;
ghost use Rattle.toml_edit_json.specs.declared.runs.Form.TheVariants.{Quoted};

use toml_edit_io::Sink;

/// How the bytes of a text are written.
#[derive(Clone, Copy)]
pub(crate) enum Form {
    /// Between quotes: a quote, a backslash and a control character are escaped.
    Quoted,
    /// As a number: underscores and plus signs are left out.
    Number,
}

/// Puts the text in the form, run by run of the bytes that stay as they are.
pub(crate) fn put_text<S: Sink>(out: &mut S, text: &str, form: Form)
    ensures { WritesInCalls S.puts out.old (spec.written form text.now) out.new }
{
    let mut rest = text;
    'runs: loop {
        let (plain, after) = split_run(rest, form);
        out.put(plain);
        if after.is_empty() {
            return;
        }
        put_byte(out, first_byte(after), form);
        rest = after_first(after);
    }
}

/// Splits off the bytes at the front that stay as they are.
fn split_run(text: &str, form: Form) -> (&str, &str)
    ensures parts { (result.0.now, result.1.now) ≡ split_while (spec.is_kept form) text.now }
    ensures lens { length result.0.now + length result.1.now ≡ length text.now }
{
    text.split_at(run_length(text.as_bytes(), form))
}

/// Returns the number of bytes before the first that is written in another way.
fn run_length(bytes: &[u8], form: Form) -> usize
    ensures len { result ≡ prefix_len (spec.is_kept form) bytes.now }
    ensures within { result ≤ length bytes.now }
{
    let mut at: usize = 0;
    while at < bytes.len() && is_kept(bytes[at], form) {
        at += 1;
    }
    at
}

/// Returns `true` if the byte is written as it is.
fn is_kept(byte: u8, form: Form) -> bool
    ensures { result ≡ spec.is_kept form byte }
{
    match form {
        Form::Quoted => byte >= b' ' && byte != b'"' && byte != b'\\',
        Form::Number => byte != b'_' && byte != b'+',
    }
}

/// Returns the first byte.
fn first_byte(text: &str) -> u8
    requires { 0 < length text.now }
    ensures { result ≡ first text.now }
{
    text.as_bytes()[0]
}

/// Returns the text after its first byte, which is ASCII.
fn after_first(text: &str) -> &str
    requires some { 0 < length text.now }
    requires ascii { first text.now < 128 }
    ensures rest { result.now ≡ drop 1 text.now }
    ensures len { length result.now + 1 ≡ length text.now }
{
    &text[1..]
}

/// Puts a byte that is written in another way.
fn put_byte<S: Sink>(out: &mut S, byte: u8, form: Form)
    requires { spec.is_kept form byte ≡ false }
    ensures { WritesInCalls S.puts out.old (spec.written_byte form byte) out.new }
{
    match form {
        Form::Quoted => put_escape(out, byte),
        Form::Number => {}
    }
}

/// Puts the escape of a quote, a backslash or a control character.
fn put_escape<S: Sink>(out: &mut S, byte: u8)
    requires { spec.is_kept Quoted byte ≡ false }
    ensures { WritesInCalls S.puts out.old (escape_byte byte) out.new }
{
    match byte {
        b'"' => out.put("\\\""),
        b'\\' => out.put("\\\\"),
        0x08 => out.put("\\b"),
        0x0C => out.put("\\f"),
        b'\n' => out.put("\\n"),
        b'\r' => out.put("\\r"),
        b'\t' => out.put("\\t"),
        _ => put_numbered(out, byte),
    }
}

/// Puts a control character as `\u00` and two hexadecimal digits.
#[tactic(auto, using(toml_edit_io::proofs::Puts::put_steps, std::proofs::lemmas::Grind::common_steps))]
fn put_numbered<S: Sink>(out: &mut S, byte: u8)
    ensures { WritesInCalls S.puts out.old
        (codes "\\u00" ++ (digit_char (byte / 16) ∷ digit_char (byte % 16) ∷ [])) out.new }
{
    out.put("\\u00");
    out.put_char(hex_digit(byte / 16));
    out.put_char(hex_digit(byte % 16));
}

/// Returns the hexadecimal digit.
fn hex_digit(digit: u8) -> char
    requires { digit < 16 }
    ensures value { result ≡ digit_char digit }
    ensures ascii { result < 128 }
{
    if digit < 10 {
        char::from(b'0' + digit)
    } else {
        char::from(b'a' + (digit - 10))
    }
}
