//! Putting spellings, decors and trailing texts into sinks.
#![tactic(auto, using(toml_edit_io::proofs::Puts::put_steps))]

ghost use Rattle.std.specs.Prelude.{codes, IsTrue, ◌↔◌, ◌≡◌, ◌<◌, false, [], ◌++◌, if◌then◌else◌, length, option_and_then, IfSome, MatchOption};
ghost use Rattle.std.specs.Option.{option_copied};
ghost use Rattle.std.specs.Fmt.{WritesInCalls};
ghost use Rattle.toml_edit_model.specs.Text.{without_returns};
ghost use Rattle.toml_edit_model.specs.Mode.{shown_text};
ghost use Rattle.toml_edit_model.specs.Syntax.{comma_text};
ghost use Rattle.toml_edit_model.specs.Tree.{scalar_text, shown_side, shown_raw};
ghost use Rattle.toml_edit_repr.specs.Modes.{mode_of};
ghost use Rattle.toml_edit_repr.specs.Views.{text_of};

use crate::mode::Mode;
use crate::repr::{Formatted, Repr, ValueRepr};
use memchr::memchr;
use toml_edit_io::Sink;
use toml_edit_text::RawString;

/// Puts the spelling of the scalar, or the default one of its value if it has none that is a text.
pub fn put_scalar<S: Sink, T: ValueRepr>(out: &mut S, scalar: &Formatted<T>)
    ensures { WritesInCalls S.puts out.old
        (scalar_text (T.scalar scalar.now.value) scalar.now.repr) out.new }
{
    match spelling_text(scalar.as_repr()) {
        Some(text) => out.put(text),
        None => scalar.value().put_default(out),
    }
}

/// Returns the text of a spelling, or `None` if there is none or it is a span.
pub fn spelling_text(spelling: Option<&Repr>) -> Option<&str>
    ensures { option_copied result ≡ option_and_then text_of (option_copied spelling.entry) }
{
    spelling?.as_raw().as_str()
}

/// Returns the text of a side of a decor, or `None` if it is unset or a span.
pub(crate) fn side_text(side: Option<&RawString>) -> Option<&str>
    ensures { option_copied result ≡ option_and_then text_of (option_copied side.entry) }
{
    side?.as_str()
}

/// Puts a side of a decor, or `default` if it is unset or a span.
///
/// In plain mode the carriage returns (CR) of the side are left out, but not those of `default`.
#[inline(always)]
pub fn put_side<S: Sink>(out: &mut S, mode: Mode, side: Option<&RawString>, default: &str)
    ensures { WritesInCalls S.puts out.old
        (shown_side (mode_of mode) default.now (option_copied side.entry)) out.new }
{
    match side_text(side) {
        Some(text) => put_text(out, mode, text),
        None => out.put(default),
    }
}

/// Puts the text, without its carriage returns (CR) in plain mode. A span is put as nothing.
pub fn put_raw<S: Sink>(out: &mut S, mode: Mode, raw: &RawString)
    ensures { WritesInCalls S.puts out.old (shown_raw (mode_of mode) raw.now) out.new }
{
    match raw.as_str() {
        Some(text) => put_text(out, mode, text),
        None => {}
    }
}

/// Puts the comma that ends a list, if `comma` is set and the list isn't empty.
pub fn put_last_comma<S: Sink>(out: &mut S, comma: bool, is_empty: bool)
    ensures { WritesInCalls S.puts out.old (if is_empty then [] else comma_text comma) out.new }
{
    if comma && !is_empty {
        out.put(",");
    }
}

/// Puts the text, without its carriage returns (CR) in plain mode.
#[inline(always)]
fn put_text<S: Sink>(out: &mut S, mode: Mode, text: &str)
    ensures { WritesInCalls S.puts out.old (shown_text (mode_of mode) text.now) out.new }
{
    // Most sides are empty, or one space.
    if is_space(text) {
        out.put(" ")
    } else if !text.is_empty() {
        put_longer(out, mode, text)
    }
}

/// Puts the text as [`put_text`] does, whatever its length. It is never inlined, so that the short
/// texts are put in place.
#[inline(never)]
fn put_longer<S: Sink>(out: &mut S, mode: Mode, text: &str)
    ensures { WritesInCalls S.puts out.old (shown_text (mode_of mode) text.now) out.new }
{
    match mode {
        Mode::Plain => put_without_returns(out, text),
        Mode::Exact => out.put(text),
    }
}

/// Puts the text without its carriage returns (CR).
fn put_without_returns<S: Sink>(out: &mut S, text: &str)
    ensures { WritesInCalls S.puts out.old (without_returns text.now) out.new }
{
    if has_return(text) {
        put_pieces(out, text)
    } else {
        out.put(text)
    }
}

/// Returns `false` only if the text has no carriage return.
fn has_return(text: &str) -> bool
    ensures { result ≡ false → without_returns text.now ≡ text.now }
{
    // Most texts are short, and for those `memchr` is the dearer one.
    text.as_bytes().contains(&b'\r')
}

/// Puts the text without its carriage returns (CR), piece by piece.
#[cold]
fn put_pieces<S: Sink>(out: &mut S, text: &str)
    ensures { WritesInCalls S.puts out.old (without_returns text.now) out.new }
{
    let mut rest = text;
    'pieces: while let Some((piece, after)) = split_at_return(rest) {
        out.put(piece);
        rest = after;
    }
    out.put(rest)
}

/// Returns the texts before and after the first carriage return, or `None` if there is none.
fn split_at_return(text: &str) -> Option<(&str, &str)>
    ensures parts { MatchOption result (without_returns text.now ≡ text.now)
        (λ p. without_returns text.now ≡ p.0.now ++ without_returns p.1.now) }
    ensures shorter { IfSome result (λ p. length p.1.now < length text.now) }
{
    let at = memchr(b'\r', text.as_bytes())?;
    Some((&text[..at], &text[at + 1..]))
}

/// Returns `true` if the text is one space.
///
/// By its bytes: one comparison of texts takes ten instructions, and most sides are one space.
#[inline(always)]
fn is_space(text: &str) -> bool
    ensures { IsTrue result ↔ (text.now ≡ codes " ") }
{
    matches!(text.as_bytes(), [b' '])
}
