//! The parts of key lines and headers, from their events.
ghost use Rattle.std.specs.Prelude.{◌≡◌, List, ℕ, IfOk};
ghost use Rattle.toml_edit_model.specs.Mode.{exact};
ghost use Rattle.toml_edit_model.specs.Scalars.{Scalar};
ghost use Rattle.toml_edit_model.specs.Spelling.{Spells};
ghost use Rattle.toml_edit_model.specs.Syntax as syntax;
ghost use Rattle.toml_edit_model.specs.Syntax.{Frame, Header};
ghost use Rattle.toml_edit_model.specs.Text.{Text};
ghost use Rattle.toml_edit_syntax.specs.Events.{IsSpanOf};
ghost use Rattle.toml_edit_repr.specs.Modes.{mode_of};
ghost use Rattle.toml_edit_parser.specs.StatementParts.{ReadsHeader, ReadsLineParts, ReadsLineValue, suffix_span, IfKeyLineNext, ReadsAnyLineValue, IfLineScalarNext, IfHeaderNext};
ghost use Rattle.toml_edit_parser.specs.Near.{IsNear};
ghost use Rattle.toml_edit_parser.specs.PairRead.{IsPathIn};
ghost use Rattle.toml_edit_parser.specs.ValueRead.{AreIn, Leaves, LeavesBeside};
ghost use Rattle.toml_edit_tree.specs.View.{item_view};
ghost use Rattle.toml_edit_parser.specs.Listed.{Refuses};

use crate::events::{raw, split_first, split_scalar};
use crate::fault::{malformed, refusal_of_all, refusal_with};
use crate::key::{KeyPath, MOST_PATH_EVENTS, path_behind, path_end, split_frame};
use crate::reader::Reader;
use crate::spanned::put_spanned;
use crate::value::{put, read_value};
use toml_edit_error::ParseFault;
use toml_edit_repr::{Decor, Formatted, Mode};
use toml_edit_syntax::{Event, Span, text_at};
use toml_edit_token::run::byte_at;
use toml_edit_token::{decode_integer, decode_other, range_message};
use toml_edit_tree::{Item, Value};

/// The path of a header, where its closing brackets end, and where the text after them is.
#[derive(Clone, Copy)]
pub(crate) struct HeaderSpans<'a> {
    pub(crate) path: KeyPath<'a>,
    pub(crate) end: usize,
    pub(crate) trailing: Span,
}

/// Reads the key line after this text, and puts its value in the item's place. Returns its path and
/// the rest of the events.
pub(crate) fn read_key_line<'a>(
    reader: &Reader<'_>,
    leading: Span,
    events: &'a [Event],
    item: &mut Item,
) -> Result<(KeyPath<'a>, &'a [Event]), ParseFault>
    requires leading { IsSpanOf reader.now.source.now leading }
    requires spans { AreIn reader.now.source.now events.now }
    ensures line { (f : Frame) (v : syntax.Value) (end : Text) (start : ℕ) (more : List Event)
        → IfKeyLineNext reader.now.source.now leading events.now f v end start more
        (ReadsLineParts (mode_of reader.now.mode) reader.now.source.now f v end start more
        (item_view item.new) result) }
    ensures refused { Refuses reader.now.source.now result }
    ensures path { IfOk result (λ r. IsPathIn reader.now.source.now r.0) }
    ensures rest { LeavesBeside reader.now.source.now events.now result }
{
    let Some((frame, rest)) = split_frame(leading, events) else {
        return Err(malformed(reader));
    };
    if MOST_PATH_EVENTS < frame.path.len() {
        return Err(refusal_of_all(reader));
    }
    let rest = read_line_value(reader, frame.after_equals, rest, item)?;
    let path = path_behind(frame.leading, frame.path, frame.before_equals);
    Ok((path, rest))
}

/// Returns the span of a statement's suffix, which begins at this span. Where line endings are
/// kept, the carriage return (CR) of the newline belongs to it.
fn suffix(source: &str, mode: Mode, span: Span) -> Span
    requires { IsSpanOf source.now span }
    ensures { result ≡ suffix_span (mode_of mode) source.now span }
{
    match mode {
        Mode::Plain => span,
        Mode::Exact => with_return(source, span),
    }
}

/// Returns the span, with the carriage return (CR) that follows it, if one does.
fn with_return(source: &str, span: Span) -> Span
    requires { IsSpanOf source.now span }
    ensures { result ≡ suffix_span exact source.now span }
{
    let Span { start, end } = span;
    if byte_at(source, end) == b'\r' {
        Span {
            start,
            end: end + 1,
        }
    } else {
        span
    }
}

/// Reads the value of a key line, after the text at this span, into the item's place. Returns the
/// rest of the events. Most values are scalars, so these have a way of their own.
fn read_line_value<'a>(
    reader: &Reader<'_>,
    before: Span,
    events: &'a [Event],
    item: &mut Item,
) -> Result<&'a [Event], ParseFault>
    requires before { IsSpanOf reader.now.source.now before }
    requires spans { AreIn reader.now.source.now events.now }
    ensures value { ReadsAnyLineValue reader.now before events.now (item_view item.new) result }
    ensures refused { Refuses reader.now.source.now result }
    ensures rest { Leaves reader.now.source.now events.now result }
{
    match split_scalar(events) {
        Some((span, behind)) => read_line_scalar(reader, before, span, behind, item),
        None => read_line_list(reader, before, events, item),
    }
}

/// Reads a scalar, spelled at the span, into the item's place. Returns the rest of the events.
fn read_line_scalar<'a>(
    reader: &Reader<'_>,
    before: Span,
    span: Span,
    events: &'a [Event],
    item: &mut Item,
) -> Result<&'a [Event], ParseFault>
    requires before { IsSpanOf reader.now.source.now before }
    requires span { IsSpanOf reader.now.source.now span }
    requires spans { AreIn reader.now.source.now events.now }
    ensures value { (s : Scalar) (t : Text) (start : ℕ) (after suffix : Text) (more : List Event)
        → IfLineScalarNext reader.now span events.now s t start after suffix more
        (ReadsLineValue (mode_of reader.now.mode) reader.now.source.now (syntax.scalar s t) start
        before suffix more (item_view item.new) result) }
    ensures refused { Refuses reader.now.source.now result }
    ensures rest { Leaves reader.now.source.now events.now result }
{
    let Some((end, rest)) = split_first(events) else {
        return Err(malformed(reader));
    };
    let text = text_at(reader.source, span);
    let decor = Decor::new(
        raw(before),
        raw(suffix(reader.source, reader.mode, end.span)),
    );
    // Most values that are not strings are integers.
    if let Some(number) = decode_integer(text) {
        let value = Value::Integer(Formatted::spanned(number, span.start, span.end, decor));
        put(item, Item::Value(value));
        return Ok(rest);
    }
    match decode_other(reader.alloc, text)? {
        Some(scalar) => {
            put_spanned(scalar, span, decor, item);
            Ok(rest)
        }
        None => Err(refusal_with(reader, range_message(text), span)),
    }
}

/// Reads an array or an inline table into the item's place. Returns the rest of the events.
// Not inlined, so that its locals stay out of the caller's frame.
#[inline(never)]
fn read_line_list<'a>(
    reader: &Reader<'_>,
    before: Span,
    events: &'a [Event],
    item: &mut Item,
) -> Result<&'a [Event], ParseFault>
    requires before { IsSpanOf reader.now.source.now before }
    requires spans { AreIn reader.now.source.now events.now }
    ensures value { ReadsAnyLineValue reader.now before events.now (item_view item.new) result }
    ensures refused { Refuses reader.now.source.now result }
    ensures rest { Leaves reader.now.source.now events.now result }
{
    let (value, rest) = read_value(reader, events)?;
    put(item, Item::Value(value));
    let Some((end, rest)) = split_first(rest) else {
        return Err(malformed(reader));
    };
    item.decorate(
        raw(before),
        raw(suffix(reader.source, reader.mode, end.span)),
    );
    Ok(rest)
}

/// Reads the header after its opening brackets. Returns its parts and the rest of the events.
pub(crate) fn read_header<'a>(
    reader: &Reader<'_>,
    events: &'a [Event],
) -> Result<(HeaderSpans<'a>, &'a [Event]), ParseFault>
    requires spans { AreIn reader.now.source.now events.now }
    ensures header { (h : Header) (end : Text) (start : ℕ) (more : List Event)
        → IfHeaderNext reader.now.source.now events.now h end start more
        (ReadsHeader (mode_of reader.now.mode) reader.now.source.now h end start more result) }
    ensures refused { Refuses reader.now.source.now result }
    ensures path { IfOk result (λ r. IsPathIn reader.now.source.now r.0.path) }
    ensures trailing { IfOk result (λ r. IsNear r.0.trailing) }
    ensures rest { LeavesBeside reader.now.source.now events.now result }
{
    let Some((opening, inside)) = split_first(events) else {
        return Err(malformed(reader));
    };
    let Some(end_of_path) = path_end(inside) else {
        return Err(malformed(reader));
    };
    let (path, behind) = inside.split_at(end_of_path);
    let [closing, brackets, end, rest @ ..] = behind else {
        return Err(malformed(reader));
    };
    if MOST_PATH_EVENTS < path.len() {
        return Err(refusal_of_all(reader));
    }
    let header = HeaderSpans {
        path: path_behind(opening.span, path, closing.span),
        end: brackets.span.end,
        trailing: suffix(reader.source, reader.mode, end.span),
    };
    Ok((header, rest))
}
