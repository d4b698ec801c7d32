//! Keys and their paths, from their events.
ghost use Rattle.std.specs.Prelude.{◌≡◌, ◌<◌, [], length, IfSome, option_map, string_bytes, List, ℕ, IfOk};
ghost use Rattle.std.specs.Cow.{cow_str_bytes};
ghost use Rattle.toml_edit_model.specs.Text.{Text};
ghost use Rattle.toml_edit_model.specs.Spelling.{SpellsKey};
ghost use Rattle.toml_edit_model.specs.Tree.{owned, unset, Decor};
ghost use Rattle.toml_edit_syntax.specs.Events.{IsSpanOf};
ghost use Rattle.toml_edit_parser.specs.ScalarRead.{ReadsName};
ghost use Rattle.toml_edit_parser.specs.PairRead as spec;
ghost use Rattle.toml_edit_parser.specs.PairRead.{key_with, IsEndOfPath};
ghost use Rattle.toml_edit_parser.specs.ValueRead.{spanned_raw, AreIn};
ghost use Rattle.toml_edit_parser.specs.Near.{IsNear};
ghost use Rattle.toml_edit_model.specs.OwnedForm.{KeyFits, cut_out};
ghost use Rattle.toml_edit_parser.specs.Listed.{Refuses};
ghost use Rattle.toml_edit_model.specs.Syntax.{Segment, path_text};
ghost use Rattle.toml_edit_laws.specs.Standing.{Stands};
ghost use Rattle.toml_edit_parser.specs.PathRead.{IsPathFrom, ReadsFirstName, ReadsKey};

use crate::events::{raw, split_first};
use crate::fault::malformed;
use crate::reader::Reader;
use std::borrow::CowStr;
use toml_edit_error::ParseFault;
use toml_edit_key::{Key, bare_name};
use toml_edit_repr::{Decor, RawString};
use toml_edit_syntax::{Event, EventKind, NESTING_LIMIT, Span, text_at};
use toml_edit_token::decode_name;

/// The number of events of the longest path: one for each key, and two for each dot between them.
pub(crate) const MOST_PATH_EVENTS: usize = 3 * NESTING_LIMIT - 2;

/// A path, or the rest of one.
#[derive(Clone, Copy)]
pub(crate) struct KeyPath<'a> {
    /// The text before the whole path: the prefix of its last key's leaf decor.
    pub(crate) prefix: Span,
    /// The text after the whole path: the suffix of its last key's leaf decor.
    pub(crate) suffix: Span,
    /// The whitespace after the dot before this rest, empty at the front of the path.
    pub(crate) before: Span,
    /// The events of this rest: a key, and for each further one the whitespace on both sides of a
    /// dot and the key.
    pub(crate) events: &'a [Event],
}

/// Where the parts of a pair before its value are, and the events of its path.
#[derive(Clone, Copy)]
pub(crate) struct FrameSpans<'a> {
    pub(crate) leading: Span,
    pub(crate) path: &'a [Event],
    pub(crate) before_equals: Span,
    pub(crate) after_equals: Span,
}

/// Returns the place of the first event that ends a path.
pub(crate) fn path_end(events: &[Event]) -> Option<usize>
    ensures place { result ≡ spec.path_end events.now }
    ensures within { IfSome result (λ at. at < length events.now) }
{
    events.iter().position(|event| ends_path(event.kind))
}

/// Returns `true` if an event of this kind follows the last key of a path.
fn ends_path(kind: EventKind) -> bool
    ensures { result ≡ spec.ends_path kind }
{
    matches!(kind, EventKind::Equals | EventKind::AfterKey)
}

/// Splits off the parts of a pair after its leading text.
pub(crate) fn split_frame<'a>(
    leading: Span,
    events: &'a [Event],
) -> Option<(FrameSpans<'a>, &'a [Event])>
    ensures { option_map (λ p. (spec.parts_of p.0, p.1.now)) result
        ≡ spec.split_frame leading events.now }
{
    let (path, signs) = events.split_at(path_end(events)?);
    let last = path.last()?;
    let (sign, rest) = split_first(signs)?;
    let (value, _) = split_first(rest)?;
    let frame = FrameSpans {
        leading,
        path,
        before_equals: between(last.span, sign.span),
        after_equals: between(sign.span, value.span),
    };
    Some((frame, rest))
}

/// Returns the span between two spans.
fn between(left: Span, right: Span) -> Span
    ensures { result ≡ spec.between left right }
{
    Span {
        start: left.end,
        end: left.end.max(right.start),
    }
}

/// Makes the path of these events, which begins where the text before it ends, with the text after
/// it.
pub(crate) fn path_behind<'a>(prefix: Span, events: &'a [Event], suffix: Span) -> KeyPath<'a>
    ensures { spec.path_of result ≡ spec.path_between prefix events.now suffix }
{
    let start = prefix.end;
    KeyPath {
        prefix,
        suffix,
        before: Span { start, end: start },
        events,
    }
}

/// The first key of a path, and the rest of the path.
#[derive(Drop)]
pub(crate) struct PathKey<'a> {
    /// The key, with its decors as spans.
    pub(crate) key: Key,
    /// Where it is spelled, in bytes.
    pub(crate) span: Span,
    /// The path after the dot, or `None` after the last key.
    pub(crate) rest: Option<KeyPath<'a>>,
}

/// Splits off the first key of a path.
///
/// Fails if out of memory, or if the events are those of no path, which no text of the grammar has.
pub(crate) fn next_key<'a>(
    reader: &Reader<'_>,
    path: KeyPath<'a>,
) -> Result<PathKey<'a>, ParseFault>
    requires spans { AreIn reader.now.source.now path.events.now }
    requires prefix { IsNear path.prefix }
    requires suffix { IsNear path.suffix }
    requires before { IsNear path.before }
    ensures key { (own : Decor) (p : List Segment) (start : ℕ) → IsEndOfPath p
        → Stands reader.now.source.now start (path_text p)
        → IsPathFrom own start p path.entry → ReadsKey own start p result }
    ensures refused { Refuses reader.now.source.now result }
    ensures span { IfOk result (λ r. IsSpanOf reader.now.source.now r.span) }
    ensures near { IfOk result
        (λ r. IfSome r.rest
        (λ inside. IsNear inside.prefix × IsNear inside.suffix × IsNear inside.before)) }
    ensures rest { IfOk result
        (λ r. IfSome r.rest
        (λ inside. AreIn reader.now.source.now inside.events.now
        × (length inside.events.now < length path.entry.events.now))) }
{
    let Some((first, rest)) = split_first(path.events) else {
        return Err(malformed(reader));
    };
    let span = first.span;
    let name = read_name(reader, span)?;
    match split_dot(path, rest) {
        None => {
            let key = last_key(name, span, path);
            Ok(PathKey {
                key,
                span,
                rest: None,
            })
        }
        Some((after, inside)) => {
            let key = passed_key(name, span, path.before, after);
            Ok(PathKey {
                key,
                span,
                rest: Some(inside),
            })
        }
    }
}

/// The name of the first key of a path, and the rest of the path.
#[derive(Drop)]
pub(crate) struct PathName<'s, 'a> {
    /// The name.
    pub(crate) name: CowStr<'s>,
    /// The path after the dot, or `None` after the last key.
    pub(crate) rest: Option<KeyPath<'a>>,
}

/// Splits off the name of the first key of a path. The name of a bare key is not copied.
///
/// Fails if out of memory, or if the events are those of no path, which no text of the grammar has.
pub(crate) fn next_name<'s, 'a>(
    reader: &Reader<'s>,
    path: KeyPath<'a>,
) -> Result<PathName<'s, 'a>, ParseFault>
    requires { AreIn reader.now.source.now path.events.now }
    ensures name { (own : Decor) (p : List Segment) (start : ℕ) → IsEndOfPath p
        → Stands reader.now.source.now start (path_text p)
        → IsPathFrom own start p path.entry → ReadsFirstName own start p result }
    ensures refused { Refuses reader.now.source.now result }
    ensures rest { IfOk result
        (λ r. IfSome r.rest
        (λ inside. AreIn reader.now.source.now inside.events.now
        × (length inside.events.now < length path.entry.events.now))) }
{
    let Some((first, rest)) = split_first(path.events) else {
        return Err(malformed(reader));
    };
    let name = read_name_in_place(reader, first.span)?;
    match split_dot(path, rest) {
        None => Ok(PathName { name, rest: None }),
        Some((_, inside)) => Ok(PathName {
            name,
            rest: Some(inside),
        }),
    }
}

/// Splits off the text before a dot. Returns it with the path after the dot.
pub(crate) fn split_dot<'a>(path: KeyPath<'a>, events: &'a [Event]) -> Option<(Span, KeyPath<'a>)>
    ensures { option_map (λ p. (p.0, spec.path_of p.1)) result
        ≡ spec.split_dot path.entry events.now }
{
    let (after, behind) = split_first(events)?;
    let (before, events) = split_first(behind)?;
    let inside = KeyPath {
        before: before.span,
        events,
        ..path
    };
    Some((after.span, inside))
}

/// Reads the name of the key that is spelled at the span.
#[inline(always)]
pub(crate) fn read_name(reader: &Reader<'_>, span: Span) -> Result<String, ParseFault>
    requires { IsSpanOf reader.now.source.now span }
    ensures name { (k : Text) → SpellsKey k (cut_out reader.now.source.now span.start span.end)
        → ReadsName string_bytes k result }
    ensures refused { Refuses reader.now.source.now result }
{
    match bare_name(reader.alloc, reader.source, span.start, span.end)? {
        Some(name) => Ok(name),
        None => decoded_name(reader, span),
    }
}

/// Reads the name of the key that is spelled at the span, with or without quotes.
fn decoded_name(reader: &Reader<'_>, span: Span) -> Result<String, ParseFault>
    requires { IsSpanOf reader.now.source.now span }
    ensures name { (k : Text) → SpellsKey k (cut_out reader.now.source.now span.start span.end)
        → ReadsName string_bytes k result }
    ensures refused { Refuses reader.now.source.now result }
{
    match decode_name(reader.alloc, text_at(reader.source, span))? {
        Some(CowStr::Borrowed(name)) => Ok(String::from_str(reader.alloc, name)?),
        Some(CowStr::Owned(name)) => Ok(name),
        None => Err(malformed(reader)),
    }
}

/// Reads the name of the key that is spelled at the span. The name of a bare key is not copied.
pub(crate) fn read_name_in_place<'s>(
    reader: &Reader<'s>,
    span: Span,
) -> Result<CowStr<'s>, ParseFault>
    requires { IsSpanOf reader.now.source.now span }
    ensures name { (k : Text) → SpellsKey k (cut_out reader.now.source.now span.start span.end)
        → ReadsName cow_str_bytes k result }
    ensures refused { Refuses reader.now.source.now result }
{
    match decode_name(reader.alloc, text_at(reader.source, span))? {
        Some(name) => Ok(name),
        None => Err(malformed(reader)),
    }
}

/// Makes the last key of a path, with this name, spelled at the span.
pub(crate) fn last_key(name: String, span: Span, path: KeyPath<'_>) -> Key
    requires span { IsNear span }
    requires prefix { IsNear path.prefix }
    requires suffix { IsNear path.suffix }
    requires before { IsNear path.before }
    ensures key { result
        ≡ key_with (string_bytes name) span (spec.leaf_of path.entry)
        (spanned_raw path.entry.before) (owned []) }
    ensures fits { (t : Text) → IsSpanOf t span → IsSpanOf t path.entry.prefix
        → IsSpanOf t path.entry.suffix → IsSpanOf t path.entry.before → KeyFits t result }
{
    let leaf = Decor::new(raw(path.prefix), raw(path.suffix));
    let dotted = Decor::new(raw(path.before), RawString::default());
    Key::spanned(name, span.start, span.end, leaf, dotted)
}

/// Makes a key that a path passes through, with this name, spelled at the span, between these
/// texts.
pub(crate) fn passed_key(name: String, span: Span, before: Span, after: Span) -> Key
    requires span { IsNear span }
    requires before { IsNear before }
    requires after { IsNear after }
    ensures key { result
        ≡ key_with (string_bytes name) span unset (spanned_raw before) (spanned_raw after) }
    ensures fits { (t : Text) → IsSpanOf t span → IsSpanOf t before → IsSpanOf t after
        → KeyFits t result }
{
    let dotted = Decor::new(raw(before), raw(after));
    Key::spanned(name, span.start, span.end, Decor::default(), dotted)
}
