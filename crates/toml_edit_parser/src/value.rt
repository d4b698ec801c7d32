//! Values, from their events.
ghost use Rattle.std.specs.Prelude.{◌≡◌, ◌+◌, List, ℕ, length, IfOk, OnOk};
ghost use Rattle.toml_edit_model.specs.Text.{Text};
ghost use Rattle.toml_edit_model.specs.Scalars.{Scalar};
ghost use Rattle.toml_edit_model.specs.Spelling.{Spells};
ghost use Rattle.toml_edit_model.specs.Syntax as syntax;
ghost use Rattle.toml_edit_syntax.specs.Events.{IsSpanOf};
ghost use Rattle.toml_edit_parser.specs.ScalarRead.{PutsScalar, ReadsScalar};
ghost use Rattle.toml_edit_parser.specs.ValueRead.{AreIn, PutsValue, ReadsValue, IfValueNext, Leaves, LeavesBeside};
ghost use Rattle.toml_edit_tree.specs.View.{item_view, value_view};
ghost use Rattle.toml_edit_model.specs.OwnedForm.{NodeFits, cut_out};
ghost use Rattle.toml_edit_parser.specs.Listed.{Refuses};

use crate::array::read_array;
use crate::events::split_first;
use crate::fault::{Fault, malformed, refusal, refusal_with};
use crate::inline_table::read_inline;
use crate::reader::Reader;
use crate::spanned::put_spanned;
use std::mem;
use toml_edit_error::ParseFault;
use toml_edit_repr::{Decor, Formatted};
use toml_edit_syntax::{Event, EventKind, Span, text_at};
use toml_edit_token::{decode_integer, decode_other, decode_scalar, range_message};
use toml_edit_tree::{Item, Value};

/// Reads the value at the front, with its decor unset. Returns it with the rest of the events.
#[cycle(read)]
pub(crate) fn read_value<'a>(
    reader: &Reader<'_>,
    events: &'a [Event],
) -> Result<(Value, &'a [Event]), ParseFault>
    requires { AreIn reader.now.source.now events.now }
    ensures value { (v : syntax.Value) (start level : ℕ) (more : List Event)
        → IfValueNext reader.now.source.now events.now v start level more
        (ReadsValue reader.now.source.now v start level more result) }
    ensures refused { Refuses reader.now.source.now result }
    ensures fits { IfOk result (λ r. NodeFits reader.now.source.now (value_view r.0)) }
    ensures rest { LeavesBeside reader.now.source.now events.now result }
{
    let Some((first, rest)) = split_first(events) else {
        return Err(malformed(reader));
    };
    match first.kind {
        EventKind::Scalar => Ok((read_scalar(reader, first.span)?, rest)),
        EventKind::ArrayOpen => read_array(reader, first.span, rest),
        EventKind::InlineTableOpen => read_inline(reader, first.span, rest),
        _ => Err(refusal(reader, Fault::RecursionLimit, first.span)),
    }
}

/// Reads the value at the front, with its decor unset, into the item's place. Returns the rest of the
/// events. Most values are scalars, so these are made in place.
#[cycle(read)]
pub(crate) fn read_item<'a>(
    reader: &Reader<'_>,
    events: &'a [Event],
    item: &mut Item,
) -> Result<&'a [Event], ParseFault>
    requires { AreIn reader.now.source.now events.now }
    ensures value { (v : syntax.Value) (start level : ℕ) (more : List Event)
        → IfValueNext reader.now.source.now events.now v start level more
        (PutsValue reader.now.source.now v start level more (item_view item.new) result) }
    ensures refused { Refuses reader.now.source.now result }
    ensures fits { OnOk result (NodeFits reader.now.source.now (item_view item.new)) }
    ensures rest { Leaves reader.now.source.now events.now result }
{
    let Some((first, rest)) = split_first(events) else {
        return Err(malformed(reader));
    };
    match first.kind {
        EventKind::Scalar => {
            put_scalar(reader, first.span, item)?;
            Ok(rest)
        }
        _ => read_list(reader, events, item),
    }
}

/// Reads the value at the front, with its decor unset, into the item's place. Returns the rest of the
/// events.
#[cycle(read)]
// Not inlined, so that its locals stay out of the caller's frame.
#[inline(never)]
fn read_list<'a>(
    reader: &Reader<'_>,
    events: &'a [Event],
    item: &mut Item,
) -> Result<&'a [Event], ParseFault>
    requires { AreIn reader.now.source.now events.now }
    ensures value { (v : syntax.Value) (start level : ℕ) (more : List Event)
        → IfValueNext reader.now.source.now events.now v start level more
        (PutsValue reader.now.source.now v start level more (item_view item.new) result) }
    ensures refused { Refuses reader.now.source.now result }
    ensures fits { OnOk result (NodeFits reader.now.source.now (item_view item.new)) }
    ensures rest { Leaves reader.now.source.now events.now result }
{
    let (value, rest) = read_value(reader, events)?;
    put(item, Item::Value(value));
    Ok(rest)
}

/// Reads the scalar that is spelled at the span, with its decor unset, into the item's place.
#[inline(always)]
fn put_scalar(reader: &Reader<'_>, span: Span, item: &mut Item) -> Result<(), ParseFault>
    requires { IsSpanOf reader.now.source.now span }
    ensures value { (s : Scalar) (t : Text) → cut_out reader.now.source.now span.start span.end ≡ t
        → span.end ≡ span.start + length t → Spells s t
        → PutsScalar reader.now.source.now span.start s t (item_view item.new) result }
    ensures refused { Refuses reader.now.source.now result }
    ensures fits { OnOk result (NodeFits reader.now.source.now (item_view item.new)) }
{
    let text = text_at(reader.source, span);
    let decor = Decor::default();
    if let Some(number) = decode_integer(text) {
        let value = Value::Integer(Formatted::spanned(number, span.start, span.end, decor));
        put(item, Item::Value(value));
        return Ok(());
    }
    match decode_other(reader.alloc, text)? {
        Some(scalar) => {
            put_spanned(scalar, span, decor, item);
            Ok(())
        }
        None => Err(refusal_with(reader, range_message(text), span)),
    }
}

/// Reads the scalar that is spelled at the span.
pub(crate) fn read_scalar(reader: &Reader<'_>, span: Span) -> Result<Value, ParseFault>
    requires { IsSpanOf reader.now.source.now span }
    ensures value { (s : Scalar) (t : Text) → cut_out reader.now.source.now span.start span.end ≡ t
        → span.end ≡ span.start + length t
        → Spells s t → ReadsScalar reader.now.source.now span.start s t result }
    ensures refused { Refuses reader.now.source.now result }
    ensures fits { IfOk result (λ v. NodeFits reader.now.source.now (value_view v)) }
{
    let text = text_at(reader.source, span);
    match decode_scalar(reader.alloc, text)? {
        Some(scalar) => Ok(Value::spanned(scalar, span.start, span.end, Decor::default())),
        None => Err(refusal_with(reader, range_message(text), span)),
    }
}

/// Puts an item in the place of another, which is dropped.
///
/// Mostly there is nothing, and to let go of that costs nothing: else an old item is copied before it
/// is dropped.
#[inline(always)]
pub(crate) fn put(place: &mut Item, item: Item)
    ensures { place.new ≡ item }
{
    if place.is_none() {
        mem::forget(mem::replace(place, item));
    } else {
        put_over(place, item);
    }
}

/// Puts an item in the place of another. A call, since an assignment in the caller would be taken
/// apart there for each variant.
#[cold]
#[inline(never)]
fn put_over(place: &mut Item, item: Item)
    ensures { place.new ≡ item }
{
    *place = item;
}
