//! Arrays, from their events.
ghost use Rattle.std.specs.Prelude.{◌≡◌, ◌+◌, ◌++◌, ◌∷◌, List, ℕ, [], Bool, Some, OnOk, IfOk};
ghost use Rattle.toml_edit_model.specs.Text.{Text};
ghost use Rattle.toml_edit_model.specs.Scalars.{Scalar};
ghost use Rattle.toml_edit_model.specs.Syntax as syntax;
ghost use Rattle.toml_edit_model.specs.Syntax.{Around, Elements};
ghost use Rattle.toml_edit_model.specs.Conversions.{with_decor};
ghost use Rattle.toml_edit_model.specs.TreeOf.{spanned_form, decor_at};
ghost use Rattle.toml_edit_syntax.specs.Events.{IsSpanOf};
ghost use Rattle.toml_edit_syntax.specs.ValueEvents.{event};
ghost use Rattle.toml_edit_syntax.specs.declared.event.EventKind.TheVariants.{After};
ghost use Rattle.toml_edit_tree.specs.Containers.{array_node};
ghost use Rattle.toml_edit_parser.specs.Near.{IsNear};
ghost use Rattle.toml_edit_parser.specs.ValueRead as spec;
ghost use Rattle.toml_edit_parser.specs.ValueRead.{span_at, AreIn, ReadsElement, ReadsElements, ReadsValue, IfArrayNext, IfElementsNext, IfElementNext, IfScalarNext, Leaves, LeavesBeside, LeavesRest};
ghost use Rattle.toml_edit_tree.specs.View.{array_view, items_view, value_view};
ghost use Rattle.toml_edit_model.specs.OwnedForm.{ItemsFit, NodeFits};
ghost use Rattle.toml_edit_parser.specs.Listed.{Refuses};

use crate::events::{Close, raw, room_for, split_before, split_close, split_first, split_scalar};
use crate::fault::{malformed, refusal_with};
use crate::reader::Reader;
use crate::spanned::put_spanned;
use crate::value::read_value;
use toml_edit_error::ParseFault;
use toml_edit_repr::{Decor, Formatted, Mem};
use toml_edit_syntax::{Event, EventKind, Span, text_at};
use toml_edit_token::{decode_integer, decode_other, range_message};
use toml_edit_tree::{Array, Item, Value};

/// Returns `true` if these are the events of an element that is a scalar.
fn is_scalar_element(events: &[Event]) -> bool {
    match events {
        [_, value, _] => matches!(value.kind, EventKind::Scalar),
        _ => false,
    }
}

/// Returns the number of scalar elements at the front.
fn scalar_count(events: &[Event]) -> usize {
    events
        .chunks(3)
        .take_while(|element| is_scalar_element(*element))
        .count()
}

/// Reads an array after its opening bracket. Returns it with the rest of the events.
#[cycle(read)]
pub(crate) fn read_array<'a>(
    reader: &Reader<'_>,
    opening: Span,
    events: &'a [Event],
) -> Result<(Value, &'a [Event]), ParseFault>
    requires { AreIn reader.now.source.now events.now }
    ensures value { (es : Elements) (comma : Bool) (t : Text) (start level : ℕ) (more : List Event)
        → IfArrayNext reader.now.source.now opening.start events.now es comma t start level more
        (ReadsValue reader.now.source.now (syntax.array es comma t) start level more result) }
    ensures refused { Refuses reader.now.source.now result }
    ensures fits { IfOk result (λ r. NodeFits reader.now.source.now (value_view r.0)) }
    ensures rest { LeavesBeside reader.now.source.now events.now result }
{
    let count = room_for(events, scalar_count(events), 3);
    let mut values = Vec::with_capacity(reader.alloc, count)?;
    let rest = read_elements(reader, events, &mut values)?;
    close_array(reader, opening, values, rest)
}

/// Reads the values at the front. Returns the rest of the events.
#[cycle(read)]
fn read_elements<'a>(
    reader: &Reader<'_>,
    events: &'a [Event],
    values: &mut Vec<Item>,
) -> Result<&'a [Event], ParseFault>
    requires spans { AreIn reader.now.source.now events.now }
    requires first { values.old.items ≡ [] }
    ensures elements { (es : Elements) (start level : ℕ) (more : List Event)
        → IfElementsNext reader.now.source.now events.now es start level more
        (ReadsElements reader.now.source.now es start level more values.new.items result) }
    ensures refused { Refuses reader.now.source.now result }
    ensures fits { OnOk result (ItemsFit reader.now.source.now (items_view values.new.items)) }
    ensures rest { LeavesRest reader.now.source.now events.now result }
{
    let mut rest = events;
    'elements: while let Some((before, tail)) = split_before(rest) {
        rest = match split_scalar(tail) {
            Some((scalar, behind)) => {
                read_scalar_element(reader, before, scalar, behind, values)?
            }
            None => read_element(reader, before, tail, values)?,
        };
    }
    Ok(rest)
}

/// Adds the scalar that is spelled at the span, between the text before it and the text after it,
/// which comes first. Returns the rest of the events. Most elements are scalars, so they are made
/// in place and never moved.
fn read_scalar_element<'a>(
    reader: &Reader<'_>,
    before: Span,
    span: Span,
    events: &'a [Event],
    values: &mut Vec<Item>,
) -> Result<&'a [Event], ParseFault>
    requires before { IsSpanOf reader.now.source.now before }
    requires span { IsSpanOf reader.now.source.now span }
    requires spans { AreIn reader.now.source.now events.now }
    ensures element { (a : Around) (s : Scalar) (t : Text) (start level : ℕ) (more : List Event)
        → IfScalarNext reader.now.source.now before span events.now a s t start level more
        (ReadsElement reader.now.source.now a (syntax.scalar s t) start level more values.old.items
        values.new.items result) }
    ensures refused { Refuses reader.now.source.now result }
    ensures fits { ItemsFit reader.now.source.now (items_view values.old.items)
        → OnOk result (ItemsFit reader.now.source.now (items_view values.new.items)) }
    ensures rest { Leaves reader.now.source.now events.now result }
{
    let Some((after, rest)) = split_first(events) else {
        return Err(malformed(reader));
    };
    let text = text_at(reader.source, span);
    let decor = Decor::new(raw(before), raw(after.span));
    if let Some(number) = decode_integer(text) {
        put_value(
            values,
            Value::Integer(Formatted::spanned(number, span.start, span.end, decor)),
        )?;
        return Ok(rest);
    }
    match decode_other(reader.alloc, text)? {
        Some(scalar) => {
            let at = values.len();
            values.push(Item::None)?;
            put_spanned(scalar, span, decor, &mut values[at]);
            Ok(rest)
        }
        None => Err(refusal_with(reader, range_message(text), span)),
    }
}

/// Adds the value at the front. Returns the rest of the events.
#[cycle(read)]
#[inline(never)]
fn read_element<'a>(
    reader: &Reader<'_>,
    before: Span,
    events: &'a [Event],
    values: &mut Vec<Item>,
) -> Result<&'a [Event], ParseFault>
    requires before { IsSpanOf reader.now.source.now before }
    requires spans { AreIn reader.now.source.now events.now }
    ensures element { (a : Around) (v : syntax.Value) (start level : ℕ) (more : List Event)
        → IfElementNext reader.now.source.now before events.now a v start level more
        (ReadsElement reader.now.source.now a v start level more values.old.items values.new.items
        result) }
    ensures refused { Refuses reader.now.source.now result }
    ensures fits { ItemsFit reader.now.source.now (items_view values.old.items)
        → OnOk result (ItemsFit reader.now.source.now (items_view values.new.items)) }
    ensures rest { Leaves reader.now.source.now events.now result }
{
    let (value, rest) = read_value(reader, events)?;
    end_element(reader, before, value, rest, values)
}

/// Adds a value that was read between the text before it and the text after it, which comes first.
/// Returns the rest of the events.
fn end_element<'a>(
    reader: &Reader<'_>,
    before: Span,
    value: Value,
    events: &'a [Event],
    values: &mut Vec<Item>,
) -> Result<&'a [Event], ParseFault>
    requires before { IsSpanOf reader.now.source.now before }
    requires spans { AreIn reader.now.source.now events.now }
    ensures element { (b c : Text) (start end : ℕ) (more : List Event) → before ≡ span_at start b
        → events.now ≡ event After end c ∷ more
        → spec.EndsElement (with_decor (decor_at spanned_form start b end c)
        (value_view value)) more values.old.items values.new.items result }
    ensures refused { Refuses reader.now.source.now result }
    ensures fits { NodeFits reader.now.source.now (value_view value)
        → ItemsFit reader.now.source.now (items_view values.old.items)
        → OnOk result (ItemsFit reader.now.source.now (items_view values.new.items)) }
    ensures rest { Leaves reader.now.source.now events.now result }
{
    let Some((after, rest)) = split_first(events) else {
        drop(value);
        return Err(malformed(reader));
    };
    put_value(values, value.decorated(raw(before), raw(after.span)))?;
    Ok(rest)
}

/// Pushes a value.
// Inlined, so that the value is made in its place.
#[inline(always)]
fn put_value(values: &mut Vec<Item>, value: Value) -> Mem<()>
    ensures { OnOk result (values.new.items ≡ values.old.items ++ Item.Value value ∷ []) }
{
    values.push(Item::Value(value))?;
    Ok(())
}

/// Makes the array of these values, whose end comes first. Returns it with the rest of the events.
fn close_array<'a>(
    reader: &Reader<'_>,
    opening: Span,
    values: Vec<Item>,
    events: &'a [Event],
) -> Result<(Value, &'a [Event]), ParseFault>
    requires { AreIn reader.now.source.now events.now }
    ensures value { (close : Close) (more : List Event)
        → spec.split_close events.now ≡ Some (close, more)
        → spec.EndsArray opening.start close (items_view values.items) more result }
    ensures refused { Refuses reader.now.source.now result }
    ensures fits { ItemsFit reader.now.source.now (items_view values.items)
        → IfOk result (λ r. NodeFits reader.now.source.now (value_view r.0)) }
    ensures rest { LeavesBeside reader.now.source.now events.now result }
{
    let Some((close, rest)) = split_close(events) else {
        return Err(malformed(reader));
    };
    Ok((array_value(opening, close, values), rest))
}

/// Makes the value of an array.
fn array_value(opening: Span, close: Close, values: Vec<Item>) -> Value
    requires { IsNear close.inner }
    ensures { value_view result
        ≡ array_node (spec.array_of opening.start close (items_view values.items)) }
{
    Value::Array(new_array(opening, close, values))
}

/// Makes the array of these values.
fn new_array(opening: Span, close: Close, values: Vec<Item>) -> Array
    requires { IsNear close.inner }
    ensures { array_view result ≡ spec.array_of opening.start close (items_view values.items) }
{
    Array::spanned(
        values,
        close.comma,
        raw(close.inner),
        opening.start,
        close.end,
    )
}
