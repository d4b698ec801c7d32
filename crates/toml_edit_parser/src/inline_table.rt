//! Inline tables and their pairs, from their events to slots.
ghost use Rattle.std.specs.Prelude.{◌≡◌, List, ℕ, [], Bool, None, Some, OnOk, IfOk};
ghost use Rattle.toml_edit_model.specs.Text.{Text};
ghost use Rattle.toml_edit_model.specs.Syntax as syntax;
ghost use Rattle.toml_edit_model.specs.Syntax.{Frame, Pairs, Segment, inline_table};
ghost use Rattle.toml_edit_model.specs.Paths.{Path, line_mentions};
ghost use Rattle.toml_edit_model.specs.Tree.{inline};
ghost use Rattle.toml_edit_model.specs.TreeOf.{Entry};
ghost use Rattle.toml_edit_laws.specs.InlineTree.{path_fields};
ghost use Rattle.toml_edit_slots.specs.Slots.{place};
ghost use Rattle.toml_edit_syntax.specs.Events.{IsSpanOf};
ghost use Rattle.toml_edit_tree.specs.Containers.{inline_node};
ghost use Rattle.toml_edit_parser.specs.PairRead as spec;
ghost use Rattle.toml_edit_parser.specs.PairRead.{AddsBelow, AddsEntry, AddsPathInside, EndsInline, EndsPair, ReadsPair, ReadsPairs, IfInlineNext, IfPairsNext, IfPairNext, IfPairEnds, IfPathNext, IsPathIn};
ghost use Rattle.toml_edit_parser.specs.Near.{IsNear};
ghost use Rattle.toml_edit_parser.specs.ValueRead.{split_close, AreIn, ReadsValue, Leaves, LeavesBeside, LeavesRest};
ghost use Rattle.toml_edit_tree.specs.View.{inline_view, item_view, slots_view, value_view};
ghost use Rattle.toml_edit_model.specs.OwnedForm.{KeyFits, NodeFits, SlotsFit};
ghost use Rattle.toml_edit_parser.specs.Listed.{Refuses};

use crate::events::{Close, raw, room_for, split_close, split_first, split_leading};
use crate::fault::{Fault, malformed, refusal, refusal_of_all};
use crate::key::{
    FrameSpans, KeyPath, MOST_PATH_EVENTS, last_key, passed_key, path_behind, read_name, split_dot,
    split_frame,
};
use crate::reader::Reader;
use crate::slots::{add_last, push_item};
use crate::value::read_item;
use toml_edit_error::ParseFault;
use toml_edit_key::Key;
use toml_edit_slots::Slots;
use toml_edit_syntax::{Event, EventKind, Span};
use toml_edit_tree::{InlineTable, Item, Value};

/// Returns `true` if these are the events of a pair of one key and a scalar.
fn is_plain_pair(events: &[Event]) -> bool {
    match events {
        [_, _, sign, value, _] => {
            matches!(sign.kind, EventKind::Equals) && matches!(value.kind, EventKind::Scalar)
        }
        _ => false,
    }
}

/// Returns the number of pairs of one key and a scalar at the front.
fn plain_count(events: &[Event]) -> usize {
    events
        .chunks(5)
        .take_while(|pair| is_plain_pair(*pair))
        .count()
}

/// Reads an inline table after its opening brace. Returns it with the rest of the events.
#[cycle(read)]
pub(crate) fn read_inline<'a>(
    reader: &Reader<'_>,
    opening: Span,
    events: &'a [Event],
) -> Result<(Value, &'a [Event]), ParseFault>
    requires { AreIn reader.now.source.now events.now }
    ensures value { (ps : Pairs) (comma : Bool) (t : Text) (start level : ℕ) (more : List Event)
        → IfInlineNext reader.now.source.now opening.start events.now ps comma t start level more
        (ReadsValue reader.now.source.now (inline_table ps comma t) start level more result) }
    ensures refused { Refuses reader.now.source.now result }
    ensures fits { IfOk result (λ r. NodeFits reader.now.source.now (value_view r.0)) }
    ensures rest { LeavesBeside reader.now.source.now events.now result }
{
    let count = room_for(events, plain_count(events), 5);
    let mut slots = Slots::with_room(reader.alloc, count);
    let rest = read_pairs(reader, events, &mut slots)?;
    close_inline(reader, opening, slots, rest)
}

/// Reads the pairs at the front into slots. Returns the rest of the events.
#[cycle(read)]
fn read_pairs<'a>(
    reader: &Reader<'_>,
    events: &'a [Event],
    slots: &mut Slots<Item>,
) -> Result<&'a [Event], ParseFault>
    requires spans { AreIn reader.now.source.now events.now }
    requires first { slots.old ≡ [] }
    ensures pairs { (ps : Pairs) (start level : ℕ) (more : List Event)
        → IfPairsNext reader.now.source.now events.now ps start level more
        (ReadsPairs reader.now.source.now ps start level more (slots_view slots.new) result) }
    ensures refused { Refuses reader.now.source.now result }
    ensures fits { OnOk result (SlotsFit reader.now.source.now (slots_view slots.new)) }
    ensures rest { LeavesRest reader.now.source.now events.now result }
{
    let mut rest = events;
    'pairs: while let Some((leading, tail)) = split_leading(rest) {
        rest = read_pair(reader, leading, tail, slots)?;
    }
    Ok(rest)
}

/// Reads the pair after the leading text, and adds it. Returns the rest of the events.
#[cycle(read)]
fn read_pair<'a>(
    reader: &Reader<'_>,
    leading: Span,
    events: &'a [Event],
    slots: &mut Slots<Item>,
) -> Result<&'a [Event], ParseFault>
    requires leading { IsSpanOf reader.now.source.now leading }
    requires spans { AreIn reader.now.source.now events.now }
    ensures pair { (f : Frame) (v : syntax.Value) (start level : ℕ) (more : List Event)
        → IfPairNext reader.now.source.now leading events.now f v start level more
        (ReadsPair reader.now.source.now f v start level more (slots_view slots.old)
        (slots_view slots.new) result) }
    ensures refused { Refuses reader.now.source.now result }
    ensures fits { SlotsFit reader.now.source.now (slots_view slots.old)
        → OnOk result (SlotsFit reader.now.source.now (slots_view slots.new)) }
    ensures rest { Leaves reader.now.source.now events.now result }
{
    let Some((frame, rest)) = split_frame(leading, events) else {
        return Err(malformed(reader));
    };
    if MOST_PATH_EVENTS < frame.path.len() {
        return Err(refusal_of_all(reader));
    }
    let mut item = Item::None;
    let rest = read_item(reader, rest, &mut item)?;
    let ended = end_pair(reader, frame, &mut item, rest, slots);
    drop(item);
    ended
}

/// Adds an item that was read at the end of its key's path, between the text before it and the text
/// after it, which comes first. Leaves a placeholder in the item's place, and returns the rest of
/// the events.
fn end_pair<'a>(
    reader: &Reader<'_>,
    frame: FrameSpans<'_>,
    item: &mut Item,
    events: &'a [Event],
    slots: &mut Slots<Item>,
) -> Result<&'a [Event], ParseFault>
    requires leading { IsSpanOf reader.now.source.now frame.leading }
    requires path { AreIn reader.now.source.now frame.path.now }
    requires before_equals { IsSpanOf reader.now.source.now frame.before_equals }
    requires after_equals { IsSpanOf reader.now.source.now frame.after_equals }
    requires spans { AreIn reader.now.source.now events.now }
    ensures pair { (f : Frame) (v : syntax.Value) (start end : ℕ) (more : List Event)
        → IfPairEnds reader.now.source.now frame.entry events.now f start end more
        (EndsPair reader.now.source.now f v start end (item_view item.old) more
        (slots_view slots.old) (slots_view slots.new) result) }
    ensures refused { Refuses reader.now.source.now result }
    ensures fits { NodeFits reader.now.source.now (item_view item.old)
        → SlotsFit reader.now.source.now (slots_view slots.old)
        → OnOk result (SlotsFit reader.now.source.now (slots_view slots.new)) }
    ensures rest { Leaves reader.now.source.now events.now result }
{
    let Some((after, rest)) = split_first(events) else {
        return Err(malformed(reader));
    };
    item.decorate(raw(frame.after_equals), raw(after.span));
    let path = path_behind(frame.leading, frame.path, frame.before_equals);
    add_entry(reader, path, item, slots)?;
    Ok(rest)
}

/// Adds an item at the end of a path, and leaves a placeholder in its place.
#[cycle(add)]
fn add_entry(
    reader: &Reader<'_>,
    path: KeyPath<'_>,
    item: &mut Item,
    slots: &mut Slots<Item>,
) -> Result<(), ParseFault>
    requires path { IsPathIn reader.now.source.now path }
    ensures entry { (e : Entry) (p : List Segment) (start : ℕ) (above : Path)
        → IfPathNext reader.now.source.now path.entry e p start
        (AddsEntry reader.now.source.now (line_mentions e start above p) (item_view item.old)
        (slots_view slots.old) (slots_view slots.new) result) }
    ensures fits { NodeFits reader.now.source.now (item_view item.old)
        → SlotsFit reader.now.source.now (slots_view slots.old)
        → OnOk result (SlotsFit reader.now.source.now (slots_view slots.new)) }
    ensures refused { Refuses reader.now.source.now result }
{
    let Some((first, rest)) = split_first(path.events) else {
        return Err(malformed(reader));
    };
    let name = read_name(reader, first.span)?;
    match split_dot(path, rest) {
        None => add_last(
            reader,
            last_key(name, first.span, path),
            first.span,
            item,
            slots,
        ),
        Some((after, inside)) => {
            let key = passed_key(name, first.span, path.before, after);
            match slots.find(key.get()) {
                Some(at) => add_inside(reader, first.span, inside, item, slots.item_mut(at)),
                None => add_below(reader, key, first.span, inside, item, slots),
            }
        }
    }
}

/// Adds an item at the end of the rest of a path, below a new key.
#[cycle(add)]
fn add_below(
    reader: &Reader<'_>,
    key: Key,
    span: Span,
    path: KeyPath<'_>,
    item: &mut Item,
    slots: &mut Slots<Item>,
) -> Result<(), ParseFault>
    requires new { place key.name slots.old ≡ None }
    requires path { IsPathIn reader.now.source.now path }
    ensures entry { (e : Entry) (p : List Segment) (start : ℕ) (above : Path)
        → IfPathNext reader.now.source.now path.entry e p start
        (AddsBelow key span (line_mentions e start above p) (item_view item.old)
        (slots_view slots.old) (slots_view slots.new) result) }
    ensures fits { KeyFits reader.now.source.now key
        → NodeFits reader.now.source.now (item_view item.old)
        → SlotsFit reader.now.source.now (slots_view slots.old)
        → OnOk result (SlotsFit reader.now.source.now (slots_view slots.new)) }
    ensures refused { Refuses reader.now.source.now result }
{
    let mut inner = Slots::new(reader.alloc);
    add_entry(reader, path, item, &mut inner)?;
    let mut passed = path_item(span, inner);
    push_item(slots, key, &mut passed)?;
    Ok(())
}

/// Adds an item at the end of the rest of a path, below an existing key with this item.
#[cycle(add)]
fn add_inside(
    reader: &Reader<'_>,
    key: Span,
    path: KeyPath<'_>,
    item: &mut Item,
    holder: &mut Item,
) -> Result<(), ParseFault>
    requires key { IsSpanOf reader.now.source.now key }
    requires path { IsPathIn reader.now.source.now path }
    ensures entry { AddsPathInside reader.now.source.now key path.entry (item_view item.old)
        (item_view holder.old) (item_view holder.new) result }
    ensures fits { NodeFits reader.now.source.now (item_view item.old)
        → NodeFits reader.now.source.now (item_view holder.old)
        → OnOk result (NodeFits reader.now.source.now (item_view holder.new)) }
    ensures refused { Refuses reader.now.source.now result }
{
    match holder {
        Item::Value(value) => add_in_value(reader, key, path, item, value),
        _ => Err(refusal(reader, Fault::DuplicateKey, key)),
    }
}

/// Adds an item at the end of the rest of a path, below an existing key with this value.
#[cycle(add)]
fn add_in_value(
    reader: &Reader<'_>,
    key: Span,
    path: KeyPath<'_>,
    item: &mut Item,
    holder: &mut Value,
) -> Result<(), ParseFault>
    requires key { IsSpanOf reader.now.source.now key }
    requires path { IsPathIn reader.now.source.now path }
    ensures entry { AddsPathInside reader.now.source.now key path.entry (item_view item.old)
        (value_view holder.old) (value_view holder.new) result }
    ensures fits { NodeFits reader.now.source.now (item_view item.old)
        → NodeFits reader.now.source.now (value_view holder.old)
        → OnOk result (NodeFits reader.now.source.now (value_view holder.new)) }
    ensures refused { Refuses reader.now.source.now result }
{
    let fault = Fault::extending(holder);
    match holder {
        Value::InlineTable(table) => add_in_table(reader, key, path, item, table),
        _ => Err(refusal(reader, fault, key)),
    }
}

/// Adds an item at the end of the rest of a path, below an existing key with this inline table.
#[cycle(add)]
fn add_in_table(
    reader: &Reader<'_>,
    key: Span,
    path: KeyPath<'_>,
    item: &mut Item,
    table: &mut InlineTable,
) -> Result<(), ParseFault>
    requires key { IsSpanOf reader.now.source.now key }
    requires path { IsPathIn reader.now.source.now path }
    ensures entry { AddsPathInside reader.now.source.now key path.entry (item_view item.old)
        (inline_node (inline_view table.old)) (inline_node (inline_view table.new)) result }
    ensures fits { NodeFits reader.now.source.now (item_view item.old)
        → NodeFits reader.now.source.now (inline_node (inline_view table.old))
        → OnOk result (NodeFits reader.now.source.now (inline_node (inline_view table.new))) }
    ensures refused { Refuses reader.now.source.now result }
{
    if table.is_dotted() {
        add_entry(reader, path, item, table.slots_mut())
    } else {
        Err(refusal(reader, Fault::DuplicateKey, key))
    }
}

/// Makes the item of a key that a path passes through, with these slots below it.
fn path_item(key: Span, slots: Slots<Item>) -> Item
    ensures { item_view result
        ≡ inline (path_fields (Some (key.start, key.end))) (slots_view slots) }
{
    Item::Value(Value::InlineTable(path_table(key, slots)))
}

/// Makes the dotted inline table of a key that a path passes through.
fn path_table(key: Span, slots: Slots<Item>) -> InlineTable
    ensures { inline_view result
        ≡ record { fields = path_fields (Some (key.start, key.end)); slots = slots_view slots } }
{
    InlineTable::below_key(slots, key.start, key.end)
}

/// Makes the inline table of these slots, whose end comes first. Returns it with the rest of the
/// events.
fn close_inline<'a>(
    reader: &Reader<'_>,
    opening: Span,
    slots: Slots<Item>,
    events: &'a [Event],
) -> Result<(Value, &'a [Event]), ParseFault>
    requires { AreIn reader.now.source.now events.now }
    ensures value { (close : Close) (more : List Event)
        → split_close events.now ≡ Some (close, more)
        → EndsInline opening.start close (slots_view slots) more result }
    ensures refused { Refuses reader.now.source.now result }
    ensures fits { SlotsFit reader.now.source.now (slots_view slots)
        → IfOk result (λ r. NodeFits reader.now.source.now (value_view r.0)) }
    ensures rest { LeavesBeside reader.now.source.now events.now result }
{
    let Some((close, rest)) = split_close(events) else {
        return Err(malformed(reader));
    };
    Ok((inline_value(opening, close, slots), rest))
}

/// Makes the value of an inline table.
fn inline_value(opening: Span, close: Close, slots: Slots<Item>) -> Value
    requires { IsNear close.inner }
    ensures { value_view result
        ≡ inline_node (spec.inline_of opening.start close (slots_view slots)) }
{
    Value::InlineTable(new_inline(opening, close, slots))
}

/// Makes the inline table of these slots.
fn new_inline(opening: Span, close: Close, slots: Slots<Item>) -> InlineTable
    requires { IsNear close.inner }
    ensures { inline_view result ≡ spec.inline_of opening.start close (slots_view slots) }
{
    InlineTable::spanned(
        slots,
        close.comma,
        raw(close.inner),
        opening.start,
        close.end,
    )
}
