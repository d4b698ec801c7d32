//! Adding what a statement states at the end of its path: down the path, key by key.
ghost use Rattle.std.specs.Prelude.{◌≡◌, List, None, Some, OnOk};
ghost use Rattle.toml_edit_model.specs.Mode.{Mode};
ghost use Rattle.toml_edit_model.specs.Paths.{Mention, Source};
ghost use Rattle.toml_edit_model.specs.Tree.{Node, TableFields, no_slots, table as table_of};
ghost use Rattle.toml_edit_model.specs.TreeOf.{made_by_path, spanned_form};
ghost use Rattle.toml_edit_laws.specs.AddPath.{a_value};
ghost use Rattle.toml_edit_laws.specs.FlatTree.{with_slot};
ghost use Rattle.toml_edit_slots.specs.Slots.{place};
ghost use Rattle.toml_edit_syntax.specs.Events.{IsSpanOf};
ghost use Rattle.toml_edit_parser.specs.Listed.{Refuses};
ghost use Rattle.toml_edit_parser.specs.PairRead.{IsPathIn};
ghost use Rattle.toml_edit_tree.specs.Containers.{table_node, tables_node};
ghost use Rattle.toml_edit_tree.specs.View.{item_view, slots_view, table_view, tables_view};
ghost use Rattle.toml_edit_parser.specs.TableRead as spec;
ghost use Rattle.toml_edit_parser.specs.TableRead.{AddsPath, IsPathOf, addition_for, AddsBelow, AddsInLast, AddsInPassed, AddsInTable, AddsPathInside, IfAdded, IfAddedAfter};

use crate::document::block::place_of;
use crate::document::last_key::put_last;
use crate::document::room::Behind;
use crate::events::split_first;
use crate::fault::{Fault, duplicate_key, malformed, refusal};
use crate::key::{KeyPath, last_key, passed_key, read_name, split_dot};
use crate::reader::Reader;
use crate::slots::{add_last, push_item};
use toml_edit_error::ParseFault;
use toml_edit_key::Key;
use toml_edit_repr::Mem;
use toml_edit_slots::Slots;
use toml_edit_syntax::Span;
use toml_edit_tree::{ArrayOfTables, Item, Table};

/// What a statement adds at the end of its path.
#[derive(Clone, Copy)]
pub(crate) enum Kind {
    /// A key line: its value.
    Line,
    /// A header: its table.
    Table,
    /// A header in double brackets, which are at this span: an element of an array of tables.
    Element(Span),
}

/// What is added, to the tree of a text.
#[derive(Clone, Copy)]
pub(crate) struct Adding<'a> {
    /// The text, and how it is parsed.
    pub(crate) reader: &'a Reader<'a>,
    /// What the statement adds.
    pub(crate) kind: Kind,
    /// What follows it, if it is a header.
    pub(crate) behind: Behind<'a>,
}

/// Returns `true` if it is a key line.
fn is_line(kind: Kind) -> bool
    ensures { result ≡ spec.is_line kind }
{
    matches!(kind, Kind::Line)
}

/// Adds an item at the end of a path. What is left in its place is unspecified.
///
/// Fails if a key is in the way, which the error marks, or if out of memory. The slots are
/// unspecified then: drop the document.
#[cycle(path)]
pub(crate) fn add_path(
    adding: &Adding<'_>,
    path: KeyPath<'_>,
    item: &mut Item,
    slots: &mut Slots<Item>,
) -> Result<(), ParseFault>
    requires { IsPathIn adding.now.reader.now.source.now path }
    ensures added { (mode : Mode) (s : Source) (ms : List (Mention Source))
        → IfAdded mode adding.now s ms (item_view item.old) path.entry
        (AddsPath mode adding.now.reader.now.source.now (addition_for adding.now.kind
        (item_view item.old)) ms (slots_view slots.old) (slots_view slots.new) result) }
    ensures refused { Refuses adding.now.reader.now.source.now result }
{
    let Some((first, rest)) = split_first(path.events) else {
        return Err(malformed(adding.reader));
    };
    let span = first.span;
    let name = read_name(adding.reader, span)?;
    // The key is made only where it is put: a result that holds one is copied field by field.
    match split_dot(path, rest) {
        None => put_last(adding, last_key(name, span, path), span, item, slots),
        Some((after, inside)) => match place_of(slots, name.as_str()) {
            None => {
                let key = passed_key(name, span, path.before, after);
                add_below(adding, key, span, inside, item, slots)
            }
            Some(at) => {
                drop(name);
                add_in_item(adding, span, inside, item, slots.item_mut(at))
            }
        },
    }
}

/// Adds the value of a key line at the end of its path. What is left in its place is unspecified.
///
/// Most paths are one key, which takes none of the room that a longer one does. Fails as
/// [`add_path`] does.
#[inline(always)]
pub(crate) fn add_value(
    reader: &Reader<'_>,
    path: KeyPath<'_>,
    item: &mut Item,
    slots: &mut Slots<Item>,
) -> Result<(), ParseFault>
    requires { IsPathIn reader.now.source.now path }
    ensures added { (mode : Mode) (s : Source) (ms : List (Mention Source))
        → IsPathOf mode reader.now.source.now s ms path.entry
        → AddsPath mode reader.now.source.now (a_value (item_view item.old)) ms
        (slots_view slots.old) (slots_view slots.new) result }
    ensures refused { Refuses reader.now.source.now result }
{
    let Some((first, rest)) = split_first(path.events) else {
        return Err(malformed(reader));
    };
    if !rest.is_empty() {
        let adding = Adding {
            reader,
            kind: Kind::Line,
            behind: Behind::nothing(reader.source),
        };
        return add_path(&adding, path, item, slots);
    }
    let span = first.span;
    let name = read_name(reader, span)?;
    add_last(reader, last_key(name, span, path), span, item, slots)
}

/// Adds an item at the end of the rest of a path, below a new key.
#[cycle(path)]
// Not inlined, so that its locals stay out of the caller's frame.
#[inline(never)]
fn add_below(
    adding: &Adding<'_>,
    key: Key,
    span: Span,
    path: KeyPath<'_>,
    item: &mut Item,
    slots: &mut Slots<Item>,
) -> Result<(), ParseFault>
    requires new { place key.name slots.old ≡ None }
    requires path { IsPathIn adding.now.reader.now.source.now path }
    ensures added { (mode : Mode) (s : Source) (ms : List (Mention Source))
        → IfAdded mode adding.now s ms (item_view item.old) path.entry
        (AddsBelow mode adding.now.reader.now.source.now (addition_for adding.now.kind
        (item_view item.old)) key span ms (slots_view slots.old) (slots_view slots.new) result) }
    ensures refused { Refuses adding.now.reader.now.source.now result }
{
    let at = slots.len();
    push_passed(adding, key, span, slots)?;
    add_in_passed(adding, path, item, slots.item_mut(at))
}

/// Adds the empty table of a new key that a path passes through.
#[inline(always)]
fn push_passed(adding: &Adding<'_>, key: Key, span: Span, slots: &mut Slots<Item>) -> Mem<()>
    requires { place key.name slots.old ≡ None }
    ensures { OnOk result (slots_view slots.new ≡ with_slot (slots_view slots.old) key
        (table_of (made_by_path spanned_form (spec.is_line adding.now.kind)
        (Some (span.start, span.end))) no_slots)) }
{
    let inner = Slots::new(adding.reader.alloc);
    let table = Table::new_implied(inner, is_line(adding.kind), span.start, span.end);
    let mut passed = Item::Table(table);
    push_item(slots, key, &mut passed)
}

/// Adds an item at the end of the rest of a path in this item, the empty table of a new key.
#[cycle(path)]
#[inline(always)]
fn add_in_passed(
    adding: &Adding<'_>,
    path: KeyPath<'_>,
    item: &mut Item,
    holder: &mut Item,
) -> Result<(), ParseFault>
    requires { IsPathIn adding.now.reader.now.source.now path }
    ensures added { (mode : Mode) (s : Source) (ms : List (Mention Source)) (f : TableFields)
        → item_view holder.old ≡ table_of f no_slots
        → IfAdded mode adding.now s ms (item_view item.old) path.entry
        (AddsInPassed mode adding.now.reader.now.source.now (addition_for adding.now.kind
        (item_view item.old)) ms f (item_view holder.new) result) }
    ensures refused { Refuses adding.now.reader.now.source.now result }
{
    match holder {
        Item::Table(table) => add_in_slots(adding, path, item, table),
        _ => Err(malformed(adding.reader)),
    }
}

/// Adds an item at the end of the rest of a path, below an existing key with this item.
#[cycle(path)]
// Not inlined, so that its locals stay out of the caller's frame.
#[inline(never)]
fn add_in_item(
    adding: &Adding<'_>,
    span: Span,
    path: KeyPath<'_>,
    item: &mut Item,
    holder: &mut Item,
) -> Result<(), ParseFault>
    requires span { IsSpanOf adding.now.reader.now.source.now span }
    requires path { IsPathIn adding.now.reader.now.source.now path }
    ensures added { AddsPathInside adding.now span path.entry (item_view item.old)
        (item_view holder.old) (item_view holder.new) result }
    ensures refused { Refuses adding.now.reader.now.source.now result }
{
    match holder {
        Item::Table(table) => add_in_table(adding, span, path, item, table),
        Item::ArrayOfTables(tables) => add_in_tables(adding, span, path, item, tables),
        Item::Value(value) => Err(refusal(adding.reader, Fault::extending(value), span)),
        Item::None => Err(duplicate_key(adding.reader, span)),
    }
}

/// Adds an item at the end of the rest of a path, below an existing key with this table. A key line
/// goes on in a table that has no header, which is dotted from then on.
#[cycle(path)]
fn add_in_table(
    adding: &Adding<'_>,
    span: Span,
    path: KeyPath<'_>,
    item: &mut Item,
    table: &mut Table,
) -> Result<(), ParseFault>
    requires span { IsSpanOf adding.now.reader.now.source.now span }
    requires path { IsPathIn adding.now.reader.now.source.now path }
    ensures added { AddsPathInside adding.now span path.entry (item_view item.old)
        (table_node (table_view table.old)) (table_node (table_view table.new)) result }
    ensures refused { Refuses adding.now.reader.now.source.now result }
{
    if is_line(adding.kind) {
        if !table.is_implicit() {
            return Err(duplicate_key(adding.reader, span));
        }
        table.set_dotted(true);
    }
    add_path(adding, path, item, table.slots_mut())
}

/// Adds an item at the end of the rest of a path, below an existing key with this array of tables.
/// A header goes on in the last element.
#[cycle(path)]
fn add_in_tables(
    adding: &Adding<'_>,
    span: Span,
    path: KeyPath<'_>,
    item: &mut Item,
    tables: &mut ArrayOfTables,
) -> Result<(), ParseFault>
    requires span { IsSpanOf adding.now.reader.now.source.now span }
    requires path { IsPathIn adding.now.reader.now.source.now path }
    ensures added { AddsPathInside adding.now span path.entry (item_view item.old)
        (tables_node (tables_view tables.old)) (tables_node (tables_view tables.new)) result }
    ensures refused { Refuses adding.now.reader.now.source.now result }
{
    if is_line(adding.kind) {
        return Err(duplicate_key(adding.reader, span));
    }
    match tables.values.last_mut() {
        None => Err(duplicate_key(adding.reader, span)),
        Some(last) => add_in_element(adding, span, path, item, last),
    }
}

/// Adds an item at the end of the rest of a path in this element, if it is a table.
#[cycle(path)]
fn add_in_element(
    adding: &Adding<'_>,
    span: Span,
    path: KeyPath<'_>,
    item: &mut Item,
    holder: &mut Item,
) -> Result<(), ParseFault>
    requires span { IsSpanOf adding.now.reader.now.source.now span }
    requires path { IsPathIn adding.now.reader.now.source.now path }
    ensures added { (mode : Mode) (s : Source) (m : Mention Source) (ms : List (Mention Source))
        (k : Key) (way : Node)
        → IfAddedAfter mode adding.now s m k span ms (item_view item.old) path.entry
        (AddsInLast mode adding.now.reader.now.source.now
        (addition_for adding.now.kind (item_view item.old)) m way ms (item_view holder.old)
        (item_view holder.new) result) }
    ensures refused { Refuses adding.now.reader.now.source.now result }
{
    match holder {
        Item::Table(table) => add_in_slots(adding, path, item, table),
        _ => Err(duplicate_key(adding.reader, span)),
    }
}

/// Adds an item at the end of the rest of a path in the slots of this table.
#[cycle(path)]
fn add_in_slots(
    adding: &Adding<'_>,
    path: KeyPath<'_>,
    item: &mut Item,
    table: &mut Table,
) -> Result<(), ParseFault>
    requires { IsPathIn adding.now.reader.now.source.now path }
    ensures added { (mode : Mode) (s : Source) (ms : List (Mention Source))
        → IfAdded mode adding.now s ms (item_view item.old) path.entry
        (AddsInTable mode adding.now.reader.now.source.now (addition_for adding.now.kind
        (item_view item.old)) ms (table_view table.old) (table_view table.new) result) }
    ensures refused { Refuses adding.now.reader.now.source.now result }
{
    add_path(adding, path, item, table.slots_mut())
}
