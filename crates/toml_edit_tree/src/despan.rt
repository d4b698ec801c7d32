//! Replacing the spans of items by the texts of the source, in place, with a function for each type
//! that holds others.
//!
//! A call that runs out of memory leaves some of the spans.
ghost use Rattle.std.specs.Prelude.{◌≡◌, OnOk};
ghost use Rattle.toml_edit_model.specs.Tree.{IsWellMade, ItemsAreWellMade, SlotsAreWellMade};
ghost use Rattle.toml_edit_tree.specs.Containers.{array_node, inline_node, table_node, tables_node};
ghost use Rattle.toml_edit_tree.specs.View.{array_view, inline_view, item_view, items_view, slots_view, table_view, tables_view, value_view};
ghost use Rattle.toml_edit_model.specs.OwnedForm.{ItemsFit, NodeFits, SlotsFit, owned_items, owned_node, owned_slots};

use crate::array::Array;
use crate::array_of_tables::ArrayOfTables;
use crate::inline_table::InlineTable;
use crate::item::Item;
use crate::table::Table;
use crate::value::Value;
use std::alloc::Global;
use toml_edit_repr::Mem;
use toml_edit_slots::Slots;
use toml_edit_text::SharedText;

/// Replaces the spans in an item, and in all that it holds.
// Most items are values without parts: the loops below handle those with no further call.
#[cycle(despan)]
#[inline(always)]
pub(crate) fn despan_item(item: &mut Item, alloc: Global, source: &SharedText) -> Mem<()>
    requires fits { NodeFits source.now (item_view item.old) }
    requires spelled { ∥ IsWellMade (owned_node source.now (item_view item.old)) ∥₁ }
    ensures { OnOk result (item_view item.new ≡ owned_node source.now (item_view item.old)) }
{
    match item {
        Item::None => Ok(()),
        Item::Value(value) => despan_value(value, alloc, source),
        Item::Table(table) => despan_table(table, alloc, source),
        Item::ArrayOfTables(tables) => despan_tables(tables, alloc, source),
    }
}

/// Replaces the spans of a value: of its spelling, its decor and what it holds.
#[cycle(despan)]
#[inline(always)]
pub(crate) fn despan_value(value: &mut Value, alloc: Global, source: &SharedText) -> Mem<()>
    requires fits { NodeFits source.now (value_view value.old) }
    requires spelled { ∥ IsWellMade (owned_node source.now (value_view value.old)) ∥₁ }
    ensures { OnOk result (value_view value.new ≡ owned_node source.now (value_view value.old)) }
{
    match value {
        Value::String(scalar) => scalar.despan(alloc, source),
        Value::Integer(scalar) => scalar.despan(alloc, source),
        Value::Float(scalar) => scalar.despan(alloc, source),
        Value::Boolean(scalar) => scalar.despan(alloc, source),
        Value::Datetime(scalar) => scalar.despan(alloc, source),
        Value::Array(array) => despan_array(array, alloc, source),
        Value::InlineTable(table) => despan_inline(table, alloc, source),
    }
}

/// Replaces the spans in an array, and forgets where in the source it was.
#[cycle(despan)]
fn despan_array(array: &mut Array, alloc: Global, source: &SharedText) -> Mem<()>
    requires fits { NodeFits source.now (array_node (array_view array.old)) }
    requires spelled { ∥ IsWellMade (owned_node source.now (array_node (array_view array.old))) ∥₁ }
    ensures { OnOk result
        (array_node (array_view array.new)
        ≡ owned_node source.now (array_node (array_view array.old))) }
{
    despan_items(&mut array.values, alloc, source)?;
    array.decor.despan(alloc, source)?;
    array.trailing.despan(alloc, source)?;
    array.span = None;
    Ok(())
}

/// Replaces the spans in an inline table, and forgets where in the source it was.
#[cycle(despan)]
fn despan_inline(table: &mut InlineTable, alloc: Global, source: &SharedText) -> Mem<()>
    requires fits { NodeFits source.now (inline_node (inline_view table.old)) }
    requires spelled { ∥ IsWellMade
        (owned_node source.now (inline_node (inline_view table.old))) ∥₁ }
    ensures { OnOk result
        (inline_node (inline_view table.new)
        ≡ owned_node source.now (inline_node (inline_view table.old))) }
{
    despan_slots(&mut table.items, alloc, source)?;
    table.decor.despan(alloc, source)?;
    table.trailing.despan(alloc, source)?;
    table.is_read = false;
    Ok(())
}

/// Replaces the spans in a table, and forgets where in the source it was.
#[cycle(despan)]
pub(crate) fn despan_table(table: &mut Table, alloc: Global, source: &SharedText) -> Mem<()>
    requires fits { NodeFits source.now (table_node (table_view table.old)) }
    requires spelled { ∥ IsWellMade (owned_node source.now (table_node (table_view table.old))) ∥₁ }
    ensures { OnOk result
        (table_node (table_view table.new)
        ≡ owned_node source.now (table_node (table_view table.old))) }
{
    despan_slots(&mut table.slots, alloc, source)?;
    table.decor.despan(alloc, source)?;
    table.span = None;
    Ok(())
}

/// Replaces the spans in an array of tables, and forgets where in the source it was.
#[cycle(despan)]
fn despan_tables(tables: &mut ArrayOfTables, alloc: Global, source: &SharedText) -> Mem<()>
    requires fits { NodeFits source.now (tables_node (tables_view tables.old)) }
    requires spelled { ∥ IsWellMade
        (owned_node source.now (tables_node (tables_view tables.old))) ∥₁ }
    ensures { OnOk result
        (tables_node (tables_view tables.new)
        ≡ owned_node source.now (tables_node (tables_view tables.old))) }
{
    despan_items(&mut tables.values, alloc, source)?;
    tables.span = None;
    Ok(())
}

/// Replaces the spans of each item of an array.
#[cycle(despan)]
fn despan_items(items: &mut Vec<Item>, alloc: Global, source: &SharedText) -> Mem<()>
    requires fits { ItemsFit source.now (items_view items.old.items) }
    requires spelled { ∥ ItemsAreWellMade (owned_items source.now (items_view items.old.items)) ∥₁ }
    ensures { OnOk result
        (items_view items.new.items ≡ owned_items source.now (items_view items.old.items)) }
{
    for at in 0..items.len() {
        despan_item(&mut items[at], alloc, source)?;
    }
    Ok(())
}

/// Replaces the spans of each key and of its item.
#[cycle(despan)]
fn despan_slots(slots: &mut Slots<Item>, alloc: Global, source: &SharedText) -> Mem<()>
    requires fits { SlotsFit source.now (slots_view slots.old) }
    requires spelled { ∥ SlotsAreWellMade (owned_slots source.now (slots_view slots.old)) ∥₁ }
    ensures { OnOk result (slots_view slots.new ≡ owned_slots source.now (slots_view slots.old)) }
{
    for at in 0..slots.len() {
        slots.despan_key(at, alloc, source)?;
        let item = slots.item_mut(at);
        despan_item(item, alloc, source)?;
    }
    Ok(())
}
