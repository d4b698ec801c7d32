//! Emptying tables and arrays from the innermost out, before they are dropped.
//!
//! A drop of a tree would take a large frame for each level. These functions go down by references,
//! in small frames, and what they drop then holds nothing.
ghost use Rattle.std.specs.Prelude.{◌≡◌, ◌≤◌, []};
ghost use Rattle.toml_edit_tree.specs.Containers.{array_node, inline_node, table_node, tables_node};
ghost use Rattle.toml_edit_tree.specs.Emptied.{emptied};
ghost use Rattle.toml_edit_tree.specs.View.{array_view, inline_view, item_view, table_view, tables_view, value_view};
ghost use Rattle.toml_edit_tree.specs.declared.array.Array.{size-Array};
ghost use Rattle.toml_edit_tree.specs.declared.array_of_tables.ArrayOfTables.{size-ArrayOfTables};
ghost use Rattle.toml_edit_tree.specs.declared.inline_table.InlineTable.{size-InlineTable};
ghost use Rattle.toml_edit_tree.specs.declared.item.Item.{size-Item};
ghost use Rattle.toml_edit_tree.specs.declared.table.Table.{size-Table};
ghost use Rattle.toml_edit_tree.specs.declared.value.Value.{size-Value};

use crate::array::Array;
use crate::array_of_tables::ArrayOfTables;
use crate::inline_table::InlineTable;
use crate::item::Item;
use crate::table::Table;
use crate::value::Value;
use std::mem;
use toml_edit_slots::Slots;

/// Empties what the slots hold, and then the slots.
#[cycle(tree_drop)]
#[inline(never)]
pub(crate) fn empty_slots(slots: &mut Slots<Item>)
    ensures { slots.new ≡ [] }
{
    for at in 0..slots.len() {
        empty_item(slots.item_mut(at));
    }
    clear_slots(slots);
}

/// Empties what the items hold, and then the list.
#[cycle(tree_drop)]
#[inline(never)]
pub(crate) fn empty_items(items: &mut Vec<Item>)
    ensures { items.new.items ≡ [] }
{
    for at in 0..items.len() {
        empty_item(&mut items[at]);
    }
    clear_items(items);
}

/// Empties what an item holds.
#[cycle(tree_drop)]
#[inline(always)]
fn empty_item(item: &mut Item)
    ensures emptied { item_view item.new ≡ emptied (item_view item.old) }
    ensures no_deeper { size-Item item.new ≤ size-Item item.old }
{
    match item {
        Item::None => {}
        Item::Value(value) => empty_value(value),
        Item::Table(table) => empty_table(table),
        Item::ArrayOfTables(tables) => empty_tables(tables),
    }
}

/// Empties what a value holds.
#[cycle(tree_drop)]
#[inline(always)]
fn empty_value(value: &mut Value)
    ensures emptied { value_view value.new ≡ emptied (value_view value.old) }
    ensures no_deeper { size-Value value.new ≤ size-Value value.old }
{
    match value {
        Value::Array(array) => empty_array(array),
        Value::InlineTable(table) => empty_inline(table),
        Value::String(_)
        | Value::Integer(_)
        | Value::Float(_)
        | Value::Boolean(_)
        | Value::Datetime(_) => {}
    }
}

/// Empties an array.
#[cycle(tree_drop)]
#[inline(always)]
fn empty_array(array: &mut Array)
    ensures emptied { array_node (array_view array.new)
        ≡ emptied (array_node (array_view array.old)) }
    ensures no_deeper { size-Array array.new ≤ size-Array array.old }
{
    empty_items(&mut array.values);
}

/// Empties an inline table.
#[cycle(tree_drop)]
#[inline(always)]
fn empty_inline(table: &mut InlineTable)
    ensures emptied { inline_node (inline_view table.new)
        ≡ emptied (inline_node (inline_view table.old)) }
    ensures no_deeper { size-InlineTable table.new ≤ size-InlineTable table.old }
{
    empty_slots(&mut table.items);
}

/// Empties a table.
#[cycle(tree_drop)]
#[inline(always)]
fn empty_table(table: &mut Table)
    ensures emptied { table_node (table_view table.new)
        ≡ emptied (table_node (table_view table.old)) }
    ensures no_deeper { size-Table table.new ≤ size-Table table.old }
{
    empty_slots(&mut table.slots);
}

/// Empties an array of tables.
#[cycle(tree_drop)]
#[inline(always)]
fn empty_tables(tables: &mut ArrayOfTables)
    ensures emptied { tables_node (tables_view tables.new)
        ≡ emptied (tables_node (tables_view tables.old)) }
    ensures no_deeper { size-ArrayOfTables tables.new ≤ size-ArrayOfTables tables.old }
{
    empty_items(&mut tables.values);
}

/// Removes the slots, in a frame of its own.
#[cycle(tree_drop)]
#[inline(never)]
fn clear_slots(slots: &mut Slots<Item>)
    ensures { slots.new ≡ [] }
{
    let alloc = slots.allocator();
    drop(mem::replace(slots, Slots::new(alloc)));
}

/// Removes the items, in a frame of its own.
#[cycle(tree_drop)]
#[inline(never)]
fn clear_items(items: &mut Vec<Item>)
    ensures { items.new.items ≡ [] }
{
    let alloc = *items.allocator();
    drop(mem::replace(items, Vec::new(alloc)));
}
