//! Copying the texts of items that are parts of a document's source, in place, with a function for
//! each type that holds others. What contracts see of an item stays, also where memory runs out.
ghost use Rattle.std.specs.Prelude.{◌≡◌};
ghost use Rattle.toml_edit_tree.specs.View.{array_view, inline_view, item_view, items_view, slots_view, table_view, tables_view, value_view};

use crate::array::Array;
use crate::array_of_tables::ArrayOfTables;
use crate::inline_table::InlineTable;
use crate::item::Item;
use crate::table::Table;
use crate::value::Value;
use std::alloc::Global;
use toml_edit_repr::Mem;
use toml_edit_slots::Slots;

/// Copies the texts of an item, and of all that it holds.
#[cycle(detach)]
#[inline(always)]
pub(crate) fn detach_item(item: &mut Item, alloc: Global) -> Mem<()>
    ensures { item_view item.new ≡ item_view item.old }
{
    match item {
        Item::None => Ok(()),
        Item::Value(value) => detach_value(value, alloc),
        Item::Table(table) => detach_table(table, alloc),
        Item::ArrayOfTables(tables) => detach_tables(tables, alloc),
    }
}

#[cycle(detach)]
#[inline(always)]
fn detach_value(value: &mut Value, alloc: Global) -> Mem<()>
    ensures { value_view value.new ≡ value_view value.old }
{
    match value {
        Value::String(scalar) => scalar.detach(alloc),
        Value::Integer(scalar) => scalar.detach(alloc),
        Value::Float(scalar) => scalar.detach(alloc),
        Value::Boolean(scalar) => scalar.detach(alloc),
        Value::Datetime(scalar) => scalar.detach(alloc),
        Value::Array(array) => detach_array(array, alloc),
        Value::InlineTable(table) => detach_inline(table, alloc),
    }
}

#[cycle(detach)]
fn detach_array(array: &mut Array, alloc: Global) -> Mem<()>
    ensures { array_view array.new ≡ array_view array.old }
{
    detach_items(&mut array.values, alloc)?;
    array.decor.detach(alloc)?;
    array.trailing.detach(alloc)
}

#[cycle(detach)]
fn detach_inline(table: &mut InlineTable, alloc: Global) -> Mem<()>
    ensures { inline_view table.new ≡ inline_view table.old }
{
    detach_slots(&mut table.items, alloc)?;
    table.decor.detach(alloc)?;
    table.trailing.detach(alloc)
}

#[cycle(detach)]
fn detach_table(table: &mut Table, alloc: Global) -> Mem<()>
    ensures { table_view table.new ≡ table_view table.old }
{
    detach_slots(&mut table.slots, alloc)?;
    table.decor.detach(alloc)
}

#[cycle(detach)]
fn detach_tables(tables: &mut ArrayOfTables, alloc: Global) -> Mem<()>
    ensures { tables_view tables.new ≡ tables_view tables.old }
{
    detach_items(&mut tables.values, alloc)
}

#[cycle(detach)]
fn detach_items(items: &mut Vec<Item>, alloc: Global) -> Mem<()>
    ensures { items_view items.new.items ≡ items_view items.old.items }
{
    for at in 0..items.len() {
        detach_item(&mut items[at], alloc)?;
    }
    Ok(())
}

#[cycle(detach)]
fn detach_slots(slots: &mut Slots<Item>, alloc: Global) -> Mem<()>
    ensures { slots_view slots.new ≡ slots_view slots.old }
{
    for at in 0..slots.len() {
        slots.detach_key(at, alloc)?;
        let item = slots.item_mut(at);
        detach_item(item, alloc)?;
    }
    Ok(())
}
