//! Copies of items, with a function for each type that holds others.
//!
//! An item is first copied without the items that it holds, and then these, in place. So a copy
//! takes a small frame for each level.
ghost use Rattle.std.specs.Prelude.{◌≡◌, ◌∷◌, ◌++◌, [], IfOk, OnOk, None};
ghost use Rattle.toml_edit_slots.specs.Slots.{names, place_in};
ghost use Rattle.toml_edit_tree.specs.Containers.{array_node, inline_node, table_node, tables_node};
ghost use Rattle.toml_edit_tree.specs.Emptied.{emptied};
ghost use Rattle.toml_edit_tree.specs.View.{array_view, inline_view, item_view, items_view, slots_view, table_view, tables_view, value_view};
ghost use Rattle.toml_edit_tree.specs.declared.item.Item.{Item};

use crate::array::Array;
use crate::array_of_tables::ArrayOfTables;
use crate::inline_table::InlineTable;
use crate::item::Item;
use crate::table::Table;
use crate::value::Value;
use std::alloc::Global;
use toml_edit_repr::Mem;
use toml_edit_slots::{Slot, Slots};

/// Copies an item, with all that it holds.
pub(crate) fn copy_item(item: &Item, alloc: Global) -> Mem<Item>
    ensures { IfOk result (λ copy. item_view copy ≡ item_view item.now) }
{
    let mut copy = item_alone(item, alloc)?;
    fill_item(item, &mut copy, alloc)?;
    Ok(copy)
}

/// Copies a value, with its spelling and its decor.
pub(crate) fn copy_value(value: &Value, alloc: Global) -> Mem<Value>
    ensures { IfOk result (λ copy. value_view copy ≡ value_view value.now) }
{
    let mut copy = value_alone(value, alloc)?;
    fill_value(value, &mut copy, alloc)?;
    Ok(copy)
}

/// Copies an array, with its decor and what is before its closing bracket.
pub(crate) fn copy_array(array: &Array, alloc: Global) -> Mem<Array>
    ensures { IfOk result (λ copy. array_view copy ≡ array_view array.now) }
{
    let mut copy = array_alone(array, alloc)?;
    fill_array(array, &mut copy, alloc)?;
    Ok(copy)
}

/// Copies an inline table, with its decor and what is before its closing brace.
pub(crate) fn copy_inline(table: &InlineTable, alloc: Global) -> Mem<InlineTable>
    ensures { IfOk result (λ copy. inline_view copy ≡ inline_view table.now) }
{
    let mut copy = inline_alone(table, alloc)?;
    fill_inline(table, &mut copy, alloc)?;
    Ok(copy)
}

/// Copies a table, with its decor, its flags and its position.
pub(crate) fn copy_table(table: &Table, alloc: Global) -> Mem<Table>
    ensures { IfOk result (λ copy. table_view copy ≡ table_view table.now) }
{
    let mut copy = table_alone(table, alloc)?;
    fill_table(table, &mut copy, alloc)?;
    Ok(copy)
}

/// Copies an array of tables.
pub(crate) fn copy_tables(tables: &ArrayOfTables, alloc: Global) -> Mem<ArrayOfTables>
    ensures { IfOk result (λ copy. tables_view copy ≡ tables_view tables.now) }
{
    let mut copy = tables_alone(tables, alloc);
    fill_tables(tables, &mut copy, alloc)?;
    Ok(copy)
}

// ---- without what they hold

#[inline(always)]
fn item_alone(item: &Item, alloc: Global) -> Mem<Item>
    ensures { IfOk result (λ copy. item_view copy ≡ emptied (item_view item.now)) }
{
    match item {
        Item::None => Ok(Item::None),
        Item::Value(value) => Ok(Item::Value(value_alone(value, alloc)?)),
        Item::Table(table) => Ok(Item::Table(table_alone(table, alloc)?)),
        Item::ArrayOfTables(tables) => Ok(Item::ArrayOfTables(tables_alone(tables, alloc))),
    }
}

#[inline(always)]
fn value_alone(value: &Value, alloc: Global) -> Mem<Value>
    ensures { IfOk result (λ copy. value_view copy ≡ emptied (value_view value.now)) }
{
    match value {
        Value::String(scalar) => Ok(Value::String(scalar.clone(alloc)?)),
        Value::Integer(scalar) => Ok(Value::Integer(scalar.clone(alloc)?)),
        Value::Float(scalar) => Ok(Value::Float(scalar.clone(alloc)?)),
        Value::Boolean(scalar) => Ok(Value::Boolean(scalar.clone(alloc)?)),
        Value::Datetime(scalar) => Ok(Value::Datetime(scalar.clone(alloc)?)),
        Value::Array(array) => Ok(Value::Array(array_alone(array, alloc)?)),
        Value::InlineTable(table) => Ok(Value::InlineTable(inline_alone(table, alloc)?)),
    }
}

fn array_alone(array: &Array, alloc: Global) -> Mem<Array>
    ensures { IfOk result
        (λ copy. array_node (array_view copy) ≡ emptied (array_node (array_view array.now))) }
{
    let decor = array.decor.clone(alloc)?;
    let trailing = array.trailing.clone(alloc)?;
    Ok(Array {
        values: Vec::new(alloc),
        decor,
        trailing,
        trailing_comma: array.trailing_comma,
        span: array.span,
    })
}

fn inline_alone(table: &InlineTable, alloc: Global) -> Mem<InlineTable>
    ensures { IfOk result
        (λ copy. inline_node (inline_view copy) ≡ emptied (inline_node (inline_view table.now))) }
{
    let decor = table.decor.clone(alloc)?;
    let trailing = table.trailing.clone(alloc)?;
    Ok(InlineTable {
        items: Slots::new(alloc),
        decor,
        dotted: table.dotted,
        trailing,
        trailing_comma: table.trailing_comma,
        is_read: table.is_read,
        span: table.span,
    })
}

fn table_alone(table: &Table, alloc: Global) -> Mem<Table>
    ensures { IfOk result
        (λ copy. table_node (table_view copy) ≡ emptied (table_node (table_view table.now))) }
{
    let decor = table.decor.clone(alloc)?;
    Ok(Table {
        slots: Slots::new(alloc),
        decor,
        implicit: table.implicit,
        dotted: table.dotted,
        position: table.position,
        span: table.span,
    })
}

fn tables_alone(tables: &ArrayOfTables, alloc: Global) -> ArrayOfTables
    ensures { tables_node (tables_view result) ≡ emptied (tables_node (tables_view tables.now)) }
{
    ArrayOfTables {
        values: Vec::new(alloc),
        span: tables.span,
    }
}

// ---- what they hold

/// Copies what an item holds into its copy, which holds nothing yet.
#[cycle(copy)]
#[inline(always)]
fn fill_item(item: &Item, copy: &mut Item, alloc: Global) -> Mem<()>
    requires { item_view copy.old ≡ emptied (item_view item.now) }
    ensures { OnOk result (item_view copy.new ≡ item_view item.now) }
{
    match item {
        Item::None => Ok(()),
        Item::Value(value) => match copy {
            Item::Value(own) => fill_value(value, own, alloc),
            _ => Ok(()),
        },
        Item::Table(table) => match copy {
            Item::Table(own) => fill_table(table, own, alloc),
            _ => Ok(()),
        },
        Item::ArrayOfTables(tables) => match copy {
            Item::ArrayOfTables(own) => fill_tables(tables, own, alloc),
            _ => Ok(()),
        },
    }
}

/// Copies what a value holds into its copy, which holds nothing yet.
#[cycle(copy)]
#[inline(always)]
fn fill_value(value: &Value, copy: &mut Value, alloc: Global) -> Mem<()>
    requires { value_view copy.old ≡ emptied (value_view value.now) }
    ensures { OnOk result (value_view copy.new ≡ value_view value.now) }
{
    match value {
        Value::Array(array) => match copy {
            Value::Array(own) => fill_array(array, own, alloc),
            _ => Ok(()),
        },
        Value::InlineTable(table) => match copy {
            Value::InlineTable(own) => fill_inline(table, own, alloc),
            _ => Ok(()),
        },
        _ => Ok(()),
    }
}

#[cycle(copy)]
#[inline(always)]
fn fill_array(array: &Array, copy: &mut Array, alloc: Global) -> Mem<()>
    requires { array_node (array_view copy.old) ≡ emptied (array_node (array_view array.now)) }
    ensures { OnOk result (array_view copy.new ≡ array_view array.now) }
{
    fill_items(&array.values, &mut copy.values, alloc)
}

#[cycle(copy)]
#[inline(always)]
fn fill_inline(table: &InlineTable, copy: &mut InlineTable, alloc: Global) -> Mem<()>
    requires { inline_node (inline_view copy.old) ≡ emptied (inline_node (inline_view table.now)) }
    ensures { OnOk result (inline_view copy.new ≡ inline_view table.now) }
{
    fill_slots(&table.items, &mut copy.items, alloc)
}

#[cycle(copy)]
#[inline(always)]
fn fill_table(table: &Table, copy: &mut Table, alloc: Global) -> Mem<()>
    requires { table_node (table_view copy.old) ≡ emptied (table_node (table_view table.now)) }
    ensures { OnOk result (table_view copy.new ≡ table_view table.now) }
{
    fill_slots(&table.slots, &mut copy.slots, alloc)
}

#[cycle(copy)]
#[inline(always)]
fn fill_tables(tables: &ArrayOfTables, copy: &mut ArrayOfTables, alloc: Global) -> Mem<()>
    requires { tables_node (tables_view copy.old) ≡ emptied (tables_node (tables_view tables.now)) }
    ensures { OnOk result (tables_view copy.new ≡ tables_view tables.now) }
{
    fill_items(&tables.values, &mut copy.values, alloc)
}

/// Copies the items of an array or of an array of tables, placeholders included, into an empty list.
#[cycle(copy)]
#[inline(never)]
fn fill_items(items: &Vec<Item>, copies: &mut Vec<Item>, alloc: Global) -> Mem<()>
    requires { copies.old.items ≡ [] }
    ensures { OnOk result (items_view copies.new.items ≡ items_view items.now.items) }
{
    copies.reserve_exact(items.len())?;
    for at in 0..items.len() {
        let item = &items[at];
        push_alone(item, copies, alloc)?;
        fill_item(item, &mut copies[at], alloc)?;
    }
    Ok(())
}

/// Copies the slots of a table, placeholders included, into empty ones. Keys keep their spellings
/// and decors.
#[cycle(copy)]
#[inline(never)]
fn fill_slots(slots: &Slots<Item>, copies: &mut Slots<Item>, alloc: Global) -> Mem<()>
    requires { copies.old ≡ [] }
    ensures { OnOk result (slots_view copies.new ≡ slots_view slots.now) }
{
    let entries = slots.as_slice();
    for at in 0..entries.len() {
        let slot = &entries[at];
        push_slot_alone(slot, copies, alloc)?;
        fill_item(&slot.item, copies.item_mut(at), alloc)?;
    }
    Ok(())
}

/// Adds a copy of an item without what it holds. Its locals are not part of the frames that recur.
#[inline(never)]
fn push_alone(item: &Item, copies: &mut Vec<Item>, alloc: Global) -> Mem<()>
    ensures { OnOk result ((copy : Item) × (item_view copy ≡ emptied (item_view item.now))
        × (copies.new.items ≡ copies.old.items ++ copy ∷ [])) }
{
    copies.push(item_alone(item, alloc)?)?;
    Ok(())
}

/// Adds a copy of a slot whose item is without what it holds.
#[inline(never)]
fn push_slot_alone(slot: &Slot<Item>, copies: &mut Slots<Item>, alloc: Global) -> Mem<()>
    requires { place_in slot.now.key.name (names copies.old) ≡ None }
    ensures { OnOk result ((copy : Item) × (item_view copy ≡ emptied (item_view slot.now.item))
        × (copies.new ≡ copies.old ++ record { key = slot.now.key; item = copy } ∷ [])) }
{
    let key = slot.key.clone(alloc)?;
    let item = item_alone(&slot.item, alloc)?;
    copies.push(Slot { key, item })?;
    Ok(())
}
