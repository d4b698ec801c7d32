//! Lists of items as lists of values or of tables, for arrays and arrays of tables.
ghost use Rattle.std.specs.Prelude.{◌≡◌, ◌≤◌, Some, IsSome, IfErr, OnErr, OnOk, length};
ghost use Rattle.std.proofs.Common.{rules};
ghost use Rattle.toml_edit_model.specs.ArrayCalls.{inserted_at, pushed, removed_at, value_at, written_at};
ghost use Rattle.toml_edit_model.specs.TablesCalls.{table_at};
ghost use Rattle.toml_edit_tree.specs.Containers.{table_node};
ghost use Rattle.toml_edit_tree.specs.ElementHolds.{holding_table, holding_value, table_held, value_held};
ghost use Rattle.toml_edit_tree.specs.Elements.{listed};
ghost use Rattle.toml_edit_tree.specs.View.{items_view, table_view, value_view};
ghost use Rattle.toml_edit_tree.specs.declared.item.Item.{the_lemmas};

use crate::item::Item;
use crate::table::Table;
use crate::value::Value;
use toml_edit_slots::list::Holds;
use toml_edit_slots::{NoMemory, list};

impl Holds<Value> for Item {
    ghost held = { value_held };

    ghost holding = { holding_value };

    fn as_held(&self) -> Option<&Value> {
        match self {
            Item::Value(value) => Some(value),
            _ => None,
        }
    }

    fn into_held(self) -> Value {
        match self {
            Item::Value(value) => value,
            _ => unreachable!(),
        }
    }

    fn hold(value: Value) -> Item {
        Item::Value(value)
    }

    ghost holds = { Prim.search (rules, the_lemmas) };
}

impl Holds<Table> for Item {
    ghost held = { table_held };

    ghost holding = { holding_table };

    fn as_held(&self) -> Option<&Table> {
        match self {
            Item::Table(table) => Some(table),
            _ => None,
        }
    }

    fn into_held(self) -> Table {
        match self {
            Item::Table(table) => table,
            _ => unreachable!(),
        }
    }

    fn hold(table: Table) -> Item {
        Item::Table(table)
    }

    ghost holds = { Prim.search (rules, the_lemmas) };
}

/// Removes the value at the index and returns it.
pub(crate) fn take_value(items: &mut Vec<Item>, at: usize) -> Value
    requires { IsSome (value_at at (listed items.old.items)) }
    ensures value { Some (value_view result) ≡ value_at at (listed items.old.items) }
    ensures items { listed items.new.items ≡ removed_at at (listed items.old.items) }
{
    list::remove(items, at)
}

/// Removes the table at the index and returns it.
pub(crate) fn take_table(items: &mut Vec<Item>, at: usize) -> Table
    requires { IsSome (table_at at (listed items.old.items)) }
    ensures table { Some (table_node (table_view result)) ≡ table_at at (listed items.old.items) }
    ensures items { listed items.new.items ≡ removed_at at (listed items.old.items) }
{
    list::remove(items, at)
}

/// Replaces the value at the index and returns the old one.
pub(crate) fn replace_value(items: &mut Vec<Item>, at: usize, value: Value) -> Value
    requires { IsSome (value_at at (listed items.old.items)) }
    ensures value { Some (value_view result) ≡ value_at at (listed items.old.items) }
    ensures items { listed items.new.items
        ≡ written_at at (value_view value) (listed items.old.items) }
{
    list::replace(items, at, value)
}

/// Replaces the table at the index and returns the old one.
pub(crate) fn replace_table(items: &mut Vec<Item>, at: usize, table: Table) -> Table
    requires { IsSome (table_at at (listed items.old.items)) }
    ensures table { Some (table_node (table_view result)) ≡ table_at at (listed items.old.items) }
    ensures items { listed items.new.items
        ≡ written_at at (table_node (table_view table)) (listed items.old.items) }
{
    list::replace(items, at, table)
}

/// Adds a value at the end.
pub(crate) fn push_value(items: &mut Vec<Item>, value: Value) -> Result<(), NoMemory<Value>>
    ensures items { OnOk result
        (listed items.new.items ≡ pushed (value_view value) (listed items.old.items)) }
    ensures err { OnErr result (items_view items.new.items ≡ items_view items.old.items) }
    ensures back { IfErr result (λ refused. refused.0 ≡ value) }
{
    match list::push(items, value) {
        Ok(()) => Ok(()),
        Err(value) => Err(NoMemory(value)),
    }
}

/// Adds a table at the end.
pub(crate) fn push_table(items: &mut Vec<Item>, table: Table) -> Result<(), NoMemory<Table>>
    ensures items { OnOk result
        (listed items.new.items ≡ pushed (table_node (table_view table)) (listed items.old.items)) }
    ensures err { OnErr result (items_view items.new.items ≡ items_view items.old.items) }
    ensures back { IfErr result (λ refused. refused.0 ≡ table) }
{
    match list::push(items, table) {
        Ok(()) => Ok(()),
        Err(table) => Err(NoMemory(table)),
    }
}

/// Inserts a value before what is at the index.
pub(crate) fn insert_value(
    items: &mut Vec<Item>,
    at: usize,
    value: Value,
) -> Result<(), NoMemory<Value>>
    requires { at ≤ length (listed items.old.items) }
    ensures items { OnOk result
        (listed items.new.items ≡ inserted_at at (value_view value) (listed items.old.items)) }
    ensures err { OnErr result (items_view items.new.items ≡ items_view items.old.items) }
    ensures back { IfErr result (λ refused. refused.0 ≡ value) }
{
    match list::insert(items, at, value) {
        Ok(()) => Ok(()),
        Err(value) => Err(NoMemory(value)),
    }
}

/// Inserts a table before what is at the index.
pub(crate) fn insert_table(
    items: &mut Vec<Item>,
    at: usize,
    table: Table,
) -> Result<(), NoMemory<Table>>
    requires { at ≤ length (listed items.old.items) }
    ensures items { OnOk result
        (listed items.new.items
        ≡ inserted_at at (table_node (table_view table)) (listed items.old.items)) }
    ensures err { OnErr result (items_view items.new.items ≡ items_view items.old.items) }
    ensures back { IfErr result (λ refused. refused.0 ≡ table) }
{
    match list::insert(items, at, table) {
        Ok(()) => Ok(()),
        Err(table) => Err(NoMemory(table)),
    }
}
