//! The first table of an array of tables, with those above it that are missing.
ghost use Rattle.std.specs.Prelude.{◌≡◌, ◌<◌, [], ◌∷◌, IfOk, true, drop, length};
ghost use Rattle.toml_edit_model.specs.Conversions.{new_table};
ghost use Rattle.toml_edit_model.specs.Keys.{cleared_key, names};
ghost use Rattle.toml_edit_model.specs.Slots.{keyed};
ghost use Rattle.toml_edit_model.specs.Tree.{no_slots, slot, table};
ghost use Rattle.toml_edit_tree.specs.Containers.{table_node};
ghost use Rattle.toml_edit_tree.specs.View.{item_view, table_view, value_view};
ghost use Rattle.toml_edit.specs.DocumentView.{IsPrintedAs, tree_owned};
ghost use Rattle.toml_edit_edits.specs.FirstTable as first_table;
ghost use Rattle.toml_edit_edits.specs.FirstTable.{first_below, held_below};
ghost use Rattle.toml_edit_edits.specs.Outcomes.{Makes};
ghost use Rattle.toml_edit_edits.specs.Slots.{shown_slot};

use crate::elements::{append_table, table_of};
use crate::fault::EditFault;
use crate::missing::{is_numbered, keys_there};
use crate::moves::put_slot;
use std::alloc::{AllocError, Global};
use toml_edit::{ArrayOfTables, Decor, DocumentMut, Item, Key, Mem, Slot, Table, Value};

/// Adds a table at the end of the array of tables at the path, or a first one where nothing is.
pub(crate) fn add_table(
    alloc: Global,
    document: &mut DocumentMut,
    path: &[Key],
    value: &Value,
) -> Result<(), EditFault>
    ensures makes { Makes
        (first_table.tabled path.now (value_view value.now) (tree_owned document.old))
        (tree_owned document.old) (tree_owned document.new) result }
    ensures printed { IsPrintedAs document.new document.old }
{
    let there = keys_there(document.as_item(), path);
    match path[there..].split_first() {
        None => append_table(alloc, document, path, value),
        Some((key, more)) => {
            if is_numbered(&path[there..]) {
                return Err(EditFault::NoSuchPath);
            }
            let first = array_of(alloc, table_of(alloc, value)?)?;
            let slot = slot_below(alloc, key, more, first)?;
            put_slot(document, &path[..there], slot)
        }
    }
}

/// Returns a slot of the key with tables down the path, to this item.
pub(crate) fn slot_below(alloc: Global, key: &Key, path: &[Key], item: Item) -> Mem<Slot<Item>>
    ensures { IfOk result (λ made. shown_slot made
        ≡ keyed (cleared_key key.now) (held_below path.now (item_view item))) }
{
    let held = match path.split_first() {
        None => item,
        Some((next, rest)) => holder_of(alloc, slot_below(alloc, next, rest, item)?)?,
    };
    slot_of(alloc, key, held)
}

/// Returns an array of this table.
fn array_of(alloc: Global, table: Table) -> Mem<Item>
    ensures { IfOk result (λ item. item_view item ≡ first_below [] (table_node (table_view table))) }
{
    let mut tables = ArrayOfTables::new(alloc);
    match tables.push(table) {
        Ok(()) => Ok(Item::ArrayOfTables(tables)),
        Err(refused) => {
            drop(refused);
            drop(tables);
            Err(AllocError)
        }
    }
}

/// Returns a table of this slot that has no header of its own.
fn holder_of(alloc: Global, held: Slot<Item>) -> Mem<Item>
    ensures { IfOk result (λ item. item_view item
        ≡ table (record new_table { is_implicit = true })
        (slot (shown_slot held).key (shown_slot held).item no_slots)) }
{
    let mut holder = Table::new(alloc);
    holder.set_implicit(true);
    match holder.slots_mut().push(held) {
        Ok(()) => Ok(Item::Table(holder)),
        Err(refused) => {
            drop(refused);
            drop(holder);
            Err(AllocError)
        }
    }
}

/// Returns a slot of the item under a copy of the key, with its name and its spelling alone.
fn slot_of(alloc: Global, key: &Key, item: Item) -> Mem<Slot<Item>>
    ensures { IfOk result
        (λ made. shown_slot made ≡ keyed (cleared_key key.now) (item_view item)) }
{
    match key.clone(alloc) {
        Ok(copy) => {
            let key = copy
                .with_leaf_decor(Decor::default())
                .with_dotted_decor(Decor::default());
            Ok(Slot { key, item })
        }
        Err(refused) => {
            drop(item);
            Err(refused)
        }
    }
}
