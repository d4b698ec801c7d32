//! Moving a key.
ghost use Rattle.std.specs.Prelude.{◌≡◌, IfOk};
ghost use Rattle.toml_edit_model.specs.Slots.{keyed};
ghost use Rattle.toml_edit_model.specs.Keys.{names};
ghost use Rattle.toml_edit_model.specs.Positions.{items_without_positions, without_positions};
ghost use Rattle.toml_edit_tree.specs.Containers.{table_node, tables_node};
ghost use Rattle.toml_edit_tree.specs.Indexed.{shown_slots};
ghost use Rattle.toml_edit_tree.specs.View.{fields_view, item_view, items_view, table_view, tables_view};
ghost use Rattle.toml_edit.specs.DocumentView.{IsPrintedAs, tree_owned};
ghost use Rattle.toml_edit_edits.specs.Effects.{changed_at, on_table};
ghost use Rattle.toml_edit_edits.specs.Moves as moves;
ghost use Rattle.toml_edit_edits.specs.Moves.{moved_beside, put_in, slots_with};
ghost use Rattle.toml_edit_edits.specs.Outcomes.{Makes};
ghost use Rattle.toml_edit_edits.specs.Slots.{FindsSlot, shown_slot};

use crate::along::open_along;
use crate::elements::{has_tables, move_table};
use crate::fault::EditFault;
use crate::keys::rename_at;
use std::alloc::Global;
use toml_edit::{ArrayOfTables, DocumentMut, Item, Key, Mem, Refused, Slot, Slots, Table};

/// Moves the key at the end of a path, with its item and its decors, to the end of another path.
///
/// Below the same table it is renamed, and keeps its place. An element of an array of tables is given
/// another place in it. Below another one it comes last, and
/// the headers of its tables are printed there.
pub(crate) fn relocate(
    alloc: Global,
    document: &mut DocumentMut,
    from: &[Key],
    to: &[Key],
) -> Result<(), EditFault>
    ensures makes { Makes
        (moves.moved (names from.now) (names to.now) (tree_owned document.old))
        (tree_owned document.old) (tree_owned document.new) result }
    ensures printed { IsPrintedAs document.new document.old }
{
    let (Some((last, above)), Some((name, target))) = (from.split_last(), to.split_last()) else {
        return Err(EditFault::NoSuchPath);
    };
    if above == target {
        return move_beside(alloc, document, above, last.get(), name.get());
    }
    if to.starts_with(from) {
        return Err(EditFault::WrongKind);
    }
    let slot = slot_at(alloc, document, above, last.get(), name.get())?;
    put_slot(document, target, slot)?;
    match document.remove_at(from) {
        Ok(()) => Ok(()),
        Err(_) => Err(EditFault::NoSuchPath),
    }
}

/// Gives a key of the item at the path another name, or an element of an array of tables there
/// another place.
fn move_beside(
    alloc: Global,
    document: &mut DocumentMut,
    path: &[Key],
    from: &str,
    to: &str,
) -> Result<(), EditFault>
    ensures makes { Makes
        (moved_beside (names path.now) from.now to.now (tree_owned document.old))
        (tree_owned document.old) (tree_owned document.new) result }
    ensures printed { IsPrintedAs document.new document.old }
{
    if has_tables(document, path) {
        move_table(alloc, document, path, from, to)
    } else {
        rename_at(document, path, from, to)
    }
}

/// Returns a copy of the slot of a key of the table at the path, under another name and without
/// positions.
fn slot_at(
    alloc: Global,
    document: &DocumentMut,
    path: &[Key],
    key: &str,
    name: &str,
) -> Result<Slot<Item>, EditFault>
    ensures { FindsSlot name.now (moves.slot_at (names path.now) key.now (tree_owned document.now))
        result }
{
    let Some(item) = document.get_at(path) else {
        return Err(EditFault::NoSuchPath);
    };
    let Some(slots) = item.as_slots() else {
        return Err(EditFault::WrongKind);
    };
    match slots.get_key_value(key) {
        Some((key, item)) if !item.is_none() => Ok(carried(alloc, key, item, name)?),
        _ => Err(EditFault::NoSuchPath),
    }
}

/// Returns a slot with a copy of the item, under a key with another name and the same decors.
fn carried(alloc: Global, key: &Key, item: &Item, name: &str) -> Mem<Slot<Item>>
    ensures { IfOk result (λ slot. shown_slot slot
        ≡ moves.carried name.now (keyed key.now (item_view item.now))) }
{
    let mut item = item.clone(alloc)?;
    forget_positions(&mut item);
    let leaf = key.leaf_decor().clone(alloc)?;
    let dotted = key.dotted_decor().clone(alloc)?;
    let key = Key::from_text(alloc, name)?;
    let key = key.with_leaf_decor(leaf).with_dotted_decor(dotted);
    Ok(Slot { key, item })
}

/// Unsets the positions of the tables in the item.
#[cycle(forget)]
fn forget_positions(item: &mut Item)
    ensures { item_view item.new ≡ without_positions (item_view item.old) }
{
    match item {
        Item::None | Item::Value(_) => {}
        Item::Table(table) => table.forget_positions(),
        Item::ArrayOfTables(tables) => forget_tables(tables),
    }
}

/// Unsets the positions of the tables of an array, and of those in them.
#[cycle(forget)]
fn forget_tables(tables: &mut ArrayOfTables)
    ensures { tables_node (tables_view tables.new)
        ≡ without_positions (tables_node (tables_view tables.old)) }
{
    forget_items(&mut tables.values);
}

/// Unsets the positions of the tables in the items.
#[cycle(forget)]
fn forget_items(items: &mut Vec<Item>)
    ensures { items_view items.new.items ≡ items_without_positions (items_view items.old.items) }
{
    for at in 0..items.len() {
        forget_positions(&mut items[at]);
    }
}

/// Adds the slot to the table at the path.
pub(crate) fn put_slot(
    document: &mut DocumentMut,
    path: &[Key],
    slot: Slot<Item>,
) -> Result<(), EditFault>
    ensures makes { Makes
        (changed_at (put_in (shown_slot slot)) (names path.now) (tree_owned document.old))
        (tree_owned document.old) (tree_owned document.new) result }
    ensures printed { IsPrintedAs document.new document.old }
{
    if path.is_empty() {
        return put_in_table(document.as_table_mut(), slot);
    }
    open_along(document.as_item(), path);
    match document.change_at(path, |item| put_in_item(item, slot)) {
        Some(done) => done,
        None => Err(EditFault::NoSuchPath),
    }
}

/// Adds the slot to the table.
fn put_in_table(table: &mut Table, slot: Slot<Item>) -> Result<(), EditFault>
    ensures makes { Makes (put_in (shown_slot slot) (table_node (table_view table.old)))
        (table_node (table_view table.old)) (table_node (table_view table.new)) result }
    ensures fields { fields_view table.new ≡ fields_view table.old }
{
    push_slot(table.slots_mut(), slot)
}

/// Adds the slot to the item, if that is a table, or an inline table and the slot has a value.
fn put_in_item(item: &mut Item, slot: Slot<Item>) -> Result<(), EditFault>
    ensures { Makes (put_in (shown_slot slot) (item_view item.old)) (item_view item.old)
        (item_view item.new) result }
{
    if item.is_value() && !slot.item.is_value() {
        drop(slot);
        return Err(EditFault::WrongKind);
    }
    match item.as_slots_mut() {
        Some(slots) => push_slot(slots, slot),
        None => {
            drop(slot);
            Err(EditFault::WrongKind)
        }
    }
}

/// Adds the slot at the end, unless its name is there.
fn push_slot(slots: &mut Slots<Item>, slot: Slot<Item>) -> Result<(), EditFault>
    ensures { Makes (slots_with (shown_slot slot) (shown_slots slots.old)) (shown_slots slots.old)
        (shown_slots slots.new) result }
{
    match slots.try_push(slot) {
        Ok(()) => Ok(()),
        Err(Refused::Present(_, slot)) => {
            drop(slot);
            Err(EditFault::Taken)
        }
        Err(Refused::NoMemory(slot)) => {
            drop(slot);
            Err(EditFault::Memory)
        }
    }
}
