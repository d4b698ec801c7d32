//! Removing an item at a path, with its line if it is an element of an array.
ghost use Rattle.std.specs.Prelude.{◌≡◌, ◌∷◌};
ghost use Rattle.toml_edit_model.specs.Keys.{names};
ghost use Rattle.toml_edit_tree.specs.Containers.{array_node, table_node};
ghost use Rattle.toml_edit_tree.specs.Indexed.{shown_slots};
ghost use Rattle.toml_edit_tree.specs.View.{array_view, item_view, table_view};
ghost use Rattle.toml_edit_paths.specs.Changes.{Changes};
ghost use Rattle.toml_edit_paths.specs.Lines.{remove_line_below, remove_line_child, slot_without_line};

use crate::element::{items_mut, place_named};
use crate::fault::ChangeFault;
use crate::take::{remove_in_item, remove_slot};
use toml_edit_key::Key;
use toml_edit_slots::Slots;
use toml_edit_tree::{Array, Item, Table};

/// Removes the item at the path below the root, as [`remove`](crate::remove) does, but an element
/// of an array with its line, as [`Array::remove_line`] does.
///
/// # Errors
///
/// Fails with `NoSuchPath` if there is no such item, and with `Memory` if out of memory. The root is
/// unchanged then. Takes memory for an element of an array only.
pub fn remove_line(root: &mut Table, path: &[Key]) -> Result<(), ChangeFault>
    ensures { Changes (remove_line_below (names path.now) (table_node (table_view root.old)))
        (table_node (table_view root.old))
        (table_node (table_view root.new)) result }
{
    match path.split_first() {
        None => Err(ChangeFault::NoSuchPath),
        Some((key, rest)) => remove_line_in_table(root, key, rest),
    }
}

/// Removes the item at the path below a table.
fn remove_line_in_table(table: &mut Table, key: &Key, rest: &[Key]) -> Result<(), ChangeFault>
    ensures { Changes
        (remove_line_below (key.now.name ∷ names rest.now) (table_node (table_view table.old)))
        (table_node (table_view table.old))
        (table_node (table_view table.new)) result }
{
    remove_line_in_slots(table.slots_mut(), key, rest)
}

/// Removes the slot of the key, or the item at the rest of the path below it.
#[cycle(remove_line)]
fn remove_line_in_slots(slots: &mut Slots<Item>, key: &Key, rest: &[Key]) -> Result<(), ChangeFault>
    ensures { Changes
        (slot_without_line key.now.name (names rest.now) (shown_slots slots.old))
        (shown_slots slots.old) (shown_slots slots.new) result }
{
    let Some((next, rest)) = rest.split_first() else {
        return remove_slot(slots, key.get());
    };
    // No two keys have one name, says its contract.
    let _ = slots.as_slice();
    match slots.find(key.get()) {
        Some(at) => remove_line_in_item(slots.item_mut(at), next, rest),
        None => Err(ChangeFault::NoSuchPath),
    }
}

/// Removes the item at the path below the item.
#[cycle(remove_line)]
fn remove_line_in_item(item: &mut Item, key: &Key, rest: &[Key]) -> Result<(), ChangeFault>
    ensures { Changes (remove_line_below (key.now.name ∷ names rest.now) (item_view item.old))
        (item_view item.old) (item_view item.new) result }
{
    if let Some(slots) = item.as_slots_mut() {
        return remove_line_in_slots(slots, key, rest);
    }
    let Some((next, rest)) = rest.split_first() else {
        return remove_line_in_list(item, key);
    };
    let values = item.is_value();
    match items_mut(item) {
        Some(items) => match place_named(items, key, values) {
            Some(at) => remove_line_in_item(&mut items[at], next, rest),
            None => Err(ChangeFault::NoSuchPath),
        },
        None => Err(ChangeFault::NoSuchPath),
    }
}

/// Removes the element that the key names, with its line if the item is an array.
fn remove_line_in_list(item: &mut Item, key: &Key) -> Result<(), ChangeFault>
    ensures { Changes (remove_line_child key.now.name (item_view item.old)) (item_view item.old)
        (item_view item.new) result }
{
    match item.as_array_mut() {
        Some(array) => remove_line_in_array(array, key),
        None => remove_in_item(item, key, &[]),
    }
}

/// Removes the value that the key names from the array, with its line.
fn remove_line_in_array(array: &mut Array, key: &Key) -> Result<(), ChangeFault>
    ensures { Changes (remove_line_child key.now.name (array_node (array_view array.old)))
        (array_node (array_view array.old)) (array_node (array_view array.new)) result }
{
    match place_named(array.values.as_slice(), key, true) {
        Some(at) => {
            drop(array.remove_line(at)?);
            Ok(())
        }
        None => Err(ChangeFault::NoSuchPath),
    }
}
