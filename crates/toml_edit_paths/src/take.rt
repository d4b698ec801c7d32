//! Removing an item at a path.
ghost use Rattle.std.specs.Prelude.{◌≡◌, ◌<◌, ◌∷◌, Bool, IfErr, Some, length};
ghost use Rattle.toml_edit_model.specs.Slots.{lookup_slot};
ghost use Rattle.toml_edit_model.specs.Text.{Text};
ghost use Rattle.toml_edit_model.specs.Tree.{Node};
ghost use Rattle.toml_edit_model.specs.Keys.{names};
ghost use Rattle.toml_edit_edit_laws.specs.Commands.{drop_slot, present, remove_below};
ghost use Rattle.toml_edit_tree.specs.Containers.{table_node};
ghost use Rattle.toml_edit_tree.specs.Indexed.{shown_slots};
ghost use Rattle.toml_edit_tree.specs.View.{item_view, table_view};
ghost use Rattle.toml_edit_tree.specs.Elements.{listed};
ghost use Rattle.toml_edit_paths.specs.Changes.{Changes, removed_element, removed_slot};
ghost use Rattle.toml_edit_paths.specs.Elements.{place_named};
ghost use Rattle.toml_edit_paths.specs.declared.fault.ChangeFault.TheVariants.{NoSuchPath};

use crate::element::{items_mut, place_named};
use crate::fault::ChangeFault;
use crate::find::filled_item;
use toml_edit_key::Key;
use toml_edit_slots::Slots;
use toml_edit_tree::{Item, Table};

/// Removes the item at the path below the root: the slot of a table with its key, the value of an
/// array, or the table of an array of tables. Takes no memory.
///
/// A placeholder is not found. A segment below an array or an array of tables is the number of an
/// element, as [`number_of`](crate::number_of) reads it.
///
/// # Errors
///
/// Fails with `NoSuchPath` if there is no such item. The root is unchanged then.
pub fn remove(root: &mut Table, path: &[Key]) -> Result<(), ChangeFault>
    ensures changes { Changes (remove_below (names path.now) (table_node (table_view root.old)))
        (table_node (table_view root.old))
        (table_node (table_view root.new)) result }
    ensures fault { IfErr result (λ fault. fault ≡ NoSuchPath) }
{
    match path.split_first() {
        None => Err(ChangeFault::NoSuchPath),
        Some((key, rest)) => remove_in_table(root, key, rest),
    }
}

/// Removes the item at the path below a table.
fn remove_in_table(table: &mut Table, key: &Key, rest: &[Key]) -> Result<(), ChangeFault>
    ensures changes { Changes
        (remove_below (key.now.name ∷ names rest.now) (table_node (table_view table.old)))
        (table_node (table_view table.old))
        (table_node (table_view table.new)) result }
    ensures fault { IfErr result (λ fault. fault ≡ NoSuchPath) }
{
    remove_in_slots(table.slots_mut(), key, rest)
}

/// Removes the item at the path below the item. Fails with `NoSuchPath` alone.
#[cycle(remove)]
pub(crate) fn remove_in_item(item: &mut Item, key: &Key, rest: &[Key]) -> Result<(), ChangeFault>
    ensures changes { Changes
        (remove_below (key.now.name ∷ names rest.now) (item_view item.old))
        (item_view item.old) (item_view item.new) result }
    ensures fault { IfErr result (λ fault. fault ≡ NoSuchPath) }
{
    if let Some(slots) = item.as_slots_mut() {
        return remove_in_slots(slots, key, rest);
    }
    let values = item.is_value();
    match items_mut(item) {
        Some(items) => match place_named(items, key, values) {
            Some(at) => remove_in_element(items, at, rest),
            None => Err(ChangeFault::NoSuchPath),
        },
        None => Err(ChangeFault::NoSuchPath),
    }
}

/// Removes the element at the place, or the item at the rest of the path below it.
#[cycle(remove)]
fn remove_in_element(items: &mut Vec<Item>, at: usize, rest: &[Key]) -> Result<(), ChangeFault>
    requires { at < length items.old.items }
    ensures changes { (is : Node → Bool) (k : Text)
        → Some at ≡ place_named is k (listed items.old.items)
        → Changes (removed_element is k (names rest.now) (listed items.old.items))
        (listed items.old.items) (listed items.new.items) result }
    ensures fault { IfErr result (λ fault. fault ≡ NoSuchPath) }
{
    match rest.split_first() {
        None => {
            drop(items.remove(at));
            Ok(())
        }
        Some((key, rest)) => remove_in_item(&mut items[at], key, rest),
    }
}

/// Removes the slot of the key, or the item at the rest of the path below it.
#[cycle(remove)]
fn remove_in_slots(slots: &mut Slots<Item>, key: &Key, rest: &[Key]) -> Result<(), ChangeFault>
    ensures changes { Changes (removed_slot key.now.name (names rest.now) (shown_slots slots.old))
        (shown_slots slots.old) (shown_slots slots.new) result }
    ensures fault { IfErr result (λ fault. fault ≡ NoSuchPath) }
{
    let Some((next, rest)) = rest.split_first() else {
        return remove_slot(slots, key.get());
    };
    // No two keys have one name, says its contract.
    let _ = slots.as_slice();
    match slots.find(key.get()) {
        Some(at) => remove_in_item(slots.item_mut(at), next, rest),
        None => Err(ChangeFault::NoSuchPath),
    }
}

/// Removes the slot of the key, unless it is a placeholder.
pub(crate) fn remove_slot(slots: &mut Slots<Item>, key: &str) -> Result<(), ChangeFault>
    ensures changes { Changes
        (drop_slot key.now (shown_slots slots.old)
        (present (lookup_slot key.now (shown_slots slots.old)))) (shown_slots slots.old)
        (shown_slots slots.new) result }
    ensures fault { IfErr result (λ fault. fault ≡ NoSuchPath) }
{
    match filled_item(slots, key) {
        Some(_) => {
            drop(slots.remove(key));
            Ok(())
        }
        None => Err(ChangeFault::NoSuchPath),
    }
}
