//! Changing the item at a path by a closure.
ghost use Rattle.std.specs.Prelude.{◌∷◌};
ghost use Rattle.toml_edit_model.specs.Lists.{is_item, only};
ghost use Rattle.toml_edit_model.specs.Slots.{lookup_slot};
ghost use Rattle.toml_edit_model.specs.Keys.{names};
ghost use Rattle.toml_edit_edit_laws.specs.Commands.{and_then, item_below, present};
ghost use Rattle.toml_edit_tree.specs.Containers.{table_node};
ghost use Rattle.toml_edit_tree.specs.Indexed.{shown_slots};
ghost use Rattle.toml_edit_tree.specs.View.{item_view, table_view};
ghost use Rattle.toml_edit_paths.specs.Calls.{ChangesBelow, ChangesFound, ChangesSlot, TakesFound, item_inside, replaced_below};

use crate::element::{items_mut, place_named};
use toml_edit_key::Key;
use toml_edit_slots::Slots;
use toml_edit_tree::{Item, Table};

/// Calls the closure on the item at the path below the root, and returns its result, or `None` if
/// there is no such item. Nothing else changes, and it takes no memory.
///
/// The item is found as by [`get`](crate::get), but for the root, which stays a table: the empty
/// path leads to no item.
pub fn change<R, F: FnOnce(&mut Item) -> R>(root: &mut Table, path: &[Key], change: F) -> Option<R>
where
    F: Drop,
    requires { TakesFound F.FnOnce change
        (item_inside (names path.now) (table_node (table_view root.old))) }
    ensures { ChangesFound F.FnOnce change
        (item_inside (names path.now) (table_node (table_view root.old)))
        (λ left. replaced_below (names path.now) left (table_node (table_view root.old)))
        (table_node (table_view root.old)) (table_node (table_view root.new)) result }
{
    match path.split_first() {
        None => {
            drop(change);
            None
        }
        Some((key, rest)) => change_in_table(root, key, rest, change),
    }
}

/// Calls the closure on the item at the path below a table.
fn change_in_table<R, F: FnOnce(&mut Item) -> R>(
    table: &mut Table,
    key: &Key,
    rest: &[Key],
    change: F,
) -> Option<R>
where
    F: Drop,
    requires { TakesFound F.FnOnce change
        (item_below (key.now.name ∷ names rest.now) (table_node (table_view table.old))) }
    ensures { ChangesBelow F.FnOnce change (key.now.name ∷ names rest.now)
        (table_node (table_view table.old)) (table_node (table_view table.new)) result }
{
    change_in_slots(table.slots_mut(), key, rest, change)
}

/// Calls the closure on the item at the path below the item, or on the item itself.
#[cycle(change)]
fn change_in_item<R, F: FnOnce(&mut Item) -> R>(
    item: &mut Item,
    path: &[Key],
    change: F,
) -> Option<R>
where
    F: Drop,
    requires { TakesFound F.FnOnce change (item_below (names path.now) (item_view item.old)) }
    ensures { ChangesBelow F.FnOnce change (names path.now) (item_view item.old)
        (item_view item.new) result }
{
    let Some((key, rest)) = path.split_first() else {
        return Some(change(item));
    };
    if let Some(slots) = item.as_slots_mut() {
        return change_in_slots(slots, key, rest, change);
    }
    let values = item.is_value();
    let Some(items) = items_mut(item) else {
        drop(change);
        return None;
    };
    match place_named(items, key, values) {
        Some(at) => change_in_item(&mut items[at], rest, change),
        None => {
            drop(change);
            None
        }
    }
}

/// Calls the closure on the item at the rest of the path below the slot of the key, if there is
/// one.
#[cycle(change)]
fn change_in_slots<R, F: FnOnce(&mut Item) -> R>(
    slots: &mut Slots<Item>,
    key: &Key,
    rest: &[Key],
    change: F,
) -> Option<R>
where
    F: Drop,
    requires { TakesFound F.FnOnce change (and_then (item_below (names rest.now))
        (present (lookup_slot key.now.name (shown_slots slots.old)))) }
    ensures { ChangesSlot F.FnOnce change key.now.name (names rest.now) (shown_slots slots.old)
        (shown_slots slots.new) result }
{
    // No two keys have one name, says its contract.
    let _ = slots.as_slice();
    match slots.find(key.get()) {
        Some(at) => change_in_slot(slots.item_mut(at), rest, change),
        None => {
            drop(change);
            None
        }
    }
}

/// Calls the closure on the item at the rest of the path below the item of a slot, unless it is a
/// placeholder.
#[cycle(change)]
fn change_in_slot<R, F: FnOnce(&mut Item) -> R>(
    item: &mut Item,
    rest: &[Key],
    change: F,
) -> Option<R>
where
    F: Drop,
    requires { TakesFound F.FnOnce change
        (and_then (item_below (names rest.now)) (only is_item (item_view item.old))) }
    ensures { ChangesFound F.FnOnce change
        (and_then (item_below (names rest.now)) (only is_item (item_view item.old)))
        (λ left. replaced_below (names rest.now) left (item_view item.old))
        (item_view item.old) (item_view item.new) result }
{
    if item.is_none() {
        drop(change);
        None
    } else {
        change_in_item(item, rest, change)
    }
}
