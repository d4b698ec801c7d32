//! Renaming and moving the last key of a path, and the spelling of its keys.
ghost use Rattle.std.specs.Prelude.{◌≡◌, map};
ghost use Rattle.toml_edit_model.specs.Keys.{names, new_key};
ghost use Rattle.toml_edit_edit_laws.specs.KeyCalls.{key_changed, moved_where, renamed_where, slots_changed};
ghost use Rattle.toml_edit_tree.specs.Containers.{table_node};
ghost use Rattle.toml_edit_tree.specs.Indexed.{shown_slots};
ghost use Rattle.toml_edit_tree.specs.View.{item_view, table_view};
ghost use Rattle.toml_edit_paths.specs.Changes.{Moves, Renames};

use crate::alter::change;
use crate::find::filled_item;
use toml_edit_key::Key;
use toml_edit_repr::Mem;
use toml_edit_slots::{Renamed, Slots};
use toml_edit_tree::{Item, Table};

/// Gives the last key of the path below the root another name, as [`Table::rename`] does.
///
/// The key is found as by [`get`](crate::get), and is one of a table or an inline table.
///
/// # Errors
///
/// Returns an `AllocError` if out of memory. The root is unchanged then.
pub fn rename(root: &mut Table, path: &[Key], name: &str) -> Mem<Renamed>
    ensures { Renames (key_changed (renamed_where name.now) (names path.now)
        (table_node (table_view root.old))) (table_node (table_view root.old))
        (table_node (table_view root.new)) result }
{
    let Some((key, above)) = path.split_last() else {
        return Ok(Renamed::Absent);
    };
    if above.is_empty() {
        return rename_in_table(root, key, name);
    }
    match change(root, above, |item| rename_in_item(item, key, name)) {
        Some(told) => told,
        None => Ok(Renamed::Absent),
    }
}

/// Gives a key of the table another name.
fn rename_in_table(table: &mut Table, key: &Key, name: &str) -> Mem<Renamed>
    ensures { Renames (slots_changed (renamed_where name.now key.now.name)
        (table_node (table_view table.old))) (table_node (table_view table.old))
        (table_node (table_view table.new)) result }
{
    rename_in_slots(table.slots_mut(), key, name)
}

/// Gives a key of the item another name.
fn rename_in_item(item: &mut Item, key: &Key, name: &str) -> Mem<Renamed>
    ensures { Renames (slots_changed (renamed_where name.now key.now.name) (item_view item.old))
        (item_view item.old) (item_view item.new) result }
{
    match item.as_slots_mut() {
        Some(slots) => rename_in_slots(slots, key, name),
        None => Ok(Renamed::Absent),
    }
}

/// Gives the key of a slot another name, unless its item is a placeholder.
fn rename_in_slots(slots: &mut Slots<Item>, key: &Key, name: &str) -> Mem<Renamed>
    ensures { Renames (renamed_where name.now key.now.name (shown_slots slots.old))
        (shown_slots slots.old) (shown_slots slots.new) result }
{
    match filled_item(slots, key.get()) {
        Some(_) => slots.rename(key.get(), name),
        None => Ok(Renamed::Absent),
    }
}

/// Moves the last key of the path below the root to index `at` among the keys of its table, or to
/// their end if there are fewer. Returns `false` if there is no such key. Takes no memory.
///
/// The key is found as by [`get`](crate::get), and is one of a table or an inline table.
pub fn move_to(root: &mut Table, path: &[Key], at: usize) -> bool
    ensures { Moves (key_changed (moved_where at) (names path.now)
        (table_node (table_view root.old))) (table_node (table_view root.old))
        (table_node (table_view root.new)) result }
{
    let Some((key, above)) = path.split_last() else {
        return false;
    };
    if above.is_empty() {
        return move_in_table(root, key, at);
    }
    match change(root, above, |item| move_in_item(item, key, at)) {
        Some(found) => found,
        None => false,
    }
}

/// Moves a key of the table.
fn move_in_table(table: &mut Table, key: &Key, at: usize) -> bool
    ensures { Moves (slots_changed (moved_where at key.now.name)
        (table_node (table_view table.old))) (table_node (table_view table.old))
        (table_node (table_view table.new)) result }
{
    move_in_slots(table.slots_mut(), key, at)
}

/// Moves a key of the item.
fn move_in_item(item: &mut Item, key: &Key, at: usize) -> bool
    ensures { Moves (slots_changed (moved_where at key.now.name) (item_view item.old))
        (item_view item.old) (item_view item.new) result }
{
    match item.as_slots_mut() {
        Some(slots) => move_in_slots(slots, key, at),
        None => false,
    }
}

/// Moves the key of a slot, unless its item is a placeholder.
fn move_in_slots(slots: &mut Slots<Item>, key: &Key, at: usize) -> bool
    ensures { Moves (moved_where at key.now.name (shown_slots slots.old)) (shown_slots slots.old)
        (shown_slots slots.new) result }
{
    let Some(last) = slots.len().checked_sub(1) else {
        return false;
    };
    match filled_item(slots, key.get()) {
        Some(_) => slots.move_to(key.get(), at.min(last)),
        None => false,
    }
}

/// Resets the spelling and the decors of each key.
///
/// The keys that [`set`](crate::set) adds are spelled as those of its path, and a path may be
/// spelled as TOML 1.0 does not allow.
pub fn reset_keys(path: &mut [Key])
    ensures { path.new ≡ map new_key (names path.old) }
{
    if let Some((first, rest)) = path.split_first_mut() {
        first.fmt();
        reset_keys(rest);
    }
}
