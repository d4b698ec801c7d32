//! Putting a value at a path.
ghost use Rattle.std.specs.Prelude.{◌≡◌, ◌∷◌, Bool, true, false};
ghost use Rattle.toml_edit_model.specs.Conversions.{with_decor};
ghost use Rattle.toml_edit_model.specs.Slots.{lookup_slot};
ghost use Rattle.toml_edit_model.specs.Tree.{node_decor, nothing};
ghost use Rattle.toml_edit_edit_laws.specs.Commands.{change_slot, set_below, set_here};
ghost use Rattle.toml_edit_tree.specs.Containers.{table_node};
ghost use Rattle.toml_edit_tree.specs.Indexed.{shown_slots};
ghost use Rattle.toml_edit_tree.specs.View.{item_view, table_view, value_view};
ghost use Rattle.toml_edit_paths.specs.Changes.{Changes};
ghost use Rattle.toml_edit_edit_laws.specs.Headed.{set_headed_below};
ghost use Rattle.toml_edit_paths.specs.Setting.{headers_in, set_by};

use crate::element::{items_mut, place_named};
use crate::fault::ChangeFault;
use crate::make::{push_new, wrap_below};
use std::alloc::Global;
use std::mem;
use toml_edit_key::Key;
use toml_edit_slots::Slots;
use toml_edit_tree::{Item, Table, Value};

/// Puts the value at the path below the root.
///
/// A value that is there is replaced, and its decor stays. A placeholder in a table is filled, and
/// one in an array is not found. A missing key is added at the end of its table, in the spelling
/// that the path has, and with inline tables down to the value if more are missing. A segment below
/// an array or an array of tables is the number of an element, as
/// [`number_of`](crate::number_of) reads it.
///
/// # Errors
///
/// Fails with `NoSuchPath` if a segment names no element, with `WrongKind` for a table or an array
/// of tables at the end of the path or a scalar before it, and with `Memory` if out of memory. The
/// root is unchanged then.
pub fn set(alloc: Global, root: &mut Table, path: &[Key], value: Value) -> Result<(), ChangeFault>
    ensures { Changes (set_below (value_view value) path.now
        (table_node (table_view root.old))) (table_node (table_view root.old))
        (table_node (table_view root.new)) result }
{
    set_value(alloc, root, path, value, false)
}

/// Puts the value at the path below the root, as [`set`](crate::set) does, but makes tables with
/// headers where tables are missing.
///
/// If keys before the last are missing in a table, a table is added at its end, with further tables
/// down to the value: the last of them has a header, and those above it are implicit. A placeholder
/// is filled with them. Inside a value, inline tables are made as by `set`.
///
/// # Errors
///
/// Fails with `NoSuchPath` if a segment names no element, with `WrongKind` for a table or an array
/// of tables at the end of the path or a scalar before it, and with `Memory` if out of memory. The
/// root is unchanged then.
pub fn set_with_headers(
    alloc: Global,
    root: &mut Table,
    path: &[Key],
    value: Value,
) -> Result<(), ChangeFault>
    ensures { Changes (set_headed_below (value_view value) path.now
        (table_node (table_view root.old))) (table_node (table_view root.old))
        (table_node (table_view root.new)) result }
{
    set_value(alloc, root, path, value, true)
}

/// Puts the value at the path below the root, with headers for the tables that are missing, or with
/// inline tables.
fn set_value(
    alloc: Global,
    root: &mut Table,
    path: &[Key],
    value: Value,
    headers: bool,
) -> Result<(), ChangeFault>
    ensures { Changes (set_by headers (value_view value) path.now
        (table_node (table_view root.old))) (table_node (table_view root.old))
        (table_node (table_view root.new)) result }
{
    let mut item = Item::Value(value);
    let outcome = set_in_root(alloc, root, path, &mut item, headers);
    drop(item);
    outcome
}

/// Puts the value at the path below the root. What is left in the value's place is unspecified.
fn set_in_root(
    alloc: Global,
    root: &mut Table,
    path: &[Key],
    value: &mut Item,
    headers: bool,
) -> Result<(), ChangeFault>
    ensures { Changes (set_by headers (item_view value.old) path.now
        (table_node (table_view root.old))) (table_node (table_view root.old))
        (table_node (table_view root.new)) result }
{
    match path.split_first() {
        None => Err(ChangeFault::WrongKind),
        Some((key, rest)) => set_in_slots(alloc, root.slots_mut(), key, rest, value, headers),
    }
}

/// Puts the value at the path below the item. What is left in the value's place is unspecified.
/// Fails as [`set`] does.
#[cycle(set)]
fn set_in_item(
    alloc: Global,
    item: &mut Item,
    path: &[Key],
    value: &mut Item,
    headers: bool,
) -> Result<(), ChangeFault>
    ensures { Changes (set_by headers (item_view value.old) path.now (item_view item.old))
        (item_view item.old) (item_view item.new) result }
{
    let Some((key, rest)) = path.split_first() else {
        return set_here(item, value);
    };
    if item.is_none() {
        return fill_below(alloc, item, path, value, headers);
    }
    let headers = has_headers(headers, item);
    if let Some(slots) = item.as_slots_mut() {
        return set_in_slots(alloc, slots, key, rest, value, headers);
    }
    let values = item.is_value();
    match items_mut(item) {
        Some(items) => match place_named(items, key, values) {
            Some(at) => set_in_item(alloc, &mut items[at], rest, value, headers),
            None => Err(ChangeFault::NoSuchPath),
        },
        None => Err(ChangeFault::WrongKind),
    }
}

/// Puts the value at the rest of the path below the slot of the key, which is added if it is
/// missing.
#[cycle(set)]
fn set_in_slots(
    alloc: Global,
    slots: &mut Slots<Item>,
    key: &Key,
    rest: &[Key],
    value: &mut Item,
    headers: bool,
) -> Result<(), ChangeFault>
    ensures { Changes (change_slot true key.now
        (set_by headers (item_view value.old) rest.now) (shown_slots slots.old)
        (lookup_slot key.now.name (shown_slots slots.old)))
        (shown_slots slots.old) (shown_slots slots.new) result }
{
    // No two keys have one name, says its contract.
    let _ = slots.as_slice();
    match slots.find(key.get()) {
        Some(at) => set_in_item(alloc, slots.item_mut(at), rest, value, headers),
        None => {
            wrap_below(alloc, rest, value, headers)?;
            push_new(slots, key, value)?;
            Ok(())
        }
    }
}

/// Returns `true` if tables that are missing below the item get headers: inside a value none do.
fn has_headers(headers: bool, item: &Item) -> bool
    ensures { result ≡ headers_in headers (item_view item.now) }
{
    headers && !item.is_value()
}

/// Fills a placeholder with tables down the path to the value. Fails if out of memory.
fn fill_below(
    alloc: Global,
    item: &mut Item,
    path: &[Key],
    value: &mut Item,
    headers: bool,
) -> Result<(), ChangeFault>
    requires { item_view item.old ≡ nothing }
    ensures { Changes (set_by headers (item_view value.old) path.now (item_view item.old))
        (item_view item.old) (item_view item.new) result }
{
    wrap_below(alloc, path, value, headers)?;
    mem::swap(item, value);
    Ok(())
}

/// Puts the value in the item's place, in the decor of the value there. Fails with `WrongKind`
/// alone.
fn set_here(item: &mut Item, value: &mut Item) -> Result<(), ChangeFault>
    ensures { Changes (set_here (item_view value.old) (item_view item.old)) (item_view item.old)
        (item_view item.new) result }
{
    match item {
        Item::None => {}
        Item::Value(old) => keep_decor(old, value),
        _ => return Err(ChangeFault::WrongKind),
    }
    mem::swap(item, value);
    Ok(())
}

/// Gives the new value the decor of the old one, which is about to be dropped.
fn keep_decor(old: &mut Value, value: &mut Item)
    ensures { item_view value.new
        ≡ with_decor (node_decor (value_view old.old)) (item_view value.old) }
{
    if let Item::Value(new) = value {
        swap_decors(old, new);
    }
}

/// Swaps the decors of two values.
fn swap_decors(old: &mut Value, new: &mut Value)
    ensures { value_view new.new
        ≡ with_decor (node_decor (value_view old.old)) (value_view new.old) }
{
    mem::swap(old.decor_mut(), new.decor_mut());
}
