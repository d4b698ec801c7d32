//! Finding the item at a path.
ghost use Rattle.std.specs.Prelude.{◌≡◌, ◌&&◌, false, option_map};
ghost use Rattle.toml_edit_model.specs.Slots.{lookup_slot};
ghost use Rattle.toml_edit_model.specs.Lists.{is_tables_node};
ghost use Rattle.toml_edit_model.specs.Keys.{names};
ghost use Rattle.toml_edit_edit_laws.specs.Commands as commands;
ghost use Rattle.toml_edit_edit_laws.specs.Commands.{item_below, present};
ghost use Rattle.toml_edit_edit_laws.specs.Means.{shown_below};
ghost use Rattle.toml_edit_paths.specs.Tables.{item_through_tables};
ghost use Rattle.toml_edit_tree.specs.Indexed.{shown_slots};
ghost use Rattle.toml_edit_tree.specs.View.{item_view};

use crate::element::{as_items, place_named};
use toml_edit_key::Key;
use toml_edit_slots::Slots;
use toml_edit_tree::Item;

/// Returns the item at the path below this one, or `None` if there is none.
///
/// A segment is looked up as a key in a table or an inline table. Below an array or an array of
/// tables it is the number of an element, as [`number_of`](crate::number_of) reads it: of a value,
/// or of a table. A placeholder is not found. The empty path leads to the item itself.
pub fn get<'d>(item: &'d Item, path: &[Key]) -> Option<&'d Item>
    ensures { option_map (λ x. item_view x.now) result
        ≡ item_below (names path.now) (item_view item.now) }
{
    let mut found = item;
    'keys: for key in path {
        found = child(found, key)?;
    }
    Some(found)
}

/// Returns the item at the path below this one, as [`get`] does, but none of an array of tables that
/// is inside a value, as nothing of it is printed.
pub fn get_shown<'d>(item: &'d Item, path: &[Key]) -> Option<&'d Item>
    ensures { option_map (λ x. item_view x.now) result
        ≡ shown_below false (names path.now) (item_view item.now) }
{
    let mut found = item;
    let mut in_value = false;
    'keys: for key in path {
        if is_hidden(found, in_value) {
            return None;
        }
        in_value = found.is_value() || in_value;
        found = child(found, key)?;
    }
    if is_hidden(found, in_value) {
        None
    } else {
        Some(found)
    }
}

/// Returns `true` for an array of tables that is inside a value.
fn is_hidden(item: &Item, in_value: bool) -> bool
    ensures { result ≡ (is_tables_node (item_view item.now) && in_value) }
{
    item.is_array_of_tables() && in_value
}

/// Returns the item at the path below this one, and whether it is an element of an array of tables,
/// or `None` if there is none or a value is on the way to it.
pub fn get_through_tables<'d>(item: &'d Item, path: &[Key]) -> Option<(&'d Item, bool)>
    ensures { option_map (λ x. (item_view x.0.now, x.1)) result
        ≡ item_through_tables (names path.now) false (item_view item.now) }
{
    let mut found = item;
    let mut is_element = false;
    'keys: for key in path {
        if found.is_value() {
            return None;
        }
        is_element = found.is_array_of_tables();
        found = child(found, key)?;
    }
    Some((found, is_element))
}

/// Returns the item that a segment of a path leads to: under a key, or the value or the table at a
/// place.
fn child<'d>(item: &'d Item, key: &Key) -> Option<&'d Item>
    ensures { option_map (λ x. item_view x.now) result
        ≡ commands.child key.now.name (item_view item.now) }
{
    if let Some(slots) = item.as_slots() {
        return filled_item(slots, key.get());
    }
    let items = as_items(item)?;
    let at = place_named(items, key, item.is_value())?;
    Some(&items[at])
}

/// Returns the item of the slot of the key, unless it is a placeholder.
pub(crate) fn filled_item<'s>(slots: &'s Slots<Item>, key: &str) -> Option<&'s Item>
    ensures { option_map (λ x. item_view x.now) result
        ≡ present (lookup_slot key.now (shown_slots slots.now)) }
{
    let found = slots.get(key)?;
    if found.is_none() { None } else { Some(found) }
}
