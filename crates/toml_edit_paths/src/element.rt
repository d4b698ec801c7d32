//! Finding the element of an array, or of an array of tables, that a segment of a path names.
ghost use Rattle.std.specs.Borrow.{sem};
ghost use Rattle.std.specs.Prelude.{◌≡◌, ◌<◌, IfSome, length, option_map};
ghost use Rattle.toml_edit_model.specs.Lists.{items_in};
ghost use Rattle.toml_edit_tree.specs.View.{item_view};
ghost use Rattle.toml_edit_tree.specs.declared.value.Value.{out-Value};
ghost use Rattle.toml_edit_tree.specs.Elements.{listed};
ghost use Rattle.toml_edit_paths.specs.Elements.{IsNumberOf, place_named};
ghost use Rattle.toml_edit_paths.specs.Items.{LendsItems, LendsValueItems, items_held, kind_of, value_items};

use toml_edit_key::Key;
use toml_edit_tree::{Item, Value};

/// Returns the number that the text spells in decimal digits without leading zeros, or `None` for
/// any other text, or a number that is too large for a place.
pub fn number_of(text: &str) -> Option<usize>
    ensures { IsNumberOf text.now result }
{
    let bytes = text.as_bytes();
    if bytes.len() > 1 && bytes[0] == b'0' {
        return None;
    }
    if !bytes.is_empty() && bytes[0] == b'+' {
        return None;
    }
    text.parse().ok()
}

/// Returns the place of the element that the key names, if there is one: of a value if `values`, and
/// else of a table.
pub(crate) fn place_named(items: &[Item], key: &Key, values: bool) -> Option<usize>
    ensures place { result ≡ place_named (kind_of values) key.now.name (listed items.now) }
    ensures within { IfSome result (λ at. at < length items.now) }
{
    let at = number_of(key.get())?;
    if is_of_kind(items.get(at)?, values) {
        Some(at)
    } else {
        None
    }
}

/// Returns `true` if the item is a value, or a table if not `values`.
fn is_of_kind(item: &Item, values: bool) -> bool
    ensures { result ≡ kind_of values (item_view item.now) }
{
    if values {
        item.is_value()
    } else {
        item.is_table()
    }
}

/// Returns the items of an array or an array of tables, or `None` for any other item.
pub(crate) fn as_items(item: &Item) -> Option<&[Item]>
    ensures { option_map (λ xs. listed xs.now) result ≡ items_in (item_view item.now) }
{
    match item {
        Item::Value(Value::Array(array)) => Some(array.values.as_slice()),
        Item::ArrayOfTables(tables) => Some(tables.values.as_slice()),
        _ => None,
    }
}

/// Returns a mutable reference to the items of an array or an array of tables, or `None` for any
/// other item.
pub(crate) fn items_mut(item: &mut Item) -> Option<&mut Vec<Item>>
    ensures* writes_back { sem 𝓛 (LendsItems item.entry result) }
    ensures items { option_map (λ xs. xs.now) result ≡ items_held item.old }
{
    match item {
        Item::ArrayOfTables(tables) => Some(&mut tables.values),
        Item::Value(value) => value_items_mut(value),
        _ => None,
    }
}

/// Returns a mutable reference to the items of an array, or `None` for any other value.
fn value_items_mut(value: &mut Value) -> Option<&mut Vec<Item>>
    ensures* writes_back { sem 𝓛 (LendsValueItems value.entry result) }
    ensures items { option_map (λ xs. xs.now) result ≡ value_items (out-Value value.old) }
{
    match value {
        Value::Array(array) => Some(&mut array.values),
        _ => None,
    }
}
