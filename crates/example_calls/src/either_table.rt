//! Items that are tables of either kind: with a header, or in braces.
ghost use Rattle.std.specs.Prelude.{◌≡◌, IfOk, length, option_map};
ghost use Rattle.example_calls.specs.Either.{item_under, version_in};
ghost use Rattle.toml_edit.specs.model.Iterating.{filled};
ghost use Rattle.toml_edit.specs.model.Lists.{on_slots};
ghost use Rattle.toml_edit.specs.model.Slots.{without};
ghost use Rattle.toml_edit.specs.tree.View.{item_view};

use toml_edit::{AnyTable, AsTableLike, Item, Mem};

/// Returns the version of a dependency: the item itself, or `version` in a table of either kind.
pub fn version_of(dependency: &Item) -> Option<&str>
    ensures { option_map (λ t. t.now) result ≡ version_in (item_view dependency.now) }
{
    match dependency.as_table_like() {
        Some(table) => table.get("version")?.as_str(),
        None => dependency.as_str(),
    }
}

/// Removes a key from a table of either kind, and returns its item. Any other item has no keys.
pub fn remove_from(item: &mut Item, key: &str) -> Option<Item>
    ensures item { option_map item_view result ≡ item_under key.now (item_view item.old) }
    ensures left { item_view item.new ≡ on_slots (without key.now) (item_view item.old) }
{
    match item.as_table_like_mut() {
        Some(mut table) => table.remove(key),
        None => None,
    }
}

/// Sorts the keys of a table of either kind, and returns how many there are.
pub fn sort_keys<T: AnyTable>(table: &mut T) -> Mem<usize>
    ensures { IfOk result (λ count. count ≡ length (filled (T.slots_of table.new))) }
{
    table.sort_values()?;
    Ok(table.len())
}
