//! The function that makes an item from a value.
ghost use Rattle.std.specs.Prelude.{◌≡◌};
ghost use Rattle.toml_edit_tree.specs.View.{item_view, value_view};
ghost use Rattle.toml_edit_tree.specs.declared.value.Value.{Value};

use toml_edit_tree::{Item, Value, item};

/// Returns the item of a value, or of what converts into a value.
///
/// A [`Value`] keeps its decor and its spelling. For a `&str`, which needs an allocator, use
/// [`Value::string`].
///
/// # Examples
///
/// ```rust,ignore
/// let item = toml_edit::value(datetime);
/// drop(table.insert(key, item).map_err(no_memory)?);
/// ```
///
/// From `set_date_time` of the crate `example_calls`.
pub fn value<V: Into<Value>>(value: V) -> Item
    ensures { (made : Value) × V.converts value made × (item_view result ≡ value_view made) }
{
    item::value(value.into())
}
