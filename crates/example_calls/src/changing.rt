//! Changing values in place.
ghost use Rattle.std.specs.Prelude.{◌≡◌, is_some};
ghost use Rattle.example_calls.specs.Paths.{value_at};
ghost use Rattle.toml_edit.specs.model.Tree.{node_decor};
ghost use Rattle.toml_edit.specs.tree.Casts.{decorated};
ghost use Rattle.toml_edit.specs.tree.View.{value_view};

use std::mem;
use toml_edit::{Table, Value};

/// Replaces a value, and keeps the whitespace and the comment around it.
pub fn replace_value(old: &mut Value, mut value: Value)
    ensures { old.new ≡ decorated (node_decor (value_view old.old)) value }
{
    mem::swap(old.decor_mut(), value.decor_mut());
    mem::swap(old, &mut value);
    drop(value);
}

/// Sets the value under `table.key`, and keeps its comment. Returns `false` where there is none.
pub fn set_value(root: &mut Table, table: &str, key: &str, value: Value) -> bool
    ensures { result ≡ is_some (value_at table.now key.now root.old) }
{
    let table = root.get_mut(table).and_then(|item| item.as_table_mut());
    let item = table.and_then(|table| table.get_mut(key));
    if let Some(old) = item.and_then(|item| item.as_value_mut()) {
        replace_value(old, value);
        return true;
    }
    drop(value);
    false
}
