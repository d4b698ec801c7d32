//! Reading values, their spans, and keys.
ghost use Rattle.std.specs.Prelude.{◌≡◌, IfOk, option_and_then, string_bytes};
ghost use Rattle.example_calls.specs.Names.{name_lines};
ghost use Rattle.toml_edit.specs.model.Indexing.{indexed, text};
ghost use Rattle.toml_edit.specs.model.Iterating.{filled_pairs};
ghost use Rattle.toml_edit.specs.tree.Casts.{integer_in};
ghost use Rattle.toml_edit.specs.tree.ItemParts.{item_span};
ghost use Rattle.toml_edit.specs.tree.SlotsOf.{slots_of};
ghost use Rattle.toml_edit.specs.tree.View.{item_view};

use std::alloc::Global;
use std::ops::Range;
use toml_edit::{Item, Mem, Table};

/// Returns the integer under `table.key`, if there is one.
pub fn integer_at(root: &Item, table: &str, key: &str) -> Option<i64>
    ensures { result ≡ option_and_then integer_in
        (option_and_then (indexed (text key.now)) (indexed (text table.now) (item_view root.now))) }
{
    root.get(table)?.get(key)?.as_integer()
}

/// Returns the bytes of the source that the value under the key spans, if it was read from one.
pub fn span_at(root: &Item, key: &str) -> Option<Range<usize>>
    ensures { result ≡ option_and_then item_span (indexed (text key.now) (item_view root.now)) }
{
    root.get(key)?.span()
}

/// Returns the keys of the table in order, each with a newline after it.
pub fn names(alloc: Global, table: &Table) -> Mem<String>
    ensures { IfOk result (λ s. string_bytes s ≡ name_lines (filled_pairs (slots_of table.now))) }
{
    let mut names = String::new(alloc);
    for (name, _item) in table.iter() {
        names.push_str(name)?;
        names.push_str("\n")?;
    }
    Ok(names)
}
