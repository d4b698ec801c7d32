//! Counting the values of a table of either kind.
ghost use Rattle.std.specs.Prelude.{◌≡◌, false, length, slice_get};
ghost use Rattle.std.specs.Option.{option_map_or};
ghost use Rattle.toml_edit.specs.model.Iterating.{valued};
ghost use Rattle.toml_edit.specs.model.Tree.{is_value_node};

use toml_edit::TableLike;

/// Returns how many keys of a table have a value.
pub fn count_values<T: TableLike>(table: &T) -> usize
    ensures { result ≡ length (valued (T.slots_of table.now)) }
{
    let mut count = 0;
    for at in 0..table.slots() {
        if is_value_at(table, at) {
            count += 1;
        }
    }
    count
}

/// Returns `true` if there is a value at a place.
fn is_value_at<T: TableLike>(table: &T, at: usize) -> bool
    ensures { result
        ≡ option_map_or (λ s. is_value_node s.item) (slice_get (T.slots_of table.now) at) false }
{
    match table.key_value_at(at) {
        Some((_key, item)) => item.is_value(),
        None => false,
    }
}
