//! The order and the names of keys, and the order of values.
ghost use Rattle.std.specs.Prelude.{◌≡◌, ◌∷◌, IfOk, IsPermutation, OnErr, OnOk};
ghost use Rattle.example_calls.specs.Sorts.{string_lt};
ghost use Rattle.toml_edit.specs.model.Keys.{new_key};
ghost use Rattle.toml_edit.specs.model.Rearranging.{renamed_key};
ghost use Rattle.toml_edit.specs.model.Slots.{keyed, without};
ghost use Rattle.toml_edit.specs.model.Sorting.{IsArraySort};
ghost use Rattle.toml_edit.specs.tree.Elements.{items_of};
ghost use Rattle.toml_edit.specs.tree.SlotsOf.{slots_of};
ghost use Rattle.toml_edit.specs.tree.View.{array_view, fields_view, item_view};

use std::alloc::{AllocError, Global};
use toml_edit::{Array, Item, Key, Mem, Table};

/// Inserts an item under a new key before all others. An existing slot of the key is removed.
pub fn insert_first(alloc: Global, table: &mut Table, name: &str, item: Item) -> Mem<()>
    ensures slots { OnOk result (slots_of table.new
        ≡ keyed (new_key name.now) (item_view item) ∷ without name.now (slots_of table.old)) }
    ensures fields { fields_view table.new ≡ fields_view table.old }
{
    let key = Key::from_text(alloc, name)?;
    drop(table.remove(name));
    match table.insert_at(0, key, item) {
        Ok(()) => Ok(()),
        Err(refused) => {
            drop(refused);
            Err(AllocError)
        }
    }
}

/// Returns a key of this name with the whitespace and the comments of another one.
pub fn renamed(alloc: Global, key: &Key, name: &str) -> Mem<Key>
    ensures { IfOk result (λ new. new ≡ renamed_key name.now key.now) }
{
    let leaf = key.leaf_decor().clone(alloc)?;
    let dotted = key.dotted_decor().clone(alloc)?;
    let key = Key::from_text(alloc, name)?;
    Ok(key.with_leaf_decor(leaf).with_dotted_decor(dotted))
}

/// Sorts the strings of an array.
pub fn sort_strings(array: &mut Array) -> Mem<()>
    ensures same { IsPermutation (items_of array.old) (items_of array.new) }
    ensures sorted { OnOk result (IsArraySort string_lt (items_of array.old) (items_of array.new)) }
    ensures err { OnErr result (array_view array.new ≡ array_view array.old) }
{
    array.sort_by(|a, b| a.as_str().cmp(&b.as_str()))
}
