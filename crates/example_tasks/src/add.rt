//! Adding to a sorted table.
ghost use Rattle.std.specs.Prelude.{◌≡◌, ◌≤◌, IfOk, IsTrue, OnErr, false, is_some, length, not, slice_get};
ghost use Rattle.std.specs.Option.{option_map_or};
ghost use Rattle.toml_edit.specs.model.Keys.{new_key};
ghost use Rattle.toml_edit.specs.model.Rearranging.{inserted_slot};
ghost use Rattle.toml_edit.specs.model.Slots.{keyed, lookup_key};
ghost use Rattle.toml_edit.specs.tree.SlotsOf.{slots_of};
ghost use Rattle.toml_edit.specs.tree.View.{fields_view, value_view};
ghost use Rattle.example_tasks.specs.Sorted.{comes_before, sorted_place};

use std::alloc::{AllocError, Global};
use toml_edit::{Item, Key, Mem, Table, Value};

/// Adds a value before the first key that sorts after its own, so that a sorted table stays sorted.
/// Returns `false` if the key is there.
pub fn add_sorted(alloc: Global, table: &mut Table, name: &str, value: Value) -> Mem<bool>
    ensures present { IfOk result
        (λ is_new. is_new ≡ not (is_some (lookup_key name.now (slots_of table.old)))) }
    ensures slots { IfOk result (λ is_new. IsTrue is_new → slots_of table.new
        ≡ inserted_slot (sorted_place name.now (slots_of table.old))
        (keyed (new_key name.now) (value_view value)) (slots_of table.old)) }
    ensures fields { fields_view table.new ≡ fields_view table.old }
    ensures kept { IfOk result (λ is_new. ¬ (IsTrue is_new) → table.new ≡ table.old) }
    ensures err { OnErr result (table.new ≡ table.old) }
{
    if table.key(name).is_some() {
        drop(value);
        return Ok(false);
    }
    let key = Key::from_text(alloc, name)?;
    let at = new_place(table, name);
    match table.insert_at(at, key, Item::Value(value)) {
        Ok(()) => Ok(true),
        Err(refused) => {
            drop(refused);
            Err(AllocError)
        }
    }
}

/// Returns the place of the first key that sorts after the name, or the number of slots.
fn new_place(table: &Table, name: &str) -> usize
    ensures place { result ≡ sorted_place name.now (slots_of table.now) }
    ensures within { result ≤ length (slots_of table.now) }
{
    for at in 0..table.slots() {
        if sorts_before(name, table, at) {
            return at;
        }
    }
    table.slots()
}

/// Returns `true` if there is a key at a place, and the name sorts before it.
fn sorts_before(name: &str, table: &Table, at: usize) -> bool
    ensures { result
        ≡ option_map_or (comes_before name.now) (slice_get (slots_of table.now) at) false }
{
    match table.key_value_at(at) {
        Some((key, _item)) => name < key.get(),
        None => false,
    }
}
