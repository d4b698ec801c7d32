//! The order of slots by where their keys begin in the source.
ghost use Rattle.std.specs.Prelude.{◌≡◌, OnOk, OnErr};
ghost use Rattle.toml_edit_model.specs.Order.{is_sorted_by, sorted_by};
ghost use Rattle.toml_edit_laws.specs.PlaceOrder.{key_place};
ghost use Rattle.toml_edit_slots.specs.InPlace.{by_place};

use crate::slots::Slot;
use toml_edit_repr::Mem;

/// Returns where the key begins in the source, or 0 if it was not in the source.
fn place_of<T>(slot: &Slot<T>) -> usize
    ensures { result ≡ key_place slot.now.key }
{
    match slot.key.span() {
        Some(bytes) => bytes.start,
        None => 0,
    }
}

/// Returns `true` if the slots are in the order of their keys in the source.
pub(crate) fn is_in_order<T>(entries: &[Slot<T>]) -> bool
    ensures { result ≡ is_sorted_by by_place entries.now }
{
    let mut last = 0;
    for slot in entries {
        let place = place_of(slot);
        if place < last {
            return false;
        }
        last = place;
    }
    true
}

/// Sorts the slots by where their keys begin in the source. Fails only if memory runs out; the
/// slots then stay as they were.
pub(crate) fn sort_entries<T>(entries: &mut Vec<Slot<T>>) -> Mem<()>
    ensures ok { OnOk result (entries.new.items ≡ sorted_by by_place entries.old.items) }
    ensures err { OnErr result (entries.new.items ≡ entries.old.items) }
{
    entries.sort_by_key(|slot| place_of(slot))?;
    Ok(())
}
