//! Finding the slot of a key, after adding it where it is missing.
ghost use Rattle.std.specs.Prelude.{◌≡◌, ◌<◌, Some, IfErr, IfOk, IsOk, IsTrue, OnErr, length, option_map, slice_get};
ghost use Rattle.std.specs.Option.{unwrap_or};
ghost use Rattle.toml_edit_model.specs.Keys.{new_key};
ghost use Rattle.toml_edit_model.specs.Slots.{has_slot, lookup, put, with_item as with_item_seen};
ghost use Rattle.toml_edit_slots.specs.Slots.{items_of, with_item};
ghost use Rattle.toml_edit_table_like.specs.Putting.{item_put};
ghost use Rattle.toml_edit_table_like.specs.Shown.{shown};
ghost use Rattle.toml_edit_tree.specs.View.{item_view};
ghost use Rattle.toml_edit_tree.specs.declared.item.Item.{Item};

use toml_edit_key::Key;
use toml_edit_slots::{NoMemory, Slot, Slots};
use toml_edit_tree::Item;

/// Finds the slot of the key, after adding one with `item` at the end if the key is missing.
pub(crate) fn find_or_add(
    slots: &mut Slots<Item>,
    key: &str,
    item: Item,
) -> Result<usize, NoMemory<Item>>
    ensures within { IfOk result (λ at. at < length slots.new) }
    ensures item { IfOk result
        (λ at. option_map item_view (slice_get (items_of slots.new) at)
        ≡ Some (unwrap_or (lookup key.now (shown slots.old)) (item_view item))) }
    ensures rest { IfOk result
        (λ at. (w : Item) → with_item at w slots.new ≡ item_put (new_key key.now) w slots.old) }
    ensures leaves { (w : Item) → shown (item_put (new_key key.now) w slots.old)
        ≡ put (with_item_seen (item_view w)) (record { key = new_key key.now; item = item_view w })
        (shown slots.old) }
    ensures present { IsTrue (has_slot key.now (shown slots.old)) → IsOk result }
    ensures back { IfErr result (λ refused. refused.0 ≡ item) }
    ensures err { OnErr result (slots.new ≡ slots.old) }
{
    // No two keys have one name, says its contract.
    let _ = slots.as_slice();
    match slots.find(key) {
        Some(at) => {
            drop(item);
            Ok(at)
        }
        None => {
            let at = slots.len();
            let Ok(key) = Key::from_text(slots.allocator(), key) else {
                return Err(NoMemory(item));
            };
            match slots.push(Slot { key, item }) {
                Ok(()) => Ok(at),
                Err(refused) => Err(NoMemory(refused.0.into_item())),
            }
        }
    }
}

/// Finds the slot of the key, after adding one with a copy of the key if it is missing.
pub(crate) fn find_or_add_key(
    slots: &mut Slots<Item>,
    key: &Key,
    item: Item,
) -> Result<usize, NoMemory<Item>>
    ensures within { IfOk result (λ at. at < length slots.new) }
    ensures item { IfOk result
        (λ at. option_map item_view (slice_get (items_of slots.new) at)
        ≡ Some (unwrap_or (lookup key.now.name (shown slots.old)) (item_view item))) }
    ensures rest { IfOk result
        (λ at. (w : Item) → with_item at w slots.new ≡ item_put key.now w slots.old) }
    ensures leaves { (w : Item) → shown (item_put key.now w slots.old)
        ≡ put (with_item_seen (item_view w)) (record { key = key.now; item = item_view w })
        (shown slots.old) }
    ensures present { IsTrue (has_slot key.now.name (shown slots.old)) → IsOk result }
    ensures back { IfErr result (λ refused. refused.0 ≡ item) }
    ensures err { OnErr result (slots.new ≡ slots.old) }
{
    // No two keys have one name, says its contract.
    let _ = slots.as_slice();
    match slots.find(key.get()) {
        Some(at) => {
            drop(item);
            Ok(at)
        }
        None => {
            let at = slots.len();
            let Ok(key) = key.clone(slots.allocator()) else {
                return Err(NoMemory(item));
            };
            match slots.push(Slot { key, item }) {
                Ok(()) => Ok(at),
                Err(refused) => Err(NoMemory(refused.0.into_item())),
            }
        }
    }
}
