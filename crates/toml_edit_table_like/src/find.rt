//! Look-up in slots.
ghost use Rattle.std.specs.Prelude.{◌≡◌, length, option_map};
ghost use Rattle.toml_edit_model.specs.Iterating.{filled};
ghost use Rattle.toml_edit_model.specs.TableCalls.{get_slot};
ghost use Rattle.toml_edit_table_like.specs.Shown.{shown};
ghost use Rattle.toml_edit_tree.specs.SlotsOf.{slot_read};

use toml_edit_key::Key;
use toml_edit_slots::Slots;
use toml_edit_tree::Item;
use toml_edit_tree::table::is_filled;

/// Counts the slots that are not placeholders.
pub(crate) fn filled_len(slots: &Slots<Item>) -> usize
    ensures { result ≡ length (filled (shown slots.now)) }
{
    let mut count = 0;
    for slot in slots.as_slice() {
        if is_filled(slot) {
            count += 1;
        }
    }
    count
}

/// Returns the key of this name and its item, unless that is a placeholder.
pub(crate) fn filled_slot<'a>(slots: &'a Slots<Item>, key: &str) -> Option<(&'a Key, &'a Item)>
    ensures { option_map slot_read result ≡ get_slot key.now (shown slots.now) }
{
    let (key, item) = slots.get_key_value(key)?;
    if item.is_none() {
        None
    } else {
        Some((key, item))
    }
}
