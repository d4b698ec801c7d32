//! Insertion of items into an inline table, whose own calls take values.
ghost use Rattle.std.specs.Prelude.{◌≡◌, true, IfErr, IfOk, IsOk, IsTrue, OnErr, OnOk, option_and_then, option_map};
ghost use Rattle.toml_edit_model.specs.Conversions.{into_value, made_value};
ghost use Rattle.toml_edit_model.specs.InlineCalls.{old_value};
ghost use Rattle.toml_edit_model.specs.Lists.{is_item};
ghost use Rattle.toml_edit_model.specs.Slots.{changed, has_slot, inserted, on_item};
ghost use Rattle.toml_edit_table_like.specs.Shown.{shown};
ghost use Rattle.toml_edit_tree.specs.InlineSlots.{inline_fields};
ghost use Rattle.toml_edit_tree.specs.SlotsOf.{inline_slots_of};
ghost use Rattle.toml_edit_tree.specs.View.{item_view};

use toml_edit_slots::{NoMemory, Slots};
use toml_edit_tree::{InlineTable, Item};

/// Inserts an item that is not a placeholder, made a value, and returns the old one, made a value.
pub(crate) fn insert_item(
    table: &mut InlineTable,
    key: &str,
    item: Item,
) -> Result<Option<Item>, NoMemory<Item>>
    requires { is_item (item_view item) ≡ true }
    ensures old { IfOk result
        (λ old. option_map item_view old ≡ old_value key.now (inline_slots_of table.old)) }
    ensures slots { OnOk result
        (inline_slots_of table.new
        ≡ inserted key.now (made_value (item_view item)) (inline_slots_of table.old)) }
    ensures present { IsTrue (has_slot key.now (inline_slots_of table.old)) → IsOk result }
    ensures fields { inline_fields table.new ≡ inline_fields table.old }
    ensures back { IfErr result (λ refused. refused.0 ≡ item) }
    ensures err { OnErr result (table.new ≡ table.old) }
{
    match table.items.insert(key, item) {
        Ok(old) => {
            make_value_under(&mut table.items, key);
            Ok(old_value_item(old))
        }
        Err(refused) => Err(refused),
    }
}

/// Makes the item under the key a value.
fn make_value_under(slots: &mut Slots<Item>, key: &str)
    ensures { shown slots.new ≡ changed key.now (on_item made_value) (shown slots.old) }
{
    // No two keys have one name, says its contract.
    let _ = slots.as_slice();
    match slots.find(key) {
        Some(at) => slots.item_mut(at).make_value(),
        None => {}
    }
}

/// Makes an old item a value, and returns `None` for a placeholder.
fn old_value_item(old: Option<Item>) -> Option<Item>
    ensures { option_map item_view result ≡ option_and_then into_value (option_map item_view old) }
{
    value_item(old?)
}

/// Makes the item a value, and returns `None` for a placeholder.
fn value_item(item: Item) -> Option<Item>
    ensures { option_map item_view result ≡ into_value (item_view item) }
{
    match item.into_value() {
        Ok(value) => Some(Item::Value(value)),
        Err(placeholder) => {
            drop(placeholder);
            None
        }
    }
}
