//! Whether two values are equal.
ghost use Rattle.std.specs.Prelude.{◌≡◌};
ghost use Rattle.toml_edit_tree.specs.Indexed.{shown_slots};
ghost use Rattle.toml_edit_tree.specs.View.{item_view, items_view, slots_view, value_view};
ghost use Rattle.toml_edit_edits.specs.Same.{same_items, same_node, same_slots};

use toml_edit::{Item, Slots, Value};

/// Returns `true` if the values have the same kind and the same data, whatever their spelling.
///
/// Floats are the same if they have the same digits. Arrays are the same if their values are, in
/// order, and inline tables if they have the same keys with the same values, in any order.
#[cycle(same)]
pub fn same_value(a: &Value, b: &Value) -> bool
    ensures { result ≡ same_node (value_view a.now) (value_view b.now) }
{
    match a {
        Value::String(a) => Some(a.value().as_str()) == b.as_str(),
        Value::Integer(a) => Some(*a.value()) == b.as_integer(),
        Value::Float(a) => Some(a.value()) == b.as_float_text(),
        Value::Boolean(a) => Some(*a.value()) == b.as_bool(),
        Value::Datetime(a) => Some(a.value()) == b.as_datetime(),
        Value::Array(a) => match b.as_array() {
            Some(b) => same_items(&a.values, &b.values),
            None => false,
        },
        Value::InlineTable(a) => match b.as_inline_table() {
            Some(b) => a.len() == b.len() && same_slots(&a.items, &b.items),
            None => false,
        },
    }
}

/// Returns `true` if the items are values, as many and the same, in order.
#[cycle(same)]
fn same_items(a: &Vec<Item>, b: &Vec<Item>) -> bool
    ensures { result ≡ same_items (items_view a.now.items) (items_view b.now.items) }
{
    if a.len() != b.len() {
        return false;
    }
    for at in 0..a.len() {
        if !same_item(&a[at], &b[at]) {
            return false;
        }
    }
    true
}

/// Returns `true` if the items are values that are the same.
#[cycle(same)]
fn same_item(a: &Item, b: &Item) -> bool
    ensures { result ≡ same_node (item_view a.now) (item_view b.now) }
{
    match a {
        Item::Value(a) => match b.as_value() {
            Some(b) => same_value(a, b),
            None => false,
        },
        Item::None | Item::Table(_) | Item::ArrayOfTables(_) => false,
    }
}

/// Returns `true` if the second slots have the values of the first, under the same keys.
#[cycle(same)]
fn same_slots(a: &Slots<Item>, b: &Slots<Item>) -> bool
    ensures { result ≡ same_slots (slots_view a.now) (shown_slots b.now) }
{
    let entries = a.as_slice();
    'slots: for slot in entries {
        if slot.item.is_value() {
            match b.get(slot.key.get()) {
                Some(other) => {
                    if !same_item(&slot.item, other) {
                        return false;
                    }
                }
                None => return false,
            }
        }
    }
    true
}
