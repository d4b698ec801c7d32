//! The check of a whole document.
ghost use Rattle.std.specs.Prelude.{◌≡◌, ◌↔◌, IsTrue, true, false};
ghost use Rattle.toml_edit_model.specs.Fits.{FitsIn};
ghost use Rattle.toml_edit_model.specs.Scalars.{fits_integer};
ghost use Rattle.toml_edit_model.specs.Tree.{IsWellMade, ItemsAreWellMade, SlotsAreWellMade};
ghost use Rattle.toml_edit_repr.specs.Modes.{mode_of};
ghost use Rattle.toml_edit_tree.specs.View.{fields_view, item_view, items_view, slots_view, table_slots, tree_view, value_view};
ghost use Rattle.toml_edit_fits.specs.MisfitViews.{Reports};
ghost use Rattle.toml_edit_fits.specs.Misfits.{misfits};
ghost use Rattle.toml_edit_fits.specs.OrderTests as tests;

use crate::order::{Marks, order_slots};
use crate::report::{Report, Silent};
use crate::route::no_keys;
use crate::table::{root_fits, tables_fit};
use toml_edit_repr::{Mode, RawString};
use toml_edit_slots::Slots;
use toml_edit_tree::{Item, Table, Value};

/// Opens the slots, and all below them: the invariant of a value is known where it is opened.
#[cycle(open)]
fn open_slots(slots: &Slots<Item>)
    ensures { ∥ SlotsAreWellMade (slots_view slots.now) ∥₁ }
{
    let entries = slots.as_slice();
    'slots: for slot in entries {
        let _ = slot.key.get();
        open_item(&slot.item);
    }
}

/// Opens the items of an array, or of an array of tables.
#[cycle(open)]
fn open_items(items: &Vec<Item>)
    ensures { ∥ ItemsAreWellMade (items_view items.now.items) ∥₁ }
{
    'items: for item in items {
        open_item(item);
    }
}

/// Opens an item.
#[cycle(open)]
fn open_item(item: &Item)
    ensures { ∥ IsWellMade (item_view item.now) ∥₁ }
{
    match item {
        Item::None => (),
        Item::Value(value) => open_value(value),
        Item::Table(table) => open_slots(&table.slots),
        Item::ArrayOfTables(tables) => open_items(&tables.values),
    }
}

/// Opens a value.
#[cycle(open)]
fn open_value(value: &Value)
    ensures { ∥ IsWellMade (value_view value.now) ∥₁ }
{
    match value {
        Value::String(scalar) => {
            let _ = scalar.value();
        }
        Value::Integer(scalar) => open_number(*scalar.value()),
        Value::Float(scalar) => {
            let _ = scalar.value().as_str();
        }
        Value::Boolean(scalar) => {
            let _ = scalar.value();
        }
        Value::Datetime(scalar) => {
            let _ = scalar.value();
        }
        Value::Array(array) => open_items(&array.values),
        Value::InlineTable(table) => open_slots(&table.items),
    }
}

/// Takes an integer by value: its range is known then.
fn open_number(number: i64)
    ensures { fits_integer number ≡ true }
{
    let _ = number;
}

/// Returns the marks before the tables below the root.
fn root_marks(root: &Table) -> Marks
    ensures { result ≡ tests.root_marks (fields_view root.now) }
{
    let seen = if root.is_dotted() {
        0
    } else {
        root.position().unwrap_or(0)
    };
    Marks {
        seen,
        highest: None,
    }
}

/// Returns `true` if the document with this root and this trailing text fits in the mode, and else
/// reports the first place where it does not.
pub(crate) fn all_fits<R: Report>(
    report: &mut R,
    mode: Mode,
    root: &Table,
    trailing: &RawString,
) -> bool
    ensures reports { Reports R.tells (misfits (mode_of mode) (tree_view root.now trailing.now))
        true false result report.new }
    ensures made { ∥ SlotsAreWellMade (table_slots root.now) ∥₁ }
{
    open_slots(&root.slots);
    if !root_fits(report, mode, root, trailing) {
        return false;
    }
    if !tables_fit(report, mode, no_keys(), &root.slots) {
        return false;
    }
    order_slots(report, None, root_marks(root), &root.slots).is_some()
}

/// Returns `true` if the document with this root and this trailing text fits in the mode.
///
/// See `DocumentMut::fits`. Takes no memory, and time linear in the size of the tree.
#[doc(hidden)]
pub fn tree_fits(mode: Mode, root: &Table, trailing: &RawString) -> bool
    ensures fits { IsTrue result ↔ FitsIn (mode_of mode) (tree_view root.now trailing.now) }
    // The tree is well made, as its types ensure.
    ensures made { ∥ SlotsAreWellMade (table_slots root.now) ∥₁ }
{
    all_fits(&mut Silent, mode, root, trailing)
}
