//! Removing one thing from the text of a document and adding another, and saying what stays.
ghost use Rattle.std.specs.Prelude.{◌≡◌, IfErr, IfOk, IsTrue, OnOk, is_some, not, option_and_then, string_bytes};
ghost use Rattle.toml_edit.specs.DocumentView.{tree_owned, IsPrintedAs};
ghost use Rattle.toml_edit.specs.model.Lists.{slot_list};
ghost use Rattle.toml_edit.specs.model.Slots.{lookup, lookup_key};
ghost use Rattle.toml_edit.specs.tree.Containers.{table_in};
ghost use Rattle.toml_edit.specs.tree.SlotsOf.{slots_of};
ghost use Rattle.toml_edit.specs.tree.View.{fields_view, item_view};
ghost use Rattle.example_calls.specs.Exchanges.{AddsNew, Exchanges, ExchangesInTree, HasExchanged, TakesTable};
ghost use Rattle.example_calls.specs.Faults.{ExchangeFails, SlotsStay};

use crate::editing::print_fitting;
use crate::fault::EditFault;
use std::alloc::Global;
use toml_edit::laws::{added, edits, still_fits};
use toml_edit::{DocumentMut, Item, Mem, Table, Value};

/// Removes a table of the root, adds a string under a new key, and returns the text in its normal
/// form: all other statements are as they were.
///
/// # Errors
///
/// [`EditFault::Toml`] if the text is refused, [`EditFault::Missing`] if there is no such table,
/// [`EditFault::Present`] if the key is there, and [`EditFault::Memory`] if out of memory.
pub fn exchange(
    alloc: Global,
    text: &str,
    table: &str,
    key: &str,
    value: &str,
) -> Result<String, EditFault>
    ensures exchanged { IfOk result (λ s.
        ∥ HasExchanged text.now table.now key.now value.now (string_bytes s) ∥₁) }
    ensures fails { IfErr result (ExchangeFails text.now table.now key.now) }
{
    edits();
    still_fits();
    let mut document = DocumentMut::from_str(alloc, text)?;
    let item = Item::Value(Value::string(alloc, value)?);
    exchange_in_document(&mut document, table, key, item)?;
    Ok(print_fitting(alloc, &document)?)
}

/// Removes a table of the document's root, and adds an item under a new key.
fn exchange_in_document(
    document: &mut DocumentMut,
    table: &str,
    key: &str,
    item: Item,
) -> Result<(), EditFault>
    ensures tree { OnOk result (ExchangesInTree table.now key.now (item_view item)
        (tree_owned document.old) (tree_owned document.new)) }
    ensures fails { IfErr result
        (SlotsStay table.now key.now (slot_list (tree_owned document.old).slots)) }
    ensures printed { IsPrintedAs document.new document.old }
{
    exchange_in_table(document.as_table_mut(), table, key, item)
}

/// Removes a table from another one, and adds an item under a new key there.
fn exchange_in_table(root: &mut Table, table: &str, key: &str, item: Item) -> Result<(), EditFault>
    ensures slots { OnOk result
        (Exchanges table.now key.now (item_view item) (slots_of root.old) (slots_of root.new)) }
    ensures fails { IfErr result (SlotsStay table.now key.now (slots_of root.old)) }
    ensures fields { fields_view root.new ≡ fields_view root.old }
{
    if !take_table(root, table) {
        drop(item);
        return Err(EditFault::Missing);
    }
    if !add_new(root, key, item)? {
        return Err(EditFault::Present);
    }
    Ok(())
}

/// Removes the slot of the name. Returns whether its item was a table.
fn take_table(root: &mut Table, name: &str) -> bool
    ensures found { result
        ≡ is_some (option_and_then table_in (lookup name.now (slots_of root.old))) }
    ensures slots { IsTrue result → TakesTable name.now (slots_of root.old) (slots_of root.new) }
    ensures fields { fields_view root.new ≡ fields_view root.old }
{
    match root.remove_entry(name) {
        Some((key, item)) => {
            let is_table = item.is_table();
            drop(key);
            drop(item);
            is_table
        }
        None => false,
    }
}

/// Adds an item under a new key. Returns `false` if the key is there.
fn add_new(table: &mut Table, key: &str, item: Item) -> Mem<bool>
    ensures slots { IfOk result (λ done. IsTrue done
        → AddsNew key.now (item_view item) (slots_of table.old) (slots_of table.new)) }
    ensures present { IfOk result (λ done.
        is_some (lookup_key key.now (slots_of table.old)) ≡ not done) }
    ensures fields { fields_view table.new ≡ fields_view table.old }
{
    added();
    if table.key(key).is_some() {
        drop(item);
        return Ok(false);
    }
    drop(table.insert(key, item)?);
    Ok(true)
}
