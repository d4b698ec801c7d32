//! Changing the text of a document, and saying what stays.
ghost use Rattle.std.specs.Prelude.{◌≡◌, true, IfErr, IfOk, IsTrue, is_some, string_bytes};
ghost use Rattle.toml_edit.specs.DocumentView.{mode_owned, open_owned, tree_owned, IsPrintedAs};
ghost use Rattle.toml_edit.specs.model.Conversions.{with_decor};
ghost use Rattle.toml_edit.specs.model.Lists.{slot_list};
ghost use Rattle.toml_edit.specs.model.Tree.{is_value_node, node_decor};
ghost use Rattle.toml_edit.specs.tree.Containers.{value_in};
ghost use Rattle.toml_edit.specs.tree.SlotsOf.{slots_of};
ghost use Rattle.toml_edit.specs.tree.View.{fields_view, item_view, value_view};
ghost use Rattle.example_calls.specs.Edits.{HasValueSet};
ghost use Rattle.example_calls.specs.Faults.{SetFails};
ghost use Rattle.example_calls.specs.Paths.{value_below, value_inside, value_under};
ghost use Rattle.example_calls.specs.Prints.{ReadsBack};
ghost use Rattle.example_calls.specs.Sets.{SetsBelow, SetsInTable, SetsInTree, SetsValue};

use crate::changing::replace_value;
use crate::fault::EditFault;
use std::alloc::Global;
use toml_edit::laws::{agree, cut, edits, reparse, replaced, still_fits};
use toml_edit::{DocumentMut, Item, Mem, Table, Value};

/// Replaces the value under a key of a table by a string, and returns the text in its normal form:
/// the rest of the line and all other statements are as they were.
///
/// # Errors
///
/// [`EditFault::Toml`] if the text is refused, [`EditFault::Missing`] if there is no such value, and
/// [`EditFault::Memory`] if out of memory.
pub fn set_string(
    alloc: Global,
    text: &str,
    name: &str,
    key: &str,
    value: &str,
) -> Result<String, EditFault>
    ensures set { IfOk result (λ s.
        ∥ HasValueSet text.now name.now key.now value.now (string_bytes s) ∥₁) }
    ensures fails { IfErr result (SetFails text.now name.now key.now) }
{
    edits();
    replaced();
    still_fits();
    let mut document = DocumentMut::from_str(alloc, text)?;
    let value = Value::string(alloc, value)?;
    if !replace_in_document(&mut document, name, key, value) {
        return Err(EditFault::Missing);
    }
    Ok(print_fitting(alloc, &document)?)
}

/// Returns the text of a document. If it fits, the text is valid TOML and means what the tree says.
///
/// # Errors
///
/// Returns an `AllocError` if out of memory.
pub fn print_fitting(alloc: Global, document: &DocumentMut) -> Mem<String>
    ensures { IfOk result (λ s. ReadsBack (mode_owned document.now) (open_owned document.now)
        (tree_owned document.now) (string_bytes s)) }
{
    cut();
    agree();
    reparse();
    document.print(alloc)
}

/// Replaces the value under a key of a table of the document. Returns `false` if there is none.
fn replace_in_document(document: &mut DocumentMut, name: &str, key: &str, value: Value) -> bool
    ensures found { result
        ≡ is_some (value_below name.now key.now (slot_list (tree_owned document.old).slots)) }
    ensures tree { IsTrue result → SetsInTree name.now key.now (value_view value)
        (tree_owned document.old) (tree_owned document.new) }
    ensures printed { IsPrintedAs document.new document.old }
{
    replace_below(document.as_table_mut(), name, key, value)
}

/// Replaces the value that the item is, and keeps the whitespace and the comment around it. Returns
/// `false` where it is none.
fn replace_in_item(item: &mut Item, value: Value) -> bool
    ensures found { result ≡ is_some (value_in (item_view item.old)) }
    ensures item { IsTrue result → (is_value_node (item_view item.old) ≡ true)
        × (item_view item.new ≡ with_decor (node_decor (item_view item.old)) (value_view value)) }
{
    match item.as_value_mut() {
        Some(old) => {
            replace_value(old, value);
            true
        }
        None => {
            drop(value);
            false
        }
    }
}

/// Replaces the value under the key, as [`replace_in_item`] does.
fn replace_in_table(table: &mut Table, key: &str, value: Value) -> bool
    ensures found { result ≡ is_some (value_under key.now (slots_of table.old)) }
    ensures slots { IsTrue result
        → SetsValue key.now (value_view value) (slots_of table.old) (slots_of table.new) }
    ensures fields { IsTrue result → fields_view table.new ≡ fields_view table.old }
{
    match table.get_mut(key) {
        Some(item) => replace_in_item(item, value),
        None => {
            drop(value);
            false
        }
    }
}

/// Replaces the value under the key in the table that the item is, as [`replace_in_item`] does.
fn replace_in_item_table(item: &mut Item, key: &str, value: Value) -> bool
    ensures found { result ≡ is_some (value_inside key.now (item_view item.old)) }
    ensures item { IsTrue result
        → SetsInTable key.now (value_view value) (item_view item.old) (item_view item.new) }
{
    match item.as_table_mut() {
        Some(table) => replace_in_table(table, key, value),
        None => {
            drop(value);
            false
        }
    }
}

/// Replaces the value under the key of the table under the name, as [`replace_in_item`] does.
fn replace_below(root: &mut Table, name: &str, key: &str, value: Value) -> bool
    ensures found { result ≡ is_some (value_below name.now key.now (slots_of root.old)) }
    ensures slots { IsTrue result
        → SetsBelow name.now key.now (value_view value) (slots_of root.old) (slots_of root.new) }
    ensures fields { IsTrue result → fields_view root.new ≡ fields_view root.old }
{
    match root.get_mut(name) {
        Some(item) => replace_in_item_table(item, key, value),
        None => {
            drop(value);
            false
        }
    }
}
