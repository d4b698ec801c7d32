//! Removing a key from the text of a document, and saying what stays.
ghost use Rattle.std.specs.Prelude.{◌≡◌, IfErr, IfOk, is_some, string_bytes};
ghost use Rattle.toml_edit.specs.DocumentView.{tree_owned, IsPrintedAs};
ghost use Rattle.toml_edit.specs.model.Lists.{slot_list};
ghost use Rattle.toml_edit.specs.model.Slots.{lookup, without};
ghost use Rattle.toml_edit.specs.tree.SlotsOf.{slots_of};
ghost use Rattle.toml_edit.specs.tree.View.{fields_view};
ghost use Rattle.example_calls.specs.Faults.{RemovalFails};
ghost use Rattle.example_calls.specs.Removals.{HasKeyRemoved, without_key};

use crate::editing::print_fitting;
use crate::fault::EditFault;
use std::alloc::Global;
use toml_edit::laws::{removed, still_fits};
use toml_edit::{DocumentMut, Table};

/// Removes a key of the root with all that is below it, and returns the text in its normal form:
/// all other statements are as they were.
///
/// # Errors
///
/// [`EditFault::Toml`] if the text is refused, [`EditFault::Missing`] if there is no such key, and
/// [`EditFault::Memory`] if out of memory.
pub fn remove_key(alloc: Global, text: &str, name: &str) -> Result<String, EditFault>
    ensures removed { IfOk result (λ s. ∥ HasKeyRemoved text.now name.now (string_bytes s) ∥₁) }
    ensures fails { IfErr result (RemovalFails text.now name.now) }
{
    removed();
    still_fits();
    let mut document = DocumentMut::from_str(alloc, text)?;
    if !remove_in_document(&mut document, name) {
        return Err(EditFault::Missing);
    }
    Ok(print_fitting(alloc, &document)?)
}

/// Removes a key of the document's root. Returns `false` if there is none.
fn remove_in_document(document: &mut DocumentMut, name: &str) -> bool
    ensures found { result ≡ is_some (lookup name.now (slot_list (tree_owned document.old).slots)) }
    ensures tree { tree_owned document.new ≡ without_key name.now (tree_owned document.old) }
    ensures printed { IsPrintedAs document.new document.old }
{
    remove_slot(document.as_table_mut(), name)
}

/// Removes the slot of the name, as [`remove_in_document`] does.
fn remove_slot(root: &mut Table, name: &str) -> bool
    ensures found { result ≡ is_some (lookup name.now (slots_of root.old)) }
    ensures slots { slots_of root.new ≡ without name.now (slots_of root.old) }
    ensures fields { fields_view root.new ≡ fields_view root.old }
{
    match root.remove(name) {
        Some(item) => {
            drop(item);
            true
        }
        None => false,
    }
}
