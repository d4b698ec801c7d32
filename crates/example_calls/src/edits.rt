//! Editing the text of a document by paths, and saying what stays.
ghost use Rattle.std.specs.Prelude.{[], ◌∷◌, IfOk, OnOk, string_bytes};
ghost use Rattle.toml_edit.specs.Edited.{EditsBy, IsEditedText};
ghost use Rattle.toml_edit.specs.edits.PathEdits.{removes, sets};
ghost use Rattle.toml_edit.specs.model.Keys.{names, new_key};
ghost use Rattle.toml_edit.specs.model.Tree.{Tree};
ghost use Rattle.example_calls.specs.Values.{flag_node, string_node, version_path};

use crate::fault::EditFault;
use std::alloc::Global;
use toml_edit::laws::edited_prints;
use toml_edit::{DocumentMut, Key, Value};

/// Replaces the version of a package, and returns the text in its normal form: all other statements
/// are as they were.
///
/// # Errors
///
/// As [`set_two`].
pub fn set_version(alloc: Global, text: &str, version: &str) -> Result<String, EditFault>
    ensures { IfOk result (λ s. ∥ ((tree : Tree) × IsEditedText text.now tree
        (sets version_path (string_node version.now) ∷ []) (string_bytes s)) ∥₁) }
{
    edited_prints();
    let mut document = DocumentMut::from_str(alloc, text)?;
    let path = [
        Key::from_text(alloc, "package")?,
        Key::from_text(alloc, "version")?,
    ];
    replace(alloc, &mut document, &path, version)?;
    Ok(document.print(alloc)?)
}

/// Replaces two values by strings, and returns the normal form. All other statements stay.
///
/// # Errors
///
/// [`EditFault::Toml`] if the text is refused, [`EditFault::Missing`] if there is no value at a
/// path, and [`EditFault::Memory`] if out of memory.
pub fn set_two(
    alloc: Global,
    text: &str,
    first: &[Key],
    one: &str,
    second: &[Key],
    two: &str,
) -> Result<String, EditFault>
    ensures { IfOk result (λ s. ∥ ((tree : Tree) × IsEditedText text.now tree
        (sets first.now (string_node one.now) ∷ sets second.now (string_node two.now) ∷ [])
        (string_bytes s)) ∥₁) }
{
    edited_prints();
    let mut document = DocumentMut::from_str(alloc, text)?;
    replace(alloc, &mut document, first, one)?;
    replace(alloc, &mut document, second, two)?;
    Ok(document.print(alloc)?)
}

/// Replaces a version, adds a flag to the root, removes what is at a path, and returns
/// the text in its normal form: all other statements are as they were.
///
/// # Errors
///
/// As [`set_two`], with [`EditFault::Present`] if the flag is there, and [`EditFault::Missing`] if
/// there is nothing to remove.
pub fn release(
    alloc: Global,
    text: &str,
    version: &[Key],
    value: &str,
    flag: &str,
    gone: &[Key],
) -> Result<String, EditFault>
    ensures { IfOk result (λ s. ∥ ((tree : Tree) × IsEditedText text.now tree
        (sets version.now (string_node value.now) ∷ sets (new_key flag.now ∷ []) flag_node
        ∷ removes (names gone.now) ∷ []) (string_bytes s)) ∥₁) }
{
    edited_prints();
    let mut document = DocumentMut::from_str(alloc, text)?;
    replace(alloc, &mut document, version, value)?;
    add_flag(alloc, &mut document, flag)?;
    document.remove_at(gone)?;
    Ok(document.print(alloc)?)
}

/// Replaces the value at a path by a string.
fn replace(
    alloc: Global,
    document: &mut DocumentMut,
    path: &[Key],
    text: &str,
) -> Result<(), EditFault>
    ensures { OnOk result
        (EditsBy (sets path.now (string_node text.now)) document.old document.new) }
{
    document.replace_at(path, Value::string(alloc, text)?)?;
    Ok(())
}

/// Adds `true` under a new key of the root.
fn add_flag(alloc: Global, document: &mut DocumentMut, name: &str) -> Result<(), EditFault>
    ensures { OnOk result
        (EditsBy (sets (new_key name.now ∷ []) flag_node) document.old document.new) }
{
    let path = [Key::from_text(alloc, name)?];
    if document.get_at(&path).is_some() {
        return Err(EditFault::Present);
    }
    if !document.may_put(&path) {
        return Err(EditFault::Missing);
    }
    document.set_at(&path, Value::from(true))?;
    Ok(())
}
