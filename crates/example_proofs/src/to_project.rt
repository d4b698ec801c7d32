//! Moving the metadata of a package to another table.
ghost use Rattle.std.specs.Prelude.{◌≡◌, ◌++◌, IfErr, IfOk, OnOk, is_none, is_some, option_to_list, string_bytes};
ghost use Rattle.toml_edit.specs.DocumentView.{tree_owned};
ghost use Rattle.toml_edit.specs.edits.Commands.{item_at};
ghost use Rattle.toml_edit.specs.model.Keys.{names};
ghost use Rattle.example_proofs.specs.Edits.{EditsText, RefusesEdits};
ghost use Rattle.example_proofs.specs.Projects.{IsMove, IsSection, MovesAll, MovesToProject, in_poetry, project};

use crate::error::Fault;
use std::alloc::Global;
use toml_edit::{DocumentMut, Key, Mem};
use toml_edit_edits::{Edit, edit_text};

/// Moves the name, the version and the description of `[tool.poetry]` to `[project]`, each with its
/// comments if it is there, and returns the text in its normal form. If `[project]` is missing, it is
/// added after all other tables.
///
/// All other statements are as they were where each of these is a value that no dots make, and
/// `[project]` has a header or is missing.
///
/// # Errors
///
/// [`Fault::Read`] if the text is refused, [`Fault::Edited`] if one is to be moved, and `project` is no
/// table or has it, or the result would not be read back, and [`Fault::Memory`] if out of memory.
pub fn to_project(alloc: Global, text: &str) -> Result<String, Fault>
    ensures moved { IfOk result (λ out. EditsText text.now
        (MovesToProject text.now) (string_bytes out)) }
    ensures fails { IfErr result (RefusesEdits text.now (MovesToProject text.now)) }
{
    let document = DocumentMut::from_str(alloc, text)?;
    let edits = chosen(alloc, &document)?;
    match edit_text(alloc, text, &edits) {
        Ok(out) => Ok(out),
        Err(refused) => Err(Fault::Edited(refused)),
    }
}

/// Returns the edits that move what is there.
fn chosen(alloc: Global, document: &DocumentMut) -> Mem<Vec<Edit>>
    ensures { IfOk result (λ edits. MovesAll (tree_owned document.now) edits.items) }
{
    let section = new_section(alloc, document)?;
    let name = moved(alloc, document, "name")?;
    let version = moved(alloc, document, "version")?;
    let description = moved(alloc, document, "description")?;
    let mut edits = Vec::new(alloc);
    push(&mut edits, section)?;
    push(&mut edits, name)?;
    push(&mut edits, version)?;
    push(&mut edits, description)?;
    Ok(edits)
}

/// Returns the edit that adds `[project]`, if it is missing.
fn new_section(alloc: Global, document: &DocumentMut) -> Mem<Option<Edit>>
    ensures section { IfOk result IsSection }
    ensures missing { IfOk result (λ edit. is_none edit
        ≡ is_some (item_at (names project) (tree_owned document.now))) }
{
    let path = Key::path(alloc, &["project"])?;
    if document.get_at(&path).is_some() {
        return Ok(None);
    }
    Ok(Some(Edit::Section(path)))
}

/// Returns the move of a key to `[project]`, if it is there.
fn moved(alloc: Global, document: &DocumentMut, name: &str) -> Mem<Option<Edit>>
    ensures moves { IfOk result (IsMove name.now) }
    ensures there { IfOk result (λ edit. is_some edit
        ≡ is_some (item_at (names (in_poetry name.now)) (tree_owned document.now))) }
{
    let from = Key::path(alloc, &["tool", "poetry", name])?;
    if document.get_at(&from).is_some() {
        let to = Key::path(alloc, &["project", name])?;
        return Ok(Some(Edit::Move(from, to)));
    }
    Ok(None)
}

/// Adds an edit, if there is one.
fn push(edits: &mut Vec<Edit>, edit: Option<Edit>) -> Mem<()>
    ensures { OnOk result (edits.new.items ≡ edits.old.items ++ option_to_list edit) }
{
    if let Some(edit) = edit {
        edits.push(edit)?;
    }
    Ok(())
}
