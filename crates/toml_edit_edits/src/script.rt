//! Making edits.
ghost use Rattle.std.specs.Prelude.{◌≡◌, ◌<◌, ◌≤◌, [], ◌∷◌, length, take, Ok, IfErr, IfOk, OnOk};
ghost use Rattle.toml_edit_tree.specs.View.{value_view};
ghost use Rattle.toml_edit.specs.DocumentView.{IsPrintedAs, tree_owned};
ghost use Rattle.toml_edit_model.specs.Keys.{names};
ghost use Rattle.toml_edit_edits.specs.Edited.{EditsLeave};
ghost use Rattle.toml_edit_edits.specs.Effects as effects;
ghost use Rattle.toml_edit_edits.specs.Lists.{Applies, RefusesFirst, applied, effect, made_of};
ghost use Rattle.toml_edit_edits.specs.Outcomes.{Makes};

use crate::arrays::{append, insert, take};
use crate::edit::Edit;
use crate::fault::{EditFault, ScriptFault};
use crate::first_table::add_table;
use crate::keys::{comment, rename, sort};
use crate::laws::{edit_means, others_stay};
use crate::missing::{is_numbered, keys_there};
use crate::moves::relocate;
use crate::removes::remove_first;
use crate::sections::add_section;
use std::alloc::Global;
use toml_edit::{DocumentMut, Key, Value};

/// Makes the edits, one after another, in the document.
///
/// They are made in one tree. A dotted table, or one that the header of another implies, stays in it
/// when it has lost its last key, though it isn't printed any more. So a later edit of the list finds
/// it, with its kind and its place, and one that is made in the text that was printed in between
/// finds nothing there.
///
/// # Errors
///
/// Returns which edit is refused first, and why. The edits before it are made then, and no other.
pub fn apply(alloc: Global, document: &mut DocumentMut, edits: &[Edit]) -> Result<(), ScriptFault>
    ensures applies { Applies edits.now (tree_owned document.old) (tree_owned document.new) result }
    ensures printed { IsPrintedAs document.new document.old }
    // What each edit means; and in a steady tree all statements stay but those that the edits name.
    ensures leaves { EditsLeave (made_of edits.now result)
        (tree_owned document.old) (tree_owned document.new) }
{
    others_stay();
    edit_means();
    make_all(alloc, document, edits)
}

/// Makes the edits up to the first that is refused.
fn make_all(alloc: Global, document: &mut DocumentMut, edits: &[Edit]) -> Result<(), ScriptFault>
    ensures applies { Applies edits.now (tree_owned document.old) (tree_owned document.new) result }
    ensures printed { IsPrintedAs document.new document.old }
{
    let mut at = 0;
    'edits: while at < edits.len() {
        match make_next(alloc, document, &edits[at..]) {
            Ok(made) => at += made,
            Err(fault) => return Err(ScriptFault { at, fault }),
        }
    }
    Ok(())
}

/// Makes the first edit, or at once the removes at the front that are from one table. Returns how many
/// edits were made.
fn make_next(alloc: Global, document: &mut DocumentMut, edits: &[Edit]) -> Result<usize, EditFault>
    requires { 0 < length edits.now }
    ensures some { IfOk result (λ made. 0 < made) }
    ensures within { IfOk result (λ made. made ≤ length edits.now) }
    ensures applied { IfOk result (λ made. applied (take made edits.now) (tree_owned document.old)
        ≡ Ok (tree_owned document.new)) }
    ensures refuses { IfErr result (λ fault. RefusesFirst edits.now (tree_owned document.old)
        (tree_owned document.new) fault) }
    ensures printed { IsPrintedAs document.new document.old }
{
    let made = remove_first(alloc, document, edits);
    if made > 0 {
        return Ok(made);
    }
    make(alloc, document, &edits[0])?;
    Ok(1)
}

/// Makes one edit in the document. [`apply`] says what a later one finds in it.
///
/// # Errors
///
/// Returns why it is refused. The document is unchanged then.
pub fn apply_edit(alloc: Global, document: &mut DocumentMut, edit: &Edit) -> Result<(), EditFault>
    ensures makes { Makes (effect edit.now (tree_owned document.old)) (tree_owned document.old)
        (tree_owned document.new) result }
    ensures printed { IsPrintedAs document.new document.old }
    // What the edit means; and in a steady tree all statements stay but those that it names.
    ensures leaves { OnOk result (EditsLeave (edit.now ∷ [])
        (tree_owned document.old) (tree_owned document.new)) }
{
    others_stay();
    edit_means();
    make(alloc, document, edit)
}

/// Makes the edit by the call for its kind.
fn make(alloc: Global, document: &mut DocumentMut, edit: &Edit) -> Result<(), EditFault>
    ensures makes { Makes (effect edit.now (tree_owned document.old)) (tree_owned document.old)
        (tree_owned document.new) result }
    ensures printed { IsPrintedAs document.new document.old }
{
    match edit {
        Edit::Set(path, value) => set(alloc, document, path.as_slice(), value),
        Edit::Header(path, value) => set_below_header(alloc, document, path.as_slice(), value),
        Edit::Remove(path) => remove(document, path.as_slice()),
        Edit::Append(path, value) => append(alloc, document, path.as_slice(), value),
        Edit::Insert(path, value) => insert(alloc, document, path.as_slice(), value),
        Edit::Take(path, value) => take(alloc, document, path.as_slice(), value),
        Edit::Table(path, value) => add_table(alloc, document, path.as_slice(), value),
        Edit::Section(path) => add_section(alloc, document, path.as_slice()),
        Edit::Rename(path, name) => rename(document, path.as_slice(), name.as_str()),
        Edit::Move(path, to) => relocate(alloc, document, path.as_slice(), to.as_slice()),
        Edit::Sort(path) => sort(alloc, document, path.as_slice()),
        Edit::Comment(path, text) => comment(alloc, document, path.as_slice(), text.as_str()),
    }
}

/// Puts a copy of the value at the path.
fn set(
    alloc: Global,
    document: &mut DocumentMut,
    path: &[Key],
    value: &Value,
) -> Result<(), EditFault>
    ensures makes { Makes (effects.set path.now (value_view value.now) (tree_owned document.old))
        (tree_owned document.old) (tree_owned document.new) result }
    ensures printed { IsPrintedAs document.new document.old }
{
    let value = value.clone(alloc)?;
    Ok(document.set_at(path, value)?)
}

/// Puts a copy of the value at the path, below headers where tables are missing. None of them has a
/// number in it, which is an element's.
fn set_below_header(
    alloc: Global,
    document: &mut DocumentMut,
    path: &[Key],
    value: &Value,
) -> Result<(), EditFault>
    ensures makes { Makes (effects.headed path.now (value_view value.now) (tree_owned document.old))
        (tree_owned document.old) (tree_owned document.new) result }
    ensures printed { IsPrintedAs document.new document.old }
{
    let there = keys_there(document.as_item(), path);
    if is_numbered(&path[there..]) {
        return Err(EditFault::NoSuchPath);
    }
    let value = value.clone(alloc)?;
    Ok(document.set_at_with_headers(path, value)?)
}

/// Removes the item at the path: an element of an array with its line.
fn remove(document: &mut DocumentMut, path: &[Key]) -> Result<(), EditFault>
    ensures makes { Makes (effects.removed (names path.now) (tree_owned document.old))
        (tree_owned document.old) (tree_owned document.new) result }
    ensures printed { IsPrintedAs document.new document.old }
{
    Ok(document.remove_line_at(path)?)
}
