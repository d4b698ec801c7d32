//! Adding a dependency at its place.
ghost use Rattle.std.specs.Prelude.{[], ◌≡◌, false, IfErr, IfOk, OnOk, string_bytes};
ghost use Rattle.toml_edit.specs.DocumentView.{tree_owned};
ghost use Rattle.toml_edit.specs.Edited.{IsEditedFrom};
ghost use Rattle.toml_edit.specs.model.Text.{Text};
ghost use Rattle.toml_edit.specs.model.Tree.{Tree};
ghost use Rattle.toml_edit.specs.tree.SlotsOf.{slots_of};
ghost use Rattle.toml_edit.specs.tree.View.{value_view};
ghost use Rattle.example_proofs.specs.Dependencies.{AddsDependency, Hinders, HindersAt, IsPlaceIn, IsSortedPlace, calls, dependency, has_dependency, is_before, strings};
ghost use Rattle.example_proofs.specs.Faults.{Fails};

use crate::error::Fault;
use std::alloc::Global;
use toml_edit::laws::edited_prints;
use toml_edit::{DocumentMut, Key, Mem, Table, Value};

/// Adds a dependency with features to `[dependencies]`, before the first key that sorts after its
/// name, and returns the text in its normal form: all other statements are as they were.
///
/// # Errors
///
/// [`Fault::Read`] if the text is refused, [`Fault::Missing`] if there is no such table, or none that
/// takes a line, [`Fault::Taken`] if the name is there, [`Fault::Misfit`] if the result would not be
/// read back, and [`Fault::Memory`] if out of memory.
pub fn add_dependency(
    alloc: Global,
    text: &str,
    name: &str,
    version: &str,
    features: &[&str],
) -> Result<String, Fault>
    ensures added { IfOk result (λ out. AddsDependency text.now name.now
        (dependency version.now (strings features.now)) (string_bytes out)) }
    ensures fails { IfErr result (Fails text.now (Hinders text.now name.now
        (dependency version.now (strings features.now)))) }
{
    edited_prints();
    let mut document = DocumentMut::from_str(alloc, text)?;
    let Some(at) = place_in(&document, name) else {
        return Err(Fault::Missing);
    };
    add_at(alloc, &mut document, at, name, version, features)?;
    if !document.fits(alloc)? {
        return Err(Fault::Misfit);
    }
    Ok(document.print(alloc)?)
}

/// Adds a dependency at a place.
fn add_at(
    alloc: Global,
    document: &mut DocumentMut,
    at: usize,
    name: &str,
    version: &str,
    features: &[&str],
) -> Result<(), Fault>
    ensures new { OnOk result (has_dependency name.now (tree_owned document.old) ≡ false) }
    ensures edits { OnOk result
        ((text : Text) (tree : Tree) → IsEditedFrom text tree [] document.old
        → IsEditedFrom text tree
        (calls name.now (dependency version.now (strings features.now)) at) document.new) }
    ensures fails { IfErr result (HindersAt name.now
        (dependency version.now (strings features.now)) at (tree_owned document.old)) }
{
    let keys = Key::path(alloc, &["dependencies", name])?;
    let path = keys.as_slice();
    if document.get_at(path).is_some() {
        return Err(Fault::Taken);
    }
    if !document.may_put(path) {
        return Err(Fault::Missing);
    }
    document.set_at(path, dependency(alloc, version, features)?)?;
    if !document.move_at(path, at) {
        return Err(Fault::Missing);
    }
    Ok(())
}

/// Returns `{ version = "..", features = [..] }`.
fn dependency(alloc: Global, version: &str, features: &[&str]) -> Mem<Value>
    ensures { IfOk result (λ value. value_view value
        ≡ dependency version.now (strings features.now)) }
{
    let version = Value::string(alloc, version)?;
    let features = Value::strings(alloc, features)?;
    let pairs = vec![in alloc; ("version", version), ("features", features)]?;
    Value::pairs(alloc, pairs)
}

/// Returns the place of a new name in `[dependencies]`, if there is such a table.
fn place_in(document: &DocumentMut, name: &str) -> Option<usize>
    ensures { IsPlaceIn name.now (tree_owned document.now) result }
{
    let dependencies = document.as_table().get("dependencies")?;
    Some(place(dependencies.as_table()?, name))
}

/// Returns the place of the first key that sorts after the name, or the number of slots.
fn place(table: &Table, name: &str) -> usize
    ensures { IsSortedPlace name.now (slots_of table.now) result }
{
    for at in 0..table.slots() {
        if sorts_before(name, table, at) {
            return at;
        }
    }
    table.slots()
}

/// Returns `true` if there is a key at a place, and the name sorts before it.
fn sorts_before(name: &str, table: &Table, at: usize) -> bool
    ensures { result ≡ is_before name.now (slots_of table.now) at }
{
    match table.key_value_at(at) {
        Some((key, _item)) => name < key.get(),
        None => false,
    }
}
