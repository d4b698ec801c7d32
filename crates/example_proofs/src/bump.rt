//! Setting the version of a package in a lock file.
ghost use Rattle.std.specs.Prelude.{[], ◌≡◌, ◌∷◌, ℕ, IfErr, IfOk, OnOk, Option, Some, option_map, string_bytes};
ghost use Rattle.toml_edit.specs.DocumentView.{tree_owned};
ghost use Rattle.toml_edit.specs.Edited.{EditsBy, replace_at};
ghost use Rattle.toml_edit.specs.change.Changes.{Changes};
ghost use Rattle.toml_edit.specs.edits.PathEdits.{sets};
ghost use Rattle.toml_edit.specs.model.Tree.{Tree};
ghost use Rattle.toml_edit.specs.tree.Elements.{tables_of};
ghost use Rattle.example_proofs.specs.Faults.{EditsTree, Fails, Refuses};
ghost use Rattle.example_proofs.specs.Packages.{IsFirstNamed, bumped, is_named, name_at, packages_in, version_path};
ghost use Rattle.example_proofs.specs.Values.{string_node};

use crate::error::Fault;
use crate::parts::replace;
use std::alloc::Global;
use toml_edit::laws::edited_prints;
use toml_edit::{ArrayOfTables, ChangeFault, DocumentMut};

/// Replaces the version of the first package of this name in the array of tables `package`, and
/// returns the text in its normal form: all other statements are as they were.
///
/// # Errors
///
/// [`Fault::Read`] if the text is refused, [`Fault::Missing`] if there is no such package,
/// [`Fault::Change`] if it has no version, and [`Fault::Memory`] if out of memory.
pub fn bump(alloc: Global, text: &str, name: &str, version: &str) -> Result<String, Fault>
    ensures bumped { IfOk result (λ out. (tree : Tree) × (at : ℕ)
        × IsFirstNamed name.now (packages_in tree) (Some at)
        × EditsTree text.now tree (sets (version_path at) (string_node version.now) ∷ [])
        (replace_at (version_path at) (string_node version.now) tree) (string_bytes out)) }
    ensures fails { IfErr result (Fails text.now (λ tree fault. (at : Option ℕ)
        × IsFirstNamed name.now (packages_in tree) at
        × Refuses (bumped (string_node version.now) tree at) tree fault)) }
{
    edited_prints();
    let mut document = DocumentMut::from_str(alloc, text)?;
    let Some(at) = find(&document, name) else {
        return Err(Fault::Missing);
    };
    replace_version(alloc, &mut document, at, version)?;
    Ok(document.print(alloc)?)
}

/// Replaces the version of the package at a place.
fn replace_version(
    alloc: Global,
    document: &mut DocumentMut,
    at: usize,
    version: &str,
) -> Result<(), ChangeFault>
    ensures changes { Changes (replace_at (version_path at) (string_node version.now)
        (tree_owned document.old)) (tree_owned document.old) (tree_owned document.new) result }
    ensures edits { OnOk result (EditsBy (sets (version_path at) (string_node version.now))
        document.old document.new) }
{
    let at = format!(in alloc; "{at}")?;
    let path = ["package", at.as_str(), "version"];
    replace(alloc, document, &path, version)
}

/// Returns the place of the first package of this name, if there is one.
fn find(document: &DocumentMut, name: &str) -> Option<usize>
    ensures { IsFirstNamed name.now (packages_in (tree_owned document.now)) result }
{
    let packages = document.as_table().get("package")?;
    find_in(packages.as_array_of_tables()?, name)
}

/// Returns the place of the first table of this name, if there is one.
fn find_in(packages: &ArrayOfTables, name: &str) -> Option<usize>
    ensures { IsFirstNamed name.now (tables_of packages.now) result }
{
    for at in 0..packages.len() {
        if is_named(packages, at, name) {
            return Some(at);
        }
    }
    None
}

/// Returns `true` if the table at a place has this name.
fn is_named(packages: &ArrayOfTables, at: usize, name: &str) -> bool
    ensures { result ≡ is_named name.now (tables_of packages.now) at }
{
    match name_at(packages, at) {
        Some(other) => other == name,
        None => false,
    }
}

/// Returns the string under `name` in the table at a place.
fn name_at(packages: &ArrayOfTables, at: usize) -> Option<&str>
    ensures { option_map (λ name. name.now) result ≡ name_at at (tables_of packages.now) }
{
    packages.get(at)?.get("name")?.as_str()
}
