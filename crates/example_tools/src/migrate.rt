//! Renaming keys, moving tables and giving headers.
ghost use Rattle.std.specs.Prelude.{◌≡◌, OnErr, OnOk};
ghost use Rattle.toml_edit.specs.DocumentView.{mode_owned, tree_owned};
ghost use Rattle.toml_edit.specs.model.Fits.{FitsIn};

use crate::parts;
use anyhow::{Context, Result, bail, ensure};
use std::alloc::Global;
use std::mem;
use toml_edit::{AnyTable, DocumentMut, Item, Key, ParsePath, RawString, Renamed, Slots, Table};

/// Renames keys, each by its path and a new name, and moves tables, each by its path and a new one.
/// Comments stay with their keys and tables.
///
/// A dotted or an inline table that is moved gets a header, also at the path that it had. Tables
/// that are missing above a new path are added without headers of their own.
///
/// # Errors
///
/// Fails if a path leads nowhere, if a name or a path is taken, if an inline table that is moved has
/// several lines, whose comments would be lost, or if the result doesn't fit. The document is
/// unchanged then.
pub fn migrate(
    alloc: Global,
    document: &mut DocumentMut,
    renames: &[(&str, &str)],
    moves: &[(&str, &str)],
) -> Result<()>
    ensures fits { OnOk result (FitsIn (mode_owned document.new) (tree_owned document.new)) }
    ensures kept { OnErr result (tree_owned document.new ≡ tree_owned document.old) }
{
    let mut migrated = document.clone(alloc)?;
    for (path, name) in renames {
        rename(alloc, &mut migrated, path, name)?;
    }
    let mut root = Item::Table(migrated.as_table().clone(alloc)?);
    for (from, to) in moves {
        let (from, to) = (Key::parse(alloc, from)?, Key::parse(alloc, to)?);
        move_table(alloc, &mut root, &from, &to)?;
    }
    let table = root.into_table().ok().context("the root is no table")?;
    drop(mem::replace(migrated.as_table_mut(), table));
    parts::replace(alloc, document, migrated)
}

/// Renames the key at a path, in a table of either kind.
fn rename(alloc: Global, document: &mut DocumentMut, path: &str, name: &str) -> Result<()> {
    match document.rename_at(&Key::parse(alloc, path)?, name)? {
        Renamed::Done => Ok(()),
        Renamed::Taken => bail!("{name} is there already"),
        Renamed::Absent => bail!("{path} is missing"),
    }
}

/// Moves a table to a path, where its headers are printed then.
fn move_table(alloc: Global, root: &mut Item, from: &[Key], to: &[Key]) -> Result<()> {
    let (key, above) = from.split_last().context("a path is empty")?;
    let old = slots_at(root, above).and_then(|slots| slots.remove_entry(key.get()));
    let (key, item) = old.context("a table is missing")?;
    let mut table = with_header(alloc, &key, &item)?;
    table.forget_positions();
    table.set_dotted(false);
    let (key, above) = to.split_last().context("a path is empty")?;
    let parent = table_at(alloc, root, above)?;
    ensure!(!parent.contains_key(key.get()), "a new path is taken");
    drop(parent.insert(key.get(), Item::Table(table))?);
    Ok(())
}

/// Copies a table of either kind as one with a header, with the comments above and after it.
fn with_header(alloc: Global, key: &Key, item: &Item) -> Result<Table> {
    let mut table = item.clone(alloc)?.into_table().ok().context("no table")?;
    if let Some(inline) = item.as_inline_table() {
        let text = format!(in alloc; "{inline}")?;
        ensure!(!text.contains('\n'), "an inline table has lines");
        let decor = table.decor_mut();
        decor.set_prefix(RawString::from_text(alloc, "\n")?);
        for comment in key.leaf_decor().comments_before() {
            decor.add_comment_before(alloc, comment)?;
        }
        decor.set_comment_after(alloc, inline.decor().comment_after())?;
    }
    Ok(table)
}

/// Returns the slots of the table of either kind at a path.
fn slots_at<'i>(item: &'i mut Item, path: &[Key]) -> Option<&'i mut Slots<Item>> {
    match path.split_first() {
        Some((key, rest)) => slots_at(item.get_mut(key.get())?, rest),
        None => item.as_slots_mut(),
    }
}

/// Returns the table at a path, after adding what is missing without headers of its own.
fn table_at<'i>(alloc: Global, item: &'i mut Item, path: &[Key]) -> Result<&'i mut Table> {
    let table = item.as_table_mut().context("a path leads to no table")?;
    let Some((key, rest)) = path.split_first() else {
        return Ok(table);
    };
    let mut made = Table::new(alloc);
    made.set_implicit(true);
    table_at(alloc, table.or_insert(key.get(), Item::Table(made))?, rest)
}
