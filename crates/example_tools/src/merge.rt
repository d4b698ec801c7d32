//! Overlaying a document by another.
ghost use Rattle.std.specs.Prelude.{◌≡◌, OnErr, OnOk};
ghost use Rattle.toml_edit.specs.DocumentView.{mode_owned, tree_owned};
ghost use Rattle.toml_edit.specs.model.Fits.{FitsIn};

use crate::parts;
use anyhow::{Context, Result, ensure};
use std::alloc::Global;
use std::mem;
use toml_edit::{DocumentMut, Item, Key, Slots};

/// Overlays a document by a second one: its values replace those of the first, whose comments stay,
/// and its tables are merged.
///
/// # Errors
///
/// Fails if the result doesn't fit. The document is unchanged then.
pub fn merge(alloc: Global, document: &mut DocumentMut, over: &DocumentMut) -> Result<()>
    ensures fits { OnOk result (FitsIn (mode_owned document.new) (tree_owned document.new)) }
    ensures kept { OnErr result (tree_owned document.new ≡ tree_owned document.old) }
{
    let mut over = over.as_table().clone(alloc)?;
    over.forget_positions();
    let mut root = Item::Table(document.as_table().clone(alloc)?);
    overlay(alloc, &mut root, &Item::Table(over))?;
    let mut merged = document.clone(alloc)?;
    let table = root.into_table().ok().context("the root is no table")?;
    drop(mem::replace(merged.as_table_mut(), table));
    parts::replace(alloc, document, merged)
}

/// Overlays an item by another in its place. Returns `false` if the other is to be put there.
fn overlay(alloc: Global, old: &mut Item, new: &Item) -> Result<bool> {
    let is_inline = old.is_value() || new.is_value();
    let Some(over) = new.as_slots() else {
        return replace(alloc, old, new);
    };
    let Some(under) = old.as_slots_mut() else {
        return replace(alloc, old, new);
    };
    for slot in over.as_slice() {
        let is_done = match under.find(slot.key.get()) {
            Some(at) => overlay(alloc, under.item_mut(at), &slot.item)?,
            None => slot.item.is_none(),
        };
        if !is_done {
            put(under, &slot.key, slot.item.clone(alloc)?, is_inline)?;
        }
    }
    Ok(true)
}

/// Puts an item under a key, into or out of an inline table without its comments.
fn put(slots: &mut Slots<Item>, key: &Key, mut item: Item, is_inline: bool) -> Result<()> {
    if !is_inline {
        drop(slots.insert_formatted(key, item)?);
        return Ok(());
    }
    item.make_value();
    if let Some(value) = item.as_value_mut() {
        value.decor_mut().clear();
    }
    drop(slots.insert(key.get(), item)?);
    Ok(())
}

/// Replaces a value by another under its own comments. Returns `false` if something else is to be
/// put there.
fn replace(alloc: Global, old: &mut Item, new: &Item) -> Result<bool> {
    match (old.as_value_mut(), new.as_value()) {
        (Some(old), Some(new)) => drop(old.replace_with(new.clone(alloc)?)),
        _ => return Ok(new.is_none()),
    }
    Ok(true)
}
