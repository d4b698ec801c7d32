//! Sorting the dependencies of a manifest.
use crate::parts::item_at;
use toml_edit::{AnyTable, AsTableLike, DocumentMut, Item, Mem};

/// Sorts the tables of dependencies by key, also those under `target.*`. Comments move along.
pub fn sort_deps(document: &mut DocumentMut) -> Mem<()> {
    let root = document.as_table_mut();
    sort_in(root)?;
    let item = root.get_mut("target");
    let Some(targets) = item.and_then(|item| item.as_slots_mut()) else {
        return Ok(());
    };
    for at in 0..targets.len() {
        let target = item_at(targets, at);
        if let Some(mut target) = target.and_then(|item| item.as_table_like_mut()) {
            sort_in(&mut target)?;
        }
    }
    Ok(())
}

/// Sorts the tables of dependencies right in a table.
fn sort_in<T: AnyTable>(table: &mut T) -> Mem<()> {
    for name in ["dependencies", "dev-dependencies", "build-dependencies"] {
        if let Some(item) = table.get_mut(name) {
            sort(item)?;
        }
    }
    Ok(())
}

/// Sorts one table by key. The headers in it are printed in the new order.
fn sort(item: &mut Item) -> Mem<()> {
    if let Some(mut table) = item.as_table_like_mut() {
        table.sort_values()?;
    }
    if let Some(slots) = item.as_slots_mut() {
        for at in 0..slots.len() {
            if let Some(below) = item_at(slots, at).and_then(|item| item.as_table_mut()) {
                below.forget_positions();
            }
        }
    }
    Ok(())
}
