//! Setting the version of a dependency.
use crate::parts::item_at;
use std::alloc::Global;
use toml_edit::{AnyTable, AsTableLike, DocumentMut, Item, Mem, Value};

/// Sets the version of every dependency of this name, and returns how many there are.
pub fn bump(alloc: Global, document: &mut DocumentMut, name: &str, version: &str) -> Mem<usize> {
    let root = document.as_table_mut();
    let mut count = bump_in(alloc, root, name, version)?;
    let item = root.get_mut("target");
    let Some(targets) = item.and_then(|item| item.as_slots_mut()) else {
        return Ok(count);
    };
    for at in 0..targets.len() {
        let target = item_at(targets, at);
        if let Some(mut target) = target.and_then(|item| item.as_table_like_mut()) {
            count = count.saturating_add(bump_in(alloc, &mut target, name, version)?);
        }
    }
    Ok(count)
}

/// Sets the version in the tables of dependencies right in a table.
fn bump_in<T: AnyTable>(alloc: Global, table: &mut T, name: &str, version: &str) -> Mem<usize> {
    let mut count = 0;
    for section in ["dependencies", "dev-dependencies", "build-dependencies"] {
        let item = table.get_mut(section);
        let dependency = item.and_then(|item| item.get_mut(name));
        if let Some(old) = dependency.and_then(|dependency| version_mut(dependency)) {
            drop(old.replace_with(Value::string(alloc, version)?));
            count += 1;
        }
    }
    Ok(count)
}

/// Returns the version: the dependency itself, or what a table of either kind has as `version`.
fn version_mut(dependency: &mut Item) -> Option<&mut Value> {
    if dependency.is_str() {
        return dependency.as_value_mut();
    }
    dependency.get_mut("version")?.as_value_mut()
}
