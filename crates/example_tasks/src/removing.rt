//! Removing keys, and strings of arrays.
ghost use Rattle.std.specs.Prelude.{◌≡◌, IfOk, IsTrue, OnErr, OnOk};
ghost use Rattle.toml_edit.specs.DocumentView.{tree_owned};
ghost use Rattle.toml_edit.specs.tree.View.{array_view};
ghost use Rattle.example_tasks.specs.Placed.{IsRemovedAt};

use anyhow::Result;
use std::alloc::Global;
use toml_edit::{Array, DocumentMut, Key, ParsePath};

/// Removes what is at a path, such as `dependencies.serde`, with its comments.
pub fn remove(alloc: Global, document: &mut DocumentMut, path: &str) -> Result<()>
    ensures removed { OnOk result
        (IsRemovedAt path.now (tree_owned document.old) (tree_owned document.new)) }
    ensures kept { OnErr result (tree_owned document.new ≡ tree_owned document.old) }
{
    let path = Key::parse(alloc, path)?;
    document.remove_at(&path)?;
    Ok(())
}

/// Removes the first such string from an array, with its line and its comment.
pub fn remove_member(array: &mut Array, member: &str) -> Result<bool>
    ensures none { IfOk result (λ found. ¬ (IsTrue found)
        → array_view array.new ≡ array_view array.old) }
    ensures err { OnErr result (array_view array.new ≡ array_view array.old) }
{
    for at in 0..array.len() {
        let Some(value) = array.get(at) else {
            continue;
        };
        if value.as_str() == Some(member) {
            drop(array.remove_line(at)?);
            return Ok(true);
        }
    }
    Ok(false)
}
