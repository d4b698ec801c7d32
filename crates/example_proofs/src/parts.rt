//! What several of the programs do.
ghost use Rattle.std.specs.Prelude.{OnOk};
ghost use Rattle.toml_edit.specs.DocumentView.{tree_owned};
ghost use Rattle.toml_edit.specs.Edited.{EditsBy, replace_at};
ghost use Rattle.toml_edit.specs.change.Changes.{Changes};
ghost use Rattle.toml_edit.specs.edits.PathEdits.{sets};
ghost use Rattle.example_proofs.specs.Values.{keys_of, string_node};

use std::alloc::Global;
use toml_edit::{ChangeFault, DocumentMut, Key, Value};

/// Replaces the value at a path by a string.
pub fn replace(
    alloc: Global,
    document: &mut DocumentMut,
    path: &[&str],
    value: &str,
) -> Result<(), ChangeFault>
    ensures changes { Changes (replace_at (keys_of path.now) (string_node value.now)
        (tree_owned document.old)) (tree_owned document.old) (tree_owned document.new) result }
    ensures edits { OnOk result
        (EditsBy (sets (keys_of path.now) (string_node value.now)) document.old document.new) }
{
    let keys = Key::path(alloc, path)?;
    document.replace_at(&keys, Value::string(alloc, value)?)?;
    Ok(())
}
