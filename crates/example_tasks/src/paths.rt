//! Items by their paths.
ghost use Rattle.std.specs.Prelude.{◌≡◌, IfOk, IsTrue, None, OnErr, option_and_then, option_map};
ghost use Rattle.toml_edit.specs.DocumentView.{tree_owned};
ghost use Rattle.toml_edit.specs.change.Changes.{Changes};
ghost use Rattle.toml_edit.specs.edits.Headed.{set_at_with_headers};
ghost use Rattle.toml_edit.specs.edits.Commands.{Refusal, done, item_at, refused, set_at};
ghost use Rattle.toml_edit.specs.model.Scalars.{string};
ghost use Rattle.toml_edit.specs.model.Tree.{leaf, unset};
ghost use Rattle.toml_edit.specs.tree.Casts.{text_in};
ghost use Rattle.toml_edit.specs.tree.View.{value_view};
ghost use Rattle.toml_edit.specs.model.Keys.{names};

use std::alloc::{AllocError, Global};
use toml_edit::{ChangeFault, DocumentMut, Key, Mem, Value};

/// Returns the string at a path, such as that of `package.version` or `bin.0.name`.
pub fn string_at<'d>(document: &'d DocumentMut, path: &[Key]) -> Option<&'d str>
    ensures { option_map (λ t. t.now) result
        ≡ option_and_then text_in (item_at (names path.now) (tree_owned document.now)) }
{
    document.get_at(path)?.as_str()
}

/// Sets a string at a path, and keeps the comments around an old value. Returns `false` if a table
/// is there, or a key of the path leads nowhere.
pub fn set_string_at(
    alloc: Global,
    document: &mut DocumentMut,
    path: &[Key],
    text: &str,
) -> Mem<bool>
    ensures set { IfOk result (λ is_set. IsTrue is_set
        → set_at path.now (leaf (string text.now) None unset) (tree_owned document.old)
        ≡ done (tree_owned document.new)) }
    ensures unset { IfOk result (λ is_set. ¬ (IsTrue is_set)
        → tree_owned document.new ≡ tree_owned document.old) }
    ensures refused { IfOk result (λ is_set. ¬ (IsTrue is_set)
        → (why : Refusal) × (set_at path.now (leaf (string text.now) None unset)
        (tree_owned document.old) ≡ refused why)) }
    ensures err { OnErr result (tree_owned document.new ≡ tree_owned document.old) }
{
    let value = Value::string(alloc, text)?;
    match document.set_at(path, value) {
        Ok(()) => Ok(true),
        Err(ChangeFault::Memory) => Err(AllocError),
        Err(_) => Ok(false),
    }
}

/// Sets a value at a path, below headers where tables are missing.
///
/// # Errors
///
/// As [`DocumentMut::set_at`].
pub fn configure(document: &mut DocumentMut, path: &[Key], value: Value) -> Result<(), ChangeFault>
    ensures { Changes
        (set_at_with_headers path.now (value_view value) (tree_owned document.old))
        (tree_owned document.old) (tree_owned document.new) result }
{
    document.set_at_with_headers(path, value)
}
