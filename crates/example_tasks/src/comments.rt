//! Comments beside keys and values.
ghost use Rattle.std.specs.Prelude.{◌≡◌, OnErr, OnOk, Some};
ghost use Rattle.std.specs.Option.{option_copied};
ghost use Rattle.toml_edit.specs.model.Comments.{comment_after, with_comment_after};
ghost use Rattle.toml_edit.specs.model.Conversions.{with_decor};
ghost use Rattle.toml_edit.specs.model.Tree.{node_decor};
ghost use Rattle.toml_edit.specs.tree.View.{value_view};

use anyhow::{Result, bail};
use std::alloc::Global;
use toml_edit::{CommentFault, Table, Value};

/// Returns the comment after a value, without its `#`.
pub fn comment_of(value: &Value) -> Option<&str>
    ensures { option_copied result ≡ comment_after (node_decor (value_view value.now)) }
{
    value.decor().comment_after()
}

/// Sets the comment after a value: with `" why"` it is `# why`.
pub fn explain(alloc: Global, value: &mut Value, comment: &str) -> Result<(), CommentFault>
    ensures ok { OnOk result (value_view value.new ≡ with_decor
        (with_comment_after (Some comment.now) (node_decor (value_view value.old)))
        (value_view value.old)) }
    ensures err { OnErr result (value_view value.new ≡ value_view value.old) }
{
    value.decor_mut().set_comment_after(alloc, Some(comment))
}

/// Adds a comment line above a key.
pub fn explain_key(alloc: Global, table: &mut Table, key: &str, comment: &str) -> Result<()> {
    match table.slot_mut(key) {
        Some(mut slot) => slot.leaf_decor_mut().add_comment_before(alloc, comment)?,
        None => bail!("{key} is missing"),
    }
    Ok(())
}
