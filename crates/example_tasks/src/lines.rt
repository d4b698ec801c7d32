//! Arrays that have one value a line.
ghost use Rattle.std.specs.Prelude.{◌≡◌, ◌<◌, IfOk, IsTrue, None, OnErr, OnOk, length, nat_lt};
ghost use Rattle.toml_edit.specs.model.Scalars.{string};
ghost use Rattle.toml_edit.specs.model.Tree.{leaf, unset};
ghost use Rattle.toml_edit.specs.tree.ArrayLines.{fields_inserted, fields_removed, line_inserted, line_removed};
ghost use Rattle.toml_edit.specs.tree.Elements.{array_fields, items_of};
ghost use Rattle.toml_edit.specs.tree.View.{array_view};

use anyhow::Result;
use std::alloc::Global;
use toml_edit::{Array, Value};

/// Appends a string, on a line of its own if the array has one value a line. The comment after the
/// last value stays on its line.
pub fn append(alloc: Global, array: &mut Array, text: &str) -> Result<()>
    ensures items { OnOk result (items_of array.new
        ≡ line_inserted (length (items_of array.old)) (leaf (string text.now) None unset)
        (array_fields array.old) (items_of array.old)) }
    ensures fields { OnOk result (array_fields array.new
        ≡ fields_inserted (length (items_of array.old)) (leaf (string text.now) None unset)
        (array_fields array.old) (items_of array.old)) }
    ensures err { OnErr result (array_view array.new ≡ array_view array.old) }
{
    array.push_line(Value::string(alloc, text)?)?;
    Ok(())
}
