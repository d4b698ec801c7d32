//! Adding tables with headers.
ghost use Rattle.std.specs.Prelude.{◌≡◌, OnErr};
ghost use Rattle.toml_edit.specs.DocumentView.{tree_owned};

use anyhow::Result;
use std::alloc::Global;
use toml_edit::{DocumentMut, Key, ParsePath, Value};

/// Sets `tool.fmt.width`, below a header `[tool.fmt]` that is made if it is missing.
pub fn set_width(alloc: Global, document: &mut DocumentMut, width: i64) -> Result<()>
    ensures kept { OnErr result (tree_owned document.new ≡ tree_owned document.old) }
{
    let path = Key::parse(alloc, "tool.fmt.width")?;
    document.set_at_with_headers(&path, Value::from(width))?;
    Ok(())
}
