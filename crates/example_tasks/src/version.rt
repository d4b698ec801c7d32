//! Setting a value that has to be there.
ghost use Rattle.std.specs.Prelude.{◌≡◌, None, OnErr, OnOk, codes};
ghost use Rattle.toml_edit.specs.DocumentView.{tree_owned};
ghost use Rattle.toml_edit.specs.model.Scalars.{string};
ghost use Rattle.toml_edit.specs.model.Tree.{leaf, unset};
ghost use Rattle.example_tasks.specs.Placed.{IsSetAt};

use anyhow::{Result, bail};
use std::alloc::Global;
use toml_edit::{DocumentMut, Key, ParsePath, Value};

/// Sets the version of a package, and keeps the comments around the old one.
pub fn set_version(alloc: Global, document: &mut DocumentMut, version: &str) -> Result<()>
    ensures set { OnOk result (IsSetAt (codes "package.version")
        (leaf (string version.now) None unset) (tree_owned document.old) (tree_owned document.new)) }
    ensures kept { OnErr result (tree_owned document.new ≡ tree_owned document.old) }
{
    let path = Key::parse(alloc, "package.version")?;
    if document.get_at(&path).is_none() {
        bail!("package.version is missing");
    }
    document.set_at(&path, Value::string(alloc, version)?)?;
    Ok(())
}
