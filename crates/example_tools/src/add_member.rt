//! Adding a member to a workspace.
ghost use Rattle.std.specs.Prelude.{◌≡◌, OnErr, OnOk};
ghost use Rattle.toml_edit.specs.DocumentView.{mode_owned, tree_owned};
ghost use Rattle.toml_edit.specs.model.Fits.{FitsIn};

use crate::parts;
use anyhow::{Result, bail, ensure};
use std::alloc::Global;
use toml_edit::{DocumentMut, Value};

/// Adds a member to a workspace, on a line of its own if the others have one. The comments of the
/// others stay on their lines.
///
/// # Errors
///
/// Fails if the member is there, if there is no such array, or if the result doesn't fit. The
/// document is unchanged then.
pub fn add_member(alloc: Global, document: &mut DocumentMut, member: &str) -> Result<()>
    ensures fits { OnOk result (FitsIn (mode_owned document.new) (tree_owned document.new)) }
    ensures kept { OnErr result (tree_owned document.new ≡ tree_owned document.old) }
{
    let mut changed = document.clone(alloc)?;
    let item = changed.as_table_mut().get_mut("workspace");
    let members = item.and_then(|workspace| workspace.get_mut("members"));
    let Some(members) = members.and_then(|members| members.as_array_mut()) else {
        bail!("workspace.members is missing");
    };
    let is_there = members.iter().any(|value| value.as_str() == Some(member));
    ensure!(!is_there, "{member} is there already");
    members.push_line(Value::string(alloc, member)?)?;
    parts::replace(alloc, document, changed)
}
