//! Editing a file in place.
use crate::version::set_version;
use anyhow::{Result, bail, ensure};
use file_replace::{Folder, Host, ReplaceFault, Replacement, read_locked, replace};
use std::{process, str};
use toml_edit::{DocumentMut, ParseOptions};

/// Sets the version in a file, which keeps its old text until the new one is on the disk.
pub fn edit_file(rt: &HostRuntime, path: &str, version: &str) -> Result<()> {
    let mut folder = Host::new(rt, process::id(rt.process()));
    let name = folder.target(rt.alloc(), path)?;
    let before = read_locked(rt.alloc(), &mut folder, name.as_str())?;
    let exact = ParseOptions::new().exact(true);
    let before_text = str::from_utf8(before.as_slice())?;
    let mut document = DocumentMut::from_str_with(rt.alloc(), before_text, exact)?;
    set_version(rt.alloc(), &mut document, version)?;
    ensure!(document.fits(rt.alloc())?, "the edit doesn't fit");
    let text = document.print(rt.alloc())?;
    let replacement = Replacement {
        name: name.as_str(),
        before: Some(before.as_slice()),
        text: text.as_bytes(),
        force: false,
    };
    match replace(rt.alloc(), &mut folder, &replacement) {
        Ok(()) => Ok(()),
        Err(ReplaceFault::Changed) => bail!("{path} changed meanwhile"),
        Err(ReplaceFault::ReadOnly) => bail!("{path} is read-only"),
        Err(ReplaceFault::Failed(error)) => Err(error.into()),
    }
}
