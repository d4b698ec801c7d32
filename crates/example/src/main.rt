//! The program of the README: sets the version in a package manifest.
#![tactic(auto)]

use anyhow::{Result, bail};
use std::alloc::Global;
use std::io;
use toml_edit::{DocumentMut, Key, ParsePath, Value};

/// Sets `package.version`, which has to be there, and keeps the comments around it.
fn set_version(alloc: Global, document: &mut DocumentMut, version: &str) -> Result<()> {
    let path = Key::parse(alloc, "package.version")?;
    if document.get_at(&path).is_none() {
        bail!("package.version is missing");
    }
    document.set_at(&path, Value::string(alloc, version)?)?;
    Ok(())
}

fn main(rt: HostRuntime) -> Result<()> {
    let text = io::read_to_string(rt.alloc(), rt.stdin())?;
    let mut document = DocumentMut::from_str(rt.alloc(), text.as_str())?;
    set_version(rt.alloc(), &mut document, "0.4.0")?;
    print!(rt; "{document}")?;
    Ok(())
}
