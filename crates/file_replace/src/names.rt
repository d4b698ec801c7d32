//! What names of the system lead to.
ghost use Rattle.std.specs.Prelude.{IfOk};
ghost use Rattle.file_replace.specs.Events.{IsInOrder};

use std::alloc::Global;
use std::fs::{self, File, Metadata};
use std::io;
use std::io::ErrorKind;
use std::os::unix::fs::MetadataExt;
use std::path::Path;

/// How many links the system follows in a name.
const LINKS: u32 = 40;

/// Returns the name of the regular file that a name leads to, or the name itself if nothing has it.
pub fn target_of(rt: &HostRuntime, alloc: Global, name: &str) -> io::Result<String> {
    match fs::symlink_metadata(rt, name) {
        Ok(_) => led_to(rt, alloc, name),
        Err(error) if error.kind() == ErrorKind::NotFound => Ok(String::from_str(alloc, name)?),
        Err(error) => Err(error),
    }
}

/// Returns the name of the regular file that a name leads to.
fn led_to(rt: &HostRuntime, alloc: Global, name: &str) -> io::Result<String> {
    check_links(rt, alloc, name)?;
    let led = match fs::metadata(rt, name) {
        Err(error) if error.kind() == ErrorKind::NotFound => {
            return Err(io::Error::other("broken symbolic link"));
        }
        led => led?,
    };
    if !led.is_file() {
        return Err(io::Error::other("not a regular file"));
    }
    let path = fs::canonicalize(rt, name)?;
    // A link of the system may lead elsewhere than its text says.
    if !is_same(&led, &fs::metadata(rt, path.as_path())?) {
        return Err(io::Error::other("a link of the system, which is not replaced"));
    }
    Ok(path.into_string())
}

/// Refuses a name that goes through a link in `/proc` or `/dev`, as `/dev/stdout` does.
fn check_links(rt: &HostRuntime, alloc: Global, name: &str) -> io::Result<()> {
    let mut at = String::from_str(alloc, name)?;
    for _ in 0..LINKS {
        match fs::symlink_metadata(rt, at.as_str()) {
            Ok(metadata) if metadata.is_symlink() => {}
            _ => return Ok(()),
        }
        let folder = fs::canonicalize(rt, folder_of(at.as_str()))?;
        if folder.starts_with("/proc") || folder.starts_with("/dev") {
            return Err(io::Error::other("a link in /proc or /dev, which is not replaced"));
        }
        let link = fs::read_link(rt, at.as_str())?;
        at = folder.join(alloc, link.as_path())?.into_string();
    }
    Ok(())
}

/// Returns `true` if the name is that of the open file, and no link.
pub fn leads_to(rt: &HostRuntime, name: &str, file: &File) -> io::Result<bool> {
    match fs::symlink_metadata(rt, name) {
        Ok(metadata) => Ok(is_same(&metadata, &file.metadata()?)),
        Err(error) if error.kind() == ErrorKind::NotFound => Ok(false),
        Err(error) => Err(error),
    }
}

/// Returns `true` if both are of one file.
fn is_same(one: &Metadata, other: &Metadata) -> bool {
    one.dev() == other.dev() && one.ino() == other.ino()
}

/// Returns the names in a folder, in the order of their bytes.
pub fn names_in(rt: &HostRuntime, alloc: Global, folder: &str) -> io::Result<Vec<String>>
    ensures { IfOk result IsInOrder }
{
    let mut names = Vec::new(alloc);
    for entry in fs::read_dir(rt, folder)? {
        names.push(String::from_str(alloc, entry?.file_name())?)?;
    }
    names.sort()?;
    Ok(names)
}

/// Returns the name of the folder of a file.
pub fn folder_of(name: &str) -> &str {
    match Path::new(name).parent() {
        Some(folder) if !folder.as_str().is_empty() => folder.as_str(),
        _ => ".",
    }
}
