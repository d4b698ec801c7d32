//! The guide's edits by paths, on texts that are written by hand.
use crate::guide::{is_edited, is_missing, is_present, is_refused};
use crate::paths::path;
use example_calls::edits::{release, set_two};
use example_calls::fault::EditFault;
use std::alloc::Global;

const PACKAGE: &str =
    "# a crate\n[package]\nname = 'x'  # its name\nversion  = '0.1.0' # the first\nold.way = 1 # gone\n\n[[bin]]\n# the program\nname = 'b'\n";

/// Sets the version and the name of the program.
fn set(alloc: Global, text: &str, name: &str) -> Result<String, EditFault> {
    let version = path(alloc, "package.version")?;
    let name = path(alloc, name)?;
    set_two(alloc, text, &version, "0.2.0", &name, "c")
}

#[test]
fn sets_two_strings(rt: HostRuntime) {
    let both =
        "# a crate\n[package]\nname = 'x'  # its name\nversion  = \"0.2.0\" # the first\nold.way = 1 # gone\n\n[[bin]]\n# the program\nname = \"c\"\n";
    assert!(rt; is_edited(set(rt.alloc(), PACKAGE, "bin.0.name"), both));
    assert!(rt; is_missing(set(rt.alloc(), PACKAGE, "bin.1.name")));
    assert!(rt; is_missing(set(rt.alloc(), PACKAGE, "package")));
    assert!(rt; is_refused(set(rt.alloc(), "a = 1\na = 2\n", "a")));
}

/// Sets the version, adds a flag, and removes what is at the path.
fn released(alloc: Global, flag: &str, gone: &str) -> Result<String, EditFault> {
    let version = path(alloc, "package.version")?;
    let gone = path(alloc, gone)?;
    release(alloc, PACKAGE, &version, "0.2.0", flag, &gone)
}

#[test]
fn releases(rt: HostRuntime) {
    let after =
        "new = true\n# a crate\n[package]\nname = 'x'  # its name\nversion  = \"0.2.0\" # the first\n\n[[bin]]\n# the program\nname = 'b'\n";
    assert!(rt; is_edited(released(rt.alloc(), "new", "package.old.way"), after));
    assert!(rt; is_present(released(rt.alloc(), "package", "package.old")));
    assert!(rt; is_missing(released(rt.alloc(), "new", "package.older")));
}
