//! The files that a command is given: those that it names, and those below folders.
ghost use Rattle.std.specs.Prelude.{◌≡◌, ◌||◌, ◌++◌, ◌∷◌, [], if◌then◌else◌, IfOk, List, OnOk, map, string_bytes};
ghost use Rattle.file_replace.specs.Events.{more};
ghost use Rattle.toml_edit_files.specs.Folders.{OnlyLooks};
ghost use Rattle.toml_edit_files.specs.Walks.{Finds, FindsEach, FindsMore, FindsNamed, LooksAt, below, inside, is_toml};

use crate::read::STREAM;
use file_replace::Folder;
use std::alloc::{AllocError, Global};
use std::io::ErrorKind;
use toml_edit::Mem;

/// How many folders are walked inside one another.
pub const DEPTH: u32 = 80;

/// The files that names stand for.
#[derive(Drop)]
pub struct Files {
    pub names: Vec<String>,
    /// Whether a folder was walked.
    pub walked: bool,
}

/// What has a name.
#[derive(Drop)]
pub enum Place {
    /// A folder, with the names that a walk goes on with.
    Folder(Vec<String>),
    /// No folder.
    Other,
    /// What cannot be listed.
    Unknown,
}

/// Returns the files that the names stand for, in their order: of a folder those below it, in the order
/// of their bytes.
pub fn files_of<F: Folder>(alloc: Global, folder: &mut F, names: &[&str]) -> Mem<Files>
    ensures found { IfOk result (λ files. FindsMore
        (FindsEach FindsNamed (map (λ name. name.now) names.now)) files.walked
        (F.history folder.old) (F.history folder.new) [] (map string_bytes files.names.items)) }
    ensures looks { OnlyLooks (F.history folder.old) (F.history folder.new) }
{
    let mut files = Files {
        names: Vec::new(alloc),
        walked: false,
    };
    'names: for name in names {
        files.walked |= find_named(alloc, folder, &mut files.names, *name)?;
    }
    Ok(files)
}

/// Adds the files of a name, and returns `true` if a folder has it.
fn find_named<F: Folder>(
    alloc: Global,
    folder: &mut F,
    files: &mut Vec<String>,
    name: &str,
) -> Mem<bool>
    ensures found { IfOk result (λ walked. FindsMore (FindsNamed name.now) walked
        (F.history folder.old) (F.history folder.new) (map string_bytes files.old.items)
        (map string_bytes files.new.items)) }
    ensures looks { OnlyLooks (F.history folder.old) (F.history folder.new) }
{
    if name == STREAM {
        add(alloc, files, name, true)?;
        return Ok(false);
    }
    find(alloc, folder, files, name, DEPTH, true)
}

/// Adds the files of a name, and returns `true` if a folder has it.
fn find<F: Folder>(
    alloc: Global,
    folder: &mut F,
    files: &mut Vec<String>,
    name: &str,
    depth: u32,
    named: bool,
) -> Mem<bool>
    ensures found { IfOk result (λ walked. FindsMore (Finds depth named name.now) walked
        (F.history folder.old) (F.history folder.new) (map string_bytes files.old.items)
        (map string_bytes files.new.items)) }
    ensures looks { OnlyLooks (F.history folder.old) (F.history folder.new) }
{
    let below = match look(alloc, folder, name)? {
        Place::Folder(below) => below,
        Place::Other => {
            add(alloc, files, name, is_file(name, named))?;
            return Ok(false);
        }
        Place::Unknown => {
            add(alloc, files, name, true)?;
            return Ok(false);
        }
    };
    if depth == 0 {
        add(alloc, files, name, true)?;
        return Ok(true);
    }
    let below = below.as_slice();
    'below: for path in below {
        find(alloc, folder, files, path.as_str(), depth - 1, false)?;
    }
    Ok(true)
}

/// Adds a file, if it is one.
fn add(alloc: Global, files: &mut Vec<String>, name: &str, is_file: bool) -> Mem<()>
    ensures { OnOk result (map string_bytes files.new.items ≡ map string_bytes files.old.items
        ++ (if is_file then name.now ∷ [] else [])) }
{
    if is_file {
        files.push(String::from_str(alloc, name)?)?;
    }
    Ok(())
}

/// Returns `true` if what is no folder is a file that is asked for.
fn is_file(name: &str, named: bool) -> bool
    ensures { result ≡ (named || is_toml name.now) }
{
    named || is_toml(name)
}

/// Returns `true` if a file in a folder is one of those that are looked for.
fn is_toml(name: &str) -> bool
    ensures { result ≡ is_toml name.now }
{
    name.ends_with(".toml")
}

/// Returns what has a name.
fn look<F: Folder>(alloc: Global, folder: &mut F, name: &str) -> Mem<Place>
    ensures place { IfOk result (λ place. LooksAt name.now place (F.history folder.old)
        (F.history folder.new)) }
    ensures looks { OnlyLooks (F.history folder.old) (F.history folder.new) }
{
    match folder.list(alloc, name) {
        Ok(Some(names)) => Ok(Place::Folder(below(alloc, name, names.as_slice())?)),
        Ok(None) => Ok(Place::Other),
        Err(error) if error.kind() == ErrorKind::OutOfMemory => Err(AllocError),
        Err(_) => Ok(Place::Unknown),
    }
}

/// Returns the names in a folder that a walk goes on with, behind the one of the folder.
fn below(alloc: Global, folder: &str, names: &[String]) -> Mem<Vec<String>>
    ensures { IfOk result (λ paths. map string_bytes paths.items
        ≡ below folder.now (map string_bytes names.now)) }
{
    let mut paths = Vec::new(alloc);
    'names: for name in names {
        let name = name.as_str();
        if !name.starts_with(".") {
            paths.push(inside(alloc, folder, name)?)?;
        }
    }
    Ok(paths)
}

/// Returns the name of what has a name in a folder.
fn inside(alloc: Global, folder: &str, name: &str) -> Mem<String>
    ensures { IfOk result (λ s. string_bytes s ≡ inside folder.now name.now) }
{
    if folder.ends_with("/") {
        [folder, name].concat(alloc)
    } else {
        [folder, "/", name].concat(alloc)
    }
}
