//! The files of the system.
ghost use Rattle.std.specs.Prelude.{None};

use crate::folder::Folder;
use crate::left::{boot_of, clear, fresh_name};
use crate::names::{folder_of, leads_to, names_in, target_of};
use std::alloc::Global;
use std::fs::{self, File, Metadata, OpenOptions, Permissions, TryLockError};
use std::io;
use std::io::{ErrorKind, Read, Write};
use std::os::unix::fs::{MetadataExt, OpenOptionsExt, PermissionsExt, fchown};

/// The folders of the system.
#[derive(Drop)]
pub struct Host<'r> {
    rt: &'r HostRuntime,
    process: u32,
    /// The file that was made. It is locked, by which other runs know that this one has not ended.
    file: Option<File>,
    locked: Option<File>,
}

impl<'r> Host<'r> {
    /// Makes the folders of a process of this number.
    pub fn new(rt: &'r HostRuntime, process: u32) -> Host<'r> {
        Host {
            rt,
            process,
            file: None,
            locked: None,
        }
    }
}

impl Folder for Host<'_> {
    // No contract says what the system holds.
    ghost history = { λ _. None };

    fn read(&mut self, _alloc: Global, name: &str) -> io::Result<Vec<u8>> {
        fs::read(self.rt, name)
    }

    fn find(&mut self, _alloc: Global, name: &str) -> io::Result<Option<Vec<u8>>> {
        match fs::read(self.rt, name) {
            Ok(text) => Ok(Some(text)),
            Err(error) if error.kind() == ErrorKind::NotFound => Ok(None),
            Err(error) => Err(error),
        }
    }

    fn list(&mut self, alloc: Global, name: &str) -> io::Result<Option<Vec<String>>> {
        match fs::symlink_metadata(self.rt, name) {
            Ok(metadata) if metadata.is_dir() => Ok(Some(names_in(self.rt, alloc, name)?)),
            Ok(_) => Ok(None),
            Err(error) if error.kind() == ErrorKind::NotFound => Ok(None),
            Err(error) => Err(error),
        }
    }

    fn target(&mut self, alloc: Global, name: &str) -> io::Result<String> {
        target_of(self.rt, alloc, name)
    }

    fn lock(&mut self, name: &str) -> io::Result<()> {
        // Two runs that each wait for a file of the other would wait forever.
        self.file = None;
        self.locked = None;
        for _ in 0..u64::MAX {
            let file = File::open(self.rt, name)?;
            // Not each file system has locks.
            let _ = file.lock();
            if leads_to(self.rt, name, &file)? {
                self.locked = Some(file);
                return Ok(());
            }
        }
        Err(io::Error::from(ErrorKind::Interrupted))
    }

    fn is_writable(&mut self, name: &str) -> io::Result<bool> {
        match fs::metadata(self.rt, name) {
            Ok(metadata) => Ok(!metadata.permissions().readonly()),
            Err(error) if error.kind() == ErrorKind::NotFound => Ok(true),
            Err(error) => Err(error),
        }
    }

    fn clear(&mut self, name: &str) {
        let boot = boot_of(self.rt);
        clear(self.rt, folder_of(name), boot.as_str().trim_end());
    }

    fn beside(&mut self, alloc: Global, name: &str, last: &str) -> io::Result<String> {
        let boot = boot_of(self.rt);
        let boot = boot.as_str().trim_end();
        let beside = fresh_name(self.rt, alloc, folder_of(name), boot, self.process)?;
        if beside.as_str() == name || beside.as_str() == last {
            return Err(io::Error::from(ErrorKind::AlreadyExists));
        }
        Ok(beside)
    }

    fn make(&mut self, beside: &str, name: &str) -> io::Result<()> {
        // Nobody else opens it before it has the mode of the file that it replaces.
        let mode = if fs::exists(self.rt, name)? {
            0o600
        } else {
            0o666
        };
        let mut options = OpenOptions::new();
        options.write(true).create_new(true).mode(mode);
        let file = options.open(self.rt, beside)?;
        // Another run may take it for one that was left until it is locked.
        let is_taken = matches!(file.try_lock(), Err(TryLockError::WouldBlock));
        if is_taken || !leads_to(self.rt, beside, &file)? {
            return Err(io::Error::from(ErrorKind::AlreadyExists));
        }
        self.file = Some(file);
        Ok(())
    }

    fn liken(&mut self, name: &str, force: bool) -> io::Result<()> {
        let Some(file) = &self.file else {
            return Err(io::Error::from(ErrorKind::NotFound));
        };
        match fs::metadata(self.rt, name) {
            Ok(old) => copy_owner_and_mode(file, &old, force),
            Err(error) if error.kind() == ErrorKind::NotFound => Ok(()),
            Err(error) => Err(error),
        }
    }

    fn write(&mut self, text: &[u8]) -> io::Result<()> {
        match &mut self.file {
            Some(file) => file.write_all(text),
            None => Err(io::Error::from(ErrorKind::NotFound)),
        }
    }

    fn sync(&mut self) -> io::Result<()> {
        match &self.file {
            Some(file) => file.sync_all(),
            None => Err(io::Error::from(ErrorKind::NotFound)),
        }
    }

    fn holds(&mut self, name: &str, text: &[u8]) -> io::Result<bool> {
        match File::open(self.rt, name) {
            Ok(mut file) => is_text_of(&mut file, text),
            Err(error) if error.kind() == ErrorKind::NotFound => Ok(false),
            Err(error) => Err(error),
        }
    }

    fn rename(&mut self, from: &str, to: &str) -> io::Result<()> {
        fs::rename(self.rt, from, to)
    }

    fn remove(&mut self, name: &str) -> io::Result<()> {
        fs::remove_file(self.rt, name)
    }

    fn sync_folder(&mut self, name: &str) -> io::Result<()> {
        File::open(self.rt, folder_of(name))?.sync_all()
    }
}

/// Gives the file the owner, the group and the mode of the old one.
fn copy_owner_and_mode(file: &File, old: &Metadata, force: bool) -> io::Result<()> {
    // A group of one's own can be given where the owner can't.
    let _ = fchown(file, None, Some(old.gid()));
    let _ = fchown(file, Some(old.uid()), None);
    let new = file.metadata()?;
    let is_kept = new.uid() == old.uid() && new.gid() == old.gid();
    if !is_kept && !force {
        return Err(io::Error::other("its owner or group cannot be kept"));
    }
    // Nobody gets to run it as another user than it was.
    let bits = if is_kept { 0o7777 } else { 0o1777 };
    file.set_permissions(Permissions::from_mode(old.mode() & bits))
}

/// Returns `true` if the rest of the file is the text.
fn is_text_of(file: &mut File, text: &[u8]) -> io::Result<bool> {
    let mut rest = text;
    let mut piece = [0; 4096];
    for _ in 0..u64::MAX {
        let count = file.read(&mut piece)?;
        if count == 0 {
            return Ok(rest.is_empty());
        }
        match rest.strip_prefix(&piece[..count]) {
            Some(more) => rest = more,
            None => return Ok(false),
        }
    }
    Ok(false)
}
