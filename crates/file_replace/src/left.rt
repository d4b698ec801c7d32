//! The names of new files, and those that runs left which have ended.
use crate::names::leads_to;
use std::alloc::Global;
use std::fs::{self, OpenOptions};
use std::io;
use std::random::RandomSource;
use std::time::SystemTime;

/// What the name of a new file ends with.
const ENDING: &str = ".tomlfile";

/// Where the system writes an identifier of its running since it was started.
const BOOT: &str = "/proc/sys/kernel/random/boot_id";

/// Returns the identifier and a newline, or an empty text.
pub fn boot_of(rt: &HostRuntime) -> String {
    match fs::read_to_string(rt, BOOT) {
        Ok(boot) => boot,
        Err(_) => String::new(rt.alloc()),
    }
}

/// Returns a name in the folder by which it can be known that its run has ended.
pub fn fresh_name(
    rt: &HostRuntime,
    alloc: Global,
    folder: &str,
    boot: &str,
    process: u32,
) -> io::Result<String> {
    let mark = mark_of(rt, process);
    Ok(format!(in alloc; "{folder}/.{boot}.{mark:016x}{ENDING}")?)
}

/// Returns a number at random, or one of the process and the time.
fn mark_of(rt: &HostRuntime, process: u32) -> u64 {
    let mut bytes = [0; 8];
    if rt.fill_bytes(&mut bytes).is_ok() {
        return u64::from_ne_bytes(bytes);
    }
    let time = match SystemTime::now(rt) {
        Ok(time) => time
            .duration_since(SystemTime::UNIX_EPOCH)
            .map_or(0, |past| past.subsec_nanos()),
        Err(_) => 0,
    };
    u64::from(process) << 32 | u64::from(time)
}

/// Removes the files in the folder that runs since the system was started left, and have ended. What
/// cannot be removed stays.
pub fn clear(rt: &HostRuntime, folder: &str, boot: &str) {
    let Ok(entries) = fs::read_dir(rt, folder) else {
        return;
    };
    for entry in entries {
        if let Ok(entry) = entry {
            if is_new_file(entry.file_name(), boot) {
                remove_left(rt, entry.path().as_str());
            }
        }
    }
}

/// Returns `true` if the name is one of a new file.
fn is_new_file(name: &str, boot: &str) -> bool {
    let Some(rest) = name.strip_prefix(".") else {
        return false;
    };
    let Some(rest) = rest.strip_prefix(boot) else {
        return false;
    };
    !boot.is_empty() && rest.starts_with('.') && rest.ends_with(ENDING)
}

/// Removes a file unless a run holds its lock.
fn remove_left(rt: &HostRuntime, name: &str) {
    let mut options = OpenOptions::new();
    let Ok(file) = options.read(true).write(true).open(rt, name) else {
        return;
    };
    if file.try_lock().is_ok() && matches!(leads_to(rt, name, &file), Ok(true)) {
        let _ = fs::remove_file(rt, name);
    }
}
