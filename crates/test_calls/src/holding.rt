//! Owning what tests make, and checking it.
use std::alloc::{AllocError, Global};
use std::fmt::{self, Display, Write};
use toml_edit::{Mem, NoMemory};

/// Drops what found no memory, and returns the error.
pub fn no_memory<T: Drop>(_refused: NoMemory<T>) -> AllocError {
    AllocError
}

/// Returns `true` if it was made, and the test holds of it.
pub fn holds<T: Drop, F: Fn(&T) -> bool>(made: Option<T>, test: F) -> bool
    requires { F.IsAlwaysCallable test }
{
    match made {
        Some(made) => test(&made),
        None => false,
    }
}

/// Returns `true` if it was made, and the test holds that takes it.
pub fn holds_moved<T: Drop, F: Fn(Global, T) -> bool>(
    alloc: Global,
    made: Option<T>,
    test: F,
) -> bool
    requires { F.IsAlwaysCallable test }
{
    match made {
        Some(made) => test(alloc, made),
        None => false,
    }
}

/// Returns `true` if the test holds that changes it.
pub fn holds_changed<T: Drop, F: Fn(Global, &mut T) -> bool>(
    alloc: Global,
    made: T,
    test: F,
) -> bool
    requires { F.IsAlwaysCallable test }
{
    let mut made = made;
    test(alloc, &mut made)
}

/// A writer that fails at one of its calls, or once it has taken so many bytes. It compares what it
/// takes with what is wanted. Nothing may come after its fault.
#[derive(Drop)]
struct Narrow<'a> {
    wanted: &'a [u8],
    room: usize,
    calls_until_fault: usize,
    has_failed: bool,
    agrees: bool,
}

impl<'a> Narrow<'a> {
    fn of(shown: &'a str, room: usize, calls_until_fault: usize) -> Narrow<'a> {
        Narrow {
            wanted: shown.as_bytes(),
            room,
            calls_until_fault,
            has_failed: false,
            agrees: true,
        }
    }

    /// Takes the bytes of the piece for which there is room.
    fn take(&mut self, piece: &[u8]) {
        let count = self.room.min(piece.len());
        self.agrees = self.agrees && !self.has_failed && self.wanted.starts_with(&piece[..count]);
        self.wanted = self.wanted.get(count..).unwrap_or(&[]);
        self.room -= count;
        self.has_failed = count < piece.len();
    }
}

impl Write for Narrow<'_> {
    fn write_str(&mut self, piece: &str) -> fmt::Result {
        if self.calls_until_fault == 0 {
            self.agrees = self.agrees && !self.has_failed;
            self.has_failed = true;
        } else {
            self.calls_until_fault -= 1;
            self.take(piece.as_bytes());
        }
        if self.has_failed {
            Err(fmt::Error)
        } else {
            Ok(())
        }
    }
}

/// Returns `true` if a writer with so much room gets a beginning of the text, and its fault is
/// returned.
fn fills<T: Display>(made: &T, shown: &str, room: usize) -> bool {
    let mut narrow = Narrow::of(shown, room, usize::MAX);
    write!(narrow, "{made}").is_err() && narrow.has_failed && narrow.agrees && narrow.room == 0
}

/// More calls than a `Display` of these tests makes.
const MANY_CALLS: usize = 1000;

/// Returns `true` if a writer that fails at one of its calls, whichever, gets a beginning of the
/// text and its fault is returned, and one that never fails gets the whole text.
fn stops_at_each_call<T: Display>(made: &T, shown: &str) -> bool {
    for calls in 0..MANY_CALLS {
        let mut narrow = Narrow::of(shown, usize::MAX, calls);
        let is_written = write!(narrow, "{made}").is_ok();
        if !narrow.agrees || is_written == narrow.has_failed {
            return false;
        }
        if is_written {
            return narrow.wanted.is_empty();
        }
    }
    false
}

/// Returns `true` if it is written so, and a beginning of that to a writer that fails at a byte or
/// at a call.
pub fn writes<T: Display>(alloc: Global, made: &T, shown: &str) -> bool {
    let mut is_filled = stops_at_each_call(made, shown);
    for room in 0..shown.len() {
        is_filled = is_filled && fills(made, shown, room);
    }
    match made.to_string(alloc) {
        Ok(text) => is_filled && text.as_str() == shown,
        Err(_) => false,
    }
}

/// Returns `true` if this is the text.
pub fn is_text(made: Mem<String>, wanted: &str) -> bool {
    match made {
        Ok(text) => text.as_str() == wanted,
        Err(_) => false,
    }
}

/// Returns `true` if it displays so.
pub fn shows<T: Display + Drop>(alloc: Global, made: T, shown: &str) -> bool {
    writes(alloc, &made, shown)
}
