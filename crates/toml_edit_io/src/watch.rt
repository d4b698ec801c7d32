//! Readers and writers of std as inputs and outputs.
ghost use Rattle.std.specs.Prelude.{◌≡◌, ◌<◌, false, true, length, IfOk, OnOk, OnErr, IsErr};
ghost use Rattle.std.specs.Io.{ReadsAtMost, WritesAtMost};
ghost use Rattle.std.specs.Io.KnownBytes.{Keeps, ReadConsumes, WriteAppends};
ghost use Rattle.toml_edit_io.specs.Watch.{watched_inner, watched_fault};

use super::streams::{Broken, Input, Output};
use std::io::{ErrorKind, Read, Write};

/// A reader or a writer, wrapped so that it remembers a fault: each call after the first fault
/// fails too.
///
/// It is an [`Input`] over a reader and an [`Output`] over a writer.
///
/// # Examples
///
/// ```rust,ignore
/// let mut output = Watched::new(writer);
/// document.print_to(alloc, &mut output)?;
/// ```
///
/// From `print_to_writer` of the crate `example_calls`.
#[derive(Debug, Drop)]
pub struct Watched<T> {
    inner: T,
    failed: bool,
}

impl<T> Watched<T> {
    /// Wraps a reader or a writer. No fault is remembered yet, whatever happened before.
    ///
    /// It is not given back: to see what was written, wrap a writer that borrows what it writes to.
    pub fn new(inner: T) -> Watched<T>
        ensures inner { watched_inner result ≡ inner }
        ensures fault { watched_fault result ≡ false }
    {
        Watched {
            inner,
            failed: false,
        }
    }
}

impl<T: Read + Drop> Input for Watched<T> {
    ghost remaining = { λ w. T.remaining (watched_inner w) };

    ghost has_failed = { watched_fault };

    fn read(&mut self, buffer: &mut [u8]) -> Result<usize, Broken>
        ensures bound { ReadsAtMost result buffer.new }
        ensures bytes { ReadConsumes (T.remaining (watched_inner self.old))
            (T.remaining (watched_inner self.new)) result buffer.new }
        ensures ok { OnOk result (watched_fault self.new ≡ watched_fault self.old) }
        ensures err { OnErr result (watched_fault self.new ≡ true) }
        ensures stays { watched_fault self.old ≡ true → IsErr result }
    {
        if self.failed {
            return Err(Broken);
        }
        let answer = read_once(&mut self.inner, buffer);
        self.failed = answer.is_err();
        answer
    }

    fn failed(&self) -> bool {
        self.failed
    }
}

impl<T: Write + Drop> Output for Watched<T> {
    ghost contents = { λ w. T.contents (watched_inner w) };

    ghost has_failed = { watched_fault };

    fn write(&mut self, piece: &[u8]) -> Result<usize, Broken>
        ensures bound { WritesAtMost result piece.now }
        ensures progress { IfOk result (λ n. 0 < length piece.now → 0 < n) }
        ensures bytes { WriteAppends (T.contents (watched_inner self.old))
            (T.contents (watched_inner self.new)) result piece.now }
        ensures ok { OnOk result (watched_fault self.new ≡ watched_fault self.old) }
        ensures err { OnErr result (watched_fault self.new ≡ true) }
        ensures stays { watched_fault self.old ≡ true → IsErr result }
    {
        if self.failed {
            return Err(Broken);
        }
        let answer = write_once(&mut self.inner, piece);
        self.failed = answer.is_err();
        answer
    }

    fn failed(&self) -> bool {
        self.failed
    }
}

/// Reads once, and again for as long as a signal interrupts it.
fn read_once<R: Read>(reader: &mut R, buffer: &mut [u8]) -> Result<usize, Broken>
    ensures bound { ReadsAtMost result buffer.new }
    ensures bytes { ReadConsumes (R.remaining reader.old)
        (R.remaining reader.new) result buffer.new }
{
    for _ in 0..u64::MAX {
        match reader.read(buffer) {
            Ok(count) => return Ok(count),
            Err(error) => {
                if error.kind() != ErrorKind::Interrupted {
                    return Err(Broken);
                }
            }
        }
    }
    Err(Broken)
}

/// Writes once, and again for as long as a signal interrupts it. A writer that takes nothing of a
/// piece that isn't empty is broken.
fn write_once<W: Write>(writer: &mut W, piece: &[u8]) -> Result<usize, Broken>
    ensures bound { WritesAtMost result piece.now }
    ensures progress { IfOk result (λ n. 0 < length piece.now → 0 < n) }
    ensures bytes { WriteAppends (W.contents writer.old) (W.contents writer.new) result piece.now }
{
    for _ in 0..u64::MAX {
        match writer.write(piece) {
            Ok(0) => {
                if piece.is_empty() {
                    return Ok(0);
                }
                return Err(Broken);
            }
            Ok(count) => return Ok(count),
            Err(error) => {
                if error.kind() != ErrorKind::Interrupted {
                    return Err(Broken);
                }
            }
        }
    }
    Err(Broken)
}
