//! Inputs and outputs of bytes that remember a fault: reading one to its end, and writing a whole
//! text.
ghost use Rattle.std.specs.Prelude.{◌≡◌, ℕ, ◌<◌, Bool, true, List, length, Option, IfSome, IfOk, IfErr, OnOk, OnErr};
ghost use Rattle.std.specs.Io.{ReadsAtMost, WritesAtMost};
ghost use Rattle.std.specs.Io.KnownBytes.{Appends, IsAtEnd, ReadConsumes, WriteAppends};
ghost use Rattle.toml_edit_io.specs.Streams.{AppendsBeginning, ReadFaultLeaves};

use std::alloc::{AllocError, Global};
use std::error::Error;
use std::fmt;

/// The error of an input or an output whose device failed. The stream that returns it has failed
/// from then on.
///
/// # Examples
///
/// ```rust,ignore
/// pub fn read_piece<I: Input>(input: &mut I, buffer: &mut [u8]) -> Result<usize, Broken>
/// ```
///
/// From `read_piece` of the crate `example_calls`.
#[derive(Clone, Copy, Debug, PartialEq, Eq)]
pub struct Broken;

/// Writes `broken`.
impl fmt::Display for Broken {
    ghost use Rattle.std.specs.Prelude.{Some, codes};

    ghost output = { λ _. Some (codes "broken") };

    fn fmt<W: fmt::Write>(&self, f: &mut fmt::Formatter<W>) -> fmt::Result {
        f.write_str("broken")
    }
}

impl Error for Broken {}

/// An input of bytes that remembers a fault.
///
/// # Examples
///
/// ```rust,ignore
/// input.read(buffer)
/// ```
///
/// From `read_piece` of the crate `example_calls`.
pub trait Input {
    // the bytes that are left to read, where they are known
    ghost remaining: { Self → Option (List ℕ) };

    // whether a read has failed
    ghost has_failed: { Self → Bool };

    /// Reads bytes into the beginning of `buffer`, and returns how many.
    ///
    /// A count of 0 for a buffer that isn't empty is the end of the input.
    ///
    /// # Errors
    ///
    /// Returns [`Broken`] if the device failed. No byte of the input is lost, and
    /// [`failed`](Self::failed) returns `true` from then on.
    fn read(&mut self, buffer: &mut [u8]) -> Result<usize, Broken>
        ensures bound { ReadsAtMost result buffer.new }
        ensures bytes { ReadConsumes (remaining self.old) (remaining self.new) result buffer.new }
        ensures ok { OnOk result (has_failed self.new ≡ has_failed self.old) }
        ensures err { OnErr result (has_failed self.new ≡ true) };

    /// Returns `true` if a read has failed.
    fn failed(&self) -> bool
        ensures { result ≡ has_failed self.now };
}

/// An output of bytes that remembers a fault.
///
/// # Examples
///
/// ```rust,ignore
/// if output.failed() {
///     return Err(PrintFault::Device);
/// }
/// document.print_to(alloc, output)
/// ```
///
/// From `write_to` of the crate `example_calls`.
pub trait Output {
    // the bytes that the output holds, where they are known
    ghost contents: { Self → Option (List ℕ) };

    // whether a write has failed
    ghost has_failed: { Self → Bool };

    /// Writes a beginning of `piece`, and returns how many bytes it has: at least one, unless
    /// `piece` is empty.
    ///
    /// To write all of `piece`, call it again with the rest.
    ///
    /// # Errors
    ///
    /// Returns [`Broken`] if the device failed. No byte was written, and [`failed`](Self::failed)
    /// returns `true` from then on.
    fn write(&mut self, piece: &[u8]) -> Result<usize, Broken>
        ensures bound { WritesAtMost result piece.now }
        ensures progress { IfOk result (λ n. 0 < length piece.now → 0 < n) }
        ensures bytes { WriteAppends (contents self.old) (contents self.new) result piece.now }
        ensures ok { OnOk result (has_failed self.new ≡ has_failed self.old) }
        ensures err { OnErr result (has_failed self.new ≡ true) };

    /// Returns `true` if a write has failed.
    fn failed(&self) -> bool
        ensures { result ≡ has_failed self.now };
}

/// The reason why an input was not read to its end.
///
/// Returned by [`read_to_end`].
#[derive(Clone, Copy, Debug, PartialEq, Eq)]
pub enum ReadFault {
    /// Out of memory for the bytes.
    Memory,
    /// The input failed.
    Broken,
}

/// Writes `out of memory` or `broken`.
impl fmt::Display for ReadFault {
    ghost use Rattle.std.specs.Prelude.{Some};
    ghost use Rattle.toml_edit_io.specs.Streams.{fault_text};

    ghost output = { λ fault. Some (fault_text fault) };

    fn fmt<W: fmt::Write>(&self, f: &mut fmt::Formatter<W>) -> fmt::Result {
        match self {
            ReadFault::Memory => f.write_str("out of memory"),
            ReadFault::Broken => f.write_str("broken"),
        }
    }
}

impl Error for ReadFault {}

/// Converts the error into [`ReadFault::Memory`].
impl From<AllocError> for ReadFault {
    ghost use Rattle.toml_edit_io.specs.declared.streams.ReadFault.TheVariants.{Memory};

    ghost from_gives = { λ _ fault. fault ≡ Memory };

    fn from(_error: AllocError) -> ReadFault {
        ReadFault::Memory
    }
}

/// Converts the error into [`ReadFault::Broken`].
impl From<Broken> for ReadFault {
    ghost use Rattle.toml_edit_io.specs.declared.streams.ReadFault.TheVariants.{Broken};

    ghost from_gives = { λ _ fault. fault ≡ Broken };

    fn from(_error: Broken) -> ReadFault {
        ReadFault::Broken
    }
}

/// The number of bytes that are read at once.
const CHUNK: usize = 4096;

/// Reads the input to its end, and returns all bytes that it had left.
///
/// # Errors
///
/// Returns [`ReadFault::Memory`] if out of memory, and [`ReadFault::Broken`] if the input failed.
/// The bytes that were read before are lost.
pub fn read_to_end<I: Input>(alloc: Global, input: &mut I) -> Result<Vec<u8>, ReadFault>
    ensures bytes { IfOk result (λ v. IfSome (I.remaining input.old) (λ xs. v.items ≡ xs)) }
    ensures end { OnOk result (IsAtEnd (I.remaining input.new)) }
    ensures ok { OnOk result (I.has_failed input.new ≡ I.has_failed input.old) }
    ensures err { IfErr result (ReadFaultLeaves (I.has_failed input.old) (I.has_failed input.new)) }
{
    let mut bytes = Vec::new(alloc);
    let mut chunk = [0u8; CHUNK];
    // So many reads of at least one byte are more bytes than memory holds.
    for _ in 0..u64::MAX {
        let count = input.read(&mut chunk)?;
        if count == 0 {
            bytes.shrink_to_fit();
            return Ok(bytes);
        }
        bytes.extend_from_slice(&chunk[..count])?;
    }
    Err(ReadFault::Memory)
}

/// Writes all of `text`.
///
/// # Errors
///
/// Returns [`Broken`] if the output failed. It holds a beginning of the text then, perhaps an empty
/// one.
pub fn write_all<O: Output>(output: &mut O, text: &[u8]) -> Result<(), Broken>
    ensures text { OnOk result (Appends (O.contents output.old) (O.contents output.new) text.now) }
    ensures ok { OnOk result (O.has_failed output.new ≡ O.has_failed output.old) }
    ensures beginning { OnErr result
        (AppendsBeginning (O.contents output.old) (O.contents output.new) text.now) }
    ensures err { OnErr result (O.has_failed output.new ≡ true) }
{
    let mut at = 0;
    while at < text.len() {
        at += output.write(&text[at..])?;
    }
    Ok(())
}
