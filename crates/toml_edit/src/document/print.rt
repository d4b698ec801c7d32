//! Printing a document: as a text, to an output, or to a formatter.
ghost use Rattle.std.specs.Prelude.{◌≡◌, [], false, true, OnOk, IfOk, IsErrOf, string_bytes};
ghost use Rattle.std.specs.Io.KnownBytes.{Appends};
ghost use Rattle.toml_edit_io.specs.Streams.{AppendsBeginning};
ghost use Rattle.toml_edit_tree.specs.Printing.{keys_on};
ghost use Rattle.toml_edit.specs.DocumentView.{print_of};

use super::DocumentMut;
use crate::open_end::Laid;
use bumpalo::Bump;
use std::alloc::{AllocError, Global};
use std::error::Error;
use std::fmt;
use toml_edit_io as stream;
use toml_edit_io::{Broken, Output, show};
use toml_edit_repr::Mem;
use toml_edit_slots::NoMemory;
use toml_edit_tree::Path;

/// The reason why a document was not printed in full.
///
/// Returned by [`DocumentMut::print_to`].
///
/// # Examples
///
/// ```rust,ignore
/// if output.failed() {
///     return Err(PrintFault::Device);
/// }
/// document.print_to(alloc, output)
/// ```
///
/// From `write_to` of the crate `example_calls`.
#[derive(Clone, Copy, Debug, PartialEq, Eq)]
pub enum PrintFault {
    /// Out of memory. Nothing was written.
    Memory,
    /// The output failed. It holds the beginning of the text that was written before.
    Device,
}

/// Writes `out of memory` or `write failed`.
impl fmt::Display for PrintFault {
    ghost use Rattle.std.specs.Prelude.{Some};
    ghost use Rattle.toml_edit.specs.Faults.{fault_text};

    ghost output = { λ fault. Some (fault_text fault) };

    fn fmt<W: fmt::Write>(&self, f: &mut fmt::Formatter<W>) -> fmt::Result {
        match self {
            PrintFault::Memory => f.write_str("out of memory"),
            PrintFault::Device => f.write_str("write failed"),
        }
    }
}

impl Error for PrintFault {}

/// Converts the error into [`PrintFault::Memory`].
impl From<AllocError> for PrintFault {
    ghost use Rattle.toml_edit.specs.declared.document.print.PrintFault.TheVariants.{Memory};

    ghost from_gives = { λ _ fault. fault ≡ Memory };

    fn from(_error: AllocError) -> PrintFault {
        PrintFault::Memory
    }
}

/// Converts the error into [`PrintFault::Memory`], and drops the value that it has.
impl<T: Drop> From<NoMemory<T>> for PrintFault {
    ghost use Rattle.toml_edit.specs.declared.document.print.PrintFault.TheVariants.{Memory};

    ghost from_gives = { λ _ fault. fault ≡ Memory };

    fn from(_refused: NoMemory<T>) -> PrintFault {
        PrintFault::Memory
    }
}

/// Converts the error into [`PrintFault::Device`].
impl From<Broken> for PrintFault {
    ghost use Rattle.toml_edit.specs.declared.document.print.PrintFault.TheVariants.{Device};

    ghost from_gives = { λ _ fault. fault ≡ Device };

    fn from(_error: Broken) -> PrintFault {
        PrintFault::Device
    }
}

/// Writes the text that [`print`](DocumentMut::print) returns.
///
/// The order of the headers takes memory, by the allocator of the root's slots. If out of memory,
/// nothing is written and the result is an error, as it is if the writer fails.
impl fmt::Display for DocumentMut {
    ghost use Rattle.std.specs.Prelude.{Some};

    ghost output = { λ d. Some (print_of d) };

    fn fmt<W: fmt::Write>(&self, f: &mut fmt::Formatter<W>) -> fmt::Result {
        let arena = Bump::new(self.as_table().slots.allocator());
        let top = Path::Root;
        match self.lay_out(&arena, &top) {
            Ok(laid) => show(f, &laid),
            Err(_) => Err(fmt::Error),
        }
    }
}

impl DocumentMut {
    ghost use Rattle.toml_edit.specs.LaidView.{laid_text};

    /// Returns the document with its headers in the order of the print.
    ///
    /// # Errors
    ///
    /// Fails if memory runs out.
    fn lay_out<'a>(&'a self, arena: &'a Bump, top: &'a Path<'a, 'a>) -> Mem<Laid<'a>>
        requires { keys_on top.now ≡ [] }
        ensures { IfOk result (λ laid. laid_text laid ≡ print_of self.now) }
    {
        let root = self.as_table();
        Laid::new(arena, top, self.mode, self.open_end, root, &self.trailing)
    }

    /// Returns the text of the document.
    ///
    /// Where line endings are kept it has them. Else it has line feeds (LF) alone, and a newline
    /// after the last statement. What was parsed and not changed gives the normal form of its
    /// source. `Display` writes this text too, and [`print_to`](Self::print_to) writes it to an
    /// [`Output`](crate::Output). [`fits`](Self::fits) checks that it is valid. Takes memory for
    /// the whole text and for the order of the headers.
    ///
    /// # Errors
    ///
    /// Returns an `AllocError` if out of memory.
    pub fn print(&self, alloc: Global) -> Mem<String>
        ensures { IfOk result (λ s. string_bytes s ≡ print_of self.now) }
    {
        let arena = Bump::new(alloc);
        let top = Path::Root;
        let laid = self.lay_out(&arena, &top)?;
        stream::print(alloc, &laid)
    }

    /// Writes the text that [`print`](Self::print) returns to an output that has not failed.
    ///
    /// The text is written some 4,096 bytes at a time, from the stack, and is never held as a whole.
    /// Only the order of the headers takes memory, before the first write. To check that the text
    /// can be read back, use [`fits`](Self::fits).
    ///
    /// # Errors
    ///
    /// Returns [`PrintFault::Memory`] if out of memory, and then nothing was written. Returns
    /// [`PrintFault::Device`] if the output failed, and then it holds a beginning of the text,
    /// perhaps an empty one.
    ///
    /// # Examples
    ///
    /// ```rust,ignore
    /// if output.failed() {
    ///     return Err(PrintFault::Device);
    /// }
    /// document.print_to(alloc, output)
    /// ```
    ///
    /// From `write_to` of the crate `example_calls`.
    pub fn print_to<W: Output>(&self, alloc: Global, out: &mut W) -> Result<(), PrintFault>
        requires { W.has_failed out.old ≡ false }
        ensures prints { OnOk result
            (Appends (W.contents out.old) (W.contents out.new) (print_of self.now)) }
        ensures works { OnOk result (W.has_failed out.new ≡ false) }
        ensures memory { IsErrOf result PrintFault.Memory → out.new ≡ out.old }
        ensures device { IsErrOf result PrintFault.Device → (W.has_failed out.new ≡ true)
            × AppendsBeginning (W.contents out.old) (W.contents out.new) (print_of self.now) }
    {
        let arena = Bump::new(alloc);
        let top = Path::Root;
        let laid = self.lay_out(&arena, &top)?;
        stream::print_to(out, &laid)?;
        Ok(())
    }
}
