//! Three sinks: over a formatter, a `String` and an output. Each remembers its first fault, and
//! takes nothing after it.
ghost use Rattle.std.specs.Prelude.{◌≡◌, IfOk, OnOk, OnErr, string_bytes, true};
ghost use Rattle.std.specs.Fmt.{WritesOnOk};
ghost use Rattle.std.specs.Io.KnownBytes.{Appends};
ghost use Rattle.toml_edit_io.specs.Streams.{AppendsBeginning};

use super::sink::{Printed, Sink};
use super::streams::{Broken, Output, write_all};
use arrayvec::ArrayString;
use std::alloc::{AllocError, Global};
use std::fmt;
use std::fmt::{Formatter, Write};

/// A sink that writes to a formatter, up to the first fault of its writer.
#[derive(Drop)]
struct Shown<'a, W> {
    f: &'a mut Formatter<W>,
    failed: bool,
}

impl<W: Write> Sink for Shown<'_, W> {
    ghost use Rattle.toml_edit_io.specs.Sinks.{Shows};

    ghost puts = { λ s text t. Shows W.write_str_gives s.failed s.f text t.failed t.f };

    // Inlined, it would add to the frame of each value that holds another.
    #[inline(never)]
    fn put(&mut self, text: &str) {
        if !self.failed {
            self.failed = self.f.write_str(text).is_err();
        }
    }
}

/// Writes the text to the formatter.
///
/// # Errors
///
/// Returns [`fmt::Error`] if the writer of the formatter failed. The rest of the text is not
/// written then.
pub fn show<T: Printed, W: Write>(f: &mut Formatter<W>, printed: &T) -> fmt::Result
    ensures { WritesOnOk W.write_str_gives f.old result (T.text printed.now) f.new }
{
    let mut out = Shown { f, failed: false };
    printed.put_into(&mut out);
    if out.failed { Err(fmt::Error) } else { Ok(()) }
}

/// A sink that grows a `String`, until memory runs out.
#[derive(Drop)]
struct Grown {
    text: String,
    refused: bool,
}

impl Sink for Grown {
    ghost use Rattle.std.specs.Prelude.{string_bytes};
    ghost use Rattle.toml_edit_io.specs.Sinks.{Grows};

    ghost puts = { λ s text t. Grows s.refused (string_bytes s.text) text t.refused
        (string_bytes t.text) };

    fn put(&mut self, text: &str) {
        if !self.refused {
            self.refused = self.text.push_str(text).is_err();
        }
    }
}

/// Returns the text as a `String`.
///
/// # Errors
///
/// Fails if memory runs out.
pub fn print<T: Printed>(alloc: Global, printed: &T) -> Result<String, AllocError>
    ensures { IfOk result (λ text. string_bytes text ≡ T.text printed.now) }
{
    let mut out = Grown {
        text: String::new(alloc),
        refused: false,
    };
    printed.put_into(&mut out);
    let Grown { text, refused } = out;
    if refused {
        return Err(AllocError);
    }
    Ok(text)
}

/// The number of bytes that a sink over an output holds.
const HELD: usize = 4096;

/// A sink that writes to an output, up to the first fault of that.
///
/// Most texts are of a few bytes, so it holds them until it has no room for the next one: an output
/// needs no buffer of its own. They lie on the stack, so no memory is asked for.
#[derive(Drop)]
struct Written<'a, O> {
    output: &'a mut O,
    held: ArrayString<HELD>,
    broken: bool,
}

impl<O: Output> Written<'_, O> {
    ghost use Rattle.std.specs.Prelude.{[]};
    ghost use Rattle.toml_edit_io.specs.Sinks.{Writes};

    /// Writes what is held.
    fn write_held(&mut self)
        ensures wrote { Writes O.contents O.has_failed self.old.broken self.old.output
            self.old.held.bytes [] self.new.broken self.new.output self.new.held.bytes }
        ensures empty { self.new.held.bytes ≡ [] }
    {
        if !self.broken {
            self.broken = write_all(self.output, self.held.as_bytes()).is_err();
        }
        self.held.clear();
    }

    /// Puts a text for which there is no room: writes what is held, and then holds the text, or
    /// writes it if it is longer than what can be held.
    #[cold]
    #[inline(never)]
    fn put_without_room(&mut self, text: &str)
        ensures { Writes O.contents O.has_failed self.old.broken self.old.output
            self.old.held.bytes text.now self.new.broken self.new.output self.new.held.bytes }
    {
        self.write_held();
        if self.held.try_push_str(text).is_err() && !self.broken {
            self.broken = write_all(self.output, text.as_bytes()).is_err();
        }
    }
}

impl<O: Output> Sink for Written<'_, O> {
    ghost use Rattle.toml_edit_io.specs.Sinks.{Writes};

    ghost puts = { λ s text t. Writes O.contents O.has_failed s.broken s.output s.held.bytes text
        t.broken t.output t.held.bytes };

    #[inline]
    fn put(&mut self, text: &str) {
        if self.held.try_push_str(text).is_err() {
            self.put_without_room(text)
        }
    }
}

/// Writes the text of a value, a table, a key or any other [`Printed`] to an output.
///
/// `Display` writes the same text to a formatter. After a failed `Display` nothing is known of what
/// its writer holds; after a failed `print_to` the output holds a beginning of the text. It is
/// written some 4,096 bytes at a time, so the output needs no buffer, and never held as a whole. To
/// write a document, use its own `print_to`.
///
/// # Errors
///
/// Returns [`Broken`] if the output failed. It holds a beginning of the text then, perhaps an empty
/// one.
///
/// # Examples
///
/// ```rust,ignore
/// match print_to(output, printed) {
///     Ok(()) => Ok(()),
///     Err(_) => Err(RunError::WriteFailed),
/// }
/// ```
///
/// From `write_printed` of the crate `toml_edit_command`.
pub fn print_to<T: Printed, O: Output>(output: &mut O, printed: &T) -> Result<(), Broken>
    ensures text { OnOk result
        (Appends (O.contents output.old) (O.contents output.new) (T.text printed.now)) }
    ensures ok { OnOk result (O.has_failed output.new ≡ O.has_failed output.old) }
    ensures beginning { OnErr result
        (AppendsBeginning (O.contents output.old) (O.contents output.new) (T.text printed.now)) }
    ensures err { OnErr result (O.has_failed output.new ≡ true) }
{
    let mut out = Written {
        output,
        held: ArrayString::new(),
        broken: false,
    };
    printed.put_into(&mut out);
    out.write_held();
    if out.broken { Err(Broken) } else { Ok(()) }
}
