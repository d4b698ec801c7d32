//! The program as one function.
ghost use Rattle.std.specs.Prelude.{◌≡◌, ◌≤◌, ◌↔◌, ◌⊎◌, false, true};
ghost use Rattle.std.specs.Io.KnownBytes.{IsAtEnd};
ghost use Rattle.toml_edit_command.specs.Mistakes.{IsMisworded, memory_line, read_line, usage_line, write_line};
ghost use Rattle.toml_edit_command.specs.Run.{Begins, Does, IsUnwritten, Tells, TellsMistake, TellsRefusal, written};
ghost use Rattle.toml_edit_command.specs.Words.{IsCommand, IsPrint, SaysAction, request};

use crate::act::{Ending, perform};
use crate::error::{RunError, report_error};
use crate::words::Command;
use std::alloc::Global;
use toml_edit_io::{Input, Output};

/// The exit status of a command that is done.
const DONE: u8 = 0;

/// Runs the command that the words say, which are the arguments after the program's name, and
/// returns the exit status.
///
/// Each command reads the input to its end. `docs/TOMLED.md` says what a PATH is, what each command
/// writes, and what the words `exact` and `strict` before it do.
///
/// `docs/ERRORS.md` has the exit statuses, and the message that `errors` gets; at 0 it gets none. Of
/// several faults, the first in this order counts: words, PATH, VALUE, reading, the text, the path in
/// it, whether it fits, writing. A fault in writing to `errors` is ignored.
pub fn run<I: Input, O: Output, E: Output>(
    alloc: Global,
    ending: Ending,
    words: &[String],
    input: &mut I,
    output: &mut O,
    errors: &mut E,
) -> u8
    requires input { I.has_failed input.old ≡ false }
    requires output { O.has_failed output.old ≡ false }
    ensures status { result ≤ 4 }

    // 0: done.
    ensures done { result ≡ 0 → Does (request words.now) (I.remaining input.old)
        (written O.contents O.has_failed output.old output.new) }
    ensures quiet { result ≡ 0 → errors.new ≡ errors.old }

    // 1: the input is refused.
    ensures refused { result ≡ 1 → TellsRefusal (request words.now) (I.remaining input.old)
        (written E.contents E.has_failed errors.old errors.new) }

    // 2: the words are mistaken, or what they say of the document.
    ensures mistaken { result ≡ 2 → TellsMistake (request words.now) (I.remaining input.old)
        (written E.contents E.has_failed errors.old errors.new) }
    ensures wrong_words { ¬ (IsCommand (request words.now).command)
        → (result ≡ 2) × Tells usage_line (written E.contents E.has_failed errors.old errors.new) }
    ensures print { IsPrint (request words.now).command → ¬ (result ≡ 2) }

    // 3: out of memory.
    ensures memory { result ≡ 3
        → Tells memory_line (written E.contents E.has_failed errors.old errors.new) }

    // 4: the input or the output has failed. Then nothing was written, or a beginning at most.
    ensures failed { (result ≡ 4)
        ↔ ((I.has_failed input.new ≡ true) ⊎ (O.has_failed output.new ≡ true)) }
    ensures read_fault { I.has_failed input.new ≡ true
        → Tells read_line (written E.contents E.has_failed errors.old errors.new) }
    ensures unread { I.has_failed input.new ≡ true
        → IsUnwritten (written O.contents O.has_failed output.old output.new) }
    ensures write_fault { O.has_failed output.new ≡ true
        → Tells write_line (written E.contents E.has_failed errors.old errors.new) }
    ensures beginning { O.has_failed output.new ≡ true → Begins (request words.now)
        (I.remaining input.old) (written O.contents O.has_failed output.old output.new) }

    // What several of these share: what the words say, what was read, and what was written.
    ensures said { (result ≡ 0) ⊎ (result ≡ 1) ⊎ (result ≡ 4) → SaysAction (request words.now) }
    ensures untouched { IsMisworded (request words.now)
        → ((result ≡ 2) ⊎ (result ≡ 3)) × (input.new ≡ input.old) × (output.new ≡ output.old) }
    ensures end { (result ≡ 0) ⊎ (result ≡ 1) → IsAtEnd (I.remaining input.new) }
    ensures mistaken_end { result ≡ 2
        → IsMisworded (request words.now) ⊎ IsAtEnd (I.remaining input.new) }
    ensures unwritten { (result ≡ 1) ⊎ (result ≡ 2) ⊎ (result ≡ 3)
        → O.contents output.new ≡ O.contents output.old }
{
    let (command, options) = match Command::of_words(alloc, words) {
        Ok(read) => read,
        Err(error) => return report_error(&error, errors),
    };
    match perform(alloc, ending, command, options, input, output) {
        Ok(()) => DONE,
        Err(error) => report_error(&error, errors),
    }
}

/// Writes to `errors` that memory ran out, for a caller that cannot hold the words of a command,
/// and returns the exit status 3. A fault in writing is ignored.
pub fn end_without_memory<E: Output>(errors: &mut E) -> u8
    ensures status { result ≡ 3 }
    ensures told { Tells memory_line (written E.contents E.has_failed errors.old errors.new) }
{
    report_error(&RunError::Memory, errors)
}
