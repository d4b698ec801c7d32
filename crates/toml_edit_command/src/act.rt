//! Running a command on the document that the input holds.
ghost use Rattle.std.specs.Io.KnownBytes.{IsAtEnd, Appends};
ghost use Rattle.std.specs.Prelude.{◌≡◌, ◌++◌, false, IfErr, OnOk};
ghost use Rattle.toml_edit.specs.DocumentView.{IsPrintedAs, tree_owned};
ghost use Rattle.toml_edit_command.specs.Edits.{set_names};
ghost use Rattle.toml_edit_command.specs.Run.{written};
ghost use Rattle.toml_edit_command.specs.Steps.{HasReadAll, StopsActing, StopsDoing, Wrote, WroteRead, action_of, HasPrinted, StopsPrinting, error_for, StopsWriting};
ghost use Rattle.toml_edit_command.specs.Words.{printing, removing, setting, getting};
ghost use Rattle.toml_edit_command.specs.Written.{held};
ghost use Rattle.toml_edit_edit_laws.specs.Commands as commands;
ghost use Rattle.toml_edit_model.specs.Keys.{names};
ghost use Rattle.toml_edit_model.specs.Text.{newline};
ghost use Rattle.toml_edit_parser.specs.Options.{mode_of, version_of};
ghost use Rattle.toml_edit_paths.specs.Changes.{Changes};
ghost use Rattle.toml_edit_tree.specs.Containers.{tables_node};
ghost use Rattle.toml_edit_tree.specs.View.{value_view, item_view, tables_view};

use crate::error::{CommandError, RunError, Step};
use crate::read::read_document;
use crate::words::Command;
use std::alloc::Global;
use std::mem;
use toml_edit::{
    ArrayOfTables, ChangeFault, DocumentMut, Item, Key, ParseOptions, PrintFault, Value,
};
use toml_edit_io::{Input, Output, Printed, Sink, print_to};
use toml_edit_paths::reset_keys;
use toml_edit_tree::Bare;

/// What becomes of the memory of the document at the end of a run.
#[derive(Clone, Copy, Debug, PartialEq, Eq)]
pub enum Ending {
    /// The process is to end, which gives it back in one step.
    Process,
    /// It is given back.
    Call,
}

/// Reads the document from the input, by these options, and runs the command on it.
pub fn perform<I: Input, O: Output>(
    alloc: Global,
    ending: Ending,
    command: Command,
    options: ParseOptions,
    input: &mut I,
    output: &mut O,
) -> Step<()>
    requires input { I.has_failed input.old ≡ false }
    requires output { O.has_failed output.old ≡ false }
    ensures wrote { OnOk result
        (WroteRead (mode_of options) (version_of options) (action_of command)
        (I.remaining input.old) (written O.contents O.has_failed output.old output.new)) }
    ensures ok { OnOk result
        ((I.has_failed input.new ≡ false) × (O.has_failed output.new ≡ false)) }
    ensures end { OnOk result (IsAtEnd (I.remaining input.new)) }
    ensures err_end { IfErr result (HasReadAll (I.remaining input.new)) }
    ensures err { IfErr result (StopsDoing (mode_of options) (version_of options)
        (action_of command) (I.remaining input.old) (I.has_failed input.new)
        (written O.contents O.has_failed output.old output.new)) }
{
    match read_document(alloc, input, options) {
        Ok(mut document) => {
            let done = act(alloc, command, &mut document, output);
            end(document, ending);
            done
        }
        Err(error) => {
            drop(command);
            Err(error)
        }
    }
}

/// Gives the memory of the document back, unless the process does.
fn end(document: DocumentMut, ending: Ending) {
    match ending {
        Ending::Process => mem::forget(document),
        Ending::Call => drop(document),
    }
}

/// Runs the command on the document.
fn act<O: Output>(
    alloc: Global,
    command: Command,
    document: &mut DocumentMut,
    output: &mut O,
) -> Step<()>
    requires { O.has_failed output.old ≡ false }
    ensures wrote { OnOk result (Wrote (action_of command) (held document.old)
        (written O.contents O.has_failed output.old output.new)) }
    ensures ok { OnOk result (O.has_failed output.new ≡ false) }
    ensures err { IfErr result (StopsActing (action_of command) (held document.old)
        (written O.contents O.has_failed output.old output.new)) }
{
    match command {
        Command::Print => print(alloc, document, output),
        Command::Get(path) => get(alloc, document, path.as_slice(), output),
        Command::Set(mut path, value) => set(alloc, document, path.as_mut_slice(), value, output),
        Command::Remove(path) => remove(alloc, document, path.as_slice(), output),
    }
}

/// Prints the document.
fn print<O: Output>(alloc: Global, document: &DocumentMut, output: &mut O) -> Step<()>
    requires { O.has_failed output.old ≡ false }
    ensures wrote { OnOk result (Wrote printing (held document.now)
        (written O.contents O.has_failed output.old output.new)) }
    ensures ok { OnOk result (O.has_failed output.new ≡ false) }
    ensures err { IfErr result (StopsActing printing (held document.now)
        (written O.contents O.has_failed output.old output.new)) }
{
    match document.print_to(alloc, output) {
        Ok(()) => Ok(()),
        Err(PrintFault::Memory) => Err(RunError::Memory),
        Err(PrintFault::Device) => Err(RunError::WriteFailed),
    }
}

/// Puts the value at the path, and writes the document. A missing key gets its default spelling, as
/// PATH may be spelled as TOML 1.0 does not allow.
fn set<O: Output>(
    alloc: Global,
    document: &mut DocumentMut,
    path: &mut [Key],
    value: Value,
    output: &mut O,
) -> Step<()>
    requires { O.has_failed output.old ≡ false }
    ensures wrote { OnOk result (Wrote (setting (names path.old) (value_view value))
        (held document.old) (written O.contents O.has_failed output.old output.new)) }
    ensures ok { OnOk result (O.has_failed output.new ≡ false) }
    ensures err { IfErr result (StopsActing (setting (names path.old) (value_view value))
        (held document.old) (written O.contents O.has_failed output.old output.new)) }
{
    match put(document, path, value) {
        Ok(()) => write_fitting(alloc, document, output),
        Err(fault) => Err(error_of(fault)),
    }
}

/// Puts the value at the path, whose keys get their default spelling.
fn put(document: &mut DocumentMut, path: &mut [Key], value: Value) -> Result<(), ChangeFault>
    ensures changes { Changes (set_names (names path.old) (value_view value)
        (tree_owned document.old)) (tree_owned document.old) (tree_owned document.new) result }
    ensures printed { IsPrintedAs document.new document.old }
{
    reset_keys(path);
    document.set_at(path, value)
}

/// Removes the item at the path, and writes the document.
fn remove<O: Output>(
    alloc: Global,
    document: &mut DocumentMut,
    path: &[Key],
    output: &mut O,
) -> Step<()>
    requires { O.has_failed output.old ≡ false }
    ensures wrote { OnOk result (Wrote (removing (names path.now)) (held document.old)
        (written O.contents O.has_failed output.old output.new)) }
    ensures ok { OnOk result (O.has_failed output.new ≡ false) }
    ensures err { IfErr result (StopsActing (removing (names path.now)) (held document.old)
        (written O.contents O.has_failed output.old output.new)) }
{
    match document.remove_at(path) {
        Ok(()) => write_fitting(alloc, document, output),
        Err(fault) => Err(error_of(fault)),
    }
}

/// Returns the error after a change that is not made.
fn error_of(fault: ChangeFault) -> RunError
    ensures { result ≡ error_for fault }
{
    match fault {
        ChangeFault::NoSuchPath => RunError::Mistaken(CommandError::NoSuchPath),
        ChangeFault::WrongKind => RunError::Mistaken(CommandError::WrongKind),
        ChangeFault::Memory => RunError::Memory,
    }
}

/// Prints the document, if it fits.
fn write_fitting<O: Output>(alloc: Global, document: &DocumentMut, output: &mut O) -> Step<()>
    requires { O.has_failed output.old ≡ false }
    ensures wrote { OnOk result (HasPrinted (held document.now)
        (written O.contents O.has_failed output.old output.new)) }
    ensures ok { OnOk result (O.has_failed output.new ≡ false) }
    ensures err { IfErr result (StopsPrinting (held document.now)
        (written O.contents O.has_failed output.old output.new)) }
{
    match document.fits(alloc) {
        Ok(true) => print(alloc, document, output),
        Ok(false) => Err(RunError::Mistaken(CommandError::Unfit)),
        Err(_) => Err(RunError::Memory),
    }
}

/// Writes the text of the item at the path.
fn get<O: Output>(alloc: Global, document: &DocumentMut, path: &[Key], output: &mut O) -> Step<()>
    requires { O.has_failed output.old ≡ false }
    ensures wrote { OnOk result (Wrote (getting (names path.now)) (held document.now)
        (written O.contents O.has_failed output.old output.new)) }
    ensures ok { OnOk result (O.has_failed output.new ≡ false) }
    ensures err { IfErr result (StopsActing (getting (names path.now)) (held document.now)
        (written O.contents O.has_failed output.old output.new)) }
{
    let Some(item) = document.get_at(path) else {
        return Err(RunError::Mistaken(CommandError::NoSuchPath));
    };
    write_item(alloc, item, output)
}

/// Writes the text of an item: a value without the decor around it, or an array of tables, and a
/// newline; or the lines of a table.
fn write_item<O: Output>(alloc: Global, item: &Item, output: &mut O) -> Step<()>
    requires { O.has_failed output.old ≡ false }
    ensures wrote { OnOk result (Appends (O.contents output.old) (O.contents output.new)
        (commands.shown_item (item_view item.now))) }
    ensures ok { OnOk result (O.has_failed output.new ≡ false) }
    ensures err { IfErr result (StopsWriting (commands.shown_item (item_view item.now))
        (written O.contents O.has_failed output.old output.new)) }
{
    match item {
        Item::None => Ok(()),
        Item::Value(value) => write_printed(&Line(&Bare(value)), output),
        Item::Table(table) => write_printed(table, output),
        Item::ArrayOfTables(tables) => write_tables(alloc, tables, output),
    }
}

/// Writes an array of tables as the array of inline tables that a copy of it becomes, and a
/// newline.
fn write_tables<O: Output>(alloc: Global, tables: &ArrayOfTables, output: &mut O) -> Step<()>
    requires { O.has_failed output.old ≡ false }
    ensures wrote { OnOk result (Appends (O.contents output.old) (O.contents output.new)
        (commands.shown_item (tables_node (tables_view tables.now)))) }
    ensures ok { OnOk result (O.has_failed output.new ≡ false) }
    ensures err { IfErr result (StopsWriting (commands.shown_item (tables_node
        (tables_view tables.now))) (written O.contents O.has_failed output.old output.new)) }
{
    let Ok(copy) = tables.clone(alloc) else {
        return Err(RunError::Memory);
    };
    let array = copy.into_array();
    let done = write_printed(&Line(&array), output);
    drop(array);
    done
}

fn write_printed<T: Printed, O: Output>(printed: &T, output: &mut O) -> Step<()>
    requires { O.has_failed output.old ≡ false }
    ensures wrote { OnOk result
        (Appends (O.contents output.old) (O.contents output.new) (T.text printed.now)) }
    ensures ok { OnOk result (O.has_failed output.new ≡ false) }
    ensures err { IfErr result (StopsWriting (T.text printed.now)
        (written O.contents O.has_failed output.old output.new)) }
{
    match print_to(output, printed) {
        Ok(()) => Ok(()),
        Err(_) => Err(RunError::WriteFailed),
    }
}

/// What is printed, with a newline after it.
#[derive(Drop)]
struct Line<'a, T>(&'a T);

impl<T: Printed> Printed for Line<'_, T> {
    ghost text = { λ line. T.text line.0.now ++ newline };

    #[tactic(auto, using(toml_edit_io::proofs::Puts::put_steps))]
    fn put_into<S: Sink>(&self, out: &mut S) {
        self.0.put_into(out);
        out.put("\n")
    }
}
