//! The texts that calls give, each of a text and its words.
ghost use Rattle.std.specs.Prelude.{◌≡◌, IfErr, IfOk, string_bytes};
ghost use Rattle.toml_edit.specs.DocumentView.{tree_owned};
ghost use Rattle.toml_edit_c.specs.Asks.{ask, asked_by, words_of};
ghost use Rattle.toml_edit_c.specs.Formats.{IsFormattedBy};
ghost use Rattle.toml_edit_c.specs.Items.{IsItemAt, IsJsonBy, StopsItem, StopsItemBy};
ghost use Rattle.toml_edit_c.specs.Made.{IsMadeBy, StopsCall, StopsInWords, StopsPrinting, StopsReadingBy};
ghost use Rattle.toml_edit_c.specs.Scripts.{IsEdited, IsEditedBy, StopsEditBy, StopsEditing, StopsScript, stop_of_edit, stop_of_word};
ghost use Rattle.toml_edit_c.specs.Split.{words_in};
ghost use Rattle.toml_edit_c.specs.declared.answer.Stop.TheVariants.{Memory};
ghost use Rattle.toml_edit_command.specs.Steps.{action_of};
ghost use Rattle.toml_edit_command.specs.Words.{Says};
ghost use Rattle.toml_edit_command.specs.Written.{held, IsPrintFor};
ghost use Rattle.toml_edit_edits.specs.Said.{SaysEdits};
ghost use Rattle.toml_edit_json.specs.Values.{json_text};
ghost use Rattle.toml_edit_parser.specs.Options.{version_of};
ghost use Rattle.toml_edit_tree.specs.View.{item_view};

use crate::answer::{EditStop, Stop};
use crate::given::{options_of, path_of, read, split, value_of};
use crate::run::Held;
use std::alloc::Global;
use std::str;
use toml_edit::{DocumentMut, Item, ParseOptions};
use toml_edit_command::{Command, Ending, perform};
use toml_edit_edits::{Edit, EditFault, WordFault, apply, edits_of};
use toml_edit_fmt::{Rules, format_text};
use toml_edit_io::{Watched, print};
use toml_edit_json::Json;

/// What a call does with its text.
#[derive(Clone, Copy)]
pub enum Call<'a> {
    Print,
    /// Gets the item at a path.
    Get(&'a [u8]),
    /// Puts a value at a path.
    Set(&'a [u8], &'a [u8]),
    /// Removes the item at a path.
    Remove(&'a [u8]),
}

/// Returns the text that the call makes.
pub fn make(alloc: Global, flags: u32, call: Call<'_>, text: &[u8]) -> Result<Vec<u8>, Stop>
    ensures made { IfOk result (λ s. IsMadeBy (ask flags (words_of call.entry)) text.now s.items) }
    ensures stops { IfErr result (StopsCall (ask flags (words_of call.entry)) text.now) }
{
    let options = options_of(flags)?;
    let command = command_of(alloc, options, call)?;
    let (mut input, mut out) = (Watched::new(text), Held::new(alloc));
    perform(alloc, Ending::Call, command, options, &mut input, &mut out)?;
    Ok(out.bytes)
}

/// Returns the command that the call stands for.
fn command_of(alloc: Global, options: ParseOptions, call: Call<'_>) -> Result<Command, Stop>
    ensures said { IfOk result
        (λ command. Says (asked_by options (words_of call.entry)) (action_of command)) }
    ensures stops { IfErr result (StopsInWords (asked_by options (words_of call.entry))) }
{
    match call {
        Call::Print => Ok(Command::Print),
        Call::Get(path) => Ok(Command::Get(path_of(alloc, path)?)),
        Call::Set(path, value) => {
            let path = path_of(alloc, path)?;
            Ok(Command::Set(path, value_of(alloc, value, options)?))
        }
        Call::Remove(path) => Ok(Command::Remove(path_of(alloc, path)?)),
    }
}

/// Returns the JSON text of the item at the path.
pub fn json(alloc: Global, flags: u32, text: &[u8], path: &[u8]) -> Result<Vec<u8>, Stop>
    ensures made { IfOk result (λ s. IsJsonBy flags text.now path.now s.items) }
    ensures stops { IfErr result (StopsItemBy flags text.now path.now) }
{
    let document = read(alloc, text, options_of(flags)?)?;
    json_of(alloc, item_at(alloc, &document, path)?)
}

/// Returns the item at the path in the document; the empty path leads to the root.
pub fn item_at<'d>(alloc: Global, document: &'d DocumentMut, path: &[u8]) -> Result<&'d Item, Stop>
    ensures found { IfOk result
        (λ item. IsItemAt path.now (held document.now).tree (item_view item.now)) }
    ensures stops { IfErr result (StopsItem path.now (held document.now).tree) }
{
    if path.is_empty() {
        return Ok(document.as_item());
    }
    let keys = path_of(alloc, path)?;
    document.get_at(keys.as_slice()).ok_or(Stop::NoSuchPath)
}

/// Returns the JSON text of the item.
fn json_of(alloc: Global, item: &Item) -> Result<Vec<u8>, Stop>
    ensures text { IfOk result (λ s. s.items ≡ json_text (item_view item.now)) }
    ensures stops { IfErr result (λ stop. stop ≡ Memory) }
{
    let text = print(alloc, &Json(item)).map_err(|_| Stop::Memory)?;
    Ok(text.into_bytes())
}

/// Returns the text, formatted by the default rules.
pub fn format(alloc: Global, flags: u32, text: &[u8]) -> Result<Vec<u8>, Stop>
    ensures made { IfOk result (λ s. IsFormattedBy flags text.now s.items) }
    ensures stops { IfErr result (StopsReadingBy flags text.now) }
{
    let document = read(alloc, text, options_of(flags)?)?;
    let rules = Rules::for_text(text, document.is_exact());
    let text = document.print(alloc).map_err(|_| Stop::Memory)?;
    // It is in the grammar.
    let formatted = format_text(alloc, text.as_str(), &rules).map_err(|_| Stop::Memory)?;
    Ok(formatted.into_bytes())
}

/// Returns the text with the edits of the script.
pub fn edit(alloc: Global, flags: u32, text: &[u8], script: &[u8]) -> Result<Vec<u8>, EditStop>
    ensures made { IfOk result (λ s. IsEditedBy flags text.now script.now s.items) }
    ensures stops { IfErr result (StopsEditBy flags text.now script.now) }
{
    let options = options_of(flags)?;
    let edits = edits_in(alloc, options, script)?;
    let mut document = read(alloc, text, options)?;
    edited(alloc, &mut document, edits.as_slice())
}

/// Reads the edits of the script.
fn edits_in(alloc: Global, options: ParseOptions, script: &[u8]) -> Result<Vec<Edit>, EditStop>
    ensures said { IfOk result
        (λ edits. SaysEdits (version_of options) (words_in script.now) edits.items) }
    ensures stops { IfErr result (StopsScript (version_of options) script.now) }
{
    let Ok(script) = str::from_utf8(script) else {
        return Err(EditStop::from(Stop::Script));
    };
    let words = split(alloc, script).map_err(|_| Stop::Memory)?;
    match edits_of(alloc, options, words.as_slice()) {
        Ok(edits) => Ok(edits),
        Err(refused) => { Err(EditStop::of_edit(stop_of_word(&refused.fault), refused.number)) }
    }
}

/// Returns why a call stops of which words are no edit.
fn stop_of_word(fault: &WordFault) -> Stop
    ensures { result ≡ stop_of_word fault.now }
{
    match fault {
        WordFault::Name | WordFault::Operands(_) => Stop::Script,
        WordFault::Path(_) | WordFault::To(_) | WordFault::Key(_) => Stop::Path,
        WordFault::Value(_) => Stop::Value,
        WordFault::Memory => Stop::Memory,
    }
}

/// Makes the edits, and returns the text of the document.
fn edited(alloc: Global, document: &mut DocumentMut, edits: &[Edit]) -> Result<Vec<u8>, EditStop>
    ensures made { IfOk result (λ s. IsEdited edits.now (held document.old) s.items) }
    ensures stops { IfErr result (StopsEditing edits.now (held document.old)) }
{
    match apply(alloc, document, edits) {
        Ok(()) => Ok(print_fitting(alloc, document)?.into_bytes()),
        Err(refused) => Err(EditStop::of_edit(stop_of_edit(refused.fault), refused.at + 1)),
    }
}

/// Prints the document, if it fits.
fn print_fitting(alloc: Global, document: &DocumentMut) -> Result<String, Stop>
    ensures text { IfOk result
        (λ s. IsPrintFor (held document.now) (tree_owned document.now) (string_bytes s)) }
    ensures stops { IfErr result (StopsPrinting (held document.now)) }
{
    if !document.fits(alloc).map_err(|_| Stop::Memory)? {
        return Err(Stop::Unfit);
    }
    document.print(alloc).map_err(|_| Stop::Memory)
}

/// Returns why a call stops that cannot make an edit.
fn stop_of_edit(fault: EditFault) -> Stop
    ensures { result ≡ stop_of_edit fault }
{
    match fault {
        EditFault::NoSuchPath => Stop::NoSuchPath,
        EditFault::WrongKind => Stop::WrongKind,
        EditFault::NoSuchElement => Stop::NoSuchElement,
        EditFault::Taken => Stop::Taken,
        EditFault::BadComment => Stop::Comment,
        EditFault::Memory => Stop::Memory,
    }
}
