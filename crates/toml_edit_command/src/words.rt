//! Reading the words of a command.
ghost use Rattle.std.specs.Prelude.{◌≡◌, IfErr, IfOk, map, if◌then◌else◌, string_bytes};
ghost use Rattle.toml_edit_model.specs.Mode as model;
ghost use Rattle.toml_edit_model.specs.Keys.{names};
ghost use Rattle.toml_edit_command.specs.Steps.{StopsInWords, action_of};
ghost use Rattle.toml_edit_command.specs.Words.{Says, asked_in, request};
ghost use Rattle.toml_edit_words.specs.Spelled.{SpellsPath, SpellsValue};
ghost use Rattle.toml_edit_command.specs.Forms.{IsForm, MayStopPath, MayStopValue, request_by};
ghost use Rattle.toml_edit_parser.specs.Options.{mode_of, version_of};
ghost use Rattle.toml_edit_tree.specs.View.{value_view};

use crate::error::{CommandError, RunError, Step};
use std::alloc::Global;
use toml_edit::{Key, ParseFault, ParseOptions, Value, Version};
use toml_edit_words::{path_in, value_in};

/// What is done to the document that is read.
#[derive(Drop)]
pub enum Command {
    Print,
    Get(Vec<Key>),
    Set(Vec<Key>, Value),
    Remove(Vec<Key>),
}

/// The words of a command by its name.
#[derive(Clone, Copy)]
enum CommandForm<'a> {
    Print,
    Get(&'a str),
    Set(&'a str, &'a str),
    Remove(&'a str),
}

impl Command {
    /// Reads the command that the words say, and how it parses its input.
    pub fn of_words(alloc: Global, words: &[String]) -> Step<(Command, ParseOptions)>
        ensures said { IfOk result (λ r. Says (request words.now) (action_of r.0)) }
        ensures mode { IfOk result (λ r. mode_of r.1 ≡ (request words.now).mode) }
        ensures version { IfOk result (λ r. version_of r.1 ≡ (request words.now).version) }
        ensures stops { IfErr result (StopsInWords (request words.now)) }
    {
        let (options, words) = options_of(words);
        match Command::read_by(alloc, words, options) {
            Ok(command) => Ok((command, options)),
            Err(error) => Err(error),
        }
    }

    /// Reads the command that the words say, with VALUE parsed by these options.
    fn read_by(alloc: Global, words: &[String], options: ParseOptions) -> Step<Command>
        ensures said { IfOk result
            (λ command. Says (request_by options words.now) (action_of command)) }
        ensures stops { IfErr result (StopsInWords (request_by options words.now)) }
    {
        match form_of(words) {
            Some(CommandForm::Print) => Ok(Command::Print),
            Some(CommandForm::Get(path)) => Ok(Command::Get(path_of(alloc, path)?)),
            Some(CommandForm::Set(path, value)) => {
                let path = path_of(alloc, path)?;
                Ok(Command::Set(path, value_of(alloc, value, options)?))
            }
            Some(CommandForm::Remove(path)) => Ok(Command::Remove(path_of(alloc, path)?)),
            None => Err(RunError::Mistaken(CommandError::Words)),
        }
    }
}

/// Splits off the words `exact` and `strict`, as options of parsing.
fn options_of(words: &[String]) -> (ParseOptions, &[String])
    ensures { request_by result.0 result.1.now ≡ request words.now }
{
    match words {
        [first, rest @ ..] if first.as_str() == "exact" => options_in(true, rest),
        _ => options_in(false, words),
    }
}

/// Splits off the word `strict`, of words that follow `exact` or do not.
fn options_in(exact: bool, words: &[String]) -> (ParseOptions, &[String])
    ensures { request_by result.0 result.1.now
        ≡ asked_in (if exact then model.exact else model.plain) (map string_bytes words.now) }
{
    let options = ParseOptions::new().exact(exact);
    match words {
        [first, rest @ ..] if first.as_str() == "strict" => {
            (options.version(Version::V1_0), rest)
        }
        _ => (options, words),
    }
}

/// Returns the words by the command's name, if they are a command.
fn form_of(words: &[String]) -> Option<CommandForm<'_>>
    ensures { IsForm (map string_bytes words.now) result }
{
    match words {
        [name] if name.as_str() == "print" => Some(CommandForm::Print),
        [name, path] if name.as_str() == "get" => Some(CommandForm::Get(path.as_str())),
        [name, path] if name.as_str() == "remove" => Some(CommandForm::Remove(path.as_str())),
        [name, path, value] if name.as_str() == "set" => {
            Some(CommandForm::Set(path.as_str(), value.as_str()))
        }
        _ => None,
    }
}

fn path_of(alloc: Global, text: &str) -> Step<Vec<Key>>
    ensures spelled { IfOk result (λ keys. SpellsPath text.now (names keys.items)) }
    ensures stops { IfErr result (MayStopPath text.now) }
{
    match path_in(alloc, text) {
        Ok(keys) => Ok(keys),
        Err(ParseFault::Toml(_)) => Err(RunError::Mistaken(CommandError::Path)),
        Err(ParseFault::Memory) => Err(RunError::Memory),
    }
}

fn value_of(alloc: Global, text: &str, options: ParseOptions) -> Step<Value>
    ensures spelled { IfOk result
        (λ value. SpellsValue (version_of options) text.now (value_view value)) }
    ensures stops { IfErr result (MayStopValue (version_of options) text.now) }
{
    match value_in(alloc, text, options) {
        Ok(value) => Ok(value),
        Err(ParseFault::Toml(_)) => Err(RunError::Mistaken(CommandError::Value)),
        Err(ParseFault::Memory) => Err(RunError::Memory),
    }
}
