//! What a caller gives: flags, words, paths, values and texts.
ghost use Rattle.std.specs.Prelude.{◌≡◌, IfErr, IfOk, None, Some, map};
ghost use Rattle.toml_edit_c.specs.Asks.{options_by};
ghost use Rattle.toml_edit_c.specs.Made.{MayStopPath, MayStopReading, MayStopValue};
ghost use Rattle.toml_edit_c.specs.Split.{words_in};
ghost use Rattle.toml_edit_c.specs.declared.answer.Stop.TheVariants.{Flags};
ghost use Rattle.toml_edit_command.specs.Written.{IsHeldOf, held};
ghost use Rattle.toml_edit_model.specs.Keys.{names};
ghost use Rattle.toml_edit_parser.specs.Options.{mode_of, version_of};
ghost use Rattle.toml_edit_tree.specs.View.{value_view};
ghost use Rattle.toml_edit_words.specs.Spelled.{SpellsPath, SpellsValue};

use crate::answer::Stop;
use std::alloc::{AllocError, Global};
use std::str;
use toml_edit::{DocumentMut, Key, ParseFault, ParseOptions, Value, Version};
use toml_edit_command::read_document;
use toml_edit_io::Watched;
use toml_edit_words::{path_in, value_in};

/// Returns the options that the flags stand for: 1 keeps line endings, 2 is TOML 1.0, and 3 both.
pub fn options_of(flags: u32) -> Result<ParseOptions, Stop>
    ensures valid { IfOk result
        (λ options. options_by flags ≡ Some (mode_of options, version_of options)) }
    ensures stops { IfErr result (λ stop. (stop ≡ Flags) × (options_by flags ≡ None)) }
{
    let options = ParseOptions::new();
    match flags {
        0 => Ok(options),
        1 => Ok(options.exact(true)),
        2 => Ok(options.version(Version::V1_0)),
        3 => Ok(options.exact(true).version(Version::V1_0)),
        _ => Err(Stop::Flags),
    }
}

/// Returns the words of a text, each of which ends at a zero byte or at the end of the text.
pub fn split(alloc: Global, text: &str) -> Result<Vec<&str>, AllocError>
    ensures { IfOk result (λ words. map (λ w. w.now) words.items ≡ words_in text.now) }
{
    let mut words = Vec::new(alloc);
    let mut rest = text;
    while let Some((word, after)) = rest.split_once('\0') {
        words.push(word)?;
        rest = after;
    }
    if !rest.is_empty() {
        words.push(rest)?;
    }
    Ok(words)
}

/// Parses a path.
pub fn path_of(alloc: Global, path: &[u8]) -> Result<Vec<Key>, Stop>
    ensures spelled { IfOk result (λ keys. SpellsPath path.now (names keys.items)) }
    ensures stops { IfErr result (MayStopPath path.now) }
{
    let Ok(text) = str::from_utf8(path) else {
        return Err(Stop::Path);
    };
    match path_in(alloc, text) {
        Ok(keys) => Ok(keys),
        Err(ParseFault::Toml(_)) => Err(Stop::Path),
        Err(ParseFault::Memory) => Err(Stop::Memory),
    }
}

/// Parses a value by these options.
pub fn value_of(alloc: Global, value: &[u8], options: ParseOptions) -> Result<Value, Stop>
    ensures spelled { IfOk result
        (λ read. SpellsValue (version_of options) value.now (value_view read)) }
    ensures stops { IfErr result (MayStopValue (version_of options) value.now) }
{
    let Ok(text) = str::from_utf8(value) else {
        return Err(Stop::Value);
    };
    match value_in(alloc, text, options) {
        Ok(value) => Ok(value),
        Err(ParseFault::Toml(_)) => Err(Stop::Value),
        Err(ParseFault::Memory) => Err(Stop::Memory),
    }
}

/// Parses a text by these options.
pub fn read(alloc: Global, text: &[u8], options: ParseOptions) -> Result<DocumentMut, Stop>
    ensures read { IfOk result
        (λ m. IsHeldOf (mode_of options) (version_of options) text.now (held m)) }
    ensures stops { IfErr result (MayStopReading (version_of options) text.now) }
{
    Ok(read_document(alloc, &mut Watched::new(text), options)?)
}
