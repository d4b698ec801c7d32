//! The words of a process, of a script or of a call, and the paths and values in them.
#![tactic(auto)]

ghost use Rattle.std.specs.Prelude.{◌≡◌, IfErr, IfOk, List};
ghost use Rattle.toml_edit_error.specs.Fault.{IfToml};
ghost use Rattle.toml_edit_model.specs.Keys.{names};
ghost use Rattle.toml_edit_model.specs.Text.{Text};
ghost use Rattle.toml_edit_parser.specs.Options.{version_of};
ghost use Rattle.toml_edit_tree.specs.View.{value_view};
ghost use Rattle.toml_edit_words.specs.Spelled.{IsNoPath, IsNoValue, SpellsPath, SpellsValue};

mod args;

pub use args::{ArgumentFault, arguments};
use std::alloc::Global;
use toml_edit::{FromStrWith, Key, ParseFault, ParseOptions, ParsePath, Value};

/// Parses a path of keys.
///
/// # Errors
///
/// Returns `ParseFault::Toml` if the word is not a path, and `ParseFault::Memory` if out of memory.
pub fn path_in(alloc: Global, word: &str) -> Result<Vec<Key>, ParseFault>
    ensures spelled { IfOk result (λ keys. SpellsPath word.now (names keys.items)) }
    ensures only { (path : List Text) → SpellsPath word.now path
        → IfOk result (λ keys. names keys.items ≡ path) }
    ensures refused { IfErr result (λ fault. IfToml fault (λ _. IsNoPath word.now)) }
{
    Key::parse(alloc, word)
}

/// Parses a value by these options.
///
/// # Errors
///
/// Returns `ParseFault::Toml` if the word is not a value, and `ParseFault::Memory` if out of
/// memory.
pub fn value_in(alloc: Global, word: &str, options: ParseOptions) -> Result<Value, ParseFault>
    ensures spelled { IfOk result
        (λ value. SpellsValue (version_of options) word.now (value_view value)) }
    ensures refused { IfErr result
        (λ fault. IfToml fault (λ _. IsNoValue (version_of options) word.now)) }
{
    <Value as FromStrWith>::from_str_with(alloc, word, options)
}
