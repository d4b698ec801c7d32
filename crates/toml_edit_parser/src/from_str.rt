//! Parsing a text that is one value.
ghost use Rattle.std.specs.Prelude.{◌≡◌, ◌⊎◌, List, [], true, false, length, IfOk, IfErr, IsOk, IsErrOf, OnOk};
ghost use Rattle.toml_edit_model.specs.Syntax as syntax;
ghost use Rattle.toml_edit_model.specs.Version.{is_value_of};
ghost use Rattle.toml_edit_model.specs.Lone.{IsLoneValue, is_accepted_value, is_accepted_value_in};
ghost use Rattle.toml_edit_error.specs.Fault.{IfToml};
ghost use Rattle.toml_edit_syntax.specs.LoneEvents.{AreLoneEvents};
ghost use Rattle.toml_edit_syntax.specs.ValueEvents.{are_deep};
ghost use Rattle.toml_edit_parser.specs.LoneValue.{IsLoneItemReading, IsLoneReading, IsLoneReadingIn, IsLoneRefusal, IsLoneRefusalIn, ReadsLone, ReadsLoneItem, ReadsLoneWith};
ghost use Rattle.toml_edit_parser.specs.Options.{version_of};
ghost use Rattle.toml_edit_parser.specs.ValueRead.{AreIn, IsRead};
ghost use Rattle.toml_edit_tree.specs.View.{item_view, value_view};
ghost use Rattle.toml_edit_syntax.specs.Grammar.{grammar};
ghost use Rattle.toml_edit_model.specs.OwnedForm.{NodeFits};

use crate::events::are_cut_short;
use crate::fault::{Fault, refusal, refusal_of_all, refusal_with};
use crate::options::ParseOptions;
use crate::reader::{Reader, is_short};
use crate::value::read_value;
use std::alloc::Global;
use toml_edit_error::ParseFault;
use toml_edit_repr::Mode;
use toml_edit_syntax::{Event, SyntaxFault, Version, late_part_of_value, lone_events};
use toml_edit_text::SharedText;
use toml_edit_tree::{Item, Value};

/// A type that can be parsed from a text that holds one value of it.
///
/// It is in the place of std's trait of this name, and has to be imported: it takes an allocator,
/// and is implemented for [`Value`], [`Item`] and `Key`.
///
/// # Examples
///
/// ```rust,ignore
/// let item = Item::from_str(alloc, text)?;
/// drop(table.insert(key, item).map_err(no_memory)?);
/// ```
///
/// From `set_spelled` of the crate `example_calls`.
pub trait FromStr: Sized {
    ghost use Rattle.std.specs.Prelude.{List, ℕ, Result};
    ghost use Rattle.toml_edit_error.specs.declared.toml_error.ParseFault.{ParseFault};

    /// What parsing a text may return.
    ghost answers: { List ℕ → Result Self ParseFault → Type 0 };

    /// Parses a text that holds one value, with nothing but whitespace around it, or one key, with
    /// nothing around it.
    ///
    /// # Errors
    ///
    /// Returns [`ParseFault::Toml`] if the text is refused, with a span in bytes in most cases, and
    /// [`ParseFault::Memory`] if out of memory.
    fn from_str(alloc: Global, text: &str) -> Result<Self, ParseFault>
        ensures { answers text.now result };
}

/// A type that can be parsed from a text that holds one value of it, in a version of TOML. It is
/// implemented for [`Value`].
///
/// # Examples
///
/// ```rust,ignore
/// Value::from_str_with(alloc, text, ParseOptions::new().version(Version::V1_0))
/// ```
///
/// From `read_value` of the crate `example_calls`.
pub trait FromStrWith: Sized {
    ghost use Rattle.std.specs.Prelude.{List, ℕ, Result};
    ghost use Rattle.toml_edit_error.specs.declared.toml_error.ParseFault.{ParseFault};
    ghost use Rattle.toml_edit_parser.specs.declared.options.ParseOptions.{ParseOptions};

    /// What parsing a text by these options may return.
    ghost answers_with: { ParseOptions → List ℕ → Result Self ParseFault → Type 0 };

    /// Parses a text that holds one value, with nothing but whitespace around it, in the version of
    /// the options.
    ///
    /// # Errors
    ///
    /// As [`FromStr::from_str`]. What the version lacks is refused too (`needs TOML 1.1`).
    fn from_str_with(alloc: Global, text: &str, options: ParseOptions) -> Result<Self, ParseFault>
        ensures { answers_with options text.now result };
}

/// Parses a lone value, such as `[1, 2]`.
impl FromStr for Value {
    ghost answers = { ReadsLone };

    /// Parses a lone value. It owns its texts, keeps their spellings, and its own decor is unset:
    /// whitespace around it is dropped.
    ///
    /// # Errors
    ///
    /// Returns `ParseFault::Toml` if the text is not a value, or one with a fault: an integer that
    /// 64 bits do not hold (`integer number overflowed`), a date, a time or an offset that does not
    /// exist (`invalid date-time`), a key that an inline table has twice or cannot extend
    /// (`duplicate key`, `cannot extend ..`), more than 80 brackets open at once or keys in a path
    /// (`recursion limit`). Returns `ParseFault::Memory` if out of memory.
    fn from_str(alloc: Global, text: &str) -> Result<Value, ParseFault>
        ensures read { IfOk result (λ v. IsLoneReading text.now (value_view v)) }
        // An accepted value is never refused.
        ensures every { (v : syntax.Value) → IsLoneValue text.now v → is_accepted_value v ≡ true
            → IsOk result ⊎ IsErrOf result ParseFault.Memory }
        ensures refused { IfErr result (λ e. IfToml e (IsLoneRefusal text.now)) }
    {
        read_lone_text(alloc, text, Version::V1_1)
    }
}

/// Parses a lone value in a version of TOML.
impl FromStrWith for Value {
    ghost answers_with = { ReadsLoneWith };

    /// Parses a lone value as [`FromStr`] does, in the version of the options. Whether they keep
    /// line endings has no effect: that is a setting of documents.
    ///
    /// # Errors
    ///
    /// As [`FromStr`]. In TOML 1.0 it also refuses an escape `\e` or `\xHH`, a time without
    /// seconds, and in an inline table a newline, a comment or a comma after the last pair (`needs
    /// TOML 1.1`).
    fn from_str_with(alloc: Global, text: &str, options: ParseOptions) -> Result<Value, ParseFault>
        ensures read { IfOk result
            (λ v. IsLoneReadingIn (version_of options) text.now (value_view v)) }
        // An accepted value is never refused.
        ensures every { (v : syntax.Value) → IsLoneValue text.now v
            → is_accepted_value_in (version_of options) v ≡ true
            → IsOk result ⊎ IsErrOf result ParseFault.Memory }
        ensures refused { IfErr result
            (λ e. IfToml e (IsLoneRefusalIn (version_of options) text.now)) }
    {
        read_lone_text(alloc, text, options.get_version())
    }
}

/// Parses a lone value as an item.
impl FromStr for Item {
    ghost answers = { ReadsLoneItem };

    /// Parses a lone value, as [`Value`] does, and returns it as an item.
    fn from_str(alloc: Global, text: &str) -> Result<Item, ParseFault>
        ensures read { IfOk result (λ x. IsLoneItemReading text.now (item_view x)) }
        // An accepted value is never refused.
        ensures every { (v : syntax.Value) → IsLoneValue text.now v → is_accepted_value v ≡ true
            → IsOk result ⊎ IsErrOf result ParseFault.Memory }
        ensures refused { IfErr result (λ e. IfToml e (IsLoneRefusal text.now)) }
    {
        match <Value as FromStr>::from_str(alloc, text) {
            Ok(value) => Ok(Item::Value(value)),
            Err(fault) => Err(fault),
        }
    }
}

/// Parses the value that the text is but for whitespace around it, in this version of TOML.
fn read_lone_text(alloc: Global, text: &str, version: Version) -> Result<Value, ParseFault>
    ensures read { IfOk result (λ v. IsLoneReadingIn (grammar version) text.now (value_view v)) }
    ensures every { (v : syntax.Value) → IsLoneValue text.now v
        → is_accepted_value_in (grammar version) v ≡ true
        → IsOk result ⊎ IsErrOf result ParseFault.Memory }
    ensures refused { IfErr result (λ e. IfToml e (IsLoneRefusalIn (grammar version) text.now)) }
{
    if !is_short(text) {
        return Err(ParseFault::Memory);
    }
    let reader = Reader {
        alloc,
        source: text,
        version,
        mode: Mode::Plain,
    };
    match lone_events(alloc, text) {
        Ok(events) => {
            refuse_late(&reader, events.as_slice())?;
            read_lone(&reader, events.as_slice())
        }
        Err(SyntaxFault::Memory) => Err(ParseFault::Memory),
        Err(SyntaxFault::Text(mistake, span)) => {
            Err(refusal_with(&reader, mistake.message(), span))
        }
    }
}

/// Refuses a lone value with a part that the version lacks, by its events.
fn refuse_late(reader: &Reader<'_>, events: &[Event]) -> Result<(), ParseFault>
    requires cut { AreLoneEvents reader.now.source.now events.now }
    requires spans { AreIn reader.now.source.now events.now }
    ensures passed { (v : syntax.Value) → IsLoneValue reader.now.source.now v
        → are_deep events.now ≡ false → IsOk result
        → is_value_of (grammar reader.now.version) v ≡ true }
    ensures every { (v : syntax.Value) → IsLoneValue reader.now.source.now v
        → is_value_of (grammar reader.now.version) v ≡ true
        → IsOk result ⊎ IsErrOf result ParseFault.Memory }
    ensures refused { IfErr result (λ e. IfToml e
        (IsLoneRefusalIn (grammar reader.now.version) reader.now.source.now)) }
{
    match reader.version {
        Version::V1_0 => match late_part_of_value(reader.source, events) {
            Some(span) => Err(refusal(reader, Fault::NeedsLaterVersion, span)),
            None => Ok(()),
        },
        Version::V1_1 => Ok(()),
    }
}

/// Reads the value that the text is but for whitespace around it, from its events.
fn read_lone(reader: &Reader<'_>, events: &[Event]) -> Result<Value, ParseFault>
    requires cut { AreLoneEvents reader.now.source.now events.now }
    requires spans { AreIn reader.now.source.now events.now }
    ensures read { IfOk result (λ v. IsLoneReading reader.now.source.now (value_view v)) }
    ensures every { (v : syntax.Value) → IsLoneValue reader.now.source.now v
        → is_accepted_value v ≡ true → IsOk result ⊎ IsErrOf result ParseFault.Memory }
    ensures refused { IfErr result (λ e. IfToml e (IsLoneRefusal reader.now.source.now)) }
{
    let (mut value, _rest) = read_value(reader, events)?;
    match end_lone(reader, events, &mut value) {
        Ok(()) => Ok(value),
        Err(fault) => {
            drop(value);
            Err(fault)
        }
    }
}

/// Makes a value that was read from these events own its texts, and unsets its decor.
fn end_lone(reader: &Reader<'_>, events: &[Event], value: &mut Value) -> Result<(), ParseFault>
    requires cut { AreLoneEvents reader.now.source.now events.now }
    requires read { (rest : List Event)
        × ((v : syntax.Value) (lone : IsLoneValue reader.now.source.now v)
        → IsRead v (length lone.before) 0 [] (value_view value.old) rest) }
    requires fits { NodeFits reader.now.source.now (value_view value.old) }
    ensures read { OnOk result (IsLoneReading reader.now.source.now (value_view value.new)) }
    ensures every { (v : syntax.Value) → IsLoneValue reader.now.source.now v
        → is_accepted_value v ≡ true → IsOk result ⊎ IsErrOf result ParseFault.Memory }
    ensures refused { IfErr result (λ e. IfToml e (IsLoneRefusal reader.now.source.now)) }
{
    if are_cut_short(events) {
        return Err(refusal_of_all(reader));
    }
    value.undecorate();
    let source = SharedText::from_text(reader.alloc, reader.source)?;
    value.despan(reader.alloc, &source)?;
    Ok(())
}
