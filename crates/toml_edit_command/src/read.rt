//! Reading the document from the input.
ghost use Rattle.std.specs.Prelude.{◌≡◌, false, IfSome, IfOk, IfErr, OnOk, string_bytes};
ghost use Rattle.std.specs.Io.KnownBytes.{IsAtEnd};
ghost use Rattle.toml_edit_error.specs.Fault.{IfToml};
ghost use Rattle.toml_edit_model.specs.Version.{Version};
ghost use Rattle.toml_edit.specs.Documents.{IsRefusalIn};
ghost use Rattle.toml_edit.specs.DocumentView.{mode_owned};
ghost use Rattle.toml_edit_command.specs.Run.{IsRefused};
ghost use Rattle.toml_edit_command.specs.Steps.{HasReadAll, StopsReading};
ghost use Rattle.toml_edit_command.specs.Written.{IsHeldOf, held};
ghost use Rattle.toml_edit_parser.specs.Options.{mode_of, version_of};

use crate::error::{RunError, Step};
use std::alloc::Global;
use toml_edit::{Document, DocumentMut, ParseFault, ParseOptions};
use toml_edit_io::{Input, ReadFault, read_to_end};

/// Reads the input to its end, and parses the document that it holds by these options.
pub fn read_document<I: Input>(
    alloc: Global,
    input: &mut I,
    options: ParseOptions,
) -> Step<DocumentMut>
    requires { I.has_failed input.old ≡ false }
    ensures read { IfOk result (λ m. IfSome (I.remaining input.old)
        (λ bytes. IsHeldOf (mode_of options) (version_of options) bytes (held m))) }
    ensures mode { IfOk result (λ m. mode_owned m ≡ mode_of options) }
    ensures ok { OnOk result (I.has_failed input.new ≡ false) }
    ensures end { OnOk result (IsAtEnd (I.remaining input.new)) }
    ensures err { IfErr result
        (StopsReading (version_of options) (I.remaining input.old) (I.has_failed input.new)) }
    ensures err_end { IfErr result (HasReadAll (I.remaining input.new)) }
{
    let text = text_of(alloc, input)?;
    match parse(alloc, text, options) {
        Ok(document) => Ok(document),
        Err(ParseFault::Toml(error)) => match error.to_string(alloc) {
            Ok(excerpt) => Err(RunError::Refused(excerpt)),
            Err(_) => Err(RunError::Memory),
        },
        Err(ParseFault::Memory) => Err(RunError::Memory),
    }
}

/// Reads the text of the input.
fn text_of<I: Input>(alloc: Global, input: &mut I) -> Step<String>
    requires { I.has_failed input.old ≡ false }
    ensures text { IfOk result
        (λ s. IfSome (I.remaining input.old) (λ bytes. string_bytes s ≡ bytes)) }
    ensures ok { OnOk result (I.has_failed input.new ≡ false) }
    ensures end { OnOk result (IsAtEnd (I.remaining input.new)) }
    // It stops so in any version.
    ensures err { (version : Version)
        → IfErr result (StopsReading version (I.remaining input.old) (I.has_failed input.new)) }
    ensures err_end { IfErr result (HasReadAll (I.remaining input.new)) }
{
    match read_to_end(alloc, input) {
        Ok(bytes) => match String::from_utf8(bytes) {
            Ok(mut text) => {
                // The document keeps it, so it takes no more room than it needs.
                text.shrink_to_fit();
                Ok(text)
            }
            Err(_) => Err(RunError::NotUtf8),
        },
        Err(ReadFault::Memory) => Err(RunError::Memory),
        Err(ReadFault::Broken) => Err(RunError::ReadFailed),
    }
}

/// Parses the text, and owns the document.
fn parse(alloc: Global, text: String, options: ParseOptions) -> Result<DocumentMut, ParseFault>
    ensures ok { IfOk result
        (λ m. IsHeldOf (mode_of options) (version_of options) (string_bytes text) (held m)) }
    ensures mode { IfOk result (λ m. mode_owned m ≡ mode_of options) }
    ensures refused { IfErr result (λ e. IfToml e (λ r. IsRefused (version_of options)
        (string_bytes text) × IsRefusalIn (version_of options) (string_bytes text) r)) }
{
    let document = Document::parse_with(alloc, text, options)?;
    Ok(document.into_mut(alloc)?)
}
