//! Formatting a text.
ghost use Rattle.std.specs.Prelude.{IfErr, IfOk, string_bytes};
ghost use Rattle.toml_edit.specs.error.Fault.{IfToml};
ghost use Rattle.toml_edit.specs.Documents.{IsRefusal};
ghost use Rattle.toml_edit_fmt_laws.specs.Rules.{default_rules};
ghost use Rattle.example_proofs.specs.Formatted.{FormatsText};

use std::alloc::Global;
use toml_edit::{DocumentMut, ParseFault};
use toml_edit_fmt::Rules;
use toml_edit_fmt_laws::{formatted, formatted_places, formatted_texts};

/// Returns the text formatted by the usual rules: it means the same, and has the same comments,
/// each with what it belongs to.
///
/// # Errors
///
/// [`ParseFault::Toml`] if the text is refused, and [`ParseFault::Memory`] if out of memory.
pub fn format_text(alloc: Global, text: &str) -> Result<String, ParseFault>
    ensures formatted { IfOk result
        (λ out. FormatsText default_rules text.now (string_bytes out)) }
    ensures refused { IfErr result (λ fault. IfToml fault (IsRefusal text.now)) }
{
    formatted();
    formatted_places();
    formatted_texts();
    drop(DocumentMut::from_str(alloc, text)?);
    match toml_edit_fmt::format_text(alloc, text, &Rules::default()) {
        Ok(formatted) => Ok(formatted),
        Err(_) => Err(ParseFault::Memory),
    }
}
