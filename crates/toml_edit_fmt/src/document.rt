//! Documents, by their texts.
ghost use Rattle.std.specs.Prelude.{◌≡◌, ◌≢◌, IfErr, IfOk};
ghost use Rattle.toml_edit.specs.DocumentView.{mode_owned, tree_owned};
ghost use Rattle.toml_edit_fmt.specs.Documents.{IsFormattedDocument};
ghost use Rattle.toml_edit_fmt.specs.RulesView.{rules_of};
ghost use Rattle.toml_edit_fmt.specs.declared.fault.FormatFault.TheVariants as fault;
ghost use Rattle.toml_edit_model.specs.Fits.{FitsIn};

use crate::fault::FormatFault;
use crate::rules::Rules;
use crate::text::format_text;
use std::alloc::Global;
use toml_edit::{DocumentMut, ParseFault, ParseOptions};
use toml_edit_fmt_laws::formatted_texts;

/// Returns the document formatted by the rules: that of its text, as [`format_text`] formats it.
///
/// # Errors
///
/// Fails with `FormatFault::Misfit` if the document doesn't fit, and with `FormatFault::Memory` if
/// out of memory. The document is dropped.
pub fn format(
    alloc: Global,
    document: DocumentMut,
    rules: &Rules,
) -> Result<DocumentMut, FormatFault>
    ensures formatted { IfOk result (IsFormattedDocument (rules_of rules.now) document) }
    ensures misfit { IfErr result
        (λ e. e ≡ fault.Misfit → ¬ (FitsIn (mode_owned document) (tree_owned document))) }
    // The print of a document that fits is accepted, and so is that text formatted.
    ensures accepted { IfErr result (λ e. e ≢ fault.Text) }
{
    formatted_texts();
    if !document.fits(alloc)? {
        return Err(FormatFault::Misfit);
    }
    let options = ParseOptions::new().exact(document.is_exact());
    let text = document.print(alloc)?;
    drop(document);
    let formatted = match format_text(alloc, text.as_str(), rules) {
        Ok(formatted) => formatted,
        Err(FormatFault::Text) => return Err(FormatFault::Text),
        Err(_) => return Err(FormatFault::Memory),
    };
    match DocumentMut::from_str_with(alloc, formatted.as_str(), options) {
        Ok(document) => Ok(document),
        Err(ParseFault::Memory) => Err(FormatFault::Memory),
        Err(ParseFault::Toml(_)) => Err(FormatFault::Text),
    }
}
