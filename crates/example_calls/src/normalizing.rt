//! Writing a text in its normal form, and reading a document from its print.
ghost use Rattle.std.specs.Prelude.{◌↔◌, IfErr, IfOk, IfSome, IsOkUnless, IsSome, string_bytes};
ghost use Rattle.toml_edit.specs.DocumentView.{mode_owned, print_of, tree_owned};
ghost use Rattle.toml_edit.specs.Documents.{IsRefusal};
ghost use Rattle.toml_edit.specs.error.Fault.{IfToml};
ghost use Rattle.toml_edit.specs.model.Fits.{FitsIn};
ghost use Rattle.example_calls.specs.Normals.{IsNormalized, IsReloaded};

use crate::editing::print_fitting;
use std::alloc::Global;
use toml_edit::laws::{cut, normal};
use toml_edit::{DocumentMut, ParseFault};

/// Returns the normal form of a text. That of the result is the result itself.
///
/// # Errors
///
/// [`ParseFault::Toml`] if the text is refused, and [`ParseFault::Memory`] if out of memory.
pub fn normalize(alloc: Global, text: &str) -> Result<String, ParseFault>
    ensures normal { IfOk result (λ s. IsNormalized text.now (string_bytes s)) }
    ensures refused { IfErr result (λ e. IfToml e (IsRefusal text.now)) }
{
    cut();
    normal();
    let document = DocumentMut::from_str(alloc, text)?;
    Ok(document.print(alloc)?)
}

/// Reads a document from its print, as it is read after it was saved. What it means stays. Returns
/// `None` if the document does not fit.
///
/// # Errors
///
/// [`ParseFault::Memory`] if out of memory. A document that fits is never refused.
pub fn reload(alloc: Global, document: &DocumentMut) -> Result<Option<DocumentMut>, ParseFault>
    ensures fits { IfOk result (λ read.
        IsSome read ↔ FitsIn (mode_owned document.now) (tree_owned document.now)) }
    ensures reloaded { IfOk result (λ read. IfSome read (λ m.
        ∥ IsReloaded (print_of document.now) (tree_owned document.now) (tree_owned m) ∥₁)) }
    ensures memory { IsOkUnless result ParseFault.Memory }
{
    if !document.fits(alloc)? {
        return Ok(None);
    }
    let text = print_fitting(alloc, document)?;
    let reloaded = DocumentMut::from_str(alloc, text.as_str())?;
    Ok(Some(reloaded))
}
