//! Making edits in a text.
ghost use Rattle.std.specs.Prelude.{◌≡◌, IfErr, IfOk, string_bytes};
ghost use Rattle.toml_edit_edits.specs.Edited.{IsEditedBy, RefusesText};

use crate::edit::Edit;
use crate::fault::TextFault;
use crate::script::apply;
use std::alloc::Global;
use toml_edit::DocumentMut;

/// Returns the text with the edits made in it, one after another, as [`apply`] makes them.
///
/// Line endings are not kept. To edit a document that is read by other options, use [`apply`].
///
/// # Errors
///
/// Returns why the text is refused, which edit is refused first, or that the result would not be
/// read back as what it shows.
pub fn edit_text(alloc: Global, text: &str, edits: &[Edit]) -> Result<String, TextFault>
    ensures edited { IfOk result (λ out. ∥ IsEditedBy text.now edits.now (string_bytes out) ∥₁) }
    ensures refuses { IfErr result (RefusesText text.now edits.now) }
{
    let mut document = DocumentMut::from_str(alloc, text)?;
    apply(alloc, &mut document, edits)?;
    if document.fits(alloc)? {
        Ok(document.print(alloc)?)
    } else {
        Err(TextFault::Misfit)
    }
}
