//! The headline of the library: what its calls promise together.
ghost use Rattle.std.specs.Prelude.{◌≡◌, ◌↔◌, ◌⊎◌, IfOk, IfSome, IsOk, IsErrOf, IsSome, string_bytes};
ghost use Rattle.toml_edit_model.specs.Accepted.{AcceptedAs};
ghost use Rattle.toml_edit_model.specs.Fits.{FitsIn};
ghost use Rattle.toml_edit_model.specs.Syntax.{Document as Cut};
ghost use Rattle.toml_edit.specs.DocumentView.{mode_owned, tree_owned};
ghost use Rattle.toml_edit.specs.Headline.{Headline, IsPrintedFitting, IsReadAndPrinted};

use crate::document::DocumentMut;
use std::alloc::Global;
use toml_edit_error::ParseFault;
use toml_edit_repr::Mem;

/// Reads a text and prints what was read; and prints a document, which may have been edited, if it
/// fits.
///
/// Its contract puts what [`DocumentMut::from_str`], [`DocumentMut::print`] and
/// [`DocumentMut::fits`] promise on one page.
///
/// # Errors
///
/// The first result is [`ParseFault::Toml`] if the text is refused; both are the error of memory if
/// out of memory.
pub fn headline(
    alloc: Global,
    text: &str,
    document: &DocumentMut,
) -> (
    Result<(DocumentMut, String), ParseFault>,
    Mem<Option<String>>,
)
    ensures { Headline text.now document.now result.0 result.1 }
{
    (read_and_print(alloc, text), print_if_fits(alloc, document))
}

/// Reads a text, and prints what was read.
fn read_and_print(alloc: Global, text: &str) -> Result<(DocumentMut, String), ParseFault>
    ensures read { IfOk result
        (λ r. IsReadAndPrinted text.now (tree_owned r.0) (string_bytes r.1)) }
    ensures every { (d : Cut) → AcceptedAs text.now d
        → IsOk result ⊎ IsErrOf result ParseFault.Memory }
{
    let document = DocumentMut::from_str(alloc, text)?;
    let text = document.print(alloc)?;
    Ok((document, text))
}

/// Prints a document if it fits.
fn print_if_fits(alloc: Global, document: &DocumentMut) -> Mem<Option<String>>
    ensures fits { IfOk result
        (λ s. IsSome s ↔ FitsIn (mode_owned document.now) (tree_owned document.now)) }
    ensures prints { IfOk result
        (λ s. IfSome s (λ s. ∥ IsPrintedFitting document.now (string_bytes s) ∥₁)) }
{
    let fits = document.fits(alloc)?;
    if fits {
        let text = document.print(alloc)?;
        return Ok(Some(text));
    }
    Ok(None)
}
