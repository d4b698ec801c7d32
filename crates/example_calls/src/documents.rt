//! Parsing, checking and printing whole documents.
ghost use Rattle.std.specs.Prelude.{◌≡◌, ◌⊎◌, ◌↔◌, [], true, IfOk, IfSome, IsErrOf, IsOk, IsSome, OnOk, string_bytes};
ghost use Rattle.std.specs.Io.KnownBytes.{Appends};
ghost use Rattle.example_calls.specs.Reports.{Reports};
ghost use Rattle.toml_edit.specs.DocumentView.{mode_owned, open_owned, print_of, tree_owned};
ghost use Rattle.toml_edit.specs.Documents.{IsOwnedReadingIn};
ghost use Rattle.toml_edit.specs.model.Accepted.{AcceptedAs, AcceptedIn};
ghost use Rattle.toml_edit.specs.model.Fits.{FitsIn};
ghost use Rattle.toml_edit.specs.model.Mode.{exact, plain};
ghost use Rattle.toml_edit.specs.model.Syntax.{Document as Cut};
ghost use Rattle.toml_edit.specs.model.Version.{v1_0, v1_1};

use std::alloc::{AllocError, Global};
use toml_edit::{DocumentMut, Mem, Output, ParseFault, ParseOptions, PrintFault, Version};

/// Returns why the text is refused, with an excerpt of it, or an empty text.
pub fn report(alloc: Global, text: &str) -> Mem<String>
    ensures reports { IfOk result (λ s. Reports text.now (string_bytes s)) }
    ensures accepted { (d : Cut) → AcceptedAs text.now d → IfOk result (λ s. string_bytes s ≡ []) }
{
    match DocumentMut::from_str(alloc, text) {
        Ok(_document) => Ok(String::new(alloc)),
        Err(ParseFault::Toml(error)) => error.to_string(alloc),
        Err(ParseFault::Memory) => Err(AllocError),
    }
}

/// Returns the text of the document if that is valid TOML and means what the tree says.
pub fn print_if_fits(alloc: Global, document: &DocumentMut) -> Mem<Option<String>>
    ensures fits { IfOk result (λ text.
        IsSome text ↔ FitsIn (mode_owned document.now) (tree_owned document.now)) }
    ensures text { IfOk result (λ text. IfSome text (λ s. string_bytes s ≡ print_of document.now)) }
{
    if document.fits(alloc)? {
        Ok(Some(document.print(alloc)?))
    } else {
        Ok(None)
    }
}

/// Writes the document to an output that has not failed.
pub fn write_to<W: Output>(
    alloc: Global,
    document: &DocumentMut,
    output: &mut W,
) -> Result<(), PrintFault>
    ensures prints { OnOk result
        (Appends (W.contents output.old) (W.contents output.new) (print_of document.now)) }
    ensures device { IsErrOf result PrintFault.Device → W.has_failed output.new ≡ true }
{
    if output.failed() {
        return Err(PrintFault::Device);
    }
    document.print_to(alloc, output)
}

/// Reads a document and keeps its line endings, and whether it ends in a newline.
pub fn read_exactly(alloc: Global, text: &str) -> Result<DocumentMut, ParseFault>
    ensures accepted { IfOk result (λ document.
        IsOwnedReadingIn exact v1_1 text.now (tree_owned document) (open_owned document)) }
    ensures mode { IfOk result (λ document. mode_owned document ≡ exact) }
    ensures every { (d : Cut) → AcceptedIn v1_1 text.now d
        → IsOk result ⊎ IsErrOf result ParseFault.Memory }
{
    DocumentMut::from_str_with(alloc, text, ParseOptions::new().exact(true))
}

/// Reads a document of TOML 1.0.
pub fn read_strictly(alloc: Global, text: &str) -> Result<DocumentMut, ParseFault>
    ensures accepted { IfOk result (λ document.
        IsOwnedReadingIn plain v1_0 text.now (tree_owned document) (open_owned document)) }
    ensures every { (d : Cut) → AcceptedIn v1_0 text.now d
        → IsOk result ⊎ IsErrOf result ParseFault.Memory }
{
    DocumentMut::from_str_with(alloc, text, ParseOptions::new().version(Version::V1_0))
}
