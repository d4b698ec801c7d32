//! Removing a dependency.
ghost use Rattle.std.specs.Prelude.{[], ◌∷◌, IfErr, IfOk, string_bytes};
ghost use Rattle.toml_edit.specs.model.Keys.{new_key};
ghost use Rattle.example_proofs.specs.Edits.{EditsText, RefusesEdits, Removes};

use crate::error::Fault;
use std::alloc::Global;
use toml_edit::Key;
use toml_edit_edits::{Edit, edit_text};

/// Removes a dependency from a section, and returns the text in its normal form: all other
/// statements are as they were.
///
/// # Errors
///
/// [`Fault::Edited`] if the text is refused, there is no such dependency, or the result would not
/// be read back, and [`Fault::Memory`] if out of memory.
pub fn remove_dependency(
    alloc: Global,
    text: &str,
    section: &str,
    name: &str,
) -> Result<String, Fault>
    ensures removed { IfOk result (λ out. EditsText text.now
        (Removes (new_key section.now ∷ new_key name.now ∷ [])) (string_bytes out)) }
    ensures fails { IfErr result (RefusesEdits text.now
        (Removes (new_key section.now ∷ new_key name.now ∷ []))) }
{
    let keys = Key::path(alloc, &[section, name])?;
    match edit_text(alloc, text, &[Edit::Remove(keys)]) {
        Ok(out) => Ok(out),
        Err(refused) => Err(Fault::Edited(refused)),
    }
}
