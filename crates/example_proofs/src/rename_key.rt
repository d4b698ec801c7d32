//! Renaming a key.
ghost use Rattle.std.specs.Prelude.{IfErr, IfOk, string_bytes};
ghost use Rattle.example_proofs.specs.Edits.{EditsText, RefusesEdits, Renames};
ghost use Rattle.example_proofs.specs.Values.{keys_of};

use crate::error::Fault;
use std::alloc::Global;
use toml_edit::Key;
use toml_edit_edits::{Edit, edit_text};

/// Gives the last key of a path another name, and returns the text in its normal form: all other
/// statements are as they were.
///
/// # Errors
///
/// [`Fault::Edited`] if the text is refused, there is no such key, another key beside it has the name,
/// or the result would not be read back, and [`Fault::Memory`] if out of memory.
pub fn rename_key(alloc: Global, text: &str, path: &[&str], name: &str) -> Result<String, Fault>
    ensures renamed { IfOk result (λ out. EditsText text.now
        (Renames (keys_of path.now) name.now) (string_bytes out)) }
    ensures fails { IfErr result
        (RefusesEdits text.now (Renames (keys_of path.now) name.now)) }
{
    let keys = Key::path(alloc, path)?;
    let name = String::from_str(alloc, name)?;
    match edit_text(alloc, text, &[Edit::Rename(keys, name)]) {
        Ok(out) => Ok(out),
        Err(refused) => Err(Fault::Edited(refused)),
    }
}
