//! Sorting a table.
ghost use Rattle.std.specs.Prelude.{IfErr, IfOk, string_bytes};
ghost use Rattle.example_proofs.specs.Edits.{EditsText, RefusesEdits, Sorts};
ghost use Rattle.example_proofs.specs.Values.{keys_of};

use crate::error::Fault;
use std::alloc::Global;
use toml_edit::Key;
use toml_edit_edits::{Edit, edit_text};

/// Sorts the keys of the table at a path, which is the root for no keys, and returns the text in
/// its normal form, which means the same.
///
/// # Errors
///
/// [`Fault::Edited`] if the text is refused, there is no table at the path, or the result would not
/// be read back, and [`Fault::Memory`] if out of memory.
pub fn sort_table(alloc: Global, text: &str, path: &[&str]) -> Result<String, Fault>
    ensures sorted { IfOk result (λ out. EditsText text.now
        (Sorts (keys_of path.now)) (string_bytes out)) }
    ensures fails { IfErr result (RefusesEdits text.now (Sorts (keys_of path.now))) }
{
    let keys = Key::path(alloc, path)?;
    match edit_text(alloc, text, &[Edit::Sort(keys)]) {
        Ok(out) => Ok(out),
        Err(refused) => Err(Fault::Edited(refused)),
    }
}
