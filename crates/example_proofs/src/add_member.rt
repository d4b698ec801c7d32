//! Adding a string to an array.
ghost use Rattle.std.specs.Prelude.{IfErr, IfOk, string_bytes};
ghost use Rattle.example_proofs.specs.Edits.{Appends, EditsText, RefusesEdits};
ghost use Rattle.example_proofs.specs.Values.{keys_of, string_node};

use crate::error::Fault;
use std::alloc::Global;
use toml_edit::{Key, Value};
use toml_edit_edits::{Edit, edit_text};

/// Adds a string at the end of the array at a path, on a line of its own where the others have one,
/// and returns the text in its normal form: all other statements are as they were.
///
/// # Errors
///
/// [`Fault::Edited`] if the text is refused, there is no array at the path, or the result would not
/// be read back, and [`Fault::Memory`] if out of memory.
pub fn add_member(alloc: Global, text: &str, path: &[&str], member: &str) -> Result<String, Fault>
    ensures added { IfOk result (λ out. EditsText text.now
        (Appends (keys_of path.now) (string_node member.now)) (string_bytes out)) }
    ensures fails { IfErr result
        (RefusesEdits text.now (Appends (keys_of path.now) (string_node member.now))) }
{
    let keys = Key::path(alloc, path)?;
    let value = Value::string(alloc, member)?;
    match edit_text(alloc, text, &[Edit::Append(keys, value)]) {
        Ok(out) => Ok(out),
        Err(refused) => Err(Fault::Edited(refused)),
    }
}
