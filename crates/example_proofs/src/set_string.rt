//! Putting a string at a path.
ghost use Rattle.std.specs.Prelude.{IfErr, IfOk, string_bytes};
ghost use Rattle.example_proofs.specs.Edits.{EditsText, RefusesEdits, Sets};
ghost use Rattle.example_proofs.specs.Values.{keys_of, string_node};

use crate::error::Fault;
use std::alloc::Global;
use toml_edit::{Key, Value};
use toml_edit_edits::{Edit, edit_text};

/// Puts a string at a path, below inline tables where tables are missing, and returns the text in its
/// normal form.
///
/// All other statements are as they were where a value is at the path, or in the way to it, or the
/// first missing key is one of the root, of a table with a header, or of one with lines.
///
/// # Errors
///
/// [`Fault::Edited`] if the text is refused, the path leads to a table or through a scalar, or the result would not
/// be read back, and [`Fault::Memory`] if out of memory.
pub fn set_string(alloc: Global, text: &str, path: &[&str], value: &str) -> Result<String, Fault>
    ensures set { IfOk result (λ out. EditsText text.now
        (Sets (keys_of path.now) (string_node value.now)) (string_bytes out)) }
    ensures fails { IfErr result
        (RefusesEdits text.now (Sets (keys_of path.now) (string_node value.now))) }
{
    let keys = Key::path(alloc, path)?;
    let value = Value::string(alloc, value)?;
    match edit_text(alloc, text, &[Edit::Set(keys, value)]) {
        Ok(out) => Ok(out),
        Err(refused) => Err(Fault::Edited(refused)),
    }
}
