//! Replacing two values by strings.
ghost use Rattle.std.specs.Prelude.{[], ◌∷◌, IfErr, IfOk, string_bytes};
ghost use Rattle.toml_edit.specs.Edited.{replace_at};
ghost use Rattle.toml_edit.specs.edits.PathEdits.{answer_and_then, sets};
ghost use Rattle.example_proofs.specs.Faults.{Edits, FailsAt};
ghost use Rattle.example_proofs.specs.Values.{keys_of, string_node};

use crate::error::Fault;
use crate::parts::replace;
use std::alloc::Global;
use toml_edit::DocumentMut;
use toml_edit::laws::edited_prints;

/// Replaces two values by strings, one after the other, and returns the text in its normal form: all
/// other statements are as they were.
///
/// # Errors
///
/// [`Fault::Read`] if the text is refused, [`Fault::Change`] if there is no value at a path, and
/// [`Fault::Memory`] if out of memory.
pub fn set_two(
    alloc: Global,
    text: &str,
    first: &[&str],
    one: &str,
    second: &[&str],
    two: &str,
) -> Result<String, Fault>
    ensures set { IfOk result (λ out. Edits text.now
        (sets (keys_of first.now) (string_node one.now)
        ∷ sets (keys_of second.now) (string_node two.now) ∷ [])
        (λ tree. answer_and_then (replace_at (keys_of second.now) (string_node two.now))
        (replace_at (keys_of first.now) (string_node one.now) tree)) (string_bytes out)) }
    ensures fails { IfErr result (FailsAt text.now
        (λ tree. answer_and_then (replace_at (keys_of second.now) (string_node two.now))
        (replace_at (keys_of first.now) (string_node one.now) tree))) }
{
    edited_prints();
    let mut document = DocumentMut::from_str(alloc, text)?;
    replace(alloc, &mut document, first, one)?;
    replace(alloc, &mut document, second, two)?;
    Ok(document.print(alloc)?)
}
