//! Keeping some of the values of an array, each with its line.
ghost use Rattle.std.specs.Prelude.{[], ◌<◌, ◌≡◌, MatchOption, OnErr, OnOk, length, true};
ghost use Rattle.toml_edit_model.specs.ArrayCalls.{value_at};
ghost use Rattle.toml_edit_tree.specs.ElementClosures.{SaysOfValue};
ghost use Rattle.toml_edit_tree.specs.Elements.{array_fields, items_of};
ghost use Rattle.toml_edit_tree.specs.LinesRetained.{RetainsLines};
ghost use Rattle.toml_edit_tree.specs.View.{array_view};

use crate::array::Array;
use crate::copy::copy_array;
use crate::value::Value;
use std::mem;
use toml_edit_repr::Mem;

impl Array {
    /// Keeps the values for which `keep` returns `true`, in their order, and removes the others with
    /// their lines.
    ///
    /// They are removed as by [`remove_line`](Self::remove_line), the last one first. So the comments
    /// above a line and at its end go if no value stays on it, also beside the opening bracket, and
    /// the others are kept. Slots without a value stay. It works on a copy of the array, which takes
    /// its place at the end.
    ///
    /// # Errors
    ///
    /// Returns an `AllocError` if out of memory, and then leaves the array as it was.
    pub fn retain_lines<F: Fn(&Value) -> bool>(&mut self, keep: F) -> Mem<()>
    where
        F: Drop,
        requires { F.IsAlwaysCallable keep }
        ensures kept { OnOk result (RetainsLines (SaysOfValue F.Fn keep)
            (array_fields self.old, items_of self.old)
            (array_fields self.new, items_of self.new)) }
        ensures err { OnErr result (array_view self.new ≡ array_view self.old) }
    {
        let mut left = copy_array(self, *self.values.allocator())?;
        remove_lines(&mut left, self, &keep)?;
        drop(mem::replace(self, left));
        Ok(())
    }
}

/// Removes the values with their lines from the copy of an array for which the closure returns
/// `false`.
fn remove_lines<F: Fn(&Value) -> bool>(left: &mut Array, whole: &Array, keep: &F) -> Mem<()>
    requires closure { F.IsAlwaysCallable keep.now }
    requires copy { array_view left.old ≡ array_view whole.now }
    ensures { OnOk result (RetainsLines (SaysOfValue F.Fn keep.now)
        (array_fields whole.now, items_of whole.now) (array_fields left.new, items_of left.new)) }
{
    let mut at = whole.len();
    'places: while at > 0 {
        at -= 1;
        if !is_kept(whole, at, keep) {
            drop(left.remove_line(at)?);
        }
    }
    Ok(())
}

/// Returns what the closure returns for the value at the place, or `true` if there is none.
fn is_kept<F: Fn(&Value) -> bool>(array: &Array, at: usize, keep: &F) -> bool
    requires { F.IsAlwaysCallable keep.now }
    ensures { MatchOption (value_at at (items_of array.now)) (result ≡ true)
        (λ n. SaysOfValue F.Fn keep.now n result) }
{
    match array.get(at) {
        Some(value) => keep(value),
        None => true,
    }
}
