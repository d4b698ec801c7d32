//! The first place where a document does not fit.
ghost use Rattle.std.specs.Prelude.{◌≡◌, ◌↔◌, IfOk, IsNone, option_map, slice_get};
ghost use Rattle.toml_edit_model.specs.Fits.{FitsIn};
ghost use Rattle.toml_edit_repr.specs.Modes.{mode_of};
ghost use Rattle.toml_edit_tree.specs.View.{tree_view};
ghost use Rattle.toml_edit_fits.specs.MisfitViews.{misfit_view};
ghost use Rattle.toml_edit_fits.specs.Misfits.{misfits};

use crate::fits::all_fits;
use crate::misfit::Misfit;
use crate::report::Trail;
use std::alloc::Global;
use toml_edit_repr::{Mem, Mode, RawString};
use toml_edit_tree::Table;

/// Returns the first place where the document with this root and this trailing text does not fit in
/// the mode, or `None` if it fits.
///
/// See `DocumentMut::first_misfit`. Takes time linear in the size of the tree.
///
/// # Errors
///
/// Returns an `AllocError` if out of memory.
#[doc(hidden)]
pub fn first_misfit(
    alloc: Global,
    mode: Mode,
    root: &Table,
    trailing: &RawString,
) -> Mem<Option<Misfit>>
    ensures fits { IfOk result
        (λ misfit. IsNone misfit ↔ FitsIn (mode_of mode) (tree_view root.now trailing.now)) }
    ensures first { IfOk result
        (λ misfit. option_map misfit_view misfit
        ≡ slice_get (misfits (mode_of mode) (tree_view root.now trailing.now)) 0) }
{
    let mut trail = Trail::new(alloc);
    if all_fits(&mut trail, mode, root, trailing) {
        Ok(None)
    } else {
        Ok(Some(trail.into_misfit()?))
    }
}
