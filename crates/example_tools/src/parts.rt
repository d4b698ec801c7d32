//! What several of the programs do.
ghost use Rattle.std.specs.Prelude.{◌≡◌, OnErr, OnOk};
ghost use Rattle.toml_edit.specs.DocumentView.{mode_owned, tree_owned};
ghost use Rattle.toml_edit.specs.model.Fits.{FitsIn};

use anyhow::{Result, ensure};
use std::alloc::Global;
use std::mem;
use toml_edit::{DocumentMut, Item, Slots};

/// Replaces the document by a changed one.
///
/// # Errors
///
/// Fails if the changed one doesn't fit. The document is unchanged then.
pub fn replace(alloc: Global, document: &mut DocumentMut, changed: DocumentMut) -> Result<()>
    ensures fits { OnOk result (FitsIn (mode_owned document.new) (tree_owned document.new)) }
    ensures kept { OnErr result (tree_owned document.new ≡ tree_owned document.old) }
{
    ensure!(changed.fits(alloc)?, "the result doesn't fit");
    drop(mem::replace(document, changed));
    Ok(())
}

/// Returns a mutable reference to the item of slot `at`, or `None` if there is no such slot.
pub fn item_at(slots: &mut Slots<Item>, at: usize) -> Option<&mut Item> {
    if at < slots.len() {
        return Some(slots.item_mut(at));
    }
    None
}
