//! Making edits by a method of a document.
ghost use Rattle.toml_edit_edits.specs.Edited.{MakesEdits};

use crate::edit::Edit;
use crate::fault::ScriptFault;
use crate::script::apply;
use std::alloc::Global;
use toml_edit::DocumentMut;

/// Makes edits. It is implemented for [`DocumentMut`], whose method this is once the trait is imported.
pub trait ApplyEdits {
    ghost use Rattle.std.specs.Prelude.{List, Result};
    ghost use Rattle.toml_edit_edits.specs.declared.edit.Edit.{Edit};
    ghost use Rattle.toml_edit_edits.specs.declared.fault.ScriptFault.{ScriptFault};

    /// What the edits make of a value, and what is returned.
    ghost makes_edits: { List Edit → Self → Self → Result (Unit {0}) ScriptFault → Type 0 };

    /// Makes the edits, one after another, as [`apply`](crate::apply) does.
    ///
    /// # Errors
    ///
    /// Returns which edit is refused first, and why. The edits before it are made then, and no
    /// other.
    fn apply_edits(&mut self, alloc: Global, edits: &[Edit]) -> Result<(), ScriptFault>
        ensures { makes_edits edits.now self.old self.new result };
}

impl ApplyEdits for DocumentMut {
    ghost makes_edits = { MakesEdits };

    fn apply_edits(&mut self, alloc: Global, edits: &[Edit]) -> Result<(), ScriptFault> {
        apply(alloc, self, edits)
    }
}
