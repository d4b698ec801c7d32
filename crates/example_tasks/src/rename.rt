//! Giving a key another name.
ghost use Rattle.std.specs.Prelude.{◌≡◌, OnOk};
ghost use Rattle.toml_edit.specs.model.Rearranging.{renamed_slot};
ghost use Rattle.toml_edit.specs.slots.Renaming.{renaming};
ghost use Rattle.toml_edit.specs.slots.declared.slots.rearrange.Renamed.TheVariants.{Done};
ghost use Rattle.toml_edit.specs.tree.SlotsOf.{slots_of};
ghost use Rattle.toml_edit.specs.tree.View.{fields_view};

use anyhow::{Result, bail};
use toml_edit::{Renamed, Table};

/// Renames a key, which keeps its place, its comments and its item.
pub fn rename(table: &mut Table, old: &str, new: &str) -> Result<()>
    ensures done { OnOk result (renaming old.now new.now (slots_of table.old) ≡ Done) }
    ensures slots { OnOk result
        (slots_of table.new ≡ renamed_slot old.now new.now (slots_of table.old)) }
    ensures fields { fields_view table.new ≡ fields_view table.old }
{
    match table.rename(old, new)? {
        Renamed::Done => Ok(()),
        Renamed::Absent => bail!("{old} is missing"),
        Renamed::Taken => bail!("{new} is there already"),
    }
}
