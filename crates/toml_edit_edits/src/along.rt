//! The tables that a path goes through.
ghost use Rattle.toml_edit_model.specs.Keys.{names};
ghost use Rattle.toml_edit_tree.specs.View.{item_view};
ghost use Rattle.toml_edit_edits.specs.Along.{AreApartAlong};

use toml_edit::{Item, Key};

/// Opens the tables on the path below the item. That no two keys of a table have one name is known
/// where it is opened.
pub(crate) fn open_along(item: &Item, path: &[Key])
    ensures { AreApartAlong (names path.now) (item_view item.now) }
{
    let Some((key, rest)) = path.split_first() else {
        return;
    };
    if let Some(slots) = item.as_slots() {
        let _ = slots.get_key_value(key.get());
    }
    if let Some(below) = toml_edit_paths::get(item, &path[..1]) {
        open_along(below, rest);
    }
}
