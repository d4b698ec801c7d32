//! Moving a table.
ghost use Rattle.std.specs.Prelude.{◌≡◌, IfOk, IsTrue, OnErr, Some, is_some};
ghost use Rattle.toml_edit.specs.model.Slots.{without};
ghost use Rattle.toml_edit.specs.tree.SlotsOf.{slots_of};
ghost use Rattle.toml_edit.specs.tree.View.{fields_view};
ghost use Rattle.example_tasks.specs.Moves.{table_at, with_table};

use crate::memory::no_memory;
use std::alloc::Global;
use toml_edit::{Item, Mem, Table};

/// Moves a table to the end of another one, with its comments. Its headers are printed there.
/// Returns `false` if there is no such table.
pub fn move_table(alloc: Global, from: &mut Table, to: &mut Table, name: &str) -> Mem<bool>
    ensures found { IfOk result (λ found. found ≡ is_some (table_at name.now (slots_of from.old))) }
    ensures moved { IfOk result (λ found. IsTrue found
        → with_table name.now (slots_of from.old) (slots_of to.old) ≡ Some (slots_of to.new)) }
    ensures gone { IfOk result (λ found. IsTrue found
        → slots_of from.new ≡ without name.now (slots_of from.old)) }
    ensures fields { (fields_view from.new ≡ fields_view from.old)
        × (fields_view to.new ≡ fields_view to.old) }
    ensures kept { IfOk result (λ found. ¬ (IsTrue found)
        → (from.new ≡ from.old) × (to.new ≡ to.old)) }
    ensures err { OnErr result ((from.new ≡ from.old) × (to.new ≡ to.old)) }
{
    let Some((key, item)) = from.get_key_value(name) else {
        return Ok(false);
    };
    let Some(table) = item.as_table() else {
        return Ok(false);
    };
    let mut table = table.clone(alloc)?;
    table.forget_positions();
    let item = Item::from(table);
    drop(to.insert_formatted(key, item).map_err(no_memory)?);
    drop(from.remove(name));
    Ok(true)
}
