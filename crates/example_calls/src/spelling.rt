//! The spelling of values, and the comments of keys.
ghost use Rattle.std.specs.Prelude.{◌≡◌, IfErr, IfOk, OnErr, OnOk, is_some, option_and_then, option_map};
ghost use Rattle.example_calls.specs.Comments.{commented, with_prefix};
ghost use Rattle.example_calls.specs.Spellings.{in_decimal, integer_spelling, SetsRead};
ghost use Rattle.toml_edit.specs.error.Fault.{IfToml};
ghost use Rattle.toml_edit.specs.model.Slots.{changed_at, on_key, place};
ghost use Rattle.toml_edit.specs.parser.LoneValue.{IsLoneRefusal};
ghost use Rattle.toml_edit.specs.repr.Views.{text_of};
ghost use Rattle.toml_edit.specs.tree.SlotsOf.{slots_of};
ghost use Rattle.toml_edit.specs.tree.TableEntries.{entry_place, entry_ref};
ghost use Rattle.toml_edit.specs.tree.View.{value_view};
ghost use Rattle.toml_edit.specs.tree.declared.table.entry.Entry.TheVariants.{Occupied};

use crate::adding::no_memory;
use std::alloc::Global;
use toml_edit::{FromStr, Item, Mem, OccupiedEntry, ParseFault, RawString, Table, Value};

/// Returns an integer's own spelling, such as `0xFF`, if it has one.
pub fn spelling_of(value: &Value) -> Option<&str>
    ensures { option_map (λ t. t.now) result
        ≡ option_and_then text_of (integer_spelling (value_view value.now)) }
{
    match value {
        Value::Integer(number) => number.as_repr()?.as_raw().as_str(),
        _ => None,
    }
}

/// Resets an integer to decimal digits, and keeps its comment.
pub fn make_decimal(value: &mut Value)
    ensures { value_view value.new ≡ in_decimal (value_view value.old) }
{
    if let Value::Integer(number) = value {
        number.fmt();
    }
}

/// Inserts the value that the text spells, such as `0xFF`, in that spelling.
pub fn set_spelled(
    alloc: Global,
    table: &mut Table,
    key: &str,
    text: &str,
) -> Result<(), ParseFault>
    ensures ok { OnOk result
        (SetsRead key.now text.now (slots_of table.old) (slots_of table.new)) }
    ensures refused { IfErr result (λ e. IfToml e (IsLoneRefusal text.now)) }
    ensures err { OnErr result (table.new ≡ table.old) }
{
    let item = Item::from_str(alloc, text)?;
    drop(table.insert(key, item).map_err(no_memory)?);
    Ok(())
}

/// Sets what is before the key of a slot.
fn set_prefix(slot: &mut OccupiedEntry<'_>, prefix: RawString)
    ensures same_table { (entry_ref (Occupied slot.new)).ghost_name ≡ (entry_ref (Occupied slot.old)).ghost_name }
    ensures slots { slots_of (entry_ref (Occupied slot.new)).now
        ≡ changed_at (entry_place (Occupied slot.old)) (on_key (with_prefix prefix)) (slots_of (entry_ref (Occupied slot.old)).now) }
{
    slot.leaf_decor_mut().set_prefix(prefix);
}

/// Sets the comment above a key, or returns `false` if the key is missing.
pub fn set_comment(alloc: Global, table: &mut Table, key: &str, comment: &str) -> Mem<bool>
    ensures found { IfOk result (λ found. found ≡ is_some (place key.now (slots_of table.old))) }
    ensures set { OnOk result
        (slots_of table.new ≡ commented key.now comment.now (slots_of table.old)) }
    ensures err { OnErr result (table.new ≡ table.old) }
{
    let comment = RawString::from_string(format!(in alloc; "# {comment}\n")?)?;
    match table.slot_mut(key) {
        Some(mut slot) => {
            set_prefix(&mut slot, comment);
            Ok(true)
        }
        None => Ok(false),
    }
}
