//! Giving an inline table a header.
ghost use Rattle.std.specs.Prelude.{◌≡◌, IfOk, IsTrue, OnErr, Some, is_some};
ghost use Rattle.std.specs.Option.{option_copied};
ghost use Rattle.toml_edit.specs.model.Comments.{side_text};
ghost use Rattle.toml_edit.specs.tree.Containers.{table_node};
ghost use Rattle.toml_edit.specs.tree.SlotsOf.{slots_of};
ghost use Rattle.toml_edit.specs.tree.View.{fields_view, inline_view, table_view};
ghost use Rattle.example_tasks.specs.Headed.{headed, headed_table};

use crate::memory::no_memory;
use std::alloc::Global;
use toml_edit::{Decor, InlineTable, Item, Key, Mem, RawString, Table};

/// Gives an inline table a header of its own, with the comments above its key and after it. Returns
/// `false` if there is no such inline table.
pub fn give_header(alloc: Global, table: &mut Table, name: &str) -> Mem<bool>
    ensures found { IfOk result (λ found. found ≡ is_some (headed name.now (slots_of table.old))) }
    ensures slots { IfOk result (λ found. IsTrue found
        → headed name.now (slots_of table.old) ≡ Some (slots_of table.new)) }
    ensures fields { fields_view table.new ≡ fields_view table.old }
    ensures kept { IfOk result (λ found. ¬ (IsTrue found) → table.new ≡ table.old) }
    ensures err { OnErr result (table.new ≡ table.old) }
{
    let Some((key, item)) = table.get_key_value(name) else {
        return Ok(false);
    };
    let Some(inline) = item.as_inline_table() else {
        return Ok(false);
    };
    let headed = with_header(alloc, key, inline)?;
    drop(table.insert(name, Item::from(headed)).map_err(no_memory)?);
    Ok(true)
}

/// Copies an inline table as a table with a header: above it come an empty line and the comments
/// above the key, and after it what was after the inline table.
fn with_header(alloc: Global, key: &Key, inline: &InlineTable) -> Mem<Table>
    ensures { IfOk result
        (λ table. table_node (table_view table) ≡ headed_table key.now (inline_view inline.now)) }
{
    let above = text_of(key.leaf_decor().prefix());
    let prefix = RawString::from_string(format!(in alloc; "\n{above}")?)?;
    let suffix = RawString::from_text(alloc, text_of(inline.decor().suffix()))?;
    let mut table = inline.clone(alloc)?.into_table();
    *table.decor_mut() = Decor::new(prefix, suffix);
    Ok(table)
}

/// Returns the text of a side of a decor, which is empty if it is unset.
fn text_of(side: Option<&RawString>) -> &str
    ensures { result.now ≡ side_text (option_copied side.entry) }
{
    side.and_then(|raw| raw.as_str()).unwrap_or("")
}
