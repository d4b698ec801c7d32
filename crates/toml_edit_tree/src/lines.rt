//! Listing the lines of a table, or the pairs of an inline table, by their keys and values.
ghost use Rattle.std.specs.Prelude.{◌≡◌, true, [], ◌∷◌, ◌++◌, IfOk, OnOk};
ghost use Rattle.toml_edit_model.specs.Iterating.{inline_values, table_values};
ghost use Rattle.toml_edit_tree.specs.LineValues.{keys_read, values_read};
ghost use Rattle.toml_edit_tree.specs.Printing.{keys_on};
ghost use Rattle.toml_edit_tree.specs.SlotsOf.{inline_slots_of, slots_of};
ghost use Rattle.toml_edit_tree.specs.View.{item_view, slots_view, value_view};
ghost use Rattle.toml_edit_tree.specs.Visits.{shown_item, shown_lines};

use crate::encode::Path;
use crate::inline_table::InlineTable;
use crate::item::Item;
use crate::table::Table;
use crate::value::Value;
use std::alloc::Global;
use toml_edit_key::Key;
use toml_edit_repr::Mem;
use toml_edit_slots::Slots;

impl Table {
    /// Returns the keys and the value of each line that is printed of the table, in order.
    ///
    /// Dotted tables and dotted inline tables give their own lines in their place, with the keys
    /// from this table down to each value. The lines of any other table are printed after its
    /// header, and left out here. To get the slots themselves, use [`iter`](Self::iter).
    ///
    /// # Errors
    ///
    /// Returns an `AllocError` if out of memory.
    pub fn get_values(&self, alloc: Global) -> Mem<Vec<(Vec<&Key>, &Value)>>
        ensures { IfOk result
            (λ lines. values_read lines.items ≡ table_values (slots_of self.now)) }
    {
        let mut lines = Vec::new(alloc);
        add_lines(alloc, false, &self.slots, &Path::Root, &mut lines)?;
        Ok(lines)
    }
}

impl InlineTable {
    /// Returns the keys and the value of each pair that is printed of the inline table, in order.
    ///
    /// Tables and dotted inline tables give their own pairs in their place, with the keys from this
    /// inline table down to each value. To get the slots that have values, use
    /// [`iter`](Self::iter).
    ///
    /// # Errors
    ///
    /// Returns an `AllocError` if out of memory.
    pub fn get_values(&self, alloc: Global) -> Mem<Vec<(Vec<&Key>, &Value)>>
        ensures { IfOk result
            (λ lines. values_read lines.items ≡ inline_values (inline_slots_of self.now)) }
    {
        let mut lines = Vec::new(alloc);
        add_lines(alloc, true, &self.items, &Path::Root, &mut lines)?;
        Ok(lines)
    }
}

/// Adds the lines of the slots, in order: of an inline table if `is_inside` is set, and else of a
/// table. Their keys begin with those of `path`.
// What `visit` does for all visitors. A visitor can't keep the references that are added here: the
// checker has no contract for functions that call one another under a bound with a lifetime.
#[cycle(values)]
fn add_lines<'p, 'a>(
    alloc: Global,
    is_inside: bool,
    slots: &'a Slots<Item>,
    path: &'p Path<'p, 'a>,
    lines: &mut Vec<(Vec<&'a Key>, &'a Value)>,
) -> Mem<()>
    ensures { OnOk result (values_read lines.new.items
        ≡ values_read lines.old.items
        ++ shown_lines is_inside (slots_view slots.now) (keys_on path.now)) }
{
    let entries = slots.as_slice();
    'slots: for slot in entries {
        add_item_lines(alloc, is_inside, &slot.item, &slot.key, path, lines)?;
    }
    Ok(())
}

/// Adds the lines of one slot: those of a value, or those in a table.
///
/// In a table, the lines of a table that isn't dotted are printed after its header, and left out.
#[cycle(values)]
fn add_item_lines<'p, 'a>(
    alloc: Global,
    is_inside: bool,
    item: &'a Item,
    key: &'a Key,
    path: &'p Path<'p, 'a>,
    lines: &mut Vec<(Vec<&'a Key>, &'a Value)>,
) -> Mem<()>
    ensures { OnOk result (values_read lines.new.items
        ≡ values_read lines.old.items
        ++ shown_item is_inside (item_view item.now) (keys_on path.now ++ (key.now ∷ []))) }
{
    match item {
        Item::Value(value) => add_value_lines(alloc, value, key, path, lines),
        Item::Table(table) => {
            if is_inside || table.dotted {
                add_lines(
                    alloc,
                    is_inside,
                    &table.slots,
                    &Path::Under(path, key),
                    lines,
                )
            } else {
                Ok(())
            }
        }
        Item::None | Item::ArrayOfTables(_) => Ok(()),
    }
}

/// Adds the lines of a value: those in a dotted inline table, or the one of any other value.
#[cycle(values)]
fn add_value_lines<'p, 'a>(
    alloc: Global,
    value: &'a Value,
    key: &'a Key,
    path: &'p Path<'p, 'a>,
    lines: &mut Vec<(Vec<&'a Key>, &'a Value)>,
) -> Mem<()>
    ensures { OnOk result (values_read lines.new.items
        ≡ values_read lines.old.items
        ++ shown_item true (value_view value.now) (keys_on path.now ++ (key.now ∷ []))) }
{
    match value {
        Value::InlineTable(table) => {
            if table.dotted {
                add_lines(alloc, true, &table.items, &Path::Under(path, key), lines)
            } else {
                add_line(alloc, value, key, path, lines)
            }
        }
        _ => add_line(alloc, value, key, path, lines),
    }
}

/// Adds one line: the keys of `path` and then `key`, and the value.
fn add_line<'a>(
    alloc: Global,
    value: &'a Value,
    key: &'a Key,
    path: &Path<'_, 'a>,
    lines: &mut Vec<(Vec<&'a Key>, &'a Value)>,
) -> Mem<()>
    ensures { OnOk result (values_read lines.new.items
        ≡ values_read lines.old.items
        ++ ((keys_on path.now ++ (key.now ∷ []), value_view value.now) ∷ [])) }
{
    let mut keys = Vec::new(alloc);
    push_keys(path, &mut keys)?;
    keys.push(key)?;
    lines.push((keys, value))?;
    Ok(())
}

/// Adds the keys of a path, from the outermost in.
fn push_keys<'a>(path: &Path<'_, 'a>, keys: &mut Vec<&'a Key>) -> Mem<()>
    ensures { OnOk result
        (keys_read keys.new.items ≡ keys_read keys.old.items ++ keys_on path.now) }
{
    match path {
        Path::Root => Ok(()),
        Path::Under(up, key) => {
            push_keys(up, keys)?;
            keys.push(*key)?;
            Ok(())
        }
    }
}
