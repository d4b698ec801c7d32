//! Walking over the lines of a table.
ghost use Rattle.std.specs.Prelude.{[], ◌∷◌, ◌++◌, List, Bool, true, false};
ghost use Rattle.toml_edit_model.specs.Tree.{Key as KeyView, Node};
ghost use Rattle.toml_edit_tree.specs.Printing.{keys_on};
ghost use Rattle.toml_edit_tree.specs.View.{item_view, slots_view, table_slots, value_view};
ghost use Rattle.toml_edit_tree.specs.Visits.{VisitsInOrder, shown_item, shown_lines};

use crate::encode::Path;
use crate::item::Item;
use crate::table::Table;
use crate::value::Value;
use toml_edit_key::Key;
use toml_edit_slots::Slots;

/// What is done at each line of a table, so that one walk serves for all.
#[doc(hidden)]
pub trait LineVisitor {
    // What a visit does: the visitor before it, the keys and the value of the line, whether the
    // walk goes on, and the visitor after it.
    ghost visits: { Self → List KeyView × Node → Bool → Self → Type 0 };

    /// Visits a line: its keys are those of `path` and then `key`. Returns `false` to end the walk.
    fn visit(&mut self, path: &Path<'_, '_>, key: &Key, value: &Value) -> bool
        ensures { visits self.old (keys_on path.now ++ (key.now ∷ []), value_view value.now) result
            self.new };
}

/// Visits the lines of a table in order: one for each value, and in their place those of dotted
/// tables and of dotted inline tables. Returns `false` if a visit ended the walk.
///
/// The keys of each line begin below the table. The lines of the tables below it that have headers
/// are left out.
#[doc(hidden)]
pub fn visit_lines<V: LineVisitor>(visitor: &mut V, table: &Table) -> bool
    ensures { VisitsInOrder V.visits (shown_lines false (table_slots table.now) [])
        visitor.old result visitor.new }
{
    visit_slots(visitor, false, &table.slots, &Path::Root)
}

/// Visits the lines of the slots, in order: of an inline table if `is_inside` is set, and else of a
/// table. Their keys begin with those of `path`.
#[cycle(visit)]
fn visit_slots<'p, 'a, V: LineVisitor>(
    visitor: &mut V,
    is_inside: bool,
    slots: &'a Slots<Item>,
    path: &'p Path<'p, 'a>,
) -> bool
    ensures { VisitsInOrder V.visits (shown_lines is_inside (slots_view slots.now) (keys_on path.now))
        visitor.old result visitor.new }
{
    let entries = slots.as_slice();
    'slots: for slot in entries {
        if !visit_item(visitor, is_inside, &slot.item, &slot.key, path) {
            return false;
        }
    }
    true
}

/// Visits the lines of one slot: those of a value, or those in a table.
///
/// In a table, the lines of a table that isn't dotted are printed after its header, and left out.
#[cycle(visit)]
#[inline(always)]
fn visit_item<'p, 'a, V: LineVisitor>(
    visitor: &mut V,
    is_inside: bool,
    item: &'a Item,
    key: &'a Key,
    path: &'p Path<'p, 'a>,
) -> bool
    ensures { VisitsInOrder V.visits
        (shown_item is_inside (item_view item.now) (keys_on path.now ++ (key.now ∷ [])))
        visitor.old result visitor.new }
{
    match item {
        Item::Value(value) => visit_value(visitor, value, key, path),
        Item::Table(table) => {
            if is_inside || table.dotted {
                visit_slots(visitor, is_inside, &table.slots, &Path::Under(path, key))
            } else {
                true
            }
        }
        Item::None | Item::ArrayOfTables(_) => true,
    }
}

/// Visits the lines of a value: those in a dotted inline table, or the one of any other value.
#[cycle(visit)]
#[inline(always)]
fn visit_value<'p, 'a, V: LineVisitor>(
    visitor: &mut V,
    value: &'a Value,
    key: &'a Key,
    path: &'p Path<'p, 'a>,
) -> bool
    ensures { VisitsInOrder V.visits
        (shown_item true (value_view value.now) (keys_on path.now ++ (key.now ∷ [])))
        visitor.old result visitor.new }
{
    match value {
        Value::InlineTable(table) => {
            if table.dotted {
                visit_slots(visitor, true, &table.items, &Path::Under(path, key))
            } else {
                visitor.visit(path, key, value)
            }
        }
        _ => visitor.visit(path, key, value),
    }
}
