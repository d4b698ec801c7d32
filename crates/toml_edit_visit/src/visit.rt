//! Walking over the items of a tree by reference.
ghost use Rattle.std.specs.Prelude.{[], ◌≡◌, Bool, List, if◌then◌else◌};
ghost use Rattle.toml_edit_model.specs.Shown.{is_table_node};
ghost use Rattle.toml_edit_model.specs.Tree.{Node, is_value_node};
ghost use Rattle.toml_edit_tree.specs.Containers.{table_node};
ghost use Rattle.toml_edit_tree.specs.View.{item_view, items_view, slots_view, table_view, value_view};
ghost use Rattle.toml_edit_tree.specs.Visits.{VisitsInOrder};
ghost use Rattle.toml_edit_visit.specs.Below.{Step, found, from_elements, from_slots, items_below};
ghost use Rattle.toml_edit_visit.specs.Steps.{steps_on};

use crate::path::Path;
use toml_edit_slots::Slots;
use toml_edit_tree::table::is_filled;
use toml_edit_tree::{Item, Table, Value};

/// What is done at each item of a walk over a tree.
///
/// The walk is over as soon as a visit returns `false`. A visitor keeps in its fields what it has
/// found, and the span of an item or a key says where in the source that is. An `impl` states in
/// `visits` what proofs need of a visit; `λ _ _ _ _. Unit {0}` states nothing.
///
/// # Examples
///
/// ```rust,ignore
/// if let (Some(""), Some(span)) = (item.as_str(), item.span()) {
///     let (line, column) = line_column(self.source, span.start);
///     return write!(self.report, "{line}:{column}: {path} is empty\n").is_ok();
/// }
/// true
/// ```
///
/// From `visit` of the crate `example_tasks`.
pub trait Visit {
    // What a visit does: the visitor before it, the steps to the item and the item, whether the
    // walk goes on, and the visitor after it.
    ghost visits: { Self → List Step × Node → Bool → Self → Type 0 };

    /// Visits an item, to which the path leads. Returns `false` to end the walk.
    fn visit(&mut self, path: &Path<'_, '_>, item: &Item) -> bool
        ensures { visits self.old (steps_on path.now, item_view item.now) result self.new };
}

/// Visits the items below a table in order, each before those below it. Returns `false` if a visit
/// ended the walk.
///
/// Each slot's item is visited, each value of an array, and each table of an array of tables.
/// Placeholders are left out, and so is what else was written into a slot of an array, which isn't
/// printed. The table itself is not visited.
///
/// # Examples
///
/// ```rust,ignore
/// let mut lint = EmptyStrings {
///     source: document.raw(),
///     report: String::new(alloc),
/// };
/// ensure!(visit_table(&mut lint, document.as_table()), "out of memory");
/// Ok(lint.report)
/// ```
///
/// From `lint` of the crate `example_tasks`.
pub fn visit_table<V: Visit>(visitor: &mut V, table: &Table) -> bool
    ensures { VisitsInOrder V.visits (items_below [] (table_node (table_view table.now)))
        visitor.old result visitor.new }
{
    visit_slots(visitor, &table.slots, &Path::Root)
}

/// Visits the items below an item, as [`visit_table`] does those below a table. The item itself is
/// not visited, and the paths begin at it.
pub fn visit_item<V: Visit>(visitor: &mut V, item: &Item) -> bool
    ensures { VisitsInOrder V.visits (items_below [] (item_view item.now))
        visitor.old result visitor.new }
{
    visit_below(visitor, item, &Path::Root)
}

/// Visits the items below the one that the path leads to.
#[cycle(visit)]
#[inline(always)]
fn visit_below<'p, 'a, V: Visit>(visitor: &mut V, item: &'a Item, path: &'p Path<'p, 'a>) -> bool
    ensures { VisitsInOrder V.visits (items_below (steps_on path.now) (item_view item.now))
        visitor.old result visitor.new }
{
    match item {
        Item::None => true,
        Item::Value(value) => visit_in_value(visitor, value, path),
        Item::Table(table) => visit_slots(visitor, &table.slots, path),
        Item::ArrayOfTables(tables) => visit_elements(visitor, false, &tables.values, path),
    }
}

/// Visits the items below a value.
#[cycle(visit)]
#[inline(always)]
fn visit_in_value<'p, 'a, V: Visit>(
    visitor: &mut V,
    value: &'a Value,
    path: &'p Path<'p, 'a>,
) -> bool
    ensures { VisitsInOrder V.visits (items_below (steps_on path.now) (value_view value.now))
        visitor.old result visitor.new }
{
    match value {
        Value::Array(array) => visit_elements(visitor, true, &array.values, path),
        Value::InlineTable(table) => visit_slots(visitor, &table.items, path),
        _ => true,
    }
}

/// Visits the items of the slots, and those below them.
#[cycle(visit)]
#[inline(never)]
fn visit_slots<'p, 'a, V: Visit>(
    visitor: &mut V,
    slots: &'a Slots<Item>,
    path: &'p Path<'p, 'a>,
) -> bool
    ensures { VisitsInOrder V.visits (from_slots (steps_on path.now) (slots_view slots.now))
        visitor.old result visitor.new }
{
    let entries = slots.as_slice();
    'slots: for slot in entries {
        let step = Path::Key(path, &slot.key);
        if !visit_if(visitor, is_filled(slot), &slot.item, &step) {
            return false;
        }
    }
    true
}

/// Visits the elements that are values, or tables if not `values`, and the items below them.
#[cycle(visit)]
#[inline(never)]
fn visit_elements<'p, 'a, V: Visit>(
    visitor: &mut V,
    values: bool,
    items: &'a Vec<Item>,
    path: &'p Path<'p, 'a>,
) -> bool
    ensures { VisitsInOrder V.visits
        (from_elements (if values then is_value_node else is_table_node) (steps_on path.now) 0
        (items_view items.now.items))
        visitor.old result visitor.new }
{
    'items: for (place, item) in items.iter().enumerate() {
        let step = Path::Element(path, place);
        if !visit_if(visitor, is_of_kind(item, values), item, &step) {
            return false;
        }
    }
    true
}

/// Returns `true` if the item is a value, or a table if not `values`.
fn is_of_kind(item: &Item, values: bool) -> bool
    ensures { result ≡ (if values then is_value_node else is_table_node) (item_view item.now) }
{
    if values {
        item.is_value()
    } else {
        item.is_table()
    }
}

/// Visits an item and those below it, if it is `shown`.
#[cycle(visit)]
#[inline(always)]
fn visit_if<'p, 'a, V: Visit>(
    visitor: &mut V,
    shown: bool,
    item: &'a Item,
    path: &'p Path<'p, 'a>,
) -> bool
    ensures { VisitsInOrder V.visits (found shown (steps_on path.now) (item_view item.now))
        visitor.old result visitor.new }
{
    if !shown {
        return true;
    }
    if !visitor.visit(path, item) {
        return false;
    }
    visit_below(visitor, item, path)
}
