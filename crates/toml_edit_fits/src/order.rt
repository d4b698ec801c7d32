//! Checking that the headers of elements are in order: an element's own before all below it, and
//! all of these before the next element's.
ghost use Rattle.std.specs.Prelude.{◌≡◌, None, Some};
ghost use Rattle.toml_edit_tree.specs.View.{fields_view, item_view, items_view, slots_view, table_slots};
ghost use Rattle.toml_edit_fits.specs.EarlyTests as spec;
ghost use Rattle.toml_edit_fits.specs.MisfitViews.{Reports};
ghost use Rattle.toml_edit_fits.specs.OrderTests as tests;

use crate::misfit::FitRule;
use crate::report::Report;
use crate::table::has_header;
use toml_edit_slots::Slots;
use toml_edit_tree::{Item, Table};

/// The state of a walk over the tables: the position last seen, and the latest place of a header so
/// far in the array of tables that the walk is in.
#[derive(Clone, Copy)]
pub(crate) struct Marks {
    pub(crate) seen: isize,
    pub(crate) highest: Option<isize>,
}

/// Returns `true` if the place is not before this one, if there is one.
fn reaches(low: Option<isize>, place: isize) -> bool
    ensures { result ≡ tests.reaches low place }
{
    match low {
        Some(low) => low <= place,
        None => true,
    }
}

/// Returns the later of two places, if there are two.
fn later_place(high: Option<isize>, place: isize) -> Option<isize>
    ensures { result ≡ tests.later high place }
{
    match high {
        Some(high) => {
            if high <= place {
                Some(place)
            } else {
                Some(high)
            }
        }
        None => Some(place),
    }
}

/// Returns the later of two places, of those that there are.
fn latest_place(high: Option<isize>, other: Option<isize>) -> Option<isize>
    ensures { result ≡ tests.latest high other }
{
    match other {
        Some(place) => later_place(high, place),
        None => high,
    }
}

/// Returns the place of a table that is not dotted: its position, or the one last seen.
fn place_in(marks: Marks, table: &Table) -> isize
    ensures { result ≡ tests.place_in marks (fields_view table.now) }
{
    table.position().unwrap_or(marks.seen)
}

/// Enters a table, in an element whose header has the place `low`, if it is in one. Returns `None`
/// if its header is too late, or comes before one that it has to follow.
fn enter(is_element: bool, low: Option<isize>, marks: Marks, table: &Table) -> Option<Marks>
    ensures { result ≡ tests.enter is_element low marks (fields_view table.now)
        (table_slots table.now) }
{
    if table.is_dotted() {
        return Some(marks);
    }
    let place = place_in(marks, table);
    if !has_header(is_element, table) {
        return Some(Marks {
            seen: place,
            highest: marks.highest,
        });
    }
    if reaches(low, place) && (!is_element || reaches(marks.highest, place)) {
        Some(Marks {
            seen: place,
            highest: later_place(marks.highest, place),
        })
    } else {
        None
    }
}

/// Returns the first place that headers below an element may have, if there is one.
fn low_in(low: Option<isize>, marks: Marks, table: &Table) -> Option<isize>
    ensures { result ≡ spec.low_in low marks (fields_view table.now) }
{
    if table.is_dotted() {
        low
    } else {
        later_place(low, place_in(marks, table))
    }
}

/// Returns the marks after the tables below these slots, or `None` if a header is not in order.
#[cycle(order)]
pub(crate) fn order_slots<R: Report>(
    report: &mut R,
    low: Option<isize>,
    marks: Marks,
    slots: &Slots<Item>,
) -> Option<Marks>
    ensures { Reports R.tells (spec.early_slots low marks (slots_view slots.now))
        (Some (spec.past_slots marks (slots_view slots.now))) None result report.new }
{
    let mut last = marks;
    let entries = slots.as_slice();
    'slots: for slot in entries {
        match order_node(report, low, last, &slot.item) {
            Some(marks) => last = marks,
            None => {
                report.report_key(&slot.key);
                return None;
            }
        }
    }
    Some(last)
}

/// Returns the marks after the table or the elements of a slot, and the tables below them.
#[cycle(order)]
fn order_node<R: Report>(
    report: &mut R,
    low: Option<isize>,
    marks: Marks,
    item: &Item,
) -> Option<Marks>
    ensures { Reports R.tells (spec.early_node low marks (item_view item.now))
        (Some (spec.past_node marks (item_view item.now))) None result report.new }
{
    match item {
        Item::Table(table) => match enter(false, low, marks, table) {
            Some(entered) => order_slots(report, low, entered, &table.slots),
            None => {
                report.report_rule(FitRule::Order);
                None
            }
        },
        Item::ArrayOfTables(tables) => {
            let before = Marks {
                seen: marks.seen,
                highest: None,
            };
            let last = order_items(report, low, before, &tables.values)?;
            Some(Marks {
                seen: last.seen,
                highest: latest_place(marks.highest, last.highest),
            })
        }
        Item::None | Item::Value(_) => Some(marks),
    }
}

/// Returns the marks after the elements of an array of tables.
#[cycle(order)]
fn order_items<R: Report>(
    report: &mut R,
    low: Option<isize>,
    marks: Marks,
    items: &Vec<Item>,
) -> Option<Marks>
    ensures { Reports R.tells (spec.early_items low marks 0 (items_view items.now.items))
        (Some (spec.past_items marks (items_view items.now.items))) None result report.new }
{
    let mut last = marks;
    'items: for (number, item) in items.iter().enumerate() {
        match order_item(report, low, last, item) {
            Some(marks) => last = marks,
            None => {
                report.report_element(number);
                return None;
            }
        }
    }
    Some(last)
}

/// Returns the marks after an item of an array of tables. One that is not a table is skipped.
#[cycle(order)]
fn order_item<R: Report>(
    report: &mut R,
    low: Option<isize>,
    marks: Marks,
    item: &Item,
) -> Option<Marks>
    ensures { Reports R.tells (spec.early_item low marks (item_view item.now))
        (Some (spec.past_item marks (item_view item.now))) None result report.new }
{
    match item {
        Item::Table(table) => match enter(true, low, marks, table) {
            Some(entered) => order_slots(report, low_in(low, marks, table), entered, &table.slots),
            None => {
                report.report_rule(FitRule::Order);
                None
            }
        },
        Item::None | Item::Value(_) | Item::ArrayOfTables(_) => Some(marks),
    }
}
