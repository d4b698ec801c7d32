//! Checking values and lines.
ghost use Rattle.std.specs.Prelude.{◌≡◌, true, false};
ghost use Rattle.toml_edit_repr.specs.Modes.{mode_of};
ghost use Rattle.toml_edit_tree.specs.View.{fields_view, item_view, items_view, slots_view, value_view};
ghost use Rattle.toml_edit_fits.specs.FitTests as tests;
ghost use Rattle.toml_edit_fits.specs.MisfitViews.{Reports};
ghost use Rattle.toml_edit_fits.specs.Misfits as spec;
ghost use Rattle.toml_edit_fits.specs.LinePlaces.{enters, place_misfits, room_of, slot_misfits};

use crate::misfit::FitRule;
use crate::report::Report;
use crate::route::{Route, element_fits, no_keys, pair_fits, path_rule, then_key};
use crate::trivia::is_whole;
use toml_edit_key::Key;
use toml_edit_repr::Mode;
use toml_edit_slots::Slots;
use toml_edit_syntax::NESTING_LIMIT;
use toml_edit_tree::{Item, Table, Value};

/// Where lines or pairs are: in a table, or in an inline table in which so many more brackets may be
/// opened.
#[derive(Clone, Copy)]
pub(crate) enum Place {
    Table,
    Braces(usize),
}

/// Returns how many brackets the values there may open.
fn room_in(place: Place) -> usize
    ensures { result ≡ room_of place }
{
    match place {
        Place::Table => NESTING_LIMIT,
        Place::Braces(room) => room,
    }
}

/// Returns `true` if the table has its lines or pairs there.
fn is_entered(place: Place, table: &Table) -> bool
    ensures { result ≡ enters place (fields_view table.now) }
{
    match place {
        Place::Table => table.is_dotted(),
        Place::Braces(_) => true,
    }
}

/// Returns `true` if the decors inside a value suit their places, no more than so many brackets
/// open in it, and its paths have few enough keys.
#[cycle(value)]
fn value_fits<R: Report>(report: &mut R, mode: Mode, room: usize, value: &Value) -> bool
    ensures { Reports R.tells (spec.value_misfits (mode_of mode) room (value_view value.now))
        true false result report.new }
{
    match value {
        Value::Array(array) => {
            report.check(room > 0, FitRule::Limits)
                && report.check(is_whole(mode, Some(array.trailing())), FitRule::Decor)
                && items_fit(report, mode, room - 1, &array.values)
        }
        Value::InlineTable(table) => {
            report.check(room > 0, FitRule::Limits)
                && report.check(is_whole(mode, Some(table.trailing())), FitRule::Decor)
                && lines_fit(
                    report,
                    mode,
                    Place::Braces(room - 1),
                    no_keys(),
                    &table.items,
                )
        }
        Value::String(_)
        | Value::Integer(_)
        | Value::Float(_)
        | Value::Boolean(_)
        | Value::Datetime(_) => true,
    }
}

/// Returns `true` if the elements of an array fit.
#[cycle(value)]
fn items_fit<R: Report>(report: &mut R, mode: Mode, room: usize, items: &Vec<Item>) -> bool
    ensures { Reports R.tells (spec.items_misfits (mode_of mode) room 0
        (items_view items.now.items)) true false result report.new }
{
    'items: for (number, item) in items.iter().enumerate() {
        if !item_fits(report, mode, room, item) {
            report.report_element(number);
            return false;
        }
    }
    true
}

/// Returns `true` if an item of an array fits. One that is not a value is not printed.
#[cycle(value)]
fn item_fits<R: Report>(report: &mut R, mode: Mode, room: usize, item: &Item) -> bool
    ensures { Reports R.tells (spec.item_misfits (mode_of mode) (item_view item.now)
        (spec.value_misfits (mode_of mode) room (item_view item.now)))
        true false result report.new }
{
    match item {
        Item::Value(value) => {
            report.check(element_fits(mode, value.decor()), FitRule::Decor)
                && value_fits(report, mode, room, value)
        }
        Item::None | Item::Table(_) | Item::ArrayOfTables(_) => true,
    }
}

/// Returns `true` if the lines of a table or the pairs in an inline table fit, with the keys before
/// them.
#[cycle(value)]
pub(crate) fn lines_fit<R: Report>(
    report: &mut R,
    mode: Mode,
    place: Place,
    route: Route,
    slots: &Slots<Item>,
) -> bool
    ensures { Reports R.tells (place_misfits (mode_of mode) place route (slots_view slots.now))
        true false result report.new }
{
    let entries = slots.as_slice();
    'slots: for slot in entries {
        if !slot_fits(report, mode, place, route, &slot.key, &slot.item) {
            report.report_key(&slot.key);
            return false;
        }
    }
    true
}

/// Returns `true` if a slot fits: its line or pair, or those in its table.
///
/// In a table, one that isn't dotted has a header, and is looked at with that.
#[cycle(value)]
fn slot_fits<R: Report>(
    report: &mut R,
    mode: Mode,
    place: Place,
    route: Route,
    key: &Key,
    item: &Item,
) -> bool
    ensures { Reports R.tells (slot_misfits (mode_of mode) place route key.now (item_view item.now))
        true false result report.new }
{
    match item {
        Item::Value(value) => pair_value_fits(report, mode, room_in(place), route, key, value),
        Item::Table(table) => {
            if is_entered(place, table) {
                lines_fit(
                    report,
                    mode,
                    place,
                    then_key(mode, route, key),
                    &table.slots,
                )
            } else {
                true
            }
        }
        Item::None | Item::ArrayOfTables(_) => true,
    }
}

/// Returns `true` if the pair of a value fits, or those in a dotted inline table.
#[cycle(value)]
fn pair_value_fits<R: Report>(
    report: &mut R,
    mode: Mode,
    room: usize,
    route: Route,
    key: &Key,
    value: &Value,
) -> bool
    ensures { Reports R.tells (spec.pair_misfits (mode_of mode) room route key.now
        (value_view value.now) (spec.value_misfits (mode_of mode) room (value_view value.now))
        (spec.within_misfits (mode_of mode) room (tests.then_key (mode_of mode) route key.now)
        (value_view value.now))) true false result report.new }
{
    if let Value::InlineTable(table) = value {
        if table.is_dotted() {
            return lines_fit(
                report,
                mode,
                Place::Braces(room),
                then_key(mode, route, key),
                &table.items,
            );
        }
    }
    report.check(
        pair_fits(mode, room, route, key, value.decor()),
        path_rule(route),
    ) && value_fits(report, mode, room, value)
}
