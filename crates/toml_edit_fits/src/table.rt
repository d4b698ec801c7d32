//! Checking tables, but for the order of their headers.
ghost use Rattle.std.specs.Prelude.{◌≡◌, ◌++◌, true, false};
ghost use Rattle.toml_edit_laws.specs.PrintByVisits as visits;
ghost use Rattle.toml_edit_repr.specs.Modes.{mode_of};
ghost use Rattle.toml_edit_tree.specs.View.{fields_view, item_view, items_view, slots_view, table_slots};
ghost use Rattle.toml_edit_fits.specs.FitTests as tests;
ghost use Rattle.toml_edit_fits.specs.MisfitViews.{Reports};
ghost use Rattle.toml_edit_fits.specs.Misfits as spec;

use crate::misfit::FitRule;
use crate::report::Report;
use crate::route::{Route, key_fits, no_keys, path_rule, then_key};
use crate::trivia::{ends_line, has_newline, is_final, is_white, is_whole};
use crate::value::{Place, lines_fit};
use toml_edit_key::Key;
use toml_edit_repr::{Decor, Mode, RawString};
use toml_edit_slots::Slots;
use toml_edit_tree::{Item, Table, table_has_lines};

/// Returns `true` if a table below the root has a header.
pub(crate) fn has_header(is_element: bool, table: &Table) -> bool
    ensures { result ≡ visits.has_own_header is_element (fields_view table.now)
        (table_slots table.now) }
{
    is_element || !table.is_implicit() || table_has_lines(table)
}

/// Returns `true` if the decor around the last key in a header's brackets suits its place.
fn brackets_fit(mode: Mode, decor: &Decor) -> bool
    ensures { result ≡ tests.brackets_fit (mode_of mode) decor.now }
{
    if has_newline(decor.prefix()) {
        is_whole(mode, decor.prefix())
    } else {
        is_white(mode, decor.prefix()) && is_white(mode, decor.suffix())
    }
}

/// Returns `true` if the decors in and around a header suit their places, and its path has few
/// enough keys.
fn header_fits(mode: Mode, route: Route, key: &Key, decor: &Decor) -> bool
    ensures { result ≡ tests.header_fits (mode_of mode) route key.now decor.now }
{
    key_fits(mode, route, key)
        && brackets_fit(mode, key.leaf_decor())
        && is_whole(mode, decor.prefix())
        && ends_line(mode, decor.suffix())
}

/// Returns `true` if the header and the lines of a table fit. A dotted table has neither, and may
/// be no element.
fn table_fits<R: Report>(
    report: &mut R,
    mode: Mode,
    route: Route,
    key: &Key,
    is_element: bool,
    table: &Table,
) -> bool
    ensures { Reports R.tells (spec.table_misfits (mode_of mode) route key.now is_element
        (fields_view table.now) (table_slots table.now)) true false result report.new }
{
    if table.is_dotted() {
        return report.check(!is_element, FitRule::Dotted);
    }
    let suits = !has_header(is_element, table) || header_fits(mode, route, key, table.decor());
    report.check(suits, path_rule(route))
        && lines_fit(report, mode, Place::Table, no_keys(), &table.slots)
}

/// Returns `true` if the tables below these slots fit.
#[cycle(tables)]
pub(crate) fn tables_fit<R: Report>(
    report: &mut R,
    mode: Mode,
    route: Route,
    slots: &Slots<Item>,
) -> bool
    ensures { Reports R.tells (spec.tables_misfits (mode_of mode) route (slots_view slots.now))
        true false result report.new }
{
    let entries = slots.as_slice();
    'slots: for slot in entries {
        if !node_fits(report, mode, route, &slot.key, &slot.item) {
            report.report_key(&slot.key);
            return false;
        }
    }
    true
}

/// Returns `true` if the tables of a slot fit: itself, or its elements, and those below.
#[cycle(tables)]
fn node_fits<R: Report>(report: &mut R, mode: Mode, route: Route, key: &Key, item: &Item) -> bool
    ensures { Reports R.tells (spec.node_misfits (mode_of mode) route key.now
        (item_view item.now)) true false result report.new }
{
    match item {
        Item::Table(table) => subtree_fits(report, mode, route, key, false, table),
        Item::ArrayOfTables(tables) => elements_fit(report, mode, route, key, &tables.values),
        Item::None | Item::Value(_) => true,
    }
}

/// Returns `true` if the elements of an array of tables fit, and the tables below them.
#[cycle(tables)]
fn elements_fit<R: Report>(
    report: &mut R,
    mode: Mode,
    route: Route,
    key: &Key,
    items: &Vec<Item>,
) -> bool
    ensures { Reports R.tells (spec.elements_misfits (mode_of mode) route key.now 0
        (items_view items.now.items)) true false result report.new }
{
    'items: for (number, item) in items.iter().enumerate() {
        if !as_element_fits(report, mode, route, key, item) {
            report.report_element(number);
            return false;
        }
    }
    true
}

/// Returns `true` if an item of an array of tables fits. One that is not a table is not printed.
#[cycle(tables)]
fn as_element_fits<R: Report>(
    report: &mut R,
    mode: Mode,
    route: Route,
    key: &Key,
    item: &Item,
) -> bool
    ensures { Reports R.tells (spec.element_misfits (mode_of mode) route key.now
        (item_view item.now)) true false result report.new }
{
    match item {
        Item::Table(table) => subtree_fits(report, mode, route, key, true, table),
        Item::None | Item::Value(_) | Item::ArrayOfTables(_) => true,
    }
}

/// Returns `true` if a table fits, and those below it.
#[cycle(tables)]
fn subtree_fits<R: Report>(
    report: &mut R,
    mode: Mode,
    route: Route,
    key: &Key,
    is_element: bool,
    table: &Table,
) -> bool
    ensures { Reports R.tells (spec.table_misfits (mode_of mode) route key.now is_element
        (fields_view table.now) (table_slots table.now)
        ++ spec.tables_misfits (mode_of mode) (tests.then_key (mode_of mode) route key.now)
        (table_slots table.now)) true false result report.new }
{
    table_fits(report, mode, route, key, is_element, table)
        && tables_fit(report, mode, then_key(mode, route, key), &table.slots)
}

/// Returns `true` if the root is not dotted, the decor around it and the trailing text suit their
/// places, and its lines fit.
pub(crate) fn root_fits<R: Report>(
    report: &mut R,
    mode: Mode,
    root: &Table,
    trailing: &RawString,
) -> bool
    ensures { Reports R.tells (spec.root_misfits (mode_of mode) (fields_view root.now)
        (table_slots root.now) trailing.now) true false result report.new }
{
    let suits = is_whole(mode, root.decor().prefix())
        && is_whole(mode, root.decor().suffix())
        && is_final(mode, Some(trailing));
    report.check(!root.is_dotted(), FitRule::Dotted)
        && report.check(suits, FitRule::Decor)
        && lines_fit(report, mode, Place::Table, no_keys(), &root.slots)
}
