//! Questions on tables, arrays of tables and items, and steps that change them.
use crate::program::Tables;
use crate::{convert, document, indexing, item, slots, tables};
use serde_json::Value as Json;
use test_rows_read::steps::{Asks, Tries, behind, copied, is_true, word};
use test_rows_read::{Answer, Row, array, key, lines, make, refusal, steps, value};
use toml_edit::{ArrayOfTables, FromStr, Item, Table, Value};

/// Answers rows on an item that is made from the row's words.
pub fn answer(row: Row<'_>, out: &mut Answer) {
    match row.question {
        "as_item" | "into_item" | "owned_into_item" => out.no_such(row.question),
        _ => steps::found::<Tables, _>(make::item::<Tables>(row.text(), out), row, out),
    }
}

/// Answers rows on a lone value that is parsed as an item.
pub fn read(row: Row<'_>, out: &mut Answer) {
    match row.question {
        "steps" | "into_item" | "owned_into_item" => out.no_such(row.question),
        _ => steps::read::<Tables, _>(Item::from_str(out.alloc, row.text()), row, out),
    }
}

impl Tries<Item> for Tables {
    fn call(item: &mut Item, words: &[Json], out: &mut Answer) {
        match item {
            Item::Table(table) if word(words, 0) == "as_table_mut" => {
                change(table, behind(words, 1), out);
            }
            _ => change_item(item, words, out),
        }
    }

    fn answer(_: &Item, question: &str, out: &mut Answer) {
        match question {
            "steps" | "into_item" | "owned_into_item" | "as_item" => {}
            _ => refusal::of_accepted(question, out),
        }
    }
}

/// What the words at the front of a step lead to.
#[derive(Clone, Copy)]
enum Place<'v> {
    Table(&'v Table),
    Item(&'v Item),
    Tables(&'v ArrayOfTables),
    /// Nothing is there. This is the answer then.
    Nowhere(&'static str),
}

/// Goes down as far as the words at the front say, and returns the words after them.
fn down<'v, 'a>(place: Place<'v>, words: &'a [Json]) -> (Place<'v>, &'a [Json]) {
    let mut place = place;
    let mut words = words;
    for _ in 0..words.len() {
        let Some((inner, used)) = step(place, words) else {
            break;
        };
        place = inner;
        words = behind(words, used);
    }
    (place, words)
}

/// Returns what the first words lead to, and their number, if they go down.
fn step<'v>(place: Place<'v>, words: &[Json]) -> Option<(Place<'v>, usize)> {
    let call = word(words, 0);
    match place {
        Place::Table(table) if call == "get" => Some((item_at(table, word(words, 1)), 2)),
        Place::Item(item) if call == "as_table" => Some((table_of(item), 1)),
        Place::Item(item) if call == "as_array_of_tables" => Some((tables_of(item), 1)),
        Place::Tables(tables) if call == "iter" => Some((element(tables, word(words, 1)), 2)),
        Place::Tables(tables) if call == "get" => Some((table_at(tables, word(words, 1)), 2)),
        _ => None,
    }
}

fn item_at<'v>(table: &'v Table, name: &str) -> Place<'v> {
    match table.get(name) {
        Some(item) => Place::Item(item),
        None => Place::Nowhere("none"),
    }
}

fn table_of(item: &Item) -> Place<'_> {
    match item.as_table() {
        Some(table) => Place::Table(table),
        None => Place::Nowhere("no table"),
    }
}

fn tables_of(item: &Item) -> Place<'_> {
    match item.as_array_of_tables() {
        Some(tables) => Place::Tables(tables),
        None => Place::Nowhere("no array of tables"),
    }
}

/// Returns the table at a place of what the iterator gives.
fn element<'v>(tables: &'v ArrayOfTables, at: &str) -> Place<'v> {
    let mut left = at.parse::<usize>().ok();
    for table in tables.iter() {
        match left {
            Some(0) => return Place::Table(table),
            Some(more) => left = more.checked_sub(1),
            None => {}
        }
    }
    Place::Nowhere("none")
}

fn table_at<'v>(tables: &'v ArrayOfTables, at: &str) -> Place<'v> {
    match tables.get(at.parse::<usize>().unwrap_or(usize::MAX)) {
        Some(table) => Place::Table(table),
        None => Place::Nowhere("none"),
    }
}

/// Answers a question on a table, or on what is in it.
pub fn ask(table: &Table, words: &[Json], out: &mut Answer) {
    ask_from(Place::Table(table), words, out);
}

/// Answers a question on an item, or on what is in it.
pub fn ask_item(item: &Item, words: &[Json], out: &mut Answer) {
    ask_from(Place::Item(item), words, out);
}

/// Answers a question on an array of tables, or on what is in it.
pub fn ask_tables(tables: &ArrayOfTables, words: &[Json], out: &mut Answer) {
    ask_from(Place::Tables(tables), words, out);
}

fn ask_from(place: Place<'_>, words: &[Json], out: &mut Answer) {
    let (place, words) = down(place, words);
    let rest = behind(words, 1);
    match place {
        Place::Table(table) if word(words, 0) == "clone" => {
            copied::<Tables, _>(table.clone(out.alloc), rest, out);
        }
        Place::Item(item) if word(words, 0) == "clone" => copied::<Tables, _>(
            item.clone(out.alloc),
            rest,
            out,
        ),
        Place::Item(item) if word(words, 0) == "clone_alone" => {
            document::ask_alone(item.clone(out.alloc), rest, out);
        }
        Place::Tables(tables) if word(words, 0) == "clone" => {
            copied::<Tables, _>(tables.clone(out.alloc), rest, out);
        }
        _ => tell(place, words, out),
    }
}

impl Asks<Table> for Tables {
    fn ask(copy: &Table, words: &[Json], out: &mut Answer) {
        let (place, words) = down(Place::Table(copy), words);
        tell(place, words, out);
    }
}

impl Asks<Item> for Tables {
    fn ask(copy: &Item, words: &[Json], out: &mut Answer) {
        let (place, words) = down(Place::Item(copy), words);
        tell(place, words, out);
    }
}

impl Asks<ArrayOfTables> for Tables {
    fn ask(copy: &ArrayOfTables, words: &[Json], out: &mut Answer) {
        let (place, words) = down(Place::Tables(copy), words);
        tell(place, words, out);
    }
}

fn tell(place: Place<'_>, words: &[Json], out: &mut Answer) {
    match place {
        Place::Table(table) => tell_table(table, words, out),
        Place::Item(item) => tell_item(item, words, out),
        Place::Tables(tables) => tell_tables(tables, words, out),
        Place::Nowhere(told) => out.text(told),
    }
}

fn tell_table(table: &Table, words: &[Json], out: &mut Answer) {
    match word(words, 0) {
        "iter" => lines::names(table.iter(), out),
        "key" => key::ask_found(table.key(word(words, 1)), behind(words, 2), out),
        "is_implicit" => out.truth(table.is_implicit()),
        "is_dotted" => out.truth(table.is_dotted()),
        "position" => out.shown_or_none(table.position().as_ref()),
        "decor" => value::ask_decor(table.decor(), word(words, 1), out),
        "span" => out.span(table.span()),
        "brackets" => indexing::read_of_table(table, word(words, 1), out),
        _ => slots::tell(table, words, out),
    }
}

/// Writes of which kind an item is. Any other call is one of the value that it holds.
fn tell_item(item: &Item, words: &[Json], out: &mut Answer) {
    match word(words, 0) {
        "is_none" => out.truth(item.is_none()),
        "is_value" => out.truth(item.is_value()),
        "is_table" => out.truth(item.is_table()),
        "is_array_of_tables" => out.truth(item.is_array_of_tables()),
        "type_name" => out.text(item.type_name()),
        "as_value" => tell_value(item.as_value(), behind(words, 1), out),
        "item_get" | "item_get_text" | "item_brackets" => indexing::ask(item, words, out),
        call if call.starts_with("item_") => item::tell(item, call, out),
        _ => tell_value(item.as_value(), words, out),
    }
}

fn tell_value(found: Option<&Value>, words: &[Json], out: &mut Answer) {
    match found {
        Some(found) => value::ask(found, words, out),
        None => out.text("no value"),
    }
}

fn tell_tables(tables: &ArrayOfTables, words: &[Json], out: &mut Answer) {
    match word(words, 0) {
        "len" => out.shown(&tables.len()),
        "is_empty" => out.truth(tables.is_empty()),
        "span" => out.span(tables.span()),
        "into_array" => convert::into_array(tables.clone(out.alloc), out),
        "into_iter" => steps::given_up(tables.clone(out.alloc), out),
        "to_string" => out.shown(tables),
        call => out.no_such(call),
    }
}

/// Makes a step with a table, or with an item of it. The answer to a call that changes something is
/// empty.
pub fn change(table: &mut Table, words: &[Json], out: &mut Answer) {
    match word(words, 0) {
        "get_mut" => change_found(table.get_mut(word(words, 1)), behind(words, 2), out),
        _ => change_here(table, words, out),
    }
}

fn change_here(table: &mut Table, words: &[Json], out: &mut Answer) {
    match word(words, 0) {
        "set_implicit" => table.set_implicit(is_true(words)),
        "set_dotted" => table.set_dotted(is_true(words)),
        "set_position" => table.set_position(word(words, 1).parse::<isize>().ok()),
        "forget_positions" => table.forget_positions(),
        "decor_mut" => value::change_decor(table.decor_mut(), behind(words, 1), out),
        "index_or_insert" => indexing::go_down(table, words, out),
        _ => slots::change(table, words, out),
    }
}

/// Makes a step with a table inside another item, or with a table of it.
pub fn change_below(table: &mut Table, words: &[Json], out: &mut Answer) {
    match word(words, 0) {
        "get_mut" => change_table(table.get_mut(word(words, 1)), behind(words, 2), out),
        _ => change_here(table, words, out),
    }
}

/// Makes a step with a table that is lent, if one is.
pub fn change_lent(table: Option<&mut Table>, words: &[Json], out: &mut Answer) {
    match table {
        Some(table) => change_here(table, words, out),
        None => out.text("none"),
    }
}

fn change_table(item: Option<&mut Item>, words: &[Json], out: &mut Answer) {
    match item {
        Some(Item::Table(table)) if word(words, 0) == "as_table_mut" => {
            change_here(table, behind(words, 1), out);
        }
        _ => out.text("none"),
    }
}

fn change_found(item: Option<&mut Item>, words: &[Json], out: &mut Answer) {
    match item {
        Some(item) => change_item(item, words, out),
        None => out.text("none"),
    }
}

/// Makes a step with an item: with its table, its array of tables, its value, or the item itself.
fn change_item(item: &mut Item, words: &[Json], out: &mut Answer) {
    let rest = behind(words, 1);
    match word(words, 0) {
        "as_table_mut" => match item.as_table_mut() {
            Some(table) => change_below(table, rest, out),
            None => out.text("none"),
        },
        "as_array_of_tables_mut" => tables::change_found(item.as_array_of_tables_mut(), rest, out),
        "item_as_array_mut" => array::change_found(item.as_array_mut(), rest, out),
        "as_value_mut" => match item.as_value_mut() {
            Some(value) => value::change(value, rest, out),
            None => out.text("none"),
        },
        "make_value" => item.make_value(),
        "item_or_insert" | "index_or_insert" => indexing::change(item, words, out),
        call if call.starts_with("item_get_mut") => indexing::change(item, words, out),
        "into_value" | "into_table" | "into_array_of_tables" => convert::change(item, words, out),
        _ => change_value(item, words, out),
    }
}

/// Makes a step with the value that an item holds, or answers a question on the item.
fn change_value(item: &mut Item, words: &[Json], out: &mut Answer) {
    let call = word(words, 0);
    match item {
        Item::Value(value) if call.starts_with("set_") || call.ends_with("_mut") => {
            value::change(value, words, out);
        }
        _ => ask_item(item, words, out),
    }
}
