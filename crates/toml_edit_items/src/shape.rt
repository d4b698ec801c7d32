//! The texts of items.
ghost use Rattle.std.specs.Prelude.{[], ◌≡◌, ◌++◌, IfOk, string_bytes};
ghost use Rattle.toml_edit_items.specs.Shapes.{HasNoShape, HasNoSpelling, IsShaped, IsSpelled, array_lines, as_root, element_line, has_newline, raw_line, without_decor};
ghost use Rattle.toml_edit_items.specs.Texts.{GivesLine, MayGive};
ghost use Rattle.toml_edit_model.specs.Mode.{plain};
ghost use Rattle.toml_edit_model.specs.Text.{newline};
ghost use Rattle.toml_edit_model.specs.Tree.{owned};
ghost use Rattle.toml_edit_tree.specs.Containers.{table_node};
ghost use Rattle.toml_edit_tree.specs.Printing.{node_text};
ghost use Rattle.toml_edit_tree.specs.View.{fields_view, item_view, table_slots, table_view, tree_view, value_view};

use std::alloc::Global;
use toml_edit::{DocumentMut, Item, Mem, Table, Value};
use toml_edit_tree::Bare;

/// How an item is written.
#[derive(Clone, Copy)]
pub enum Shape {
    /// As it is spelled: a value on a line, an array of tables as one of inline tables, and a table
    /// as a document, with the tables below it.
    Spelled,
    /// A string as its characters, another scalar as it is spelled.
    Raw,
    /// Each element of an array raw, one a line.
    Lines,
}

impl Shape {
    /// Returns the text of an item in this shape, or `None` if it has none: a table that is no
    /// document, raw what is no scalar, as lines what is no array of scalars, or has a string of
    /// several lines.
    ///
    /// A line ends in a newline: of `["a", 0xFF]`, the lines are `a` and `0xFF`.
    pub fn print(self, alloc: Global, item: &Item) -> Mem<Option<String>>
        ensures { MayGive (HasNoShape self (item_view item.now))
            (IsShaped self (item_view item.now)) result }
    {
        match self {
            Shape::Spelled => spelled(alloc, item),
            Shape::Raw => raw(alloc, item),
            Shape::Lines => lines(alloc, item),
        }
    }
}

fn spelled(alloc: Global, item: &Item) -> Mem<Option<String>>
    ensures { MayGive (HasNoSpelling (item_view item.now)) (IsSpelled (item_view item.now)) result }
{
    match item {
        Item::None => Ok(Some(String::new(alloc))),
        Item::Value(value) => Ok(Some(value_line(alloc, value)?)),
        Item::Table(table) => whole(alloc, table),
        Item::ArrayOfTables(tables) => Ok(Some(format!(in alloc; "{tables}\n")?)),
    }
}

/// Returns the spelling of a value, without the decor around it, and a newline.
fn value_line(alloc: Global, value: &Value) -> Mem<String>
    ensures { IfOk result
        (λ s. string_bytes s ≡ node_text plain (value_view value.now) ++ newline) }
{
    let mut text = toml_edit_io::print(alloc, &Bare(value))?;
    text.push('\n')?;
    Ok(text)
}

/// Returns a table as a document: its lines, and the headers of the tables below it. Returns `None`
/// if they are no document that means the table.
fn whole(alloc: Global, table: &Table) -> Mem<Option<String>>
    ensures { MayGive (HasNoSpelling (table_node (table_view table.now)))
        (IsSpelled (table_node (table_view table.now))) result }
{
    let document = DocumentMut::from(root_of(alloc, table)?);
    if document.fits(alloc)? {
        Ok(Some(document.print(alloc)?))
    } else {
        Ok(None)
    }
}

fn root_of(alloc: Global, table: &Table) -> Mem<Table>
    ensures { IfOk result (λ root. tree_view root (owned [])
        ≡ as_root (fields_view table.now) (table_slots table.now)) }
{
    let mut root = table.clone(alloc)?;
    root.set_dotted(false);
    root.set_implicit(false);
    root.set_position(Some(0));
    clear_decor(&mut root);
    Ok(root)
}

/// Removes the comments around the header of a table, which are not the table's.
fn clear_decor(table: &mut Table)
    ensures { table_view table.new ≡ without_decor (table_view table.old) }
{
    table.decor_mut().clear();
}

fn raw(alloc: Global, item: &Item) -> Mem<Option<String>>
    ensures { GivesLine (raw_line (item_view item.now)) result }
{
    match item {
        Item::Value(value) => raw_value(alloc, value),
        _ => Ok(None),
    }
}

fn raw_value(alloc: Global, value: &Value) -> Mem<Option<String>>
    ensures { GivesLine (raw_line (value_view value.now)) result }
{
    match value {
        Value::String(string) => Ok(Some(format!(in alloc; "{}\n", string.value().as_str())?)),
        Value::Array(_) | Value::InlineTable(_) => Ok(None),
        _ => Ok(Some(value_line(alloc, value)?)),
    }
}

fn lines(alloc: Global, item: &Item) -> Mem<Option<String>>
    ensures { GivesLine (array_lines (item_view item.now)) result }
{
    let Some(array) = item.as_array() else {
        return Ok(None);
    };
    let mut text = String::new(alloc);
    'values: for value in array.iter() {
        match element(alloc, value)? {
            Some(line) => text.push_str(line.as_str())?,
            None => return Ok(None),
        }
    }
    Ok(Some(text))
}

fn element(alloc: Global, value: &Value) -> Mem<Option<String>>
    ensures { GivesLine (element_line (value_view value.now)) result }
{
    if has_newline(value) {
        Ok(None)
    } else {
        raw_value(alloc, value)
    }
}

fn has_newline(value: &Value) -> bool
    ensures { result ≡ has_newline (value_view value.now) }
{
    match value {
        Value::String(string) => string.value().as_str().as_bytes().contains(&b'\n'),
        _ => false,
    }
}
