//! Conversions in place: of items to values, and of values to tables. The list of slots is kept, so
//! none takes memory.
ghost use Rattle.std.specs.Prelude.{◌≡◌, None, Some, IfErr, IfOk, map};
ghost use Rattle.toml_edit_model.specs.Conversions.{into_table, into_tables, into_value, made_table, made_value, may_be_tables, new_array, new_inline, with_decor};
ghost use Rattle.toml_edit_model.specs.Tree.{inline, is_value_node, list, unset};
ghost use Rattle.toml_edit_tree.specs.Containers.{array_node, inline_node, table_node, tables_node};
ghost use Rattle.toml_edit_tree.specs.Converting.{each_made, each_slot_made, formatted_elements, formatted_slots, in_new_form, inside_made, suits_tables, tables_made};
ghost use Rattle.toml_edit_tree.specs.View.{array_view, inline_view, item_view, items_view, slots_view, table_view, tables_view, value_view};

use crate::array::Array;
use crate::array_of_tables::ArrayOfTables;
use crate::inline_table::InlineTable;
use crate::item::Item;
use crate::table::Table;
use crate::value::Value;
use std::mem;
use toml_edit_repr::{Decor, RawString};
use toml_edit_slots::Slots;

impl Item {
    /// Converts the item into a value: a table into an inline table, and an array of tables into an
    /// array.
    ///
    /// The items below them are converted too. A value is returned as it is. Of a table, the decors
    /// of keys and values are unset and the header is dropped, so its comments are removed: read
    /// them first by [`Decor::comments_before`] and [`Decor::comment_after`].
    ///
    /// # Errors
    ///
    /// Returns the item if it is a placeholder.
    pub fn into_value(self) -> Result<Value, Item>
        ensures ok { IfOk result (λ value. into_value (item_view self) ≡ Some (value_view value)) }
        ensures err { IfErr result (λ item. (into_value (item_view self) ≡ None) × (item ≡ self)) }
    {
        match self {
            Item::None => Err(Item::None),
            Item::Value(value) => Ok(value),
            Item::Table(table) => Ok(Value::InlineTable(table.into_inline_table())),
            Item::ArrayOfTables(tables) => Ok(Value::Array(tables.into_array())),
        }
    }

    /// Makes the item a value, as [`into_value`](Self::into_value) does. A placeholder stays one.
    pub fn make_value(&mut self)
        ensures { item_view self.new ≡ made_value (item_view self.old) }
    {
        make_inside(self);
        renew(self);
    }

    /// Converts the item into a table.
    ///
    /// A table is returned as it is. An inline table is converted as by
    /// [`InlineTable::into_table`], with the decors of its keys and values unset.
    ///
    /// # Errors
    ///
    /// Returns the item, unchanged, if it is neither a table nor an inline table.
    pub fn into_table(self) -> Result<Table, Item>
        ensures ok { IfOk result
            (λ table. into_table (item_view self) ≡ Some (table_node (table_view table))) }
        ensures err { IfErr result (λ item. (into_table (item_view self) ≡ None) × (item ≡ self)) }
    {
        match self {
            Item::Table(table) => Ok(table),
            Item::Value(value) => match value {
                Value::InlineTable(table) => Ok(table.into_table()),
                other => Err(Item::Value(other)),
            },
            other => Err(other),
        }
    }

    /// Converts the item into an array of tables.
    ///
    /// An array of tables is returned as it is. An array is converted if it has at least one slot,
    /// and no values but inline tables: each becomes a table as by [`InlineTable::into_table`], and
    /// the other slots stay.
    ///
    /// # Errors
    ///
    /// Returns the item, unchanged, if it is anything else.
    pub fn into_array_of_tables(self) -> Result<ArrayOfTables, Item>
        ensures ok { IfOk result
            (λ tables. into_tables (item_view self) ≡ Some (tables_node (tables_view tables))) }
        ensures err { IfErr result (λ item. (into_tables (item_view self) ≡ None) × (item ≡ self)) }
    {
        match self {
            Item::ArrayOfTables(tables) => Ok(tables),
            Item::Value(value) => match value {
                Value::Array(array) => match array_as_tables(array) {
                    Ok(tables) => Ok(tables),
                    Err(array) => Err(Item::Value(Value::Array(array))),
                },
                other => Err(Item::Value(other)),
            },
            other => Err(other),
        }
    }
}

impl Table {
    /// Converts the table into an inline table of its slots.
    ///
    /// Each item is made a value, as by [`Item::make_value`]. The decors of the values and of their
    /// keys are unset, and the decor, the position and the flags of the table are dropped, so its
    /// comments are removed: read them first by [`Decor::comments_before`] and
    /// [`Decor::comment_after`]. Spellings stay.
    pub fn into_inline_table(self) -> InlineTable
        ensures { inline_node (inline_view result) ≡ made_value (table_node (table_view self)) }
    {
        let mut slots = self.into_slots();
        make_slots(&mut slots);
        inline_of(slots)
    }
}

impl ArrayOfTables {
    /// Converts the array of tables into an array of its slots.
    ///
    /// Each table is made an inline table, as by [`Table::into_inline_table`], which removes the
    /// comments of its header, keys and values. The array is formatted on one line, as by
    /// [`Array::fmt`](Array::fmt).
    pub fn into_array(self) -> Array
        ensures { array_node (array_view result) ≡ made_value (tables_node (tables_view self)) }
    {
        let mut items = self.into_values();
        make_items(&mut items);
        array_of(items)
    }
}

impl InlineTable {
    /// Converts the inline table into a table of its slots.
    ///
    /// The decors of the values and of their keys are unset, and all else of the inline table is
    /// dropped: its decor, what is before the closing brace, and the flag `dotted`. So its comments
    /// are removed. To keep those above its key and after it, move them to the decor of the header,
    /// as `give_header` of the guide does. Spellings stay, and so do inline tables inside. The
    /// table has no position.
    pub fn into_table(self) -> Table
        ensures { table_node (table_view result) ≡ made_table (inline_node (inline_view self)) }
    {
        let mut slots = self.into_slots();
        format_slots(&mut slots);
        Table::of_slots(slots)
    }
}

// ---- to values

/// Makes each item inside a table or an array of tables a value.
#[cycle(convert)]
fn make_inside(item: &mut Item)
    ensures { item_view item.new ≡ inside_made (item_view item.old) }
{
    match item {
        Item::None => {}
        Item::Value(_) => {}
        Item::Table(table) => make_inside_table(table),
        Item::ArrayOfTables(tables) => make_inside_tables(tables),
    }
}

/// Makes each item in a table a value.
#[cycle(convert)]
fn make_inside_table(table: &mut Table)
    ensures { table_node (table_view table.new) ≡ inside_made (table_node (table_view table.old)) }
{
    make_slots(&mut table.slots);
}

/// Makes each item in an array of tables a value.
#[cycle(convert)]
fn make_inside_tables(tables: &mut ArrayOfTables)
    ensures { tables_node (tables_view tables.new)
        ≡ inside_made (tables_node (tables_view tables.old)) }
{
    make_items(&mut tables.values);
}

/// Makes the item of each slot a value. What it holds comes first, so that no table is left inside.
#[cycle(convert)]
fn make_slots(slots: &mut Slots<Item>)
    ensures { slots_view slots.new ≡ each_slot_made (slots_view slots.old) }
{
    for at in 0..slots.len() {
        let item = slots.item_mut(at);
        make_inside(item);
        renew(item);
    }
}

/// Makes each item a value, from the inside out.
#[cycle(convert)]
fn make_items(items: &mut Vec<Item>)
    ensures { items_view items.new.items ≡ each_made (items_view items.old.items) }
{
    for at in 0..items.len() {
        let item = &mut items[at];
        make_inside(item);
        renew(item);
    }
}

/// Makes a table the inline table of its slots, and an array of tables the array of its slots.
fn renew(item: &mut Item)
    ensures { item_view item.new ≡ in_new_form (item_view item.old) }
{
    let made = into_new_form(mem::replace(item, Item::None));
    drop(mem::replace(item, made));
}

/// Returns a table as an inline table, an array of tables as an array, and any other item as it is.
fn into_new_form(item: Item) -> Item
    ensures { item_view result ≡ in_new_form (item_view item) }
{
    match item {
        Item::Table(table) => Item::Value(Value::InlineTable(inline_of(table.into_slots()))),
        Item::ArrayOfTables(tables) => Item::Value(Value::Array(array_of(tables.into_values()))),
        other => other,
    }
}

/// Makes a new inline table of these slots, formatted.
fn inline_of(slots: Slots<Item>) -> InlineTable
    ensures { inline_node (inline_view result)
        ≡ inline new_inline (formatted_slots (slots_view slots)) }
{
    let mut items = slots;
    format_slots(&mut items);
    InlineTable {
        items,
        decor: Decor::default(),
        dotted: false,
        trailing: RawString::default(),
        trailing_comma: false,
        is_read: false,
        span: (0, 0),
    }
}

/// Makes a new array of these items, formatted.
fn array_of(items: Vec<Item>) -> Array
    ensures { array_node (array_view result)
        ≡ list new_array (formatted_elements (items_view items.items)) }
{
    let mut array = bare_array(items);
    array.fmt();
    array
}

/// Makes a new array of these items as they are.
fn bare_array(values: Vec<Item>) -> Array
    ensures { array_view result ≡ record { fields = new_array; items = items_view values.items } }
{
    Array {
        values,
        decor: Decor::default(),
        trailing: RawString::default(),
        trailing_comma: false,
        span: None,
    }
}

// ---- to tables

/// Converts an array into an array of tables, or returns it where that can't be.
fn array_as_tables(array: Array) -> Result<ArrayOfTables, Array>
    ensures ok { IfOk result
        (λ tables. into_tables (array_node (array_view array))
        ≡ Some (tables_node (tables_view tables))) }
    ensures err { IfErr result
        (λ back. (into_tables (array_node (array_view array)) ≡ None) × (back ≡ array)) }
{
    if can_be_tables(array.values.as_slice()) {
        Ok(tables_of_items(array.into_values()))
    } else {
        Err(array)
    }
}

/// Returns `true` if there is an item, and no value but inline tables.
fn can_be_tables(items: &[Item]) -> bool
    ensures { result ≡ may_be_tables (map item_view items.now) }
{
    for item in items {
        if !can_be_table(item) {
            return false;
        }
    }
    !items.is_empty()
}

/// Returns `true` if the item is an inline table or no value.
fn can_be_table(item: &Item) -> bool
    ensures { result ≡ suits_tables (item_view item.now) }
{
    match item {
        Item::Value(value) => value.is_inline_table(),
        _ => true,
    }
}

/// Makes a new array of tables of these items, with each inline table made a table.
fn tables_of_items(items: Vec<Item>) -> ArrayOfTables
    ensures { tables_view result
        ≡ record { extent = None; items = tables_made (items_view items.items) } }
{
    let mut values = items;
    make_tables(&mut values);
    ArrayOfTables { values, span: None }
}

/// Makes each inline table a table.
fn make_tables(items: &mut Vec<Item>)
    ensures { items_view items.new.items ≡ tables_made (items_view items.old.items) }
{
    for at in 0..items.len() {
        make_table(&mut items[at]);
    }
}

/// Makes an inline table a table.
fn make_table(item: &mut Item)
    ensures { item_view item.new ≡ made_table (item_view item.old) }
{
    let made = as_table(mem::replace(item, Item::None));
    drop(mem::replace(item, made));
}

/// Returns an inline table as a table, and any other item as it is.
fn as_table(item: Item) -> Item
    ensures { item_view result ≡ made_table (item_view item) }
{
    match item {
        Item::Value(value) => match value {
            Value::InlineTable(table) => Item::Table(table.into_table()),
            other => Item::Value(other),
        },
        other => other,
    }
}

// ---- the decors of what a container holds

/// Unsets the decors of each value and of its key.
pub(crate) fn format_slots(slots: &mut Slots<Item>)
    ensures { slots_view slots.new ≡ formatted_slots (slots_view slots.old) }
{
    for at in 0..slots.len() {
        let is_value = undecorate(slots.item_mut(at));
        if is_value {
            slots.clear_decors(at);
        }
    }
}

/// Unsets the decor of a value, and returns whether the item is one.
fn undecorate(item: &mut Item) -> bool
    ensures kind { result ≡ is_value_node (item_view item.old) }
    ensures item { item_view item.new ≡ with_decor unset (item_view item.old) }
{
    match item {
        Item::Value(value) => {
            value.undecorate();
            true
        }
        _ => false,
    }
}
