//! Items: what a table has under a key, and what it can be taken for. Conversions are in
//! `convert.rt`, and the trait for look-up by a number or a key in `index.rt`.
ghost use Rattle.std.specs.Borrow.{sem};
ghost use Rattle.std.specs.Prelude.{◌↔◌, ◌≡◌, IfErr, IfOk, IfSome, IsOk, IsSome, IsTrue, List, None, OnErr, OnOk, Some, is_some, option_and_then, option_map, true};
ghost use Rattle.toml_edit_datetime.specs.DatetimeView.{datetime_view};
ghost use Rattle.toml_edit_model.specs.Conversions.{item_display, with_decor, new_table};
ghost use Rattle.toml_edit_model.specs.Indexing.{index_or_inserted, indexed, item_under, number, text};
ghost use Rattle.toml_edit_model.specs.Lists.{items_in, on_slots, slots_in};
ghost use Rattle.toml_edit_model.specs.Slots.{place};
ghost use Rattle.toml_edit_model.specs.Tree.{is_value_node, no_items, no_slots, nothing};
ghost use Rattle.toml_edit_slots.specs.declared.slots.Slot.{Slot};
ghost use Rattle.toml_edit_tree.specs.Casts.{array_in, both_sides, datetime_in, float_in, inline_in, integer_in, text_in, truth_in, type_of};
ghost use Rattle.toml_edit_tree.specs.ContainerParts.{LendsTable, LendsTables};
ghost use Rattle.toml_edit_tree.specs.Containers.{table_in, table_node, tables_in, tables_node, value_in};
ghost use Rattle.toml_edit_tree.specs.ElementHolds.{table_held, value_held};
ghost use Rattle.toml_edit_tree.specs.ElementLending.{LendsValue};
ghost use Rattle.toml_edit_tree.specs.Elements.{listed};
ghost use Rattle.toml_edit_tree.specs.Indexed.{LendsSlotsIn, lent_under, or_else, shown_slots, slots_held, with_slots};
ghost use Rattle.toml_edit_tree.specs.InlineLending.{LendsOwnValue};
ghost use Rattle.toml_edit_tree.specs.ItemParts.{LendsArrayIn, LendsInlineIn, item_span};
ghost use Rattle.toml_edit_tree.specs.ItemPlaces.{LendsOwnTable};
ghost use Rattle.toml_edit_tree.specs.View.{array_view, inline_view, item_view, table_view, tables_view, value_view};
ghost use Rattle.toml_edit_tree.specs.declared.index.IndexFault.TheVariants.{WrongKind};

use crate::array::Array;
use crate::array_of_tables::ArrayOfTables;
use crate::copy::copy_item;
use crate::detach::detach_item;
use crate::index::{Index, IndexFault, filled_item, filled_place, find_or_add_slot, item_at};
use crate::inline_table::InlineTable;
use crate::table::Table;
use crate::value::Value;
use std::alloc::Global;
use std::ops::Range;
use std::{fmt, mem};
use toml_edit_datetime::{Datetime, FloatText};
use toml_edit_repr::{Mem, RawString};
use toml_edit_slots::Slots;

/// What a table has under a key: a value, a table, an array of tables, or nothing.
///
/// The slots of arrays and arrays of tables are items too.
///
/// # Examples
///
/// ```rust,ignore
/// root.get(table)?.get(key)?.as_integer()
/// ```
///
/// From `integer_at` of the crate `example_calls`.
#[cycle(tree)]
#[derive(Debug, Drop)]
pub enum Item {
    /// Nothing: a placeholder, which keeps its place and its key, but isn't printed.
    None,
    /// A value, inline tables and arrays included.
    Value(Value),
    /// A table with a header or of a dotted key (TOML, "Table").
    Table(Table),
    /// An array of tables (TOML, "Array of Tables").
    ArrayOfTables(ArrayOfTables),
}

/// Returns `Item::None`.
impl Default for Item {
    ghost is_default = { λ item. item_view item ≡ nothing };

    fn default() -> Item {
        Item::None
    }
}

// Placeholders
impl Item {
    /// Returns `true` if the item is a placeholder.
    pub fn is_none(&self) -> bool
        ensures { IsTrue result ↔ (item_view self.now ≡ nothing) }
    {
        matches!(self, Item::None)
    }

    /// Fills a placeholder with `item`, and returns a mutable reference to this item.
    ///
    /// Any other item stays, and `item` is dropped.
    pub fn or_insert(&mut self, item: Item) -> &mut Item
        ensures same_item { result.ghost_name ≡ self.entry.ghost_name }
        ensures item { item_view result.now ≡ or_else (item_view item) (item_view self.old) }
    {
        if self.is_none() {
            drop(mem::replace(self, item));
        } else {
            drop(item);
        }
        self
    }
}

// Look-up
impl Item {
    /// Returns the item that `index` finds, or `None` if there is none or this item is of another
    /// kind.
    ///
    /// A number finds a slot of an array or an array of tables, a placeholder too. A text finds an
    /// item of a table or an inline table that is not a placeholder. Indexing by `[..]` requires
    /// that there is one.
    ///
    /// # Examples
    ///
    /// ```rust,ignore
    /// root.get(table)?.get(key)?.as_integer()
    /// ```
    ///
    /// From `integer_at` of the crate `example_calls`.
    pub fn get<I: Index>(&self, index: I) -> Option<&Item>
        ensures { option_map (λ x. item_view x.now) result
            ≡ indexed (I.stands_for index) (item_view self.now) }
    {
        index.index(self)
    }

    /// Returns a mutable reference to the item that [`get`](Self::get) finds, or `None`.
    ///
    /// It never inserts: see [`index_or_insert`](Self::index_or_insert). No contract says what this
    /// item is after a write through the reference. Where a proof needs that, lend the slots by
    /// [`as_slots_mut`](Self::as_slots_mut), or an element by
    /// [`Array::slot_at_mut`](crate::Array::slot_at_mut) or
    /// [`ArrayOfTables::slot_at_mut`](crate::ArrayOfTables::slot_at_mut).
    pub fn get_mut<I: Index>(&mut self, index: I) -> Option<&mut Item>
        ensures { option_map (λ x. item_view x.now) result
            ≡ indexed (I.stands_for index) (item_view self.old) }
    {
        index.index_mut(self)
    }

    /// Returns a mutable reference to the item under `key`, after adding a placeholder if it is
    /// missing.
    ///
    /// It works on tables and inline tables. A new key has the default spelling and is added at the
    /// end. A placeholder first becomes an inline table, made by `alloc`.
    ///
    /// No contract says what this item is after an error, or after a write through the reference.
    /// Where a proof needs that, call [`find_or_add_slot`](Self::find_or_add_slot) and then
    /// [`as_slots_mut`](Self::as_slots_mut).
    ///
    /// # Errors
    ///
    /// Returns [`IndexFault::WrongKind`] if this item is neither a table, an inline table nor a
    /// placeholder. Returns [`IndexFault::Memory`] if out of memory, at a new key.
    pub fn index_or_insert(&mut self, alloc: Global, key: &str) -> Result<&mut Item, IndexFault>
        ensures item { IfOk result
            (λ lent. lent_under key.now (item_view self.old) ≡ Some (item_view lent.now)) }
        ensures kind { IfErr result
            (λ fault. (fault ≡ WrongKind)
            ↔ (index_or_inserted key.now (item_view self.old) ≡ None)) }
        ensures present { IsSome (item_under key.now (item_view self.old)) → IsOk result }
    {
        match self.find_or_add_slot(alloc, key) {
            Ok(at) => match self.as_slots_mut() {
                Some(slots) => Ok(slots.item_mut(at)),
                None => unreachable!(),
            },
            Err(fault) => Err(fault),
        }
    }

    /// Returns the number of the slot under `key`, after adding a placeholder if it is missing.
    ///
    /// It changes this item as [`index_or_insert`](Self::index_or_insert) does, and lends nothing:
    /// [`as_slots_mut`](Self::as_slots_mut) then lends the slot. In place of `index_or_insert` the
    /// two say what this item is after an error and after a write.
    ///
    /// # Errors
    ///
    /// Those of [`index_or_insert`](Self::index_or_insert). This item is unchanged then.
    pub fn find_or_add_slot(&mut self, alloc: Global, key: &str) -> Result<usize, IndexFault>
        ensures made { OnOk result
            (index_or_inserted key.now (item_view self.old) ≡ Some (item_view self.new)) }
        ensures place { IfOk result
            (λ at. option_and_then (place key.now) (slots_in (item_view self.new)) ≡ Some at) }
        ensures kind { IfErr result
            (λ fault. (fault ≡ WrongKind)
            ↔ (index_or_inserted key.now (item_view self.old) ≡ None)) }
        ensures present { IsSome (item_under key.now (item_view self.old)) → IsOk result }
        ensures err { OnErr result (self.new ≡ self.old) }
    {
        if self.is_none() {
            return match self.make_inline(alloc, key) {
                Ok(at) => Ok(at),
                Err(_) => Err(IndexFault::Memory),
            };
        }
        match self.as_slots_mut() {
            Some(slots) => match find_or_add_slot(slots, key) {
                Ok(at) => Ok(at),
                Err(_) => Err(IndexFault::Memory),
            },
            None => Err(IndexFault::WrongKind),
        }
    }

    /// Makes a placeholder an inline table with a placeholder under the key, and returns its
    /// number.
    fn make_inline(&mut self, alloc: Global, key: &str) -> Mem<usize>
        requires { item_view self.old ≡ nothing }
        ensures made { OnOk result (index_or_inserted key.now nothing ≡ Some (item_view self.new)) }
        ensures place { IfOk result
            (λ at. option_and_then (place key.now) (slots_in (item_view self.new)) ≡ Some at) }
        ensures err { OnErr result (self.new ≡ self.old) }
    {
        let mut table = InlineTable::new(alloc);
        match find_or_add_slot(&mut table.items, key) {
            Ok(at) => {
                drop(mem::replace(self, Item::Value(Value::InlineTable(table))));
                Ok(at)
            }
            Err(refused) => {
                drop(table);
                Err(refused)
            }
        }
    }

    /// Returns the slots of a table or an inline table, or `None` for any other item.
    ///
    /// The other fields of the table, such as its decor, are not part of them.
    pub fn as_slots(&self) -> Option<&Slots<Item>>
        ensures { option_map (λ es. shown_slots es.now) result ≡ slots_in (item_view self.now) }
    {
        match self {
            Item::Table(table) => Some(&table.slots),
            Item::Value(Value::InlineTable(table)) => Some(&table.items),
            _ => None,
        }
    }

    /// Returns a mutable reference to the slots of a table or an inline table, or `None` for any
    /// other item.
    ///
    /// Its contract says what this item is after a write, which that of
    /// [`get_mut`](Self::get_mut) does not.
    pub fn as_slots_mut(&mut self) -> Option<&mut Slots<Item>>
        ensures* writes_back { sem 𝓛 (LendsSlotsIn self.entry result) }
        ensures slots { option_map (λ es. shown_slots es.now) result
            ≡ slots_in (item_view self.old) }
        // Writing other slots replaces these alone, and writing them back changes nothing.
        ensures others { (es : List (Slot Item))
            → item_view (with_slots es self.old)
            ≡ on_slots (λ _. shown_slots es) (item_view self.old) }
        ensures own { IfSome result (λ es. with_slots es.now self.old ≡ self.old) }
    {
        self.own_slots_mut()
    }

    /// Returns a mutable reference to the slots of a table or an inline table, or `None`.
    fn own_slots_mut(&mut self) -> Option<&mut Slots<Item>>
        ensures* writes_back { sem 𝓛 (LendsSlotsIn self.entry result) }
        ensures slots { option_map (λ es. es.now) result ≡ slots_held self.old }
    {
        match self {
            Item::Table(table) => Some(table.own_slots_mut()),
            Item::Value(value) => value.own_slots_mut(),
            _ => None,
        }
    }

    /// Returns the slots of an array or an array of tables, or `None` for any other item.
    fn as_items(&self) -> Option<&[Item]>
        ensures { option_map (λ xs. listed xs.now) result ≡ items_in (item_view self.now) }
    {
        match self {
            Item::Value(Value::Array(array)) => Some(array.values.as_slice()),
            Item::ArrayOfTables(tables) => Some(tables.values.as_slice()),
            _ => None,
        }
    }

    /// Returns slot `at` of an array or an array of tables, a placeholder too.
    pub(crate) fn slot_at(&self, at: usize) -> Option<&Item>
        ensures { option_map (λ x. item_view x.now) result
            ≡ indexed (number at) (item_view self.now) }
    {
        match self.as_items() {
            Some(items) => item_at(items, at),
            None => None,
        }
    }

    /// Returns a mutable reference to slot `at` of an array or an array of tables, a placeholder
    /// too.
    pub(crate) fn slot_at_mut(&mut self, at: usize) -> Option<&mut Item>
        ensures { option_map (λ x. item_view x.now) result
            ≡ indexed (number at) (item_view self.old) }
    {
        match self {
            Item::Value(Value::Array(array)) => array.slot_at_mut(at),
            Item::ArrayOfTables(tables) => tables.slot_at_mut(at),
            _ => None,
        }
    }

    /// Returns the item under the key of a table or an inline table, unless it is a placeholder.
    pub(crate) fn item_under(&self, key: &str) -> Option<&Item>
        ensures { option_map (λ x. item_view x.now) result
            ≡ indexed (text key.now) (item_view self.now) }
    {
        match self.as_slots() {
            Some(slots) => filled_item(slots, key),
            None => None,
        }
    }

    /// Returns a mutable reference to the item under the key, unless it is a placeholder.
    pub(crate) fn item_under_mut(&mut self, key: &str) -> Option<&mut Item>
        ensures { option_map (λ x. item_view x.now) result
            ≡ indexed (text key.now) (item_view self.old) }
    {
        match self.as_slots_mut() {
            Some(slots) => match filled_place(slots, key) {
                Some(at) => Some(slots.item_mut(at)),
                None => None,
            },
            None => None,
        }
    }
}

// Kinds
impl Item {
    /// Returns the name of the item's type in the words of TOML, for messages.
    ///
    /// It is `none` for a placeholder, `table` or `array of tables`, and else the
    /// [`type_name`](Value::type_name) of the value.
    pub fn type_name(&self) -> &'static str
        ensures { result.now ≡ type_of (item_view self.now) }
    {
        match self {
            Item::None => "none",
            Item::Value(value) => value.type_name(),
            Item::Table(_) => "table",
            Item::ArrayOfTables(_) => "array of tables",
        }
    }

    /// Returns the value, or `None` for any other item.
    pub fn as_value(&self) -> Option<&Value>
        ensures { option_map (λ v. value_view v.now) result ≡ value_in (item_view self.now) }
    {
        match self {
            Item::Value(value) => Some(value),
            _ => None,
        }
    }

    /// Returns a mutable reference to the value, or `None` for any other item.
    ///
    /// A new value that is written there brings its own decor: to keep the comment after the old
    /// one, swap the two decors first, as `replace_value` of the guide does (docs/GUIDE.md).
    pub fn as_value_mut(&mut self) -> Option<&mut Value>
        ensures* writes_back { sem 𝓛 (LendsValue self.entry result) }
        ensures value { option_map (λ v. value_view v.now) result ≡ value_in (item_view self.old) }
    {
        match self {
            Item::Value(lent) => Some(lent),
            _ => None,
        }
    }

    /// Returns a mutable reference to the value of an item that is one.
    pub(crate) fn own_value_mut(&mut self) -> &mut Value
        requires { is_some (value_held self.old) ≡ true }
        ensures* writes_back { sem 𝓛 (LendsOwnValue self.entry result) }
        ensures value { value_held self.old ≡ Some result.now }
    {
        match self {
            Item::Value(lent) => lent,
            _ => unreachable!(),
        }
    }

    /// Returns the value of an item that is one.
    pub(crate) fn into_own_value(self) -> Value
        requires { is_some (value_held self) ≡ true }
        ensures { value_held self ≡ Some result }
    {
        match self {
            Item::Value(value) => value,
            _ => unreachable!(),
        }
    }

    /// Returns `true` if the item is a value, inline tables and arrays included.
    pub fn is_value(&self) -> bool
        ensures { result ≡ is_value_node (item_view self.now) }
    {
        self.as_value().is_some()
    }

    /// Returns the table, or `None` for any other item.
    ///
    /// An inline table is a value: see [`as_inline_table`](Self::as_inline_table). For both kinds
    /// of table use `as_table_like` of the trait `AsTableLike`.
    pub fn as_table(&self) -> Option<&Table>
        ensures { option_map (λ t. table_view t.now) result ≡ table_in (item_view self.now) }
    {
        match self {
            Item::Table(table) => Some(table),
            _ => None,
        }
    }

    /// Returns a mutable reference to the table, or `None` for any other item.
    ///
    /// An inline table is a value: see [`as_inline_table_mut`](Self::as_inline_table_mut). For both
    /// kinds of table use `as_table_like_mut` of the trait `AsTableLike`.
    ///
    /// # Examples
    ///
    /// The method is called in a closure, since it gets no proof where it is passed by its path.
    ///
    /// ```rust,ignore
    /// let table = root.get_mut(table).and_then(|item| item.as_table_mut());
    /// ```
    ///
    /// From `set_value` of the crate `example_calls`.
    pub fn as_table_mut(&mut self) -> Option<&mut Table>
        ensures* writes_back { sem 𝓛 (LendsTable self.entry result) }
        ensures table { option_map (λ t. table_view t.now) result ≡ table_in (item_view self.old) }
    {
        match self {
            Item::Table(lent) => Some(lent),
            _ => None,
        }
    }

    /// Returns a mutable reference to the table of an item that is one.
    pub(crate) fn own_table_mut(&mut self) -> &mut Table
        requires { is_some (table_held self.old) ≡ true }
        ensures* writes_back { sem 𝓛 (LendsOwnTable self.entry result) }
        ensures table { table_held self.old ≡ Some result.now }
    {
        match self {
            Item::Table(lent) => lent,
            _ => unreachable!(),
        }
    }

    /// Returns `true` if the item is a [`Table`], which an inline table is not.
    pub fn is_table(&self) -> bool
        ensures { result ≡ is_some (table_in (item_view self.now)) }
    {
        self.as_table().is_some()
    }

    /// Returns the array of tables, or `None` for any other item.
    ///
    /// An array of inline tables is a value: see [`as_array`](Self::as_array), and
    /// [`into_array_of_tables`](Self::into_array_of_tables) to convert one.
    pub fn as_array_of_tables(&self) -> Option<&ArrayOfTables>
        ensures { option_map (λ a. tables_view a.now) result ≡ tables_in (item_view self.now) }
    {
        match self {
            Item::ArrayOfTables(tables) => Some(tables),
            _ => None,
        }
    }

    /// Returns a mutable reference to the array of tables, or `None` for any other item.
    pub fn as_array_of_tables_mut(&mut self) -> Option<&mut ArrayOfTables>
        ensures* writes_back { sem 𝓛 (LendsTables self.entry result) }
        ensures tables { option_map (λ a. tables_view a.now) result
            ≡ tables_in (item_view self.old) }
    {
        match self {
            Item::ArrayOfTables(lent) => Some(lent),
            _ => None,
        }
    }

    /// Returns `true` if the item is an array of tables, which an array of inline tables is not.
    pub fn is_array_of_tables(&self) -> bool
        ensures { result ≡ is_some (tables_in (item_view self.now)) }
    {
        self.as_array_of_tables().is_some()
    }
}

// Kinds of values
impl Item {
    /// Returns the number of an integer, or `None` for any other item.
    ///
    /// # Examples
    ///
    /// ```rust,ignore
    /// root.get(table)?.get(key)?.as_integer()
    /// ```
    ///
    /// From `integer_at` of the crate `example_calls`.
    pub fn as_integer(&self) -> Option<i64>
        ensures { result ≡ integer_in (item_view self.now) }
    {
        match self {
            Item::Value(value) => value.as_integer(),
            _ => None,
        }
    }

    /// Returns `true` if the item is an integer.
    pub fn is_integer(&self) -> bool
        ensures { result ≡ is_some (integer_in (item_view self.now)) }
    {
        match self {
            Item::Value(value) => value.is_integer(),
            _ => false,
        }
    }

    /// Returns the text of a float, or `None` for any other item.
    ///
    /// A float is kept as its text, of any magnitude and never rounded, so there is no `as_float`.
    pub fn as_float_text(&self) -> Option<&FloatText>
        ensures { option_map (λ x. x.now) result ≡ float_in (item_view self.now) }
    {
        match self {
            Item::Value(value) => value.as_float_text(),
            _ => None,
        }
    }

    /// Returns `true` if the item is a float.
    pub fn is_float(&self) -> bool
        ensures { result ≡ is_some (float_in (item_view self.now)) }
    {
        match self {
            Item::Value(value) => value.is_float(),
            _ => false,
        }
    }

    /// Returns the boolean, or `None` for any other item.
    pub fn as_bool(&self) -> Option<bool>
        ensures { result ≡ truth_in (item_view self.now) }
    {
        match self {
            Item::Value(value) => value.as_bool(),
            _ => None,
        }
    }

    /// Returns `true` if the item is a boolean, whether `true` or `false`.
    pub fn is_bool(&self) -> bool
        ensures { result ≡ is_some (truth_in (item_view self.now)) }
    {
        match self {
            Item::Value(value) => value.is_bool(),
            _ => false,
        }
    }

    /// Returns the text of a string, without quotes and escapes, or `None` for any other item.
    pub fn as_str(&self) -> Option<&str>
        ensures { option_map (λ t. t.now) result ≡ text_in (item_view self.now) }
    {
        match self {
            Item::Value(value) => value.as_str(),
            _ => None,
        }
    }

    /// Returns `true` if the item is a string.
    pub fn is_str(&self) -> bool
        ensures { result ≡ is_some (text_in (item_view self.now)) }
    {
        match self {
            Item::Value(value) => value.is_str(),
            _ => false,
        }
    }

    /// Returns the date-time, date or time, or `None` for any other item.
    pub fn as_datetime(&self) -> Option<&Datetime>
        ensures { option_map (λ x. datetime_view x.now) result ≡ datetime_in (item_view self.now) }
    {
        match self {
            Item::Value(value) => value.as_datetime(),
            _ => None,
        }
    }

    /// Returns `true` if the item is a date-time, a date or a time.
    pub fn is_datetime(&self) -> bool
        ensures { result ≡ is_some (datetime_in (item_view self.now)) }
    {
        match self {
            Item::Value(value) => value.is_datetime(),
            _ => false,
        }
    }

    /// Returns the array, or `None` for any other item.
    pub fn as_array(&self) -> Option<&Array>
        ensures { option_map (λ a. array_view a.now) result ≡ array_in (item_view self.now) }
    {
        match self {
            Item::Value(value) => value.as_array(),
            _ => None,
        }
    }

    /// Returns a mutable reference to the array, or `None` for any other item.
    pub fn as_array_mut(&mut self) -> Option<&mut Array>
        ensures* writes_back { sem 𝓛 (LendsArrayIn self.entry result) }
        ensures array { option_map (λ a. array_view a.now) result ≡ array_in (item_view self.old) }
    {
        match self {
            Item::Value(value) => value.as_array_mut(),
            _ => None,
        }
    }

    /// Returns `true` if the item is an array. An array of tables is not.
    pub fn is_array(&self) -> bool
        ensures { result ≡ is_some (array_in (item_view self.now)) }
    {
        match self {
            Item::Value(value) => value.is_array(),
            _ => false,
        }
    }

    /// Returns the inline table, or `None` for any other item.
    pub fn as_inline_table(&self) -> Option<&InlineTable>
        ensures { option_map (λ t. inline_view t.now) result ≡ inline_in (item_view self.now) }
    {
        match self {
            Item::Value(value) => value.as_inline_table(),
            _ => None,
        }
    }

    /// Returns a mutable reference to the inline table, or `None` for any other item.
    pub fn as_inline_table_mut(&mut self) -> Option<&mut InlineTable>
        ensures* writes_back { sem 𝓛 (LendsInlineIn self.entry result) }
        ensures table { option_map (λ t. inline_view t.now) result
            ≡ inline_in (item_view self.old) }
    {
        match self {
            Item::Value(value) => value.as_inline_table_mut(),
            _ => None,
        }
    }

    /// Returns `true` if the item is an inline table. A [`Table`](crate::Table) is not.
    pub fn is_inline_table(&self) -> bool
        ensures { result ≡ is_some (inline_in (item_view self.now)) }
    {
        match self {
            Item::Value(value) => value.is_inline_table(),
            _ => false,
        }
    }
}

// Formatting
impl Item {
    /// Sets the decor of a value, and leaves any other item as it is.
    #[doc(hidden)]
    pub fn decorate(&mut self, prefix: RawString, suffix: RawString)
        ensures { item_view self.new ≡ with_decor (both_sides prefix suffix) (item_view self.old) }
    {
        if let Item::Value(value) = self {
            value.surround(prefix, suffix);
        }
    }

    /// Returns the byte range of the item in the source, or `None` if it was made or has no span.
    ///
    /// It is that of the value, of a table's header with its brackets, or from the first header of
    /// an array of tables to the last. A `DocumentMut` has no spans: read them before `into_mut`.
    ///
    /// # Examples
    ///
    /// ```rust,ignore
    /// root.get(key)?.span()
    /// ```
    ///
    /// From `span_at` of the crate `example_calls`.
    pub fn span(&self) -> Option<Range<usize>>
        ensures { result ≡ item_span (item_view self.now) }
    {
        match self {
            Item::None => None,
            Item::Value(value) => value.span(),
            Item::Table(table) => table.span(),
            Item::ArrayOfTables(tables) => tables.span(),
        }
    }

    /// Copies the texts that are parts of a document's source, so that the item does not keep the
    /// source.
    ///
    /// # Errors
    ///
    /// Returns an `AllocError` if out of memory, and then may keep the source.
    pub fn detach(&mut self, alloc: Global) -> Mem<()>
        ensures { item_view self.new ≡ item_view self.old }
    {
        detach_item(self, alloc)
    }

    /// Copies the item, with all spellings, decors, spans and positions.
    ///
    /// The copy of a table that has a position is printed beside its original: see
    /// [`Table::clone`].
    ///
    /// # Errors
    ///
    /// Returns an `AllocError` if out of memory.
    pub fn clone(&self, alloc: Global) -> Mem<Item>
        ensures { IfOk result (λ copy. item_view copy ≡ item_view self.now) }
    {
        copy_item(self, alloc)
    }
}

/// Makes an item of the value, as `Item::from` does.
pub fn value(value: Value) -> Item
    ensures { item_view result ≡ value_view value }
{
    Item::Value(value)
}

/// Makes an item of an empty table, which takes no memory before its first slot.
pub fn table(alloc: Global) -> Item
    ensures { item_view result ≡ table_node (record { fields = new_table; slots = no_slots }) }
{
    Item::Table(Table::new(alloc))
}

/// Makes an item of an empty array of tables, which takes no memory before its first element.
///
/// For an array in brackets, make a value of an [`Array`](crate::Array).
pub fn array(alloc: Global) -> Item
    ensures { item_view result ≡ tables_node (record { extent = None; items = no_items }) }
{
    Item::ArrayOfTables(ArrayOfTables::new(alloc))
}

/// Converts a value into an item.
impl From<Value> for Item {
    ghost from_gives = { λ value x. item_view x ≡ value_view value };

    fn from(value: Value) -> Item {
        Item::Value(value)
    }
}

/// Converts a table into an item.
impl From<Table> for Item {
    ghost from_gives = { λ table x. item_view x ≡ table_node (table_view table) };

    fn from(table: Table) -> Item {
        Item::Table(table)
    }
}

/// Converts an array of tables into an item.
impl From<ArrayOfTables> for Item {
    ghost from_gives = { λ array x. item_view x ≡ tables_node (tables_view array) };

    fn from(array: ArrayOfTables) -> Item {
        Item::ArrayOfTables(array)
    }
}

/// Writes the value, the lines of the table, or the array of tables as an array of inline tables. A
/// placeholder is written as nothing.
///
/// As for a [`Table`](crate::Table), neither headers nor the tables below that have them are
/// written.
impl fmt::Display for Item {
    ghost output = { λ item. Some (item_display (item_view item)) };

    fn fmt<W: fmt::Write>(&self, f: &mut fmt::Formatter<W>) -> fmt::Result {
        match self {
            Item::None => Ok(()),
            Item::Value(value) => value.fmt(f),
            Item::Table(table) => table.fmt(f),
            Item::ArrayOfTables(tables) => tables.fmt(f),
        }
    }
}
