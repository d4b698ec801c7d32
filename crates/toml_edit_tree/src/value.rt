//! Values: the type, its kinds, its decor, and what it is made of.
ghost use Rattle.std.specs.Borrow.{sem};
ghost use Rattle.std.specs.Iterator.{Drains, IsFinite};
ghost use Rattle.std.specs.Prelude.{[], ◌≡◌, ◌<◌, ◌^◌, IfOk, List, None, OnOk, Some, is_some, map, option_map, string_bytes};
ghost use Rattle.toml_edit_datetime.specs.DateView.{date_view};
ghost use Rattle.toml_edit_datetime.specs.DatetimeView.{datetime_view};
ghost use Rattle.toml_edit_datetime.specs.TimeView.{time_view};
ghost use Rattle.toml_edit_model.specs.Conversions.{new_array, new_inline, with_decor};
ghost use Rattle.toml_edit_model.specs.Lists.{items_from, slots_from};
ghost use Rattle.toml_edit_model.specs.OwnedForm.{NodeFits, owned_node};
ghost use Rattle.toml_edit_model.specs.Scalars.{boolean, datetime, float, integer, string};
ghost use Rattle.toml_edit_model.specs.Slots.{extended};
ghost use Rattle.toml_edit_model.specs.Tree.{IsWellMade, Key, inline, leaf, list, node_decor, span, unset};
ghost use Rattle.toml_edit_token.specs.Decoded.{scalar_view};
ghost use Rattle.toml_edit_tree.specs.Casts.{LendsDecor, array_in, both_sides, datetime_in, float_in, inline_in, integer_in, of_date, of_time, span_in, text_in, truth_in, type_of};
ghost use Rattle.toml_edit_tree.specs.ContainerParts.{LendsArray, LendsInline};
ghost use Rattle.toml_edit_tree.specs.Containers.{array_node, inline_node};
ghost use Rattle.toml_edit_tree.specs.Indexed.{LendsValueSlots, value_slots};
ghost use Rattle.toml_edit_tree.specs.InlineSlots.{slots_of_pairs, value_taken};
ghost use Rattle.toml_edit_tree.specs.View.{array_view, inline_view, value_view};

use crate::array::Array;
use crate::copy::copy_value;
use crate::despan::despan_value;
use crate::encode::{put_array, put_inline};
use crate::inline_table::InlineTable;
use crate::item::Item;
use std::alloc::Global;
use std::ops::Range;
use std::{fmt, mem};
use toml_edit_datetime::{Date, Datetime, FloatText, Time};
use toml_edit_io::{Printed, Sink, show};
use toml_edit_key::Key;
use toml_edit_repr::{Decor, Formatted, Mem, RawString};
use toml_edit_slots::Slots;
use toml_edit_text::SharedText;
use toml_edit_token::Scalar;

/// A value with its spelling and its decor (TOML, "Key/Value Pair").
///
/// The decor is the whitespace and comments on both sides of it. What is made has the default
/// spelling and an unset decor.
///
/// # Examples
///
/// ```rust,ignore
/// let name = Value::string(alloc, *feature)?;
/// names.push(name).map_err(no_memory)?;
/// ```
///
/// From `add_dependency` of the crate `example_calls`.
#[cycle(tree)]
#[derive(Debug, Drop)]
pub enum Value {
    /// A string (TOML, "String").
    String(Formatted<String>),
    /// An integer of 64 bits (TOML, "Integer").
    Integer(Formatted<i64>),
    /// A float, kept as its text (TOML, "Float").
    Float(Formatted<FloatText>),
    /// A boolean (TOML, "Boolean").
    Boolean(Formatted<bool>),
    /// A date, a time, or both (TOML, "Offset Date-Time" to "Local Time").
    Datetime(Formatted<Datetime>),
    /// An array (TOML, "Array").
    Array(Array),
    /// An inline table (TOML, "Inline Table").
    InlineTable(InlineTable),
}

// Constructors
impl Value {
    /// Makes a string with a copy of `text`, of default spelling and unset decor.
    ///
    /// A `String` becomes a value without a copy by `Value::from`.
    ///
    /// # Errors
    ///
    /// Returns an `AllocError` if out of memory.
    ///
    /// # Examples
    ///
    /// ```rust,ignore
    /// let name = Value::string(alloc, *feature)?;
    /// names.push(name).map_err(no_memory)?;
    /// ```
    ///
    /// From `add_dependency` of the crate `example_calls`.
    pub fn string(alloc: Global, text: &str) -> Mem<Value>
        ensures { IfOk result (λ v. value_view v ≡ leaf (string text.now) None unset) }
    {
        Ok(Value::String(Formatted::new(String::from_str(alloc, text)?)))
    }

    /// Creates an array of the strings, in order, each with the default spelling and no decor.
    ///
    /// # Errors
    ///
    /// Returns an `AllocError` if out of memory.
    pub fn strings(alloc: Global, texts: &[&str]) -> Mem<Value>
        ensures { IfOk result (λ value. value_view value
            ≡ list new_array (items_from
            (map (λ text. leaf (string text.now) None unset) texts.now))) }
    {
        let mut array = Array::new(alloc);
        'texts: for text in texts {
            array.push(Value::string(alloc, *text)?)?;
        }
        Ok(Value::Array(array))
    }

    /// Creates an array of the values, in order and each with its decor.
    ///
    /// # Errors
    ///
    /// Returns an `AllocError` if out of memory.
    pub fn from_iter<U: IntoIterator<Item = Value>>(alloc: Global, values: U) -> Mem<Value>
        requires { (it : U.IntoIter) → U.into_iter_gives values it
            → U.IntoIter.can_next it × IsFinite (U.IntoIter.remaining it) }
        ensures { IfOk result
            (λ value. (it : U.IntoIter) × (vs : List Value) × U.into_iter_gives values it
            × Drains U.IntoIter.next_gives it vs
            × (value_view value ≡ list new_array (items_from (map value_view vs)))) }
    {
        match Array::from_iter(alloc, values) {
            Ok(array) => Ok(Value::Array(array)),
            Err(refused) => Err(refused),
        }
    }

    /// Creates an inline table of these names and values, in order, each key with the default
    /// spelling and no decor.
    ///
    /// Where a name comes again, the later value takes the place of the earlier one.
    ///
    /// # Errors
    ///
    /// Returns an `AllocError` if out of memory.
    pub fn pairs(alloc: Global, pairs: Vec<(&str, Value)>) -> Mem<Value>
        ensures { IfOk result (λ value. value_view value
            ≡ inline new_inline (slots_from (slots_of_pairs
            (map (λ p. (p.0.now, value_view p.1)) pairs.entry.items)))) }
    {
        let mut table = InlineTable::new(alloc);
        for (name, value) in pairs {
            drop(table.insert(name, value)?);
        }
        Ok(Value::InlineTable(table))
    }

    /// Creates an inline table of the pairs, inserted one after another.
    ///
    /// Where a name comes again, its first key keeps its place, its spelling and its decor, and
    /// gets the later value.
    ///
    /// # Errors
    ///
    /// Returns an `AllocError` if out of memory.
    pub fn from_pairs<U: IntoIterator<Item = (Key, Value)>>(alloc: Global, pairs: U) -> Mem<Value>
        requires { (it : U.IntoIter) → U.into_iter_gives pairs it
            → U.IntoIter.can_next it × IsFinite (U.IntoIter.remaining it) }
        ensures { IfOk result (λ value. (it : U.IntoIter) × (ps : List (Key × Value))
            × U.into_iter_gives pairs it × Drains U.IntoIter.next_gives it ps
            × (value_view value
            ≡ inline new_inline (slots_from (extended (map value_taken ps) [])))) }
    {
        match InlineTable::from_iter(alloc, pairs) {
            Ok(table) => Ok(Value::InlineTable(table)),
            Err(refused) => Err(refused),
        }
    }

    /// Makes a scalar whose spelling spans the bytes from `start` to `end` of the source.
    #[doc(hidden)]
    pub fn spanned(scalar: Scalar, start: usize, end: usize, decor: Decor) -> Value
        requires { start < 2 ^ 56 }
        ensures { value_view result ≡ leaf (scalar_view scalar) (Some (span start end)) decor }
    {
        match scalar {
            Scalar::String(text) => Value::String(Formatted::spanned(text, start, end, decor)),
            Scalar::Integer(number) => Value::Integer(Formatted::spanned(
                number, start, end, decor,
            )),
            Scalar::Float(float) => Value::Float(Formatted::spanned(float, start, end, decor)),
            Scalar::Boolean(truth) => Value::Boolean(Formatted::spanned(truth, start, end, decor)),
            Scalar::Datetime(datetime) => Value::Datetime(Formatted::spanned(
                datetime, start, end, decor,
            )),
        }
    }
}

// Kinds
impl Value {
    /// Returns the name of the value's type in the words of TOML, for messages.
    ///
    /// It is one of `string`, `integer`, `float`, `boolean`, `datetime`, `array` and
    /// `inline table`.
    pub fn type_name(&self) -> &'static str
        ensures { result.now ≡ type_of (value_view self.now) }
    {
        match self {
            Value::String(_) => "string",
            Value::Integer(_) => "integer",
            Value::Float(_) => "float",
            Value::Boolean(_) => "boolean",
            Value::Datetime(_) => "datetime",
            Value::Array(_) => "array",
            Value::InlineTable(_) => "inline table",
        }
    }

    /// Returns the text of a string, without quotes and escapes, or `None` for any other value.
    ///
    /// # Examples
    ///
    /// ```rust,ignore
    /// array.sort_by(|a, b| a.as_str().cmp(&b.as_str()))
    /// ```
    ///
    /// From `sort_strings` of the crate `example_calls`.
    pub fn as_str(&self) -> Option<&str>
        ensures { option_map (λ t. t.now) result ≡ text_in (value_view self.now) }
    {
        match self {
            Value::String(scalar) => Some(scalar.value().as_str()),
            _ => None,
        }
    }

    /// Returns `true` if the value is a string.
    pub fn is_str(&self) -> bool
        ensures { result ≡ is_some (text_in (value_view self.now)) }
    {
        self.as_str().is_some()
    }

    /// Returns the number of an integer, or `None` for any other value.
    pub fn as_integer(&self) -> Option<i64>
        ensures { result ≡ integer_in (value_view self.now) }
    {
        match self {
            Value::Integer(scalar) => Some(*scalar.value()),
            _ => None,
        }
    }

    /// Returns `true` if the value is an integer.
    pub fn is_integer(&self) -> bool
        ensures { result ≡ is_some (integer_in (value_view self.now)) }
    {
        self.as_integer().is_some()
    }

    /// Returns the text of a float, or `None` for any other value.
    ///
    /// A float is kept as its text, of any magnitude and never rounded, so there is no `as_float`.
    pub fn as_float_text(&self) -> Option<&FloatText>
        ensures { option_map (λ x. x.now) result ≡ float_in (value_view self.now) }
    {
        match self {
            Value::Float(scalar) => Some(scalar.value()),
            _ => None,
        }
    }

    /// Returns `true` if the value is a float.
    pub fn is_float(&self) -> bool
        ensures { result ≡ is_some (float_in (value_view self.now)) }
    {
        self.as_float_text().is_some()
    }

    /// Returns the boolean, or `None` for any other value.
    pub fn as_bool(&self) -> Option<bool>
        ensures { result ≡ truth_in (value_view self.now) }
    {
        match self {
            Value::Boolean(scalar) => Some(*scalar.value()),
            _ => None,
        }
    }

    /// Returns `true` if the value is a boolean, whether `true` or `false`.
    pub fn is_bool(&self) -> bool
        ensures { result ≡ is_some (truth_in (value_view self.now)) }
    {
        self.as_bool().is_some()
    }

    /// Returns the date-time, date or time, or `None` for any other value.
    ///
    /// # Examples
    ///
    /// ```rust,ignore
    /// Some(value.as_datetime()?.date()?.year())
    /// ```
    ///
    /// From `year_of` of the crate `example_calls`.
    pub fn as_datetime(&self) -> Option<&Datetime>
        ensures { option_map (λ x. datetime_view x.now) result ≡ datetime_in (value_view self.now) }
    {
        match self {
            Value::Datetime(scalar) => Some(scalar.value()),
            _ => None,
        }
    }

    /// Returns `true` if the value is a date-time, a date or a time.
    pub fn is_datetime(&self) -> bool
        ensures { result ≡ is_some (datetime_in (value_view self.now)) }
    {
        self.as_datetime().is_some()
    }

    /// Returns the array, or `None` for any other value.
    pub fn as_array(&self) -> Option<&Array>
        ensures { option_map (λ a. array_view a.now) result ≡ array_in (value_view self.now) }
    {
        match self {
            Value::Array(array) => Some(array),
            _ => None,
        }
    }

    /// Returns a mutable reference to the array, or `None` for any other value.
    pub fn as_array_mut(&mut self) -> Option<&mut Array>
        ensures* writes_back { sem 𝓛 (LendsArray self.entry result) }
        ensures array { option_map (λ a. array_view a.now) result ≡ array_in (value_view self.old) }
    {
        match self {
            Value::Array(lent) => Some(lent),
            _ => None,
        }
    }

    /// Returns `true` if the value is an array.
    pub fn is_array(&self) -> bool
        ensures { result ≡ is_some (array_in (value_view self.now)) }
    {
        self.as_array().is_some()
    }

    /// Returns the inline table, or `None` for any other value.
    pub fn as_inline_table(&self) -> Option<&InlineTable>
        ensures { option_map (λ t. inline_view t.now) result ≡ inline_in (value_view self.now) }
    {
        match self {
            Value::InlineTable(table) => Some(table),
            _ => None,
        }
    }

    /// Returns a mutable reference to the inline table, or `None` for any other value.
    pub fn as_inline_table_mut(&mut self) -> Option<&mut InlineTable>
        ensures* writes_back { sem 𝓛 (LendsInline self.entry result) }
        ensures table { option_map (λ t. inline_view t.now) result
            ≡ inline_in (value_view self.old) }
    {
        match self {
            Value::InlineTable(lent) => Some(lent),
            _ => None,
        }
    }

    /// Returns `true` if the value is an inline table.
    pub fn is_inline_table(&self) -> bool
        ensures { result ≡ is_some (inline_in (value_view self.now)) }
    {
        self.as_inline_table().is_some()
    }

    /// Returns a mutable reference to the slots of an inline table, or `None` for any other value.
    pub(crate) fn own_slots_mut(&mut self) -> Option<&mut Slots<Item>>
        ensures* writes_back { sem 𝓛 (LendsValueSlots self.entry result) }
        ensures slots { option_map (λ es. es.now) result ≡ value_slots self.old }
    {
        match self {
            Value::InlineTable(table) => Some(table.own_slots_mut()),
            _ => None,
        }
    }
}

// Formatting
impl Value {
    /// Returns the whitespace and comments around the value.
    ///
    /// An unset side prints as the default for its place: one space after `=`, say. The comment
    /// after a value on its line is in the suffix; in an array, a comment after a comma belongs to
    /// the next value.
    ///
    /// # Examples
    ///
    /// ```rust,ignore
    /// array.get(array.len().saturating_sub(1))?.decor().prefix()
    /// ```
    ///
    /// From `before_last` of the crate `example_calls`.
    pub fn decor(&self) -> &Decor
        ensures { result.now ≡ node_decor (value_view self.now) }
    {
        match self {
            Value::String(scalar) => scalar.decor(),
            Value::Integer(scalar) => scalar.decor(),
            Value::Float(scalar) => scalar.decor(),
            Value::Boolean(scalar) => scalar.decor(),
            Value::Datetime(scalar) => scalar.decor(),
            Value::Array(array) => array.decor(),
            Value::InlineTable(table) => table.decor(),
        }
    }

    /// Returns a mutable reference to the whitespace and comments around the value.
    ///
    /// # Examples
    ///
    /// ```rust,ignore
    /// mem::swap(old.decor_mut(), value.decor_mut());
    /// mem::swap(old, &mut value);
    /// ```
    ///
    /// From `replace_value` of the crate `example_calls`.
    pub fn decor_mut(&mut self) -> &mut Decor
        ensures* writes_back { sem 𝓛 (LendsDecor self.entry result) }
        ensures decor { result.now ≡ node_decor (value_view self.old) }
    {
        match self {
            Value::String(scalar) => scalar.decor_mut(),
            Value::Integer(scalar) => scalar.decor_mut(),
            Value::Float(scalar) => scalar.decor_mut(),
            Value::Boolean(scalar) => scalar.decor_mut(),
            Value::Datetime(scalar) => scalar.decor_mut(),
            Value::Array(array) => array.decor_mut(),
            Value::InlineTable(table) => table.decor_mut(),
        }
    }

    /// Replaces the value by `new` under its own decor, and returns the old value with that of
    /// `new`.
    ///
    /// So the comments and the spaces around the value stay.
    pub fn replace_with(&mut self, new: Value) -> Value
        ensures new { value_view self.new
            ≡ with_decor (node_decor (value_view self.old)) (value_view new) }
        ensures old { value_view result
            ≡ with_decor (node_decor (value_view new)) (value_view self.old) }
    {
        let mut new = new;
        mem::swap(self.decor_mut(), new.decor_mut());
        mem::replace(self, new)
    }

    /// Returns the value with `prefix` before it and `suffix` after it, in place of its decor.
    ///
    /// An empty text is not an unset side: it prints as nothing, and an unset side as its default.
    ///
    /// # Examples
    ///
    /// ```rust,ignore
    /// let value = Value::string(alloc, text)?.decorated(prefix, RawString::default());
    /// ```
    ///
    /// From `push_line` of the crate `example_calls`.
    pub fn decorated(self, prefix: RawString, suffix: RawString) -> Value
        ensures { value_view result ≡ with_decor (both_sides prefix suffix) (value_view self) }
    {
        let mut value = self;
        *value.decor_mut() = Decor::new(prefix, suffix);
        value
    }

    /// Sets both sides of the decor.
    pub(crate) fn surround(&mut self, prefix: RawString, suffix: RawString)
        ensures { value_view self.new
            ≡ with_decor (both_sides prefix suffix) (value_view self.old) }
    {
        *self.decor_mut() = Decor::new(prefix, suffix);
    }

    /// Unsets both sides of the decor.
    #[doc(hidden)]
    pub fn undecorate(&mut self)
        ensures { value_view self.new ≡ with_decor unset (value_view self.old) }
    {
        *self.decor_mut() = Decor::default();
    }

    /// Returns the byte range of the value in the source, without its decor.
    ///
    /// It is that of the spelling of a scalar, and from bracket to bracket of an array or an inline
    /// table. It is `None` for a value that was made, and in a `DocumentMut`: read it before
    /// `into_mut`.
    pub fn span(&self) -> Option<Range<usize>>
        ensures { result ≡ span_in (value_view self.now) }
    {
        match self {
            Value::String(scalar) => scalar.span(),
            Value::Integer(scalar) => scalar.span(),
            Value::Float(scalar) => scalar.span(),
            Value::Boolean(scalar) => scalar.span(),
            Value::Datetime(scalar) => scalar.span(),
            Value::Array(array) => array.span(),
            Value::InlineTable(table) => table.span(),
        }
    }

    /// Replaces each span of `source` by the text there.
    ///
    /// # Errors
    ///
    /// Returns an `AllocError` if out of memory. Some spans may be left then, so the document has
    /// to be dropped.
    #[doc(hidden)]
    pub fn despan(&mut self, alloc: Global, source: &SharedText) -> Mem<()>
        requires fits { NodeFits source.now (value_view self.old) }
        requires spelled { ∥ IsWellMade (owned_node source.now (value_view self.old)) ∥₁ }
        ensures { OnOk result (value_view self.new ≡ owned_node source.now (value_view self.old)) }
    {
        despan_value(self, alloc, source)
    }

    /// Copies the value, with all spellings, decors and spans.
    ///
    /// # Errors
    ///
    /// Returns an `AllocError` if out of memory.
    pub fn clone(&self, alloc: Global) -> Mem<Value>
        ensures { IfOk result (λ copy. value_view copy ≡ value_view self.now) }
    {
        copy_value(self, alloc)
    }
}

/// Writes the value with its decor, of which unset sides are empty.
///
/// Carriage returns (CR) outside strings are dropped. Before `into_mut`, spellings and decors are
/// spans of the source, which are written as if they were unset.
impl fmt::Display for Value {
    ghost use Rattle.toml_edit_model.specs.Conversions.{value_display};

    ghost output = { λ value. Some (value_display (value_view value)) };

    fn fmt<W: fmt::Write>(&self, f: &mut fmt::Formatter<W>) -> fmt::Result {
        show(f, self)
    }
}

impl Printed for Value {
    ghost use Rattle.toml_edit_model.specs.Conversions.{value_display};

    ghost text = { λ value. value_display (value_view value) };

    fn put_into<S: Sink>(&self, out: &mut S) {
        match self {
            Value::String(scalar) => scalar.put_into(out),
            Value::Integer(scalar) => scalar.put_into(out),
            Value::Float(scalar) => scalar.put_into(out),
            Value::Boolean(scalar) => scalar.put_into(out),
            Value::Datetime(scalar) => scalar.put_into(out),
            Value::Array(array) => put_array(out, array),
            Value::InlineTable(table) => put_inline(out, table),
        }
    }
}

/// Converts a text into a string of default spelling, with its decor unset.
impl From<String> for Value {
    ghost from_gives = { λ text v. value_view v ≡ leaf (string (string_bytes text)) None unset };

    fn from(text: String) -> Value {
        Value::String(Formatted::new(text))
    }
}

/// Converts a number into an integer of default spelling, with its decor unset.
impl From<i64> for Value {
    ghost from_gives = { λ number v. value_view v ≡ leaf (integer number) None unset };

    fn from(number: i64) -> Value {
        Value::Integer(Formatted::new(number))
    }
}

/// Converts a boolean into a value of default spelling, with its decor unset.
impl From<bool> for Value {
    ghost from_gives = { λ truth v. value_view v ≡ leaf (boolean truth) None unset };

    fn from(truth: bool) -> Value {
        Value::Boolean(Formatted::new(truth))
    }
}

/// Converts a float into a value that is spelled by its text, with its decor unset.
impl From<FloatText> for Value {
    ghost from_gives = { λ x v. value_view v ≡ leaf (float x) None unset };

    fn from(number: FloatText) -> Value {
        Value::Float(Formatted::new(number))
    }
}

/// Converts a date-time into a value of default spelling, with its decor unset.
impl From<Datetime> for Value {
    ghost from_gives = { λ d v. value_view v ≡ leaf (datetime (datetime_view d)) None unset };

    fn from(datetime: Datetime) -> Value {
        Value::Datetime(Formatted::new(datetime))
    }
}

/// Converts a date into a date-time of default spelling, with its decor unset.
impl From<Date> for Value {
    ghost from_gives = { λ d v. value_view v ≡ leaf (datetime (of_date (date_view d))) None unset };

    fn from(date: Date) -> Value {
        Value::from(Datetime::from(date))
    }
}

/// Converts a time of day into a date-time of default spelling, with its decor unset.
impl From<Time> for Value {
    ghost from_gives = { λ t v. value_view v ≡ leaf (datetime (of_time (time_view t))) None unset };

    fn from(time: Time) -> Value {
        Value::from(Datetime::from(time))
    }
}

/// Converts an array into the value that it is, with its decor.
impl From<Array> for Value {
    ghost from_gives = { λ array v. value_view v ≡ array_node (array_view array) };

    fn from(array: Array) -> Value {
        Value::Array(array)
    }
}

/// Converts an inline table into the value that it is, with its decor.
impl From<InlineTable> for Value {
    ghost from_gives = { λ table v. value_view v ≡ inline_node (inline_view table) };

    fn from(table: InlineTable) -> Value {
        Value::InlineTable(table)
    }
}
