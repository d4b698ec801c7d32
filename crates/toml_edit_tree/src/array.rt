//! Arrays: the type and its calls.
ghost use Rattle.std.specs.Borrow.{sem};
ghost use Rattle.std.specs.Iterator.{Drains, ExtendsWithItems, IsFinite};
ghost use Rattle.std.specs.Prelude.{[], ◌<◌, ◌↔◌, ◌∷◌, ◌≡◌, ◌≤◌, IfErr, IfOk, IsSome, IsTrue, List, OnErr, OnOk, Some, is_some, length, option_map, slice_get, true};
ghost use Rattle.toml_edit_model.specs.ArrayCalls.{inserted_at, pushed, removed_at, replaced_at, value_at, written_at};
ghost use Rattle.toml_edit_model.specs.Conversions.{element_decor, formatted_array, formatted_from, formatted_items, new_array, with_decor};
ghost use Rattle.toml_edit_model.specs.Iterating.{values as values_seen};
ghost use Rattle.toml_edit_model.specs.Retaining.{RetainsBy};
ghost use Rattle.toml_edit_model.specs.Tree.{Node, no_items, node_decor};
ghost use Rattle.toml_edit_tree.specs.ContainerParts.{LendsArrayDecor, values_left};
ghost use Rattle.toml_edit_tree.specs.Containers.{array_node, array_with_comma, array_with_trailing, range_in, spanned_array};
ghost use Rattle.toml_edit_tree.specs.ElementClosures.{SaysOfValue};
ghost use Rattle.toml_edit_tree.specs.ElementParts.{AddsValues, HasValues};
ghost use Rattle.toml_edit_tree.specs.Elements.{array_fields, items_of, listed};
ghost use Rattle.toml_edit_tree.specs.ItemPlaces.{LendsArraySlot, LendsArraySlotIn, LendsValueAt, LendsValueIn, value_in_at, with_value_at};
ghost use Rattle.toml_edit_tree.specs.View.{array_view, item_view, items_view, value_view};
ghost use Rattle.toml_edit_tree.specs.declared.array.Array.{out-Array};
ghost use Rattle.toml_edit_tree.specs.declared.value.Value.{Value};

use crate::copy::copy_array;
use crate::elements::{insert_value, push_value, replace_value, take_value};
use crate::empty::empty_items;
use crate::encode::put_array;
use crate::item::Item;
use crate::value::Value;
pub use iter::{ArrayIntoIter, ArrayIter};
use std::alloc::Global;
use std::fmt;
use std::ops::Range;
use toml_edit_io::{Printed, Sink, show};
use toml_edit_repr::{Decor, Mem, RawString};
use toml_edit_slots::{NoMemory, list};

mod iter;
mod line_comments;
mod line_retain;
mod line_texts;
mod lines;
mod sort;

/// An array of values in brackets (TOML, "Array").
///
/// It keeps its values in order, each with its decor, and what is before the closing bracket. A
/// slot may hold no value: a placeholder, or a table that was written there through
/// [`Item::get_mut`]. It isn't printed, [`get`](Self::get) and [`iter`](Self::iter) skip it, and
/// [`len`](Self::len) counts it.
///
/// An array of `[[..]]` tables is an [`ArrayOfTables`](crate::ArrayOfTables).
///
/// # Examples
///
/// ```rust,ignore
/// for feature in features {
///     let name = Value::string(alloc, *feature)?;
///     names.push(name).map_err(no_memory)?;
/// }
/// ```
///
/// From `add_dependency` of the crate `example_calls`.
#[cycle(tree)]
#[derive(Debug)]
pub struct Array {
    #[doc(hidden)]
    pub values: Vec<Item>,
    pub(crate) decor: Decor,
    pub(crate) trailing: RawString,
    pub(crate) trailing_comma: bool,
    pub(crate) span: Option<(usize, usize)>,
}

impl Drop for Array {
    // The drop of an item stays small, so that it is inlined where slots and elements are dropped.
    #[cycle(tree_drop)]
    #[inline(never)]
    fn drop(self) {
        let Array {
            values,
            decor,
            trailing,
            trailing_comma: _,
            span: _,
        } = self;
        let mut values = values;
        empty_items(&mut values);
        drop(values);
        drop(decor);
        drop(trailing);
    }
}

// Constructors
impl Array {
    /// Creates an empty array, which takes no memory before its first value.
    ///
    /// Its decor is unset, and there is no trailing comma.
    ///
    /// # Examples
    ///
    /// ```rust,ignore
    /// let mut names = Array::new(alloc);
    /// ```
    ///
    /// From `add_dependency` of the crate `example_calls`.
    pub fn new(alloc: Global) -> Array
        ensures { array_view result ≡ record { fields = new_array; items = no_items } }
    {
        Array {
            values: Vec::new(alloc),
            decor: Decor::default(),
            trailing: RawString::default(),
            trailing_comma: false,
            span: None,
        }
    }

    /// Creates an array of the values, in order and each with its decor.
    ///
    /// # Errors
    ///
    /// Returns an `AllocError` if out of memory.
    pub fn from_iter<U: IntoIterator<Item = Value>>(alloc: Global, values: U) -> Mem<Array>
        requires { (it : U.IntoIter) → U.into_iter_gives values it
            → U.IntoIter.can_next it × IsFinite (U.IntoIter.remaining it) }
        ensures { IfOk result
            (λ array. (it : U.IntoIter) × (vs : List Value) × U.into_iter_gives values it
            × Drains U.IntoIter.next_gives it vs × HasValues vs array) }
    {
        let mut array = Array::new(alloc);
        match array.extend(values) {
            Ok(()) => Ok(array),
            Err(refused) => Err(refused),
        }
    }

    /// Makes an array of these values that spans the bytes from `start` to `end` of the source,
    /// with what is after the last value.
    #[doc(hidden)]
    pub fn spanned(
        values: Vec<Item>,
        trailing_comma: bool,
        trailing: RawString,
        start: usize,
        end: usize,
    ) -> Array
        ensures { array_view result
            ≡ spanned_array trailing_comma trailing start end (items_view values.items) }
    {
        Array {
            values,
            decor: Decor::default(),
            trailing,
            trailing_comma,
            span: Some((start, end)),
        }
    }
}

// Formatting
impl Array {
    /// Formats the array on one line: nothing around the first value, and one space before each of
    /// the others.
    ///
    /// The trailing comma and what is before the closing bracket are removed, and so is each
    /// comment between values. Spellings stay, and so does what is inside values and around the
    /// array. [`insert_line`](Self::insert_line) and [`remove_line`](Self::remove_line) change an
    /// array with one value a line and keep its comments.
    pub fn fmt(&mut self)
        ensures items { items_of self.new ≡ formatted_items (items_of self.old) }
        ensures fields { array_fields self.new ≡ formatted_array (array_fields self.old) }
    {
        format_items(&mut self.values);
        self.trailing_comma = false;
        self.trailing = RawString::default();
    }

    /// Returns `true` if a comma follows the last value.
    pub fn trailing_comma(&self) -> bool
        ensures { result ≡ (array_view self.now).fields.comma }
    {
        self.trailing_comma
    }

    /// Sets whether a comma follows the last value.
    ///
    /// An array that shows no value prints none.
    ///
    /// # Examples
    ///
    /// ```rust,ignore
    /// array.set_trailing_comma(true);
    /// array.set_trailing(end);
    /// ```
    ///
    /// From `push_line` of the crate `example_calls`.
    pub fn set_trailing_comma(&mut self, trailing_comma: bool)
        ensures { array_view self.new ≡ array_with_comma trailing_comma (array_view self.old) }
    {
        self.trailing_comma = trailing_comma;
    }

    /// Returns the whitespace and comments between the last value, or the comma after it, and the
    /// closing bracket.
    ///
    /// In a parsed array without a trailing comma, that text is in the suffix of the last value
    /// instead.
    pub fn trailing(&self) -> &RawString
        ensures { result.now ≡ (array_view self.now).fields.trailing }
    {
        &self.trailing
    }

    /// Sets the whitespace and comments between the last value, or the comma after it, and the
    /// closing bracket.
    ///
    /// # Examples
    ///
    /// ```rust,ignore
    /// array.set_trailing_comma(true);
    /// array.set_trailing(end);
    /// ```
    ///
    /// From `push_line` of the crate `example_calls`.
    pub fn set_trailing(&mut self, trailing: RawString)
        ensures { array_view self.new ≡ array_with_trailing trailing (array_view self.old) }
    {
        self.trailing = trailing;
    }

    /// Returns the whitespace and comments around the array.
    pub fn decor(&self) -> &Decor
        ensures { result.now ≡ (array_view self.now).fields.decor }
    {
        &self.decor
    }

    /// Returns a mutable reference to the whitespace and comments around the array.
    pub fn decor_mut(&mut self) -> &mut Decor
        ensures* writes_back { sem 𝓛 (LendsArrayDecor self.entry result) }
        ensures decor { result.now ≡ (array_view self.old).fields.decor }
    {
        &mut self.decor
    }

    /// Returns the byte range of the array in the source, both brackets included.
    ///
    /// It is `None` for an array that was made, and in a `DocumentMut`: read it before `into_mut`.
    pub fn span(&self) -> Option<Range<usize>>
        ensures { result ≡ range_in (array_view self.now).fields.extent }
    {
        let (start, end) = self.span?;
        Some(start..end)
    }

    /// Copies the array, with all spellings, decors and spans.
    ///
    /// # Errors
    ///
    /// Returns an `AllocError` if out of memory.
    pub fn clone(&self, alloc: Global) -> Mem<Array>
        ensures { IfOk result (λ copy. array_view copy ≡ array_view self.now) }
    {
        copy_array(self, alloc)
    }
}

// Access
impl Array {
    /// Iterates over the values in order, without slots that hold none.
    ///
    /// There is no `iter_mut`: for each index below [`len`](Self::len), use
    /// [`get_mut`](Self::get_mut).
    ///
    /// # Examples
    ///
    /// ```rust,ignore
    /// array.iter().next()
    /// ```
    ///
    /// From `first_value` of the crate `example_calls`.
    pub fn iter(&self) -> ArrayIter<'_>
        ensures { values_left result ≡ values_seen (items_of self.now) }
    {
        ArrayIter {
            items: self.values.as_slice().iter(),
        }
    }

    /// Returns the number of slots, those without a value included.
    ///
    /// # Examples
    ///
    /// ```rust,ignore
    /// if at >= array.len() {
    ///     return array.push(value).map_err(no_memory);
    /// }
    /// array.insert(at, value).map_err(no_memory)
    /// ```
    ///
    /// From `insert_or_push` of the crate `example_calls`.
    pub fn len(&self) -> usize
        ensures { result ≡ length (items_of self.now) }
    {
        self.values.len()
    }

    /// Returns `true` if there are no slots.
    ///
    /// # Examples
    ///
    /// ```rust,ignore
    /// array.retain(|value| value.as_str() != Some(text));
    /// array.is_empty()
    /// ```
    ///
    /// From `remove_string` of the crate `example_calls`.
    pub fn is_empty(&self) -> bool
        ensures { IsTrue result ↔ (items_of self.now ≡ []) }
    {
        self.len() == 0
    }

    /// Removes all slots, and keeps the decor, the trailing comma and what is before the closing
    /// bracket.
    pub fn clear(&mut self)
        ensures items { items_of self.new ≡ [] }
        ensures fields { array_fields self.new ≡ array_fields self.old }
    {
        self.values.clear();
    }

    /// Returns the value at index `at`, or `None` past the end and where the slot holds none.
    ///
    /// # Examples
    ///
    /// ```rust,ignore
    /// if array.get(at).is_none() {
    ///     return array.push(value).map_err(no_memory);
    /// }
    /// drop(array.replace(at, value).map_err(no_memory)?);
    /// ```
    ///
    /// From `replace_or_push` of the crate `example_calls`.
    pub fn get(&self, at: usize) -> Option<&Value>
        ensures { option_map (λ v. value_view v.now) result ≡ value_at at (items_of self.now) }
    {
        list::get(self.values.as_slice(), at)
    }

    /// Returns a mutable reference to the value at index `at`, or `None` past the end and where the
    /// slot holds none.
    ///
    /// A new value that is written there brings its own decor. To keep the old one, use
    /// [`replace`](Self::replace).
    ///
    /// # Examples
    ///
    /// ```rust,ignore
    /// if let Some(value) = array.get_mut(at) {
    ///     value.decor_mut().set_suffix(RawString::default());
    /// }
    /// ```
    ///
    /// From `clear_suffix` of the crate `example_calls`.
    pub fn get_mut(&mut self, at: usize) -> Option<&mut Value>
        ensures* writes_back { sem 𝓛 (LendsValueAt self.entry at result) }
        ensures value { option_map (λ value. value_view value.now) result
            ≡ value_at at (items_of self.old) }
        // What the array is after a write through the reference.
        ensures leaves { (w : Value)
            → items_of (with_value_at at w self.old)
            ≡ written_at at (value_view w) (items_of self.old) }
        ensures keeps { (w : Value)
            → array_fields (with_value_at at w self.old) ≡ array_fields self.old }
    {
        if self.holds_value(at) {
            Some(self.value_in_mut(at))
        } else {
            None
        }
    }

    /// Returns `true` if there is a value at the index.
    fn holds_value(&self, at: usize) -> bool
        ensures { result ≡ is_some (value_in_at at self.now) }
    {
        match self.values.get(at) {
            Some(item) => item.is_value(),
            None => false,
        }
    }

    /// Returns a mutable reference to the value at an index that has one.
    fn value_in_mut(&mut self, at: usize) -> &mut Value
        requires { is_some (value_in_at at self.old) ≡ true }
        ensures* writes_back { sem 𝓛 (LendsValueIn self.entry at result) }
        ensures value { value_in_at at self.old ≡ Some result.now }
    {
        let item = self.slot_in_mut(at);
        item.own_value_mut()
    }

    /// Returns a mutable reference to slot `at`, of any kind, or `None` past the end.
    ///
    /// An array can hold an item that is not a value, which is not printed.
    /// [`get_mut`](Self::get_mut) lends values alone. The contract says what the array is after a
    /// write.
    pub fn slot_at_mut(&mut self, at: usize) -> Option<&mut Item>
        ensures* writes_back { sem 𝓛 (LendsArraySlot self.entry at result) }
        ensures item { option_map (λ item. item_view item.now) result
            ≡ slice_get (items_of self.old) at }
    {
        if at < self.values.len() {
            Some(self.slot_in_mut(at))
        } else {
            None
        }
    }

    /// Returns a mutable reference to slot `at`, which is there.
    fn slot_in_mut(&mut self, at: usize) -> &mut Item
        requires { at < length (out-Array self.old).values.items }
        ensures* writes_back { sem 𝓛 (LendsArraySlotIn self.entry at result) }
        ensures item { Some result.now ≡ slice_get (out-Array self.old).values.items at }
    {
        &mut self.values[at]
    }

    /// Adds `value` at the end, with its decor.
    ///
    /// An unset prefix prints as one space, or as nothing before the first value. In an array with
    /// one value a line, [`push_line`](Self::push_line) writes it on a line of its own.
    ///
    /// # Errors
    ///
    /// Returns a [`NoMemory`] with `value` if out of memory.
    ///
    /// # Examples
    ///
    /// ```rust,ignore
    /// let name = Value::string(alloc, *feature)?;
    /// names.push(name).map_err(no_memory)?;
    /// ```
    ///
    /// From `add_dependency` of the crate `example_calls`.
    pub fn push(&mut self, value: Value) -> Result<(), NoMemory<Value>>
        ensures items { OnOk result
            (items_of self.new ≡ pushed (value_view value) (items_of self.old)) }
        ensures fields { array_fields self.new ≡ array_fields self.old }
        ensures err { OnErr result (array_view self.new ≡ array_view self.old) }
        ensures back { IfErr result (λ refused. refused.0 ≡ value) }
    {
        push_value(&mut self.values, value)
    }

    /// Adds `value` at the end, with its decor, as [`push`](Self::push) does.
    ///
    /// # Errors
    ///
    /// Returns a [`NoMemory`] with `value` if out of memory.
    ///
    /// # Examples
    ///
    /// ```rust,ignore
    /// let value = from.remove(at);
    /// to.push_formatted(value)?;
    /// ```
    ///
    /// From `move_value` of the crate `example_calls`.
    pub fn push_formatted(&mut self, value: Value) -> Result<(), NoMemory<Value>>
        ensures items { OnOk result
            (items_of self.new ≡ pushed (value_view value) (items_of self.old)) }
        ensures fields { array_fields self.new ≡ array_fields self.old }
        ensures err { OnErr result (array_view self.new ≡ array_view self.old) }
        ensures back { IfErr result (λ refused. refused.0 ≡ value) }
    {
        self.push(value)
    }

    /// Inserts `value`, with its decor, before what is at index `at`.
    ///
    /// A contract requires that `at` is at most [`len`](Self::len); there the value is added at the
    /// end. An unset prefix prints as one space, or as nothing before the first value.
    ///
    /// # Errors
    ///
    /// Returns a [`NoMemory`] with `value` if out of memory.
    ///
    /// # Examples
    ///
    /// ```rust,ignore
    /// if at >= array.len() {
    ///     return array.push(value).map_err(no_memory);
    /// }
    /// array.insert(at, value).map_err(no_memory)
    /// ```
    ///
    /// From `insert_or_push` of the crate `example_calls`.
    pub fn insert(&mut self, at: usize, value: Value) -> Result<(), NoMemory<Value>>
        requires { at ≤ length (items_of self.old) }
        ensures items { OnOk result
            (items_of self.new ≡ inserted_at at (value_view value) (items_of self.old)) }
        ensures fields { array_fields self.new ≡ array_fields self.old }
        ensures err { OnErr result (array_view self.new ≡ array_view self.old) }
        ensures back { IfErr result (λ refused. refused.0 ≡ value) }
    {
        insert_value(&mut self.values, at, value)
    }

    /// Inserts `value`, with its decor, before what is at index `at`, as [`insert`](Self::insert)
    /// does.
    ///
    /// A contract requires that `at` is at most [`len`](Self::len).
    ///
    /// # Errors
    ///
    /// Returns a [`NoMemory`] with `value` if out of memory.
    ///
    /// # Examples
    ///
    /// ```rust,ignore
    /// if array.get(at).is_none() {
    ///     return array.insert_formatted(0, value).map_err(no_memory);
    /// }
    /// ```
    ///
    /// From `put_formatted` of the crate `example_calls`.
    pub fn insert_formatted(&mut self, at: usize, value: Value) -> Result<(), NoMemory<Value>>
        requires { at ≤ length (items_of self.old) }
        ensures items { OnOk result
            (items_of self.new ≡ inserted_at at (value_view value) (items_of self.old)) }
        ensures fields { array_fields self.new ≡ array_fields self.old }
        ensures err { OnErr result (array_view self.new ≡ array_view self.old) }
        ensures back { IfErr result (λ refused. refused.0 ≡ value) }
    {
        self.insert(at, value)
    }

    /// Replaces the value at index `at` and returns the old one.
    ///
    /// The new value gets a copy of the old one's decor, so the whitespace and comments around it
    /// stay. To keep its own, use [`replace_formatted`](Self::replace_formatted). A contract
    /// requires that there is a value: check with [`get`](Self::get).
    ///
    /// # Errors
    ///
    /// Returns a [`NoMemory`] with `value` if out of memory for the copy.
    ///
    /// # Examples
    ///
    /// ```rust,ignore
    /// if array.get(at).is_none() {
    ///     return array.push(value).map_err(no_memory);
    /// }
    /// drop(array.replace(at, value).map_err(no_memory)?);
    /// ```
    ///
    /// From `replace_or_push` of the crate `example_calls`.
    pub fn replace(&mut self, at: usize, value: Value) -> Result<Value, NoMemory<Value>>
        requires { IsSome (value_at at (items_of self.old)) }
        ensures value { IfOk result
            (λ old. Some (value_view old) ≡ value_at at (items_of self.old)) }
        ensures items { OnOk result
            (items_of self.new ≡ replaced_at at (value_view value) (items_of self.old)) }
        ensures fields { array_fields self.new ≡ array_fields self.old }
        ensures err { OnErr result (array_view self.new ≡ array_view self.old) }
        ensures back { IfErr result (λ refused. refused.0 ≡ value) }
    {
        match self.copied_decor(at) {
            Ok(decor) => Ok(self.replace_formatted(at, with_decor(value, decor))),
            Err(_) => Err(NoMemory(value)),
        }
    }

    /// Copies the decor of the value at the index.
    fn copied_decor(&self, at: usize) -> Mem<Decor>
        requires { IsSome (value_at at (items_of self.now)) }
        ensures { IfOk result
            (λ decor. Some decor ≡ option_map node_decor (value_at at (items_of self.now))) }
    {
        let alloc = *self.values.allocator();
        match self.get(at) {
            Some(value) => value.decor().clone(alloc),
            None => unreachable!(),
        }
    }

    /// Replaces the value at index `at` and returns the old one.
    ///
    /// The new value keeps its own decor. To give it that of the old one, use
    /// [`replace`](Self::replace). A contract requires that there is a value: check with
    /// [`get`](Self::get).
    ///
    /// # Examples
    ///
    /// ```rust,ignore
    /// if array.get(at).is_none() {
    ///     return array.insert_formatted(0, value).map_err(no_memory);
    /// }
    /// drop(array.replace_formatted(at, value));
    /// ```
    ///
    /// From `put_formatted` of the crate `example_calls`.
    pub fn replace_formatted(&mut self, at: usize, value: Value) -> Value
        requires { IsSome (value_at at (items_of self.old)) }
        ensures value { Some (value_view result) ≡ value_at at (items_of self.old) }
        ensures items { items_of self.new ≡ written_at at (value_view value) (items_of self.old) }
        ensures fields { array_fields self.new ≡ array_fields self.old }
    {
        replace_value(&mut self.values, at, value)
    }

    /// Removes the value at index `at` and returns it, keeping the order of the others.
    ///
    /// Its decor comes with it, so a comment after the comma before it goes too. A contract
    /// requires that there is a value: check with [`get`](Self::get).
    ///
    /// # Examples
    ///
    /// ```rust,ignore
    /// let value = from.remove(at);
    /// to.push_formatted(value)?;
    /// ```
    ///
    /// From `move_value` of the crate `example_calls`.
    pub fn remove(&mut self, at: usize) -> Value
        requires { IsSome (value_at at (items_of self.old)) }
        ensures value { Some (value_view result) ≡ value_at at (items_of self.old) }
        ensures items { items_of self.new ≡ removed_at at (items_of self.old) }
        ensures fields { array_fields self.new ≡ array_fields self.old }
    {
        take_value(&mut self.values, at)
    }

    /// Keeps the values for which `keep` returns `true`, in their order, and removes the others.
    ///
    /// Slots without a value are removed too. A comment after the comma before a removed value goes
    /// with it.
    ///
    /// # Examples
    ///
    /// ```rust,ignore
    /// array.retain(|value| value.as_str() != Some(text));
    /// array.is_empty()
    /// ```
    ///
    /// From `remove_string` of the crate `example_calls`.
    pub fn retain<F: Fn(&Value) -> bool>(&mut self, keep: F)
    where
        F: Drop,
        requires { F.IsAlwaysCallable keep }
        ensures kept { RetainsBy (SaysOfValue F.Fn keep) (values_seen (items_of self.old))
            (items_of self.new) }
        ensures fields { array_fields self.new ≡ array_fields self.old }
    {
        retain_values(&mut self.values, keep);
    }

    /// Adds the values at the end, one after another and each with its decor.
    ///
    /// # Errors
    ///
    /// Returns an `AllocError` if out of memory. The array keeps the values that were added before,
    /// and the others are dropped.
    #[tactic(auto, using(crate::proofs::ElementLaws::value_last))]
    pub fn extend<U: IntoIterator<Item = Value>>(&mut self, values: U) -> Mem<()>
        requires { (it : U.IntoIter) → U.into_iter_gives values it
            → U.IntoIter.can_next it × IsFinite (U.IntoIter.remaining it) }
        ensures { ExtendsWithItems U.into_iter_gives U.IntoIter.next_gives AddsValues values
            self.old self.new result }
    {
        for value in values {
            self.push(value)?;
        }
        Ok(())
    }

    /// Returns the slots, and drops all else of the array.
    pub(crate) fn into_values(self) -> Vec<Item>
        ensures { result ≡ self.values }
    {
        let Array {
            values,
            decor,
            trailing,
            trailing_comma: _,
            span: _,
        } = self;
        drop(decor);
        drop(trailing);
        values
    }
}

/// Returns the value with this decor in place of its own.
fn with_decor(value: Value, decor: Decor) -> Value
    ensures { value_view result ≡ with_decor decor (value_view value) }
{
    let mut value = value;
    *value.decor_mut() = decor;
    value
}

/// Keeps the values that pass.
fn retain_values<F: Fn(&Value) -> bool>(items: &mut Vec<Item>, keep: F)
where
    F: Drop,
    requires { F.IsAlwaysCallable keep }
    ensures { RetainsBy (SaysOfValue F.Fn keep) (values_seen (listed items.old.items))
        (listed items.new.items) }
{
    list::retain(items, keep);
}

/// Sets the decor of each value: nothing around the first, and one space before each of the others.
fn format_items(items: &mut Vec<Item>)
    ensures { listed items.new.items ≡ formatted_items (listed items.old.items) }
{
    let alloc = *items.allocator();
    let mut is_first = true;
    for at in 0..items.len() {
        is_first = format_item(&mut items[at], alloc, is_first);
    }
}

/// Sets the decor of one item, and returns whether the next value is still the first.
fn format_item(item: &mut Item, alloc: Global, is_first: bool) -> bool
    ensures { (others : List Node)
        → formatted_from is_first (item_view item.old ∷ others)
        ≡ item_view item.new ∷ formatted_from result others }
{
    if !item.is_value() {
        return is_first;
    }
    item.decorate(space_before(alloc, is_first), RawString::default());
    false
}

/// Returns nothing or one space, which take no memory.
fn space_before(alloc: Global, is_first: bool) -> RawString
    ensures { Some result ≡ (element_decor is_first).prefix }
{
    match RawString::from_text(alloc, if is_first { "" } else { " " }) {
        Ok(space) => space,
        Err(_) => unreachable!(),
    }
}

/// Writes the array with its decor, of which unset sides are empty.
///
/// Carriage returns (CR) outside strings are dropped. Before `into_mut`, spellings and decors are
/// spans of the source, which are written as if they were unset.
impl fmt::Display for Array {
    ghost use Rattle.toml_edit_model.specs.Conversions.{value_display};

    ghost output = { λ array. Some (value_display (array_node (array_view array))) };

    fn fmt<W: fmt::Write>(&self, f: &mut fmt::Formatter<W>) -> fmt::Result {
        show(f, self)
    }
}

impl Printed for Array {
    ghost use Rattle.toml_edit_model.specs.Conversions.{value_display};

    ghost text = { λ array. value_display (array_node (array_view array)) };

    fn put_into<S: Sink>(&self, out: &mut S) {
        put_array(out, self)
    }
}
