//! Arrays of tables: the type, its calls and its iterators.
ghost use Rattle.std.specs.Borrow.{sem};
ghost use Rattle.std.specs.Iterator.{Drains, ExtendsWithItems, IsFinite, YieldsFirstBy, item_count};
ghost use Rattle.std.specs.Prelude.{[], ◌<◌, ◌↔◌, ◌≡◌, ◌≤◌, IfErr, IfOk, IsSome, IsTrue, List, None, OnErr, OnOk, Some, is_some, length, option_map, slice_get, true};
ghost use Rattle.toml_edit_laws.specs.TableTree.{reaching, with_item};
ghost use Rattle.toml_edit_model.specs.ArrayCalls.{inserted_at, pushed, removed_at, written_at};
ghost use Rattle.toml_edit_model.specs.Conversions.{item_display};
ghost use Rattle.toml_edit_model.specs.Iterating.{elements};
ghost use Rattle.toml_edit_model.specs.Retaining.{RetainsBy};
ghost use Rattle.toml_edit_model.specs.TablesCalls.{table_at};
ghost use Rattle.toml_edit_model.specs.Tree.{no_items};
ghost use Rattle.toml_edit_tree.specs.ContainerParts.{table_read, tables_left};
ghost use Rattle.toml_edit_tree.specs.Containers.{range_in, table_node, tables_node};
ghost use Rattle.toml_edit_tree.specs.ElementClosures.{SaysOfTable};
ghost use Rattle.toml_edit_tree.specs.ElementParts.{AddsTables, HasTables, owned_tables, table_owned};
ghost use Rattle.toml_edit_tree.specs.Elements.{extent_of, listed, tables_of};
ghost use Rattle.toml_edit_tree.specs.ItemPlaces.{LendsTableAt, LendsTableIn, LendsTablesSlot, LendsTablesSlotIn, table_in_at, with_table_at};
ghost use Rattle.toml_edit_tree.specs.View.{item_view, items_view, table_view, tables_view};
ghost use Rattle.toml_edit_tree.specs.declared.array_of_tables.ArrayOfTables.{out-ArrayOfTables};
ghost use Rattle.toml_edit_tree.specs.declared.table.Table.{Table};

use crate::copy::copy_tables;
use crate::elements::{insert_table, push_table, replace_table, take_table};
use crate::empty::empty_items;
use crate::item::Item;
use crate::table::Table;
use std::alloc::Global;
use std::ops::Range;
use std::{fmt, slice, vec};
use toml_edit_repr::Mem;
use toml_edit_slots::{NoMemory, list};

/// An array of tables, each with a header in double brackets (TOML, "Array of Tables").
///
/// A slot may hold no table, and then isn't printed: [`get`](Self::get) and [`iter`](Self::iter)
/// skip it, and [`len`](Self::len) counts it. An array that shows no table isn't printed.
///
/// An array of inline tables in brackets is an [`Array`](crate::Array).
///
/// # Examples
///
/// ```rust,ignore
/// let mut tables = ArrayOfTables::new(alloc);
/// tables.push(element).map_err(no_memory)?;
/// let item = Item::ArrayOfTables(tables);
/// drop(root.insert(name, item).map_err(no_memory)?);
/// ```
///
/// From `add_element` of the crate `example_calls`.
#[cycle(tree)]
#[derive(Debug)]
pub struct ArrayOfTables {
    #[doc(hidden)]
    pub values: Vec<Item>,
    pub(crate) span: Option<(usize, usize)>,
}

impl Drop for ArrayOfTables {
    // The drop of an item stays small, so that it is inlined where slots and elements are dropped.
    #[cycle(tree_drop)]
    #[inline(never)]
    fn drop(self) {
        let ArrayOfTables { values, span: _ } = self;
        let mut values = values;
        empty_items(&mut values);
        drop(values);
    }
}

// Constructors
impl ArrayOfTables {
    /// Creates an empty array of tables, which takes no memory before its first table.
    ///
    /// It isn't printed as long as it is empty, since TOML has no form for it.
    ///
    /// # Examples
    ///
    /// ```rust,ignore
    /// let mut tables = ArrayOfTables::new(alloc);
    /// tables.push(element).map_err(no_memory)?;
    /// ```
    ///
    /// From `add_element` of the crate `example_calls`.
    pub fn new(alloc: Global) -> ArrayOfTables
        ensures { tables_view result ≡ record { extent = None; items = no_items } }
    {
        ArrayOfTables {
            values: Vec::new(alloc),
            span: None,
        }
    }

    /// Creates an array of the tables, in order.
    ///
    /// # Errors
    ///
    /// Returns an `AllocError` if out of memory.
    pub fn from_iter<U: IntoIterator<Item = Table>>(alloc: Global, tables: U) -> Mem<ArrayOfTables>
        requires { (it : U.IntoIter) → U.into_iter_gives tables it
            → U.IntoIter.can_next it × IsFinite (U.IntoIter.remaining it) }
        ensures { IfOk result
            (λ array. (it : U.IntoIter) × (ts : List Table) × U.into_iter_gives tables it
            × Drains U.IntoIter.next_gives it ts × HasTables ts array) }
    {
        let mut array = ArrayOfTables::new(alloc);
        match array.extend(tables) {
            Ok(()) => Ok(array),
            Err(refused) => Err(refused),
        }
    }

    /// Makes an empty array of tables, whose first header spans the bytes from `start` to `end` of
    /// the source.
    #[doc(hidden)]
    pub fn with_span(alloc: Global, start: usize, end: usize) -> ArrayOfTables
        ensures { tables_view result ≡ record { extent = Some (start, end); items = no_items } }
    {
        ArrayOfTables {
            values: Vec::new(alloc),
            span: Some((start, end)),
        }
    }
}

// Formatting
impl ArrayOfTables {
    /// Returns the byte range from the first header to the last in the source, brackets included.
    ///
    /// It is `None` for an array that was made, and in a `DocumentMut`: read it before `into_mut`.
    pub fn span(&self) -> Option<Range<usize>>
        ensures { result ≡ range_in (tables_view self.now).extent }
    {
        let (start, end) = self.span?;
        Some(start..end)
    }

    /// Copies the array of tables, with all spellings, decors, spans and positions.
    ///
    /// The copy of a table that has a position is printed beside its original: see
    /// [`Table::clone`].
    ///
    /// # Errors
    ///
    /// Returns an `AllocError` if out of memory.
    pub fn clone(&self, alloc: Global) -> Mem<ArrayOfTables>
        ensures { IfOk result (λ copy. tables_view copy ≡ tables_view self.now) }
    {
        copy_tables(self, alloc)
    }
}

// Access
impl ArrayOfTables {
    /// Iterates over the tables in order, without slots that hold none.
    ///
    /// There is no `iter_mut`: for each index below [`len`](Self::len), use
    /// [`get_mut`](Self::get_mut).
    pub fn iter(&self) -> ArrayOfTablesIter<'_>
        ensures { tables_left result ≡ elements (tables_of self.now) }
    {
        ArrayOfTablesIter {
            items: self.values.as_slice().iter(),
        }
    }

    /// Returns the number of slots, those without a table included.
    pub fn len(&self) -> usize
        ensures { result ≡ length (tables_of self.now) }
    {
        self.values.len()
    }

    /// Returns `true` if there are no slots.
    pub fn is_empty(&self) -> bool
        ensures { IsTrue result ↔ (tables_of self.now ≡ []) }
    {
        self.len() == 0
    }

    /// Removes all slots.
    pub fn clear(&mut self)
        ensures items { tables_of self.new ≡ [] }
        ensures extent { extent_of self.new ≡ extent_of self.old }
    {
        self.values.clear();
    }

    /// Returns the table at index `at`, or `None` past the end and where the slot holds none.
    pub fn get(&self, at: usize) -> Option<&Table>
        ensures { option_map (λ table. table_node (table_view table.now)) result
            ≡ table_at at (tables_of self.now) }
    {
        list::get(self.values.as_slice(), at)
    }

    /// Returns a mutable reference to the table at index `at`, or `None` past the end and where the
    /// slot holds none.
    pub fn get_mut(&mut self, at: usize) -> Option<&mut Table>
        ensures* writes_back { sem 𝓛 (LendsTableAt self.entry at result) }
        ensures table { option_map (λ table. table_node (table_view table.now)) result
            ≡ table_at at (tables_of self.old) }
        // What the array of tables is after a write through the reference.
        ensures leaves { (w : Table)
            → tables_of (with_table_at at w self.old)
            ≡ written_at at (table_node (table_view w)) (tables_of self.old) }
        ensures keeps { (w : Table) → extent_of (with_table_at at w self.old) ≡ extent_of self.old }
    {
        if self.holds_table(at) {
            Some(self.table_in_mut(at))
        } else {
            None
        }
    }

    /// Returns `true` if there is a table at the index.
    fn holds_table(&self, at: usize) -> bool
        ensures { result ≡ is_some (table_in_at at self.now) }
    {
        match self.values.get(at) {
            Some(item) => item.is_table(),
            None => false,
        }
    }

    /// Returns a mutable reference to the table at an index that has one.
    fn table_in_mut(&mut self, at: usize) -> &mut Table
        requires { is_some (table_in_at at self.old) ≡ true }
        ensures* writes_back { sem 𝓛 (LendsTableIn self.entry at result) }
        ensures table { table_in_at at self.old ≡ Some result.now }
    {
        let item = self.slot_in_mut(at);
        item.own_table_mut()
    }

    /// Returns a mutable reference to slot `at`, of any kind, or `None` past the end.
    ///
    /// An array of tables can hold an item that is not a table, which is not printed.
    /// [`get_mut`](Self::get_mut) lends tables alone. The contract says what the array is after a
    /// write.
    pub fn slot_at_mut(&mut self, at: usize) -> Option<&mut Item>
        ensures* writes_back { sem 𝓛 (LendsTablesSlot self.entry at result) }
        ensures item { option_map (λ item. item_view item.now) result
            ≡ slice_get (tables_of self.old) at }
    {
        if at < self.values.len() {
            Some(self.slot_in_mut(at))
        } else {
            None
        }
    }

    /// Returns a mutable reference to slot `at`, which is there.
    fn slot_in_mut(&mut self, at: usize) -> &mut Item
        requires { at < length (out-ArrayOfTables self.old).values.items }
        ensures* writes_back { sem 𝓛 (LendsTablesSlotIn self.entry at result) }
        ensures item { Some result.now ≡ slice_get (out-ArrayOfTables self.old).values.items at }
    {
        &mut self.values[at]
    }

    /// Adds `table` at the end.
    ///
    /// Without a position its header is printed after that of the table before it in the tree.
    ///
    /// # Errors
    ///
    /// Returns a [`NoMemory`] with `table` if out of memory.
    ///
    /// # Examples
    ///
    /// ```rust,ignore
    /// if let Some(tables) = item.as_array_of_tables_mut() {
    ///     tables.push(element).map_err(no_memory)?;
    ///     return Ok(());
    /// }
    /// ```
    ///
    /// From `push_element` of the crate `example_calls`.
    pub fn push(&mut self, table: Table) -> Result<(), NoMemory<Table>>
        ensures items { OnOk result
            (tables_of self.new ≡ pushed (table_node (table_view table)) (tables_of self.old)) }
        ensures extent { extent_of self.new ≡ extent_of self.old }
        ensures err { OnErr result (tables_view self.new ≡ tables_view self.old) }
        ensures back { IfErr result (λ refused. refused.0 ≡ table) }
    {
        push_table(&mut self.values, table)
    }

    /// Inserts `table` before what is at index `at`.
    ///
    /// A contract requires that `at` is at most [`len`](Self::len); there the table is added at the
    /// end. Headers are printed by position, so a copy of another element needs
    /// [`set_position`](Table::set_position) with `None` to be printed there.
    ///
    /// # Errors
    ///
    /// Returns a [`NoMemory`] with `table` if out of memory.
    pub fn insert(&mut self, at: usize, table: Table) -> Result<(), NoMemory<Table>>
        requires { at ≤ length (tables_of self.old) }
        ensures items { OnOk result
            (tables_of self.new
            ≡ inserted_at at (table_node (table_view table)) (tables_of self.old)) }
        ensures extent { extent_of self.new ≡ extent_of self.old }
        ensures err { OnErr result (tables_view self.new ≡ tables_view self.old) }
        ensures back { IfErr result (λ refused. refused.0 ≡ table) }
    {
        insert_table(&mut self.values, at, table)
    }

    /// Replaces the table at index `at` and returns the old one.
    ///
    /// The new table keeps its own decor and position. A contract requires that there is a table:
    /// check with [`get`](Self::get).
    ///
    /// # Examples
    ///
    /// ```rust,ignore
    /// element.set_position(old.position());
    /// Some(tables.replace(at, element))
    /// ```
    ///
    /// From `replace_element` of the crate `example_calls`.
    pub fn replace(&mut self, at: usize, table: Table) -> Table
        requires { IsSome (table_at at (tables_of self.old)) }
        ensures table { Some (table_node (table_view result)) ≡ table_at at (tables_of self.old) }
        ensures items { tables_of self.new
            ≡ written_at at (table_node (table_view table)) (tables_of self.old) }
        ensures extent { extent_of self.new ≡ extent_of self.old }
    {
        replace_table(&mut self.values, at, table)
    }

    /// Removes the table at index `at` and returns it, keeping the order of the others.
    ///
    /// It has its header's decor, so the comment above the header goes with it. A contract requires
    /// that there is a table: check with [`get`](Self::get).
    pub fn remove(&mut self, at: usize) -> Table
        requires { IsSome (table_at at (tables_of self.old)) }
        ensures table { Some (table_node (table_view result)) ≡ table_at at (tables_of self.old) }
        ensures items { tables_of self.new ≡ removed_at at (tables_of self.old) }
        ensures extent { extent_of self.new ≡ extent_of self.old }
    {
        take_table(&mut self.values, at)
    }

    /// Keeps the tables for which `keep` returns `true`, in their order, and removes the others.
    ///
    /// Slots that hold no table are removed too.
    pub fn retain<F: Fn(&Table) -> bool>(&mut self, keep: F)
    where
        F: Drop,
        requires { F.IsAlwaysCallable keep }
        ensures kept { RetainsBy (SaysOfTable F.Fn keep) (elements (tables_of self.old))
            (tables_of self.new) }
        ensures extent { extent_of self.new ≡ extent_of self.old }
    {
        retain_tables(&mut self.values, keep);
    }

    /// Adds the tables at the end, one after another.
    ///
    /// # Errors
    ///
    /// Returns an `AllocError` if out of memory. The array keeps the tables that were added before,
    /// and the others are dropped.
    #[tactic(auto, using(crate::proofs::ElementLaws::table_last))]
    pub fn extend<U: IntoIterator<Item = Table>>(&mut self, tables: U) -> Mem<()>
        requires { (it : U.IntoIter) → U.into_iter_gives tables it
            → U.IntoIter.can_next it × IsFinite (U.IntoIter.remaining it) }
        ensures { ExtendsWithItems U.into_iter_gives U.IntoIter.next_gives AddsTables tables
            self.old self.new result }
    {
        for table in tables {
            self.push(table)?;
        }
        Ok(())
    }

    /// Adds an element whose header ends before the byte `end` of the source.
    ///
    /// # Errors
    ///
    /// Returns an `AllocError` if out of memory. No contract says what the array of tables is then.
    #[doc(hidden)]
    pub fn add_element(&mut self, element: Item, end: usize) -> Mem<()>
        ensures { OnOk result (tables_view self.new ≡ record {
          extent = reaching (tables_view self.old).extent end;
          items = with_item (tables_view self.old).items (item_view element);
        }) }
    {
        push_element(&mut self.values, element)?;
        if let Some((start, _)) = self.span {
            self.span = Some((start, end));
        }
        Ok(())
    }

    /// Returns the slots, and drops all else of the array of tables.
    pub(crate) fn into_values(self) -> Vec<Item>
        ensures { result ≡ self.values }
    {
        let ArrayOfTables { values, span: _ } = self;
        values
    }
}

/// Keeps the tables that pass.
fn retain_tables<F: Fn(&Table) -> bool>(items: &mut Vec<Item>, keep: F)
where
    F: Drop,
    requires { F.IsAlwaysCallable keep }
    ensures { RetainsBy (SaysOfTable F.Fn keep) (elements (listed items.old.items))
        (listed items.new.items) }
{
    list::retain(items, keep);
}

/// Adds an item at the end.
fn push_element(items: &mut Vec<Item>, element: Item) -> Mem<()>
    ensures { OnOk result
        (items_view items.new.items ≡ with_item (items_view items.old.items) (item_view element)) }
{
    items.push(element)?;
    Ok(())
}

/// An iterator over the tables of an array of tables, in order.
///
/// Returned by [`ArrayOfTables::iter`].
///
/// # Examples
///
/// ```rust,ignore
/// tables.iter().next()
/// ```
///
/// From `first_table` of the crate `example_calls`.
#[derive(Drop)]
pub struct ArrayOfTablesIter<'a> {
    items: slice::Iter<'a, Item>,
}

impl<'a> Iterator for ArrayOfTablesIter<'a> {
    type Item = &'a Table;

    ghost next_gives = { YieldsFirstBy table_read tables_left };

    ghost remaining = { item_count tables_left };

    fn next(&mut self) -> Option<&'a Table> {
        while let Some(item) = self.items.next() {
            if let Some(table) = item.as_table() {
                return Some(table);
            }
        }
        None
    }
}

impl<'a> IntoIterator for &'a ArrayOfTables {
    type Item = &'a Table;

    type IntoIter = ArrayOfTablesIter<'a>;

    ghost into_iter_gives = { λ array it. tables_left it ≡ elements (tables_of array.now) };

    fn into_iter(self) -> ArrayOfTablesIter<'a> {
        self.iter()
    }
}

/// An iterator that takes an array of tables apart: over its tables in order.
///
/// # Examples
///
/// ```rust,ignore
/// tables.into_iter().next()
/// ```
///
/// From `into_table` of the crate `example_calls`.
#[derive(Drop)]
pub struct ArrayOfTablesIntoIter {
    items: vec::IntoIter<Item>,
}

impl IntoIterator for ArrayOfTables {
    type Item = Table;

    type IntoIter = ArrayOfTablesIntoIter;

    ghost into_iter_gives = { λ array it. owned_tables it ≡ elements (tables_of array) };

    fn into_iter(self) -> ArrayOfTablesIntoIter {
        ArrayOfTablesIntoIter {
            items: self.into_values().into_iter(),
        }
    }
}

impl Iterator for ArrayOfTablesIntoIter {
    type Item = Table;

    ghost next_gives = { YieldsFirstBy table_owned owned_tables };

    ghost remaining = { item_count owned_tables };

    fn next(&mut self) -> Option<Table> {
        while let Some(item) = self.items.next() {
            match item {
                Item::Table(table) => return Some(table),
                other => drop(other),
            }
        }
        None
    }
}

/// Writes the array of tables as an array of inline tables, as
/// [`into_array`](ArrayOfTables::into_array) makes it.
///
/// It is made of a copy, by the allocator of the array of tables. If out of memory, nothing is
/// written and the result is an error.
impl fmt::Display for ArrayOfTables {
    ghost output = { λ tables. Some (item_display (tables_node (tables_view tables))) };

    fn fmt<W: fmt::Write>(&self, f: &mut fmt::Formatter<W>) -> fmt::Result {
        match self.clone(*self.values.allocator()) {
            Ok(copy) => copy.into_array().fmt(f),
            Err(_) => Err(fmt::Error),
        }
    }
}
