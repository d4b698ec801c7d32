//! Access to items by paths of keys.
ghost use Rattle.std.specs.Prelude.{◌≡◌, ◌↔◌, IfErr, IfOk, IsTrue, OnOk, option_map};
ghost use Rattle.toml_edit_edit_laws.specs.Commands.{item_at, remove_at, root_item, set_at};
ghost use Rattle.toml_edit_tree.specs.View.{fields_view, item_view, table_slots, value_view};
ghost use Rattle.toml_edit_paths.specs.Calls.{ChangesFound, TakesFound, item_inside, replaced_at};
ghost use Rattle.toml_edit_paths.specs.Changes.{Changes, Moves, Renames};
ghost use Rattle.toml_edit_edit_laws.specs.Headed.{set_at_with_headers};
ghost use Rattle.toml_edit_paths.specs.Lines.{remove_line_at};
ghost use Rattle.toml_edit_paths.specs.declared.fault.ChangeFault.TheVariants.{NoSuchPath};
ghost use Rattle.toml_edit.specs.DocumentView.{IsPrintedAs, tree_owned};
ghost use Rattle.toml_edit.specs.Edited.{AddsTable, EditsBy, IsPlainValue, MayBePut, replace_at, takes_key, takes_line};
ghost use Rattle.toml_edit_laws.specs.Locality.{is_plain_value};
ghost use Rattle.toml_edit_edit_laws.specs.KeyCalls.{move_at, rename_at};
ghost use Rattle.toml_edit_edit_laws.specs.Means.{shown_at};
ghost use Rattle.toml_edit_edit_laws.specs.PathEdits.{moves, removes, renames, sets};
ghost use Rattle.toml_edit_slots.specs.declared.slots.rearrange.Renamed.TheVariants.{Done};
ghost use Rattle.toml_edit_model.specs.Keys.{names};
ghost use Rattle.toml_edit_model.specs.Spelling.{SpellsKey};
ghost use Rattle.toml_edit_model.specs.Tree.{HasTrueSpelling};

use super::DocumentMut;
use toml_edit_edit_laws::{calls_still_fit, others_stay, path_edits};
use toml_edit_key::Key;
use toml_edit_paths::ChangeFault;
use toml_edit_repr::Mem;
use toml_edit_slots::Renamed;
use toml_edit_tree::{Item, Table, Value, table_has_lines};

/// # Paths
///
/// A path leads down from the root, a key at a time. In a table or an inline table, a key is looked
/// up by its name. In an array or an array of tables, its name is the number of an element in
/// decimal digits, counted from 0, without leading zeros. [`Key::parse`] makes a path of a text.
impl DocumentMut {
    /// Returns the item at `path`, or `None` if there is none.
    ///
    /// Placeholders are not found, nor are elements of an array that are not values and of an array
    /// of tables that are not tables. The empty path leads to the root.
    pub fn get_at(&self, path: &[Key]) -> Option<&Item>
        ensures { option_map (λ x. item_view x.now) result
            ≡ item_at (names path.now) (tree_owned self.now) }
    {
        toml_edit_paths::get(self.as_item(), path)
    }

    /// Puts the value at `path`.
    ///
    /// A value that is there is replaced, and its decor stays. A placeholder in a table is filled,
    /// and one in an array is not found. A missing key is added at the end of its table, with inline
    /// tables down to the value if more are missing. It is a copy of the path's key, in the same
    /// spelling, but without its decors. So comments and spacing stay, and only the statement with
    /// the path changes, or one is added: see [`laws::replaced`](crate::laws::replaced) and
    /// [`laws::added`](crate::laws::added).
    ///
    /// # Errors
    ///
    /// Fails with [`ChangeFault::NoSuchPath`] if a key names no element, with
    /// [`ChangeFault::WrongKind`] for a table or an array of tables at the end of the path or a
    /// scalar before it, and with [`ChangeFault::Memory`] if out of memory. The document is
    /// unchanged then.
    pub fn set_at(&mut self, path: &[Key], value: Value) -> Result<(), ChangeFault>
        ensures changes { Changes
            (set_at path.now (value_view value) (tree_owned self.old))
            (tree_owned self.old) (tree_owned self.new) result }
        ensures printed { IsPrintedAs self.new self.old }
        // At most one statement changes or is added where the value may be put.
        ensures edits { OnOk result (IsPlainValue (value_view value) (tree_owned self.new)
            → MayBePut (tree_owned self.old) path.now
            → EditsBy (sets path.now (value_view value)) self.old self.new) }
    {
        calls_still_fit();
        others_stay();
        path_edits();
        let alloc = self.as_table().slots.allocator();
        toml_edit_paths::set(alloc, self.as_table_mut(), path, value)
    }

    /// Puts the value at `path`, as [`set_at`](Self::set_at) does, but makes tables with headers
    /// where tables are missing.
    ///
    /// If keys before the last are missing in a table, a table is added at its end, with further
    /// tables down to the value. The last of them has a header, and those above it are implicit: in
    /// an empty document, `tool.x.y` makes the header `[tool.x]` and the line of `y`. The header is
    /// printed after that of the table before it in the tree, with an empty line between. A
    /// placeholder before the last key is filled with such tables. Below an array or an inline
    /// table, missing tables are inline, as there is no other kind there.
    ///
    /// # Errors
    ///
    /// Fails with [`ChangeFault::NoSuchPath`] if a key names no element, with
    /// [`ChangeFault::WrongKind`] for a table or an array of tables at the end of the path or a
    /// scalar before it, and with [`ChangeFault::Memory`] if out of memory. The document is
    /// unchanged then.
    pub fn set_at_with_headers(&mut self, path: &[Key], value: Value) -> Result<(), ChangeFault>
        ensures changes { Changes
            (set_at_with_headers path.now (value_view value) (tree_owned self.old))
            (tree_owned self.old) (tree_owned self.new) result }
        ensures printed { IsPrintedAs self.new self.old }
        // Where no table is missing, it is the edit that `set_at` is.
        ensures edits { OnOk result (IsPlainValue (value_view value) (tree_owned self.new)
            → MayBePut (tree_owned self.old) path.now
            → EditsBy (sets path.now (value_view value)) self.old self.new) }
        // Where one is, a header and the line of the value are added, and all other statements stay.
        ensures adds { OnOk result (AddsTable path.now (value_view value)
            (tree_owned self.old) (tree_owned self.new)) }
    {
        calls_still_fit();
        others_stay();
        path_edits();
        let alloc = self.as_table().slots.allocator();
        toml_edit_paths::set_with_headers(alloc, self.as_table_mut(), path, value)
    }

    /// Replaces the value at `path`, whose decor stays, and makes no keys. Only the statement with the
    /// path changes.
    ///
    /// # Errors
    ///
    /// Fails with [`ChangeFault::NoSuchPath`] if nothing is at the path, or only in an array of tables
    /// inside a value, which is not printed; with [`ChangeFault::WrongKind`] for a table, an array of
    /// tables or a dotted inline table there; and with [`ChangeFault::Memory`] if out of memory. The
    /// document is unchanged then.
    pub fn replace_at(&mut self, path: &[Key], value: Value) -> Result<(), ChangeFault>
        ensures changes { Changes
            (replace_at path.now (value_view value) (tree_owned self.old))
            (tree_owned self.old) (tree_owned self.new) result }
        ensures printed { IsPrintedAs self.new self.old }
        ensures edits { OnOk result (IsPlainValue (value_view value) (tree_owned self.new)
            → EditsBy (sets path.now (value_view value)) self.old self.new) }
    {
        match self.is_plain_at(path) {
            Some(true) => self.set_at(path, value),
            Some(false) => {
                drop(value);
                Err(ChangeFault::WrongKind)
            }
            None => {
                drop(value);
                Err(ChangeFault::NoSuchPath)
            }
        }
    }

    /// Returns `true` if [`set_at`](Self::set_at) at `path` changes or adds one statement.
    ///
    /// A value is there that is shown, so in no array of tables inside another value, and is not a
    /// dotted inline table; or the last key is missing in the root, in a table whose header is
    /// printed, or in one that has lines, as a dotted table has.
    pub fn may_put(&self, path: &[Key]) -> bool
        ensures { IsTrue result ↔ MayBePut (tree_owned self.now) path.now }
    {
        match self.is_plain_at(path) {
            Some(is_plain) => is_plain,
            None => match path.split_last() {
                Some((key, above)) => takes_key(self.as_item(), above, key),
                None => false,
            },
        }
    }

    /// Returns whether the item at `path` is a value, but no dotted inline table, or `None` if there
    /// is none that is shown.
    fn is_plain_at(&self, path: &[Key]) -> Option<bool>
        ensures { result ≡ option_map is_plain_value
            (shown_at (names path.now) (tree_owned self.now)) }
    {
        match toml_edit_paths::get_shown(self.as_item(), path) {
            Some(item) => Some(is_plain(item)),
            None => None,
        }
    }

    /// Calls the closure on the item at `path`, and returns its result, or `None` if there is no
    /// such item. Nothing else changes.
    ///
    /// The item is found as by [`get_at`](Self::get_at), but for the root, which stays a table: the
    /// empty path leads to no item. Takes no memory itself. A closure that may fail returns a
    /// `Result`, and what it has changed by then stays.
    ///
    /// The closure may leave an item of any kind, and nothing adapts it: where a value takes the
    /// place of a table, say, its key keeps the decor that it had in the header. See
    /// [`fits`](Self::fits) for whether the document then prints as it should.
    pub fn change_at<R, F: FnOnce(&mut Item) -> R>(&mut self, path: &[Key], change: F) -> Option<R>
    where
        F: Drop,
        requires { TakesFound F.FnOnce change
            (item_inside (names path.now) (root_item (tree_owned self.old))) }
        ensures changes { ChangesFound F.FnOnce change
            (item_inside (names path.now) (root_item (tree_owned self.old)))
            (λ left. replaced_at (names path.now) left (tree_owned self.old))
            (tree_owned self.old) (tree_owned self.new) result }
        ensures printed { IsPrintedAs self.new self.old }
    {
        toml_edit_paths::change(self.as_table_mut(), path, change)
    }

    /// Gives the last key of `path` the name `name`, as [`Table::rename`] does.
    ///
    /// It is a key of a table or an inline table, and no placeholder is found. The key keeps its
    /// place, its decor and its item, and gets the default spelling of its name. If there is no such
    /// key, or another one beside it has the name, nothing changes. See
    /// [`laws::renamed`](crate::laws::renamed).
    ///
    /// # Errors
    ///
    /// Returns an `AllocError` if out of memory. The document is unchanged then.
    pub fn rename_at(&mut self, path: &[Key], name: &str) -> Mem<Renamed>
        ensures renames { Renames (rename_at (names path.now) name.now (tree_owned self.old))
            (tree_owned self.old) (tree_owned self.new) result }
        ensures printed { IsPrintedAs self.new self.old }
        // All statements stay but those at the path and at the new one.
        ensures edits { IfOk result (λ told. told ≡ Done
            → EditsBy (renames (names path.now) name.now) self.old self.new) }
    {
        others_stay();
        path_edits();
        toml_edit_paths::rename(self.as_table_mut(), path, name)
    }

    /// Moves the last key of `path` to index `at` among the keys beside it, or to their end if there
    /// are fewer, and returns `false` if it is missing. Takes no memory.
    ///
    /// It is a key of a table or an inline table, and no placeholder is found. The other keys keep
    /// their order, and nothing else changes. So a new key gets a place by
    /// [`set_at`](Self::set_at) and this call. See [`laws::moved`](crate::laws::moved).
    pub fn move_at(&mut self, path: &[Key], at: usize) -> bool
        ensures moves { Moves (move_at (names path.now) at (tree_owned self.old))
            (tree_owned self.old) (tree_owned self.new) result }
        ensures printed { IsPrintedAs self.new self.old }
        // All statements stay but those at the path.
        ensures edits { IsTrue result → EditsBy (moves (names path.now) at) self.old self.new }
    {
        others_stay();
        path_edits();
        toml_edit_paths::move_to(self.as_table_mut(), path, at)
    }

    /// Removes the item at `path`: the slot of a table with its key, the value of an array, or the
    /// table of an array of tables. Takes no memory.
    ///
    /// The comments in the decors of what is removed go with it, and all others stay. See
    /// [`laws::removed`](crate::laws::removed).
    ///
    /// # Errors
    ///
    /// Fails with [`ChangeFault::NoSuchPath`] if there is no such item, and with no other fault.
    /// The document is unchanged then.
    pub fn remove_at(&mut self, path: &[Key]) -> Result<(), ChangeFault>
        ensures changes { Changes (remove_at (names path.now) (tree_owned self.old))
            (tree_owned self.old) (tree_owned self.new) result }
        ensures fault { IfErr result (λ fault. fault ≡ NoSuchPath) }
        ensures printed { IsPrintedAs self.new self.old }
        // All statements stay but those at the path.
        ensures edits { OnOk result (EditsBy (removes (names path.now)) self.old self.new) }
    {
        calls_still_fit();
        others_stay();
        path_edits();
        toml_edit_paths::remove(self.as_table_mut(), path)
    }

    /// Removes the item at `path`, as [`remove_at`](Self::remove_at) does, but an element of an array
    /// as [`Array::remove_line`] does: with its line, if it is alone there, or alone beside the
    /// opening bracket.
    ///
    /// The comments above the element and on its line then go with it, and those of the elements
    /// before and after it stay. Takes memory for an element of an array only.
    ///
    /// # Errors
    ///
    /// Fails with [`ChangeFault::NoSuchPath`] if there is no such item, and with
    /// [`ChangeFault::Memory`] if out of memory. The document is unchanged then.
    pub fn remove_line_at(&mut self, path: &[Key]) -> Result<(), ChangeFault>
        ensures changes { Changes (remove_line_at (names path.now) (tree_owned self.old))
            (tree_owned self.old) (tree_owned self.new) result }
        ensures printed { IsPrintedAs self.new self.old }
    {
        toml_edit_paths::remove_line(self.as_table_mut(), path)
    }
}

/// Returns `true` if the item is a value, but no dotted inline table.
fn is_plain(item: &Item) -> bool
    ensures { result ≡ is_plain_value (item_view item.now) }
{
    match item.as_inline_table() {
        Some(table) => !table.is_dotted(),
        None => item.is_value(),
    }
}

/// Returns `true` if the key is missing in the table at the path below the root, and the table can
/// have one line more.
fn takes_key(root: &Item, above: &[Key], key: &Key) -> bool
    ensures takes { result ≡ takes_key key.now.name (names above.now) (item_view root.now) }
    ensures spelled { ∥ HasTrueSpelling (SpellsKey key.now.name) key.now.spelling ∥₁ }
{
    let name = key.get();
    match toml_edit_paths::get_through_tables(root, above) {
        Some((Item::Table(table), is_element)) => {
            table.key(name).is_none() && takes_line(table, above.is_empty(), is_element)
        }
        _ => false,
    }
}

/// Returns `true` if the table can have one line more: it has lines, or a header, or is the root.
fn takes_line(table: &Table, is_root: bool, is_element: bool) -> bool
    ensures { result ≡ takes_line is_root is_element (fields_view table.now)
        (table_slots table.now) }
{
    is_root || table_has_lines(table) || !table.is_dotted() && (is_element || !table.is_implicit())
}
