//! The keys and paths below an item.
ghost use Rattle.std.specs.Prelude.{◌≡◌, ◌++◌, IfOk, map, string_bytes};
ghost use Rattle.toml_edit_items.specs.Below.{Lists, element_paths, has_item, path_line, path_lines, paths_at, paths_below, slot_paths, table_keys, table_paths};
ghost use Rattle.toml_edit_items.specs.Texts.{GivesLine, Puts};
ghost use Rattle.toml_edit_tree.specs.View.{item_view, items_view, slots_view};
ghost use Rattle.toml_edit_visit.specs.Below.{key};
ghost use Rattle.toml_edit_visit.specs.Steps.{steps_on};

use std::alloc::Global;
use toml_edit::visit::Path;
use toml_edit::{Item, Key, Mem, Slots, Value};
use toml_edit_tree::table::is_filled;

/// Returns the keys of a table or an inline table, as they are spelled, one a line. Returns `None`
/// for any other item.
pub fn key_lines(alloc: Global, item: &Item) -> Mem<Option<String>>
    ensures { GivesLine (table_keys (item_view item.now)) result }
{
    let Some(slots) = item.as_slots() else {
        return Ok(None);
    };
    let mut text = String::new(alloc);
    let entries = slots.as_slice();
    'slots: for slot in entries {
        if is_filled(slot) {
            put_path_line(alloc, &mut text, &Path::Key(&Path::Root, &slot.key))?;
        }
    }
    Ok(Some(text))
}

/// Returns the paths to the scalars, the arrays and the empty tables that an item holds, or that it
/// is, one a line. They begin with the path to the item.
///
/// An array of tables has the numbers of its elements on the paths, as `bin.0.name`. The root has no
/// path.
pub fn path_lines(alloc: Global, path: &[Key], item: &Item) -> Mem<String>
    ensures { IfOk result
        (λ s. string_bytes s ≡ path_lines (paths_at path.now (item_view item.now))) }
{
    let mut lines = Lines {
        alloc,
        text: String::new(alloc),
    };
    lines.put_at(&Path::Root, path, item)?;
    Ok(lines.text)
}

/// Lines of paths.
#[derive(Drop)]
struct Lines {
    alloc: Global,
    text: String,
}

impl Lines {
    /// Adds the paths to what is below an item, whose path goes on by these keys.
    fn put_at<'p, 'a>(&mut self, path: &'p Path<'p, 'a>, keys: &'a [Key], item: &'a Item) -> Mem<()>
        ensures { Puts (path_lines
            (paths_below (steps_on path.now ++ map key keys.now) (item_view item.now)))
            self.old.text self.new.text result }
    {
        match keys {
            [] => self.put_item(path, item),
            [key, rest @ ..] => self.put_at(&Path::Key(path, key), rest, item),
        }
    }

    #[cycle(paths)]
    #[inline(always)]
    fn put_item<'p, 'a>(&mut self, path: &'p Path<'p, 'a>, item: &'a Item) -> Mem<()>
        ensures { Lists paths_below path.now (item_view item.now) self.old self.new result }
    {
        match item {
            Item::None => Ok(()),
            Item::Value(Value::InlineTable(table)) => self.put_table(path, &table.items),
            Item::Value(_) => self.put_path(path),
            Item::Table(table) => self.put_table(path, &table.slots),
            Item::ArrayOfTables(tables) => self.put_elements(path, &tables.values),
        }
    }

    /// Adds the paths to what is below the slots of a table, or its own path if it is empty.
    #[cycle(paths)]
    #[inline(always)]
    fn put_table<'p, 'a>(&mut self, path: &'p Path<'p, 'a>, slots: &'a Slots<Item>) -> Mem<()>
        ensures { Lists table_paths path.now (slots_view slots.now) self.old self.new result }
    {
        if holds_item(slots) {
            self.put_slots(path, slots)
        } else {
            self.put_path(path)
        }
    }

    #[cycle(paths)]
    #[inline(never)]
    fn put_slots<'p, 'a>(&mut self, path: &'p Path<'p, 'a>, slots: &'a Slots<Item>) -> Mem<()>
        ensures { Lists slot_paths path.now (slots_view slots.now) self.old self.new result }
    {
        let entries = slots.as_slice();
        'slots: for slot in entries {
            self.put_item(&Path::Key(path, &slot.key), &slot.item)?;
        }
        Ok(())
    }

    /// Adds the paths to what is below the elements that are tables.
    #[cycle(paths)]
    #[inline(never)]
    fn put_elements<'p, 'a>(&mut self, path: &'p Path<'p, 'a>, items: &'a Vec<Item>) -> Mem<()>
        ensures { Lists (λ ss. element_paths ss 0) path.now (items_view items.now.items)
            self.old self.new result }
    {
        'items: for (at, item) in items.iter().enumerate() {
            if let Item::Table(table) = item {
                self.put_table(&Path::Element(path, at), &table.slots)?;
            }
        }
        Ok(())
    }

    fn put_path(&mut self, path: &Path<'_, '_>) -> Mem<()>
        ensures { Puts (path_line (steps_on path.now)) self.old.text self.new.text result }
    {
        put_path_line(self.alloc, &mut self.text, path)
    }
}

fn holds_item(slots: &Slots<Item>) -> bool
    ensures { result ≡ has_item (slots_view slots.now) }
{
    let entries = slots.as_slice();
    'slots: for slot in entries {
        if is_filled(slot) {
            return true;
        }
    }
    false
}

/// Adds a path on a line, unless it is that of the root.
fn put_path_line(alloc: Global, text: &mut String, path: &Path<'_, '_>) -> Mem<()>
    ensures { Puts (path_line (steps_on path.now)) text.old text.new result }
{
    if let Path::Root = path {
        return Ok(());
    }
    let line = format!(in alloc; "{path}\n")?;
    text.push_str(line.as_str())
}
