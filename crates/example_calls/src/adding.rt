//! Adding values, tables and elements.
ghost use Rattle.std.specs.Prelude.{◌≡◌, ◌-◌, IfErr, IfNone, IfOk, IfSome, IsNone, IsOk, IsTrue, OnErr, OnOk, Some, is_some, length, map, option_map, string_bytes, true};
ghost use Rattle.std.specs.Option.{option_copied};
ghost use Rattle.example_calls.specs.Adds.{defaulted, dependency, described, dotted_inline, implicit_table, inline_of_one, slot_made, table_of_one};
ghost use Rattle.example_calls.specs.Elements.{with_element, with_last};
ghost use Rattle.example_calls.specs.Lines.{after_last, before_last, indent_of, side_text, with_line, without_suffix};
ghost use Rattle.toml_edit.specs.model.ArrayCalls.{value_at};
ghost use Rattle.toml_edit.specs.model.Conversions.{new_table};
ghost use Rattle.toml_edit.specs.model.Slots.{changed_at, has_slot, inserted, on_item};
ghost use Rattle.toml_edit.specs.model.Text.{newline};
ghost use Rattle.toml_edit.specs.model.Tree.{owned};
ghost use Rattle.toml_edit.specs.tree.Containers.{table_node};
ghost use Rattle.toml_edit.specs.tree.Elements.{array_fields, items_of};
ghost use Rattle.toml_edit.specs.tree.InlineEntries.{inline_key, inline_value};
ghost use Rattle.toml_edit.specs.tree.SlotsOf.{inline_slots_of, slots_of};
ghost use Rattle.toml_edit.specs.tree.TableEntries.{entry_item, entry_key, entry_place, entry_ref};
ghost use Rattle.toml_edit.specs.tree.View.{array_view, item_view, table_view, value_view};
ghost use Rattle.toml_edit.specs.tree.declared.index.IndexFault.TheVariants.{Memory};
ghost use Rattle.toml_edit.specs.tree.declared.table.entry.Entry.TheVariants.{Occupied};

use std::alloc::{AllocError, Global};
use toml_edit::{
    Array, ArrayOfTables, Entry, IndexFault, InlineEntry, InlineTable, Item, Mem, NoMemory,
    OccupiedEntry, RawString, Table, Value,
};

/// Drops what found no memory, and returns the error.
pub fn no_memory<T: Drop>(_refused: NoMemory<T>) -> AllocError {
    AllocError
}

/// Adds a dependency with features, as `cargo add` writes it.
pub fn add_dependency(
    alloc: Global,
    dependencies: &mut Table,
    name: &str,
    version: &str,
    features: &[&str],
) -> Mem<()>
    ensures ok { OnOk result (slots_of dependencies.new ≡ inserted name.now
        (dependency version.now (map (λ t. t.now) features.now)) (slots_of dependencies.old)) }
    ensures err { OnErr result (dependencies.new ≡ dependencies.old) }
{
    let mut names = Array::new(alloc);
    for feature in features {
        let name = Value::string(alloc, *feature)?;
        names.push(name).map_err(no_memory)?;
    }
    let mut dependency = InlineTable::new(alloc);
    let version = Value::string(alloc, version)?;
    drop(dependency.insert("version", version).map_err(no_memory)?);
    let features = Value::from(names);
    drop(dependency.insert("features", features).map_err(no_memory)?);
    let item = Item::Value(Value::from(dependency));
    drop(dependencies.insert(name, item).map_err(no_memory)?);
    Ok(())
}

/// Adds a table with one value, whose header comes after the existing ones.
pub fn add_table(alloc: Global, root: &mut Table, name: &str, key: &str, value: Value) -> Mem<()>
    ensures ok { OnOk result (slots_of root.new ≡ inserted name.now
        (table_of_one new_table key.now (value_view value)) (slots_of root.old)) }
    ensures err { OnErr result (root.new ≡ root.old) }
{
    let mut table = Table::new(alloc);
    drop(table.insert(key, Item::Value(value)).map_err(no_memory)?);
    drop(root.insert(name, Item::Table(table)).map_err(no_memory)?);
    Ok(())
}

/// Adds a table below a new one, which has no header of its own.
pub fn add_nested(
    alloc: Global,
    root: &mut Table,
    outer: &str,
    inner: &str,
    table: Table,
) -> Mem<()>
    ensures ok { OnOk result (slots_of root.new ≡ inserted outer.now
        (table_of_one implicit_table inner.now (table_node (table_view table)))
        (slots_of root.old)) }
    ensures err { OnErr result (root.new ≡ root.old) }
{
    let mut above = Table::new(alloc);
    above.set_implicit(true);
    drop(above.insert(inner, Item::Table(table)).map_err(no_memory)?);
    drop(root.insert(outer, Item::Table(above)).map_err(no_memory)?);
    Ok(())
}

/// Adds a value to an inline table under a dotted key.
pub fn add_dotted(
    alloc: Global,
    table: &mut InlineTable,
    outer: &str,
    inner: &str,
    value: Value,
) -> Mem<()>
    ensures ok { OnOk result (inline_slots_of table.new ≡ inserted outer.now
        (inline_of_one dotted_inline inner.now (value_view value)) (inline_slots_of table.old)) }
    ensures err { OnErr result (inline_slots_of table.new ≡ inline_slots_of table.old) }
{
    let mut below = InlineTable::new(alloc);
    below.set_dotted(true);
    drop(below.insert(inner, value).map_err(no_memory)?);
    drop(table.insert(outer, Value::from(below)).map_err(no_memory)?);
    Ok(())
}

/// Adds an element to an array of tables, and leaves any other item as it is.
fn push_element(item: &mut Item, element: Table) -> Mem<()>
    ensures ok { OnOk result (item_view item.new ≡ with_last (table_node (table_view element)) (item_view item.old)) }
    ensures err { OnErr result (item_view item.new ≡ item_view item.old) }
{
    if let Some(tables) = item.as_array_of_tables_mut() {
        tables.push(element).map_err(no_memory)?;
        return Ok(());
    }
    drop(element);
    Ok(())
}

/// Adds an element to the array of tables in a slot, and leaves any other item as it is.
fn push_slot(slot: &mut OccupiedEntry<'_>, element: Table) -> Mem<()>
    ensures same_table { (entry_ref (Occupied slot.new)).ghost_name
        ≡ (entry_ref (Occupied slot.old)).ghost_name }
    ensures ok { OnOk result (slots_of (entry_ref (Occupied slot.new)).now
        ≡ changed_at (entry_place (Occupied slot.old))
        (on_item (with_last (table_node (table_view element))))
        (slots_of (entry_ref (Occupied slot.old)).now)) }
    ensures err { OnErr result (slots_of (entry_ref (Occupied slot.new)).now
        ≡ slots_of (entry_ref (Occupied slot.old)).now) }
{
    push_element(slot.get_mut(), element)
}

/// Adds an element to the array of tables under the key, or makes one in place of anything else.
pub fn add_element(alloc: Global, root: &mut Table, name: &str, element: Table) -> Mem<()>
    ensures ok { OnOk result
        (slots_of root.new ≡ with_element name.now (table_node (table_view element)) (slots_of root.old)) }
    ensures err { OnErr result (slots_of root.new ≡ slots_of root.old) }
{
    if root.contains_array_of_tables(name) {
        return match root.slot_mut(name) {
            Some(mut slot) => push_slot(&mut slot, element),
            None => {
                drop(element);
                Ok(())
            }
        };
    }
    let mut tables = ArrayOfTables::new(alloc);
    tables.push(element).map_err(no_memory)?;
    let item = Item::ArrayOfTables(tables);
    drop(root.insert(name, item).map_err(no_memory)?);
    Ok(())
}

/// Inserts the item under a new key, and leaves an existing one alone.
pub fn set_default(table: &mut Table, key: &str, item: Item) -> Mem<()>
    ensures ok { OnOk result
        (slots_of table.new ≡ defaulted key.now (item_view item) (slots_of table.old)) }
    ensures err { OnErr result (table.new ≡ table.old) }
{
    table.entry(key)?.or_insert(item)?;
    Ok(())
}

/// Returns what an insertion by the entry will do, as `adds key` or `replaces key`.
pub fn describe(alloc: Global, entry: &Entry<'_>) -> Mem<String>
    ensures { IfOk result (λ s. Some (string_bytes s)
        ≡ option_map (described (is_some (entry_item entry.now))) (entry_key entry.now)) }
{
    match entry {
        Entry::Occupied(slot) => format!(in alloc; "replaces {}", slot.key()),
        Entry::Vacant(place) => format!(in alloc; "adds {}", place.key()),
    }
}

/// Returns what an insertion into an inline table will do, as `describe` does.
pub fn describe_inline(alloc: Global, entry: &InlineEntry<'_>) -> Mem<String>
    ensures { IfOk result (λ s. Some (string_bytes s)
        ≡ option_map (described (is_some (inline_value entry.now))) (inline_key entry.now)) }
{
    match entry {
        InlineEntry::Occupied(slot) => format!(in alloc; "replaces {}", slot.key()),
        InlineEntry::Vacant(place) => format!(in alloc; "adds {}", place.key()),
    }
}

/// Returns the name that an insertion by the entry is for.
pub fn name_of<'a>(entry: &'a Entry<'_>) -> &'a str
    ensures { Some result.now ≡ option_map (λ key. key.name) (entry_key entry.now) }
{
    entry.key()
}

/// Makes sure that the key has a slot. A new one has a placeholder.
pub fn make_slot(alloc: Global, table: &mut Table, key: &str) -> Result<(), IndexFault>
    ensures slot { OnOk result (slot_made key.now (table_node (table_view table.old))
        ≡ Some (table_node (table_view table.new))) }
    ensures present { IsTrue (has_slot key.now (slots_of table.old)) → IsOk result }
    ensures fault { IfErr result (λ fault. fault ≡ Memory) }
    ensures err { OnErr result (table.new ≡ table.old) }
{
    table.index_or_insert(alloc, key)?;
    Ok(())
}

/// Inserts the item, and returns it if memory runs out.
pub fn try_insert(table: &mut Table, key: &str, item: Item) -> Option<Item>
    ensures present { IsTrue (has_slot key.now (slots_of table.old)) → IsNone result }
    ensures done { IfNone result
        (slots_of table.new ≡ inserted key.now (item_view item) (slots_of table.old)) }
    ensures refused { IfSome result (λ back. (back ≡ item) × (table.new ≡ table.old)) }
{
    match table.insert(key, item) {
        Ok(old) => {
            drop(old);
            None
        }
        Err(NoMemory(item)) => Some(item),
    }
}

/// Returns the text of a side of a decor, which is empty if it is unset.
fn text_of(side: Option<&RawString>) -> &str
    ensures { result.now ≡ side_text (option_copied side.entry) }
{
    side.and_then(|raw| raw.as_str()).unwrap_or("")
}

/// Returns what is after the last value, or after the comma that follows it.
fn after_last(array: &Array) -> Option<&RawString>
    ensures { option_copied result ≡ after_last (array_fields array.now)
        (value_at (length (items_of array.now) - 1) (items_of array.now)) }
{
    if array.trailing_comma() {
        return Some(array.trailing());
    }
    match array.get(array.len().saturating_sub(1)) {
        Some(last) => last.decor().suffix(),
        None => Some(array.trailing()),
    }
}

/// Returns what is before the last value.
fn before_last(array: &Array) -> Option<&RawString>
    ensures { option_copied result
        ≡ before_last (value_at (length (items_of array.now) - 1) (items_of array.now)) }
{
    array.get(array.len().saturating_sub(1))?.decor().prefix()
}

/// Returns the text after the last newline, or four spaces if there is none.
fn indent_of(before: &str) -> &str
    ensures { result.now ≡ indent_of before.now }
{
    match before.rsplit_once('\n') {
        Some((_, indent)) => indent,
        None => "    ",
    }
}

/// Removes what is between the value at a place and the comma after it.
fn clear_suffix(array: &mut Array, at: usize)
    ensures items { items_of array.new ≡ changed_at at without_suffix (items_of array.old) }
    ensures fields { array_fields array.new ≡ array_fields array.old }
{
    if let Some(value) = array.get_mut(at) {
        value.decor_mut().set_suffix(RawString::default());
    }
}

/// Appends a string to an array that has one value a line, indented as the last one.
pub fn push_line(alloc: Global, array: &mut Array, text: &str) -> Mem<()>
    ensures items { OnOk result (items_of array.new
        ≡ with_line text.now (array_fields array.old) (items_of array.old)) }
    ensures fields { OnOk result (array_fields array.new
        ≡ record (array_fields array.old) { comma = true; trailing = owned newline }) }
    ensures err { OnErr result (array_view array.new ≡ array_view array.old) }
{
    // A comment after the last value stays on its line.
    let comment = text_of(after_last(array)).trim_end();
    let indent = indent_of(text_of(before_last(array)));
    let prefix = RawString::from_string(format!(in alloc; "{comment}\n{indent}")?)?;
    let end = RawString::from_text(alloc, "\n")?;
    let count = array.len();
    let value = Value::string(alloc, text)?.decorated(prefix, RawString::default());
    array.push(value).map_err(no_memory)?;
    if !array.trailing_comma() {
        clear_suffix(array, count.saturating_sub(1));
    }
    array.set_trailing_comma(true);
    array.set_trailing(end);
    Ok(())
}
