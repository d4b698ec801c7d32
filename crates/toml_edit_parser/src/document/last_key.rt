//! Adding what a statement states at the last key of its path.
ghost use Rattle.std.specs.Prelude.{◌≡◌, ◌<◌, false, None, Some, OnOk, length};
ghost use Rattle.toml_edit_model.specs.Mode.{Mode};
ghost use Rattle.toml_edit_model.specs.Paths.{Mention, Source};
ghost use Rattle.toml_edit_model.specs.Tree.{TableFields, item as item_of, no_items, no_slots, table as table_of, tables as tables_of};
ghost use Rattle.toml_edit_laws.specs.AddPath.{a_table, an_element};
ghost use Rattle.toml_edit_laws.specs.FlatTree.{with_slot};
ghost use Rattle.toml_edit_laws.specs.InPlace.{replace_slot};
ghost use Rattle.toml_edit_laws.specs.TableClash.{element_clash, table_clash};
ghost use Rattle.toml_edit_slots.specs.Slots.{place};
ghost use Rattle.toml_edit_syntax.specs.Events.{IsSpanOf};
ghost use Rattle.toml_edit_parser.specs.Listed.{Refuses};
ghost use Rattle.toml_edit_tree.specs.Containers.{table_node};
ghost use Rattle.toml_edit_tree.specs.View.{fields_view, item_view, slots_view, table_view};
ghost use Rattle.toml_edit_parser.specs.TableRead.{Goes, IsHeaded, IsItemFor, IsKeyOf, PutsLast, addition_for, opened, with_element};
ghost use Rattle.toml_edit_parser.specs.declared.document.path.Kind.TheVariants as kinds;

use crate::document::block::place_of;
use crate::document::path::{Adding, Kind};
use crate::document::room::elements_behind;
use crate::fault::duplicate_key;
use crate::reader::Reader;
use crate::slots::{add_last, push_item};
use std::alloc::Global;
use std::mem;
use toml_edit_error::ParseFault;
use toml_edit_key::Key;
use toml_edit_repr::Mem;
use toml_edit_slots::{Slot, Slots};
use toml_edit_syntax::Span;
use toml_edit_tree::{ArrayOfTables, Item, Table};

/// Adds an item at the last key of a path. What is left in its place is unspecified.
#[inline(always)]
pub(crate) fn put_last(
    adding: &Adding<'_>,
    key: Key,
    at: Span,
    item: &mut Item,
    slots: &mut Slots<Item>,
) -> Result<(), ParseFault>
    requires { IsSpanOf adding.now.reader.now.source.now at }
    ensures put { (mode : Mode) (s : Source) (m : Mention Source)
        → IsItemFor mode adding.now.kind s (item_view item.old) → IsKeyOf mode s false m key at
        → PutsLast mode adding.now.reader.now.source.now (addition_for adding.now.kind
        (item_view item.old)) m (slots_view slots.old) (slots_view slots.new) result }
    ensures refused { Refuses adding.now.reader.now.source.now result }
{
    match adding.kind {
        Kind::Line => add_last(adding.reader, key, at, item, slots),
        Kind::Table => put_table(adding.reader, key, at, item, slots),
        Kind::Element(brackets) => put_element(adding, brackets, key, at, item, slots),
    }
}

/// Puts the table of a header last, or in the place of a table that until now was only passed
/// through, whose slots it takes.
// Not inlined, so that its locals stay out of the caller's frame.
#[inline(never)]
fn put_table(
    reader: &Reader<'_>,
    key: Key,
    at: Span,
    item: &mut Item,
    slots: &mut Slots<Item>,
) -> Result<(), ParseFault>
    requires { IsSpanOf reader.now.source.now at }
    ensures put { (mode : Mode) (s : Source) (m : Mention Source)
        → IsHeaded mode s (item_view item.old) → IsKeyOf mode s false m key at
        → PutsLast mode reader.now.source.now a_table m (slots_view slots.old)
        (slots_view slots.new) result }
    ensures refused { Refuses reader.now.source.now result }
{
    match slots.find(key.get()) {
        None => {
            push_item(slots, key, item)?;
            Ok(())
        }
        Some(there) => put_opened(reader, key, at, there, item, slots),
    }
}

/// Puts the table of a header in the place of the table at its key, with the slots of that, if it
/// until now was only passed through.
///
/// No slot moves: the slots are put in order after all statements.
fn put_opened(
    reader: &Reader<'_>,
    key: Key,
    at: Span,
    there: usize,
    item: &mut Item,
    slots: &mut Slots<Item>,
) -> Result<(), ParseFault>
    requires at { IsSpanOf reader.now.source.now at }
    requires there { place key.name slots.old ≡ Some there }
    requires within { there < length slots.old }
    ensures put { (mode : Mode) (s : Source) (m : Mention Source)
        → IsHeaded mode s (item_view item.old) → IsKeyOf mode s false m key at
        → PutsLast mode reader.now.source.now a_table m (slots_view slots.old)
        (slots_view slots.new) result }
    ensures refused { Refuses reader.now.source.now result }
{
    open_item(reader, at, slots.item_mut(there), item)?;
    put_slot(key, there, mem::replace(item, Item::None), slots);
    Ok(())
}

/// Puts a slot in the place of the one of its name, which is dropped.
fn put_slot(key: Key, there: usize, item: Item, slots: &mut Slots<Item>)
    requires { place key.name slots.old ≡ Some there }
    ensures { slots_view slots.new
        ≡ replace_slot key.name key (item_view item) (slots_view slots.old) }
{
    let past = slots.replace(there, Slot { key, item });
    drop(past);
}

/// Moves the slots of the item at the key of a header into the header's table, if it is a table
/// that until now was only passed through.
fn open_item(
    reader: &Reader<'_>,
    at: Span,
    there: &mut Item,
    item: &mut Item,
) -> Result<(), ParseFault>
    requires { IsSpanOf reader.now.source.now at }
    ensures opened { (mode : Mode) (g : TableFields) (s : Source) (m : Mention Source) (k : Key)
        → item_view item.old ≡ table_of g no_slots → IsKeyOf mode s false m k at
        → Goes reader.now.source.now (opened g (item_view there.old))
        (table_clash m (Some (item_view there.old))) (item_view item.new) result }
    ensures refused { Refuses reader.now.source.now result }
{
    match there {
        Item::Table(table) => open_table(reader, at, table, item),
        _ => Err(duplicate_key(reader, at)),
    }
}

/// Moves the slots of a table into the header's table, if it until now was only passed through.
fn open_table(
    reader: &Reader<'_>,
    at: Span,
    there: &mut Table,
    item: &mut Item,
) -> Result<(), ParseFault>
    requires { IsSpanOf reader.now.source.now at }
    ensures opened { (mode : Mode) (g : TableFields) (s : Source) (m : Mention Source) (k : Key)
        → item_view item.old ≡ table_of g no_slots → IsKeyOf mode s false m k at
        → Goes reader.now.source.now (opened g (table_node (table_view there.old)))
        (table_clash m (Some (table_node (table_view there.old)))) (item_view item.new) result }
    ensures refused { Refuses reader.now.source.now result }
{
    if there.is_implicit() && !there.is_dotted() {
        fill(item, taken_slots(reader.alloc, there));
        Ok(())
    } else {
        Err(duplicate_key(reader, at))
    }
}

/// Takes the slots out of a table.
fn taken_slots(alloc: Global, table: &mut Table) -> Slots<Item>
    ensures { slots_view result ≡ (table_view table.old).slots }
{
    mem::replace(table.slots_mut(), Slots::new(alloc))
}

/// Puts these slots into an item that is a table, in place of its own.
fn fill(item: &mut Item, slots: Slots<Item>)
    ensures { (g : TableFields) → item_view item.old ≡ table_of g no_slots
        → item_view item.new ≡ table_of g (slots_view slots) }
{
    if let Item::Table(table) = item {
        fill_table(table, slots);
    }
}

/// Puts these slots into a table, in place of its own.
fn fill_table(table: &mut Table, slots: Slots<Item>)
    ensures { table_view table.new
        ≡ record { fields = fields_view table.old; slots = slots_view slots } }
{
    *table.slots_mut() = slots;
}

/// Adds the table of a header in double brackets to the array of tables at its key, which is made
/// if the key is new.
// Not inlined, so that its locals stay out of the caller's frame.
#[inline(never)]
fn put_element(
    adding: &Adding<'_>,
    brackets: Span,
    key: Key,
    at: Span,
    item: &mut Item,
    slots: &mut Slots<Item>,
) -> Result<(), ParseFault>
    requires { IsSpanOf adding.now.reader.now.source.now at }
    ensures put { (mode : Mode) (s : Source) (m : Mention Source)
        → IsItemFor mode (kinds.Element brackets) s (item_view item.old)
        → IsKeyOf mode s false m key at
        → PutsLast mode adding.now.reader.now.source.now an_element m (slots_view slots.old)
        (slots_view slots.new) result }
    ensures refused { Refuses adding.now.reader.now.source.now result }
{
    match place_of(slots, key.get()) {
        Some(place) => add_element(adding.reader, brackets, at, item, slots.item_mut(place)),
        None => {
            let room = elements_behind(key.get(), brackets, adding.behind);
            put_tables(room, brackets, key, item, slots)?;
            Ok(())
        }
    }
}

/// Pushes an array of this one table, with room for so many more, if there is the memory.
fn put_tables(
    room: usize,
    brackets: Span,
    key: Key,
    item: &mut Item,
    slots: &mut Slots<Item>,
) -> Mem<()>
    requires { place key.name slots.old ≡ None }
    ensures { OnOk result (slots_view slots.new
        ≡ with_slot (slots_view slots.old) key
        (tables_of (Some (brackets.start, brackets.end)) (item_of (item_view item.old) no_items))) }
{
    let mut tables = ArrayOfTables::with_span(slots.allocator(), brackets.start, brackets.end);
    if room > 0 {
        drop(tables.values.reserve_exact(room.saturating_add(1)));
    }
    tables.add_element(mem::replace(item, Item::None), brackets.end)?;
    let mut first = Item::ArrayOfTables(tables);
    push_item(slots, key, &mut first)
}

/// Adds the table of a header in double brackets to the item at its key, if that is an array of
/// tables.
fn add_element(
    reader: &Reader<'_>,
    brackets: Span,
    at: Span,
    item: &mut Item,
    holder: &mut Item,
) -> Result<(), ParseFault>
    requires { IsSpanOf reader.now.source.now at }
    ensures added { (mode : Mode) (s : Source) (m : Mention Source) (k : Key)
        → IsKeyOf mode s false m k at
        → Goes reader.now.source.now (with_element brackets.end (item_view item.old)
        (item_view holder.old))
        (element_clash m (Some (item_view holder.old))) (item_view holder.new) result }
    ensures refused { Refuses reader.now.source.now result }
{
    match holder {
        Item::ArrayOfTables(tables) => {
            tables.add_element(mem::replace(item, Item::None), brackets.end)?;
            Ok(())
        }
        _ => Err(duplicate_key(reader, at)),
    }
}
