//! Functions over any source, scalar, table or stream, by the traits of the library.
ghost use Rattle.std.specs.Prelude.{◌≡◌, true, IfOk, OnErr, length, not, is_some, option_map, slice_get, Some};
ghost use Rattle.std.specs.Fmt.{WritesInCalls};
ghost use Rattle.std.specs.Io.KnownBytes.{Appends, ReadConsumes};
ghost use Rattle.toml_edit.specs.DocumentView.{print_of, source};
ghost use Rattle.toml_edit.specs.model.DefaultSpelling.{default_spelling};
ghost use Rattle.toml_edit.specs.model.Slots.{has_slot, place};
ghost use Rattle.toml_edit.specs.model.Tree.{owned};
ghost use Rattle.toml_edit.specs.model.Version.{v1_0};
ghost use Rattle.toml_edit.specs.parser.LoneValue.{IsLoneReadingIn};
ghost use Rattle.toml_edit.specs.stream.Watch.{watched_inner};
ghost use Rattle.toml_edit.specs.table_like.SlotParts.{slot_item};
ghost use Rattle.toml_edit.specs.tree.InlineSlotParts.{slot_key};
ghost use Rattle.toml_edit.specs.tree.View.{value_view};

use std::alloc::Global;
use std::io::Write;
use toml_edit::{
    Broken, Document, DocumentMut, Formatted, FromStrWith, HasSlots, InlineSlotMut, Input, Item,
    Key, Mem, ParseFault, ParseOptions, PrintFault, Printed, Repr, ScalarValue, Sink, SourceText,
    TableLike, TableLikeSlot, Value, ValueRepr, Version, Watched,
};

/// Returns the text that a document was parsed from.
pub fn source_of<S: SourceText>(document: &Document<S>) -> &str
    ensures { result.now ≡ source document.now }
{
    document.raw()
}

/// Reads a value of TOML 1.0.
pub fn read_value(alloc: Global, text: &str) -> Result<Value, ParseFault>
    ensures { IfOk result (λ value. IsLoneReadingIn v1_0 text.now (value_view value)) }
{
    Value::from_str_with(alloc, text, ParseOptions::new().version(Version::V1_0))
}

/// Returns the default spelling of a scalar, whatever its own one is.
pub fn default_of<T: ValueRepr>(alloc: Global, scalar: &Formatted<T>) -> Mem<Repr>
    ensures { IfOk result (λ repr. repr ≡ owned (default_spelling (T.scalar scalar.now.value))) }
{
    scalar.default_repr(alloc)
}

/// Puts the default spelling of a scalar into a sink.
pub fn put_default<T: ScalarValue, S: Sink>(scalar: &T, out: &mut S)
    ensures { WritesInCalls S.puts out.old (default_spelling (T.scalar scalar.now)) out.new }
{
    scalar.put_default(out)
}

/// Puts the text of a value, a table or a document into a sink.
pub fn put_text<P: Printed, S: Sink>(printed: &P, out: &mut S)
    ensures { WritesInCalls S.puts out.old (P.text printed.now) out.new }
{
    printed.put_into(out)
}

/// Returns `true` if an insertion under the key adds a slot.
pub fn is_new<T: TableLike>(table: &mut T, key: &str) -> bool
    ensures { result ≡ not (has_slot key.now (T.slots_of table.old)) }
{
    !table.entry(key).is_occupied()
}

/// Returns the number of slots of a table of any kind, placeholders included.
pub fn count_slots<T: HasSlots>(table: &T) -> usize
    ensures { result ≡ length (T.entries table.now) }
{
    table.as_slots().len()
}

/// Reads a piece of an input.
pub fn read_piece<I: Input>(input: &mut I, buffer: &mut [u8]) -> Result<usize, Broken>
    ensures bytes { ReadConsumes (I.remaining input.old) (I.remaining input.new) result buffer.new }
    ensures failed { OnErr result (I.has_failed input.new ≡ true) }
{
    input.read(buffer)
}

/// Returns the first key of a table of any kind, as it is in its slot.
pub fn first_key<T: HasSlots>(table: &T) -> Option<&Key>
    ensures { option_map (λ key. key.now) result
        ≡ option_map (λ slot. slot.key) (slice_get (T.entries table.now) 0) }
{
    match table.as_slots().as_slice().first() {
        Some(slot) => Some(&slot.key),
        None => None,
    }
}

/// Returns `true` if the key has a slot, which may have a placeholder.
pub fn has_key<T: TableLike>(table: &mut T, key: &str) -> bool
    ensures { result ≡ is_some (place key.now (T.slots_of table.old)) }
{
    match table.slot_mut(key) {
        Some(_slot) => true,
        None => false,
    }
}

/// Returns the item in a slot of a table of either kind.
pub fn item_in<'a, T: HasSlots>(slot: &'a TableLikeSlot<'_, T>) -> &'a Item
    ensures { Some result.now ≡ slot_item slot.now }
{
    slot.get()
}

/// Returns the key in a slot of an inline table, with its spelling and its decor.
pub fn key_in<'a>(slot: &'a InlineSlotMut<'_>) -> &'a Key
    ensures { Some result.now ≡ slot_key slot.now }
{
    slot.key()
}

/// Writes a document to a writer, which fails from its first fault on.
pub fn print_to_writer<W: Write + Drop>(
    alloc: Global,
    document: &DocumentMut,
    writer: W,
) -> Result<Watched<W>, PrintFault>
    ensures { IfOk result (λ output.
        Appends (W.contents writer) (W.contents (watched_inner output)) (print_of document.now)) }
{
    let mut output = Watched::new(writer);
    document.print_to(alloc, &mut output)?;
    Ok(output)
}
