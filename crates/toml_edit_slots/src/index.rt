//! The index of a table's slots: from the name of each key to the place of its slot.
//!
//! It is an `IndexMap`. A name is in it with a place exactly where the slot at that place has the
//! name; the map's own order has no meaning. A table of few slots has no index.
//!
//! The map's hash is known to all, so a document can have keys that were chosen against it: the search
//! for each begins at the same point of the map, and passes those before it. A count tells them: more
//! names begin their search in one region of the map than chance brings there. Trees then take over
//! from the map; in them a search takes logarithmic time, whatever the names are.
ghost use Rattle.std.specs.Prelude.{◌≡◌, ◌<◌, ◌≤◌, ◌++◌, ◌∷◌, [], None, Some, is_some, length, position, remove, IfOk, OnOk, OnErr};
ghost use Rattle.toml_edit_model.specs.Text.{Text};
ghost use Rattle.toml_edit_slots.specs.Slots.{AreApart, is_at, names, place, place_in};
ghost use Rattle.toml_edit_slots.specs.Hashed.{HasNames, IsHashed, IsHashedBefore, place_of};
ghost use Rattle.toml_edit_slots.specs.SlotIndex.{HasRoom, IsIndex, IsIndexed, IsIndexOf, IsRightBefore, HasTexts, MayIndex, MayIndexRenamed, with_text};

use crate::hashed::{Full, Hashed};
use crate::places::Places;
use crate::slots::Slot;
use std::alloc::{AllocError, Global};
use toml_edit_repr::Mem;

/// The most slots that have no index: so few are found as fast one by one.
const FEW: usize = 8;

/// The index of a table's slots.
#[derive(Debug, Drop)]
pub(crate) enum Index {
    /// Finds a place by the name, in a map.
    Hashed(Hashed),
    /// Finds a place by a second hash of the name, in a tree. Replaces the map once too many names
    /// begin their search in one region of it.
    Sorted(Places),
}

/// Returns the place of the slot with the name, or `None` if no slot has it.
pub(crate) fn find_place<T>(
    index: &Option<Box<Index>>,
    entries: &[Slot<T>],
    name: &str,
) -> Option<usize>
    requires apart { AreApart entries.now }
    requires indexed { IsIndexed index.now (names entries.now) }
    ensures { result ≡ place name.now entries.now }
{
    match index {
        Some(index) => find_in(index, entries, name),
        None => walk(entries, name),
    }
}

/// Looks a name up in an index.
#[inline]
fn find_in<T>(index: &Index, entries: &[Slot<T>], name: &str) -> Option<usize>
    requires apart { AreApart entries.now }
    requires indexed { IsIndex index.now (names entries.now) }
    ensures { result ≡ place name.now entries.now }
{
    match index {
        Index::Hashed(hashed) => hashed.get(name),
        Index::Sorted(places) => places.find(entries, name),
    }
}

/// Looks a name up in the slots one by one.
fn walk<T>(entries: &[Slot<T>], name: &str) -> Option<usize>
    ensures { result ≡ position (is_at name.now) entries.now }
{
    entries.iter().position(|slot| name == slot.key.get())
}

/// Adds the place after these slots for a new name, and returns `None`.
///
/// If a slot has the name already, returns its place and changes nothing. A new index gets room for
/// `room` slots. Fails only if memory runs out at a new name; the index then stays as it was.
pub(crate) fn add_new_place<T>(
    index: &mut Option<Box<Index>>,
    alloc: Global,
    entries: &[Slot<T>],
    room: usize,
    name: &str,
) -> Mem<Option<usize>>
    requires apart { AreApart entries.now }
    requires indexed { IsIndexed index.old (names entries.now) }
    ensures place { IfOk result (λ there. there ≡ place name.now entries.now) }
    ensures ok { OnOk result (IsIndexed index.new (with_text name.now (names entries.now))) }
    ensures new { OnErr result (place name.now entries.now ≡ None) }
    ensures err { OnErr result (IsIndexed index.new (names entries.now)) }
{
    if let Some(index) = index {
        return put_new_place(index, alloc, entries, room, name);
    }
    match walk(entries, name) {
        Some(at) => Ok(Some(at)),
        None => {
            if entries.len() >= FEW {
                *index = Some(index_with(alloc, entries, room, name)?);
            }
            Ok(None)
        }
    }
}

/// Returns the first index of a table: that of these slots, and of a new name after them, with
/// room for `room` slots. Fails only if memory runs out.
#[inline(never)]
fn index_with<T>(alloc: Global, entries: &[Slot<T>], room: usize, name: &str) -> Mem<Box<Index>>
    requires apart { AreApart entries.now }
    requires new { place name.now entries.now ≡ None }
    ensures { IfOk result (λ index. IsIndex index.value (names entries.now ++ name.now ∷ [])) }
{
    let mut index = Index::Hashed(Hashed::new(alloc));
    for at in 0..entries.len() {
        let before = &entries[..at];
        put_new_place(&mut index, alloc, before, room, entries[at].key.get())?;
    }
    put_new_place(&mut index, alloc, entries, room, name)?;
    Ok(Box::new(alloc, index)?)
}

/// Does what `add_new_place` does, in an index.
#[inline]
fn put_new_place<T>(
    index: &mut Index,
    alloc: Global,
    entries: &[Slot<T>],
    room: usize,
    name: &str,
) -> Mem<Option<usize>>
    requires apart { AreApart entries.now }
    requires indexed { IsIndex index.old (names entries.now) }
    ensures place { IfOk result (λ there. there ≡ place name.now entries.now) }
    ensures ok { OnOk result (IsIndex index.new (with_text name.now (names entries.now))) }
    ensures new { OnErr result (place name.now entries.now ≡ None) }
    ensures err { OnErr result (IsIndex index.new (names entries.now)) }
{
    match index {
        Index::Hashed(hashed) => {
            match hashed.insert(alloc, name, entries.len(), room) {
                Ok(None) => Ok(None),
                Ok(Some(there)) => {
                    hashed.set(name, there);
                    Ok(Some(there))
                }
                Err(full) => put_elsewhere(index, alloc, entries, name, full),
            }
        }
        Index::Sorted(places) => places.add(alloc, entries, name),
    }
}

/// Does what `put_new_place` does, in a map that could not take the name.
#[cold]
#[inline(never)]
fn put_elsewhere<T>(
    index: &mut Index,
    alloc: Global,
    entries: &[Slot<T>],
    name: &str,
    full: Full,
) -> Mem<Option<usize>>
    requires apart { AreApart entries.now }
    requires indexed { IsIndex index.old (names entries.now) }
    ensures place { IfOk result (λ there. there ≡ place name.now entries.now) }
    ensures ok { OnOk result (IsIndex index.new (with_text name.now (names entries.now))) }
    ensures new { OnErr result (place name.now entries.now ≡ None) }
    ensures err { OnErr result (IsIndex index.new (names entries.now)) }
{
    if let Some(at) = find_in(index, entries, name) {
        return Ok(Some(at));
    }
    match full {
        Full::Memory => Err(AllocError),
        Full::Crowded => {
            *index = Index::Sorted(places_with(alloc, entries, name)?);
            Ok(None)
        }
    }
}

/// Returns the places of these slots, and of a new name after them, in a tree. Fails only if memory
/// runs out.
#[cold]
#[inline(never)]
fn places_with<T>(alloc: Global, entries: &[Slot<T>], name: &str) -> Mem<Places>
    requires apart { AreApart entries.now }
    requires new { place name.now entries.now ≡ None }
    ensures { IfOk result (λ places. IsIndexOf places (names entries.now ++ name.now ∷ [])) }
{
    let mut places = Places::new(alloc);
    for at in 0..entries.len() {
        places.add(alloc, &entries[..at], entries[at].key.get())?;
    }
    places.add(alloc, entries, name)?;
    Ok(places)
}

/// Removes the place of a slot that is about to be removed, and moves the places after it down by
/// one. Allocates nothing.
pub(crate) fn close_gap<T>(
    index: &mut Option<Box<Index>>,
    entries: &[Slot<T>],
    name: &str,
    gap: usize,
)
    requires apart { AreApart entries.now }
    requires indexed { IsIndexed index.old (names entries.now) }
    requires gap { place name.now entries.now ≡ Some gap }
    ensures { IsIndexed index.new (remove (names entries.now) gap) }
{
    if let Some(index) = index {
        close_in(index, entries, name, gap);
    }
}

/// Does what `close_gap` does, in an index.
fn close_in<T>(index: &mut Index, entries: &[Slot<T>], name: &str, gap: usize)
    requires apart { AreApart entries.now }
    requires indexed { IsIndex index.old (names entries.now) }
    requires gap { place name.now entries.now ≡ Some gap }
    ensures { IsIndex index.new (remove (names entries.now) gap) }
{
    match index {
        Index::Hashed(hashed) => {
            hashed.remove(name);
            hashed.close_gap(gap);
        }
        Index::Sorted(places) => {
            places.remove(name);
            move_down(places, entries, gap);
        }
    }
}

/// Moves the places after the gap down by one. The places are of all names but the one at the gap.
fn move_down<T>(places: &mut Places, entries: &[Slot<T>], gap: usize)
    requires apart { AreApart entries.now }
    requires gap { gap < length entries.now }
    requires names { HasTexts places.old (remove (names entries.now) gap) }
    requires before { IsRightBefore gap places.old (remove (names entries.now) gap) }
    ensures { IsIndexOf places.new (remove (names entries.now) gap) }
{
    for at in gap + 1..entries.len() {
        places.set(entries[at].key.get(), at - 1);
    }
}

/// Adds a new name, which one of these slots is about to get. Fails only if memory runs out; the
/// index then stays as it was.
pub(crate) fn add_name<T>(
    index: &mut Option<Box<Index>>,
    alloc: Global,
    entries: &[Slot<T>],
    name: &str,
) -> Mem<()>
    requires apart { AreApart entries.now }
    requires indexed { IsIndexed index.old (names entries.now) }
    requires new { place name.now entries.now ≡ None }
    ensures ok { OnOk result (MayIndexRenamed index.new name.now (names entries.now)) }
    ensures err { OnErr result (IsIndexed index.new (names entries.now)) }
{
    if let Some(index) = index {
        put_new_place(index, alloc, entries, entries.len(), name)?;
    }
    Ok(())
}

/// Updates the index after its slots were moved or renamed, or some of them removed. Allocates
/// nothing.
pub(crate) fn index_those<T>(index: &mut Option<Box<Index>>, entries: &[Slot<T>])
    requires apart { AreApart entries.now }
    requires named { MayIndex index.old (names entries.now) }
    ensures { IsIndexed index.new (names entries.now) }
{
    if let Some(index) = index {
        index_anew(index, entries);
    }
}

/// Does what `index_those` does, in an index.
fn index_anew<T>(index: &mut Index, entries: &[Slot<T>])
    requires apart { AreApart entries.now }
    requires named { HasRoom index.old (names entries.now) }
    ensures { IsIndex index.new (names entries.now) }
{
    match index {
        Index::Hashed(hashed) => {
            number_all(hashed, entries);
            hashed.drop_others(entries);
        }
        Index::Sorted(places) => {
            renumber(places, entries);
            places.drop_others(entries);
        }
    }
}

/// Gives each name of these slots its present place.
fn renumber<T>(places: &mut Places, entries: &[Slot<T>])
    requires apart { AreApart entries.now }
    requires named { HasTexts places.old (names entries.now) }
    ensures { IsRightBefore (length entries.now) places.new (names entries.now) }
{
    for at in 0..entries.len() {
        places.set(entries[at].key.get(), at);
    }
}

/// Gives each name of these slots its present place in a map.
fn number_all<T>(hashed: &mut Hashed, entries: &[Slot<T>])
    requires apart { AreApart entries.now }
    requires named { HasNames hashed.old (names entries.now) }
    ensures { IsHashedBefore (length entries.now) hashed.new (names entries.now) }
{
    for at in 0..entries.len() {
        hashed.set(entries[at].key.get(), at);
    }
}
