//! The container of keyed slots at a concrete type: each call once.
use crate::holding::{holds_changed, holds_moved, no_memory};
use crate::spans::is_done;
use std::alloc::Global;
use toml_edit::{Decor, Key, Mem, Slot, Slots};
use toml_edit_slots::Renamed;
use toml_edit_text::SharedText;

fn is_next(slots: &Slots<u8>, name: &str, before: usize) -> bool {
    slots.find(name) == Some(before) && slots.len().checked_sub(before) == Some(1)
}

/// More names than are found without an index.
const NAMES: &[&str] = &[
    "a", "b", "c", "d", "e", "f", "g", "h", "i", "j", "k", "l", "m", "n", "o", "p", "q", "r", "s",
    "t",
];

/// Returns `true` if each slot is found at its place.
fn are_found(slots: &Slots<u8>) -> bool {
    slots
        .as_slice()
        .iter()
        .enumerate()
        .all(|(at, slot)| slots.find(slot.key.get()) == Some(at))
}

/// Returns `true` if the item is inserted after the others.
fn inserts(slots: &mut Slots<u8>, name: &str) -> bool {
    let before = slots.len();
    matches!(slots.insert(name, 7), Ok(None)) && is_next(slots, name, before)
}

/// Returns `true` if an item is inserted after the others under a key with its formatting.
fn inserts_formatted(alloc: Global, slots: &mut Slots<u8>, name: &str) -> Mem<bool> {
    let key = Key::from_text(alloc, name)?;
    let before = slots.len();
    match slots.insert_formatted(&key, 7) {
        Ok(old) => Ok(old.is_none() && is_next(slots, name, before)),
        Err(_) => Ok(false),
    }
}

/// Returns `true` if a slot is pushed whose key is known to be new.
fn pushes(alloc: Global, slots: &mut Slots<u8>, name: &str) -> Mem<bool> {
    let key = Key::from_text(alloc, name)?;
    let before = slots.len();
    let None = slots.find(name) else {
        return Ok(false);
    };
    match slots.push(Slot { key, item: 7 }) {
        Ok(()) => Ok(is_next(slots, name, before)),
        Err(_) => Ok(false),
    }
}

/// Returns `true` if a slot is pushed whose key is looked up first.
fn tries_to_push(alloc: Global, slots: &mut Slots<u8>, name: &str) -> Mem<bool> {
    let key = Key::from_text(alloc, name)?;
    let before = slots.len();
    match slots.try_push(Slot { key, item: 7 }) {
        Ok(()) => Ok(is_next(slots, name, before)),
        Err(_) => Ok(false),
    }
}

/// Returns `true` if each of these calls fills slots, beyond those that are found without an index.
fn fills_all(alloc: Global, slots: &mut Slots<u8>) -> bool {
    let mut is_right = slots.is_empty();
    for (at, name) in NAMES.iter().enumerate() {
        let is_put = match at % 4 {
            0 => inserts(slots, name),
            1 => is_done(inserts_formatted(alloc, slots, name)),
            2 => is_done(pushes(alloc, slots, name)),
            _ => is_done(tries_to_push(alloc, slots, name)),
        };
        is_right = is_right && is_put && are_found(slots);
    }
    is_right && slots.len() == NAMES.len()
}

#[test]
fn fills_slots(rt: HostRuntime) {
    assert!(rt; holds_changed(rt.alloc(), Slots::new(rt.alloc()), fills_all));
}

/// Returns `true` if the items of `a` and `b` are found, replaced and lent.
fn changes(slots: &mut Slots<u8>) -> bool {
    let is_found = slots.get("a") == Some(&7) && slots.find("c").is_none();
    let is_replaced = matches!(slots.insert("b", 4), Ok(Some(7)));
    if let Some(item) = slots.get_mut("a") {
        *item = 5;
    }
    is_found && is_replaced && slots.get("a") == Some(&5)
}

fn lends_first(slots: &mut Slots<u8>) -> bool {
    if slots.is_empty() {
        return false;
    }
    *slots.item_mut(0) = 9;
    slots.get("a") == Some(&9)
}

fn is_first(_alloc: Global, slot: Slot<u8>) -> bool {
    slot.key.get() == "a" && slot.into_item() == 9
}

fn removes(alloc: Global, slots: &mut Slots<u8>) -> bool {
    holds_moved(alloc, slots.remove("a"), is_first) && slots.find("b") == Some(0)
}

fn changes_all(alloc: Global, slots: &mut Slots<u8>) -> bool {
    inserts(slots, "a")
        && inserts(slots, "b")
        && changes(slots)
        && lends_first(slots)
        && removes(alloc, slots)
        && slots.get("b") == Some(&4)
        && slots.len() == 1
}

#[test]
fn changes_slots(rt: HostRuntime) {
    assert!(rt; holds_changed(rt.alloc(), Slots::new(rt.alloc()), changes_all));
}

/// Returns `true` if `b` is renamed in its place, also to its own name, and names that are taken or
/// absent change nothing.
fn renames(slots: &mut Slots<u8>) -> bool {
    matches!(slots.rename("b", "z"), Ok(Renamed::Done))
        && matches!(slots.rename("z", "z"), Ok(Renamed::Done))
        && matches!(slots.rename("z", "a"), Ok(Renamed::Taken))
        && matches!(slots.rename("b", "y"), Ok(Renamed::Absent))
        && slots.find("z") == Some(1)
        && slots.find("b").is_none()
        && are_found(slots)
}

/// Returns `true` if a slot is renamed among two, and among those that have an index.
fn renames_all(alloc: Global, slots: &mut Slots<u8>) -> bool {
    let few = inserts(slots, "a") && inserts(slots, "b") && renames(slots);
    slots.clear();
    few && fills_all(alloc, slots) && renames(slots) && slots.len() == NAMES.len()
}

#[test]
fn renames_slots(rt: HostRuntime) {
    assert!(rt; holds_changed(rt.alloc(), Slots::new(rt.alloc()), renames_all));
}

fn moves_to(slots: &mut Slots<u8>, name: &str, at: usize) -> bool {
    if at < slots.len() {
        slots.move_to(name, at)
    } else {
        false
    }
}

/// Returns `true` if slots are moved up and down, and a name that is absent moves nothing.
fn moves_all(alloc: Global, slots: &mut Slots<u8>) -> bool {
    let is_up = fills_all(alloc, slots) && moves_to(slots, "a", 2) && are_found(slots);
    let is_in_order = slots.find("b") == Some(0) && slots.find("a") == Some(2);
    let is_down = moves_to(slots, "t", 1) && slots.find("t") == Some(1) && are_found(slots);
    let is_absent = !moves_to(slots, "z", 0) && slots.find("s") == Some(19);
    is_up && is_in_order && is_down && is_absent && slots.len() == NAMES.len()
}

#[test]
fn moves_slots(rt: HostRuntime) {
    assert!(rt; holds_changed(rt.alloc(), Slots::new(rt.alloc()), moves_all));
}

/// Returns `true` if an item is inserted under a new key at the place, before the slot `next`.
fn inserts_at(
    alloc: Global,
    slots: &mut Slots<u8>,
    at: usize,
    name: &str,
    next: &str,
) -> Mem<bool> {
    let key = Key::from_text(alloc, name)?;
    if slots.len() < at {
        return Ok(false);
    }
    match slots.insert_at(at, key, 7) {
        Ok(()) => Ok(slots.find(name) == Some(at) && slots.find(next) == at.checked_add(1)),
        Err(_) => Ok(false),
    }
}

/// Returns `true` if an insertion under a key that is there is refused, with its place.
fn is_refused(alloc: Global, slots: &mut Slots<u8>, name: &str) -> Mem<bool> {
    let key = Key::from_text(alloc, name)?;
    let there = slots.find(name);
    match slots.insert_at(0, key, 7) {
        Ok(()) => Ok(false),
        Err(refused) => Ok(there.is_some() && refused.present_place() == there),
    }
}

/// Returns `true` if slots are inserted first and inside, and none under a key that is there.
fn inserts_all(alloc: Global, slots: &mut Slots<u8>) -> bool {
    fills_all(alloc, slots)
        && is_done(inserts_at(alloc, slots, 0, "y", "a"))
        && is_done(inserts_at(alloc, slots, 3, "z", "c"))
        && is_done(is_refused(alloc, slots, "c"))
        && are_found(slots)
        && slots.len().checked_sub(2) == Some(NAMES.len())
}

#[test]
fn inserts_slots_at_places(rt: HostRuntime) {
    assert!(rt; holds_changed(rt.alloc(), Slots::new(rt.alloc()), inserts_all));
}

fn spelled(slots: &Slots<u8>) -> Option<&str> {
    slots.as_slice().first()?.key.as_repr()?.as_raw().as_str()
}

fn cuts_key(alloc: Global) -> Mem<bool> {
    let name = String::from_str(alloc, "k")?;
    let source = SharedText::from_text(alloc, "k = 1")?;
    let key = Key::spanned(name, 0, 1, Decor::default(), Decor::default());
    let mut slots: Slots<u8> = Slots::new(alloc);
    slots.push(Slot { key, item: 7 }).map_err(no_memory)?;
    match slots.despan_key(0, alloc, &source) {
        Ok(()) => Ok(spelled(&slots) == Some("k") && slots.get("k") == Some(&7)),
        Err(refused) => Err(refused),
    }
}

#[test]
fn cuts_keys(rt: HostRuntime) {
    assert!(rt; is_done(cuts_key(rt.alloc())));
}
