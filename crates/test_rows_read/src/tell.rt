//! Writing items, values and slots to an answer, and writing over them.
use crate::answer::Answer;
use std::fmt::Debug;
use std::mem;
use toml_edit_key::Key;
use toml_edit_repr::Mem;
use toml_edit_slots::{NoMemory, Refused, Renamed, Slot};
use toml_edit_tree::{Item, Table, Value};

/// A type whose values can be written to an answer.
pub trait Told {
    fn tell(&self, out: &mut Answer);
}

impl Told for Item {
    fn tell(&self, out: &mut Answer) {
        match self {
            Item::None => out.text("placeholder"),
            Item::Value(value) => out.shown(value),
            Item::Table(table) => {
                out.text("table ");
                out.shown(table);
            }
            Item::ArrayOfTables(tables) => {
                out.text("array of tables ");
                out.shown(&tables.len());
            }
        }
    }
}

impl Told for Table {
    fn tell(&self, out: &mut Answer) {
        out.shown(self);
    }
}

impl Told for Value {
    fn tell(&self, out: &mut Answer) {
        out.shown(self);
    }
}

impl<T: Told> Told for (Key, T) {
    fn tell(&self, out: &mut Answer) {
        tell_slot(&self.0, &self.1, out);
    }
}

impl<T: Told> Told for (String, T) {
    fn tell(&self, out: &mut Answer) {
        out.text(self.0.as_str());
        out.text("=");
        self.1.tell(out);
    }
}

/// Writes the spelling of a key, and its item or value.
fn tell_slot<T: Told>(key: &Key, held: &T, out: &mut Answer) {
    out.shown(key);
    out.text("=");
    held.tell(out);
}

/// Writes what is lent, if it is.
pub fn tell_lent<T: Told>(found: Option<&T>, out: &mut Answer) {
    match found {
        Some(found) => found.tell(out),
        None => out.text("none"),
    }
}

/// Writes what was returned, and drops it.
pub fn tell_given<T: Told + Drop>(given: T, out: &mut Answer) {
    given.tell(out);
}

/// Writes what was removed, if it was, and drops it.
pub fn tell_taken<T: Told + Drop>(taken: Option<T>, out: &mut Answer) {
    match taken {
        Some(taken) => taken.tell(out),
        None => out.text("none"),
    }
}

/// Writes what was replaced, if there was memory for the change.
pub fn tell_old<T: Told + Debug + Drop>(old: Result<Option<T>, NoMemory<T>>, out: &mut Answer) {
    match old {
        Ok(old) => tell_taken(old, out),
        Err(refused) => out.given_back(refused),
    }
}

/// Writes what a renaming has done, if there was memory for it.
pub fn tell_renamed(renamed: Mem<Renamed>, out: &mut Answer) {
    match renamed {
        Ok(renamed) => out.debugged(&renamed),
        Err(_) => out.refuse(),
    }
}

/// Writes the slot that was not inserted, and the place of the slot that has its name.
pub fn tell_inserted(inserted: Result<(), Refused<Slot<Item>>>, out: &mut Answer) {
    match inserted {
        Ok(()) => {}
        Err(Refused::Present(at, slot)) => {
            out.text("present at ");
            out.shown(&at);
            out.text(": ");
            tell_slot(&slot.key, &slot.item, out);
            drop(slot);
        }
        Err(Refused::NoMemory(slot)) => out.given_back(NoMemory(slot)),
    }
}

/// Writes the slot that was found, if one was.
pub fn tell_found<T: Told>(found: Option<(&Key, &T)>, out: &mut Answer) {
    match found {
        Some((key, held)) => tell_slot(key, held, out),
        None => out.text("none"),
    }
}

/// Writes what was made over what is lent, if both are there.
pub fn write<T: Drop>(lent: Option<&mut T>, made: Option<T>, out: &mut Answer) {
    match (lent, made) {
        (Some(lent), Some(made)) => *lent = made,
        _ => out.text("none"),
    }
}

/// Leaves a placeholder in the slot, if there is one.
pub fn set_none(slot: Option<&mut Item>, out: &mut Answer) {
    match slot {
        Some(item) => drop(mem::replace(item, Item::None)),
        None => out.text("none"),
    }
}
