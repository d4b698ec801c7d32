//! Calls that keep, sort or add many slots.
ghost use Rattle.std.specs.Prelude.{◌≡◌, List, [], IsPermutation, IfOk, OnOk, OnErr};
ghost use Rattle.std.specs.Iterator.{Drains, ExtendsWithItems, IsFinite};
ghost use Rattle.toml_edit_model.specs.Retaining.{RetainsBy};
ghost use Rattle.toml_edit_slots.specs.Closures.{SaysOfSlot, SortsAs};
ghost use Rattle.toml_edit_slots.specs.Seen.{Adds, seen, slot_seen};

use super::{Slot, Slots};
use crate::index::index_those;
use std::alloc::{AllocError, Global};
use std::cmp::Ordering;
use toml_edit_key::Key;

impl<T> Slots<T> {
    /// Keeps the slots for whose name and item the closure returns `true`, and removes the others.
    ///
    /// The slots keep their order. Allocates nothing.
    pub fn retain<F: Fn(&str, &T) -> bool>(&mut self, keep: F)
    where
        T: Drop,
        F: Drop,
        requires { F.IsAlwaysCallable keep }
        ensures { RetainsBy (SaysOfSlot F.Fn keep) (seen self.old) (seen self.new) }
    {
        retain_entries(&mut self.entries, keep);
        index_those(&mut self.index, &self.entries);
    }

    /// Sorts the slots by a closure that compares keys and items. Slots that it calls equal keep
    /// their order.
    ///
    /// # Errors
    ///
    /// Fails only if memory runs out; the slots then stay as they were.
    pub fn sort_by<F: FnMut(&Slot<T>, &Slot<T>) -> Ordering>(
        &mut self,
        compare: F,
    ) -> Result<(), AllocError>
    where
        F: Drop,
        requires { F.IsAlwaysCallable compare }
        ensures permutation { IsPermutation (seen self.old) (seen self.new) }
        ensures sorted { OnOk result (SortsAs F.FnMut compare (seen self.old) (seen self.new)) }
        ensures err { OnErr result (self.new ≡ self.old) }
    {
        let sorted = self.entries.sort_by(compare);
        index_those(&mut self.index, &self.entries);
        sorted
    }

    /// Inserts pairs of keys and items one after another, as [`extend_one`](Slots::extend_one)
    /// does.
    ///
    /// # Errors
    ///
    /// Fails only if memory runs out. The first pairs may then be inserted; the others are dropped.
    #[tactic(auto, using(crate::proofs::SeenLaws::extended_last))]
    pub fn extend<U: IntoIterator<Item = (Key, T)>>(&mut self, pairs: U) -> Result<(), AllocError>
    where
        T: Drop,
        requires { (it : U.IntoIter) → U.into_iter_gives pairs it
            → U.IntoIter.can_next it × IsFinite (U.IntoIter.remaining it) }
        ensures { ExtendsWithItems U.into_iter_gives U.IntoIter.next_gives Adds pairs self.old
            self.new result }
    {
        for (key, item) in pairs {
            self.extend_one(key, item)?;
        }
        Ok(())
    }

    /// Creates a container of pairs, inserted one after another as
    /// [`extend_one`](Slots::extend_one) does.
    ///
    /// # Errors
    ///
    /// Fails only if memory runs out.
    pub fn from_iter<U: IntoIterator<Item = (Key, T)>>(
        alloc: Global,
        pairs: U,
    ) -> Result<Slots<T>, AllocError>
    where
        T: Drop,
        requires { (it : U.IntoIter) → U.into_iter_gives pairs it
            → U.IntoIter.can_next it × IsFinite (U.IntoIter.remaining it) }
        ensures { IfOk result
            (λ slots. (it : U.IntoIter) × (ps : List _) × U.into_iter_gives pairs it
            × Drains U.IntoIter.next_gives it ps × Adds [] ps slots) }
    {
        let mut slots = Slots::new(alloc);
        slots.extend(pairs)?;
        Ok(slots)
    }
}

/// Keeps the slots for which the closure returns `true`, in a function of its own for its proof.
fn retain_entries<T: Drop, F: Fn(&str, &T) -> bool>(entries: &mut Vec<Slot<T>>, keep: F)
where
    F: Drop,
    requires { F.IsAlwaysCallable keep }
    ensures { RetainsBy
        (λ slot. SaysOfSlot F.Fn keep
        (slot_seen (λ x. x) slot)) entries.old.items entries.new.items }
{
    entries.retain(
        |slot|
            requires { F.IsAlwaysCallable keep }
            ensures { SaysOfSlot F.Fn keep (slot_seen (λ x. x) slot.entry.now) result }
        { keep(slot.key.get(), &slot.item) },
    );
}
