//! The places of slots, in a map from the names of their keys.
ghost use Rattle.std.specs.Prelude.{◌≡◌, None, [], is_some, true, length, option_map, if◌then◌else◌, IfOk, OnOk, OnErr};
ghost use Rattle.toml_edit_model.specs.Text.{Text, same_text};
ghost use Rattle.toml_edit_slots.specs.Slots.{names};
ghost use Rattle.toml_edit_slots.specs.Hashed.{HasSame, IsHashed, IsHashedBefore, IsPutAt, closed_place, place_of};

use crate::places::is_named_at;
use crate::slots::Slot;
use crate::tally::{MANY, Tally};
use indexmap::IndexMap;
use std::alloc::Global;
use toml_edit_repr::Mem;

/// The places of slots, by the names of their keys.
///
/// A name is here with a place exactly where the slot at that place has the name. The tally tells
/// where names crowd; one more is then refused.
#[derive(Debug, Drop)]
pub(crate) struct Hashed {
    places: IndexMap<String, usize>,
    tally: Tally,
}

/// Why a name was not put into the map.
#[derive(Clone, Copy, Debug)]
pub(crate) enum Full {
    /// Memory ran out.
    Memory,
    /// Too many names begin their search close to where this one does.
    Crowded,
}

impl Hashed {
    /// Returns no places. Allocates nothing.
    pub(crate) fn new(alloc: Global) -> Hashed
        ensures { IsHashed result [] }
    {
        Hashed {
            places: IndexMap::new(alloc),
            tally: Tally::new(alloc),
        }
    }

    /// Returns the place of the name, or `None` if it is not here.
    #[inline]
    pub(crate) fn get(&self, name: &str) -> Option<usize>
        ensures { result ≡ place_of self.now name.now }
    {
        let at = self.places.get(name)?;
        Some(*at)
    }

    /// Inserts the place of a name, and returns the one that it had. A map without room gets it for
    /// `room` names in all.
    #[inline(always)]
    pub(crate) fn insert(
        &mut self,
        alloc: Global,
        name: &str,
        at: usize,
        room: usize,
    ) -> Result<Option<usize>, Full>
        ensures old { IfOk result (λ old. old ≡ place_of self.old name.now) }
        ensures ok { OnOk result (IsPutAt at name.now self.old self.new) }
        ensures err { OnErr result (HasSame self.old self.new) }
    {
        if self.places.capacity() == self.places.len() && self.grow(room).is_err() {
            return Err(Full::Memory);
        }
        let group = self.tally.group_of(&self.places, name);
        if self.tally.is_full(group) {
            return Err(Full::Crowded);
        }
        let Ok(text) = String::from_str(alloc, name) else {
            return Err(Full::Memory);
        };
        let Ok(old) = self.places.insert(text, at) else {
            return Err(Full::Memory);
        };
        if old.is_none() {
            self.tally.count(group);
        }
        Ok(old)
    }

    /// Makes room for so many names in all, or for one more if there are as many. Fails only if
    /// memory runs out.
    ///
    /// In a large map they take 11 of 18 places, so that by chance no region is full.
    #[cold]
    #[inline(never)]
    fn grow(&mut self, room: usize) -> Mem<()>
        ensures { HasSame self.old self.new }
    {
        let len = self.places.len();
        let all = room.max(len.saturating_add(1));
        let wide = if all < MANY {
            all
        } else {
            all.saturating_mul(18).saturating_add(10) / 11
        };
        self.places.reserve(wide.saturating_sub(len))?;
        let whole = self.places.capacity();
        if all >= MANY {
            // Names and places need less than the groups, which stay as many if that is more than half.
            self.places.shrink_to(all.max(whole / 2 + 1));
        }
        self.tally.resize(whole)?;
        self.tally.recount(&self.places);
        Ok(())
    }

    /// Changes the place of a name that is here.
    pub(crate) fn set(&mut self, name: &str, at: usize)
        requires { is_some (place_of self.old name.now) ≡ true }
        ensures { IsPutAt at name.now self.old self.new }
    {
        if let Some(place) = self.places.get_mut(name) {
            *place = at;
        }
    }

    /// Removes a name, if it is here. Allocates nothing.
    pub(crate) fn remove(&mut self, name: &str)
        ensures { (t : Text) → place_of self.new t
            ≡ if same_text name.now t then None else place_of self.old t }
    {
        let group = self.tally.group_of(&self.places, name);
        if self.places.swap_remove(name).is_some() {
            self.tally.take_off(group);
        }
    }

    /// Moves the places after the gap down by one. Allocates nothing.
    pub(crate) fn close_gap(&mut self, gap: usize)
        ensures { (t : Text) → place_of self.new t ≡ option_map (closed_place gap) (place_of self.old t) }
    {
        for at in 0..self.places.len() {
            let place = self.places[at];
            if place > gap {
                self.places[at] = place - 1;
            }
        }
    }

    /// Removes the names that are not at their places among these slots. Allocates nothing.
    pub(crate) fn drop_others<T>(&mut self, entries: &[Slot<T>])
        requires { IsHashedBefore (length entries.now) self.old (names entries.now) }
        ensures { IsHashed self.new (names entries.now) }
    {
        self.places.retain(|name, place| is_named_at(entries, *place, name.as_bytes()));
        self.tally.recount(&self.places);
    }
}
