//! How many names of a map begin their search close together.
use indexmap::IndexMap;
use std::alloc::Global;
use std::hash::BuildHasher;
use toml_edit_repr::Mem;

/// The names that a group of the map holds on average when the map is full.
const GROUP: usize = 9;

/// The groups of a region.
const REGION: usize = 8;

/// The fewest names of a map whose groups are counted. In a smaller one a search is short anyway.
const FEWEST: usize = 4 * GROUP;

/// The fewest names of a map whose regions are counted too.
pub(crate) const MANY: usize = 2 * GROUP * REGION;

/// The most names whose search begins in one group. By chance fewer than one group in a million has
/// more, as there are at most 9 on average.
const MOST_OF_GROUP: u8 = 28;

/// The most names whose search begins in one region, of the 96 that its groups can hold.
///
/// So no search passes more than some eighty groups. By chance fewer than one region in a million has
/// more, as there are at most 44 on average: where one would, the names were chosen.
const MOST: u8 = 80;

/// How many names of a map begin their search in each group, and in each region, which is a run of
/// groups.
#[derive(Debug, Drop)]
pub(crate) struct Tally {
    // How many groups there are: a power of two, or 0.
    groups: usize,
    // The names of each group, and behind them those of each region.
    counts: Vec<u8>,
}

impl Tally {
    /// Returns a tally of no groups. Allocates nothing.
    pub(crate) fn new(alloc: Global) -> Tally {
        Tally {
            groups: 0,
            counts: Vec::new(alloc),
        }
    }

    /// Makes this the tally of a map with room for so many names, none of which is counted. Fails
    /// only if memory runs out.
    pub(crate) fn resize(&mut self, room: usize) -> Mem<()> {
        self.groups = 0;
        self.counts.clear();
        if room < FEWEST {
            return Ok(());
        }
        let groups = (room / GROUP).next_power_of_two();
        let regions = if room < MANY { 0 } else { groups / REGION };
        self.counts.resize(groups.saturating_add(regions), 0)?;
        self.groups = groups;
        Ok(())
    }

    /// Counts the names of the map anew. Allocates nothing.
    pub(crate) fn recount(&mut self, map: &IndexMap<String, usize>) {
        if self.groups == 0 {
            return;
        }
        self.counts.fill(0);
        for name in map.keys() {
            let group = self.group_of(map, name.as_str());
            self.count(group);
        }
    }

    /// Returns the group where the search for the name begins, or 0 if none are counted.
    #[inline(always)]
    pub(crate) fn group_of(&self, map: &IndexMap<String, usize>, name: &str) -> usize {
        if self.groups == 0 {
            return 0;
        }
        // The map takes the lower half of this, of which the last bits tell the group.
        let hash = map.hasher().hash_one(name);
        let hash = (hash ^ (hash >> 32)) as usize;
        hash & (self.groups - 1)
    }

    /// Returns `true` if no further name may begin in the group, or in its region.
    #[inline(always)]
    pub(crate) fn is_full(&self, group: usize) -> bool {
        self.has(group, MOST_OF_GROUP) || self.has(self.groups.saturating_add(group / REGION), MOST)
    }

    /// Returns `true` if so many names are counted at the place.
    #[inline(always)]
    fn has(&self, at: usize, most: u8) -> bool {
        match self.counts.get(at) {
            Some(count) => *count >= most,
            None => false,
        }
    }

    /// Counts one name more of the group and of its region.
    #[inline(always)]
    pub(crate) fn count(&mut self, group: usize) {
        let region = self.groups.saturating_add(group / REGION);
        if let Some(count) = self.counts.get_mut(group) {
            *count = count.saturating_add(1);
        }
        if let Some(count) = self.counts.get_mut(region) {
            *count = count.saturating_add(1);
        }
    }

    /// Takes one name of the group and of its region off.
    pub(crate) fn take_off(&mut self, group: usize) {
        let region = self.groups.saturating_add(group / REGION);
        if let Some(count) = self.counts.get_mut(group) {
            *count = count.saturating_sub(1);
        }
        if let Some(count) = self.counts.get_mut(region) {
            *count = count.saturating_sub(1);
        }
    }
}
