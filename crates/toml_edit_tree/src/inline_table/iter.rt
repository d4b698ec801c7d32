//! The iterators of an inline table.
ghost use Rattle.std.specs.Iterator.{YieldsFirstBy, item_count};
ghost use Rattle.std.specs.Prelude.{◌≡◌};
ghost use Rattle.toml_edit_model.specs.Iterating.{value_pairs};
ghost use Rattle.toml_edit_tree.specs.ContainerParts.{pair_read, pairs_left};
ghost use Rattle.toml_edit_tree.specs.InlineParts.{owned_pairs, pair_owned};
ghost use Rattle.toml_edit_tree.specs.SlotsOf.{inline_slots_of};

use crate::inline_table::InlineTable;
use crate::item::Item;
use crate::value::Value;
use std::{slice, vec};
use toml_edit_slots::Slot;

/// An iterator over the names of the keys of an inline table and their values, in order.
///
/// Returned by [`InlineTable::iter`].
///
/// # Examples
///
/// ```rust,ignore
/// table.iter().next()
/// ```
///
/// From `first_pair` of the crate `example_calls`.
#[derive(Drop)]
pub struct InlineTableIter<'a> {
    pub(crate) slots: slice::Iter<'a, Slot<Item>>,
}

impl<'a> Iterator for InlineTableIter<'a> {
    type Item = (&'a str, &'a Value);

    ghost next_gives = { YieldsFirstBy pair_read pairs_left };

    ghost remaining = { item_count pairs_left };

    fn next(&mut self) -> Option<(&'a str, &'a Value)> {
        while let Some(slot) = self.slots.next() {
            if let Some(value) = slot.item.as_value() {
                return Some((slot.key.get(), value));
            }
        }
        None
    }
}

impl<'a> IntoIterator for &'a InlineTable {
    type Item = (&'a str, &'a Value);

    type IntoIter = InlineTableIter<'a>;

    ghost into_iter_gives = { λ table it. pairs_left it ≡ value_pairs (inline_slots_of table.now) };

    fn into_iter(self) -> InlineTableIter<'a> {
        self.iter()
    }
}

/// An iterator that takes an inline table apart: over the names of the keys and the values, in
/// order.
///
/// Spellings and decors of the keys are dropped, and so are slots that hold no value.
///
/// # Examples
///
/// ```rust,ignore
/// table.into_iter().next()
/// ```
///
/// From `into_pair` of the crate `example_calls`.
#[derive(Drop)]
pub struct InlineTableIntoIter {
    slots: vec::IntoIter<Slot<Item>>,
}

impl IntoIterator for InlineTable {
    type Item = (String, Value);

    type IntoIter = InlineTableIntoIter;

    ghost into_iter_gives = { λ table it. owned_pairs it ≡ value_pairs (inline_slots_of table) };

    fn into_iter(self) -> InlineTableIntoIter {
        InlineTableIntoIter {
            slots: self.into_slots().into_vec().into_iter(),
        }
    }
}

impl Iterator for InlineTableIntoIter {
    type Item = (String, Value);

    ghost next_gives = { YieldsFirstBy pair_owned owned_pairs };

    ghost remaining = { item_count owned_pairs };

    fn next(&mut self) -> Option<(String, Value)> {
        while let Some(slot) = self.slots.next() {
            let Slot { key, item } = slot;
            match item {
                Item::Value(value) => return Some((String::from(key), value)),
                other => drop(other),
            }
        }
        None
    }
}
