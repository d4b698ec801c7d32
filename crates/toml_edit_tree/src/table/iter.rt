//! The iterators of a table.
ghost use Rattle.std.specs.Iterator.{YieldsFirstBy, item_count};
ghost use Rattle.std.specs.Prelude.{◌≡◌};
ghost use Rattle.toml_edit_model.specs.Iterating.{filled_pairs};
ghost use Rattle.toml_edit_model.specs.Lists.{slot_list};
ghost use Rattle.toml_edit_model.specs.Slots.{pairs};
ghost use Rattle.toml_edit_tree.specs.Held.{held_left, pair_read};
ghost use Rattle.toml_edit_tree.specs.SlotsOf.{all_left, pair_taken, slots_of};
ghost use Rattle.toml_edit_tree.specs.View.{slots_view};

use crate::item::Item;
use crate::table::{Table, is_filled};
use std::{slice, vec};
use toml_edit_slots::Slot;

/// An iterator over the names of the keys of a table and their items, in order and without
/// placeholders.
///
/// Returned by [`Table::iter`], and by `iter` of the trait `AnyTable`.
///
/// # Examples
///
/// ```rust,ignore
/// for (name, _item) in table.iter() {
///     names.push_str(name)?;
///     names.push_str("\n")?;
/// }
/// ```
///
/// From `names` of the crate `example_calls`.
#[derive(Drop)]
pub struct Iter<'a> {
    pub(crate) slots: slice::Iter<'a, Slot<Item>>,
}

impl<'a> Iter<'a> {
    /// Iterates over those of these slots that are not placeholders.
    #[doc(hidden)]
    pub fn from_slots(slots: &'a [Slot<Item>]) -> Iter<'a>
        ensures { held_left result ≡ filled_pairs (slot_list (slots_view slots.now)) }
    {
        Iter {
            slots: slots.iter(),
        }
    }
}

impl<'a> Iterator for Iter<'a> {
    type Item = (&'a str, &'a Item);

    ghost next_gives = { YieldsFirstBy pair_read held_left };

    ghost remaining = { item_count held_left };

    fn next(&mut self) -> Option<(&'a str, &'a Item)> {
        while let Some(slot) = self.slots.next() {
            if is_filled(slot) {
                return Some((slot.key.get(), &slot.item));
            }
        }
        None
    }
}

impl<'a> IntoIterator for &'a Table {
    type Item = (&'a str, &'a Item);

    type IntoIter = Iter<'a>;

    ghost into_iter_gives = { λ table it. held_left it ≡ filled_pairs (slots_of table.now) };

    fn into_iter(self) -> Iter<'a> {
        self.iter()
    }
}

/// An iterator that takes a table apart: over the names of the keys and the items, in order.
///
/// Unlike [`Iter`] it gives placeholders too, as `Item::None`. Spellings and decors of the keys are
/// dropped.
///
/// # Examples
///
/// ```rust,ignore
/// table.into_iter().next()
/// ```
///
/// From `into_slot` of the crate `example_calls`.
#[derive(Drop)]
pub struct IntoIter {
    slots: vec::IntoIter<Slot<Item>>,
}

impl IntoIterator for Table {
    type Item = (String, Item);

    type IntoIter = IntoIter;

    ghost into_iter_gives = { λ table it. all_left it ≡ pairs (slots_of table) };

    fn into_iter(self) -> IntoIter {
        IntoIter {
            slots: self.into_slots().into_vec().into_iter(),
        }
    }
}

impl Iterator for IntoIter {
    type Item = (String, Item);

    ghost next_gives = { YieldsFirstBy pair_taken all_left };

    ghost remaining = { item_count all_left };

    fn next(&mut self) -> Option<(String, Item)> {
        let Slot { key, item } = self.slots.next()?;
        Some((String::from(key), item))
    }
}
