//! The iterators of an array.
ghost use Rattle.std.specs.Iterator.{YieldsFirstBy, item_count};
ghost use Rattle.std.specs.Prelude.{◌≡◌};
ghost use Rattle.toml_edit_model.specs.Iterating.{values as values_seen};
ghost use Rattle.toml_edit_tree.specs.ContainerParts.{value_read, values_left};
ghost use Rattle.toml_edit_tree.specs.ElementParts.{owned_values};
ghost use Rattle.toml_edit_tree.specs.Elements.{items_of};
ghost use Rattle.toml_edit_tree.specs.View.{value_view};

use crate::array::Array;
use crate::item::Item;
use crate::value::Value;
use std::{slice, vec};

/// An iterator over the values of an array, in order.
///
/// Returned by [`Array::iter`].
///
/// # Examples
///
/// ```rust,ignore
/// array.iter().next()
/// ```
///
/// From `first_value` of the crate `example_calls`.
#[derive(Drop)]
pub struct ArrayIter<'a> {
    pub(crate) items: slice::Iter<'a, Item>,
}

impl<'a> Iterator for ArrayIter<'a> {
    type Item = &'a Value;

    ghost next_gives = { YieldsFirstBy value_read values_left };

    ghost remaining = { item_count values_left };

    fn next(&mut self) -> Option<&'a Value> {
        while let Some(item) = self.items.next() {
            if let Some(value) = item.as_value() {
                return Some(value);
            }
        }
        None
    }
}

impl<'a> IntoIterator for &'a Array {
    type Item = &'a Value;

    type IntoIter = ArrayIter<'a>;

    ghost into_iter_gives = { λ array it. values_left it ≡ values_seen (items_of array.now) };

    fn into_iter(self) -> ArrayIter<'a> {
        self.iter()
    }
}

/// An iterator that takes an array apart: over its values in order.
///
/// # Examples
///
/// ```rust,ignore
/// array.into_iter().next()
/// ```
///
/// From `into_value` of the crate `example_calls`.
#[derive(Drop)]
pub struct ArrayIntoIter {
    items: vec::IntoIter<Item>,
}

impl IntoIterator for Array {
    type Item = Value;

    type IntoIter = ArrayIntoIter;

    ghost into_iter_gives = { λ array it. owned_values it ≡ values_seen (items_of array) };

    fn into_iter(self) -> ArrayIntoIter {
        ArrayIntoIter {
            items: self.into_values().into_iter(),
        }
    }
}

impl Iterator for ArrayIntoIter {
    type Item = Value;

    ghost next_gives = { YieldsFirstBy value_view owned_values };

    ghost remaining = { item_count owned_values };

    fn next(&mut self) -> Option<Value> {
        while let Some(item) = self.items.next() {
            match item {
                Item::Value(value) => return Some(value),
                other => drop(other),
            }
        }
        None
    }
}
