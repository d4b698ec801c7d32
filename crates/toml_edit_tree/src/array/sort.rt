//! Sorting the values of an array.
ghost use Rattle.std.specs.Prelude.{◌≡◌, IsPermutation, OnErr, OnOk};
ghost use Rattle.toml_edit_tree.specs.ElementSorts.{SortsValuesAs, SortsValuesByKey};
ghost use Rattle.toml_edit_tree.specs.Elements.{array_fields, items_of, listed};
ghost use Rattle.toml_edit_tree.specs.View.{array_view, items_view};

use crate::array::Array;
use crate::item::Item;
use crate::value::Value;
use std::cmp::Ordering;
use toml_edit_repr::Mem;
use toml_edit_slots::list;

impl Array {
    /// Sorts the values by `compare`. The sort is stable.
    ///
    /// Each value moves with its decor, so its comments and its line break move too. Slots without
    /// a value come first. Where `compare` is not a strict weak order, the order is any, but no
    /// value is lost.
    ///
    /// # Errors
    ///
    /// Returns an `AllocError` if out of memory.
    ///
    /// # Examples
    ///
    /// ```rust,ignore
    /// array.sort_by(|a, b| a.as_str().cmp(&b.as_str()))
    /// ```
    ///
    /// From `sort_strings` of the crate `example_calls`.
    pub fn sort_by<F: Fn(&Value, &Value) -> Ordering>(&mut self, compare: F) -> Mem<()>
    where
        F: Drop,
        requires { F.IsAlwaysCallable compare }
        ensures permutation { IsPermutation (items_of self.old) (items_of self.new) }
        ensures sorted { OnOk result
            (SortsValuesAs F.FnMut compare (items_of self.old) (items_of self.new)) }
        ensures fields { array_fields self.new ≡ array_fields self.old }
        ensures err { OnErr result (array_view self.new ≡ array_view self.old) }
    {
        sort_values(&mut self.values, compare)
    }

    /// Sorts the values by the keys that `key` returns for them. The sort is stable.
    ///
    /// Each value moves with its decor. Slots without a value come first.
    ///
    /// # Errors
    ///
    /// Returns an `AllocError` if out of memory.
    pub fn sort_by_key<K: Ord, F: Fn(&Value) -> K>(&mut self, key: F) -> Mem<()>
    where
        K: Drop,
        F: Drop,
        requires { F.IsAlwaysCallable key }
        ensures permutation { IsPermutation (items_of self.old) (items_of self.new) }
        ensures sorted { OnOk result
            (SortsValuesByKey F.FnMut K.cmp key (items_of self.old) (items_of self.new)) }
        ensures fields { array_fields self.new ≡ array_fields self.old }
        ensures err { OnErr result (array_view self.new ≡ array_view self.old) }
    {
        sort_values_by_key(&mut self.values, key)
    }
}

/// Sorts items by their values. Those without one come first.
fn sort_values<F: Fn(&Value, &Value) -> Ordering>(items: &mut Vec<Item>, compare: F) -> Mem<()>
where
    F: Drop,
    requires { F.IsAlwaysCallable compare }
    ensures permutation { IsPermutation (listed items.old.items) (listed items.new.items) }
    ensures sorted { OnOk result
        (SortsValuesAs F.FnMut compare (listed items.old.items) (listed items.new.items)) }
    ensures err { OnErr result (items_view items.new.items ≡ items_view items.old.items) }
{
    list::sort_by(items, compare)
}

/// Sorts items by keys of their values. Those without one come first.
fn sort_values_by_key<K: Ord, F: Fn(&Value) -> K>(items: &mut Vec<Item>, key: F) -> Mem<()>
where
    K: Drop,
    F: Drop,
    requires { F.IsAlwaysCallable key }
    ensures permutation { IsPermutation (listed items.old.items) (listed items.new.items) }
    ensures sorted { OnOk result
        (SortsValuesByKey F.FnMut K.cmp key (listed items.old.items) (listed items.new.items)) }
    ensures err { OnErr result (items_view items.new.items ≡ items_view items.old.items) }
{
    list::sort_by_key(items, key)
}
