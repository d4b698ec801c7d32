//! Lists of items, each of which may hold an element: what arrays do with their values, and arrays
//! of tables with their tables.
//!
//! An element is found by its place. Each item has a place, whether it holds an element or not.
ghost use Rattle.std.specs.Fn.{ComparesAs, ComputesKey, FnReturnsAt};
ghost use Rattle.std.specs.Option.{option_copied};
ghost use Rattle.std.specs.Ordering.{is_lt};
ghost use Rattle.std.specs.Prelude.{◌≡◌, ◌≤◌, ◌∷◌, ◌++◌, [], Bool, IsPermutation, Option, Some, IsSome, IfErr, OnErr, OnOk, insert, length, remove, slice_set};
ghost use Rattle.toml_edit_slots.specs.Elements.{SaysOfHeld, element_at};
ghost use Rattle.toml_edit_slots.specs.Sorts.{SortsHeldAs, SortsHeldByKey, held_lt};
ghost use Rattle.toml_edit_model.specs.Retaining.{RetainsBy};

use std::alloc::AllocError;
use std::cmp::Ordering;
use std::mem;

/// An item that may hold an element.
pub trait Holds<E>: Drop {
    ghost held: { Self → Option E };

    ghost holding: { E → Self };

    /// Returns the element, if it holds one.
    fn as_held(&self) -> Option<&E>
        ensures { option_copied result ≡ held self.now };

    /// Returns the element that it holds.
    fn into_held(self) -> E
        requires { IsSome (held self) }
        ensures { Some result ≡ held self };

    /// Makes an item that holds the element.
    fn hold(element: E) -> Self
        ensures { result ≡ holding element };

    ghost holds: { (element : E) → held (holding element) ≡ Some element };
}

/// Returns the element at the place, or `None` if there is no item or it holds none.
pub fn get<T: Holds<E>, E>(items: &[T], at: usize) -> Option<&E>
    ensures { option_copied result ≡ element_at T.held at items.now }
{
    items.get(at)?.as_held()
}

/// Removes the element at the place and returns it. The others keep their order.
pub fn remove<T: Holds<E>, E>(items: &mut Vec<T>, at: usize) -> E
    requires { IsSome (element_at T.held at items.old.items) }
    ensures element { Some result ≡ element_at T.held at items.old.items }
    ensures items { items.new.items ≡ remove items.old.items at }
{
    items.remove(at).into_held()
}

/// Puts the element in the place of the one there, and returns that one.
pub fn replace<T: Holds<E>, E>(items: &mut Vec<T>, at: usize, element: E) -> E
    requires { IsSome (element_at T.held at items.old.items) }
    ensures element { Some result ≡ element_at T.held at items.old.items }
    ensures items { items.new.items ≡ slice_set items.old.items at (T.holding element) }
{
    mem::replace(&mut items[at], T::hold(element)).into_held()
}

/// Pushes the element. If memory runs out, returns it and leaves the list unchanged.
pub fn push<T: Holds<E>, E>(items: &mut Vec<T>, element: E) -> Result<(), E>
    ensures items { OnOk result (items.new.items ≡ items.old.items ++ T.holding element ∷ []) }
    ensures err { OnErr result (items.new.items ≡ items.old.items) }
    ensures back { IfErr result (λ refused. refused ≡ element) }
{
    match items.push(T::hold(element)) {
        Ok(()) => Ok(()),
        Err(refused) => Err(refused.value.into_held()),
    }
}

/// Inserts the element at the place, before the item there. If memory runs out, returns it and
/// leaves the list unchanged.
pub fn insert<T: Holds<E>, E>(items: &mut Vec<T>, at: usize, element: E) -> Result<(), E>
    requires { at ≤ length items.old.items }
    ensures items { OnOk result (items.new.items ≡ insert items.old.items at (T.holding element)) }
    ensures err { OnErr result (items.new.items ≡ items.old.items) }
    ensures back { IfErr result (λ refused. refused ≡ element) }
{
    match items.insert(at, T::hold(element)) {
        Ok(()) => Ok(()),
        Err(refused) => Err(refused.value.into_held()),
    }
}

/// Keeps the elements for which the closure returns `true`, in their order. Items that hold none
/// go.
pub fn retain<T: Holds<E>, E, F: Fn(&E) -> bool>(items: &mut Vec<T>, keep: F)
where
    F: Drop,
    requires { F.IsAlwaysCallable keep }
    ensures { RetainsBy
        (λ item. SaysOfHeld (FnReturnsAt F.Fn keep) (T.held item)) items.old.items items.new.items }
{
    items.retain(
        |item|
            requires { F.IsAlwaysCallable keep }
            ensures { SaysOfHeld (FnReturnsAt F.Fn keep) (T.held item.entry.now) result }
        {
            match item.as_held() {
                Some(element) => keep(element),
                None => false,
            }
        },
    );
}

/// Sorts the items by comparing their elements. Items that hold none come first, and the sort is
/// stable. If memory runs out, the list stays unchanged.
pub fn sort_by<T: Holds<E>, E, F: Fn(&E, &E) -> Ordering>(
    items: &mut Vec<T>,
    compare: F,
) -> Result<(), AllocError>
where
    F: Drop,
    requires { F.IsAlwaysCallable compare }
    ensures permutation { IsPermutation items.old.items items.new.items }
    ensures sorted { OnOk result
        (SortsHeldAs F.FnMut T.held compare items.old.items items.new.items) }
    ensures err { OnErr result (items.new.items ≡ items.old.items) }
{
    items.sort_by(
        |one: &T, other: &T| -> Ordering
            requires { F.IsAlwaysCallable compare }
            ensures { (lt : E → E → Bool) → ComparesAs F.FnMut lt compare
                → is_lt result ≡ held_lt lt (T.held one.now) (T.held other.now) }
        {
            match (one.as_held(), other.as_held()) {
                (Some(first), Some(second)) => compare(first, second),
                (Some(_), None) => Ordering::Greater,
                (None, Some(_)) => Ordering::Less,
                (None, None) => Ordering::Equal,
            }
        },
    )
}

/// Sorts the items by keys of their elements. Items that hold none come first, and the sort is
/// stable. If memory runs out, the list stays unchanged.
pub fn sort_by_key<T: Holds<E>, E, K: Ord, F: Fn(&E) -> K>(
    items: &mut Vec<T>,
    key: F,
) -> Result<(), AllocError>
where
    K: Drop,
    F: Drop,
    requires { F.IsAlwaysCallable key }
    ensures permutation { IsPermutation items.old.items items.new.items }
    ensures sorted { OnOk result
        (SortsHeldByKey F.FnMut K.cmp T.held key items.old.items items.new.items) }
    ensures err { OnErr result (items.new.items ≡ items.old.items) }
{
    sort_by(
        items,
        |one: &E, other: &E| -> Ordering
            requires { F.IsAlwaysCallable key }
            ensures { (of : E → K) → ComputesKey F.FnMut of key
                → is_lt result ≡ is_lt (K.cmp (of one.now) (of other.now)) }
        { key(one).cmp(&key(other)) },
    )
}
