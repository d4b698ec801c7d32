//! `HasSlots` of a `TableRefMut`: the slots of the table that the item is.
ghost use Rattle.std.specs.Borrow.{sem};
ghost use Rattle.std.specs.Prelude.{◌≡◌, Some, true, is_some};
ghost use Rattle.toml_edit_table_like.specs.InItems.{entries_in, entries_in_value};
ghost use Rattle.toml_edit_table_like.specs.MutRefs.{LendsOwnSlots, LendsValueSlots, mut_again, mut_beside, mut_entries, mut_keeps, mut_origin, mut_roots, mut_shows, mut_slots, mut_stays, mut_takes, mut_with};
ghost use Rattle.toml_edit_tree.specs.declared.value.Value.{out-Value};

use super::TableRefMut;
use crate::HasSlots;
use toml_edit_key::KeyMut;
use toml_edit_repr::Decor;
use toml_edit_slots::Slots;
use toml_edit_tree::{Item, Value};

/// Returns the slots of an item that is a table of either kind.
pub(crate) fn own_slots(item: &Item) -> &Slots<Item>
    requires { is_some (entries_in item.now) ≡ true }
    ensures { entries_in item.now ≡ Some result.now }
{
    match item {
        Item::Table(table) => table.as_slots(),
        Item::Value(Value::InlineTable(table)) => table.as_slots(),
        _ => unreachable!(),
    }
}

/// Returns a mutable reference to the slots of an item that is a table of either kind.
pub(crate) fn own_slots_mut(item: &mut Item) -> &mut Slots<Item>
    requires { is_some (entries_in item.old) ≡ true }
    ensures* writes_back { sem 𝓛 (LendsOwnSlots item.entry result) }
    ensures slots { entries_in item.old ≡ Some result.now }
{
    match item {
        Item::Table(table) => table.as_slots_mut(),
        Item::Value(value) => value_slots_mut(value),
        _ => unreachable!(),
    }
}

/// Returns a mutable reference to the slots of a value that is an inline table.
fn value_slots_mut(value: &mut Value) -> &mut Slots<Item>
    requires { is_some (entries_in_value (out-Value value.old)) ≡ true }
    ensures* writes_back { sem 𝓛 (LendsValueSlots value.entry result) }
    ensures slots { entries_in_value (out-Value value.old) ≡ Some result.now }
{
    match value {
        Value::InlineTable(table) => table.as_slots_mut(),
        _ => unreachable!(),
    }
}

impl<'a> HasSlots for TableRefMut<'a> {
    ghost slots_of = { mut_slots };

    ghost beside = { mut_beside };

    ghost entries = { mut_entries };

    ghost with_entries = { mut_with };

    ghost shows = { mut_shows };

    ghost takes = { mut_takes };

    ghost keeps = { mut_keeps };

    ghost again = { mut_again };

    ghost stays = { mut_stays };

    ghost origin = { mut_origin };

    ghost holds = { mut_roots };

    fn as_slots(&self) -> &Slots<Item> {
        own_slots(self.item)
    }

    fn as_slots_mut(&mut self) -> &mut Slots<Item> {
        own_slots_mut(self.item)
    }

    fn item_at_mut(&mut self, at: usize) -> &mut Item {
        let slots = own_slots_mut(self.item);
        slots.item_mut(at)
    }

    fn key_at_mut(&mut self, at: usize) -> KeyMut<'_> {
        let slots = own_slots_mut(self.item);
        slots.key_mut(at)
    }

    fn leaf_decor_at_mut(&mut self, at: usize) -> &mut Decor {
        let slots = own_slots_mut(self.item);
        slots.leaf_decor_mut(at)
    }

    fn dotted_decor_at_mut(&mut self, at: usize) -> &mut Decor {
        let slots = own_slots_mut(self.item);
        slots.dotted_decor_mut(at)
    }
}
