//! Making the tables that are missing above a value.
ghost use Rattle.std.specs.Prelude.{◌≡◌, ◌∷◌, ◌++◌, [], Bool, None, IfOk, OnErr, OnOk};
ghost use Rattle.toml_edit_model.specs.Conversions.{new_table};
ghost use Rattle.toml_edit_model.specs.Keys.{cleared_key};
ghost use Rattle.toml_edit_model.specs.Slots.{keyed};
ghost use Rattle.toml_edit_model.specs.Text.{one};
ghost use Rattle.toml_edit_model.specs.Tree.{no_slots, slot, table};
ghost use Rattle.toml_edit_edit_laws.specs.CommandLaws.{made_below};
ghost use Rattle.toml_edit_slots.specs.Slots.{place};
ghost use Rattle.toml_edit_tree.specs.Indexed.{shown_slots};
ghost use Rattle.toml_edit_tree.specs.View.{item_view};
ghost use Rattle.toml_edit_paths.specs.Setting.{made_by};

use std::alloc::{AllocError, Global};
use std::mem;
use toml_edit_key::Key;
use toml_edit_repr::{Decor, Mem};
use toml_edit_slots::{Slot, Slots};
use toml_edit_tree::{InlineTable, Item, Table, Value};

/// Wraps a value in tables down the path to it: in tables with headers, or in inline tables. If out
/// of memory, what is left is unspecified.
pub(crate) fn wrap_below(alloc: Global, path: &[Key], value: &mut Item, headers: bool) -> Mem<()>
    ensures { OnOk result
        (item_view value.new ≡ made_by headers path.now (item_view value.old)) }
{
    match path.split_first() {
        None => Ok(()),
        Some((key, rest)) => {
            wrap_below(alloc, rest, value, headers)?;
            if headers {
                wrap_in_table(alloc, key, !rest.is_empty(), value)
            } else {
                wrap_in_inline_table(alloc, key, value)
            }
        }
    }
}

/// Wraps a value in an inline table that has it under the key. If out of memory, what is left is
/// unspecified.
fn wrap_in_inline_table(alloc: Global, key: &Key, value: &mut Item) -> Mem<()>
    ensures { OnOk result (item_view value.new ≡ made_below (key.now ∷ []) (item_view value.old)) }
{
    let mut table = InlineTable::new(alloc);
    match push_new(table.slots_mut(), key, value) {
        Ok(()) => {
            drop(mem::replace(value, Item::Value(Value::InlineTable(table))));
            Ok(())
        }
        Err(refused) => {
            drop(table);
            Err(refused)
        }
    }
}

/// Wraps an item in a table that has it under the key. If out of memory, what is left is
/// unspecified.
fn wrap_in_table(alloc: Global, key: &Key, implicit: bool, item: &mut Item) -> Mem<()>
    ensures { OnOk result (item_view item.new ≡ table (record new_table { is_implicit = implicit })
        (slot (cleared_key key.now) (item_view item.old) no_slots)) }
{
    let mut table = Table::new(alloc);
    table.set_implicit(implicit);
    match push_new(table.slots_mut(), key, item) {
        Ok(()) => {
            drop(mem::replace(item, Item::Table(table)));
            Ok(())
        }
        Err(refused) => {
            drop(table);
            Err(refused)
        }
    }
}

/// Pushes the item under a copy of the key without its decors. What is left in its place is
/// unspecified. If out of memory, the slots are unchanged.
pub(crate) fn push_new(slots: &mut Slots<Item>, key: &Key, item: &mut Item) -> Mem<()>
    requires { place key.now.name slots.old ≡ None }
    ensures made { OnOk result
        (shown_slots slots.new
        ≡ shown_slots slots.old ++ one (keyed (cleared_key key.now) (item_view item.old))) }
    ensures err { OnErr result (slots.new ≡ slots.old) }
{
    let key = without_decors(slots.allocator(), key)?;
    let item = mem::replace(item, Item::None);
    match slots.push(Slot { key, item }) {
        Ok(()) => Ok(()),
        Err(refused) => {
            drop(refused);
            Err(AllocError)
        }
    }
}

/// Returns a copy of the key, with its name and its spelling alone.
fn without_decors(alloc: Global, key: &Key) -> Mem<Key>
    ensures { IfOk result (λ copy. copy ≡ cleared_key key.now) }
{
    let copy = key.clone(alloc)?;
    Ok(
        copy.with_leaf_decor(Decor::default())
            .with_dotted_decor(Decor::default()),
    )
}
