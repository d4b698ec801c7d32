//! A reference to an item that is a table of either kind, to change it.
ghost use Rattle.std.specs.Prelude.{◌≡◌, true, is_some};
ghost use Rattle.toml_edit_table_like.specs.InItems.{entries_in};

use toml_edit_tree::Item;

mod change;
mod made_of;
mod table;

/// A mutable reference to a table of either kind, by the item that holds it.
///
/// Returned by [`AsTableLike::as_table_like_mut`](crate::AsTableLike::as_table_like_mut). Its calls
/// are those of [`AnyTable`](crate::AnyTable), which has to be imported. It is no
/// [`TableLike`](crate::TableLike): [`slot_at`](crate::AnyTable::slot_at) returns its slots.
///
/// # Examples
///
/// ```rust,ignore
/// match item.as_table_like_mut() {
///     Some(mut table) => table.remove(key),
///     None => None,
/// }
/// ```
///
/// From `remove_from` of the crate `example_calls`.
#[derive(Drop)]
pub struct TableRefMut<'a> {
    pub(crate) item: &'a mut Item,
    ghost is_table: { is_some (entries_in item.now) ≡ true },
}
