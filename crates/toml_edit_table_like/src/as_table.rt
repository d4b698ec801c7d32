//! `AsTableLike`: an item as a table of either kind.
ghost use Rattle.std.specs.Borrow.{sem};
ghost use Rattle.std.specs.Prelude.{◌≡◌, IfSome, option_map};
ghost use Rattle.toml_edit_model.specs.Lists.{on_slots, slots_in};
ghost use Rattle.toml_edit_table_like.specs.MutRefs.{mut_beside, mut_item, mut_node, mut_slots, RestsIfOther};
ghost use Rattle.toml_edit_table_like.specs.Refs.{is_table_like, ref_node, ref_slots, table_like_in};
ghost use Rattle.toml_edit_tree.specs.View.{item_view};

use crate::TableRef;
use crate::table_ref_mut::TableRefMut;
use toml_edit_tree::Item;

/// An item that may be a table of either kind: a [`Table`](toml_edit_tree::Table) or an
/// [`InlineTable`](toml_edit_tree::InlineTable).
///
/// It is implemented for [`Item`], whose calls these are once the trait is imported.
///
/// # Examples
///
/// ```rust,ignore
/// match dependency.as_table_like() {
///     Some(table) => table.get("version")?.as_str(),
///     None => dependency.as_str(),
/// }
/// ```
///
/// From `version_of` of the crate `example_calls`.
pub trait AsTableLike {
    ghost use Rattle.toml_edit_model.specs.Tree.{Node};
    ghost use Rattle.toml_edit_table_like.specs.declared.table_ref_mut.TableRefMut.{TableRefMut};

    /// The item, as contracts see it.
    ghost node: { Self → Node };

    /// Returns the table or the inline table to read, or `None` for any other item.
    fn as_table_like(&self) -> Option<TableRef<'_>>
        ensures table { option_map ref_node result ≡ table_like_in (node self.now) }
        ensures slots { option_map ref_slots result ≡ slots_in (node self.now) };

    /// Returns the table or the inline table to read and change, or `None` for any other item.
    ///
    /// Import [`AnyTable`](crate::AnyTable) for its calls.
    ///
    /// # Examples
    ///
    /// ```rust,ignore
    /// match item.as_table_like_mut() {
    ///     Some(mut table) => table.remove(key),
    ///     None => None,
    /// }
    /// ```
    ///
    /// From `remove_from` of the crate `example_calls`.
    fn as_table_like_mut(&mut self) -> Option<TableRefMut<'_>>
        ensures* other { sem 𝓛 (RestsIfOther Self.row self.entry result) }
        ensures same_item { IfSome result (λ t. (mut_item t).ghost_name ≡ self.entry.ghost_name) }
        ensures table { option_map mut_node result ≡ table_like_in (node self.old) }
        // The slots and what is beside them determine the item.
        ensures whole { (t : TableRefMut)
            → mut_node t ≡ on_slots (λ _. mut_slots t) (mut_beside t) };

    /// Returns `true` if the item is a table or an inline table.
    fn is_table_like(&self) -> bool
        ensures { result ≡ is_table_like (node self.now) }
    {
        self.as_table_like().is_some()
    }
}

impl AsTableLike for Item {
    ghost node = { item_view };

    fn as_table_like(&self) -> Option<TableRef<'_>> {
        match self.as_table() {
            Some(table) => Some(TableRef::Table(table)),
            None => match self.as_inline_table() {
                Some(table) => Some(TableRef::InlineTable(table)),
                None => None,
            },
        }
    }

    fn as_table_like_mut(&mut self) -> Option<TableRefMut<'_>> {
        if self.is_table_like() {
            Some(TableRefMut { item: self })
        } else {
            None
        }
    }
}
