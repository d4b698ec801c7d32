//! Access to the items of the root by their keys.
ghost use Rattle.std.specs.Prelude.{◌≡◌, IfErr, IfOk, IsOk, IsSome, Some};
ghost use Rattle.std.specs.Borrow.{sem};
ghost use Rattle.toml_edit_model.specs.Indexing.{item_under};
ghost use Rattle.toml_edit_model.specs.Lists.{slot_list};
ghost use Rattle.toml_edit_model.specs.TableCalls.{get};
ghost use Rattle.toml_edit_tree.specs.Indexed.{lent_under};
ghost use Rattle.toml_edit_tree.specs.View.{item_view};
ghost use Rattle.toml_edit_tree.specs.declared.index.IndexFault.TheVariants.{Memory};
ghost use Rattle.toml_edit.specs.DocumentLending.{LendsUnder};
ghost use Rattle.toml_edit.specs.DocumentView.{tree_owned};
ghost use Rattle.toml_edit_edit_laws.specs.Commands.{root_item};

use super::DocumentMut;
use std::alloc::Global;
use std::ops;
use toml_edit_tree::{IndexFault, Item};

impl DocumentMut {
    /// Returns a mutable reference to the item under `key` in the root, after adding a placeholder
    /// at the end if the key is missing.
    ///
    /// A new key has the default spelling. The placeholder isn't printed until something else is
    /// written. The root grows by its own allocator, and `alloc` is there to match
    /// [`Item::index_or_insert`]. To look up without inserting, use [`get_mut`](Table::get_mut) of
    /// [`as_table_mut`](Self::as_table_mut).
    ///
    /// # Errors
    ///
    /// Returns [`IndexFault::Memory`] if out of memory, at a new key alone, and no other fault.
    pub fn index_or_insert(&mut self, alloc: Global, key: &str) -> Result<&mut Item, IndexFault>
        ensures* writes_back { sem 𝓛 (LendsUnder self.entry key.now result) }
        ensures item { IfOk result
            (λ lent. lent_under key.now (root_item (tree_owned self.old))
            ≡ Some (item_view lent.now)) }
        ensures present { IsSome (item_under key.now (root_item (tree_owned self.old)))
            → IsOk result }
        ensures fault { IfErr result (λ fault. fault ≡ Memory) }
    {
        self.as_table_mut().index_or_insert(alloc, key)
    }
}

/// Returns the item under the key in the root. A contract requires that there is one which is no
/// placeholder.
impl ops::Index<&str> for DocumentMut {
    type Output = Item;

    ghost can_index = { λ document key. IsSome
        (get key.now (slot_list (tree_owned document).slots)) };

    ghost index_gives = { λ document key found. get key.now (slot_list (tree_owned document).slots)
        ≡ Some (item_view found) };

    fn index(&self, key: &str) -> &Item {
        let root = self.as_table();
        &root[key]
    }
}
