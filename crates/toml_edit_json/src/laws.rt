//! What holds of each JSON text, as a function that does nothing and has the law as its contract.
ghost use Rattle.toml_edit_json.specs.Values.{IsReadAsJson};
ghost use Rattle.toml_edit_model.specs.Tree.{Node};

/// The JSON text of an item is read back as its value: the grammar is that of the crate `json`.
pub fn json_is_read()
    ensures { (n : Node) → IsReadAsJson n }
{}
