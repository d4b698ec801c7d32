//! The laws of prints, normal forms, orders, ranges and edits, for proofs.
//!
//! Each function takes nothing and does nothing: its contract is the law, over the definitions
//! alone. docs/LAWS.md says in words what each one states.

ghost use Rattle.toml_edit_model.specs.Mode.{Mode};
ghost use Rattle.toml_edit.specs.Edited.{EditedPrints};
ghost use Rattle.toml_edit.specs.LinesReparse.{ArraysAreParsed, InsertedIsOwnParse, ParsedAnywhere, ParsedAsOne, RemovedIsOwnParse};

pub use toml_edit_edit_laws::{
    added_after_lines, calls_still_fit, command_paths, command_removes, command_sets, commented,
    inserted, moved, others_stay, path_edits, path_means, renamed, still_fits,
};
pub use toml_edit_fits::broken;
pub use toml_edit_laws::{
    added, agree, cut, edits, in_order, late_places, normal, offsets, removed, reparse, replaced,
    steady, versions_accept, ways,
};

/// The print of a document that calls by paths have edited, and that fits, is accepted and means what
/// its tree shows. After harmless calls it does fit, so there is nothing to check before it is
/// printed.
pub fn edited_prints()
    ensures { EditedPrints }
{}

/// Inserting or removing a line of an array leaves what parsing the print gives, but for spans: the
/// same comma, the same text before the bracket, and value by value the same text around it. What
/// follows the last value is in its place before, or the call puts it there.
pub fn lines_reparse()
    ensures values { (mode : Mode) → ParsedAsOne mode }
    ensures places { (mode : Mode) → ParsedAnywhere mode }
    ensures arrays { (mode : Mode) → ArraysAreParsed mode }
    ensures inserted { (mode : Mode) → InsertedIsOwnParse mode }
    ensures removed { (mode : Mode) → RemovedIsOwnParse mode }
{}
