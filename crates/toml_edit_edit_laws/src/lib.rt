//! Laws about renaming a key, inserting and moving one, and changing comments, over the definitions
//! alone: `specs/` has words for what they change in a tree, and `proofs/` the lemmas.
#![tactic(auto)]

ghost use Rattle.toml_edit_model.specs.Mode.{Mode};
ghost use Rattle.toml_edit_edit_laws.specs.CallsFit.{RemoveFits, SetAddsAfterLinesFits, SetAddsUnderFits, SetReplacesFits};
ghost use Rattle.toml_edit_edit_laws.specs.CommandLaws.{DecimalsName, GetAfterSet, OneTextNames, PathsHaveWays, ReadHasNoPlaceholders, RemoveChanges, RemoveDrops, RemoveElementDrops, RemoveFinds, RemoveKeepsItems, RemoveKeepsTheRest, RemoveReadsBack, RemoveRefuses, RemovedWasThere, SetAdds, SetChanges, SetKeepsItems, SetKeepsTheRest, SetReadsBack, SetRefuses, SetSteps, WaysHavePaths};
ghost use Rattle.toml_edit_edit_laws.specs.Comments.{AfterLine, BeforeLine, HeaderRecommented, HeaderRecommentedMeans, HeaderRecommentedStaysMade, HiddenRecommented, KeepsHeader, LineRecommented, RecommentedMeans, RecommentedStaysMade, RootRecommented};
ghost use Rattle.toml_edit_edit_laws.specs.DottedAdds.{AddedAfterLines};
ghost use Rattle.toml_edit_edit_laws.specs.Fitting.{ScalarsFitAnywhere, StillFits, StillFitsAfterAll, StillFitsAfterLines};
ghost use Rattle.toml_edit_edit_laws.specs.FittingInside.{HeldValuesFit, RemoveInsideFits, SetInsideFits};
ghost use Rattle.toml_edit_edit_laws.specs.HeaderAdds.{SetAddsTable};
ghost use Rattle.toml_edit_edit_laws.specs.Means.{AbsentMeans, AddMeans, HolderIsMeant, ItemAfterSet, MoveMeans, NamedPath, PrintedIsMeant, RemoveElementMeans, RemoveKeepsRest, RemoveLastMeans, RemoveMeans, RenameMeans, ReorderMeans, SetMeans, SortMeans, SortedReorders, ValueIsMeant, WellMadeAfterSet};
ghost use Rattle.toml_edit_edit_laws.specs.PathEdits.{MoveEdits, OneCallMore, RemoveEdits, RenameEdits, RootIsNamed, SetAddsAfterLines, SetAddsUnder, SetReplaces, TablesAreNamed};
ghost use Rattle.toml_edit_edit_laws.specs.Placing.{AbsentStays, InsertedAt, InsertedMeans, InsertedStands, InsertedStaysMade, MovedInside, MovedLine, MovedMeans, MovedOthers, MovedStands, MovedStaysMade, PlacedStays};
ghost use Rattle.toml_edit_edit_laws.specs.Renaming.{Renamed, RenamedLine, RenamedMeans, RenamedOthers, RenamedStaysMade, RenameRefused};
ghost use Rattle.toml_edit_edit_laws.specs.Staying.{AfterLinesStays, CommentStays, EditStays, InsertionStays, MoveStays, NothingChanges, OneAfterAnother, RenamingStays};

/// A key of a steady tree gets another name. The tree is steady again.
pub fn renamed()
    // A key with a value gets a name that is free in its table.
    ensures value { (mode : Mode) → Renamed mode }
    // One statement changes: its line has the new name in default spelling, and keeps all else.
    ensures line { (mode : Mode) → RenamedLine mode }
    // Whatever the item is, the statements outside of the old path are those outside of the new
    // path, in their order.
    ensures others { (mode : Mode) → RenamedOthers mode }
    // The meaning is the old one with the new name.
    ensures meaning { RenamedMeans }
    // The tree stays well made.
    ensures made { RenamedStaysMade }
    // Where no slot has the old name, or another one has the new name, nothing changes.
    ensures refused { RenameRefused }
{}

/// The comments of a steady tree are changed, and so the decors that they are in. The tree is steady
/// again.
pub fn commented()
    // The meaning stays, whatever the item is.
    ensures meaning { RecommentedMeans }
    // The tree stays well made.
    ensures made { RecommentedStaysMade }
    // The decors of a key and its value change. One statement changes.
    ensures line { (mode : Mode) → LineRecommented mode }
    // Its line changes by what is before it.
    ensures before { (mode : Mode) → BeforeLine mode }
    // Its line changes by what is after the value.
    ensures after { (mode : Mode) → AfterLine mode }
    // The meaning stays when the decor of a header changes.
    ensures header_meaning { HeaderRecommentedMeans }
    // The tree stays well made.
    ensures header_made { HeaderRecommentedStaysMade }
    // A printed header gets another decor, whose prefix is a text. One statement changes.
    ensures header { (mode : Mode) → HeaderRecommented mode }
    // That statement changes by what is before and after the header.
    ensures header_frame { (mode : Mode) → KeepsHeader mode }
    // Of a table whose header is not printed the printed statements stay.
    ensures hidden { (mode : Mode) → HiddenRecommented mode }
    // The printed statements stay when the decor of the root changes.
    ensures root { (mode : Mode) → RootRecommented mode }
{}

/// A value is inserted at a place of a table of a steady tree. The tree is steady again.
pub fn inserted()
    // A value is inserted at an index under a new key, where `added` applies. One statement more is
    // printed, between those of the slots before that index and those of the others.
    ensures change { (mode : Mode) → InsertedAt mode }
    // The meaning is the old one, and the facts of the value at its path.
    ensures means { (mode : Mode) → InsertedMeans mode }
    // The tree stays well made.
    ensures made { InsertedStaysMade }
    // The slot is at its index.
    ensures stands { InsertedStands }
{}

/// A slot of a table of a steady tree is moved to a place among the others. The tree is steady again.
pub fn moved()
    // Whatever the item is, the statements outside of its path are the same, in the same order.
    ensures others { (mode : Mode) → MovedOthers mode }
    // The statements at or below its path are the same, too.
    ensures inside { (mode : Mode) → MovedInside mode }
    // A slot with a value moves to an index, in the root or in a table whose header is printed. Its
    // statement is the same, and is printed there.
    ensures line { (mode : Mode) → MovedLine mode }
    // The meaning stays.
    ensures means { MovedMeans }
    // The tree stays well made.
    ensures made { MovedStaysMade }
    // The slot is at its index.
    ensures stands { MovedStands }
    // Nothing changes if there is no such slot.
    ensures absent { AbsentStays }
    // Nothing changes if the slot is there already.
    ensures placed { PlacedStays }
{}

/// Says which edit of a steady tree a call by a path is. All statements at other paths stay.
pub fn path_edits()
    // A `set_at` at a value, or inside one, replaces it.
    ensures replaces { (mode : Mode) → SetReplaces mode }
    // At a new key of the root, or of a table with a printed header, it adds a value.
    ensures adds { (mode : Mode) → SetAddsUnder mode }
    // At a new key of a table that has lines, it adds one statement after them.
    ensures adds_after_lines { (mode : Mode) → SetAddsAfterLines mode }
    // Where keys are missing, `set_at_with_headers` adds a header and the line of the value.
    ensures adds_table { (mode : Mode) → SetAddsTable mode }
    // A `remove_at` removes what is there.
    ensures removes { (mode : Mode) → RemoveEdits mode }
    // A `rename_at` renames a slot of a table, or changes a value.
    ensures renames { (mode : Mode) → RenameEdits mode }
    // A `move_at` moves a slot of a table, or changes a value.
    ensures moves { (mode : Mode) → MoveEdits mode }
    // A call after others is one more of them.
    ensures more { OneCallMore }
    // The empty path names the root.
    ensures root { RootIsNamed }
    // The path of a table that a table holds is longer by its key.
    ensures named { TablesAreNamed }
{}

/// A value is added under a new key of a steady tree, in a table that has lines, such as a dotted
/// one: one statement more is printed, after those lines.
pub fn added_after_lines()
    ensures change { (mode : Mode) → AddedAfterLines mode }
{}

/// The statements of a steady tree that are at none of the paths of some calls, nor below one, stay
/// as they were, in the same order. This holds of each call by itself, and of calls after calls.
pub fn others_stay()
    ensures none { (mode : Mode) → NothingChanges mode }
    ensures both { (mode : Mode) → OneAfterAnother mode }
    ensures edit { (mode : Mode) → EditStays mode }
    ensures after_lines { (mode : Mode) → AfterLinesStays mode }
    ensures renaming { (mode : Mode) → RenamingStays mode }
    ensures insertion { (mode : Mode) → InsertionStays mode }
    ensures moving { (mode : Mode) → MoveStays mode }
    ensures comment { (mode : Mode) → CommentStays mode }
{}

/// Says of which edits a steady tree that fits still fits, so that its print reads back untested: any
/// removal, and a value that is replaced or added. That value fits anywhere, as a scalar does, and
/// there is white space around it and its key, or what was there before.
pub fn still_fits()
    ensures edit { (mode : Mode) → StillFits mode }
    ensures edits { (mode : Mode) → StillFitsAfterAll mode }
    ensures after_lines { (mode : Mode) → StillFitsAfterLines mode }
    ensures scalars { (mode : Mode) → ScalarsFitAnywhere mode }
{}

/// Says of which calls by paths a steady tree that fits still fits, so that its print reads back
/// untested: any `remove_at`, a `set_at` of a scalar at a value or inside one, and a `set_at` at a
/// new key of a value that fits anywhere, with white space around it. A value in a table of such a
/// tree fits anywhere, and still does when a scalar is set inside it, or something is removed there.
pub fn calls_still_fit()
    ensures held { (mode : Mode) → HeldValuesFit mode }
    ensures set_inside { (mode : Mode) → SetInsideFits mode }
    ensures remove_inside { (mode : Mode) → RemoveInsideFits mode }
    ensures replaces { (mode : Mode) → SetReplacesFits mode }
    ensures adds { (mode : Mode) → SetAddsUnderFits mode }
    ensures adds_after_lines { (mode : Mode) → SetAddsAfterLinesFits mode }
    ensures removes { (mode : Mode) → RemoveFits mode }
{}

/// `set` at a path of the tree of what was read changes the statement of the value there, in its
/// frame, or adds one for a new key in the root or in a table that has a header. All but the item
/// at the path stays, and the print reads back where the tree fits.
pub fn command_sets()
    ensures change { (mode : Mode) → SetChanges mode }
    ensures new_key { (mode : Mode) → SetAdds mode }
    ensures rest { SetKeepsTheRest }
    ensures items { SetKeepsItems }
    ensures back { (mode : Mode) → SetReadsBack mode }
    ensures steps { SetSteps }
    ensures found { GetAfterSet }
    ensures refuses { SetRefuses }
{}

/// `remove` at a path of the tree of what was read leaves out the statements of the slot or element
/// there, and of all below it, or changes that of the value that holds it. All else stays, and the
/// print reads back where the tree fits.
pub fn command_removes()
    ensures slot { (mode : Mode) → RemoveDrops mode }
    ensures element { (mode : Mode) → RemoveElementDrops mode }
    ensures inside { (mode : Mode) → RemoveChanges mode }
    ensures rest { RemoveKeepsTheRest }
    ensures items { RemoveKeepsItems }
    ensures back { (mode : Mode) → RemoveReadsBack mode }
    ensures finds { RemoveFinds }
    ensures was_there { RemovedWasThere }
    ensures refuses { RemoveRefuses }
{}

/// A number is named by its decimal alone, and each way from the root is gone by a path. In what
/// was read, each path to a table goes a way, and no slot is a placeholder.
pub fn command_paths()
    ensures one_text { OneTextNames }
    ensures decimals { DecimalsName }
    ensures ways { WaysHavePaths }
    ensures tables { (mode : Mode) → PathsHaveWays mode }
    ensures filled { (mode : Mode) → ReadHasNoPlaceholders mode }
{}

/// Says what calls by paths leave to be found, and what they change in the meaning of a tree.
pub fn path_means()
    // After a `set_at`, the value is at its path, and has the decor of what was there.
    ensures found { ItemAfterSet }
    // The tree stays well made.
    ensures made { WellMadeAfterSet }

    // After a `set_at`, the facts of the value are all that is at its path or below it.
    ensures sets { SetMeans }
    // Those of a new key are added.
    ensures adds { AddMeans }
    // A `rename_at` changes the name in each fact that is at the path or below it.
    ensures renames { RenameMeans }
    // The meaning stays after a `move_at`.
    ensures moves { MoveMeans }
    // After a `remove_at` of a slot, all facts at its path or below it are gone, and no others but
    // those of tables above it that nothing is left in.
    ensures removes { RemoveMeans }
    // No others are gone where what held it is still shown.
    ensures removes_only { RemoveKeepsRest }
    // After that of an element, the facts of the array are those of what is left.
    ensures removes_element { RemoveElementMeans }
    // After that of the last element of an array of tables, they are gone.
    ensures removes_last { RemoveLastMeans }
    // The meaning stays where slots are in another order.
    ensures reorders { ReorderMeans }
    // So it does after a sort.
    ensures sorts { SortMeans }
    // The sort by names leaves the slots that there were.
    ensures sorted { SortedReorders }

    // A table that the walk enters has its facts at its own path.
    ensures named { NamedPath }
    // It is shown if its header is printed, or a line of it.
    ensures printed { PrintedIsMeant }
    // So are values, also inside values.
    ensures values { ValueIsMeant }
    // So is what holds what is shown.
    ensures holders { HolderIsMeant }
    // Where a path leads to nothing, there are no facts.
    ensures absent { AbsentMeans }
{}
