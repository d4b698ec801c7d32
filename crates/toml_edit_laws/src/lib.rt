//! Laws about documents and default spellings, over the definitions alone: `specs/` has words for
//! their trees, and `proofs/` the lemmas.
#![tactic(auto)]

ghost use Rattle.toml_edit_model.specs.Mode.{Mode};
ghost use Rattle.toml_edit_laws.specs.AcceptedPrints.{PrintAgrees, PrintIsCut};
ghost use Rattle.toml_edit_laws.specs.Building.{Building, HasTree, Runs};
ghost use Rattle.toml_edit_laws.specs.DefaultSpellings.{DefaultSpellings};
ghost use Rattle.toml_edit_laws.specs.EditLists.{EditsStayLocal};
ghost use Rattle.toml_edit_laws.specs.Extents.{ExtentsLie};
ghost use Rattle.toml_edit_laws.specs.FaultMessages.{FaultMessages};
ghost use Rattle.toml_edit_laws.specs.InOrder.{HeadersInOrder, LinesInOrder, PairsInOrder};
ghost use Rattle.toml_edit_laws.specs.KeptKeys.{KeptKeys};
ghost use Rattle.toml_edit_laws.specs.Locality.{Added, AddedStaysMade, CallsOnAbsent, CallsOnPresent, Entered, IndexWrites, KeepsFrame, Reached, Removed, RemovedElement, RemovedElementStaysMade, RemovedStaysMade, Replaced, ReplacedStaysMade, SteadyInEachMode, TextsAreSteady};
ghost use Rattle.toml_edit_laws.specs.NormalTexts.{NormalTexts};
ghost use Rattle.toml_edit_laws.specs.Offsets.{ClocksAtEnds, OneOffset, RealDatetimes, RealOffsets};
ghost use Rattle.toml_edit_laws.specs.OneByOne.{FaultsOfFirst, FirstFaulty, OneByOne};
ghost use Rattle.toml_edit_laws.specs.OneCut.{OneCut};
ghost use Rattle.toml_edit_laws.specs.OpenEnds.{OpenEnds, OpenPrints};
ghost use Rattle.toml_edit_laws.specs.PrintByVisits.{PrintByVisits};
ghost use Rattle.toml_edit_laws.specs.PrintOfRead.{PrintOfRead};
ghost use Rattle.toml_edit_laws.specs.ReadTrees.{OneTreeOf, OwnedTrees, SpansCutSpellings, TakenRootsMean, TreesMean, TreesOver};
ghost use Rattle.toml_edit_laws.specs.Reparse.{PrintsMeanWhatIsShown};
ghost use Rattle.toml_edit_laws.specs.TextsFit.{SpansFit, TextsFit};
ghost use Rattle.toml_edit_model.specs.Syntax.{Document};
ghost use Rattle.toml_edit_model.specs.Version.{Version};
ghost use Rattle.toml_edit_laws.specs.Versions.{FaultsInVersions, LateHavePlaces, LaterAccepts, NormalTextsStay, PrintsStay};

/// A default spelling is read back: it spells its scalar, in range, or its key.
pub fn default_spellings()
    ensures { DefaultSpellings }
{}

/// Building a document's tree statement by statement stops exactly at the first faulty statement,
/// and else gives the tree of the text.
pub fn tree_by_statements()
    ensures steps { (mode : Mode) → Building mode }
    ensures run { (mode : Mode) → Runs mode }
    ensures tree { (mode : Mode) → HasTree mode }
{}

/// A text is accepted where each of its statements is right after those before it. Else there is
/// one first faulty statement, which has faults, and these are the ones that are found one by one.
pub fn accepted_one_by_one()
    ensures steps { (version : Version) → OneByOne version }
    ensures first { (version : Version) (d : Document) → FirstFaulty version d }
    ensures faults { FaultsOfFirst }
{}

/// Each fault of a value has one of the messages of faults.
pub fn fault_messages()
    ensures { FaultMessages }
{}

/// Says that what is computed as being in order is in order.
pub fn in_order()
    // The tables in the order of headers are those of the walk, sorted by a stable sort.
    ensures headers { HeadersInOrder }
    // The lines of each block of an accepted document are put in the one order in which each goes
    // before all later ones, by rank where their paths part.
    ensures lines { LinesInOrder }
    // Likewise the pairs of an inline table, if they agree.
    ensures pairs { PairsInOrder }
{}

/// Says which texts spell which offset, and which are in range.
pub fn offsets()
    // The hours and minutes of an offset are those that are taken from the end of its text.
    ensures clock { ClocksAtEnds }
    // An offset is in range exactly if it is `Z` or `z`, or a sign with hours below 24 and minutes
    // below 60.
    ensures range { RealOffsets }
    // A date-time is in range exactly if its date, time and offset are.
    ensures date_times { RealDatetimes }
    // A text spells at most one offset.
    ensures one { OneOffset }
{}

/// The kept key of a normal text is the key of the tree's slot.
pub fn kept_keys()
    ensures { KeptKeys }
{}

/// Says that a print is in the grammar, and that a text is read in one way.
pub fn cut()
    // The statements that a tree prints, if it is well made and fits, are a cut of its print, each
    // within limits and ranges.
    ensures print { (mode : Mode) → PrintIsCut mode }
    // A text has at most one cut.
    ensures one { OneCut }
{}

/// Every two statements that a tree that fits prints agree, and every two pairs of each inline
/// table in them.
pub fn agree()
    ensures { (mode : Mode) → PrintAgrees mode }
{}

/// The print of a tree that fits means what the tree shows.
pub fn reparse()
    ensures { (mode : Mode) → PrintsMeanWhatIsShown mode }
{}

/// Says that ways lead to the tables of the walk, and to no others.
pub fn ways()
    // Each table on the walk of a well-made tree has a way to it.
    ensures reached { Reached }
    // Each way leads to a table on the walk.
    ensures entered { Entered }
{}

/// Says of which trees an edit stays local.
pub fn steady()
    // Each tree of a document with owned texts is steady.
    ensures texts { (mode : Mode) → TextsAreSteady mode }
    // A tree that is steady in one mode is so in the other.
    ensures modes { SteadyInEachMode }
{}

/// A value of a steady tree is replaced, in a table of the walk. The tree is steady again.
pub fn replaced()
    // A value under a key is replaced by one that is no dotted inline table, and its key perhaps
    // made anew with the same name. One statement changes, the line of that value: the only one at
    // or below its path.
    ensures change { (mode : Mode) → Replaced mode }
    // If the new value has the decor of the old one and the keys stay, only the value of that line
    // changes.
    ensures frame { (mode : Mode) → KeepsFrame mode }
    // Which calls of a table on a present key are such an edit.
    ensures calls { CallsOnPresent }
    // So is a write to what `index_or_insert` lends.
    ensures index { IndexWrites }
    // The tree stays well made.
    ensures made { ReplacedStaysMade }
{}

/// A value is added to a steady tree, under a new key. The tree is steady again.
pub fn added()
    // A value that is no dotted inline table is added under a new key, in the root or in a table
    // whose header is printed. One statement more is printed, after the others of that table.
    ensures change { (mode : Mode) → Added mode }
    // Which calls of a table on a missing key are such an edit.
    ensures calls { CallsOnAbsent }
    // The tree stays well made.
    ensures made { AddedStaysMade }
{}

/// Something is removed from a steady tree, in a table of the walk. The tree is steady again.
pub fn removed()
    // A slot is removed, whatever its item. The statements at or below its path go, each with the
    // trivia before it; all others stay, in their order.
    ensures slot { (mode : Mode) → Removed mode }
    // An element of an array of tables is removed, with the same result. Later elements get other
    // numbers.
    ensures element { (mode : Mode) → RemovedElement mode }
    // The tree stays well made.
    ensures slot_made { RemovedStaysMade }
    ensures element_made { RemovedElementStaysMade }
{}

/// A list of such edits of a steady tree, each of the tree that those before it leave: each changes,
/// adds or takes away what its law says. The statements that none of them names stay as they were,
/// in their order, and so does what is printed around all of them, with a closed end or an open one.
pub fn edits()
    ensures { (mode : Mode) → EditsStayLocal mode }
{}

/// Says what an unchanged document prints, and that printing again changes nothing. The cut of that
/// print is the normal form.
pub fn normal()
    // The normal text of an accepted text is accepted, means the same and is settled. That of a
    // settled text is the text itself.
    ensures texts { (mode : Mode) → NormalTexts mode }
    // The owned tree of an accepted document prints its normal text. In exact mode the end is open
    // if that of the document is.
    ensures print { (mode : Mode) → PrintOfRead mode }
{}

/// A document whose end is made open, where nothing follows its statements, is in the grammar, is
/// accepted where it was, and means the same. A print with an open end leaves out the last newline
/// of that without, and nothing else.
pub fn open_ends()
    ensures documents { OpenEnds }
    ensures prints { OpenPrints }
{}

/// Says how TOML 1.0 and 1.1 are related, and that what is written stays TOML 1.0.
pub fn versions_accept()
    // What a version accepts, TOML 1.1 accepts by the same cut.
    ensures later { LaterAccepts }
    // In each version the first faulty statement has a fault.
    ensures faults { FaultsInVersions }
    // The normal text of what a version accepts is accepted by it.
    ensures normal { (mode : Mode) → NormalTextsStay mode }
    // So is the print of its tree.
    ensures print { (mode : Mode) → PrintsStay mode }
{}

/// A statement has a place that needs TOML 1.1 exactly if the test says that it needs 1.1: the place
/// that `needs TOML 1.1` marks.
pub fn late_places()
    ensures { LateHavePlaces }
{}

/// Every tree of an accepted text, with owned texts, fits and is steady.
pub fn texts_fit()
    ensures { (mode : Mode) → TextsFit mode }
{}

/// Where the owned form of a tree with spans fits, the tree does, and also its root taken as it is,
/// with no trailing text, whatever the mode in which the text was read.
pub fn spans_fit()
    ensures { (mode : Mode) → SpansFit mode }
{}

/// A document has at most one tree in each form.
pub fn one_tree_of()
    ensures { OneTreeOf }
{}

/// The tree of a text with spans becomes that with owned texts, by what the spans cut from the
/// text.
pub fn owned_trees()
    ensures { (mode : Mode) → OwnedTrees mode }
{}

/// The spans of the tree of an accepted text lie in it, and what they cut is well made.
pub fn trees_over()
    ensures { (mode : Mode) → TreesOver mode }
{}

/// The extents of the containers in the tree of a document lie in its text.
pub fn extents_lie()
    ensures { (mode : Mode) → ExtentsLie mode }
{}

/// In the tree of an accepted text the span of each key and each scalar cuts its spelling.
pub fn spans_cut_spellings()
    ensures { (mode : Mode) → SpansCutSpellings mode }
{}

/// The tree of an accepted text shows what the text means.
pub fn trees_mean()
    ensures { TreesMean }
{}

/// So does a tree with the slots of such a tree, whatever its root's fields and its trailing text
/// are.
pub fn taken_roots_mean()
    ensures { TakenRootsMean }
{}

/// The print of a tree, as it is written: what stands around the root, its lines, and the headers
/// that one walk collects, in order of place.
pub fn written_print()
    ensures { (mode : Mode) → PrintByVisits mode }
{}
