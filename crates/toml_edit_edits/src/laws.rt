//! Laws of what edits leave.
ghost use Rattle.toml_edit_model.specs.Mode.{Mode};
ghost use Rattle.toml_edit_edits.specs.LinesStay.{InsertedLines, RemovedLines};
ghost use Rattle.toml_edit_edits.specs.Means.{MadeMeans};
ghost use Rattle.toml_edit_edits.specs.OthersStay.{AppliedStay, ElementAddsTable, FirstAddsTable, HeaderAddsTable, SectionAddsHeader};

/// Where the values of an array have lines of their own, the print of the array after a value is
/// inserted with its line, by [`Edit::Append`](crate::Edit::Append) or
/// [`Edit::Insert`](crate::Edit::Insert), is the one before, byte for byte, with lines more in one
/// place. After a value is removed with its line it is the one before, with lines less.
pub fn lines_stay()
    ensures inserted { (mode : Mode) → InsertedLines mode }
    ensures removed { (mode : Mode) → RemovedLines mode }
{}

/// Edits that are made in a steady tree, one after another, leave all statements as they were, byte
/// for byte and in their order, but those at the places of the edits, and below them. The tree is
/// steady again, and after harmless edits one that fitted fits. After sorts of tables it prints the
/// same statements, in another order.
///
/// A value is put where one is, in one, or under a new key of the root, of a table with a printed
/// header or of one that has lines. A key is moved below its own table, or with a value to such a
/// place. An empty table with a header is added under a new key of any table, or below one.
pub fn others_stay()
    ensures edits { (mode : Mode) → AppliedStay mode }
{}

/// What an edit that is made changes in the meaning of a well-made tree. A sort and a comment leave it.
/// A renaming gives the new name to the facts at its path and below it. Where a value is set, the facts
/// there are those of the value; where an array gets a value or loses one, those of what it is then;
/// and where something is removed, they are gone. An empty table with a header adds its fact, and those
/// of the tables down to it. All others stay. Of a table that is made for a value or for an array of
/// tables, and of what is moved to another table or among elements, nothing is known.
pub fn edit_means()
    ensures means { MadeMeans }
{}

/// An [`Edit::Header`](crate::Edit::Header) of which tables are missing leaves all statements of a
/// steady tree as they were, and adds one table: its header and the line of the value.
pub fn header_adds()
    ensures table { (mode : Mode) → HeaderAddsTable mode }
{}

/// An [`Edit::Append`](crate::Edit::Append) to an array of tables, and an
/// [`Edit::Table`](crate::Edit::Table), leave all statements of a steady tree as they were, and add
/// one table: its header and the lines of the pairs.
pub fn element_adds()
    ensures last { (mode : Mode) → ElementAddsTable mode }
    ensures first { (mode : Mode) → FirstAddsTable mode }
{}

/// An [`Edit::Section`](crate::Edit::Section) leaves all statements of a steady tree as they were,
/// and adds one after them, if a position is left there: the header of the new table. The tree is
/// steady again.
pub fn section_adds()
    ensures header { (mode : Mode) → SectionAddsHeader mode }
{}
