//! Laws about formatted documents, over the definitions alone: `specs/` has words for what a
//! formatter does to a document, and `proofs/` the lemmas.
#![tactic(auto)]

ghost use Rattle.toml_edit_fmt_laws.specs.Places.{FormattedKeepsPlaces, PlacedTextsAreAll, StaysOnOneLine};
ghost use Rattle.toml_edit_fmt_laws.specs.Promises.{AcceptedAlike, FormattedAgain, FormattedTextAgain, FormattedTreeAgain, KeepsRemarks, LaidAgain, MeansTheSame, OffChangesNothing, PlacesAreLaid, StaysDocument, StaysSettled};
ghost use Rattle.toml_edit_fmt_laws.specs.SortedPromises.{FormattedStaysSorted, SortedAcceptedAlike, SortedAgain, SortedFormattedAgain, SortedKeepsComments, SortedKeepsStatements, SortedMeansTheSame, SortedStaysDocument, SortsByRuns};

/// A formatted document means what the document means, and is accepted where that is. It has the
/// same comments in the same order, each with what it belongs to and on its side of it. Formatted
/// again it stays, and without any rule nothing changes.
pub fn formatted()
    ensures grammar { StaysDocument }
    ensures accepted { AcceptedAlike }
    ensures means { MeansTheSame }
    ensures comments { KeepsRemarks }
    ensures twice { LaidAgain }
    ensures again { FormattedAgain }
    ensures off { OffChangesNothing }
{}

/// What is laid out at a place is trivia with the same comments, and laid out again it stays.
pub fn layouts()
    ensures { PlacesAreLaid }
{}

/// Values of a formatted document are spelled as they were, whatever the rules, and at places that no
/// rule asked for is about its text stays. Without a rule for empty lines, no line before a statement
/// or at the end comes or goes. Without indentation, each that is not empty keeps its white space.
/// With no greatest width, a value on one line stays on one line. Such places make up the whole text.
pub fn formatted_places()
    ensures whole { PlacedTextsAreAll }
    ensures kept { FormattedKeepsPlaces }
    ensures one_line { StaysOnOneLine }
{}

/// What is formatted of an accepted text is accepted, means the same, and what is read from it is
/// formatted as that text, byte for byte. A settled document stays settled, and the tree of a
/// formatted text prints that text, if statements that stay for a comment have their keys as others.
pub fn formatted_texts()
    ensures again { FormattedTextAgain }
    ensures settled { StaysSettled }
    ensures trees { FormattedTreeAgain }
{}

/// A document sorted by groups means what the document means, and is accepted where that is. It has
/// the same statements, those of each group in order, each with the comments above it, but that the
/// head of a group stays at its head. Sorted again it stays, also where it is formatted first.
pub fn sorted_by_groups()
    ensures grammar { SortedStaysDocument }
    ensures accepted { SortedAcceptedAlike }
    ensures means { SortedMeansTheSame }
    ensures runs { SortsByRuns }
    ensures statements { SortedKeepsStatements }
    ensures comments { SortedKeepsComments }
    ensures again { SortedAgain }
    ensures formatted { FormattedStaysSorted }
    ensures twice { SortedFormattedAgain }
{}
