//! The statements of a text, a batch of them after another.
ghost use Rattle.std.specs.Prelude.{◌≡◌, ◌⊎◌, ◌-◌, ◌++◌, List, length, map, IfOk, IfErr, IsOk, IsErrOf, OnOk};
ghost use Rattle.toml_edit_model.specs.Accepted.{AcceptedIn};
ghost use Rattle.toml_edit_model.specs.Syntax.{AreStatements, Document, IsCut, Statement, statement_text};
ghost use Rattle.toml_edit_model.specs.Text.{Text, joined};
ghost use Rattle.toml_edit_model.specs.Trivia.{IsFinalTrivia};
ghost use Rattle.toml_edit_laws.specs.Versions.{IsRefusedIn};
ghost use Rattle.toml_edit_error.specs.Fault.{IfToml};
ghost use Rattle.toml_edit_error.specs.Report.{fault_of};
ghost use Rattle.toml_edit_syntax.specs.Batches.{IsAfter, IsBatch, IsReached};
ghost use Rattle.toml_edit_syntax.specs.Faults.{FaultIsIn};
ghost use Rattle.toml_edit_syntax.specs.Grammar.{grammar};
ghost use Rattle.toml_edit_parser.specs.Listed.{IsErrorIn};
ghost use Rattle.toml_edit_parser.specs.ValueRead.{AreIn};
ghost use Rattle.toml_edit_parser.specs.DocumentRead.{IsRefusalIn};

use crate::fault::refusal_with;
use crate::reader::Reader;
use toml_edit_error::ParseFault;
use toml_edit_syntax::{Batch, BatchEnd, Event, SyntaxFault, check_rest, read_batch};

/// The most events whose room is kept for others. Only a batch with a statement that has very many
/// has more.
const MANY: usize = 16_384;

/// Returns the error of a text that the lexer stops at for this.
fn syntax_refusal(reader: &Reader<'_>, fault: SyntaxFault) -> ParseFault
    requires { FaultIsIn reader.now.source.now fault }
    ensures memory { fault ≡ SyntaxFault.Memory → result ≡ ParseFault.Memory }
    ensures refused { ((d : Document) → IsCut d reader.now.source.now → fault ≡ SyntaxFault.Memory)
        → IfToml result (IsRefusalIn (grammar reader.now.version) reader.now.source.now) }
{
    match fault {
        SyntaxFault::Memory => ParseFault::Memory,
        SyntaxFault::Text(mistake, span) => refusal_with(reader, mistake.message(), span),
    }
}

/// Reads the next batch of the statements that are left of the text. Its events take the place of
/// those that were there.
pub(crate) fn next_batch<'s>(
    reader: &Reader<'s>,
    events: &mut Vec<Event>,
    rest: &'s str,
) -> Result<Batch<'s>, ParseFault>
    requires { IsReached reader.now.source.now rest.now }
    ensures batch { (ss : List Statement) (final : Text) → AreStatements final ss
        → IsFinalTrivia final → rest.now ≡ joined (map statement_text ss) ++ final
        → IfOk result (λ b. IsBatch (length reader.now.source.now)
        (length reader.now.source.now - length rest.now) ss final events.new.items b.end
        b.rest.now) }
    ensures after { IfOk result (λ b. IsAfter reader.now.source.now rest.now b.rest.now b.end) }
    ensures spans { OnOk result (AreIn reader.now.source.now events.new.items) }
    // A text of the grammar is read, unless out of memory.
    ensures every { (d : Document) → IsCut d reader.now.source.now
        → IsOk result ⊎ IsErrOf result ParseFault.Memory }
    ensures refused { IfErr result
        (λ e. IfToml e (IsRefusalIn (grammar reader.now.version) reader.now.source.now)) }
{
    if events.len() > MANY {
        *events = Vec::new(reader.alloc);
    } else {
        events.clear();
    }
    match read_batch(events, reader.source, rest) {
        Ok(batch) => {
            if events.len() > MANY {
                // The tree is made beside them, so they take no more room than they need.
                events.shrink_to_fit();
            }
            Ok(batch)
        }
        Err(fault) => Err(syntax_refusal(reader, fault)),
    }
}

/// Returns the error of a text that has this fault in a statement of this batch: a text outside the
/// grammar is refused for that, wherever it is.
pub(crate) fn refused_in(reader: &Reader<'_>, batch: Batch<'_>, fault: ParseFault) -> ParseFault
    requires after { (before : Text) × IsAfter reader.now.source.now before batch.rest.now batch.end }
    requires error { IfToml fault
        (IsErrorIn (grammar reader.now.version) reader.now.source.now) }
    requires names { (d : Document) → IsCut d reader.now.source.now
        → IfToml fault (λ r. IsRefusedIn (grammar reader.now.version) d (fault_of r)) }
    ensures every { (d : Document)
        → AcceptedIn (grammar reader.now.version) reader.now.source.now d
        → result ≡ ParseFault.Memory }
    ensures refused { IfToml result
        (IsRefusalIn (grammar reader.now.version) reader.now.source.now) }
{
    match batch.end {
        BatchEnd::MoreStatements => match check_rest(reader.alloc, reader.source, batch.rest) {
            Ok(()) => fault,
            Err(stop) => syntax_refusal(reader, stop),
        },
        BatchEnd::WholeText | BatchEnd::TooManyBrackets => fault,
    }
}

/// Returns the text after a batch, if there are more statements.
pub(crate) fn text_ahead<'s>(batch: Batch<'s>) -> &'s str {
    match batch.end {
        BatchEnd::MoreStatements => batch.rest,
        BatchEnd::WholeText | BatchEnd::TooManyBrackets => "",
    }
}
