//! Texts, laid out statement by statement.
ghost use Rattle.std.specs.Prelude.{◌≡◌, ◌<◌, ◌≤◌, ◌^◌, ◌++◌, IfErr, IfOk, string_bytes};
ghost use Rattle.toml_edit_model.specs.OwnedForm.{cut_out};
ghost use Rattle.toml_edit_model.specs.Syntax.{Document, IsCut, mark_text};
ghost use Rattle.toml_edit_syntax.specs.Events.{IsSpanOf};
ghost use Rattle.toml_edit_fmt.specs.RulesView.{rules_of};
ghost use Rattle.toml_edit_fmt.specs.TextView.{IsFormatted, IsRefused};

use crate::fault::FormatFault;
use crate::lines::put_final;
use crate::page::Page;
use crate::rules::Rules;
use crate::state::State;
use crate::statement::put_statement;
use crate::statements::{Statements, go_over, newline_after};
use std::alloc::Global;
use toml_edit_fmt_laws::layouts;
use toml_edit_repr::Mem;
use toml_edit_syntax::{Event, statements_of};

/// Returns the text, formatted by the rules.
///
/// It means the same, and has the same comments in the same order, each with what it belongs to.
/// Formatted again it stays. Keys and values are spelled as they were, and the text stays at places
/// that no rule asked for is about. Keys are not compared: a text that is refused for two equal ones
/// is formatted as others are.
///
/// # Errors
///
/// Fails with `FormatFault::Text` if the text is outside the grammar or is nested too deep, and with
/// `FormatFault::Memory` if out of memory.
pub fn format_text(alloc: Global, text: &str, rules: &Rules) -> Result<String, FormatFault>
    ensures formatted { IfOk result
        (λ s. IsFormatted (rules_of rules.now) text.now (string_bytes s)) }
    ensures cut { IfOk result (λ _. (d : Document) × IsCut d text.now) }
    ensures refused { IfErr result (IsRefused text.now) }
{
    layouts();
    let mut layout = Layout {
        page: Page::new(alloc, text, rules),
        state: State::new(),
    };
    go_over(alloc, text, &mut layout)?;
    let Layout { page, .. } = layout;
    let formatted = page.finish()?;
    with_mark(alloc, text, formatted)
}

/// Returns the formatted text after the byte order mark of the source, if it has one.
fn with_mark(alloc: Global, text: &str, formatted: String) -> Result<String, FormatFault>
    ensures marked { (d : Document) → IsCut d text.now
        → IfOk result (λ s. string_bytes s ≡ mark_text d.has_mark ++ string_bytes formatted) }
    ensures memory { IfErr result (λ e. e ≡ FormatFault.Memory) }
{
    if statements_of(text).len() == text.len() {
        return Ok(formatted);
    }
    let mut all = String::from_str(alloc, "\u{FEFF}")?;
    all.push_str(formatted.as_str())?;
    Ok(all)
}

/// The statements that are laid out, and what is known after them.
#[derive(Drop)]
struct Layout<'a> {
    page: Page<'a>,
    state: State,
    ghost few_keys: { state.keys < 2 ^ 63 },
}

impl<'a> Statements for Layout<'a> {
    ghost use Rattle.toml_edit_fmt.specs.LayoutView.{LaysEvents, LaysLast};

    ghost source = { λ layout. layout.page.source.now };

    ghost takes = { LaysEvents };

    ghost takes_last = { LaysLast };

    fn take(&mut self, statement: &[Event]) -> Mem<()> {
        let [leading, .., end] = statement else {
            return Ok(());
        };
        let (source, rules) = (self.page.source, self.page.rules);
        self.state.reach(&rules, self.page.text_of(leading));
        if self.state.stays() {
            self.page.put(text_between(source, leading, end))?;
        } else {
            put_statement(&mut self.page, self.state, statement)?;
        }
        self.state.pass(statement);
        self.page.put(newline_after(source, end))
    }

    fn take_last(&mut self, last: &Event) -> Mem<()> {
        let (rules, text) = (self.page.rules, self.page.text_of(last));
        self.state.reach(&rules, text);
        if self.state.stays() {
            return self.page.put(text);
        }
        put_final(&mut self.page, self.state.is_start, text)
    }
}

/// Returns the text from the start of an event up to the end of another, or nothing if that is before.
fn text_between<'a>(source: &'a str, first: &Event, last: &Event) -> &'a str
    requires first { IsSpanOf source.now first.now.span }
    requires last { IsSpanOf source.now last.now.span }
    ensures { first.now.span.start ≤ last.now.span.end
        → result.now ≡ cut_out source.now first.now.span.start last.now.span.end }
{
    if last.span.end < first.span.start {
        return "";
    }
    &source[first.span.start..last.span.end]
}
