//! The lines of a trail's head and its steps.
ghost use Rattle.std.specs.Prelude.{◌≡◌, ◌++◌, IfOk, OnOk, option_map, string_bytes};
ghost use Rattle.trail_words.specs.Lines as spec;

use crate::notes::{moment_in, result_in, taker_in, unspaced};
use crate::steps::TrailStep;
use crate::words::{digest_text, push_words};
use cosem_data::memory::Memory;
use shown_text::printable::push_printable;
use std::alloc::Global;
use trail_file::head::Head;

/// The line of a head.
pub(crate) fn head_line(alloc: Global, head: &Head) -> Result<String, Memory>
    ensures { IfOk result (λ line. string_bytes line ≡ spec.head_line head.now) }
{
    let version = head.version;
    let digest = digest_text(alloc, head)?;
    Ok(format!(in alloc; "# cosem-flow {version}, configuration {digest}\n")?)
}

/// The line of a step.
pub(crate) fn step_line(alloc: Global, step: &TrailStep<'_>) -> Result<String, Memory>
    ensures { IfOk result (λ line. string_bytes line ≡ spec.step_line step.now) }
{
    let mut line = String::new(alloc);
    push_told(step, &mut line)?;
    line.push_str(": ")?;
    push_words(alloc, step.line, &mut line)?;
    push_result(result_in(step.note, step.seconds.is_some()), &mut line)?;
    line.push('\n')?;
    Ok(line)
}

/// Puts behind a text when a step was taken and by whom.
fn push_told(step: &TrailStep<'_>, text: &mut String) -> Result<(), Memory>
    ensures { OnOk result (string_bytes text.new ≡ string_bytes text.old ++ spec.told_words step.now) }
{
    let tells_moment = step.seconds.is_some();
    match taker_in(step.note, tells_moment) {
        Some(taker) => {
            push_moment(moment_in(step.note, tells_moment), text)?;
            text.push(' ')?;
            push_printable(taker, text)
        }
        None => push_printable(unspaced(step.note), text),
    }
}

/// Puts a moment behind a text, or - where none is known.
fn push_moment(moment: Option<&[u8]>, text: &mut String) -> Result<(), Memory>
    ensures { OnOk result (string_bytes text.new
        ≡ string_bytes text.old ++ spec.moment_words (option_map (λ words. words.now) moment.entry)) }
{
    match moment {
        Some(words) => push_printable(words, text),
        None => Ok(text.push('-')?),
    }
}

/// Puts an arrow and a result behind a text, if there is one.
fn push_result(told: Option<&[u8]>, text: &mut String) -> Result<(), Memory>
    ensures { OnOk result (string_bytes text.new
        ≡ string_bytes text.old ++ spec.result_words (option_map (λ words. words.now) told.entry)) }
{
    if let Some(words) = told {
        text.push_str(" -> ")?;
        push_printable(words, text)?;
    }
    Ok(())
}
