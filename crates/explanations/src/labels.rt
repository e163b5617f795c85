//! The explanation of a fault of labels (own profile).
ghost use Rattle.std.specs.Prelude.{IfOk, string_bytes};
ghost use Rattle.explanations.specs.Lines.{AreLines};

use crate::lines::lines_of;
use crate::met::shown_line;
use cosem_data::memory::Memory;
use label_certificate::fault::{LabelCode, LabelFault};
use shown_text::printable::printable_text;
use std::alloc::Global;

/// What a code means, in one sentence.
fn meaning_of(code: LabelCode) -> &'static str {
    match code {
        LabelCode::Form => {
            "the line isn't of the form CELL influence=NAMES learn=NAMES, or no newline ends it"
        }
        LabelCode::Cell => "the configuration doesn't have this cell",
        LabelCode::Client => "the configuration doesn't have one of these clients",
        LabelCode::Order => "the cell, or a client within a set, stands twice or out of order",
    }
}

/// How what a code means is mended.
fn mending_of(code: LabelCode) -> &'static str {
    match code {
        LabelCode::Form => {
            "write it as 1/0.0.96.11.0.255/2 influence=manager learn=reader,manager with one space between parts, - for no client, and a newline behind it"
        }
        LabelCode::Cell => "remove the line, or add the object",
        LabelCode::Client => "remove the name, or add the client",
        LabelCode::Order => "write cells and clients once, in the order of the configuration",
    }
}

/// The line of a text with this number, from 1.
fn line_at(text: &str, number: u64) -> Option<&str> {
    text.split('\n').nth(number.saturating_sub(1) as usize)
}

/// The line that tells a line of the labels, if it is there.
fn line_line(alloc: Global, line: Option<&str>) -> Result<String, Memory> {
    match line {
        Some(line) => {
            let line = shown_line(alloc, line.as_bytes())?;
            Ok(format!(in alloc; "  the line is {line}\n")?)
        }
        None => Ok(String::new(alloc)),
    }
}

/// What is told of a fault in a line.
fn told(
    alloc: Global,
    file: &str,
    text: &str,
    code: LabelCode,
    number: u64,
) -> Result<String, Memory> {
    let file = printable_text(alloc, file)?;
    let line = line_line(alloc, line_at(text, number))?;
    let meaning = meaning_of(code);
    let mending = mending_of(code);
    Ok(format!(in alloc; "cosem-flow: {file}: line {number}: {meaning}\n{line}  {mending}\n")?)
}

/// Explains a fault that a text of labels has, in lines (own profile):
///
///     cosem-flow: FILE: line K: MEANING
///       the line is LINE
///       HOW TO MEND
///
/// LINE and FILE are shown without control characters, and of a long line its first 200 bytes and ` ...`.
///
/// # Errors
/// Memory was refused.
pub fn explain_labels(
    alloc: Global,
    file: &str,
    text: &str,
    fault: &LabelFault,
) -> Result<String, Memory>
    ensures { IfOk result (λ told. AreLines (string_bytes told)) }
{
    let told = match fault {
        LabelFault::Line { code, line } => told(alloc, file, text, *code, *line)?,
        LabelFault::Memory => {
            let file = printable_text(alloc, file)?;
            format!(in alloc;
                "cosem-flow: {file}: memory was refused, and nothing is known of the labels\n  give the process more memory\n"
            )?
        }
    };
    lines_of(alloc, &told)
}
