//! The explanation of a configuration's faults (own profile).
ghost use Rattle.std.specs.Prelude.{IfOk, string_bytes};
ghost use Rattle.explanations.specs.Lines.{AreLines};

use crate::lines::lines_of;
use crate::meaning::meaning_of;
use crate::mending::mending_of;
use crate::met::{Met, shown_at, shown_line, text_at, value_words};
use crate::standing::stand_of;
use crate::syntax::explain_no_toml;
use config_places::{Step, find, read_path};
use config_text::cause::Cause;
use config_text::fault::{ConfigFault, PlacedFault};
use config_text::known;
use cosem_data::memory::Memory;
use shown_text::printable::printable_text;
use std::alloc::Global;
use value_text::value::value_in;
use value_words::writing::push_value;

/// How many faults after the first are told at most.
pub const TOLD: usize = 9;

/// The name of the object in which steps lead, none where they lead into none that has a text as its name. The error is that
/// memory was refused.
fn object_name(alloc: Global, text: &str, steps: &[Step]) -> Result<Option<String>, Memory> {
    match steps {
        [Step::Key(key), Step::Element(index), ..] if key.as_str() == known::OBJECT => {
            let mut name = Vec::new(alloc);
            name.push(Step::Key(String::from_str(alloc, known::OBJECT)?))?;
            name.push(Step::Element(*index))?;
            name.push(Step::Key(String::from_str(alloc, known::NAME)?))?;
            text_at(alloc, text, &name)
        }
        _ => Ok(None),
    }
}

/// The lines that tell what stands at a place: the object's name, and the value there. The error is that memory was refused.
pub(crate) fn shown_lines(
    alloc: Global,
    text: &str,
    steps: &[Step],
    met: Option<&Met>,
) -> Result<String, Memory> {
    let mut lines = String::new(alloc);
    if let Some(name) = object_name(alloc, text, steps)? {
        let name = printable_text(alloc, &name)?;
        lines.push_str(format!(in alloc; "  the object is {name}\n")?.as_str())?;
    }
    if let Some(met) = met {
        let words = value_words(alloc, met)?;
        lines.push_str(format!(in alloc; "  the text there is {words}\n")?.as_str())?;
    }
    Ok(lines)
}

/// The line that tells the value of which a text is the hex text, if it is one. The error is that memory was refused.
fn decoded_line(alloc: Global, text: &str) -> Result<String, Memory> {
    let Some(value) = value_in(alloc, text.as_bytes())? else {
        return Ok(String::new(alloc));
    };
    let mut words = Vec::new(alloc);
    push_value(alloc, &value, &mut words)?;
    let words = shown_line(alloc, &words)?;
    Ok(format!(in alloc; "  which is {words}\n")?)
}

/// What is told of a fault at the place to which steps lead. The error is that memory was refused.
fn explain_at(
    alloc: Global,
    file: &str,
    text: &str,
    fault: &PlacedFault,
    steps: &[Step],
) -> Result<String, Memory> {
    let cause = &fault.cause;
    let of_key = matches!(cause, Cause::KeyUnknown(_));
    let spot = find(alloc, text, steps)?;
    let met = shown_at(alloc, text, cause, steps, spot)?;
    let found = match &met {
        Some(Met::Text(found)) => Some(found.as_str()),
        _ => None,
    };
    let decoded = match found {
        Some(found) if cause.code() == 11 => decoded_line(alloc, found)?,
        _ => String::new(alloc),
    };
    let lines = shown_lines(alloc, text, steps, met.as_ref())?;
    let meaning = meaning_of(alloc, cause, steps, found)?;
    let mending = mending_of(alloc, cause, steps)?;
    let stand = printable_text(alloc, &stand_of(alloc, file, text, spot, of_key)?)?;
    let place = printable_text(alloc, &fault.place)?;
    Ok(format!(in alloc; "cosem-flow: {stand}: {place}: {meaning}\n{lines}{decoded}  {mending}\n")?)
}

/// What is told of a fault. The error is that memory was refused.
fn explain_one(
    alloc: Global,
    file: &str,
    text: &str,
    fault: &PlacedFault,
) -> Result<String, Memory> {
    if let Cause::NotToml(stop) = &fault.cause {
        return explain_no_toml(alloc, file, text, stop);
    }
    match read_path(alloc, &fault.place)? {
        Some(steps) => explain_at(alloc, file, text, fault, &steps),
        None => explain_at(alloc, file, text, fault, &[]),
    }
}

/// The line that tells how many more there are of a kind, if there are any. The error is that memory was refused.
pub(crate) fn more_line(
    alloc: Global,
    file: &str,
    kind: &str,
    more: usize,
) -> Result<String, Memory> {
    if more == 0 {
        return Ok(String::new(alloc));
    }
    let file = printable_text(alloc, file)?;
    Ok(format!(in alloc; "cosem-flow: {file}: {kind}{more} more like these\n")?)
}

/// What is told of the first fault of a text, of some after it, and how many more there are. The error is that memory was refused.
fn explain_found(
    alloc: Global,
    file: &str,
    text: &str,
    first: &PlacedFault,
    others: &[PlacedFault],
) -> Result<String, Memory> {
    let mut lines = explain_one(alloc, file, text, first)?;
    for fault in others.iter().take(TOLD) {
        lines.push_str(&explain_one(alloc, file, text, fault)?)?;
    }
    let more = others.len().saturating_sub(TOLD);
    lines.push_str(&more_line(alloc, file, "", more)?)?;
    Ok(lines)
}

/// Explains the faults that the text of a configuration has, each in lines (own profile):
///
///     cosem-flow: FILE:LINE:COLUMN: PLACE: MEANING
///       the object is NAME
///       the text there is VALUE
///       which is DECODED
///       HOW TO MEND
///
/// Line and column are those of the value there, of a key that isn't known, or of the table in which a key is missing. The second
/// line is there where the place lies in an object that has a text as its name, the third where the place leads to a value that
/// is no password; it isn't there for a key that isn't known, which may be a password's. The fourth is there where a value was
/// asked and the text is the hex text of one. Of a text that isn't TOML line and column are those where its reader stopped, and
/// there is no PLACE. Of more than `TOLD` faults after the first it is told how many more there are.
///
/// # Errors
/// Memory was refused.
pub fn explain_config(
    alloc: Global,
    file: &str,
    text: &str,
    fault: &ConfigFault,
) -> Result<String, Memory>
    ensures { IfOk result (λ told. AreLines (string_bytes told)) }
{
    let told = match fault {
        ConfigFault::Memory => {
            let file = printable_text(alloc, file)?;
            format!(in alloc;
                "cosem-flow: {file}: memory was refused, and nothing is known of the text\n  give the process more memory\n"
            )?
        }
        ConfigFault::Found { first, others } => explain_found(alloc, file, text, first, others)?,
    };
    lines_of(alloc, &told)
}
