//! What is told of what a configuration without fault is warned of (own profile).
ghost use Rattle.std.specs.Prelude.{◌≡◌, [], IfOk, string_bytes};
ghost use Rattle.explanations.specs.Lines.{AreLines};
ghost use Rattle.explanations.specs.Warnings as spec;

use crate::config::{more_line, shown_lines};
use crate::lines::lines_of;
use crate::met::met_at;
use crate::standing::stand_of;
use config_places::{find, read_path};
use config_warnings::warning::Warning;
use cosem_data::memory::Memory;
use shown_text::printable::printable_text;
use std::alloc::Global;

/// How many warnings are told at most.
pub const TOLD: usize = 10;

/// Whose labels a warning is of.
#[derive(Clone, Copy, Debug, Drop)]
pub enum Whose {
    /// Those of the policy.
    Policy,
    /// Those of a file of labels.
    Labels,
}

impl Whose {
    /// That they admit someone, in words.
    fn admitting(self) -> &'static str
        ensures { result.now ≡ spec.admitting_words self }
    {
        match self {
            Whose::Policy => "the policy admits",
            Whose::Labels => "the labels admit",
        }
    }
}

/// What is told of a warning. The error is that memory was refused.
fn warning_told(alloc: Global, file: &str, text: &str, warning: Warning) -> Result<String, Memory> {
    let path = warning.path(alloc)?;
    let Some(steps) = read_path(alloc, &path)? else {
        return Ok(String::new(alloc));
    };
    let spot = find(alloc, text, &steps)?;
    let met = met_at(alloc, text, &steps, spot)?;
    let lines = shown_lines(alloc, text, &steps, met.as_ref())?;
    let stand = printable_text(alloc, &stand_of(alloc, file, text, spot, false)?)?;
    let place = printable_text(alloc, &path)?;
    let words = warning.words();
    Ok(format!(in alloc; "cosem-flow: {stand}: {place}: warning: {words}\n{lines}")?)
}

/// Tells of warnings of the text of a configuration, in lines (own profile):
///
///     cosem-flow: FILE:LINE:COLUMN: PLACE: warning: WORDS
///       the object is NAME
///       the text there is VALUE
///
/// Line and column, the second line and the third are as `explain_config` has them. Of more than `TOLD` warnings it is told after
/// the first how many more there are.
///
/// # Errors
/// Memory was refused.
pub fn explain_warnings(
    alloc: Global,
    file: &str,
    text: &str,
    warnings: &[Warning],
) -> Result<String, Memory>
    ensures lines { IfOk result (λ told. AreLines (string_bytes told)) }
    ensures none { warnings.now ≡ [] → IfOk result (λ told. string_bytes told ≡ []) }
{
    if warnings.is_empty() {
        return Ok(String::new(alloc));
    }
    let mut lines = String::new(alloc);
    for warning in warnings.iter().take(TOLD) {
        lines.push_str(&warning_told(alloc, file, text, *warning)?)?;
    }
    let more = warnings.len().saturating_sub(TOLD);
    lines.push_str(&more_line(alloc, file, "warning: ", more)?)?;
    lines_of(alloc, &lines)
}

/// The line that tells at how many of the cells a policy or labels admit clients that the least labels don't, if there are such
/// cells.
///
/// # Errors
/// Memory was refused.
pub fn explain_width(
    alloc: Global,
    file: &str,
    whose: Whose,
    wider: usize,
    cells: usize,
) -> Result<String, Memory>
    ensures { IfOk result (λ line. string_bytes line ≡ spec.width_line file.now whose wider cells) }
{
    if wider == 0 {
        return Ok(String::new(alloc));
    }
    let file = printable_text(alloc, file)?;
    let admitting = whose.admitting();
    Ok(format!(in alloc;
        "cosem-flow: {file}: warning: at {wider} of {cells} cells {admitting} clients that the least labels don't\n"
    )?)
}
