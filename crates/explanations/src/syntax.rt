//! What is told of a text that isn't TOML (own profile).

use crate::standing::position_after;
use config_text::cause::TomlStop;
use cosem_data::memory::Memory;
use shown_text::printable::printable_text;
use std::alloc::Global;

/// What is told of a text whose reader stopped here: the line and the column, and its words. The error is that memory was refused.
pub(crate) fn explain_no_toml(
    alloc: Global,
    file: &str,
    text: &str,
    stop: &TomlStop,
) -> Result<String, Memory> {
    let start = stop.error.span().map_or(0, |span| span.start);
    let before = text.as_bytes().get(..start).unwrap_or(&[]);
    let (line, column) = position_after(before);
    let file = printable_text(alloc, file)?;
    let message = printable_text(alloc, stop.error.message())?;
    Ok(format!(in alloc;
        "cosem-flow: {file}:{line}:{column}: the text isn't TOML: {message}\n  write each key with its value, as version = 1\n"
    )?)
}
