//! What is told of the files of a fleet that aren't read.
ghost use Rattle.std.specs.Prelude.{◌≡◌, ◌++◌, IfOk, OnOk, string_bytes};
ghost use Rattle.meter_server.specs.Unread as spec;

use cosem_data::memory::Memory;
use fleet_audit::reading::UnreadFile;
use shown_text::printable::printable_text;
use std::alloc::Global;
use text_files::FileFault;

/// The lines of these files, one behind another.
pub(crate) fn fleet_lines(alloc: Global, files: &[UnreadFile]) -> Result<String, Memory>
    ensures { IfOk result (λ text. string_bytes text ≡ spec.fleet_lines files.now) }
{
    let mut text = String::new(alloc);
    for file in files {
        push_line(alloc, file, &mut text)?;
    }
    Ok(text)
}

/// Puts the line of a file behind a text. The error is that memory was refused.
fn push_line(alloc: Global, file: &UnreadFile, text: &mut String) -> Result<(), Memory>
    ensures { OnOk result (string_bytes text.new
        ≡ string_bytes text.old ++ spec.fleet_line file.now) }
{
    let line = fleet_line(alloc, file)?;
    text.push_str(line.as_str())?;
    Ok(())
}

/// The line of a file.
fn fleet_line(alloc: Global, file: &UnreadFile) -> Result<String, Memory>
    ensures { IfOk result (λ text. string_bytes text ≡ spec.fleet_line file.now) }
{
    let hint = hint_of(file.path.as_str(), file.why);
    let path = printable_text(alloc, file.path.as_str())?;
    let why = file.why.told(alloc)?;
    Ok(format!(in alloc; "cosem-flow: {path}: {why}{hint}\n")?)
}

/// What is told behind why a file isn't read: where it isn't there, and its name ends in `.toml` twice, the name was given with it.
fn hint_of(path: &str, why: FileFault) -> &'static str
    ensures { result.now ≡ spec.hint_of path.now why }
{
    if is_missing(why) && path.as_bytes().ends_with(b".toml.toml") {
        "; give the name without .toml"
    } else {
        ""
    }
}

/// Whether there is no such file.
fn is_missing(why: FileFault) -> bool
    ensures { result ≡ spec.is_missing why }
{
    matches!(why, FileFault::Missing)
}
