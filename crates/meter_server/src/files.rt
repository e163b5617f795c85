//! The files that a command names, read (own profile).
ghost use Rattle.std.specs.Prelude.{◌≡◌, MatchResult, Ok, string_bytes};
ghost use Rattle.meter_server.specs.Files.{IsUnread, TellsUnread};

use crate::outcome::Outcome;
use crate::texts::Source;
use line_server::fault::LineFault;
use std::alloc::Global;
use text_files::{FileFault, TextFiles};

/// The text of a file, or that it isn't read.
pub(crate) fn text_of_file<F: TextFiles>(
    alloc: Global,
    files: &F,
    file: &str,
) -> Result<String, Outcome>
    ensures { MatchResult result
        (λ text. F.may_read files.now file.now (Ok (string_bytes text)))
        (IsUnread (F.may_read files.now) file.now) }
{
    match files.read(file) {
        Ok(text) => Ok(text),
        Err(why) => Err(unread(alloc, file, why)),
    }
}

/// A file that isn't read.
fn unread(alloc: Global, file: &str, why: FileFault) -> Outcome
    ensures { TellsUnread file.now why result }
{
    match String::from_str(alloc, file) {
        Ok(file) => Outcome::Unread(file, why),
        Err(_) => Outcome::Fault(LineFault::Memory),
    }
}

/// A file by its path, with its text.
pub(crate) fn source_of<'a>(file: &'a str, text: &'a String) -> Source<'a>
    ensures file { result.file.now ≡ file.now }
    ensures text { result.text.now ≡ string_bytes text.now }
{
    Source {
        file,
        text: text.as_str(),
    }
}
