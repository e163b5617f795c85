//! The trail in a file, printed (own profile).
ghost use Rattle.std.specs.Prelude.{◌≡◌, MatchOption, option_map};
ghost use Rattle.meter_server.specs.Trailing.{IsNoMoment, IsWanted, PrintsText, PrintsTrail, TellsNoMoment, form_asked};

use crate::files::text_of_file;
use crate::outcome::Outcome;
use std::alloc::Global;
use std::io::Write;
use step_stores::fault::StoreFault;
use text_files::TextFiles;
use trail_file::fault::TrailFault;
use trail_words::fault::TrailTextFault;
use trail_words::form::TrailForm;
use trail_words::wanted::Wanted;
use trail_words::writing::write_trail;
use utc_moment::moment::UtcMoment;
use whole_writes::fault::ListFault;

/// What the words of a command line want to see of a trail, and how.
#[derive(Clone, Copy)]
pub(crate) struct Asked<'a> {
    pub(crate) client: Option<&'a str>,
    pub(crate) since: Option<&'a str>,
    pub(crate) is_json: bool,
}

/// Prints what is wanted of the trail in a file.
pub(crate) fn print_trail<F: TextFiles, O: Write>(
    alloc: Global,
    files: &F,
    file: &str,
    asked: Asked<'_>,
    output: &mut O,
) -> Outcome
    ensures { PrintsTrail (F.may_read files.now) file.now (option_map (λ name. name.now) asked.entry.client)
        (option_map (λ text. text.now) asked.entry.since) asked.entry.is_json (O.contents output.old) (O.contents output.new) result }
{
    let Some(wanted) = wanted_by(asked) else {
        return no_moment(alloc);
    };
    match text_of_file(alloc, files, file) {
        Ok(text) => print_text(alloc, file, text.as_str(), &wanted, asked.is_json, output),
        Err(outcome) => outcome,
    }
}

/// Prints what is wanted of the trail that the text of a file is.
fn print_text<O: Write>(
    alloc: Global,
    file: &str,
    text: &str,
    wanted: &Wanted<'_>,
    is_json: bool,
    output: &mut O,
) -> Outcome
    ensures { PrintsText (form_asked is_json) wanted.now file.now text.now (O.contents output.old) (O.contents output.new) result }
{
    match write_trail(alloc, text.as_bytes(), wanted, form_of(is_json), output) {
        Ok(()) => Outcome::Done,
        Err(TrailTextFault::NoTrail) => match String::from_str(alloc, file) {
            Ok(path) => Outcome::Unstored(path, StoreFault::Trail(TrailFault::Foreign)),
            Err(_) => Outcome::Unwritten(ListFault::Memory),
        },
        Err(TrailTextFault::Damaged) => match String::from_str(alloc, file) {
            Ok(path) => Outcome::Unstored(path, StoreFault::Trail(TrailFault::Damaged)),
            Err(_) => Outcome::Unwritten(ListFault::Memory),
        },
        Err(TrailTextFault::Memory) => Outcome::Unwritten(ListFault::Memory),
        Err(TrailTextFault::Write) => Outcome::Unwritten(ListFault::Write),
    }
}

/// The form that is asked for.
fn form_of(is_json: bool) -> TrailForm
    ensures { result ≡ form_asked is_json }
{
    if is_json {
        TrailForm::Json
    } else {
        TrailForm::Lines
    }
}

/// Which steps the words want. None where their moment isn't one.
fn wanted_by<'a>(asked: Asked<'a>) -> Option<Wanted<'a>>
    ensures { MatchOption result (IsNoMoment (option_map (λ text. text.now) asked.entry.since))
        (IsWanted (option_map (λ name. name.now) asked.entry.client) (option_map (λ text. text.now) asked.entry.since)) }
{
    let client = asked.client;
    let Some(text) = asked.since else {
        return Some(Wanted {
            client,
            since: None,
        });
    };
    match UtcMoment::read(text.as_bytes()) {
        Some(moment) => Some(Wanted {
            client,
            since: Some(moment),
        }),
        None => None,
    }
}

/// The text of the words is no moment.
fn no_moment(alloc: Global) -> Outcome
    ensures { TellsNoMoment result }
{
    match String::from_str(
        alloc,
        "`--since` asks for a moment like 2026-03-01T00:00:00",
    ) {
        Ok(words) => Outcome::Stranger(words),
        Err(_) => Outcome::Unwritten(ListFault::Memory),
    }
}
