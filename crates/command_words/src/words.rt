//! What clap has found of the words of a command, each argument by itself.
ghost use Rattle.std.specs.Prelude.{◌≡◌, map, option_map};
ghost use Rattle.std.specs.Int.NonZero.{non_zero_usize_get};
ghost use Rattle.clap.specs.Words.{all_of, first_of, found_of, rows_of};
ghost use Rattle.command_words.specs.Found as found_spec;
ghost use Rattle.command_words.specs.Said as spec;

use crate::command::{EdgesForm, ReportForm};
use crate::serving::{Serving, serving_in};
use clap::ArgMatches;
use std::num::NonZeroUsize;

/// What the words of a command say, argument by argument. Where an argument isn't there its place has what stands for nothing:
/// clap takes no words that lack one which the command needs. It owns nothing, so that whatever is made of it is short to prove.
#[derive(Clone, Copy, Drop)]
pub(crate) struct Words<'m, 'a> {
    pub(crate) config: &'a str,
    pub(crate) labels: &'a str,
    pub(crate) client: &'a str,
    pub(crate) cell: &'a str,
    pub(crate) old: &'a str,
    pub(crate) new: &'a str,
    pub(crate) file: &'a str,
    pub(crate) given_labels: Option<&'a str>,
    pub(crate) against: Option<&'a str>,
    pub(crate) given_client: Option<&'a str>,
    pub(crate) since: Option<&'a str>,
    pub(crate) edges_form: EdgesForm,
    pub(crate) report_form: ReportForm,
    pub(crate) names: Option<&'m [&'a str]>,
    pub(crate) names_file: Option<&'a str>,
    pub(crate) workers: NonZeroUsize,
    pub(crate) serving: Serving<'a>,
    pub(crate) is_verbose: bool,
    pub(crate) is_silent: bool,
    pub(crate) is_json: bool,
    pub(crate) is_value: bool,
    pub(crate) reads_trail: bool,
    pub(crate) tells_all: bool,
    pub(crate) explains: bool,
    pub(crate) tells_progress: bool,
}

/// What clap has found, argument by argument.
pub(crate) fn words_in<'m, 'a>(found: &'m ArgMatches<'a>) -> Words<'m, 'a>
    ensures { spec.said_by result ≡ spec.said_in (rows_of (found_of found.now)) }
{
    Words {
        config: text(found, "config"),
        labels: text(found, "labels"),
        client: text(found, "client"),
        cell: text(found, "cell"),
        old: text(found, "old"),
        new: text(found, "new"),
        file: text(found, "file"),
        given_labels: value(found, "labels"),
        against: value(found, "against"),
        given_client: value(found, "client"),
        since: value(found, "since"),
        edges_form: edges_form_named(text(found, "format")),
        report_form: report_form_named(text(found, "format")),
        names: values(found, "name"),
        names_file: value(found, "names"),
        workers: count(found, "workers"),
        serving: serving_in(found),
        is_verbose: has_flag(found, "verbose"),
        is_silent: has_flag(found, "quiet"),
        is_json: has_flag(found, "json"),
        is_value: has_flag(found, "value"),
        reads_trail: has_flag(found, "trail"),
        tells_all: has_flag(found, "all"),
        explains: has_flag(found, "explain"),
        tells_progress: has_flag(found, "progress"),
    }
}

/// The first value of an argument, where it has one.
pub(crate) fn value<'a>(found: &ArgMatches<'a>, id: &str) -> Option<&'a str>
    ensures { option_map (λ text. text.now) result ≡ first_of id.now (rows_of (found_of found.now)) }
{
    found.get_str(id)
}

/// The first value of an argument.
pub(crate) fn text<'a>(found: &ArgMatches<'a>, id: &str) -> &'a str
    ensures { result.now ≡ found_spec.text id.now (rows_of (found_of found.now)) }
{
    match value(found, id) {
        Some(text) => text,
        None => "",
    }
}

/// All values of an argument, where it has any.
pub(crate) fn values<'m, 'a>(found: &'m ArgMatches<'a>, id: &str) -> Option<&'m [&'a str]>
    ensures { option_map (λ texts. map (λ text. text.now) texts.now) result
        ≡ all_of id.now (rows_of (found_of found.now)) }
{
    found.get_strs(id)
}

/// Whether an option without a value stands there.
pub(crate) fn has_flag(found: &ArgMatches<'_>, id: &str) -> bool
    ensures { result ≡ found_spec.has_flag id.now (rows_of (found_of found.now)) }
{
    0 < found.get_count(id)
}

/// The form of a report of this name. No other name than `html`, `csv` and `json` is let through.
fn report_form_named(name: &str) -> ReportForm
    ensures { result ≡ spec.report_form_named name.now }
{
    if name == "csv" {
        ReportForm::Csv
    } else if name == "json" {
        ReportForm::Json
    } else {
        ReportForm::Html
    }
}

/// The form of this name. No other name than `text` and `dot` is let through.
fn edges_form_named(name: &str) -> EdgesForm
    ensures { result ≡ spec.form_named name.now }
{
    if name == "dot" {
        EdgesForm::Dot
    } else {
        EdgesForm::Text
    }
}

/// How many, at least one.
pub(crate) fn count(found: &ArgMatches<'_>, id: &str) -> NonZeroUsize
    ensures { non_zero_usize_get result ≡ found_spec.count id.now (rows_of (found_of found.now)) }
{
    match given_count(found, id) {
        Some(count) => count,
        None => NonZeroUsize::MIN,
    }
}

fn given_count(found: &ArgMatches<'_>, id: &str) -> Option<NonZeroUsize>
    ensures { option_map non_zero_usize_get result
        ≡ found_spec.count_in id.now (rows_of (found_of found.now)) }
{
    NonZeroUsize::new(found.get_one(id)?)
}
