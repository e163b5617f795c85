//! Reports on who may change and who may learn what (own profile).
ghost use Rattle.std.specs.Prelude.{◌≡◌, IfOk, MatchResult, Some, is_some, option_map};
ghost use Rattle.meter_server.specs.Reporting as spec;
ghost use Rattle.meter_server.specs.Reporting.{AreLabelsOf, FailsLabels, IsHeading, IsReport, IsWithoutEnd, ReportsAgainst, ReportsChanges, ReportsFile, ReportsOn, ReportsPlan, ReportsSubject, WritesReport};
ghost use Rattle.command_words.specs.declared.command.ReportForm.TheVariants as forms;

use crate::comparing::made_of;
use crate::files::{source_of, text_of_file};
use crate::outcome::{Outcome, Side, listed};
use crate::texts::{Source, faulty, judged};
use command_words::ReportForm;
use config_reader::read_config;
use cosem_data::memory::Memory;
use flow_changes::compare::{Comparison, compare};
use flow_checker::check::{Refused, verdict_on};
use flow_forms::csv_form::csv_text;
use flow_forms::html_form::html_text;
use flow_forms::json_form::json_text;
use flow_map::least::LeastMap;
use flow_map::map::FlowMap;
use flow_page::page::Heading;
use flow_ways::ways::Ways;
use label_certificate::labels::Labels;
use label_certificate::reading::read_labels;
use object_model::plan::Plan;
use object_model::policy::Policy;
use std::alloc::Global;
use std::io::Write;
use std::path::Path;
use text_files::TextFiles;
use verdict::{Verdict, verdict_text};
use whole_writes::fault::ListFault;
use whole_writes::write_whole;

/// The files beside the configuration that a report is on, where they are given.
#[derive(Clone, Copy)]
pub(crate) struct Beside<'a> {
    /// The labels that are judged.
    pub(crate) labels: Option<&'a str>,
    /// The configuration before.
    pub(crate) old: Option<&'a str>,
}

/// What is asked of a report.
#[derive(Clone, Copy)]
struct Asked<'a> {
    /// The configuration in a file.
    config: Source<'a>,
    /// The files beside it.
    beside: Beside<'a>,
    /// The form of the report.
    form: ReportForm,
}

/// What a report is on.
#[derive(Drop)]
struct Subject<'a> {
    /// What is asked of it.
    asked: Asked<'a>,
    /// The plan of the configuration.
    plan: &'a Plan,
    /// Its policy.
    policy: &'a Policy,
    /// The labels that are judged, where they are given.
    labels: Option<Labels>,
}

/// Writes the report on the configuration in a file, with the verdict on the labels in another or on the least ones, and with what has
/// changed against the configuration in a third where that is given, and says how that ended.
pub(crate) fn report_file<F: TextFiles, O: Write>(
    alloc: Global,
    files: &F,
    config: &str,
    beside: Beside<'_>,
    form: ReportForm,
    output: &mut O,
) -> Outcome
    ensures { ReportsFile (F.may_read files.now) form (spec.paths_of beside.entry) config.now
        (O.contents output.old) (O.contents output.new) result }
{
    match text_of_file(alloc, files, config) {
        Ok(text) => {
            let asked = Asked {
                config: source_of(config, &text),
                beside,
                form,
            };
            report_source(alloc, files, asked, output)
        }
        Err(outcome) => outcome,
    }
}

/// Writes the report on a configuration.
fn report_source<F: TextFiles, O: Write>(
    alloc: Global,
    files: &F,
    asked: Asked<'_>,
    output: &mut O,
) -> Outcome
    ensures { spec.ReportsSource (F.may_read files.now) asked.entry.form (spec.paths_of asked.entry.beside)
        (O.contents output.old) (O.contents output.new) asked.entry.config result }
{
    match read_config(alloc, asked.config.text) {
        Ok((plan, policy)) => report_plan(alloc, files, asked, &plan, &policy, output),
        Err(fault) => faulty(alloc, asked.config, fault),
    }
}

/// Writes the report on a plan and its policy, which a configuration has: all files are read first.
fn report_plan<F: TextFiles, O: Write>(
    alloc: Global,
    files: &F,
    asked: Asked<'_>,
    plan: &Plan,
    policy: &Policy,
    output: &mut O,
) -> Outcome
    ensures { ReportsPlan (F.may_read files.now) asked.entry.form (spec.paths_of asked.entry.beside)
        (O.contents output.old) (O.contents output.new) asked.entry.config plan.now policy.now result }
{
    match labels_given(alloc, files, asked, plan) {
        Ok(labels) => {
            let subject = Subject {
                asked,
                plan,
                policy,
                labels,
            };
            report_against(alloc, files, &subject, output)
        }
        Err(outcome) => outcome,
    }
}

/// The labels in a file where its path is given, or how a command ends that can't read them.
fn labels_given<F: TextFiles>(
    alloc: Global,
    files: &F,
    asked: Asked<'_>,
    plan: &Plan,
) -> Result<Option<Labels>, Outcome>
    ensures { MatchResult result
        (AreLabelsOf (F.may_read files.now) plan.now (option_map (λ path. path.now) asked.entry.beside.labels))
        (FailsLabels (F.may_read files.now) asked.entry.config plan.now (option_map (λ path. path.now) asked.entry.beside.labels)) }
{
    match asked.beside.labels {
        Some(path) => Ok(Some(labels_in(alloc, files, asked.config, plan, path)?)),
        None => Ok(None),
    }
}

/// The labels in a file, or how a command ends that can't read them.
fn labels_in<F: TextFiles>(
    alloc: Global,
    files: &F,
    config: Source<'_>,
    plan: &Plan,
    path: &str,
) -> Result<Labels, Outcome>
    ensures { MatchResult result
        (spec.AreLabelsIn (F.may_read files.now) plan.now path.now)
        (spec.FailsLabelsIn (F.may_read files.now) config.entry plan.now path.now) }
{
    let text = text_of_file(alloc, files, path)?;
    let labels = source_of(path, &text);
    match read_labels(alloc, plan, labels.text) {
        Ok(labels) => Ok(labels),
        Err(fault) => Err(judged(alloc, config, labels, Verdict::Labels(fault))),
    }
}

/// Writes the report, with what has changed against the configuration in a file where that is given.
fn report_against<F: TextFiles, O: Write>(
    alloc: Global,
    files: &F,
    subject: &Subject<'_>,
    output: &mut O,
) -> Outcome
    ensures { let asked = subject.now.asked in
        ReportsAgainst (F.may_read files.now) asked.form (option_map (λ path. path.now) asked.beside.old) asked.config.file.now
        (O.contents output.old) (O.contents output.new) subject.now.plan.now subject.now.policy.now subject.now.labels result }
{
    match subject.asked.beside.old {
        None => report_beside(alloc, subject, None, output),
        Some(path) => report_after(alloc, files, subject, path, output),
    }
}

/// Writes the report with what has changed against the configuration in a file.
fn report_after<F: TextFiles, O: Write>(
    alloc: Global,
    files: &F,
    subject: &Subject<'_>,
    path: &str,
    output: &mut O,
) -> Outcome
    ensures { let asked = subject.now.asked in
        ReportsAgainst (F.may_read files.now) asked.form (Some path.now) asked.config.file.now
        (O.contents output.old) (O.contents output.new) subject.now.plan.now subject.now.policy.now subject.now.labels result }
{
    match made_of(alloc, files, Side::Old, path) {
        Ok((plan, policy)) => report_beside(alloc, subject, Some((&plan, &policy)), output),
        Err(outcome) => outcome,
    }
}

/// Writes the report, compared with an old configuration where there is one.
fn report_beside<O: Write>(
    alloc: Global,
    subject: &Subject<'_>,
    old: Option<(&Plan, &Policy)>,
    output: &mut O,
) -> Outcome
    ensures { ReportsSubject subject.now.asked.form subject.now.asked.config.file.now
        (option_map (λ made. (made.0.now, made.1.now)) old.entry) subject.now.plan.now subject.now.policy.now subject.now.labels
        (O.contents output.old) (O.contents output.new) result }
{
    match LeastMap::new(alloc, subject.plan, subject.policy) {
        Ok(least) => report_compared(alloc, subject, &least, old, output),
        Err(_) => Outcome::Unwritten(ListFault::Memory),
    }
}

/// Writes the report on what is known of a configuration, compared with an old one where there is one.
fn report_compared<O: Write>(
    alloc: Global,
    subject: &Subject<'_>,
    least: &LeastMap<'_>,
    old: Option<(&Plan, &Policy)>,
    output: &mut O,
) -> Outcome
    ensures { ReportsSubject subject.now.asked.form subject.now.asked.config.file.now
        (option_map (λ made. (made.0.now, made.1.now)) old.entry) least.now.plan least.now.policy subject.now.labels
        (O.contents output.old) (O.contents output.new) result }
{
    match old {
        None => report_map(alloc, subject, least, None, output),
        Some(made) => match LeastMap::new(alloc, made.0, made.1) {
            Ok(before) => report_changed(alloc, subject, least, &before, output),
            Err(_) => Outcome::Unwritten(ListFault::Memory),
        },
    }
}

/// Writes the report on what is known of a configuration, with what has changed against what is known of the one before.
fn report_changed<O: Write>(
    alloc: Global,
    subject: &Subject<'_>,
    least: &LeastMap<'_>,
    before: &LeastMap<'_>,
    output: &mut O,
) -> Outcome
    ensures { ReportsSubject subject.now.asked.form subject.now.asked.config.file.now
        (Some (before.now.plan, before.now.policy)) least.now.plan least.now.policy subject.now.labels
        (O.contents output.old) (O.contents output.new) result }
{
    before.known();
    least.known();
    match compare(alloc, before, least) {
        Ok(changes) => report_map(alloc, subject, least, Some(&changes), output),
        Err(_) => Outcome::Unwritten(ListFault::Memory),
    }
}

/// Writes the report on what is known of a configuration: with the verdict on the labels that are given, or else on the least ones,
/// and with what has changed where that is known.
fn report_map<O: Write>(
    alloc: Global,
    subject: &Subject<'_>,
    least: &LeastMap<'_>,
    changes: Option<&Comparison<'_>>,
    output: &mut O,
) -> Outcome
    ensures { ReportsChanges subject.now.asked.form subject.now.asked.config.file.now
        (option_map (λ c. c.now) changes.entry) least.now.plan least.now.policy subject.now.labels
        (O.contents output.old) (O.contents output.new) result }
{
    least.known();
    match &subject.labels {
        Some(labels) => report_on(alloc, subject, least.map(), labels, changes, output),
        None => report_on(alloc, subject, least.map(), least.labels(), changes, output),
    }
}

/// Writes the report with the verdict on labels, and with what has changed where that is known.
fn report_on<O: Write>(
    alloc: Global,
    subject: &Subject<'_>,
    map: &FlowMap<'_>,
    labels: &Labels,
    changes: Option<&Comparison<'_>>,
    output: &mut O,
) -> Outcome
    ensures { ReportsOn subject.now.asked.form subject.now.asked.config.file.now (is_some subject.now.labels)
        (option_map (λ c. c.now) changes.entry)
        map.now.plan map.now.policy labels.now (O.contents output.old) (O.contents output.new) result }
{
    match verdict_on(alloc, map, labels) {
        Ok(()) => listed(write_report(alloc, subject, map, changes, &Verdict::Accepted, output)),
        Err(Refused::Memory) => Outcome::Unwritten(ListFault::Memory),
        Err(refused) => listed(write_report(
            alloc,
            subject,
            map,
            changes,
            &Verdict::Refused(refused),
            output,
        )),
    }
}

/// Writes the report with a verdict.
fn write_report<O: Write>(
    alloc: Global,
    subject: &Subject<'_>,
    map: &FlowMap<'_>,
    changes: Option<&Comparison<'_>>,
    verdict: &Verdict,
    output: &mut O,
) -> Result<(), ListFault>
    ensures { WritesReport subject.now.asked.form subject.now.asked.config.file.now (is_some subject.now.labels)
        (option_map (λ c. c.now) changes.entry) map.now.plan map.now.policy verdict.now
        (O.contents output.old) (O.contents output.new) result }
{
    let ways = Ways::of_many(alloc, map)?;
    let text = report_text(alloc, subject, &ways, changes, verdict)?;
    write_whole(output, &text)?;
    Ok(())
}

/// The text of a report. The only error is want of memory.
fn report_text(
    alloc: Global,
    subject: &Subject<'_>,
    ways: &Ways<'_>,
    changes: Option<&Comparison<'_>>,
    verdict: &Verdict,
) -> Result<Vec<u8>, Memory>
    ensures { IfOk result (λ text. IsReport subject.now.asked.form subject.now.asked.config.file.now (is_some subject.now.labels)
        (option_map (λ c. c.now) changes.entry) ways.now.plan ways.now.policy verdict.now text.items) }
{
    match subject.asked.form {
        ReportForm::Html => html_of(alloc, subject, ways, changes, verdict),
        ReportForm::Csv => csv_text(alloc, ways),
        ReportForm::Json => json_of(alloc, ways, verdict),
    }
}

/// The report as a page. The only error is want of memory.
fn html_of(
    alloc: Global,
    subject: &Subject<'_>,
    ways: &Ways<'_>,
    changes: Option<&Comparison<'_>>,
    verdict: &Verdict,
) -> Result<Vec<u8>, Memory>
    ensures { IfOk result (λ text. IsReport forms.Html subject.now.asked.config.file.now (is_some subject.now.labels)
        (option_map (λ c. c.now) changes.entry) ways.now.plan ways.now.policy verdict.now text.items) }
{
    let heading = heading_of(
        alloc,
        verdict,
        subject.asked.config.file,
        subject.labels.is_some(),
    )?;
    let text = html_text(alloc, ways, changes, heading)?;
    Ok(text.into_bytes())
}

/// What a page says at its head. The only error is want of memory.
fn heading_of(
    alloc: Global,
    verdict: &Verdict,
    path: &str,
    given_labels: bool,
) -> Result<Heading, Memory>
    ensures { IfOk result (IsHeading path.now given_labels verdict.now) }
{
    let line = verdict_text(alloc, verdict)?;
    Ok(Heading {
        name: String::from_str(alloc, name_of(path))?,
        verdict: String::from_str(alloc, without_end(line.as_str()))?,
        accepted: verdict.is_accepted(),
        given_labels,
    })
}

/// The name of the file with this path.
fn name_of(path: &str) -> &str
    ensures { result.now ≡ spec.name_of path.now }
{
    match Path::new(path).file_name() {
        Some(name) => name,
        None => path,
    }
}

/// The report as JSON. The only error is want of memory.
fn json_of(alloc: Global, ways: &Ways<'_>, verdict: &Verdict) -> Result<Vec<u8>, Memory>
    ensures { IfOk result (λ text. spec.IsJsonReport ways.now.plan ways.now.policy verdict.now text.items) }
{
    let line = verdict_text(alloc, verdict)?;
    json_text(alloc, ways, without_end(line.as_str()))
}

/// A line without the newline at its end.
fn without_end(line: &str) -> &str
    ensures { IsWithoutEnd line.now result.now }
{
    match line.strip_suffix('\n') {
        Some(line) => line,
        None => line,
    }
}
