//! What commands do by the texts of their files: lines and frames are answered by a configuration, lists are written, a verdict is
//! explained (own profile).
ghost use Rattle.std.specs.Prelude.{◌≡◌, IfErr, IfOk, Some, option_map, string_bytes};
ghost use Rattle.config_reader.specs.ConfigOf.{config_of};
ghost use Rattle.line_server.specs.Running.{RunsLines};
ghost use Rattle.whole_writes.specs.Written.{WritesText};
ghost use Rattle.flow_forms.specs.Listing.{WritesLeast};
ghost use Rattle.verdict.specs.Judging.{IsVerdictOn};
ghost use Rattle.verdict.specs.declared.Verdict.TheVariants.{Accepted};
ghost use Rattle.meter_server.specs.Program.{AnswersFrames, AnswersText, AnswersTrail, ExplainsVerdict, IsFaulty, IsJudged, IsJudgedWhole, ListsEdges, RefusesOn, edges_in};
ghost use Rattle.meter_server.specs.Remarks.{told_of};
ghost use Rattle.meter_server.specs.Warning.{IsChecked, ListsLabels, ListsLabelsOf};

use crate::outcome::{Outcome, listed, outcome_of, served};
use crate::remarks::Remarks;
use crate::warning::{Warning, warnings_on, with_warnings};
use command_words::{EdgesForm, Warned};
use config_reader::read_config;
use config_text::fault::ConfigFault;
use explanations::config::explain_config;
use explanations::labels::explain_labels;
use explanations::refusal::explain_refusal;
use flow_checker::check::Checked;
use flow_forms::edges::{write_dot, write_edges};
use flow_forms::labels::write_least_labels;
use flow_map::least::LeastMap;
use flow_map::map::FlowMap;
use frame_server::alone::serve_alone;
use line_server::fault::LineFault;
use line_server::running::run_lines;
use line_words::watching::{Watched, run_watched};
use object_model::plan::Plan;
use object_model::policy::Policy;
use std::alloc::Global;
use std::io::{Read, Write};
use trail_lines::running::run_trail;
use verdict::Verdict;
use verdict::judging::{WholeVerdict, accepted, accepted_or_whole};
use whole_writes::fault::ListFault;

/// A file by its path, with its text.
#[derive(Clone, Copy)]
pub(crate) struct Source<'a> {
    pub file: &'a str,
    pub text: &'a str,
}

/// Answers the lines of the input by a configuration, on the output, and says how that ended: `Done`, a fault of the run, or the
/// verdict where the configuration has a fault or memory was refused while it was read; then nothing was read of the input, and
/// nothing written.
pub(crate) fn answer_text<I: Read, O: Write>(
    alloc: Global,
    config: Source<'_>,
    input: &mut I,
    output: &mut O,
) -> Outcome
    ensures { AnswersText config.entry (config_of config.entry.text.now)
        (record { unread = I.remaining input.old; written = O.contents output.old })
        (record { unread = I.remaining input.new; written = O.contents output.new }) result }
{
    match read_config(alloc, config.text) {
        Ok((plan, _policy)) => outcome_of(run_lines(alloc, &plan, input, output)),
        Err(fault) => faulty(alloc, config, fault),
    }
}

/// Answers the lines of a trail on the input as `answer_text` answers step lines.
pub(crate) fn answer_trail<I: Read, O: Write>(
    alloc: Global,
    config: Source<'_>,
    input: &mut I,
    output: &mut O,
) -> Outcome
    ensures { AnswersTrail config.entry (config_of config.entry.text.now)
        (record { unread = I.remaining input.old; written = O.contents output.old })
        (record { unread = I.remaining input.new; written = O.contents output.new }) result }
{
    match read_config(alloc, config.text) {
        Ok((plan, _policy)) => outcome_of(run_trail(alloc, &plan, input, output)),
        Err(fault) => faulty(alloc, config, fault),
    }
}

/// Answers the frames of the input, those of one connection, by a configuration, on the output, and says how that ended: `Done`, a
/// fault of the connection, or the verdict where the configuration has a fault or memory was refused while it was read; then nothing
/// was read of the input, and nothing written.
pub(crate) fn answer_frames<I: Read, O: Write>(
    alloc: Global,
    config: Source<'_>,
    input: &mut I,
    output: &mut O,
) -> Outcome
    ensures { AnswersFrames config.entry (config_of config.entry.text.now)
        (record { unread = I.remaining input.old; written = O.contents output.old })
        (record { unread = I.remaining input.new; written = O.contents output.new }) result }
{
    match read_config(alloc, config.text) {
        Ok((plan, _policy)) => served(serve_alone(alloc, &plan, input, output)),
        Err(fault) => faulty(alloc, config, fault),
    }
}

/// Answers the lines of the input by a configuration as `answer_text` does, and tells of each on the error stream, once it is
/// answered: what it asked, what was answered and what changed, in words.
pub(crate) fn answer_aloud<I: Read, O: Write, E: Write>(
    alloc: Global,
    config: Source<'_>,
    input: &mut I,
    output: &mut O,
    errors: &mut E,
) -> Outcome
    ensures { AnswersText config.entry (config_of config.entry.text.now)
        (record { unread = I.remaining input.old; written = O.contents output.old })
        (record { unread = I.remaining input.new; written = O.contents output.new }) result }
{
    match read_config(alloc, config.text) {
        Ok((plan, _policy)) => outcome_of(run_aloud(alloc, &plan, input, output, errors)),
        Err(fault) => faulty(alloc, config, fault),
    }
}

/// Answers the lines of the input by a meter of the plan that begins at its start, and tells of each on the error stream.
fn run_aloud<I: Read, O: Write, E: Write>(
    alloc: Global,
    plan: &Plan,
    input: &mut I,
    output: &mut O,
    errors: &mut E,
) -> Result<u64, LineFault>
    ensures { RunsLines plan.now
        (record { unread = I.remaining input.old; written = O.contents output.old })
        (record { unread = I.remaining input.new; written = O.contents output.new }) result }
{
    let Ok(mut watched) = Watched::start(alloc, plan, errors) else {
        return Err(LineFault::Memory);
    };
    run_watched(alloc, &mut watched, input, output)
}

/// Writes the edges of a configuration on the output in a form, and says how that ended: `Done`, a fault of the list, or the verdict where
/// the configuration has a fault or memory was refused while it was read; then nothing was written.
pub(crate) fn list_edges<O: Write>(
    alloc: Global,
    config: Source<'_>,
    form: EdgesForm,
    output: &mut O,
) -> Outcome
    ensures { ListsEdges form config.entry
        (config_of config.entry.text.now) (O.contents output.old) (O.contents output.new) result }
{
    match read_config(alloc, config.text) {
        Ok((plan, policy)) => listed(write_in_form(alloc, &plan, &policy, form, output)),
        Err(fault) => faulty(alloc, config, fault),
    }
}

/// Writes the edges of a plan in a form.
fn write_in_form<O: Write>(
    alloc: Global,
    plan: &Plan,
    policy: &Policy,
    form: EdgesForm,
    output: &mut O,
) -> Result<(), ListFault>
    ensures { WritesText (edges_in form plan.now) (O.contents output.old) (O.contents output.new) result }
{
    let map = FlowMap::new(alloc, plan, policy)?;
    write_edges_in(alloc, &map, form, output)
}

/// Writes the edges that are known of a configuration in a form.
fn write_edges_in<O: Write>(
    alloc: Global,
    map: &FlowMap<'_>,
    form: EdgesForm,
    output: &mut O,
) -> Result<(), ListFault>
    ensures { WritesText (edges_in form map.now.plan) (O.contents output.old) (O.contents output.new) result }
{
    match form {
        EdgesForm::Text => write_edges(alloc, map, output),
        EdgesForm::Dot => write_dot(alloc, map, output),
    }
}

/// Writes the least labels of a configuration on the output, and says how that ended, as `list_edges` does, with what is warned of.
pub(crate) fn list_labels<O: Write>(
    alloc: Global,
    config: Source<'_>,
    warned: Warned,
    output: &mut O,
) -> Outcome
    ensures { ListsLabels warned config.entry
        (config_of config.entry.text.now) (O.contents output.old) (O.contents output.new) result }
{
    match read_config(alloc, config.text) {
        Ok((plan, policy)) => list_labels_of(alloc, config, &plan, &policy, warned, output),
        Err(fault) => faulty(alloc, config, fault),
    }
}

/// Writes the least labels of a plan on the output, and says how that ended, with what is warned of the plan and its policy, which the
/// configuration in a file has.
fn list_labels_of<'x, O: Write>(
    alloc: Global,
    config: Source<'x>,
    plan: &'x Plan,
    policy: &'x Policy,
    warned: Warned,
    output: &mut O,
) -> Outcome
    ensures { ListsLabelsOf warned config.entry
        plan.now policy.now (O.contents output.old) (O.contents output.new) result }
{
    match write_least(alloc, plan, policy, output) {
        Ok(()) => {
            let of = Warning {
                config,
                labels: None,
                plan,
                policy,
            };
            Outcome::Warned(warnings_on(alloc, of, warned))
        }
        Err(fault) => Outcome::Unwritten(fault),
    }
}

/// Writes the least labels of a plan.
fn write_least<O: Write>(
    alloc: Global,
    plan: &Plan,
    policy: &Policy,
    output: &mut O,
) -> Result<(), ListFault>
    ensures { WritesLeast plan.now (O.contents output.old) (O.contents output.new) result }
{
    let least = LeastMap::new(alloc, plan, policy)?;
    write_least_labels(alloc, &least, output)
}

/// What explains a verdict on the configuration in a file and the labels in another; nothing where they are accepted (own profile).
pub(crate) fn explain_verdict(
    alloc: Global,
    config: Source<'_>,
    labels: Source<'_>,
    verdict: &Verdict,
) -> Remarks
    ensures { ExplainsVerdict verdict.now (told_of result) }
{
    match verdict {
        Verdict::Accepted => Remarks::none(alloc),
        Verdict::Config(fault) => {
            Remarks::of(
                alloc,
                explain_config(alloc, config.file, config.text, fault),
            )
        }
        Verdict::Labels(fault) => {
            Remarks::of(
                alloc,
                explain_labels(alloc, labels.file, labels.text, fault),
            )
        }
        Verdict::Refused(refused) => Remarks::of(alloc, explain_refusal(alloc, refused)),
    }
}

/// A command that came to a verdict on the configuration in a file and the labels in another, with what explains it.
pub(crate) fn judged(
    alloc: Global,
    config: Source<'_>,
    labels: Source<'_>,
    verdict: Verdict,
) -> Outcome
    ensures { IsJudged verdict result }
{
    let explanation = explain_verdict(alloc, config, labels, &verdict);
    Outcome::Judged(verdict, explanation)
}

/// A command that came to a verdict, with what explains it and all that fails; or without memory for the latter.
fn judged_whole(
    alloc: Global,
    config: Source<'_>,
    labels: Source<'_>,
    whole: WholeVerdict,
) -> Outcome
    ensures { IsJudgedWhole whole.verdict
        (option_map string_bytes whole.failures) result }
{
    let WholeVerdict { verdict, failures } = whole;
    match failures {
        Some(failures) => judged_behind(alloc, config, labels, verdict, failures),
        None => Outcome::Unwritten(ListFault::Memory),
    }
}

/// A command that came to a verdict and to these lines of all that fails, with what explains it.
fn judged_behind(
    alloc: Global,
    config: Source<'_>,
    labels: Source<'_>,
    verdict: Verdict,
    failures: String,
) -> Outcome
    ensures { IsJudgedWhole verdict (Some (string_bytes failures)) result }
{
    let explanation = explain_verdict(alloc, config, labels, &verdict);
    Outcome::JudgedWhole(verdict, failures, explanation)
}

/// What is accepted of a plan and its policy, which the configuration in a file has, and of the labels in another; or how a command
/// ends that came to no acceptance, with all that fails where that is asked for.
pub(crate) fn accepted_of_texts(
    alloc: Global,
    config: Source<'_>,
    labels: Source<'_>,
    plan: Plan,
    policy: &Policy,
    tells_all: bool,
) -> Result<Checked, Outcome>
    ensures plan { IfOk result (λ checked. checked.plan ≡ plan) }
    ensures policy { IfOk result (λ checked. checked.policy ≡ policy.now) }
    ensures admitted { IfOk result (λ _. IsVerdictOn plan policy.now labels.entry.text.now Accepted) }
    ensures refused { IfErr result
        (RefusesOn labels.entry plan policy.now tells_all) }
{
    if tells_all {
        match accepted_or_whole(alloc, plan, policy, labels.text) {
            Ok(checked) => Ok(checked),
            Err(whole) => Err(judged_whole(alloc, config, labels, whole)),
        }
    } else {
        match accepted(alloc, plan, policy, labels.text) {
            Ok(checked) => Ok(checked),
            Err(verdict) => Err(judged(alloc, config, labels, verdict)),
        }
    }
}

/// A command that came to the verdict on a plan and its policy, which the configuration in a file has, and on the labels in another, and
/// to all that fails where that is asked for, with what is warned of.
pub(crate) fn checked(
    alloc: Global,
    config: Source<'_>,
    labels: Source<'_>,
    made: (Plan, Policy),
    tells_all: bool,
    warned: Warned,
) -> Outcome
    ensures { IsChecked tells_all warned config.entry labels.entry made.0 made.1 result }
{
    let (plan, policy) = made;
    let of = Warning {
        config,
        labels: Some(labels),
        plan: &plan,
        policy: &policy,
    };
    let warnings = warnings_on(alloc, of, warned);
    let outcome = match accepted_of_texts(alloc, config, labels, plan, &policy, tells_all) {
        Ok(_checked) => Outcome::Judged(Verdict::Accepted, Remarks::none(alloc)),
        Err(outcome) => outcome,
    };
    with_warnings(outcome, &warnings)
}

/// A command whose configuration has a fault, with what explains it.
pub(crate) fn faulty(alloc: Global, config: Source<'_>, fault: ConfigFault) -> Outcome
    ensures { IsFaulty fault result }
{
    let explanation = explain_config(alloc, config.file, config.text, &fault);
    Outcome::Judged(Verdict::Config(fault), Remarks::of(alloc, explanation))
}
