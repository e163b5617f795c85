//! What a configuration without fault is warned of (own profile).
ghost use Rattle.std.specs.Prelude.{◌≡◌, IfOk, length, string_bytes};
ghost use Rattle.config_warnings.specs.Widths.{wider_cells};
ghost use Rattle.explanations.specs.Warnings.{width_line};
ghost use Rattle.explanations.specs.declared.warnings.Whose.TheVariants as whose;
ghost use Rattle.label_certificate.specs.LabelText.{labels_of_text};
ghost use Rattle.meter_theory.specs.Labels.{labelling_of_policy};
ghost use Rattle.meter_server.specs.Remarks.{told_of};
ghost use Rattle.meter_server.specs.Warning as spec;
ghost use Rattle.meter_server.specs.Warning.{IsBehind, TellsSlips, TellsWidths, Warns};

use crate::outcome::Outcome;
use crate::remarks::Remarks;
use crate::texts::Source;
use command_words::Warned;
use config_warnings::finding::warnings;
use config_warnings::widths::{wider_by_labels, wider_by_policy};
use cosem_data::memory::Memory;
use explanations::warnings::{Whose, explain_warnings, explain_width};
use flow_map::least::LeastMap;
use label_certificate::fault::LabelFault;
use label_certificate::reading::read_labels;
use object_model::plan::Plan;
use object_model::policy::Policy;
use std::alloc::Global;

/// What is warned of.
#[derive(Clone, Copy)]
pub(crate) struct Warning<'a> {
    /// The configuration in a file.
    pub config: Source<'a>,
    /// The labels in another, where they are given.
    pub labels: Option<Source<'a>>,
    pub plan: &'a Plan,
    pub policy: &'a Policy,
}

/// What is warned of.
pub(crate) fn warnings_on(alloc: Global, of: Warning<'_>, warned: Warned) -> Remarks
    ensures { Warns warned of.entry.config of.entry.labels of.entry.plan.now of.entry.policy.now (told_of result) }
{
    match warned {
        Warned::Nothing => Remarks::none(alloc),
        Warned::Slips => Remarks::of(alloc, slip_lines(alloc, of.config, of.plan)),
        Warned::SlipsAndWidths => {
            let slips = Remarks::of(alloc, slip_lines(alloc, of.config, of.plan));
            let widths = Remarks::of(alloc, width_lines(alloc, of));
            slips.with(&widths)
        }
    }
}

/// What is told of slips in a configuration.
fn slip_lines(alloc: Global, config: Source<'_>, plan: &Plan) -> Result<String, Memory>
    ensures { IfOk result (λ lines. TellsSlips plan.now (string_bytes lines)) }
{
    let slips = warnings(alloc, plan)?;
    explain_warnings(alloc, config.file, config.text, &slips)
}

/// What is told of the widths of the policy and of the labels.
fn width_lines(alloc: Global, of: Warning<'_>) -> Result<String, Memory>
    ensures { IfOk result (λ lines. TellsWidths of.entry.config of.entry.labels of.entry.plan.now of.entry.policy.now (string_bytes lines)) }
{
    let least = LeastMap::new(alloc, of.plan, of.policy)?;
    let mut lines = policy_line(alloc, of.config.file, &least)?;
    let given = given_line(alloc, of.plan, &least, of.labels)?;
    lines.push_str(&given)?;
    Ok(lines)
}

/// What is told of the width of a policy.
fn policy_line(alloc: Global, file: &str, least: &LeastMap<'_>) -> Result<String, Memory>
    ensures { let C = least.now in IfOk result (λ line. string_bytes line
        ≡ width_line file.now whose.Policy (wider_cells (labelling_of_policy C.plan C.policy) C.labels) (length C.labels)) }
{
    explain_width(
        alloc,
        file,
        Whose::Policy,
        wider_by_policy(least),
        least.labels().entries().len(),
    )
}

/// What is told of the width of the labels in a file, where one is given and they are read.
fn given_line(
    alloc: Global,
    plan: &Plan,
    least: &LeastMap<'_>,
    labels: Option<Source<'_>>,
) -> Result<String, Memory>
    ensures { IfOk result (λ line. string_bytes line ≡ spec.width_of_given plan.now least.now.labels labels.entry) }
{
    let Some(source) = labels else {
        return Ok(String::new(alloc));
    };
    labels_line(alloc, plan, least, source)
}

/// What is told of the width of the labels in a file, where they are read.
fn labels_line(
    alloc: Global,
    plan: &Plan,
    least: &LeastMap<'_>,
    source: Source<'_>,
) -> Result<String, Memory>
    ensures { IfOk result (λ line. string_bytes line
        ≡ spec.width_of_read source.entry.file.now least.now.labels (labels_of_text plan.now source.entry.text.now)) }
{
    let labels = match read_labels(alloc, plan, source.text) {
        Ok(labels) => labels,
        Err(LabelFault::Memory) => return Err(Memory),
        Err(_) => return Ok(String::new(alloc)),
    };
    let wider = wider_by_labels(alloc, least, &labels)?;
    explain_width(
        alloc,
        source.file,
        Whose::Labels,
        wider,
        least.labels().entries().len(),
    )
}

/// A command that came to a verdict, with warnings behind what explains it.
pub(crate) fn with_warnings(outcome: Outcome, warnings: &Remarks) -> Outcome
    ensures { IsBehind outcome (told_of warnings.now) result }
{
    match outcome {
        Outcome::Judged(verdict, explanation) => {
            Outcome::Judged(verdict, explanation.with(warnings))
        }
        Outcome::JudgedWhole(verdict, failures, explanation) => {
            Outcome::JudgedWhole(verdict, failures, explanation.with(warnings))
        }
        other => other,
    }
}
