//! The verdict on one configuration and on labels for it.
ghost use Rattle.std.specs.Prelude.{◌≡◌, ◌≢◌, [], IfErr, IfOk, Some, option_map, string_bytes};
ghost use Rattle.config_reader.specs.ConfigOf.{config_of};
ghost use Rattle.verdict.specs.Judging.{IsAllOf, IsVerdict, IsVerdictOn, IsWholeVerdictOn};

use crate::Verdict;
use crate::failures::failures_told;
use config_reader::read_config;
use flow_checker::check::{Checked, check};
use label_certificate::fault::LabelFault;
use label_certificate::labels::Labels;
use label_certificate::reading::read_labels;
use object_model::plan::Plan;
use object_model::policy::Policy;
use std::alloc::Global;

/// The verdict on a configuration and on labels for it, both as texts (own profile). The text of the labels is read only where
/// the configuration has no fault.
pub fn verdict_of(alloc: Global, config: &str, labels: &str) -> Verdict
    ensures { IsVerdict (config_of config.now) labels.now result }
{
    match read_config(alloc, config) {
        Ok((plan, policy)) => judge_labels(alloc, plan, &policy, labels),
        Err(fault) => Verdict::Config(fault),
    }
}

/// The verdict on the labels that a text holds for a plan and its policy: the fault of the text, or else whether they are
/// accepted (own profile).
pub(crate) fn judge_labels(alloc: Global, plan: Plan, policy: &Policy, labels: &str) -> Verdict
    ensures { IsVerdictOn plan policy.now labels.now result }
{
    match accepted(alloc, plan, policy, labels) {
        Ok(_checked) => Verdict::Accepted,
        Err(verdict) => verdict,
    }
}

/// A verdict that doesn't accept, and the lines of all that fails, if there was memory for them; none but of refused labels.
#[derive(Drop)]
pub struct WholeVerdict {
    /// The verdict.
    pub verdict: Verdict,
    /// A line for each failure.
    pub failures: Option<String>,
}

/// What is accepted of a plan, its policy and the labels that a text holds for them, or else the verdict and all that fails (own
/// profile).
pub fn accepted_or_whole(
    alloc: Global,
    plan: Plan,
    policy: &Policy,
    labels: &str,
) -> Result<Checked, WholeVerdict>
    ensures plan { IfOk result (λ checked. checked.plan ≡ plan) }
    ensures policy { IfOk result (λ checked. checked.policy ≡ policy.now) }
    ensures admitted { IfOk result (λ _. IsVerdictOn plan policy.now labels.now Verdict.Accepted) }
    ensures err { IfErr result (λ whole. IsWholeVerdictOn plan policy.now labels.now
        whole.verdict (option_map string_bytes whole.failures)) }
    ensures refused { IfErr result (λ whole. whole.verdict ≢ Verdict.Accepted) }
{
    let labels = match read_labels(alloc, &plan, labels) {
        Ok(labels) => labels,
        Err(fault) => return Err(unread(alloc, fault)),
    };
    match check(alloc, plan, policy, &labels) {
        Ok(checked) => Ok(checked),
        Err((refused, plan)) => Err(WholeVerdict {
            failures: failures_if_told(alloc, &plan, policy, &labels),
            verdict: Verdict::Refused(refused),
        }),
    }
}

/// The lines of all that fails, if there is memory for them.
fn failures_if_told(alloc: Global, plan: &Plan, policy: &Policy, labels: &Labels) -> Option<String>
    ensures { IsAllOf plan.now policy.now labels.now (option_map string_bytes result) }
{
    match failures_told(alloc, plan, policy, labels) {
        Ok(failures) => Some(failures),
        Err(_) => None,
    }
}

/// The verdict on labels that can't be read, of which nothing more is told.
fn unread(alloc: Global, fault: LabelFault) -> WholeVerdict
    ensures verdict { result.verdict ≡ Verdict.Labels fault }
    ensures failures { option_map string_bytes result.failures ≡ Some [] }
{
    WholeVerdict {
        verdict: Verdict::Labels(fault),
        failures: Some(String::new(alloc)),
    }
}

/// What is accepted of a plan, its policy and the labels that a text holds for them, or else the verdict (own profile).
pub fn accepted(
    alloc: Global,
    plan: Plan,
    policy: &Policy,
    labels: &str,
) -> Result<Checked, Verdict>
    ensures plan { IfOk result (λ checked. checked.plan ≡ plan) }
    ensures policy { IfOk result (λ checked. checked.policy ≡ policy.now) }
    ensures admitted { IfOk result (λ _. IsVerdictOn plan policy.now labels.now Verdict.Accepted) }
    ensures err { IfErr result (λ verdict. IsVerdictOn plan policy.now labels.now verdict) }
    ensures refused { IfErr result (λ verdict. verdict ≢ Verdict.Accepted) }
{
    let labels = match read_labels(alloc, &plan, labels) {
        Ok(labels) => labels,
        Err(fault) => return Err(Verdict::Labels(fault)),
    };
    match check(alloc, plan, policy, &labels) {
        Ok(checked) => Ok(checked),
        Err((refused, _plan)) => Err(Verdict::Refused(refused)),
    }
}
