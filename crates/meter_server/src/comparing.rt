//! What a new configuration gives and takes (own profile).
ghost use Rattle.std.specs.Prelude.{◌≡◌, MatchResult, Ok, string_bytes};
ghost use Rattle.flow_changes.specs.Written.{WritesComparison};
ghost use Rattle.meter_server.specs.Comparing.{ComparesFiles, ComparesWith, FailsSide, IsFaultySide, IsMadeOf};

use crate::files::{source_of, text_of_file};
use crate::outcome::{Outcome, Side, compared};
use crate::remarks::Remarks;
use crate::texts::Source;
use config_reader::read_config;
use config_text::fault::ConfigFault;
use explanations::config::explain_config;
use flow_changes::compare::write_comparison;
use flow_map::least::LeastMap;
use object_model::plan::Plan;
use object_model::policy::Policy;
use std::alloc::Global;
use std::io::Write;
use text_files::TextFiles;
use verdict::Verdict;
use whole_writes::fault::ListFault;

/// Writes how the configuration in a new file differs from that in an old one on the output, and says how that ended.
pub(crate) fn compare_files<F: TextFiles, O: Write>(
    alloc: Global,
    files: &F,
    old: &str,
    new: &str,
    output: &mut O,
) -> Outcome
    ensures { ComparesFiles (F.may_read files.now) old.now new.now
        (O.contents output.old) (O.contents output.new) result }
{
    match made_of(alloc, files, Side::Old, old) {
        Ok((plan, policy)) => compare_with(alloc, files, &plan, &policy, new, output),
        Err(outcome) => outcome,
    }
}

/// Writes how the configuration in a new file differs from one of this plan and this policy.
fn compare_with<F: TextFiles, O: Write>(
    alloc: Global,
    files: &F,
    old: &Plan,
    old_policy: &Policy,
    new: &str,
    output: &mut O,
) -> Outcome
    ensures { ComparesWith (F.may_read files.now) old.now old_policy.now new.now
        (O.contents output.old) (O.contents output.new) result }
{
    match made_of(alloc, files, Side::New, new) {
        Ok((plan, policy)) => {
            compared(write_between(alloc, old, old_policy, &plan, &policy, output))
        }
        Err(outcome) => outcome,
    }
}

/// Writes how a plan and its policy differ from others, and says whether somebody gains.
fn write_between<O: Write>(
    alloc: Global,
    old: &Plan,
    old_policy: &Policy,
    new: &Plan,
    new_policy: &Policy,
    output: &mut O,
) -> Result<bool, ListFault>
    ensures { WritesComparison old.now old_policy.now new.now new_policy.now
        (O.contents output.old) (O.contents output.new) result }
{
    let old = LeastMap::new(alloc, old, old_policy)?;
    let new = LeastMap::new(alloc, new, new_policy)?;
    write_comparison(alloc, &old, &new, output)
}

/// The plan and the policy of the configuration in a file, or how a command ends that needs them.
pub(crate) fn made_of<F: TextFiles>(
    alloc: Global,
    files: &F,
    side: Side,
    file: &str,
) -> Result<(Plan, Policy), Outcome>
    ensures { MatchResult result
        (IsMadeOf (F.may_read files.now) file.now)
        (FailsSide (F.may_read files.now) side file.now) }
{
    let text = text_of_file(alloc, files, file)?;
    let config = source_of(file, &text);
    match read_config(alloc, config.text) {
        Ok(made) => Ok(made),
        Err(fault) => Err(faulty_side(alloc, side, config, fault)),
    }
}

/// A command of two configurations of which this one has a fault, with what explains it.
fn faulty_side(alloc: Global, side: Side, config: Source<'_>, fault: ConfigFault) -> Outcome
    ensures { IsFaultySide side fault result }
{
    let explanation = explain_config(alloc, config.file, config.text, &fault);
    Outcome::JudgedSide(
        side,
        Verdict::Config(fault),
        Remarks::of(alloc, explanation),
    )
}
