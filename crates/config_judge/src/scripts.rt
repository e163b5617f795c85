//! C14 and C15: scripts with identifier 0 or that of an earlier one, and actions that execute a script table.
ghost use Rattle.std.specs.Prelude.{◌≡◌, ◌++◌, OnOk, codes};
ghost use Rattle.config_text.specs.Refusals.{Finds};
ghost use Rattle.config_rules.specs.Passes as passes;
ghost use Rattle.config_rules.specs.Walks as walks;

use crate::directory::Directory;
use crate::reference_walk::each_action;
use crate::references::{has_id, scripts_in};
use crate::walk::{each_new, judge_objects};
use config_text::cause::Cause;
use config_text::fault::{ConfigFault, PlacedFault};
use config_text::noting::note_if;
use config_text::parts::{ActionParts, ConfigParts, ScriptParts};
use config_text::place::Place;
use config_text::service::Service;
use cosem_data::memory::Memory;
use meter_theory::classes::{Class, is_of_class};
use std::alloc::Global;

/// Notes that a script's identifier is 0 or that of an earlier one, where it is.
fn new_script(
    faults: &mut Vec<PlacedFault>,
    earlier: &[ScriptParts],
    at: &Place<'_>,
    script: &ScriptParts,
) -> Result<(), Memory>
    ensures { OnOk result (faults.new.items ≡ faults.old.items
        ++ passes.new_script earlier.now at.now script.now) }
{
    let taken = script.id == 0 || has_id(earlier, u64::from(script.id));
    let cause = if script.id == 0 {
        Cause::ScriptZero
    } else {
        Cause::ScriptTwice
    };
    note_if(faults, cause, at, ".id", taken)
}

/// Notes the identifiers of scripts that aren't new.
fn new_scripts_in(
    faults: &mut Vec<PlacedFault>,
    at: &Place<'_>,
    scripts: &[ScriptParts],
) -> Result<(), Memory>
    ensures { OnOk result (faults.new.items ≡ faults.old.items
        ++ walks.each_new passes.new_script (at.now ++ codes ".script") scripts.now) }
{
    each_new(faults, &at.below(".script"), scripts, new_script)
}

/// Judges the identifiers of scripts.
///
/// # Errors
/// C14 at each identifier that is 0 or that of an earlier script of its table.
#[tactic(auto, unfolding(config_rules::specs::Passes::new_scripts))]
pub(crate) fn new_scripts(alloc: Global, config: &ConfigParts) -> Result<(), ConfigFault>
    ensures { Finds result (passes.new_scripts config.now) }
{
    judge_objects(alloc, config, |faults, at, object| {
        new_scripts_in(faults, at, scripts_in(&object.body))
    })
}

/// Whether an action executes a script table.
fn executes(directory: &Directory<'_>, action: &ActionParts) -> bool
    ensures { result ≡ passes.executes directory.now.config.now action.now }
{
    let class = directory.class(action.target.object.as_str());
    match action.service {
        Service::Write => false,
        Service::Invoke => is_of_class(class, Class::ScriptTable),
    }
}

/// Notes the actions of scripts that execute a script table.
fn no_executes_in(
    faults: &mut Vec<PlacedFault>,
    directory: &Directory<'_>,
    at: &Place<'_>,
    scripts: &[ScriptParts],
) -> Result<(), Memory>
    ensures { OnOk result (faults.new.items ≡ faults.old.items
        ++ walks.each_action (passes.no_execute directory.now.config.now) at.now scripts.now) }
{
    each_action(faults, at, scripts, |faults, at, action| {
        note_if(
            faults,
            Cause::Execute,
            at,
            ".object",
            executes(directory, action),
        )
    })
}

/// Judges what scripts execute.
///
/// # Errors
/// C15 at each action that calls a method of a script table.
#[tactic(auto, unfolding(config_rules::specs::Passes::no_executes))]
pub(crate) fn no_executes(alloc: Global, directory: &Directory<'_>) -> Result<(), ConfigFault>
    ensures { Finds result (passes.no_executes directory.now.config.now) }
{
    judge_objects(alloc, directory.config, |faults, at, object| {
        no_executes_in(faults, directory, at, scripts_in(&object.body))
    })
}
