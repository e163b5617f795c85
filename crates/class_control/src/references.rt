//! The objects to which scripts and thresholds refer.
ghost use Rattle.std.specs.Prelude.{◌≡◌, ◌++◌, flat_map, map, OnOk};
ghost use Rattle.meter_theory.specs.Edges.{scripts_named};
ghost use Rattle.cosem_class.specs.Parts.{target};
ghost use Rattle.class_control.specs.ActionView.{action_of};
ghost use Rattle.class_control.specs.ScriptView.{script_of};

use crate::action::Action;
use crate::script::Script;
use cosem_data::memory::Memory;
use cosem_data::name::LogicalName;
use meter_theory::refs::{ScriptRef, UpDown};

/// Adds the targets of scripts.
pub(crate) fn push_scripts(scripts: &[Script], names: &mut Vec<LogicalName>) -> Result<(), Memory>
    ensures { OnOk result (names.new.items
        ≡ names.old.items ++ flat_map (λ s. map target s.actions) (map script_of scripts.now)) }
{
    for script in scripts {
        push_targets(&script.actions, names)?;
    }
    Ok(())
}

/// Adds the targets of actions.
fn push_targets(actions: &[Action], names: &mut Vec<LogicalName>) -> Result<(), Memory>
    ensures { OnOk result (names.new.items ≡ names.old.items ++ map target (map action_of actions.now)) }
{
    for action in actions {
        names.push(target_of(action))?;
    }
    Ok(())
}

/// The object whose attribute an action writes, or whose method it executes.
fn target_of(action: &Action) -> LogicalName
    ensures { result ≡ target (action_of action.now) }
{
    match action {
        Action::Write { cell, .. } => cell.name,
        Action::Invoke { method, .. } => method.name,
    }
}

/// Adds the script tables of a monitor's actions.
pub(crate) fn push_tables(actions: &[UpDown], names: &mut Vec<LogicalName>) -> Result<(), Memory>
    ensures { OnOk result (names.new.items
        ≡ names.old.items ++ map (λ r. r.table) (scripts_named actions.now)) }
{
    for action in actions {
        names.push(action.up.table)?;
        names.push(action.down.table)?;
    }
    Ok(())
}

/// Adds the script tables of scripts.
pub(crate) fn push_named_tables(
    scripts: &[ScriptRef],
    names: &mut Vec<LogicalName>,
) -> Result<(), Memory>
    ensures { OnOk result (names.new.items ≡ names.old.items ++ map (λ r. r.table) scripts.now) }
{
    for script in scripts {
        names.push(script.table)?;
    }
    Ok(())
}
