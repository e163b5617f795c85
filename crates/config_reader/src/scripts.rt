//! The scripts of a configuration.
ghost use Rattle.std.specs.Prelude.{◌≡◌, IfOk, map, true};
ghost use Rattle.std.specs.List.{list_all};
ghost use Rattle.cosem_data.specs.View.{tree};
ghost use Rattle.class_control.specs.ActionView.{action_of, has_index};
ghost use Rattle.class_control.specs.ScriptView.{script_of};
ghost use Rattle.config_rules.specs.PlanOf as plan;

use class_control::action::Action;
use class_control::script::Script;
use config_judge::arrays::value_or_null;
use config_judge::directory::Directory;
use config_judge::targets::{cell_named, method_named};
use config_text::hex_value::HexValue;
use config_text::parts::{ActionParts, ScriptParts};
use config_text::service::Service;
use cosem_data::data::Data;
use cosem_data::memory::Memory;
use std::alloc::Global;

/// A copy of an action's value, null-data where it has none.
fn parameter_of(alloc: Global, value: &Option<HexValue>) -> Result<Data, Memory>
    ensures { IfOk result (λ parameter. tree parameter ≡ plan.parameter_of value.now) }
{
    match value {
        Some(hex) => value_or_null(alloc, hex),
        None => Ok(Data::NullData),
    }
}

/// An action of a script (IEC 62056-6-2, Script table, action_specification).
fn action(alloc: Global, directory: &Directory, parts: &ActionParts) -> Result<Action, Memory>
    ensures action { IfOk result (λ action. action_of action
        ≡ plan.action_of directory.now.config.now parts.now.service parts.now.target parts.now.value) }
    ensures index { IfOk result (λ action. has_index action ≡ true) }
{
    let value = parameter_of(alloc, &parts.value)?;
    Ok(match parts.service {
        Service::Write => Action::Write {
            cell: cell_named(directory, &parts.target),
            value,
        },
        Service::Invoke => Action::Invoke {
            method: method_named(directory, &parts.target),
            parameter: value,
        },
    })
}

fn actions(
    alloc: Global,
    directory: &Directory,
    parts: &[ActionParts],
) -> Result<Vec<Action>, Memory>
    ensures actions { IfOk result (λ list. map action_of list.items
        ≡ map (λ a. plan.action_of directory.now.config.now a.service a.target a.value) parts.now) }
    ensures indexes { IfOk result (λ list. list_all has_index list.items ≡ true) }
{
    let mut list = Vec::with_capacity(alloc, parts.len())?;
    for part in parts {
        list.push(action(alloc, directory, part)?)?;
    }
    Ok(list)
}

fn script(alloc: Global, directory: &Directory, parts: &ScriptParts) -> Result<Script, Memory>
    ensures { IfOk result (λ script. script_of script
        ≡ plan.script_of directory.now.config.now parts.now) }
{
    let actions = actions(alloc, directory, parts.actions.as_slice())?;
    Ok(Script {
        id: parts.id,
        actions,
    })
}

/// The scripts of a table, in order (IEC 62056-6-2, Script table).
pub(crate) fn scripts_of(
    alloc: Global,
    directory: &Directory,
    parts: &[ScriptParts],
) -> Result<Vec<Script>, Memory>
    ensures { IfOk result (λ scripts. map script_of scripts.items
        ≡ map (plan.script_of directory.now.config.now) parts.now) }
{
    let mut scripts = Vec::with_capacity(alloc, parts.len())?;
    for part in parts {
        scripts.push(script(alloc, directory, part)?)?;
    }
    Ok(scripts)
}
