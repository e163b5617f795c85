//! The attributes and scripts that the parts of a plan have.
ghost use Rattle.std.specs.Prelude.{◌≡◌, IfOk, [], map, option_map, unwrap_or};
ghost use Rattle.config_rules.specs.PlanOf as plan;

use config_judge::directory::Directory;
use config_judge::targets::{cells_named, script_named};
use config_text::parts::{AlternativeParts, ScriptRefParts, UpDownParts};
use cosem_data::cell::CellRef;
use cosem_data::memory::Memory;
use meter_theory::refs::{ScriptRef, UpDown};
use std::alloc::Global;

/// The attributes that each alternative captures, in order.
fn alternatives_of(
    alloc: Global,
    directory: &Directory,
    alternatives: &[AlternativeParts],
) -> Result<Vec<Vec<CellRef>>, Memory>
    ensures { IfOk result (λ menu. map (λ cells. cells.items) menu.items
        ≡ map (plan.cells_named directory.now.config.now) alternatives.now) }
{
    let mut menu = Vec::with_capacity(alloc, alternatives.len())?;
    for alternative in alternatives {
        menu.push(cells_named(alloc, directory, alternative.captures.as_slice())?)?;
    }
    Ok(menu)
}

/// The alternatives to what a profile captures, none where it has no menu.
pub(crate) fn capture_menu(
    alloc: Global,
    directory: &Directory,
    menu: &Option<Vec<AlternativeParts>>,
) -> Result<Vec<Vec<CellRef>>, Memory>
    ensures { IfOk result (λ lists. map (λ cells. cells.items) lists.items
        ≡ map (plan.cells_named directory.now.config.now)
        (unwrap_or (option_map (λ menu. menu.items) menu.now) [])) }
{
    match menu {
        Some(alternatives) => alternatives_of(alloc, directory, alternatives.as_slice()),
        None => Ok(Vec::new(alloc)),
    }
}

/// The scripts that are named, in order.
fn scripts_named(alloc: Global, scripts: &[ScriptRefParts]) -> Result<Vec<ScriptRef>, Memory>
    ensures { IfOk result (λ menu. menu.items ≡ map plan.script_named scripts.now) }
{
    let mut menu = Vec::with_capacity(alloc, scripts.len())?;
    for script in scripts {
        menu.push(script_named(script))?;
    }
    Ok(menu)
}

/// The alternatives to the script of a schedule, none where it has no menu.
pub(crate) fn script_menu(
    alloc: Global,
    menu: &Option<Vec<ScriptRefParts>>,
) -> Result<Vec<ScriptRef>, Memory>
    ensures { IfOk result (λ scripts. scripts.items
        ≡ map plan.script_named (unwrap_or (option_map (λ menu. menu.items) menu.now) [])) }
{
    match menu {
        Some(scripts) => scripts_named(alloc, scripts.as_slice()),
        None => Ok(Vec::new(alloc)),
    }
}

/// What is run at each threshold, in order.
pub(crate) fn actions_of(alloc: Global, actions: &[UpDownParts]) -> Result<Vec<UpDown>, Memory>
    ensures { IfOk result (λ list. list.items ≡ map plan.up_down_of actions.now) }
{
    let mut list = Vec::with_capacity(alloc, actions.len())?;
    for action in actions {
        list.push(UpDown {
            up: script_named(&action.up),
            down: script_named(&action.down),
        })?;
    }
    Ok(list)
}
