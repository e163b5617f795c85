//! The fixed attributes of the classes as values, in the shapes of IEC 62056-6-2.
ghost use Rattle.std.specs.Prelude.{◌≡◌, ◌<◌, map, IfOk, true};
ghost use Rattle.cosem_data.specs.View.{tree};
ghost use Rattle.meter_theory.specs.Value.{array_of};
ghost use Rattle.meter_theory.specs.Fixed as fixed;
ghost use Rattle.meter_theory.specs.Fixed.{action_value, index_value, script_ref_value, script_value, up_down_value};
ghost use Rattle.class_control.specs.ActionView.{action_of, has_index};
ghost use Rattle.class_control.specs.ScriptView.{script_of};

use crate::action::Action;
use crate::script::Script;
use cosem_class::shapes::structure;
use cosem_data::bytes::Bytes;
use cosem_data::data::{Data, Items};
use cosem_data::memory::Memory;
use meter_theory::refs::{ScriptRef, UpDown};
use std::alloc::Global;

/// A date and time of which nothing is specified (IEC 62056-6-2, date and time formats).
pub(crate) fn no_date_time(alloc: Global) -> Result<Data, Memory>
    ensures { IfOk result (λ value. tree value ≡ fixed.no_date_time) }
{
    Ok(Data::OctetString(Bytes::new(Vec::from_slice(alloc, &[0xFF; 12])?)))
}

/// The index of an attribute or a method, an integer.
pub(crate) fn index_data(index: u8) -> Data
    requires { index < 128 }
    ensures { tree result ≡ index_value index }
{
    Data::Integer(index as i8)
}

/// action_specification of an action of a script: a structure of service_id, class_id, logical_name, index and parameter,
/// where service 1 writes an attribute and service 2 executes a method (IEC 62056-6-2, Script table).
fn action_data(alloc: Global, action: &Action) -> Result<Data, Memory>
    requires { has_index action.now ≡ true }
    ensures { IfOk result (λ value. tree value ≡ action_value (action_of action.now)) }
{
    match action {
        Action::Write { cell, value } => {
            let name = cell.name.as_octets(alloc)?;
            let value = value.try_clone(alloc)?;
            let class_id = Data::LongUnsigned(cell.class_id);
            let index = index_data(cell.index);
            structure(alloc, [Data::Enumerated(1), class_id, name, index, value])
        }
        Action::Invoke { method, parameter } => {
            let name = method.name.as_octets(alloc)?;
            let parameter = parameter.try_clone(alloc)?;
            let class_id = Data::LongUnsigned(method.class_id);
            let index = index_data(method.index);
            structure(
                alloc,
                [Data::Enumerated(2), class_id, name, index, parameter],
            )
        }
    }
}

/// A script of a table: a structure of script_identifier and its actions (IEC 62056-6-2, Script table, script).
pub(crate) fn script_data(alloc: Global, script: &Script) -> Result<Data, Memory>
    ensures { IfOk result (λ value. tree value ≡ script_value (script_of script.now)) }
{
    let mut actions = Vec::new(alloc);
    for action in &script.actions {
        actions.push(action_data(alloc, action)?)?;
    }
    let actions = Data::Array(Items::new(actions));
    structure(alloc, [Data::LongUnsigned(script.id), actions])
}

/// Scripts of a script table: an array of its scripts (IEC 62056-6-2, Script table).
pub(crate) fn scripts_data(alloc: Global, scripts: &[Script]) -> Result<Data, Memory>
    ensures { IfOk result (λ value. tree value ≡ array_of (map script_value (map script_of scripts.now))) }
{
    let mut elements = Vec::new(alloc);
    for script in scripts {
        elements.push(script_data(alloc, script)?)?;
    }
    Ok(Data::Array(Items::new(elements)))
}

/// A script of a table: a structure of the table's logical_name and script_selector (IEC 62056-6-2, Register monitor,
/// action_item; Single action schedule, executed_script).
pub(crate) fn script_ref_data(alloc: Global, script: ScriptRef) -> Result<Data, Memory>
    ensures { IfOk result (λ value. tree value ≡ script_ref_value script) }
{
    let table = script.table.as_octets(alloc)?;
    structure(alloc, [table, Data::LongUnsigned(script.script)])
}

/// What is run at a threshold: a structure of action_up and action_down (IEC 62056-6-2, Register monitor, action_set).
pub(crate) fn up_down_data(alloc: Global, action: UpDown) -> Result<Data, Memory>
    ensures { IfOk result (λ value. tree value ≡ up_down_value action) }
{
    let up = script_ref_data(alloc, action.up)?;
    let down = script_ref_data(alloc, action.down)?;
    structure(alloc, [up, down])
}

/// Actions of a register monitor: an array of what is run at each threshold (IEC 62056-6-2, Register monitor).
pub(crate) fn actions_data(alloc: Global, actions: &[UpDown]) -> Result<Data, Memory>
    ensures { IfOk result (λ value. tree value ≡ array_of (map up_down_value actions.now)) }
{
    let mut elements = Vec::new(alloc);
    for action in actions {
        elements.push(up_down_data(alloc, *action)?)?;
    }
    Ok(Data::Array(Items::new(elements)))
}
