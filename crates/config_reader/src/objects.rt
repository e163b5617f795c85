//! The objects of a configuration.
ghost use Rattle.std.specs.Prelude.{◌≡◌, ◌≤◌, IfOk, map, length, option_map, true};
ghost use Rattle.std.specs.List.{list_all};
ghost use Rattle.cosem_data.specs.View.{tree};
ghost use Rattle.config_text.specs.BodyView.{body_text};
ghost use Rattle.meter_theory.specs.Plan as theory;
ghost use Rattle.meter_theory.specs.declared.limits.TheConstants.{PROFILE_ENTRIES};
ghost use Rattle.object_model.specs.PartView.{part_of};
ghost use Rattle.config_rules.specs.PlanOf as plan;
ghost use Rattle.config_reader.specs.Room.{has_room};

use crate::scripts::scripts_of;
use crate::targets::{actions_of, capture_menu, script_menu};
use civil_moment::moment::Moment;
use class_control::parts::{ClockPart, MonitorPart, SchedulePart, ScriptTablePart};
use class_profile::profile::ProfilePart;
use config_judge::arrays::{times_of, value_or_null, values_of};
use config_judge::directory::Directory;
use config_judge::targets::{cell_named, cells_named, name_of, script_named};
use config_text::hex_value::{HexBytes, HexValue};
use config_text::parts::{
    AlternativeParts, BodyParts, CaptureParts, ObjectParts, ScriptRefParts, TargetParts,
    UpDownParts,
};
use cosem_class::data1::DataPart;
use cosem_class::register::RegisterPart;
use cosem_data::data::{Data, Items};
use cosem_data::memory::Memory;
use meter_theory::refs::ScalerUnit;
use object_model::object::Object;
use object_model::part::Part;
use std::alloc::Global;

fn register(
    alloc: Global,
    value: &HexValue,
    default: &HexValue,
    scaler_unit: ScalerUnit,
) -> Result<Part, Memory>
    ensures { IfOk result (λ part. part_of part
        ≡ theory.Register (plan.value_of value.now) (plan.value_of default.now) scaler_unit) }
{
    let start = value_or_null(alloc, value)?;
    let default = value_or_null(alloc, default)?;
    Ok(Part::Register(RegisterPart {
        start,
        default,
        scaler_unit,
    }))
}

fn profile(
    alloc: Global,
    directory: &Directory,
    captures: &[CaptureParts],
    menu: &Option<Vec<AlternativeParts>>,
    capture_period: u32,
    entries: u64,
) -> Result<Part, Memory>
    requires some { 1 ≤ entries }
    requires few { entries ≤ PROFILE_ENTRIES }
    ensures { IfOk result (λ part. part_of part ≡ theory.ProfileGeneric
        (plan.captures_of directory.now.config.now
        (record { start = captures.now; menu = option_map (λ alternatives. alternatives.items) menu.now }))
        capture_period entries) }
{
    let captured = cells_named(alloc, directory, captures)?;
    let menu = capture_menu(alloc, directory, menu)?;
    Ok(Part::ProfileGeneric(ProfilePart {
        captured,
        menu,
        capture_period,
        profile_entries: entries as u32,
    }))
}

/// The moment that a text is, the first one where it is none.
fn moment_of(text: &str) -> Moment
    ensures { result ≡ plan.moment_of text.now }
{
    match Moment::read(text) {
        Ok(moment) => moment,
        Err(_) => Moment::first(),
    }
}

fn monitor(
    alloc: Global,
    directory: &Directory,
    monitored: &TargetParts,
    thresholds: &[HexValue],
    actions: &[UpDownParts],
) -> Result<Part, Memory>
    ensures { IfOk result (λ part. part_of part ≡ theory.RegisterMonitor
        (plan.cell_named directory.now.config.now monitored.now)
        (plan.thresholds_value thresholds.now) (map plan.up_down_of actions.now)) }
{
    let start = Data::Array(Items::new(values_of(alloc, thresholds)?));
    let actions = actions_of(alloc, actions)?;
    Ok(Part::RegisterMonitor(MonitorPart {
        monitored_value: cell_named(directory, monitored),
        start,
        actions,
    }))
}

fn schedule(
    alloc: Global,
    script: &ScriptRefParts,
    menu: &Option<Vec<ScriptRefParts>>,
    execution_type: u8,
    times: &[HexBytes],
) -> Result<Part, Memory>
    ensures { IfOk result (λ part. part_of part ≡ theory.SingleActionSchedule
        (plan.scripts_of (record { start = script.now; menu = option_map (λ scripts. scripts.items) menu.now }))
        execution_type (plan.times_value times.now)) }
{
    let start = Data::Array(Items::new(times_of(alloc, times)?));
    let menu = script_menu(alloc, menu)?;
    Ok(Part::SingleActionSchedule(SchedulePart {
        executed_script: script_named(script),
        menu,
        execution_type,
        start,
    }))
}

/// What a plan fixes of an object, by what the configuration says of its class. A class that isn't known has an empty
/// script table's part: no configuration without faults has one.
fn part(alloc: Global, directory: &Directory, body: &BodyParts) -> Result<Part, Memory>
    requires { has_room (body_text body.now) ≡ true }
    ensures { IfOk result (λ part. part_of part
        ≡ plan.part_of directory.now.config.now (body_text body.now)) }
{
    match body {
        BodyParts::Data { value } => Ok(Part::Data(DataPart {
            start: value_or_null(alloc, value)?,
        })),
        BodyParts::Register {
            value,
            default,
            scaler,
            unit,
        } => {
            let scaler_unit = ScalerUnit {
                scaler: *scaler,
                unit: *unit,
            };
            register(alloc, value, default, scaler_unit)
        }
        BodyParts::ProfileGeneric {
            capture,
            period,
            entries,
            menu,
            ..
        } => profile(
            alloc,
            directory,
            capture.as_slice(),
            menu,
            *period,
            *entries,
        ),
        BodyParts::Clock { time } => Ok(Part::Clock(ClockPart {
            start: moment_of(time.as_str()),
        })),
        BodyParts::ScriptTable { scripts } => Ok(Part::ScriptTable(ScriptTablePart {
            scripts: scripts_of(alloc, directory, scripts.as_slice())?,
        })),
        BodyParts::RegisterMonitor {
            monitored,
            thresholds,
            actions,
        } => monitor(
            alloc,
            directory,
            monitored,
            thresholds.as_slice(),
            actions.as_slice(),
        ),
        BodyParts::SingleActionSchedule {
            script,
            kind,
            times,
            menu,
        } => schedule(alloc, script, menu, *kind, times.as_slice()),
        BodyParts::Unknown => Ok(Part::ScriptTable(ScriptTablePart {
            scripts: Vec::new(alloc),
        })),
    }
}

fn object(alloc: Global, directory: &Directory, parts: &ObjectParts) -> Result<Object, Memory>
    requires { has_room parts.now.body ≡ true }
    ensures { IfOk result (λ object. object ≡ plan.object_of directory.now.config.now parts.now) }
{
    let name = name_of(parts.name.as_str());
    let part = part(alloc, directory, &parts.body)?;
    Ok(Object::new(name, parts.fed, part))
}

/// The objects, in plan order.
pub(crate) fn objects_of(
    alloc: Global,
    directory: &Directory,
    parts: &[ObjectParts],
) -> Result<Vec<Object>, Memory>
    requires { list_all (λ o. has_room o.body) parts.now ≡ true }
    ensures { IfOk result (λ objects. objects.items
        ≡ map (plan.object_of directory.now.config.now) parts.now) }
{
    let mut objects = Vec::with_capacity(alloc, parts.len())?;
    for part in parts {
        objects.push(object(alloc, directory, part)?)?;
    }
    Ok(objects)
}
