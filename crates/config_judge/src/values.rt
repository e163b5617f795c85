//! C11: values that aren't hex, aren't one Data, or aren't of their kind, and times of clocks that are no moments.
ghost use Rattle.std.specs.Prelude.{◌≡◌, ◌==◌, ◌&&◌, ◌++◌, OnOk, IfOk, codes, length, map, not, option_and_then, option_map};
ghost use Rattle.std.specs.List.{list_all, list_any};
ghost use Rattle.cosem_data.specs.View.{tree};
ghost use Rattle.cosem_data.specs.Equal.{same_tree};
ghost use Rattle.cosem_data.specs.Kinds.{kind_of, same_kind};
ghost use Rattle.cosem_data.specs.declared.kind.Kind.TheVariants.{Array};
ghost use Rattle.meter_theory.specs.Menus.{alternatives, capture_objects_value, script_ref_value};
ghost use Rattle.meter_theory.specs.Value.{ClockTime, elements, meets};
ghost use Rattle.meter_theory.specs.Times.{are_execution_times};
ghost use Rattle.value_text.specs.Texts.{value_in};
ghost use Rattle.config_text.specs.BodyView.{body_text};
ghost use Rattle.config_text.specs.Refusals.{Finds};
ghost use Rattle.config_text.specs.Fault.{fault_where};
ghost use Rattle.config_text.specs.declared.cause.Cause.TheVariants.{NoNumber};
ghost use Rattle.config_rules.specs.Names.{object_named};
ghost use Rattle.config_rules.specs.Passes as passes;
ghost use Rattle.config_rules.specs.Values as spec;
ghost use Rattle.config_rules.specs.PlanOf as plan;
ghost use Rattle.config_rules.specs.Walks as walks;
ghost use Rattle.config_rules.specs.Written as written;
ghost use Rattle.config_rules.specs.Written.{is_one_of};
ghost use Rattle.config_judge.specs.Menus.{with_menu};
ghost use Rattle.config_judge.specs.Values.{may_be_thresholds};

use crate::directory::Directory;
use crate::kinds::{
    has_kind, is_number, is_of_kind, kind_at, may_be_number, number_kind, start_kind_in,
};
use crate::menus::menu_in;
use crate::reference_walk::each_action;
use crate::targets::{cells_named, script_named};
use crate::value::{is_moment_text, is_time_text, is_value, kind_in};
use crate::walk::{each, judge_objects};
use class_control::clock::judge_time;
use class_control::judge::elements_of;
use class_control::menus::is_executed_script;
use class_control::times::are_execution_times;
use class_profile::menus::is_capture_objects;
use config_text::cause::{Cause, Rule};
use config_text::fault::{ConfigFault, PlacedFault};
use config_text::hex_value::HexValue;
use config_text::noting::{note, note_if};
use config_text::parts::{
    ActionParts, AlternativeParts, BodyParts, CaptureParts, ScriptRefParts, TargetParts,
    UpDownParts,
};
use config_text::place::Place;
use config_text::service::Service;
use cosem_data::data::Data;
use cosem_data::kind::Kind;
use cosem_data::memory::Memory;
use std::alloc::Global;

/// Whether each value is of a kind.
fn are_of_kind(kind: Option<Kind>, values: &[Data]) -> bool
    ensures { result ≡ list_all (spec.has_kind kind) (map tree values.now) }
{
    values.iter().all(|value| has_kind(kind, value))
}

/// Whether these are so many values of a kind.
fn are_thresholds(number: usize, kind: Option<Kind>, values: &[Data]) -> bool
    ensures { result ≡ ((length (map tree values.now) == number)
        && list_all (spec.has_kind kind) (map tree values.now)) }
{
    values.len() == number && are_of_kind(kind, values)
}

/// Whether a value may be so many thresholds over a value of this kind, the limits left aside.
fn may_be_thresholds(number: usize, kind: Option<Kind>, value: &Data) -> bool
    ensures { result ≡ may_be_thresholds number kind (tree value.now) }
{
    value.kind() == Kind::Array && are_thresholds(number, kind, elements_of(value))
}

/// Whether a value may be the thresholds of a register monitor with these actions, the limits left aside.
fn may_be_of_monitor(
    directory: &Directory<'_>,
    monitored: &TargetParts,
    actions: &[UpDownParts],
    value: &Data,
) -> bool
    ensures { result ≡ may_be_thresholds (length actions.now)
        (spec.kind_named directory.now.config.now monitored.now.object) (tree value.now) }
{
    may_be_thresholds(actions.len(), kind_at(directory, monitored), value)
}

/// Whether a value may be the times of a schedule of this type, the limits left aside.
fn may_be_times(execution_type: u8, value: &Data) -> bool
    ensures { result ≡ (same_kind (kind_of (tree value.now)) Array
        && are_execution_times execution_type (elements (tree value.now))) }
{
    value.kind() == Kind::Array && are_execution_times(execution_type, elements_of(value))
}

/// Whether a clock may be set to a value.
fn may_be_clock_time(value: &Data) -> bool
    ensures { result ≡ meets ClockTime (tree value.now) }
{
    judge_time(value).is_ok()
}

/// Whether a value is the capture_objects of a profile that captures these attributes.
fn is_capture_of(
    alloc: Global,
    directory: &Directory<'_>,
    captures: &[CaptureParts],
    value: &Data,
) -> Result<bool, Memory>
    ensures { IfOk result (λ is. is
        ≡ same_tree (capture_objects_value (plan.cells_named directory.now.config.now captures.now))
        (tree value.now)) }
{
    let cells = cells_named(alloc, directory, captures)?;
    Ok(is_capture_objects(value, &cells))
}

/// Whether a value is the capture_objects of an alternative.
fn is_of_alternative(
    alloc: Global,
    directory: &Directory<'_>,
    menu: &[AlternativeParts],
    value: &Data,
) -> Result<bool, Memory>
    ensures { IfOk result (λ is. is ≡ list_any (λ a. same_tree
        (capture_objects_value (plan.cells_named directory.now.config.now a)) (tree value.now))
        menu.now) }
{
    for alternative in menu {
        if is_capture_of(alloc, directory, &alternative.captures, value)? {
            return Ok(true);
        }
    }
    Ok(false)
}

/// Whether a value may be the capture_objects of a profile.
fn may_be_objects(
    alloc: Global,
    directory: &Directory<'_>,
    capture: &[CaptureParts],
    menu: &Option<Vec<AlternativeParts>>,
    value: &Data,
) -> Result<bool, Memory>
    ensures { IfOk result (λ may. may ≡ is_one_of (map capture_objects_value
        (alternatives (plan.captures_of directory.now.config.now (with_menu capture.now menu.now))))
        (tree value.now)) }
{
    if is_capture_of(alloc, directory, capture, value)? {
        return Ok(true);
    }
    is_of_alternative(alloc, directory, menu_in(menu), value)
}

/// Whether a value may be the executed_script of a schedule.
fn may_be_script(script: &ScriptRefParts, menu: &Option<Vec<ScriptRefParts>>, value: &Data) -> bool
    ensures { result ≡ is_one_of (map script_ref_value
        (alternatives (plan.scripts_of (with_menu script.now menu.now))))
        (tree value.now) }
{
    is_executed_script(value, script_named(script)) || is_of_menu(menu_in(menu), value)
}

/// Whether a value is the executed_script of a menu.
fn is_of_menu(menu: &[ScriptRefParts], value: &Data) -> bool
    ensures { result ≡ list_any
        (λ r. same_tree (script_ref_value (plan.script_named r)) (tree value.now)) menu.now }
{
    menu.iter()
        .any(|script| is_executed_script(value, script_named(script)))
}

/// Whether a value may stand in the settable cell with this index of an object with this body, the limits left aside.
fn may_stand(
    alloc: Global,
    directory: &Directory<'_>,
    body: &BodyParts,
    index: u8,
    value: &Data,
) -> Result<bool, Memory>
    ensures { IfOk result (λ may. may
        ≡ written.may_stand directory.now.config.now (body_text body.now) index (tree value.now)) }
{
    match body {
        BodyParts::Data { .. } | BodyParts::Register { .. } => {
            Ok(has_kind(start_kind_in(body), value))
        }
        BodyParts::ProfileGeneric { capture, menu, .. } if index == 3 => {
            may_be_objects(alloc, directory, capture.as_slice(), menu, value)
        }
        BodyParts::ProfileGeneric { .. } => Ok(value.kind() == Kind::DoubleLongUnsigned),
        BodyParts::Clock { .. } => Ok(may_be_clock_time(value)),
        BodyParts::RegisterMonitor {
            monitored,
            actions,
            ..
        } => Ok(may_be_of_monitor(directory, monitored, actions.as_slice(), value)),
        BodyParts::SingleActionSchedule { script, menu, .. } if index == 2 => {
            Ok(may_be_script(script, menu, value))
        }
        BodyParts::SingleActionSchedule { kind, .. } => Ok(may_be_times(*kind, value)),
        BodyParts::ScriptTable { .. } | BodyParts::Unknown => Ok(true),
    }
}

/// Whether a value may stand in what is named, the limits left aside.
fn may_stand_at(
    alloc: Global,
    directory: &Directory<'_>,
    target: &TargetParts,
    value: &Data,
) -> Result<bool, Memory>
    ensures { IfOk result (λ may. may ≡ written.may_stand_at directory.now.config.now
        (object_named directory.now.config.now target.now.object) target.now.index (tree value.now)) }
{
    match directory.object(target.object.as_str()) {
        Some(object) => may_stand(alloc, directory, &object.body, target.index, value),
        None => Ok(true),
    }
}

/// Whether a text is a value that may stand in what is named.
fn is_written(
    alloc: Global,
    directory: &Directory<'_>,
    target: &TargetParts,
    hex: &HexValue,
) -> Result<bool, Memory>
    ensures { IfOk result (λ right. right
        ≡ passes.written_value directory.now.config.now target.now (value_in hex.now)) }
{
    match hex.value() {
        Some(value) => may_stand_at(alloc, directory, target, value),
        None => Ok(false),
    }
}

/// Whether an action has a value that it can write, or a parameter that is a value.
fn action_value(
    alloc: Global,
    directory: &Directory<'_>,
    action: &ActionParts,
) -> Result<bool, Memory>
    ensures { IfOk result (λ right. right ≡ passes.action_value directory.now.config.now
        action.now.service action.now.target action.now.value) }
{
    match (action.service, &action.value) {
        (Service::Write, Some(hex)) => is_written(alloc, directory, &action.target, hex),
        (Service::Write, None) => Ok(false),
        (Service::Invoke, Some(hex)) => Ok(is_value(hex)),
        (Service::Invoke, None) => Ok(true),
    }
}

/// The kind of value that may stand in the cell with this index of an object with this body, if it has to be of one.
fn kind_in_cell(body: &BodyParts, index: u8) -> Option<Kind>
    ensures { result ≡ written.kind_in_cell (body_text body.now) index }
{
    match body {
        BodyParts::Data { value } | BodyParts::Register { value, .. } => kind_in(value),
        BodyParts::ProfileGeneric { .. } if index == 3 => Some(Kind::Array),
        BodyParts::ProfileGeneric { .. } => Some(Kind::DoubleLongUnsigned),
        BodyParts::Clock { .. } => Some(Kind::OctetString),
        BodyParts::RegisterMonitor { .. } => Some(Kind::Array),
        BodyParts::SingleActionSchedule { .. } if index == 2 => Some(Kind::Structure),
        BodyParts::SingleActionSchedule { .. } => Some(Kind::Array),
        BodyParts::ScriptTable { .. } | BodyParts::Unknown => None,
    }
}

/// The rule that a value may break that is to stand in the cell with this index of an object with this body.
fn rule_in_cell(body: &BodyParts, index: u8) -> Rule
    ensures { result ≡ written.rule_in_cell (body_text body.now) index }
{
    match body {
        BodyParts::Clock { .. } => Rule::Moment,
        BodyParts::RegisterMonitor { .. } => Rule::Thresholds,
        BodyParts::SingleActionSchedule { .. } if index != 2 => Rule::Times,
        _ => Rule::Menu,
    }
}

/// The cause of a value that may not stand in a cell.
fn cause_in_cell(body: &BodyParts, index: u8, value: Option<&Data>) -> Cause
    ensures { result ≡ written.cause_in_cell (body_text body.now) index (option_map (λ v. tree v.now) value.entry) }
{
    let asked = kind_in_cell(body, index);
    match (value, asked) {
        (Some(value), Some(kind)) if value.kind() == kind => Cause::Rule(rule_in_cell(body, index)),
        _ => Cause::Value(asked),
    }
}

/// The value that an action has, none where its text is that of none.
fn value_of(action: &ActionParts) -> Option<&Data>
    ensures { option_map (λ v. tree v.now) result ≡ option_and_then value_in action.now.value }
{
    match &action.value {
        Some(hex) => hex.value(),
        None => None,
    }
}

/// The cause of a value that may not stand in what is named.
fn written_cause(directory: &Directory<'_>, target: &TargetParts, value: Option<&Data>) -> Cause
    ensures { result ≡ written.written_cause
        (object_named directory.now.config.now target.now.object) target.now.index (option_map (λ v. tree v.now) value.entry) }
{
    match directory.object(&target.object) {
        Some(object) => cause_in_cell(&object.body, target.index, value),
        None => Cause::Value(None),
    }
}

/// The cause of a value of an action that isn't right.
fn action_cause(directory: &Directory<'_>, action: &ActionParts) -> Cause
    ensures { result ≡ passes.action_cause directory.now.config.now
        action.now.service action.now.target action.now.value }
{
    match action.service {
        Service::Write => written_cause(directory, &action.target, value_of(action)),
        Service::Invoke => Cause::Value(None),
    }
}

/// Notes that the value of an action isn't right, where it isn't.
fn valid_action_value(
    faults: &mut Vec<PlacedFault>,
    directory: &Directory<'_>,
    at: &Place<'_>,
    action: &ActionParts,
) -> Result<(), Memory>
    ensures { OnOk result (faults.new.items ≡ faults.old.items
        ++ passes.valid_action_value directory.now.config.now at.now action.now) }
{
    if action_value(at.alloc(), directory, action)? {
        return Ok(());
    }
    note(faults, action_cause(directory, action), at, ".value")
}

/// Notes the thresholds that aren't values of a kind.
fn thresholds(
    faults: &mut Vec<PlacedFault>,
    at: &Place<'_>,
    kind: Option<Kind>,
    texts: &[HexValue],
) -> Result<(), Memory>
    ensures { OnOk result (faults.new.items ≡ faults.old.items
        ++ walks.each (passes.threshold_value kind) (at.now ++ codes ".thresholds") texts.now) }
{
    each(faults, &at.below(".thresholds"), texts, |faults, at, hex| {
        note_if(faults, Cause::Value(kind), at, "", !is_of_kind(kind, hex))
    })
}

/// The monitored value is a number, and the thresholds are of its kind, where it is.
fn monitor_values(
    faults: &mut Vec<PlacedFault>,
    directory: &Directory<'_>,
    at: &Place<'_>,
    monitored: &TargetParts,
    texts: &[HexValue],
) -> Result<(), Memory>
    ensures { OnOk result (faults.new.items ≡ faults.old.items
        ++ (fault_where NoNumber (at.now ++ codes ".monitored.index")
        (not (spec.may_be_number (spec.kind_named directory.now.config.now monitored.now.object)))
        ++ walks.each (passes.threshold_value
        (spec.number_kind (spec.kind_named directory.now.config.now monitored.now.object)))
        (at.now ++ codes ".thresholds") texts.now)) }
{
    let kind = kind_at(directory, monitored);
    let right = may_be_number(kind);
    note_if(faults, Cause::NoNumber, at, ".monitored.index", !right)?;
    thresholds(faults, at, number_kind(kind), texts)
}

/// Notes the values in an object's body that aren't right. A default is of the kind of the register's value, where this is
/// one of numbers, and so are thresholds of the kind of the monitored value.
#[tactic(auto, unfolding(config_rules::specs::Passes::valid_values_in))]
fn valid_values_in(
    faults: &mut Vec<PlacedFault>,
    directory: &Directory<'_>,
    at: &Place<'_>,
    body: &BodyParts,
) -> Result<(), Memory>
    ensures { OnOk result (faults.new.items ≡ faults.old.items
        ++ passes.valid_values_in directory.now.config.now at.now (body_text body.now)) }
{
    match body {
        BodyParts::Data { value } => {
            note_if(faults, Cause::Value(None), at, ".value", !is_value(value))
        }
        BodyParts::Register { value, default, .. } => {
            let kind = kind_in(value);
            note_if(faults, Cause::Value(None), at, ".value", !is_number(kind))?;
            let asked = number_kind(kind);
            let fits = is_of_kind(asked, default);
            note_if(faults, Cause::Value(asked), at, ".default", !fits)
        }
        BodyParts::Clock { time } => note_if(
            faults,
            Cause::Moment,
            at,
            ".time",
            !is_moment_text(time),
        ),
        BodyParts::ScriptTable { scripts } => each_action(
            faults,
            at,
            scripts,
            |faults, at, action| valid_action_value(faults, directory, at, action),
        ),
        BodyParts::RegisterMonitor {
            monitored,
            thresholds,
            ..
        } => monitor_values(faults, directory, at, monitored, thresholds.as_slice()),
        BodyParts::SingleActionSchedule { times, .. } => each(
            faults,
            &at.below(".times"),
            times,
            |faults, at, text| {
                let is_time = is_time_text(at.alloc(), text)?;
                note_if(faults, Cause::ExecutionTime, at, "", !is_time)
            },
        ),
        BodyParts::ProfileGeneric { .. } | BodyParts::Unknown => Ok(()),
    }
}

/// Judges the values of each object.
///
/// # Errors
/// C11 at each text that isn't hex, isn't one Data, or isn't of the kind that is asked for there, and at a clock's time that is
/// no moment.
#[tactic(auto, unfolding(config_rules::specs::Passes::valid_values))]
pub(crate) fn valid_values(alloc: Global, directory: &Directory<'_>) -> Result<(), ConfigFault>
    ensures { Finds result (passes.valid_values directory.now.config.now) }
{
    judge_objects(alloc, directory.config, |faults, at, object| {
        valid_values_in(faults, directory, at, &object.body)
    })
}
