//! Steps as lines of a trail.
ghost use Rattle.std.specs.Prelude.{◌≡◌, ◌≤◌, ◌<◌, ◌++◌, ◌∷◌, ◌&&◌, [], codes, cond, is_some, length, not, None, Some, option_map, string_bytes, true, IfOk, IfSome, OnOk};
ghost use Rattle.std.specs.List.{AllByRecursion};
ghost use Rattle.hex.specs.Hex.{encode_upper};
ghost use Rattle.cosem_data.specs.Cells.{same_cell};
ghost use Rattle.cosem_data.specs.Names.{name_text};
ghost use Rattle.cosem_data.specs.View.{tree};
ghost use Rattle.cosem_axdr.specs.Canonical.{canonical};
ghost use Rattle.civil_moment.specs.Texts.{moment_text};
ghost use Rattle.meter_core.specs.StepView.{argument_of, step_of};
ghost use Rattle.meter_theory.specs.Steps as theory;
ghost use Rattle.xdlms_services.specs.Asking.{Asked, asking_at};
ghost use Rattle.xdlms_services.specs.Requests.{IsArgumentInRange, IsDescriptorInRange, IsWritableParameter, front_bytes, invocation_bytes};
ghost use Rattle.line_server.specs.Spelling.{input_cell};
ghost use Rattle.step_keeping.specs.Keeping.{ticks};
ghost use Rattle.trail_lines.specs.Writing as spec;
ghost use Rattle.trail_lines.specs.Writing.{IsName, Says, asked_text, has_client, line_of_step, seconds_text, worded};
ghost use Rattle.trail_lines.specs.declared.limits.TheConstants as limits;

use civil_moment::moment::Moment;
use cosem_axdr::laws::small_has_lengths;
use cosem_axdr::limits::is_encoded_within;
use cosem_axdr::writing::write_data;
use cosem_data::cell::CellRef;
use cosem_data::data::Data;
use cosem_data::memory::Memory;
use cosem_data::name::LogicalName;
use meter_core::step::Step;
use meter_theory::refs::Descriptor;
use object_model::argument::Argument;
use object_model::plan::Plan;
use std::alloc::Global;
use step_words::USUAL_INVOKE;
use xdlms_services::reading::{ACTION_REQUEST, SET_REQUEST};
use xdlms_services::requests::{ABSENT, PRESENT, put_front};

/// A value of a line is nested at most so deep, which is what is read of values.
pub const NESTED: u8 = 16;

/// The encoding of a value of a line has at most so many bytes, as its lengths have room for.
pub const LONGEST: usize = 0xFFFF_FFFF;

/// The line of a step, without its end: of a SET or an ACTION the client's name and its shortest request, and of a step of the
/// meter itself a line that brings this step alone. None where the step has no line: it is a GET, or of no client of the plan, or
/// brings a value that can't be written. The only error is want of memory.
pub fn write_step(alloc: Global, plan: &Plan, step: &Step) -> Result<Option<String>, Memory>
    ensures text { IfOk result (λ found. option_map string_bytes found ≡ line_of_step plan.now step.now) }
    ensures says { IfOk result (λ found. IfSome found (λ line. Says plan.now (step_of step.now ∷ []) (string_bytes line))) }
{
    match step {
        Step::Get { .. } => Ok(None),
        Step::Set {
            client,
            attribute,
            selected,
            value,
        } => set_line(alloc, plan, *client, attribute, *selected, value),
        Step::Act {
            client,
            method,
            argument,
        } => act_line(alloc, plan, *client, method, argument),
        Step::Input { cell, value } => input_line(alloc, plan, cell, value),
        Step::Evaluate { monitor } => Ok(Some(evaluation_line(alloc, plan, monitor)?)),
        Step::CaptureAt { profile } => Ok(Some(capture_line(alloc, plan, profile)?)),
        Step::ScheduleAt { schedule } => Ok(Some(run_line(alloc, plan, schedule)?)),
        Step::ClockAt { moment } => Ok(Some(clock_line(alloc, plan, *moment)?)),
        Step::Tick => Ok(Some(write_seconds(alloc, plan, 1)?)),
    }
}

/// The line of so many seconds that passed, 1 to 86400, at which no object was offered its step. The only error is want of memory.
pub fn write_seconds(alloc: Global, plan: &Plan, seconds: u32) -> Result<String, Memory>
    requires { (1 ≤ seconds) × (seconds ≤ limits.MOVE_SECONDS) }
    ensures text { IfOk result (λ line. string_bytes line ≡ seconds_text seconds) }
    ensures says { IfOk result (λ line. Says plan.now (ticks seconds) (string_bytes line)) }
{
    let _plan = plan;
    Ok(format!(in alloc; "move-clock {seconds}")?)
}

/// The line of a profile that looks at the clock.
fn capture_line(alloc: Global, plan: &Plan, profile: &LogicalName) -> Result<String, Memory>
    ensures text { IfOk result (λ line. string_bytes line ≡ worded (codes "capture-if-due") (name_text profile.now.0)) }
    ensures says { IfOk result (λ line. Says plan.now (theory.CaptureAt profile.now ∷ []) (string_bytes line)) }
{
    know_name(*profile);
    Ok(format!(in alloc; "capture-if-due {profile}")?)
}

/// The line of a schedule that looks at the clock.
fn run_line(alloc: Global, plan: &Plan, schedule: &LogicalName) -> Result<String, Memory>
    ensures text { IfOk result (λ line. string_bytes line ≡ worded (codes "run-if-due") (name_text schedule.now.0)) }
    ensures says { IfOk result (λ line. Says plan.now (theory.ScheduleAt schedule.now ∷ []) (string_bytes line)) }
{
    know_name(*schedule);
    Ok(format!(in alloc; "run-if-due {schedule}")?)
}

/// The line of a register monitor that is evaluated.
fn evaluation_line(alloc: Global, plan: &Plan, monitor: &LogicalName) -> Result<String, Memory>
    ensures text { IfOk result (λ line. string_bytes line ≡ worded (codes "eval") (name_text monitor.now.0)) }
    ensures says { IfOk result (λ line. Says plan.now (theory.Evaluate monitor.now ∷ []) (string_bytes line)) }
{
    know_name(*monitor);
    Ok(format!(in alloc; "eval {monitor}")?)
}

/// The line of a clock that is set.
fn clock_line(alloc: Global, plan: &Plan, moment: Moment) -> Result<String, Memory>
    ensures text { IfOk result (λ line. string_bytes line ≡ worded (codes "set-clock") (moment_text moment)) }
    ensures says { IfOk result (λ line. Says plan.now (theory.ClockAt moment ∷ []) (string_bytes line)) }
{
    let _plan = plan;
    moment.known();
    Ok(format!(in alloc; "set-clock {moment}")?)
}

/// A logical name is six bytes. It does nothing when it runs.
fn know_name(name: LogicalName)
    ensures { IsName name }
{
    let _bytes = name.0;
}

/// The line of an input, if it has one.
fn input_line(
    alloc: Global,
    plan: &Plan,
    cell: &CellRef,
    value: &Data,
) -> Result<Option<String>, Memory>
    ensures text { IfOk result (λ found. option_map string_bytes found ≡ line_of_step plan.now (Step.Input cell.now value.now)) }
    ensures says { IfOk result (λ found. IfSome found
        (λ line. Says plan.now (theory.Input cell.now (tree value.now) ∷ []) (string_bytes line))) }
{
    if !is_input_cell(plan, cell) || !can_write(value) {
        return Ok(None);
    }
    small_has_lengths();
    let mut bytes = Vec::new(alloc);
    write_data(value, &mut bytes)?;
    let hex = hex::encode_upper(alloc, &bytes)?;
    let name = cell.name;
    know_name(name);
    Ok(Some(format!(in alloc; "in {name} {hex}")?))
}

/// Whether a cell is the one to which the input of a line goes that has its name.
fn is_input_cell(plan: &Plan, cell: &CellRef) -> bool
    ensures { result ≡ same_cell cell.now (input_cell plan.now cell.now.name) }
{
    *cell == line_server::line::input_cell(plan, cell.name)
}

/// Whether a value can be written in hex, and is read again.
fn can_write(value: &Data) -> bool
    ensures { result ≡ spec.can_write (tree value.now) }
{
    value.is_nested_within(NESTED) && is_encoded_within(value, LONGEST)
}

/// The line of a SET, if it has one.
fn set_line(
    alloc: Global,
    plan: &Plan,
    client: u8,
    attribute: &Descriptor,
    selected: bool,
    value: &Argument,
) -> Result<Option<String>, Memory>
    ensures text { IfOk result (λ found. option_map string_bytes found
        ≡ line_of_step plan.now (Step.Set client attribute.now selected value.now)) }
    ensures says { IfOk result (λ found. IfSome found (λ line. Says plan.now
        (theory.Set client attribute.now selected (argument_of value.now) ∷ []) (string_bytes line))) }
{
    let Argument::Value(data) = value else {
        return Ok(None);
    };
    if selected || !can_write(data) {
        return Ok(None);
    }
    small_has_lengths();
    let mut apdu = Vec::new(alloc);
    know_descriptor(*attribute);
    put_front(SET_REQUEST, USUAL_INVOKE, attribute, &mut apdu)?;
    apdu.push(ABSENT)?;
    write_data(data, &mut apdu)?;
    asked_line(alloc, plan, client, &apdu)
}

/// The line of an ACTION, if it has one.
fn act_line(
    alloc: Global,
    plan: &Plan,
    client: u8,
    method: &Descriptor,
    argument: &Argument,
) -> Result<Option<String>, Memory>
    ensures text { IfOk result (λ found. option_map string_bytes found
        ≡ line_of_step plan.now (Step.Act client method.now argument.now)) }
    ensures says { IfOk result (λ found. IfSome found (λ line. Says plan.now
        (theory.Act client method.now (argument_of argument.now) ∷ []) (string_bytes line))) }
{
    if !can_write_parameter(argument) {
        return Ok(None);
    }
    let mut apdu = Vec::new(alloc);
    know_descriptor(*method);
    put_front(ACTION_REQUEST, USUAL_INVOKE, method, &mut apdu)?;
    put_parameter(argument, &mut apdu)?;
    asked_line(alloc, plan, client, &apdu)
}

/// Whether a parameter can be written, or there is none.
fn can_write_parameter(argument: &Argument) -> bool
    ensures { result ≡ spec.can_write_parameter argument.now }
{
    match argument {
        Argument::Absent => true,
        Argument::Value(value) => can_write(value),
        Argument::Unreadable => false,
    }
}

/// The flag of a parameter, and the parameter where there is one.
fn put_parameter(argument: &Argument, apdu: &mut Vec<u8>) -> Result<(), Memory>
    requires { spec.can_write_parameter argument.now ≡ true }
    ensures bytes { OnOk result (apdu.new.items ≡ apdu.old.items ++ invocation_bytes argument.now) }
    ensures writable { IsWritableParameter argument.now }
    ensures ranges { OnOk result (IsArgumentInRange argument.now) }
{
    let Argument::Value(value) = argument else {
        apdu.push(ABSENT)?;
        return Ok(());
    };
    small_has_lengths();
    apdu.push(PRESENT)?;
    write_data(value, apdu)
}

/// Bytes are below 256. It does nothing when it runs.
fn know_bytes(_bytes: &[u8])
    ensures { AllByRecursion (λ b. b < 256) _bytes.now }
{}

/// What is named fits the bytes that it has. It does nothing when it runs.
fn know_descriptor(named: Descriptor)
    ensures { IsDescriptorInRange named }
{
    let _class_id = named.class_id;
    let _name = named.name.0;
    let _index = named.index;
}

/// The line of what a client asks by an APDU, if the plan has the client.
fn asked_line(alloc: Global, plan: &Plan, client: u8, apdu: &[u8]) -> Result<Option<String>, Memory>
    requires { 0 < length apdu.now }
    ensures text { IfOk result (λ found. option_map string_bytes found
        ≡ cond (has_client plan.now client) (Some (asked_text plan.now client apdu.now)) None) }
    ensures says { (asked : Asked) → asking_at client apdu.now ≡ Some asked →
        IfOk result (λ found. IfSome found (λ line. Says plan.now (asked.step ∷ []) (string_bytes line))) }
{
    plan.known();
    know_bytes(apdu);
    let Some(client) = plan.client(client) else {
        return Ok(None);
    };
    let hex = hex::encode_upper(alloc, apdu)?;
    let name = client.name_text();
    Ok(Some(format!(in alloc; "{name} {hex}")?))
}
