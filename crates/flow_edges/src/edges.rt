//! The edges of a plan.
ghost use Rattle.std.specs.Prelude.{◌≡◌, ◌<◌, ℕ, Bool, IfOk, OnOk, Some, length, map, filter, flat_map, slice_get};
ghost use Rattle.class_control.specs.PartView.{monitor_part_of, schedule_part_of, scripts_of_part};
ghost use Rattle.class_profile.specs.PartView.{captures_of_part, profile_part_of};
ghost use Rattle.cosem_data.specs.declared.cell.CellRef.{CellRef as CellValue};
ghost use Rattle.meter_theory.specs.Lists.{IsIn};
ghost use Rattle.meter_theory.specs.Plan as plans;
ghost use Rattle.meter_theory.specs.Edges as theory;
ghost use Rattle.flow_edges.specs.Gather.{IsGathered, both_at, captures_into};
ghost use Rattle.flow_edges.specs.Sources.{AreOfPlan, HasPart};
ghost use Rattle.flow_edges.specs.Table.{cell_at};
ghost use Rattle.object_model.specs.Tables.{AreNumbersOf, number_at};

use crate::marks::changed_by;
use crate::script_changes::ScriptChanges;
use crate::table::EdgeTable;
use class_control::parts::{MonitorPart, SchedulePart};
use class_profile::profile::ProfilePart;
use cosem_data::cell::CellRef;
use cosem_data::memory::Memory;
use meter_theory::flow::{Cause, Edge};
use object_model::cells::{
    buffer, capture_objects, capture_period, clock_time, entries_in_use, executed_script,
    execution_time, seen, thresholds,
};
use object_model::instance::Instance;
use object_model::object::Object;
use object_model::part::Part;
use object_model::plan::Plan;
use std::alloc::Global;

/// The edges of a plan, each once, object by object in plan order (own profile). The only error is want of memory.
pub fn edges(alloc: Global, plan: &Plan) -> Result<Vec<Edge>, Memory>
    ensures { IfOk result (λ list. list.items ≡ theory.edges plan.now) }
{
    edge_table(alloc, plan)?.into_edges(alloc)
}

/// The edges of a plan between the numbers of its cells. The only error is want of memory.
pub fn edge_table(alloc: Global, plan: &Plan) -> Result<EdgeTable, Memory>
    ensures { IfOk result (λ table. table
        ≡ record { cells = plans.cells plan.now; edges = theory.edges plan.now }) }
{
    plan.known();
    let mut table = EdgeTable::new(alloc, plan.cells(alloc)?)?;
    let changes = ScriptChanges::new(alloc, plan)?;
    let objects = plan.objects();
    for (number, object) in objects.iter().enumerate() {
        add_object(alloc, plan, number as u16, object, &changes, &mut table)?;
    }
    Ok(table)
}

/// Adds the edges that the object with this number makes.
fn add_object(
    alloc: Global,
    plan: &Plan,
    number: u16,
    object: &Object,
    changes: &ScriptChanges<'_>,
    table: &mut EdgeTable,
) -> Result<(), Memory>
    requires cells { table.old.cells ≡ plans.cells plan.now }
    requires changes { changes.now ≡ plan.now }
    requires object { slice_get plan.now.objects number ≡ Some object.now }
    ensures { OnOk result (IsGathered table.old table.new
        (theory.edges_in plan.now object.now.name object.now.part)) }
{
    plan.known();
    let instance = plan.instance_of(number);
    match object.part() {
        Part::RegisterMonitor(part) => add_monitor(alloc, &instance, part, changes, table),
        Part::ProfileGeneric(part) => add_profile(&instance, part, table),
        Part::SingleActionSchedule(part) => add_schedule(alloc, &instance, part, changes, table),
        _ => Ok(()),
    }
}

/// Adds the edges that a profile makes: to its buffer from what it may capture, and to its buffer and its entries in use from
/// its menu, from its capture period, and from the clock.
fn add_profile(
    instance: &Instance<'_>,
    part: &ProfilePart,
    table: &mut EdgeTable,
) -> Result<(), Memory>
    requires cells { table.old.cells ≡ plans.cells instance.now.plan }
    requires part { HasPart instance.now.plan instance.now.name (profile_part_of part.now) }
    ensures { OnOk result (IsGathered table.old table.new
        (theory.edges_in instance.now.plan instance.now.name (profile_part_of part.now))) }
{
    instance.plan().known();
    let name = instance.name();
    let rows = number_of(instance, &buffer(name));
    let period = number_of(instance, &capture_period(name));
    let in_use = number_of(instance, &entries_in_use(name));
    add_alternatives(instance, part, rows, table)?;
    add_menu_to_both(instance, part, rows, in_use, table)?;
    table.add(Cause::Period, period, rows)?;
    table.add(Cause::Period, period, in_use)?;
    add_clock_to_both(instance, rows, in_use, table)
}

/// Adds the edges from the capture_objects of a profile to two cells. Without a menu there are none.
fn add_menu_to_both(
    instance: &Instance<'_>,
    part: &ProfilePart,
    first: usize,
    second: usize,
    table: &mut EdgeTable,
) -> Result<(), Memory>
    requires cells { table.old.cells ≡ plans.cells instance.now.plan }
    requires part { HasPart instance.now.plan instance.now.name (profile_part_of part.now) }
    requires first { first < length table.old.cells }
    requires second { second < length table.old.cells }
    ensures { OnOk result (IsGathered table.old table.new
        (theory.menu_edges (captures_of_part part.now)
        (plans.capture_objects instance.now.name) (both_at table.old.cells first second))) }
{
    if !part.has_menu() {
        return Ok(());
    }
    let objects = number_of(instance, &capture_objects(instance.name()));
    table.add(Cause::Menu, objects, first)?;
    table.add(Cause::Menu, objects, second)
}

/// Adds the edges from the executed_script of a schedule to each target. Without a menu there are none.
fn add_menu_to_each(
    instance: &Instance<'_>,
    part: &SchedulePart,
    targets: &[bool],
    table: &mut EdgeTable,
) -> Result<(), Memory>
    requires cells { table.old.cells ≡ plans.cells instance.now.plan }
    requires part { HasPart instance.now.plan instance.now.name (schedule_part_of part.now) }
    requires targets { length targets.now ≡ length table.old.cells }
    ensures { (p : CellValue → Bool) → targets.now ≡ map p table.old.cells →
        OnOk result (IsGathered table.old table.new (theory.menu_edges (scripts_of_part part.now)
        (plans.executed_script instance.now.name) (filter p table.old.cells))) }
{
    if !part.has_menu() {
        return Ok(());
    }
    let script = number_of(instance, &executed_script(instance.name()));
    add_all(Cause::Menu, &[script], targets, table)
}

/// Adds the edges from the clock of the plan to two cells. Without a clock there are none.
fn add_clock_to_both(
    instance: &Instance<'_>,
    first: usize,
    second: usize,
    table: &mut EdgeTable,
) -> Result<(), Memory>
    requires cells { table.old.cells ≡ plans.cells instance.now.plan }
    requires first { first < length table.old.cells }
    requires second { second < length table.old.cells }
    ensures { OnOk result (IsGathered table.old table.new
        (theory.edges_from_clock instance.now.plan (both_at table.old.cells first second))) }
{
    let Some(clock) = instance.plan().clock_instance() else {
        return Ok(());
    };
    let clock = number_of(&clock, &clock_time(clock.name()));
    table.add(Cause::Clock, clock, first)?;
    table.add(Cause::Clock, clock, second)
}

/// Adds the edges from the clock of the plan to each target. Without a clock there are none.
fn add_clock_to_each(
    instance: &Instance<'_>,
    targets: &[bool],
    table: &mut EdgeTable,
) -> Result<(), Memory>
    requires cells { table.old.cells ≡ plans.cells instance.now.plan }
    requires targets { length targets.now ≡ length table.old.cells }
    ensures { (p : CellValue → Bool) → targets.now ≡ map p table.old.cells →
        OnOk result (IsGathered table.old table.new
        (theory.edges_from_clock instance.now.plan (filter p table.old.cells))) }
{
    let Some(clock) = instance.plan().clock_instance() else {
        return Ok(());
    };
    let clock = number_of(&clock, &clock_time(clock.name()));
    add_all(Cause::Clock, &[clock], targets, table)
}

/// Adds an edge from each cell that a profile may capture to the buffer with this number, alternative by alternative.
fn add_alternatives(
    instance: &Instance<'_>,
    part: &ProfilePart,
    buffer: usize,
    table: &mut EdgeTable,
) -> Result<(), Memory>
    requires cells { table.old.cells ≡ plans.cells instance.now.plan }
    requires part { HasPart instance.now.plan instance.now.name (profile_part_of part.now) }
    requires captured { AreOfPlan instance.now.plan (theory.captured_by (captures_of_part part.now)) }
    requires buffer { buffer < length table.old.cells }
    ensures { OnOk result (IsGathered table.old table.new
        (captures_into (cell_at table.old.cells buffer) (theory.captured_by (captures_of_part part.now)))) }
{
    instance.plan().known();
    let (numbers, others) = instance.references().split_at(part.captured.len());
    add_captured(instance, &part.captured, numbers, buffer, table)?;
    add_menu_captures(instance, &part.menu, others, buffer, table)
}

/// Adds an edge from each cell of the alternatives of a menu, whose objects have these numbers, to the buffer with this number.
fn add_menu_captures(
    instance: &Instance<'_>,
    menu: &[Vec<CellRef>],
    numbers: &[u16],
    buffer: usize,
    table: &mut EdgeTable,
) -> Result<(), Memory>
    requires cells { table.old.cells ≡ plans.cells instance.now.plan }
    requires captured { AreOfPlan instance.now.plan (flat_map (λ xs. xs.items) menu.now) }
    requires numbers { AreNumbersOf instance.now.plan (flat_map (λ xs. xs.items) menu.now) numbers.now }
    requires buffer { buffer < length table.old.cells }
    ensures { OnOk result (IsGathered table.old table.new
        (captures_into (cell_at table.old.cells buffer) (flat_map (λ xs. xs.items) menu.now))) }
{
    let mut left = numbers;
    for captured in menu {
        let (numbers, rest) = left.split_at(captured.len());
        add_captured(instance, captured, numbers, buffer, table)?;
        left = rest;
    }
    Ok(())
}

/// Adds an edge from each captured cell, whose objects have these numbers, to the buffer with this number.
fn add_captured(
    instance: &Instance<'_>,
    captured: &[CellRef],
    numbers: &[u16],
    buffer: usize,
    table: &mut EdgeTable,
) -> Result<(), Memory>
    requires cells { table.old.cells ≡ plans.cells instance.now.plan }
    requires captured { AreOfPlan instance.now.plan captured.now }
    requires numbers { AreNumbersOf instance.now.plan captured.now numbers.now }
    requires buffer { buffer < length table.old.cells }
    ensures { OnOk result (IsGathered table.old table.new
        (captures_into (cell_at table.old.cells buffer) captured.now)) }
{
    for (place, source) in captured.iter().enumerate() {
        let source = number_under(instance, numbers[place], source);
        table.add(Cause::Captured, source, buffer)?;
    }
    Ok(())
}

/// Adds the edges that a schedule makes: from its execution time, from its menu and from the clock to each cell that a script
/// changes which it may run.
fn add_schedule(
    alloc: Global,
    instance: &Instance<'_>,
    part: &SchedulePart,
    changes: &ScriptChanges<'_>,
    table: &mut EdgeTable,
) -> Result<(), Memory>
    requires cells { table.old.cells ≡ plans.cells instance.now.plan }
    requires changes { changes.now ≡ instance.now.plan }
    requires part { HasPart instance.now.plan instance.now.name (schedule_part_of part.now) }
    ensures { OnOk result (IsGathered table.old table.new
        (theory.edges_in instance.now.plan instance.now.name (schedule_part_of part.now))) }
{
    instance.plan().known();
    let times = number_of(instance, &execution_time(instance.name()));
    let scripts = instance.script_places();
    let targets = changed_by(alloc, changes, table.cells().len(), scripts)?;
    add_all(Cause::Schedule, &[times], &targets, table)?;
    add_menu_to_each(instance, part, &targets, table)?;
    add_clock_to_each(instance, &targets, table)
}

/// Adds the edges that a register monitor makes: to what it has seen, and from what decides which of its scripts run to each
/// cell that they change.
fn add_monitor(
    alloc: Global,
    instance: &Instance<'_>,
    part: &MonitorPart,
    changes: &ScriptChanges<'_>,
    table: &mut EdgeTable,
) -> Result<(), Memory>
    requires cells { table.old.cells ≡ plans.cells instance.now.plan }
    requires changes { changes.now ≡ instance.now.plan }
    requires part { HasPart instance.now.plan instance.now.name (monitor_part_of part.now) }
    ensures { OnOk result (IsGathered table.old table.new
        (theory.edges_in instance.now.plan instance.now.name (monitor_part_of part.now))) }
{
    instance.plan().known();
    let watched = instance.references()[0];
    let monitored = number_under(instance, watched, &part.monitored_value);
    let name = instance.name();
    let limits = number_of(instance, &thresholds(name));
    let last = number_of(instance, &seen(name));
    table.add(Cause::Monitored, monitored, last)?;
    let scripts = instance.script_places();
    let targets = changed_by(alloc, changes, table.cells().len(), scripts)?;
    add_all(Cause::Monitor, &[monitored, limits, last], &targets, table)
}

/// The number of one of the cells of what stands here.
fn number_of(instance: &Instance<'_>, cell: &CellRef) -> usize
    requires of_plan { IsIn (plans.cells instance.now.plan) cell.now }
    requires named { cell.now.name ≡ instance.now.name }
    ensures within { result < length (plans.cells instance.now.plan) }
    ensures there { cell_at (plans.cells instance.now.plan) result ≡ cell.now }
{
    match instance.cell_number(cell.class_id, cell.index) {
        Some(number) => usize::from(number),
        None => unreachable!(),
    }
}

/// The number of one of the cells of the object that has this number in the same plan.
fn number_under(instance: &Instance<'_>, object: u16, cell: &CellRef) -> usize
    requires of_plan { IsIn (plans.cells instance.now.plan) cell.now }
    requires number { number_at instance.now.plan.objects cell.now.name ≡ Some object }
    ensures within { result < length (plans.cells instance.now.plan) }
    ensures there { cell_at (plans.cells instance.now.plan) result ≡ cell.now }
{
    number_of(&Instance::numbered(instance.plan(), object), cell)
}

/// Adds the edges from each source to each target.
fn add_all(
    cause: Cause,
    sources: &[usize],
    targets: &[bool],
    table: &mut EdgeTable,
) -> Result<(), Memory>
    requires sources { (s : ℕ) → IsIn sources.now s → s < length table.old.cells }
    requires targets { length targets.now ≡ length table.old.cells }
    ensures { (p : CellValue → Bool) → targets.now ≡ map p table.old.cells →
        OnOk result (IsGathered table.old table.new
        (flat_map (λ y. map (λ s. theory.edge cause (cell_at table.old.cells s) y) sources.now)
        (filter p table.old.cells))) }
{
    for (target, is_target) in targets.iter().enumerate() {
        if *is_target {
            add_each(cause, sources, target, table)?;
        }
    }
    Ok(())
}

/// Adds an edge from each source to one target.
fn add_each(
    cause: Cause,
    sources: &[usize],
    target: usize,
    table: &mut EdgeTable,
) -> Result<(), Memory>
    requires sources { (s : ℕ) → IsIn sources.now s → s < length table.old.cells }
    requires target { target < length table.old.cells }
    ensures { OnOk result (IsGathered table.old table.new (map
        (λ s. theory.edge cause (cell_at table.old.cells s) (cell_at table.old.cells target))
        sources.now)) }
{
    for source in sources {
        table.add(cause, *source, target)?;
    }
    Ok(())
}
