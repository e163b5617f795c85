//! The cells of objects by their names: the attributes that can change (IEC 62056-6-2, interface classes).
ghost use Rattle.std.specs.Prelude.{◌≡◌, ◌∷◌, [], length};
ghost use Rattle.meter_theory.specs.Plan as theory;
ghost use Rattle.meter_theory.specs.Steps as steps;

use class_control::clock::Clock;
use class_control::monitor::Monitor;
use class_control::schedule::Schedule;
use class_profile::profile::Profile;
use cosem_class::data1::Data1;
use cosem_class::register::Register;
use cosem_data::cell::CellRef;
use cosem_data::name::LogicalName;
use std::marker::Model;

/// The cells that a write or a method changes: up to three, in their order. It takes no memory, and contracts see the list.
#[derive(Drop)]
pub struct Changed {
    cells: [CellRef; 3],
    count: usize,
}

impl Model for Changed {
    ghost use Rattle.std.specs.Prelude.{◌≤◌, List, take};
    ghost use Rattle.cosem_data.specs.declared.cell.CellRef.{CellRef};

    ghost Value = { List CellRef };

    ghost view = { λ c. take c.count c.cells };

    ghost invariant = { λ c. c.count ≤ 3 };
}

impl Changed {
    /// One cell alone.
    fn one(cell: CellRef) -> Changed
        ensures { result ≡ cell ∷ [] }
    {
        Changed {
            cells: [cell; 3],
            count: 1,
        }
    }

    /// The entries of a profile, its buffer and how many of them are in use.
    pub fn entries(profile: LogicalName) -> Changed
        ensures { result ≡ theory.buffer profile ∷ theory.entries_in_use profile ∷ [] }
    {
        let [buffer, in_use] = entries_of(profile);
        Changed {
            cells: [buffer, in_use, in_use],
            count: 2,
        }
    }

    /// The cells, in their order.
    pub fn as_slice(&self) -> &[CellRef]
        ensures { result.now ≡ self.now }
    {
        &self.cells[..self.count]
    }
}

/// The cells that a write of this cell changes: itself, and the entries of a profile that it empties (IEC 62056-6-2, Profile
/// generic).
pub fn changed_by_write(cell: CellRef) -> Changed
    ensures { result ≡ steps.changed_by_write cell }
{
    if !empties(&cell) {
        return Changed::one(cell);
    }
    let [buffer, in_use] = entries_of(cell.name);
    Changed {
        cells: [cell, buffer, in_use],
        count: 3,
    }
}

/// Whether a write of this cell empties its profile: it is capture_objects (IEC 62056-6-2, Profile generic).
pub fn empties(cell: &CellRef) -> bool
    ensures { result ≡ steps.empties cell.now }
{
    cell.class_id == Profile::INTERFACE.class_id && cell.index == Profile::CAPTURE_OBJECTS
}

/// The cells that a profile's reset and its capture change: attribute 2, buffer, and attribute 7, entries_in_use.
pub fn entries_of(profile: LogicalName) -> [CellRef; 2]
    ensures { result ≡ theory.buffer profile ∷ theory.entries_in_use profile ∷ [] }
{
    [buffer(profile), entries_in_use(profile)]
}

/// Attribute 2 of a data object, value.
pub(crate) fn data_value(object: LogicalName) -> CellRef
    ensures { result ≡ theory.data_value object }
{
    cell(Data1::INTERFACE.class_id, object, Data1::VALUE)
}

/// Attribute 2 of a register, value.
pub fn register_value(register: LogicalName) -> CellRef
    ensures { result ≡ theory.register_value register }
{
    cell(Register::INTERFACE.class_id, register, Register::VALUE)
}

/// Attribute 2 of a profile, buffer.
pub fn buffer(profile: LogicalName) -> CellRef
    ensures { result ≡ theory.buffer profile }
{
    cell(Profile::INTERFACE.class_id, profile, Profile::BUFFER)
}

/// Attribute 4 of a profile, capture_period.
pub fn capture_period(profile: LogicalName) -> CellRef
    ensures { result ≡ theory.capture_period profile }
{
    cell(
        Profile::INTERFACE.class_id,
        profile,
        Profile::CAPTURE_PERIOD,
    )
}

/// Attribute 7 of a profile, entries_in_use.
pub fn entries_in_use(profile: LogicalName) -> CellRef
    ensures { result ≡ theory.entries_in_use profile }
{
    cell(
        Profile::INTERFACE.class_id,
        profile,
        Profile::ENTRIES_IN_USE,
    )
}

/// Attribute 2 of a clock, time.
pub fn clock_time(clock: LogicalName) -> CellRef
    ensures { result ≡ theory.clock_time clock }
{
    cell(Clock::INTERFACE.class_id, clock, Clock::TIME)
}

/// Attribute 3 of a profile, capture_objects, a cell where there is a menu of them.
pub fn capture_objects(profile: LogicalName) -> CellRef
    ensures { result ≡ theory.capture_objects profile }
{
    cell(
        Profile::INTERFACE.class_id,
        profile,
        Profile::CAPTURE_OBJECTS,
    )
}

/// Attribute 2 of a single action schedule, executed_script, a cell where there is a menu of scripts.
pub fn executed_script(schedule: LogicalName) -> CellRef
    ensures { result ≡ theory.executed_script schedule }
{
    cell(
        Schedule::INTERFACE.class_id,
        schedule,
        Schedule::EXECUTED_SCRIPT,
    )
}

/// Attribute 2 of a register monitor, thresholds.
pub fn thresholds(monitor: LogicalName) -> CellRef
    ensures { result ≡ theory.thresholds monitor }
{
    cell(Monitor::INTERFACE.class_id, monitor, Monitor::THRESHOLDS)
}

/// The inner cell of a register monitor: the value that it saw last (own profile).
pub fn seen(monitor: LogicalName) -> CellRef
    ensures { result ≡ theory.seen monitor }
{
    cell(Monitor::INTERFACE.class_id, monitor, Monitor::SEEN)
}

/// Attribute 4 of a single action schedule, execution_time.
pub fn execution_time(schedule: LogicalName) -> CellRef
    ensures { result ≡ theory.execution_time schedule }
{
    cell(
        Schedule::INTERFACE.class_id,
        schedule,
        Schedule::EXECUTION_TIME,
    )
}

/// What the type keeps, for callers: the name of a cell has six bytes, so that it isn't the inner clock.
pub fn is_named(cell: &CellRef)
    ensures { length cell.now.name.0 ≡ 6 }
{
    let name: &[u8] = &cell.name.0;
    prove!(name.len() == 6);
}

fn cell(class_id: u16, name: LogicalName, index: u8) -> CellRef
    ensures { result ≡ record { class_id = class_id; name = name; index = index } }
{
    CellRef {
        class_id,
        name,
        index,
    }
}
