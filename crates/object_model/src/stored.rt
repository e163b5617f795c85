//! The objects of a meter: of each the cells of its class. The plan lends its part to each operation.
ghost use Rattle.std.specs.Prelude.{◌≡◌, ◌==◌, ◌&&◌, length, true, false, Some, IfOk, IsOk, OnOk, OnErr};
ghost use Rattle.cosem_data.specs.View.{tree};
ghost use Rattle.cosem_data.specs.Cells.{cell, same_name};
ghost use Rattle.meter_theory.specs.Plan as theory;
ghost use Rattle.meter_theory.specs.Plan.{class_of, start_of};
ghost use Rattle.meter_theory.specs.State.{put, value};
ghost use Rattle.meter_theory.specs.Steps.{clear, empties, kept};
ghost use Rattle.meter_theory.specs.Times.{clock_moment, clock_value, next_second};
ghost use Rattle.meter_theory.specs.Value.{Rule, elements, meets};
ghost use Rattle.class_profile.specs.ProfileClass.{is_buffer};
ghost use Rattle.cosem_class.specs.Parts.{rule_watching};
ghost use Rattle.class_profile.specs.PartView.{captures_of_part};
ghost use Rattle.object_model.specs.PartView.{part_of};
ghost use Rattle.object_model.specs.Stored.{captured, class_stored, has_index, held_tree, is_rows, is_value, pairs_if, stored_pairs, stores};
ghost use Rattle.class_profile.specs.declared.profile.ProfileChange.TheVariants as profiles;
ghost use Rattle.object_model.specs.Undone.{cell_changed, change_undone, profile_undone};

use crate::held::Held;
use crate::object::Object;
use crate::part::Part;
use crate::undo::Change;
use civil_moment::moment::Moment;
use class_control::clock::Clock;
use class_control::monitor::{Monitor, MonitorChange, Watch};
use class_control::schedule::Schedule;
use class_profile::profile::{Cleared, Profile, ProfileChange, ProfilePart};
use cosem_class::class::{Lent, Row};
use cosem_class::data1::Data1;
use cosem_class::register::Register;
use cosem_data::cell::CellRef;
use cosem_data::data::Data;
use cosem_data::kind::Kind;
use cosem_data::memory::Memory;
use cosem_data::name::LogicalName;
use std::alloc::Global;

/// The cells of an object, by its class (IEC 62056-6-2, interface classes). A script table has none.
#[derive(Drop)]
pub(crate) enum Cells {
    Data(Data1),
    Register(Register),
    ProfileGeneric(Profile),
    Clock(Clock),
    RegisterMonitor(Monitor),
    SingleActionSchedule(Schedule),
}

/// An object of a meter that has cells.
#[derive(Drop)]
pub(crate) struct Stored {
    pub(crate) name: LogicalName,
    pub(crate) cells: Cells,
}

impl Stored {
    /// The object with its start values, if it has cells.
    pub(crate) fn start(alloc: Global, object: &Object) -> Result<Option<Stored>, Memory>
        ensures { IfOk result (λ stored. pairs_if stored
            ≡ start_of object.now.name object.now.part) }
    {
        let cells = match object.part() {
            Part::Data(part) => Cells::Data(Data1::start(alloc, part)?),
            Part::Register(part) => Cells::Register(Register::start(alloc, part)?),
            Part::ProfileGeneric(part) => Cells::ProfileGeneric(Profile::start(alloc, part)?),
            Part::Clock(part) => Cells::Clock(Clock { time: part.start }),
            Part::ScriptTable(_) => return Ok(None),
            Part::RegisterMonitor(part) => Cells::RegisterMonitor(Monitor::start(alloc, part)?),
            Part::SingleActionSchedule(part) => {
                Cells::SingleActionSchedule(Schedule::start(alloc, part)?)
            }
        };
        Ok(Some(Stored {
            name: object.name(),
            cells,
        }))
    }

    /// A copy.
    pub(crate) fn try_clone(&self, alloc: Global) -> Result<Stored, Memory>
        ensures { IfOk result (λ copy. stored_pairs copy ≡ stored_pairs self.now) }
    {
        let cells = match &self.cells {
            Cells::Data(object) => Cells::Data(object.try_clone(alloc)?),
            Cells::Register(object) => Cells::Register(object.try_clone(alloc)?),
            Cells::ProfileGeneric(object) => Cells::ProfileGeneric(object.try_clone(alloc)?),
            Cells::Clock(object) => Cells::Clock(Clock { time: object.time }),
            Cells::RegisterMonitor(object) => Cells::RegisterMonitor(object.try_clone(alloc)?),
            Cells::SingleActionSchedule(object) => {
                Cells::SingleActionSchedule(object.try_clone(alloc)?)
            }
        };
        Ok(Stored {
            name: self.name,
            cells,
        })
    }

    /// Whether it is a cell of the object.
    pub(crate) fn has(&self, cell: &CellRef) -> bool
        ensures { result ≡ stores cell.now self.now }
    {
        self.is_attribute(cell) && self.has_index(cell.index)
    }

    /// Whether the cell is named as one of the object.
    fn is_attribute(&self, cell: &CellRef) -> bool
        ensures { result ≡ ((cell.now.class_id == class_stored self.now.cells)
            && same_name cell.now.name self.now.name) }
    {
        cell.class_id == self.class_id() && cell.name == self.name
    }

    /// The class_id of its interface class (IEC 62056-6-2).
    fn class_id(&self) -> u16
        ensures { result ≡ class_stored self.now.cells }
    {
        match &self.cells {
            Cells::Data(_) => Data1::INTERFACE.class_id,
            Cells::Register(_) => Register::INTERFACE.class_id,
            Cells::ProfileGeneric(_) => Profile::INTERFACE.class_id,
            Cells::Clock(_) => Clock::INTERFACE.class_id,
            Cells::RegisterMonitor(_) => Monitor::INTERFACE.class_id,
            Cells::SingleActionSchedule(_) => Schedule::INTERFACE.class_id,
        }
    }

    /// Whether it has a cell at this index, by its class.
    fn has_index(&self, index: u8) -> bool
        ensures { result ≡ has_index self.now.cells index }
    {
        match &self.cells {
            Cells::Data(_) => index == Data1::VALUE,
            Cells::Register(_) => index == Register::VALUE,
            Cells::ProfileGeneric(object) => object.has(index),
            Cells::Clock(object) => object.has(index),
            Cells::RegisterMonitor(object) => object.has(index),
            Cells::SingleActionSchedule(object) => object.has(index),
        }
    }

    /// The value in a cell of the object.
    pub(crate) fn held(&self, cell: &CellRef) -> Held<'_>
        requires { stores cell.now self.now ≡ true }
        ensures value { held_tree result ≡ value (stored_pairs self.now) cell.now }
        ensures rows { is_rows result ≡ true → cell.now.class_id ≡ 7 }
        ensures buffer { cell.now.class_id ≡ 7 → cell.now.index ≡ 2 → is_rows result ≡ true }
        ensures objects { cell.now.class_id ≡ 7 → cell.now.index ≡ 3 → is_value result ≡ true }
        ensures schedule { cell.now.class_id ≡ 22 → is_value result ≡ true }
    {
        match &self.cells {
            Cells::Data(object) => Held::Value(&object.value),
            Cells::Register(object) => Held::Value(&object.value),
            Cells::ProfileGeneric(object) => Held::from(object.held(cell.index)),
            Cells::Clock(object) => Held::Time(object.held()),
            Cells::RegisterMonitor(object) => Held::Value(object.held(cell.index)),
            Cells::SingleActionSchedule(object) => Held::Value(object.held(cell.index)),
        }
    }

    /// Writes a value that may stand in the cell at this index, by the object's class, to which the plan lends this part
    /// and the kind that a register monitor watches. A profile's capture_objects are put by
    /// `put_objects`.
    pub(crate) fn write(&mut self, part: &Part, monitored: Kind, index: u8, given: Data) -> Change
        requires fits { (rule : Rule) × (rule_watching monitored (part_of part.now) index ≡ Some rule)
            × (meets rule (tree given) ≡ true) }
        requires stored { stores (cell (class_of (part_of part.now)) self.old.name index) self.old
            ≡ true }
        requires other { empties (cell (class_of (part_of part.now)) self.old.name index) ≡ false }
        ensures name { self.new.name ≡ self.old.name }
        ensures put { stored_pairs self.new
            ≡ put (stored_pairs self.old) (cell (class_of (part_of part.now)) self.old.name index)
            (kept (cell (class_of (part_of part.now)) self.old.name index) (tree given)) }
        ensures cell { cell_changed self.old.name result
            ≡ cell (class_of (part_of part.now)) self.old.name index }
        ensures before { change_undone self.old.name result (stored_pairs self.new)
            ≡ stored_pairs self.old }
    {
        let name = self.name;
        match (&mut self.cells, part) {
            (Cells::Data(object), Part::Data(part)) => {
                Change::Data(object.put(Lent { name, part }, index, given))
            }
            (Cells::Register(object), Part::Register(part)) => {
                Change::Register(object.put(Lent { name, part }, index, given))
            }
            (Cells::ProfileGeneric(object), Part::ProfileGeneric(part)) => {
                Change::ProfileGeneric(ProfileChange::Period(object.put(
                    Lent { name, part },
                    index,
                    given,
                )))
            }
            (Cells::Clock(object), Part::Clock(part)) => {
                Change::Clock(object.put(Lent { name, part }, index, given))
            }
            (Cells::RegisterMonitor(object), Part::RegisterMonitor(part)) => {
                let kind = monitored;
                Change::RegisterMonitor(MonitorChange::Thresholds(object.put(
                    Watch { name, part, kind },
                    index,
                    given,
                )))
            }
            (Cells::SingleActionSchedule(object), Part::SingleActionSchedule(part)) => {
                Change::SingleActionSchedule(object.put(Lent { name, part }, index, given))
            }
            _ => unreachable!(),
        }
    }

    /// The moment at which a clock stands.
    pub(crate) fn moment(&self) -> Moment
        requires { stores (theory.clock_time self.now.name) self.now ≡ true }
        ensures { result
            ≡ clock_moment (value (stored_pairs self.now) (theory.clock_time self.now.name)) }
    {
        match &self.cells {
            Cells::Clock(object) => object.time,
            _ => unreachable!(),
        }
    }

    /// A clock goes on by a second.
    pub(crate) fn tick(&mut self)
        requires { stores (theory.clock_time self.old.name) self.old ≡ true }
        ensures name { self.new.name ≡ self.old.name }
        ensures put { stored_pairs self.new
            ≡ put (stored_pairs self.old) (theory.clock_time self.old.name)
            (clock_value (next_second (clock_moment (value (stored_pairs self.old) (theory.clock_time self.old.name))))) }
    {
        match &mut self.cells {
            Cells::Clock(object) => object.tick(),
            _ => unreachable!(),
        }
    }

    /// Puts which cells a profile captures from now on, and nothing else: the meter empties it before.
    pub(crate) fn put_objects(&mut self, objects: Data) -> Change
        requires { stores (theory.capture_objects self.old.name) self.old ≡ true }
        ensures name { self.new.name ≡ self.old.name }
        ensures put { stored_pairs self.new
            ≡ put (stored_pairs self.old) (theory.capture_objects self.old.name) (tree objects) }
        ensures cell { cell_changed self.old.name result ≡ theory.capture_objects self.old.name }
        ensures before { change_undone self.old.name result (stored_pairs self.new)
            ≡ stored_pairs self.old }
    {
        match &mut self.cells {
            Cells::ProfileGeneric(object) => {
                Change::ProfileGeneric(ProfileChange::Objects(object.put_objects(objects)))
            }
            _ => unreachable!(),
        }
    }

    /// What a register monitor saw last.
    pub(crate) fn remember(&mut self, now: Data) -> Change
        requires { stores (theory.seen self.old.name) self.old ≡ true }
        ensures name { self.new.name ≡ self.old.name }
        ensures put { stored_pairs self.new
            ≡ put (stored_pairs self.old) (theory.seen self.old.name) (tree now) }
        ensures cell { cell_changed self.old.name result ≡ theory.seen self.old.name }
        ensures before { change_undone self.old.name result (stored_pairs self.new)
            ≡ stored_pairs self.old }
    {
        match &mut self.cells {
            Cells::RegisterMonitor(object) => {
                Change::RegisterMonitor(MonitorChange::Seen(object.remember(now)))
            }
            _ => unreachable!(),
        }
    }

    /// Captures a row into a profile, over what the plan fixes of it. The only error is that memory was refused, which a full
    /// buffer doesn't ask for; the object is as it was then.
    pub(crate) fn capture(
        &mut self,
        alloc: Global,
        part: &ProfilePart,
        row: Row,
    ) -> Result<Change, Memory>
        requires stored { stores (theory.buffer self.old.name) self.old ≡ true }
        requires rows { is_buffer (captures_of_part part.now) part.now.profile_entries
            (value (stored_pairs self.old) (theory.buffer self.old.name)) ≡ true }
        ensures name { self.new.name ≡ self.old.name }
        ensures ok { OnOk result (stored_pairs self.new
            ≡ captured self.old.name part.now.profile_entries row (stored_pairs self.old)) }
        ensures before { IfOk result (λ change. change_undone self.old.name change (stored_pairs self.new)
            ≡ stored_pairs self.old) }
        ensures cell { IfOk result (λ change. cell_changed self.old.name change
            ≡ theory.buffer self.old.name) }
        ensures err { OnErr result (stored_pairs self.new ≡ stored_pairs self.old) }
        ensures full { length (elements (value (stored_pairs self.old) (theory.buffer self.old.name)))
            ≡ part.now.profile_entries → IsOk result }
    {
        match &mut self.cells {
            Cells::ProfileGeneric(object) => {
                let captured = object.capture(alloc, part, row)?;
                Ok(Change::ProfileGeneric(ProfileChange::Captured(captured)))
            }
            _ => unreachable!(),
        }
    }

    /// Empties a profile.
    pub(crate) fn clear(&mut self) -> Cleared
        requires { stores (theory.buffer self.old.name) self.old ≡ true }
        ensures name { self.new.name ≡ self.old.name }
        ensures pairs { stored_pairs self.new ≡ clear (stored_pairs self.old) self.old.name }
        ensures before { profile_undone self.old.name (profiles.Cleared result)
            (stored_pairs self.new) ≡ stored_pairs self.old }
    {
        match &mut self.cells {
            Cells::ProfileGeneric(object) => object.clear(),
            _ => unreachable!(),
        }
    }

    /// Takes a change back.
    pub(crate) fn restore(&mut self, change: Change)
        requires { stores (cell_changed self.old.name change) self.old ≡ true }
        ensures name { self.new.name ≡ self.old.name }
        ensures pairs { stored_pairs self.new
            ≡ change_undone self.old.name change (stored_pairs self.old) }
    {
        match (&mut self.cells, change) {
            (Cells::Data(object), Change::Data(held)) => object.undo(held),
            (Cells::Register(object), Change::Register(held)) => object.undo(held),
            (Cells::ProfileGeneric(object), Change::ProfileGeneric(change)) => object.undo(change),
            (Cells::Clock(object), Change::Clock(held)) => object.undo(held),
            (Cells::RegisterMonitor(object), Change::RegisterMonitor(change)) => {
                object.undo(change)
            }
            (Cells::SingleActionSchedule(object), Change::SingleActionSchedule(held)) => {
                object.undo(held)
            }
            _ => unreachable!(),
        }
    }
}
