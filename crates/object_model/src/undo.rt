//! What takes an effect back, without memory.
ghost use Rattle.std.specs.Prelude.{◌≡◌};
ghost use Rattle.object_model.specs.Undone.{cell_changed};

use crate::cells::{
    buffer, capture_objects, capture_period, clock_time, data_value, executed_script,
    execution_time, register_value, seen, thresholds,
};
use civil_moment::moment::Moment;
use class_control::monitor::MonitorChange;
use class_control::schedule::ScheduleChange;
use class_profile::profile::{Cleared, ProfileChange};
use cosem_data::cell::CellRef;
use cosem_data::data::Data;
use cosem_data::name::LogicalName;

/// What an effect changed of an object, by its class: what that takes back.
#[derive(Drop)]
pub enum Change {
    /// The previous value.
    Data(Data),
    /// The previous value.
    Register(Data),
    /// The previous capture_period or capture_objects, a capture, or a reset.
    ProfileGeneric(ProfileChange),
    /// The previous time.
    Clock(Moment),
    /// The previous thresholds, or what it saw last before.
    RegisterMonitor(MonitorChange),
    /// The previous executed_script or execution_time.
    SingleActionSchedule(ScheduleChange),
}

impl Change {
    /// A cell of the object with this name that was changed.
    pub(crate) fn cell(&self, name: LogicalName) -> CellRef
        ensures { result ≡ cell_changed name self.now }
    {
        match self {
            Change::Data(_) => data_value(name),
            Change::Register(_) => register_value(name),
            Change::ProfileGeneric(ProfileChange::Period(_)) => capture_period(name),
            Change::ProfileGeneric(ProfileChange::Objects(_)) => capture_objects(name),
            Change::ProfileGeneric(_) => buffer(name),
            Change::Clock(_) => clock_time(name),
            Change::RegisterMonitor(MonitorChange::Thresholds(_)) => thresholds(name),
            Change::RegisterMonitor(MonitorChange::Seen(_)) => seen(name),
            Change::SingleActionSchedule(ScheduleChange::Script(_)) => executed_script(name),
            Change::SingleActionSchedule(ScheduleChange::Times(_)) => execution_time(name),
        }
    }
}

/// What takes an effect back: the object's name, what was changed of it last, and what a write had emptied before.
#[derive(Drop)]
pub struct Undo {
    pub name: LogicalName,
    pub change: Change,
    /// The entries of a profile whose capture_objects were written.
    pub emptied: Option<Cleared>,
}
