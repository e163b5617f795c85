ghost use Rattle.std.specs.Prelude.{◌≡◌, false, is_some, IfOk, IsOk};

use civil_moment::moment::Moment;
use cosem_data::cell::CellRef;
use cosem_data::data::Data;
use cosem_data::memory::Memory;
use cosem_data::name::LogicalName;
use meter_theory::refs::Descriptor;
use object_model::argument::Argument;
use std::alloc::Global;

/// What happens to a meter.
#[derive(Drop)]
pub enum Step {
    /// The client at this place reads an attribute (IEC 62056-5-3, GET), by a selector with its parameter where there is
    /// one.
    Get {
        client: u8,
        attribute: Descriptor,
        selection: Option<(u8, Argument)>,
    },
    /// The client at this place sets an attribute (IEC 62056-5-3, SET). No cell is set by a selector.
    Set {
        client: u8,
        attribute: Descriptor,
        selected: bool,
        value: Argument,
    },
    /// The client at this place calls a method (IEC 62056-5-3, ACTION).
    Act {
        client: u8,
        method: Descriptor,
        argument: Argument,
    },
    /// A value comes from outside into a cell, which is the value of a fed object (own profile). Any other changes
    /// nothing, and neither does a value that may not stand there.
    Input {
        cell: CellRef,
        value: Data,
    },
    /// The profile with this name looks at the clock, and captures if its period is over (own profile).
    CaptureAt {
        profile: LogicalName,
    },
    /// The register monitor with this name is evaluated: the scripts that are due run, and it remembers the value that it
    /// watches (IEC 62056-6-2, Register monitor).
    Evaluate {
        monitor: LogicalName,
    },
    /// The single action schedule with this name looks at the clock, and runs its script if the moment is one of its times
    /// (IEC 62056-6-2, Single action schedule).
    ScheduleAt {
        schedule: LogicalName,
    },
    /// A second goes by, and the clock with it (own profile).
    Tick,
    /// A moment is told to a meter without a clock, which goes by it from now on (own profile). A clock of the plan is left.
    ClockAt {
        moment: Moment,
    },
}

impl Step {
    ghost use Rattle.std.specs.Prelude.{◌≡◌, false, IfOk, IsOk};
    ghost use Rattle.meter_core.specs.Copies.{brings_value};
    ghost use Rattle.meter_core.specs.StepView.{step_of};
    ghost use Rattle.meter_theory.specs.Steps.{client_of};

    /// The place of the client whose step it is; the meter's own have none.
    pub fn client(&self) -> Option<u8>
        ensures { result ≡ client_of (step_of self.now) }
    {
        match self {
            Step::Get { client, .. } | Step::Set { client, .. } | Step::Act { client, .. } => {
                Some(*client)
            }
            Step::Input { .. }
            | Step::CaptureAt { .. }
            | Step::Evaluate { .. }
            | Step::ScheduleAt { .. }
            | Step::Tick
            | Step::ClockAt { .. } => None,
        }
    }

    /// A copy, which equals the original. The only error is that memory was refused; a step that brings no value takes none.
    pub fn try_clone(&self, alloc: Global) -> Result<Step, Memory>
        ensures equal { IfOk result (λ copy. copy ≡ self.now) }
        ensures bare { brings_value self.now ≡ false → IsOk result }
    {
        Ok(match self {
            Step::Get {
                client,
                attribute,
                selection,
            } => Step::Get {
                client: *client,
                attribute: *attribute,
                selection: selection_copy(alloc, selection)?,
            },
            Step::Set {
                client,
                attribute,
                selected,
                value,
            } => Step::Set {
                client: *client,
                attribute: *attribute,
                selected: *selected,
                value: value.try_clone(alloc)?,
            },
            Step::Act {
                client,
                method,
                argument,
            } => Step::Act {
                client: *client,
                method: *method,
                argument: argument.try_clone(alloc)?,
            },
            Step::Input { cell, value } => Step::Input {
                cell: *cell,
                value: value.try_clone(alloc)?,
            },
            Step::CaptureAt { profile } => Step::CaptureAt { profile: *profile },
            Step::Evaluate { monitor } => Step::Evaluate { monitor: *monitor },
            Step::ScheduleAt { schedule } => Step::ScheduleAt {
                schedule: *schedule,
            },
            Step::Tick => Step::Tick,
            Step::ClockAt { moment } => Step::ClockAt { moment: *moment },
        })
    }
}

/// A copy of a selector and its parameter.
fn selection_copy(
    alloc: Global,
    selection: &Option<(u8, Argument)>,
) -> Result<Option<(u8, Argument)>, Memory>
    ensures equal { IfOk result (λ copy. copy ≡ selection.now) }
    ensures none { is_some selection.now ≡ false → IsOk result }
{
    match selection {
        Some((selector, parameter)) => Ok(Some((*selector, parameter.try_clone(alloc)?))),
        None => Ok(None),
    }
}
