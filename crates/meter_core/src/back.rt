//! What takes a step back, without memory.
ghost use Rattle.std.specs.Prelude.{◌≡◌};
ghost use Rattle.meter_theory.specs.Plan as plans;
ghost use Rattle.meter_theory.specs.State.{put};
ghost use Rattle.meter_theory.specs.States.{IsState};
ghost use Rattle.meter_theory.specs.Times.{clock_value};
ghost use Rattle.meter_core.specs.Back.{taken_back};

use civil_moment::moment::Moment;
use meter_effects::effects::undo_all;
use object_model::meter::Meter;
use object_model::plan::Plan;
use object_model::undo::{Change, Undo};

/// What takes a step back.
#[derive(Drop)]
pub enum Back {
    /// Nothing changed.
    Nothing,
    /// What takes its one effect back.
    Effect(Undo),
    /// What takes its effects back, in their order.
    Effects(Vec<Undo>),
    /// The moment at which the clock stood.
    Clock(Moment),
}

impl Back {
    /// Lets go of it, each case by a call of its own, so that only a step of one effect makes room for what an `Undo` may hold.
    pub(crate) fn let_go(self) {
        match self {
            Back::Nothing | Back::Clock(_) => {}
            Back::Effect(undo) => drop(undo),
            Back::Effects(undos) => drop(undos),
        }
    }
}

/// Takes the last step of a meter of the plan back. It takes no memory.
pub fn take_back(plan: &Plan, meter: &mut Meter, back: Back)
    requires { IsState plan.now meter.old }
    ensures { meter.new ≡ taken_back plan.now back meter.old }
{
    match back {
        Back::Nothing => {}
        Back::Effect(undo) => meter.undo(plan, undo),
        Back::Effects(undos) => undo_all(plan, meter, undos),
        Back::Clock(moment) => put_clock(plan, meter, moment),
    }
}

/// Puts the clock to a moment, that of the plan or the inner one.
fn put_clock(plan: &Plan, meter: &mut Meter, moment: Moment)
    requires { IsState plan.now meter.old }
    ensures { meter.new ≡ put meter.old (plans.clock plan.now) (clock_value moment) }
{
    moment.known();
    match plan.clock() {
        None => meter.set_clock(plan, moment),
        Some(name) => {
            let undo = Undo {
                name,
                change: Change::Clock(moment),
                emptied: None,
            };
            meter.undo(plan, undo);
        }
    }
}
