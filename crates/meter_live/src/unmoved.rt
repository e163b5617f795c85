//! Steps by which a meter stays as it was.
ghost use Rattle.std.specs.Prelude.{◌≡◌, ◌↔◌, false, IsTrue};
ghost use Rattle.std.specs.List.{All};
ghost use Rattle.cosem_data.specs.Equal.{same_tree};
ghost use Rattle.cosem_data.specs.Tree.{octet_string};
ghost use Rattle.cosem_data.specs.View.{tree};
ghost use Rattle.meter_live.specs.Keeping.{IsSeenAgain, Stays};
ghost use Rattle.meter_theory.specs.Plan as theory;
ghost use Rattle.meter_theory.specs.State.{value};
ghost use Rattle.meter_theory.specs.States.{IsState};
ghost use Rattle.object_model.specs.Stored.{held_tree, is_rows};

use class_control::clock::time_bytes;
use class_control::monitor::MonitorChange;
use cosem_data::data::Data;
use cosem_data::name::LogicalName;
use meter_core::back::Back;
use object_model::cells::seen;
use object_model::held::Held;
use object_model::meter::Meter;
use object_model::plan::Plan;
use object_model::undo::{Change, Undo};

/// Whether a meter stays as it was by a step, by what would take the step back: nothing changed, or register monitors saw again the
/// values that they saw last.
pub(crate) fn is_unmoved(plan: &Plan, meter: &Meter, back: &Back) -> bool
    requires { IsState plan.now meter.now }
    ensures { IsTrue result ↔ Stays meter.now back.now }
{
    match back {
        Back::Nothing => true,
        Back::Effect(undo) => is_seen_again(plan, meter, undo),
        Back::Effects(undos) => are_seen_again(plan, meter, undos),
        Back::Clock(_) => false,
    }
}

/// Whether all of these effects are register monitors that saw again what they saw last.
fn are_seen_again(plan: &Plan, meter: &Meter, undos: &[Undo]) -> bool
    requires { IsState plan.now meter.now }
    ensures { IsTrue result ↔ All (IsSeenAgain meter.now) undos.now }
{
    for undo in undos {
        if !is_seen_again(plan, meter, undo) {
            return false;
        }
    }
    true
}

/// Whether this effect is a register monitor that saw again what it saw last.
fn is_seen_again(plan: &Plan, meter: &Meter, undo: &Undo) -> bool
    requires { IsState plan.now meter.now }
    ensures { IsTrue result ↔ IsSeenAgain meter.now undo.now }
{
    match undo {
        Undo {
            name,
            change: Change::RegisterMonitor(MonitorChange::Seen(before)),
            emptied: None,
        } => sees(plan, meter, *name, before),
        _ => false,
    }
}

/// Whether this is the value that the register monitor with this name saw last.
fn sees(plan: &Plan, meter: &Meter, monitor: LogicalName, before: &Data) -> bool
    requires { IsState plan.now meter.now }
    ensures { IsTrue result ↔ (value meter.now (theory.seen monitor) ≡ tree before.now) }
{
    match meter.held(&plan.instance(&monitor), &seen(monitor)) {
        Some(held) => is_held(before, &held),
        None => *before == Data::NullData,
    }
}

/// Whether this is what a cell holds that is no buffer.
fn is_held(value: &Data, held: &Held<'_>) -> bool
    requires { is_rows held.now ≡ false }
    ensures { result ≡ same_tree (tree value.now) (held_tree held.now) }
{
    match held {
        Held::Value(now) => *value == **now,
        Held::Number(now) => *value == Data::DoubleLongUnsigned(*now),
        Held::Time(now) => is_string(value, &time_bytes(*now)),
        Held::Rows(_) => unreachable!(),
    }
}

/// Whether a value is the octet-string of these bytes.
fn is_string(value: &Data, bytes: &[u8]) -> bool
    ensures { result ≡ same_tree (tree value.now) (octet_string bytes.now) }
{
    match value {
        Data::OctetString(held) => held.as_slice() == bytes,
        _ => false,
    }
}
