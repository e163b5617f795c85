//! Clients that are let influence cells.
ghost use Rattle.std.specs.Prelude.{◌≡◌, ◌<◌, length};
ghost use Rattle.meter_theory.specs.Plan as theory;
ghost use Rattle.meter_theory.specs.Labels.{method_changes_of};
ghost use Rattle.meter_effects.specs.Planned.{AreOf};
ghost use Rattle.label_certificate.specs.Granted.{AreJoined, by_clients};
ghost use Rattle.label_certificate.specs.Joining.{IsLet};

use cosem_data::cell::{CellRef, MethodRef};
use cosem_data::clients::ClientSet;
use meter_effects::walk::{Planned, Visitor, each_of_calls_at};
use meter_theory::flow::Label;
use object_model::instance::Instance;
use std::convert::Infallible;

/// Lets clients influence the cells that the effects change to which a walk comes.
#[derive(Drop)]
struct Joining<'a> {
    clients: ClientSet,
    labels: &'a mut [Label],
}

impl<'a> Visitor for Joining<'a> {
    ghost use Rattle.label_certificate.specs.Joining.{JoinsMore};

    type Stop = Infallible;

    ghost meets = { JoinsMore };

    fn visit(&mut self, object: &Instance<'_>, effect: &Planned<'_>) -> Result<(), Infallible> {
        let changed = effect.changed();
        join(object, changed.as_slice(), self.clients, self.labels);
        Ok(())
    }
}

/// Lets these clients influence the cells that calls of a method of what stands here may change. Where there are none, the method
/// isn't looked at.
pub(crate) fn join_method(
    instance: &Instance<'_>,
    method: &MethodRef,
    clients: ClientSet,
    labels: &mut [Label],
)
    requires named { method.now.name ≡ instance.now.name }
    requires labels { length labels.old ≡ length (theory.cells instance.now.plan) }
    ensures { AreJoined instance.now.plan
        (by_clients clients (method_changes_of instance.now.plan method.now)) labels.old labels.new }
{
    if clients.within(ClientSet::new()) {
        return;
    }
    let mut joining = Joining { clients, labels };
    let Ok(()) = each_of_calls_at(instance, method, &mut joining);
}

/// Lets these clients influence these cells of an object, where there is a label for each cell of the plan. No name is looked
/// for.
pub(crate) fn join(
    object: &Instance<'_>,
    changed: &[CellRef],
    clients: ClientSet,
    labels: &mut [Label],
)
    requires { AreOf object.now.name changed.now }
    ensures size { length labels.new ≡ length labels.old }
    ensures joined { length labels.old ≡ length (theory.cells object.now.plan) →
        AreJoined object.now.plan (by_clients clients changed.now) labels.old labels.new }
{
    object.plan().known();
    for cell in changed {
        if let Some(number) = object.cell_number(cell.class_id, cell.index) {
            join_at(labels, usize::from(number), clients);
        }
    }
}

/// Lets these clients influence the cell whose label has this number, if there is one.
fn join_at(labels: &mut [Label], number: usize, clients: ClientSet)
    ensures size { length labels.new ≡ length labels.old }
    ensures joined { number < length labels.old → IsLet clients number labels.old labels.new }
{
    if number < labels.len() {
        let label = &mut labels[number];
        label.influence = label.influence.union(clients);
    }
}
