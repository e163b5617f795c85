//! What the rights of a plan ask of the labels of its cells.
ghost use Rattle.std.specs.Prelude.{◌≡◌, ℕ, ◌∷◌, [], Some, length, IfOk};
ghost use Rattle.object_model.specs.Tables.{AreNumbersOf, number_at};
ghost use Rattle.meter_theory.specs.Plan as theory;
ghost use Rattle.meter_theory.specs.Labels.{has};
ghost use Rattle.meter_theory.specs.Rights.{is_granted, may_get, may_set};
ghost use Rattle.label_certificate.specs.Granted.{AreGranted, AreJoined, AreOwn, may_call_for, may_empty, methods_of};

use crate::joining::{join, join_method};
use cosem_data::cell::{CellRef, MethodRef};
use cosem_data::clients::ClientSet;
use cosem_data::memory::Memory;
use meter_theory::flow::{Access, Label};
use meter_theory::limits::CLIENTS;
use object_model::cells::{empties, entries_of};
use object_model::instance::Instance;
use object_model::object::Object;
use object_model::plan::Plan;
use std::alloc::Global;

/// For each of the cells of a plan, in plan order, the clients that have a right to change it, and those that may read it (own
/// profile). The only error is want of memory.
pub fn granted_to_cells(alloc: Global, plan: &Plan, cells: &[CellRef]) -> Result<Vec<Label>, Memory>
    requires { cells.now ≡ theory.cells plan.now }
    ensures { IfOk result (λ labels. AreGranted plan.now labels.items) }
{
    plan.known();
    let owners = plan.owners(alloc)?;
    let mut labels = own_labels(alloc, plan, cells, &owners)?;
    join_writes(plan, cells, &owners, &mut labels);
    let objects = plan.objects();
    for (number, object) in objects.iter().enumerate() {
        join_methods(&plan.instance_of(number as u16), object, &mut labels);
    }
    Ok(labels)
}

/// For each cell, whose objects have these numbers, the clients that may set it, and those that may read it.
fn own_labels(
    alloc: Global,
    plan: &Plan,
    cells: &[CellRef],
    owners: &[u16],
) -> Result<Vec<Label>, Memory>
    requires cells { cells.now ≡ theory.cells plan.now }
    requires owners { AreNumbersOf plan.now cells.now owners.now }
    ensures { IfOk result (λ labels. AreOwn plan.now labels.items) }
{
    let mut labels = Vec::with_capacity(alloc, cells.len())?;
    for (place, cell) in cells.iter().enumerate() {
        labels.push(own_label(plan, owners[place], cell))?;
    }
    Ok(labels)
}

/// The clients that may set a cell of the object with this number, and those that may read it.
fn own_label(plan: &Plan, object: u16, cell: &CellRef) -> Label
    requires { number_at plan.now.objects cell.now.name ≡ Some object }
    ensures influence { (c : ℕ) → has result.influence c ≡ may_set plan.now c cell.now }
    ensures learn { (c : ℕ) → has result.learn c ≡ may_get plan.now c cell.now }
{
    let instance = Instance::numbered(plan, object);
    Label {
        influence: clients_with(&instance, Access::Set, cell.index),
        learn: clients_with(&instance, Access::Get, cell.index),
    }
}

/// The clients with a right that lists this index for this access.
fn clients_with(instance: &Instance<'_>, access: Access, index: u8) -> ClientSet
    ensures { (c : ℕ) → has result c
        ≡ is_granted instance.now.plan c access instance.now.name index }
{
    instance.plan().known();
    let mut clients = ClientSet::new();
    for client in 0..CLIENTS as u8 {
        if instance.is_granted(access, client, index) {
            clients = clients.with(client);
        }
    }
    clients
}

/// Lets the clients that may set a cell, whose objects have these numbers, influence those that this empties.
fn join_writes(plan: &Plan, cells: &[CellRef], owners: &[u16], labels: &mut [Label])
    requires owners { AreNumbersOf plan.now cells.now owners.now }
    requires labels { length labels.old ≡ length (theory.cells plan.now) }
    ensures { AreJoined plan.now (may_empty plan.now cells.now) labels.old labels.new }
{
    for (place, cell) in cells.iter().enumerate() {
        join_write(plan, owners[place], cell, labels);
    }
}

/// Lets the clients that may set one cell of the object with this number influence those that this empties. Most cells empty none.
fn join_write(plan: &Plan, object: u16, cell: &CellRef, labels: &mut [Label])
    requires object { number_at plan.now.objects cell.now.name ≡ Some object }
    requires labels { length labels.old ≡ length (theory.cells plan.now) }
    ensures { AreJoined plan.now (may_empty plan.now (cell.now ∷ [])) labels.old labels.new }
{
    if !empties(cell) {
        return;
    }
    let instance = Instance::numbered(plan, object);
    let clients = clients_with(&instance, Access::Set, cell.index);
    join(&instance, &entries_of(cell.name), clients, labels);
}

/// Lets the clients that may call a method of the object here influence the cells that it changes.
fn join_methods(instance: &Instance<'_>, object: &Object, labels: &mut [Label])
    requires named { object.now.name ≡ instance.now.name }
    requires labels { length labels.old ≡ length (theory.cells instance.now.plan) }
    ensures { AreJoined instance.now.plan (may_call_for instance.now.plan (methods_of object.now))
        labels.old labels.new }
{
    let interface = object.part().interface();
    for place in 0..interface.methods {
        let method = MethodRef {
            class_id: interface.class_id,
            name: object.name(),
            index: place + 1,
        };
        let clients = clients_with(instance, Access::Act, method.index);
        join_method(instance, &method, clients, labels);
    }
}
