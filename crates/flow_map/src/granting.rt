//! The right that is shown of those that grant a client a cell, as the request that it allows.
ghost use Rattle.std.specs.Prelude.{◌≡◌, ◌&&◌, ℕ, false, find, flat_map, map};
ghost use Rattle.class_control.specs.ScriptView.{script_of};
ghost use Rattle.meter_theory.specs.Edges.{among};
ghost use Rattle.meter_theory.specs.Plan as theory;
ghost use Rattle.meter_theory.specs.Rights.{may_set};
ghost use Rattle.meter_theory.specs.Steps as steps;
ghost use Rattle.label_certificate.specs.Granted.{methods_of};
ghost use Rattle.flow_map.specs.Granting as spec;

use crate::request::GrantedRequest;
use class_control::script::Script;
use cosem_data::cell::{CellRef, MethodRef};
use cosem_data::data::Data;
use meter_effects::walk::{Planned, Visitor, each_of_calls, each_of_method};
use meter_theory::flow::Reach;
use object_model::argument::Argument;
use object_model::cells::changed_by_write;
use object_model::instance::Instance;
use object_model::object::Object;
use object_model::part::Part;
use object_model::plan::Plan;
use std::convert::Infallible;

/// How many cells an object has at most beside one.
const OTHERS: usize = 3;

/// The request that is shown of those that rights allow and that influence or learn a cell: a SET before an ACTION, each the first
/// in plan order, and of an execute the first script of the table that changes the cell (own profile). None where no right
/// grants the cell.
pub(crate) fn shown_request(
    plan: &Plan,
    cells: &[CellRef],
    reach: Reach,
    client: u8,
    cell: &CellRef,
) -> Option<GrantedRequest>
    requires { cells.now ≡ theory.cells plan.now }
    ensures { result ≡ spec.shown_request plan.now reach client cell.now }
{
    match reach {
        Reach::Learn => Some(GrantedRequest::Get(*cell)),
        Reach::Influence => match first_set(plan, around(plan, cells, cell), client, cell) {
            Some(set) => Some(GrantedRequest::Set(set)),
            None => first_call(plan, client, cell),
        },
    }
}

/// Of the cells of a plan those that stand around one: all of its object are among them, and no write of another changes it. Where it
/// is no cell of the plan there are none, and no write changes it.
fn around<'a>(plan: &Plan, cells: &'a [CellRef], cell: &CellRef) -> &'a [CellRef]
    requires { cells.now ≡ theory.cells plan.now }
    ensures { (client : ℕ) → find (λ y. may_set plan.now client y && among (steps.changed_by_write y) cell.now) result.now
        ≡ spec.first_set plan.now client cell.now }
{
    plan.known();
    let Some(number) = plan.cell_number(cell) else {
        return &[];
    };
    let number = usize::from(number);
    let first = number.saturating_sub(OTHERS);
    let end = cells.len().min(number + OTHERS + 1);
    &cells[first..end]
}

/// The first of these cells that the client may set and whose write changes the cell.
fn first_set(plan: &Plan, cells: &[CellRef], client: u8, cell: &CellRef) -> Option<CellRef>
    ensures { result ≡ find (λ y. may_set plan.now client y && among (steps.changed_by_write y) cell.now) cells.now }
{
    cells.iter().copied().find(|set| may_set(plan, client, set) && write_changes(set, cell))
}

/// Whether the client may set the cell.
fn may_set(plan: &Plan, client: u8, cell: &CellRef) -> bool
    ensures { result ≡ may_set plan.now client cell.now }
{
    plan.instance(&cell.name).may_set(client, cell.index)
}

/// Whether a write of the one cell changes the other.
fn write_changes(written: &CellRef, cell: &CellRef) -> bool
    ensures { result ≡ among (steps.changed_by_write written.now) cell.now }
{
    is_among(changed_by_write(*written).as_slice(), cell)
}

/// Whether the cell is one of these.
fn is_among(cells: &[CellRef], cell: &CellRef) -> bool
    ensures { result ≡ among cells.now cell.now }
{
    cells.iter().any(|other| *cell == *other)
}

/// The first call that the client may make and that changes the cell.
fn first_call(plan: &Plan, client: u8, cell: &CellRef) -> Option<GrantedRequest>
    ensures { result ≡ spec.first_call plan.now client cell.now }
{
    let method = first_method(plan, client, cell)?;
    let object = plan.object_at(&method.name)?;
    match object.part() {
        Part::ScriptTable(part) => {
            let script = first_script(plan, &method, &part.scripts, cell)?;
            Some(GrantedRequest::Execute(method, script))
        }
        _ => Some(GrantedRequest::Act(method)),
    }
}

/// The first method of the plan's objects that the client may call and that changes the cell.
fn first_method(plan: &Plan, client: u8, cell: &CellRef) -> Option<MethodRef>
    ensures { result ≡ find (spec.calls_change plan.now client cell.now) (flat_map methods_of plan.now.objects) }
{
    for object in plan.objects() {
        if let Some(method) = first_of_object(plan, object, client, cell) {
            return Some(method);
        }
    }
    None
}

/// The first method of an object that the client may call and that changes the cell.
fn first_of_object(plan: &Plan, object: &Object, client: u8, cell: &CellRef) -> Option<MethodRef>
    ensures { result ≡ find (spec.calls_change plan.now client cell.now) (methods_of object.now) }
{
    let interface = object.part().interface();
    for place in 0..interface.methods {
        let method = MethodRef {
            class_id: interface.class_id,
            name: object.name(),
            index: place + 1,
        };
        if calls_change(plan, client, &method, cell) {
            return Some(method);
        }
    }
    None
}

/// Whether the client may call a method, and calls of it may change the cell.
fn calls_change(plan: &Plan, client: u8, method: &MethodRef, cell: &CellRef) -> bool
    ensures { result ≡ spec.calls_change plan.now client cell.now method.now }
{
    if !plan.instance(&method.name).may_act(client, method.index) {
        return false;
    }
    let mut seeking = Seeking::new(*cell);
    let Ok(()) = each_of_calls(plan, method, &mut seeking);
    seeking.found
}

/// The number of the first of these scripts of a table that changes the cell.
fn first_script(plan: &Plan, execute: &MethodRef, scripts: &[Script], cell: &CellRef) -> Option<u16>
    ensures { result ≡ spec.first_script plan.now execute.now cell.now (map script_of scripts.now) }
{
    for script in scripts {
        if script_changes(plan, execute, script.id, cell) {
            return Some(script.id);
        }
    }
    None
}

/// Whether a call of execute with this number changes the cell.
fn script_changes(plan: &Plan, execute: &MethodRef, script: u16, cell: &CellRef) -> bool
    ensures { result ≡ among (spec.executed_changes plan.now execute.now script) cell.now }
{
    let mut seeking = Seeking::new(*cell);
    let script = Argument::Value(Data::LongUnsigned(script));
    let Ok(()) = each_of_method(plan, execute, &script, &mut seeking);
    seeking.found
}

/// Looks whether an effect to which a walk comes changes a cell.
#[derive(Drop)]
struct Seeking {
    cell: CellRef,
    found: bool,
}

impl Seeking {
    /// Nothing is found yet.
    fn new(cell: CellRef) -> Self
        ensures { result ≡ record { cell = cell; found = false } }
    {
        Seeking { cell, found: false }
    }
}

impl Visitor for Seeking {
    ghost use Rattle.flow_map.specs.Granting.{SeeksMore};

    type Stop = Infallible;

    ghost meets = { λ plan old effect new. SeeksMore old effect new };

    fn visit(&mut self, _object: &Instance<'_>, effect: &Planned<'_>) -> Result<(), Infallible> {
        if is_among(effect.changed().as_slice(), &self.cell) {
            self.found = true;
        }
        Ok(())
    }
}
