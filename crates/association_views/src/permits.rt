//! Whether a client's request is allowed, by the plan and the request alone, in the order of places (own profile). Nothing
//! here takes memory.
ghost use Rattle.std.specs.Prelude.{◌≡◌, ℕ, ℤ, pos, int_le, nat_le, is_some, IfOk, Ok, Some};
ghost use Rattle.std.specs.Result.{result_and};
ghost use Rattle.cosem_data.specs.Cells.{cell};
ghost use Rattle.meter_theory.specs.Access.{is_success};
ghost use Rattle.meter_theory.specs.Rights as rights;
ghost use Rattle.meter_theory.specs.Rights.{first_place, in_view, is_index};
ghost use Rattle.meter_theory.specs.Plan.{interface_at, object_at, rule_of};
ghost use Rattle.object_model.specs.ArgumentView.{argument_of, selection_of};
ghost use Rattle.object_model.specs.PartView.{part_of};
ghost use Rattle.association_views.specs.Permits.{named_places, permitted, value_code};

use crate::selection::descriptor_in;
use class_control::script_table::{ScriptTable, knows_script};
use class_profile::profile::Profile;
use cosem_class::class::InterfaceClass;
use cosem_data::cell::CellRef;
use meter_theory::access::AccessCode;
use meter_theory::refs::{Descriptor, Interface};
use object_model::argument::Argument;
use object_model::instance::Instance;
use object_model::part::Part;
use object_model::plan::Plan;

/// Whether an index is one from 1 to the highest.
fn is_index(index: i8, highest: u8) -> bool
    ensures { result ≡ is_index index highest }
{
    1 <= index && i16::from(index) <= i16::from(highest)
}

/// The interface class of what stands at the name, by the places that each request has first, whether it names an attribute or
/// a method: `ObjectUndefined` where the name isn't in the client's view, `ObjectClassInconsistent` where another class stands
/// there.
fn interface_named(instance: &Instance, client: u8, class_id: u16) -> Result<Interface, AccessCode>
    ensures ok { IfOk result (λ interface.
        interface_at instance.now.plan instance.now.name ≡ Some interface) }
    ensures code { result_and result (Ok tt) ≡ permitted (first_place (named_places
        (in_view instance.now.plan client instance.now.name)
        (rights.class_is class_id (interface_at instance.now.plan instance.now.name)))) }
{
    if !instance.in_view(client) {
        return Err(AccessCode::ObjectUndefined);
    }
    match instance.interface() {
        Some(interface) if interface.class_id == class_id => Ok(interface),
        _ => Err(AccessCode::ObjectClassInconsistent),
    }
}

/// Only a profile's buffer takes a selector, and only selector 2, by entry.
fn takes_selection(cell: &CellRef, selection: &Option<(u8, Argument)>) -> bool
    ensures { result ≡ rights.takes_selection cell.now (selection_of selection.now) }
{
    match selection {
        None => true,
        Some((selector, _)) => {
            cell.class_id == Profile::CLASS_ID && cell.index == Profile::BUFFER && *selector == 2
        }
    }
}

/// The parameter of a selector is an entry descriptor.
fn valid_selection(selection: &Option<(u8, Argument)>) -> bool
    ensures { result ≡ rights.valid_selection (selection_of selection.now) }
{
    match selection {
        None => true,
        Some((_, parameter)) => descriptor_in(parameter).is_some(),
    }
}

/// Whether the client at this place may read an attribute by this selection (IEC 62056-5-3, GET): the first place that
/// applies gives the code. `ObjectUndefined`: the name isn't in the client's view, or the class has no such index;
/// `ObjectClassInconsistent`: another class; `ReadWriteDenied`: no right; `ScopeOfAccessViolated`: a selector that the
/// attribute doesn't take; `TypeUnmatched`: its parameter is no entry descriptor.
pub fn permit_get(
    plan: &Plan,
    client: u8,
    descriptor: &Descriptor,
    selection: &Option<(u8, Argument)>,
) -> Result<(), AccessCode>
    ensures { result ≡ permitted (rights.get_answer plan.now client descriptor.now
        (selection_of selection.now)) }
{
    permit_get_at(
        &plan.instance(&descriptor.name),
        client,
        descriptor,
        selection,
    )
}

/// As `permit_get`, of what was looked up at the name.
pub fn permit_get_at(
    instance: &Instance,
    client: u8,
    descriptor: &Descriptor,
    selection: &Option<(u8, Argument)>,
) -> Result<(), AccessCode>
    requires { descriptor.now.name ≡ instance.now.name }
    ensures { result ≡ permitted (rights.get_answer instance.now.plan client descriptor.now
        (selection_of selection.now)) }
{
    let cell = descriptor.attribute();
    let interface = interface_named(instance, client, descriptor.class_id)?;
    if !is_index(descriptor.index, interface.attributes) {
        return Err(AccessCode::ObjectUndefined);
    }
    if !instance.may_read(client, cell.index) {
        return Err(AccessCode::ReadWriteDenied);
    }
    if !takes_selection(&cell, selection) {
        return Err(AccessCode::ScopeOfAccessViolated);
    }
    if !valid_selection(selection) {
        return Err(AccessCode::TypeUnmatched);
    }
    Ok(())
}

/// Whether the client at this place may set an attribute to this value (IEC 62056-5-3, SET): as `permit_get`, but
/// `ScopeOfAccessViolated` for any selector, `TypeUnmatched` for a value that is unreadable or of another tag, and
/// `OtherReason` for the right tag against the rest of the cell's rule.
pub fn permit_set(
    plan: &Plan,
    client: u8,
    descriptor: &Descriptor,
    selected: bool,
    value: &Argument,
) -> Result<(), AccessCode>
    ensures { result ≡ permitted (rights.set_answer plan.now client descriptor.now selected
        (argument_of value.now)) }
{
    permit_set_at(
        &plan.instance(&descriptor.name),
        client,
        descriptor,
        selected,
        value,
    )
}

/// As `permit_set`, of what was looked up at the name.
pub fn permit_set_at(
    instance: &Instance,
    client: u8,
    descriptor: &Descriptor,
    selected: bool,
    value: &Argument,
) -> Result<(), AccessCode>
    requires { descriptor.now.name ≡ instance.now.name }
    ensures { result ≡ permitted (rights.set_answer instance.now.plan client descriptor.now selected
        (argument_of value.now)) }
{
    let cell = descriptor.attribute();
    let interface = interface_named(instance, client, descriptor.class_id)?;
    if !is_index(descriptor.index, interface.attributes) {
        return Err(AccessCode::ObjectUndefined);
    }
    if !instance.may_set(client, cell.index) {
        return Err(AccessCode::ReadWriteDenied);
    }
    if selected {
        return Err(AccessCode::ScopeOfAccessViolated);
    }
    permit_value(instance, &cell, value)
}

/// Whether the value may stand in the cell.
fn permit_value(instance: &Instance, cell: &CellRef, value: &Argument) -> Result<(), AccessCode>
    requires { cell.now.name ≡ instance.now.name }
    ensures { result
        ≡ permitted (value_code (rule_of instance.now.plan cell.now) (argument_of value.now)) }
{
    match value {
        Argument::Value(value) => instance.rule(cell.class_id, cell.index, value),
        _ => Err(AccessCode::TypeUnmatched),
    }
}

/// Whether what stands at the name is a script table, whose one method is execute.
fn executes(instance: &Instance) -> bool
    ensures { result ≡ rights.executes (object_at instance.now.plan instance.now.name) }
{
    match instance.object() {
        Some(object) => object.part().class_id() == ScriptTable::CLASS_ID,
        None => false,
    }
}

/// The parameter of execute is a script's number; that of reset and capture is absent or any readable value (own profile).
fn valid_parameter(instance: &Instance, argument: &Argument) -> bool
    ensures { result ≡ rights.valid_parameter (object_at instance.now.plan instance.now.name)
        (argument_of argument.now) }
{
    if executes(instance) {
        argument.script_number().is_some()
    } else {
        !matches!(argument, Argument::Unreadable)
    }
}

/// Whether a script table has a script with this number, where 0 is that of the null script.
fn knows(part: &Part, id: u16) -> bool
    ensures { result ≡ rights.knows (part_of part.now) id }
{
    match part {
        Part::ScriptTable(table) => knows_script(&table.scripts, id),
        _ => true,
    }
}

/// A number that is given to a script table is that of a script of it, or 0, that of the null script.
fn known_script(instance: &Instance, argument: &Argument) -> bool
    ensures { result ≡ rights.known_script (object_at instance.now.plan instance.now.name)
        (rights.script_number (argument_of argument.now)) }
{
    match (instance.object(), argument.script_number()) {
        (Some(object), Some(id)) => knows(object.part(), id),
        _ => true,
    }
}

/// Whether the client at this place may call a method with this argument (IEC 62056-5-3, ACTION): the first place that
/// applies gives the code. `ObjectUndefined`: the name isn't in the client's view, or the class has no such method;
/// `ObjectClassInconsistent`: another class; `ReadWriteDenied`: no right; `TypeUnmatched`: an argument that is unreadable,
/// and for execute of a script table any but a long-unsigned; `OtherReason`: no script has this number, and it isn't 0,
/// that of the null script (own profile).
pub fn permit_action(
    plan: &Plan,
    client: u8,
    descriptor: &Descriptor,
    argument: &Argument,
) -> Result<(), AccessCode>
    ensures { result
        ≡ permitted (rights.act_answer plan.now client descriptor.now (argument_of argument.now)) }
{
    permit_action_at(
        &plan.instance(&descriptor.name),
        client,
        descriptor,
        argument,
    )
}

/// As `permit_action`, of what was looked up at the name.
pub fn permit_action_at(
    instance: &Instance,
    client: u8,
    descriptor: &Descriptor,
    argument: &Argument,
) -> Result<(), AccessCode>
    requires { descriptor.now.name ≡ instance.now.name }
    ensures { result ≡ permitted (rights.act_answer instance.now.plan client descriptor.now
        (argument_of argument.now)) }
{
    let method = descriptor.method();
    let interface = interface_named(instance, client, descriptor.class_id)?;
    if !is_index(descriptor.index, interface.methods) {
        return Err(AccessCode::ObjectUndefined);
    }
    if !instance.may_act(client, method.index) {
        return Err(AccessCode::ReadWriteDenied);
    }
    if !valid_parameter(instance, argument) {
        return Err(AccessCode::TypeUnmatched);
    }
    if !known_script(instance, argument) {
        return Err(AccessCode::OtherReason);
    }
    Ok(())
}
