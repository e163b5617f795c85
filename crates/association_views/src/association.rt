//! The attributes that no step changes, as a client reads them: those of its current association
//! (IEC 62056-6-2, Association LN, version 0) and the fixed attributes of the objects.
ghost use Rattle.std.specs.Prelude.{◌≡◌, ◌<◌, ℕ, [], ◌∷◌, ◌++◌, cond, true, filter, map, IfOk, OnOk, slice_get};
ghost use Rattle.std.specs.List.{range_with_len};
ghost use Rattle.cosem_data.specs.View.{tree};
ghost use Rattle.cosem_data.specs.Tree.{octet_string};
ghost use Rattle.cosem_data.specs.Cells.{cell};
ghost use Rattle.meter_theory.specs.Plan.{interface_of};
ghost use Rattle.meter_theory.specs.Rights.{has_right};
ghost use Rattle.meter_theory.specs.Fixed as shapes;

use class_profile::profile::Profile;
use cosem_class::class::InterfaceClass;
use cosem_class::shapes::{array, structure};
use cosem_data::bytes::Bytes;
use cosem_data::cell::CellRef;
use cosem_data::data::{Data, Items};
use cosem_data::memory::Memory;
use meter_theory::refs::Interface;
use object_model::instance::Instance;
use object_model::object::Object;
use object_model::plan::{ASSOCIATION, ASSOCIATION_LN, Plan};
use std::alloc::Global;

/// A fixed attribute of what stands at the cell's name, as the client at this place reads it: the logical name, an
/// attribute of the current association, or one of an object; null-data where there is none.
pub fn fixed_attribute(
    alloc: Global,
    plan: &Plan,
    client: u8,
    cell: &CellRef,
) -> Result<Data, Memory>
    ensures { IfOk result (λ value. tree value ≡ shapes.fixed plan.now client cell.now) }
{
    fixed_attribute_at(alloc, &plan.instance(&cell.name), client, cell.index)
}

/// As `fixed_attribute`, of what was looked up at the name.
#[tactic(auto, unfolding(meter_theory::specs::Fixed::fixed))]
pub fn fixed_attribute_at(
    alloc: Global,
    instance: &Instance,
    client: u8,
    index: u8,
) -> Result<Data, Memory>
    ensures { (class_id : ℕ) → IfOk result (λ value. tree value
        ≡ shapes.fixed instance.now.plan client (cell class_id instance.now.name index)) }
{
    let name = instance.name();
    if index == 1 {
        return name.as_octets(alloc);
    }
    if name == ASSOCIATION {
        return association_attribute(alloc, instance.plan(), client, index);
    }
    instance.fixed(alloc, index)
}

/// An attribute of the current association of the client at this place: its object_list (2), associated_partners_id (3),
/// application_context_name (4), authentication_mechanism_name (6) and association_status (8); null-data at any other.
#[tactic(auto, unfolding(meter_theory::specs::Fixed::association_attribute))]
pub fn association_attribute(
    alloc: Global,
    plan: &Plan,
    client: u8,
    index: u8,
) -> Result<Data, Memory>
    ensures { IfOk result (λ value. tree value ≡ shapes.association_attribute plan.now client index) }
{
    match index {
        2 => object_list(alloc, plan, client),
        3 => partners(alloc, plan, client),
        4 => octets(alloc, [96, 133, 116, 5, 8, 1, 1]),
        6 => mechanism(alloc, plan, client),
        8 => Ok(Data::Enumerated(2)),
        _ => Ok(Data::NullData),
    }
}

/// The current association first, then the objects on which the client has a right, each with the client's rights
/// (IEC 62056-6-2, Association LN, object_list).
#[tactic(auto, unfolding(meter_theory::specs::Fixed::object_list))]
pub(crate) fn object_list(alloc: Global, plan: &Plan, client: u8) -> Result<Data, Memory>
    ensures { IfOk result (λ value. tree value ≡ shapes.object_list plan.now client) }
{
    let mut list = Vec::new(alloc);
    let association = plan.instance(&ASSOCIATION);
    list.push(listed_object(alloc, &association, client, ASSOCIATION_LN)?)?;
    push_objects(alloc, plan, client, plan.objects(), &mut list)?;
    Ok(Data::Array(Items::new(list)))
}

/// Adds the objects on which the client has a right.
fn push_objects(
    alloc: Global,
    plan: &Plan,
    client: u8,
    objects: &[Object],
    list: &mut Vec<Data>,
) -> Result<(), Memory>
    ensures { OnOk result (map tree list.new.items ≡ map tree list.old.items
        ++ map (λ o. shapes.listed_object plan.now client o.name (interface_of o.part))
        (filter (λ o. has_right plan.now client o.name (λ r. true)) objects.now)) }
{
    for object in objects {
        push_object(alloc, plan, client, object, list)?;
    }
    Ok(())
}

/// Adds the object where the client has a right on it.
#[tactic(auto, using(crate::proofs::Shapes::few_attributes, crate::proofs::Shapes::few_methods))]
fn push_object(
    alloc: Global,
    plan: &Plan,
    client: u8,
    object: &Object,
    list: &mut Vec<Data>,
) -> Result<(), Memory>
    ensures { OnOk result (map tree list.new.items ≡ map tree list.old.items
        ++ cond (has_right plan.now client object.now.name (λ r. true))
        (shapes.listed_object plan.now client object.now.name (interface_of object.now.part) ∷ [])
        []) }
{
    let instance = plan.instance(&object.name());
    if instance.has_right(client) {
        let interface = object.part().interface();
        list.push(listed_object(alloc, &instance, client, interface)?)?;
    }
    Ok(())
}

/// An element of the object_list: what stands at the name, of this interface class, with the client's rights.
fn listed_object(
    alloc: Global,
    instance: &Instance,
    client: u8,
    interface: Interface,
) -> Result<Data, Memory>
    requires attributes { interface.attributes < 128 }
    requires methods { interface.methods < 128 }
    ensures { IfOk result (λ value. tree value
        ≡ shapes.listed_object instance.now.plan client instance.now.name interface) }
{
    structure(
        alloc,
        [
            Data::LongUnsigned(interface.class_id),
            Data::Unsigned(interface.version),
            instance.name().as_octets(alloc)?,
            access_rights(alloc, instance, client, interface)?,
        ],
    )
}

/// The client's rights on each attribute and each method, in order.
#[tactic(auto, unfolding(meter_theory::specs::Fixed::access_rights))]
fn access_rights(
    alloc: Global,
    instance: &Instance,
    client: u8,
    interface: Interface,
) -> Result<Data, Memory>
    requires attributes { interface.attributes < 128 }
    requires methods { interface.methods < 128 }
    ensures { IfOk result (λ value. tree value
        ≡ shapes.access_rights instance.now.plan client instance.now.name interface) }
{
    let attributes = attribute_accesses(alloc, instance, client, interface)?;
    let methods = method_accesses(alloc, instance, client, interface)?;
    structure(
        alloc,
        [
            Data::Array(Items::new(attributes)),
            Data::Array(Items::new(methods)),
        ],
    )
}

/// How the client may access each attribute, in order.
#[tactic(auto, using(crate::proofs::Shapes::one_more))]
fn attribute_accesses(
    alloc: Global,
    instance: &Instance,
    client: u8,
    interface: Interface,
) -> Result<Vec<Data>, Memory>
    requires { interface.attributes < 128 }
    ensures { IfOk result (λ all. map tree all.items
        ≡ map (λ k. shapes.attribute_access instance.now.plan client
        (cell interface.class_id instance.now.name k)) (range_with_len 1 interface.attributes)) }
{
    let mut all = Vec::new(alloc);
    for place in 0..interface.attributes {
        let access = attribute_access(alloc, instance, client, interface.class_id, place + 1)?;
        all.push(access)?;
    }
    Ok(all)
}

/// Whether the client may call each method, in order.
#[tactic(auto, using(crate::proofs::Shapes::one_more))]
fn method_accesses(
    alloc: Global,
    instance: &Instance,
    client: u8,
    interface: Interface,
) -> Result<Vec<Data>, Memory>
    requires { interface.methods < 128 }
    ensures { IfOk result (λ all. map tree all.items
        ≡ map (λ k. shapes.method_access instance.now.plan client
        (cell interface.class_id instance.now.name k)) (range_with_len 1 interface.methods)) }
{
    let mut all = Vec::new(alloc);
    for place in 0..interface.methods {
        all.push(method_access(alloc, instance, client, place + 1)?)?;
    }
    Ok(all)
}

/// An attribute's index, and how the client may access it.
fn attribute_access(
    alloc: Global,
    instance: &Instance,
    client: u8,
    class_id: u16,
    index: u8,
) -> Result<Data, Memory>
    requires { index < 128 }
    ensures { IfOk result (λ value. tree value ≡ shapes.attribute_access instance.now.plan client
        (cell class_id instance.now.name index)) }
{
    structure(
        alloc,
        [
            Data::Integer(index as i8),
            Data::Enumerated(access_mode(instance, client, index)),
            access_selectors(alloc, instance, client, class_id, index)?,
        ],
    )
}

/// access_mode: 0 no_access, 1 read_only, 2 write_only, 3 read_and_write.
fn access_mode(instance: &Instance, client: u8, index: u8) -> u8
    ensures { (class_id : ℕ) → result
        ≡ shapes.access_mode instance.now.plan client (cell class_id instance.now.name index) }
{
    match (
        instance.may_read(client, index),
        instance.may_set(client, index),
    ) {
        (true, true) => 3,
        (true, false) => 1,
        (false, true) => 2,
        (false, false) => 0,
    }
}

/// access_selectors: selector 2 alone for a buffer that the client may read, none for any other attribute.
fn access_selectors(
    alloc: Global,
    instance: &Instance,
    client: u8,
    class_id: u16,
    index: u8,
) -> Result<Data, Memory>
    ensures { IfOk result (λ value. tree value ≡ shapes.access_selectors instance.now.plan client
        (cell class_id instance.now.name index)) }
{
    let is_buffer = class_id == Profile::CLASS_ID && index == Profile::BUFFER;
    if is_buffer && instance.may_read(client, index) {
        array(alloc, [Data::Integer(2)])
    } else {
        Ok(Data::NullData)
    }
}

/// A method's index, and whether the client may call it.
fn method_access(alloc: Global, instance: &Instance, client: u8, index: u8) -> Result<Data, Memory>
    requires { index < 128 }
    ensures { (class_id : ℕ) → IfOk result (λ value. tree value
        ≡ shapes.method_access instance.now.plan client (cell class_id instance.now.name index)) }
{
    structure(
        alloc,
        [
            Data::Integer(index as i8),
            Data::Boolean(instance.may_act(client, index)),
        ],
    )
}

/// The client's service access point, and that of the server, 1.
#[tactic(auto, using(crate::proofs::Shapes::sap_within))]
fn partners(alloc: Global, plan: &Plan, client: u8) -> Result<Data, Memory>
    ensures { IfOk result (λ value. tree value
        ≡ shapes.of_client (slice_get plan.now.clients client) shapes.partners) }
{
    plan.known();
    match plan.client(client) {
        Some(found) => structure(
            alloc,
            [Data::Integer(found.sap() as i8), Data::LongUnsigned(1)],
        ),
        None => Ok(Data::NullData),
    }
}

/// Low level security for a client with a password, else lowest level security.
fn mechanism(alloc: Global, plan: &Plan, client: u8) -> Result<Data, Memory>
    ensures { IfOk result (λ value. tree value ≡ shapes.of_client
        (slice_get plan.now.clients client) (λ c. shapes.mechanism_of c.password)) }
{
    match plan.client(client) {
        Some(found) => match found.password() {
            Some(_) => octets(alloc, [96, 133, 116, 5, 8, 2, 1]),
            None => octets(alloc, [96, 133, 116, 5, 8, 2, 0]),
        },
        None => Ok(Data::NullData),
    }
}

fn octets<const N: usize>(alloc: Global, bytes: [u8; N]) -> Result<Data, Memory>
    ensures { IfOk result (λ value. tree value ≡ octet_string bytes.entry) }
{
    Ok(Data::OctetString(Bytes::new(Vec::from_array(alloc, bytes)?)))
}
