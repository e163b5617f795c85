//! What a client may see, get, set and call.
ghost use Rattle.std.specs.Prelude.{◌≡◌, ◌++◌, ◌==◌, ◌∷◌, [], OnOk, filter, flat_map, map};
ghost use Rattle.meter_theory.specs.Lists.{some_passes};
ghost use Rattle.meter_theory.specs.Plan.{class_of, object_at};
ghost use Rattle.flow_changes.specs.Facts as facts_told;
ghost use Rattle.flow_changes.specs.Shown.{shown};
ghost use Rattle.flow_changes.specs.Singles as singles;

use crate::fact::Fact;
use crate::namesakes::Namesakes;
use cosem_data::cell::CellRef;
use cosem_data::memory::Memory;
use cosem_data::name::LogicalName;
use flow_map::outline::{ObjectOutline, Outline, RightsAt};
use meter_theory::flow::Access;

/// Puts a fact behind others for each right of a client that the other, if it is one, lacks, object by object.
pub(crate) fn push_rights<'a>(who: &Namesakes<'a>, facts: &mut Vec<Fact<'a>>) -> Result<(), Memory>
    ensures { OnOk result (map shown facts.new.items ≡ map shown facts.old.items
        ++ flat_map (singles.right_facts who.now.name.now who.now.plan.now who.now.client who.now.other_plan.now who.now.other)
        who.now.plan.now.objects) }
{
    for object in who.plan.objects() {
        push_rights_on(who, object, facts)?;
    }
    Ok(())
}

/// The same of one object.
fn push_rights_on<'a>(
    who: &Namesakes<'a>,
    object: &ObjectOutline<'_>,
    facts: &mut Vec<Fact<'a>>,
) -> Result<(), Memory>
    ensures { OnOk result (map shown facts.new.items ≡ map shown facts.old.items
        ++ singles.right_facts who.now.name.now who.now.plan.now who.now.client who.now.other_plan.now who.now.other object.now) }
{
    let instance = who.plan.rights_at(&object.name());
    push_view(who, &instance, object, facts)?;
    push_access(Access::Get, who, &instance, object, facts)?;
    push_access(Access::Set, who, &instance, object, facts)?;
    push_access(Access::Act, who, &instance, object, facts)
}

/// Puts behind facts that an object is in the view of a client, where it is and isn't in that of the other.
fn push_view<'a>(
    who: &Namesakes<'a>,
    instance: &RightsAt<'_>,
    object: &ObjectOutline<'_>,
    facts: &mut Vec<Fact<'a>>,
) -> Result<(), Memory>
    requires { object.now.name ≡ instance.now.name }
    ensures { OnOk result (map shown facts.new.items ≡ map shown facts.old.items
        ++ singles.view_facts who.now.name.now instance.now.plan who.now.client who.now.other_plan.now who.now.other object.now) }
{
    let name = object.name();
    let class_id = object.class_id();
    if instance.has_right(who.client) && !has_view(who.other_plan, who.other, class_id, &name) {
        facts.push(Fact::Views {
            client: who.name,
            class_id,
            object: name,
        })?;
    }
    Ok(())
}

/// Puts a fact behind others for each attribute or method of an object that the rights of a client allow, and those of the
/// other don't.
fn push_access<'a>(
    access: Access,
    who: &Namesakes<'a>,
    instance: &RightsAt<'_>,
    object: &ObjectOutline<'_>,
    facts: &mut Vec<Fact<'a>>,
) -> Result<(), Memory>
    requires { object.now.name ≡ instance.now.name }
    ensures { OnOk result (map shown facts.new.items ≡ map shown facts.old.items
        ++ singles.access_facts who.now.name.now access instance.now.plan who.now.client who.now.other_plan.now who.now.other object.now) }
{
    let name = object.name();
    let class_id = object.class_id();
    let highest = access.highest(&object.interface());
    let mut index = 0;
    while index < highest {
        index += 1;
        let member = CellRef {
            class_id,
            name,
            index,
        };
        push_member(access, who, instance, &member, facts)?;
    }
    Ok(())
}

/// Puts an attribute or method behind facts, where a right of the client allows it and none of the other does.
fn push_member<'a>(
    access: Access,
    who: &Namesakes<'a>,
    instance: &RightsAt<'_>,
    member: &CellRef,
    facts: &mut Vec<Fact<'a>>,
) -> Result<(), Memory>
    requires { member.now.name ≡ instance.now.name }
    ensures { OnOk result (map shown facts.new.items ≡ map shown facts.old.items
        ++ map (facts_told.Holds who.now.name.now access)
        (filter (singles.is_new_right access instance.now.plan who.now.client who.now.other_plan.now who.now.other) (member.now ∷ []))) }
{
    if is_new_right(access, who, instance, member) {
        facts.push(Fact::Holds {
            client: who.name,
            access,
            member: *member,
        })?;
    }
    Ok(())
}

/// Whether a right of the client allows an access, and none of the other does.
fn is_new_right(
    access: Access,
    who: &Namesakes<'_>,
    instance: &RightsAt<'_>,
    member: &CellRef,
) -> bool
    requires { member.now.name ≡ instance.now.name }
    ensures { result ≡ singles.is_new_right access instance.now.plan who.now.client who.now.other_plan.now who.now.other member.now }
{
    instance.is_granted(access, who.client, member.index)
        && !is_held(who.other_plan, who.other, access, member)
}

/// Whether a client, if it is one, has an object of this class and name in its view by a right.
fn has_view(plan: &Outline<'_>, client: Option<u8>, class_id: u16, name: &LogicalName) -> bool
    ensures { result ≡ singles.sees plan.now client class_id name.now }
{
    let Some(client) = client else {
        return false;
    };
    let instance = plan.rights_at(name);
    instance.is_of_class(class_id) && instance.has_right(client)
}

/// Whether a right of a client, if it is one, allows an access to the attribute or method of an object of this class.
fn is_held(plan: &Outline<'_>, client: Option<u8>, access: Access, member: &CellRef) -> bool
    ensures { result ≡ singles.is_held plan.now client access member.now }
{
    let Some(client) = client else {
        return false;
    };
    let instance = plan.rights_at(&member.name);
    instance.is_of_class(member.class_id) && instance.is_granted(access, client, member.index)
}
