//! What clients may do with objects.
ghost use Rattle.std.specs.Prelude.{◌≡◌, IfOk, length, map};
ghost use Rattle.std.specs.List.{range_with_len};
ghost use Rattle.flow_page.specs.Objects as spec;

use crate::objects::Held;
use cosem_data::memory::Memory;
use flow_map::outline::{ObjectOutline, Outline};
use flow_map::pushing::push_if;
use meter_theory::flow::Access;
use std::alloc::Global;

/// What each client may do with an object. The only error is want of memory.
pub(crate) fn held_by_clients(
    alloc: Global,
    plan: &Outline<'_>,
    object: &ObjectOutline<'_>,
) -> Result<Vec<Held>, Memory>
    ensures { IfOk result (λ held. map spec.held_shown held.items
        ≡ map (spec.held_of plan.now object.now) (range_with_len 0 (length plan.now.clients))) }
{
    let mut held = Vec::new(alloc);
    for client in 0..plan.client_count() {
        held.push(held_by(alloc, plan, object, client)?)?;
    }
    Ok(held)
}

/// What a client may do with an object.
fn held_by(
    alloc: Global,
    plan: &Outline<'_>,
    object: &ObjectOutline<'_>,
    client: u8,
) -> Result<Held, Memory>
    ensures { IfOk result (λ held. spec.held_shown held ≡ spec.held_of plan.now object.now client) }
{
    let gets = indexes(alloc, plan, object, client, Access::Get)?;
    let sets = indexes(alloc, plan, object, client, Access::Set)?;
    let acts = indexes(alloc, plan, object, client, Access::Act)?;
    Ok(Held {
        sees: plan.rights_at(&object.name()).in_view(client),
        gets,
        sets,
        acts,
    })
}

/// The indexes at which rights allow a client to do something with an object.
fn indexes(
    alloc: Global,
    plan: &Outline<'_>,
    object: &ObjectOutline<'_>,
    client: u8,
    access: Access,
) -> Result<Vec<u8>, Memory>
    ensures { IfOk result (λ list. list.items ≡ spec.indexes plan.now object.now client access) }
{
    let instance = plan.rights_at(&object.name());
    let mut list = Vec::new(alloc);
    for place in 0..access.highest(&object.interface()) {
        let allowed = instance.is_granted(access, client, place + 1);
        push_if(allowed, place + 1, &mut list)?;
    }
    Ok(list)
}
