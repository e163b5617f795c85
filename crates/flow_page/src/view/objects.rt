//! The objects of a plan, in rows of those that are alike.
ghost use Rattle.std.specs.Prelude.{◌≡◌, ◌<◌, IfOk, length, map};
ghost use Rattle.std.specs.List.{All, range_with_len};
ghost use Rattle.flow_map.specs.Grouping.{numbers_of};
ghost use Rattle.flow_page.specs.Objects as spec;
ghost use Rattle.flow_page.specs.Objects.{object_facts};
ghost use Rattle.flow_page.specs.Rows.{AreRowsOf, IsRow};

use crate::objects::ObjectRow;
use crate::view::held::held_by_clients;
use crate::view::keys::{ObjectKey, object_groups};
use crate::view::limits::ROWS;
use crate::view::rows::singles;
use cosem_data::memory::Memory;
use cosem_data::name::LogicalName;
use flow_map::outline::Outline;
use std::alloc::Global;

/// The numbers of the objects of each row: up to 100 objects have a row each, past it those that are alike share one (own
/// profile). The only error is want of memory.
pub(crate) fn object_numbers(alloc: Global, plan: &Outline<'_>) -> Result<Vec<Vec<usize>>, Memory>
    ensures { IfOk result (λ rows. spec.AreObjectRows plan.now (numbers_of rows.items)) }
{
    let count = plan.objects().len();
    if count <= ROWS {
        return singles(alloc, count);
    }
    let keys = object_keys(alloc, plan)?;
    object_groups(alloc, &keys)
}

/// What each object has alike with others of its row.
fn object_keys(alloc: Global, plan: &Outline<'_>) -> Result<Vec<ObjectKey>, Memory>
    ensures { IfOk result (λ keys. map object_facts keys.items
        ≡ map (spec.object_key plan.now) (range_with_len 0 (length plan.now.objects))) }
{
    let count = plan.objects().len();
    let mut keys = Vec::with_capacity(alloc, count)?;
    for number in 0..count {
        keys.push(object_key(alloc, plan, number)?)?;
    }
    Ok(keys)
}

/// What an object has alike with others of its row.
fn object_key(alloc: Global, plan: &Outline<'_>, number: usize) -> Result<ObjectKey, Memory>
    requires { number < length plan.now.objects }
    ensures { IfOk result (λ key. object_facts key ≡ spec.object_key plan.now number) }
{
    let object = &plan.objects()[number];
    let held = held_by_clients(alloc, plan, object)?;
    Ok(ObjectKey {
        class_id: object.interface().class_id,
        is_fed: object.is_fed(),
        held,
    })
}

/// What is told of the objects of each row. The only error is want of memory.
pub(crate) fn object_rows(
    alloc: Global,
    plan: &Outline<'_>,
    rows: &[Vec<usize>],
) -> Result<Vec<ObjectRow>, Memory>
    requires { AreRowsOf (length plan.now.objects) (numbers_of rows.now) }
    ensures { IfOk result (λ list. map spec.object_shown list.items
        ≡ map (spec.object_row plan.now) (numbers_of rows.now)) }
{
    let mut list = Vec::with_capacity(alloc, rows.len())?;
    for row in rows {
        list.push(object_row(alloc, plan, row)?)?;
    }
    Ok(list)
}

/// What is told of the objects of a row.
fn object_row(alloc: Global, plan: &Outline<'_>, row: &[usize]) -> Result<ObjectRow, Memory>
    requires { IsRow (length plan.now.objects) row.now }
    ensures { IfOk result (λ told. spec.object_shown told ≡ spec.object_row plan.now row.now) }
{
    let names = names_of(alloc, plan, row)?;
    let ObjectKey {
        class_id,
        is_fed,
        held,
    } = object_key(alloc, plan, row[0])?;
    Ok(ObjectRow {
        names,
        class_id,
        is_fed,
        held,
    })
}

/// The names of the objects of a row.
fn names_of(alloc: Global, plan: &Outline<'_>, row: &[usize]) -> Result<Vec<LogicalName>, Memory>
    requires { All (λ number. number < length plan.now.objects) row.now }
    ensures { IfOk result (λ names. names.items ≡ map (λ number. (spec.object_at plan.now number).name) row.now) }
{
    let mut names = Vec::with_capacity(alloc, row.len())?;
    for number in row {
        names.push(plan.objects()[*number].name())?;
    }
    Ok(names)
}
