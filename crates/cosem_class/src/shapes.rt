ghost use Rattle.std.specs.Prelude.{◌≡◌, map, IfOk};
ghost use Rattle.cosem_data.specs.View.{tree};
ghost use Rattle.meter_theory.specs.Value.{structure_of, array_of};
ghost use Rattle.meter_theory.specs.Fixed.{scaler_unit_value};
ghost use Rattle.cosem_class.specs.Objects.{tree_or_null};

use cosem_data::data::{Data, Items};
use cosem_data::memory::Memory;
use meter_theory::refs::ScalerUnit;
use std::alloc::Global;

/// A structure of these parts, in this order.
pub fn structure<const N: usize>(alloc: Global, parts: [Data; N]) -> Result<Data, Memory>
    ensures { IfOk result (λ value. tree value ≡ structure_of (map tree parts.entry)) }
{
    Ok(Data::Structure(Items::new(Vec::from_array(alloc, parts)?)))
}

/// An array of these elements, in this order.
pub fn array<const N: usize>(alloc: Global, elements: [Data; N]) -> Result<Data, Memory>
    ensures { IfOk result (λ value. tree value ≡ array_of (map tree elements.entry)) }
{
    Ok(Data::Array(Items::new(Vec::from_array(alloc, elements)?)))
}

/// Scal_unit_type of a register: a structure of scaler, an integer, and unit, an enum (IEC 62056-6-2, Register).
pub(crate) fn scaler_unit_data(alloc: Global, scaler_unit: ScalerUnit) -> Result<Data, Memory>
    ensures { IfOk result (λ value. tree value ≡ scaler_unit_value scaler_unit) }
{
    structure(
        alloc,
        [
            Data::Integer(scaler_unit.scaler),
            Data::Enumerated(scaler_unit.unit),
        ],
    )
}

/// A copy of the value in a cell that an object may lack.
pub fn copy_if(alloc: Global, value: &Option<Data>) -> Result<Option<Data>, Memory>
    ensures { IfOk result (λ copy. copy ≡ value.now) }
{
    match value {
        Some(value) => Ok(Some(value.try_clone(alloc)?)),
        None => Ok(None),
    }
}

/// A copy of the value in a cell that an object may lack; null-data where it lacks it.
pub fn copy_or_null(alloc: Global, value: &Option<Data>) -> Result<Data, Memory>
    ensures { IfOk result (λ copy. tree copy ≡ tree_or_null value.now) }
{
    match value {
        Some(value) => value.try_clone(alloc),
        None => Ok(Data::NullData),
    }
}
