//! The fixed attributes of a profile as values (IEC 62056-6-2, Profile generic).
ghost use Rattle.std.specs.Prelude.{◌≡◌, ◌<◌, map, IfOk};
ghost use Rattle.cosem_data.specs.View.{tree};
ghost use Rattle.meter_theory.specs.Value.{array_of};
ghost use Rattle.meter_theory.specs.Fixed.{capture_object, no_sort_object};
ghost use Rattle.class_profile.specs.ProfileClass.{HaveAttributeIndexes};

use cosem_class::shapes::structure;
use cosem_data::cell::CellRef;
use cosem_data::data::{Data, Items};
use cosem_data::memory::Memory;
use cosem_data::name::LogicalName;
use std::alloc::Global;

/// Capture_object_definition of a captured cell: class_id, logical_name, attribute_index, and data_index 0, the whole of
/// the attribute.
pub(crate) fn capture_object_data(alloc: Global, cell: &CellRef) -> Result<Data, Memory>
    requires { cell.now.index < 128 }
    ensures { IfOk result (λ value. tree value ≡ capture_object cell.now) }
{
    structure(
        alloc,
        [
            Data::LongUnsigned(cell.class_id),
            cell.name.as_octets(alloc)?,
            Data::Integer(cell.index as i8),
            Data::LongUnsigned(0),
        ],
    )
}

/// Capture_objects: an array of the captured cells, in order.
pub(crate) fn capture_objects_data(alloc: Global, captured: &[CellRef]) -> Result<Data, Memory>
    requires { HaveAttributeIndexes captured.now }
    ensures { IfOk result (λ value. tree value ≡ array_of (map capture_object captured.now)) }
{
    let mut objects = Vec::new(alloc);
    for cell in captured {
        objects.push(capture_object_data(alloc, cell)?)?;
    }
    Ok(Data::Array(Items::new(objects)))
}

/// Sort_object of a profile that no object sorts: an object with class_id 0, a name of zeros and index 0 (own profile).
pub(crate) fn no_sort_object_data(alloc: Global) -> Result<Data, Memory>
    ensures { IfOk result (λ value. tree value ≡ no_sort_object) }
{
    structure(
        alloc,
        [
            Data::LongUnsigned(0),
            LogicalName([0; 6]).as_octets(alloc)?,
            Data::Integer(0),
            Data::LongUnsigned(0),
        ],
    )
}
