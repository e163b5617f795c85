//! Which cells a value of capture_objects stands for (IEC 62056-6-2, Profile generic, capture_objects).
ghost use Rattle.std.specs.Prelude.{◌≡◌, ◌↔◌, ◌∷◌, [], map, find, option_map, IsTrue};
ghost use Rattle.cosem_data.specs.Tree.{long_unsigned, octet_string, integer};
ghost use Rattle.meter_theory.specs.Value.{structure_of};
ghost use Rattle.std.specs.List.{list_any};
ghost use Rattle.cosem_data.specs.View.{tree};
ghost use Rattle.cosem_data.specs.Equal.{same_tree};
ghost use Rattle.meter_theory.specs.Menus.{capture_object, capture_objects_value};

use crate::selection::parts_of;
use cosem_data::cell::CellRef;
use cosem_data::data::Data;

/// Whether these are the parts of the capture_object_definition of the cell, with data_index 0.
fn is_definition(
    class_id: u16,
    logical_name: &[u8],
    attribute_index: i8,
    data_index: u16,
    cell: &CellRef,
) -> bool
    ensures { result
        ≡ same_tree (capture_object cell.now) (structure_of (long_unsigned class_id
        ∷ octet_string logical_name.now ∷ integer attribute_index ∷ long_unsigned data_index ∷ [])) }
{
    cell.class_id == class_id
        && cell.name.0.as_slice() == logical_name
        && i16::from(cell.index) == i16::from(attribute_index)
        && data_index == 0
}

/// Whether the value is the capture_object_definition of the cell, with data_index 0.
#[tactic(auto, using(meter_theory::proofs::Menus::same_structure))]
fn is_capture_object(value: &Data, cell: &CellRef) -> bool
    ensures { result ≡ same_tree (capture_object cell.now) (tree value.now) }
{
    match parts_of(value) {
        [
            Data::LongUnsigned(class_id),
            Data::OctetString(name),
            Data::Integer(index),
            Data::LongUnsigned(data_index),
        ] => is_definition(*class_id, name.as_slice(), *index, *data_index, cell),
        _ => false,
    }
}

/// Whether the values are the capture_object_definitions of the cells, in order.
fn are_capture_objects(values: &[Data], cells: &[CellRef]) -> bool
    ensures { IsTrue result ↔ (map tree values.now ≡ map capture_object cells.now) }
{
    if values.len() != cells.len() {
        return false;
    }
    for i in 0..values.len() {
        if !is_capture_object(&values[i], &cells[i]) {
            return false;
        }
    }
    true
}

/// Whether the value is the capture_objects of a profile that captures these cells.
pub fn is_capture_objects(value: &Data, cells: &[CellRef]) -> bool
    ensures { result ≡ same_tree (capture_objects_value cells.now) (tree value.now) }
{
    match value {
        Data::Array(values) => are_capture_objects(values.as_slice(), cells),
        _ => false,
    }
}

/// The alternative of a menu whose capture_objects the value is.
pub(crate) fn alternative_of<'a>(menu: &'a [Vec<CellRef>], value: &Data) -> Option<&'a Vec<CellRef>>
    ensures { option_map (λ cells. cells.now) result
        ≡ find (λ cells. same_tree (capture_objects_value cells.items) (tree value.now)) menu.now }
{
    menu.iter().find(|cells| is_capture_objects(value, cells))
}

/// Whether the value is the capture_objects of an alternative of a menu.
pub(crate) fn has_alternative(menu: &[Vec<CellRef>], value: &Data) -> bool
    ensures { result ≡ list_any
        (λ cells. same_tree (capture_objects_value cells.items) (tree value.now)) menu.now }
{
    menu.iter().any(|cells| is_capture_objects(value, cells))
}
