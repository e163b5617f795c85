//! What holds of every interface class, and calls that serve them all.
ghost use Rattle.std.specs.Prelude.{◌≡◌, ℕ, false, None, Some};
ghost use Rattle.cosem_data.specs.View.{tree};
ghost use Rattle.cosem_class.specs.Objects.{ChangesOnlyTouched, KeepsAgreement};
ghost use Rattle.cosem_class.specs.declared.class.Op.TheVariants as ops;

use crate::class::InterfaceClass;
use cosem_data::data::Data;

/// Puts what the class keeps of a value that it does not refuse into an attribute, and returns the previous value. A cell that the write
/// does not touch stays.
pub fn put_into<Lent, C: InterfaceClass<Lent>>(
    object: &mut C,
    lent: Lent,
    index: u8,
    value: Data,
) -> Data
    requires { C.refusal (C.fixed object.old lent) (ops.Write index) (tree value) ≡ None }
    ensures previous { C.cells object.old index ≡ Some (tree result) }
    ensures fixed { C.fixed object.new lent ≡ C.fixed object.old lent }
    ensures value { C.cells object.new index ≡ Some (C.kept (tree value)) }
    ensures others { (i : ℕ) → C.touched (ops.Write index) i ≡ false →
        C.cells object.new i ≡ C.cells object.old i }
{
    object.write(lent, index, value).unwrap()
}

/// Of every class: a cell that an operation does not touch stays, and over cells that agree on a set with its sources
/// an operation leaves cells that agree on it.
pub fn laws_of_a_class<Lent, C: InterfaceClass<Lent>>()
    ensures changes_only_touched { ChangesOnlyTouched C.touched C.new_value }
    ensures keeps_agreement { KeepsAgreement C.touched C.own_sources C.row_cells C.new_value }
{}
