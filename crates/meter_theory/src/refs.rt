//! Small values that stand in a plan or in a request as they are.
ghost use Rattle.std.specs.Prelude.{◌≡◌};
ghost use Rattle.meter_theory.specs.Rights.{cell_of, method_of};

use cosem_data::cell::{CellRef, MethodRef};
use cosem_data::name::LogicalName;

/// The scaler and unit of a register: the value is the number times ten to the power of `scaler`, in this unit
/// (IEC 62056-6-2, Register, scal_unit_type).
#[derive(Clone, Copy, Debug, PartialEq, Eq, Drop)]
pub struct ScalerUnit {
    pub scaler: i8,
    pub unit: u8,
}

/// A script of a table; script 0 is the null script, which does nothing.
#[derive(Clone, Copy, Debug, PartialEq, Eq, Drop)]
pub struct ScriptRef {
    pub table: LogicalName,
    pub script: u16,
}

/// What a register monitor runs at one threshold (IEC 62056-6-2, Register monitor, action_set).
#[derive(Clone, Copy, Debug, PartialEq, Eq, Drop)]
pub struct UpDown {
    pub up: ScriptRef,
    pub down: ScriptRef,
}

/// An interface class: its identifier and version, its highest attribute and its highest method (IEC 62056-6-2).
#[derive(Clone, Copy, Debug, PartialEq, Eq, Drop)]
pub struct Interface {
    pub class_id: u16,
    pub version: u8,
    pub attributes: u8,
    pub methods: u8,
}

/// The attribute or the method that a request names, as it names it (IEC 62056-5-3, Cosem-Attribute-Descriptor and
/// Cosem-Method-Descriptor).
#[derive(Clone, Copy, Debug, PartialEq, Eq, Drop)]
pub struct Descriptor {
    pub class_id: u16,
    pub name: LogicalName,
    pub index: i8,
}

impl Descriptor {
    /// The attribute; an index below 0 names what its absolute value would.
    pub fn attribute(&self) -> CellRef
        ensures { result ≡ cell_of self.now }
    {
        CellRef {
            class_id: self.class_id,
            name: self.name,
            index: self.index.unsigned_abs(),
        }
    }

    /// The method; an index below 0 names what its absolute value would.
    pub fn method(&self) -> MethodRef
        ensures { result ≡ method_of self.now }
    {
        MethodRef {
            class_id: self.class_id,
            name: self.name,
            index: self.index.unsigned_abs(),
        }
    }
}
