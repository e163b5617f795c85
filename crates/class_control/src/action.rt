use cosem_data::cell::{CellRef, MethodRef};
use cosem_data::data::Data;

/// One action of a script (IEC 62056-6-2, Script table, action_specification).
#[derive(Drop)]
pub enum Action {
    /// Service 1: writes an attribute.
    Write {
        /// The attribute that is written.
        cell: CellRef,
        /// What is written into it.
        value: Data,
    },
    /// Service 2: executes a method.
    Invoke {
        /// The method that is executed.
        method: MethodRef,
        /// What it is given, null-data where it takes nothing.
        parameter: Data,
    },
}
