use cosem_data::cell::CellRef;
use cosem_data::data::Data;
use cosem_data::name::LogicalName;

/// What a step does to a meter (own profile).
#[derive(Drop)]
pub enum Effect {
    /// The value goes into the cell, a settable one, by the class of the cell's object.
    Put(CellRef, Data),
    /// The register monitor with this name remembers the value that it watches.
    Remember(LogicalName, Data),
    /// The profile with this name captures (IEC 62056-6-2, Profile generic, capture).
    Capture(LogicalName),
    /// The profile with this name is emptied (IEC 62056-6-2, Profile generic, reset).
    Clear(LogicalName),
}
