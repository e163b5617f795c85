//! The attributes, methods and scripts that a configuration names.
ghost use Rattle.std.specs.Prelude.{◌≡◌, ◌<◌, IfOk};
ghost use Rattle.class_profile.specs.ProfileClass.{HaveAttributeIndexes};
ghost use Rattle.config_rules.specs.PlanOf as plan;

use crate::directory::Directory;
use config_text::parts::{CaptureParts, ScriptRefParts, TargetParts};
use cosem_data::cell::{CellRef, MethodRef};
use cosem_data::memory::Memory;
use cosem_data::name::LogicalName;
use meter_theory::refs::ScriptRef;
use std::alloc::Global;

/// The logical name that a text is, six zero bytes where it is none.
pub fn name_of(text: &str) -> LogicalName
    ensures { result ≡ plan.name_of text.now }
{
    match LogicalName::read(text) {
        Ok(name) => name,
        Err(_) => LogicalName([0; 6]),
    }
}

/// The attribute that is named.
pub fn cell_named(directory: &Directory, target: &TargetParts) -> CellRef
    ensures cell { result ≡ plan.cell_named directory.now.config.now target.now }
    ensures index { result.index < 128 }
{
    let object = target.object.as_str();
    CellRef {
        class_id: directory.class(object),
        name: name_of(object),
        index: target.index,
    }
}

/// The method that is named.
pub fn method_named(directory: &Directory, target: &TargetParts) -> MethodRef
    ensures method { result ≡ plan.method_named directory.now.config.now target.now }
    ensures index { result.index < 128 }
{
    let object = target.object.as_str();
    MethodRef {
        class_id: directory.class(object),
        name: name_of(object),
        index: target.index,
    }
}

/// The captured attributes, in order.
pub fn cells_named(
    alloc: Global,
    directory: &Directory,
    captures: &[CaptureParts],
) -> Result<Vec<CellRef>, Memory>
    ensures cells { IfOk result (λ cells. cells.items
        ≡ plan.cells_named directory.now.config.now captures.now) }
    ensures indexes { IfOk result (λ cells. HaveAttributeIndexes cells.items) }
{
    let mut cells = Vec::with_capacity(alloc, captures.len())?;
    for capture in captures {
        cells.push(cell_named(directory, &capture.target))?;
    }
    Ok(cells)
}

/// A script's identifier, 0 where it is not one of sixteen bits (IEC 62056-6-2, Script table, script_identifier).
fn script_number(script: i64) -> u16
    ensures { result ≡ plan.script_number script }
{
    match u16::try_from(script) {
        Ok(number) => number,
        Err(_) => 0,
    }
}

/// The script that is named.
pub fn script_named(script: &ScriptRefParts) -> ScriptRef
    ensures { result ≡ plan.script_named script.now }
{
    ScriptRef {
        table: name_of(script.table.as_str()),
        script: script_number(script.script),
    }
}
