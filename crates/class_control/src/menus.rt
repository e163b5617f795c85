//! Which script a value of executed_script stands for (IEC 62056-6-2, Single action schedule, executed_script).
ghost use Rattle.std.specs.Prelude.{◌≡◌, ◌∷◌, []};
ghost use Rattle.std.specs.List.{list_any, position_from};
ghost use Rattle.cosem_data.specs.Tree.{octet_string, long_unsigned};
ghost use Rattle.cosem_data.specs.View.{tree};
ghost use Rattle.cosem_data.specs.Equal.{same_tree};
ghost use Rattle.meter_theory.specs.Menus.{script_ref_value};
ghost use Rattle.meter_theory.specs.Value.{structure_of};

use crate::times::parts_of;
use cosem_data::data::Data;
use meter_theory::refs::ScriptRef;

/// Whether these are the parts of the executed_script that names the script.
fn is_name_of(table: &[u8], script_selector: u16, script: ScriptRef) -> bool
    ensures { result
        ≡ same_tree (script_ref_value script) (structure_of (octet_string table.now ∷ long_unsigned script_selector ∷ [])) }
{
    script.table.0.as_slice() == table && script.script == script_selector
}

/// Whether the value is the executed_script that names the script.
#[tactic(auto, using(meter_theory::proofs::Menus::same_structure))]
pub fn is_executed_script(value: &Data, script: ScriptRef) -> bool
    ensures { result ≡ same_tree (script_ref_value script) (tree value.now) }
{
    match parts_of(value) {
        [
            Data::OctetString(table),
            Data::LongUnsigned(script_selector),
        ] => { is_name_of(table.as_slice(), *script_selector, script) }
        _ => false,
    }
}

/// Where the script of a menu stands whose executed_script the value is, counted from 0.
pub fn place_of(menu: &[ScriptRef], value: &Data) -> Option<usize>
    ensures { result
        ≡ position_from (λ script. same_tree (script_ref_value script) (tree value.now)) 0 menu.now }
{
    menu.iter()
        .position(|script| is_executed_script(value, *script))
}

/// Whether the value is the executed_script of one of a menu.
pub(crate) fn has_script(menu: &[ScriptRef], value: &Data) -> bool
    ensures { result ≡ list_any (λ script. same_tree (script_ref_value script) (tree value.now)) menu.now }
{
    menu.iter().any(|script| is_executed_script(value, *script))
}
