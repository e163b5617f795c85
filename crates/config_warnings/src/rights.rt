//! What the rights of a plan's clients give.
ghost use Rattle.std.specs.Prelude.{◌≡◌, not, true};
ghost use Rattle.std.specs.List.{list_any};
ghost use Rattle.meter_theory.specs.Rights as theory;
ghost use Rattle.config_warnings.specs.Found as spec;

use class_control::script_table::ScriptTable;
use cosem_data::name::LogicalName;
use object_model::plan::Plan;

/// Whether a client has no right.
pub(crate) fn has_no_right(plan: &Plan, client: u8) -> bool
    ensures { result ≡ spec.has_no_right plan.now client }
{
    plan.known();
    !plan
        .objects()
        .iter()
        .any(|object| plan.instance(&object.name()).has_right(client))
}

/// Whether some client may invoke execute of the script table with this name.
pub(crate) fn may_be_executed(plan: &Plan, table: &LogicalName) -> bool
    ensures { result ≡ spec.may_be_executed plan.now table.now }
{
    let instance = plan.instance(table);
    for client in 0..plan.client_count() {
        if instance.may_act(client, ScriptTable::EXECUTE) {
            return true;
        }
    }
    false
}
