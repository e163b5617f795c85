//! The tables that name an attribute or method, and a script.

ghost use Rattle.toml.specs.View.{table_view};
ghost use Rattle.config_text.specs.Reading.{Reads};
ghost use Rattle.config_text.specs.Targets as spec;

use crate::both::both;
use crate::fault::TableFault;
use crate::keys::no_others;
use crate::known;
use crate::parts::{ScriptRefParts, TargetParts};
use crate::place::Place;
use crate::tables::TableForm;
use crate::takes::{KeyTakes, Number};
use crate::values::{integer_at, natural_at, text_at};
use toml::Table;

/// The keys of an attribute or method.
const TARGET: [&str; 2] = [known::OBJECT, known::INDEX];

/// The keys of a script of a script table.
const SCRIPT_REF: [&str; 2] = [known::TABLE, known::SCRIPT];

/// The attribute or method that a table names, among other things that it says.
#[tactic(auto, unfolding(crate::specs::Targets::target_of))]
pub(crate) fn target_of(at: &Place<'_>, table: &Table) -> Result<TargetParts, TableFault>
    ensures { Reads (λ x. x) result (spec.target_of at.now (table_view table.now)) }
{
    let object = text_at(KeyTakes::LogicalName, at, known::OBJECT, table);
    let index = natural_at(Number::Index, at, known::INDEX, table);
    let (object, index) = both(object, index)?;
    Ok(TargetParts {
        object,
        index: index as u8,
    })
}

/// `object` and `index`: an attribute or method.
pub(crate) struct TargetTable;

impl TableForm for TargetTable {
    ghost use Rattle.config_text.specs.Targets.{target_table_of};

    type Parts = TargetParts;

    ghost says = { λ form. target_table_of };

    fn read(&self, at: &Place<'_>, table: &Table) -> Result<TargetParts, TableFault> {
        let (target, ()) = both(target_of(at, table), no_others(&TARGET, at, table))?;
        Ok(target)
    }
}

/// `table` and `script`: a script of a script table.
pub(crate) struct ScriptRefTable;

impl TableForm for ScriptRefTable {
    ghost use Rattle.config_text.specs.Targets.{script_ref_of};

    type Parts = ScriptRefParts;

    ghost says = { λ form. script_ref_of };

    #[tactic(auto, unfolding(crate::specs::Targets::script_ref_of))]
    fn read(&self, at: &Place<'_>, table: &Table) -> Result<ScriptRefParts, TableFault> {
        let name = text_at(KeyTakes::LogicalName, at, known::TABLE, table);
        let script = integer_at(KeyTakes::Script, at, known::SCRIPT, table);
        let others = no_others(&SCRIPT_REF, at, table);
        let ((name, script), ()) = both(both(name, script), others)?;
        Ok(ScriptRefParts {
            table: name,
            script,
        })
    }
}
