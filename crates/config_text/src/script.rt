//! The tables of a script table.

ghost use Rattle.toml.specs.View.{table_view};
ghost use Rattle.config_text.specs.BodyView.{body_text};
ghost use Rattle.config_text.specs.Reading.{Reads};
ghost use Rattle.config_text.specs.Classes as spec;

use crate::both::both;
use crate::fault::TableFault;
use crate::keys::no_others;
use crate::known;
use crate::parts::{ActionParts, BodyParts, ScriptParts};
use crate::place::Place;
use crate::service::Service;
use crate::tables::{TableForm, list_at};
use crate::takes::{KeyTakes, Number};
use crate::target::target_of;
use crate::values::{natural_at, optional_text_at};
use toml::Table;

/// The keys of a script table.
const SCRIPT_TABLE: [&str; 4] = [known::CLASS, known::NAME, known::FED, known::SCRIPT];

/// The keys of a script.
const SCRIPT: [&str; 2] = [known::ID, known::ACTION];

/// The keys of an action of a script.
const ACTION: [&str; 4] = [known::SERVICE, known::OBJECT, known::INDEX, known::VALUE];

/// The service at a key: 1 writes an attribute, 2 invokes a method.
#[tactic(auto, unfolding(crate::specs::Classes::service_at))]
fn service_at(at: &Place<'_>, key: &str, table: &Table) -> Result<Service, TableFault>
    ensures { Reads (λ s. s) result (spec.service_at at.now key.now (table_view table.now)) }
{
    let number = natural_at(Number::Service, at, key, table)?;
    if number == 1 {
        Ok(Service::Write)
    } else {
        Ok(Service::Invoke)
    }
}

/// `service`, `object`, `index` and perhaps `value`: an action of a script.
pub(crate) struct ActionTable;

impl TableForm for ActionTable {
    ghost use Rattle.config_text.specs.Classes.{action_of};

    type Parts = ActionParts;

    ghost says = { λ form. action_of };

    #[tactic(auto, unfolding(crate::specs::Classes::action_of))]
    fn read(&self, at: &Place<'_>, table: &Table) -> Result<ActionParts, TableFault> {
        let service = service_at(at, known::SERVICE, table);
        let target = target_of(at, table);
        let value = optional_text_at(KeyTakes::Hex, at, known::VALUE, table);
        let others = no_others(&ACTION, at, table);
        let (((service, target), value), ()) = both(both(both(service, target), value), others)?;
        Ok(ActionParts {
            service,
            target,
            value,
        })
    }
}

/// `id` and `action`: a script.
pub(crate) struct ScriptTable;

impl TableForm for ScriptTable {
    ghost use Rattle.config_text.specs.Classes.{script_of};

    type Parts = ScriptParts;

    ghost says = { λ form. script_of };

    #[tactic(auto, unfolding(crate::specs::Classes::script_of))]
    fn read(&self, at: &Place<'_>, table: &Table) -> Result<ScriptParts, TableFault> {
        let id = natural_at(Number::Script, at, known::ID, table);
        let actions = list_at(&ActionTable, at, known::ACTION, table);
        let others = no_others(&SCRIPT, at, table);
        let ((id, actions), ()) = both(both(id, actions), others)?;
        Ok(ScriptParts {
            id: id as u16,
            actions,
        })
    }
}

/// What the table says of a script table.
#[tactic(auto, unfolding(crate::specs::Classes::script_table_of))]
pub(crate) fn script_table_of(at: &Place<'_>, table: &Table) -> Result<BodyParts, TableFault>
    ensures { Reads body_text result (spec.script_table_of at.now (table_view table.now)) }
{
    let scripts = list_at(&ScriptTable, at, known::SCRIPT, table);
    let (scripts, ()) = both(scripts, no_others(&SCRIPT_TABLE, at, table))?;
    Ok(BodyParts::ScriptTable { scripts })
}
