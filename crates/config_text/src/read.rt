//! The tables of a configuration text, read pass by pass.

ghost use Rattle.std.specs.Prelude.{◌≡◌, ◌≤◌, IfOk, IfSome, Ok, Option, unwrap_or};
ghost use Rattle.toml.specs.View.{table_view};
ghost use Rattle.config_text.specs.Fault.{Faults, fault_in};
ghost use Rattle.config_text.specs.Reading.{IsSlip, Reads, slips_listed};
ghost use Rattle.config_text.specs.Refusals.{Finds, Refuses};
ghost use Rattle.config_text.specs.Document as spec;

use crate::both::both;
use crate::cause::{Cause, TomlStop};
use crate::client::ClientTable;
use crate::fault::{ConfigFault, TableFault};
use crate::keys::no_others;
use crate::known;
use crate::noting::placed;
use crate::object::ObjectTable;
use crate::parts::ConfigParts;
use crate::place::Place;
use crate::right::{LabelTable, PolicyTable, RightTable};
use crate::tables::{list_at, optional_list_at, table_at};
use crate::takes::Number;
use crate::values::{natural_at, natural_read};
use std::alloc::Global;
use toml::Table;

/// The keys of the text's own table.
const TOP: [&str; 6] = [
    known::VERSION,
    known::CLIENT,
    known::OBJECT,
    known::RIGHT,
    known::POLICY,
    known::LABEL,
];

/// The table of a TOML text.
///
/// # Errors
/// C1, where the text is no TOML.
#[tactic(auto, unfolding(crate::specs::Document::document_of))]
fn document(alloc: Global, text: &str) -> Result<Table, ConfigFault>
    ensures read { IfOk result (λ table. spec.document_of text.now ≡ Ok (table_view table)) }
    ensures fault { Finds result (fault_in (spec.document_of text.now)) }
{
    match toml::table_from_str(alloc, text) {
        Ok(table) => Ok(table),
        Err(error) => {
            if error.is_memory() {
                return Err(ConfigFault::Memory);
            }
            let top = Place::top(alloc, "");
            Err(ConfigFault::Found {
                first: placed(Cause::NotToml(TomlStop { error }), &top, "text")?,
                others: Vec::new(alloc),
            })
        }
    }
}

/// The version by which objects are looked at: 1, unless it is told to be 2.
fn version_told(told: Option<u64>) -> u8
    requires { IfSome told (λ n. n ≤ 2) }
    ensures { result ≡ unwrap_or told 1 }
{
    match told {
        Some(version) => version as u8,
        None => 1,
    }
}

/// What the table says, in one walk in which each key is looked up once. Objects are looked at by the version that is told.
///
/// # Errors
/// C2 at each key that is missing or unknown, else C3 at each value of a wrong kind, and at each number or password out of its range.
#[tactic(auto, unfolding(crate::specs::Document::parts_of))]
fn read_parts(alloc: Global, table: &Table) -> Result<ConfigParts, TableFault>
    ensures { Reads (λ x. x) result (spec.parts_of (table_view table.now)) }
{
    let top = Place::top(alloc, "");
    let version = natural_at(Number::Version, &top, known::VERSION, table);
    let clients = list_at(&ClientTable, &top, known::CLIENT, table);
    let told = natural_read(&version)?;
    let form = ObjectTable {
        version: version_told(told),
    };
    let objects = list_at(&form, &top, known::OBJECT, table);
    let rights = optional_list_at(&RightTable, &top, known::RIGHT, table);
    let policy = table_at(&PolicyTable, &top, known::POLICY, table);
    let labels = optional_list_at(&LabelTable, &top, known::LABEL, table);
    let others = no_others(&TOP, &top, table);
    let model = both(both(version, clients), objects);
    let values = both(both(both(model, rights), policy), labels);
    let ((((((version, clients), objects), rights), policy), labels), ()) = both(values, others)?;
    Ok(ConfigParts {
        version: version as u8,
        clients,
        objects,
        rights,
        policy,
        labels,
    })
}

/// A refusal of tables as one of the text.
fn told(refusal: TableFault) -> ConfigFault
    ensures { (slips : Option Faults) → IsSlip refusal slips → Refuses result (slips_listed slips) }
{
    match refusal {
        TableFault::Memory => ConfigFault::Memory,
        TableFault::Keys { first, others } | TableFault::Values { first, others } => {
            ConfigFault::Found { first, others }
        }
    }
}

/// Reads what the tables of a configuration text say (own profile), before names are looked up. Values are decoded, and not yet
/// judged.
///
/// # Errors
/// The faults with the least code that is met, in the order in which they are looked for:
/// - C1 at `text`, where the text is no TOML;
/// - C2 at each key that is missing or unknown, in any table;
/// - C3 at each value of a wrong kind, and each number or password out of its range, in any table;
/// - C0 where memory was refused, at any time.
#[tactic(auto, unfolding(crate::specs::Document::tables_of, crate::specs::Document::table_faults))]
pub fn read_tables(alloc: Global, text: &str) -> Result<ConfigParts, ConfigFault>
    ensures parts { IfOk result (λ parts. spec.tables_of text.now ≡ Ok parts) }
    ensures faults { Finds result (spec.table_faults text.now) }
{
    let table = document(alloc, text)?;
    match read_parts(alloc, &table) {
        Ok(parts) => Ok(parts),
        Err(refusal) => Err(told(refusal)),
    }
}
