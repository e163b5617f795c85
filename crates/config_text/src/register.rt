//! The tables of Data and of a register.

ghost use Rattle.toml.specs.View.{table_view};
ghost use Rattle.config_text.specs.BodyView.{body_text};
ghost use Rattle.config_text.specs.Reading.{Reads};
ghost use Rattle.config_text.specs.Classes as spec;

use crate::both::both;
use crate::fault::TableFault;
use crate::keys::no_others;
use crate::known;
use crate::parts::BodyParts;
use crate::place::Place;
use crate::takes::{KeyTakes, Number};
use crate::values::{natural_at, scaler_at, text_at};
use toml::Table;

/// The keys of Data.
const DATA: [&str; 4] = [known::CLASS, known::NAME, known::FED, known::VALUE];

/// The keys of a register.
const REGISTER: [&str; 7] = [
    known::CLASS,
    known::NAME,
    known::FED,
    known::VALUE,
    known::DEFAULT,
    known::SCALER,
    known::UNIT,
];

/// What the table says of Data.
#[tactic(auto, unfolding(crate::specs::Classes::data_of))]
pub(crate) fn data_of(at: &Place<'_>, table: &Table) -> Result<BodyParts, TableFault>
    ensures { Reads body_text result (spec.data_of at.now (table_view table.now)) }
{
    let value = text_at(KeyTakes::Hex, at, known::VALUE, table);
    let (value, ()) = both(value, no_others(&DATA, at, table))?;
    Ok(BodyParts::Data { value })
}

/// What the table says of a register.
#[tactic(auto, unfolding(crate::specs::Classes::register_of))]
pub(crate) fn register_of(at: &Place<'_>, table: &Table) -> Result<BodyParts, TableFault>
    ensures { Reads body_text result (spec.register_of at.now (table_view table.now)) }
{
    let value = text_at(KeyTakes::Hex, at, known::VALUE, table);
    let default = text_at(KeyTakes::Hex, at, known::DEFAULT, table);
    let scaler = scaler_at(at, known::SCALER, table);
    let unit = natural_at(Number::Unit, at, known::UNIT, table);
    let others = no_others(&REGISTER, at, table);
    let values = both(both(both(value, default), scaler), unit);
    let ((((value, default), scaler), unit), ()) = both(values, others)?;
    Ok(BodyParts::Register {
        value,
        default,
        scaler,
        unit: unit as u8,
    })
}
