//! The table of a clock.

ghost use Rattle.toml.specs.View.{table_view};
ghost use Rattle.config_text.specs.BodyView.{body_text};
ghost use Rattle.config_text.specs.Reading.{Reads};
ghost use Rattle.config_text.specs.Classes as spec;

use crate::both::both;
use crate::fault::TableFault;
use crate::keys::no_others;
use crate::known;
use crate::parts::BodyParts;
use crate::place::Place;
use crate::takes::KeyTakes;
use crate::values::text_at;
use toml::Table;

/// The keys of a clock.
const CLOCK: [&str; 4] = [known::CLASS, known::NAME, known::FED, known::TIME];

/// What the table says of a clock. Whether the text is a moment is judged with the other values.
#[tactic(auto, unfolding(crate::specs::Classes::clock_of))]
pub(crate) fn clock_of(at: &Place<'_>, table: &Table) -> Result<BodyParts, TableFault>
    ensures { Reads body_text result (spec.clock_of at.now (table_view table.now)) }
{
    let time = text_at(KeyTakes::Moment, at, known::TIME, table);
    let (time, ()) = both(time, no_others(&CLOCK, at, table))?;
    Ok(BodyParts::Clock { time })
}
