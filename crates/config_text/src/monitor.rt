//! The tables of a register monitor.

ghost use Rattle.toml.specs.View.{table_view};
ghost use Rattle.config_text.specs.BodyView.{body_text};
ghost use Rattle.config_text.specs.Reading.{Reads};
ghost use Rattle.config_text.specs.Classes as spec;

use crate::both::both;
use crate::fault::TableFault;
use crate::keys::no_others;
use crate::known;
use crate::lists::texts_at;
use crate::parts::{BodyParts, UpDownParts};
use crate::place::Place;
use crate::tables::{TableForm, list_at, table_at};
use crate::takes::KeyTakes;
use crate::target::{ScriptRefTable, TargetTable};
use toml::Table;

/// The keys of a register monitor.
const MONITOR: [&str; 6] = [
    known::CLASS,
    known::NAME,
    known::FED,
    known::MONITORED,
    known::THRESHOLDS,
    known::ACTION,
];

/// The keys of the scripts of a threshold.
const UP_DOWN: [&str; 2] = [known::UP, known::DOWN];

/// `up` and `down`: the scripts of a threshold.
pub(crate) struct UpDownTable;

impl TableForm for UpDownTable {
    ghost use Rattle.config_text.specs.Classes.{up_down_of};

    type Parts = UpDownParts;

    ghost says = { λ form. up_down_of };

    #[tactic(auto, unfolding(crate::specs::Classes::up_down_of))]
    fn read(&self, at: &Place<'_>, table: &Table) -> Result<UpDownParts, TableFault> {
        let up = table_at(&ScriptRefTable, at, known::UP, table);
        let down = table_at(&ScriptRefTable, at, known::DOWN, table);
        let ((up, down), ()) = both(both(up, down), no_others(&UP_DOWN, at, table))?;
        Ok(UpDownParts { up, down })
    }
}

/// What the table says of a register monitor.
#[tactic(auto, unfolding(crate::specs::Classes::monitor_of))]
pub(crate) fn monitor_of(at: &Place<'_>, table: &Table) -> Result<BodyParts, TableFault>
    ensures { Reads body_text result (spec.monitor_of at.now (table_view table.now)) }
{
    let monitored = table_at(&TargetTable, at, known::MONITORED, table);
    let thresholds = texts_at(KeyTakes::Hexes, at, known::THRESHOLDS, table);
    let actions = list_at(&UpDownTable, at, known::ACTION, table);
    let others = no_others(&MONITOR, at, table);
    let values = both(both(monitored, thresholds), actions);
    let (((monitored, thresholds), actions), ()) = both(values, others)?;
    Ok(BodyParts::RegisterMonitor {
        monitored,
        thresholds,
        actions,
    })
}
