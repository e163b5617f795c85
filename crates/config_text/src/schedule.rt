//! The table of a single action schedule.

ghost use Rattle.std.specs.Prelude.{◌≡◌, map, option_map};
ghost use Rattle.toml.specs.View.{table_view};
ghost use Rattle.config_text.specs.BodyView.{body_text};
ghost use Rattle.config_text.specs.Reading.{Reads};
ghost use Rattle.config_text.specs.Classes as spec;

use crate::both::both;
use crate::elements::menu_at;
use crate::fault::TableFault;
use crate::keys::no_others_of;
use crate::known;
use crate::lists::texts_at;
use crate::parts::{BodyParts, ScriptRefParts};
use crate::place::Place;
use crate::tables::{TableOf, table_at};
use crate::takes::{KeyTakes, Number};
use crate::target::ScriptRefTable;
use crate::values::natural_at;
use toml::Table;

/// The keys of a schedule of a text without menus.
static KNOWN: [&str; 6] = [
    known::CLASS,
    known::NAME,
    known::FED,
    known::SCRIPT,
    known::TYPE,
    known::TIMES,
];

/// The keys of a schedule that may have a menu.
static KNOWN_WITH_MENU: [&str; 7] = [
    known::CLASS,
    known::NAME,
    known::FED,
    known::SCRIPT,
    known::TYPE,
    known::TIMES,
    known::SCRIPT_MENU,
];

/// The key that a schedule has since version 2.
const LATER: [&str; 1] = [known::SCRIPT_MENU];

/// The keys of a schedule, which may have a menu or not.
fn known_keys(menus: bool) -> &'static [&'static str]
    ensures { map (λ key. key.now) result.now ≡ spec.known_in_schedule menus }
{
    if menus { &KNOWN_WITH_MENU } else { &KNOWN }
}

/// The alternatives of a schedule, if it may have a menu.
fn menu_of(
    menus: bool,
    at: &Place<'_>,
    table: &Table,
) -> Result<Option<Vec<ScriptRefParts>>, TableFault>
    ensures { Reads (option_map (λ v. v.items)) result (spec.script_menu_of menus at.now (table_view table.now)) }
{
    if menus {
        let takes = KeyTakes::Tables;
        let script = TableOf {
            form: &ScriptRefTable,
            takes,
        };
        menu_at(&script, takes, at, known::SCRIPT_MENU, table)
    } else {
        Ok(None)
    }
}

/// What the table says of a single action schedule, which may have a menu or not.
#[tactic(auto, unfolding(crate::specs::Classes::schedule_of))]
pub(crate) fn schedule_of(
    menus: bool,
    at: &Place<'_>,
    table: &Table,
) -> Result<BodyParts, TableFault>
    ensures { Reads body_text result (spec.schedule_of menus at.now (table_view table.now)) }
{
    let script = table_at(&ScriptRefTable, at, known::SCRIPT, table);
    let kind = natural_at(Number::ScheduleType, at, known::TYPE, table);
    let times = texts_at(KeyTakes::Hexes, at, known::TIMES, table);
    let menu = menu_of(menus, at, table);
    let others = no_others_of(known_keys(menus), &LATER, at, table);
    let values = both(both(both(script, kind), times), menu);
    let ((((script, kind), times), menu), ()) = both(values, others)?;
    Ok(BodyParts::SingleActionSchedule {
        script,
        kind: kind as u8,
        times,
        menu,
    })
}
