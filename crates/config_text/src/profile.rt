//! The tables of a profile.

ghost use Rattle.std.specs.Prelude.{◌≡◌, map, option_map};
ghost use Rattle.toml.specs.View.{table_view};
ghost use Rattle.config_text.specs.BodyView.{body_text};
ghost use Rattle.config_text.specs.Reading.{Reads};
ghost use Rattle.config_text.specs.Classes as spec;

use crate::both::both;
use crate::elements::{Element, array_of, menu_at};
use crate::fault::TableFault;
use crate::keys::{no_others, no_others_of};
use crate::known;
use crate::parts::{AlternativeParts, BodyParts, CaptureParts};
use crate::place::Place;
use crate::tables::{TableForm, TableOf, list_at};
use crate::takes::{KeyTakes, Number};
use crate::target::target_of;
use crate::values::{natural_at, optional_integer_at};
use toml::{Table, Value};

/// The keys of an attribute that a profile captures.
const CAPTURE: [&str; 3] = [known::OBJECT, known::INDEX, known::DATA_INDEX];

/// `object`, `index` and perhaps `data_index`: an attribute that a profile captures.
pub(crate) struct CaptureTable;

impl TableForm for CaptureTable {
    ghost use Rattle.config_text.specs.Classes.{capture_of};

    type Parts = CaptureParts;

    ghost says = { λ form. capture_of };

    #[tactic(auto, unfolding(crate::specs::Classes::capture_of))]
    fn read(&self, at: &Place<'_>, table: &Table) -> Result<CaptureParts, TableFault> {
        let target = target_of(at, table);
        let data_index = optional_integer_at(KeyTakes::DataIndex, at, known::DATA_INDEX, table);
        let others = no_others(&CAPTURE, at, table);
        let ((target, data_index), ()) = both(both(target, data_index), others)?;
        Ok(CaptureParts { target, data_index })
    }
}

/// The keys of a profile of a text without menus.
static KNOWN: [&str; 7] = [
    known::CLASS,
    known::NAME,
    known::FED,
    known::CAPTURE,
    known::PERIOD,
    known::ENTRIES,
    known::SORT_METHOD,
];

/// The keys of a profile that may have a menu.
static KNOWN_WITH_MENU: [&str; 8] = [
    known::CLASS,
    known::NAME,
    known::FED,
    known::CAPTURE,
    known::PERIOD,
    known::ENTRIES,
    known::SORT_METHOD,
    known::CAPTURE_MENU,
];

/// The key that a profile has since version 2.
const LATER: [&str; 1] = [known::CAPTURE_MENU];

/// The keys of a profile, which may have a menu or not.
fn known_keys(menus: bool) -> &'static [&'static str]
    ensures { map (λ key. key.now) result.now ≡ spec.known_in_profile menus }
{
    if menus { &KNOWN_WITH_MENU } else { &KNOWN }
}

/// An alternative to what a profile captures: an array of such attributes.
struct Alternative;

impl Element for Alternative {
    ghost use Rattle.std.specs.Prelude.{List};
    ghost use Rattle.config_text.specs.Classes.{capture_of};
    ghost use Rattle.config_text.specs.Parts.{CaptureText};
    ghost use Rattle.config_text.specs.Tables.{tables_of};

    type Parts = AlternativeParts;

    ghost Said = { List CaptureText };

    ghost seen = { λ alternative. alternative };

    ghost says = { λ element. tables_of capture_of };

    fn read(&self, place: &Place<'_>, value: &Value) -> Result<AlternativeParts, TableFault> {
        let takes = KeyTakes::Lists;
        let capture = TableOf {
            form: &CaptureTable,
            takes,
        };
        let captures = array_of(&capture, takes, place, value)?;
        Ok(AlternativeParts { captures })
    }
}

/// The alternatives of a profile, if it may have a menu.
fn menu_of(
    menus: bool,
    at: &Place<'_>,
    table: &Table,
) -> Result<Option<Vec<AlternativeParts>>, TableFault>
    ensures { Reads (option_map (λ v. v.items)) result (spec.capture_menu_of menus at.now (table_view table.now)) }
{
    if menus {
        menu_at(
            &Alternative,
            KeyTakes::Lists,
            at,
            known::CAPTURE_MENU,
            table,
        )
    } else {
        Ok(None)
    }
}

/// What the table says of a profile, which may have a menu or not.
#[tactic(auto, unfolding(crate::specs::Classes::profile_of))]
pub(crate) fn profile_of(
    menus: bool,
    at: &Place<'_>,
    table: &Table,
) -> Result<BodyParts, TableFault>
    ensures { Reads body_text result (spec.profile_of menus at.now (table_view table.now)) }
{
    let capture = list_at(&CaptureTable, at, known::CAPTURE, table);
    let period = natural_at(Number::Period, at, known::PERIOD, table);
    let entries = natural_at(Number::Entries, at, known::ENTRIES, table);
    let sort_method = optional_integer_at(KeyTakes::SortMethod, at, known::SORT_METHOD, table);
    let menu = menu_of(menus, at, table);
    let others = no_others_of(known_keys(menus), &LATER, at, table);
    let counts = both(both(capture, period), entries);
    let values = both(both(counts, sort_method), menu);
    let (((((capture, period), entries), sort_method), menu), ()) = both(values, others)?;
    Ok(BodyParts::ProfileGeneric {
        capture,
        period: period as u32,
        entries,
        sort_method,
        menu,
    })
}
