//! The tables of rights, of the policy and of labels.

ghost use Rattle.toml.specs.View.{table_view};
ghost use Rattle.config_text.specs.Reading.{Reads};
ghost use Rattle.config_text.specs.Rights as spec;

use crate::both::both;
use crate::fault::TableFault;
use crate::keys::no_others;
use crate::known;
use crate::lists::{indexes_at, texts_at};
use crate::parts::{LabelParts, RightParts, SetsParts};
use crate::place::Place;
use crate::tables::TableForm;
use crate::takes::KeyTakes;
use crate::target::target_of;
use crate::values::text_at;
use toml::Table;

/// The keys of a right.
const RIGHT: [&str; 5] = [
    known::CLIENT,
    known::OBJECT,
    known::GET,
    known::SET,
    known::ACT,
];

/// The keys of the policy.
const POLICY: [&str; 2] = [known::INFLUENCE, known::LEARN];

/// The keys of a label.
const LABEL: [&str; 4] = [known::OBJECT, known::INDEX, known::INFLUENCE, known::LEARN];

/// `client`, `object` and perhaps `get`, `set`, `act`: a right.
pub(crate) struct RightTable;

impl TableForm for RightTable {
    ghost use Rattle.config_text.specs.Rights.{right_of};

    type Parts = RightParts;

    ghost says = { λ form. right_of };

    #[tactic(auto, unfolding(crate::specs::Rights::right_of))]
    fn read(&self, at: &Place<'_>, table: &Table) -> Result<RightParts, TableFault> {
        let names = both(
            text_at(KeyTakes::ClientName, at, known::CLIENT, table),
            text_at(KeyTakes::LogicalName, at, known::OBJECT, table),
        );
        let gets = indexes_at(at, known::GET, table);
        let sets = indexes_at(at, known::SET, table);
        let acts = indexes_at(at, known::ACT, table);
        let others = no_others(&RIGHT, at, table);
        let values = both(both(both(names, gets), sets), acts);
        let (((((client, object), gets), sets), acts), ()) = both(values, others)?;
        Ok(RightParts {
            client,
            object,
            gets,
            sets,
            acts,
        })
    }
}

/// The sets of clients that a table has, among other things that it says.
#[tactic(auto, unfolding(crate::specs::Rights::sets_of))]
fn sets_of(at: &Place<'_>, table: &Table) -> Result<SetsParts, TableFault>
    ensures { Reads (λ x. x) result (spec.sets_of at.now (table_view table.now)) }
{
    let influence = texts_at(KeyTakes::ClientNames, at, known::INFLUENCE, table);
    let learn = texts_at(KeyTakes::ClientNames, at, known::LEARN, table);
    let (influence, learn) = both(influence, learn)?;
    Ok(SetsParts { influence, learn })
}

/// `influence` and `learn`: the policy.
pub(crate) struct PolicyTable;

impl TableForm for PolicyTable {
    ghost use Rattle.config_text.specs.Rights.{policy_of};

    type Parts = SetsParts;

    ghost says = { λ form. policy_of };

    fn read(&self, at: &Place<'_>, table: &Table) -> Result<SetsParts, TableFault> {
        let (sets, ()) = both(sets_of(at, table), no_others(&POLICY, at, table))?;
        Ok(sets)
    }
}

/// `object`, `index`, `influence` and `learn`: a label.
pub(crate) struct LabelTable;

impl TableForm for LabelTable {
    ghost use Rattle.config_text.specs.Rights.{label_of};

    type Parts = LabelParts;

    ghost says = { λ form. label_of };

    #[tactic(auto, unfolding(crate::specs::Rights::label_of))]
    fn read(&self, at: &Place<'_>, table: &Table) -> Result<LabelParts, TableFault> {
        let values = both(target_of(at, table), sets_of(at, table));
        let ((target, sets), ()) = both(values, no_others(&LABEL, at, table))?;
        Ok(LabelParts { target, sets })
    }
}
