//! Tables inside of tables, and what they say.

ghost use Rattle.toml.specs.View.{table_view};
ghost use Rattle.config_text.specs.Reading.{Reads};
ghost use Rattle.config_text.specs.Tables as spec;

use crate::elements::{Element, array_at, optional_array_at};
use crate::fault::TableFault;
use crate::place::Place;
use crate::refusal::untaken;
use crate::takes::KeyTakes;
use crate::values::there;
use toml::{Table, Value};

/// A form of tables: which keys such a table has, and what it says. `at` is the place of the table, up to its dot.
pub(crate) trait TableForm {
    ghost use Rattle.std.specs.Prelude.{Result};
    ghost use Rattle.toml.specs.Data.{Members};
    ghost use Rattle.toml.specs.View.{table_view};
    ghost use Rattle.config_text.specs.Fault.{Faults};
    ghost use Rattle.config_text.specs.Parts.{Text};
    ghost use Rattle.config_text.specs.Reading.{Reads};

    /// What a table says.
    type Parts: Drop;

    /// What the table says, or what is wrong in it.
    ghost says: { Self → Text → Members → Result Self.Parts Faults };

    /// Reads a table, in which each key is looked up once.
    ///
    /// # Errors
    /// C2 at each key that is missing or unknown, else C3 at each value of a wrong kind.
    fn read(&self, at: &Place<'_>, table: &Table) -> Result<Self::Parts, TableFault>
        ensures { Reads (λ x. x) result (says self.now at.now (table_view table.now)) };
}

/// A table of a form, as an element of an array.
#[derive(Drop)]
pub(crate) struct TableOf<'a, T> {
    pub form: &'a T,
    /// What the key takes at which it is.
    pub takes: KeyTakes,
}

impl<'a, T: TableForm> Element for TableOf<'a, T> {
    ghost use Rattle.config_text.specs.Tables.{table_of};

    type Parts = T::Parts;

    ghost Said = { T.Parts };

    ghost seen = { λ parts. parts };

    ghost says = { λ element. table_of element.takes (T.says element.form.now) };

    fn read(&self, place: &Place<'_>, value: &Value) -> Result<T::Parts, TableFault> {
        match value.as_table() {
            Some(table) => self.form.read(&place.below("."), table),
            None => Err(untaken(self.takes, place, "")),
        }
    }
}

/// What the tables in the array at a key say.
///
/// # Errors
/// C2 at the key where it is missing, C3 where it is no array and at each element that is no table, and where the tables say so.
pub(crate) fn list_at<T: TableForm>(
    form: &T,
    at: &Place<'_>,
    key: &str,
    table: &Table,
) -> Result<Vec<T::Parts>, TableFault>
    ensures { Reads (λ v. v.items) result (spec.list_at (T.says form.now) at.now key.now (table_view table.now)) }
{
    let takes = KeyTakes::Tables;
    array_at(&TableOf { form, takes }, takes, at, key, table)
}

/// What the tables in the array at a key say, none where it is left out.
///
/// # Errors
/// C3 at the key where it is no array, at each element that is no table, and where the tables say so.
pub(crate) fn optional_list_at<T: TableForm>(
    form: &T,
    at: &Place<'_>,
    key: &str,
    table: &Table,
) -> Result<Vec<T::Parts>, TableFault>
    ensures { Reads (λ v. v.items) result
        (spec.optional_list_at (T.says form.now) at.now key.now (table_view table.now)) }
{
    let takes = KeyTakes::Tables;
    optional_array_at(&TableOf { form, takes }, takes, at, key, table)
}

/// What the table at a key says.
///
/// # Errors
/// C2 at the key where it is missing, C3 where it is no table, and where the table says so.
#[tactic(auto, unfolding(crate::specs::Tables::table_at))]
pub(crate) fn table_at<T: TableForm>(
    form: &T,
    at: &Place<'_>,
    key: &str,
    table: &Table,
) -> Result<T::Parts, TableFault>
    ensures { Reads (λ x. x) result (spec.table_at (T.says form.now) at.now key.now (table_view table.now)) }
{
    let takes = KeyTakes::Table;
    TableOf { form, takes }.read(&at.below(key), there(at, key, table)?)
}
