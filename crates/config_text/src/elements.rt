//! What the elements of an array say.

ghost use Rattle.std.specs.Prelude.{map, option_map};
ghost use Rattle.toml.specs.Data.{as_array};
ghost use Rattle.toml.specs.View.{array_view, table_view, view};
ghost use Rattle.config_text.specs.Lists as spec;
ghost use Rattle.config_text.specs.Reading.{Reads};

use crate::both::with_next;
use crate::fault::TableFault;
use crate::lookup::value_at;
use crate::place::Place;
use crate::refusal::untaken;
use crate::takes::KeyTakes;
use crate::values::there;
use toml::value::Array;
use toml::{Table, Value};

/// What an element of an array is to be.
pub(crate) trait Element {
    ghost use Rattle.std.specs.Prelude.{Result};
    ghost use Rattle.toml.specs.Data.{Data};
    ghost use Rattle.toml.specs.View.{view};
    ghost use Rattle.config_text.specs.Fault.{Faults};
    ghost use Rattle.config_text.specs.Parts.{Text};
    ghost use Rattle.config_text.specs.Reading.{Reads};

    /// What it is kept as.
    type Parts: Drop;

    /// What it says.
    ghost Said: { Type 0 };

    /// What it says, by what it is kept as.
    ghost seen: { Self.Parts → Said };

    /// What one at a place says.
    ghost says: { Self → Text → Data → Result Said Faults };

    /// Reads one at a place.
    ///
    /// # Errors
    /// C2 at each key that is missing or unknown in it, else C3 at each value of a wrong kind.
    fn read(&self, place: &Place<'_>, value: &Value) -> Result<Self::Parts, TableFault>
        ensures { Reads seen result (says self.now place.now (view value.now)) };
}

/// What each element of an array says.
///
/// # Errors
/// The faults of all elements.
#[tactic(auto, unfolding(crate::specs::Lists::each))]
pub(crate) fn each<E: Element>(
    element: &E,
    name: &Place<'_>,
    array: &Array,
) -> Result<Vec<E::Parts>, TableFault>
    ensures { Reads (λ all. map E.seen all.items) result (spec.each (E.says element.now) name.now 0 (array_view array.now)) }
{
    let mut all = Ok(Vec::with_capacity(name.alloc(), array.len())?);
    for (i, value) in array.iter().enumerate() {
        let next = element.read(&(&*name).element(i), value);
        all = with_next(all, next);
    }
    all
}

/// What each element of the array at a place says.
///
/// # Errors
/// The faults of all elements, or C3 at the place where it is no array.
pub(crate) fn array_of<E: Element>(
    element: &E,
    takes: KeyTakes,
    place: &Place<'_>,
    value: &Value,
) -> Result<Vec<E::Parts>, TableFault>
    ensures { Reads (λ all. map E.seen all.items) result
        (spec.array_of takes (E.says element.now) place.now (as_array (view value.now))) }
{
    match value.as_array() {
        Some(items) => each(element, place, items),
        None => Err(untaken(takes, place, "")),
    }
}

/// What each element of the array at a key says.
///
/// # Errors
/// The faults of all elements, C2 at the key where it is missing, C3 where it is no array.
#[tactic(auto, unfolding(crate::specs::Lists::array_at))]
pub(crate) fn array_at<E: Element>(
    element: &E,
    takes: KeyTakes,
    at: &Place<'_>,
    key: &str,
    table: &Table,
) -> Result<Vec<E::Parts>, TableFault>
    ensures { Reads (λ all. map E.seen all.items) result
        (spec.array_at takes (E.says element.now) at.now key.now (table_view table.now)) }
{
    array_of(element, takes, &at.below(key), there(at, key, table)?)
}

/// The same at a key that may be left out, none where it is.
#[tactic(auto, unfolding(crate::specs::Lists::optional_array_at))]
pub(crate) fn optional_array_at<E: Element>(
    element: &E,
    takes: KeyTakes,
    at: &Place<'_>,
    key: &str,
    table: &Table,
) -> Result<Vec<E::Parts>, TableFault>
    ensures { Reads (λ all. map E.seen all.items) result
        (spec.optional_array_at takes (E.says element.now) at.now key.now (table_view table.now)) }
{
    match value_at(table, key) {
        Some(value) => array_of(element, takes, &at.below(key), value),
        None => Ok(Vec::new(at.alloc())),
    }
}

/// The same of a menu, if it is there.
#[tactic(auto, unfolding(crate::specs::Lists::menu_at))]
pub(crate) fn menu_at<E: Element>(
    element: &E,
    takes: KeyTakes,
    at: &Place<'_>,
    key: &str,
    table: &Table,
) -> Result<Option<Vec<E::Parts>>, TableFault>
    ensures { Reads (λ menu. option_map (λ all. map E.seen all.items) menu) result
        (spec.menu_at takes (E.says element.now) at.now key.now (table_view table.now)) }
{
    match value_at(table, key) {
        Some(value) => Ok(Some(array_of(element, takes, &at.below(key), value)?)),
        None => Ok(None),
    }
}
