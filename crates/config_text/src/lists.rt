//! Arrays of texts and of numbers.

ghost use Rattle.std.specs.Prelude.{map};
ghost use Rattle.toml.specs.View.{table_view};
ghost use Rattle.config_text.specs.Lists as spec;
ghost use Rattle.config_text.specs.Reading.{Reads};

use crate::elements::{Element, array_at, optional_array_at};
use crate::fault::TableFault;
use crate::kept::Kept;
use crate::place::Place;
use crate::refusal::untaken;
use crate::takes::{KeyTakes, Number};
use crate::values::number;
use std::marker::PhantomData;
use toml::{Table, Value};

/// A text.
#[derive(Drop)]
struct TextElement<K> {
    takes: KeyTakes,
    kept: PhantomData<K>,
}

impl<K: Kept> Element for TextElement<K> {
    ghost use Rattle.config_text.specs.Lists.{text_of};
    ghost use Rattle.config_text.specs.Parts.{Text};

    type Parts = K;

    ghost Said = { Text };

    ghost seen = { K.says };

    ghost says = { λ element. text_of element.takes };

    fn read(&self, place: &Place<'_>, value: &Value) -> Result<K, TableFault> {
        match value.as_str() {
            Some(text) => Ok(K::keep(place.alloc(), text)?),
            None => Err(untaken(self.takes, place, "")),
        }
    }
}

/// The texts of the array at a key.
///
/// # Errors
/// C2 at the key where it is missing, C3 where it is no array, and at each element that is no text.
pub(crate) fn texts_at<K: Kept>(
    takes: KeyTakes,
    at: &Place<'_>,
    key: &str,
    table: &Table,
) -> Result<Vec<K>, TableFault>
    ensures { Reads (λ v. map K.says v.items) result (spec.texts_at takes at.now key.now
        (table_view table.now)) }
{
    let text: TextElement<K> = TextElement {
        takes,
        kept: PhantomData,
    };
    array_at(&text, takes, at, key, table)
}

/// The index of an attribute or method.
struct IndexElement;

impl Element for IndexElement {
    ghost use Rattle.std.specs.Prelude.{ℕ};
    ghost use Rattle.config_text.specs.Lists.{index_of};

    type Parts = u8;

    ghost Said = { ℕ };

    ghost seen = { λ n. n };

    ghost says = { λ element. index_of };

    fn read(&self, place: &Place<'_>, value: &Value) -> Result<u8, TableFault> {
        match number(Number::Index, value.as_integer()) {
            Some(index) => Ok(index as u8),
            None => Err(untaken(KeyTakes::Indexes, place, "")),
        }
    }
}

/// The indexes of the array at a key, none where it is left out.
///
/// # Errors
/// C3 at the key where it is no array, and at each element that is something else.
pub(crate) fn indexes_at(at: &Place<'_>, key: &str, table: &Table) -> Result<Vec<u8>, TableFault>
    ensures { Reads (λ v. v.items) result (spec.indexes_at at.now key.now (table_view table.now)) }
{
    optional_array_at(&IndexElement, KeyTakes::Indexes, at, key, table)
}
