//! Which keys a table has. `at` is the place of the table, up to its dot.

ghost use Rattle.std.specs.Prelude.{◌≡◌, ◌++◌, ◌∷◌, [], IfOk, OnOk, map};
ghost use Rattle.toml.specs.View.{table_view};
ghost use Rattle.std.specs.List.{list_any};
ghost use Rattle.std.specs.Str.{bytes_eq};
ghost use Rattle.config_text.specs.KeyText as text;
ghost use Rattle.config_text.specs.declared.cause.Cause.TheVariants.{KeyUnknown};
ghost use Rattle.config_text.specs.Keys as spec;
ghost use Rattle.config_text.specs.Reading.{Reads};

use crate::cause::{Cause, NearKey};
use crate::fault::{PlacedFault, TableFault};
use crate::key_text::key_text;
use crate::near::nearest;
use crate::noting::note;
use crate::place::Place;
use crate::refusal::refuse_keys;
use cosem_data::memory::Memory;
use std::alloc::Global;
use toml::Table;

/// Whether a key is among the known ones.
fn is_among(key: &str, known: &[&str]) -> bool
    ensures { result ≡ list_any (λ k. bytes_eq k.now key.now) known.now }
{
    known.iter().any(|k| *k == key)
}

/// The key that is near one which isn't known: one of the known ones, or else of those that later versions have. The error is that
/// memory was refused.
fn near_key(
    alloc: Global,
    key: &str,
    known: &[&str],
    later: &[&str],
) -> Result<Option<NearKey>, Memory>
    ensures { IfOk result (λ found. found
        ≡ spec.near_key key.now (map (λ k. k.now) known.now) (map (λ k. k.now) later.now)) }
{
    let near = match nearest(key, known) {
        Some(near) => near,
        None => match nearest(key, later) {
            Some(near) => near,
            None => return Ok(None),
        },
    };
    let key = String::from_str(alloc, near)?;
    Ok(Some(NearKey { key }))
}

/// Notes a key that isn't known, which stands in the place as TOML writes it.
fn note_unknown(
    faults: &mut Vec<PlacedFault>,
    near: Option<NearKey>,
    at: &Place<'_>,
    key: &str,
) -> Result<(), Memory>
    ensures { OnOk result (faults.new.items ≡ faults.old.items
        ++ record { cause = KeyUnknown near; place = at.now ++ text.key_text key.now } ∷ []) }
{
    let text = key_text(at.alloc(), key)?;
    note(faults, Cause::KeyUnknown(near), at, text.as_str())
}

/// Notes a key that isn't among the known ones.
#[tactic(auto, using(crate::proofs::KeyLemmas::is_among_map))]
fn known_key(
    faults: &mut Vec<PlacedFault>,
    known: &[&str],
    later: &[&str],
    at: &Place<'_>,
    key: &str,
) -> Result<(), Memory>
    ensures { OnOk result (faults.new.items ≡ faults.old.items
        ++ spec.known_key (map (λ k. k.now) known.now) (map (λ k. k.now) later.now) at.now key.now) }
{
    if !is_among(key, known) {
        let near = near_key(at.alloc(), key, known, later)?;
        note_unknown(faults, near, at, key)?;
    }
    Ok(())
}

/// Notes each key of a table that isn't known, in byte order. Later versions have some keys more.
#[tactic(auto, unfolding(crate::specs::Keys::only_of))]
fn only_of(
    faults: &mut Vec<PlacedFault>,
    known: &[&str],
    later: &[&str],
    at: &Place<'_>,
    table: &Table,
) -> Result<(), Memory>
    ensures { OnOk result (faults.new.items ≡ faults.old.items
        ++ spec.only_of (map (λ k. k.now) known.now) (map (λ k. k.now) later.now) at.now (table_view table.now)) }
{
    for key in table.keys() {
        known_key(faults, known, later, at, key.as_str())?;
    }
    Ok(())
}

/// A table has no other keys than the known ones. Later versions have some keys more.
///
/// # Errors
/// C2 at each other key.
pub(crate) fn no_others_of(
    known: &[&str],
    later: &[&str],
    at: &Place<'_>,
    table: &Table,
) -> Result<(), TableFault>
    ensures { Reads (λ u. u) result (spec.others_of (map (λ k. k.now) known.now) (map (λ k. k.now) later.now) at.now (table_view table.now)) }
{
    let mut faults = Vec::new(at.alloc());
    only_of(&mut faults, known, later, at, table)?;
    refuse_keys(faults)
}

/// A table has no other keys than the known ones.
///
/// # Errors
/// C2 at each other key.
pub(crate) fn no_others(known: &[&str], at: &Place<'_>, table: &Table) -> Result<(), TableFault>
    ensures { Reads (λ u. u) result (spec.others (map (λ k. k.now) known.now) at.now (table_view table.now)) }
{
    no_others_of(known, &[], at, table)
}
