//! Refusals of a configuration, by the faults that were found.
ghost use Rattle.std.specs.Prelude.{◌≡◌, ◌++◌, ◌∷◌, [], Some};
ghost use Rattle.config_text.specs.Fault.{OfKeys, OfValues, none_or};
ghost use Rattle.config_text.specs.Reading.{IsSlip, Reads};
ghost use Rattle.config_text.specs.Refusals.{Finds};
ghost use Rattle.config_text.specs.declared.cause.Cause.TheVariants.{KeyMissing, Kind};

use crate::cause::Cause;
use crate::fault::{ConfigFault, PlacedFault, TableFault};
use crate::noting::placed;
use crate::place::Place;
use crate::takes::KeyTakes;

/// The refusal by a key that is missing below a place.
pub(crate) fn missing(at: &Place<'_>, key: &str) -> TableFault
    ensures { IsSlip result (Some (OfKeys (record { cause = KeyMissing; place = at.now ++ key.now }) [])) }
{
    match placed(Cause::KeyMissing, at, key) {
        Ok(first) => TableFault::Keys {
            first,
            others: Vec::new(at.alloc()),
        },
        Err(_) => TableFault::Memory,
    }
}

/// The refusal by what stands at a key below a place, which the key doesn't take.
pub(crate) fn untaken(takes: KeyTakes, at: &Place<'_>, key: &str) -> TableFault
    ensures { IsSlip result (Some (OfValues (record { cause = Kind takes; place = at.now ++ key.now }) [])) }
{
    match placed(Cause::Kind(takes), at, key) {
        Ok(first) => TableFault::Values {
            first,
            others: Vec::new(at.alloc()),
        },
        Err(_) => TableFault::Memory,
    }
}

/// Nothing where no faults of keys were found, else all of them.
///
/// # Errors
/// The faults.
pub(crate) fn refuse_keys(mut faults: Vec<PlacedFault>) -> Result<(), TableFault>
    ensures { Reads (λ u. u) result (none_or faults.items) }
{
    if faults.is_empty() {
        return Ok(());
    }
    let first = faults.remove(0);
    Err(TableFault::Keys {
        first,
        others: faults,
    })
}

/// Nothing where no faults were found, else all of them.
///
/// # Errors
/// The faults.
pub fn refuse(mut faults: Vec<PlacedFault>) -> Result<(), ConfigFault>
    ensures { Finds result faults.items }
{
    if faults.is_empty() {
        return Ok(());
    }
    let first = faults.remove(0);
    Err(ConfigFault::Found {
        first,
        others: faults,
    })
}
