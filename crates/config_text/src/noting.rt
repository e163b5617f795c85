//! Notes of what a pass finds, each behind those before it.

ghost use Rattle.std.specs.Prelude.{◌≡◌, ◌++◌, ◌∷◌, [], IfOk, OnOk};
ghost use Rattle.config_text.specs.Fault.{fault_where};

use crate::cause::Cause;
use crate::fault::PlacedFault;
use crate::place::Place;
use cosem_data::memory::Memory;

/// A fault at a key below a place. The error is that memory was refused.
pub(crate) fn placed(cause: Cause, at: &Place<'_>, key: &str) -> Result<PlacedFault, Memory>
    ensures { IfOk result (λ fault. fault ≡ record { cause = cause; place = at.now ++ key.now }) }
{
    let place = format!(in at.alloc(); "{at}{key}")?;
    Ok(PlacedFault { cause, place })
}

/// Notes a fault at a key below a place.
pub fn note(
    faults: &mut Vec<PlacedFault>,
    cause: Cause,
    at: &Place<'_>,
    key: &str,
) -> Result<(), Memory>
    ensures { OnOk result (faults.new.items ≡ faults.old.items
        ++ record { cause = cause; place = at.now ++ key.now } ∷ []) }
{
    faults.push(placed(cause, at, key)?)?;
    Ok(())
}

/// Notes a fault at a key below a place, where a test holds.
pub fn note_if(
    faults: &mut Vec<PlacedFault>,
    cause: Cause,
    at: &Place<'_>,
    key: &str,
    test: bool,
) -> Result<(), Memory>
    ensures { OnOk result (faults.new.items ≡ faults.old.items ++ fault_where cause (at.now ++ key.now) test) }
{
    if test {
        note(faults, cause, at, key)?;
    }
    Ok(())
}
