//! Readings that are made one beside another, so that the faults of all are found.

ghost use Rattle.std.specs.Prelude.{◌≡◌, ◌++◌, ◌∷◌, [], IfOk, Ok, Option, Some};
ghost use Rattle.config_text.specs.Fault.{Faults, OfKeys, OfValues};
ghost use Rattle.config_text.specs.Reading.{IsSlip, Slips, slips_of_both};

use crate::fault::{PlacedFault, TableFault};
use cosem_data::memory::Memory;

/// Faults, and others behind them. The error is that memory was refused.
fn added(
    mut faults: Vec<PlacedFault>,
    next: PlacedFault,
    mut more: Vec<PlacedFault>,
) -> Result<Vec<PlacedFault>, Memory>
    ensures { IfOk result (λ all. all.items ≡ faults.items ++ next ∷ more.items) }
{
    faults.push(next)?;
    faults.append(&mut more)?;
    Ok(faults)
}

/// The faults of keys, and behind them those of another refusal that are of keys too.
fn joined_keys(first: PlacedFault, others: Vec<PlacedFault>, more: TableFault) -> TableFault
    ensures { (t : Option Faults) → IsSlip more t → IsSlip result (slips_of_both (Some (OfKeys first others.items)) t) }
{
    match more {
        TableFault::Memory => TableFault::Memory,
        TableFault::Keys {
            first: next,
            others: more,
        } => match added(others, next, more) {
            Ok(others) => TableFault::Keys { first, others },
            Err(_) => TableFault::Memory,
        },
        TableFault::Values { .. } => TableFault::Keys { first, others },
    }
}

/// The faults of values, and behind them those of another refusal, or those alone where they are of keys.
fn joined_values(first: PlacedFault, others: Vec<PlacedFault>, more: TableFault) -> TableFault
    ensures { (t : Option Faults) → IsSlip more t → IsSlip result (slips_of_both (Some (OfValues first others.items)) t) }
{
    match more {
        TableFault::Memory => TableFault::Memory,
        TableFault::Keys { first, others } => TableFault::Keys { first, others },
        TableFault::Values {
            first: next,
            others: more,
        } => match added(others, next, more) {
            Ok(others) => TableFault::Values { first, others },
            Err(_) => TableFault::Memory,
        },
    }
}

/// The faults of one refusal, and then those of another, where they are of the same pass; else those of the first pass.
fn joined(refusal: TableFault, more: TableFault) -> TableFault
    ensures { (s t : Option Faults) → IsSlip refusal s → IsSlip more t → IsSlip result (slips_of_both s t) }
{
    match refusal {
        TableFault::Memory => TableFault::Memory,
        TableFault::Keys { first, others } => joined_keys(first, others, more),
        TableFault::Values { first, others } => joined_values(first, others, more),
    }
}

/// What two readings give.
///
/// # Errors
/// The faults of both, those of the first in front; of keys alone where there are such.
pub(crate) fn both<A: Drop, B: Drop>(
    first: Result<A, TableFault>,
    second: Result<B, TableFault>,
) -> Result<(A, B), TableFault>
    ensures read { IfOk result (λ pair. (first ≡ Ok pair.0) × (second ≡ Ok pair.1)) }
    ensures slips { (s t : Option Faults) → Slips first s → Slips second t → Slips result (slips_of_both s t) }
{
    match first {
        Ok(x) => match second {
            Ok(y) => Ok((x, y)),
            Err(refusal) => Err(refusal),
        },
        Err(refusal) => match second {
            Ok(_) => Err(refusal),
            Err(more) => Err(joined(refusal, more)),
        },
    }
}

/// What was read so far, and what is read next behind it.
///
/// # Errors
/// The faults of both.
pub(crate) fn with_next<T: Drop>(
    all: Result<Vec<T>, TableFault>,
    next: Result<T, TableFault>,
) -> Result<Vec<T>, TableFault>
    ensures read { IfOk result (λ now. (before : _) × (x : T) × (all ≡ Ok before) × (next ≡ Ok x) × (now.items ≡ before.items ++ x ∷ [])) }
    ensures slips { (s t : Option Faults) → Slips all s → Slips next t → Slips result (slips_of_both s t) }
{
    let (mut all, next) = both(all, next)?;
    all.push(next)?;
    Ok(all)
}
