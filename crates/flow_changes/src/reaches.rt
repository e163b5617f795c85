//! Cells that a client may reach, or is allowed to.
ghost use Rattle.std.specs.Prelude.{◌≡◌, ◌++◌, OnOk, length, map};
ghost use Rattle.cosem_data.specs.declared.cell.CellRef.{CellRef as CellValue};
ghost use Rattle.flow_changes.specs.Shown.{shown};
ghost use Rattle.flow_changes.specs.Singles.{is_new_reach, is_old_reach, is_other_in, reach_facts, reached_facts};
ghost use Rattle.flow_changes.specs.declared.labels.Pair.{Pair as PairValue};

use crate::fact::Fact;
use crate::labels::Pair;
use crate::namesakes::Namesakes;
use cosem_data::cell::CellRef;
use cosem_data::clients::ClientSet;
use cosem_data::memory::Memory;
use label_certificate::label_sets::set_for;
use meter_theory::flow::Reach;

/// Puts a fact behind others for each of these cells that a client influences and the other, if it is one, doesn't, then for
/// each that it learns. What both sides say of each cell is given.
pub(crate) fn push_reaches<'a>(
    who: &Namesakes<'a>,
    cells: &[CellRef],
    pairs: &[Pair],
    facts: &mut Vec<Fact<'a>>,
) -> Result<(), Memory>
    requires { length pairs.now ≡ length cells.now }
    ensures { (pair : CellValue → PairValue) → pairs.now ≡ map pair cells.now →
        OnOk result (map shown facts.new.items ≡ map shown facts.old.items
        ++ reached_facts who.now.name.now who.now.client who.now.other pair cells.now) }
{
    push_reach(Reach::Influence, who, cells, pairs, facts)?;
    push_reach(Reach::Learn, who, cells, pairs, facts)
}

/// The same of one reach.
fn push_reach<'a>(
    reach: Reach,
    who: &Namesakes<'a>,
    cells: &[CellRef],
    pairs: &[Pair],
    facts: &mut Vec<Fact<'a>>,
) -> Result<(), Memory>
    requires { length pairs.now ≡ length cells.now }
    ensures { (pair : CellValue → PairValue) → pairs.now ≡ map pair cells.now →
        OnOk result (map shown facts.new.items ≡ map shown facts.old.items
        ++ reach_facts who.now.name.now reach who.now.client who.now.other pair cells.now) }
{
    for (number, cell) in cells.iter().enumerate() {
        if is_new(reach, who.client, who.other, &pairs[number]) {
            facts.push(Fact::Reaches {
                client: who.name,
                reach,
                cell: *cell,
            })?;
        }
    }
    Ok(())
}

/// Whether a client reaches a cell that the other doesn't.
pub(crate) fn is_new(reach: Reach, client: u8, other: Option<u8>, pair: &Pair) -> bool
    ensures { result ≡ is_new_reach reach client other pair.now }
{
    set_for(reach, pair.mine).has(client) && !is_in(other, set_for(reach, pair.theirs))
}

/// Whether the other client reaches a cell that this one doesn't.
pub(crate) fn is_old(reach: Reach, client: u8, other: Option<u8>, pair: &Pair) -> bool
    ensures { result ≡ is_old_reach reach client other pair.now }
{
    is_in(other, set_for(reach, pair.theirs)) && !set_for(reach, pair.mine).has(client)
}

/// Whether a client, if it is one, is in a set.
fn is_in(client: Option<u8>, set: ClientSet) -> bool
    ensures { result ≡ is_other_in client set }
{
    match client {
        Some(client) => set.has(client),
        None => false,
    }
}
