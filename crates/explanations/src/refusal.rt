//! The explanation of a refusal of labels (own profile).
ghost use Rattle.std.specs.Prelude.{IfOk, string_bytes};
ghost use Rattle.explanations.specs.Lines.{AreLines};

use crate::lines::lines_of;
use cosem_data::cell::CellRef;
use cosem_data::memory::Memory;
use flow_checker::check::Refused;
use meter_theory::flow::Edge;
use shown_text::printable::printable_text;
use std::alloc::Global;
use value_text::cell::CellText;
use value_text::edge::EdgeText;

/// What is told of a cell without a label.
fn not_labelled(alloc: Global, cell: CellRef) -> Result<String, Memory> {
    let cell = CellText(cell);
    Ok(format!(in alloc;
        "cosem-flow: each cell has to have a label\n  add a line for {cell}, or make the labels anew with cosem-flow label\n"
    )?)
}

/// What is told of a label that allows more than the policy.
fn past_policy(alloc: Global, cell: CellRef) -> Result<String, Memory> {
    let cell = CellText(cell);
    Ok(format!(in alloc;
        "cosem-flow: the sets of a label have to lie within those of the policy\n  take the clients that the policy doesn't have out of the label of {cell}, or add them to the policy; what cosem-flow label makes has the least sets, so with these a right, an edge or the policy has to change\n"
    )?)
}

/// What is told of a client that changes a cell and isn't in its influence set.
fn changer(alloc: Global, client: &str, cell: CellRef) -> Result<String, Memory> {
    let client = printable_text(alloc, client)?;
    let cell = CellText(cell);
    Ok(format!(in alloc;
        "cosem-flow: who has a right that changes a cell has to be in its influence set\n  take the set and act rights that change {cell} from {client}, or add this client to the influence set of the label\n"
    )?)
}

/// What is told of a client that reads a cell and isn't in its learn set.
fn reader(alloc: Global, client: &str, cell: CellRef) -> Result<String, Memory> {
    let client = printable_text(alloc, client)?;
    let cell = CellText(cell);
    Ok(format!(in alloc;
        "cosem-flow: who has a get right on a cell has to be in its learn set\n  take the get right on {cell} from {client}, or add this client to the learn set of the label\n"
    )?)
}

/// What is told of an edge whose source has an influencer that its target lacks.
fn influence_escapes(alloc: Global, edge: Edge) -> Result<String, Memory> {
    let edge = EdgeText(edge);
    Ok(format!(in alloc;
        "cosem-flow: who influences the source of an edge has to influence its target\n  along {edge}, add the clients of the first influence set to the second, or cut the edge\n"
    )?)
}

/// What is told of an edge whose target has a learner that its source lacks.
fn learn_escapes(alloc: Global, edge: Edge) -> Result<String, Memory> {
    let edge = EdgeText(edge);
    Ok(format!(in alloc;
        "cosem-flow: who learns the target of an edge has to learn its source\n  along {edge}, add the clients of the second learn set to the first, or cut the edge\n"
    )?)
}

/// Explains why labels are refused, in two lines (own profile): what is asked of labels, and how that is mended of the cell, the
/// client or the edge that breaks it.
///
/// # Errors
/// Memory was refused.
pub fn explain_refusal(alloc: Global, refused: &Refused) -> Result<String, Memory>
    ensures { IfOk result (λ told. AreLines (string_bytes told)) }
{
    let told = match refused {
        Refused::NotLabelled(cell) => not_labelled(alloc, *cell)?,
        Refused::PastPolicy(cell) => past_policy(alloc, *cell)?,
        Refused::Changer(client, cell) => changer(alloc, client.as_str(), *cell)?,
        Refused::Reader(client, cell) => reader(alloc, client.as_str(), *cell)?,
        Refused::InfluenceEscapes(edge) => influence_escapes(alloc, *edge)?,
        Refused::LearnEscapes(edge) => learn_escapes(alloc, *edge)?,
        Refused::Memory => String::from_str(
            alloc,
            "cosem-flow: memory was refused, and nothing is known of the labels\n  give the process more memory\n",
        )?,
    };
    lines_of(alloc, &told)
}
