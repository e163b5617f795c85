//! The verdict on one configuration and on labels for it, and what is printed of it (own profile).
//!
//! - [`judging`] comes to a verdict, and gives what is accepted.
//! - [`failures::failures_told`] tells all that fails of labels, each in a line.
#![tactic(auto)]

ghost use Rattle.std.specs.Prelude.{◌≡◌, ◌++◌, IfOk, codes, string_bytes};
ghost use Rattle.value_text.specs.Texts.{cell_text};
ghost use Rattle.value_text.specs.Edges.{edge_text};
ghost use Rattle.verdict.specs.Lines as spec;
ghost use Rattle.verdict.specs.Lines.{refused_by, verdict_line};

pub mod failures;
pub mod judging;

use config_text::fault::ConfigFault;
use cosem_data::cell::CellRef;
use cosem_data::memory::Memory;
use flow_checker::check::Refused;
use label_certificate::fault::LabelFault;
use meter_theory::flow::Edge;
use std::alloc::Global;
use value_text::cell::CellText;
use value_text::edge::EdgeText;

/// What was found of a configuration, and of labels for it (own profile).
#[derive(Debug, Drop)]
pub enum Verdict {
    /// The labels are accepted.
    Accepted,
    /// The text of the configuration has a fault, or memory was refused while it was read.
    Config(ConfigFault),
    /// The text of the labels has a fault, or memory was refused while it was read.
    Labels(LabelFault),
    /// The labels are refused, or memory was while they were judged.
    Refused(Refused),
}

impl Verdict {
    ghost use Rattle.verdict.specs.Judging.{is_accepted};

    /// Whether it accepts (own profile).
    pub fn is_accepted(&self) -> bool
        ensures { result ≡ is_accepted self.now }
    {
        matches!(self, Verdict::Accepted)
    }
}

/// The line of a configuration's fault.
fn fault_line(alloc: Global, fault: &ConfigFault) -> Result<String, Memory>
    ensures { IfOk result (λ line. string_bytes line ≡ spec.fault_line fault.now) }
{
    match fault {
        ConfigFault::Memory => Ok(String::from_str(alloc, "config C0\n")?),
        ConfigFault::Found { first, .. } => {
            let (code, place) = (first.cause.code(), &first.place);
            Ok(format!(in alloc; "config C{code} at {place}\n")?)
        }
    }
}

/// The line of a fault of labels.
fn label_fault_line(alloc: Global, fault: &LabelFault) -> Result<String, Memory>
    ensures { IfOk result (λ line. string_bytes line ≡ spec.label_fault_line fault.now) }
{
    match fault {
        LabelFault::Memory => Ok(String::from_str(alloc, "labels L5\n")?),
        LabelFault::Line { code, line } => {
            let number = code.number();
            Ok(format!(in alloc; "labels L{number} at line {line}\n")?)
        }
    }
}

/// The line of a refusal.
fn refusal_line(alloc: Global, refused: &Refused) -> Result<String, Memory>
    ensures { IfOk result (λ line. string_bytes line ≡ spec.refusal_line refused.now) }
{
    match refused {
        Refused::NotLabelled(cell) => cell_line(alloc, 1, *cell),
        Refused::PastPolicy(cell) => cell_line(alloc, 2, *cell),
        Refused::Changer(client, cell) => right_line(alloc, 3, client.as_str(), *cell),
        Refused::Reader(client, cell) => right_line(alloc, 4, client.as_str(), *cell),
        Refused::InfluenceEscapes(edge) => edge_line(alloc, 5, *edge),
        Refused::LearnEscapes(edge) => edge_line(alloc, 6, *edge),
        Refused::Memory => Ok(String::from_str(alloc, "refused 7\n")?),
    }
}

/// The line of a refusal with this number that names a cell.
pub(crate) fn cell_line(alloc: Global, number: u8, cell: CellRef) -> Result<String, Memory>
    ensures { IfOk result (λ line. string_bytes line ≡ refused_by number (cell_text cell)) }
{
    let cell = CellText(cell);
    Ok(format!(in alloc; "refused {number}: {cell}\n")?)
}

/// The line of a refusal with this number that names a client and a cell.
pub(crate) fn right_line(
    alloc: Global,
    number: u8,
    client: &str,
    cell: CellRef,
) -> Result<String, Memory>
    ensures { IfOk result (λ line. string_bytes line ≡ refused_by number (client.now ++ (codes " " ++ cell_text cell))) }
{
    let cell = CellText(cell);
    Ok(format!(in alloc; "refused {number}: {client} {cell}\n")?)
}

/// The line of a refusal with this number that names an edge.
fn edge_line(alloc: Global, number: u8, edge: Edge) -> Result<String, Memory>
    ensures { IfOk result (λ line. string_bytes line ≡ refused_by number (edge_text edge)) }
{
    let edge = EdgeText(edge);
    Ok(format!(in alloc; "refused {number}: {edge}\n")?)
}

/// The line that tells a verdict (own profile): `accepted`; `config CN at PLACE`, or `config C0` where memory was refused;
/// `labels LN at line K`, or `labels L5` where memory was refused; `refused N: ` and the cell, the client and the cell, or the
/// edge that is refused, or `refused 7` where memory was refused.
pub fn verdict_text(alloc: Global, verdict: &Verdict) -> Result<String, Memory>
    ensures { IfOk result (λ line. string_bytes line ≡ verdict_line verdict.now) }
{
    match verdict {
        Verdict::Accepted => Ok(String::from_str(alloc, "accepted\n")?),
        Verdict::Config(fault) => fault_line(alloc, fault),
        Verdict::Labels(fault) => label_fault_line(alloc, fault),
        Verdict::Refused(refused) => refusal_line(alloc, refused),
    }
}
