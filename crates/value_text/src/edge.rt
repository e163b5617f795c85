//! Edges as they are printed (own profile).
ghost use Rattle.std.specs.Prelude.{◌≡◌, IfOk, string_bytes};
ghost use Rattle.value_text.specs.Edges as spec;
ghost use Rattle.value_text.specs.Edges.{cause_word};

use crate::cell::CellText;
use cosem_data::memory::Memory;
use meter_theory::flow::{Cause, Edge};
use std::alloc::Global;
use std::fmt;

/// An edge as it is printed: `CELL -> CELL CAUSE`.
#[derive(Drop)]
pub struct EdgeText(pub Edge);

impl fmt::Display for EdgeText {
    ghost use Rattle.std.specs.Prelude.{Some};
    ghost use Rattle.value_text.specs.Edges.{edge_text};

    ghost output = { λ edge. Some (edge_text edge.0) };

    fn fmt<W: fmt::Write>(&self, f: &mut fmt::Formatter<W>) -> fmt::Result {
        let source = CellText(self.0.source);
        let target = CellText(self.0.target);
        let cause = word_of(self.0.cause);
        write!(f, "{source} -> {target} {cause}")
    }
}

/// The text of an edge (own profile). The error is that memory was refused.
pub fn edge_text(alloc: Global, edge: &Edge) -> Result<String, Memory>
    ensures { IfOk result (λ text. string_bytes text ≡ spec.edge_text edge.now) }
{
    let edge = EdgeText(*edge);
    Ok(format!(in alloc; "{edge}")?)
}

/// The word of a cause (own profile).
pub fn word_of(cause: Cause) -> &'static str
    ensures { result.now ≡ cause_word cause }
{
    match cause {
        Cause::Monitored => "monitored",
        Cause::Monitor => "monitor",
        Cause::Captured => "captured",
        Cause::Menu => "menu",
        Cause::Period => "period",
        Cause::Schedule => "schedule",
        Cause::Clock => "clock",
    }
}
