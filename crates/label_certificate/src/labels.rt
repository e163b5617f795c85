//! Labels of cells.
ghost use Rattle.std.specs.Prelude.{◌≡◌};

use cosem_data::cell::CellRef;
use meter_theory::flow::Label;
use std::marker::Model;

/// Cells of a plan, in plan order and each once, with who may influence and who may learn each of them (own profile).
#[derive(Drop)]
pub struct Labels {
    entries: Vec<(CellRef, Label)>,
}

impl Model for Labels {
    ghost use Rattle.meter_theory.specs.Labels as theory;

    ghost Value = { theory.Labels };

    ghost view = { λ l. l.entries.items };

    ghost use Rattle.label_certificate.specs.LabelText.{AreOfAPlan};

    ghost invariant = { λ l. AreOfAPlan l.entries.items };
}

impl Labels {
    ghost use Rattle.label_certificate.specs.LabelText.{AreOfAPlan};

    /// The labels with these entries.
    pub(crate) fn new(entries: Vec<(CellRef, Label)>) -> Self
        requires { AreOfAPlan entries.items }
        ensures { result ≡ entries.items }
    {
        Labels { entries }
    }

    /// What the type keeps, for callers: there is a plan of whose cells these are, in plan order and each once.
    pub fn known(&self)
        ensures { AreOfAPlan self.now }
    {
        let _entries = &self.entries;
    }

    /// Each cell with its label, in plan order.
    pub fn entries(&self) -> &[(CellRef, Label)]
        ensures { result.now ≡ self.now }
    {
        &self.entries
    }
}
