//! Looking among the effects of a walk for a cell that a client may learn.
ghost use Rattle.std.specs.Prelude.{◌≡◌, None};

use crate::check::Checked;
use crate::learned::first_learned;
use cosem_data::cell::CellRef;
use meter_effects::walk::{Planned, Visitor};
use object_model::instance::Instance;
use std::convert::Infallible;

/// The first cell, if there was one, that an effect changes and a client may learn by the policy.
#[derive(Drop)]
pub(crate) struct Looking<'a> {
    checked: &'a Checked,
    client: u8,
    found: Option<CellRef>,
}

impl<'a> Looking<'a> {
    /// Nothing was found yet.
    pub(crate) fn new(checked: &'a Checked, client: u8) -> Self
        ensures checked { result.checked.now ≡ checked.now }
        ensures client { result.client ≡ client }
        ensures found { result.found ≡ None }
    {
        Looking {
            checked,
            client,
            found: None,
        }
    }

    /// What was found.
    pub(crate) fn found(&self) -> Option<CellRef>
        ensures { result ≡ self.now.found }
    {
        self.found
    }
}

impl<'a> Visitor for Looking<'a> {
    ghost use Rattle.flow_checker.specs.Notices.{LooksOn};

    type Stop = Infallible;

    ghost meets = { λ plan old effect new. LooksOn old effect new };

    fn visit(&mut self, _object: &Instance<'_>, effect: &Planned<'_>) -> Result<(), Infallible> {
        if self.found.is_none() {
            self.found = first_learned(self.checked, self.client, effect.changed().as_slice());
        }
        Ok(())
    }
}
