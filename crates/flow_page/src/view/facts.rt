//! What a page is made of.
use flow_ways::ways::Ways;
use meter_theory::flow::Label;

/// The ways of a plan, and for each of its cells, in plan order, whom the policy allows it, and who has gained and who has lost it
/// against the configuration before: nobody, where there are none.
#[derive(Clone, Copy, Drop)]
pub(crate) struct Facts<'a> {
    /// The ways.
    pub ways: &'a Ways<'a>,
    /// Whom the policy allows each cell.
    pub allowed: &'a [Label],
    /// Who has gained it.
    pub gained: &'a [Label],
    /// Who has lost it.
    pub lost: &'a [Label],
}
