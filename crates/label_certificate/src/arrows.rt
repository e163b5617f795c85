//! Edges as arrows along which clients come.
ghost use Rattle.std.specs.Prelude.{◌≡◌, map};
ghost use Rattle.label_certificate.specs.Least.{arrow_of};

use flow_edges::ends::{far_of, near_of};
use flow_edges::table::Link;
use meter_theory::flow::Reach;
use std::marker::Model;

/// From a set to one that has at least its clients: each by its place in a list of sets, counted from 0 (own profile).
#[derive(Clone, Copy, Debug, Drop)]
pub(crate) struct Arrow {
    /// The set whose clients come.
    pub from: usize,
    /// The set to which they come.
    pub to: usize,
}

impl Arrow {
    /// The arrow along an edge of the clients that have a reach.
    fn of(reach: Reach, link: &Link) -> Arrow
        ensures { result ≡ arrow_of reach link.now }
    {
        Arrow {
            from: near_of(reach, *link),
            to: far_of(reach, *link),
        }
    }
}

/// Edges as the arrows along which clients come that have a reach. Contracts see the arrows.
#[derive(Drop)]
pub(crate) struct Arrows<'l> {
    links: &'l [Link],
    reach: Reach,
}

impl<'l> Model for Arrows<'l> {
    ghost use Rattle.std.specs.Prelude.{List, map};
    ghost use Rattle.label_certificate.specs.declared.arrows.Arrow.{Arrow};
    ghost use Rattle.label_certificate.specs.Least.{arrow_of};

    ghost Value = { List Arrow };

    ghost view = { λ a. map (arrow_of a.reach) a.links.now };
}

impl<'l> Arrows<'l> {
    ghost use Rattle.std.specs.Prelude.{◌≡◌, ◌<◌, length, map};
    ghost use Rattle.label_certificate.specs.Closing.{arrow_at};
    ghost use Rattle.label_certificate.specs.Least.{arrow_of};

    /// Edges, for a reach.
    pub(crate) fn new(links: &'l [Link], reach: Reach) -> Arrows<'l>
        ensures { result ≡ map (arrow_of reach) links.now }
    {
        Arrows { links, reach }
    }

    /// How many there are.
    pub(crate) fn len(&self) -> usize
        ensures { result ≡ length self.now }
    {
        self.links.len()
    }

    /// The arrow at a place.
    pub(crate) fn at(&self, number: usize) -> Arrow
        requires { number < length self.now }
        ensures { result ≡ arrow_at self.now number }
    {
        Arrow::of(self.reach, &self.links[number])
    }
}
