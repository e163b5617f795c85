//! Links by the cells that they lead to.
ghost use Rattle.std.specs.Prelude.{◌≡◌, [], IfOk, map, replicate};
ghost use Rattle.label_certificate.specs.Least.{AreLinks};
ghost use Rattle.flow_ways.specs.Arriving.{AreArriving};

use cosem_data::memory::Memory;
use flow_edges::ends::far_of;
use flow_edges::table::Link;
use meter_theory::flow::Reach;
use std::alloc::Global;

/// For each of so many cells the links that lead to it, in their order.
pub(crate) fn arriving(
    alloc: Global,
    reach: Reach,
    count: usize,
    links: &[Link],
) -> Result<Vec<Vec<Link>>, Memory>
    requires { AreLinks count links.now }
    ensures { IfOk result (λ lists. AreArriving reach count links.now
        (map (λ list. list.items) lists.items)) }
{
    let mut lists = no_links(alloc, count)?;
    for link in links {
        lists[far_of(reach, *link)].push(*link)?;
    }
    Ok(lists)
}

/// A list without links for each of so many cells.
fn no_links(alloc: Global, count: usize) -> Result<Vec<Vec<Link>>, Memory>
    ensures { IfOk result (λ lists. map (λ list. list.items) lists.items ≡ replicate count []) }
{
    let mut lists = Vec::with_capacity(alloc, count)?;
    for _ in 0..count {
        lists.push(Vec::new(alloc))?;
    }
    Ok(lists)
}
