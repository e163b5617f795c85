//! The columns in which boxes stand: an arrow leads from left to right where it can.
use cosem_data::memory::Memory;
use std::alloc::Global;

/// From which box an arrow leads to which, by their numbers.
#[derive(Clone, Copy, PartialEq, Eq, Drop)]
pub(crate) struct Ends {
    /// The number of the box that it leads from.
    pub source: usize,
    /// The number of the box that it leads to.
    pub target: usize,
}

/// What is known of a box on the way to its column.
#[derive(Clone, Copy, Drop)]
struct Node {
    /// The column in which it stands at least.
    column: usize,
    /// How many arrows from boxes that aren't visited lead to it.
    waits_for: usize,
    /// Whether it was visited.
    is_visited: bool,
}

/// The column of each of so many boxes: one more than the largest of those that arrows into it come from, where an arrow that closes
/// a circle doesn't count. A box without arrows into it stands just before the first that it leads to. The error is
/// that memory was refused.
pub(crate) fn columns(alloc: Global, count: usize, links: &[Ends]) -> Result<Vec<usize>, Memory> {
    let mut nodes = nodes(alloc, count, links)?;
    let mut ready = ready(alloc, &nodes)?;
    for turn in 0..count {
        if ready.len() <= turn {
            open_circle(&nodes, &mut ready)?;
        }
        if let Some(number) = ready.get(turn) {
            let number = *number;
            visit(number, links, &mut nodes, &mut ready)?;
        }
    }
    last_columns(alloc, &nodes, links)
}

/// So many boxes, none of which was visited.
fn nodes(alloc: Global, count: usize, links: &[Ends]) -> Result<Vec<Node>, Memory> {
    let mut nodes = Vec::new(alloc);
    for number in 0..count {
        let waits_for = links
            .iter()
            .filter(|link| link.target == number && link.source != number)
            .count();
        nodes.push(Node {
            column: 0,
            waits_for,
            is_visited: false,
        })?;
    }
    Ok(nodes)
}

/// The boxes that no other leads to.
fn ready(alloc: Global, nodes: &[Node]) -> Result<Vec<usize>, Memory> {
    let mut ready = Vec::new(alloc);
    for (number, node) in nodes.iter().enumerate() {
        if node.waits_for == 0 {
            ready.push(number)?;
        }
    }
    Ok(ready)
}

/// Makes the first box that wasn't visited ready: it opens a circle.
fn open_circle(nodes: &[Node], ready: &mut Vec<usize>) -> Result<(), Memory> {
    if let Some(number) = nodes.iter().position(|node| !node.is_visited) {
        ready.push(number)?;
    }
    Ok(())
}

/// Visits a box: those that it leads to stand after it, and are ready where they wait for no other.
fn visit(
    number: usize,
    links: &[Ends],
    nodes: &mut [Node],
    ready: &mut Vec<usize>,
) -> Result<(), Memory> {
    let Some(node) = nodes.get_mut(number) else {
        return Ok(());
    };
    node.is_visited = true;
    let behind = node.column.saturating_add(1);
    for link in links {
        if link.source == number {
            reach(link.target, behind, nodes, ready)?;
        }
    }
    Ok(())
}

/// Puts a box that wasn't visited into this column at least.
fn reach(
    number: usize,
    column: usize,
    nodes: &mut [Node],
    ready: &mut Vec<usize>,
) -> Result<(), Memory> {
    let Some(node) = nodes.get_mut(number) else {
        return Ok(());
    };
    if node.is_visited {
        return Ok(());
    }
    node.column = node.column.max(column);
    node.waits_for = node.waits_for.saturating_sub(1);
    if node.waits_for == 0 {
        ready.push(number)?;
    }
    Ok(())
}

/// The columns of boxes, all of which were visited.
fn last_columns(alloc: Global, nodes: &[Node], links: &[Ends]) -> Result<Vec<usize>, Memory> {
    let mut columns = Vec::new(alloc);
    for (number, node) in nodes.iter().enumerate() {
        columns.push(last_column(number, node, nodes, links))?;
    }
    Ok(columns)
}

/// The column of a box: just before the first that it leads to, if no other leads to it.
fn last_column(number: usize, node: &Node, nodes: &[Node], links: &[Ends]) -> usize {
    if links
        .iter()
        .any(|link| link.target == number && link.source != number)
    {
        return node.column;
    }
    let mut first = None;
    for link in links {
        if link.source == number && link.target != number {
            first = nearer(first, column_at(nodes, link.target));
        }
    }
    first.map_or(node.column, |column: usize| column.saturating_sub(1))
}

/// The smaller of two columns, of which the first may be none.
fn nearer(first: Option<usize>, column: usize) -> Option<usize> {
    match first {
        Some(before) => Some(before.min(column)),
        None => Some(column),
    }
}

/// The column of the box with this number.
fn column_at(nodes: &[Node], number: usize) -> usize {
    nodes.get(number).map_or(0, |node| node.column)
}
