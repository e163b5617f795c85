//! The report as a page for a browser.
ghost use Rattle.std.specs.Prelude.{◌≡◌, ◌++◌, IfOk, OnOk, flat_map, map, option_map, string_bytes};
ghost use Rattle.label_certificate.specs.LabelText.{cell_place};
ghost use Rattle.flow_forms.specs.Html.{IsHtml, listed, numbers_in, numbers_of};

use cosem_data::cell::CellRef;
use cosem_data::memory::Memory;
use flow_changes::compare::Comparison;
use flow_map::outline::Outline;
use flow_page::matrix::MatrixRow;
use flow_page::page::Heading;
use flow_page::page_text::page_text;
use flow_page::view::page::page_of;
use flow_picture::drawing::picture::picture_of;
use flow_picture::svg::picture_text;
use flow_ways::ways::Ways;
use std::alloc::Global;

/// The report of a plan's ways and a policy as a page for a browser, under this heading, and with what has changed against the
/// configuration before where that is known: whole in itself, the same bytes for the same configurations (own profile).
///
/// # Errors
/// Memory was refused.
pub fn html_text(
    alloc: Global,
    ways: &Ways<'_>,
    changes: Option<&Comparison<'_>>,
    heading: Heading,
) -> Result<String, Memory>
    ensures { IfOk result (λ text. IsHtml ways.now.plan ways.now.policy (option_map (λ c. c.now) changes.entry) heading
        (string_bytes text)) }
{
    let page = page_of(alloc, ways, heading, changes)?;
    let groups = groups_of(alloc, ways.plan(), &page.rows)?;
    let picture = picture_of(alloc, ways, &groups)?;
    let drawn = picture_text(alloc, &picture)?;
    page_text(alloc, &page, drawn.as_str())
}

/// The numbers of the cells of each row.
fn groups_of(
    alloc: Global,
    plan: &Outline<'_>,
    rows: &[MatrixRow],
) -> Result<Vec<Vec<usize>>, Memory>
    ensures { IfOk result (λ groups. map (λ group. group.items) groups.items ≡ numbers_of plan.now rows.now) }
{
    let mut groups = Vec::with_capacity(alloc, rows.len())?;
    for row in rows {
        groups.push(numbers_in(alloc, plan, &row.cells)?)?;
    }
    Ok(groups)
}

/// The numbers that these cells have in a plan.
fn numbers_in(alloc: Global, plan: &Outline<'_>, cells: &[CellRef]) -> Result<Vec<usize>, Memory>
    ensures { IfOk result (λ numbers. numbers.items ≡ numbers_in plan.now cells.now) }
{
    let mut numbers = Vec::with_capacity(alloc, cells.len())?;
    for cell in cells {
        push_number(plan, cell, &mut numbers)?;
    }
    Ok(numbers)
}

/// Puts the number that a cell has in a plan behind others.
fn push_number(plan: &Outline<'_>, cell: &CellRef, numbers: &mut Vec<usize>) -> Result<(), Memory>
    ensures { OnOk result (numbers.new.items ≡ numbers.old.items ++ listed (cell_place plan.now cell.now)) }
{
    match plan.cell_number(cell) {
        Some(number) => Ok(numbers.push(usize::from(number))?),
        None => Ok(()),
    }
}
