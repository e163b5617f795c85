//! Which rows of a profile came and which went, and the lines that tell it.
ghost use Rattle.std.specs.Prelude.{◌≡◌, ◌++◌, codes, drop, map, OnOk};
ghost use Rattle.std.specs.Fmt.{decimal};
ghost use Rattle.value_words.specs.Words.{value_words};
ghost use Rattle.cosem_data.specs.View.{tree};
ghost use Rattle.line_words.specs.Changes as spec;

use crate::cut::push_cut;
use cosem_data::cell::CellRef;
use cosem_data::data::Data;
use cosem_data::memory::Memory;
use std::alloc::Global;
use value_text::cell::push_cell;
use value_words::writing::push_value;

/// The rows behind so many.
fn behind(count: usize, rows: &[Data]) -> &[Data]
    ensures { result.now ≡ drop count rows.now }
{
    rows.get(count..).unwrap_or(&[])
}

/// Whether rows begin with others.
fn begins(older: &[Data], newer: &[Data]) -> bool
    ensures { result ≡ spec.begins (map tree older.now) (map tree newer.now) }
{
    match newer.get(..older.len()) {
        Some(front) => front == older,
        None => false,
    }
}

/// How many of the older rows went: so few that the newer ones begin with the others.
#[tactic(auto, using(crate::proofs::Gone::lost_here, crate::proofs::Gone::lost_more))]
fn lost(older: &[Data], newer: &[Data]) -> usize
    ensures { result ≡ spec.lost (map tree older.now) (map tree newer.now) }
{
    for count in 0..older.len() {
        if begins(behind(count, older), newer) {
            return count;
        }
    }
    older.len()
}

/// Puts the line of a cell with these words behind others.
#[tactic(auto, unfolding(crate::specs::Changes::change_line))]
pub(crate) fn push_change_line(
    alloc: Global,
    cell: &CellRef,
    words: &[u8],
    lines: &mut Vec<u8>,
) -> Result<(), Memory>
    ensures { OnOk result (lines.new.items ≡ lines.old.items ++ spec.change_line cell.now words.now) }
{
    let mut line = Vec::new(alloc);
    line.extend_from_slice(b"  ")?;
    push_cell(alloc, cell, &mut line)?;
    line.extend_from_slice(words)?;
    line.push(b'\n')?;
    push_cut(alloc, &line, lines)
}

/// Puts the line of a cell with these words and a value behind others.
pub(crate) fn push_value_line(
    alloc: Global,
    cell: &CellRef,
    words: &[u8],
    value: &Data,
    lines: &mut Vec<u8>,
) -> Result<(), Memory>
    ensures { OnOk result (lines.new.items
        ≡ lines.old.items ++ spec.change_line cell.now (words.now ++ value_words (tree value.now))) }
{
    let mut told = Vec::from_slice(alloc, words)?;
    push_value(alloc, value, &mut told)?;
    push_change_line(alloc, cell, &told, lines)
}

/// Puts the line of a cell with a count of rows behind others.
fn push_count_line(
    alloc: Global,
    cell: &CellRef,
    words: &str,
    count: usize,
    lines: &mut Vec<u8>,
) -> Result<(), Memory>
    ensures { OnOk result (lines.new.items
        ≡ lines.old.items ++ spec.change_line cell.now (words.now ++ (decimal count ++ codes " rows"))) }
{
    let told = format!(in alloc; "{words}{count} rows")?;
    push_change_line(alloc, cell, told.as_bytes(), lines)
}

/// Puts the line of rows that came behind others.
fn push_came(
    alloc: Global,
    cell: &CellRef,
    rows: &[Data],
    lines: &mut Vec<u8>,
) -> Result<(), Memory>
    ensures { OnOk result (lines.new.items ≡ lines.old.items ++ spec.came_line cell.now (map tree rows.now)) }
{
    match rows {
        [] => Ok(()),
        [row] => push_value_line(alloc, cell, b" got the row ", row, lines),
        _ => push_count_line(alloc, cell, " got ", rows.len(), lines),
    }
}

/// Puts the line of so many rows that went, of these, behind others.
fn push_gone(
    alloc: Global,
    cell: &CellRef,
    count: usize,
    rows: &[Data],
    lines: &mut Vec<u8>,
) -> Result<(), Memory>
    ensures { OnOk result (lines.new.items ≡ lines.old.items ++ spec.gone_line cell.now count (map tree rows.now)) }
{
    match (rows, count) {
        ([], _) | (_, 0) => Ok(()),
        ([row, ..], 1) => push_value_line(alloc, cell, b" lost the row ", row, lines),
        _ => push_count_line(alloc, cell, " lost ", count, lines),
    }
}

/// Puts the lines of the rows that came and of those that went behind others.
#[tactic(auto, unfolding(crate::specs::Changes::row_lines))]
pub(crate) fn push_rows(
    alloc: Global,
    cell: &CellRef,
    older: &[Data],
    newer: &[Data],
    lines: &mut Vec<u8>,
) -> Result<(), Memory>
    ensures { OnOk result (lines.new.items
        ≡ lines.old.items ++ spec.row_lines cell.now (map tree older.now) (map tree newer.now)) }
{
    let gone = lost(older, newer);
    let came = behind(older.len().saturating_sub(gone), newer);
    push_came(alloc, cell, came, lines)?;
    push_gone(alloc, cell, gone, older, lines)
}
