//! Reads the steps of a trail's file, lent from its bytes.
ghost use Rattle.std.specs.Prelude.{◌≡◌, All, IfOk, MatchOption, map};
ghost use Rattle.trail_file.specs.Text.{recovered};
ghost use Rattle.trail_words.specs.Printing as printing;
ghost use Rattle.trail_words.specs.Printing.{HasNoHead, IsRest};
ghost use Rattle.trail_words.specs.Wanting as spec;
ghost use Rattle.trail_words.specs.Wanting.{HasMoment, IsHeaded};

use crate::notes::seconds_in;
use crate::steps::TrailStep;
use cosem_data::memory::Memory;
use std::alloc::Global;
use trail_file::head::Head;
use trail_file::reading::first_entry;

/// The open latch.
const OPEN: u8 = b'#';

/// The entries of a file that are whole, and what stands behind them.
#[derive(Drop)]
pub(crate) struct Entries<'a> {
    pub steps: Vec<TrailStep<'a>>,
    pub rest: &'a [u8],
}

/// Reads the entries of a file that are whole. The error is that memory was refused.
pub(crate) fn read_entries<'a>(alloc: Global, file: &'a [u8]) -> Result<Entries<'a>, Memory>
    ensures entries { IfOk result (λ r. recovered file.now ≡ map spec.entry_of r.steps.items) }
    ensures moments { IfOk result (λ r. All HasMoment r.steps.items) }
    ensures rest { IfOk result (λ r. IsRest file.now r.rest.now) }
{
    let mut steps = Vec::new(alloc);
    let mut rest = file;
    'entries: while let Some((note, line, after)) = first_entry(rest) {
        steps.push(TrailStep {
            seconds: seconds_in(note),
            note,
            line,
        })?;
        rest = after;
    }
    Ok(Entries { steps, rest })
}

/// The head that the first of these entries is, and those behind it.
pub(crate) fn headed<'s, 'a>(entries: &'s [TrailStep<'a>]) -> Option<(Head, &'s [TrailStep<'a>])>
    ensures { MatchOption result (HasNoHead (map spec.entry_of entries.now)) (λ r. IsHeaded entries.now r.0 r.1.now) }
{
    let (first, steps) = entries.split_first()?;
    let head = Head::of_entry(first.note, first.line)?;
    Some((head, steps))
}

/// Whether what stands behind the entries that are whole is an open latch before an entry that isn't.
pub(crate) fn is_cut(rest: &[u8]) -> bool
    ensures { result ≡ printing.is_cut rest.now }
{
    matches!(rest, [OPEN, _, ..])
}
