//! Reads the entries of a file's bytes.
ghost use Rattle.std.specs.Prelude.{◌≡◌, ◌≤◌, ◌++◌, ◌∷◌, [], true, drop, length, map, take, IfOk, MatchOption};
ghost use Rattle.trail_file.specs.Text.{entry_of, is_one_line, lacks, recovered};
ghost use Rattle.trail_file.specs.Rest.{IsFront};

use crate::entry::Entry;
use crate::latch::{NEWLINE, OPEN};
use std::alloc::{AllocError, Global};

/// The entries that are whole, and how many bytes they take.
pub fn read_entries(alloc: Global, bytes: &[u8]) -> Result<(Vec<Entry>, usize), AllocError>
    ensures entries { IfOk result (λ r. map entry_of r.0.items ≡ recovered bytes.now) }
    ensures within { IfOk result (λ r. r.1 ≤ length bytes.now) }
    ensures front { IfOk result (λ r. IsFront (take r.1 bytes.now) (recovered bytes.now)) }
{
    let mut entries = Vec::new(alloc);
    let mut rest = bytes;
    'entries: while let Some((note, line, after)) = first_entry(rest) {
        entries.push(Entry {
            note: note.to_vec(alloc)?,
            line: line.to_vec(alloc)?,
        })?;
        rest = after;
    }
    Ok((entries, bytes.len() - rest.len()))
}

/// The note and the line of the first entry, and what follows it.
pub fn first_entry(bytes: &[u8]) -> Option<(&[u8], &[u8], &[u8])>
    ensures { MatchOption result (recovered bytes.now ≡ [])
        (λ r. (bytes.now ≡ 35 ∷ (r.0.now ++ 10 ∷ (r.1.now ++ 10 ∷ r.2.now)))
        × (is_one_line r.0.now ≡ true) × (is_one_line r.1.now ≡ true)) }
{
    let (latch, behind) = bytes.split_first()?;
    if *latch != OPEN {
        return None;
    }
    entry_behind(behind)
}

/// How many entries bytes have that begin with a latch, taken for an open one.
pub(crate) fn count_behind(bytes: &[u8]) -> usize
    ensures { result ≡ length (recovered (35 ∷ drop 1 bytes.now)) }
{
    let [_, behind @ ..] = bytes else {
        return 0;
    };
    let Some((_, _, mut rest)) = entry_behind(behind) else {
        return 0;
    };
    let mut count = 1;
    'counted: while let Some((_, _, after)) = first_entry(rest) {
        count += 1;
        rest = after;
    }
    count
}

/// The note and the line of an entry behind its open latch, and what follows it.
fn entry_behind(behind: &[u8]) -> Option<(&[u8], &[u8], &[u8])>
    ensures { MatchOption result (recovered (35 ∷ behind.now) ≡ [])
        (λ r. (behind.now ≡ r.0.now ++ 10 ∷ (r.1.now ++ 10 ∷ r.2.now))
        × (is_one_line r.0.now ≡ true) × (is_one_line r.1.now ≡ true)) }
{
    let Some((note, below)) = split_line(behind) else {
        return None;
    };
    let Some((line, after)) = split_line(below) else {
        return None;
    };
    Some((note, line, after))
}

/// What stands before the first newline, and what stands behind it.
pub(crate) fn split_line(bytes: &[u8]) -> Option<(&[u8], &[u8])>
    ensures { MatchOption result (is_one_line bytes.now ≡ true)
        (λ r. (bytes.now ≡ r.0.now ++ 10 ∷ r.1.now) × (is_one_line r.0.now ≡ true)) }
{
    split_at(NEWLINE, bytes)
}

/// What stands before the first of these bytes, and what stands behind it.
pub(crate) fn split_at(mark: u8, bytes: &[u8]) -> Option<(&[u8], &[u8])>
    ensures { MatchOption result (lacks mark bytes.now ≡ true)
        (λ r. (bytes.now ≡ r.0.now ++ mark ∷ r.1.now) × (lacks mark r.0.now ≡ true)) }
{
    for i in 0..bytes.len() {
        if bytes[i] == mark {
            return Some((&bytes[..i], &bytes[i + 1..]));
        }
    }
    None
}
