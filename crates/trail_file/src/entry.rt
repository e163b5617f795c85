//! The entries of a trail's file, and how they are spelled.
ghost use Rattle.std.specs.Prelude.{◌≡◌, ◌++◌, ◌∷◌, [], true, IfOk, OnOk, OnErr};
ghost use Rattle.trail_file.specs.Text as spec;
ghost use Rattle.trail_file.specs.Text.{block, recovered};
ghost use Rattle.trail_file.specs.Rest.{IsBatch};

use crate::latch::{NEWLINE, OPEN};
use crate::reading::split_line;
use std::alloc::{AllocError, Global};

/// An entry: two lines, of which the first is a comment. Neither has its newline.
#[derive(Drop)]
pub struct Entry {
    /// What is told of the line, without the latch before it.
    pub note: Vec<u8>,
    pub line: Vec<u8>,
}

/// Whether a text may be a note or a line: it has no newline.
pub fn is_one_line(text: &[u8]) -> bool
    ensures { result ≡ spec.is_one_line text.now }
{
    match split_line(text) {
        Some(_) => false,
        None => true,
    }
}

/// Puts an entry behind a batch, which is empty or has entries. Where memory is refused it is as it was.
pub fn push_entry(
    alloc: Global,
    batch: &mut Vec<u8>,
    note: &[u8],
    line: &[u8],
) -> Result<(), AllocError>
    requires note { spec.is_one_line note.now ≡ true }
    requires line { spec.is_one_line line.now ≡ true }
    ensures put { OnOk result (batch.new.items ≡ batch.old.items ++ block note.now line.now) }
    ensures batch { IsBatch batch.old.items → IsBatch batch.new.items }
    ensures entry { OnOk result (IsBatch batch.old.items
        → recovered batch.new.items ≡ recovered batch.old.items ++ (note.now, line.now) ∷ []) }
    // The first entry makes a batch.
    ensures first { OnOk result (batch.old.items ≡ [] → IsBatch batch.new.items
        × (recovered batch.new.items ≡ (note.now, line.now) ∷ [])) }
    ensures err { OnErr result (batch.new.items ≡ batch.old.items) }
{
    let entry = batch_of(alloc, note, line)?;
    batch.extend_from_slice(&entry)
}

/// A batch of one entry.
pub fn batch_of(alloc: Global, note: &[u8], line: &[u8]) -> Result<Vec<u8>, AllocError>
    requires note { spec.is_one_line note.now ≡ true }
    requires line { spec.is_one_line line.now ≡ true }
    ensures bytes { IfOk result (λ v. v.items ≡ block note.now line.now) }
    ensures batch { IfOk result (λ v. IsBatch v.items) }
    ensures entry { IfOk result (λ v. recovered v.items ≡ (note.now, line.now) ∷ []) }
{
    let bytes = spelled(alloc, note, line)?;
    Ok(bytes)
}

/// The bytes of an entry behind an open latch.
fn spelled(alloc: Global, note: &[u8], line: &[u8]) -> Result<Vec<u8>, AllocError>
    ensures { IfOk result (λ v. v.items ≡ block note.now line.now) }
{
    let mut bytes = Vec::new(alloc);
    bytes.push(OPEN)?;
    bytes.extend_from_slice(note)?;
    bytes.push(NEWLINE)?;
    bytes.extend_from_slice(line)?;
    bytes.push(NEWLINE)?;
    Ok(bytes)
}
