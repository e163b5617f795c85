//! Texts that are written whole, or told not to be (own profile).
#![tactic(auto)]

ghost use Rattle.std.specs.Prelude.{◌≡◌, ◌++◌, ◌<◌, ◌≤◌, List, ℕ, [], length, OnOk, OnErr};
ghost use Rattle.std.specs.Io.KnownBytes.{Appends};

pub mod fault;

use std::io::Write;

/// Where more bytes than these wait, they are written.
const FULL: usize = 65536;

/// A write failed, or took no byte.
#[derive(Clone, Copy, Debug, PartialEq, Eq)]
pub struct WriteFailed;

/// Writes all bytes. A write that fails or takes no byte is not tried again.
pub fn write_whole<W: Write>(writer: &mut W, bytes: &[u8]) -> Result<(), WriteFailed>
    ensures ok { OnOk result (Appends (W.contents writer.old) (W.contents writer.new) bytes.now) }
    // A beginning was written, and something is left.
    ensures err { OnErr result ((front : List ℕ) × (left : List ℕ) × (bytes.now ≡ front ++ left)
        × Appends (W.contents writer.old) (W.contents writer.new) front
        × (0 < length left)) }
{
    let mut rest = bytes;
    while !rest.is_empty() {
        match writer.write(rest) {
            Ok(0) | Err(_) => return Err(WriteFailed),
            Ok(count) => rest = &rest[count..],
        }
    }
    Ok(())
}

/// Writes the texts that wait, and none waits then: what a write that fails leaves is lost, and is not tried again.
pub fn write_waiting<W: Write>(waiting: &mut Vec<u8>, writer: &mut W) -> Result<(), WriteFailed>
    ensures emptied { waiting.new.items ≡ [] }
    ensures ok { OnOk result
        (Appends (W.contents writer.old) (W.contents writer.new) waiting.old.items) }
    // A beginning was written, and something is left.
    ensures err { OnErr result ((front : List ℕ)
        × (left : List ℕ) × (waiting.old.items ≡ front ++ left)
        × Appends (W.contents writer.old) (W.contents writer.new) front
        × (0 < length left)) }
{
    let written = write_whole(writer, waiting);
    waiting.clear();
    written
}

/// Writes the texts that wait, where they are more than 64 KiB.
pub fn write_full<W: Write>(waiting: &mut Vec<u8>, writer: &mut W) -> Result<(), WriteFailed>
    // A front was written, and what is left waits.
    ensures ok { OnOk result ((front : List ℕ)
        × Appends (W.contents writer.old) (W.contents writer.new) front
        × (waiting.old.items ≡ front ++ waiting.new.items)) }
    ensures few { OnOk result (length waiting.new.items ≤ 65536) }
    // A beginning was written, and something is left, which is lost.
    ensures err { OnErr result ((front : List ℕ)
        × (left : List ℕ) × (waiting.old.items ≡ front ++ left)
        × Appends (W.contents writer.old) (W.contents writer.new) front
        × (0 < length left)) }
    ensures emptied { OnErr result (waiting.new.items ≡ []) }
{
    if waiting.len() > FULL {
        write_waiting(waiting, writer)
    } else {
        Ok(())
    }
}
