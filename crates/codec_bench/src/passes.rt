//! Passes over the bytes of an input. Each function tells how many bytes its passes handled together.
ghost use Rattle.std.specs.Prelude.{◌≡◌, ◌≢◌, ◌≤◌, ◌<◌, ◌*◌, ◌++◌, List, ℕ, length, IfOk, IfErr, IsErr, OnOk, MatchResult};
ghost use Rattle.cosem_data.specs.Tree.{Tree, depth};
ghost use Rattle.cosem_data.specs.View.{tree};
ghost use Rattle.cosem_axdr.specs.Grammar.{IsEncoding, BeginsWithNone};
ghost use Rattle.cosem_axdr.specs.Canonical.{canonical};
ghost use Rattle.codec_bench.specs.Passes.{OfFront, Handles, FailsBy};

use crate::command::{Command, Pass};
use crate::fault::Fault;
use crate::limits::MOST_BYTES;
use cosem_axdr::fault::ReadFault;
use cosem_axdr::limits::is_encoded_within;
use cosem_axdr::reading::read_data;
use cosem_axdr::writing::write_data;
use cosem_data::data::Data;
use cosem_data::memory::Memory;
use std::alloc::Global;

/// Puts the bytes behind what is there, one after the other.
fn copy_into(bytes: &[u8], copy: &mut Vec<u8>) -> Result<(), Memory>
    ensures { OnOk result (copy.new.items ≡ copy.old.items ++ bytes.now) }
{
    for byte in bytes {
        copy.push(*byte)?;
    }
    Ok(())
}

/// Copies the bytes so many times, by a plain loop that pushes one after the other into a vector
/// that has the room for all.
pub(crate) fn copy_passes(alloc: Global, bytes: &[u8], times: u32) -> Result<u64, Memory>
    requires { length bytes.now ≤ MOST_BYTES }
    ensures { IfOk result (λ total. total ≡ times * length bytes.now) }
{
    let mut copy = Vec::with_capacity(alloc, bytes.len())?;
    let mut total = 0u64;
    for _ in 0..times {
        copy.clear();
        copy_into(bytes, &mut copy)?;
        total += copy.len() as u64;
    }
    Ok(total)
}

/// Reads the value in front of the bytes so many times.
///
/// # Errors
/// That of `read_data`.
pub(crate) fn read_passes(alloc: Global, bytes: &[u8], times: u32) -> Result<u64, ReadFault>
    requires { length bytes.now ≤ MOST_BYTES }
    // Each pass handles the encoding in front, and only want of memory keeps it from that.
    ensures only { OfFront bytes.now (λ t front.
        MatchResult result (λ total. total ≡ times * length front) (λ fault. fault ≡ ReadFault.Memory)) }
    // Where none is in front, no pass succeeds.
    ensures none { BeginsWithNone bytes.now → 0 < times → IsErr result }
{
    let mut total = 0u64;
    for _ in 0..times {
        let (_, used) = read_data(alloc, bytes)?;
        total += used as u64;
    }
    Ok(total)
}

/// Writes the value so many times.
pub(crate) fn write_passes(alloc: Global, value: &Data, times: u32) -> Result<u64, Memory>
    requires { length (canonical (tree value.now)) ≤ MOST_BYTES }
    ensures { IfOk result (λ total. total ≡ times * length (canonical (tree value.now))) }
{
    let mut bytes = Vec::new(alloc);
    let mut total = 0u64;
    for _ in 0..times {
        bytes.clear();
        write_data(value, &mut bytes)?;
        total += bytes.len() as u64;
    }
    Ok(total)
}

/// Runs the passes of the command over the bytes.
///
/// # Errors
/// `Unreadable` where a value is wanted and no encoding of one is in front of the bytes, `TooLong`
/// where its shortest encoding has more than `MOST_BYTES` bytes, `Memory` where memory is refused.
pub(crate) fn run(alloc: Global, command: Command, bytes: &[u8]) -> Result<u64, Fault>
    requires { length bytes.now ≤ MOST_BYTES }
    ensures ok { IfOk result (Handles command.pass command.times bytes.now) }
    ensures none { BeginsWithNone bytes.now → command.pass ≢ Pass.Copy → 0 < command.times
        → IsErr result }
    ensures err { IfErr result (FailsBy command.pass bytes.now) }
{
    match command.pass {
        Pass::Copy => Ok(copy_passes(alloc, bytes, command.times)?),
        Pass::Read => Ok(read_passes(alloc, bytes, command.times)?),
        Pass::Write => {
            let (value, _) = read_data(alloc, bytes)?;
            if !is_encoded_within(&value, MOST_BYTES) {
                return Err(Fault::TooLong);
            }
            Ok(write_passes(alloc, &value, command.times)?)
        }
    }
}
