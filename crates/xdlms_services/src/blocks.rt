//! Values in blocks, where one APDU hasn't the room: Get-Response-With-Datablock of IEC 62056-5-3.
ghost use Rattle.std.specs.Prelude.{◌≡◌, ◌<◌, ◌≤◌, ◌^◌, ◌++◌, ◌↔◌, length, vec_len, IfOk, OnErr, OnOk, IsTrue};
ghost use Rattle.cosem_axdr.specs.Canonical.{canonical, shortest, HasLengths};
ghost use Rattle.cosem_data.specs.View.{tree};
ghost use Rattle.xdlms_services.specs.Blocks.{block_bytes, most_raw, start, behind, next_block};
ghost use Rattle.xdlms_services.specs.BlockFaults.{fault_number, fault_block_bytes};

use crate::writing::GET_RESPONSE;
use cosem_axdr::writing::write_data;
use cosem_data::data::Data;
use cosem_data::memory::Memory;
use std::alloc::Global;
use std::marker::Model;

/// The form of a reply that is a block.
const WITH_DATABLOCK: u8 = 2;

/// The choice of a block's result: raw bytes, or a Data-Access-Result.
const RAW_DATA: u8 = 0;

const RESULT: u8 = 1;

/// How many bytes stand in front of the length of the raw bytes.
const FRONT_LENGTH: usize = 9;

/// Why no block is sent (IEC 62056-5-3, Data-Access-Result).
#[derive(Clone, Copy, Debug, PartialEq, Eq)]
pub enum BlockFault {
    /// A next block was asked for where none is left, or none was begun: no-long-get-in-progress.
    NoLongGet,
    /// The number isn't that of the block that was sent last: data-block-number-invalid.
    NumberInvalid,
}

impl BlockFault {
    /// The number of the result (IEC 62056-5-3, Data-Access-Result).
    pub fn number(self) -> u8
        ensures { result ≡ fault_number self }
    {
        match self {
            BlockFault::NoLongGet => 16,
            BlockFault::NumberInvalid => 19,
        }
    }
}

/// The blocks of one value's encoding, of which some are left or none (IEC 62056-5-3, Get-Response-With-Datablock). The encoding is
/// taken once, so that what the meter does between two blocks doesn't change them.
///
/// Contracts see what is unsent, the number of the block that was sent last, and the limit.
#[derive(Debug, Drop)]
pub struct LongGet {
    encoding: Vec<u8>,
    sent: usize,
    number: u32,
    limit: u16,
}

impl Model for LongGet {
    ghost use Rattle.std.specs.Prelude.{drop};
    ghost use Rattle.xdlms_services.specs.Blocks.{Transfer, IsLongGet};

    ghost Value = { Transfer };

    ghost view = { λ a.
        record { unsent = drop a.sent a.encoding.items; number = a.number; limit = a.limit } };

    ghost invariant = { λ a. IsLongGet a.encoding.items a.sent a.number a.limit };
}

impl LongGet {
    /// The blocks of a value, each in an APDU of at most `limit` bytes, from 16 to 1,024. None is sent yet.
    ///
    /// # Errors
    /// `Memory` where memory is refused.
    pub fn new(alloc: Global, value: &Data, limit: u16) -> Result<LongGet, Memory>
        requires lengths { HasLengths (tree value.now) }
        // The number of each block fits its four bytes, since a block takes a byte at least.
        requires numbers { length (canonical (tree value.now)) < 2 ^ 32 }
        requires room { 16 ≤ limit }
        requires bounded { limit ≤ 1024 }
        ensures { IfOk result (λ long. long ≡ start (tree value.now) limit) }
    {
        let mut encoding = Vec::new(alloc);
        write_data(value, &mut encoding)?;
        Ok(LongGet {
            encoding,
            sent: 0,
            number: 0,
            limit,
        })
    }

    /// The number of the block that was sent last, 0 before the first.
    pub fn number(&self) -> u32
        ensures { result ≡ self.now.number }
    {
        self.number
    }

    /// Whether a block is left.
    pub fn left(&self) -> bool
        ensures { IsTrue result ↔ (0 < length self.now.unsent) }
    {
        self.sent < self.encoding.len()
    }

    /// The next block as an APDU, with the invoke byte of the request that it answers. It takes as many bytes of what is unsent as the
    /// limit has room for.
    ///
    /// # Errors
    /// `Memory` where memory is refused; nothing is sent then, and the same block is next.
    pub fn block(&mut self, alloc: Global, invoke: u8) -> Result<Vec<u8>, Memory>
        requires { 0 < length self.old.unsent }
        ensures ok { IfOk result (λ apdu. apdu.items ≡ block_bytes invoke (next_block self.old)) }
        ensures next { OnOk result (self.new ≡ behind self.old) }
        ensures fits { IfOk result (λ apdu. vec_len apdu ≤ self.old.limit) }
        ensures err { OnErr result (self.new ≡ self.old) }
    {
        let unsent = &self.encoding[self.sent..];
        let count = most_raw(self.limit).min(unsent.len());
        let is_last = count == unsent.len();
        let number = self.number + 1;
        let apdu = raw_block(alloc, invoke, is_last, number, &unsent[..count])?;
        self.sent += count;
        self.number = number;
        Ok(apdu)
    }
}

/// The most raw bytes of a block that keeps within the limit.
fn most_raw(limit: u16) -> usize
    requires room { 16 ≤ limit }
    requires bounded { limit ≤ 1024 }
    ensures { result ≡ most_raw limit }
{
    let room = usize::from(limit) - FRONT_LENGTH;
    if room <= 128 {
        room - 1
    } else if room <= 257 {
        room - 2
    } else {
        room - 3
    }
}

/// The APDU of a block.
fn raw_block(
    alloc: Global,
    invoke: u8,
    is_last: bool,
    number: u32,
    raw: &[u8],
) -> Result<Vec<u8>, Memory>
    requires { length raw.now < 2 ^ 16 }
    ensures { IfOk result (λ apdu. apdu.items
        ≡ block_bytes invoke (record { is_last = is_last; number = number; raw = raw.now })) }
{
    let mut apdu = Vec::with_capacity(alloc, FRONT_LENGTH + 3 + raw.len())?;
    apdu.extend_from_slice(&[GET_RESPONSE, WITH_DATABLOCK, invoke, u8::from(is_last)])?;
    apdu.extend_from_slice(&number.to_be_bytes())?;
    apdu.push(RAW_DATA)?;
    put_length(raw.len() as u16, &mut apdu)?;
    apdu.extend_from_slice(raw)?;
    Ok(apdu)
}

/// The shortest form of a length behind what is there.
#[tactic(auto, unfolding(cosem_axdr::specs::Canonical::shortest))]
fn put_length(n: u16, out: &mut Vec<u8>) -> Result<(), Memory>
    ensures { OnOk result (out.new.items ≡ out.old.items ++ shortest n) }
{
    let [high, low] = n.to_be_bytes();
    if n < 128 {
        out.push(low)?;
    } else if n < 0x100 {
        out.extend_from_slice(&[0x81, low])?;
    } else {
        out.extend_from_slice(&[0x82, high, low])?;
    }
    Ok(())
}

/// The APDU of the answer where no block is sent, with the invoke byte of the request that it answers and the block number that stood
/// there (IEC 62056-5-3, Get-Response-With-Datablock).
///
/// # Errors
/// `Memory` where memory is refused.
pub fn fault_block(
    alloc: Global,
    invoke: u8,
    number: u32,
    fault: BlockFault,
) -> Result<Vec<u8>, Memory>
    ensures { IfOk result (λ apdu. apdu.items ≡ fault_block_bytes invoke number fault) }
{
    let mut apdu = Vec::with_capacity(alloc, FRONT_LENGTH + 1)?;
    apdu.extend_from_slice(&[GET_RESPONSE, WITH_DATABLOCK, invoke, u8::from(true)])?;
    apdu.extend_from_slice(&number.to_be_bytes())?;
    apdu.extend_from_slice(&[RESULT, fault.number()])?;
    Ok(apdu)
}
