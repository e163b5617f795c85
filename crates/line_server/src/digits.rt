//! Hex digits, two a byte: a block at a time, and by tables where there is less than one.
ghost use Rattle.std.specs.Prelude.{◌≡◌, ◌↔◌, ◌+◌, ◌*◌, ◌≤◌, Some, None, Ok, IsTrue, cond, length, take, unwrap_or};
ghost use Rattle.std.specs.List.{AllPass};
ghost use Rattle.std.specs.Result.{result_ok};
ghost use Rattle.hex.specs.Hex.{decode_of, encode_upper, hex_digit_value, is_hex_digit};

use std::simd::prelude::*;

/// The upper case digits of the bytes from 00 to FF, one byte after another.
const PAIRS: [u8; 512] = *b"\
000102030405060708090A0B0C0D0E0F101112131415161718191A1B1C1D1E1F\
202122232425262728292A2B2C2D2E2F303132333435363738393A3B3C3D3E3F\
404142434445464748494A4B4C4D4E4F505152535455565758595A5B5C5D5E5F\
606162636465666768696A6B6C6D6E6F707172737475767778797A7B7C7D7E7F\
808182838485868788898A8B8C8D8E8F909192939495969798999A9B9C9D9E9F\
A0A1A2A3A4A5A6A7A8A9AAABACADAEAFB0B1B2B3B4B5B6B7B8B9BABBBCBDBEBF\
C0C1C2C3C4C5C6C7C8C9CACBCCCDCECFD0D1D2D3D4D5D6D7D8D9DADBDCDDDEDF\
E0E1E2E3E4E5E6E7E8E9EAEBECEDEEEFF0F1F2F3F4F5F6F7F8F9FAFBFCFDFEFF";

/// What no digit has for a value: too much for a byte, wherever it stands in a pair.
const NO_DIGIT: u32 = 256;

/// The value of each byte as a hex digit in either case, or `NO_DIGIT`.
const VALUES: [u32; 256] = [
    256, 256, 256, 256, 256, 256, 256, 256, 256, 256, 256, 256, 256, 256, 256, 256, 256, 256, 256,
    256, 256, 256, 256, 256, 256, 256, 256, 256, 256, 256, 256, 256, 256, 256, 256, 256, 256, 256,
    256, 256, 256, 256, 256, 256, 256, 256, 256, 256, 0, 1, 2, 3, 4, 5, 6, 7, 8, 9, 256, 256, 256,
    256, 256, 256, 256, 10, 11, 12, 13, 14, 15, 256, 256, 256, 256, 256, 256, 256, 256, 256, 256,
    256, 256, 256, 256, 256, 256, 256, 256, 256, 256, 256, 256, 256, 256, 256, 256, 10, 11, 12, 13,
    14, 15, 256, 256, 256, 256, 256, 256, 256, 256, 256, 256, 256, 256, 256, 256, 256, 256, 256,
    256, 256, 256, 256, 256, 256, 256, 256, 256, 256, 256, 256, 256, 256, 256, 256, 256, 256, 256,
    256, 256, 256, 256, 256, 256, 256, 256, 256, 256, 256, 256, 256, 256, 256, 256, 256, 256, 256,
    256, 256, 256, 256, 256, 256, 256, 256, 256, 256, 256, 256, 256, 256, 256, 256, 256, 256, 256,
    256, 256, 256, 256, 256, 256, 256, 256, 256, 256, 256, 256, 256, 256, 256, 256, 256, 256, 256,
    256, 256, 256, 256, 256, 256, 256, 256, 256, 256, 256, 256, 256, 256, 256, 256, 256, 256, 256,
    256, 256, 256, 256, 256, 256, 256, 256, 256, 256, 256, 256, 256, 256, 256, 256, 256, 256, 256,
    256, 256, 256, 256, 256, 256, 256, 256, 256, 256, 256, 256, 256, 256, 256, 256, 256, 256, 256,
    256, 256, 256,
];

/// How many bytes a block has: its digits fill one vector.
const BLOCK: usize = 8;

/// Fills the room with the upper case hex digits of the bytes, two a byte.
pub(crate) fn put_digits(bytes: &[u8], room: &mut [u8])
    requires { length room.old ≡ 2 * length bytes.now }
    ensures { room.new ≡ encode_upper bytes.now }
{
    if bytes.len() < BLOCK {
        put_few_digits(bytes, room);
        return;
    }
    for i in 0..(bytes.len() - 1) / BLOCK {
        put_block(bytes, BLOCK * i, room);
    }
    // The last block ends where the bytes do, and so begins within the one before unless they are
    // whole blocks: what both have is written twice, and no byte is left over.
    put_block(bytes, bytes.len() - BLOCK, room);
}

/// Puts the digits of the block that begins at `start` behind those of the bytes before it.
fn put_block(bytes: &[u8], start: usize, room: &mut [u8])
    requires room { length room.old ≡ 2 * length bytes.now }
    requires within { start + BLOCK ≤ length bytes.now }
    requires begun { take (2 * start) room.old ≡ encode_upper (take start bytes.now) }
    ensures { take (2 * (start + BLOCK)) room.new ≡ encode_upper (take (start + BLOCK) bytes.now) }
{
    digits_of(u8x8::from_slice(&bytes[start..])).copy_to_slice(&mut room[2 * start..]);
}

/// The upper case hex digits of a block.
fn digits_of(block: u8x8) -> u8x16
    ensures { result ≡ encode_upper block }
{
    let (high, low) = (block >> 4, block & u8x8::splat(15));
    // The halves of each byte side by side.
    let halves = high.shuffle(low, [0, 8, 1, 9, 2, 10, 3, 11, 4, 12, 5, 13, 6, 14, 7, 15]);
    let is_letter = halves.simd_gt(u8x16::splat(9));
    halves + is_letter.select(u8x16::splat(b'A' - 10), u8x16::splat(b'0'))
}

/// The same as `put_digits`, by a table: for less than a block.
fn put_few_digits(bytes: &[u8], room: &mut [u8])
    requires { length room.old ≡ 2 * length bytes.now }
    ensures { room.new ≡ encode_upper bytes.now }
{
    'bytes: for i in 0..bytes.len() {
        let place = 2 * usize::from(bytes[i]);
        room[2 * i] = PAIRS[place];
        room[2 * i + 1] = PAIRS[place + 1];
    }
}

/// Fills the room with the bytes of hex digits in either case, and says whether they are that.
pub(crate) fn take_digits(digits: &[u8], room: &mut [u8]) -> bool
    requires { length digits.now ≡ 2 * length room.old }
    ensures { cond result (Some room.new) None ≡ result_ok (decode_of digits.now) }
{
    if room.len() < BLOCK {
        return take_few_digits(digits, room);
    }
    for i in 0..(room.len() - 1) / BLOCK {
        if !take_block(digits, BLOCK * i, room) {
            return false;
        }
    }
    // The last block may begin within the one before, as in `put_digits`.
    take_block(digits, room.len() - BLOCK, room)
}

/// Puts the bytes of the block of digits that come to stand at `start` behind those before it, and
/// says whether the block is digits.
fn take_block(digits: &[u8], start: usize, room: &mut [u8]) -> bool
    requires room { length digits.now ≡ 2 * length room.old }
    requires within { start + BLOCK ≤ length room.old }
    requires begun { result_ok (decode_of (take (2 * start) digits.now)) ≡ Some (take start room.old) }
    ensures { cond result (Some (take (start + BLOCK) room.new)) None ≡ result_ok (decode_of (take (2 * (start + BLOCK)) digits.now)) }
{
    let block = u8x16::from_slice(&digits[2 * start..]);
    if !are_digits(block) {
        return false;
    }
    bytes_of(block).copy_to_slice(&mut room[start..]);
    true
}

/// Whether a block is hex digits in either case.
fn are_digits(block: u8x16) -> bool
    ensures { IsTrue result ↔ AllPass is_hex_digit block }
{
    // What is below the range wraps, and is above it then.
    let is_no_figure = (block - u8x16::splat(b'0')).simd_gt(u8x16::splat(9));
    // A letter of either case is a lower case one with this bit.
    let lower = block | u8x16::splat(0x20);
    let is_no_letter = (lower - u8x16::splat(b'a')).simd_gt(u8x16::splat(5));
    (is_no_figure & is_no_letter).to_bitmask() == 0
}

/// The bytes of a block of digits.
fn bytes_of(block: u8x16) -> u8x8
    requires { AllPass is_hex_digit block }
    ensures { decode_of block ≡ Ok result }
{
    // The letters' lower halves count from 1 in either case, and the figures' are their values.
    let is_letter = block.simd_ge(u8x16::splat(b'A'));
    let above = is_letter.select(u8x16::splat(9), u8x16::splat(0));
    let values = (block & u8x16::splat(15)) + above;
    let high = values.swizzle([0, 2, 4, 6, 8, 10, 12, 14]);
    let low = values.swizzle([1, 3, 5, 7, 9, 11, 13, 15]);
    (high << 4) + low
}

/// The same as `take_digits`, by a table: for less than a block.
fn take_few_digits(digits: &[u8], room: &mut [u8]) -> bool
    requires { length digits.now ≡ 2 * length room.old }
    ensures { cond result (Some room.new) None ≡ result_ok (decode_of digits.now) }
{
    'bytes: for i in 0..room.len() {
        let value = 16 * value_of(digits[2 * i]) + value_of(digits[2 * i + 1]);
        if value >= NO_DIGIT {
            return false;
        }
        room[i] = value as u8;
    }
    true
}

/// The value of a hex digit in either case, or `NO_DIGIT`.
fn value_of(digit: u8) -> u32
    ensures { result ≡ unwrap_or (hex_digit_value digit) 256 }
{
    VALUES[usize::from(digit)]
}
