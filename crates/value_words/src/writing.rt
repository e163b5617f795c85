//! Writing values in words.
ghost use Rattle.std.specs.Prelude.{◌≡◌, ◌<◌, ◌++◌, map, OnErr, OnOk};
ghost use Rattle.std.specs.List.{AllByRecursion};
ghost use Rattle.std.specs.Fmt.{decimal, signed_decimal};
ghost use Rattle.cosem_data.specs.Tree.{trees};
ghost use Rattle.cosem_data.specs.View.{tree};
ghost use Rattle.value_words.specs.Words.{truth_words, octet_words, letter_words, letters_words, list_words, content_words, value_words};
ghost use Rattle.value_words.specs.WordLaws.{HasRanges, HaveRanges};

use crate::kinds::word_of;
use crate::strings::is_plain;
use cosem_data::data::Data;
use cosem_data::memory::Memory;
use std::alloc::Global;

/// The upper-case hex digits.
const DIGITS: &[u8; 16] = b"0123456789ABCDEF";

/// A number from 0 up in decimal.
fn push_unsigned(alloc: Global, number: u64, text: &mut Vec<u8>) -> Result<(), Memory>
    ensures { OnOk result (text.new.items ≡ text.old.items ++ decimal number) }
{
    text.extend_from_slice(format!(in alloc; "{number}")?.as_bytes())?;
    Ok(())
}

/// A number in decimal, behind `-` where it is below 0.
fn push_signed(alloc: Global, number: i64, text: &mut Vec<u8>) -> Result<(), Memory>
    ensures { OnOk result (text.new.items ≡ text.old.items ++ signed_decimal number) }
{
    text.extend_from_slice(format!(in alloc; "{number}")?.as_bytes())?;
    Ok(())
}

/// True or false.
fn push_truth(truth: bool, text: &mut Vec<u8>) -> Result<(), Memory>
    ensures { OnOk result (text.new.items ≡ text.old.items ++ truth_words truth) }
{
    if truth {
        text.extend_from_slice(b"true")?;
    } else {
        text.extend_from_slice(b"false")?;
    }
    Ok(())
}

/// Bytes in upper-case hex digits, or `-` for none.
fn push_octets(alloc: Global, bytes: &[u8], text: &mut Vec<u8>) -> Result<(), Memory>
    ensures ok { OnOk result (text.new.items ≡ text.old.items ++ octet_words bytes.now) }
    ensures letters { AllByRecursion (λ b. b < 256) bytes.now }
{
    if bytes.is_empty() {
        text.push(b'-')?;
    } else {
        text.extend_from_slice(hex::encode_upper(alloc, bytes)?.as_bytes())?;
    }
    Ok(())
}

/// A byte between quotes.
fn push_letter(byte: u8, text: &mut Vec<u8>) -> Result<(), Memory>
    ensures { OnOk result (text.new.items ≡ text.old.items ++ letter_words byte) }
{
    if is_plain(byte) {
        text.push(byte)?;
    } else {
        let high = DIGITS[usize::from(byte / 16)];
        let low = DIGITS[usize::from(byte % 16)];
        text.extend_from_slice(&[b'\\', b'x', high, low])?;
    }
    Ok(())
}

/// Bytes between quotes, and the closing quote.
fn push_letters(bytes: &[u8], text: &mut Vec<u8>) -> Result<(), Memory>
    ensures ok { OnOk result (text.new.items ≡ text.old.items ++ letters_words bytes.now) }
    ensures letters { AllByRecursion (λ b. b < 256) bytes.now }
{
    for byte in bytes {
        push_letter(*byte, text)?;
    }
    text.push(b'"')?;
    Ok(())
}

/// The words of a value.
#[cycle(put)]
fn put(alloc: Global, value: &Data, text: &mut Vec<u8>) -> Result<(), Memory>
    ensures ok { OnOk result (text.new.items ≡ text.old.items ++ value_words (tree value.now)) }
    ensures ranges { OnOk result (HasRanges (tree value.now)) }
{
    text.extend_from_slice(word_of(value.kind()))?;
    put_content(alloc, value, text)
}

/// What stands behind the word of the kind.
#[cycle(put)]
fn put_content(alloc: Global, value: &Data, text: &mut Vec<u8>) -> Result<(), Memory>
    ensures ok { OnOk result (text.new.items ≡ text.old.items ++ content_words (tree value.now)) }
    ensures ranges { OnOk result (HasRanges (tree value.now)) }
{
    match value {
        Data::NullData => {}
        Data::Array(items) => put_list(alloc, items.as_slice(), text)?,
        Data::Structure(items) => put_list(alloc, items.as_slice(), text)?,
        Data::Boolean(truth) => push_truth(*truth, text)?,
        Data::DoubleLong(n) => push_signed(alloc, i64::from(*n), text)?,
        Data::DoubleLongUnsigned(n) => push_unsigned(alloc, u64::from(*n), text)?,
        Data::OctetString(bytes) => push_octets(alloc, bytes.as_slice(), text)?,
        Data::VisibleString(bytes) => {
            text.push(b'"')?;
            push_letters(bytes.as_slice(), text)?;
        }
        Data::Integer(n) => push_signed(alloc, i64::from(*n), text)?,
        Data::Long(n) => push_signed(alloc, i64::from(*n), text)?,
        Data::Unsigned(n) => push_unsigned(alloc, u64::from(*n), text)?,
        Data::LongUnsigned(n) => push_unsigned(alloc, u64::from(*n), text)?,
        Data::Long64(n) => push_signed(alloc, *n, text)?,
        Data::Long64Unsigned(n) => push_unsigned(alloc, *n, text)?,
        Data::Enumerated(n) => push_unsigned(alloc, u64::from(*n), text)?,
    }
    Ok(())
}

/// The parts of an array or a structure in braces.
#[cycle(put)]
fn put_list(alloc: Global, parts: &[Data], text: &mut Vec<u8>) -> Result<(), Memory>
    ensures ok { OnOk result (text.new.items ≡ text.old.items ++ list_words (trees (map tree parts.now))) }
    ensures ranges { OnOk result (HaveRanges (trees (map tree parts.now))) }
{
    let [first, others @ ..] = parts else {
        text.extend_from_slice(b"{ }")?;
        return Ok(());
    };
    text.extend_from_slice(b"{ ")?;
    put(alloc, first, text)?;
    for part in others {
        text.extend_from_slice(b", ")?;
        put(alloc, part, text)?;
    }
    text.extend_from_slice(b" }")?;
    Ok(())
}

/// Puts the words of a value behind a text, as `structure { long-unsigned 17, octet-string 0100010800FF }` (own profile).
///
/// # Errors
/// `Memory` where memory is refused; the text is then as it was.
pub fn push_value(alloc: Global, value: &Data, text: &mut Vec<u8>) -> Result<(), Memory>
    ensures ok { OnOk result (text.new.items ≡ text.old.items ++ value_words (tree value.now)) }
    // The numbers of a value are in range, so that its words are read as the value again.
    ensures ranges { OnOk result (HasRanges (tree value.now)) }
    ensures err { OnErr result (text.new.items ≡ text.old.items) }
{
    let mut words = Vec::new(alloc);
    put(alloc, value, &mut words)?;
    text.extend_from_slice(&words)?;
    Ok(())
}
