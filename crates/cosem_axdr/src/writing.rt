//! Writing values.
ghost use Rattle.std.specs.Prelude.{◌≡◌, ◌<◌, ◌≤◌, ◌^◌, ◌++◌, ◌∷◌, [], length, map, OnOk, OnErr};
ghost use Rattle.std.specs.List.{AllByRecursion};
ghost use Rattle.cosem_data.specs.Kinds.{tag_of};
ghost use Rattle.cosem_data.specs.Tree.{structure, trees};
ghost use Rattle.cosem_data.specs.View.{tree};
ghost use Rattle.cosem_data.specs.declared.kind.Kind.TheVariants.{Array};
ghost use Rattle.cosem_axdr.specs.Canonical.{canonical, content, all, shortest, HasLengths, HaveLengths, Extends};
ghost use Rattle.cosem_axdr.specs.Laws.{HasRanges, HaveRanges};

use cosem_data::data::Data;
use cosem_data::kind::Kind;
use cosem_data::memory::Memory;

/// The shortest form of a length or a count of 128 or more behind what is there.
#[tactic(auto, unfolding(crate::specs::Canonical::shortest))]
fn put_long_length(n: u32, out: &mut Vec<u8>) -> Result<(), Memory>
    requires { 128 ≤ n }
    ensures ok { OnOk result (out.new.items ≡ out.old.items ++ shortest n) }
    ensures err { OnErr result (out.new.items ≡ out.old.items) }
{
    let bytes = n.to_be_bytes();
    if n < 0x100 {
        out.extend_from_slice(&[0x81, bytes[3]])?;
    } else if n < 0x1_0000 {
        out.extend_from_slice(&[0x82, bytes[2], bytes[3]])?;
    } else if n < 0x100_0000 {
        out.extend_from_slice(&[0x83, bytes[1], bytes[2], bytes[3]])?;
    } else {
        out.extend_from_slice(&[0x84, bytes[0], bytes[1], bytes[2], bytes[3]])?;
    }
    Ok(())
}

/// The tag of a kind, and a length or a count in its shortest form. A short one costs one look at the room.
#[inline]
#[tactic(auto, unfolding(crate::specs::Canonical::shortest))]
fn put_front(kind: Kind, n: u32, out: &mut Vec<u8>) -> Result<(), Memory>
    ensures ok { OnOk result (out.new.items ≡ out.old.items ++ (tag_of kind ∷ shortest n)) }
    ensures err { OnErr result (Extends out.old.items out.new.items) }
{
    if n < 128 {
        out.extend_from_slice(&[kind.tag(), n as u8])?;
        return Ok(());
    }
    out.push(kind.tag())?;
    put_long_length(n, out)
}

/// The tag of a kind, and a byte.
#[inline]
fn put_one(kind: Kind, byte: u8, out: &mut Vec<u8>) -> Result<(), Memory>
    ensures ok { OnOk result (out.new.items ≡ out.old.items ++ (tag_of kind ∷ byte ∷ [])) }
    ensures err { OnErr result (out.new.items ≡ out.old.items) }
{
    out.extend_from_slice(&[kind.tag(), byte])?;
    Ok(())
}

/// The tag of a kind, and two bytes.
#[inline]
fn put_two(kind: Kind, bytes: [u8; 2], out: &mut Vec<u8>) -> Result<(), Memory>
    ensures ok { OnOk result (out.new.items ≡ out.old.items ++ (tag_of kind ∷ bytes)) }
    ensures err { OnErr result (out.new.items ≡ out.old.items) }
{
    let [a, b] = bytes;
    out.extend_from_slice(&[kind.tag(), a, b])?;
    Ok(())
}

/// The tag of a kind, and four bytes.
#[inline]
fn put_four(kind: Kind, bytes: [u8; 4], out: &mut Vec<u8>) -> Result<(), Memory>
    ensures ok { OnOk result (out.new.items ≡ out.old.items ++ (tag_of kind ∷ bytes)) }
    ensures err { OnErr result (out.new.items ≡ out.old.items) }
{
    let [a, b, c, d] = bytes;
    out.extend_from_slice(&[kind.tag(), a, b, c, d])?;
    Ok(())
}

/// The tag of a kind, and eight bytes.
#[inline]
fn put_eight(kind: Kind, bytes: [u8; 8], out: &mut Vec<u8>) -> Result<(), Memory>
    ensures ok { OnOk result (out.new.items ≡ out.old.items ++ (tag_of kind ∷ bytes)) }
    ensures err { OnErr result (out.new.items ≡ out.old.items) }
{
    let [a, b, c, d, e, f, g, h] = bytes;
    out.extend_from_slice(&[kind.tag(), a, b, c, d, e, f, g, h])?;
    Ok(())
}

/// The tag of a kind, a string's length and its bytes.
fn put_string(kind: Kind, bytes: &[u8], out: &mut Vec<u8>) -> Result<(), Memory>
    requires { length bytes.now < 2 ^ 32 }
    ensures ok { OnOk result (out.new.items
        ≡ out.old.items ++ (tag_of kind ∷ (shortest (length bytes.now) ++ bytes.now))) }
    ensures letters { OnOk result (AllByRecursion (λ b. b < 256) bytes.now) }
    ensures err { OnErr result (Extends out.old.items out.new.items) }
{
    put_front(kind, bytes.len() as u32, out)?;
    out.extend_from_slice(bytes)?;
    Ok(())
}

/// The encoding of a value behind what is there. What was put before a refusal stays.
#[cycle(put)]
fn put(value: &Data, out: &mut Vec<u8>) -> Result<(), Memory>
    requires { HasLengths (tree value.now) }
    ensures ok { OnOk result (out.new.items ≡ out.old.items ++ canonical (tree value.now)) }
    // The numbers of a value are in range, so that the canonical form is one of its encodings.
    ensures ranges { OnOk result (HasRanges (tree value.now)) }
    ensures err { OnErr result (Extends out.old.items out.new.items) }
{
    match value {
        Data::NullData => {
            out.push(Kind::NullData.tag())?;
            Ok(())
        }
        Data::Array(items) => put_parts(Kind::Array, items.as_slice(), out),
        Data::Structure(items) => put_parts(Kind::Structure, items.as_slice(), out),
        Data::Boolean(b) => put_one(Kind::Boolean, u8::from(*b), out),
        Data::DoubleLong(n) => put_four(Kind::DoubleLong, n.to_be_bytes(), out),
        Data::DoubleLongUnsigned(n) => put_four(Kind::DoubleLongUnsigned, n.to_be_bytes(), out),
        Data::OctetString(bytes) => put_string(Kind::OctetString, bytes.as_slice(), out),
        Data::VisibleString(bytes) => put_string(Kind::VisibleString, bytes.as_slice(), out),
        Data::Integer(n) => put_one(Kind::Integer, n.cast_unsigned(), out),
        Data::Long(n) => put_two(Kind::Long, n.to_be_bytes(), out),
        Data::Unsigned(n) => put_one(Kind::Unsigned, *n, out),
        Data::LongUnsigned(n) => put_two(Kind::LongUnsigned, n.to_be_bytes(), out),
        Data::Long64(n) => put_eight(Kind::Long64, n.to_be_bytes(), out),
        Data::Long64Unsigned(n) => put_eight(Kind::Long64Unsigned, n.to_be_bytes(), out),
        Data::Enumerated(n) => put_one(Kind::Enumerated, *n, out),
    }
}

/// The tag of a kind, the count of the parts, and then each of them.
#[cycle(put)]
fn put_parts(kind: Kind, parts: &[Data], out: &mut Vec<u8>) -> Result<(), Memory>
    requires few { length parts.now < 2 ^ 32 }
    requires lengths { HaveLengths (trees (map tree parts.now)) }
    ensures ok { OnOk result (out.new.items
        ≡ out.old.items ++ (tag_of kind ∷ (shortest (length parts.now) ++ all (trees (map tree parts.now))))) }
    ensures ranges { OnOk result (HaveRanges (trees (map tree parts.now))) }
    ensures err { OnErr result (Extends out.old.items out.new.items) }
{
    put_front(kind, parts.len() as u32, out)?;
    for part in parts {
        put(part, out)?;
    }
    Ok(())
}

/// Puts the canonical encoding of a value (IEC 62056-5-3, type `Data` in A-XDR) behind what is there: each length in its shortest form, and 01 for true.
///
/// Each length and count has to be below 2^32, which `laws::small_has_lengths` gives for a value that `is_encoded_within` such a limit.
///
/// # Errors
/// `Memory` where memory is refused; the vector then has what it had before.
pub fn write_data(value: &Data, out: &mut Vec<u8>) -> Result<(), Memory>
    requires { HasLengths (tree value.now) }
    ensures ok { OnOk result (out.new.items ≡ out.old.items ++ canonical (tree value.now)) }
    // The numbers of a value are in range, so that the canonical form is one of its encodings.
    ensures ranges { OnOk result (HasRanges (tree value.now)) }
    ensures err { OnErr result (out.new.items ≡ out.old.items) }
{
    let len = out.len();
    let written = put(value, out);
    if written.is_err() {
        out.truncate(len);
    }
    written
}

/// Puts what stands in front of the elements of an array behind what is there: the tag, and the count in its shortest form
/// (IEC 62056-5-3, type `Data` in A-XDR). With so many encodings behind it, it is the canonical encoding of the array.
///
/// # Errors
/// `Memory` where memory is refused; what was put before stays then.
pub fn put_array_front(count: u32, out: &mut Vec<u8>) -> Result<(), Memory>
    ensures ok { OnOk result (out.new.items ≡ out.old.items ++ (tag_of Array ∷ shortest count)) }
    ensures err { OnErr result (Extends out.old.items out.new.items) }
{
    put_front(Kind::Array, count, out)
}

/// Puts the canonical encoding of the structure of these parts behind what is there, as `write_data` puts that of a value.
///
/// # Errors
/// `Memory` where memory is refused; what was put before stays then.
pub fn put_structure(parts: &[Data], out: &mut Vec<u8>) -> Result<(), Memory>
    requires { HasLengths (structure (trees (map tree parts.now))) }
    ensures ok { OnOk result (out.new.items
        ≡ out.old.items ++ canonical (structure (trees (map tree parts.now)))) }
    ensures ranges { OnOk result (HasRanges (structure (trees (map tree parts.now)))) }
    ensures err { OnErr result (Extends out.old.items out.new.items) }
{
    put_parts(Kind::Structure, parts, out)
}
