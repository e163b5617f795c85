//! The words of the kinds.
ghost use Rattle.std.specs.Prelude.{◌≡◌, option_map};
ghost use Rattle.value_words.specs.Words as words;
ghost use Rattle.value_words.specs.Stopping.{Reads};
ghost use Rattle.value_words.specs.WordReading as spec;
ghost use Rattle.value_words.specs.WordReading.{kind_at};

use crate::fault::Asked;
use crate::marks::behind;
use crate::stop::{Stop, stop_at};
use cosem_data::kind::Kind;

/// The fifteen kinds.
const KINDS: [Kind; 15] = [
    Kind::NullData,
    Kind::Array,
    Kind::Structure,
    Kind::Boolean,
    Kind::DoubleLong,
    Kind::DoubleLongUnsigned,
    Kind::OctetString,
    Kind::VisibleString,
    Kind::Integer,
    Kind::Long,
    Kind::Unsigned,
    Kind::LongUnsigned,
    Kind::Long64,
    Kind::Long64Unsigned,
    Kind::Enumerated,
];

/// The word of a kind, with the space behind it where more follows.
pub(crate) fn word_of(kind: Kind) -> &'static [u8]
    ensures { result.now ≡ words.word_of kind }
{
    match kind {
        Kind::NullData => b"null-data",
        Kind::Array => b"array ",
        Kind::Structure => b"structure ",
        Kind::Boolean => b"boolean ",
        Kind::DoubleLong => b"double-long ",
        Kind::DoubleLongUnsigned => b"double-long-unsigned ",
        Kind::OctetString => b"octet-string ",
        Kind::VisibleString => b"visible-string ",
        Kind::Integer => b"integer ",
        Kind::Long => b"long ",
        Kind::Unsigned => b"unsigned ",
        Kind::LongUnsigned => b"long-unsigned ",
        Kind::Long64 => b"long64 ",
        Kind::Long64Unsigned => b"long64-unsigned ",
        Kind::Enumerated => b"enum ",
    }
}

/// The first of some kinds whose word stands in front, and what stands behind the word.
fn kind_among<'a>(kinds: &[Kind], text: &'a [u8]) -> Option<(Kind, &'a [u8])>
    ensures { option_map (λ x. (x.0, x.1.now)) result ≡ spec.kind_among kinds.now text.now }
{
    for kind in kinds {
        if let Some(rest) = behind(word_of(*kind), text) {
            return Some((*kind, rest));
        }
    }
    None
}

/// The kind whose word stands in front.
#[tactic(auto, unfolding(crate::specs::WordReading::kind_at))]
pub(crate) fn kind_of(text: &[u8]) -> Result<(Kind, &[u8]), Stop<Asked>>
    ensures { Reads (λ x. (x.0, x.1.now)) result (kind_at text.now) }
{
    match kind_among(&KINDS, text) {
        Some(found) => Ok(found),
        None => Err(stop_at(text, Asked::Kind)),
    }
}
