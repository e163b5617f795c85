//! Kinds of values in words (IEC 62056-5-3, type Data).

use cosem_data::kind::Kind;

/// A kind in words.
pub(crate) fn kind_words(kind: Kind) -> &'static str {
    match kind {
        Kind::NullData => "null-data",
        Kind::Array => "array",
        Kind::Structure => "structure",
        Kind::Boolean => "boolean",
        Kind::DoubleLong => "double-long",
        Kind::DoubleLongUnsigned => "double-long-unsigned",
        Kind::OctetString => "octet-string",
        Kind::VisibleString => "visible-string",
        Kind::Integer => "integer",
        Kind::Long => "long",
        Kind::Unsigned => "unsigned",
        Kind::LongUnsigned => "long-unsigned",
        Kind::Long64 => "long64",
        Kind::Long64Unsigned => "long64-unsigned",
        Kind::Enumerated => "enum",
    }
}

/// The kind with this tag that the standard has and that no value here is of.
pub(crate) fn unsupported(tag: u8) -> Option<&'static str> {
    match tag {
        4 => Some("bit-string"),
        12 => Some("utf8-string"),
        13 => Some("bcd"),
        19 => Some("compact-array"),
        23 => Some("float32"),
        24 => Some("float64"),
        25 => Some("date-time"),
        26 => Some("date"),
        27 => Some("time"),
        _ => None,
    }
}
