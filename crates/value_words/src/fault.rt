//! Why no value was read.

/// What was asked at a place of a text (own profile).
#[derive(Clone, Copy, Debug, PartialEq, Eq)]
pub enum Asked {
    /// The word of a kind, with the space behind it where more follows.
    Kind,
    /// No array and no structure: sixteen others are round the place.
    Depth,
    /// The brace that opens an array or a structure, and the space behind it.
    OpenBrace,
    /// What stands behind a part of an array or a structure.
    CommaOrBrace,
    /// A truth.
    Truth,
    /// A number of the kind, in decimal.
    Number,
    /// The bytes of an octet-string.
    HexDigits,
    /// The quote that opens a visible-string.
    Quote,
    /// A byte of a visible-string, or the quote that closes it.
    Letter,
}

impl Asked {
    /// What was asked, in plain words.
    pub fn as_str(self) -> &'static str {
        match self {
            Asked::Kind => "a kind of value",
            Asked::Depth => "a value nested at most 16 deep",
            Asked::OpenBrace => "{ and a space",
            Asked::CommaOrBrace => "a comma and a space, or a space and }",
            Asked::Truth => "true or false",
            Asked::Number => "a number of this kind, without leading zeros",
            Asked::HexDigits => "upper-case hex digits, two a byte, or - for no bytes",
            Asked::Quote => "a double quote",
            Asked::Letter => "a printable letter, \\xHH for another byte, or a double quote",
        }
    }
}

/// Why no value was read (own profile).
#[derive(Clone, Copy, Debug, PartialEq, Eq)]
pub enum ValueFault {
    /// Memory was refused.
    Memory,
    /// Something else stands at a place than what the grammar asks; what stands before it is right.
    At {
        /// The place, in bytes from the front of the text.
        place: usize,
        /// What was asked there.
        asked: Asked,
    },
}
