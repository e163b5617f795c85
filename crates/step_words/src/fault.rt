//! Why a text has no steps in words, or no step lines in hex.

ghost use Rattle.std.specs.Prelude.{◌≡◌};
ghost use Rattle.step_words.specs.Faults.{asked_words, value_asked_words};

use cosem_data::memory::Memory;
use std::alloc::Global;
use thiserror::Error;
use value_words::fault::Asked as ValueAsked;

/// What was asked at a place of a line (own profile).
#[derive(Clone, Copy, Debug, PartialEq, Eq)]
pub enum Asked {
    /// The first word of a step.
    FirstWord,
    /// The space behind a word, a name or a request.
    Space,
    /// A logical name.
    Name,
    /// A moment, to the end of the line.
    Moment,
    /// The word of what a client asks, with the space behind it.
    Service,
    /// A number of seconds to the end of the line, or the word of what a client named `tick` asks.
    SecondsOrService,
    /// The identifier of a class.
    Class,
    /// The slash behind a class or a name.
    Slash,
    /// The index of an attribute or a method.
    Index,
    /// The number of an entry.
    Entry,
    /// The number of a column.
    Column,
    /// The two dots between two numbers.
    Dots,
    /// The word of the columns, with a space on each side.
    Columns,
    /// The number of an invoke byte.
    Invoke,
    /// The end of the line, or the invoke byte.
    InvokeOrEnd,
    /// The end of the line.
    End,
    /// The bytes of an APDU in upper-case hex.
    Bytes,
    /// The words of a request, for an APDU that is one.
    Request,
    /// Behind the name of a client `tick`, hex digits that aren't a number of seconds.
    NoSeconds,
    /// A value whose encoding a meter can be sent.
    ShortValue,
    /// Hex digits in either case, at least two.
    HexDigits,
    /// Hex digits of one value.
    Encoding,
    /// No byte 0D in front of the newline.
    Newline,
    /// A part of a value in words.
    Value(ValueAsked),
}

impl Asked {
    /// What was asked, in plain words.
    pub fn as_str(self) -> &'static str
        ensures { result.now ≡ asked_words self }
    {
        match self {
            Asked::FirstWord =>
                "in, eval, at, tick, or a client's name of 1 to 16 characters of a to z, 0 to 9 and _",
            Asked::Space => "a space and what follows it",
            Asked::Name => "a logical name of six numbers, as 1.0.1.8.0.255",
            Asked::Moment =>
                "a moment that the calendar has, as 2024-02-29T12:00:00, and the end of the line",
            Asked::Service => "get, set, act or apdu, and a space",
            Asked::SecondsOrService => {
                "a number of seconds from 1 to 3600, without leading zeros, or get, set, act or apdu, and a space"
            }
            Asked::Class => "a class from 0 to 65535, without leading zeros",
            Asked::Slash => "a slash",
            Asked::Index => "an index from -128 to 127, without leading zeros",
            Asked::Entry => "an entry from 0 to 4294967295, without leading zeros",
            Asked::Column => "a column from 0 to 65535, without leading zeros",
            Asked::Dots => "two dots",
            Asked::Columns => "the word columns between two spaces",
            Asked::Invoke => "a number from 0 to 255 other than 193, without leading zeros",
            Asked::InvokeOrEnd => "the end of the line, or the word invoke between two spaces",
            Asked::End => "the end of the line",
            Asked::Bytes => "upper-case hex digits, two a byte, to the end of the line",
            Asked::Request => "the words get, set or act, since the bytes are such a request",
            Asked::NoSeconds => {
                "hex digits that are no number from 1 to 3600, since tick and such a number lets seconds pass"
            }
            Asked::ShortValue => "a value whose encoding has less than 4294967296 bytes",
            Asked::HexDigits => "hex digits, two a byte, to the end of the line",
            Asked::Encoding => "the hex digits of one value, to the end of the line",
            Asked::Newline => "a newline alone",
            Asked::Value(asked) => value_asked(asked),
        }
    }
}

/// What was asked in a value, in plain words.
fn value_asked(asked: ValueAsked) -> &'static str
    ensures { result.now ≡ value_asked_words asked }
{
    match asked {
        ValueAsked::Kind => "a kind of value",
        ValueAsked::Depth => "a value nested at most 16 deep",
        ValueAsked::OpenBrace => "{ and a space",
        ValueAsked::CommaOrBrace => "a comma and a space, or a space and }",
        ValueAsked::Truth => "true or false",
        ValueAsked::Number => "a number of this kind, without leading zeros",
        ValueAsked::HexDigits => "upper-case hex digits, two a byte, or - for no bytes",
        ValueAsked::Quote => "a double quote",
        ValueAsked::Letter => "a printable letter, \\xHH for another byte, or a double quote",
    }
}

/// Why nothing is made of a text (own profile).
#[derive(Clone, Copy, Debug, PartialEq, Eq, Drop, Error)]
pub enum TextFault {
    /// Memory was refused.
    #[error("out of memory")]
    Memory,
    /// Something else stands at a place of a line than what is asked; all before it is right.
    #[error("line {line}, column {column}: asked is {asked}", asked = .asked.as_str())]
    At {
        /// The number of the line, from 1.
        line: u64,
        /// The place in the line, in bytes from 1.
        column: u64,
        /// What was asked there.
        asked: Asked,
    },
}

impl TextFault {
    ghost use Rattle.std.specs.Prelude.{IfOk, string_bytes};
    ghost use Rattle.step_words.specs.Faults.{fault_words};

    /// The fault as it is told. The error is that memory was refused.
    pub fn told(self, alloc: Global) -> Result<String, Memory>
        ensures { IfOk result (λ text. string_bytes text ≡ fault_words self) }
    {
        match self {
            TextFault::Memory => Ok(String::from_str(alloc, "out of memory")?),
            TextFault::At {
                line,
                column,
                asked,
            } => {
                let asked = asked.as_str();
                Ok(format!(in alloc; "line {line}, column {column}: asked is {asked}")?)
            }
        }
    }
}
