//! The fields of an AARQ, read from left to right.
ghost use Rattle.std.specs.Prelude.{◌≡◌, ◌≤◌, ◌<◌, [], ◌∷◌, length, option_map, IfSome};
ghost use Rattle.std.specs.Int.{w8, w16};
ghost use Rattle.acse_association.specs.Fields.{number_at, length_at, counted_at, field_at, content_at, fields_at, aarq_at};
ghost use Rattle.acse_association.specs.Contents.{contents_of, kept};

use crate::apdu::AARQ;
use std::marker::Model;

/// A field (IEC 62056-5-3, ACSE services).
#[derive(Drop)]
pub(crate) struct Field<'a> {
    tag: u8,
    content: &'a [u8],
}

impl<'a> Model for Field<'a> {
    ghost use Rattle.acse_association.specs.Fields.{Field as FieldValue};

    ghost Value = { FieldValue };

    ghost view = { λ f. record { tag = f.tag; content = f.content.now } };
}

/// What is looked at of an AARQ: of each of four fields the first content (IEC 62056-5-3, AARQ-apdu).
#[derive(Drop)]
pub(crate) struct Aarq<'a> {
    pub(crate) context: Option<&'a [u8]>,
    pub(crate) mechanism: Option<&'a [u8]>,
    pub(crate) authentication: Option<&'a [u8]>,
    pub(crate) information: Option<&'a [u8]>,
}

impl<'a> Model for Aarq<'a> {
    ghost use Rattle.std.specs.Prelude.{option_map};
    ghost use Rattle.acse_association.specs.Contents.{Contents};

    ghost Value = { Contents };

    ghost view = { λ a. record {
      context = option_map (λ c. c.now) a.context;
      mechanism = option_map (λ c. c.now) a.mechanism;
      authentication = option_map (λ c. c.now) a.authentication;
      information = option_map (λ c. c.now) a.information;
    } };
}

/// The tags of the fields that are looked at.
const CONTEXT: u8 = 0xA1;

const MECHANISM: u8 = 0x8B;

const AUTHENTICATION: u8 = 0xAC;

const INFORMATION: u8 = 0xBE;

impl<'a> Aarq<'a> {
    /// The AARQ that the bytes are, or None where they are none.
    pub(crate) fn read(apdu: &'a [u8]) -> Option<Aarq<'a>>
        ensures { result ≡ option_map contents_of (aarq_at apdu.now) }
    {
        Aarq::of_fields(content_of(AARQ, apdu)?)
    }

    /// What is looked at of fields that go to the end of the bytes.
    fn of_fields(fields: &'a [u8]) -> Option<Aarq<'a>>
        ensures { result ≡ option_map contents_of (fields_at fields.now) }
    {
        let mut aarq = Aarq::empty();
        let mut rest = fields;
        while !rest.is_empty() {
            let (field, behind) = field_of(rest)?;
            aarq = aarq.with(field);
            rest = behind;
        }
        Some(aarq)
    }

    /// That of no fields.
    fn empty() -> Aarq<'a>
        ensures { result ≡ contents_of [] }
    {
        Aarq {
            context: None,
            mechanism: None,
            authentication: None,
            information: None,
        }
    }

    /// That of the fields so far and one more, which counts where there was none with its tag.
    fn with(self, field: Field<'a>) -> Aarq<'a>
        ensures { result ≡ kept self.entry (contents_of (field.entry ∷ [])) }
    {
        let content = Some(field.content);
        match field.tag {
            CONTEXT => Aarq {
                context: self.context.or(content),
                ..self
            },
            MECHANISM => Aarq {
                mechanism: self.mechanism.or(content),
                ..self
            },
            AUTHENTICATION => Aarq {
                authentication: self.authentication.or(content),
                ..self
            },
            INFORMATION => Aarq {
                information: self.information.or(content),
                ..self
            },
            _ => self,
        }
    }
}

/// A length in any of its forms, and the bytes behind it.
#[tactic(auto, unfolding(crate::specs::Fields::length_at))]
fn length_of(bytes: &[u8]) -> Option<(usize, &[u8])>
    ensures value { option_map (λ x. (x.0, x.1.now)) result ≡ length_at bytes.now }
    ensures shorter { IfSome result (λ x. length x.1.now < length bytes.now) }
{
    match bytes {
        [short @ 0..=127, rest @ ..] => Some((usize::from(*short), rest)),
        [0x81, byte, rest @ ..] => Some((usize::from(*byte), rest)),
        [0x82, high, low, rest @ ..] => {
            Some((usize::from(u16::from_be_bytes([*high, *low])), rest))
        }
        _ => None,
    }
}

/// A length and then the content of so many bytes, and the bytes behind it.
#[tactic(auto, unfolding(crate::specs::Fields::counted_at))]
fn counted_of(bytes: &[u8]) -> Option<(&[u8], &[u8])>
    ensures value { option_map (λ x. (x.0.now, x.1.now)) result ≡ counted_at bytes.now }
    ensures shorter { IfSome result (λ x. length x.1.now ≤ length bytes.now) }
{
    let (length, rest) = length_of(bytes)?;
    if rest.len() < length {
        return None;
    }
    Some(rest.split_at(length))
}

/// A field, and the bytes behind it.
#[tactic(auto, unfolding(crate::specs::Fields::field_at))]
fn field_of(bytes: &[u8]) -> Option<(Field<'_>, &[u8])>
    ensures value { option_map (λ x. (x.0, x.1.now)) result ≡ field_at bytes.now }
    ensures shorter { IfSome result (λ x. length x.1.now < length bytes.now) }
{
    let [tag, rest @ ..] = bytes else {
        return None;
    };
    let (content, behind) = counted_of(rest)?;
    Some((Field { tag: *tag, content }, behind))
}

/// The content of the one field that the bytes are to their end, where it has this tag.
#[tactic(auto, unfolding(crate::specs::Fields::content_at))]
pub(crate) fn content_of(tag: u8, bytes: &[u8]) -> Option<&[u8]>
    ensures { option_map (λ content. content.now) result ≡ content_at tag bytes.now }
{
    let (field, behind) = field_of(bytes)?;
    if field.tag == tag && behind.is_empty() {
        Some(field.content)
    } else {
        None
    }
}
