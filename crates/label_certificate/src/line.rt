//! The form of one line of a text of labels.
ghost use Rattle.std.specs.Prelude.{◌≡◌, ◌<◌, ◌-◌, ◌^◌, ◌==◌, ◌∷◌, length, option_map, position, IfSome};
ghost use Rattle.value_words.specs.WordReading.{number_in};
ghost use Rattle.label_certificate.specs.LabelLine as spec;
ghost use Rattle.label_certificate.specs.LabelLine.{label_line_at, names_of, parts};
ghost use Rattle.label_certificate.specs.LineView.{line_of, parts_left};

use cosem_data::name::LogicalName;
use value_text::client_name::is_client_name;
use value_text::name::name_in;
use value_words::marks::behind;
use value_words::numbers::number_in;

/// What stands in the place of an attribute's number for what a register monitor has seen.
const SEEN: &[u8] = b"seen";

/// What stands in the place of names where there are none.
const NOBODY: &[u8] = b"-";

/// What stands before the names of those that may influence a cell.
const INFLUENCE: &[u8] = b"influence=";

/// What stands before the names of those that may learn a cell.
const LEARN: &[u8] = b"learn=";

const SPACE: u8 = b' ';

const SLASH: u8 = b'/';

const COMMA: u8 = b',';

/// One line of a text of labels, its names where they stand in the text (own profile).
#[derive(Clone, Copy, Debug)]
pub(crate) struct Line<'a> {
    /// The interface class of the cell's object.
    pub(crate) class_id: u16,
    /// The cell's object.
    pub(crate) name: LogicalName,
    /// The attribute by its number, or None for what a register monitor has seen.
    pub(crate) attribute: Option<u8>,
    /// The names of the clients that may influence the cell, joined by commas, or `-`.
    pub(crate) influence: &'a [u8],
    /// The names of the clients that may learn the cell, joined by commas, or `-`.
    pub(crate) learn: &'a [u8],
}

/// The place of the first separator.
fn place_of(separator: u8, text: &[u8]) -> Option<usize>
    ensures first { result ≡ position (λ b. b == separator) text.now }
    ensures within { IfSome result (λ k. k < length text.now) }
{
    text.iter().position(|byte| *byte == separator)
}

/// The first part of a text up to a separator, and what stands behind that, if there is one.
pub(crate) fn first_part(separator: u8, text: &[u8]) -> (&[u8], Option<&[u8]>)
    ensures split { parts separator text.now ≡ result.0.now ∷ parts_left separator result.1 }
    ensures shorter { IfSome result.1 (λ rest. length rest.now < length text.now) }
{
    match place_of(separator, text) {
        Some(place) => (&text[..place], Some(&text[place + 1..])),
        None => (text, None),
    }
}

/// The parts of a text that is three with a separator between them.
fn three(separator: u8, text: &[u8]) -> Option<(&[u8], &[u8], &[u8])>
    ensures { option_map (λ p. (p.0.now, p.1.now, p.2.now)) result
        ≡ spec.three (parts separator text.now) }
{
    let (first, rest) = first_part(separator, text);
    let (second, rest) = first_part(separator, rest?);
    let (third, rest) = first_part(separator, rest?);
    match rest {
        None => Some((first, second, third)),
        Some(_) => None,
    }
}

/// The class that a text is in decimal.
fn class_in(text: &[u8]) -> Option<u16>
    ensures { result ≡ number_in (2 ^ 16 - 1) text.now }
{
    let number = number_in(u64::from(u16::MAX), text)?;
    Some(number as u16)
}

/// The attribute that a text is: its number, or `seen`.
fn attribute_in(text: &[u8]) -> Option<Option<u8>>
    ensures { result ≡ spec.attribute_in text.now }
{
    if text == SEEN {
        return Some(None);
    }
    let number = number_in(u64::from(u8::MAX), text)?;
    Some(Some(number as u8))
}

/// What there is of names in a text, to be taken one by one.
pub(crate) fn names_left(text: &[u8]) -> Option<&[u8]>
    ensures { parts_left 44 result ≡ names_of text.now }
{
    if text == NOBODY { None } else { Some(text) }
}

/// The first of names, and what is left of them.
pub(crate) fn first_name(names: &[u8]) -> (&[u8], Option<&[u8]>)
    ensures split { parts 44 names.now ≡ result.0.now ∷ parts_left 44 result.1 }
    ensures shorter { IfSome result.1 (λ rest. length rest.now < length names.now) }
{
    first_part(COMMA, names)
}

/// Whether each of the names in a text is one that a client may have.
fn are_names(text: &[u8]) -> bool
    ensures { result ≡ spec.are_client_names (names_of text.now) }
{
    let mut left = names_left(text);
    while let Some(names) = left {
        let (name, behind) = first_name(names);
        if !is_client_name(name) {
            return false;
        }
        left = behind;
    }
    true
}

/// The names behind a word, if clients may have them.
fn names_after<'a>(word: &[u8], text: &'a [u8]) -> Option<&'a [u8]>
    ensures { option_map (λ names. names_of names.now) result ≡ spec.names_after word.now text.now }
{
    let names = behind(word, text)?;
    if are_names(names) { Some(names) } else { None }
}

/// What a line says, if it has the form `CELL influence=NAMES learn=NAMES`.
#[tactic(auto, unfolding(crate::specs::LabelLine::label_line_at))]
pub(crate) fn line_in(line: &[u8]) -> Option<Line<'_>>
    ensures { option_map line_of result ≡ label_line_at line.now }
{
    let (cell, influence, learn) = three(SPACE, line)?;
    let (class_id, name, attribute) = three(SLASH, cell)?;
    let class_id = class_in(class_id)?;
    let name = name_in(name)?;
    let attribute = attribute_in(attribute)?;
    let influence = names_after(INFLUENCE, influence)?;
    let learn = names_after(LEARN, learn)?;
    Some(Line {
        class_id,
        name,
        attribute,
        influence,
        learn,
    })
}
