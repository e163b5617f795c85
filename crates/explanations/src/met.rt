//! What stands at a place of a text (own profile).
ghost use Rattle.std.specs.Prelude.{◌≡◌, None, IfOk, IfSome, true};
ghost use Rattle.config_places.specs.Spots.{IsWithin};
ghost use Rattle.explanations.specs.Hidden.{is_hidden};

use config_places::{Spot, Step, find};
use config_text::cause::Cause;
use config_text::takes::KeyTakes;
use cosem_data::memory::Memory;
use shown_text::printable::{push_printable, quoted_text};
use std::alloc::Global;
use toml_parser::{ParseError, Scalar, quoted, starts_string, unquoted};

/// How many bytes of a text are shown.
pub(crate) const SHOWN: usize = 200;

/// A value of a text.
#[derive(Drop)]
pub(crate) enum Met {
    /// A text, which is shown between quotation marks.
    Text(String),
    /// A whole number.
    Number(i64),
    Flag(bool),
    /// Any other, by its kind.
    Other(&'static str),
}

/// The value at the front of a text, none where there is none. The error is that memory was refused, or that it is no TOML.
fn value_of(alloc: Global, text: &str) -> Result<Met, ParseError> {
    if starts_string(text) {
        return Ok(Met::Text(quoted(alloc, text)?.0));
    }
    Ok(match unquoted(alloc, text)?.0 {
        Scalar::Boolean(flag) => Met::Flag(flag),
        Scalar::Integer(number) => Met::Number(number),
        Scalar::Float(_) => Met::Other("a float"),
        Scalar::Datetime(_) => Met::Other("a date"),
    })
}

/// What a table or an array is that begins so, where it is made by a header or else.
fn opened(text: &str, is_headed: bool) -> Option<Met> {
    if !text.starts_with('[') {
        return text.starts_with('{').then_some(Met::Other("a table"));
    }
    Some(if is_headed && !text.starts_with("[[") {
        Met::Other("a table")
    } else {
        Met::Other("an array")
    })
}

/// The value at the spot to which steps lead in a text, none where they lead to none. The error is that memory was refused.
pub(crate) fn met_at(
    alloc: Global,
    text: &str,
    steps: &[Step],
    spot: Option<Spot>,
) -> Result<Option<Met>, Memory>
    requires { IfSome spot (IsWithin text.now) }
{
    let Some(Spot::Found { key, value }) = spot else {
        return Ok(None);
    };
    let found = &text[value..];
    let is_headed = key == value && matches!(steps.last(), Some(Step::Key(_)));
    if let Some(met) = opened(found, is_headed) {
        return Ok(Some(met));
    }
    match value_of(alloc, found) {
        Ok(met) => Ok(Some(met)),
        Err(ParseError::OutOfMemory) => Err(Memory),
        Err(ParseError::At(..)) => Ok(None),
    }
}

/// The value at the spot to which steps lead in a text of a fault with this cause, none where they lead to none, or to what is never
/// shown: what stands at a key that takes a password, and at one that isn't known, since that may be one. The error is that memory was refused.
pub(crate) fn shown_at(
    alloc: Global,
    text: &str,
    cause: &Cause,
    steps: &[Step],
    spot: Option<Spot>,
) -> Result<Option<Met>, Memory>
    requires { IfSome spot (IsWithin text.now) }
    ensures { is_hidden cause.now ≡ true → IfOk result (λ met. met ≡ None) }
{
    match cause {
        Cause::KeyUnknown(_) | Cause::Kind(KeyTakes::Password) => Ok(None),
        _ => met_at(alloc, text, steps, spot),
    }
}

/// The text to which steps lead, none where they lead to none. The error is that memory was refused.
pub(crate) fn text_at(alloc: Global, text: &str, steps: &[Step]) -> Result<Option<String>, Memory> {
    let spot = find(alloc, text, steps)?;
    Ok(match met_at(alloc, text, steps, spot)? {
        Some(Met::Text(found)) => Some(found),
        _ => None,
    })
}

/// A text as TOML writes it, or the beginning of a long one. The error is that memory was refused.
fn shown_text(alloc: Global, text: &str) -> Result<String, Memory> {
    if text.len() <= SHOWN {
        return quoted_text(alloc, text);
    }
    let mut shown = String::from_str(alloc, "\"")?;
    let (beginning, _) = text.as_bytes().split_at(SHOWN);
    push_printable(beginning, &mut shown)?;
    shown.push_str("\" ...")?;
    Ok(shown)
}

/// A value as it is told: texts, whole numbers, true and false as TOML writes them, any other by its kind. The error is that
/// memory was refused.
pub(crate) fn value_words(alloc: Global, met: &Met) -> Result<String, Memory> {
    match met {
        Met::Text(text) => shown_text(alloc, text),
        Met::Number(number) => Ok(format!(in alloc; "{number}")?),
        Met::Flag(flag) => Ok(format!(in alloc; "{flag}")?),
        Met::Other(words) => Ok(String::from_str(alloc, words)?),
    }
}

/// What is shown of a line: all of it, or its beginning where it is long. The error is that memory was refused.
pub(crate) fn shown_line(alloc: Global, line: &[u8]) -> Result<String, Memory> {
    let mut shown = String::new(alloc);
    if line.len() <= SHOWN {
        push_printable(line, &mut shown)?;
    } else {
        let (beginning, _) = line.split_at(SHOWN);
        push_printable(beginning, &mut shown)?;
        shown.push_str(" ...")?;
    }
    Ok(shown)
}
