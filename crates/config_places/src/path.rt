//! Paths as they are written, read into steps.

use crate::spot::Step;
use cosem_data::memory::Memory;
use std::alloc::Global;
use toml_parser::text::{first, skip};
use toml_parser::{ErrorKind, ParseError, dotted_key};
use value_words::numbers::number_in;

/// The index in brackets at the front of a text, and what follows it.
fn index(s: &str) -> Option<(usize, &str)> {
    let (digits, rest) = s.strip_prefix("[")?.split_once(']')?;
    let index = number_in(u64::MAX, digits.as_bytes())?;
    Some((index as usize, rest))
}

/// The steps that a text reads as.
fn steps_of(alloc: Global, path: &str) -> Result<Vec<Step>, ParseError> {
    let mut steps = Vec::new(alloc);
    let mut rest = path;
    for _step in 0..path.len() {
        if let Some((index, after)) = index(rest) {
            steps.push(Step::Element(index))?;
            rest = after;
        } else {
            let (key, after) = dotted_key(alloc, rest)?;
            for part in key.path {
                steps.push(Step::Key(part))?;
            }
            steps.push(Step::Key(key.last))?;
            rest = after;
        }
        if rest.is_empty() {
            return Ok(steps);
        }
        if first(rest) == b'.' {
            rest = skip(rest, 1);
        }
    }
    Err(ParseError::at(ErrorKind::Key, rest))
}

/// The steps of a path: keys as TOML writes them, with dots between them, and indexes from 0 in brackets. None where it isn't one.
///
/// # Errors
/// Memory was refused.
pub fn read_path(alloc: Global, path: &str) -> Result<Option<Vec<Step>>, Memory> {
    match steps_of(alloc, path) {
        Ok(steps) => Ok(Some(steps)),
        Err(ParseError::OutOfMemory) => Err(Memory),
        Err(ParseError::At(..)) => Ok(None),
    }
}
