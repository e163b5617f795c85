//! What the key at a place names, by one more reading of it.

ghost use Rattle.std.specs.Prelude.{◌≡◌, ◌↔◌, Contains, IsTrue, IfOk, IfSome, slice_index, string_bytes};
ghost use Rattle.toml_parser.specs.Reading.{path_view};
ghost use Rattle.toml_parser.specs.Lexical.{left_bracket};
ghost use Rattle.config_places.specs.Spots as spec;

use crate::spot::Step;
use std::alloc::Global;
use toml_parser::text::{byte_at, first, skip, skip_ws};
use toml_parser::{Key, ParseError, dotted_key};

/// Whether a name is a part of a key before the last.
fn is_before_last(name: &String, key: &Key) -> bool
    ensures { IsTrue result ↔ Contains (path_view key.now.path.items) (string_bytes name.now) }
{
    key.path.contains(name)
}

/// What is after a header's brackets and white space.
fn after_brackets(text: &str) -> &str
    requires { slice_index text.now 0 ≡ left_bracket }
    ensures { result.now ≡ spec.after_brackets text.now }
{
    if byte_at(text, 1) == b'[' {
        skip_ws(skip(text, 2))
    } else {
        skip_ws(skip(text, 1))
    }
}

/// The value of the key with this name at the front of a text, or all of the text where a header or a key names it in passing.
fn value_of<'t>(
    alloc: Global,
    text: &'t str,
    name: &String,
    is_named: bool,
) -> Result<Option<&'t str>, ParseError>
    ensures { IfOk result (λ found. IfSome found (λ value. spec.IsNamed (Step.Key name.now) text.now value.now)) }
{
    if first(text) == b'[' {
        let (key, _) = dotted_key(alloc, after_brackets(text))?;
        let is_there = is_before_last(name, &key) || key.last == *name;
        return Ok(if is_there { Some(text) } else { None });
    }
    let (key, rest) = dotted_key(alloc, text)?;
    if !is_named {
        return Ok(if is_before_last(name, &key) {
            Some(text)
        } else {
            None
        });
    }
    if key.last == *name && first(rest) == b'=' {
        Ok(Some(skip_ws(skip(rest, 1))))
    } else {
        Ok(None)
    }
}

/// The value of what a step leads to that is named at the front of a text: itself, or in passing.
pub(crate) fn named_value<'t>(
    alloc: Global,
    text: &'t str,
    step: &Step,
    is_named: bool,
) -> Result<Option<&'t str>, ParseError>
    ensures { IfOk result (λ found. IfSome found (λ value. spec.IsNamed step.now text.now value.now)) }
{
    match step {
        Step::Key(name) => value_of(alloc, text, name, is_named),
        Step::Element(_) => Ok(Some(text)),
    }
}
