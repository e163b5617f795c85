//! What follows values.

use std::alloc::Global;
use toml_parser::text::{first, skip};
use toml_parser::{ErrorKind, ParseError, quoted, starts_string};

/// What follows the string, the comment or the character at the front of a text. `depth` is how many brackets are open.
fn after_token<'t>(alloc: Global, s: &'t str, depth: &mut usize) -> Result<&'t str, ParseError> {
    if starts_string(s) {
        let (_, rest) = quoted(alloc, s)?;
        return Ok(rest);
    }
    match first(s) {
        b'[' | b'{' => *depth = depth.saturating_add(1),
        b']' | b'}' => *depth = depth.saturating_sub(1),
        b'#' => return Ok(after_line(s)),
        0 | 128.. => return Err(ParseError::at(ErrorKind::Value, s)),
        _ => {}
    }
    Ok(skip(s, 1))
}

/// What follows the value at the front of a text: a comma, a closing bracket, a comment or the end of its line or of the text.
pub(crate) fn after_value(alloc: Global, s: &str) -> Result<&str, ParseError> {
    let mut depth = 0usize;
    let mut rest = s;
    for _token in 0..s.len() {
        if depth == 0 && matches!(first(rest), b',' | b']' | b'}' | b'#' | b'\n' | b'\r' | 0) {
            break;
        }
        rest = after_token(alloc, rest, &mut depth)?;
    }
    Ok(rest)
}

/// What follows the first end of a line.
pub(crate) fn after_line(s: &str) -> &str {
    match s.split_once('\n') {
        Some((_, rest)) => rest,
        None => "",
    }
}
