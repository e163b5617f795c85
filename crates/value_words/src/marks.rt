//! Bytes that are asked at the front of a text.
ghost use Rattle.std.specs.Prelude.{◌≡◌, option_map};
ghost use Rattle.value_words.specs.Stopping as spec;
ghost use Rattle.value_words.specs.Stopping.{Reads};

use crate::stop::{Stop, stop_at};

/// What stands behind these bytes, if they are in front of the text (own profile).
pub fn behind<'a>(mark: &[u8], text: &'a [u8]) -> Option<&'a [u8]>
    ensures { option_map (λ rest. rest.now) result ≡ spec.behind mark.now text.now }
{
    text.strip_prefix(mark)
}

/// What stands behind these bytes, which are asked (own profile).
///
/// # Errors
/// The stop in front of the text, if the bytes are not there.
pub fn mark_of<'a, A: Copy>(asked: A, mark: &[u8], text: &'a [u8]) -> Result<&'a [u8], Stop<A>>
    ensures { Reads (λ rest. rest.now) result (spec.mark_at asked mark.now text.now) }
{
    match behind(mark, text) {
        Some(rest) => Ok(rest),
        None => Err(stop_at(text, asked)),
    }
}
