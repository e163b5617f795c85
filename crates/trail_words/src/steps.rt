//! A step as an entry of a trail tells it.
ghost use Rattle.std.specs.Prelude.{◌≡◌, is_some, option_map};
ghost use Rattle.step_words.specs.StepLines.{seconds_in};
ghost use Rattle.trail_words.specs.Notes as spec;

use crate::notes::first_word;
use meter_theory::limits::TICK_SECONDS;
use value_text::client_name::is_client_name;
use value_words::numbers::number_in;

/// An entry of a trail's file, lent from its bytes.
#[derive(Clone, Copy)]
pub(crate) struct TrailStep<'a> {
    /// How many seconds after 1970-01-01T00:00:00Z the moment is that the note tells.
    pub seconds: Option<u64>,
    /// What is told of the step, without the latch before it.
    pub note: &'a [u8],
    /// What the step was.
    pub line: &'a [u8],
}

/// The word of seconds that pass, which a plan of version 1 may have for a client's name too.
const TICK: &[u8] = b"tick";

/// The first word of a line that has more, if a client may be named so and no seconds pass by the line.
pub(crate) fn client_of(line: &[u8]) -> Option<&[u8]>
    ensures { option_map (λ name. name.now) result ≡ spec.client_of line.now }
{
    let (word, rest) = first_word(line);
    let rest = rest?;
    if is_client_name(word) && !(word == TICK && is_seconds(rest)) {
        Some(word)
    } else {
        None
    }
}

/// Whether a text is how many seconds pass: 1 to 3600 as a decimal number without leading zeros.
fn is_seconds(text: &[u8]) -> bool
    ensures { result ≡ is_some (seconds_in text.now) }
{
    match number_in(u64::from(TICK_SECONDS), text) {
        Some(seconds) => seconds >= 1,
        None => false,
    }
}
