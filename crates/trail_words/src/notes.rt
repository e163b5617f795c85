//! What a note tells of the step below it.
ghost use Rattle.std.specs.Prelude.{◌≡◌, ◌<◌, IfSome, length, option_map};
ghost use Rattle.trail_words.specs.Notes as spec;
ghost use Rattle.trail_words.specs.Notes.{IsMomentOf};

use utc_moment::moment::UtcMoment;

/// The note of seconds that moved the clock alone, and waited for the next step.
const WAITED: &[u8] = b" seconds that moved the clock alone";

/// Who took them.
const CLOCK: &[u8] = b"clock";

/// What stands in the place of a moment that isn't known.
const UNKNOWN: &[u8] = b"-";

const SPACE: u8 = b' ';

const COLON: u8 = b':';

/// A text without the space in front of it, if there is one.
pub(crate) fn unspaced(text: &[u8]) -> &[u8]
    ensures { result.now ≡ spec.unspaced text.now }
{
    match text {
        [SPACE, rest @ ..] => rest,
        _ => text,
    }
}

/// Where the first of these bytes stands.
fn place_of(mark: u8, text: &[u8]) -> Option<usize>
    ensures first { result ≡ spec.place_of mark text.now }
    ensures within { IfSome result (λ place. place < length text.now) }
{
    text.iter().position(|byte| *byte == mark)
}

/// What stands before the first of these bytes, which is all of the text where there is none, and what stands behind it.
fn split_at(mark: u8, text: &[u8]) -> (&[u8], Option<&[u8]>)
    ensures before { result.0.now ≡ spec.before (spec.place_of mark text.now) text.now }
    ensures behind { option_map (λ rest. rest.now) result.1 ≡ spec.behind (spec.place_of mark text.now) text.now }
{
    match place_of(mark, text) {
        Some(place) => (&text[..place], Some(&text[place + 1..])),
        None => (text, None),
    }
}

/// The first word of a text, and what stands behind the space that ends it.
pub(crate) fn first_word(text: &[u8]) -> (&[u8], Option<&[u8]>)
    ensures word { result.0.now ≡ spec.first_word text.now }
    ensures behind { option_map (λ rest. rest.now) result.1 ≡ spec.behind (spec.place_of 32 text.now) text.now }
{
    split_at(SPACE, text)
}

/// How many seconds after 1970-01-01T00:00:00Z the moment is that a note tells by its first word.
pub(crate) fn seconds_in(note: &[u8]) -> Option<u64>
    ensures { IsMomentOf note.now result }
{
    match UtcMoment::read(moment_word(note)) {
        Some(moment) => Some(moment.seconds()),
        None => None,
    }
}

/// The first word of a note, behind a space.
fn moment_word(note: &[u8]) -> &[u8]
    ensures { result.now ≡ spec.moment_word note.now }
{
    first_word(unspaced(note)).0
}

/// The text of the moment that a note tells, if it tells one.
pub(crate) fn moment_in(note: &[u8], tells_moment: bool) -> Option<&[u8]>
    ensures { option_map (λ moment. moment.now) result ≡ spec.moment_in note.now tells_moment }
{
    if tells_moment {
        Some(moment_word(note))
    } else {
        None
    }
}

/// What a note tells behind its moment, if it has the form in which a step's taker is told.
fn told_in(note: &[u8], tells_moment: bool) -> Option<&[u8]>
    ensures { option_map (λ told. told.now) result ≡ spec.told_in note.now tells_moment }
{
    if note == WAITED {
        return Some(CLOCK);
    }
    let (word, told) = first_word(unspaced(note));
    if tells_moment || word == UNKNOWN {
        told
    } else {
        None
    }
}

/// Who took the step, as a note tells it.
pub(crate) fn taker_in(note: &[u8], tells_moment: bool) -> Option<&[u8]>
    ensures { option_map (λ taker. taker.now) result ≡ spec.taker_in note.now tells_moment }
{
    let told = told_in(note, tells_moment)?;
    Some(split_at(COLON, told).0)
}

/// What was answered, as a note tells it.
pub(crate) fn result_in(note: &[u8], tells_moment: bool) -> Option<&[u8]>
    ensures { option_map (λ text. text.now) result ≡ spec.result_in note.now tells_moment }
{
    let told = told_in(note, tells_moment)?;
    let behind = split_at(COLON, told).1?;
    Some(unspaced(behind))
}
