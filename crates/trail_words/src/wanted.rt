//! Which steps of a trail are wanted.
ghost use Rattle.std.specs.Prelude.{◌≡◌};
ghost use Rattle.trail_words.specs.Wanting as spec;

use crate::notes::first_word;
use crate::steps::TrailStep;
use utc_moment::moment::UtcMoment;

/// Which steps of a trail are printed (own profile): those that both fields want.
#[derive(Clone, Copy)]
pub struct Wanted<'a> {
    /// Only steps whose line begins with this word, the name of a client.
    pub client: Option<&'a str>,
    /// Only steps from this moment on; one that tells no moment is as old as the next that tells one, and too old where none does.
    pub since: Option<UtcMoment>,
}

/// Whether a line begins with the name of the client that is wanted.
pub(crate) fn is_by(wanted: &Wanted<'_>, line: &[u8]) -> bool
    ensures { result ≡ spec.is_by (spec.client_wanted wanted.now) line.now }
{
    match wanted.client {
        Some(name) => first_word(line).0 == name.as_bytes(),
        None => true,
    }
}

/// Whether the first of these steps isn't too old.
pub(crate) fn is_new(since: Option<UtcMoment>, steps: &[TrailStep<'_>]) -> bool
    ensures { result ≡ spec.is_new since steps.now }
{
    match since {
        Some(moment) => is_since(moment, steps),
        None => true,
    }
}

/// Whether the first of these steps that tells a moment tells one that isn't before this one.
fn is_since(since: UtcMoment, steps: &[TrailStep<'_>]) -> bool
    ensures { result ≡ spec.is_since since steps.now }
{
    let first = since.seconds();
    for step in steps {
        if let Some(seconds) = step.seconds {
            return first <= seconds;
        }
    }
    false
}
