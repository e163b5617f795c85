//! The names that clients may have.
ghost use Rattle.std.specs.Prelude.{◌≡◌};
ghost use Rattle.std.specs.List.{list_all};
ghost use Rattle.meter_theory.specs.ClientNames as spec;

use meter_theory::limits::NAME_CHARACTERS;

/// The words that begin a step of the meter itself: no client has such a name.
const INPUT: &[u8] = b"in";

const AT: &[u8] = b"at";

const EVALUATE: &[u8] = b"eval";

/// The word that lets seconds pass: no client has such a name since version 2.
const TICK: &[u8] = b"tick";

/// Whether a text has a to z, 0 to 9 and _ alone.
fn has_name_bytes(text: &[u8]) -> bool
    ensures { result ≡ list_all spec.is_name_byte text.now }
{
    text.iter()
        .all(|byte| matches!(byte, b'a'..=b'z' | b'0'..=b'9' | b'_'))
}

/// Whether a text is a word that begins a step of the meter itself.
fn is_step_word(text: &[u8]) -> bool
    ensures { result ≡ spec.is_step_word text.now }
{
    text == INPUT || text == AT || text == EVALUATE
}

/// Whether a text is a client's name: 1 to `NAME_CHARACTERS` of a to z, 0 to 9 and _, and no word that begins a step of the
/// meter itself, which are `in`, `at` and `eval` (own profile).
pub fn is_client_name(text: &[u8]) -> bool
    ensures { result ≡ spec.is_client_name text.now }
{
    1 <= text.len() && text.len() <= NAME_CHARACTERS && has_name_bytes(text) && !is_step_word(text)
}

/// Whether a client may have the name in a configuration of this version: since version 2 a line that begins with `tick` is no
/// client's (own profile).
pub fn may_be_named(version: u8, text: &[u8]) -> bool
    ensures { result ≡ spec.may_be_named version text.now }
{
    is_client_name(text) && !(version == 2 && text == TICK)
}
