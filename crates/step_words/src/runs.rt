//! The bytes in front of a text that pass a test.
ghost use Rattle.std.specs.Prelude.{◌≡◌, ◌<◌, not, length, position, IfSome};
ghost use Rattle.value_words.specs.Stopping.{front, past};
ghost use Rattle.step_words.specs.Parts as spec;

/// What a run in front of a text is of.
#[derive(Clone, Copy)]
pub(crate) enum Run {
    /// Decimal digits.
    Digits,
    /// Decimal digits and dots, of a logical name.
    Name,
    /// Letters from a to z, digits and underscores, of a first word.
    Word,
    /// Upper-case hex digits.
    Hex,
}

/// Whether a byte goes on with a run.
fn passes(run: Run, byte: u8) -> bool
    ensures { result ≡ spec.passes run byte }
{
    match run {
        Run::Digits => byte.is_ascii_digit(),
        Run::Name => byte.is_ascii_digit() || byte == b'.',
        Run::Word => matches!(byte, b'a'..=b'z' | b'0'..=b'9' | b'_'),
        Run::Hex => matches!(byte, b'0'..=b'9' | b'A'..=b'F'),
    }
}

/// The place of the first byte that ends the run.
fn end_of_run(run: Run, text: &[u8]) -> Option<usize>
    ensures first { result ≡ position (λ b. not (spec.passes run b)) text.now }
    ensures within { IfSome result (λ k. k < length text.now) }
{
    text.iter().position(|byte| !passes(run, *byte))
}

/// The run in front, and what stands behind it.
pub(crate) fn run_of(run: Run, text: &[u8]) -> (&[u8], &[u8])
    ensures front { result.0.now ≡ front (spec.passes run) text.now }
    ensures past { result.1.now ≡ past (spec.passes run) text.now }
{
    match end_of_run(run, text) {
        Some(count) => text.split_at(count),
        None => text.split_at(text.len()),
    }
}
