//! The words of steps.
ghost use Rattle.std.specs.Prelude.{◌≡◌, ◌++◌, IfOk, OnOk, string_bytes};
ghost use Rattle.trail_words.specs.Lines as spec;

use cosem_data::memory::Memory;
use shown_text::printable::push_printable;
use std::alloc::Global;
use step_words::steps::push_step;
use trail_file::head::Head;

/// Puts the step of a line in words behind a text, as a terminal shows it. The error is that memory was refused.
pub(crate) fn push_words(alloc: Global, line: &[u8], text: &mut String) -> Result<(), Memory>
    ensures { OnOk result (string_bytes text.new ≡ string_bytes text.old ++ spec.line_words line.now) }
{
    let words = words_of(alloc, line)?;
    push_printable(&words, text)
}

/// The step of a line in words, or the line as it stands where it is no step line. The error is that memory was refused.
pub(crate) fn words_of(alloc: Global, line: &[u8]) -> Result<Vec<u8>, Memory>
    ensures { IfOk result (λ words. words.items ≡ spec.words_of line.now) }
{
    let mut words = Vec::new(alloc);
    if !push_step(alloc, line, &mut words)? {
        words.extend_from_slice(line)?;
    }
    Ok(words)
}

/// The digest of a head's configuration, as 64 digits in lower case.
pub(crate) fn digest_text(alloc: Global, head: &Head) -> Result<String, Memory>
    ensures { IfOk result (λ text. string_bytes text ≡ spec.digest_text head.now) }
{
    Ok(hex::encode(alloc, head.digest.as_slice())?)
}
