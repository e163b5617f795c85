//! What is told of a step line.
ghost use Rattle.std.specs.Prelude.{◌≡◌, ◌++◌, [], IfOk, OnErr, OnOk};
ghost use Rattle.std.specs.Result.{result_unwrap_or};
ghost use Rattle.meter_theory.specs.Plan.{cells};
ghost use Rattle.meter_theory.specs.State.{keys};
ghost use Rattle.meter_theory.specs.States.{IsState};
ghost use Rattle.step_words.specs.StepLines.{decoded_step};
ghost use Rattle.step_words.specs.Texts.{decoded};
ghost use Rattle.line_words.specs.Changes.{told_part};
ghost use Rattle.line_words.specs.Telling.{answered_text, line_text, or_nothing, told_text, told_with};

use crate::cut::push_cut;
use crate::watch::Watch;
use cosem_data::memory::Memory;
use object_model::meter::Meter;
use object_model::plan::Plan;
use std::alloc::Global;
use step_words::fault::TextFault;
use step_words::steps::push_step;
use step_words::texts::decode_text;

/// A step line that was answered.
#[derive(Clone, Copy)]
pub(crate) struct Answered<'a> {
    /// The number of the line, counted from 1.
    pub number: u64,
    /// The line in hex, without its newline.
    pub line: &'a [u8],
    /// The text that was written for the line: a reply in upper-case hex and a newline, or nothing.
    pub reply: &'a [u8],
}

/// The words of the text that was written for a line, and none where it has no words.
fn reply_words(alloc: Global, reply: &[u8]) -> Result<Vec<u8>, Memory>
    ensures { IfOk result (λ words. words.items ≡ result_unwrap_or (decoded reply.now) []) }
{
    match decode_text(alloc, reply) {
        Ok(words) => Ok(words),
        Err(TextFault::Memory) => Err(Memory),
        Err(TextFault::At { .. }) => Ok(Vec::new(alloc)),
    }
}

/// Puts what was answered behind a text.
#[tactic(auto, using(crate::proofs::Told::none_answered, crate::proofs::Told::some_answered), unfolding(crate::specs::Telling::answered_text))]
fn push_answered(alloc: Global, reply: &[u8], told: &mut Vec<u8>) -> Result<(), Memory>
    ensures { OnOk result (told.new.items ≡ told.old.items ++ answered_text reply.now) }
{
    let words = reply_words(alloc, reply)?;
    if words.is_empty() {
        return Ok(());
    }
    let mut line = Vec::from_slice(alloc, b"  answered ")?;
    line.extend_from_slice(&words)?;
    push_cut(alloc, &line, told)
}

/// Puts the lines of what changed behind a text, or the line that nothing did.
#[tactic(auto, using(crate::proofs::Told::none_changed, crate::proofs::Told::some_changed))]
fn push_changes(changes: &[u8], told: &mut Vec<u8>) -> Result<(), Memory>
    ensures { OnOk result (told.new.items ≡ told.old.items ++ or_nothing changes.now) }
{
    if changes.is_empty() {
        told.extend_from_slice(b"  nothing changed\n")?;
    } else {
        told.extend_from_slice(changes)?;
    }
    Ok(())
}

/// Puts the words of a line with its number behind a text.
#[tactic(auto, unfolding(crate::specs::Telling::line_text))]
fn push_line_words(
    alloc: Global,
    number: u64,
    words: &[u8],
    told: &mut Vec<u8>,
) -> Result<(), Memory>
    ensures { OnOk result (told.new.items ≡ told.old.items ++ line_text number words.now) }
{
    let mut line = Vec::new(alloc);
    line.extend_from_slice(format!(in alloc; "line {number}: ")?.as_bytes())?;
    line.extend_from_slice(words)?;
    line.push(b'\n')?;
    push_cut(alloc, &line, told)
}

/// What is told of a line that has these words and made these changes.
fn told_of(
    alloc: Global,
    answered: Answered<'_>,
    words: &[u8],
    changes: &[u8],
) -> Result<Vec<u8>, Memory>
    ensures { IfOk result (λ told. told.items ≡ line_text answered.entry.number words.now
        ++ (answered_text answered.entry.reply.now ++ or_nothing changes.now)) }
{
    let mut told = Vec::new(alloc);
    push_line_words(alloc, answered.number, words, &mut told)?;
    push_answered(alloc, answered.reply, &mut told)?;
    push_changes(changes, &mut told)?;
    Ok(told)
}

/// Puts what is told of a line that made these changes behind a text: nothing where the line has no words.
#[tactic(auto, using(crate::proofs::Told::told_words, crate::proofs::Told::told_nothing))]
fn push_line(
    alloc: Global,
    answered: Answered<'_>,
    changes: &[u8],
    text: &mut Vec<u8>,
) -> Result<(), Memory>
    ensures ok { OnOk result (text.new.items ≡ text.old.items ++ told_with answered.entry.number
        (decoded_step answered.entry.line.now) answered.entry.reply.now changes.now) }
    ensures err { OnErr result (text.new.items ≡ text.old.items) }
{
    let mut words = Vec::new(alloc);
    if !push_step(alloc, answered.line, &mut words)? {
        return Ok(());
    }
    let told = told_of(alloc, answered, &words, changes)?;
    text.extend_from_slice(&told)?;
    Ok(())
}

/// Puts what is told of a line behind a text, and has the watch keep what the meter holds now. Of a line that has no words, as
/// an empty one or a comment, nothing is told (own profile).
///
/// # Errors
/// `Memory` where memory is refused; the text is then as it was, and the watch is of no more use.
#[tactic(auto, unfolding(crate::specs::Telling::told_text))]
pub(crate) fn push_told(
    alloc: Global,
    plan: &Plan,
    meter: &Meter,
    watch: &mut Watch,
    answered: Answered<'_>,
    text: &mut Vec<u8>,
) -> Result<(), Memory>
    requires of_plan { IsState plan.now meter.now }
    requires watched { keys watch.old ≡ cells plan.now }
    ensures told { OnOk result (text.new.items
        ≡ text.old.items ++ told_text answered.entry.number (decoded_step answered.entry.line.now)
        answered.entry.reply.now watch.old (told_part plan.now meter.now)) }
    ensures kept { OnOk result (watch.new ≡ told_part plan.now meter.now) }
    ensures err { OnErr result (text.new.items ≡ text.old.items) }
{
    let changes = watch.changes(alloc, plan, meter)?;
    push_line(alloc, answered, &changes, text)
}
