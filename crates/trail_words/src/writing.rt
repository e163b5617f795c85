//! Writes what a trail's file says.
ghost use Rattle.std.specs.Prelude.{◌≡◌, ◌++◌, ◌∷◌, [], Err, OnOk};
ghost use Rattle.std.specs.Io.KnownBytes.{Appends};
ghost use Rattle.trail_file.specs.Opening.{IsDamaged};
ghost use Rattle.trail_file.specs.Text.{recovered};
ghost use Rattle.trail_words.specs.Pieces as spec;
ghost use Rattle.trail_words.specs.Pieces.{PassesText, WritesText};
ghost use Rattle.trail_words.specs.Printing.{EndsWhole, HasNoHead, IsBegun, IsBegunOrNone, IsPrinted, trail_text};
ghost use Rattle.trail_words.specs.Wanting as wanting;

use crate::fault::TrailTextFault;
use crate::form::TrailForm;
use crate::json_text;
use crate::lines::{head_line, step_line};
use crate::reading::{headed, is_cut, read_entries};
use crate::steps::TrailStep;
use crate::wanted::{Wanted, is_by, is_new};
use crate::words::digest_text;
use cosem_data::memory::Memory;
use std::alloc::Global;
use std::io::Write;
use trail_file::head::Head;
use utc_moment::moment::UtcMoment;
use whole_writes::{write_full, write_waiting};

/// Writes the steps of a trail's file that are wanted, in a form (own profile): those of its entries that are whole. What stands behind a
/// latch that isn't open counts for nothing.
///
/// # Errors
/// `NoTrail` where the file's first entry is no head, and then nothing was written; `Damaged` where an open latch stands before an entry
/// that isn't whole, and then all was written; `Write` and `Memory`, and then a beginning was written.
pub fn write_trail<W: Write>(
    alloc: Global,
    file: &[u8],
    wanted: &Wanted<'_>,
    form: TrailForm,
    output: &mut W,
) -> Result<(), TrailTextFault>
    ensures ok { OnOk result (IsPrinted form wanted.now file.now (W.contents output.old) (W.contents output.new)) }
    ensures whole { OnOk result (EndsWhole file.now) }
    ensures no_trail { result ≡ Err TrailTextFault.NoTrail → HasNoHead (recovered file.now) }
    ensures unwritten { result ≡ Err TrailTextFault.NoTrail → Appends (W.contents output.old) (W.contents output.new) [] }
    ensures damaged { result ≡ Err TrailTextFault.Damaged → IsDamaged file.now }
    ensures printed { result ≡ Err TrailTextFault.Damaged
        → IsPrinted form wanted.now file.now (W.contents output.old) (W.contents output.new) }
    // Something is left of what was to be written.
    ensures write { result ≡ Err TrailTextFault.Write
        → IsBegun form wanted.now file.now 1 (W.contents output.old) (W.contents output.new) }
    ensures memory { result ≡ Err TrailTextFault.Memory
        → IsBegunOrNone form wanted.now file.now (W.contents output.old) (W.contents output.new) }
{
    let entries = read_entries(alloc, file)?;
    let Some((head, steps)) = headed(&entries.steps) else {
        return Err(TrailTextFault::NoTrail);
    };
    write_steps(alloc, form, &head, wanted, steps, output)?;
    if is_cut(entries.rest) {
        return Err(TrailTextFault::Damaged);
    }
    Ok(())
}

/// Writes a head and the steps that are wanted.
fn write_steps<W: Write>(
    alloc: Global,
    form: TrailForm,
    head: &Head,
    wanted: &Wanted<'_>,
    steps: &[TrailStep<'_>],
    output: &mut W,
) -> Result<(), TrailTextFault>
    ensures { WritesText (trail_text form head.now (wanting.wanted_of wanted.now steps.now))
        (W.contents output.old) (W.contents output.new) result }
{
    let mut waiting = Vec::new(alloc);
    push_front(alloc, form, head, &mut waiting)?;
    let mut is_later = false;
    let mut is_new_here = is_new(wanted.since, steps);
    for (number, step) in steps.iter().enumerate() {
        if is_new_here && is_by(wanted, step.line) {
            write_step(alloc, form, is_later, step, &mut waiting, output)?;
            is_later = true;
        }
        is_new_here = is_new_behind(wanted.since, is_new_here, step, &steps[number + 1..]);
    }
    push_foot(alloc, form, head, &mut waiting)?;
    write_waiting(&mut waiting, output)?;
    Ok(())
}

/// Whether the steps behind a step begin with one that isn't too old, where it is known whether the step is.
fn is_new_behind(
    since: Option<UtcMoment>,
    is_new_here: bool,
    step: &TrailStep<'_>,
    behind: &[TrailStep<'_>],
) -> bool
    requires { is_new_here ≡ wanting.is_new since (step.now ∷ behind.now) }
    ensures { result ≡ wanting.is_new since behind.now }
{
    if step.seconds.is_some() {
        is_new(since, behind)
    } else {
        is_new_here
    }
}

/// Puts a step behind the text that waits, and writes that where it is much.
fn write_step<W: Write>(
    alloc: Global,
    form: TrailForm,
    is_later: bool,
    step: &TrailStep<'_>,
    waiting: &mut Vec<u8>,
    output: &mut W,
) -> Result<(), TrailTextFault>
    ensures { PassesText (spec.step_text form is_later step.now) waiting.old.items waiting.new.items
        (W.contents output.old) (W.contents output.new) result }
{
    push_step(alloc, form, is_later, step, waiting)?;
    write_full(waiting, output)?;
    Ok(())
}

/// Puts a step behind a text. The error is that memory was refused.
fn push_step(
    alloc: Global,
    form: TrailForm,
    is_later: bool,
    step: &TrailStep<'_>,
    text: &mut Vec<u8>,
) -> Result<(), Memory>
    ensures { OnOk result (text.new.items ≡ text.old.items ++ spec.step_text form is_later step.now) }
{
    match form {
        TrailForm::Lines => {
            let line = step_line(alloc, step)?;
            text.extend_from_slice(line.as_bytes())?;
            Ok(())
        }
        TrailForm::Json => {
            if is_later {
                text.push(b',')?;
            }
            json_text::push_step(alloc, step, text)
        }
    }
}

/// Puts what stands before the steps behind a text. The error is that memory was refused.
fn push_front(alloc: Global, form: TrailForm, head: &Head, text: &mut Vec<u8>) -> Result<(), Memory>
    ensures { OnOk result (text.new.items ≡ text.old.items ++ spec.front_text form head.now) }
{
    match form {
        TrailForm::Lines => {
            let line = head_line(alloc, head)?;
            text.extend_from_slice(line.as_bytes())?;
        }
        TrailForm::Json => {
            let digest = digest_text(alloc, head)?;
            json_text::push_framed(
                alloc,
                b"{\"configuration\":",
                digest,
                b",\"program\":\"cosem-flow\",\"steps\":[",
                text,
            )?;
        }
    }
    Ok(())
}

/// Puts what stands behind the steps behind a text. The error is that memory was refused.
fn push_foot(alloc: Global, form: TrailForm, head: &Head, text: &mut Vec<u8>) -> Result<(), Memory>
    ensures { OnOk result (text.new.items ≡ text.old.items ++ spec.foot_text form head.now) }
{
    match form {
        TrailForm::Lines => {}
        TrailForm::Json => {
            let version = head.version.to_string(alloc)?;
            json_text::push_framed(alloc, b"],\"version\":", version, b"}\n", text)?;
        }
    }
    Ok(())
}
