//! A meter that answers lines and tells of each in words what it asked, what was answered and what changed (own profile).
ghost use Rattle.std.specs.Prelude.{◌≡◌, IfOk, OnOk, Some};
ghost use Rattle.meter_theory.specs.Plan.{cells, start};
ghost use Rattle.meter_theory.specs.State.{keys};
ghost use Rattle.line_words.specs.Telling.{told_text};
ghost use Rattle.step_words.specs.StepLines.{decoded_step};
ghost use Rattle.line_server.specs.Running.{RunsLines};
ghost use Rattle.line_words.specs.Watching.{Tells, TellsAll, shown};

use crate::telling::{Answered, push_told};
use crate::watch::Watch;
use cosem_data::memory::Memory;
use line_server::fault::LineFault;
use line_server::lines::{AnswersLines, answer_lines};
use line_server::running::LineMeter;
use object_model::plan::Plan;
use std::alloc::Global;
use std::io::{Read, Write};
use std::marker::Model;
use whole_writes::write_whole;

/// A meter of a plan alone, which answers lines, and a writer on which it tells of each. Contracts see the meter, what it held
/// when it was looked at last, and what was told. Where memory was refused for that, or a write failed, nothing more is told.
#[derive(Drop)]
pub struct Watched<'a, E: Write + Drop> {
    solo: LineMeter<'a>,
    watch: Option<Watch>,
    errors: E,
}

impl<'a, E: Write + Drop> Model for Watched<'a, E> {
    ghost use Rattle.line_words.specs.Watching.{Watched as Aloud, watched_code, IsWatched};

    ghost Value = { Aloud };

    ghost coded = { watched_code };

    ghost view = { λ w. record { solo = w.solo; watch = w.watch; told = E.contents w.errors } };

    ghost invariant = { λ w. IsWatched w.solo w.watch };
}

impl<'a, E: Write + Drop> Watched<'a, E> {
    /// A meter that begins at the start of the plan, and tells on this writer.
    pub fn start(alloc: Global, plan: &'a Plan, errors: E) -> Result<Self, Memory>
        ensures plan { IfOk result (λ x. x.solo.plan ≡ plan.now) }
        ensures meter { IfOk result (λ x. x.solo.meter ≡ start plan.now) }
        ensures told { IfOk result (λ x. x.told ≡ E.contents errors) }
    {
        let solo = LineMeter::start(alloc, plan)?;
        solo.known();
        let watch = Watch::new(alloc, plan, solo.meter())?;
        Ok(Watched {
            solo,
            watch: Some(watch),
            errors,
        })
    }
}

impl<'a, E: Write + Drop> AnswersLines for Watched<'a, E> {
    ghost use Rattle.line_words.specs.Watching.{AnswersAloud, StopsAloud};

    ghost answers = { AnswersAloud };

    ghost stops = { StopsAloud };

    #[tactic(auto, using(crate::proofs::Aloud::watched_cells))]
    fn answer_line(
        &mut self,
        alloc: Global,
        number: u64,
        line: &[u8],
        waiting: &mut Vec<u8>,
    ) -> Result<(), LineFault> {
        // Nothing more is told behind a line that ends the run.
        let watch = self.watch.take();
        self.solo.known();
        let start = waiting.len();
        self.solo.answer_line(alloc, number, line, waiting)?;
        if let Some(watch) = watch {
            let answered = Answered {
                number,
                line,
                reply: &waiting[start..],
            };
            self.watch = tell(alloc, &self.solo, watch, answered, &mut self.errors);
        }
        Ok(())
    }
}

/// Tells of a line, and gives the watch back where all of it was told.
fn tell<E: Write>(
    alloc: Global,
    solo: &LineMeter<'_>,
    mut watch: Watch,
    answered: Answered<'_>,
    errors: &mut E,
) -> Option<Watch>
    requires { keys watch ≡ cells solo.now.plan }
    ensures { Tells (told_text answered.entry.number
        (decoded_step answered.entry.line.now) answered.entry.reply.now watch (shown solo.now))
        (shown solo.now) (Some watch) result (E.contents errors.old) (E.contents errors.new) }
{
    solo.known();
    let mut text = Vec::new(alloc);
    push_told(
        alloc,
        solo.plan(),
        solo.meter(),
        &mut watch,
        answered,
        &mut text,
    )
    .ok()?;
    write_whole(errors, &text).ok()?;
    Some(watch)
}

/// Answers the lines that the reader gives as `run_lines` does, and tells of each that says something, once it is answered: what
/// it asked, what was answered and what changed, in words.
pub fn run_watched<R: Read, W: Write, E: Write + Drop>(
    alloc: Global,
    watched: &mut Watched<'_, E>,
    reader: &mut R,
    writer: &mut W,
) -> Result<u64, LineFault>
    requires { watched.old.solo.meter ≡ start watched.old.solo.plan }
    // What was read and written is that of a run of the lines.
    ensures runs { RunsLines watched.old.solo.plan
        (record { unread = R.remaining reader.old; written = W.contents writer.old })
        (record { unread = R.remaining reader.new; written = W.contents writer.new }) result }
    // Where all lines are answered, what was told is a beginning of what there is to tell of them.
    ensures told { OnOk result (TellsAll watched.old.solo.plan
        (R.remaining reader.old) (R.remaining reader.new) watched.old.told watched.new.told) }
{
    answer_lines(alloc, watched, reader, writer)
}
