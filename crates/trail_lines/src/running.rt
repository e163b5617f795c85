//! A meter that answers the lines of a trail.
ghost use Rattle.std.specs.Prelude.{◌≡◌, None, Some, IfErr, IfOk, OnErr, OnOk};
ghost use Rattle.meter_theory.specs.Plan.{start};
ghost use Rattle.meter_theory.specs.Replies.{run};
ghost use Rattle.meter_theory.specs.Steps.{next};
ghost use Rattle.meter_core.specs.StepView.{step_of};
ghost use Rattle.step_keeping.specs.Keeping.{ticks};
ghost use Rattle.trail_lines.specs.Reading.{own_steps};
ghost use Rattle.trail_lines.specs.Running.{EndsOwn, RunsTrail, reason_in};

use crate::line::{TrailLine, own_line};
use cosem_data::memory::Memory;
use line_server::fault::LineFault;
use line_server::line::Line;
use line_server::lines::{AnswersLines, answer_lines};
use line_server::reason::Reason;
use line_server::running::{LineMeter, unreadable};
use meter_core::step::Step;
use object_model::plan::Plan;
use std::alloc::Global;
use std::io::{Read, Write};
use std::marker::Model;

/// A meter of a plan alone, which answers lines of a trail. Contracts see the plan and the meter.
#[derive(Drop)]
pub struct TrailMeter<'a> {
    meter: LineMeter<'a>,
}

impl<'a> Model for TrailMeter<'a> {
    ghost use Rattle.xdlms_services.specs.Solo.{Alone, alone_code};

    ghost Value = { Alone };

    ghost coded = { alone_code };

    ghost view = { λ s. s.meter };
}

impl<'a> TrailMeter<'a> {
    /// A meter that begins at the start of the plan.
    pub fn start(alloc: Global, plan: &'a Plan) -> Result<Self, Memory>
        ensures { IfOk result (λ x. x ≡ record { plan = plan.now; meter = start plan.now }) }
    {
        let meter = LineMeter::start(alloc, plan)?;
        Ok(TrailMeter { meter })
    }
}

impl<'a> AnswersLines for TrailMeter<'a> {
    ghost use Rattle.trail_lines.specs.Running.{AnswersTrailLine, StopsAtTrailLine};

    ghost answers = { AnswersTrailLine };

    ghost stops = { StopsAtTrailLine };

    fn answer_line(
        &mut self,
        alloc: Global,
        number: u64,
        line: &[u8],
        waiting: &mut Vec<u8>,
    ) -> Result<(), LineFault> {
        match own_line(line) {
            Some(own) => answer_own(alloc, &mut self.meter, number, own, waiting),
            None => self.meter.answer_line(alloc, number, line, waiting),
        }
    }
}

/// Answers a line that begins with a word of the trail alone, for which nothing is written but that it is unreadable.
fn answer_own(
    alloc: Global,
    meter: &mut LineMeter<'_>,
    number: u64,
    own: TrailLine<'static>,
    waiting: &mut Vec<u8>,
) -> Result<(), LineFault>
    ensures readable { OnOk result (reason_in own.entry ≡ None) }
    ensures taken { OnOk result (meter.new
        ≡ record { plan = meter.old.plan; meter = run meter.old.plan meter.old.meter (own_steps own.entry) }) }
    ensures nothing { OnOk result (waiting.new.items ≡ waiting.old.items) }
    ensures err { IfErr result (λ fault. EndsOwn (reason_in own.entry) number waiting.old.items waiting.new.items fault) }
{
    match take_own(alloc, meter, &own) {
        Ok(None) => Ok(()),
        Ok(Some(why)) => Err(unreadable(alloc, number, why, waiting)),
        Err(_) => Err(LineFault::Memory),
    }
}

/// The meter takes the steps that a line brings beside those of a step line. Says why the line is unreadable, if it is.
fn take_own(
    alloc: Global,
    meter: &mut LineMeter<'_>,
    own: &TrailLine<'_>,
) -> Result<Option<Reason>, Memory>
    ensures why { IfOk result (λ why. why ≡ reason_in own.now) }
    ensures taken { OnOk result (meter.new
        ≡ record { plan = meter.old.plan; meter = run meter.old.plan meter.old.meter (own_steps own.now) }) }
{
    match own {
        TrailLine::Said(Line::Unreadable(why)) => return Ok(Some(*why)),
        TrailLine::Said(_) => {}
        TrailLine::SetClock(moment) => meter.take(alloc, Step::ClockAt { moment: *moment })?,
        TrailLine::MoveClock(seconds) => take_seconds(alloc, meter, *seconds)?,
        TrailLine::CaptureIfDue(profile) => {
            meter.take(alloc, Step::CaptureAt { profile: *profile })?;
        }
        TrailLine::RunIfDue(schedule) => {
            meter.take(
                alloc,
                Step::ScheduleAt {
                    schedule: *schedule,
                },
            )?;
        }
    }
    Ok(None)
}

/// So many seconds pass over the meter, at which no object is offered its step.
fn take_seconds(alloc: Global, meter: &mut LineMeter<'_>, seconds: u32) -> Result<(), Memory>
    ensures { OnOk result (meter.new
        ≡ record { plan = meter.old.plan; meter = run meter.old.plan meter.old.meter (ticks seconds) }) }
{
    for _second in 0..seconds {
        meter.take(alloc, Step::Tick)?;
    }
    Ok(())
}

/// Answers the lines of a trail that the reader gives, by a meter of the plan that begins at its start, and says how many lines
/// there were.
///
/// `set-clock MOMENT` sets the clock of a meter without a clock object, `move-clock N` lets so many seconds pass, 1 to 86400,
/// `capture-if-due NAME` and `run-if-due NAME` have a profile and a single action schedule look at the clock. No object that a line
/// doesn't name is offered its step, and nothing is written. Any other line is answered as `line_server::running::run_lines` answers
/// it, and so are faults told.
pub fn run_trail<R: Read, W: Write>(
    alloc: Global,
    plan: &Plan,
    reader: &mut R,
    writer: &mut W,
) -> Result<u64, LineFault>
    ensures runs { RunsTrail plan.now
        (record { unread = R.remaining reader.old; written = W.contents writer.old })
        (record { unread = R.remaining reader.new; written = W.contents writer.new }) result }
{
    let Ok(mut meter) = TrailMeter::start(alloc, plan) else {
        return Err(LineFault::Memory);
    };
    answer_lines(alloc, &mut meter, reader, writer)
}
