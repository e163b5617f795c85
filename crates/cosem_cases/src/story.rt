//! Stories of two sessions on one meter, against what answers them.
ghost use Rattle.std.specs.Prelude.{◌≡◌, IfSome};
ghost use Rattle.meter_theory.specs.States.{IsState};

use crate::hex_text::bytes_of;
use crate::texts::parted;
use acse_session::session::Session;
use config_reader::read_config;
use object_model::meter::Meter;
use object_model::plan::Plan;
use std::alloc::Global;
use xdlms_services::solo::Solo;

/// Two sessions on one meter.
#[derive(Drop)]
struct Pair<'a> {
    first: Session<'a>,
    second: Session<'a>,
}

/// Whether each line of the story, `SESSION WPORT APDU => ANSWER`, is as expected, where SESSION is `first` or `second`,
/// both on one
/// meter of the configuration that begins at its start. A line that begins with `#` is passed over; a story has one that doesn't.
pub(crate) fn is_told(alloc: Global, config: &str, story: &str) -> Option<bool> {
    let (plan, _policy) = read_config(alloc, config).ok()?;
    is_told_over(alloc, &plan, story)
}

/// Whether each line of the story is as expected over a plan.
fn is_told_over(alloc: Global, plan: &Plan, story: &str) -> Option<bool> {
    let mut solo = Solo::new(plan, started(alloc, plan)?);
    let mut pair = Pair {
        first: Session::new(plan),
        second: Session::new(plan),
    };
    Some(are_told(alloc, &mut pair, &mut solo, story))
}

/// A meter of the plan at its start, or `None` where memory is refused.
fn started(alloc: Global, plan: &Plan) -> Option<Meter>
    ensures { IfSome result (λ meter. IsState plan.now meter) }
{
    plan.known();
    match plan.start(alloc) {
        Ok(meter) => Some(meter),
        Err(_) => None,
    }
}

/// Whether each line of the story is as expected of two sessions.
fn are_told<'a>(alloc: Global, pair: &mut Pair<'a>, solo: &mut Solo<'_>, story: &str) -> bool
    requires first { pair.old.first.plan ≡ solo.old.plan }
    requires second { pair.old.second.plan ≡ solo.old.plan }
{
    let mut is_any = false;
    for line in story.lines() {
        if !line.starts_with('#') {
            is_any = true;
            if is_line_told(alloc, pair, solo, line) != Some(true) {
                return false;
            }
        }
    }
    is_any
}

/// Whether the line `SESSION WPORT APDU => ANSWER` is as expected: from this wPort comes this APDU, and this answers it, both in hex.
fn is_line_told<'a>(
    alloc: Global,
    pair: &mut Pair<'a>,
    solo: &mut Solo<'_>,
    line: &str,
) -> Option<bool>
    requires first { pair.old.first.plan ≡ solo.old.plan }
    requires second { pair.old.second.plan ≡ solo.old.plan }
    ensures first { pair.new.first.plan ≡ pair.old.first.plan }
    ensures second { pair.new.second.plan ≡ pair.old.second.plan }
    ensures plan { solo.new.plan ≡ solo.old.plan }
{
    let (given, answer) = parted(line, " => ");
    let (name, given) = parted(given, " ");
    match name {
        "first" => is_answered(alloc, &mut pair.first, solo, given, answer),
        "second" => is_answered(alloc, &mut pair.second, solo, given, answer),
        _ => None,
    }
}

/// Whether a session answers what is given to it, `WPORT APDU`, as expected.
fn is_answered<'a>(
    alloc: Global,
    session: &mut Session<'a>,
    solo: &mut Solo<'_>,
    given: &str,
    want: &str,
) -> Option<bool>
    requires { session.old.plan ≡ solo.old.plan }
    ensures session { session.new.plan ≡ session.old.plan }
    ensures plan { solo.new.plan ≡ solo.old.plan }
{
    let (source, apdu) = parted(given, " ");
    let source = source.parse::<u16>().ok()?;
    let apdu = bytes_of(alloc, apdu)?;
    let answer = session.answer(alloc, source, &apdu, solo).ok()?;
    Some(bytes_of(alloc, want)? == answer)
}
