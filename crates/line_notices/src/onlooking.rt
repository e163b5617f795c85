//! A client that looks on at lines: which of them it could notice (own profile).
ghost use Rattle.std.specs.Prelude.{◌≡◌, ◌++◌, OnErr, OnOk};
ghost use Rattle.line_notices.specs.Onlooking as spec;
ghost use Rattle.line_notices.specs.Onlooking.{NoticesLines, onlooker};
ghost use Rattle.line_notices.specs.Seen as told;

use crate::seen::{Seen, Sight, line_seen, seen_text};
use cosem_data::memory::Memory;
use flow_checker::check::Checked;
use line_server::fault::LineFault;
use line_server::line::{Line, read_line};
use line_server::lines::{AnswersLines, answer_lines};
use line_server::running::unreadable;
use std::alloc::Global;
use std::io::{Read, Write};
use std::marker::Model;
use whole_writes::write_whole;

/// A client that looks on at the lines for a meter of an accepted plan. For each line it is answered whether the client could
/// notice a step of it, and what it could notice is told on a writer, unless there is none. Contracts see the plan, its policy and
/// the client. Where memory was refused for the telling, or a write failed, nothing more is told.
#[derive(Drop)]
pub struct Onlooker<'a, E: Write + Drop> {
    checked: &'a Checked,
    client: u8,
    apdu: Vec<u8>,
    errors: Option<E>,
}

impl<'a, E: Write + Drop> Model for Onlooker<'a, E> {
    ghost use Rattle.std.specs.Coded.{codes};
    ghost use Rattle.meter_theory.specs.PlanCode.{plan_code};
    ghost use Rattle.line_notices.specs.Onlooking.{Onlooker as Looks, onlooker};

    ghost Value = { Looks };

    ghost coded = { Prim.hlevel (codes, plan_code) };

    ghost view = { λ o. onlooker o.checked.now o.client };
}

impl<'a, E: Write + Drop> Onlooker<'a, E> {
    /// The client at this place looks on.
    pub fn new(alloc: Global, checked: &'a Checked, client: u8, errors: Option<E>) -> Self
        ensures { result ≡ onlooker checked.now client }
    {
        Onlooker {
            checked,
            client,
            apdu: Vec::new(alloc),
            errors,
        }
    }

    /// Tells of a line that is seen, unless the telling failed before.
    fn tell(&mut self, alloc: Global, number: u64, line: &[u8], seen: &Seen)
        ensures { self.new ≡ self.old }
    {
        if let Some(mut errors) = self.errors.take() {
            if tell_seen(alloc, number, line, seen, &mut errors) {
                self.errors = Some(errors);
            }
        }
    }
}

/// Tells of a line that is seen, and says whether all of it was told: memory may be refused, and a write fail.
fn tell_seen<E: Write>(alloc: Global, number: u64, line: &[u8], seen: &Seen, errors: &mut E) -> bool
    ensures { spec.TellsSeen (told.seen_text number line.now seen.now)
        (E.contents errors.old) (E.contents errors.new) }
{
    match seen_text(alloc, number, line, seen) {
        Ok(text) => write_whole(errors, &text).is_ok(),
        Err(_) => false,
    }
}

impl<'a, E: Write + Drop> AnswersLines for Onlooker<'a, E> {
    ghost use Rattle.line_notices.specs.Onlooking.{AnswersOnlooker, StopsOnlooker};

    ghost answers = { AnswersOnlooker };

    ghost stops = { StopsOnlooker };

    fn answer_line(
        &mut self,
        alloc: Global,
        number: u64,
        line: &[u8],
        waiting: &mut Vec<u8>,
    ) -> Result<(), LineFault> {
        let Ok(said) = read_line(alloc, self.checked.plan(), line, &mut self.apdu) else {
            return Err(LineFault::Memory);
        };
        if let Line::Unreadable(why) = said {
            return Err(unreadable(alloc, number, why, waiting));
        }
        let sight = Sight {
            checked: self.checked,
            client: self.client,
        };
        let Ok(seen) = answer_said(alloc, sight, said, waiting) else {
            return Err(LineFault::Memory);
        };
        if let Some(seen) = seen {
            self.tell(alloc, number, line, &seen);
        }
        Ok(())
    }
}

/// Puts behind the texts that wait whether the client could notice what a line asks for, and gives the step that it could notice
/// first. Nothing is put of a line that says nothing. The error is that memory was refused, and then the texts are as they were.
fn answer_said(
    alloc: Global,
    sight: Sight<'_>,
    said: Line<'_>,
    waiting: &mut Vec<u8>,
) -> Result<Option<Seen>, Memory>
    ensures ok { OnOk result (waiting.new.items ≡ waiting.old.items
        ++ spec.said_text (onlooker sight.entry.checked.now sight.entry.client) said.entry) }
    ensures err { OnErr result (waiting.new.items ≡ waiting.old.items) }
{
    if let Line::Skipped = said {
        return Ok(None);
    }
    let seen = line_seen(alloc, sight, said)?;
    put_verdict(seen.is_some(), waiting)?;
    Ok(seen)
}

/// Puts the line of a verdict behind the texts that wait. The error is that memory was refused, and then the texts are as they were.
fn put_verdict(is_seen: bool, waiting: &mut Vec<u8>) -> Result<(), Memory>
    ensures ok { OnOk result (waiting.new.items ≡ waiting.old.items ++ spec.verdict_text is_seen) }
    ensures err { OnErr result (waiting.new.items ≡ waiting.old.items) }
{
    let word = if is_seen { "seen\n" } else { "quiet\n" };
    waiting.extend_from_slice(word.as_bytes())?;
    Ok(())
}

/// Tells of each line that the reader gives whether the client could notice it, and says how many lines there were. Lines are read as
/// `run_lines` reads them.
pub fn notice_all<R: Read, W: Write, E: Write + Drop>(
    alloc: Global,
    onlooker: &mut Onlooker<'_, E>,
    reader: &mut R,
    writer: &mut W,
) -> Result<u64, LineFault>
    ensures { NoticesLines onlooker.old
        (record { unread = R.remaining reader.old; written = W.contents writer.old })
        (record { unread = R.remaining reader.new; written = W.contents writer.new }) result }
{
    answer_lines(alloc, onlooker, reader, writer)
}
