//! Lines that are read, one after another, over whatever answers them.
ghost use Rattle.std.specs.Prelude.{◌≡◌, ◌+◌, ◌++◌, ◌^◌, ◌<◌, [], IfErr, IfOk, IfSome, length};
ghost use Rattle.line_server.specs.Feeding.{Feeds};
ghost use Rattle.line_server.specs.Lines.{AnswersAll, IsLine};
ghost use Rattle.line_server.specs.Pieces.{Halts, TakesPiece, EndsRun};

use crate::fault::LineFault;
use crate::feeding::Feeder;
use std::alloc::Global;
use std::io::{Read, Write};
use whole_writes::{write_full, write_waiting};

/// What answers lines, one after another.
pub trait AnswersLines {
    ghost use Rattle.std.specs.Prelude.{ℕ, List, OnOk, IfErr};
    ghost use Rattle.line_server.specs.Lines.{Puts};
    ghost use Rattle.line_server.specs.declared.fault.LineFault.{LineFault as FaultValue};

    /// The line with this number, from 1, leads from the old to the new, and this text is put for it.
    ghost answers: { Self → ℕ → List ℕ → List ℕ → Self → Type 0 };

    /// The line with this number ends the run by this fault, and this text is put for it.
    ghost stops: { Self → ℕ → List ℕ → List ℕ → FaultValue → Type 0 };

    /// Answers a line, and puts its text behind those that wait. An error ends the run.
    fn answer_line(
        &mut self,
        alloc: Global,
        number: u64,
        line: &[u8],
        waiting: &mut Vec<u8>,
    ) -> Result<(), LineFault>
        ensures ok { OnOk result (Puts waiting.old.items waiting.new.items
            (λ text. answers self.old number line.now text self.new)) }
        ensures err { IfErr result (λ fault. Puts waiting.old.items waiting.new.items
            (λ text. stops self.old number line.now text fault)) };
}

/// What has begun of a line, how many lines have ended, and the texts that wait to be written.
#[derive(Drop)]
struct Run {
    feeder: Feeder,
    count: u64,
    waiting: Vec<u8>,
}

/// How many bytes are read at once at most.
const PIECE: usize = 65536;

/// Has the lines that the reader gives answered, one after another, and says how many there were.
///
/// A line ends with a newline, and the last one may end with the input. One line is in memory at a time, and the texts that
/// wait to be written: they are written before each read, at the end, and where they are more than 64 KiB. Where a fault ends
/// the run, the lines before it are answered and nothing else was written than what the line that ends it is answered, but
/// after `Write` what was written breaks off in the text of one line.
pub fn answer_lines<R: Read, W: Write, A: AnswersLines>(
    alloc: Global,
    asker: &mut A,
    reader: &mut R,
    writer: &mut W,
) -> Result<u64, LineFault>
    ensures { AnswersAll A.answers A.stops asker.old asker.new
        (record { unread = R.remaining reader.old; written = W.contents writer.old })
        (record { unread = R.remaining reader.new; written = W.contents writer.new }) result }
{
    let mut run = Run {
        feeder: Feeder::new(alloc),
        count: 0,
        waiting: Vec::new(alloc),
    };
    let ended = answer_input(alloc, asker, &mut run, reader, writer);
    let Ok(()) = write_waiting(&mut run.waiting, writer) else {
        return Err(LineFault::Write);
    };
    ended
}

/// Has the lines that the reader gives answered. Before each read what waits is written.
fn answer_input<R: Read, W: Write, A: AnswersLines>(
    alloc: Global,
    asker: &mut A,
    run: &mut Run,
    reader: &mut R,
    writer: &mut W,
) -> Result<u64, LineFault>
    requires held { run.old.feeder ≡ [] }
    requires count { run.old.count ≡ 0 }
    requires waiting { run.old.waiting.items ≡ [] }
    ensures { Halts A.answers A.stops asker.old asker.new
        (record { unread = R.remaining reader.old; written = W.contents writer.old })
        (record { unread = R.remaining reader.new; written = W.contents writer.new }) result run.new.waiting.items }
{
    let mut total = 0u64;
    let mut buffer = [0u8; PIECE];
    for _ in 0..u64::MAX {
        let Ok(()) = write_waiting(&mut run.waiting, writer) else {
            return Err(LineFault::Write);
        };
        let Ok(taken) = reader.read(&mut buffer) else {
            return Err(LineFault::Read);
        };
        if taken == 0 {
            return end_run(alloc, asker, run);
        }
        let Some(sum) = total.checked_add(taken as u64) else {
            return Err(LineFault::Read);
        };
        total = sum;
        take_piece(alloc, asker, run, &buffer[..taken], writer)?;
    }
    Err(LineFault::Read)
}

/// The input has ended, and with it the last line, unless that has no byte. Says how many lines there were.
fn end_run<A: AnswersLines>(alloc: Global, asker: &mut A, run: &mut Run) -> Result<u64, LineFault>
    requires fits { run.old.count + length run.old.feeder < 2 ^ 64 }
    ensures { EndsRun A.answers A.stops asker.old asker.new run.old run.new result }
{
    if run.feeder.held().is_empty() {
        return Ok(run.count);
    }
    run.count += 1;
    asker.answer_line(alloc, run.count, run.feeder.held(), &mut run.waiting)?;
    Ok(run.count)
}

/// Takes some bytes of the input, and has the lines that they end answered. A line that lies whole in them is not copied.
fn take_piece<W: Write, A: AnswersLines>(
    alloc: Global,
    asker: &mut A,
    run: &mut Run,
    piece: &[u8],
    writer: &mut W,
) -> Result<(), LineFault>
    requires fits { run.old.count + length run.old.feeder + length piece.now < 2 ^ 64 }
    ensures { TakesPiece A.answers A.stops
        (record { asker = asker.old; run = run.old; written = W.contents writer.old })
        (record { asker = asker.new; run = run.new; written = W.contents writer.new }) piece.now result }
{
    let mut rest = piece;
    while let Some((part, behind)) = next_line(&mut run.feeder, rest)? {
        run.count += 1;
        asker.answer_line(alloc, run.count, run.feeder.line(part), &mut run.waiting)?;
        run.feeder.clear();
        rest = behind;
        let Ok(()) = write_full(&mut run.waiting, writer) else {
            return Err(LineFault::Write);
        };
    }
    Ok(())
}

/// As `Feeder::next_line`, with the fault of a run of lines.
fn next_line<'p>(
    feeder: &mut Feeder,
    piece: &'p [u8],
) -> Result<Option<(&'p [u8], &'p [u8])>, LineFault>
    ensures fed { IfOk result (λ found. Feeds (feeder.old ++ piece.now) feeder.new found) }
    ensures shorter { IfOk result (λ found. IfSome found (λ x. length x.1.now < length piece.now)) }
    ensures err { IfErr result (λ fault. fault ≡ LineFault.Memory) }
{
    feeder.next_line(piece).map_err(|_| LineFault::Memory)
}
