//! How far an audit is, told in a line that is written over and over while the audit goes on (own profile).
ghost use Rattle.std.specs.Prelude.{◌≡◌};

use crate::watch::Watch;
use std::alloc::Global;
use std::fmt;
use std::io::Write;
use std::sync::Mutex;
use std::sync::atomic::{AtomicUsize, Ordering};
use std::time::{Clock, Duration, Instant};
use verdict::Verdict;
use whole_writes::write_whole;

/// The least time between two lines, in milliseconds: nobody reads more than ten a second, and each is a write that holds a worker.
const PAUSE: u64 = 100;

/// What a line tells of an audit: how many of all texts have a verdict, on how many of these the verdict doesn't accept, and how
/// many a second that was so far.
#[derive(Clone, Copy)]
pub(crate) struct Figures {
    pub all: usize,
    pub done: usize,
    pub refused: usize,
    pub rate: u128,
}

impl fmt::Display for Figures {
    ghost use Rattle.std.specs.Prelude.{Some};
    ghost use Rattle.fleet_audit.specs.Progress.{figures_text};

    ghost output = { λ figures. Some (figures_text figures) };

    fn fmt<W: fmt::Write>(&self, f: &mut fmt::Formatter<W>) -> fmt::Result {
        let Figures {
            all,
            done,
            refused,
            rate,
        } = self;
        let left = all.saturating_sub(*done);
        write!(
            f,
            "{done} of {all} done, {refused} refused, {left} left, {rate} a second"
        )
    }
}

/// The writer of the line, with what the line on it needs.
#[derive(Drop)]
struct Line<E: Write + Drop> {
    errors: E,
    /// How long the audit had gone on when the line was written last.
    told: Duration,
    /// How many characters the line has that is there.
    width: usize,
}

impl<E: Write + Drop> Line<E> {
    /// Writes the line anew, over the one that is there. What can't be written is passed over, and so is want of memory: the
    /// verdicts don't hang on it.
    fn tell(&mut self, alloc: Global, figures: Figures) {
        let Ok(text) = format!(in alloc; "{figures}") else {
            return;
        };
        // Spaces cover what a longer line would leave.
        let width = self.width;
        let Ok(line) = format!(in alloc; "\r{text:<width$}") else {
            return;
        };
        self.width = text.len();
        let _ = write_whole(&mut self.errors, line.as_bytes());
    }
}

/// How far an audit is: its workers count their verdicts here, and whichever has one in time tells of all on a writer.
#[derive(Drop)]
pub struct Progress<'a, C: Clock, E: Write + Drop> {
    alloc: Global,
    clock: &'a C,
    start: Option<Instant>,
    all: usize,
    done: AtomicUsize,
    refused: AtomicUsize,
    line: Mutex<Line<E>>,
}

impl<'a, C: Clock, E: Write + Drop> Progress<'a, C, E> {
    /// How far an audit of so many texts is that begins now, to be told on this writer. Nothing is written yet.
    pub fn start(alloc: Global, clock: &'a C, all: usize, errors: E) -> Self {
        Progress {
            alloc,
            clock,
            start: Instant::now(clock).ok(),
            all,
            done: AtomicUsize::new(0),
            refused: AtomicUsize::new(0),
            line: Mutex::new(Line {
                errors,
                told: Duration::ZERO,
                width: 0,
            }),
        }
    }

    /// How long the audit has gone on; no time where the clock can't be read, and then no line is written before the last.
    fn elapsed(&self) -> Duration {
        match self.start {
            Some(start) => start.elapsed(self.clock).unwrap_or(Duration::ZERO),
            None => Duration::ZERO,
        }
    }

    /// What there is to tell once the audit has gone on for so long.
    fn figures(&self, elapsed: Duration) -> Figures {
        // A worker counts a verdict as done first: so no more are refused than done.
        let refused = self.refused.load(Ordering::SeqCst);
        let done = self.done.load(Ordering::SeqCst);
        Figures {
            all: self.all,
            done,
            refused,
            rate: rate(done, elapsed),
        }
    }

    /// Writes the line anew, where it was written long enough ago.
    fn tell_in_time(&self, line: &mut Line<E>) {
        let elapsed = self.elapsed();
        if elapsed.saturating_sub(line.told) >= Duration::from_millis(PAUSE) {
            line.told = elapsed;
            line.tell(self.alloc, self.figures(elapsed));
        }
    }

    /// Writes the line a last time, and ends it.
    pub fn end(self) {
        let figures = self.figures(self.elapsed());
        let alloc = self.alloc;
        let mut line = self.line.into_inner();
        line.tell(alloc, figures);
        let _ = write_whole(&mut line.errors, b"\n");
    }
}

impl<C: Clock, E: Write + Drop> Watch for Progress<'_, C, E> {
    fn judged(&self, _seat: usize, verdict: &Verdict) {
        self.done.fetch_add(1, Ordering::SeqCst);
        if !verdict.is_accepted() {
            self.refused.fetch_add(1, Ordering::SeqCst);
        }
        // Where another worker is writing the line, this verdict is told with the next one.
        if let Some(mut line) = self.line.try_lock() {
            self.tell_in_time(&mut line);
        }
    }
}

/// How many a second so many are in this time; none in no time.
fn rate(done: usize, elapsed: Duration) -> u128 {
    match elapsed.as_millis() {
        0 => 0,
        millis => done as u128 * 1000 / millis,
    }
}
