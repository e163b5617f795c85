//! Lines that the system's clock makes (own profile).
ghost use Rattle.std.specs.Prelude.{◌≡◌, ◌≤◌, ℕ, pos, ◌+ℤ◌, ◌*ℤ◌, IfSome, IsSome};

use crate::due::{Follows, Line, first_line, next_due};
use crate::giving::Giving;
use crate::moments::{FIRST_SECOND, LAST_SECOND};
use crate::text::tell_skipped;
use cosem_data::memory::Memory;
use std::alloc::Global;
use std::io::{self, ErrorKind, Read, Write};
use std::sync::{Mutex, Wait};
use std::thread;
use std::time::{Clock, Duration};
use utc_moment::moment::UtcMoment;

/// Nothing that is told is longer than this many bytes: a number has at most 20 digits.
const ROOM: usize = 96;

/// How many milliseconds pass at most until it is looked again whether a second passed, or all is over.
const NAP: u64 = 200;

/// How a clock is followed.
#[derive(Clone, Copy)]
pub struct Pace {
    pub follows: Follows,
    /// How many minutes the meter's clock is ahead of UTC.
    pub offset: i16,
}

/// Lines that let a meter follow the system's clock, second by second, each once it has passed. They end once all is over, or by an
/// error where the clock can't be read or tells a moment outside the years 2000 to 9999. Where more than a day's seconds are due at
/// once, the older ones are skipped, and that is told; what can't be told is passed over.
#[derive(Drop)]
pub struct ClockLines<'c, C: Clock + Wait, W: Write + Drop> {
    clock: &'c C,
    is_over: &'c Mutex<bool>,
    pace: Pace,
    output: W,
    /// The last second that was told or skipped; none before the first look at the clock.
    told: Option<u64>,
    line: Giving,
    /// Where what is told is put together.
    notice: String,
}

impl<'c, C: Clock + Wait, W: Write + Drop> ClockLines<'c, C, W> {
    /// Lines of this clock, which end once `is_over`; the output is told of what is skipped. The first second is that of the first read.
    ///
    /// # Errors
    /// Memory was refused.
    pub fn new(
        alloc: Global,
        clock: &'c C,
        is_over: &'c Mutex<bool>,
        pace: Pace,
        output: W,
    ) -> Result<Self, Memory> {
        Ok(ClockLines {
            clock,
            is_over,
            pace,
            output,
            told: None,
            line: Giving::new(alloc)?,
            notice: String::with_capacity(alloc, ROOM)?,
        })
    }

    /// Waits for the next line, and says whether there is one: once all is over there is none.
    fn wait_for_line(&mut self) -> io::Result<bool> {
        for _ in 0..u64::MAX {
            if *self.is_over.lock(self.clock) {
                return Ok(false);
            }
            if let Some(line) = self.line_due()? {
                self.line.put(line)?;
                return Ok(true);
            }
            thread::sleep(self.clock, Duration::from_millis(NAP));
        }
        Ok(false)
    }

    /// The line that is due now, if one is. Its seconds count as told.
    fn line_due(&mut self) -> io::Result<Option<Line>> {
        let now = second_now(self.clock, self.pace.offset)?;
        let Some(told) = self.told else {
            self.told = Some(now);
            return Ok(first_line(self.pace.follows, now));
        };
        let due = next_due(self.pace.follows, told, now);
        self.told = Some(due.told);
        if due.skipped != 0 {
            tell_skipped(&mut self.output, &mut self.notice, due.skipped);
        }
        Ok(due.line)
    }
}

/// The second that a clock so many minutes ahead of UTC shows, after 1970-01-01T00:00:00 there.
fn second_now<C: Clock>(clock: &C, offset: i16) -> io::Result<u64> {
    let Some(now) = UtcMoment::now(clock) else {
        return Err(io::Error::other("the system's clock can't be read"));
    };
    let Some(second) = second_there(now.seconds(), offset) else {
        return Err(io::Error::other("the system's clock isn't in the years 2000 to 9999"));
    };
    Ok(second)
}

/// A second of UTC on a clock so many minutes ahead of it. None outside 2000-01-01T00:00:00 to 9999-12-30T22:00:00.
fn second_there(utc: u64, offset: i16) -> Option<u64>
    ensures found { IfSome result (λ there. pos there ≡ pos utc +ℤ offset *ℤ pos 60) }
    ensures since { IfSome result (λ there. 946_684_800 ≤ there) }
    ensures until { IfSome result (λ there. there ≤ 253_402_207_200) }
    ensures exact { (there : ℕ) → pos there ≡ pos utc +ℤ offset *ℤ pos 60 → 946_684_800 ≤ there
        → there ≤ 253_402_207_200 → IsSome result }
{
    let there = utc.checked_add_signed(i64::from(offset) * 60)?;
    if FIRST_SECOND <= there && there <= LAST_SECOND {
        Some(there)
    } else {
        None
    }
}

impl<C: Clock + Wait, W: Write + Drop> Read for ClockLines<'_, C, W> {
    fn read(&mut self, buf: &mut [u8]) -> io::Result<usize> {
        if self.line.is_given() && !self.wait_for_line()? {
            return Ok(0);
        }
        Ok(self.line.give(buf))
    }
}
