//! Which line of the meter's own steps is due by a clock (own profile). Seconds are counted from 1970-01-01T00:00:00 on that clock.
ghost use Rattle.std.specs.Prelude.{◌≡◌, ◌+◌, ◌-◌, ◌≤◌, None, Some, max};
ghost use Rattle.line_sources.specs.Due.{begins_with, follows_by, seconds_in};

/// How many seconds are caught up at most, a day: where more are due at once, the older ones are skipped.
pub const MOST_CAUGHT_UP: u64 = 86_400;

/// How many seconds a line lets pass at most.
pub const MOST_TICKS: u64 = 3_600;

/// How a meter follows a clock.
#[derive(Clone, Copy)]
pub enum Follows {
    /// Seconds pass over it. Where it has no clock object its clock is set, first and where seconds are skipped.
    Ticks { sets_clock: bool },
    /// It is told the moment of each second.
    Moments,
}

/// A line that a clock makes.
#[derive(Clone, Copy)]
pub enum Line {
    /// The clock of a meter without a clock object is set to this second.
    At(u64),
    /// So many seconds pass, 1 to 3600.
    Ticks(u64),
}

/// What is due: how many seconds are skipped, then a line, and the last second that is skipped or in a line.
#[derive(Clone, Copy)]
pub struct Due {
    pub skipped: u64,
    pub line: Option<Line>,
    pub told: u64,
}

/// The line that comes before any second has passed: a clock without an object is set.
pub fn first_line(follows: Follows, now: u64) -> Option<Line>
    ensures { result ≡ begins_with follows now }
{
    match follows {
        Follows::Ticks { sets_clock: false } => None,
        Follows::Ticks { sets_clock: true } | Follows::Moments => Some(Line::At(now)),
    }
}

/// What is due now of the seconds behind the last that was told. Where the clock went back behind that one, nothing is.
pub fn next_due(follows: Follows, told: u64, now: u64) -> Due
    // All but the latest 86,400 are skipped.
    ensures skipped { result.skipped ≡ now - 86_400 - told }
    // Each second behind the last one is skipped or in the line, up to the new last one.
    ensures each { result.told ≡ told + result.skipped + seconds_in result.line }
    // No second is told before it has passed.
    ensures passed { told ≤ now → result.told ≤ now }
    ensures none { now ≤ told → result.line ≡ None }
    ensures line { told + 1 ≤ now → result.line ≡ Some (follows_by follows result.skipped (max told (now - 86_400)) now) }
{
    if now <= told {
        return Due {
            skipped: 0,
            line: None,
            told,
        };
    }
    let from = told.max(now.saturating_sub(MOST_CAUGHT_UP));
    let skipped = from - told;
    let line = line_behind(follows, skipped, from, now);
    Due {
        skipped,
        line: Some(line),
        told: from + line.seconds(),
    }
}

/// The line of the seconds behind this one, up to now, where so many were skipped before it.
fn line_behind(follows: Follows, skipped: u64, from: u64, now: u64) -> Line
    requires { from + 1 ≤ now }
    ensures line { result ≡ follows_by follows skipped from now }
    ensures within { from + seconds_in (Some result) ≤ now }
{
    match follows {
        Follows::Ticks { sets_clock } if !sets_clock || skipped == 0 => {
            Line::Ticks((now - from).min(MOST_TICKS))
        }
        _ => Line::At(from + 1),
    }
}

impl Line {
    /// How many seconds it tells.
    fn seconds(self) -> u64
        ensures { result ≡ seconds_in (Some self) }
    {
        match self {
            Line::At(_) => 1,
            Line::Ticks(count) => count,
        }
    }
}
