//! The moment that a second has on a clock (own profile).
ghost use Rattle.std.specs.Prelude.{◌≡◌, ◌≤◌, pos, ◌≤ℤ◌, IfSome, IsSome};
ghost use Rattle.jiff_core.specs.DateTime.{civil_seconds};
ghost use Rattle.line_sources.specs.Texts.{IsMomentAt, IsShownBy};

use civil_moment::moment::Moment;
use jiff::Timestamp;
use jiff::civil::DateTime;
use jiff::tz::Offset;

/// 2000-01-01T00:00:00, in seconds after 1970-01-01T00:00:00.
pub(crate) const FIRST_SECOND: u64 = 946_684_800;

/// 9999-12-30T22:00:00, in seconds after 1970-01-01T00:00:00: the last of which `jiff` has an instant.
pub(crate) const LAST_SECOND: u64 = 253_402_207_200;

/// The moment so many seconds after 1970-01-01T00:00:00. None outside 2000-01-01T00:00:00 to 9999-12-30T22:00:00.
pub(crate) fn moment_at(second: u64) -> Option<Moment>
    ensures found { IfSome result (IsMomentAt second) }
    ensures exact { 946_684_800 ≤ second → second ≤ 253_402_207_200 → IsSome result }
{
    if second < FIRST_SECOND {
        return None;
    }
    moment_shown(clock_at(second)?)
}

/// What a clock shows so many seconds after 1970-01-01T00:00:00. None behind 9999-12-30T22:00:00.
fn clock_at(second: u64) -> Option<DateTime>
    ensures found { IfSome result (λ clock. civil_seconds clock ≡ pos second) }
    ensures exact { second ≤ 253_402_207_200 → IsSome result }
{
    if second > LAST_SECOND {
        return None;
    }
    let Ok(instant) = Timestamp::from_second(second as i64) else {
        return None;
    };
    Some(Offset::UTC.to_datetime(instant))
}

/// The moment that a clock shows. None before the year 2000.
fn moment_shown(clock: DateTime) -> Option<Moment>
    ensures found { IfSome result (IsShownBy clock) }
    ensures exact { pos 2000 ≤ℤ clock.date.year → IsSome result }
{
    let year = u16::try_from(clock.year()).ok()?;
    let month = clock.month() as u8;
    let day = clock.day() as u8;
    let hour = clock.hour() as u8;
    let minute = clock.minute() as u8;
    let second = clock.second() as u8;
    Moment::of(year, month, day, hour, minute, second)
}
