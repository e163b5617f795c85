//! A moment in UTC: what a clock there shows at a whole second.
ghost use Rattle.utc_moment.specs.Clocks.{IsMoment};

use jiff::Timestamp;
use jiff::civil::DateTime;
use jiff::fmt::temporal::{DateTimePrinter, parse_datetime};
use jiff::tz::Offset;
use std::fmt;
use std::time::Clock;

/// The last second of which `jiff` has an instant: 9999-12-30T22:00:00Z.
const LAST_SECOND: u64 = 253_402_207_200;

/// A whole second in UTC, from 1970-01-01T00:00:00Z to 9999-12-30T22:00:00Z (own profile).
#[derive(Clone, Copy, Debug, PartialEq, Eq, PartialOrd, Ord)]
pub struct UtcMoment {
    /// What a clock in UTC shows.
    clock: DateTime,
    pub ghost shown: { IsMoment clock },
}

impl UtcMoment {
    ghost use Rattle.std.specs.Prelude.{◌≡◌, ◌≤◌, ◌↔◌, ◌⊎◌, IfSome, IsSome, IsSomeAnd, pos};
    ghost use Rattle.utc_moment.specs.Moments.{moment_text, bare_text, seconds_of};

    /// The moment that the system's clock tells, with its fraction of a second left out. None where the system has no such time.
    pub fn now<C: Clock>(clock: &C) -> Option<UtcMoment> {
        let now = Timestamp::now(clock).ok()?;
        UtcMoment::from_seconds(now.as_second() as u64)
    }

    /// The moment so many seconds after 1970-01-01T00:00:00Z. None where these are more than 253,402,207,200.
    pub fn from_seconds(seconds: u64) -> Option<UtcMoment>
        ensures found { IfSome result (λ moment. seconds_of moment ≡ pos seconds) }
        ensures exact { IsSome result ↔ (seconds ≤ 253_402_207_200) }
    {
        if seconds > LAST_SECOND {
            return None;
        }
        let Ok(instant) = Timestamp::from_second(seconds as i64) else {
            return None;
        };
        let clock = Offset::UTC.to_datetime(instant);
        Some(UtcMoment { clock })
    }

    /// How many seconds after 1970-01-01T00:00:00Z.
    pub fn seconds(self) -> u64
        ensures { pos result ≡ seconds_of self }
    {
        match Offset::UTC.to_timestamp(self.clock) {
            Ok(instant) => instant.as_second() as u64,
            Err(_) => unreachable!(),
        }
    }

    /// The moment with this text: `2026-11-28T18:53:41Z`, or the same without Z. Any other text, also one that tells the same second
    /// in another way, is none (own profile).
    pub fn read(text: &[u8]) -> Option<UtcMoment>
        // What is read has this text.
        ensures found { IfSome result (λ moment. (text.now ≡ moment_text moment) ⊎ (text.now ≡ bare_text moment)) }
        // The text of a moment is read as that second.
        ensures exact { (m : UtcMoment) → text.now ≡ moment_text m → IsSomeAnd result (λ moment. seconds_of moment ≡ seconds_of m) }
        ensures bare { (m : UtcMoment) → text.now ≡ bare_text m → IsSomeAnd result (λ moment. seconds_of moment ≡ seconds_of m) }
    {
        match text {
            [clock @ .., b'Z'] => UtcMoment::read_bare(clock),
            clock => UtcMoment::read_bare(clock),
        }
    }

    /// The moment with this text, which has no Z.
    fn read_bare(text: &[u8]) -> Option<UtcMoment>
        ensures found { IfSome result (λ moment. text.now ≡ bare_text moment) }
        ensures exact { (m : UtcMoment) → text.now ≡ bare_text m → IsSomeAnd result (λ moment. seconds_of moment ≡ seconds_of m) }
    {
        let Ok(clock) = parse_datetime(text) else {
            return None;
        };
        if DateTimePrinter::new().datetime_text(clock).as_bytes() == text {
            UtcMoment::shown_by(DateTime::from_plain(clock))
        } else {
            None
        }
    }

    /// The moment at which a clock in UTC shows this.
    fn shown_by(clock: DateTime) -> Option<UtcMoment>
        ensures found { IfSome result (λ moment. moment.clock ≡ clock) }
        ensures exact { IsMoment clock → IsSome result }
    {
        let Ok(instant) = Offset::UTC.to_timestamp(clock) else {
            return None;
        };
        let second = instant.as_second();
        if 0 <= second && instant.subsec_nanosecond() == 0 {
            Some(UtcMoment { clock })
        } else {
            None
        }
    }
}

impl fmt::Display for UtcMoment {
    ghost use Rattle.std.specs.Prelude.{Some};
    ghost use Rattle.utc_moment.specs.Moments.{moment_text};

    ghost output = { λ moment. Some (moment_text moment) };

    /// `2026-11-28T18:53:41Z` (RFC 3339, date-time).
    fn fmt<W: fmt::Write>(&self, f: &mut fmt::Formatter<W>) -> fmt::Result {
        let clock = self.clock;
        write!(f, "{clock}Z")
    }
}
