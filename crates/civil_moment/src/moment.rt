ghost use Rattle.std.specs.Prelude.{◌≡◌, IfOk, IfSome, Ok, Some, option_map};
ghost use Rattle.std.specs.Result.{result_ok};
ghost use Rattle.meter_theory.specs.Times as times;
ghost use Rattle.civil_moment.specs.MomentText.{moment_in};
ghost use Rattle.civil_moment.specs.Texts.{pair_at, marked_at, moment_from, numbers_at, moment_text};

use crate::days;
use std::fmt;
use std::marker::Model;
use std::str::FromStr;
use thiserror::Error;

/// A civil date of the years 2000 to 9999 and a time of day, in whole seconds (own profile).
#[derive(Clone, Copy, Debug, PartialEq, Eq)]
pub struct Moment {
    /// 2000 to 9999.
    pub year: u16,
    /// 1 to 12.
    pub month: u8,
    /// 1 to the last day of the month.
    pub day: u8,
    /// 0 to 23.
    pub hour: u8,
    /// 0 to 59.
    pub minute: u8,
    /// 0 to 59.
    pub second: u8,
}

impl Model for Moment {
    ghost use Rattle.meter_theory.specs.Times.{Moment, IsMoment};

    ghost Value = { Moment };

    ghost view = { λ m. record {
      year = m.year;
      month = m.month;
      day = m.day;
      hour = m.hour;
      minute = m.minute;
      second = m.second;
    } };

    ghost invariant = { λ m. IsMoment (record {
      year = m.year;
      month = m.month;
      day = m.day;
      hour = m.hour;
      minute = m.minute;
      second = m.second;
    }) };

    ghost inverse = { λ m. record {
      year = m.year;
      month = m.month;
      day = m.day;
      hour = m.hour;
      minute = m.minute;
      second = m.second;
    } };
}

/// A text that is no moment: not of the form YYYY-MM-DDTHH:MM:SS, or no moment of the years 2000 to 9999 that the
/// calendar has.
#[derive(Clone, Copy, Debug, PartialEq, Eq, Drop, Error)]
#[error("{}", self.words())]
pub struct BadMoment;

/// The six numbers that a text says, whether or not the calendar has them.
#[derive(Clone, Copy)]
struct Numbers {
    year: u16,
    month: u8,
    day: u8,
    hour: u8,
    minute: u8,
    second: u8,
}

/// The number of two digits at the front of the text, and what is behind it.
fn pair(text: &[u8]) -> Option<(u8, &[u8])>
    ensures { option_map (λ x. (x.0, x.1.now)) result ≡ pair_at text.now }
{
    match text {
        [tens, ones, rest @ ..] if tens.is_ascii_digit() && ones.is_ascii_digit() => {
            Some((10 * (*tens - b'0') + (*ones - b'0'), rest))
        }
        _ => None,
    }
}

/// The number of two digits behind the mark at the front of the text, and what is behind it.
fn marked(mark: u8, text: &[u8]) -> Option<(u8, &[u8])>
    ensures { option_map (λ x. (x.0, x.1.now)) result ≡ marked_at mark text.now }
{
    match text {
        [first, rest @ ..] if *first == mark => pair(rest),
        _ => None,
    }
}

impl Numbers {
    ghost use Rattle.civil_moment.specs.Reading.{moment_of};

    /// The numbers that a text says, if it has the form of a moment.
    #[tactic(auto, unfolding(crate::specs::Texts::numbers_at))]
    fn found(text: &[u8]) -> Option<Numbers>
        ensures { option_map moment_of result ≡ numbers_at text.now }
    {
        let (century, rest) = pair(text)?;
        let (year, rest) = pair(rest)?;
        let (month, rest) = marked(b'-', rest)?;
        let (day, rest) = marked(b'-', rest)?;
        let (hour, rest) = marked(b'T', rest)?;
        let (minute, rest) = marked(b':', rest)?;
        let (second, rest) = marked(b':', rest)?;
        if !rest.is_empty() {
            return None;
        }
        Some(Numbers {
            year: 100 * u16::from(century) + u16::from(year),
            month,
            day,
            hour,
            minute,
            second,
        })
    }

    /// The moment of these numbers, if there is one.
    fn moment(self) -> Option<Moment>
        ensures found { IfSome result (λ m. times.IsMoment m × (m ≡ moment_of self)) }
        ensures exact { times.IsMoment (moment_of self) → result ≡ Some (moment_of self) }
    {
        let Numbers {
            year,
            month,
            day,
            hour,
            minute,
            second,
        } = self;
        let in_range = 2000 <= year && year <= 9999 && hour < 24 && minute < 60 && second < 60;
        if !in_range || !days::exists(year, month, day) {
            return None;
        }
        Some(Moment {
            year,
            month,
            day,
            hour,
            minute,
            second,
        })
    }
}

impl Moment {
    /// The first moment, 2000-01-01T00:00:00 (own profile).
    pub fn first() -> Moment
        ensures { result ≡ times.first_moment }
    {
        midnight(2000, 1, 1)
    }

    /// The moment that a text is: YYYY-MM-DDTHH:MM:SS, a day of the years 2000 to 9999 that the calendar has, an hour
    /// below 24, a minute and a second below 60 (own profile). Any other text is a `BadMoment`.
    pub fn read(text: &str) -> Result<Moment, BadMoment>
        ensures value { result_ok result ≡ moment_in text.now }
        // What is read is a moment with this text.
        ensures found { IfOk result (λ m. times.IsMoment m × (text.now ≡ moment_text m)) }
        // The text of a moment is read.
        ensures exact { (t : times.Moment) → times.IsMoment t → text.now ≡ moment_text t → result ≡ Ok t }
    {
        Moment::read_bytes(text.as_bytes())
    }

    /// As `Moment::read`, of bytes that need be no text.
    pub fn read_bytes(text: &[u8]) -> Result<Moment, BadMoment>
        ensures value { result_ok result ≡ moment_in text.now }
        ensures found { IfOk result (λ m. times.IsMoment m × (text.now ≡ moment_text m)) }
        ensures exact { (t : times.Moment) → times.IsMoment t → text.now ≡ moment_text t → result ≡ Ok t }
    {
        match Numbers::found(text) {
            Some(numbers) => match numbers.moment() {
                Some(moment) => Ok(moment),
                None => Err(BadMoment),
            },
            None => Err(BadMoment),
        }
    }

    /// What the type keeps, for callers: it is a moment that the calendar has.
    pub fn known(self)
        ensures { times.IsMoment self }
    {
        let _year = self.year;
    }

    /// The moment of these numbers, if there is one: a day of the years 2000 to 9999 that the calendar has, an hour below 24, a
    /// minute and a second below 60 (own profile).
    pub fn of(year: u16, month: u8, day: u8, hour: u8, minute: u8, second: u8) -> Option<Moment>
        ensures found { IfSome result (λ m. times.IsMoment m
            × (m ≡ moment_from year month day hour minute second)) }
        ensures exact { times.IsMoment (moment_from year month day hour minute second) →
            result ≡ Some (moment_from year month day hour minute second) }
    {
        let numbers = Numbers {
            year,
            month,
            day,
            hour,
            minute,
            second,
        };
        numbers.moment()
    }

    /// The moment one second later; the last, 9999-12-31T23:59:59, stays (own profile).
    pub fn next_second(self) -> Moment
        ensures { result ≡ times.next_second self }
    {
        if self.second < 59 {
            return Moment {
                second: self.second + 1,
                ..self
            };
        }
        if self.minute < 59 {
            return Moment {
                minute: self.minute + 1,
                second: 0,
                ..self
            };
        }
        if self.hour < 23 {
            return Moment {
                hour: self.hour + 1,
                minute: 0,
                second: 0,
                ..self
            };
        }
        self.next_day()
    }

    /// The start of the day behind that of the moment. The last day is followed by none, and then the moment stays.
    fn next_day(self) -> Moment
        ensures { result ≡ times.next_day self }
    {
        let Moment {
            year,
            month,
            day,
            ..
        } = self;
        if day < self.last_day() {
            return midnight(year, month, day + 1);
        }
        if month < 12 {
            return midnight(year, month + 1, 1);
        }
        if year < 9999 {
            return midnight(year + 1, 1, 1);
        }
        self
    }

    /// The seconds since 2000-01-01T00:00:00 (the epoch is own profile).
    pub fn seconds(self) -> u64
        ensures { result ≡ times.seconds_since_2000 self }
    {
        let days = u64::from(days::day_number(self.year, self.month, self.day));
        let time = u64::from(self.hour) * 3600
            + u64::from(self.minute) * 60
            + u64::from(self.second);
        days * 86_400 + time
    }

    /// The day of the week, 1 for Monday to 7 for Sunday.
    pub fn weekday(self) -> u8
        ensures { result ≡ times.weekday self }
    {
        days::weekday_of(self.year, self.month, self.day)
    }

    /// The last day of the month, 28 to 31.
    pub fn last_day(self) -> u8
        ensures { result ≡ times.last_day self }
    {
        days::days_of_month(self.year, self.month)
    }
}

/// The start of a day.
fn midnight(year: u16, month: u8, day: u8) -> Moment
    requires { times.IsMoment (moment_from year month day 0 0 0) }
    ensures { result ≡ moment_from year month day 0 0 0 }
{
    Moment {
        year,
        month,
        day,
        hour: 0,
        minute: 0,
        second: 0,
    }
}

impl FromStr for Moment {
    ghost use Rattle.civil_moment.specs.Reading.{IsMomentRead};

    type Err = BadMoment;

    ghost from_str_gives = { IsMomentRead };

    /// As `Moment::read`.
    fn from_str(text: &str) -> Result<Moment, BadMoment> {
        Moment::read(text)
    }
}

impl fmt::Display for Moment {
    ghost use Rattle.civil_moment.specs.Texts.{moment_text};

    ghost output = { λ m. Some (moment_text m) };

    /// As `Moment::read` takes it.
    fn fmt<W: fmt::Write>(&self, f: &mut fmt::Formatter<W>) -> fmt::Result {
        let Moment {
            year,
            month,
            day,
            hour,
            minute,
            second,
        } = *self;
        write!(
            f,
            "{year:04}-{month:02}-{day:02}T{hour:02}:{minute:02}:{second:02}"
        )
    }
}

impl BadMoment {
    ghost use Rattle.std.specs.Prelude.{codes};

    /// What is told of such a text.
    pub fn words(self) -> &'static str
        ensures { result.now ≡ codes "no moment of the form YYYY-MM-DDTHH:MM:SS" }
    {
        "no moment of the form YYYY-MM-DDTHH:MM:SS"
    }
}
