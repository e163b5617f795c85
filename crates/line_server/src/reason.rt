//! Why a line can't be read.

use std::fmt;

/// Why a line can't be read (own profile).
#[derive(Clone, Copy, Debug, PartialEq, Eq, Drop)]
pub enum Reason {
    /// It ends where something more is asked: behind its first word, behind the name of an input, or before the APDU's bytes.
    Short,
    /// Its first word is no client of the configuration, and begins no step of the meter itself.
    Client,
    /// A byte order mark, the bytes EF BB BF, stands in front of it.
    Mark,
    /// What follows the client is a step in words.
    Words,
    /// The hex digits of its APDU are odd in number.
    OddDigits,
    /// What follows the client isn't hex digits alone.
    Digits,
    /// The logical name isn't one.
    Name,
    /// The value isn't the hex text of one Data.
    Value,
    /// The moment isn't one of the calendar in the years 2000 to 9999, or not of its form.
    Moment,
    /// `at` over a plan with a clock object, which its own clients set.
    Clock,
    /// What follows `tick` is no number from 1 to 3600.
    Seconds,
    /// The byte 0D ends it.
    Return,
}

impl fmt::Display for Reason {
    ghost use Rattle.std.specs.Prelude.{Some};
    ghost use Rattle.line_server.specs.Faults.{reason_words};

    ghost output = { λ reason. Some (reason_words reason) };

    fn fmt<W: fmt::Write>(&self, f: &mut fmt::Formatter<W>) -> fmt::Result {
        f.write_str(match self {
            Reason::Short => {
                "something is missing: a line has a word, one space and what is asked"
            }
            Reason::Client => {
                "the configuration has no client of this name, and no step begins with this word"
            }
            Reason::Mark => "a byte order mark stands in front of it: lines are text without one",
            Reason::Words =>
                "words follow the client's name: `cosem-flow encode` makes them into a step line",
            Reason::OddDigits => "the hex digits are odd in number: two make a byte",
            Reason::Digits => "the client's name isn't followed by hex digits and nothing else",
            Reason::Name => {
                "the logical name isn't six numbers from 0 to 255, joined by dots, without leading zeros"
            }
            Reason::Value => "the value isn't the hex text of one Data with nothing behind it",
            Reason::Moment => {
                "the moment isn't YYYY-MM-DDTHH:MM:SS in the years 2000 to 9999, or the calendar hasn't it"
            }
            Reason::Clock => {
                "the configuration has a clock object: `at` sets the time of a meter without one alone"
            }
            Reason::Seconds => "the seconds aren't a number from 1 to 3600, without leading zeros",
            Reason::Return => "the byte 0D stands at its end: lines end with a newline alone",
        })
    }
}
