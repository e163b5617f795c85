//! How a meter is served, as the words of `serve` say it.
ghost use Rattle.std.specs.Prelude.{◌≡◌, option_map};
ghost use Rattle.std.specs.Int.NonZero.{non_zero_u16_get};
ghost use Rattle.clap.specs.Words.{found_of, one_of, rows_of};
ghost use Rattle.command_words.specs.Found as found_spec;
ghost use Rattle.command_words.specs.Serving as spec;

use crate::words::{count, has_flag, text, value};
use clap::ArgMatches;
use std::num::{NonZeroU16, NonZeroUsize};

/// How a meter is served (own profile).
#[derive(Clone, Copy, Debug, PartialEq, Eq, Drop)]
pub struct Serving<'a> {
    /// The IP address, or the name of the host, where connections are taken.
    pub bind: &'a str,
    /// The TCP port where connections are taken.
    pub port: NonZeroU16,
    /// After how many connections the meter ends, once the lines have ended too; 0 for never.
    pub sessions: u64,
    /// How many connections are answered at once, from 1 to 64.
    pub seats: NonZeroUsize,
    /// After how many seconds a connection is closed that sent nothing whole, from 0 to 86400, a day; 0 for never.
    pub idle: u32,
    /// How many milliseconds the answer waits behind a refused association, from 0 to 8000; 0 for not at all.
    pub penalty: u32,
    /// By how many minutes the meter's time is ahead of UTC, from -840 to 840, where it follows the system's clock.
    pub clock: Option<i16>,
    /// The path of the file that keeps each step which changed the meter, where steps are kept.
    pub store: Option<&'a str>,
    /// The path of the file or FIFO that the lines are read from, where they aren't those of standard input.
    pub steps: Option<&'a str>,
    /// Whether it is told of connections.
    pub is_verbose: bool,
}

/// How a meter is served, as clap has found it in the words.
pub(crate) fn serving_in<'a>(found: &ArgMatches<'a>) -> Serving<'a>
    ensures { spec.served_by result ≡ spec.served_in (rows_of (found_of found.now)) }
{
    Serving {
        bind: text(found, "bind"),
        port: port(found),
        sessions: sessions(found),
        seats: count(found, "seats"),
        idle: number(found, "idle"),
        penalty: number(found, "penalty"),
        clock: clock(found),
        store: value(found, "store"),
        steps: value(found, "steps"),
        is_verbose: has_flag(found, "verbose"),
    }
}

/// The port, at least 1.
fn port(found: &ArgMatches<'_>) -> NonZeroU16
    ensures { non_zero_u16_get result ≡ spec.port (rows_of (found_of found.now)) }
{
    match given_port(found) {
        Some(port) => port,
        None => NonZeroU16::MIN,
    }
}

fn given_port(found: &ArgMatches<'_>) -> Option<NonZeroU16>
    ensures { option_map non_zero_u16_get result ≡ spec.port_in (rows_of (found_of found.now)) }
{
    NonZeroU16::new(found.get_one("port")?)
}

/// How many connections, 0 for no end.
fn sessions(found: &ArgMatches<'_>) -> u64
    ensures { result ≡ spec.sessions (rows_of (found_of found.now)) }
{
    match given_sessions(found) {
        Some(sessions) => sessions,
        None => 0,
    }
}

fn given_sessions(found: &ArgMatches<'_>) -> Option<u64>
    ensures { result ≡ spec.sessions_in (rows_of (found_of found.now)) }
{
    found.get_one("sessions")
}

/// How many seconds or milliseconds.
fn number(found: &ArgMatches<'_>, id: &str) -> u32
    ensures { result ≡ found_spec.number id.now (rows_of (found_of found.now)) }
{
    match given_number(found, id) {
        Some(number) => number,
        None => 0,
    }
}

fn given_number(found: &ArgMatches<'_>, id: &str) -> Option<u32>
    ensures { result ≡ found_spec.number_of id.now (rows_of (found_of found.now)) }
{
    found.get_one(id)
}

/// By how many minutes the meter's time is ahead of UTC, where it follows the system's clock.
fn clock(found: &ArgMatches<'_>) -> Option<i16>
    ensures { result ≡ spec.clock (rows_of (found_of found.now)) }
{
    if has_flag(found, "clock") {
        Some(offset(found))
    } else {
        None
    }
}

/// By how many minutes, 0 where that isn't said.
fn offset(found: &ArgMatches<'_>) -> i16
    ensures { result ≡ spec.offset (rows_of (found_of found.now)) }
{
    match given_offset(found) {
        Some(offset) => offset,
        None => 0,
    }
}

fn given_offset(found: &ArgMatches<'_>) -> Option<i16>
    ensures { result ≡ spec.offset_in (rows_of (found_of found.now)) }
{
    found.get_one("offset")
}
