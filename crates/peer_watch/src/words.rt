//! Events of connections in words (own profile).
ghost use Rattle.std.specs.Prelude.{◌≡◌, ◌++◌, option_map};
ghost use Rattle.peer_watch.specs.Told as told;
ghost use Rattle.peer_watch.specs.Words.{numbered, placed, words_text};

use crate::events::{End, Event};
use std::fmt;
use tcp_wrapper::place::FramePlace;

/// An event in words: its own, then the frame that it tells of, where it is one of a frame, then the words that it brings, and then a
/// number between words, where it has one.
#[derive(Clone, Copy, Drop)]
pub(crate) struct Words<'e> {
    own: &'static str,
    frame: Placed,
    brought: &'e str,
    number: Numbered,
}

/// A number between words, where there is one.
#[derive(Clone, Copy, Drop)]
pub(crate) struct Numbered(Option<(&'static str, u64, &'static str)>);

impl fmt::Display for Numbered {
    ghost use Rattle.std.specs.Prelude.{Some};
    ghost use Rattle.peer_watch.specs.Words.{numbered};

    ghost output = { λ number. Some (numbered number.0) };

    fn fmt<W: fmt::Write>(&self, f: &mut fmt::Formatter<W>) -> fmt::Result {
        match self.0 {
            Some((before, number, behind)) => write!(f, "{before}{number}{behind}"),
            None => Ok(()),
        }
    }
}

/// The place of a frame before the words that are told of it, where there is one.
#[derive(Clone, Copy, Drop)]
pub(crate) struct Placed(Option<FramePlace>);

impl fmt::Display for Placed {
    ghost use Rattle.std.specs.Prelude.{Some};
    ghost use Rattle.peer_watch.specs.Words.{placed};

    ghost output = { λ place. Some (placed place.0) };

    fn fmt<W: fmt::Write>(&self, f: &mut fmt::Formatter<W>) -> fmt::Result {
        match self.0 {
            Some(place) => write!(f, "{place}: "),
            None => Ok(()),
        }
    }
}

impl fmt::Display for Words<'_> {
    ghost use Rattle.std.specs.Prelude.{Some};
    ghost use Rattle.peer_watch.specs.Words.{words_text};

    ghost output = { λ words. Some (words_text words) };

    fn fmt<W: fmt::Write>(&self, f: &mut fmt::Formatter<W>) -> fmt::Result {
        let Words {
            own,
            frame,
            brought,
            number,
        } = *self;
        write!(f, "{own}{frame}{brought}{number}")
    }
}

/// The seat, where there is one.
pub(crate) fn seat_words(seat: Option<usize>) -> Numbered
    ensures { numbered result.0 ≡ told.seat_words seat }
{
    match seat {
        Some(seat) => Numbered(Some((" seat ", seat as u64, ""))),
        None => Numbered(None),
    }
}

/// The event in words.
pub(crate) fn words_of<'e>(event: &Event<'e>) -> Words<'e>
    ensures { words_text result ≡ told.event_words event.now }
{
    match *event {
        Event::Opened => plain("opened", ""),
        Event::Associated(name) => plain("associated as ", name),
        Event::Refused(number) => refusal_words(number),
        Event::Released => plain("released", ""),
        Event::Closed { why, requests } => closed_words(why, requests),
        Event::Full => plain("refused, no seat is free", ""),
    }
}

/// Words without a number.
fn plain<'e>(own: &'static str, brought: &'e str) -> Words<'e>
    ensures { words_text result ≡ own.now ++ brought.now }
{
    Words {
        own,
        frame: Placed(None),
        brought,
        number: Numbered(None),
    }
}

/// A refusal, by the name of its diagnostic and its number, or by this alone.
fn refusal_words(number: u8) -> Words<'static>
    ensures { words_text result ≡ told.refusal_words number }
{
    let (brought, before, behind) = match diagnostic_name(number) {
        Some(name) => (name, " (", ")"),
        None => ("", "", ""),
    };
    Words {
        own: "refused, ",
        frame: Placed(None),
        brought,
        number: Numbered(Some((before, u64::from(number), behind))),
    }
}

/// The standard's name of a diagnostic that this server uses (IEC 62056-5-3, associate-source-diagnostic, acse-service-user).
fn diagnostic_name(number: u8) -> Option<&'static str>
    ensures { option_map (λ name. name.now) result ≡ told.diagnostic_name number }
{
    match number {
        1 => Some("no-reason-given"),
        2 => Some("application-context-name-not-supported"),
        11 => Some("authentication-mechanism-name-not-recognised"),
        13 => Some("authentication-failure"),
        14 => Some("authentication-required"),
        _ => None,
    }
}

/// The end of a connection, and how many requests there were.
fn closed_words(why: End, requests: u64) -> Words<'static>
    ensures { words_text result ≡ told.closed_words why requests }
{
    let (own, frame, brought) = end_words(why);
    let behind = if requests == 1 {
        " request"
    } else {
        " requests"
    };
    Words {
        own,
        frame,
        brought,
        number: Numbered(Some((", ", requests, behind))),
    }
}

/// The end of a connection: what is told of each, at which frame, and then why.
fn end_words(why: End) -> (&'static str, Placed, &'static str)
    ensures { result.0.now ++ (placed result.1.0 ++ result.2.now) ≡ told.end_words why }
{
    match why {
        End::Peer => ("closed", Placed(None), " by the peer"),
        End::Idle => ("closed", Placed(None), " as idle"),
        End::Gate => ("closed", Placed(None), " at its gate"),
        End::Fault(fault) => ("closed, ", Placed(None), fault),
        End::Frame(fault, place) => ("closed, ", Placed(Some(place)), fault),
    }
}
