//! What is told of a step above its line, by the system's clock.

use cosem_data::memory::Memory;
use meter_core::reply::Reply;
use meter_core::step::Step;
use std::alloc::{AllocFailed, Global};
use std::time::Clock;
use std::{fmt, str};
use step_keeping::ports::seat_of;
use step_words::result_words;
use trail_store::notes::Notes;
use utc_moment::moment::UtcMoment;

/// Tells of a step when it was taken by the system's clock, by whom, and what was answered, as ` 2026-11-28T18:53:41Z seat 3: success (0)`
/// (own profile). A moment that isn't known is `-`.
#[derive(Clone, Copy, Drop)]
pub struct SystemNotes<'r, C: Clock> {
    pub clock: &'r C,
}

/// Who took a step, by the port.
#[derive(Clone, Copy)]
struct Taker {
    port: u8,
}

impl fmt::Display for Taker {
    fn fmt<W: fmt::Write>(&self, f: &mut fmt::Formatter<W>) -> fmt::Result {
        match seat_of(self.port) {
            Some(seat) => write!(f, "seat {seat}"),
            None => f.write_str("driver"),
        }
    }
}

impl<'r, C: Clock> Notes for SystemNotes<'r, C> {
    fn note(&self, alloc: Global, port: u8, _step: &Step, reply: &Reply) -> Result<String, Memory> {
        let mut note = String::new(alloc);
        match UtcMoment::now(self.clock) {
            Some(moment) => write!(note, " {moment} ")?,
            None => write!(note, " - ")?,
        }
        let taker = Taker { port };
        match told(reply) {
            Some(result) => write!(note, "{taker}: {result}")?,
            None => write!(note, "{taker}")?,
        }
        Ok(note)
    }
}

/// The result that is answered, in words; none of a value, and of a step of the meter itself.
fn told(reply: &Reply) -> Option<&'static str> {
    match reply {
        Reply::Code(code) => str::from_utf8(result_words(code.code())?).ok(),
        Reply::Value(_) | Reply::Quiet => None,
    }
}
