//! What is known of a connection while it lasts (own profile).

use crate::answers::Answer;
use crate::rules::{Left, Rules, left_of, wait_behind};
use crate::seen::Seen;
use std::cell::Cell;
use std::thread;
use std::time::{Clock, Duration, Instant};

/// What is known of a connection while it lasts. Its reader, its writer and the gate of its seat share it, in one thread.
///
/// Where the clock can't be read, it isn't known how long the connection has been idle, and it is waited for as long as it takes: for a
/// clock no connection is closed.
#[derive(Drop)]
pub struct Peer<'r, C: Clock> {
    clock: &'r C,
    rules: Rules,
    /// When its last whole frame came or was answered, or when it was opened; none where the clock couldn't be read then.
    since: Cell<Option<Instant>>,
    seen: Cell<Seen>,
}

impl<'r, C: Clock> Peer<'r, C> {
    /// A connection that was just opened, by these rules.
    pub fn opened(clock: &'r C, rules: Rules) -> Peer<'r, C> {
        Peer {
            clock,
            rules,
            since: Cell::new(Instant::now(clock).ok()),
            seen: Cell::new(Seen::NOTHING),
        }
    }

    /// What was seen of it so far.
    pub fn seen(&self) -> Seen {
        self.seen.get()
    }

    /// Whether it may be idle for any time.
    pub(crate) fn may_idle(&self) -> bool {
        self.rules.idle == 0
    }

    /// How long it may still be waited for.
    pub(crate) fn left(&self) -> Left {
        match (self.since.get(), Instant::now(self.clock)) {
            (Some(since), Ok(now)) => left_of(self.rules.idle, now.duration_since(since)),
            _ => Left::Unbounded,
        }
    }

    /// Notes that a read waited for too long: it was idle, unless it may be that for any time.
    pub(crate) fn note_idle(&self) {
        self.seen.set(Seen {
            is_idle: !self.may_idle(),
            ..self.seen.get()
        });
    }

    /// Notes that a whole frame came.
    pub(crate) fn note_frame(&self) {
        self.since.set(Instant::now(self.clock).ok());
        self.seen.set(self.seen.get().with_frame());
    }

    /// Notes that an answer was written, which may have waited: from here on the connection may be idle.
    pub(crate) fn note_answer(&self) {
        self.since.set(Instant::now(self.clock).ok());
    }

    /// Notes that these bytes are to be written, and gives what an answer says that begins with them.
    pub(crate) fn note_bytes(&self, bytes: &[u8]) -> Answer {
        let seen = self.seen.get();
        self.seen.set(seen.with_bytes(bytes));
        seen.told_by(bytes)
    }

    /// Waits as the last refusal asks.
    pub(crate) fn wait(&self) {
        let wait = wait_behind(self.rules.penalty, self.seen.get().refusals);
        if wait != 0 {
            thread::sleep(self.clock, Duration::from_millis(u64::from(wait)));
        }
    }

    /// Notes that so many bytes were written.
    pub(crate) fn note_written(&self, count: usize) {
        self.seen.set(self.seen.get().with_written(count));
    }
}
