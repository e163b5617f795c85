//! How long is waited: for an idle connection, and before an association's refusal is told (own profile).
ghost use Rattle.std.specs.Prelude.{◌≡◌};
ghost use Rattle.std.specs.Duration.{as_nanos};
ghost use Rattle.peer_watch.specs.Waits as waits;
ghost use Rattle.peer_watch.specs.Idle.{IsLeft};

use std::time::Duration;

/// What holds of each connection.
#[derive(Clone, Copy)]
pub struct Rules {
    /// How many seconds may pass without a whole frame before the connection is closed; 0 for any number.
    pub idle: u32,
    /// How many milliseconds the answer to a connection's first refused association waits; 0 for none.
    pub penalty: u32,
}

/// The most milliseconds that an answer waits.
const LONGEST_WAIT: u32 = 8_000;

/// How many milliseconds the answer to a refused association waits, by how many its connection has had with this one: behind the first
/// the penalty, behind each further twice as many, and at most 8,000.
pub fn wait_behind(penalty: u32, refusals: u32) -> u32
    ensures { result ≡ waits.wait_behind penalty refusals }
{
    match refusals.checked_sub(1) {
        Some(before) => penalty
            .saturating_mul(2u32.saturating_pow(before))
            .min(LONGEST_WAIT),
        None => 0,
    }
}

/// How long a connection may still be waited for.
#[derive(Clone, Copy)]
pub enum Left {
    /// As long as it takes.
    Unbounded,
    /// So long, which is more than nothing.
    AtMost(Duration),
    /// No longer.
    Over,
}

/// How long a connection may still be waited for that may be idle for so many seconds, 0 for any number, and has been for so long.
pub fn left_of(idle: u32, passed: Duration) -> Left
    ensures { IsLeft idle (as_nanos passed) result }
{
    if idle == 0 {
        return Left::Unbounded;
    }
    match Duration::from_secs(u64::from(idle)).checked_sub(passed) {
        Some(left) if !left.is_zero() => Left::AtMost(left),
        _ => Left::Over,
    }
}
