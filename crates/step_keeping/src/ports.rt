//! Which port of a board who takes steps at, where steps are kept.
ghost use Rattle.std.specs.Prelude.{◌≡◌, ◌+◌, ◌<◌, MatchOption};

/// The port of the first seat: before it are the port at which the steps that were kept are taken again, and the driver's. The other
/// seats follow it.
pub const FIRST_SEAT: u8 = 2;

/// The seat whose port this is, if it is one's.
pub fn seat_of(port: u8) -> Option<u8>
    ensures { MatchOption result (port < FIRST_SEAT) (λ seat. port ≡ seat + FIRST_SEAT) }
{
    port.checked_sub(FIRST_SEAT)
}
