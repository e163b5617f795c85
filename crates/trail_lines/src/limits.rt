//! How much a line of a trail says at most.

/// A line moves the clock by at most so many seconds, a day (own profile).
pub const MOVE_SECONDS: u32 = 86400;
