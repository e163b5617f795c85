//! When a profile captures by itself (IEC 62056-6-2, Profile generic, capture_period).
ghost use Rattle.std.specs.Prelude.{◌≡◌};
ghost use Rattle.meter_theory.specs.Times.{is_capture_due};

use civil_moment::moment::Moment;

/// Whether a capture is due at the moment: the period, in seconds, isn't 0 and divides the seconds since
/// 2000-01-01T00:00:00 (the epoch is own profile).
pub fn is_due(capture_period: u32, moment: Moment) -> bool
    ensures { result ≡ is_capture_due capture_period moment }
{
    capture_period != 0 && moment.seconds() % u64::from(capture_period) == 0
}
