//! The version of a program.
ghost use Rattle.std.specs.Prelude.{◌≡◌, ◌<◌, ◌^◌, ℕ, Ok, Some, IfSome};
ghost use Rattle.std.specs.Fmt.{decimal};
ghost use Rattle.trail_file.specs.Versions as spec;

use crate::reading::split_at;
use itoa::Buffer;
use std::str::FromStr;
use std::{fmt, str};
use thiserror::Error;

/// The version of a program, as 0.1.0 (own profile).
#[derive(Clone, Copy, Debug, PartialEq, Eq)]
pub struct Version {
    pub major: u16,
    pub minor: u16,
    pub patch: u16,
}

/// A text that is no version: not three decimal numbers below 65,536 without leading zeros, joined by dots.
#[derive(Clone, Copy, Debug, PartialEq, Eq, Drop, Error)]
#[error("no version of the form MAJOR.MINOR.PATCH")]
pub struct BadVersion;

impl Version {
    ghost use Rattle.trail_file.specs.declared.version.Version.{Version};

    /// The version that bytes are as a text, if they are one.
    pub fn of_bytes(text: &[u8]) -> Option<Version>
        ensures found { IfSome result (λ v. spec.IsVersion v × (text.now ≡ spec.version_text v)) }
        ensures exact { (v : Version) → spec.IsVersion v → text.now ≡ spec.version_text v → result ≡ Some v }
    {
        let (major, rest) = split_at(b'.', text)?;
        let (minor, patch) = split_at(b'.', rest)?;
        Some(Version {
            major: number(major)?,
            minor: number(minor)?,
            patch: number(patch)?,
        })
    }
}

/// The number that digits are, without leading zeros.
fn number(digits: &[u8]) -> Option<u16>
    ensures found { IfSome result (λ n. (n < 2 ^ 16) × (digits.now ≡ decimal n)) }
    ensures exact { (n : ℕ) → n < 2 ^ 16 → digits.now ≡ decimal n → result ≡ Some n }
{
    let Ok(text) = str::from_utf8(digits) else {
        return None;
    };
    let Ok(n) = text.parse::<u16>() else {
        return None;
    };
    // It is written again, so that neither a sign nor a zero stood before it.
    let mut buffer = Buffer::new();
    if buffer.format(n).as_bytes() != digits {
        return None;
    }
    Some(n)
}

impl FromStr for Version {
    ghost use Rattle.trail_file.specs.Versions.{IsVersionRead};

    type Err = BadVersion;

    ghost from_str_gives = { IsVersionRead };

    /// The version that a text is.
    fn from_str(text: &str) -> Result<Version, BadVersion> {
        match Version::of_bytes(text.as_bytes()) {
            Some(version) => Ok(version),
            None => Err(BadVersion),
        }
    }
}

impl fmt::Display for Version {
    ghost use Rattle.trail_file.specs.Versions.{version_text};

    ghost output = { λ v. Some (version_text v) };

    /// As `from_str` takes it.
    fn fmt<W: fmt::Write>(&self, f: &mut fmt::Formatter<W>) -> fmt::Result {
        let Version {
            major,
            minor,
            patch,
        } = *self;
        write!(f, "{major}.{minor}.{patch}")
    }
}
