//! The head of a trail's file: which program made it, and of which configuration it is the trail.
ghost use Rattle.std.specs.Prelude.{◌≡◌, ◌≤◌, ◌∷◌, [], List, ℕ, length, Some, IfOk, IfSome};
ghost use Rattle.hex.specs.Hex.{IsBytes, encode_lower};
ghost use Rattle.trail_file.specs.Heads as spec;
ghost use Rattle.trail_file.specs.Rest.{IsBatch};
ghost use Rattle.trail_file.specs.Text.{recovered};

use crate::reading::first_entry;
use crate::version::Version;
use hex::FromHex;
use std::alloc::{AllocError, Global};
use std::str::FromStr;
use std::{fmt, str};
use thiserror::Error;

/// What a note begins with, behind the latch, that tells the program.
pub(crate) const PROGRAM: &[u8] = b" cosem-flow ";

/// What a line begins with that tells the digest.
const DIGEST: &[u8] = b"# sha256 ";

/// What a trail's file begins with (own profile).
#[derive(Clone, Copy, Debug, PartialEq, Eq)]
pub struct Head {
    /// The version of the program that made the file.
    pub version: Version,
    /// The SHA-256 digest of the configuration's bytes.
    pub digest: [u8; 32],
}

/// A text that is no head: not the two lines `# cosem-flow VERSION` and `# sha256 DIGEST`, with a version as MAJOR.MINOR.PATCH and
/// a digest of 64 lower-case digits.
#[derive(Clone, Copy, Debug, PartialEq, Eq, Drop, Error)]
#[error("no head of the lines \"# cosem-flow VERSION\" and \"# sha256 DIGEST\"")]
pub struct BadHead;

impl Head {
    ghost use Rattle.trail_file.specs.declared.head.Head.{Head};

    /// The head that an entry is, if it is one: `note` is what stands behind its latch.
    pub fn of_entry(note: &[u8], line: &[u8]) -> Option<Head>
        // What is read is a head with these lines.
        ensures found { IfSome result (λ h. spec.IsHead h × (note.now ≡ spec.head_note h) × (line.now ≡ spec.head_line h)) }
        // The lines of a head are read.
        ensures exact { (h : Head) → spec.IsHead h → note.now ≡ spec.head_note h → line.now ≡ spec.head_line h → result ≡ Some h }
    {
        let version = Version::of_bytes(note.strip_prefix(PROGRAM)?)?;
        let digest = digest_of(line.strip_prefix(DIGEST)?)?;
        Some(Head { version, digest })
    }

    /// What the type keeps, for callers: numbers and bytes of the fields' types.
    pub fn known(self)
        ensures { spec.IsHead self }
    {
        let _digest = self.digest;
        let _version = self.version;
    }

    /// The head's two lines, which are a batch of one entry.
    pub(crate) fn batch(&self, alloc: Global) -> Result<Vec<u8>, AllocError>
        ensures bytes { IfOk result (λ batch. batch.items ≡ spec.head_text self.now) }
        ensures batch { IfOk result (λ batch. IsBatch batch.items) }
        ensures entry { IfOk result (λ batch. recovered batch.items ≡ spec.head_entry self.now ∷ []) }
        ensures short { IfOk result (λ batch. length batch.items ≤ 105) }
    {
        self.known();
        let text = self.to_string(alloc)?;
        Ok(text.into_bytes())
    }

    /// The head that bytes are as a text, if they are one.
    fn of_bytes(text: &[u8]) -> Option<Head>
        ensures found { IfSome result (λ h. spec.IsHead h × (text.now ≡ spec.head_text h)) }
        ensures exact { (h : Head) → spec.IsHead h → text.now ≡ spec.head_text h → result ≡ Some h }
    {
        let (note, line, rest) = first_entry(text)?;
        if !rest.is_empty() {
            return None;
        }
        Head::of_entry(note, line)
    }
}

/// The digest that 64 digits are, in lower case.
fn digest_of(digits: &[u8]) -> Option<[u8; 32]>
    ensures found { IfSome result (λ digest. (length digest ≡ 32) × IsBytes digest × (digits.now ≡ encode_lower digest)) }
    ensures exact { (digest : List ℕ) → length digest ≡ 32 → IsBytes digest → digits.now ≡ encode_lower digest → result ≡ Some digest }
{
    let Ok(digest) = <[u8; 32] as FromHex>::from_hex(digits) else {
        return None;
    };
    // It is written again, so that no digit was an upper-case one.
    if digits_of(&digest).as_slice() != digits {
        return None;
    }
    Some(digest)
}

/// A digest as 64 digits, in lower case.
fn digits_of(digest: &[u8; 32]) -> [u8; 64]
    ensures { result ≡ encode_lower digest.now }
{
    let mut digits = [0; 64];
    let Ok(()) = hex::encode_to_slice(digest.as_slice(), digits.as_mut_slice()) else {
        unreachable!()
    };
    digits
}

impl FromStr for Head {
    ghost use Rattle.trail_file.specs.Heads.{IsHeadRead};

    type Err = BadHead;

    ghost from_str_gives = { IsHeadRead };

    /// The head that a text is.
    fn from_str(text: &str) -> Result<Head, BadHead> {
        match Head::of_bytes(text.as_bytes()) {
            Some(head) => Ok(head),
            None => Err(BadHead),
        }
    }
}

impl fmt::Display for Head {
    ghost use Rattle.trail_file.specs.Heads.{head_text};

    ghost output = { λ h. Some (head_text h) };

    /// The two lines, as `from_str` takes them.
    fn fmt<W: fmt::Write>(&self, f: &mut fmt::Formatter<W>) -> fmt::Result {
        let version = self.version;
        let digits = digits_of(&self.digest);
        let Ok(digest) = str::from_utf8(&digits) else {
            return Err(fmt::Error);
        };
        write!(f, "# cosem-flow {version}\n# sha256 {digest}\n")
    }
}
