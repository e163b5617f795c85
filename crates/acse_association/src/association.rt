//! Who is associated.
ghost use Rattle.std.specs.Prelude.{◌≡◌};
ghost use Rattle.acse_association.specs.Judging.{takes_blocks};

use crate::conformance::Conformance;
use bitflags::Flags;

/// Who is associated, and what was agreed (IEC 62056-5-3, AARE-apdu).
#[derive(Clone, Copy, Debug, PartialEq, Eq, Drop)]
pub struct Association {
    /// The client's wPort (IEC 62056-4-7, source wPort).
    pub source: u16,
    /// The client's place in the plan, from 0.
    pub client: u8,
    /// The most bytes of an APDU that the client takes, 16 to 1,024 (own profile).
    pub limit: u16,
    /// The services that were agreed.
    pub conformance: Conformance,
}

impl Association {
    /// Whether block-transfer-with-get was agreed (IEC 62056-5-3, Conformance, bit 11).
    pub fn takes_blocks(&self) -> bool
        ensures { result ≡ takes_blocks self.now }
    {
        self.conformance
            .contains(Conformance::BLOCK_TRANSFER_WITH_GET)
    }
}
