//! The services that may be used.
ghost use Rattle.std.specs.Prelude.{⊤, [], ◌∷◌, codes};

use bitflags::{Flag, Flags, bitflag_items};

/// What a client may use of the services (IEC 62056-5-3, Conformance): 24 bits, of which the first is the highest.
#[derive(Clone, Copy, Debug, PartialEq, Eq, Drop)]
pub struct Conformance(u32);

bitflag_items! {
    impl Conformance: u32 {
        const BLOCK_TRANSFER_WITH_GET = 0x00_1000;
        const GET = 0x00_0010;
        const SET = 0x00_0008;
        const SELECTIVE_ACCESS = 0x00_0004;
        const ACTION = 0x00_0001;
    }
}

impl Flags for Conformance {
    type Bits = u32;

    ghost exact = { ⊤ };

    ghost table = { (codes "BLOCK_TRANSFER_WITH_GET", 0x001000)
        ∷ (codes "GET", 0x000010) ∷ (codes "SET", 0x000008)
        ∷ (codes "SELECTIVE_ACCESS", 0x000004) ∷ (codes "ACTION", 0x000001) ∷ [] };

    ghost set_of = { λ c. c.0 };

    fn flags<'a>() -> &'a [Flag<Conformance>] {
        Conformance::FLAGS
    }

    fn bits(&self) -> u32 {
        self.0
    }

    fn from_bits_retain(bits: u32) -> Conformance {
        Conformance(bits)
    }
}
