//! Which APDUs are for this crate.
ghost use Rattle.std.specs.Prelude.{◌≡◌};
ghost use Rattle.acse_association.specs.Answers.{is_aarq, is_rlrq};

/// The tag of an AARQ (IEC 62056-5-3, AARQ-apdu).
pub(crate) const AARQ: u8 = 0x60;

/// The tag of an RLRQ (IEC 62056-5-3, RLRQ-apdu).
const RLRQ: u8 = 0x62;

/// Whether an APDU begins as an AARQ, which asks for an association (IEC 62056-5-3, AARQ-apdu).
pub fn is_aarq(apdu: &[u8]) -> bool
    ensures { result ≡ is_aarq apdu.now }
{
    matches!(apdu, [AARQ, ..])
}

/// Whether an APDU begins as an RLRQ, which releases the association (IEC 62056-5-3, RLRQ-apdu). It is one whatever follows
/// (own profile).
pub fn is_rlrq(apdu: &[u8]) -> bool
    ensures { result ≡ is_rlrq apdu.now }
{
    matches!(apdu, [RLRQ, ..])
}
