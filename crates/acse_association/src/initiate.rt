//! InitiateRequest, read from left to right.
ghost use Rattle.std.specs.Prelude.{◌≡◌, option_map};
ghost use Rattle.acse_association.specs.Initiate.{behind, behind_optional, proposal_at, initiate_at};

/// What a client proposes (IEC 62056-5-3, xDLMS-Initiate.request).
#[derive(Clone, Copy)]
pub(crate) struct Initiate {
    /// The services, as 24 bits.
    pub(crate) conformance: u32,
    /// The most bytes of an APDU that the client takes; 0 for any number.
    pub(crate) max_pdu: u16,
}

/// The tag of InitiateRequest, and no dedicated key.
const FRONT: [u8; 2] = [0x01, 0x00];

/// Version 6, and the head of the conformance: its tag, its length, no bit unused.
const VERSION: [u8; 5] = [0x06, 0x5F, 0x1F, 0x04, 0x00];

/// The fewest bytes of an APDU that a client may take (own profile).
const MIN_PDU: u16 = 16;

/// The InitiateRequest that the bytes are to their end, or None where they are none.
#[tactic(auto, unfolding(crate::specs::Initiate::initiate_at))]
pub(crate) fn read_initiate(bytes: &[u8]) -> Option<Initiate>
    ensures { result ≡ initiate_at bytes.now }
{
    let response_allowed = behind(&FRONT, bytes)?;
    let quality_of_service = behind_optional(response_allowed)?;
    let version = behind_optional(quality_of_service)?;
    proposal_of(behind(&VERSION, version)?)
}

/// What stands behind this text.
#[tactic(auto, unfolding(crate::specs::Initiate::behind))]
fn behind<'a>(text: &[u8], bytes: &'a [u8]) -> Option<&'a [u8]>
    ensures { option_map (λ rest. rest.now) result ≡ behind text.now bytes.now }
{
    bytes.strip_prefix(text)
}

/// What stands behind an optional byte: 00, or 01 and the byte, which may be any.
#[tactic(auto, unfolding(crate::specs::Initiate::behind_optional))]
fn behind_optional(bytes: &[u8]) -> Option<&[u8]>
    ensures { option_map (λ rest. rest.now) result ≡ behind_optional bytes.now }
{
    match bytes {
        [0, rest @ ..] => Some(rest),
        [1, _, rest @ ..] => Some(rest),
        _ => None,
    }
}

/// The numbers to the end of the bytes.
#[tactic(auto, unfolding(crate::specs::Initiate::proposal_at))]
fn proposal_of(bytes: &[u8]) -> Option<Initiate>
    ensures { result ≡ proposal_at bytes.now }
{
    let [high, middle, low, max_high, max_low] = bytes else {
        return None;
    };
    let max_pdu = u16::from_be_bytes([*max_high, *max_low]);
    if max_pdu != 0 && max_pdu < MIN_PDU {
        return None;
    }
    Some(Initiate {
        conformance: u32::from_be_bytes([0, *high, *middle, *low]),
        max_pdu,
    })
}
