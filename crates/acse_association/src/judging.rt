//! The judgement of an AARQ.
ghost use Rattle.std.specs.Prelude.{◌≡◌, option_map, slice_get, IfOk, Some};
ghost use Rattle.std.specs.Int.RustNames.{bit_and};
ghost use Rattle.acse_association.specs.Judging.{logical_names, is_content, knows_mechanism, has_sap, client_at, password_of, gives_password, initiate_of, limit_of, offered, judged, associated, InRange, IsClientOf};

use crate::association::Association;
use crate::conformance::Conformance;
use crate::diagnostic::Diagnostic;
use crate::fields::{Aarq, content_of};
use crate::initiate::{Initiate, read_initiate};
use crate::password::is_password;
use bitflags::Flags;
use object_model::plan::Plan;

/// 2.16.756.5.8.1.1, logical names without ciphering (IEC 62056-5-3, application-context-name).
const LOGICAL_NAMES: [u8; 9] = [0x06, 0x07, 0x60, 0x85, 0x74, 0x05, 0x08, 0x01, 0x01];

/// 2.16.756.5.8.2.0, lowest level security (IEC 62056-5-3, mechanism-name).
const LOWEST_LEVEL: [u8; 7] = [0x60, 0x85, 0x74, 0x05, 0x08, 0x02, 0x00];

/// 2.16.756.5.8.2.1, low level security (IEC 62056-5-3, mechanism-name).
const LOW_LEVEL: [u8; 7] = [0x60, 0x85, 0x74, 0x05, 0x08, 0x02, 0x01];

/// The tag of a password in the calling-authentication-value (IEC 62056-5-3, Authentication-value, charstring).
const CHARSTRING: u8 = 0x80;

/// The tag of the InitiateRequest in the user-information, an octet-string (IEC 62056-5-3, user-information).
const OCTET_STRING: u8 = 0x04;

/// The most bytes of an APDU that the server sends (own profile).
const MOST: u16 = 1024;

/// Judges the AARQ that the bytes from this wPort are, by the clients of the plan: the association, or why there is none
/// (IEC 62056-5-3, ACSE services). Takes no memory.
///
/// # Errors
/// The diagnostic of the first that is wrong (the order is own profile): bytes that are no AARQ, the application context, the
/// wPort, the mechanism of authentication, the password, the InitiateRequest.
pub fn associate(plan: &Plan, source: u16, apdu: &[u8]) -> Result<Association, Diagnostic>
    ensures value { result ≡ associated plan.now source apdu.now }
    // What is accepted is in range, and of a client of the plan.
    ensures range { IfOk result InRange }
    ensures client { IfOk result (IsClientOf plan.now source) }
{
    let aarq = Aarq::read(apdu).ok_or(Diagnostic::NoReasonGiven)?;
    judge(plan, source, &aarq)
}

/// Judges what is looked at of an AARQ.
fn judge(plan: &Plan, source: u16, aarq: &Aarq<'_>) -> Result<Association, Diagnostic>
    ensures { result ≡ judged plan.now source (Some aarq.now) }
{
    if !is_content(aarq.context, &LOGICAL_NAMES) {
        return Err(Diagnostic::ApplicationContextNameNotSupported);
    }
    let client = client_at(plan, source).ok_or(Diagnostic::NoReasonGiven)?;
    if !knows_mechanism(aarq.mechanism) {
        return Err(Diagnostic::AuthenticationMechanismNameNotRecognised);
    }
    if let Some(password) = password_of(plan, client) {
        if !is_content(aarq.mechanism, &LOW_LEVEL) {
            return Err(Diagnostic::AuthenticationRequired);
        }
        if !gives_password(password, aarq.authentication) {
            return Err(Diagnostic::AuthenticationFailure);
        }
    }
    let initiate = initiate_of(aarq.information).ok_or(Diagnostic::NoReasonGiven)?;
    Ok(Association {
        source,
        client,
        limit: limit_of(initiate.max_pdu),
        conformance: agreed(initiate.conformance),
    })
}

/// Whether there is a content, and it is these bytes.
fn is_content(content: Option<&[u8]>, bytes: &[u8]) -> bool
    ensures { result ≡ is_content bytes.now (option_map (λ c. c.now) content.entry) }
{
    match content {
        Some(content) => content == bytes,
        None => false,
    }
}

/// Whether no mechanism of authentication is named, or one of the two.
fn knows_mechanism(mechanism: Option<&[u8]>) -> bool
    ensures { result ≡ knows_mechanism (option_map (λ c. c.now) mechanism.entry) }
{
    match mechanism {
        Some(name) => name == LOWEST_LEVEL.as_slice() || name == LOW_LEVEL.as_slice(),
        None => true,
    }
}

/// The place of the client with this wPort.
fn client_at(plan: &Plan, source: u16) -> Option<u8>
    ensures { result ≡ client_at plan.now source }
{
    for place in 0..plan.client_count() {
        if has_sap(plan, place, source) {
            return Some(place);
        }
    }
    None
}

/// Whether the client at this place has this wPort.
fn has_sap(plan: &Plan, place: u8, source: u16) -> bool
    ensures { result ≡ has_sap source (slice_get plan.now.clients place) }
{
    match plan.client(place) {
        Some(client) => u16::from(client.sap()) == source,
        None => false,
    }
}

/// The password of the client at this place, if it has one.
fn password_of(plan: &Plan, place: u8) -> Option<&[u8]>
    ensures { option_map (λ p. p.now) result ≡ password_of plan.now place }
{
    plan.client(place)?.password()
}

/// Whether a calling-authentication-value has this password.
fn gives_password(password: &[u8], authentication: Option<&[u8]>) -> bool
    ensures { result ≡ gives_password (Some password.now) (option_map (λ c. c.now) authentication.entry) }
{
    let Some(value) = authentication else {
        return false;
    };
    match content_of(CHARSTRING, value) {
        Some(given) => is_password(given, password),
        None => false,
    }
}

/// The InitiateRequest in a user-information.
fn initiate_of(information: Option<&[u8]>) -> Option<Initiate>
    ensures { result ≡ initiate_of (option_map (λ c. c.now) information.entry) }
{
    read_initiate(content_of(OCTET_STRING, information?)?)
}

/// The most bytes of an APDU that are sent to a client that takes so many.
fn limit_of(max_pdu: u16) -> u16
    ensures { result ≡ limit_of max_pdu }
{
    if max_pdu == 0 {
        MOST
    } else {
        max_pdu.min(MOST)
    }
}

/// What is agreed of the services that a client proposes: those that the server has.
#[tactic(auto, unfolding(bitflags::specs::Sets::known_from))]
fn agreed(proposed: u32) -> Conformance
    ensures { result.0 ≡ bit_and proposed offered }
{
    Conformance::from_bits_truncate(proposed)
}
