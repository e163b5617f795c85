//! What a request asks of the meter, and what its reply needs of the request.
ghost use Rattle.std.specs.Prelude.{◌≡◌, ◌++◌, OnErr, OnOk};
ghost use Rattle.xdlms_services.specs.Asking.{exception_bytes};

use crate::request::Request;
use crate::writing::Service;
use cosem_data::memory::Memory;
use meter_core::step::Step;

/// A step that a client asks for, and what the reply to it needs of the request (IEC 62056-5-3).
#[derive(Drop)]
pub struct Asking {
    /// The service that is asked, whose reply it is.
    pub service: Service,
    /// The Invoke-Id-And-Priority, which the reply brings back.
    pub invoke: u8,
    /// The step of the client.
    pub step: Step,
}

impl Request {
    ghost use Rattle.std.specs.Prelude.{◌≡◌, option_map, IfSome};
    ghost use Rattle.xdlms_services.specs.Asking.{asked, asking_of, IsServiceOf};
    ghost use Rattle.meter_core.specs.StepView.{step_of};

    /// What the client at this place in the plan asks by the request, or `None` for a request for the next block of a
    /// value, which asks no step.
    #[inline(always)]
    pub fn into_asking(self, client: u8) -> Option<Asking>
        ensures asking { option_map asked result ≡ asking_of client self }
        ensures service { IfSome result (λ asking. IsServiceOf (step_of asking.step) asking.service) }
    {
        match self {
            Request::Get {
                invoke,
                attribute,
                selection,
            } => Some(Asking {
                service: Service::Get,
                invoke,
                step: Step::Get {
                    client,
                    attribute,
                    selection,
                },
            }),
            Request::Set {
                invoke,
                attribute,
                selected,
                value,
            } => Some(Asking {
                service: Service::Set,
                invoke,
                step: Step::Set {
                    client,
                    attribute,
                    selected,
                    value,
                },
            }),
            Request::Act {
                invoke,
                method,
                argument,
            } => Some(Asking {
                service: Service::Act,
                invoke,
                step: Step::Act {
                    client,
                    method,
                    argument,
                },
            }),
            Request::Next { .. } => None,
        }
    }
}

/// The tag of an exception.
const EXCEPTION_RESPONSE: u8 = 0xD8;

/// The state errors of an exception.
const SERVICE_NOT_ALLOWED: u8 = 1;

const SERVICE_UNKNOWN: u8 = 2;

/// The service errors of an exception.
const OPERATION_NOT_POSSIBLE: u8 = 1;

const SERVICE_NOT_SUPPORTED: u8 = 2;

/// Why an APDU isn't answered by its service (IEC 62056-5-3, Exception-Response).
#[derive(Clone, Copy, Debug, PartialEq, Eq)]
pub enum Exception {
    /// It isn't allowed now, since the client isn't associated: service-not-allowed and operation-not-possible. That
    /// this answers all but the request for an association is own profile.
    NotAllowed,
    /// It is no request that the server knows: service-unknown and service-not-supported. That this answers unreadable
    /// bytes too is own profile.
    Unknown,
}

/// Puts the APDU of an exception behind what is there: Exception-Response of IEC 62056-5-3.
///
/// # Errors
/// `Memory` where memory is refused; the vector then has what it had before.
pub fn write_exception(exception: Exception, out: &mut Vec<u8>) -> Result<(), Memory>
    ensures ok { OnOk result (out.new.items ≡ out.old.items ++ exception_bytes exception) }
    ensures err { OnErr result (out.new.items ≡ out.old.items) }
{
    out.extend_from_slice(&apdu_of(exception))?;
    Ok(())
}

/// The tag and the two errors of an exception.
fn apdu_of(exception: Exception) -> [u8; 3]
    ensures { result ≡ exception_bytes exception }
{
    match exception {
        Exception::NotAllowed => [
            EXCEPTION_RESPONSE,
            SERVICE_NOT_ALLOWED,
            OPERATION_NOT_POSSIBLE,
        ],
        Exception::Unknown => [EXCEPTION_RESPONSE, SERVICE_UNKNOWN, SERVICE_NOT_SUPPORTED],
    }
}
