ghost use Rattle.std.specs.Prelude.{◌≡◌, ◌++◌, List, ℕ, OnOk, OnErr};
ghost use Rattle.line_server.specs.Doing.{AnswersAsk, FailsAsk};

use cosem_data::memory::Memory;
use std::alloc::Global;
use std::marker::Model;
use xdlms_services::asker::Asker;
use xdlms_services::asking::{Asking, Exception, write_exception};
use xdlms_services::reading::{ApduFault, read_apdu};

/// An APDU of a client, which is named by its place in the plan. Contracts see the two as a record.
#[derive(Debug, Drop)]
pub struct Ask<'a> {
    client: u8,
    apdu: &'a [u8],
}

impl<'a> Model for Ask<'a> {
    ghost use Rattle.line_server.specs.Asking.{Ask as Asked};

    ghost Value = { Asked };

    ghost view = { λ a. record { client = a.client; apdu = a.apdu.now } };
}

impl<'a> Ask<'a> {
    ghost use Rattle.std.specs.Prelude.{◌≡◌, IfOk, IfSome, option_map};
    ghost use Rattle.meter_core.specs.StepView.{step_of};
    ghost use Rattle.xdlms_services.specs.Asking.{IsServiceOf, asked, asking_at};

    /// What this client asks by this APDU.
    pub fn new(client: u8, apdu: &'a [u8]) -> Self
        ensures client { result.client ≡ client }
        ensures apdu { result.apdu ≡ apdu.now }
    {
        Ask { client, apdu }
    }

    /// What the APDU asks of the meter, or `None` where it is no GET or SET of one attribute and no ACTION of one method. The only
    /// error is want of memory.
    #[inline(always)]
    pub fn asking(&self, alloc: Global) -> Result<Option<Asking>, Memory>
        ensures asking { IfOk result (λ x. option_map asked x
            ≡ asking_at self.now.client self.now.apdu) }
        ensures service { IfOk result
            (λ x. IfSome x (λ asking. IsServiceOf (step_of asking.step) asking.service)) }
    {
        match read_apdu(alloc, self.apdu) {
            Ok(request) => Ok(request.into_asking(self.client)),
            Err(ApduFault::Unreadable) => Ok(None),
            Err(ApduFault::Memory) => Err(Memory),
        }
    }
}

/// Puts the APDU that is replied to an APDU of a client behind what is there; the asker takes the step that it asks for.
///
/// What is no GET or SET of one attribute and no ACTION of one method is replied an exception, and asks nothing. The only error is
/// want of memory; the reply is then lost, and the step was asked once or not at all.
pub fn answer<A: Asker>(
    alloc: Global,
    asker: &mut A,
    ask: &Ask<'_>,
    out: &mut Vec<u8>,
) -> Result<(), Memory>
    ensures reply { OnOk result ((apdu : List ℕ)
        × AnswersAsk A.answers asker.old ask.now apdu asker.new
        × (out.new.items ≡ out.old.items ++ apdu)) }
    ensures err { OnErr result (FailsAsk A.answers asker.old ask.now asker.new) }
{
    match ask.asking(alloc)? {
        Some(asking) => asker.put_reply(alloc, asking, out),
        None => write_exception(Exception::Unknown, out),
    }
}
