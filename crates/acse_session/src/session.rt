//! A session of a client.
ghost use Rattle.std.specs.Prelude.{◌≡◌, ◌≤◌, [], IfOk, OnErr, Option, length};
ghost use Rattle.acse_session.specs.Answering.{Speaks, kept_of};
ghost use Rattle.xdlms_services.specs.Conversation.{Exchange, Leads, asked_list};

use crate::turning::turn;
use acse_association::Association;
use cosem_data::memory::Memory;
use object_model::plan::Plan;
use std::alloc::Global;
use std::marker::Model;
use xdlms_services::asker::Asker;
use xdlms_services::blocks::LongGet;

/// The APDUs of one connection are answered one after another (IEC 62056-5-3). It keeps the association in force and the value that is
/// sent in blocks. Contracts see what stands behind the APDUs that came.
#[derive(Drop)]
pub struct Session<'a> {
    plan: &'a Plan,
    association: Option<Association>,
    transfer: Option<LongGet>,
}

impl<'a> Model for Session<'a> {
    ghost use Rattle.acse_session.specs.Keeping.{Kept, kept_code, IsKept};

    ghost Value = { Kept };

    ghost coded = { kept_code };

    ghost view = { λ s.
        record { plan = s.plan.now; association = s.association; transfer = s.transfer } };

    ghost invariant = { λ s. IsKept s.association s.transfer };
}

impl<'a> Session<'a> {
    /// A session of a meter of this plan, to which nothing came yet: nobody is associated.
    pub fn new(plan: &'a Plan) -> Session<'a>
        ensures { result ≡ kept_of plan.now [] }
    {
        Session {
            plan,
            association: None,
            transfer: None,
        }
    }

    /// The APDU that answers an APDU from this wPort (IEC 62056-4-7), behind those that came before. A GET, SET or ACTION of the
    /// associated client is one step of the meter, which is asked once; nothing else asks it. A value that is longer than the client
    /// takes is sent in blocks, all of the value as it was when it was asked for.
    ///
    /// # Errors
    /// `Memory` where memory is refused, at most one step being asked then: the session begins anew, without an association. Where it is
    /// refused to the asker, that is no error, but is answered as temporary-failure.
    pub fn answer<A: Asker>(
        &mut self,
        alloc: Global,
        source: u16,
        apdu: &[u8],
        asker: &mut A,
    ) -> Result<Vec<u8>, Memory>
        requires { A.plan_of asker.old ≡ self.old.plan }
        ensures ok { IfOk result (λ answer. (asked : Option Exchange)
            × Leads A.answers asker.old (asked_list asked) asker.new
            × Speaks self.old self.new
            (record { source = source; apdu = apdu.now; asked = asked; answer = answer.items })) }
        ensures err { OnErr result ((asked : Option Exchange)
            × Leads A.answers asker.old (asked_list asked) asker.new
            × (self.new ≡ kept_of self.old.plan [])) }
        // An answer has the room of a frame.
        ensures fits { IfOk result (λ answer. length answer.items ≤ 1024) }
        ensures asker_plan { A.plan_of asker.new ≡ A.plan_of asker.old }
        ensures plan { self.new.plan ≡ self.old.plan }
    {
        let association = self.association.take();
        let transfer = self.transfer.take();
        let after = turn(alloc, self.plan, association, transfer, source, apdu, asker)?;
        self.association = after.association;
        self.transfer = after.transfer;
        Ok(after.answer)
    }
}
