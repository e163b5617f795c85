//! Callers of what a meter is made of, its classes and steps, and of its requests and replies.
ghost use Rattle.std.specs.Prelude.{◌≡◌, ◌||◌, ℕ, Bool, codes, length, map, string_bytes, true, IfErr, IfOk, IsErrOf, IsOk, None, OnErr, OnOk};
ghost use Rattle.association_views.specs.AssociationClass.{association_reading, association_refusal};
ghost use Rattle.civil_moment.specs.Texts.{moment_text};
ghost use Rattle.class_profile.specs.PartView.{captures_of_part};
ghost use Rattle.class_profile.specs.ProfileClass.{is_buffer};
ghost use Rattle.cosem_class.specs.CellSets.{has};
ghost use Rattle.cosem_class.specs.Judged.{rule_answer};
ghost use Rattle.cosem_class.specs.Objects.{AnswersAs, RefusedAs};
ghost use Rattle.cosem_class.specs.declared.class.Op.TheVariants as ops;
ghost use Rattle.cosem_class.specs.declared.class.Op.{Op};
ghost use Rattle.cosem_data.specs.Tree.{Tree};
ghost use Rattle.cosem_data.specs.View.{tree};
ghost use Rattle.cosem_data.specs.declared.cell.CellRef.{CellRef as Cell};
ghost use Rattle.meter_core.specs.StepView.{reply_of, shown_of, step_of};
ghost use Rattle.meter_core.specs.Stops.{IsStopped};
ghost use Rattle.meter_effects.specs.PlanOperations.{IsOperationOf};
ghost use Rattle.meter_theory.specs.Edges.{IsClosed};
ghost use Rattle.meter_theory.specs.EffectLaws.{KeepsAgreementOn};
ghost use Rattle.meter_theory.specs.Fixed as shapes;
ghost use Rattle.meter_theory.specs.Labels.{label_at, or_else};
ghost use Rattle.meter_theory.specs.Lists.{IsIn};
ghost use Rattle.meter_theory.specs.Plan as theory;
ghost use Rattle.meter_theory.specs.Replies.{replies, run as run_of};
ghost use Rattle.meter_theory.specs.State.{State};
ghost use Rattle.meter_theory.specs.States.{IsState};
ghost use Rattle.meter_theory.specs.Value.{array_of};
ghost use Rattle.object_model.specs.EffectView.{MayTake};
ghost use Rattle.xdlms_services.specs.Grammar.{IsNoRequest};
ghost use Rattle.xdlms_services.specs.Replies.{CanReply, CanWrite};

use association_views::laws::views_are_associations;
use association_views::view::View;
use civil_moment::moment::{BadMoment, Moment};
use class_profile::profile::{Captured, Profile, ProfilePart};
use cosem_class::cell_set::CellSet;
use cosem_class::class::{ClassFault, InterfaceClass, Row};
use cosem_data::cell::CellRef;
use cosem_data::data::Data;
use cosem_data::memory::Memory;
use cosem_data::name::LogicalName;
use meter_core::reply::Reply;
use meter_core::run::{Stopped, run};
use meter_core::shown::Shown;
use meter_core::step::Step;
use meter_effects::laws::closed_sets_keep_agreement;
use meter_theory::access::AccessCode;
use meter_theory::flow::Label;
use meter_theory::refs::Interface;
use object_model::effect::Effect;
use object_model::meter::Meter;
use object_model::plan::Plan;
use object_model::policy::Policy;
use object_model::undo::Undo;
use std::alloc::{AllocError, Global};
use xdlms_services::reading::{ApduFault, read_apdu};
use xdlms_services::request::Request;
use xdlms_services::writing::{Service, write_reply, write_shown};

/// Whether an index is a member of a set of cells.
pub fn is_member(cells: CellSet, index: u8) -> bool
    ensures { result ≡ has cells index }
{
    cells.has(index)
}

/// A member of either set is one of their union.
pub fn is_member_of_either(one: CellSet, other: CellSet, index: u8) -> bool
    ensures { result ≡ (has one index || has other index) }
{
    one.union(other).has(index)
}

/// A value is judged by the rule of the cell that it shall go to.
pub fn is_ruled(plan: &Plan, cell: &CellRef, value: &Data) -> Result<(), AccessCode>
    ensures { result ≡ rule_answer (theory.rule_of plan.now cell.now) (tree value.now) }
{
    plan.rule(cell, value)
}

/// A moment as it is written.
pub fn moment_as_text(alloc: Global, moment: Moment) -> Result<String, AllocError>
    ensures { IfOk result (λ text. string_bytes text ≡ moment_text moment) }
{
    format!(in alloc; "{moment}")
}

/// What is told of a text that is no moment.
pub fn words_of_bad_moment(bad: BadMoment) -> &'static str
    ensures { result.now ≡ codes "no moment of the form YYYY-MM-DDTHH:MM:SS" }
{
    bad.words()
}

/// A capture into a full buffer asks for no memory.
pub fn capture_into_full(
    profile: &mut Profile,
    alloc: Global,
    part: &ProfilePart,
    row: Row,
) -> Result<Captured, Memory>
    requires rows { is_buffer (captures_of_part part.now) part.now.profile_entries
        (array_of profile.old.buffer) ≡ true }
    requires full { length profile.old.buffer ≡ part.now.profile_entries }
    ensures { IsOk result }
{
    profile.capture(alloc, part, row)
}

/// The reset of a profile asks for no memory.
pub fn reset(
    meter: &mut Meter,
    alloc: Global,
    plan: &Plan,
    profile: LogicalName,
) -> Result<Undo, Memory>
    requires of_plan { IsState plan.now meter.old }
    requires fits { MayTake plan.now (Effect.Clear profile) }
    ensures { IsOk result }
{
    meter.take(alloc, &plan.instance(&profile), Effect::Clear(profile))
}

/// The label of a cell by a policy.
pub fn label_by(policy: &Policy, cell: &CellRef) -> Label
    ensures { result ≡ or_else policy.now.default (label_at policy.now.table cell.now) }
{
    policy.label(cell)
}

/// A result is copied without memory.
pub fn copied_result(code: AccessCode, alloc: Global) -> Result<Reply, Memory>
    ensures { IsOk result }
{
    Reply::Code(code).try_clone(alloc)
}

/// The replies of a run, or those to the steps that were taken.
pub fn run_through(
    alloc: Global,
    plan: &Plan,
    meter: &mut Meter,
    steps: &[Step],
) -> Result<Vec<Reply>, Stopped>
    requires { IsState plan.now meter.old }
    ensures state { IsState plan.now meter.new }
    ensures ok { OnOk result (meter.new ≡ run_of plan.now meter.old (map step_of steps.now)) }
    ensures replies { IfOk result (λ all. map reply_of all.items
        ≡ replies plan.now meter.old (map step_of steps.now)) }
    ensures stopped { IfErr result (λ stopped. IsStopped plan.now meter.old meter.new
        (map step_of steps.now) (map reply_of stopped.replies.items)) }
{
    run(alloc, plan, meter, steps)
}

/// The class of the current association (IEC 62056-6-2, Association LN, version 0).
pub fn class_of_associations() -> Interface
    ensures { result ≡ record { class_id = 15; version = 0; attributes = 8; methods = 4 } }
{
    views_are_associations()
}

/// An attribute of the current association, as its client reads it.
pub fn association_read(view: &View<'_>, alloc: Global, index: u8) -> Result<Data, ClassFault>
    ensures { AnswersAs result (association_reading view.now index None) }
{
    view.read(alloc, (), index)
}

/// No attribute of it is set.
pub fn association_set(view: &mut View<'_>, index: u8, value: Data) -> Result<Data, ClassFault>
    ensures { RefusedAs result (association_refusal view.old (ops.Write index) (tree value)) }
{
    view.write((), index, value)
}

/// No method of it is called.
pub fn association_called(
    view: &mut View<'_>,
    alloc: Global,
    method: u8,
    argument: &Data,
    row: Row,
) -> Result<(), ClassFault>
    ensures { RefusedAs result (association_refusal view.old (ops.Invoke method) (tree argument.now)) }
{
    view.invoke(alloc, (), method, argument, row)
}

/// Its object_list is that of its client.
pub fn objects_listed(view: &View<'_>, alloc: Global) -> Result<Data, Memory>
    ensures { IfOk result (λ value. tree value ≡ shapes.object_list view.now.plan view.now.client) }
{
    view.object_list(alloc)
}

/// An operation of an object of a plan, by the object's class, keeps agreement on each closed set of cells.
pub fn operations_of_a_plan_keep_agreement()
    ensures { (P : theory.Plan) (S : Cell → Bool) → IsClosed P S →
        (o : theory.Object) (op : Op) (argument : Tree) (change : State → State) →
        IsIn P.objects o → IsOperationOf P o op argument change → KeepsAgreementOn S change }
{
    closed_sets_keep_agreement();
}

/// Bytes that are no request aren't read, whether memory is refused or not.
pub fn read_in(alloc: Global, bytes: &[u8]) -> Result<Request, ApduFault>
    ensures { IsNoRequest bytes.now → IsErrOf result ApduFault.Unreadable }
{
    read_apdu(alloc, bytes)
}

/// A reply that is refused memory leaves what was written before it.
pub fn put_behind(
    service: Service,
    invoke: u8,
    reply: &Reply,
    written: &mut Vec<u8>,
) -> Result<(), Memory>
    requires { CanWrite service reply.now }
    ensures { OnErr result (written.new.items ≡ written.old.items) }
{
    write_reply(invoke, reply, service, written)
}

/// So does what is lent to a GET.
pub fn show_behind(invoke: u8, shown: &Shown<'_>, written: &mut Vec<u8>) -> Result<(), Memory>
    requires { CanReply Service.Get (shown_of shown.now) }
    ensures { OnErr result (written.new.items ≡ written.old.items) }
{
    write_shown(invoke, shown, written)
}
