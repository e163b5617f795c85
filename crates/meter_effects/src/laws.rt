//! What the laws of the interface classes say of the whole meter: each effect is an operation of an object by its class,
//! and over a closed set of cells it keeps agreement. Each function's clauses are its statement, and what it calls are the
//! laws from which they follow; nothing is done.
ghost use Rattle.std.specs.Prelude.{◌≡◌, Bool};
ghost use Rattle.cosem_data.specs.Tree.{Tree};
ghost use Rattle.cosem_data.specs.declared.cell.CellRef.{CellRef};
ghost use Rattle.cosem_data.specs.declared.name.LogicalName.{LogicalName};
ghost use Rattle.meter_theory.specs.Lists.{IsIn};
ghost use Rattle.meter_theory.specs.State.{State};
ghost use Rattle.meter_theory.specs.States.{MayStand, IsRemembered};
ghost use Rattle.meter_theory.specs.Plan as plans;
ghost use Rattle.meter_theory.specs.Plan.{Plan, Object};
ghost use Rattle.meter_theory.specs.Steps.{Effect, Put, Capture, Clear, effect};
ghost use Rattle.meter_theory.specs.Edges.{IsClosed};
ghost use Rattle.meter_theory.specs.EffectLaws.{KeepsAgreementOn};
ghost use Rattle.meter_theory.specs.declared.refs.ScalerUnit.{ScalerUnit};
ghost use Rattle.cosem_class.specs.declared.class.Op.{Op};
ghost use Rattle.cosem_class.specs.declared.class.Op.TheVariants as ops;
ghost use Rattle.object_model.specs.EffectView.{IsProfile};
ghost use Rattle.meter_effects.specs.Operations.{OperationsKeepAgreement, PutsAreWrites};
ghost use Rattle.meter_effects.specs.PlanOperations.{IsOperationOf, IsAcceptedOperation};

use class_control::clock::Clock;
use class_control::monitor::{Monitor, Watch};
use class_control::parts::{ClockPart, SchedulePart, ScriptTablePart};
use class_control::schedule::Schedule;
use class_control::script_table::ScriptTable;
use class_profile::profile::{Profile, ProfilePart};
use cosem_class::class::{InterfaceClass, Lent};
use cosem_class::data1::{Data1, DataPart};
use cosem_class::generic::laws_of_a_class;
use cosem_class::register::{Register, RegisterPart};

/// Of every class: an operation of an object keeps agreement on each set of cells that has all its sources. So say the
/// class's laws that an operation changes only what it touches, and that a new value depends only on its sources.
pub fn operations_keep_agreement<Lent, C: InterfaceClass<Lent>>()
    ensures { OperationsKeepAgreement C.touched C.own_sources C.row_cells C.new_value }
{
    laws_of_a_class::<Lent, C>();
}

/// Of every class: to put what the class keeps of a value that it does not refuse into a cell of the meter is a write of it, where the write
/// touches that cell alone.
pub fn puts_are_writes<Lent, C: InterfaceClass<Lent>>()
    ensures { PutsAreWrites C.refusal C.touched C.new_value C.kept }
{}

/// The effects of a plan's meter are operations of its objects, by their classes: a put is a write that is not refused, what
/// a register monitor saw it remembers, a capture is method 2 of a profile, over the row of its captured cells, and a clear
/// is method 1. A put of a register's default is its method 1.
pub fn effects_are_operations()
    ensures put { (P : Plan) (x : CellRef) (v : Tree) → MayStand P x v →
        IsAcceptedOperation P (ops.Write x.index) v (λ s. effect P s (Put x v)) }
    ensures remember { (P : Plan) (o : Object) (x : CellRef) (v : Tree) →
        IsRemembered P o.name o.part x v →
        IsOperationOf P o ops.Remember v (λ s. effect P s (Put x v)) }
    ensures capture { (P : Plan) (n : LogicalName) (argument : Tree) → IsProfile P n →
        IsAcceptedOperation P (ops.Invoke 2) argument (λ s. effect P s (Capture n)) }
    ensures clear { (P : Plan) (n : LogicalName) (argument : Tree) → IsProfile P n →
        IsAcceptedOperation P (ops.Invoke 1) argument (λ s. effect P s (Clear n)) }
    ensures reset { (P : Plan) (o : Object) (first default argument : Tree) (unit : ScalerUnit) →
        o.part ≡ plans.Register first default unit → IsOperationOf P o
        (ops.Invoke 1) argument (λ s. effect P s (Put (plans.register_value o.name) default)) }
{
    puts_are_writes::<Lent<'static, DataPart>, Data1>();
    puts_are_writes::<Lent<'static, RegisterPart>, Register>();
    puts_are_writes::<Lent<'static, ProfilePart>, Profile>();
    puts_are_writes::<Watch<'static>, Monitor>();
    puts_are_writes::<Lent<'static, SchedulePart>, Schedule>();
    puts_are_writes::<Lent<'static, ClockPart>, Clock>();
}

/// States that agree on a closed set of cells agree on it after each operation of an object of the plan, by the object's
/// class, and so after each effect.
pub fn closed_sets_keep_agreement()
    ensures operation { (P : Plan) (S : CellRef → Bool) → IsClosed P S →
        (o : Object) (op : Op) (argument : Tree) (change : State → State) → IsIn P.objects o →
        IsOperationOf P o op argument change → KeepsAgreementOn S change }
    ensures effect { (P : Plan) (S : CellRef → Bool) → IsClosed P S → (e : Effect) →
        KeepsAgreementOn S (λ s. effect P s e) }
{
    operations_keep_agreement::<Lent<'static, DataPart>, Data1>();
    operations_keep_agreement::<Lent<'static, RegisterPart>, Register>();
    operations_keep_agreement::<Lent<'static, ProfilePart>, Profile>();
    operations_keep_agreement::<Lent<'static, ScriptTablePart>, ScriptTable>();
    operations_keep_agreement::<Watch<'static>, Monitor>();
    operations_keep_agreement::<Lent<'static, SchedulePart>, Schedule>();
    operations_keep_agreement::<Lent<'static, ClockPart>, Clock>();
    effects_are_operations();
}
