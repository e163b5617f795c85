//! What an admitted plan promises. It rests on the laws that the interface classes keep ([`crate::laws`]): these give the
//! laws of effects, and from them follow influence and secrecy (`meter_theory::laws`). Each function's clauses are its
//! statement, and what it calls is what it follows from; nothing is done.
ghost use Rattle.std.specs.Prelude.{◌≡◌, ◌≢◌, ◌↔◌, ℕ, Bool, true, is_some};
ghost use Rattle.cosem_data.specs.declared.cell.CellRef.{CellRef};
ghost use Rattle.meter_theory.specs.Lists.{IsIn};
ghost use Rattle.meter_theory.specs.Plan.{Plan};
ghost use Rattle.meter_theory.specs.State.{State, value};
ghost use Rattle.meter_theory.specs.States.{IsState};
ghost use Rattle.meter_theory.specs.Steps.{Step, next};
ghost use Rattle.meter_theory.specs.Edges.{IsClosed};
ghost use Rattle.meter_theory.specs.EffectLaws.{KeepsAgreementOn, EffectLaws};
ghost use Rattle.meter_theory.specs.Labels.{Labels, Labelling, labelling_of, Admits};
ghost use Rattle.meter_theory.specs.Notice.{may_put, MayNotice, first_notice};
ghost use Rattle.meter_theory.specs.Safety.{Influence, Secrecy, HasCells, IsQuiet};
ghost use Rattle.meter_theory.specs.Sound.{IsSound};

use crate::laws::closed_sets_keep_agreement;
use meter_theory::laws::{
    lawful_effects_keep_agreement, lawful_effects_keep_promises, steps_change_what_they_may_put,
};

/// By the laws of the classes an effect changes only the cells that it says, and keeps agreement on closed sets of cells.
pub fn effects_are_lawful()
    ensures { (P : Plan) → EffectLaws P }
{
    closed_sets_keep_agreement();
}

/// States that agree on a closed set of cells agree on it after each step.
pub fn steps_keep_agreement()
    ensures { (P : Plan) (S : CellRef → Bool) → IsClosed P S → (step : Step) →
        KeepsAgreementOn S (λ s. next P s step) }
{
    effects_are_lawful();
    lawful_effects_keep_agreement();
}

/// A sound plan that is admitted keeps what its policy promises about who influences a cell, and what its labels promise.
pub fn admitted_is_influence_safe()
    ensures policy { (P : Plan) (policy : Labelling) (labels : Labels) → IsSound P →
        Admits P policy labels → Influence P policy }
    ensures labels { (P : Plan) (policy : Labelling) (labels : Labels) → IsSound P →
        Admits P policy labels → Influence P (labelling_of labels) }
{
    effects_are_lawful();
    lawful_effects_keep_promises();
}

/// A sound plan that is admitted keeps from each client what its policy, and what its labels, hide from it.
pub fn admitted_is_secret()
    ensures policy { (P : Plan) (policy : Labelling) (labels : Labels) → IsSound P →
        Admits P policy labels → Secrecy P policy }
    ensures labels { (P : Plan) (policy : Labelling) (labels : Labels) → IsSound P →
        Admits P policy labels → Secrecy P (labelling_of labels) }
{
    effects_are_lawful();
    lawful_effects_keep_promises();
}

/// A step changes only cells that it may put, so that a step of which a client could notice nothing is quiet for it, in states
/// of any values; and the first notice is told exactly where there is one.
pub fn steps_are_noticed()
    ensures changed { (P : Plan) (s : State) (step : Step) (x : CellRef) →
        value (next P s step) x ≢ value s x → IsIn (may_put P step) x }
    ensures quiet { (P : Plan) (Q : Labelling) (c : ℕ) (step : Step) → (MayNotice P Q c step → ⊥) →
        IsQuiet (HasCells P) P Q c step × IsQuiet (IsState P) P Q c step }
    ensures told { (P : Plan) (Q : Labelling) (c : ℕ) (step : Step) →
        (is_some (first_notice P Q c step) ≡ true ↔ MayNotice P Q c step) }
{
    effects_are_lawful();
    steps_change_what_they_may_put();
}
