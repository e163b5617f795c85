//! Theorems about meters and plans: each function's clauses are its statement, and its body is empty.
ghost use Rattle.std.specs.Prelude.{◌≡◌, ◌≢◌, ◌↔◌, ◌+◌, ◌∷◌, ◌++◌, ◌<◌, ◌≤◌, [], ℕ, Bool, Option, length, suc, List, map, true, false, None, Some, is_some};
ghost use Rattle.cosem_data.specs.Cells.{same_cell};
ghost use Rattle.cosem_data.specs.Tree.{Tree, array, no_trees};
ghost use Rattle.cosem_data.specs.declared.cell.CellRef.{CellRef};
ghost use Rattle.cosem_data.specs.declared.name.LogicalName.{LogicalName};
ghost use Rattle.cosem_data.specs.declared.cell.MethodRef.{MethodRef};
ghost use Rattle.meter_theory.specs.Lists.{IsIn, AreDistinct, for_some};
ghost use Rattle.meter_theory.specs.State.{State, keys, value, put};
ghost use Rattle.meter_theory.specs.declared.refs.ScriptRef.{ScriptRef};
ghost use Rattle.meter_theory.specs.declared.flow.Cause.TheVariants as causes;
ghost use Rattle.meter_theory.specs.Menus.{Choice, has_menu};
ghost use Rattle.meter_theory.specs.Value.{counter};
ghost use Rattle.meter_theory.specs.Times.{Moment, IsMoment, last_moment, next_second, seconds_since_2000, clock_moment, clock_value};
ghost use Rattle.meter_theory.specs.Plan as plans;
ghost use Rattle.meter_theory.specs.Plan.{Plan, Object, HasNoMenus, cells, start, object_at, clock_object};
ghost use Rattle.cosem_data.specs.declared.name.LogicalName.{LogicalName};
ghost use Rattle.meter_theory.specs.Steps.{Step, CaptureAt, ScheduleAt, ClockAt, captured_at, captured_in, script_now, scheduled_at, effects_of, kept, next, write, changed_by_write};
ghost use Rattle.meter_theory.specs.Replies.{run};
ghost use Rattle.meter_theory.specs.declared.flow.Edge.{Edge};
ghost use Rattle.meter_theory.specs.declared.flow.Refusal.{Refusal};
ghost use Rattle.meter_theory.specs.Edges.{Agree, IsEdge, edge, edges_in, edges_from_clock, in_plan_order, script_changes, edges, IsClosed};
ghost use Rattle.meter_theory.specs.EffectLaws.{KeepsAgreementOn, EffectLaws};
ghost use Rattle.meter_theory.specs.Labels.{Labels, Labelling, has, labelling_of, Admits, AreLeast, MayChange, method_changes_of};
ghost use Rattle.meter_theory.specs.Sound.{IsSound};
ghost use Rattle.meter_theory.specs.Ways.{HasWay, IsDistance, IsWay, far_end, is_within, near_end, set_for, shown_way};
ghost use Rattle.meter_theory.specs.declared.flow.Reach.{Reach};
ghost use Rattle.meter_theory.specs.States.{IsState};
ghost use Rattle.meter_theory.specs.Check.{AllPass, Refuses, may_change};
ghost use Rattle.meter_theory.specs.Safety.{HasCells, IsQuiet, AreAlike, Alike, AlikeByPlace, Influence, Secrecy};
ghost use Rattle.meter_theory.specs.Notice.{behind_guards, may_put, MayNotice, first_notice};

/// Where the effects of a sound plan keep their laws, and it is admitted, it keeps what its policy, and what its labels, promise
/// about who influences a cell, and keeps from each client what they hide from it.
pub fn lawful_effects_keep_promises()
    ensures influence { (P : Plan) (policy : Labelling) (labels : Labels) →
        IsSound P → EffectLaws P → Admits P policy labels →
        Influence P policy × Influence P (labelling_of labels) }
    ensures secrecy { (P : Plan) (policy : Labelling) (labels : Labels) → IsSound P → EffectLaws P →
        Admits P policy labels → Secrecy P policy × Secrecy P (labelling_of labels) }
{}

/// Where the effects of a plan keep their laws, states that agree on a closed set of cells agree on it after each step.
pub fn lawful_effects_keep_agreement()
    ensures { (P : Plan) (S : CellRef → Bool) → EffectLaws P → IsClosed P S → (step : Step) →
        KeepsAgreementOn S (λ s. next P s step) }
{}

/// What guards look at lies in closed sets: in states that agree on a closed set with a cell behind the guards of a step, the step
/// has the same effects.
pub fn guards_lie_in_closed_sets()
    ensures { (P : Plan) (S : CellRef → Bool) → IsClosed P S → (s t : State) → Agree S s t →
        (step : Step) (x : CellRef) → IsIn (behind_guards P step) x → S x ≡ true →
        effects_of P s step ≡ effects_of P t step }
{}

/// Where the effects of a plan keep their laws, a step changes only cells that it may put, so that a step of which a client could
/// notice nothing is quiet for it, in states of any values; and the first notice is told exactly where there is one.
pub fn steps_change_what_they_may_put()
    ensures changed { (P : Plan) (s : State) (step : Step) (x : CellRef) → EffectLaws P →
        value (next P s step) x ≢ value s x → IsIn (may_put P step) x }
    ensures quiet { (P : Plan) (Q : Labelling) (c : ℕ) (step : Step) →
        EffectLaws P → (MayNotice P Q c step → ⊥) →
        IsQuiet (HasCells P) P Q c step × IsQuiet (IsState P) P Q c step }
    ensures told { (P : Plan) (Q : Labelling) (c : ℕ) (step : Step) →
        (is_some (first_notice P Q c step) ≡ true ↔ MayNotice P Q c step) }
{}

/// Lists of one length that differ, place by place, only in what is hidden from a client are alike to it.
pub fn lists_alike_by_place_are_alike()
    ensures { (P : Plan) (Q : Labelling) (c : ℕ) (l l' : List Step) → AlikeByPlace P Q c l l' →
        Alike P Q c l l' × AreAlike (IsState P) P Q c l l' }
{}

/// The list of edges has each edge of a sound plan, and no other, and each once.
pub fn edges_are_listed()
    ensures all { (P : Plan) (e : Edge) → IsSound P → (IsEdge P e ↔ IsIn (edges P) e) }
    ensures once { (P : Plan) → AreDistinct (edges P) }
{}

/// The six tests decide admission; what a refusal names isn't admitted, and there is one refusal at most.
pub fn tests_decide_admission()
    ensures decided { (P : Plan) (policy : Labelling) (labels : Labels) → IsSound P →
        (AllPass P policy labels ↔ Admits P policy labels) }
    ensures refused { (P : Plan) (policy : Labelling) (labels : Labels) (r : Refusal) → IsSound P →
        Refuses P policy labels r → Admits P policy labels → ⊥ }
    ensures unique { (P : Plan) (policy : Labelling) (labels : Labels) (r q : Refusal) →
        Refuses P policy labels r → Refuses P policy labels q → r ≡ q }
{}

/// Where the least labels of a plan are refused for a policy, no labels are admitted for it: the configuration or the policy
/// has to change.
pub fn least_labels_decide()
    ensures admits { (P : Plan) (policy : Labelling) (least labels : Labels) → AreLeast P least →
        Admits P policy labels → Admits P policy least }
    ensures refused { (P : Plan) (policy : Labelling) (least labels : Labels) (r : Refusal) →
        IsSound P → AreLeast P least → Refuses P policy least r → Admits P policy labels → ⊥ }
{}

/// A client is in a set of the least labels exactly where it has a way of that kind to the cell.
pub fn least_labels_are_ways()
    ensures { (P : Plan) (least : Labels) (reach : Reach) (c : ℕ) (x : CellRef) →
        IsSound P → AreLeast P least → IsIn (cells P) x →
        (has (set_for reach (labelling_of least x)) c ≡ true ↔ HasWay P reach c x) }
{}

/// A cell is within so many rounds exactly where a way of at most so many edges leads to it; and the rounds stand still before
/// there are as many of them as cells.
pub fn rounds_follow_ways()
    ensures ways { (P : Plan) (reach : Reach) (c k : ℕ) (x : CellRef) → IsSound P → IsIn (cells P) x →
        (is_within P reach c k x ≡ true ↔ ((es : List Edge) × IsWay P reach c x es × (length es ≤ k))) }
    ensures still { (P : Plan) (reach : Reach) (c k : ℕ) (x : CellRef) → IsSound P → IsIn (cells P) x →
        length (cells P) ≤ suc k → is_within P reach c (suc k) x ≡ is_within P reach c k x }
{}

/// Each cell has one distance from a client, or none; it is less than the number of cells, and an edge adds one at most.
pub fn cells_have_distances()
    ensures there { (P : Plan) (reach : Reach) (c : ℕ) (x : CellRef) → IsSound P → IsIn (cells P) x →
        (d : Option ℕ) × IsDistance P reach c x d }
    ensures one { (P : Plan) (reach : Reach) (c : ℕ) (x : CellRef) (d other : Option ℕ) → IsSound P →
        IsDistance P reach c x d → IsDistance P reach c x other → d ≡ other }
    ensures few { (P : Plan) (reach : Reach) (c : ℕ) (x : CellRef) (d : ℕ) → IsSound P →
        IsDistance P reach c x (Some d) → d < length (cells P) }
    ensures next { (P : Plan) (reach : Reach) (c : ℕ) (e : Edge) (d : ℕ) (far : Option ℕ) → IsSound P → IsEdge P e →
        IsDistance P reach c (near_end reach e) (Some d) → IsDistance P reach c (far_end reach e) far →
        (k : ℕ) × (far ≡ Some k) × (k ≤ suc d) }
{}

/// The way that is shown is a way, and no way has fewer edges.
pub fn shown_ways_are_shortest()
    ensures { (P : Plan) (reach : Reach) (c : ℕ) (x : CellRef) (d : ℕ) → IsSound P →
        IsDistance P reach c x (Some d) →
        IsWay P reach c x (shown_way P reach c d x) × (length (shown_way P reach c d x) ≡ d) }
{}

/// The test of the rights that change a cell tells who has one, and a right to a method changes cells of the plan alone.
pub fn rights_to_change_are_tested()
    ensures tested { (P : Plan) (c : ℕ) (x : CellRef) → IsIn (cells P) x →
        (may_change P c x ≡ true ↔ MayChange P c x) }
    ensures cells { (P : Plan) (m : MethodRef) (x : CellRef) → IsSound P →
        IsIn (method_changes_of P m) x → IsIn (cells P) x }
{}

/// A state is a map with fixed cells.
pub fn states_are_maps()
    ensures itself { (s : State) (x : CellRef) → put s x (value s x) ≡ s }
    ensures twice { (s : State) (x : CellRef) (v w : Tree) → put (put s x v) x w ≡ put s x w }
    ensures swap { (s : State) (x y : CellRef) (v w : Tree) → same_cell x y ≡ false →
        put (put s x v) y w ≡ put (put s y w) x v }
    ensures cells { (s : State) (x : CellRef) (v : Tree) → keys (put s x v) ≡ keys s }
{}

/// A sound plan's cells start with values of the declared kinds, and each step and each run keeps them.
pub fn states_are_kept()
    ensures start { (P : Plan) → IsSound P → IsState P (start P) }
    ensures step { (P : Plan) (s : State) (step : Step) → IsSound P → IsState P s →
        IsState P (next P s step) }
    ensures run { (P : Plan) (s : State) (l : List Step) → IsSound P → IsState P s →
        IsState P (run P s l) }
{}

/// The inner clock is looked at: behind a moment that it is set to, a profile captures and a schedule runs its script exactly where
/// the one is due at that moment, and no cell of the plan has changed. Where a plan has a clock, nothing sets an inner one.
pub fn moments_are_looked_at()
    ensures capture { (P : Plan) (s : State) (t : Moment) (n : LogicalName) →
        clock_object P ≡ None → HasCells P s → IsMoment t →
        effects_of P (next P s (ClockAt t)) (CaptureAt n)
        ≡ for_some (object_at P n) (λ o. captured_at s n t o.part) }
    ensures schedule { (P : Plan) (s : State) (t : Moment) (n : LogicalName) →
        clock_object P ≡ None → HasCells P s → IsMoment t →
        effects_of P (next P s (ClockAt t)) (ScheduleAt n)
        ≡ for_some (object_at P n) (λ o. scheduled_at P s n t o.part) }
    ensures cells { (P : Plan) (s : State) (t : Moment) (x : CellRef) → IsIn (cells P) x →
        value (next P s (ClockAt t)) x ≡ value s x }
    ensures clock { (P : Plan) (s : State) (t : Moment) (o : Object) → clock_object P ≡ Some o →
        next P s (ClockAt t) ≡ s }
{}

/// The time of a clock says its moment, and what is kept is kept as it is.
pub fn clocks_keep_moments()
    ensures moment { (t : Moment) → clock_moment (clock_value t) ≡ t }
    ensures kept { (x : CellRef) (v : Tree) → kept x (kept x v) ≡ kept x v }
{}

/// A tick leads from a moment to the one a second later, and leaves the last.
pub fn ticks_add_a_second()
    ensures moment { (t : Moment) → IsMoment t → IsMoment (next_second t) }
    ensures second { (t : Moment) → IsMoment t → t ≢ last_moment →
        seconds_since_2000 (next_second t) ≡ seconds_since_2000 t + 1 }
    ensures last { next_second last_moment ≡ last_moment }
{}

/// Where there is no menu all is as if there were none at all: the attribute is no cell and takes no value, what it holds is
/// what is configured, no edge has it as its source, and a write of a cell changes that cell alone.
pub fn attributes_without_menus_are_fixed()
    ensures captures { (s : State) (n : LogicalName) (c : Choice (List CellRef)) →
        has_menu c ≡ false → captured_in s n c ≡ c.configured }
    ensures runs { (s : State) (n : LogicalName) (c : Choice ScriptRef) → has_menu c ≡ false →
        script_now s n c ≡ c.configured }
    ensures profile { (n : LogicalName) (c : Choice (List CellRef)) (period entries : ℕ) →
        has_menu c ≡ false →
        plans.start_of n (plans.ProfileGeneric c period entries) ≡ (plans.buffer n, array no_trees)
        ∷ (plans.capture_period n, counter period) ∷ (plans.entries_in_use n, counter 0) ∷ [] }
    ensures schedule { (n : LogicalName) (c : Choice ScriptRef) (type : ℕ) (times : Tree) →
        has_menu c ≡ false → plans.start_of n (plans.SingleActionSchedule c type times)
        ≡ (plans.execution_time n, times) ∷ [] }
    ensures objects_rule { (P : Plan) (c : Choice (List CellRef)) (period entries : ℕ) →
        has_menu c ≡ false → plans.rule_in P (plans.ProfileGeneric c period entries) 3 ≡ None }
    ensures script_rule { (P : Plan) (c : Choice ScriptRef) (type : ℕ) (times : Tree) →
        has_menu c ≡ false → plans.rule_in P (plans.SingleActionSchedule c type times) 2 ≡ None }
    ensures profile_edges { (P : Plan) (n : LogicalName) (c : Choice (List CellRef))
        (period entries : ℕ) → has_menu c ≡ false →
        edges_in P n (plans.ProfileGeneric c period entries)
        ≡ map (λ x. edge causes.Captured x (plans.buffer n)) c.configured
        ++ edge causes.Period (plans.capture_period n) (plans.buffer n)
        ∷ edge causes.Period (plans.capture_period n) (plans.entries_in_use n)
        ∷ edges_from_clock P (plans.buffer n ∷ plans.entries_in_use n ∷ []) }
    ensures schedule_edges { (P : Plan) (n : LogicalName) (c : Choice ScriptRef)
        (type : ℕ) (times : Tree) → has_menu c ≡ false →
        edges_in P n (plans.SingleActionSchedule c type times)
        ≡ map (λ y. edge causes.Schedule (plans.execution_time n) y)
        (in_plan_order P (script_changes P c.configured))
        ++ edges_from_clock P (in_plan_order P (script_changes P c.configured)) }
    ensures writes { (P : Plan) → HasNoMenus P →
        (x : CellRef) → IsIn (cells P) x → (s : State) (v : Tree) →
        (write s x v ≡ put s x (kept x v)) × (changed_by_write x ≡ x ∷ []) }
{}
