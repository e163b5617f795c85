//! Theorems about comparisons: each function's clauses are its statement, and its body is empty.
ghost use Rattle.std.specs.Prelude.{◌≡◌, ◌↔◌, false, true, is_some};
ghost use Rattle.cosem_data.specs.declared.cell.CellRef.{CellRef};
ghost use Rattle.meter_theory.specs.Lists.{AreDistinct, IsIn};
ghost use Rattle.meter_theory.specs.Plan.{Object, cells};
ghost use Rattle.meter_theory.specs.Rights.{has_right};
ghost use Rattle.meter_theory.specs.Sound.{IsSound};
ghost use Rattle.flow_changes.specs.Changes.{gained};
ghost use Rattle.flow_map.specs.Map.{Configuration};
ghost use Rattle.flow_changes.specs.Facts.{Fact, Numbered, facts, is_granted, members_for, numbered};
ghost use Rattle.flow_changes.specs.Promises.{HasReach, IsNamed, LiesWithin, NamedHolds, NamedLabelling, NamedReaches, NamedSees, NobodyGains, least, policy_of};
ghost use Rattle.meter_theory.specs.declared.flow.Access.{Access};
ghost use Rattle.flow_map.specs.declared.kind.Kind.{Kind};
ghost use Rattle.meter_theory.specs.declared.flow.Reach.{Reach};

/// A fact is gained exactly where the new configuration has it and the old one hasn't, and then once; what is lost is gained
/// the other way round.
pub fn changes_are_exact()
    ensures exact { (old new : Configuration) (kind : Kind) (f : Fact) → IsIn (gained old new kind) f
        ↔ (IsIn (facts new old kind) f × (IsIn (facts old new kind) f → ⊥)) }
    ensures once { (old new : Configuration) (kind : Kind) → IsSound new.plan →
        AreDistinct (gained old new kind) }
{}

/// Where nobody gains: whom the least labels let influence or learn a cell of the new configuration, those of the old one let
/// by its name; each client of the new one stands in the old with its service access point, and with a password where it had
/// one; each object in a client's view, and each attribute and method that a right of it lists, was in those of the old one; and
/// on each cell that both have the policy of the new one lies within that of the old.
pub fn nobody_has_more()
    ensures may { (old new : Configuration) → NobodyGains old new →
        (reach : Reach) (n : Numbered) (x : CellRef) → HasReach new (least new) reach n x →
        NamedReaches old (least old) reach n.1.name x }
    ensures saps { (old new : Configuration) → NobodyGains old new →
        (n : Numbered) → IsIn (numbered new.plan) n →
        (m : Numbered) × IsNamed old n.1.name m × (m.1.sap ≡ n.1.sap) }
    ensures passwords { (old new : Configuration) → NobodyGains old new →
        (n : Numbered) → IsIn (numbered new.plan) n → is_some n.1.password ≡ false →
        (m : Numbered) × IsNamed old n.1.name m × (is_some m.1.password ≡ false) }
    ensures views { (old new : Configuration) → IsSound old.plan → NobodyGains old new →
        (n : Numbered) → IsIn (numbered new.plan) n → (o : Object) → IsIn new.plan.objects o →
        has_right new.plan n.0 o.name (λ r. true) ≡ true → NamedSees old n.1.name o }
    ensures rights { (old new : Configuration) → IsSound old.plan → NobodyGains old new →
        (n : Numbered) → IsIn (numbered new.plan) n → (o : Object) → IsIn new.plan.objects o →
        (access : Access) (x : CellRef) → IsIn (members_for access o) x →
        is_granted new.plan n.0 access x ≡ true → NamedHolds old n.1.name access x }
    ensures policy { (old new : Configuration) → NobodyGains old new →
        (reach : Reach) (n : Numbered) (x : CellRef) → IsIn (cells old.plan) x →
        HasReach new (policy_of new) reach n x → NamedReaches old (policy_of old) reach n.1.name x }
{}

/// Where nobody gains, and the least labels of the old configuration lie within a labelling of cells by the names of clients,
/// so do those of the new one: a policy that was held is held.
pub fn labels_stay_within()
    ensures { (old new : Configuration) (allowed : NamedLabelling) → NobodyGains old new →
        LiesWithin old (least old) allowed → LiesWithin new (least new) allowed }
{}
