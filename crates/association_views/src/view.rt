//! The current association of a client as an object of its interface class.
ghost use Rattle.std.specs.Prelude.{◌≡◌, ℕ, false, ⊤, IfOk};
ghost use Rattle.cosem_data.specs.View.{tree};
ghost use Rattle.meter_theory.specs.Fixed as shapes;
ghost use Rattle.cosem_class.specs.CellSets.{has};
ghost use Rattle.cosem_class.specs.Objects.{no_cells};
ghost use Rattle.association_views.specs.AssociationClass.{ClientView, AssociationMeetsRule, association_new_value, association_reading, association_refusal, association_touched, has_value, is_association_attribute};
ghost use Rattle.association_views.specs.AssociationLaws.{association_depends_only_on_sources, association_keeps_rules, association_writes_its_value};

use crate::association::{fixed_attribute_at, object_list};
use cosem_class::cell_set::CellSet;
use cosem_class::class::{ClassFault, InterfaceClass, Op, Row};
use cosem_data::data::Data;
use cosem_data::memory::Memory;
use object_model::plan::{ASSOCIATION, ASSOCIATION_LN, Plan};
use std::alloc::Global;
use std::marker::Model;

/// The current association as one client sees it, an object of class 15 over the plan that it borrows: all that can be
/// read is fixed by the plan and the client, and nothing can be changed (IEC 62056-6-2, Association LN, version 0).
#[derive(Drop)]
pub struct View<'a> {
    plan: &'a Plan,
    client: u8,
}

impl<'a> Model for View<'a> {
    ghost use Rattle.association_views.specs.AssociationClass.{ClientView, client_view_code};

    ghost Value = { ClientView };

    ghost coded = { client_view_code };

    ghost view = { λ v. record { plan = v.plan.now; client = v.client } };
}

impl<'a> View<'a> {
    /// What the client at this place, counted from 0, sees of the plan. Of a client that the plan lacks the association has
    /// no partners and no mechanism, and lists itself alone (own profile).
    pub fn of(plan: &'a Plan, client: u8) -> Self
        ensures { result ≡ record { plan = plan.now; client = client } }
    {
        View { plan, client }
    }

    /// A copy of attribute 2, object_list: the current association first, then the objects on which the client has a right,
    /// each with the client's rights (IEC 62056-6-2, Association LN).
    pub fn object_list(&self, alloc: Global) -> Result<Data, Memory>
        ensures { IfOk result (λ value. tree value ≡ shapes.object_list self.now.plan self.now.client) }
    {
        object_list(alloc, self.plan, self.client)
    }
}

/// Whether the class has an attribute with this index.
fn is_attribute(index: u8) -> bool
    ensures { result ≡ is_association_attribute index }
{
    1 <= index && index <= ASSOCIATION_LN.attributes
}

/// Whether an attribute of the class has a value: 5, user information, and 7, secret, have none (own profile).
fn has_value(index: u8) -> bool
    ensures { result ≡ has_value index }
{
    is_attribute(index) && !matches!(index, 5 | 7)
}

impl<'a> InterfaceClass<()> for View<'a> {
    const CLASS_ID: u16 = ASSOCIATION_LN.class_id;

    const VERSION: u8 = ASSOCIATION_LN.version;

    const ATTRIBUTES: u8 = ASSOCIATION_LN.attributes;

    const METHODS: u8 = ASSOCIATION_LN.methods;

    ghost Fixed = { ClientView };

    ghost fixed = { λ v _. v };

    ghost cells = { λ v. no_cells };

    ghost reading = { association_reading };

    ghost refusal = { association_refusal };

    ghost new_value = { association_new_value };

    ghost kept = { λ value. value };

    ghost MeetsRule = { AssociationMeetsRule };

    ghost IsRow = { λ _ _ _. ⊤ };

    ghost touched = { association_touched };

    ghost own_sources = { λ _ _ _. false };

    ghost row_cells = { λ _ _. false };

    ghost depends_only_on_sources = { association_depends_only_on_sources };

    ghost writes_its_value = { association_writes_its_value };

    ghost keeps_rules = { association_keeps_rules };

    /// `NoIndex` for 5, user information, and 7, secret, too: they have no value (own profile).
    fn read(&self, alloc: Global, _lent: (), index: u8) -> Result<Data, ClassFault> {
        if !has_value(index) {
            return Err(ClassFault::NoIndex);
        }
        let association = self.plan.instance(&ASSOCIATION);
        Ok(fixed_attribute_at(alloc, &association, self.client, index)?)
    }

    fn write(&mut self, _lent: (), index: u8, _value: Data) -> Result<Data, ClassFault> {
        if is_attribute(index) {
            Err(ClassFault::NotSettable)
        } else {
            Err(ClassFault::NoIndex)
        }
    }

    /// `NoIndex` for each: reply_to_HLS_authentication, change_HLS_secret, add_object and remove_object aren't offered (own
    /// profile).
    fn invoke(
        &mut self,
        _alloc: Global,
        _lent: (),
        _method: u8,
        _argument: &Data,
        _row: Row,
    ) -> Result<(), ClassFault> {
        Err(ClassFault::NoIndex)
    }

    fn touched(_op: Op) -> CellSet
        ensures { (i : ℕ) → has result i ≡ false }
    {
        CellSet::empty()
    }

    fn own_sources(_op: Op, _cell: u8) -> CellSet
        ensures { (i : ℕ) → has result i ≡ false }
    {
        CellSet::empty()
    }

    fn row_cells(_op: Op) -> CellSet
        ensures { (i : ℕ) → has result i ≡ false }
    {
        CellSet::empty()
    }
}
