//! What stands at a logical name of a plan, looked up once. Nothing here takes memory, but for copies of values.
ghost use Rattle.std.specs.Prelude.{◌≡◌, ◌<◌, ℕ, true, length, option_map, slice_get, IfOk, IfSome, Some};
ghost use Rattle.cosem_data.specs.View.{tree};
ghost use Rattle.std.specs.List.{position_from};
ghost use Rattle.cosem_data.specs.Cells.{cell, same_cell};
ghost use Rattle.cosem_data.specs.Kinds.{kind_of};
ghost use Rattle.cosem_data.specs.declared.name.LogicalName.{LogicalName as NameValue};
ghost use Rattle.cosem_class.specs.Judged.{rule_answer};
ghost use Rattle.meter_theory.specs.Fixed.{fixed_of};
ghost use Rattle.meter_theory.specs.Plan.{cells, clock_object, interface_at, is_cell, object_at, rule_of, start_values};
ghost use Rattle.meter_theory.specs.Rights.{has_right, in_view, is_granted, lists, may_read};
ghost use Rattle.meter_theory.specs.State.{value};
ghost use Rattle.meter_theory.specs.Steps.{captures_of};
ghost use Rattle.class_profile.specs.PartView.{captures_of_part};
ghost use Rattle.object_model.specs.Grants.{listed_in};
ghost use Rattle.object_model.specs.PartView.{part_of, monitored_kind};
ghost use Rattle.object_model.specs.Tables.{AreNumbers, AreScriptPlaces, number_at, place_of, references_at, scripts_run_at};

use crate::grants::is_granted;
use crate::object::Object;
use crate::part::Part;
use crate::place::Place;
use crate::plan::{ASSOCIATION, ASSOCIATION_LN, Plan};
use crate::script_places::ScriptPlace;
use class_profile::profile::ProfilePart;
use cosem_data::cell::CellRef;
use cosem_data::data::Data;
use cosem_data::kind::Kind;
use cosem_data::memory::Memory;
use cosem_data::name::LogicalName;
use meter_theory::access::AccessCode;
use meter_theory::flow::Access;
use meter_theory::refs::Interface;
use std::alloc::Global;
use std::marker::Model;

/// What a plan has at an instance-id, a logical name (IEC 62056-5-3, Cosem-Object-Instance-Id): the current association, an
/// object, or nothing. Whatever is asked of it takes no other search of the names.
#[derive(Drop)]
pub struct Instance<'a> {
    plan: &'a Plan,
    name: LogicalName,
    number: Option<u16>,
}

impl<'a> Model for Instance<'a> {
    ghost use Rattle.std.specs.Prelude.{◌≡◌};
    ghost use Rattle.object_model.specs.InstanceView.{AtName, at_name_code};
    ghost use Rattle.object_model.specs.Tables.{number_at};

    ghost Value = { AtName };

    ghost coded = { at_name_code };

    ghost view = { λ i. record { plan = i.plan.now; name = i.name } };

    ghost invariant = { λ i. i.number ≡ number_at i.plan.now.objects i.name };
}

impl<'a> Instance<'a> {
    /// What the plan has at this name.
    pub fn of(plan: &'a Plan, name: LogicalName) -> Self
        ensures { result ≡ record { plan = plan.now; name = name } }
    {
        Instance {
            plan,
            name,
            number: plan.number_of(&name),
        }
    }

    /// The plan.
    pub fn plan(&self) -> &'a Plan
        ensures { result.now ≡ self.now.plan }
    {
        self.plan
    }

    /// The logical name.
    pub fn name(&self) -> LogicalName
        ensures { result ≡ self.now.name }
    {
        self.name
    }

    /// What the plan has at a name. It takes a search only where the name is another one.
    pub fn at(&self, name: LogicalName) -> Instance<'a>
        ensures { result ≡ record { plan = self.now.plan; name = name } }
    {
        let number = if name == self.name {
            self.number
        } else {
            self.plan.number_of(&name)
        };
        Instance {
            plan: self.plan,
            name,
            number,
        }
    }

    /// The number, from 0 in plan order, of the object with this name, or None where the plan has none.
    pub fn number(&self) -> Option<u16>
        ensures { result ≡ number_at self.now.plan.objects self.now.name }
    {
        self.number
    }

    /// The object with this name, or None where the plan has none.
    pub fn object(&self) -> Option<&'a Object>
        ensures { option_map (λ o. o.now) result ≡ object_at self.now.plan self.now.name }
    {
        match self.number {
            Some(number) => self.plan.object(number),
            None => None,
        }
    }

    /// What the plan fixes of the profile with this name, or None where it has none.
    pub fn profile(&self) -> Option<&'a ProfilePart>
        ensures { option_map
            (λ part. record { captured = captures_of_part part.now; entries = part.now.profile_entries }) result
            ≡ captures_of (object_at self.now.plan self.now.name) }
    {
        match self.object()?.part() {
            Part::ProfileGeneric(part) => Some(part),
            _ => None,
        }
    }

    /// Where the object has its cells, or None where the plan has no object with this name.
    pub(crate) fn place(&self) -> Option<Place>
        ensures { result
            ≡ option_map (place_of self.now.plan.objects) (number_at self.now.plan.objects self.now.name) }
    {
        match self.number {
            Some(number) => Some(self.plan.place(number)),
            None => None,
        }
    }

    /// What the plan has at the name to which the object refers at this place, counted from 0, or None past the last: a
    /// profile to the cells that it may capture, a script table to the targets of its scripts' actions, a register monitor to its
    /// monitored value and then to the scripts of its actions, a schedule to the scripts that it may run. It takes no search.
    pub fn referred(&self, place: usize) -> Option<Instance<'a>>
        ensures { result ≡ option_map (λ name. record { plan = self.now.plan; name = name })
            (slice_get (references_at self.now.plan self.now.name) place) }
    {
        let number = self.plan.reference(self.number?, place)?;
        Some(Instance::numbered(self.plan, number))
    }

    /// The numbers of all to which the object here refers, in its order; none where the plan has no object with this name.
    pub fn references(&self) -> &'a [u16]
        ensures { AreNumbers self.now.plan (references_at self.now.plan self.now.name) result.now }
    {
        match self.number {
            Some(number) => self.plan.references(number),
            None => &[],
        }
    }

    /// Where the scripts stand that the object here may have run, as [`Plan::script_places`] orders them; none where the plan has no
    /// object with this name.
    pub fn script_places(&self) -> &'a [ScriptPlace]
        ensures { AreScriptPlaces self.now.plan (scripts_run_at self.now.plan self.now.name) result.now }
    {
        match self.number {
            Some(number) => self.plan.script_places(number),
            None => &[],
        }
    }

    /// What a plan has under this number, the first with its name. It takes no search.
    pub fn numbered(plan: &'a Plan, number: u16) -> Self
        requires { (name : NameValue) × (number_at plan.now.objects name ≡ Some number) }
        ensures { (name : NameValue) → number_at plan.now.objects name ≡ Some number
            → result ≡ record { plan = plan.now; name = name } }
    {
        Instance {
            plan,
            name: plan.objects()[usize::from(number)].name(),
            number: Some(number),
        }
    }

    /// The kind of the value that the register monitor here watches, which is kept; that of null-data for any other object.
    pub(crate) fn monitored_kind(&self, part: &Part) -> Kind
        requires { option_map (λ o. o.part) (object_at self.now.plan self.now.name)
            ≡ Some (part_of part.now) }
        ensures { result ≡ monitored_kind self.now.plan (part_of part.now) }
    {
        match (part.monitored(), self.referred(0)) {
            (Some(cell), Some(source)) => source.start_kind(cell.class_id, cell.index),
            _ => Kind::NullData,
        }
    }

    /// The interface class of what stands here: the current association (IEC 62056-6-2, Association LN, version 0), or an
    /// object; None where nothing stands.
    pub fn interface(&self) -> Option<Interface>
        ensures { result ≡ interface_at self.now.plan self.now.name }
    {
        if self.name == ASSOCIATION {
            return Some(ASSOCIATION_LN);
        }
        self.object().map(|object| object.part().interface())
    }

    /// Whether the client's view has this name: the current association, or an object on which it has a right. The view
    /// of a client that the plan lacks is empty (IEC 62056-6-2, object_list).
    pub fn in_view(&self, client: u8) -> bool
        ensures { result ≡ in_view self.now.plan client self.now.name }
    {
        self.plan.is_client(client) && (self.name == ASSOCIATION || self.has_right(client))
    }

    /// Whether the client has a right on the object, be it without any attribute or method.
    pub fn has_right(&self, client: u8) -> bool
        ensures { result ≡ has_right self.now.plan client self.now.name (λ r. true) }
    {
        self.is_listed(None, client, 0)
    }

    /// Whether a right of the client allows a GET of the attribute with this index.
    pub fn may_get(&self, client: u8, index: u8) -> bool
        ensures { result ≡ has_right self.now.plan client self.now.name (λ r. lists r.gets index) }
    {
        self.is_granted(Access::Get, client, index)
    }

    /// Whether a right of the client allows a SET of the attribute with this index.
    pub fn may_set(&self, client: u8, index: u8) -> bool
        ensures { result ≡ has_right self.now.plan client self.now.name (λ r. lists r.sets index) }
    {
        self.is_granted(Access::Set, client, index)
    }

    /// Whether a right of the client allows an ACTION of the method with this index.
    pub fn may_act(&self, client: u8, index: u8) -> bool
        ensures { result ≡ has_right self.now.plan client self.now.name (λ r. lists r.acts index) }
    {
        self.is_granted(Access::Act, client, index)
    }

    /// Whether the client may read this attribute of what its view has: the logical name, the attributes of the current
    /// association but 5 and 7, user information and secret (own profile), and what a right allows.
    pub fn may_read(&self, client: u8, index: u8) -> bool
        ensures { (class_id : ℕ)
            → result ≡ may_read self.now.plan client (cell class_id self.now.name index) }
    {
        if self.name == ASSOCIATION {
            matches!(index, 1..=4 | 6 | 8)
        } else {
            index == 1 || self.may_get(client, index)
        }
    }

    /// Whether a right of the client lists the attribute or the method with this index for this access.
    pub fn is_granted(&self, access: Access, client: u8, index: u8) -> bool
        ensures { result ≡ is_granted self.now.plan client access self.now.name index }
    {
        self.is_listed(Some(access), client, index)
    }

    /// Whether a right of the client lists this index for this access, or for the view, which has each object on which it has a right
    /// under index 0.
    fn is_listed(&self, access: Option<Access>, client: u8, index: u8) -> bool
        ensures { result
            ≡ has_right self.now.plan client self.now.name (λ r. lists (listed_in access r) index) }
    {
        is_granted(self.plan.masks(access), self.number, client, index)
    }

    /// Whether the class with this number has a cell at this index here: an attribute that can change, or what a register
    /// monitor has seen.
    pub fn is_cell(&self, class_id: u16, index: u8) -> bool
        ensures { result ≡ is_cell self.now.plan (cell class_id self.now.name index) }
    {
        self.plan.known();
        match self.object() {
            Some(object) => object
                .part()
                .has_cell(object.name(), &self.cell(class_id, index)),
            None => false,
        }
    }

    /// The number, from 0 in plan order, of the cell with this class_id and index of the object with this name, or None where
    /// it is no cell.
    pub fn cell_number(&self, class_id: u16, index: u8) -> Option<u16>
        ensures { result ≡ position_from (same_cell (cell class_id self.now.name index)) 0
            (cells self.now.plan) }
    {
        self.plan.known();
        let object = self.object()?;
        let place = self.place()?;
        let own = object
            .part()
            .cell_place(object.name(), &self.cell(class_id, index))?;
        Some(place.first_cell + own)
    }

    /// The kind of the value with which a cell starts; that of null-data for what is no cell.
    pub fn start_kind(&self, class_id: u16, index: u8) -> Kind
        ensures { result
            ≡ kind_of (value (start_values self.now.plan) (cell class_id self.now.name index)) }
    {
        self.plan.known();
        match self.object() {
            Some(object) => object
                .part()
                .start_kind(object.name(), &self.cell(class_id, index)),
            None => Kind::NullData,
        }
    }

    /// Whether the value may be put into a cell: `TypeUnmatched` for another tag and where no settable cell is,
    /// `OtherReason` for the right tag against the rest of the cell's rule (own profile; the codes are those of
    /// IEC 62056-5-3, Data-Access-Result).
    pub fn rule(&self, class_id: u16, index: u8, value: &Data) -> Result<(), AccessCode>
        ensures { result ≡ rule_answer (rule_of self.now.plan (cell class_id self.now.name index))
            (tree value.now) }
    {
        let Some(object) = self.object() else {
            return Err(AccessCode::TypeUnmatched);
        };
        let part = object.part();
        if part.class_id() != class_id {
            return Err(AccessCode::TypeUnmatched);
        }
        part.judge(self.monitored_kind(part), index, value)
    }

    /// A copy of a fixed attribute of the object, other than its logical name; null-data where there is none.
    pub fn fixed(&self, alloc: Global, index: u8) -> Result<Data, Memory>
        ensures { IfOk result (λ value. tree value
            ≡ fixed_of (object_at self.now.plan self.now.name) index) }
    {
        match self.object() {
            Some(object) => object.part().fixed(alloc, index),
            None => Ok(Data::NullData),
        }
    }

    /// The cell of this class at this index.
    fn cell(&self, class_id: u16, index: u8) -> CellRef
        ensures { result ≡ cell class_id self.now.name index }
    {
        CellRef {
            class_id,
            name: self.name,
            index,
        }
    }
}

impl Plan {
    /// What the plan has at this logical name.
    pub fn instance(&self, name: &LogicalName) -> Instance<'_>
        ensures { result ≡ record { plan = self.now; name = name.now } }
    {
        Instance::of(self, *name)
    }

    /// The same of a name that was looked up before: the object there has this number, if there is one. It takes no search.
    pub fn instance_at(&self, name: &LogicalName, number: Option<u16>) -> Instance<'_>
        requires { number ≡ number_at self.now.objects name.now }
        ensures { result ≡ record { plan = self.now; name = name.now } }
    {
        Instance {
            plan: self,
            name: *name,
            number,
        }
    }

    /// What the plan has under the number of an object, from 0 in plan order: that object. It takes no search.
    pub fn instance_of(&self, number: u16) -> Instance<'_>
        requires { number < length self.now.objects }
        ensures { IfSome (slice_get self.now.objects number)
            (λ o. result ≡ record { plan = self.now; name = o.name }) }
    {
        self.known();
        Instance {
            plan: self,
            name: self.objects()[usize::from(number)].name(),
            number: Some(number),
        }
    }

    /// The clock, if the plan has one. It takes no search.
    pub fn clock_instance(&self) -> Option<Instance<'_>>
        ensures plan { IfSome result (λ clock. clock.plan ≡ self.now) }
        ensures name { option_map (λ clock. clock.name) result
            ≡ option_map (λ o. o.name) (clock_object self.now) }
    {
        match self.clock_number() {
            Some(number) => Some(self.instance_of(number)),
            None => None,
        }
    }

    /// The object with this logical name, or None where there is none.
    pub fn object_at(&self, name: &LogicalName) -> Option<&Object>
        ensures { option_map (λ o. o.now) result ≡ object_at self.now name.now }
    {
        self.instance(name).object()
    }

    /// The kind of the value with which a cell starts; that of null-data for what is no cell.
    pub fn start_kind(&self, cell: &CellRef) -> Kind
        ensures { result ≡ kind_of (value (start_values self.now) cell.now) }
    {
        self.instance(&cell.name)
            .start_kind(cell.class_id, cell.index)
    }

    /// Whether the value may be put into a cell, as [`Instance::rule`] says of what stands at its name.
    pub fn rule(&self, cell: &CellRef, value: &Data) -> Result<(), AccessCode>
        ensures { result ≡ rule_answer (rule_of self.now cell.now) (tree value.now) }
    {
        self.instance(&cell.name)
            .rule(cell.class_id, cell.index, value)
    }

    /// The number, from 0 in plan order, of a cell, or None for what is no cell of this plan.
    pub fn cell_number(&self, cell: &CellRef) -> Option<u16>
        ensures { result ≡ position_from (same_cell cell.now) 0 (cells self.now) }
    {
        self.instance(&cell.name)
            .cell_number(cell.class_id, cell.index)
    }

    /// Whether it is a cell of this plan.
    pub fn is_cell(&self, cell: &CellRef) -> bool
        ensures { result ≡ is_cell self.now cell.now }
    {
        self.instance(&cell.name).is_cell(cell.class_id, cell.index)
    }
}
