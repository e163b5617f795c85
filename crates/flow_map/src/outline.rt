//! What is told of a plan: clients by name, objects by class and name, and rights. No value stands here, no password, and nothing
//! that a script writes.
ghost use Rattle.std.specs.Prelude.{◌≡◌, ◌==◌, IfOk, is_some, length, option_map, slice_get, true};
ghost use Rattle.std.specs.List.{position_from};
ghost use Rattle.cosem_data.specs.Cells.{same_cell};
ghost use Rattle.meter_theory.specs.Lists.{some_passes};
ghost use Rattle.meter_theory.specs.Plan.{cells, class_of, client_named, interface_of, is_cell, object_at};
ghost use Rattle.meter_theory.specs.Rights.{has_right, in_view, is_granted};
ghost use Rattle.meter_theory.specs.Sound.{IsSound};

use cosem_data::cell::CellRef;
use cosem_data::memory::Memory;
use cosem_data::name::LogicalName;
use meter_theory::flow::Access;
use meter_theory::refs::Interface;
use object_model::client::Client;
use object_model::instance::Instance;
use object_model::object::Object;
use object_model::plan::Plan;
use std::alloc::Global;
use std::marker::Model;

/// A plan, of which its clients, its objects and its rights are told. Contracts see the plan.
#[derive(Drop)]
pub struct Outline<'a> {
    plan: &'a Plan,
    clients: Vec<ClientOutline<'a>>,
    objects: Vec<ObjectOutline<'a>>,
}

impl<'a> Model for Outline<'a> {
    ghost use Rattle.meter_theory.specs.Plan as theory;
    ghost use Rattle.meter_theory.specs.PlanCode.{plan_code};
    ghost use Rattle.flow_map.specs.Outline.{AreOutlined};

    ghost Value = { theory.Plan };

    ghost coded = { plan_code };

    ghost view = { λ o. o.plan.now };

    ghost invariant = { λ o. AreOutlined o.plan.now o.clients.items o.objects.items };
}

impl<'a> Outline<'a> {
    /// The outline of a plan. The only error is want of memory.
    pub(crate) fn new(alloc: Global, plan: &'a Plan) -> Result<Self, Memory>
        ensures { IfOk result (λ outline. outline ≡ plan.now) }
    {
        plan.known();
        Ok(Outline {
            plan,
            clients: clients_of(alloc, plan)?,
            objects: objects_of(alloc, plan)?,
        })
    }

    /// The plan, for who looks for what rights allow.
    pub(crate) fn plan(&self) -> &'a Plan
        ensures { result.now ≡ self.now }
    {
        self.plan
    }

    /// What the type keeps, for callers: the plan is sound.
    pub fn known(&self)
        ensures sound { IsSound self.now }
    {
        self.plan.known();
    }

    /// How many clients the plan has: each place below has one.
    pub fn client_count(&self) -> u8
        ensures { result ≡ length self.now.clients }
    {
        self.plan.client_count()
    }

    /// The client at this place, counted from 0, or None past the last.
    pub fn client(&self, client: u8) -> Option<&ClientOutline<'a>>
        ensures { option_map (λ c. c.now) result ≡ slice_get self.now.clients client }
    {
        self.clients.get(usize::from(client))
    }

    /// The place of the first client with this name, or None where there is none.
    pub fn client_named(&self, name: &[u8]) -> Option<u8>
        ensures { result ≡ client_named self.now name.now }
    {
        self.plan.client_named(name)
    }

    /// The objects, in plan order.
    pub fn objects(&self) -> &[ObjectOutline<'a>]
        ensures { result.now ≡ self.now.objects }
    {
        &self.objects
    }

    /// The rights on what stands at a name.
    pub fn rights_at(&self, name: &LogicalName) -> RightsAt<'a>
        ensures { result ≡ record { plan = self.now; name = name.now } }
    {
        RightsAt {
            instance: Instance::of(self.plan, *name),
        }
    }

    /// The number, from 0 in plan order, of a cell, or None where it is none of the plan's.
    pub fn cell_number(&self, cell: &CellRef) -> Option<u16>
        ensures { result ≡ position_from (same_cell cell.now) 0 (cells self.now) }
    {
        self.plan.cell_number(cell)
    }

    /// Whether it is a cell of the plan.
    pub fn is_cell(&self, cell: &CellRef) -> bool
        ensures { result ≡ is_cell self.now cell.now }
    {
        self.plan.is_cell(cell)
    }
}

/// A client without its password.
#[derive(Drop)]
pub struct ClientOutline<'a> {
    client: &'a Client,
}

impl<'a> Model for ClientOutline<'a> {
    ghost use Rattle.meter_theory.specs.Plan as theory;
    ghost use Rattle.meter_theory.specs.PlanCode.{client_code};

    ghost Value = { theory.Client };

    ghost coded = { client_code };

    ghost view = { λ c. c.client.now };
}

impl<'a> ClientOutline<'a> {
    /// The bytes of its name.
    pub fn name(&self) -> &'a [u8]
        ensures { result.now ≡ self.now.name }
    {
        self.client.name()
    }

    /// Its name as a text.
    pub fn name_text(&self) -> &'a str
        ensures { result.now ≡ self.now.name }
    {
        self.client.name_text()
    }

    /// Its service access point (IEC 62056-4-7, source wPort).
    pub fn sap(&self) -> u8
        ensures { result ≡ self.now.sap }
    {
        self.client.sap()
    }

    /// Whether it needs a password (IEC 62056-5-3, authentication).
    pub fn needs_password(&self) -> bool
        ensures { result ≡ is_some self.now.password }
    {
        self.client.password().is_some()
    }
}

/// An object without its values.
#[derive(Drop)]
pub struct ObjectOutline<'a> {
    object: &'a Object,
}

impl<'a> Model for ObjectOutline<'a> {
    ghost use Rattle.meter_theory.specs.Plan as theory;
    ghost use Rattle.meter_theory.specs.PlanCode.{object_code};

    ghost Value = { theory.Object };

    ghost coded = { object_code };

    ghost view = { λ o. o.object.now };
}

impl ObjectOutline<'_> {
    /// Its logical name, attribute 1 (IEC 62056-6-2).
    pub fn name(&self) -> LogicalName
        ensures { result ≡ self.now.name }
    {
        self.object.name()
    }

    /// Whether inputs from outside go to its value (own profile).
    pub fn is_fed(&self) -> bool
        ensures { result ≡ self.now.fed }
    {
        self.object.is_fed()
    }

    /// Its interface class, with how many attributes and methods that has (IEC 62056-6-2).
    pub fn interface(&self) -> Interface
        ensures { result ≡ interface_of self.now.part }
    {
        self.object.part().interface()
    }

    /// The class_id of its interface class (IEC 62056-6-2).
    pub fn class_id(&self) -> u16
        ensures { result ≡ class_of self.now.part }
    {
        self.object.part().class_id()
    }
}

/// The rights of clients on what stands at a logical name.
#[derive(Drop)]
pub struct RightsAt<'a> {
    instance: Instance<'a>,
}

impl<'a> Model for RightsAt<'a> {
    ghost use Rattle.flow_map.specs.Outline.{AtName, at_name_code};

    ghost Value = { AtName };

    ghost coded = { at_name_code };

    ghost view = { λ r. record { plan = r.instance.plan; name = r.instance.name } };
}

impl RightsAt<'_> {
    /// Whether an object of this class stands here.
    pub fn is_of_class(&self, class_id: u16) -> bool
        ensures { result ≡ some_passes (λ o. class_of o.part == class_id) (object_at self.now.plan self.now.name) }
    {
        match self.instance.object() {
            Some(object) => object.part().class_id() == class_id,
            None => false,
        }
    }

    /// Whether the client's view has this name (IEC 62056-6-2, object_list).
    pub fn in_view(&self, client: u8) -> bool
        ensures { result ≡ in_view self.now.plan client self.now.name }
    {
        self.instance.in_view(client)
    }

    /// Whether the client has a right on the object, be it without any attribute or method.
    pub fn has_right(&self, client: u8) -> bool
        ensures { result ≡ has_right self.now.plan client self.now.name (λ r. true) }
    {
        self.instance.has_right(client)
    }

    /// Whether a right of a client allows an access to an attribute or a method.
    pub fn is_granted(&self, access: Access, client: u8, index: u8) -> bool
        ensures { result ≡ is_granted self.now.plan client access self.now.name index }
    {
        self.instance.is_granted(access, client, index)
    }
}

/// The clients of a plan.
fn clients_of<'a>(alloc: Global, plan: &'a Plan) -> Result<Vec<ClientOutline<'a>>, Memory>
    ensures { IfOk result (λ list. list.items ≡ plan.now.clients) }
{
    plan.known();
    let mut list = Vec::new(alloc);
    let mut place = 0;
    while let Some(client) = plan.client(place) {
        list.push(ClientOutline { client })?;
        place += 1;
    }
    Ok(list)
}

/// The objects of a plan.
fn objects_of<'a>(alloc: Global, plan: &'a Plan) -> Result<Vec<ObjectOutline<'a>>, Memory>
    ensures { IfOk result (λ list. list.items ≡ plan.now.objects) }
{
    let mut list = Vec::with_capacity(alloc, plan.objects().len())?;
    for object in plan.objects() {
        list.push(ObjectOutline { object })?;
    }
    Ok(list)
}
