ghost use Rattle.std.specs.Prelude.{◌≡◌, ◌==◌, ◌<◌, ◌≤◌, ◌+◌, ◌++◌, ◌^◌, length, option_map, option_and_then, map, replicate, IfOk, IfSome, OnOk, Some, slice_get};
ghost use Rattle.std.specs.List.{position_from};
ghost use Rattle.std.specs.Str.{bytes_eq};
ghost use Rattle.cosem_data.specs.Cells.{same_name};
ghost use Rattle.meter_theory.specs.Plan.{cells, class_of, client_named, clock_object};
ghost use Rattle.meter_theory.specs.Rights.{is_client};
ghost use Rattle.meter_theory.specs.declared.limits.TheConstants.{OBJECTS};
ghost use Rattle.meter_theory.specs.Sound.{IsSound, scripts_run_by};
ghost use Rattle.object_model.specs.Grants.{AreMasksOf};
ghost use Rattle.object_model.specs.PlanView.{plan_of};
ghost use Rattle.cosem_class.specs.Parts.{references};
ghost use Rattle.object_model.specs.Tables.{AreNumbers, AreNumbersOf, AreScriptPlaces, clock_number, number_at, place_of};

use crate::client::Client;
use crate::grants::Grants;
use crate::index::Index;
use crate::object::Object;
use crate::place::{Place, places_of};
use crate::references::References;
use crate::right::Right;
use crate::script_places::{ScriptPlace, ScriptPlaces};
use class_control::clock::Clock;
use cosem_data::cell::CellRef;
use cosem_data::memory::Memory;
use cosem_data::name::LogicalName;
use meter_theory::flow::Access;
use meter_theory::refs::Interface;
use std::alloc::Global;
use std::marker::Model;

/// The name of the current association, 0.0.40.0.0.255 (IEC 62056-6-2, Association LN).
pub const ASSOCIATION: LogicalName = LogicalName([0, 0, 40, 0, 0, 255]);

/// The interface class of the current association: Association LN, version 0 (IEC 62056-6-2).
pub const ASSOCIATION_LN: Interface = Interface {
    class_id: 15,
    version: 0,
    attributes: 8,
    methods: 4,
};

/// The lists that make a plan.
#[derive(Drop)]
pub struct PlanParts {
    /// 1 or 2: the version of the configuration (own profile).
    pub version: u8,
    /// The clients: a client is named by its place here, from 0.
    pub clients: Vec<Client>,
    /// The objects, in plan order.
    pub objects: Vec<Object>,
    /// The rights: a client may have several on one object, and none.
    pub rights: Vec<Right>,
}

/// The clients and objects of a meter and the rights of its clients: a sound plan, of which the promises about influence and
/// secrecy hold (own profile). Beside its parts it keeps what is asked often: the names in their order, the rights as masks,
/// the places of the cells, what the objects refer to, and where the scripts stand that these may have run.
#[derive(Drop)]
pub struct Plan {
    version: u8,
    clients: Vec<Client>,
    objects: Vec<Object>,
    rights: Vec<Right>,
    index: Index,
    grants: Grants,
    places: Vec<Place>,
    references: References,
    scripts: ScriptPlaces,
    clock: Option<u16>,
}

impl Model for Plan {
    ghost use Rattle.meter_theory.specs.Plan as theory;
    ghost use Rattle.meter_theory.specs.PlanCode.{plan_code};
    ghost use Rattle.object_model.specs.Tables.{AreTables};

    ghost Value = { theory.Plan };

    ghost coded = { plan_code };

    ghost view = { λ p. record {
      version = p.version;
      clients = p.clients.items;
      objects = p.objects.items;
      rights = p.rights.items;
    } };

    ghost invariant = { λ p. AreTables
        (record {
          version = p.version;
          clients = p.clients.items;
          objects = p.objects.items;
          rights = p.rights.items;
        })
        p.index p.grants p.places.items p.references p.scripts p.clock };
}

impl Plan {
    /// The plan of these parts, a sound one.
    pub fn new(alloc: Global, parts: PlanParts) -> Result<Plan, Memory>
        requires { IsSound (plan_of parts) }
        ensures { IfOk result (λ plan. plan ≡ plan_of parts) }
    {
        let PlanParts {
            version,
            clients,
            objects,
            rights,
        } = parts;
        let index = Index::new(alloc, names_of(alloc, &objects)?)?;
        let grants = Grants::new(alloc, &index, &rights)?;
        let places = places_of(alloc, &objects)?;
        let references = References::new(alloc, &index, &objects)?;
        let scripts = ScriptPlaces::new(alloc, &objects, &references)?;
        let clock = clock_of(&objects);
        Ok(Plan {
            version,
            clients,
            objects,
            rights,
            index,
            grants,
            places,
            references,
            scripts,
            clock,
        })
    }

    /// What the type keeps, for callers: a plan is sound.
    pub fn known(&self)
        ensures sound { IsSound self.now }
    {
        let _clients = &self.clients;
    }

    /// The client at this place, counted from 0, or None past the last.
    pub fn client(&self, client: u8) -> Option<&Client>
        ensures { option_map (λ c. c.now) result ≡ slice_get self.now.clients client }
    {
        self.clients.get(usize::from(client))
    }

    /// Whether the plan has a client at this place, counted from 0.
    pub fn is_client(&self, client: u8) -> bool
        ensures { result ≡ is_client self.now client }
    {
        self.client(client).is_some()
    }

    /// How many clients the plan has: each place below has one.
    pub fn client_count(&self) -> u8
        ensures { result ≡ length self.now.clients }
    {
        self.known();
        self.clients.len() as u8
    }

    /// The object at this place in plan order, counted from 0, or None past the last.
    pub fn object(&self, object: u16) -> Option<&Object>
        ensures { option_map (λ o. o.now) result ≡ slice_get self.now.objects object }
    {
        self.objects.get(usize::from(object))
    }

    /// The place of the first client with this name, or None where there is none.
    pub fn client_named(&self, name: &[u8]) -> Option<u8>
        ensures { result ≡ client_named self.now name.now }
    {
        self.known();
        let place = place_named(&self.clients, name)?;
        Some(place as u8)
    }

    /// The number, from 0, of the object with this logical name, or None where there is none. `compared` rises by one a
    /// comparison of names, by at most 10, and by at least one where there are objects.
    pub fn find(&self, name: &LogicalName, compared: &mut u64) -> Option<u16>
        requires { compared.old + 11 ≤ 2 ^ 64 }
        ensures found { result ≡ position_from (λ o. same_name o.name name.now) 0 self.now.objects }
        ensures counted { (compared.old ≤ compared.new) × (compared.new ≤ compared.old + 10) }
        ensures begun { 1 ≤ length self.now.objects → compared.old < compared.new }
    {
        self.known();
        let (number, comparisons) = self.index.find(name);
        *compared += u64::from(comparisons);
        number
    }

    /// The number of the object with this name.
    pub(crate) fn number_of(&self, name: &LogicalName) -> Option<u16>
        ensures { result ≡ number_at self.now.objects name.now }
    {
        let (number, _) = self.index.find(name);
        number
    }

    /// The masks of what is granted for an access, or of the view.
    pub(crate) fn masks(&self, access: Option<Access>) -> &[u16]
        ensures { AreMasksOf (map (λ o. o.name) self.now.objects) access self.now.rights result.now }
    {
        self.grants.masks(access)
    }

    /// Where the object with this number has its cells.
    pub(crate) fn place(&self, number: u16) -> Place
        requires { number < length self.now.objects }
        ensures { result ≡ place_of self.now.objects number }
    {
        self.places[usize::from(number)]
    }

    /// The number of that to which the object with this number refers at this place.
    pub(crate) fn reference(&self, object: u16, place: usize) -> Option<u16>
        ensures { option_map (λ number. Some number) result
            ≡ option_map (λ name. number_at self.now.objects name)
            (option_and_then (λ o. slice_get (references o.part) place) (slice_get self.now.objects object)) }
    {
        self.references.at(object, place)
    }

    /// The numbers of all to which the object with this number refers, in its order, as [`crate::instance::Instance::referred`] counts them.
    pub fn references(&self, object: u16) -> &[u16]
        requires { object < length self.now.objects }
        ensures { IfSome (slice_get self.now.objects object)
            (λ o. AreNumbers self.now (references o.part) result.now) }
    {
        self.references.of(object)
    }

    /// Where the scripts stand that the object with this number may have run: those of a register monitor's actions, that of up
    /// before that of down, and those that a schedule may run, that at the start before those of its menu (IEC 62056-6-2).
    pub fn script_places(&self, object: u16) -> &[ScriptPlace]
        requires { object < length self.now.objects }
        ensures { IfSome (slice_get self.now.objects object)
            (λ o. AreScriptPlaces self.now (scripts_run_by o.part) result.now) }
    {
        self.scripts.of(object)
    }

    /// The objects, in plan order.
    pub fn objects(&self) -> &[Object]
        ensures { result.now ≡ self.now.objects }
    {
        &self.objects
    }

    /// The rights, in the order of the configuration.
    pub fn rights(&self) -> &[Right]
        ensures { result.now ≡ self.now.rights }
    {
        &self.rights
    }

    /// The version of the configuration, 1 or 2 (own profile).
    pub fn version(&self) -> u8
        ensures { result ≡ self.now.version }
    {
        self.version
    }

    /// The name of the clock, if the plan has one.
    pub fn clock(&self) -> Option<LogicalName>
        ensures { result ≡ option_map (λ o. o.name) (clock_object self.now) }
    {
        match self.clock {
            Some(number) => Some(self.objects[usize::from(number)].name()),
            None => None,
        }
    }

    /// The number of the clock, if the plan has one.
    pub(crate) fn clock_number(&self) -> Option<u16>
        ensures { result ≡ clock_number self.now }
    {
        self.clock
    }

    /// The number of the object of each cell, in plan order.
    pub fn owners(&self, alloc: Global) -> Result<Vec<u16>, Memory>
        ensures { IfOk result (λ owners. AreNumbersOf self.now (cells self.now) owners.items) }
    {
        self.known();
        let objects = self.objects();
        let mut owners = Vec::with_capacity(alloc, objects.len())?;
        for (number, object) in objects.iter().enumerate() {
            push_times(&mut owners, number as u16, object.part().number_of_cells())?;
        }
        Ok(owners)
    }

    /// The cells, the attributes that can change, in plan order.
    pub fn cells(&self, alloc: Global) -> Result<Vec<CellRef>, Memory>
        ensures { IfOk result (λ list. list.items ≡ cells self.now) }
    {
        let mut cells = Vec::with_capacity(alloc, self.objects.len())?;
        for object in &self.objects {
            object.part().push_cells(object.name(), &mut cells)?;
        }
        Ok(cells)
    }
}

/// Puts a number so many times behind the others.
fn push_times(numbers: &mut Vec<u16>, number: u16, times: u16) -> Result<(), Memory>
    ensures { OnOk result (numbers.new.items ≡ numbers.old.items ++ replicate times number) }
{
    for _ in 0..times {
        numbers.push(number)?;
    }
    Ok(())
}

/// The number of the first clock among the objects, of which there are at most `OBJECTS`.
fn clock_of(objects: &[Object]) -> Option<u16>
    requires { length objects.now ≤ OBJECTS }
    ensures { result ≡ position_from (λ o. class_of o.part == 8) 0 objects.now }
{
    let number = place_of_clock(objects)?;
    Some(number as u16)
}

/// Where the first clock stands.
fn place_of_clock(objects: &[Object]) -> Option<usize>
    ensures { result ≡ position_from (λ o. class_of o.part == 8) 0 objects.now }
{
    objects.iter().position(|object| object.part().class_id() == Clock::INTERFACE.class_id)
}

/// Where the first client with this name stands.
fn place_named(clients: &[Client], name: &[u8]) -> Option<usize>
    ensures { result ≡ position_from (λ c. bytes_eq c.name name.now) 0 clients.now }
{
    clients.iter().position(|client| client.name() == name)
}

/// The names of objects, in their order.
fn names_of(alloc: Global, objects: &[Object]) -> Result<Vec<LogicalName>, Memory>
    ensures { IfOk result (λ names. names.items ≡ map (λ o. o.name) objects.now) }
{
    let mut names = Vec::with_capacity(alloc, objects.len())?;
    for object in objects {
        names.push(object.name())?;
    }
    Ok(names)
}
