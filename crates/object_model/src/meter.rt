//! A meter: a value for each cell of its plan.
ghost use Rattle.std.specs.Prelude.{◌≡◌, ◌⊎◌, ◌++◌, cond, flat_map, is_some, map, option_map, slice_get, true, false, None, Some, IfOk, IfSome, IfNone, IsOk, OnOk, OnErr};
ghost use Rattle.std.specs.List.{position_from};
ghost use Rattle.cosem_data.specs.View.{tree};
ghost use Rattle.cosem_data.specs.Tree.{null_data};
ghost use Rattle.cosem_data.specs.declared.name.LogicalName.{LogicalName as NameValue};
ghost use Rattle.meter_theory.specs.Lists.{IsIn, some_passes};
ghost use Rattle.meter_theory.specs.Plan as plans;
ghost use Rattle.meter_theory.specs.Plan.{cells, class_of, clock_object, held, is_cell, object_at, start, start_of};
ghost use Rattle.meter_theory.specs.State as state;
ghost use Rattle.meter_theory.specs.State.{keys, value};
ghost use Rattle.meter_theory.specs.States.{IsState, MayStand, Fits};
ghost use Rattle.meter_theory.specs.Steps as theory;
ghost use Rattle.meter_theory.specs.Steps.{captured_in, captures_of, clock_set, effects, kept, present, script_now, ticked};
ghost use Rattle.meter_theory.specs.Times.{clock_moment, clock_value, next_second};
ghost use Rattle.meter_theory.specs.Value.{Rule, meets};
ghost use Rattle.class_profile.specs.ProfileClass.{is_buffer};
ghost use Rattle.class_profile.specs.PartView.{captures_of_part};
ghost use Rattle.class_profile.specs.declared.profile.ProfileChange.TheVariants as profiles;
ghost use Rattle.class_control.specs.PartView.{schedule_part_of, scripts_of_part};
ghost use Rattle.object_model.specs.EffectView.{effect_of, IsProfile, MayTake};
ghost use Rattle.cosem_class.specs.Parts.{rule_watching};
ghost use Rattle.object_model.specs.PartView.{part_of};
ghost use Rattle.object_model.specs.Stored.{all_pairs, captured, held_tree, inner_pairs, is_rows, is_value, stores};
ghost use Rattle.object_model.specs.Present.{IsPlaced};
ghost use Rattle.object_model.specs.Tables.{AreNumbersOf};
ghost use Rattle.object_model.specs.Undone.{cell_changed, change_undone, profile_undone, undone};

use crate::cells::{buffer, capture_objects, clock_time, empties, executed_script, is_named, seen};
use crate::effect::Effect;
use crate::held::Held;
use crate::instance::Instance;
use crate::menus::{
    Columns, PlacedScript, PresentScript, chosen_columns, chosen_script, configured_columns,
    configured_script,
};
use crate::object::Object;
use crate::part::Part;
use crate::plan::Plan;
use crate::stored::Stored;
use crate::undo::{Change, Undo};
use civil_moment::moment::Moment;
use class_control::parts::SchedulePart;
use class_profile::profile::{Cleared, ProfileChange, ProfilePart};
use class_profile::rows::Rows;
use cosem_class::class::Row;
use cosem_data::cell::CellRef;
use cosem_data::data::{Data, Items};
use cosem_data::kind::Kind;
use cosem_data::memory::Memory;
use cosem_data::name::LogicalName;
use std::alloc::Global;
use std::marker::Model;

/// A value for each cell of a plan: for each attribute that can change. Contracts see a finite map, in plan order; in memory
/// it is a list of the objects that have cells, each with those of its class, and the inner clock where the plan has no clock.
#[derive(Drop)]
pub struct Meter {
    objects: Vec<Stored>,
    // Where the plan has no clock.
    inner_clock: Option<Moment>,
}

impl Model for Meter {
    ghost use Rattle.std.specs.Prelude.{◌++◌};
    ghost use Rattle.meter_theory.specs.State.{State};
    ghost use Rattle.meter_theory.specs.PlanCode.{state_code};
    ghost use Rattle.object_model.specs.Stored.{all_pairs, inner_pairs};

    ghost Value = { State };

    ghost coded = { state_code };

    ghost view = { λ m. all_pairs m.objects.items ++ inner_pairs m.inner_clock };
}

impl Meter {
    /// A meter of these objects, with an inner clock or without.
    pub(crate) fn new(objects: Vec<Stored>, inner_clock: Option<Moment>) -> Self
        ensures { result ≡ all_pairs objects.items ++ inner_pairs inner_clock }
    {
        Meter {
            objects,
            inner_clock,
        }
    }

    /// A copy of the value in a cell of its plan; null-data where the plan has no such cell.
    pub fn value(&self, alloc: Global, plan: &Plan, cell: &CellRef) -> Result<Data, Memory>
        requires { IsState plan.now self.now }
        ensures { IfOk result (λ v. tree v ≡ value self.now cell.now) }
    {
        self.value_at(alloc, &plan.instance(&cell.name), cell)
    }

    /// The same of a cell of what stands at its name in the meter's plan, without a search for the name.
    pub fn value_at(
        &self,
        alloc: Global,
        instance: &Instance<'_>,
        cell: &CellRef,
    ) -> Result<Data, Memory>
        requires of_plan { IsState instance.now.plan self.now }
        requires named { cell.now.name ≡ instance.now.name }
        ensures { IfOk result (λ v. tree v ≡ value self.now cell.now) }
    {
        match self.held(instance, cell) {
            Some(held) => held.to_data(alloc),
            None => Ok(Data::NullData),
        }
    }

    /// The value in a cell of what stands at its name in the meter's plan, or None where there is no such cell.
    pub fn held(&self, instance: &Instance<'_>, cell: &CellRef) -> Option<Held<'_>>
        requires of_plan { IsState instance.now.plan self.now }
        requires named { cell.now.name ≡ instance.now.name }
        ensures cell { is_some result ≡ is_cell instance.now.plan cell.now }
        ensures found { IfSome result (λ held. held_tree held ≡ value self.now cell.now) }
        ensures rows { IfSome result (λ held. is_rows held ≡ true → cell.now.class_id ≡ 7) }
        ensures buffer { IfSome result (λ held. cell.now.class_id ≡ 7 → cell.now.index ≡ 2
            → is_rows held ≡ true) }
        ensures objects { IfSome result (λ held. cell.now.class_id ≡ 7 → cell.now.index ≡ 3
            → is_value held ≡ true) }
        ensures schedule { IfSome result (λ held. cell.now.class_id ≡ 22 → is_value held ≡ true) }
        ensures none { IfNone result (value self.now cell.now ≡ null_data) }
    {
        is_named(cell);
        match place_of(instance, &self.objects, cell) {
            Some(place) => Some(self.objects[place].held(cell)),
            None => None,
        }
    }

    /// Takes an effect of a step of the meter's plan, and hands out what takes it back. What the step names was looked up
    /// before: an effect on it takes no search for its name. The only error is that memory was refused for what a capture
    /// captures, and the meter is as it was then.
    pub fn take(
        &mut self,
        alloc: Global,
        named: &Instance<'_>,
        effect: Effect,
    ) -> Result<Undo, Memory>
        requires of_plan { IsState named.now.plan self.old }
        requires fits { MayTake named.now.plan effect }
        ensures ok { OnOk result (self.new
            ≡ theory.effect named.now.plan self.old (effect_of effect)) }
        ensures before { IfOk result (λ undo. undone undo self.new ≡ self.old) }
        ensures err { OnErr result (self.new ≡ self.old) }
        // Only a capture takes memory.
        ensures free { ((profile : NameValue) → effect ≡ Effect.Capture profile → ⊥) → IsOk result }
    {
        match effect {
            Effect::Put(cell, given) => Ok(self.put(&named.at(cell.name), &cell, given)),
            Effect::Remember(monitor, now) => Ok(self.remember(&named.at(monitor), now)),
            Effect::Capture(profile) => self.capture(alloc, &named.at(profile)),
            Effect::Clear(profile) => Ok(self.clear(&named.at(profile))),
        }
    }

    /// Takes an effect on a meter of the plan back.
    pub fn undo(&mut self, plan: &Plan, undo: Undo)
        requires { keys self.old ≡ held plan.now }
        ensures { self.new ≡ undone undo self.old }
    {
        let Undo {
            name,
            change,
            emptied,
        } = undo;
        self.take_back(plan, name, change);
        if let Some(cleared) = emptied {
            let cleared = Change::ProfileGeneric(ProfileChange::Cleared(cleared));
            self.take_back(plan, name, cleared);
        }
    }

    /// Takes a change of the object with this name back. Where nothing has the cell, nothing changes.
    fn take_back(&mut self, plan: &Plan, name: LogicalName, change: Change)
        requires { keys self.old ≡ held plan.now }
        ensures { self.new ≡ change_undone name change self.old }
    {
        let cell = change.cell(name);
        if let Some(place) = place_of(&plan.instance(&name), &self.objects, &cell) {
            restore_in(&mut self.objects, place, name, change);
        }
    }

    /// Puts a value that may stand in a settable cell of what stands at its name in the meter's plan, by the class of the object,
    /// and hands out what takes it back. Capture_objects of a profile are put as the profile is emptied. It takes no memory and no
    /// search for the name.
    pub fn put(&mut self, instance: &Instance<'_>, cell: &CellRef, given: Data) -> Undo
        requires of_plan { IsState instance.now.plan self.old }
        requires named { cell.now.name ≡ instance.now.name }
        requires fits { MayStand instance.now.plan cell.now (tree given) }
        ensures put { self.new ≡ theory.write self.old cell.now (tree given) }
        ensures before { undone result self.new ≡ self.old }
    {
        if empties(cell) {
            return self.choose(instance, given);
        }
        let change = self.put_value(instance, cell, given);
        Undo {
            name: cell.name,
            change,
            emptied: None,
        }
    }

    /// Puts a value that may stand in a cell, the same where a write of it empties nothing.
    fn put_value(&mut self, instance: &Instance<'_>, cell: &CellRef, given: Data) -> Change
        requires of_plan { IsState instance.now.plan self.old }
        requires named { cell.now.name ≡ instance.now.name }
        requires fits { MayStand instance.now.plan cell.now (tree given) }
        requires other { theory.empties cell.now ≡ false }
        ensures put { self.new ≡ state.put self.old cell.now (kept cell.now (tree given)) }
        ensures before { change_undone cell.now.name result self.new ≡ self.old }
    {
        instance.plan().known();
        let Some(object) = instance.object() else {
            unreachable!();
        };
        let Some(place) = place_of(instance, &self.objects, cell) else {
            unreachable!();
        };
        let part = object.part();
        let monitored = instance.monitored_kind(part);
        write_in(&mut self.objects, place, part, monitored, cell, given)
    }

    /// Puts which cells a profile captures from now on: it is emptied, and then the value is put (IEC 62056-6-2, Profile
    /// generic, capture_objects). It takes no memory, so both are done.
    fn choose(&mut self, instance: &Instance<'_>, objects: Data) -> Undo
        requires of_plan { keys self.old ≡ held instance.now.plan }
        requires there { IsIn (cells instance.now.plan) (plans.capture_objects instance.now.name) }
        ensures put { self.new
            ≡ theory.write self.old (plans.capture_objects instance.now.name) (tree objects) }
        ensures before { undone result self.new ≡ self.old }
    {
        let emptied = self.empty(instance);
        let change = self.put_objects(instance, objects);
        Undo {
            name: instance.name(),
            change,
            emptied: Some(emptied),
        }
    }

    /// Puts which cells a profile captures from now on, and nothing else.
    fn put_objects(&mut self, instance: &Instance<'_>, objects: Data) -> Change
        requires of_plan { keys self.old ≡ held instance.now.plan }
        requires there { IsIn (cells instance.now.plan) (plans.capture_objects instance.now.name) }
        ensures put { self.new
            ≡ state.put self.old (plans.capture_objects instance.now.name) (tree objects) }
        ensures before { change_undone instance.now.name result self.new ≡ self.old }
    {
        let profile = instance.name();
        let cell = capture_objects(profile);
        let Some(place) = place_of(instance, &self.objects, &cell) else {
            unreachable!();
        };
        put_objects_in(&mut self.objects, place, profile, objects)
    }

    /// A register monitor remembers what it watches.
    fn remember(&mut self, instance: &Instance<'_>, now: Data) -> Undo
        requires of_plan { IsState instance.now.plan self.old }
        requires fits { Fits instance.now.plan
            (theory.Put (plans.seen instance.now.name) (tree now)) }
        ensures put { self.new ≡ state.put self.old (plans.seen instance.now.name) (tree now) }
        ensures before { undone result self.new ≡ self.old }
    {
        let monitor = instance.name();
        let cell = seen(monitor);
        let Some(place) = place_of(instance, &self.objects, &cell) else {
            unreachable!();
        };
        let change = remember_in(&mut self.objects, place, monitor, now);
        Undo {
            name: monitor,
            change,
            emptied: None,
        }
    }

    /// A profile captures a row of the values of the cells that it captures now (IEC 62056-6-2, Profile generic, capture).
    fn capture(&mut self, alloc: Global, instance: &Instance<'_>) -> Result<Undo, Memory>
        requires of_plan { IsState instance.now.plan self.old }
        requires fits { IsProfile instance.now.plan instance.now.name }
        ensures ok { OnOk result (self.new ≡ theory.capture self.old instance.now.name
            (captures_of (object_at instance.now.plan instance.now.name))) }
        ensures before { IfOk result (λ undo. undone undo self.new ≡ self.old) }
        ensures err { OnErr result (self.new ≡ self.old) }
    {
        let profile = instance.name();
        let Some(part) = instance.profile() else {
            unreachable!();
        };
        let Some(place) = place_of(instance, &self.objects, &buffer(profile)) else {
            unreachable!();
        };
        let columns = self.columns(instance, part);
        let row = self.captured_values(alloc, instance.plan(), columns.cells, columns.numbers)?;
        let change = capture_in(alloc, &mut self.objects, place, profile, part, row)?;
        Ok(Undo {
            name: profile,
            change,
            emptied: None,
        })
    }

    /// The cells that a profile captures now: those of the alternative that its capture_objects holds.
    fn columns<'a>(&self, profile: &Instance<'a>, part: &'a ProfilePart) -> Columns<'a>
        requires of_plan { IsState profile.now.plan self.now }
        requires part { captures_of (object_at profile.now.plan profile.now.name)
            ≡ Some (record { captured = captures_of_part part.now; entries = part.now.profile_entries }) }
        ensures cells { result.cells.now
            ≡ captured_in self.now profile.now.name (captures_of_part part.now) }
        ensures numbers { AreNumbersOf profile.now.plan result.cells.now result.numbers.now }
    {
        if !part.has_menu() {
            return configured_columns(profile, part);
        }
        let objects = self.choice(profile, &capture_objects(profile.name()));
        chosen_columns(profile, part, objects)
    }

    /// The value of an attribute that has a menu, capture_objects of a profile or executed_script of a schedule, where it stands.
    fn choice(&self, instance: &Instance<'_>, cell: &CellRef) -> &Data
        requires of_plan { IsState instance.now.plan self.now }
        requires named { cell.now.name ≡ instance.now.name }
        requires there { is_cell instance.now.plan cell.now ≡ true }
        requires attribute { ((cell.now.class_id ≡ 7) × (cell.now.index ≡ 3))
            ⊎ (cell.now.class_id ≡ 22) }
        ensures { tree result.now ≡ value self.now cell.now }
    {
        let Some(held) = self.held(instance, cell) else {
            unreachable!();
        };
        let Some(value) = held.value() else {
            unreachable!();
        };
        value
    }

    /// A copy of the value of each of these cells, in order, which are of the objects with these numbers.
    fn captured_values(
        &self,
        alloc: Global,
        plan: &Plan,
        cells: &[CellRef],
        numbers: &[u16],
    ) -> Result<Row, Memory>
        requires of_plan { IsState plan.now self.now }
        requires numbers { AreNumbersOf plan.now cells.now numbers.now }
        ensures { IfOk result (λ row. row ≡ map (value self.now) cells.now) }
    {
        let mut values = Vec::with_capacity(alloc, cells.len())?;
        for (place, cell) in cells.iter().enumerate() {
            let column = Instance::numbered(plan, numbers[place]);
            values.push(self.value_at(alloc, &column, cell)?)?;
        }
        Ok(Items::new(values))
    }

    /// The script that a schedule runs now, that which its executed_script holds (IEC 62056-6-2, Single action schedule).
    pub fn script_now<'a>(&self, schedule: &Instance<'a>, part: &SchedulePart) -> PresentScript<'a>
        requires of_plan { IsState schedule.now.plan self.now }
        requires part { option_map (λ o. o.part) (object_at schedule.now.plan schedule.now.name)
            ≡ Some (schedule_part_of part.now) }
        ensures table { result.table
            ≡ record { plan = schedule.now.plan; name = (script_now self.now schedule.now.name (scripts_of_part part.now)).table } }
        ensures script { result.script
            ≡ (script_now self.now schedule.now.name (scripts_of_part part.now)).script }
    {
        let present = self.placed_script(schedule, part);
        let Some(table) = schedule.referred(present.place) else {
            unreachable!();
        };
        PresentScript {
            table,
            script: present.script,
        }
    }

    /// The same, by where its table stands among those to which the schedule refers.
    fn placed_script(&self, schedule: &Instance<'_>, part: &SchedulePart) -> PlacedScript
        requires of_plan { IsState schedule.now.plan self.now }
        requires part { option_map (λ o. o.part) (object_at schedule.now.plan schedule.now.name)
            ≡ Some (schedule_part_of part.now) }
        ensures { IsPlaced (scripts_of_part part.now)
            (script_now self.now schedule.now.name (scripts_of_part part.now)) result }
    {
        if !part.has_menu() {
            return configured_script(part);
        }
        let script = self.choice(schedule, &executed_script(schedule.name()));
        chosen_script(part, script)
    }

    /// Empties a profile (IEC 62056-6-2, Profile generic, reset). Where the plan has none, nothing changes.
    fn clear(&mut self, instance: &Instance<'_>) -> Undo
        requires { IsState instance.now.plan self.old }
        ensures cleared { self.new ≡ theory.clear self.old instance.now.name }
        ensures before { undone result self.new ≡ self.old }
    {
        let cleared = self.empty(instance);
        Undo {
            name: instance.name(),
            change: Change::ProfileGeneric(ProfileChange::Cleared(cleared)),
            emptied: None,
        }
    }

    /// The same, with what was there before.
    fn empty(&mut self, instance: &Instance<'_>) -> Cleared
        requires { keys self.old ≡ held instance.now.plan }
        ensures cleared { self.new ≡ theory.clear self.old instance.now.name }
        ensures before { profile_undone instance.now.name (profiles.Cleared result) self.new
            ≡ self.old }
    {
        let profile = instance.name();
        match place_of(instance, &self.objects, &buffer(profile)) {
            Some(place) => clear_in(&mut self.objects, place, profile),
            None => Cleared {
                buffer: Rows::none(),
                entries_in_use: 0,
            },
        }
    }

    /// The moment at which the clock stands: that of the plan, or the inner one.
    pub fn present(&self, plan: &Plan) -> Moment
        requires { IsState plan.now self.now }
        ensures { result ≡ present plan.now self.now }
    {
        match self.inner_clock {
            Some(moment) => moment,
            None => self.told(plan),
        }
    }

    /// The moment at which the plan's clock stands.
    fn told(&self, plan: &Plan) -> Moment
        requires of_plan { IsState plan.now self.now }
        requires clock { clock_object plan.now ≡ None → ⊥ }
        ensures { result ≡ present plan.now self.now }
    {
        plan.known();
        let Some(clock) = plan.clock_instance() else {
            unreachable!();
        };
        let cell = clock_time(clock.name());
        let Some(place) = place_of(&clock, &self.objects, &cell) else {
            unreachable!();
        };
        self.objects[place].moment()
    }

    /// The clock goes on by a second, that of the plan or the inner one. At the last moment it stays.
    pub fn tick(&mut self, plan: &Plan)
        requires { IsState plan.now self.old }
        ensures { self.new ≡ effects plan.now self.old (ticked plan.now self.old) }
    {
        match self.inner_clock {
            Some(moment) => self.inner_clock = Some(moment.next_second()),
            None => self.tick_told(plan),
        }
    }

    /// The plan's clock goes on by a second.
    fn tick_told(&mut self, plan: &Plan)
        requires of_plan { IsState plan.now self.old }
        requires clock { clock_object plan.now ≡ None → ⊥ }
        ensures { self.new ≡ effects plan.now self.old (ticked plan.now self.old) }
    {
        plan.known();
        let Some(clock) = plan.clock_instance() else {
            unreachable!();
        };
        let name = clock.name();
        let cell = clock_time(name);
        let Some(place) = place_of(&clock, &self.objects, &cell) else {
            unreachable!();
        };
        tick_in(&mut self.objects, place, name);
    }

    /// Sets the inner clock; a clock of the plan is left.
    pub fn set_clock(&mut self, plan: &Plan, moment: Moment)
        requires { IsState plan.now self.old }
        ensures { self.new ≡ effects plan.now self.old (clock_set (clock_object plan.now) moment) }
    {
        moment.known();
        match self.inner_clock {
            Some(_) => self.inner_clock = Some(moment),
            None => {}
        }
    }

    /// A copy, which equals the original.
    pub fn try_clone(&self, alloc: Global) -> Result<Meter, Memory>
        ensures { IfOk result (λ copy. copy ≡ self.now) }
    {
        Ok(Meter {
            objects: copy_of(alloc, &self.objects)?,
            inner_clock: self.inner_clock,
        })
    }
}

impl Plan {
    /// A meter of this plan, with the start values.
    pub fn start(&self, alloc: Global) -> Result<Meter, Memory>
        ensures { IfOk result (λ meter. meter ≡ start self.now) }
    {
        let inner_clock = match self.clock() {
            Some(_) => None,
            None => Some(Moment::first()),
        };
        Ok(Meter::new(start_objects(alloc, self.objects())?, inner_clock))
    }
}

/// The objects that have cells, with their start values.
fn start_objects(alloc: Global, objects: &[Object]) -> Result<Vec<Stored>, Memory>
    ensures { IfOk result (λ stored. all_pairs stored.items
        ≡ flat_map (λ o. start_of o.name o.part) objects.now) }
{
    let mut stored = Vec::new(alloc);
    for object in objects {
        if let Some(object) = Stored::start(alloc, object)? {
            stored.push(object)?;
        }
    }
    Ok(stored)
}

/// Where the object with this cell stands, which is of what the plan has at its name.
fn place_of(instance: &Instance<'_>, objects: &[Stored], cell: &CellRef) -> Option<usize>
    requires of_plan { keys (all_pairs objects.now) ≡ cells instance.now.plan }
    requires named { cell.now.name ≡ instance.now.name }
    ensures { result ≡ position_from (stores cell.now) 0 objects.now }
{
    instance.plan().known();
    let place = instance.place()?;
    let owner = usize::from(place.owner);
    if_stored(objects, owner, cell)
}

/// This place, if the object there has the cell.
fn if_stored(objects: &[Stored], owner: usize, cell: &CellRef) -> Option<usize>
    ensures { result
        ≡ cond (some_passes (stores cell.now) (slice_get objects.now owner)) (Some owner) None }
{
    match objects.get(owner) {
        Some(object) if object.has(cell) => Some(owner),
        _ => None,
    }
}

/// Writes a value into a cell of the object at this place.
fn write_in(
    objects: &mut Vec<Stored>,
    place: usize,
    part: &Part,
    monitored: Kind,
    cell: &CellRef,
    given: Data,
) -> Change
    requires place { position_from (stores cell.now) 0 objects.old.items ≡ Some place }
    requires class { class_of (part_of part.now) ≡ cell.now.class_id }
    requires other { theory.empties cell.now ≡ false }
    requires fits { (rule : Rule) × (rule_watching monitored (part_of part.now) cell.now.index ≡ Some rule)
        × (meets rule (tree given) ≡ true) }
    ensures put { all_pairs objects.new.items
        ≡ state.put (all_pairs objects.old.items) cell.now (kept cell.now (tree given)) }
    ensures before { change_undone cell.now.name result (all_pairs objects.new.items)
        ≡ all_pairs objects.old.items }
{
    objects[place].write(part, monitored, cell.index, given)
}

/// The profile at this place captures other cells from now on.
fn put_objects_in(
    objects: &mut Vec<Stored>,
    place: usize,
    name: LogicalName,
    captured: Data,
) -> Change
    requires place { position_from (stores (plans.capture_objects name)) 0 objects.old.items
        ≡ Some place }
    ensures put { all_pairs objects.new.items
        ≡ state.put (all_pairs objects.old.items) (plans.capture_objects name) (tree captured) }
    ensures before { change_undone name result (all_pairs objects.new.items)
        ≡ all_pairs objects.old.items }
{
    objects[place].put_objects(captured)
}

/// The register monitor at this place remembers a value.
fn remember_in(objects: &mut Vec<Stored>, place: usize, name: LogicalName, now: Data) -> Change
    requires place { position_from (stores (plans.seen name)) 0 objects.old.items ≡ Some place }
    ensures put { all_pairs objects.new.items
        ≡ state.put (all_pairs objects.old.items) (plans.seen name) (tree now) }
    ensures before { change_undone name result (all_pairs objects.new.items)
        ≡ all_pairs objects.old.items }
{
    objects[place].remember(now)
}

/// The profile at this place captures a row.
fn capture_in(
    alloc: Global,
    objects: &mut Vec<Stored>,
    place: usize,
    name: LogicalName,
    part: &ProfilePart,
    row: Row,
) -> Result<Change, Memory>
    requires place { position_from (stores (plans.buffer name)) 0 objects.old.items ≡ Some place }
    requires rows { is_buffer (captures_of_part part.now) part.now.profile_entries
        (value (all_pairs objects.old.items) (plans.buffer name)) ≡ true }
    ensures ok { OnOk result (all_pairs objects.new.items
        ≡ captured name part.now.profile_entries row (all_pairs objects.old.items)) }
    ensures before { IfOk result (λ change. change_undone name change (all_pairs objects.new.items)
        ≡ all_pairs objects.old.items) }
    ensures err { OnErr result (all_pairs objects.new.items ≡ all_pairs objects.old.items) }
{
    objects[place].capture(alloc, part, row)
}

/// The profile at this place is emptied.
fn clear_in(objects: &mut Vec<Stored>, place: usize, name: LogicalName) -> Cleared
    requires place { position_from (stores (plans.buffer name)) 0 objects.old.items ≡ Some place }
    ensures cleared { all_pairs objects.new.items
        ≡ theory.clear (all_pairs objects.old.items) name }
    ensures before { profile_undone name (profiles.Cleared result) (all_pairs objects.new.items)
        ≡ all_pairs objects.old.items }
{
    objects[place].clear()
}

/// The clock at this place goes on by a second.
fn tick_in(objects: &mut Vec<Stored>, place: usize, name: LogicalName)
    requires place { position_from (stores (plans.clock_time name)) 0 objects.old.items
        ≡ Some place }
    ensures { all_pairs objects.new.items
        ≡ state.put (all_pairs objects.old.items) (plans.clock_time name)
        (clock_value (next_second (clock_moment (value (all_pairs objects.old.items) (plans.clock_time name))))) }
{
    objects[place].tick();
}

/// Takes a change of the object at this place back.
fn restore_in(objects: &mut Vec<Stored>, place: usize, name: LogicalName, change: Change)
    requires place { position_from (stores (cell_changed name change)) 0 objects.old.items
        ≡ Some place }
    ensures { all_pairs objects.new.items
        ≡ change_undone name change (all_pairs objects.old.items) }
{
    objects[place].restore(change);
}

fn copy_of(alloc: Global, objects: &[Stored]) -> Result<Vec<Stored>, Memory>
    ensures { IfOk result (λ copy. all_pairs copy.items ≡ all_pairs objects.now) }
{
    let mut copy = Vec::with_capacity(alloc, objects.len())?;
    for object in objects {
        copy.push(object.try_clone(alloc)?)?;
    }
    Ok(copy)
}
