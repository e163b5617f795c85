ghost use Rattle.std.specs.Prelude.{◌≡◌, ◌==◌, ◌||◌, ◌≤◌, ℕ, [], ◌++◌, length, map, min, ◌+◌, true, option_map, Some, IfOk, IsOk, OnOk, OnErr};
ghost use Rattle.std.specs.List.{list_any};
ghost use Rattle.cosem_data.specs.declared.kind.Kind.TheVariants.{Array};
ghost use Rattle.cosem_data.specs.View.{tree};
ghost use Rattle.cosem_data.specs.Equal.{same_tree};
ghost use Rattle.meter_theory.specs.Value.{OneOf, array_of, structure_of, counter, meets};
ghost use Rattle.meter_theory.specs.Value as values;
ghost use Rattle.meter_theory.specs.declared.limits.TheConstants.{PROFILE_ENTRIES};
ghost use Rattle.meter_theory.specs.Steps.{buffer_after, in_use_after};
ghost use Rattle.meter_theory.specs.Menus.{has_menu, chosen, capture_objects_value};
ghost use Rattle.cosem_class.specs.CellSets.{has};
ghost use Rattle.cosem_class.specs.Judged.{judged, answer_of};
ghost use Rattle.class_profile.specs.ProfileClass.{ProfileFixed, HaveAttributeIndexes, is_buffer, profile_reading, profile_refusal, profile_new_value, profile_touched, profile_own_sources, period_rule, profile_row_cells, ProfileMeetsRule, IsProfileRow};
ghost use Rattle.class_profile.specs.ProfileLaws.{profile_depends_only_on_sources, profile_writes_its_value, profile_keeps_rules};
ghost use Rattle.class_profile.specs.ProfileView.{before_capture, has_cell, with_entries, with_objects};

use crate::menus::{alternative_of, has_alternative, is_capture_objects};
use crate::rows::Rows;
use crate::shapes::{capture_objects_data, no_sort_object_data};
use cosem_class::cell_set::CellSet;
use cosem_class::class::{ClassFault, InterfaceClass, Lent, Op, Row};
use cosem_class::generic::put_into;
use cosem_class::judge::{coded, judge_kind, keeps_limits, kind_answer};
use cosem_class::part::ClassPart;
use cosem_class::shapes::{copy_if, copy_or_null};
use cosem_data::cell::CellRef;
use cosem_data::data::Data;
use cosem_data::kind::Kind;
use cosem_data::memory::Memory;
use cosem_data::name::LogicalName;
use meter_theory::access::AccessCode;
use meter_theory::refs::Interface;
use std::alloc::Global;
use std::mem;

/// What a plan fixes of a profile, and the start of its capture_period (IEC 62056-6-2, Profile generic).
#[derive(Drop)]
pub struct ProfilePart {
    /// The captured cells, in the order of attribute 3, capture_objects, at the start.
    pub captured: Vec<CellRef>,
    /// The other lists of captured cells that capture_objects may be set to; where there are none, it is fixed (own profile).
    pub menu: Vec<Vec<CellRef>>,
    /// The start of attribute 4, capture_period, in seconds; 0 where no clock captures.
    pub capture_period: u32,
    /// Attribute 8, profile_entries, from 1 to `PROFILE_ENTRIES` (the limit is own profile).
    pub profile_entries: u32,
    // An attribute_index is an integer of eight bits.
    pub ghost indexes_fit: { HaveAttributeIndexes captured.items },
    // There is room for an entry.
    pub ghost has_entries: { 1 ≤ profile_entries },
    // There are as many entries as a meter keeps at most.
    pub ghost entries_fit: { profile_entries ≤ PROFILE_ENTRIES },
}

impl ProfilePart {
    ghost use Rattle.class_profile.specs.PartView.{captures_of_part, offered, start_objects};

    /// Whether attribute 3, capture_objects, can be set.
    pub fn has_menu(&self) -> bool
        ensures { result ≡ has_menu (captures_of_part self.now) }
    {
        !self.menu.is_empty()
    }

    /// What is captured where attribute 3, capture_objects, has this value: one of the menu, or else what is captured at the
    /// start.
    pub fn chosen(&self, objects: &Data) -> &[CellRef]
        ensures { result.now
            ≡ chosen capture_objects_value (captures_of_part self.now) (tree objects.now) }
    {
        match alternative_of(&self.menu, objects) {
            Some(cells) => cells,
            None => &self.captured,
        }
    }

    /// Whether attribute 3, capture_objects, may be set to a value: to one of its menu, or back to what it was at the start (own
    /// profile). Another tag than that of an array is `Kind`, anything else `Rule`.
    pub fn judge_objects(&self, value: &Data) -> Result<(), ClassFault>
        ensures { result ≡ answer_of (judged (OneOf Array (offered self.now)) (tree value.now)) }
    {
        if value.kind() != Kind::Array {
            return Err(ClassFault::Kind);
        }
        if !keeps_limits(value) || !self.offers(value) {
            return Err(ClassFault::Rule);
        }
        Ok(())
    }

    /// Whether the value is the capture_objects of one of the alternatives.
    fn offers(&self, value: &Data) -> bool
        ensures { result ≡ list_any (λ w. same_tree w (tree value.now)) (offered self.now) }
    {
        is_capture_objects(value, &self.captured) || has_alternative(&self.menu, value)
    }

    /// The start of attribute 3, capture_objects, where it can be set.
    fn start_objects(&self, alloc: Global) -> Result<Option<Data>, Memory>
        ensures { IfOk result (λ objects. option_map tree objects
            ≡ start_objects (captures_of_part self.now)) }
    {
        if !self.has_menu() {
            return Ok(None);
        }
        Ok(Some(capture_objects_data(alloc, &self.captured)?))
    }
}

impl ClassPart for ProfilePart {
    ghost use Rattle.class_profile.specs.PartView.{profile_part_of};

    ghost part = { profile_part_of };

    fn interface(&self) -> Interface {
        Profile::INTERFACE
    }

    fn cells(&self) -> &'static [u8] {
        if self.has_menu() {
            &CELLS_WITH_MENU
        } else {
            &CELLS
        }
    }

    fn start_kind(&self, index: u8) -> Kind {
        match index {
            Profile::BUFFER => Kind::Array,
            Profile::CAPTURE_OBJECTS if self.has_menu() => Kind::Array,
            Profile::CAPTURE_PERIOD | Profile::ENTRIES_IN_USE => Kind::DoubleLongUnsigned,
            _ => Kind::NullData,
        }
    }

    /// 3, capture_objects, at the start, 5, sort_method, which is 1, fifo, 6, sort_object, which names none, and 8,
    /// profile_entries (own profile).
    #[tactic(auto, unfolding(meter_theory::specs::Fixed::fixed_in))]
    fn fixed(&self, alloc: Global, index: u8) -> Result<Data, Memory> {
        match index {
            Profile::CAPTURE_OBJECTS => capture_objects_data(alloc, &self.captured),
            Profile::SORT_METHOD => Ok(Data::Enumerated(1)),
            Profile::SORT_OBJECT => no_sort_object_data(alloc),
            Profile::PROFILE_ENTRIES => Ok(Data::DoubleLongUnsigned(self.profile_entries)),
            _ => Ok(Data::NullData),
        }
    }

    fn judge(&self, _monitored: Kind, index: u8, value: &Data) -> Result<(), AccessCode> {
        match index {
            Profile::CAPTURE_OBJECTS if self.has_menu() => coded(self.judge_objects(value)),
            Profile::CAPTURE_PERIOD => kind_answer(Kind::DoubleLongUnsigned, value),
            _ => Err(AccessCode::TypeUnmatched),
        }
    }

    fn push_references(&self, names: &mut Vec<LogicalName>) -> Result<(), Memory> {
        push_captured(&self.captured, names)?;
        for captured in &self.menu {
            push_captured(captured, names)?;
        }
        Ok(())
    }
}

/// Adds the objects of cells.
fn push_captured(captured: &[CellRef], names: &mut Vec<LogicalName>) -> Result<(), Memory>
    ensures { OnOk result (names.new.items ≡ names.old.items ++ map (λ x. x.name) captured.now) }
{
    for cell in captured {
        names.push(cell.name)?;
    }
    Ok(())
}

/// The indexes of the cells, where capture_objects is fixed.
static CELLS: [u8; 3] = [
    Profile::BUFFER,
    Profile::CAPTURE_PERIOD,
    Profile::ENTRIES_IN_USE,
];

/// The indexes of the cells, where capture_objects can be set.
static CELLS_WITH_MENU: [u8; 4] = [
    Profile::BUFFER,
    Profile::CAPTURE_OBJECTS,
    Profile::CAPTURE_PERIOD,
    Profile::ENTRIES_IN_USE,
];

/// The cells of an object of class 7, Profile generic: the last entries that were captured (IEC 62056-6-2, Profile generic,
/// version 1).
#[derive(Drop)]
pub struct Profile {
    /// Attribute 2, buffer: entries, the oldest first, each a structure of the captured values.
    pub buffer: Rows,
    /// Attribute 3, capture_objects, where it can be set: which cells are captured now. None where it is fixed.
    pub capture_objects: Option<Data>,
    /// Attribute 4, capture_period, in seconds, which can be set.
    pub capture_period: u32,
    /// Attribute 7, entries_in_use.
    pub entries_in_use: u32,
}

/// What takes a capture back.
#[derive(Drop)]
pub struct Captured {
    /// The row that had to go, if one had to.
    pub dropped: Option<Data>,
    /// The entries in use before.
    pub entries_in_use: u32,
}

/// What a reset moved out, and what takes it back.
#[derive(Drop)]
pub struct Cleared {
    /// The rows before.
    pub buffer: Rows,
    /// The entries in use before.
    pub entries_in_use: u32,
}

/// What an operation changed of a profile, and what takes it back.
#[derive(Drop)]
pub enum ProfileChange {
    /// The capture_period before.
    Period(u32),
    /// The capture_objects before.
    Objects(Data),
    /// A capture.
    Captured(Captured),
    /// A reset.
    Cleared(Cleared),
}

impl Profile {
    ghost use Rattle.class_profile.specs.PartView.{captures_of_part, start_objects};

    /// Class 7, Profile generic, version 1, with eight attributes and two methods, reset and capture (IEC 62056-6-2).
    pub const INTERFACE: Interface = Interface {
        class_id: 7,
        version: 1,
        attributes: 8,
        methods: 2,
    };

    /// The index of the buffer.
    pub const BUFFER: u8 = 2;

    /// The index of the captured objects.
    pub const CAPTURE_OBJECTS: u8 = 3;

    /// The index of the capture period.
    pub const CAPTURE_PERIOD: u8 = 4;

    /// The index of the sort method.
    pub(crate) const SORT_METHOD: u8 = 5;

    /// The index of the sort object.
    pub(crate) const SORT_OBJECT: u8 = 6;

    /// The index of the entries in use.
    pub const ENTRIES_IN_USE: u8 = 7;

    /// The index of the number of entries.
    pub const PROFILE_ENTRIES: u8 = 8;

    /// The method that empties the buffer.
    pub const RESET: u8 = 1;

    /// The method that captures a row.
    pub const CAPTURE: u8 = 2;

    /// A profile without entries, with room for as many as it may have.
    pub fn start(alloc: Global, part: &ProfilePart) -> Result<Profile, Memory>
        ensures rows { IfOk result (λ object. object.buffer ≡ []) }
        ensures objects { IfOk result (λ object. option_map tree object.capture_objects
            ≡ start_objects (captures_of_part part.now)) }
        ensures period { IfOk result (λ object. object.capture_period ≡ part.now.capture_period) }
        ensures count { IfOk result (λ object. object.entries_in_use ≡ 0) }
    {
        Ok(Profile {
            buffer: Rows::new(alloc, part.profile_entries)?,
            capture_objects: part.start_objects(alloc)?,
            capture_period: part.capture_period,
            entries_in_use: 0,
        })
    }

    /// A copy, in a ring of as many places.
    pub fn try_clone(&self, alloc: Global) -> Result<Profile, Memory>
        ensures { IfOk result (λ copy. copy ≡ self.now) }
    {
        Ok(Profile {
            buffer: self.buffer.try_clone(alloc)?,
            capture_objects: copy_if(alloc, &self.capture_objects)?,
            capture_period: self.capture_period,
            entries_in_use: self.entries_in_use,
        })
    }

    /// Puts a capture_period. The previous one is returned. It takes no memory.
    pub fn put(&mut self, lent: Lent<ProfilePart>, index: u8, given: Data) -> u32
        requires index { index ≡ 4 }
        requires fits { meets period_rule (tree given) ≡ true }
        ensures period { counter self.new.capture_period ≡ tree given }
        ensures objects { self.new.capture_objects ≡ self.old.capture_objects }
        ensures rows { array_of self.new.buffer ≡ array_of self.old.buffer }
        ensures count { counter self.new.entries_in_use ≡ counter self.old.entries_in_use }
        ensures previous { result ≡ self.old.capture_period }
    {
        // A write's contract tells what capture_objects shows afterwards, not whether it is there: so it is kept aside.
        let objects = self.capture_objects.take();
        let previous = self.capture_period;
        let _same = put_into(self, lent, index, given);
        self.capture_objects = objects;
        previous
    }

    /// Puts capture_objects where it can be set, and nothing else: a write of it empties the buffer before (IEC 62056-6-2,
    /// Profile generic). The previous one is returned. It takes no memory.
    pub fn put_objects(&mut self, objects: Data) -> Data
        requires { has_cell self.old 3 ≡ true }
        ensures objects { self.new ≡ with_objects (Some objects) self.old }
        ensures previous { self.old.capture_objects ≡ Some result }
    {
        match &mut self.capture_objects {
            Some(held) => mem::replace(held, objects),
            None => unreachable!(),
        }
    }

    /// Method 2, capture: the row goes behind the buffer, of which the oldest entry goes where there is no room, and then it
    /// takes no memory. What is returned takes it back. The only error is that memory was refused, and the object has not
    /// changed then (IEC 62056-6-2, Profile generic).
    pub fn capture(
        &mut self,
        alloc: Global,
        part: &ProfilePart,
        row: Row,
    ) -> Result<Captured, Memory>
        requires { is_buffer (captures_of_part part.now) part.now.profile_entries
            (array_of self.old.buffer) ≡ true }
        ensures same { self.new.capture_period ≡ self.old.capture_period }
        ensures objects { self.new.capture_objects ≡ self.old.capture_objects }
        ensures rows { OnOk result (array_of self.new.buffer
            ≡ buffer_after part.now.profile_entries (array_of self.old.buffer) (structure_of row)) }
        ensures count { OnOk result (counter self.new.entries_in_use
            ≡ in_use_after part.now.profile_entries (counter self.old.entries_in_use)) }
        ensures before { IfOk result (λ captured. before_capture captured self.new ≡ self.old) }
        ensures err { OnErr result (self.new ≡ self.old) }
        ensures full { length self.old.buffer ≡ part.now.profile_entries → IsOk result }
    {
        let entries = part.profile_entries;
        let dropped = self.buffer.capture(alloc, entries, Data::Structure(row))?;
        let more = one_more(self.entries_in_use, entries);
        Ok(Captured {
            dropped,
            entries_in_use: mem::replace(&mut self.entries_in_use, more),
        })
    }

    /// Takes a capture back.
    pub fn take_back(&mut self, captured: Captured)
        ensures { self.new ≡ before_capture captured self.old }
    {
        self.buffer.take_back(captured.dropped);
        self.entries_in_use = captured.entries_in_use;
    }

    /// Method 1, reset: no entry is left (IEC 62056-6-2, Profile generic). What was there is moved out.
    pub fn clear(&mut self) -> Cleared
        ensures cleared { (result.buffer ≡ self.old.buffer)
            × (result.entries_in_use ≡ self.old.entries_in_use) }
        ensures empty { self.new ≡ with_entries [] 0 self.old }
    {
        Cleared {
            buffer: self.buffer.clear(),
            entries_in_use: mem::replace(&mut self.entries_in_use, 0),
        }
    }

    /// Takes a reset back.
    pub fn restore(&mut self, cleared: Cleared)
        ensures { self.new ≡ with_entries cleared.buffer cleared.entries_in_use self.old }
    {
        self.buffer = cleared.buffer;
        self.entries_in_use = cleared.entries_in_use;
    }
}

impl Profile {
    ghost use Rattle.class_profile.specs.ProfileView.{before_change};

    /// Takes a change back.
    pub fn undo(&mut self, change: ProfileChange)
        ensures { self.new ≡ before_change change self.old }
    {
        match change {
            ProfileChange::Period(period) => self.capture_period = period,
            ProfileChange::Objects(objects) => self.capture_objects = Some(objects),
            ProfileChange::Captured(captured) => self.take_back(captured),
            ProfileChange::Cleared(cleared) => self.restore(cleared),
        }
    }

    /// A write of attribute 3, capture_objects: other cells are captured from now on, and no entry of those before is left
    /// (IEC 62056-6-2, Profile generic). The previous one is returned.
    fn choose(&mut self, objects: Data) -> Option<Data>
        ensures chosen { self.new ≡ with_objects (Some objects) (with_entries [] 0 self.old) }
        ensures previous { result ≡ self.old.capture_objects }
    {
        self.empty();
        mem::replace(&mut self.capture_objects, Some(objects))
    }

    /// Leaves no entry. The ring stays, for the captures to come.
    fn empty(&mut self)
        ensures { self.new ≡ with_entries [] 0 self.old }
    {
        let cleared = self.clear();
        self.buffer.reuse(cleared.buffer);
    }
}

/// The entries in use after a capture: one more, as long as there is room.
fn one_more(in_use: u32, entries: u32) -> u32
    ensures { result ≡ min (in_use + 1) entries }
{
    in_use.saturating_add(1).min(entries)
}

/// What changes where entries come or go.
fn entries_touched() -> CellSet
    ensures { (i : ℕ) → has result i ≡ ((i == 2) || (i == 7)) }
{
    CellSet::empty()
        .with(Profile::BUFFER)
        .with(Profile::ENTRIES_IN_USE)
}

/// The number of a double-long-unsigned, and 0 for any other value.
fn count_of(value: &Data) -> u32
    ensures { result ≡ values.count_of (tree value.now) }
{
    match value {
        Data::DoubleLongUnsigned(count) => *count,
        _ => 0,
    }
}

impl<'a> InterfaceClass<Lent<'a, ProfilePart>> for Profile {
    ghost use Rattle.class_profile.specs.PartView.{captures_of_part};
    ghost use Rattle.class_profile.specs.ProfileView.{cells_shown};

    const CLASS_ID: u16 = Profile::INTERFACE.class_id;

    const VERSION: u8 = Profile::INTERFACE.version;

    const ATTRIBUTES: u8 = Profile::INTERFACE.attributes;

    const METHODS: u8 = Profile::INTERFACE.methods;

    ghost Fixed = { ProfileFixed };

    ghost fixed = { λ _ lent. record {
      name = lent.name;
      captured = captures_of_part lent.part.now;
      period = lent.part.now.capture_period;
      entries = lent.part.now.profile_entries;
    } };

    ghost cells = { cells_shown };

    ghost reading = { profile_reading };

    ghost refusal = { profile_refusal };

    ghost new_value = { profile_new_value };

    ghost kept = { λ value. value };

    ghost MeetsRule = { ProfileMeetsRule };

    ghost IsRow = { IsProfileRow };

    ghost touched = { profile_touched };

    ghost own_sources = { profile_own_sources };

    ghost row_cells = { profile_row_cells };

    ghost depends_only_on_sources = { profile_depends_only_on_sources };

    ghost writes_its_value = { profile_writes_its_value };

    ghost keeps_rules = { profile_keeps_rules };

    fn read(&self, alloc: Global, lent: Lent<ProfilePart>, index: u8) -> Result<Data, ClassFault> {
        match index {
            1 => Ok(lent.name.as_octets(alloc)?),
            Profile::BUFFER => Ok(self.buffer.to_data(alloc)?),
            Profile::CAPTURE_OBJECTS if lent.part.has_menu() => {
                Ok(copy_or_null(alloc, &self.capture_objects)?)
            }
            Profile::CAPTURE_PERIOD => Ok(Data::DoubleLongUnsigned(self.capture_period)),
            Profile::ENTRIES_IN_USE => Ok(Data::DoubleLongUnsigned(self.entries_in_use)),
            Profile::CAPTURE_OBJECTS
            | Profile::SORT_METHOD
            | Profile::SORT_OBJECT
            | Profile::PROFILE_ENTRIES => Ok(lent.part.fixed(alloc, index)?),
            _ => Err(ClassFault::NoIndex),
        }
    }

    fn write(
        &mut self,
        lent: Lent<ProfilePart>,
        index: u8,
        value: Data,
    ) -> Result<Data, ClassFault> {
        match index {
            Profile::CAPTURE_OBJECTS if lent.part.has_menu() => {
                lent.part.judge_objects(&value)?;
                Ok(self.choose(value).unwrap_or(Data::NullData))
            }
            Profile::CAPTURE_PERIOD => {
                judge_kind(Kind::DoubleLongUnsigned, &value)?;
                let previous = mem::replace(&mut self.capture_period, count_of(&value));
                Ok(Data::DoubleLongUnsigned(previous))
            }
            1..=8 => Err(ClassFault::NotSettable),
            _ => Err(ClassFault::NoIndex),
        }
    }

    fn invoke(
        &mut self,
        alloc: Global,
        lent: Lent<ProfilePart>,
        method: u8,
        _argument: &Data,
        row: Row,
    ) -> Result<(), ClassFault> {
        match method {
            Profile::RESET => {
                self.empty();
                Ok(())
            }
            Profile::CAPTURE => {
                let _captured = self.capture(alloc, lent.part, row)?;
                Ok(())
            }
            _ => Err(ClassFault::NoIndex),
        }
    }

    fn touched(op: Op) -> CellSet
        ensures { (i : ℕ) → has result i ≡ profile_touched op i }
    {
        match op {
            Op::Write(Profile::CAPTURE_PERIOD) => CellSet::empty().with(Profile::CAPTURE_PERIOD),
            Op::Write(Profile::CAPTURE_OBJECTS) => entries_touched().with(Profile::CAPTURE_OBJECTS),
            Op::Invoke(Profile::RESET) | Op::Invoke(Profile::CAPTURE) => entries_touched(),
            _ => CellSet::empty(),
        }
    }

    fn own_sources(op: Op, cell: u8) -> CellSet
        ensures { (i : ℕ) → has result i ≡ profile_own_sources op cell i }
    {
        match (op, cell) {
            (Op::Invoke(Profile::CAPTURE), Profile::BUFFER) => {
                CellSet::empty().with(Profile::BUFFER)
            }
            (Op::Invoke(Profile::CAPTURE), Profile::ENTRIES_IN_USE) => {
                CellSet::empty().with(Profile::ENTRIES_IN_USE)
            }
            _ => CellSet::empty(),
        }
    }

    fn row_cells(op: Op) -> CellSet
        ensures { (i : ℕ) → has result i ≡ profile_row_cells op i }
    {
        match op {
            Op::Invoke(Profile::CAPTURE) => CellSet::empty().with(Profile::BUFFER),
            _ => CellSet::empty(),
        }
    }
}
