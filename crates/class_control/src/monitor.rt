ghost use Rattle.std.specs.Prelude.{◌≡◌, ℕ, is_some, true, false, ⊤, [], length, IfOk, Some};
ghost use Rattle.cosem_data.specs.Tree.{null_data};
ghost use Rattle.cosem_data.specs.View.{tree};
ghost use Rattle.meter_theory.specs.Value.{Thresholds, elements, meets};
ghost use Rattle.meter_theory.specs.Fixed.{monitored_value};
ghost use Rattle.meter_theory.specs.Steps.{due_scripts};
ghost use Rattle.cosem_class.specs.CellSets.{has};
ghost use Rattle.cosem_class.specs.Judged.{rule_answer};
ghost use Rattle.cosem_class.specs.Objects.{cells_after};
ghost use Rattle.cosem_class.specs.declared.class.Op.TheVariants as ops;
ghost use Rattle.class_control.specs.MonitorClass.{MonitorFixed, monitor_fixed, monitor_cells, monitor_reading, monitor_refusal, monitor_new_value, monitor_touched, MonitorMeetsRule};
ghost use Rattle.class_control.specs.MonitorChanges.{seen_before, thresholds_before};
ghost use Rattle.class_control.specs.MonitorLaws.{monitor_depends_only_on_sources, monitor_writes_its_value, monitor_keeps_rules};

use crate::due::due_scripts;
use crate::judge::{elements_of, judge_thresholds};
use crate::parts::MonitorPart;
use crate::references::push_tables;
use crate::shapes::{actions_data, index_data};
use cosem_class::cell_set::CellSet;
use cosem_class::class::{ClassFault, InterfaceClass, Op, Row};
use cosem_class::generic::put_into;
use cosem_class::judge::coded;
use cosem_class::part::ClassPart;
use cosem_class::shapes::structure;
use cosem_data::data::Data;
use cosem_data::kind::Kind;
use cosem_data::memory::Memory;
use cosem_data::name::LogicalName;
use meter_theory::access::AccessCode;
use meter_theory::refs::{Interface, ScriptRef};
use std::alloc::Global;
use std::mem;

/// What a plan lends of a register monitor for an operation.
#[derive(Clone, Copy)]
pub struct Watch<'a> {
    /// Attribute 1, logical_name.
    pub name: LogicalName,
    /// What the plan fixes of the monitor.
    pub part: &'a MonitorPart,
    /// The kind of the monitored value, which is kept (own profile).
    pub kind: Kind,
}

/// The cells of an object of class 21, Register monitor: thresholds of a monitored value, and what was last seen of it
/// (IEC 62056-6-2, Register monitor, version 0).
#[derive(Drop)]
pub struct Monitor {
    /// Attribute 2, thresholds: an array of one value of the monitored kind for each action.
    pub thresholds: Data,
    /// The inner cell, which no request names: the monitored value at the last evaluation, null-data before the first (own
    /// profile).
    pub seen: Data,
}

/// What an operation changed of a register monitor.
#[derive(Drop)]
pub enum MonitorChange {
    /// The thresholds before.
    Thresholds(Data),
    /// What it saw last before.
    Seen(Data),
}

/// The indexes of the cells.
static CELLS: [u8; 2] = [Monitor::THRESHOLDS, Monitor::SEEN];

impl Monitor {
    /// Class 21, Register monitor, version 0, with four attributes and no method (IEC 62056-6-2).
    pub const INTERFACE: Interface = Interface {
        class_id: 21,
        version: 0,
        attributes: 4,
        methods: 0,
    };

    /// The index of the inner cell, which no request names (own profile).
    pub const SEEN: u8 = 0;

    /// The index of the thresholds.
    pub const THRESHOLDS: u8 = 2;

    /// The index of the attribute that is watched.
    pub const MONITORED_VALUE: u8 = 3;

    /// The index of the actions.
    pub const ACTIONS: u8 = 4;

    /// A monitor with the start of its thresholds, which has seen nothing.
    pub fn start(alloc: Global, part: &MonitorPart) -> Result<Monitor, Memory>
        ensures thresholds { IfOk result (λ object. tree object.thresholds ≡ tree part.now.start) }
        ensures seen { IfOk result (λ object. tree object.seen ≡ null_data) }
    {
        Ok(Monitor {
            thresholds: part.start.try_clone(alloc)?,
            seen: Data::NullData,
        })
    }

    /// A copy.
    pub fn try_clone(&self, alloc: Global) -> Result<Monitor, Memory>
        ensures thresholds { IfOk result (λ copy. tree copy.thresholds ≡ tree self.now.thresholds) }
        ensures seen { IfOk result (λ copy. tree copy.seen ≡ tree self.now.seen) }
    {
        Ok(Monitor {
            thresholds: self.thresholds.try_clone(alloc)?,
            seen: self.seen.try_clone(alloc)?,
        })
    }

    /// Whether there is a cell at this index: the thresholds, and what was seen.
    pub fn has(&self, index: u8) -> bool
        ensures { result
            ≡ is_some (monitor_cells (tree self.now.seen) (tree self.now.thresholds) index) }
    {
        matches!(index, Monitor::SEEN | Monitor::THRESHOLDS)
    }

    /// The value in the cell at this index.
    pub fn held(&self, index: u8) -> &Data
        requires { is_some (monitor_cells (tree self.now.seen) (tree self.now.thresholds) index) ≡ true }
        ensures { monitor_cells (tree self.now.seen) (tree self.now.thresholds) index ≡ Some (tree result.now) }
    {
        match index {
            Monitor::SEEN => &self.seen,
            _ => &self.thresholds,
        }
    }

    /// Puts thresholds that fit the actions and the monitored kind. The previous ones are returned. It takes no memory.
    pub fn put(&mut self, watch: Watch, index: u8, given: Data) -> Data
        requires index { index ≡ 2 }
        requires fits { meets (Thresholds (length watch.part.now.actions.items) watch.kind)
            (tree given) ≡ true }
        ensures thresholds { tree self.new.thresholds ≡ tree given }
        ensures seen { tree self.new.seen ≡ tree self.old.seen }
        ensures previous { tree result ≡ tree self.old.thresholds }
    {
        put_into(self, watch, index, given)
    }

    /// Puts back what was there before.
    pub fn undo(&mut self, change: MonitorChange)
        ensures thresholds { tree self.new.thresholds ≡ thresholds_before change (tree self.old.thresholds) }
        ensures seen { tree self.new.seen ≡ seen_before change (tree self.old.seen) }
    {
        match change {
            MonitorChange::Thresholds(held) => self.thresholds = held,
            MonitorChange::Seen(held) => self.seen = held,
        }
    }

    /// Remembers the monitored value as the one of the last evaluation, and returns the one before (own profile). It takes
    /// no memory, and there is no error.
    pub fn remember(&mut self, now: Data) -> Data
        ensures previous { tree result ≡ tree self.old.seen }
        ensures seen { tree self.new.seen ≡ tree now }
        ensures thresholds { tree self.new.thresholds ≡ tree self.old.thresholds }
        ensures cells { (fixed : MonitorFixed) (i : ℕ)
            → monitor_cells (tree self.new.seen) (tree self.new.thresholds) i
            ≡ cells_after (monitor_touched ops.Remember) (monitor_new_value fixed ops.Remember (tree now) [])
            (monitor_cells (tree self.old.seen) (tree self.old.thresholds)) i }
    {
        mem::replace(&mut self.seen, now)
    }

    /// The scripts that are due where the monitored value is this, in the order of the thresholds, all judged before any is
    /// run (own profile): action_up of a threshold where the value last seen lay below it and this one does not,
    /// action_down the other way, and none where one of them is no number, as before the first evaluation (IEC 62056-6-2,
    /// Register monitor; the side of equality is own profile).
    pub fn due(
        &self,
        alloc: Global,
        part: &MonitorPart,
        now: &Data,
    ) -> Result<Vec<ScriptRef>, Memory>
        ensures { IfOk result (λ scripts. scripts.items
            ≡ due_scripts part.now.actions.items (elements (tree self.now.thresholds)) (tree self.now.seen) (tree now.now)) }
    {
        due_scripts(
            alloc,
            &part.actions,
            elements_of(&self.thresholds),
            &self.seen,
            now,
        )
    }
}

/// Monitored_value of a register monitor: a structure of class_id, logical_name and attribute_index (IEC 62056-6-2,
/// Register monitor, value_definition).
fn monitored_data(alloc: Global, part: &MonitorPart) -> Result<Data, Memory>
    ensures { IfOk result (λ value. tree value ≡ monitored_value part.now.monitored_value) }
{
    let cell = &part.monitored_value;
    let name = cell.name.as_octets(alloc)?;
    let index = index_data(cell.index);
    structure(alloc, [Data::LongUnsigned(cell.class_id), name, index])
}

/// The same as `judge_thresholds`, with the code of the fault.
fn thresholds_answer(number: usize, kind: Kind, value: &Data) -> Result<(), AccessCode>
    ensures { result ≡ rule_answer (Some (Thresholds number kind)) (tree value.now) }
{
    coded(judge_thresholds(number, kind, value))
}

impl ClassPart for MonitorPart {
    ghost use Rattle.class_control.specs.PartView.{monitor_part_of};

    ghost part = { monitor_part_of };

    fn interface(&self) -> Interface {
        Monitor::INTERFACE
    }

    fn cells(&self) -> &'static [u8] {
        &CELLS
    }

    fn start_kind(&self, index: u8) -> Kind {
        match index {
            Monitor::THRESHOLDS => self.start.kind(),
            _ => Kind::NullData,
        }
    }

    /// 3, monitored_value, and 4, actions (IEC 62056-6-2, Register monitor).
    #[tactic(auto, unfolding(meter_theory::specs::Fixed::fixed_in))]
    fn fixed(&self, alloc: Global, index: u8) -> Result<Data, Memory> {
        match index {
            Monitor::MONITORED_VALUE => monitored_data(alloc, self),
            Monitor::ACTIONS => actions_data(alloc, &self.actions),
            _ => Ok(Data::NullData),
        }
    }

    fn judge(&self, monitored: Kind, index: u8, value: &Data) -> Result<(), AccessCode> {
        match index {
            Monitor::THRESHOLDS => thresholds_answer(self.actions.len(), monitored, value),
            _ => Err(AccessCode::TypeUnmatched),
        }
    }

    fn push_references(&self, names: &mut Vec<LogicalName>) -> Result<(), Memory> {
        names.push(self.monitored_value.name)?;
        push_tables(&self.actions, names)
    }
}

impl<'a> InterfaceClass<Watch<'a>> for Monitor {
    const CLASS_ID: u16 = Monitor::INTERFACE.class_id;

    const VERSION: u8 = Monitor::INTERFACE.version;

    const ATTRIBUTES: u8 = Monitor::INTERFACE.attributes;

    const METHODS: u8 = Monitor::INTERFACE.methods;

    ghost Fixed = { MonitorFixed };

    ghost fixed = { λ _ watch. monitor_fixed watch.name watch.kind watch.part.now };

    ghost cells = { λ s. monitor_cells (tree s.seen) (tree s.thresholds) };

    ghost reading = { monitor_reading };

    ghost refusal = { monitor_refusal };

    ghost new_value = { monitor_new_value };

    ghost kept = { λ value. value };

    ghost MeetsRule = { MonitorMeetsRule };

    ghost IsRow = { λ _ _ _. ⊤ };

    ghost touched = { monitor_touched };

    ghost own_sources = { λ _ _ _. false };

    ghost row_cells = { λ _ _. false };

    ghost depends_only_on_sources = { monitor_depends_only_on_sources };

    ghost writes_its_value = { monitor_writes_its_value };

    ghost keeps_rules = { monitor_keeps_rules };

    fn read(&self, alloc: Global, watch: Watch, index: u8) -> Result<Data, ClassFault> {
        match index {
            1 => Ok(watch.name.as_octets(alloc)?),
            Monitor::THRESHOLDS => Ok(self.thresholds.try_clone(alloc)?),
            Monitor::MONITORED_VALUE => Ok(monitored_data(alloc, watch.part)?),
            Monitor::ACTIONS => Ok(actions_data(alloc, &watch.part.actions)?),
            _ => Err(ClassFault::NoIndex),
        }
    }

    fn write(&mut self, watch: Watch, index: u8, value: Data) -> Result<Data, ClassFault> {
        match index {
            Monitor::THRESHOLDS => {
                judge_thresholds(watch.part.actions.len(), watch.kind, &value)?;
                Ok(mem::replace(&mut self.thresholds, value))
            }
            1 | Monitor::MONITORED_VALUE | Monitor::ACTIONS => Err(ClassFault::NotSettable),
            _ => Err(ClassFault::NoIndex),
        }
    }

    fn invoke(
        &mut self,
        _alloc: Global,
        _watch: Watch,
        _method: u8,
        _argument: &Data,
        _row: Row,
    ) -> Result<(), ClassFault> {
        Err(ClassFault::NoIndex)
    }

    fn touched(op: Op) -> CellSet
        ensures { (i : ℕ) → has result i ≡ monitor_touched op i }
    {
        match op {
            Op::Write(Monitor::THRESHOLDS) => CellSet::empty().with(Monitor::THRESHOLDS),
            Op::Remember => CellSet::empty().with(Monitor::SEEN),
            _ => CellSet::empty(),
        }
    }

    fn own_sources(_op: Op, _cell: u8) -> CellSet
        ensures { (i : ℕ) → has result i ≡ false }
    {
        CellSet::empty()
    }

    fn row_cells(_op: Op) -> CellSet
        ensures { (i : ℕ) → has result i ≡ false }
    {
        CellSet::empty()
    }
}
